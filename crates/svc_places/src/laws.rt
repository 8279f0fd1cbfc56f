//! That a listed word names what it was listed for.
ghost use Rattle.svc_places.specs.Places.{ListedIsFound};

/// A word that is listed for a service in the folder of services is looked up there, and not here, as long as no folder here
/// gets its name.
pub fn listed_is_found()
    ensures { ListedIsFound }
{}
