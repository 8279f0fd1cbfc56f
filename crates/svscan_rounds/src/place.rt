//! The place of the one service of `supervise`.
ghost use Rattle.std.specs.Prelude.{◌≡◌, [], IfSome, MatchOption, ⊤, true};
ghost use Rattle.scan_table.specs.Slots.{is_service_name};
ghost use Rattle.svscan_rounds.specs.Places.{LeadsTo};

use crate::needed::is_service_name;

/// The folder in which a service is, and its name there.
#[derive(Clone, Copy, Debug)]
pub struct ServicePlace<'a> {
    pub folder: &'a str,
    pub name: &'a str,
}

/// Returns the place of the service in the folder at a path, unless the path is empty. Its name is one that a service
/// may have, whatever the path.
pub fn place_of<'a>(dir: &'a str) -> Option<ServicePlace<'a>>
    ensures nowhere { MatchOption result (dir.now ≡ []) (λ _. ⊤) }
    ensures leads { IfSome result (λ place. LeadsTo dir.now place.folder.now place.name.now) }
    ensures name { IfSome result (λ place. is_service_name place.name.now ≡ true) }
{
    if dir.is_empty() {
        return None;
    }
    Some(cut(dir))
}

/// Cuts a path at its last slash, if what is after it is a name that a service may have.
fn cut<'a>(dir: &'a str) -> ServicePlace<'a>
    ensures leads { LeadsTo dir.now result.folder.now result.name.now }
    ensures name { is_service_name result.name.now ≡ true }
{
    match dir.rsplit_once('/') {
        Some(("", name)) if is_service_name(name) => ServicePlace { folder: "/", name },
        Some((folder, name)) if is_service_name(name) => ServicePlace { folder, name },
        None if is_service_name(dir) => ServicePlace {
            folder: ".",
            name: dir,
        },
        _ => ServicePlace {
            folder: dir,
            name: "/",
        },
    }
}
