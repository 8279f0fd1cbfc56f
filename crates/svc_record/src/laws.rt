//! What a reader can rely on of a place, and of what is left over of a start.
ghost use Rattle.svc_record.specs.Leftover.{NobodyIsLeft, TakesUpItsOwn};
ghost use Rattle.svc_record.specs.Place.{PlacesShowStarts};
ghost use Rattle.svc_record.specs.declared.leftover.TheConstants.{GENERATIONS};

/// States that a process which is taken up was seen alive, began since the intent, and belongs to nobody else. By its
/// session it may be the process of the start, and no other process might be.
pub fn takes_up_its_own()
    ensures { TakesUpItsOwn GENERATIONS }
{}

/// States that nobody is left only if no process was seen that may be the one of the start.
pub fn nobody_is_left()
    ensures { NobodyIsLeft GENERATIONS }
{}

/// States that the place of a service shows an intended start until the process that it made is recorded, or it made
/// none. It shows an intended `finish` until that has ended.
pub fn places_show_starts()
    ensures { PlacesShowStarts }
{}
