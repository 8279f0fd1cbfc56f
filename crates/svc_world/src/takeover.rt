//! What the world of a service takes over from an earlier svscan.
use svc_record::{Fate, Left, Place, ProcessId};

/// What the world of a service takes over from an earlier svscan.
#[derive(Clone, Copy, Debug, PartialEq, Eq)]
pub struct Takeover {
    /// The place of the service as it is on disk.
    pub place: Place,
    /// Whether that place is the intent of the earlier svscan. Something of that start may be left over then.
    pub is_open: bool,
    /// The process that already runs for the service.
    pub adopted: Option<ProcessId>,
}

impl Takeover {
    ghost use Rattle.std.specs.Prelude.{◌≡◌, true, None};
    ghost use Rattle.svc_world.specs.Takeover.{living, taken_over};

    /// Returns what is taken over, by what became of the recorded process and by the start that the earlier svscan
    /// intended. `vacant` is the place of a service that was not started yet.
    pub fn of(vacant: &Place, process: &Fate, intended: Option<Place>) -> Takeover
        ensures all { result ≡ taken_over vacant.now process.now intended }
        ensures adopted { result.adopted ≡ living process.now }
        ensures one { result.is_open ≡ true → result.adopted ≡ None }
    {
        match (process, intended) {
            (Fate::Lives(process), _) => Takeover {
                place: vacant.occupied(process.pid, process.tick),
                is_open: false,
                adopted: Some(*process),
            },
            (_, Some(place)) => Takeover {
                place,
                is_open: true,
                adopted: None,
            },
            (_, None) => Takeover {
                place: *vacant,
                is_open: false,
                adopted: None,
            },
        }
    }
}

/// What remains of a service after an earlier svscan.
#[derive(Clone, Copy, Debug, PartialEq, Eq)]
pub struct Remains {
    /// How the service begins follows from this.
    pub left: Left,
    /// What its world takes over.
    pub taken: Takeover,
}

impl Remains {
    ghost use Rattle.std.specs.Prelude.{◌≡◌};
    ghost use Rattle.svc_world.specs.Takeover.{AreOne, taken_over};

    /// Returns what remains, by what was left and by the start that the earlier svscan intended. `vacant` is the place of
    /// a service that was not started yet.
    pub fn of(vacant: &Place, left: Left, intended: Option<Place>) -> Remains
        ensures left { result.left ≡ left }
        ensures taken { result.taken ≡ taken_over vacant.now left.process intended }
        ensures one { AreOne result }
    {
        Remains {
            left,
            taken: Takeover::of(vacant, &left.process, intended),
        }
    }
}
