//! What is known of a child.
use svc_record::{Ending, Exit};
use tai_status::Label;

/// How a child ended, and when.
#[derive(Clone, Copy, Debug, PartialEq, Eq)]
pub struct Death {
    pub ending: Ending,
    pub label: Label,
}

/// What is known of the child that was spawned last.
#[derive(Clone, Copy, Debug, PartialEq, Eq)]
pub enum LastChild {
    /// There is none, or its death was reported.
    Gone,
    /// It has this number, and its death is not known yet.
    Alive(u32),
    /// Its death was found, and nothing was done about it yet.
    Dead(Exit),
    /// It died, and the service's `finish` runs.
    Finishing(Exit),
    /// It died, its `finish` has ended or there is none, and its death is not reported yet.
    Ended(Exit),
    /// The same, and the next start waits until this tick of the kernel's clock: its death is reported then.
    Held(Exit, u64),
}

impl Death {
    ghost use Rattle.std.specs.Prelude.{◌≡◌};
    ghost use Rattle.svc_world.specs.Watch.{exit_of};

    /// Returns the exit of the child with this number that died this way.
    pub(crate) fn exit_of(&self, pid: u32) -> Exit
        ensures { result ≡ exit_of pid self.now }
    {
        Exit {
            pid,
            ending: self.ending,
            label: self.label,
        }
    }
}
