//! What a world is asked, and what it returns.
use sup_core::{Ask, Event};
use tai_status::Label;

/// One call of a world, with its result. Contracts use lists of these for what a world was asked and what it returned.
#[derive(Clone, Copy, Debug, PartialEq, Eq)]
pub enum Call {
    /// The world was given this ask.
    Requested(Ask),
    /// The world returned this start, failed start or death.
    Answered(Event),
    /// The world was polled for the result of a start, and had none.
    NoStart,
    /// The world was polled for a death, and had none.
    NoDeath,
    /// The clock was read.
    Read(Label),
}

/// The result of a start.
#[derive(Clone, Copy, Debug, PartialEq, Eq)]
pub enum StartAnswer {
    /// The start made this process. Its number is at least 1.
    Started { pid: u32, label: Label },
    /// The start failed.
    Failed { label: Label },
}

impl StartAnswer {
    ghost use Rattle.std.specs.Prelude.{◌≡◌};
    ghost use Rattle.svc_house.specs.Calls.{event_of};

    /// Returns the event of this result.
    pub fn event(self) -> Event
        ensures { result ≡ event_of self }
    {
        match self {
            StartAnswer::Started { pid, label } => Event::Started { pid, label },
            StartAnswer::Failed { label } => Event::StartFailed { label },
        }
    }
}
