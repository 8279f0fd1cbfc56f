//! Why a line is refused, and why `sim` ends early.
ghost use Rattle.std.specs.Prelude.{◌≡◌, ◌≤◌, length};
ghost use Rattle.cmd_sim.specs.Ends.{why_name};

use scan_table::ScanFault;
use std::alloc::AllocError;
use suite_core::StepFault;
use suite_lines::SuiteLineFault;
use sup_core::EventFault;

/// Why a line is refused.
#[derive(Clone, Copy, Debug, PartialEq, Eq)]
pub enum Why {
    /// The first word is not known.
    UnknownEvent,
    /// The number of fields is wrong, or a field other than a number or a label.
    Line,
    /// A number is wrong.
    Number,
    /// A label is wrong.
    Label,
    /// The suite has no such part.
    NoSuchPart,
    /// The rows of a scan do not rise by name.
    Unsorted,
    /// Two rows of a scan have the same name.
    Twice,
    /// A scan needs more numbers than are left.
    Exhausted,
}

/// Returns the name of the reason to refuse a line.
pub(crate) fn why_name(why: Why) -> &'static str
    ensures name { result.now ≡ why_name why }
    ensures short { length result.now ≤ 12 }
{
    match why {
        Why::UnknownEvent => "UnknownEvent",
        Why::Line => "Line",
        Why::Number => "Number",
        Why::Label => "Label",
        Why::NoSuchPart => "NoSuchPart",
        Why::Unsorted => "Unsorted",
        Why::Twice => "Twice",
        Why::Exhausted => "Exhausted",
    }
}

/// Why `sim` exits before the end of its input.
#[derive(Clone, Copy, Debug, PartialEq, Eq)]
pub enum SimFault {
    /// A line is refused. Lines are numbered from 1.
    Refused { line: u64, why: Why },
    OutOfMemory,
    Read,
    Write,
}

/// Why a line has no answer.
#[derive(Clone, Copy, Debug, PartialEq, Eq)]
pub(crate) enum NoAnswer {
    Refused(Why),
    OutOfMemory,
}

impl From<EventFault> for NoAnswer {
    ghost use Rattle.std.specs.Prelude.{◌≡◌};
    ghost use Rattle.cmd_sim.specs.declared.fault.NoAnswer.TheVariants.{Refused};
    ghost use Rattle.cmd_sim.specs.Sim.{event_why};

    ghost from_gives = { λ fault none. none ≡ Refused (event_why fault) };

    fn from(fault: EventFault) -> NoAnswer {
        NoAnswer::Refused(match fault {
            EventFault::UnknownEvent => Why::UnknownEvent,
            EventFault::Line => Why::Line,
            EventFault::Number => Why::Number,
            EventFault::Label => Why::Label,
        })
    }
}

impl From<SuiteLineFault> for NoAnswer {
    ghost use Rattle.std.specs.Prelude.{◌≡◌};
    ghost use Rattle.cmd_sim.specs.Progress.{unread};

    ghost from_gives = { λ fault none. none ≡ unread fault };

    fn from(fault: SuiteLineFault) -> NoAnswer {
        match fault {
            SuiteLineFault::UnknownEvent => NoAnswer::Refused(Why::UnknownEvent),
            SuiteLineFault::Line => NoAnswer::Refused(Why::Line),
            SuiteLineFault::Number => NoAnswer::Refused(Why::Number),
            SuiteLineFault::Label => NoAnswer::Refused(Why::Label),
            SuiteLineFault::OutOfMemory => NoAnswer::OutOfMemory,
        }
    }
}

impl From<StepFault> for NoAnswer {
    ghost use Rattle.std.specs.Prelude.{◌≡◌};
    ghost use Rattle.cmd_sim.specs.Progress.{unstepped};

    ghost from_gives = { λ fault none. none ≡ unstepped fault };

    fn from(fault: StepFault) -> NoAnswer {
        match fault {
            StepFault::NoSuchPart => NoAnswer::Refused(Why::NoSuchPart),
            StepFault::Scan(ScanFault::Unsorted(_)) => NoAnswer::Refused(Why::Unsorted),
            StepFault::Scan(ScanFault::Twice(_)) => NoAnswer::Refused(Why::Twice),
            StepFault::Scan(ScanFault::Exhausted) => NoAnswer::Refused(Why::Exhausted),
            StepFault::Scan(ScanFault::OutOfMemory) | StepFault::OutOfMemory =>
                NoAnswer::OutOfMemory,
        }
    }
}

impl From<AllocError> for NoAnswer {
    ghost use Rattle.std.specs.Prelude.{◌≡◌};
    ghost use Rattle.cmd_sim.specs.declared.fault.NoAnswer.TheVariants.{OutOfMemory};

    ghost from_gives = { λ _ none. none ≡ OutOfMemory };

    fn from(_error: AllocError) -> NoAnswer {
        NoAnswer::OutOfMemory
    }
}
