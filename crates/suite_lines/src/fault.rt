//! Why a suite's line is refused.
ghost use Rattle.std.specs.Prelude.{◌≡◌};
ghost use Rattle.suite_lines.specs.Answers.{line_fault};

use std::alloc::AllocError;
use std::error::Error;
use std::fmt;
use sup_core::EventFault;

/// Why a line spells no event of a suite. The first one that applies is reported.
#[derive(Clone, Copy, Debug, PartialEq, Eq)]
pub enum SuiteLineFault {
    /// A first word is not known: that of the line, or that of its event at a part.
    UnknownEvent,

    /// The number of fields is wrong, or a field other than a number or a label.
    Line,

    /// A number is wrong: that of a slot, a life or a process.
    Number,

    /// A label is wrong.
    Label,

    /// The allocator refused memory for the rows of a scan with a valid line.
    OutOfMemory,
}

impl fmt::Display for SuiteLineFault {
    ghost use Rattle.std.specs.Prelude.{Some};
    ghost use Rattle.suite_lines.specs.Named.{line_fault_name};

    ghost output = { λ why. Some (line_fault_name why) };

    fn fmt<W: fmt::Write>(&self, f: &mut fmt::Formatter<W>) -> fmt::Result {
        f.write_str(match self {
            SuiteLineFault::UnknownEvent => "UnknownEvent",
            SuiteLineFault::Line => "Line",
            SuiteLineFault::Number => "Number",
            SuiteLineFault::Label => "Label",
            SuiteLineFault::OutOfMemory => "OutOfMemory",
        })
    }
}

impl Error for SuiteLineFault {}

impl From<EventFault> for SuiteLineFault {
    ghost from_gives = { λ fault reported. reported ≡ line_fault fault };

    fn from(fault: EventFault) -> SuiteLineFault {
        match fault {
            EventFault::UnknownEvent => SuiteLineFault::UnknownEvent,
            EventFault::Line => SuiteLineFault::Line,
            EventFault::Number => SuiteLineFault::Number,
            EventFault::Label => SuiteLineFault::Label,
        }
    }
}

impl From<AllocError> for SuiteLineFault {
    ghost use Rattle.suite_lines.specs.declared.fault.SuiteLineFault.TheVariants.{OutOfMemory};

    ghost from_gives = { λ _ reported. reported ≡ OutOfMemory };

    fn from(_error: AllocError) -> SuiteLineFault {
        SuiteLineFault::OutOfMemory
    }
}
