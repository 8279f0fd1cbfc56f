ghost use Rattle.std.specs.Prelude.{◌≡◌};

use scan_table::ScanFault;
use std::alloc::AllocError;
use std::error::Error;
use std::fmt;

/// Why an event was not taken.
#[derive(Clone, Copy, Debug, PartialEq, Eq)]
pub enum StepFault {
    /// There is no such part in the suite.
    NoSuchPart,

    /// The table refuses the scan: its rows don't rise, or need more numbers than are left.
    Scan(ScanFault),

    /// The allocator refused memory.
    OutOfMemory,
}

impl fmt::Display for StepFault {
    ghost use Rattle.std.specs.Prelude.{Some};
    ghost use Rattle.suite_core.specs.Named.{step_fault_name};

    ghost output = { λ why. Some (step_fault_name why) };

    fn fmt<W: fmt::Write>(&self, f: &mut fmt::Formatter<W>) -> fmt::Result {
        match self {
            StepFault::NoSuchPart => f.write_str("NoSuchPart"),
            StepFault::Scan(why) => write!(f, "{}", why),
            StepFault::OutOfMemory => f.write_str("OutOfMemory"),
        }
    }
}

impl Error for StepFault {}

impl From<AllocError> for StepFault {
    fn from(_error: AllocError) -> StepFault
        ensures { result ≡ StepFault.OutOfMemory }
    {
        StepFault::OutOfMemory
    }
}

/// Why a run ended early: the place of the event, counted from 0, and the reason.
#[derive(Clone, Copy, Debug, PartialEq, Eq)]
pub struct SuiteFault {
    pub place: usize,
    pub fault: StepFault,
}

impl fmt::Display for SuiteFault {
    ghost use Rattle.std.specs.Prelude.{Some};
    ghost use Rattle.suite_core.specs.Named.{suite_fault_text};

    ghost output = { λ why. Some (suite_fault_text why) };

    fn fmt<W: fmt::Write>(&self, f: &mut fmt::Formatter<W>) -> fmt::Result {
        write!(f, "event {}: {}", self.place, self.fault)
    }
}

impl Error for SuiteFault {}
