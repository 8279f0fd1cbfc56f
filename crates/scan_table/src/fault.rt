ghost use Rattle.std.specs.Prelude.{◌≡◌};

use std::alloc::AllocError;
use std::error::Error;
use std::fmt;

/// Why a scan was refused. The places of rows are counted from 0.
#[derive(Clone, Copy, Debug, PartialEq, Eq)]
pub enum ScanFault {
    /// This name is the first one that is smaller than the name before it.
    Unsorted(u64),

    /// This name is the first one that equals the name before it.
    Twice(u64),

    /// The scan needs more numbers than the counter has left.
    Exhausted,

    /// The allocator refused memory for what the scan makes.
    OutOfMemory,
}

/// Shows the name of the fault, without the place.
impl fmt::Display for ScanFault {
    ghost use Rattle.std.specs.Prelude.{Some};
    ghost use Rattle.scan_table.specs.Named.{scan_fault_name};

    ghost output = { λ why. Some (scan_fault_name why) };

    fn fmt<W: fmt::Write>(&self, f: &mut fmt::Formatter<W>) -> fmt::Result {
        f.write_str(match self {
            ScanFault::Unsorted(_) => "Unsorted",
            ScanFault::Twice(_) => "Twice",
            ScanFault::Exhausted => "Exhausted",
            ScanFault::OutOfMemory => "OutOfMemory",
        })
    }
}

impl Error for ScanFault {}

impl From<AllocError> for ScanFault {
    fn from(_error: AllocError) -> ScanFault
        ensures { result ≡ ScanFault.OutOfMemory }
    {
        ScanFault::OutOfMemory
    }
}
