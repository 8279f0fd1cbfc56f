//! The clock of the system.
ghost use Rattle.std.specs.Prelude.{◌≡◌};
ghost use Rattle.cmd_base.specs.Times.{millis_between};

use std::time::{Clock, Duration, SystemTime, UNIX_EPOCH};
use tai_status::{Label, TimeSource};

/// The system's clock. If it can't be read it repeats its last reading, and at first the label of Unix second 0. It
/// does not show contracts what it gave.
#[derive(Drop)]
pub struct SystemClock<R: Clock + Drop> {
    runtime: R,
    last: Label,
}

impl<R: Clock + Drop> SystemClock<R> {
    /// Returns the clock of this runtime.
    pub fn new(runtime: R) -> SystemClock<R> {
        SystemClock {
            runtime,
            last: Label::from_unix(0, 0).unwrap_or(Label::MAX),
        }
    }
}

/// Returns how many milliseconds passed from one reading of the running clock to another; 0 if the second is earlier.
pub fn millis_between(begin: Duration, now: Duration) -> u64
    ensures { result ≡ millis_between begin now }
{
    match now.checked_sub(begin) {
        Some(time) => u64::try_from(time.as_millis()).unwrap_or(u64::MAX),
        None => 0,
    }
}

/// Reads the label of the system's present time, if the clock can be read.
fn read_clock<R: Clock>(runtime: &R) -> Option<Label> {
    let now = SystemTime::now(runtime).ok()?;
    let since = now.duration_since(UNIX_EPOCH).ok()?;
    Label::from_unix(since.as_secs(), since.subsec_nanos())
}

impl<R: Clock + Drop> TimeSource for SystemClock<R> {
    fn now(&mut self) -> Label {
        if let Some(label) = read_clock(&self.runtime) {
            self.last = label;
        }
        self.last
    }
}
