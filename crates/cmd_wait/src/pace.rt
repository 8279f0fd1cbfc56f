//! How a wait proceeds: the clock that it reads, and how it rests.
use std::thread;
use std::time::{Clock, Duration};

/// The milliseconds of a rest: a change is seen within 50.
const REST_MILLISECONDS: u64 = 45;

/// A clock, and rests. Contracts see what the clock returned and the rests, while these are recorded.
pub trait Pace {
    ghost use Rattle.std.specs.Prelude.{◌∷◌, [], Option, None, List};
    ghost use Rattle.tai_status.specs.Extended.{Extended};
    ghost use Rattle.cmd_wait.specs.Steps.{Step, Read, Rested};

    ghost steps: { Self → Option (List Step) } = { λ _. None };

    /// Returns the milliseconds since a fixed moment. Setting a clock does not change them.
    fn now(&mut self) -> u64
        ensures read { Extended (steps self.old) (steps self.new) (Read result ∷ []) };

    /// Rests for 45 milliseconds.
    fn rest(&mut self)
        ensures rested { Extended (steps self.old) (steps self.new) (Rested ∷ []) };
}

/// The pace by the system's own clock. It says nothing to contracts. If the clock can't be read, it repeats its last
/// reading, which is 0 at first.
#[derive(Drop)]
pub struct SystemPace<R: Clock + Drop> {
    runtime: R,
    last: u64,
}

impl<R: Clock + Drop> SystemPace<R> {
    /// Returns the pace by the clock of this runtime.
    pub fn new(runtime: R) -> SystemPace<R> {
        SystemPace { runtime, last: 0 }
    }
}

/// Returns the milliseconds that the clock shows, if it can be read.
fn read_milliseconds(clock: &impl Clock) -> Option<u64> {
    let now = clock.monotonic().ok()?;
    u64::try_from(now.as_millis()).ok()
}

impl<R: Clock + Drop> Pace for SystemPace<R> {
    fn now(&mut self) -> u64 {
        if let Some(now) = read_milliseconds(&self.runtime) {
            self.last = now;
        }
        self.last
    }

    fn rest(&mut self) {
        thread::sleep(&self.runtime, Duration::from_millis(REST_MILLISECONDS));
    }
}
