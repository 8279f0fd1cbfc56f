//! How long a rest between two rounds is.
ghost use Rattle.std.specs.Prelude.{◌≡◌};
ghost use Rattle.svscan_rounds.specs.Resting.{IsLeft, nanos_left, rest_nanos};
ghost use Rattle.std.specs.Duration.{as_nanos};

use std::time::Duration;

/// The seconds of a rest between two rounds, and of one look while all services end.
const REST_SECONDS: u64 = 5;

/// Returns a whole rest.
pub fn whole_rest() -> Duration
    ensures { as_nanos result ≡ rest_nanos }
{
    Duration::from_secs(REST_SECONDS)
}

/// Returns how much of a rest is left, by the running clock when it began and now.
pub fn rest_left(begin: Option<Duration>, now: Option<Duration>) -> Option<Duration>
    ensures { IsLeft (nanos_left begin now) result }
{
    let passed = now?.checked_sub(begin?)?;
    let left = whole_rest().checked_sub(passed)?;
    if left.is_zero() { None } else { Some(left) }
}
