//! How long a thread rests.
ghost use Rattle.std.specs.Prelude.{◌≡◌};
ghost use Rattle.svc_host.specs.Rests.{rest_before, shorter};

use std::time::Duration;
use tai_status::Label;

const NANOS_IN_SECOND: u64 = 1_000_000_000;

/// Returns how many nanoseconds it is from one label to another, at most a second. Labels are from the wall clock: with
/// this bound, a step of that clock delays a rest by no more than a second.
pub(crate) fn rest_before(now: Label, until: Label) -> u64
    ensures { result ≡ rest_before now until }
{
    if until <= now {
        return 0;
    }
    match until.sec - now.sec {
        0 => u64::from(until.nano - now.nano),
        1 => (NANOS_IN_SECOND + u64::from(until.nano) - u64::from(now.nano)).min(NANOS_IN_SECOND),
        _ => NANOS_IN_SECOND,
    }
}

/// Returns the shorter of two rests. None means without limit.
pub(crate) fn shorter(one: Option<u64>, other: Option<u64>) -> Option<u64>
    ensures { result ≡ shorter one other }
{
    match (one, other) {
        (Some(one), Some(other)) => Some(one.min(other)),
        (Some(rest), None) | (None, Some(rest)) => Some(rest),
        (None, None) => None,
    }
}

/// Returns a time in nanoseconds, or the greatest number if it has more.
pub(crate) fn nanos_of(time: Duration) -> u64 {
    u64::try_from(time.as_nanos()).unwrap_or(u64::MAX)
}
