//! The present tick, and a time that does not go back with the clock.
ghost use Rattle.std.specs.Prelude.{◌≡◌};
ghost use Rattle.svc_system.specs.Times.{later, present_tick, steady};

use cmd_base::millis_between;
use std::time::Duration;
use svc_record::tick_at;
use svc_world::seconds_after;
use tai_status::Label;

/// Returns the tick at this time of the running clock. Returns the first tick if the time is not known.
pub(crate) fn present_tick(now: Option<Duration>) -> u64
    ensures { result ≡ present_tick now }
{
    match now {
        Some(now) => tick_at(now),
        None => 1,
    }
}

/// A reading of the clock.
#[derive(Clone, Copy, Debug, PartialEq, Eq)]
pub(crate) struct ClockReading {
    /// What the clock gave.
    pub(crate) label: Label,
    /// The running clock at that time.
    pub(crate) time: Duration,
}

/// Returns the later one of two labels.
fn later(one: Label, other: Label) -> Label
    ensures { result ≡ later one other }
{
    if one < other { other } else { one }
}

/// Returns this label, or that of an earlier reading and the whole seconds since then, if that is later. `now` is the
/// running clock, which nobody sets.
pub(crate) fn steady(label: Label, earlier: Option<ClockReading>, now: Option<Duration>) -> Label
    ensures { result ≡ steady label earlier now }
{
    match (earlier, now) {
        (Some(earlier), Some(now)) => {
            let seconds = millis_between(earlier.time, now) / 1000;
            later(label, seconds_after(seconds, earlier.label))
        }
        _ => label,
    }
}
