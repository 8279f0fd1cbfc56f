//! When the door looks at something again. Times are milliseconds of a clock that never goes back.
ghost use Rattle.std.specs.Prelude.{◌≡◌};
ghost use Rattle.std.specs.Duration.{as_nanos};
ghost use Rattle.std.specs.IoError.{error_kind};
ghost use Rattle.std.specs.Option.{option_map};
ghost use Rattle.svc_door.specs.Rests.{sooner_of, spoke_at, looked_at, refused_until, polled_for, millis_of};

use crate::connection::Turn;
use std::io;
use std::io::ErrorKind;
use std::time::Duration;

/// How long a refused byte waits.
const RETRY: u64 = 1;

/// How long a connection waits if there are no descriptors or no memory for it.
const SHORTAGE: u64 = 100;

/// How long a connection may be silent.
const SILENCE: u64 = 5000;

/// Returns the earlier of two times. `None` is never.
pub fn sooner(one: Option<u64>, other: Option<u64>) -> Option<u64>
    ensures { result ≡ sooner_of one other }
{
    match (one, other) {
        (Some(one), Some(other)) => Some(one.min(other)),
        (Some(one), None) => Some(one),
        (None, other) => other,
    }
}

/// Returns when the door looks again at a listener that gave no connection.
pub fn after_refusal(fault: &io::Error, now: u64) -> Option<u64>
    ensures { result ≡ refused_until (error_kind fault.now) now }
{
    match fault.kind() {
        ErrorKind::WouldBlock => None,
        ErrorKind::Interrupted | ErrorKind::ConnectionAborted => Some(now),
        _ => Some(now.saturating_add(SHORTAGE)),
    }
}

/// Returns when a connection last gave bytes, after a turn in which it gave some or none.
pub fn spoken(turn: Turn, gave: bool, spoke: u64, now: u64) -> u64
    ensures { result ≡ spoke_at turn gave spoke now }
{
    match turn {
        Turn::Full => now,
        Turn::Waits | Turn::Ended if gave => now,
        Turn::Waits | Turn::Ended => spoke,
    }
}

/// Returns when the door looks at a connection again after a turn. `None`: it is over, or was silent for too long.
pub fn next_look(turn: Turn, watched: bool, spoke: u64, now: u64) -> Option<u64>
    ensures { result ≡ looked_at turn watched spoke now }
{
    let end = spoke.saturating_add(SILENCE);
    match turn {
        Turn::Full => Some(now.saturating_add(RETRY)),
        Turn::Ended => None,
        Turn::Waits if end <= now => None,
        Turn::Waits if watched => Some(end),
        Turn::Waits => Some(end.min(now.saturating_add(SHORTAGE))),
    }
}

/// Returns how long a poll waits at most. `None`: until an event comes.
pub fn poll_limit(due: Option<u64>, now: u64) -> Option<Duration>
    ensures { option_map as_nanos result ≡ polled_for due now }
{
    match due {
        Some(due) => Some(Duration::from_millis(due.saturating_sub(now))),
        None => None,
    }
}

/// Returns a reading of the running clock in milliseconds.
pub fn in_millis(reading: io::Result<Duration>) -> u64
    ensures { result ≡ millis_of reading }
{
    match reading {
        Ok(time) => u64::try_from(time.as_millis()).unwrap_or(u64::MAX),
        Err(_) => 0,
    }
}
