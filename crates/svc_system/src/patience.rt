//! For how long a lock is tried that somebody else holds.
use std::fs::{File, TryLockError};
use std::sync::Wait;
use std::thread;
use std::time::{Clock, Duration};

/// The seconds for which a lock is tried.
const PATIENCE: u64 = 1;

/// The seconds for which svscan's own lock is tried. Without it svscan can do nothing else.
const OWN_PATIENCE: u64 = 5;

/// The milliseconds between two tries.
const LOCK_REST: u64 = 2;

/// The time until which a lock is tried that somebody else holds. A child that a killed svscan has just made holds that
/// svscan's locks until it executes its program.
#[derive(Clone, Copy, Debug, PartialEq, Eq)]
pub struct Patience {
    until: Option<Duration>,
}

impl Patience {
    /// Returns patience of one second from now, by the running clock.
    pub fn new<R: Clock>(rt: &R) -> Patience {
        Patience::of(rt, PATIENCE)
    }

    /// Returns patience of five seconds from now, for svscan's own lock.
    pub(crate) fn for_own_lock<R: Clock>(rt: &R) -> Patience {
        Patience::of(rt, OWN_PATIENCE)
    }

    /// Returns patience of this many seconds from now.
    fn of<R: Clock>(rt: &R, seconds: u64) -> Patience {
        let now = rt.monotonic().ok();
        Patience {
            until: now.map_or(None, |now| now.checked_add(Duration::from_secs(seconds))),
        }
    }

    /// Waits a moment before the next try. Returns whether there is to be one.
    pub fn wait<R: Clock + Wait>(&self, rt: &R) -> bool {
        match (rt.monotonic(), self.until) {
            (Ok(now), Some(until)) if now < until => {
                thread::sleep(rt, Duration::from_millis(LOCK_REST));
                true
            }
            _ => false,
        }
    }

    /// Takes a lock. Tries repeatedly while somebody else holds it.
    pub(crate) fn lock<R: Clock + Wait>(&self, rt: &R, file: &File) -> Result<(), TryLockError> {
        for _ in rt.forever() {
            match file.try_lock() {
                Err(TryLockError::WouldBlock) if self.wait(rt) => {}
                tried => return tried,
            }
        }
        unreachable!()
    }
}
