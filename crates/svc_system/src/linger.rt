//! How long the report of a death waits for control bytes.
ghost use Rattle.std.specs.Prelude.{◌≡◌, None};
ghost use Rattle.svc_system.specs.Linger.{lingers, seen, waits};

use cmd_base::millis_between;
use std::time::Duration;

/// The milliseconds after a letter in which the next one is awaited. A sender whose letter does not fit tries again
/// after one millisecond, and later on a busy machine.
const GAP: u64 = 20;

/// The most milliseconds for which a death is kept.
const LONGEST: u64 = 1000;

/// Returns whether a death waits. Both arguments are in milliseconds: since the last letter came, and since the death
/// was found.
fn waits(since_letter: u64, since_found: u64) -> bool
    ensures { result ≡ waits since_letter since_found }
{
    since_letter < GAP && since_found < LONGEST
}

/// What is known of the letters and of the death of a child.
#[derive(Clone, Copy, Debug, PartialEq, Eq)]
pub(crate) struct Linger {
    // The number of letters, and when it last changed.
    letters: u64,
    changed: Option<Duration>,
    // When the death was found.
    found: Option<Duration>,
}

impl Linger {
    pub(crate) fn new() -> Linger {
        Linger {
            letters: 0,
            changed: None,
            found: None,
        }
    }

    /// Begins with a new child, at a moment when this many letters had come.
    pub(crate) fn begin(&mut self, letters: u64)
        ensures { self.new ≡ record { letters = letters; changed = None; found = None } }
    {
        self.letters = letters;
        self.changed = None;
        self.found = None;
    }

    /// Returns whether the child's death waits at this time, when this many letters have come.
    pub(crate) fn look(&mut self, letters: u64, now: Duration) -> bool
        ensures seen { self.new ≡ seen letters now self.old }
        ensures waits { result ≡ lingers now self.new }
    {
        if self.letters != letters {
            self.letters = letters;
            self.changed = Some(now);
        }
        let found = self.found.unwrap_or(now);
        self.found = Some(found);
        match self.changed {
            Some(changed) => waits(millis_between(changed, now), millis_between(found, now)),
            None => false,
        }
    }
}
