//! When the next start of a service waits, because its processes end too often.
ghost use Rattle.std.specs.Prelude.{◌≡◌};
ghost use Rattle.svc_world.specs.Backoff.{asks_end, seconds_after, tick_after};

use arrayvec::ArrayVec;
use std::marker::Model;
use sup_core::Sig;
use svc_record::TICKS;
use tai_status::Label;

/// The seconds within which the ends come.
const MINUTE: u128 = 60;

/// Returns whether a signal asks a process to end.
pub(crate) fn asks_end(sig: Sig) -> bool
    ensures { result ≡ asks_end sig }
{
    !matches!(sig, Sig::STOP | Sig::CONT)
}

/// Returns the tick that comes this many seconds after another one, or the last tick.
pub(crate) fn tick_after(seconds: u64, tick: u64) -> u64
    ensures { result ≡ tick_after seconds tick }
{
    let later = u128::from(tick) + u128::from(seconds) * TICKS;
    u64::try_from(later).unwrap_or(u64::MAX)
}

/// Returns the label of a time this many seconds later.
pub fn seconds_after(seconds: u64, label: Label) -> Label
    ensures { result ≡ seconds_after seconds label }
{
    Label::new(label.sec.saturating_add(seconds), label.nano).unwrap_or(Label::MAX)
}

/// The ticks of the kernel's clock at which processes of a service ended and nobody asked for it: the last four of
/// them, in order.
#[derive(Drop)]
pub(crate) struct Ends {
    ticks: ArrayVec<u64, 4>,
}

impl Model for Ends {
    ghost use Rattle.std.specs.Prelude.{ℕ, List};

    ghost Value = { List ℕ };

    ghost view = { λ ends. ends.ticks.items };
}

impl Ends {
    ghost use Rattle.std.specs.Prelude.{◌≡◌, ◌++◌, ◌∷◌, []};
    ghost use Rattle.svc_world.specs.Backoff.{is_fifth, last_four};

    /// Returns no ends.
    pub(crate) fn none() -> Ends
        ensures { result ≡ [] }
    {
        Ends {
            ticks: ArrayVec::new(),
        }
    }

    /// Adds an end at this tick.
    pub(crate) fn add(&mut self, tick: u64)
        ensures { self.new ≡ last_four (self.old ++ tick ∷ []) }
    {
        if self.ticks.is_full() {
            self.ticks.remove(0);
        }
        self.ticks.push(tick);
    }

    /// Returns whether an end at this tick, after these, is the fifth within a minute.
    pub(crate) fn is_fifth(&self, tick: u64) -> bool
        ensures { result ≡ is_fifth tick self.now }
    {
        match self.ticks.as_slice() {
            [first, _, _, _] => u128::from(tick) <= u128::from(*first) + MINUTE * TICKS,
            _ => false,
        }
    }
}
