//! What was seen of a station's history. The history exists only in the proofs.
ghost use Rattle.std.specs.Prelude.{◌≡◌, length};

use logbook::{Gain, Rule, Seen, Word};
use sup_core::Event;

/// The rule of the book.
pub struct Law;

impl Rule<Event, u64> for Law {
    ghost use Rattle.std.specs.Prelude.{[]};
    ghost use base.Fml.{ftrue};
    ghost use Rattle.svc_station.specs.Book.{IsKept};

    ghost holds = { λ cells log. IsKept cells log };

    ghost first = { [] };

    ghost hinted = { λ n log. Unit {0} };

    ghost shows = { λ log. [] };

    ghost keeps = { λ names log. ftrue };

    ghost moves = { λ ask before after answer. Unit {0} };
}

/// Callers trade nothing.
pub struct Nothing;

impl Gain<Event, u64> for Nothing {
    ghost use base.Fml.{ftrue};

    ghost after = { λ names about answer. ftrue };
}

pub type Token = Seen<Event, u64, Law>;

pub type Head = Word<Event, u64, Law>;

/// A beginning of the history, and its length.
#[derive(Drop)]
pub struct Prefix {
    pub count: u64,
    pub seen: Token,
    ghost counted: { count ≡ length seen.log },
}

impl Prefix {
    ghost use Rattle.std.specs.Prelude.{◌≡◌, ◌↔◌, true, false};
    ghost use mathlib.Core.List.{IsPrefix};

    /// Returns a copy.
    pub(crate) fn again(&self) -> Prefix
        ensures { result ≡ self.now }
    {
        Prefix {
            count: self.count,
            seen: self.seen.again(),
        }
    }

    /// Returns whether this begins the other: the shorter of two beginnings of one history begins the longer.
    pub(crate) fn begins(&self, other: &Prefix) -> bool
        requires { other.now.seen.book ≡ self.now.seen.book }
        ensures begins { (result ≡ true) ↔ IsPrefix self.now.seen.log other.now.seen.log }
        ensures other { result ≡ false → IsPrefix other.now.seen.log self.now.seen.log }
    {
        let mut both = self.seen.again();
        both.learn(&other.seen);
        self.count <= other.count
    }
}
