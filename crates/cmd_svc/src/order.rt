ghost use Rattle.std.specs.Prelude.{◌≡◌, [], ◌∷◌, ◌++◌, true, List, ℕ, if◌then◌else◌, IsOk, OnOk, MatchOption};
ghost use Rattle.sup_core.specs.History.{is_among};
ghost use Rattle.sup_core.specs.Rules.{is_letter};
ghost use Rattle.cmd_svc.specs.Words.{AreKnownOnce, first_unknown, without_earlier};

use arrayvec::ArrayVec;
use std::alloc::{Allocator, Global};
use std::marker::Model;
use sup_core::{LETTER_COUNT, is_letter};
use tai_status::Names;
use thiserror::Error;

/// The control bytes of an order, at most one of each known letter. Contracts see them as a list.
#[derive(Debug, Drop)]
pub struct OrderBytes {
    bytes: ArrayVec<u8, LETTER_COUNT>,
}

impl Model for OrderBytes {
    ghost use Rattle.std.specs.Prelude.{List, ℕ};
    ghost use Rattle.cmd_svc.specs.Words.{AreKnownOnce};

    ghost Value = { List ℕ };

    ghost view = { λ order. order.bytes.items };

    ghost invariant = { λ order. AreKnownOnce order.bytes.items };
}

/// What the words of a svc command ask for: each byte is sent to each service, in order.
#[derive(Drop)]
pub struct SvcOrder<A: Allocator + Clone = Global> {
    /// The letters of the option words as control bytes, each once.
    pub bytes: OrderBytes,
    /// The words that name services.
    pub services: Names<A>,
}

/// Why words are not an order.
#[derive(Clone, Copy, Debug, PartialEq, Eq, Error)]
pub enum SvcFault {
    /// The first letter of the option words that svc does not know.
    #[error("unknown letter {0:02x}")]
    UnknownLetter(u8),

    /// The allocator refused the memory for the names of the services.
    #[error("OutOfMemory")]
    OutOfMemory,
}

impl OrderBytes {
    /// Returns no bytes.
    pub(crate) fn new() -> OrderBytes
        ensures { result ≡ [] }
    {
        OrderBytes {
            bytes: ArrayVec::new(),
        }
    }

    /// Returns the bytes, in order.
    pub fn as_slice(&self) -> &[u8]
        ensures bytes { result.now ≡ self.now }
        ensures each_once { AreKnownOnce result.now }
    {
        self.bytes.as_slice()
    }

    /// Adds a letter at the end, unless it is already there.
    fn add(&mut self, letter: u8)
        requires { is_letter letter ≡ true }
        ensures { self.new ≡ (if is_among self.old letter then self.old else self.old ++ letter ∷ []) }
    {
        if !self.bytes.contains(&letter) {
            self.bytes.push(letter);
        }
    }

    /// Adds letters at the end, each unless it is already there, up to the first unknown one.
    pub(crate) fn add_all(&mut self, letters: &[u8]) -> Result<(), SvcFault>
        ensures fault { MatchOption (first_unknown letters.now) (IsOk result)
            (λ letter. result ≡ Err (SvcFault.UnknownLetter letter)) }
        ensures bytes { (before : List ℕ) → self.old ≡ without_earlier before
            → OnOk result (self.new ≡ without_earlier (before ++ letters.now)) }
    {
        for letter in letters {
            if !is_letter(*letter) {
                return Err(SvcFault::UnknownLetter(*letter));
            }
            self.add(*letter);
        }
        Ok(())
    }
}
