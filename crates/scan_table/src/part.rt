//! Parts of services, and lists of them.
ghost use Rattle.std.specs.Prelude.{◌≡◌, ◌↔◌, IsTrue, [], length};

use std::alloc::{Allocator, Global};
use std::marker::Model;

/// Which of a slot's two services this is: the service itself, or its logger.
#[derive(Clone, Copy, Debug, PartialEq, Eq)]
pub enum Role {
    Main,
    Log,
}

/// A part: a service or its logger, in one life. Each start of it is a new life.
#[derive(Clone, Copy, Debug, PartialEq, Eq)]
pub struct PartId {
    pub slot: u64,
    pub role: Role,
    pub life: u64,
}

/// A list of parts.
#[derive(Drop)]
pub struct Parts<A: Allocator = Global> {
    parts: Vec<PartId, A>,
}

impl<A: Allocator> Model for Parts<A> {
    ghost use Rattle.std.specs.Prelude.{List};
    ghost use Rattle.scan_table.specs.declared.part.PartId.{PartId};

    ghost Value = { List PartId };

    ghost view = { λ parts. parts.parts.items };
}

impl<A: Allocator> Parts<A> {
    /// Returns the list of these parts.
    pub fn from_vec(parts: Vec<PartId, A>) -> Parts<A>
        ensures { result ≡ parts.items }
    {
        Parts { parts }
    }

    /// Gives the parts back.
    pub fn into_vec(self) -> Vec<PartId, A>
        ensures { result.items ≡ self }
    {
        let Self { parts } = self;
        parts
    }

    /// Returns the parts, in order.
    pub fn as_slice(&self) -> &[PartId]
        ensures { result.now ≡ self.now }
    {
        self.parts.as_slice()
    }

    /// Returns how many parts there are.
    pub fn len(&self) -> usize
        ensures { result ≡ length self.now }
    {
        self.parts.len()
    }

    /// Returns whether there is no part.
    pub fn is_empty(&self) -> bool
        ensures { IsTrue result ↔ (self.now ≡ []) }
    {
        self.parts.is_empty()
    }
}

/// A list of numbers.
#[derive(Drop)]
pub struct Numbers<A: Allocator = Global> {
    numbers: Vec<u64, A>,
}

impl<A: Allocator> Model for Numbers<A> {
    ghost use Rattle.std.specs.Prelude.{List, ℕ};

    ghost Value = { List ℕ };

    ghost view = { λ numbers. numbers.numbers.items };
}

impl<A: Allocator> Numbers<A> {
    /// Returns the list of these numbers.
    pub fn from_vec(numbers: Vec<u64, A>) -> Numbers<A>
        ensures { result ≡ numbers.items }
    {
        Numbers { numbers }
    }

    /// Gives the numbers back.
    pub fn into_vec(self) -> Vec<u64, A>
        ensures { result.items ≡ self }
    {
        let Self { numbers } = self;
        numbers
    }

    /// Returns the numbers, in order.
    pub fn as_slice(&self) -> &[u64]
        ensures { result.now ≡ self.now }
    {
        self.numbers.as_slice()
    }

    /// Returns how many numbers there are.
    pub fn len(&self) -> usize
        ensures { result ≡ length self.now }
    {
        self.numbers.len()
    }

    /// Returns whether there is no number.
    pub fn is_empty(&self) -> bool
        ensures { IsTrue result ↔ (self.now ≡ []) }
    {
        self.numbers.is_empty()
    }
}
