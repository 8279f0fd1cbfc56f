//! The letters that a mailbox held when it was closed.
use crate::letter::Letter;
use std::alloc::{Allocator, Global};
use std::marker::Model;

/// Letters in their order. Contracts see them as a list.
#[derive(Drop)]
pub struct Letters<T: Copy, A: Allocator = Global> {
    items: Vec<Letter<T>, A>,
}

impl<T: Copy, A: Allocator> Model for Letters<T, A> {
    ghost use Rattle.std.specs.Prelude.{List};
    ghost use Rattle.svc_mail.specs.declared.letter.Letter.{Letter};

    ghost Value = { List (Letter T) };

    ghost view = { λ l. l.items.items };
}

impl<T: Copy, A: Allocator> Letters<T, A> {
    ghost use Rattle.std.specs.Prelude.{◌≡◌, length};

    /// Returns letters in the order of the vector. Needs no memory.
    pub fn from_vec(items: Vec<Letter<T>, A>) -> Letters<T, A>
        ensures { result ≡ items.items }
    {
        Letters { items }
    }

    /// Returns the letters as a vector, in their order. Needs no memory.
    pub fn into_vec(self) -> Vec<Letter<T>, A>
        ensures { result.items ≡ self }
    {
        let Letters { items } = self;
        items
    }

    /// Returns how many letters there are.
    pub fn len(&self) -> usize
        ensures { result ≡ length self.now }
    {
        self.items.len()
    }
}
