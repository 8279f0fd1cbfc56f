//! Names and lines, as lists of texts that are made from a `Vec` and give it back.
ghost use Rattle.std.specs.Prelude.{◌≡◌, ◌↔◌, IsTrue, [], length, string_bytes, map};

use std::alloc::{Allocator, Global};
use std::marker::Model;

/// A name, such as that of a service's folder. Contracts see its bytes.
#[derive(Drop)]
pub struct Name<A: Allocator = Global> {
    text: String<A>,
}

impl<A: Allocator> Model for Name<A> {
    ghost use Rattle.std.specs.Prelude.{List, ℕ, string_bytes};

    ghost Value = { List ℕ };

    ghost view = { λ name. string_bytes name.text };
}

impl<A: Allocator> Name<A> {
    /// Returns the name with this text.
    pub fn new(text: String<A>) -> Name<A>
        ensures { result ≡ string_bytes text }
    {
        Name { text }
    }

    /// Returns the text of the name.
    pub fn as_str(&self) -> &str
        ensures { result.now ≡ self.now }
    {
        self.text.as_str()
    }

    /// Gives the text back.
    pub fn into_string(self) -> String<A>
        ensures { string_bytes result ≡ self }
    {
        let Self { text } = self;
        text
    }
}

/// A list of names.
#[derive(Drop)]
pub struct Names<A: Allocator = Global> {
    names: Vec<Name<A>, A>,
}

impl<A: Allocator> Model for Names<A> {
    ghost use Rattle.std.specs.Prelude.{List, ℕ};

    ghost Value = { List (List ℕ) };

    ghost view = { λ names. names.names.items };
}

impl<A: Allocator> Names<A> {
    /// Returns the list of these names.
    pub fn from_vec(names: Vec<Name<A>, A>) -> Names<A>
        ensures { result ≡ names.items }
    {
        Names { names }
    }

    /// Gives the names back.
    pub fn into_vec(self) -> Vec<Name<A>, A>
        ensures { result.items ≡ self }
    {
        let Self { names } = self;
        names
    }

    /// Returns the names, in order.
    pub fn as_slice(&self) -> &[Name<A>]
        ensures { result.now ≡ self.now }
    {
        self.names.as_slice()
    }

    /// Returns how many names there are.
    pub fn len(&self) -> usize
        ensures { result ≡ length self.now }
    {
        self.names.len()
    }

    /// Returns whether there is no name.
    pub fn is_empty(&self) -> bool
        ensures { IsTrue result ↔ (self.now ≡ []) }
    {
        self.names.is_empty()
    }
}

/// A list of lines, without their newlines.
#[derive(Drop)]
pub struct Lines<A: Allocator = Global> {
    lines: Vec<String<A>, A>,
}

impl<A: Allocator> Model for Lines<A> {
    ghost use Rattle.std.specs.Prelude.{List, ℕ, map, string_bytes};

    ghost Value = { List (List ℕ) };

    ghost view = { λ lines. map (λ line. string_bytes line) lines.lines.items };
}

impl<A: Allocator> Lines<A> {
    /// Returns the list of these lines.
    pub fn from_vec(lines: Vec<String<A>, A>) -> Lines<A>
        ensures { result ≡ map (λ line. string_bytes line) lines.items }
    {
        Lines { lines }
    }

    /// Gives the lines back.
    pub fn into_vec(self) -> Vec<String<A>, A>
        ensures { map (λ line. string_bytes line) result.items ≡ self }
    {
        let Self { lines } = self;
        lines
    }

    /// Returns the lines, in order.
    pub fn as_slice(&self) -> &[String<A>]
        ensures { map (λ line. string_bytes line) result.now ≡ self.now }
    {
        self.lines.as_slice()
    }

    /// Returns how many lines there are.
    pub fn len(&self) -> usize
        ensures { result ≡ length self.now }
    {
        self.lines.len()
    }

    /// Returns whether there is no line.
    pub fn is_empty(&self) -> bool
        ensures { IsTrue result ↔ (self.now ≡ []) }
    {
        self.lines.is_empty()
    }
}
