//! Patterns: read once, and then matched without memory.
ghost use Rattle.std.specs.Prelude.{◌≡◌, ◌<◌, ◌↔◌, length, true, false, IsTrue, IfOk, IsErrOf};
ghost use Rattle.star_match.specs.Star.{Matches, from_first, has_adjacent_stars, star_matches};

use crate::pairs::{Needs, NotedText};
use memchr::memchr;
use std::alloc::{Allocator, Global};
use std::marker::Model;
use thiserror::Error;

/// A pattern of any bytes, with no two adjacent stars. Contracts see the list of its bytes.
#[derive(Debug, Drop)]
pub struct Pattern<A: Allocator + Clone = Global> {
    bytes: Vec<u8, A>,
    needs: Needs,
}

impl<A: Allocator + Clone> Model for Pattern<A> {
    ghost use Rattle.std.specs.Prelude.{List, ℕ, ◌≡◌, false};
    ghost use Rattle.star_match.specs.Star.{has_adjacent_stars};
    ghost use Rattle.star_match.specs.Pairs.{AreNeeds};

    ghost Value = { List ℕ };

    ghost view = { λ pattern. pattern.bytes.items };

    ghost invariant = { λ pattern. (has_adjacent_stars pattern.bytes.items ≡ false)
        × AreNeeds pattern.needs pattern.bytes.items };
}

/// Why there is no pattern.
#[derive(Clone, Copy, Debug, PartialEq, Eq, Error)]
pub enum PatternFault {
    /// Two stars are adjacent.
    #[error("AdjacentStars")]
    AdjacentStars,

    /// The allocator refused memory for the bytes.
    #[error("OutOfMemory")]
    OutOfMemory,
}

impl<A: Allocator + Clone> Pattern<A> {
    /// Reads a pattern, in which each `*` is a star.
    ///
    /// `AdjacentStars` is returned if two stars are adjacent, even if there is no memory. Otherwise `OutOfMemory` is
    /// returned only if the allocator refuses a copy of the bytes. The empty pattern needs no memory.
    pub fn read(alloc: A, bytes: &[u8]) -> Result<Self, PatternFault>
        ensures ok { IfOk result (λ pattern. pattern ≡ bytes.now) }
        ensures adjacent { IsErrOf result PatternFault.AdjacentStars ↔ (has_adjacent_stars bytes.now ≡ true) }
        ensures memory { IsErrOf result PatternFault.OutOfMemory → 0 < length bytes.now }
    {
        if has_adjacent_stars(bytes) {
            return Err(PatternFault::AdjacentStars);
        }
        let mut own = Vec::new(alloc);
        own.extend_from_slice(bytes)
            .map_err(|_| PatternFault::OutOfMemory)?;
        let needs = Needs::of(&own);
        Ok(Pattern { bytes: own, needs })
    }

    /// Returns whether the pattern matches the whole text. It takes at most one scan of the text, and no memory. The
    /// text is not scanned at all if the pattern's last byte is no star and differs from the text's last byte.
    #[tactic(auto, using(crate::proofs::Computed::computes, crate::proofs::Computed::finds))]
    pub fn matches(&self, text: &[u8]) -> bool
        ensures relation { IsTrue result ↔ Matches self.now text.now }
        ensures answer { result ≡ star_matches self.now text.now }
    {
        has_end(&self.bytes, text) && is_match(&self.bytes, text)
    }

    /// Returns the same for a text whose pairs are noted. Most texts that do not match lack one of the pattern's rarest
    /// pairs, and are not scanned.
    pub fn matches_noted(&self, text: &NotedText<'_>) -> bool
        ensures relation { IsTrue result ↔ Matches self.now text.now }
        ensures answer { result ≡ star_matches self.now text.now }
    {
        text.has_needs(&self.needs) && self.matches(text.text())
    }
}

/// Returns whether two stars are adjacent. Such bytes are no pattern.
pub fn has_adjacent_stars(bytes: &[u8]) -> bool
    ensures { result ≡ has_adjacent_stars bytes.now }
{
    let mut rest = bytes;
    while let [_, tail @ ..] = rest {
        if matches!(rest, [b'*', b'*', ..]) {
            return true;
        }
        rest = tail;
    }
    false
}

/// Returns whether the text ends as the pattern does: if the pattern's last byte is no star, it must be the text's last
/// byte.
fn has_end(pattern: &[u8], text: &[u8]) -> bool
    ensures { star_matches pattern.now text.now ≡ true → result ≡ true }
{
    let Some(byte) = pattern.last() else {
        return true;
    };
    if *byte == b'*' {
        return true;
    }
    text.last() == Some(byte)
}

/// Returns the text from its first `byte` on, or nothing if it has none.
fn from_first(byte: u8, text: &[u8]) -> &[u8]
    ensures { result.now ≡ from_first byte text.now }
{
    let at = memchr(byte, text).unwrap_or(text.len());
    &text[at..]
}

/// Matches the pattern with what is left of the text.
fn is_match(pattern: &[u8], text: &[u8]) -> bool
    requires { has_adjacent_stars pattern.now ≡ false }
    ensures { result ≡ star_matches pattern.now text.now }
{
    let mut rest = pattern;
    let mut left = text;
    while let [byte, tail @ ..] = rest {
        if *byte == b'*' {
            let Some(next) = tail.first() else {
                return true;
            };
            left = from_first(*next, left);
        } else {
            match left {
                [first, more @ ..] if first == byte => left = more,
                _ => return false,
            }
        }
        rest = tail;
    }
    left.is_empty()
}
