ghost use Rattle.std.specs.Prelude.{◌≡◌, ◌∷◌, [], ◌<◌, ◌↔◌, length, replicate, IfOk, IsErrOf};
ghost use Rattle.circular_buffer.specs.Buffer.{buffer};
ghost use Rattle.env_title.specs.Title.{dot, new_title, pushed, title_text};

use circular_buffer::HeapCircularBuffer;
use memchr::memchr;
use std::alloc::{AllocError, Allocator, Global};
use std::marker::Model;
use thiserror::Error;

/// The dots at the beginning of a title.
const DOTS: [u8; 3] = *b"...";

/// The least length of a title: three dots and two bytes.
const LEAST_LEN: usize = DOTS.len() + 2;

/// A text of fixed length: three dots, and the last bytes that were pushed, as the readproctitle page
/// (<https://cr.yp.to/daemontools/readproctitle.html>) describes it. Contracts see the bytes after the dots as `items`,
/// and the length of the whole text as `len`.
#[derive(Debug, Drop)]
pub struct Title<A: Allocator + Clone = Global> {
    items: HeapCircularBuffer<u8, A>,
}

impl<A: Allocator + Clone> Model for Title<A> {
    ghost use Rattle.std.specs.Prelude.{◌≡◌, ◌+◌, length};
    ghost use Rattle.env_title.specs.Title.{TitleParts};

    ghost Value = { TitleParts };

    ghost view = { λ title. record { items = title.items.items; len = title.items.capacity + 3 } };

    ghost invariant = { λ title. length title.items.items ≡ title.items.capacity };
}

/// Why there is no title.
#[derive(Clone, Copy, Debug, PartialEq, Eq, Error)]
pub enum TitleFault {
    /// The length is under 5.
    #[error("TooShort")]
    TooShort,

    /// The allocator refused memory for the bytes.
    #[error("OutOfMemory")]
    OutOfMemory,
}

impl<A: Allocator + Clone> Title<A> {
    /// Returns a title of `len` bytes that are all dots.
    ///
    /// `TooShort` is returned if the length is under 5, even if there is no memory. Otherwise `OutOfMemory` is returned
    /// only if the allocator refuses memory for the bytes. Apart from this call, only [`Title::text`] takes memory.
    pub fn new(alloc: A, len: usize) -> Result<Title<A>, TitleFault>
        ensures ok { IfOk result (λ title. title ≡ new_title len) }
        ensures short { IsErrOf result TitleFault.TooShort ↔ (len < 5) }
    {
        if len < LEAST_LEN {
            return Err(TitleFault::TooShort);
        }
        let items = full_of_dots(alloc, len - DOTS.len()).map_err(|_| TitleFault::OutOfMemory)?;
        Ok(Title { items })
    }

    /// Returns how many bytes the title has. Pushes don't change it.
    pub fn len(&self) -> usize
        ensures { result ≡ self.now.len }
    {
        DOTS.len() + self.items.capacity()
    }

    /// Shows a byte at the end, and drops the first byte after the dots. A NUL changes nothing.
    pub fn push(&mut self, byte: u8)
        ensures { self.new ≡ pushed self.old (byte ∷ []) }
    {
        if byte != 0 {
            self.items.push_back(byte);
        }
    }

    /// Pushes these bytes, one after another.
    pub fn push_all(&mut self, bytes: &[u8])
        ensures { self.new ≡ pushed self.old bytes.now }
    {
        let mut rest = bytes;
        while let Some(at) = memchr(0, rest) {
            let (run, behind) = rest.split_at(at);
            self.items.extend_from_slice(run);
            rest = &behind[1..];
        }
        self.items.extend_from_slice(rest);
    }

    /// Returns the text of the title. `AllocError` is returned only if the allocator refuses memory for it.
    pub fn text(&self) -> Result<Vec<u8, A>, AllocError>
        ensures text { IfOk result (λ text. text.items ≡ title_text self.now) }
        ensures len { IfOk result (λ text. length text.items ≡ self.now.len) }
    {
        let own = self.items.allocator().clone()?;
        let (front, back) = self.items.as_slices();
        let mut text = Vec::with_capacity(own, self.len())?;
        text.extend_from_slice(&DOTS)?;
        text.extend_from_slice(front)?;
        text.extend_from_slice(back)?;
        Ok(text)
    }
}

/// Returns a buffer of this capacity that is full of dots.
fn full_of_dots<A: Allocator + Clone>(
    alloc: A,
    capacity: usize,
) -> Result<HeapCircularBuffer<u8, A>, AllocError>
    ensures { IfOk result (λ items. items ≡ buffer (replicate capacity dot) capacity) }
{
    let mut items = HeapCircularBuffer::with_capacity(alloc, capacity)?;
    for _ in 0..capacity {
        items.push_back(b'.');
    }
    Ok(items)
}
