//! A reader that uses much memory only if much arrives at once.
ghost use Rattle.std.specs.Prelude.{◌≡◌, ◌≤◌, ◌<◌, IfOk, OnErr, take, vec_len};
ghost use Rattle.std.specs.Io.KnownBytes.{Consumes, IsAtEnd, Keeps};

use std::alloc::{AllocError, Global};
use std::io;
use std::io::Read;

/// The number of bytes read at once at first.
const FEW: usize = 512;

/// The number of bytes read at once after a read that filled its block.
const MANY: usize = 32_768;

/// A block of bytes that were read. Those from `begin` to `end` were not given yet.
#[derive(Drop)]
pub(crate) struct ReadBlock {
    bytes: Vec<u8>,
    begin: usize,
    end: usize,
    ghost ordered: { begin ≤ end },
    ghost within: { end ≤ vec_len bytes },
    ghost some: { 0 < vec_len bytes },
}

/// A reader in blocks. A block is small until one has been full. The reader gives the bytes of its inner reader, in
/// order.
#[derive(Drop)]
pub(crate) struct GrowingReader<D: Read + Drop> {
    inner: D,
    alloc: Global,
    block: ReadBlock,
}

/// Reads once into these bytes.
fn read_into<D: Read>(from: &mut D, bytes: &mut Vec<u8>) -> io::Result<usize>
    ensures len { vec_len bytes.new ≡ vec_len bytes.old }
    ensures bound { IfOk result (λ count. count ≤ vec_len bytes.new) }
    ensures bytes { IfOk result (λ count.
        Consumes (D.remaining from.old) (D.remaining from.new) (take count bytes.new.items)) }
    ensures end { IfOk result (λ count. count ≡ 0 → 0 < vec_len bytes.old → IsAtEnd (D.remaining from.new)) }
    ensures kept { OnErr result (Keeps (D.remaining from.old) (D.remaining from.new)) }
{
    from.read(bytes.as_mut_slice())
}

impl ReadBlock {
    ghost use Rattle.std.specs.Prelude.{◌≡◌, ◌≤◌, ◌<◌, ◌++◌, length, take};
    ghost use Rattle.svc_host.specs.Growing.{held_in};

    // Takes a larger block if the last one was full. If there is no memory for it, the small one stays.
    fn grow(&mut self, alloc: Global)
        ensures { (self.new.begin ≡ 0) × (self.new.end ≡ 0) }
    {
        let is_full = self.end == self.bytes.len() && self.end < MANY;
        self.begin = 0;
        self.end = 0;
        if is_full {
            if let Ok(bytes) = vec![in alloc; 0; MANY] {
                self.bytes = bytes;
            }
        }
    }

    // Gives as many bytes as there is room for.
    fn give(&mut self, into: &mut [u8]) -> usize
        ensures bound { result ≤ length into.new }
        ensures bytes { held_in self.old ≡ take result into.new ++ held_in self.new }
        ensures some { self.old.begin < self.old.end → 0 < length into.old → 0 < result }
    {
        let count = into.len().min(self.end - self.begin);
        into[..count].copy_from_slice(&self.bytes[self.begin..self.begin + count]);
        self.begin += count;
        count
    }
}

impl<D: Read + Drop> GrowingReader<D> {
    ghost use Rattle.std.specs.Prelude.{◌≡◌, ◌≤◌, ◌<◌, Ok, false, true};
    ghost use Rattle.std.specs.Io.KnownBytes.{IsAtEnd, Keeps};
    ghost use Rattle.svc_host.specs.Growing.{left_of};

    /// Makes a reader over one from which nothing was read.
    pub(crate) fn new(alloc: Global, inner: D) -> Result<GrowingReader<D>, AllocError> {
        let block = ReadBlock {
            bytes: vec![in alloc; 0; FEW]?,
            begin: 0,
            end: 0,
        };
        Ok(GrowingReader {
            inner,
            alloc,
            block,
        })
    }

    /// Returns whether there are bytes to give. Waits for them if there are none yet. Only at the end there are none.
    pub(crate) fn fill(&mut self) -> io::Result<bool>
        ensures kept { Keeps (left_of self.old.block (D.remaining self.old.inner))
            (left_of self.new.block (D.remaining self.new.inner)) }
        ensures some { result ≡ Ok true → self.new.block.begin < self.new.block.end }
        ensures none { result ≡ Ok false → self.new.block.end ≤ self.new.block.begin }
        ensures end { result ≡ Ok false → IsAtEnd (D.remaining self.new.inner) }
    {
        if self.block.begin == self.block.end {
            self.block.grow(self.alloc);
            self.block.end = read_into(&mut self.inner, &mut self.block.bytes)?;
        }
        Ok(self.block.begin < self.block.end)
    }
}

impl<D: Read + Drop> Read for GrowingReader<D> {
    ghost use Rattle.svc_host.specs.Growing.{left_of};

    ghost remaining = { λ reader. left_of reader.block (D.remaining reader.inner) };

    fn read(&mut self, into: &mut [u8]) -> io::Result<usize> {
        self.fill()?;
        Ok(self.block.give(into))
    }
}
