ghost use Rattle.std.specs.Prelude.{◌≡◌, ◌↔◌, ◌<◌, ◌≤◌, ◌+◌, ◌-◌, ◌^◌, [], length, take, slice_range, true, false};
ghost use Rattle.std.specs.Prelude.{OnOk, OnErr, IfOk, IsErrOf};
ghost use Rattle.tai_status.specs.Counted.{Fails, Works, CountsRead, Gives, GivesNothing, IsRead};
ghost use Rattle.tai_status.specs.LineReader.{IsPlain, TakesLine, Fills};

use crate::block::BLOCK;
use crate::counted::{DeviceFault, Input};
use memchr::memchr;
use std::alloc::{AllocError, Allocator, Global};
use std::io::Read;
use std::marker::Model;
use thiserror::Error;

/// Why there is no next line.
#[derive(Clone, Copy, Debug, PartialEq, Eq, Error)]
pub enum LineFault {
    /// More bytes wait than a line may have, so no more is read. After the whole lines among them are taken, none of
    /// the waiting bytes is a newline.
    #[error("TooLong")]
    TooLong,
    /// The reader failed.
    #[error("Read")]
    Read,
}

/// The lines of a reader, in order, each of at most `bound` bytes without its newline.
///
/// It holds `bound + 1` bytes from the beginning, and never more. Only [`fill`](LineReader::fill) reads, so the owner
/// knows when it waits for input.
#[derive(Drop)]
pub struct LineReader<A: Allocator = Global> {
    bytes: Vec<u8, A>,
    line_start: usize,
    line_end: usize,
    start: usize,
    end: usize,
}

impl<A: Allocator> Model for LineReader<A> {
    ghost use Rattle.std.specs.Prelude.{◌<◌, ◌-◌, length, slice_range};
    ghost use Rattle.tai_status.specs.LineReader.{Given, IsSpan};

    ghost Value = { Given };

    ghost view = { λ r. record {
      line = slice_range r.bytes.items r.line_start r.line_end;
      pending = slice_range r.bytes.items r.start r.end;
      bound = length r.bytes.items - 1;
    } };

    ghost invariant = { λ r.
        IsSpan r.line_start r.line_end (length r.bytes.items) × IsSpan r.start r.end (length r.bytes.items)
        × (0 < length r.bytes.items) };
}

impl<A: Allocator> LineReader<A> {
    /// Returns a reader of lines that has read nothing yet.
    pub fn new(alloc: A, bound: usize) -> Result<LineReader<A>, AllocError>
        requires { bound < 2 ^ 62 }
        ensures { IfOk result (λ reader. reader ≡ record { line = []; pending = []; bound = bound }) }
    {
        let bytes = vec![in alloc; 0; bound + 1]?;
        Ok(LineReader {
            bytes,
            line_start: 0,
            line_end: 0,
            start: 0,
            end: 0,
        })
    }

    /// Returns the line that was taken last, without its newline.
    pub fn line(&self) -> &[u8]
        ensures { result.now ≡ self.now.line }
    {
        &self.bytes.as_slice()[self.line_start..self.line_end]
    }

    /// Returns the bytes that were read and not yet given.
    fn pending(&self) -> &[u8]
        ensures { result.now ≡ self.now.pending }
    {
        &self.bytes.as_slice()[self.start..self.end]
    }

    /// Takes the next line, if all of it and its newline were read. Reads nothing.
    pub fn take_line(&mut self) -> bool
        ensures taken { result ≡ true → TakesLine self.old self.new }
        ensures none { result ≡ false → IsPlain self.old.pending × (self.new ≡ self.old) }
    {
        match memchr(b'\n', self.pending()) {
            Some(at) => {
                self.line_start = self.start;
                self.line_end = self.start + at;
                self.start = self.start + at + 1;
                true
            }
            None => false,
        }
    }

    /// Takes all that was read and not yet given, as the last line of an input that has ended. Returns whether there
    /// was such a line. Nothing is pending afterwards.
    pub fn take_rest(&mut self) -> bool
        ensures taken { result ≡ true → self.new.line ≡ self.old.pending }
        ensures none { result ≡ false ↔ (self.old.pending ≡ []) }
        ensures emptied { self.new.pending ≡ [] }
        ensures bound { self.new.bound ≡ self.old.bound }
    {
        let some = self.start < self.end;
        self.line_start = self.start;
        self.line_end = self.end;
        self.start = self.end;
        some
    }

    /// Reads once, and adds the bytes after those that are pending. Returns whether bytes came: none come only at the
    /// end of the input. A line that is too long is reported before anything more is read. The line that was taken last
    /// is dropped.
    pub fn fill<D: Read>(&mut self, reader: &mut Input<D>) -> Result<bool, LineFault>
        // If it succeeds, the bytes that the reader gave come after those that were pending. If it returns `false`, the
        // reader has no more bytes.
        ensures filled { OnOk result (Fills reader.old reader.new self.old self.new) }
        ensures more { IfOk result (λ more. more ≡ true → length self.old.pending < length self.new.pending) }
        ensures end { IfOk result (λ more. more ≡ false → IsRead reader.new × (self.new.pending ≡ self.old.pending)) }

        // If it fails, no byte is read, and none is lost. The bound never changes.
        ensures kept { OnErr result ((self.new.pending ≡ self.old.pending) × GivesNothing reader.old reader.new) }
        ensures bound { self.new.bound ≡ self.old.bound }

        // It returns `TooLong` exactly if more bytes are pending than the bound, and then it does not use the reader.
        ensures long { IsErrOf result LineFault.TooLong ↔ (self.old.bound < length self.old.pending) }
        ensures untouched { IsErrOf result LineFault.TooLong → reader.new ≡ reader.old }
        ensures short { OnOk result (length self.old.pending ≤ self.old.bound) }

        // After `Read` the fault is counted. If it succeeds, the reads are counted, no fault is, and at most a block
        // came.
        ensures read { IsErrOf result LineFault.Read → Fails reader.old reader.new }
        ensures reads { OnOk result (CountsRead reader.old reader.new) }
        ensures block { OnOk result (length self.new.pending ≤ length self.old.pending + 32768) }
        ensures faults { OnOk result (Works reader.old reader.new) }
    {
        if self.end - self.start == self.bytes.len() {
            return Err(LineFault::TooLong);
        }
        match self.read_more(reader) {
            Ok(count) => Ok(count > 0),
            Err(_) => Err(LineFault::Read),
        }
    }

    /// Moves the pending bytes to the front, and reads once into the room after them.
    fn read_more<D: Read>(&mut self, reader: &mut Input<D>) -> Result<usize, DeviceFault>
        requires { length self.old.pending ≤ self.old.bound }

        // If it succeeds, the bytes that the reader gave come after those that were pending, as many as it returns. If
        // it returns 0, the reader has no more bytes.
        ensures filled { OnOk result (Fills reader.old reader.new self.old self.new) }
        ensures grew { IfOk result (λ count. length self.new.pending ≡ length self.old.pending + count) }
        ensures end { IfOk result (λ count. count ≡ 0 → IsRead reader.new × (self.new.pending ≡ self.old.pending)) }

        // If it fails, no byte is read, and none is lost. The bound never changes.
        ensures kept { OnErr result ((self.new.pending ≡ self.old.pending) × GivesNothing reader.old reader.new) }
        ensures bound { self.new.bound ≡ self.old.bound }

        // If it fails, the fault is counted. If it succeeds, the reads are counted, no fault is, and at most a block
        // came.
        ensures read { OnErr result (Fails reader.old reader.new) }
        ensures reads { OnOk result (CountsRead reader.old reader.new) }
        ensures block { OnOk result (length self.new.pending ≤ length self.old.pending + 32768) }
        ensures faults { OnOk result (Works reader.old reader.new) }
    {
        let len = self.end - self.start;
        move_to_front(self.bytes.as_mut_slice(), self.start, self.end);
        self.line_start = 0;
        self.line_end = 0;
        self.start = 0;
        self.end = len;
        let limit = self.bytes.len().min(len + BLOCK);
        let count = read_into(self.bytes.as_mut_slice(), len, limit, reader)?;
        self.end = len + count;
        Ok(count)
    }
}

/// Moves a range of bytes to the front.
fn move_to_front(bytes: &mut [u8], start: usize, end: usize)
    requires order { start ≤ end }
    requires within { end ≤ length bytes.old }
    ensures { take (end - start) bytes.new ≡ slice_range bytes.old start end }
{
    if start > 0 {
        bytes.copy_within(start..end, 0);
    }
}

/// Reads once, into a range of the bytes.
fn read_into<D: Read>(
    bytes: &mut [u8],
    at: usize,
    limit: usize,
    reader: &mut Input<D>,
) -> Result<usize, DeviceFault>
    requires order { at ≤ limit }
    requires within { limit ≤ length bytes.old }

    // The bytes before the range stay. If it succeeds, the range begins with the bytes that the reader gave. If the
    // range has room and none came, the reader has no more bytes.
    ensures front { take at bytes.new ≡ take at bytes.old }
    ensures bound { IfOk result (λ count. at + count ≤ limit) }
    ensures bytes { IfOk result (λ count. Gives reader.old reader.new (slice_range bytes.new at (at + count))) }
    ensures end { IfOk result (λ count. count ≡ 0 → at < limit → IsRead reader.new) }

    // If it fails, no byte is read, and the fault is counted. If it succeeds, the reads are counted, and no fault is.
    ensures kept { OnErr result (GivesNothing reader.old reader.new) }
    ensures read { OnErr result (Fails reader.old reader.new) }
    ensures reads { OnOk result (CountsRead reader.old reader.new) }
    ensures faults { OnOk result (Works reader.old reader.new) }
{
    reader.read(&mut bytes[at..limit])
}
