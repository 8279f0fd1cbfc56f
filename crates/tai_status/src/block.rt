ghost use Rattle.std.specs.Prelude.{◌≡◌, ◌++◌, ◌+◌, ◌-◌, ◌≤◌, [], List, ℕ, length, take, ◌<◌, OnOk, IfOk, OnErr};
ghost use Rattle.tai_status.specs.Counted.{Fails, Works, Wrote, WroteFront};
ghost use Rattle.tai_status.specs.Block.{Puts};

use crate::counted::{DeviceFault, Output};
use std::io::Write;
use std::marker::Model;

/// The number of bytes that are read or written at once.
pub const BLOCK: usize = 32_768;

/// Bytes that are yet to be written.
#[derive(Drop)]
pub struct Block {
    bytes: [u8; BLOCK],
    len: usize,
}

impl Model for Block {
    ghost use Rattle.std.specs.Prelude.{List, ℕ, ◌≤◌, take};

    ghost Value = { List ℕ };

    ghost view = { λ b. take b.len b.bytes };

    ghost invariant = { λ b. b.len ≤ 32768 };
}

impl Block {
    /// Returns a block with nothing to write.
    pub fn new() -> Block
        ensures { result ≡ [] }
    {
        Block {
            bytes: [0; BLOCK],
            len: 0,
        }
    }

    /// Returns the bytes that are yet to be written.
    pub fn as_slice(&self) -> &[u8]
        ensures { result.now ≡ self.now }
    {
        &self.bytes[..self.len]
    }

    /// Returns how many more bytes fit.
    pub fn room(&self) -> usize
        ensures { result + length self.now ≡ 32768 }
    {
        BLOCK - self.len
    }

    /// Drops the bytes that are yet to be written.
    pub fn clear(&mut self)
        ensures { self.new ≡ [] }
    {
        self.len = 0;
    }

    /// Adds a piece after the bytes that are yet to be written.
    pub fn push(&mut self, piece: &[u8])
        requires { length self.old + length piece.now ≤ 32768 }
        ensures { self.new ≡ self.old ++ piece.now }
    {
        let end = self.len + piece.len();
        self.bytes[self.len..end].copy_from_slice(piece);
        self.len = end;
    }

    /// Writes the pending bytes. After a fault, a prefix of them may be written. Nothing is promised of the bytes that
    /// are pending then: don't write them again.
    pub fn flush<W: Write>(&mut self, writer: &mut Output<W>) -> Result<(), DeviceFault>
        ensures ok { OnOk result (Wrote writer.old writer.new self.old) }
        ensures empty { OnOk result (self.new ≡ []) }
        ensures err { OnErr result (WroteFront writer.old writer.new self.old) }
        ensures faults { OnOk result (Works writer.old writer.new) }
        ensures fault { OnErr result (Fails writer.old writer.new) }
    {
        writer.write_all(self.as_slice())?;
        self.clear();
        Ok(())
    }

    /// Adds a piece after the pending bytes, and writes each block that is full.
    pub fn put<W: Write>(&mut self, piece: &[u8], writer: &mut Output<W>) -> Result<(), DeviceFault>
        ensures ok { OnOk result (Puts writer.old writer.new self.old self.new piece.now) }
        ensures err { OnErr result (WroteFront writer.old writer.new (self.old ++ piece.now)) }
        ensures faults { OnOk result (Works writer.old writer.new) }
        ensures fault { OnErr result (Fails writer.old writer.new) }
    {
        let mut at = 0;
        while at < piece.len() {
            at += self.put_part(&piece[at..], writer)?;
        }
        Ok(())
    }

    /// Adds a prefix of a piece, and returns its length.
    fn put_part<W: Write>(
        &mut self,
        piece: &[u8],
        writer: &mut Output<W>,
    ) -> Result<usize, DeviceFault>
        ensures ok { IfOk result (λ count. Puts writer.old writer.new self.old self.new (take count piece.now)) }
        ensures count { IfOk result (λ count. (count ≤ length piece.now) × (0 < length piece.now → 0 < count)) }
        ensures err { OnErr result (WroteFront writer.old writer.new self.old) }
        ensures faults { OnOk result (Works writer.old writer.new) }
        ensures fault { OnErr result (Fails writer.old writer.new) }
    {
        if self.room() == 0 {
            self.flush(writer)?;
        }
        let count = piece.len().min(self.room());
        self.push(&piece[..count]);
        Ok(count)
    }

    /// Adds two pieces, one after the other.
    pub fn put_both<W: Write>(
        &mut self,
        first: &[u8],
        second: &[u8],
        writer: &mut Output<W>,
    ) -> Result<(), DeviceFault>
        ensures ok { OnOk result (Puts writer.old writer.new self.old self.new (first.now ++ second.now)) }
        ensures err { OnErr result (WroteFront writer.old writer.new (self.old ++ (first.now ++ second.now))) }
        ensures faults { OnOk result (Works writer.old writer.new) }
        ensures fault { OnErr result (Fails writer.old writer.new) }
    {
        self.put(first, writer)?;
        self.put(second, writer)
    }
}
