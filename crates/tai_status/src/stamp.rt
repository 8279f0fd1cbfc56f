ghost use Rattle.std.specs.Prelude.{Bool, ◌≡◌, ◌+◌, ◌<◌, ◌≤◌, ◌++◌, [], ◌∷◌, List, ℕ, Some, length, take, not};
ghost use Rattle.std.specs.Prelude.{if◌then◌else◌, OnOk, OnErr, IfOk, IsErrOf};
ghost use Rattle.std.specs.Io.BufRead.{take_through};
ghost use Rattle.tai_status.specs.Lines.{stamp};
ghost use Rattle.tai_status.specs.Counted.{Fails, Works, WroteFront, IsRead};
ghost use Rattle.tai_status.specs.Lines.{StampsAllBy, StampsBy, StampsSomeBy};
ghost use Rattle.tai_status.specs.Extended.{Extended};
ghost use Rattle.tai_status.specs.Block.{Puts};
ghost use Rattle.tai_status.specs.Stamping.{StampsPartBy, StampsUpToBy, begun, is_inside};

use crate::block::{BLOCK, Block};
use crate::counted::{DeviceFault, Input, Output};
use crate::label::{Label, text};
use memchr::memchr;
use std::io::{Read, Write};
use thiserror::Error;

/// A clock. Contracts see the labels that it gave, if it keeps them.
pub trait TimeSource {
    ghost use Rattle.std.specs.Prelude.{Bool, Option, List, None};
    ghost use Rattle.tai_status.specs.Label.{Tai64n};

    ghost readings: { Self → Option (List Tai64n) } = { λ _. None };

    fn now(&mut self) -> Label
        ensures { Extended (readings self.old) (readings self.new) (result ∷ []) };
}

/// Why stamping ended early.
#[derive(Clone, Copy, Debug, PartialEq, Eq, Error)]
pub enum StampFault {
    #[error("Read")]
    Read,
    #[error("Write")]
    Write,
}

/// A prefix of some bytes, up to their first newline or to their end.
#[derive(Clone, Copy)]
struct LinePart {
    len: usize,
    ends: bool,
}

fn first_part(bytes: &[u8]) -> LinePart
    ensures front { take result.len bytes.now ≡ take_through 10 bytes.now }
    ensures within { result.len ≤ length bytes.now }
    ensures some { 0 < length bytes.now → 0 < result.len }
    ensures ends { 0 < length bytes.now → (inside : Bool)
        → is_inside inside (take_through 10 bytes.now) ≡ not result.ends }
{
    match memchr(b'\n', bytes) {
        Some(at) => LinePart {
            len: at + 1,
            ends: true,
        },
        None => LinePart {
            len: bytes.len(),
            ends: false,
        },
    }
}

/// Adds bytes of one line, after a stamp if they begin it.
fn stamp_part<E: Write, C: TimeSource>(
    part: &[u8],
    inside: bool,
    block: &mut Block,
    writer: &mut Output<E>,
    clock: &mut C,
) -> Result<(), DeviceFault>
    requires some { 0 < length part.now }
    requires line { part.now ≡ take_through 10 part.now }

    // If it succeeds, the stamped bytes come after those that were pending, and some of all these may be written. If it
    // fails, a prefix of all these is written.
    ensures ok { OnOk result (StampsPartBy inside part.now C.readings clock.old clock.new
        writer.old.bytes writer.new.bytes block.old block.new) }
    ensures err { OnErr result (StampsUpToBy inside part.now C.readings clock.old clock.new
        writer.old.bytes writer.new.bytes block.old) }

    // If it fails, the fault is counted. If it succeeds, none is.
    ensures fault { OnErr result (Fails writer.old writer.new) }
    ensures faults { OnOk result (Works writer.old writer.new) }
{
    if inside {
        block.put(part, writer)
    } else {
        put_line(&clock.now(), part, block, writer)
    }
}

/// Stamps bytes, and writes them.
fn stamp_block<E: Write, C: TimeSource>(
    bytes: &[u8],
    inside: &mut bool,
    block: &mut Block,
    writer: &mut Output<E>,
    clock: &mut C,
) -> Result<u64, DeviceFault>
    requires { block.old ≡ [] }

    // If it succeeds, all stamped bytes are written, and none is pending. It returns how many lines begin in the bytes,
    // and `inside` says whether their end is inside a line.
    ensures ok { OnOk result (StampsPartBy inside.old bytes.now C.readings clock.old clock.new
        writer.old.bytes writer.new.bytes [] []) }
    ensures inside { OnOk result (inside.new ≡ is_inside inside.old bytes.now) }
    ensures count { IfOk result (λ count. count ≡ begun inside.old bytes.now) }
    ensures lines { IfOk result (λ count. count ≤ length bytes.now) }
    ensures empty { OnOk result (block.new ≡ []) }

    // If it fails, a prefix of the stamped bytes is written, and the fault is counted. If it succeeds, none is counted.
    ensures err { OnErr result (StampsUpToBy inside.old bytes.now C.readings clock.old clock.new
        writer.old.bytes writer.new.bytes []) }
    ensures fault { OnErr result (Fails writer.old writer.new) }
    ensures faults { OnOk result (Works writer.old writer.new) }
{
    let count = stamp_parts(bytes, inside, block, writer, clock)?;
    block.flush(writer)?;
    Ok(count)
}

/// Returns the number of lines that begin with a part.
fn lines_begun(inside: bool) -> u64
    ensures { result ≡ (if inside then 0 else 1) }
{
    if inside { 0 } else { 1 }
}

/// Stamps bytes.
fn stamp_parts<E: Write, C: TimeSource>(
    bytes: &[u8],
    inside: &mut bool,
    block: &mut Block,
    writer: &mut Output<E>,
    clock: &mut C,
) -> Result<u64, DeviceFault>
    // If it succeeds, the stamped bytes come after those that were pending, and some of all these may be written. It
    // returns how many lines begin in the bytes, and `inside` says whether their end is inside a line.
    ensures ok { OnOk result (StampsPartBy inside.old bytes.now C.readings clock.old clock.new
        writer.old.bytes writer.new.bytes block.old block.new) }
    ensures inside { OnOk result (inside.new ≡ is_inside inside.old bytes.now) }
    ensures count { IfOk result (λ count. count ≡ begun inside.old bytes.now) }
    ensures lines { IfOk result (λ count. count ≤ length bytes.now) }

    // If it fails, a prefix of the bytes that were pending and of the stamped bytes is written, and the fault is
    // counted. If it succeeds, none is counted.
    ensures err { OnErr result (StampsUpToBy inside.old bytes.now C.readings clock.old clock.new
        writer.old.bytes writer.new.bytes block.old) }
    ensures fault { OnErr result (Fails writer.old writer.new) }
    ensures faults { OnOk result (Works writer.old writer.new) }
{
    let mut at = 0;
    let mut count = 0;
    while at < bytes.len() {
        let rest = &bytes[at..];
        let part = first_part(rest);
        stamp_part(&rest[..part.len], *inside, block, writer, clock)?;
        count += lines_begun(*inside);
        *inside = !part.ends;
        at += part.len;
    }
    Ok(count)
}

/// Writes each line after the text of a label and a space. The clock is read for each line, at its first byte. What a
/// read gave is written before the next read. Returns the number of lines.
pub fn stamp_lines<D: Read, E: Write, C: TimeSource>(
    reader: &mut Input<D>,
    writer: &mut Output<E>,
    clock: &mut C,
) -> Result<u64, StampFault>
    // All lines are stamped and written.
    ensures done { IfOk result (StampsBy reader.old reader.new writer.old writer.new
        C.readings clock.old clock.new) }
    ensures end { OnOk result (IsRead reader.new) }
    ensures works { OnOk result (Works reader.old reader.new × Works writer.old writer.new) }

    // The reader failed. All lines that it gave are stamped and written.
    ensures read { IsErrOf result StampFault.Read
        → StampsAllBy reader.old reader.new writer.old writer.new C.readings clock.old clock.new }
    ensures unread { IsErrOf result StampFault.Read → Fails reader.old reader.new × Works writer.old writer.new }

    // The writer failed, after a prefix of the stamped text of what was read.
    ensures write { IsErrOf result StampFault.Write
        → StampsSomeBy reader.old reader.new writer.old writer.new C.readings clock.old clock.new }
    ensures unwritten { IsErrOf result StampFault.Write → Works reader.old reader.new × Fails writer.old writer.new }
{
    let mut bytes = [0; BLOCK];
    let mut block = Block::new();
    let mut inside = false;
    let mut lines = 0;
    'reads: loop {
        let count = match reader.read(&mut bytes) {
            Ok(count) => count,
            Err(_) => return Err(StampFault::Read),
        };
        if count == 0 {
            return Ok(lines);
        }
        match stamp_block(&bytes[..count], &mut inside, &mut block, writer, clock) {
            Ok(count) => lines += count,
            Err(_) => return Err(StampFault::Write),
        }
    }
}

/// Returns a label's text and a space.
#[tactic(auto, unfolding(crate::specs::Lines::stamp))]
fn stamp_bytes(label: &Label) -> [u8; 26]
    ensures { result ≡ stamp label.now }
{
    let mut bytes = [b' '; 26];
    bytes[..25].copy_from_slice(&text(label));
    bytes
}

/// Adds a stamp and bytes.
fn put_line<E: Write>(
    label: &Label,
    bytes: &[u8],
    block: &mut Block,
    writer: &mut Output<E>,
) -> Result<(), DeviceFault>
    ensures ok { OnOk result (Puts writer.old writer.new block.old block.new (stamp label.now ++ bytes.now)) }
    ensures err { OnErr result (WroteFront writer.old writer.new (block.old ++ (stamp label.now ++ bytes.now))) }
    ensures faults { OnOk result (Works writer.old writer.new) }
    ensures fault { OnErr result (Fails writer.old writer.new) }
{
    block.put_both(&stamp_bytes(label), bytes, writer)
}
