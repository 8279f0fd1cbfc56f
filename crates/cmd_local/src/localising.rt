//! The command `tai64nlocal`.
ghost use Rattle.std.specs.Prelude.{◌≡◌, ◌<◌, ◌≤◌, ◌+◌, ◌-◌, length, take, drop, slice_range, OnOk, OnErr, IfOk, IfErr};
ghost use Rattle.tai_status.specs.Counted.{CountsRead, Fails, Works, Gives, GivesNothing, IsRead, Wrote, WroteFront};
ghost use Rattle.tai_status.specs.Counted.{Reports};
ghost use Rattle.cmd_base.specs.Console.{console};
ghost use Rattle.cmd_local.specs.Ends.{FilterEnds, LocalByStatus, LocalCause, Localises, local_report};
ghost use Rattle.tai_status.specs.Words.{texts};
ghost use Rattle.cmd_local.specs.Lines.{localised_line};
ghost use Rattle.cmd_local.specs.Local.{local_text};
ghost use Rattle.cmd_local.specs.Passing.{IsHeld, Moves, passed};

use crate::line::{LastTime, put_line, put_lines};
use crate::zone::Zone;
use cmd_base::{Command, DONE, report_device, usage};
use std::io::{Read, Write};
use tai_status::{BLOCK, Block, DeviceFault, Input, Output};

/// Why not all lines were written.
#[derive(Clone, Copy, Debug, PartialEq, Eq)]
pub enum LocalFault {
    Read,
    Write,
}

/// Moves the bytes between two places to the front.
fn move_to_front(bytes: &mut [u8], start: usize, end: usize)
    requires order { start ≤ end }
    requires within { end ≤ length bytes.old }
    ensures { take (end - start) bytes.new ≡ slice_range bytes.old start end }
{
    bytes.copy_within(start..end, 0);
}

/// Reads once, into the place after the bytes up to `at`.
fn read_behind<D: Read>(
    bytes: &mut [u8],
    at: usize,
    reader: &mut Input<D>,
) -> Result<usize, DeviceFault>
    requires { at < length bytes.old }

    // The bytes before the place stay. If it succeeds, those that the reader gave come there. If none came, the reader
    // has no more bytes.
    ensures front { take at bytes.new ≡ take at bytes.old }
    ensures bound { IfOk result (λ count. at + count ≤ length bytes.old) }
    ensures bytes { IfOk result (λ count. Gives reader.old reader.new (slice_range bytes.new at (at + count))) }
    ensures end { IfOk result (λ count. count ≡ 0 → IsRead reader.new) }

    // If it fails, no byte is read, and the fault is counted. If it succeeds, the reads are counted, and no fault is.
    ensures kept { OnErr result (GivesNothing reader.old reader.new) }
    ensures read { OnErr result (Fails reader.old reader.new) }
    ensures reads { OnOk result (CountsRead reader.old reader.new) }
    ensures faults { OnOk result (Works reader.old reader.new) }
{
    reader.read(&mut bytes[at..])
}

/// Writes the lines of some bytes, except for an end that may still be the beginning of a label. Returns the place of
/// that end.
fn write_lines<Z: Zone, W: Write>(
    zone: &Z,
    bytes: &[u8],
    inside: &mut bool,
    last: &mut LastTime,
    writer: &mut Output<W>,
) -> Result<usize, DeviceFault>
    requires { last.old.text ≡ local_text (Z.ahead_at zone.now) last.old.sec }

    // In each outcome the last time is the local time of its second.
    ensures kept { last.new.text ≡ local_text (Z.ahead_at zone.now) last.new.sec }

    // If it succeeds, the bytes from the returned place on are held. They are none, or at most 25 that begin a line.
    // Whatever comes after them, what becomes of all bytes begins with what was written.
    ensures ok { IfOk result (λ at. Moves (Z.ahead_at zone.now) inside.old bytes.now inside.new (drop at bytes.now)
        writer.old writer.new) }
    ensures held { IfOk result (λ at. IsHeld inside.new (drop at bytes.now)) }
    ensures within { IfOk result (λ at. (at ≤ length bytes.now) × (length bytes.now ≤ at + 25)) }

    // If it fails, a prefix of what becomes of all bytes is written, and the fault is counted. If it succeeds, none is
    // counted.
    ensures err { OnErr result
        (WroteFront writer.old writer.new (passed (Z.ahead_at zone.now) inside.old bytes.now)) }
    ensures faults { OnOk result (Works writer.old writer.new) }
    ensures fault { OnErr result (Fails writer.old writer.new) }
{
    let mut block = Block::new();
    let at = put_lines(zone, bytes, inside, last, &mut block, writer)?;
    block.flush(writer)?;
    Ok(at)
}

/// Writes what is held of a line when its input ends.
fn write_rest<Z: Zone, W: Write>(
    zone: &Z,
    held: &[u8],
    last: &mut LastTime,
    writer: &mut Output<W>,
) -> Result<(), DeviceFault>
    requires { last.old.text ≡ local_text (Z.ahead_at zone.now) last.old.sec }
    ensures ok { OnOk result (Wrote writer.old writer.new (localised_line (Z.ahead_at zone.now) held.now)) }
    ensures err { OnErr result
        (WroteFront writer.old writer.new (localised_line (Z.ahead_at zone.now) held.now)) }
    ensures faults { OnOk result (Works writer.old writer.new) }
    ensures fault { OnErr result (Fails writer.old writer.new) }
{
    let mut block = Block::new();
    put_line(zone, held, last, &mut block, writer)?;
    block.flush(writer)
}

/// Writes the whole input with local time. What a read returned is written before the next read, except for an end that
/// may still be the beginning of a label.
fn localise_input<Z: Zone, D: Read, W: Write>(
    zone: &Z,
    reader: &mut Input<D>,
    writer: &mut Output<W>,
) -> Result<(), LocalFault>
    ensures done { OnOk result (Localises (Z.ahead_at zone.now) reader.old reader.new writer.old writer.new) }
    ensures end { OnOk result (IsRead reader.new) }
    ensures works { OnOk result (Works reader.old reader.new × Works writer.old writer.new) }
    ensures fault { IfErr result
        (λ fault. LocalCause (Z.ahead_at zone.now) fault reader.old reader.new writer.old writer.new) }
{
    let mut bytes = [0; BLOCK];
    let mut last = LastTime::new(zone);
    let mut inside = false;
    let mut held = 0;
    'reads: loop {
        let Ok(count) = read_behind(&mut bytes, held, reader) else {
            return match write_rest(zone, &bytes[..held], &mut last, writer) {
                Ok(()) => Err(LocalFault::Read),
                Err(_) => Err(LocalFault::Write),
            };
        };
        if count == 0 {
            return match write_rest(zone, &bytes[..held], &mut last, writer) {
                Ok(()) => Ok(()),
                Err(_) => Err(LocalFault::Write),
            };
        }
        let end = held + count;
        match write_lines(zone, &bytes[..end], &mut inside, &mut last, writer) {
            Ok(start) => {
                move_to_front(&mut bytes, start, end);
                held = end - start;
            }
            Err(_) => return Err(LocalFault::Write),
        }
    }
}

/// Reports which device failed, and why, and returns the exit status for that.
fn report_unlocalised<D: Read, W: Write, E: Write>(
    fault: LocalFault,
    reader: &Input<D>,
    writer: &Output<W>,
    faults: &mut Output<E>,
) -> u8
    ensures status { result ≡ 111 }
    ensures reported { Reports faults.old faults.new (local_report fault reader.now writer.now) }
{
    match fault {
        LocalFault::Read => report_device(faults, b"tai64nlocal: ", b"Read", reader.cause()),
        LocalFault::Write => report_device(faults, b"tai64nlocal: ", b"Write", writer.cause()),
    }
}

/// Writes the whole input with local time, or says why not.
fn run_input<Z: Zone, D: Read, W: Write, E: Write>(
    zone: &Z,
    reader: &mut Input<D>,
    writer: &mut Output<W>,
    faults: &mut Output<E>,
) -> u8
    ensures ends { LocalByStatus (Z.ahead_at zone.now) result
        (console reader.old writer.old faults.old) (console reader.new writer.new faults.new) }
{
    match localise_input(zone, reader, writer) {
        Ok(()) => DONE,
        Err(fault) => report_unlocalised(fault, reader, writer, faults),
    }
}

/// The command `tai64nlocal`: writes each line of the reader with the local time of the zone in place of the label that
/// it begins with, as `2026-11-25 01:33:02.123456789` (<https://cr.yp.to/daemontools/tai64nlocal.html>). A label is an
/// `@` and exactly 24 digits, which are lower-case hexadecimal. A line without a label, or with one whose local time is
/// not in the years 1900 to 9999, stays as it is. Lines may have any length. The command takes no words. Returns the
/// exit status: 0; 100 for wrong words; 111 for a fault of the reader or the writer, which is reported with its cause.
pub fn run_tai64nlocal<Z: Zone, D: Read, W: Write, E: Write>(
    zone: &Z,
    words: &[&str],
    reader: &mut Input<D>,
    writer: &mut Output<W>,
    faults: &mut Output<E>,
) -> u8
    ensures ends { FilterEnds (Z.ahead_at zone.now) (texts words.now) result
        reader.old reader.new writer.old writer.new faults.old faults.new }
{
    if words.is_empty() {
        return run_input(zone, reader, writer, faults);
    }
    usage(faults, Command::Tai64nlocal)
}
