//! The lines of a text, part by part.
ghost use Rattle.std.specs.Prelude.{◌≡◌, ◌+◌, ◌<◌, ◌≤◌, ◌-◌, ◌++◌, ◌∷◌, [], min, drop, take, length, true, false};
ghost use Rattle.std.specs.Prelude.{not, ◌&&◌};
ghost use Rattle.std.specs.Prelude.{OnOk, OnErr, IfOk, IfSome};
ghost use Rattle.hex.specs.Hex.{decode_sized};
ghost use Rattle.tai_status.specs.Block.{Puts};
ghost use Rattle.tai_status.specs.Counted.{Fails, Works, WroteFront};
ghost use Rattle.tai_status.specs.Reading.{is_lower_digit};
ghost use Rattle.cmd_local.specs.Digits.{digit, fraction, nine_digits};
ghost use Rattle.cmd_local.specs.Lines.{has_label, label_of, leading_digits, localised_line, unpacked};
ghost use Rattle.cmd_local.specs.Local.{local_text};
ghost use Rattle.cmd_local.specs.Passing.{IsHeld, IsPart, PassesUpTo, is_open, passed, passed_part};

use crate::civil::{digit, nine_digits};
use crate::zone::{TIME_LEN, Zone, second_text};
use hex::FromHex;
use memchr::memchr;
use std::io::Write;
use std::marker::Model;
use tai_status::{Block, DeviceFault, Output};

/// The number of digits in a label.
const DIGITS: usize = 24;

/// The length of a label's text: an `@` and its digits.
const LABEL_LEN: usize = DIGITS + 1;

/// The number of nanoseconds in a second.
const NANOS: u32 = 1_000_000_000;

/// What a line's label says. It may have more nanoseconds than a second has.
#[derive(Clone, Copy)]
struct Stamp {
    sec: u64,
    nano: u32,
}

impl Model for Stamp {
    ghost use Rattle.tai_status.specs.Label.{Tai64n};

    ghost Value = { Tai64n };

    ghost view = { λ s. record { sec = s.sec; nano = s.nano } };

    ghost inverse = { λ v. record { sec = v.sec; nano = v.nano } };
}

/// A second, and its local time as text.
#[derive(Clone, Copy)]
pub struct LastTime {
    sec: u64,
    text: Option<[u8; TIME_LEN]>,
}

/// What some bytes begin with, up to a newline or to their end.
#[derive(Clone, Copy)]
struct LinePart {
    len: usize,
    ends: bool,
}

/// Returns whether a byte is a lower-case hexadecimal digit.
fn is_lower_digit(byte: u8) -> bool
    ensures { result ≡ is_lower_digit byte }
{
    matches!(byte, b'0'..=b'9' | b'a'..=b'f')
}

/// Returns how many lower-case hexadecimal digits some bytes begin with, or 25 if there are more.
fn leading_digits(bytes: &[u8]) -> usize
    ensures { result ≡ min (leading_digits bytes.now) 25 }
{
    let mut count = 0;
    while count < LABEL_LEN && count < bytes.len() && is_lower_digit(bytes[count]) {
        count += 1;
    }
    count
}

/// Returns whether a line begins with a label.
fn has_label(line: &[u8]) -> bool
    ensures { result ≡ has_label line.now }
{
    match line {
        [b'@', rest @ ..] => leading_digits(rest) == DIGITS,
        _ => false,
    }
}

/// Returns the seconds and nanoseconds of 24 digits.
fn unpack(digits: &[u8]) -> Option<Stamp>
    requires { length digits.now ≡ 24 }
    ensures { result ≡ unpacked (decode_sized digits.now 12) }
{
    let Ok(bytes) = <[u8; 12] as FromHex>::from_hex(digits) else {
        return None;
    };
    let (sec, nano) = bytes.split_at(8);
    Some(Stamp {
        sec: u64::from_be_bytes(sec.try_into().unwrap()),
        nano: u32::from_be_bytes(nano.try_into().unwrap()),
    })
}

/// Returns what the label says that a line begins with, if it begins with one.
#[tactic(auto, using(crate::proofs::Labels::labelled_long), unfolding(crate::specs::Lines::label_of))]
fn label_of(line: &[u8]) -> Option<Stamp>
    ensures value { result ≡ label_of line.now }
    ensures long { IfSome result (λ _. 25 ≤ length line.now) }
{
    if has_label(line) {
        unpack(&line[1..LABEL_LEN])
    } else {
        None
    }
}

/// Returns whether a line with this beginning may still begin with a label.
fn is_open(line: &[u8]) -> bool
    ensures { result ≡ is_open line.now }
{
    match line {
        [b'@', rest @ ..] => rest.len() <= DIGITS && leading_digits(rest) == rest.len(),
        _ => false,
    }
}

impl LastTime {
    /// Begins with the second 0.
    pub fn new<Z: Zone>(zone: &Z) -> LastTime
        ensures { result.text ≡ local_text (Z.ahead_at zone.now) result.sec }
    {
        LastTime {
            sec: 0,
            text: second_text(zone, 0),
        }
    }

    /// Returns the local time of a second, and keeps it.
    fn time_of<Z: Zone>(&mut self, zone: &Z, sec: u64) -> Option<[u8; TIME_LEN]>
        requires { self.old.text ≡ local_text (Z.ahead_at zone.now) self.old.sec }
        ensures value { result ≡ local_text (Z.ahead_at zone.now) sec }
        ensures kept { self.new.text ≡ local_text (Z.ahead_at zone.now) self.new.sec }
    {
        if self.sec != sec {
            self.sec = sec;
            self.text = second_text(zone, sec);
        }
        self.text
    }
}

/// Returns a point and nine digits.
fn short_fraction(nano: u32) -> [u8; 10]
    ensures { result ≡ 46 ∷ nine_digits nano }
{
    let mut bytes = [b'.'; 10];
    bytes[1..].copy_from_slice(&nine_digits(nano));
    bytes
}

/// Returns a point and ten digits.
fn long_fraction(nano: u32) -> [u8; 11]
    ensures { result ≡ 46 ∷ digit 1_000_000_000 nano ∷ nine_digits nano }
{
    let mut bytes = [b'.'; 11];
    bytes[1] = digit(NANOS, nano);
    bytes[2..].copy_from_slice(&nine_digits(nano));
    bytes
}

/// Puts a time and nanoseconds.
#[tactic(auto, using(crate::proofs::Labels::fraction_long))]
fn put_time<W: Write>(
    time: &[u8],
    nano: u32,
    block: &mut Block,
    writer: &mut Output<W>,
) -> Result<(), DeviceFault>
    ensures ok { OnOk result (Puts writer.old writer.new block.old block.new (time.now ++ fraction nano)) }
    ensures err { OnErr result (WroteFront writer.old writer.new (block.old ++ (time.now ++ fraction nano))) }
    ensures faults { OnOk result (Works writer.old writer.new) }
    ensures fault { OnErr result (Fails writer.old writer.new) }
{
    if nano < NANOS {
        block.put_both(time, &short_fraction(nano), writer)
    } else {
        block.put_both(time, &long_fraction(nano), writer)
    }
}

/// Puts a time and nanoseconds, and then these bytes.
fn put_stamped<W: Write>(
    time: &[u8],
    nano: u32,
    rest: &[u8],
    block: &mut Block,
    writer: &mut Output<W>,
) -> Result<(), DeviceFault>
    ensures ok { OnOk result
        (Puts writer.old writer.new block.old block.new ((time.now ++ fraction nano) ++ rest.now)) }
    ensures err { OnErr result
        (WroteFront writer.old writer.new (block.old ++ ((time.now ++ fraction nano) ++ rest.now))) }
    ensures faults { OnOk result (Works writer.old writer.new) }
    ensures fault { OnErr result (Fails writer.old writer.new) }
{
    put_time(time, nano, block, writer)?;
    block.put(rest, writer)
}

/// Puts a line, or as much of its front as shows whether it has a label.
pub fn put_line<Z: Zone, W: Write>(
    zone: &Z,
    line: &[u8],
    last: &mut LastTime,
    block: &mut Block,
    writer: &mut Output<W>,
) -> Result<(), DeviceFault>
    requires { last.old.text ≡ local_text (Z.ahead_at zone.now) last.old.sec }

    // In each outcome the last time is the local time of its second.
    ensures kept { last.new.text ≡ local_text (Z.ahead_at zone.now) last.new.sec }

    // If it succeeds, what becomes of the line comes after the bytes that were pending, and some of all these may be
    // written. If it fails, a prefix of all these is written.
    ensures ok { OnOk result
        (Puts writer.old writer.new block.old block.new (localised_line (Z.ahead_at zone.now) line.now)) }
    ensures err { OnErr result
        (WroteFront writer.old writer.new (block.old ++ localised_line (Z.ahead_at zone.now) line.now)) }

    // If it succeeds, no fault is counted. If it fails, the fault is.
    ensures faults { OnOk result (Works writer.old writer.new) }
    ensures fault { OnErr result (Fails writer.old writer.new) }
{
    let Some(stamp) = label_of(line) else {
        return block.put(line, writer);
    };
    match last.time_of(zone, stamp.sec) {
        Some(time) => put_stamped(&time, stamp.nano, &line[LABEL_LEN..], block, writer),
        None => block.put(line, writer),
    }
}

fn first_part(bytes: &[u8]) -> LinePart
    ensures within { result.len ≤ length bytes.now }
    ensures some { 0 < length bytes.now → 0 < result.len }
    ensures part { IsPart (take result.len bytes.now) result.ends }
    ensures rest { result.ends ≡ false → result.len ≡ length bytes.now }
{
    match memchr(b'\n', bytes) {
        Some(at) => LinePart {
            len: at + 1,
            ends: true,
        },
        None => LinePart {
            len: bytes.len(),
            ends: false,
        },
    }
}

/// Returns whether the first part of some bytes waits for more of them: it begins a line, and may still be the
/// beginning of a label.
fn waits(part: LinePart, inside: bool, bytes: &[u8]) -> bool
    ensures { result ≡ (not part.ends && not inside && is_open bytes.now) }
{
    !part.ends && !inside && is_open(bytes)
}

/// Puts bytes of one line.
fn put_part<Z: Zone, W: Write>(
    zone: &Z,
    part: &[u8],
    inside: bool,
    last: &mut LastTime,
    block: &mut Block,
    writer: &mut Output<W>,
) -> Result<(), DeviceFault>
    requires { last.old.text ≡ local_text (Z.ahead_at zone.now) last.old.sec }

    // In each outcome the last time is the local time of its second.
    ensures kept { last.new.text ≡ local_text (Z.ahead_at zone.now) last.new.sec }

    // If it succeeds, what becomes of the bytes comes after those that were pending, and some of all these may be
    // written. If it fails, a prefix of all these is written. Inside a line the bytes are unchanged.
    ensures ok { OnOk result
        (Puts writer.old writer.new block.old block.new (passed_part (Z.ahead_at zone.now) inside part.now)) }
    ensures err { OnErr result
        (WroteFront writer.old writer.new (block.old ++ passed_part (Z.ahead_at zone.now) inside part.now)) }

    // If it succeeds, no fault is counted. If it fails, the fault is.
    ensures faults { OnOk result (Works writer.old writer.new) }
    ensures fault { OnErr result (Fails writer.old writer.new) }
{
    if inside {
        block.put(part, writer)
    } else {
        put_line(zone, part, last, block, writer)
    }
}

/// Puts the lines of some bytes, except for an end that may still be the beginning of a label. Returns the place of
/// that end.
pub fn put_lines<Z: Zone, W: Write>(
    zone: &Z,
    bytes: &[u8],
    inside: &mut bool,
    last: &mut LastTime,
    block: &mut Block,
    writer: &mut Output<W>,
) -> Result<usize, DeviceFault>
    requires { last.old.text ≡ local_text (Z.ahead_at zone.now) last.old.sec }

    // In each outcome the last time is the local time of its second.
    ensures kept { last.new.text ≡ local_text (Z.ahead_at zone.now) last.new.sec }

    // If it succeeds, the bytes from the returned place on are held. They are none, or at most 25 that begin a line.
    // Whatever comes after them, what becomes of all bytes begins with what was put.
    ensures ok { IfOk result (λ at. PassesUpTo at (Z.ahead_at zone.now) inside.old bytes.now inside.new
        writer.old writer.new block.old block.new) }
    ensures held { IfOk result (λ at. IsHeld inside.new (drop at bytes.now)) }
    ensures within { IfOk result (λ at. (at ≤ length bytes.now) × (length bytes.now ≤ at + 25)) }

    // If it fails, a prefix of the bytes that were pending and of what becomes of all bytes is written, and the fault
    // is counted. If it succeeds, none is counted.
    ensures err { OnErr result
        (WroteFront writer.old writer.new (block.old ++ passed (Z.ahead_at zone.now) inside.old bytes.now)) }
    ensures faults { OnOk result (Works writer.old writer.new) }
    ensures fault { OnErr result (Fails writer.old writer.new) }
{
    let mut at = 0;
    while at < bytes.len() {
        let rest = &bytes[at..];
        let part = first_part(rest);
        if waits(part, *inside, rest) {
            return Ok(at);
        }
        put_part(zone, &rest[..part.len], *inside, last, block, writer)?;
        *inside = !part.ends;
        at += part.len;
    }
    Ok(at)
}
