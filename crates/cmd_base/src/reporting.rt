//! How a command reports its faults, and the status with which it exits.
ghost use Rattle.std.specs.Prelude.{◌≡◌, ◌+◌, ◌≤◌, ◌++◌, decimal, OnOk, OnErr};
ghost use Rattle.arrayvec.specs.ArrayString.{array_string_len};
ghost use Rattle.tai_status.specs.Causes.{cause_note};
ghost use Rattle.tai_status.specs.Counted.{Fails, Reports, Wrote, WroteFront, device_note};
ghost use Rattle.cmd_base.specs.Usage.{usage_text};

use crate::command::Command;
use crate::pages::page_of;
use arrayvec::ArrayString;
use itoa::Buffer;
use std::io::Write;
use tai_status::{Block, Cause, DeviceFault, Output};

/// The exit status of a command that did what it was asked.
pub const DONE: u8 = 0;

/// The exit status for wrong words, and for input that is refused.
pub const REFUSED: u8 = 100;

/// The exit status for trouble: out of memory, or a fault of a device or a file.
pub const TROUBLE: u8 = 111;

/// Prints a text to the writer for faults. A fault of that writer is ignored.
pub fn print_fault<E: Write>(faults: &mut Output<E>, text: &[u8])
    ensures { Reports faults.old faults.new text.now }
{
    match faults.write_all(text) {
        Ok(()) => {}
        Err(_) => {}
    }
}

/// Reports a fault, and returns its status.
pub fn report<E: Write>(faults: &mut Output<E>, text: &[u8], status: u8) -> u8
    ensures status { result ≡ status }
    ensures reported { Reports faults.old faults.new text.now }
{
    print_fault(faults, text);
    status
}

/// Reports a fault in three parts, with one write if they are short, and returns its status. A fault of that writer is
/// ignored.
pub fn report_parts<E: Write>(
    faults: &mut Output<E>,
    first: &[u8],
    second: &[u8],
    third: &[u8],
    status: u8,
) -> u8
    ensures status { result ≡ status }
    ensures reported { Reports faults.old faults.new (first.now ++ (second.now ++ third.now)) }
{
    match write_parts(faults, first, second, third) {
        Ok(()) => {}
        Err(_) => {}
    }
    status
}

/// Writes three pieces.
fn write_parts<W: Write>(
    writer: &mut Output<W>,
    first: &[u8],
    second: &[u8],
    third: &[u8],
) -> Result<(), DeviceFault>
    ensures ok { OnOk result (Wrote writer.old writer.new (first.now ++ (second.now ++ third.now))) }
    ensures err { OnErr result (WroteFront writer.old writer.new (first.now ++ (second.now ++ third.now))) }
    ensures fault { OnErr result (Fails writer.old writer.new) }
{
    let mut line = Block::new();
    line.put(first, writer)?;
    line.put_both(second, third, writer)?;
    line.flush(writer)
}

/// Returns the end of a line that says why something was refused: `: `, the words of the cause, and the newline.
pub fn cause_note(cause: Cause) -> ArrayString<64>
    ensures { result.bytes ≡ cause_note cause }
{
    let mut note = ArrayString::new();
    note.push_str(": ");
    note.push_str(cause.words());
    note.push_str("\n");
    note
}

/// Returns the end of a line that reports a failed device.
fn device_note(cause: Option<Cause>) -> ArrayString<64>
    ensures { result.bytes ≡ device_note cause }
{
    if let Some(cause) = cause {
        return cause_note(cause);
    }
    let mut note = ArrayString::new();
    note.push_str("\n");
    note
}

/// Reports that a device failed, with the cause of its last fault, and returns the status for that. The command's name
/// must include its `: `.
pub fn report_device<E: Write>(
    faults: &mut Output<E>,
    command: &[u8],
    what: &[u8],
    cause: Option<Cause>,
) -> u8
    ensures status { result ≡ 111 }
    ensures reported { Reports faults.old faults.new (command.now ++ (what.now ++ device_note cause)) }
{
    let note = device_note(cause);
    report_parts(faults, command, what, note.as_bytes(), TROUBLE)
}

/// Reports that a command does not take these words, with its page, and returns the status for that.
pub fn usage<E: Write>(faults: &mut Output<E>, command: Command) -> u8
    ensures status { result ≡ 100 }
    ensures reported { Reports faults.old faults.new (usage_text command) }
{
    report_parts(faults, b"dtools: usage", b"\n", page_of(command), REFUSED)
}

/// Writes a number at the end of a text.
pub fn push_number<const N: usize>(out: &mut ArrayString<N>, number: u64)
    requires { array_string_len out.old + 20 ≤ N }
    ensures text { out.new.bytes ≡ out.old.bytes ++ decimal number }
    ensures len { array_string_len out.new ≤ array_string_len out.old + 20 }
{
    let mut buffer = Buffer::new();
    out.push_str(buffer.format(number));
}
