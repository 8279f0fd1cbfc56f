//! The command `tai64n`.
ghost use Rattle.std.specs.Prelude.{◌≡◌, ◌<◌, [], length};
ghost use Rattle.tai_status.specs.Counted.{Reports};
ghost use Rattle.cmd_filters.specs.Stamped.{TaiEnds, stamp_report};
ghost use Rattle.tai_status.specs.Words.{texts};

use cmd_base::{Command, DONE, report_device, usage};
use std::io::{Read, Write};
use tai_status::{Input, Output, StampFault, TimeSource, stamp_lines};

/// The command `tai64n`: writes each line of the reader after the text of a label and a space. It reads the clock once
/// for each line, at its first byte (<https://cr.yp.to/daemontools/tai64n.html>).
///
/// It takes no words. Returns the exit status: 0; 100 for wrong words; 111 for a fault of the reader or the writer,
/// which is reported with its cause.
pub fn run_tai64n<D: Read, W: Write, E: Write, C: TimeSource>(
    words: &[&str],
    reader: &mut Input<D>,
    writer: &mut Output<W>,
    faults: &mut Output<E>,
    clock: &mut C,
) -> u8
    ensures ends { TaiEnds (texts words.now) result C.readings clock.old clock.new
        reader.old reader.new writer.old writer.new faults.old faults.new }
    ensures unasked { 0 < length words.now → clock.new ≡ clock.old }
{
    if words.is_empty() {
        return stamp_input(reader, writer, faults, clock);
    }
    usage(faults, Command::Tai64n)
}

/// Stamps the whole input.
fn stamp_input<D: Read, W: Write, E: Write, C: TimeSource>(
    reader: &mut Input<D>,
    writer: &mut Output<W>,
    faults: &mut Output<E>,
    clock: &mut C,
) -> u8
    ensures ends { TaiEnds [] result C.readings clock.old clock.new
        reader.old reader.new writer.old writer.new faults.old faults.new }
{
    match stamp_lines(reader, writer, clock) {
        Ok(_) => DONE,
        Err(fault) => report_stamping(fault, reader, writer, faults),
    }
}

/// Reports which device failed, and why, and returns the exit status for that.
fn report_stamping<D: Read, W: Write, E: Write>(
    fault: StampFault,
    reader: &Input<D>,
    writer: &Output<W>,
    faults: &mut Output<E>,
) -> u8
    ensures status { result ≡ 111 }
    ensures reported { Reports faults.old faults.new (stamp_report fault reader.now writer.now) }
{
    match fault {
        StampFault::Read => report_device(faults, b"tai64n: ", b"Read", reader.cause()),
        StampFault::Write => report_device(faults, b"tai64n: ", b"Write", writer.cause()),
    }
}
