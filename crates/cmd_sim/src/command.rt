//! The command `sim`.
ghost use Rattle.std.specs.Prelude.{◌≡◌, []};
ghost use Rattle.tai_status.specs.Counted.{Reports};
ghost use Rattle.cmd_base.specs.Console.{console};
ghost use Rattle.cmd_sim.specs.Ends.{AnswersByStatus, SimEnds, TableByStatus, refused_report, report_of};
ghost use Rattle.tai_status.specs.Words.{texts};
ghost use Rattle.cmd_sim.specs.Ends.{status_of, unwritten_report};
ghost use Rattle.cmd_sim.specs.Headline.{Headline};

use crate::fault::{SimFault, Why, why_name};
use crate::session::answer_lines;
use crate::table::whole_table;
use arrayvec::ArrayString;
use cmd_base::{Command, DONE, REFUSED, TROUBLE, push_number, report, report_device, usage};
use std::alloc::Allocator;
use std::io::{Read, Write};
use tai_status::{Input, Output};

/// Returns the report of a line that is refused.
fn refused_text(line: u64, why: Why) -> ArrayString<64>
    ensures { result.bytes ≡ refused_report line why }
{
    let mut out = ArrayString::new();
    out.push_str("sim: line ");
    push_number(&mut out, line);
    out.push_str(": ");
    out.push_str(why_name(why));
    out.push_str("\n");
    out
}

/// Reports that the writer failed, and why, and returns the exit status for that.
fn report_unwritten<W: Write, E: Write>(writer: &Output<W>, faults: &mut Output<E>) -> u8
    ensures status { result ≡ 111 }
    ensures reported { Reports faults.old faults.new (unwritten_report writer.now) }
{
    report_device(faults, b"sim: ", b"write fault", writer.cause())
}

/// Reports a fault, and returns its exit status.
fn report_fault<D: Read, W: Write, E: Write>(
    fault: SimFault,
    reader: &Input<D>,
    writer: &Output<W>,
    faults: &mut Output<E>,
) -> u8
    ensures status { result ≡ status_of fault }
    ensures reported { Reports faults.old faults.new (report_of fault reader.now writer.now) }
{
    match fault {
        SimFault::Refused { line, why } => {
            report(faults, refused_text(line, why).as_bytes(), REFUSED)
        }
        SimFault::OutOfMemory => report(faults, b"sim: OutOfMemory\n", TROUBLE),
        SimFault::Read => report_device(faults, b"sim: ", b"read fault", reader.cause()),
        SimFault::Write => report_unwritten(writer, faults),
    }
}

/// Answers the lines of the input, as `sim` does without words.
fn answer_input<A: Allocator + Clone + Copy, D: Read, W: Write, E: Write>(
    alloc: A,
    reader: &mut Input<D>,
    writer: &mut Output<W>,
    faults: &mut Output<E>,
) -> u8
    ensures ends { AnswersByStatus result
        (console reader.old writer.old faults.old) (console reader.new writer.new faults.new) }
    ensures headline { Headline result
        (console reader.old writer.old faults.old) (console reader.new writer.new faults.new) }
{
    match answer_lines(alloc, reader, writer) {
        Ok(()) => DONE,
        Err(fault) => report_fault(fault, reader, writer, faults),
    }
}

/// Prints the table of the control bytes, as `sim table` does.
fn show_table<W: Write, E: Write>(writer: &mut Output<W>, faults: &mut Output<E>) -> u8
    ensures ends { TableByStatus result writer.old writer.new faults.old faults.new }
{
    match writer.write_all(whole_table().as_bytes()) {
        Ok(()) => DONE,
        Err(_) => report_unwritten(writer, faults),
    }
}

/// The command `sim`: reads lines, and prints the answer to each.
///
/// If the first line begins with the word `scan`, it is the first event of a suite, and so is each later line. The
/// answer to each is one line or more. Any other first line begins a service, and each later line is an event of it.
/// The answer to each is one line. With the word `table`, the command prints the table of the control bytes. Other
/// words are wrong.
///
/// Returns the exit status: 0; 100 if a line is refused, and for wrong words; 111 if it is out of memory, or if the
/// reader or the writer fails. A refused line is reported with its number, and a failure with its cause. A copy of the
/// allocator needs no memory, as with the program's own.
pub fn run_sim<A: Allocator + Clone + Copy, D: Read, W: Write, E: Write>(
    alloc: A,
    words: &[&str],
    reader: &mut Input<D>,
    writer: &mut Output<W>,
    faults: &mut Output<E>,
) -> u8
    ensures ends { SimEnds (texts words.now) result
        (console reader.old writer.old faults.old) (console reader.new writer.new faults.new) }
    ensures headline { texts words.now ≡ [] → Headline result
        (console reader.old writer.old faults.old) (console reader.new writer.new faults.new) }
{
    match words {
        [] => answer_input(alloc, reader, writer, faults),
        [word] => match *word {
            "table" => show_table(writer, faults),
            _ => usage(faults, Command::Sim),
        },
        [_, _, ..] => usage(faults, Command::Sim),
    }
}
