//! The command `readproctitle`.
ghost use Rattle.std.specs.Prelude.{◌≡◌, ◌↔◌, ◌<◌, ◌≢◌, [], ◌∷◌, ◌++◌, length, OnOk, IfOk, IfErr, IsErrOf};
ghost use Rattle.tai_status.specs.Counted.{Fails, Works, Wrote, WroteFront, IsRead, Reports};
ghost use Rattle.env_title.specs.Title.{new_title, title_text};
ghost use Rattle.cmd_base.specs.Console.{console};
ghost use Rattle.tai_status.specs.Words.{texts};
ghost use Rattle.cmd_filters.specs.Title.{NoTitle, ShowsTitle, ShowsRead, TitleEnds, WritesTitle, proctitle_report};
ghost use Rattle.cmd_filters.specs.Title.{proctitle_status};

use cmd_base::{Command, DONE, REFUSED, TROUBLE, report, report_device, usage};
use env_title::{Title, TitleFault};
use std::alloc::Allocator;
use std::io::{Read, Write};
use tai_status::{BLOCK, Input, Output};

/// Why there is no title, or not the whole of it.
#[derive(Clone, Copy, Debug, PartialEq, Eq)]
pub enum ProctitleFault {
    /// The title would be under 5 bytes.
    TooShort,
    OutOfMemory,
    Read,
    Write,
}

/// Returns a title of this length that is all dots.
fn begin_title<A: Allocator + Clone>(alloc: A, len: usize) -> Result<Title<A>, ProctitleFault>
    ensures ok { IfOk result (λ title. title ≡ new_title len) }
    ensures short { IsErrOf result ProctitleFault.TooShort ↔ (len < 5) }
    ensures neither { IfErr result (λ why. (why ≢ ProctitleFault.Read) × (why ≢ ProctitleFault.Write)) }
{
    match Title::new(alloc, len) {
        Ok(title) => Ok(title),
        Err(TitleFault::TooShort) => Err(ProctitleFault::TooShort),
        Err(TitleFault::OutOfMemory) => Err(ProctitleFault::OutOfMemory),
    }
}

/// Returns the title of this length after the whole input.
fn read_title<A: Allocator + Clone, D: Read>(
    alloc: A,
    len: usize,
    reader: &mut Input<D>,
) -> Result<Title<A>, ProctitleFault>
    // If it succeeds, the title shows all bytes of the reader, and no fault is counted.
    ensures ok { IfOk result (λ title. ShowsRead len reader.old reader.new title) }
    ensures end { OnOk result (IsRead reader.new × Works reader.old reader.new) }

    // It returns `TooShort` exactly for a title under 5 bytes, and then reads nothing.
    ensures short { IsErrOf result ProctitleFault.TooShort ↔ (len < 5) }
    ensures unread { IsErrOf result ProctitleFault.TooShort → reader.new ≡ reader.old }

    // After `Read` the fault of the reader is counted. `Write` is never returned.
    ensures fault { IsErrOf result ProctitleFault.Read → Fails reader.old reader.new }
    ensures neither { IfErr result (λ why. why ≢ ProctitleFault.Write) }
{
    let mut title = begin_title(alloc, len)?;
    let mut bytes = [0; BLOCK];
    'reads: loop {
        let Ok(count) = reader.read(&mut bytes) else {
            return Err(ProctitleFault::Read);
        };
        if count == 0 {
            return Ok(title);
        }
        title.push_all(&bytes[..count]);
    }
}

/// Writes a title and a newline.
fn write_title<A: Allocator + Clone, W: Write>(
    title: &Title<A>,
    writer: &mut Output<W>,
) -> Result<(), ProctitleFault>
    // If it succeeds, the title and a newline are written. After `OutOfMemory` nothing is written, and after `Write` a
    // prefix of them is.
    ensures ok { OnOk result (Wrote writer.old writer.new (title_text title.now ++ 10 ∷ [])) }
    ensures memory { IsErrOf result ProctitleFault.OutOfMemory → writer.new ≡ writer.old }
    ensures front { IsErrOf result ProctitleFault.Write
        → WroteFront writer.old writer.new (title_text title.now ++ 10 ∷ []) }

    // After `Write` the fault of the writer is counted. If it succeeds, none is. `TooShort` and `Read` are never
    // returned.
    ensures fault { IsErrOf result ProctitleFault.Write → Fails writer.old writer.new }
    ensures works { OnOk result (Works writer.old writer.new) }
    ensures neither { IfErr result (λ why. (why ≢ ProctitleFault.TooShort) × (why ≢ ProctitleFault.Read)) }
{
    let Ok(mut line) = title.text() else {
        return Err(ProctitleFault::OutOfMemory);
    };
    if line.push(b'\n').is_err() {
        return Err(ProctitleFault::OutOfMemory);
    }
    match writer.write_all(&line) {
        Ok(()) => Ok(()),
        Err(_) => Err(ProctitleFault::Write),
    }
}

/// Writes the title of this length for the whole input.
fn show_title<A: Allocator + Clone, D: Read, W: Write>(
    alloc: A,
    len: usize,
    reader: &mut Input<D>,
    writer: &mut Output<W>,
) -> Result<(), ProctitleFault>
    ensures ok { OnOk result (WritesTitle len reader.old writer.old writer.new) }
    ensures end { OnOk result (IsRead reader.new) }
    ensures works { OnOk result (Works reader.old reader.new × Works writer.old writer.new) }
    ensures short { IsErrOf result ProctitleFault.TooShort ↔ (len < 5) }
    ensures fault { IfErr result (λ why. NoTitle len why reader.old reader.new writer.old writer.new) }
{
    let title = read_title(alloc, len, reader)?;
    write_title(&title, writer)
}

/// Reports why there is no title, or not the whole of it, and returns the exit status for that.
fn report_untitled<D: Read, W: Write, E: Write>(
    fault: ProctitleFault,
    reader: &Input<D>,
    writer: &Output<W>,
    faults: &mut Output<E>,
) -> u8
    ensures status { result ≡ proctitle_status fault }
    ensures reported { Reports faults.old faults.new (proctitle_report fault reader.now writer.now) }
{
    match fault {
        ProctitleFault::TooShort => report(faults, b"readproctitle: TooShort\n", REFUSED),
        ProctitleFault::OutOfMemory => report(faults, b"readproctitle: OutOfMemory\n", TROUBLE),
        ProctitleFault::Read => {
            report_device(faults, b"readproctitle: ", b"read fault", reader.cause())
        }
        ProctitleFault::Write => {
            report_device(faults, b"readproctitle: ", b"write fault", writer.cause())
        }
    }
}

/// Shows the title of this length for the whole input, or reports why there is none.
fn run_title<A: Allocator + Clone, D: Read, W: Write, E: Write>(
    alloc: A,
    len: usize,
    reader: &mut Input<D>,
    writer: &mut Output<W>,
    faults: &mut Output<E>,
) -> u8
    ensures ends { ShowsTitle len result
        (console reader.old writer.old faults.old) (console reader.new writer.new faults.new) }
{
    match show_title(alloc, len, reader, writer) {
        Ok(()) => DONE,
        Err(fault) => report_untitled(fault, reader, writer, faults),
    }
}

/// The command `readproctitle`: reads its input to the end, and prints its title and a newline
/// (<https://cr.yp.to/daemontools/readproctitle.html>).
///
/// A title is as long as the last word, in bytes. It is three dots, and the last bytes of the input without NULs, after
/// more dots if these are too few. Returns the exit status: 0; 100 without a word, and for a last word under 5 bytes;
/// 111 if it is out of memory, or if the reader or the writer fails. A failure is reported with its cause.
pub fn run_readproctitle<A: Allocator + Clone, D: Read, W: Write, E: Write>(
    alloc: A,
    words: &[&str],
    reader: &mut Input<D>,
    writer: &mut Output<W>,
    faults: &mut Output<E>,
) -> u8
    ensures ends { TitleEnds (texts words.now) result
        (console reader.old writer.old faults.old) (console reader.new writer.new faults.new) }
{
    match words.last() {
        Some(word) => run_title(alloc, word.len(), reader, writer, faults),
        None => usage(faults, Command::Readproctitle),
    }
}
