//! The command `trace`.
ghost use Rattle.std.specs.Prelude.{◌≡◌, OnOk, IfErr, IfOk, string_bytes};
ghost use Rattle.tai_status.specs.Counted.{Works, Reports};
ghost use Rattle.tai_status.specs.Words.{texts};
ghost use Rattle.cmd_trace.specs.Traced.{FileEnds, FolderEnds, PathEnds, Shows, ReportsMissed, TextEnds, TraceCause};
ghost use Rattle.cmd_trace.specs.Traced.{TraceEnds, WordEnds, known_in, times_asked, times_in, trace_in};
ghost use Rattle.cmd_trace.specs.Traced.{refused_text, trouble_text};
ghost use Rattle.cmd_trace.specs.Traced.{unread_text};
ghost use Rattle.cmd_trace.specs.Traced.{words_status, words_text};

use crate::break_word::read_spec;
use crate::fault::TraceTrouble;
use crate::shown::shown;
use arrayvec::ArrayString;
use cmd_base::{
    Command, DONE, FileSource, TROUBLE, cause_note, push_number, report, report_device,
    report_parts, usage,
};
use cmd_local::Zone;
use std::alloc::{AllocError, Allocator, Global};
use std::io::{Error, ErrorKind, Write};
use sup_trace::{Break, TraceFault, kind_name, read_text};
use svc_places::ServicePlaces;
use tai_status::{Cause, Output};
use trace_words::{WordsFault, parse_words};

/// Writes what is printed about the trace whose text this is, with the local times of a zone if there is one.
fn show_text<A: Allocator + Clone + Copy, W: Write, Z: Zone>(
    alloc: A,
    zone: Option<&Z>,
    text: &[u8],
    at: Option<Break>,
    writer: &mut Output<W>,
) -> Result<(), TraceTrouble>
    ensures ok { OnOk result (Shows (times_in Z.ahead_at zone.entry) text.now at
        writer.old writer.new) }
    ensures works { OnOk result (Works writer.old writer.new) }
    ensures cause { IfErr result (λ trouble.
        TraceCause (times_in Z.ahead_at zone.entry) trouble text.now at writer.old writer.new) }
{
    let content = match read_text(alloc, text) {
        Ok(content) => content,
        Err(fault) => return Err(TraceTrouble::Refused(fault)),
    };
    let Ok(shown) = shown(alloc, zone, &content, at) else {
        return Err(TraceTrouble::OutOfMemory);
    };
    match writer.write_all(&shown) {
        Ok(()) => Ok(()),
        Err(_) => Err(TraceTrouble::Write(writer.cause())),
    }
}

/// Returns what is reported about a text that is refused.
fn refused_text(fault: TraceFault) -> ArrayString<64>
    ensures { result.bytes ≡ refused_text fault }
{
    let mut out = ArrayString::new();
    out.push_str("trace: line ");
    push_number(&mut out, fault.line);
    out.push_str(": ");
    out.push_str(kind_name(fault.kind));
    out.push_str("\n");
    out
}

/// Reports trouble, and returns its exit status.
fn report_trouble<E: Write>(trouble: TraceTrouble, faults: &mut Output<E>) -> u8
    ensures status { result ≡ 111 }
    ensures reported { Reports faults.old faults.new (trouble_text trouble) }
{
    match trouble {
        TraceTrouble::Refused(fault) => { report(faults, refused_text(fault).as_bytes(), TROUBLE) }
        TraceTrouble::OutOfMemory => report(faults, b"trace: OutOfMemory\n", TROUBLE),
        TraceTrouble::Write(cause) => report_device(faults, b"trace: ", b"write fault", cause),
    }
}

/// Prints what this text says, with the local times of a zone if there is one. Returns the exit status: 0; or 111 for a
/// text that is refused, for a lack of memory and for a fault of the writer. A text that is refused is reported as
/// refused, however little memory there is. The allocator must be one whose copies need no memory, as the program's
/// own.
fn show_bytes<A: Allocator + Clone + Copy, W: Write, E: Write, Z: Zone>(
    alloc: A,
    zone: Option<&Z>,
    text: &[u8],
    at: Option<Break>,
    writer: &mut Output<W>,
    faults: &mut Output<E>,
) -> u8
    ensures ends { TextEnds (times_in Z.ahead_at zone.entry) text.now at result
        writer.old writer.new faults.old faults.new }
{
    match show_text(alloc, zone, text, at, writer) {
        Ok(()) => DONE,
        Err(trouble) => report_trouble(trouble, faults),
    }
}

/// Prints what the text in the file at a path says, with the local times of a zone if there is one. In reports the file
/// has a name. Returns the exit status: that of `show_bytes`, and 111 for a file that can't be read.
fn trace_path<R: FileSource, W: Write, E: Write, Z: Zone>(
    files: &R,
    alloc: Global,
    zone: Option<&Z>,
    path: &str,
    name: &str,
    at: Option<Break>,
    writer: &mut Output<W>,
    faults: &mut Output<E>,
) -> u8
    ensures ends { PathEnds (times_in Z.ahead_at zone.entry) (known_in R.file_at R.fault_at files.now) path.now name.now
        at result writer.old writer.new faults.old faults.new }
{
    match files.read_file(alloc, path) {
        Ok(text) => show_bytes(alloc, zone, &text, at, writer, faults),
        Err(error) => report_missed(&error, name, faults),
    }
}

/// Does the same for the trace of the service in a folder.
fn trace_folder<R: FileSource, W: Write, E: Write, Z: Zone>(
    files: &R,
    alloc: Global,
    zone: Option<&Z>,
    folder: &str,
    name: &str,
    at: Option<Break>,
    writer: &mut Output<W>,
    faults: &mut Output<E>,
) -> u8
    ensures ends { FolderEnds (times_in Z.ahead_at zone.entry) (known_in R.file_at R.fault_at files.now) folder.now
        name.now at result writer.old writer.new faults.old faults.new }
{
    match (trace_in(alloc, folder), trace_in(alloc, name)) {
        (Ok(path), Ok(name)) => trace_path(
            files,
            alloc,
            zone,
            path.as_str(),
            name.as_str(),
            at,
            writer,
            faults,
        ),
        _ => report_trouble(TraceTrouble::OutOfMemory, faults),
    }
}

/// Returns the path of the trace of the service in a folder.
fn trace_in<A: Allocator>(alloc: A, folder: &str) -> Result<String<A>, AllocError>
    ensures { IfOk result (λ path. string_bytes path ≡ trace_in folder.now) }
{
    let mut path = String::from_str(alloc, folder)?;
    path.push_str("/supervise/trace")?;
    Ok(path)
}

/// Prints what the text in the file at a path says, or for a folder what the trace of the service in it says. Uses the
/// local times of a zone if there is one. In reports the file has a name. Returns the exit status.
fn trace_file<R: FileSource, W: Write, E: Write, Z: Zone>(
    files: &R,
    alloc: Global,
    zone: Option<&Z>,
    path: &str,
    name: &str,
    at: Option<Break>,
    writer: &mut Output<W>,
    faults: &mut Output<E>,
) -> u8
    ensures ends { FileEnds (times_in Z.ahead_at zone.entry) (known_in R.file_at R.fault_at files.now) path.now name.now
        at result writer.old writer.new faults.old faults.new }
{
    match files.read_file(alloc, path) {
        Ok(text) => show_bytes(alloc, zone, &text, at, writer, faults),
        Err(error) if error.kind() == ErrorKind::IsADirectory => {
            trace_folder(files, alloc, zone, path, name, at, writer, faults)
        }
        Err(error) => report_missed(&error, name, faults),
    }
}

/// Does the same for the file or the folder that a word names, with the word in reports.
fn trace_word<R: FileSource + ServicePlaces, W: Write, E: Write, Z: Zone>(
    files: &R,
    alloc: Global,
    zone: Option<&Z>,
    word: &str,
    at: Option<Break>,
    writer: &mut Output<W>,
    faults: &mut Output<E>,
) -> u8
    ensures ends { WordEnds (times_in Z.ahead_at zone.entry) (known_in R.file_at R.fault_at files.now)
        (R.place_at files.now) word.now at result writer.old writer.new faults.old faults.new }
{
    match files.place(alloc, word) {
        Ok(path) => trace_file(files, alloc, zone, path.as_str(), word, at, writer, faults),
        Err(_) => report_trouble(TraceTrouble::OutOfMemory, faults),
    }
}

/// Reports why a file is not read, and returns the exit status for that. Only an error that says so counts as a lack of
/// memory.
fn report_missed<E: Write>(error: &Error, file: &str, faults: &mut Output<E>) -> u8
    ensures status { result ≡ 111 }
    ensures reported { ReportsMissed error.now file.now faults.old faults.new }
{
    if error.kind() == ErrorKind::OutOfMemory {
        return report_trouble(TraceTrouble::OutOfMemory, faults);
    }
    report_unread(file, Cause::of(error), faults)
}

/// Reports that a file can't be read, and why, and returns the exit status for that.
fn report_unread<E: Write>(file: &str, cause: Cause, faults: &mut Output<E>) -> u8
    ensures status { result ≡ 111 }
    ensures reported { Reports faults.old faults.new (unread_text file.now cause) }
{
    let note = cause_note(cause);
    report_parts(
        faults,
        b"trace: unable to read ",
        file.as_bytes(),
        note.as_bytes(),
        TROUBLE,
    )
}

/// Reports why words are not read, and returns the exit status for that.
fn report_words<E: Write>(fault: WordsFault, faults: &mut Output<E>) -> u8
    ensures status { result ≡ words_status fault }
    ensures reported { Reports faults.old faults.new (words_text fault) }
{
    match fault {
        WordsFault::Wrong => usage(faults, Command::Trace),
        WordsFault::OutOfMemory => report_trouble(TraceTrouble::OutOfMemory, faults),
    }
}

/// Returns the zone, if local times are asked for.
fn zone_asked<Z: Zone>(zone: &Z, local: bool) -> Option<&Z>
    ensures { times_in Z.ahead_at result ≡ times_asked (Z.ahead_at zone.now) local }
{
    if local { Some(zone) } else { None }
}

/// The command `trace FILE [--break SPEC] [--local]`: prints what each entry of the trace in the file did, and the
/// machine after them. With `--local`, it prints the local times of a zone in place of labels, and words in place of
/// the digits of records. With `--break`, it only prints the number of the first entry that SPEC names, as `read_break`
/// reads it, with or without `--local`. If FILE is a folder, it is that of a service, and the trace of that service is
/// used. A word may also name a service elsewhere, as [`ServicePlaces`] finds it.
///
/// Returns the exit status: 0; 100 for wrong words; 111 for a file that can't be read, a text that is refused, a lack
/// of memory, and a fault of the writer. Words are checked before SPEC, SPEC before the file, and the file before its
/// text.
pub fn run_trace<R: FileSource + ServicePlaces, W: Write, E: Write, Z: Zone>(
    files: &R,
    alloc: Global,
    zone: &Z,
    words: &[&str],
    writer: &mut Output<W>,
    faults: &mut Output<E>,
) -> u8
    ensures ends { TraceEnds (Z.ahead_at zone.now) (known_in R.file_at R.fault_at files.now) (R.place_at files.now)
        (texts words.now) result writer.old writer.new faults.old faults.new }
{
    if words.is_empty() {
        return usage(faults, Command::Trace);
    }
    let asked = match parse_words(alloc, words) {
        Ok(asked) => asked,
        Err(fault) => return report_words(fault, faults),
    };
    match read_spec(asked.at) {
        Ok(at) => trace_word(
            files,
            alloc,
            zone_asked(zone, asked.local),
            asked.file,
            at,
            writer,
            faults,
        ),
        Err(_) => usage(faults, Command::Trace),
    }
}
