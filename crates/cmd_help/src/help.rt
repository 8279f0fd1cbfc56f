//! `help` and `version`.
ghost use Rattle.std.specs.Prelude.{◌≡◌, map};
ghost use Rattle.cmd_base.specs.Commands.{command_named};
ghost use Rattle.std.specs.Option.{option_copied};
ghost use Rattle.cmd_help.specs.Ends.{HelpEnds, PageEnds, Prints, VersionEnds, page_named, version_text};

use crate::pages::{help_of, overview, tool_page};
use crate::source::{KIT, SOURCE};
use arrayvec::ArrayString;
use cmd_base::{Command, DONE, report_device, usage};
use std::io::Write;
use tai_status::Output;

/// Prints a text, or reports that the writer failed, and why. The name of the command includes its `: `.
fn print<W: Write, E: Write>(
    text: &[u8],
    command: &[u8],
    writer: &mut Output<W>,
    faults: &mut Output<E>,
) -> u8
    ensures prints { Prints text.now command.now result writer.old writer.new faults.old faults.new }
{
    match writer.write_all(text) {
        Ok(()) => DONE,
        Err(_) => report_device(faults, command, b"write fault", writer.cause()),
    }
}

/// Returns the page of the command, or of the installed program, that a word names.
fn page_named(word: &str) -> Option<&'static [u8]>
    ensures { option_copied result ≡ page_named word.now (command_named word.now) }
{
    match Command::named(word) {
        Some(command) => Some(help_of(command)),
        None => tool_page(word),
    }
}

/// Prints the page that a word names.
fn print_page<W: Write, E: Write>(word: &str, writer: &mut Output<W>, faults: &mut Output<E>) -> u8
    ensures ends { PageEnds (page_named word.now (command_named word.now)) result
        writer.old writer.new faults.old faults.new }
{
    match page_named(word) {
        Some(page) => print(page, b"help: ", writer, faults),
        None => usage(faults, Command::Help),
    }
}

/// The command `help`: prints which commands there are. With the name of a command, or of a program that is installed
/// next to this one, it prints which words that takes, and for `svc` also what each letter means. Returns the exit
/// status: 0; 100 for a word that names neither, and for more words; 111 for a fault of the writer.
pub fn run_help<W: Write, E: Write>(
    words: &[&str],
    writer: &mut Output<W>,
    faults: &mut Output<E>,
) -> u8
    ensures ends { HelpEnds (map (λ word. word.now) words.now) result writer.old writer.new faults.old faults.new }
{
    match words {
        [] => print(overview(), b"help: ", writer, faults),
        [word] => print_page(word, writer, faults),
        _ => usage(faults, Command::Help),
    }
}

/// Returns what `version` prints: which dtools this is, which kit built it, and from which sources.
fn version_text() -> ArrayString<192>
    ensures { result.bytes ≡ version_text }
{
    let mut text = ArrayString::new();
    text.push_str("dtools 2.1.0\nkit ");
    text.push_str(KIT);
    text.push_str("\nsource ");
    text.push_str(SOURCE);
    text.push_str("\n");
    text
}

/// The command `version`: prints the version of this program, the line of the kit that built it, and the sum of the
/// sources that it was built from, one on each line. Returns the exit status: 0; 100 for any word; 111 for a fault of
/// the writer.
pub fn run_version<W: Write, E: Write>(
    words: &[&str],
    writer: &mut Output<W>,
    faults: &mut Output<E>,
) -> u8
    ensures ends { VersionEnds (map (λ word. word.now) words.now) result writer.old writer.new faults.old faults.new }
{
    match words {
        [] => {
            let text = version_text();
            print(text.as_bytes(), b"version: ", writer, faults)
        }
        _ => usage(faults, Command::Version),
    }
}
