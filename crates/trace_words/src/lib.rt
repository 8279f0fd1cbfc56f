//! The words of the command `trace`: a file, what to break at, and whether to show local times.
//!
//! [`parse_words`] reads them with `clap`, as the command line `FILE [--break SPEC] [--local]`. This is a crate of its
//! own, so that no crate above is checked together with the code of a command line parser.
#![tactic(auto)]

ghost use Rattle.std.specs.Prelude.{◌≡◌, map, IfOk, IfErr, Some, None, option_map};
ghost use Rattle.clap.specs.Words.{FailsBy, fault_of, found_of, matches_of, rows_of};
ghost use Rattle.trace_words.specs.Words.{asked_of, is_set, request_of, trace_line};

mod laws;

use clap::error::ErrorKind;
use clap::{Arg, ArgAction, ArgMatches, Command, Error};
pub use laws::worked_lines;
use std::alloc::Global;

/// What the words of `trace` ask for: a file, what to break at, and whether to show local times.
#[derive(Clone, Copy, Debug, PartialEq, Eq)]
pub struct TraceWords<'a> {
    pub file: &'a str,
    pub at: Option<&'a str>,
    pub local: bool,
}

/// Why words ask for nothing.
#[derive(Clone, Copy, Debug, PartialEq, Eq)]
pub enum WordsFault {
    Wrong,
    OutOfMemory,
}

/// Reads what words ask for, as `FILE [--break SPEC] [--local]`. Options may come before or after the file, and the
/// value of `--break` in the next word or after `=`. `Wrong` is returned if the command line does not take the words.
pub fn parse_words<'a>(alloc: Global, words: &'a [&'a str]) -> Result<TraceWords<'a>, WordsFault>
    ensures asked { IfOk result (λ asked.
        asked_of (map (λ word. word.now) words.entry.now) ≡ Some (request_of asked)) }
    ensures wrong { IfErr result (λ fault. fault ≡ WordsFault.Wrong
        → asked_of (map (λ word. word.now) words.entry.now) ≡ None) }
{
    let matches = match match_words(alloc, words) {
        Ok(matches) => matches,
        Err(fault) if fault.kind() == ErrorKind::OutOfMemory => return Err(WordsFault::OutOfMemory),
        Err(_) => return Err(WordsFault::Wrong),
    };
    match matches.get_str("FILE") {
        Some(file) => Ok(TraceWords {
            file,
            at: matches.get_str("break"),
            local: is_set(matches.get_str("local")),
        }),
        None => Err(WordsFault::Wrong),
    }
}

/// Returns whether a flag is set, by its value.
fn is_set(value: Option<&str>) -> bool
    ensures { result ≡ is_set (option_map (λ text. text.now) value.entry) }
{
    match value {
        Some(text) => text == "true",
        None => false,
    }
}

/// Matches words with the command line.
fn match_words<'a>(alloc: Global, words: &'a [&'a str]) -> Result<ArgMatches<'a>, Error>
    ensures kinds { FailsBy (fault_of trace_line (map (λ word. word.now) words.entry.now)) result }
    ensures matches { IfOk result (λ matches. rows_of (found_of matches)
        ≡ matches_of trace_line (map (λ word. word.now) words.entry.now)) }
{
    let file = Arg::new(alloc, "FILE")
        .required(true)
        .action(ArgAction::Set);
    let at = Arg::new(alloc, "break")
        .long("break")
        .action(ArgAction::Set);
    let local = Arg::new(alloc, "local")
        .long("local")
        .action(ArgAction::SetTrue);
    Command::new(alloc, "trace")
        .no_binary_name(true)
        .disable_help_flag(true)
        .disable_version_flag(true)
        .arg(file)?
        .arg(at)?
        .arg(local)?
        .try_get_matches_from(words)
}
