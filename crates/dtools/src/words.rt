//! The words of the command line, which need not be text.
ghost use Rattle.std.specs.Prelude.{string_bytes, IfOk};
ghost use Rattle.dtools.specs.Words.{EndsWithZero};

use cmd_base::Command;
use std::alloc::{AllocError, Allocator};
use std::env;
use std::env::{Env, FillError};
use std::io::ErrorKind;
use svc_places::service_words;
use tai_status::Cause;

/// The bytes of the first buffer for a word, and how many sizes are tried, each twice the one before. A word of Linux
/// is shorter than the last size (execve(2): 32 pages).
const FIRST_BYTES: usize = 4096;

const SIZES: u32 = 11;

/// Why the words are not run.
#[derive(Debug, Drop)]
pub(crate) enum ProgramWordsFault {
    /// There is no memory for them.
    OutOfMemory,
    /// A word is not text, and names no service. This is the line that says which one.
    NoText(String),
    /// The folder of services can't be listed, for this cause.
    NoList(Cause),
}

impl From<AllocError> for ProgramWordsFault {
    fn from(_fault: AllocError) -> ProgramWordsFault {
        ProgramWordsFault::OutOfMemory
    }
}

/// Returns the words of the program, without its own name.
///
/// If a command names services, a word of it that is not text is replaced by a name that no file has. The command then
/// reports that this service does not exist, and shows the others. A word that is not text is refused if it begins with
/// `-`, and for any other command.
fn program_words(rt: &HostRuntime) -> Result<Vec<String>, ProgramWordsFault> {
    let all = match env::args(rt) {
        Ok(all) => all,
        Err(fault) if fault.kind() == ErrorKind::OutOfMemory => {
            return Err(ProgramWordsFault::OutOfMemory);
        }
        Err(_) => return words_of_bytes(rt),
    };
    let mut words = Vec::new(rt.alloc());
    for word in all.skip(1) {
        push_word(&mut words, word)?;
    }
    Ok(words)
}

/// The words of the program.
#[derive(Debug, Drop)]
pub(crate) struct ProgramWords {
    pub(crate) words: Vec<String>,
    /// Whether they name all services, which nobody named, for lines that people read.
    pub(crate) is_list: bool,
}

/// Returns the words of the program. If they name `svstat` and no service, and there is a folder of services, words
/// that name all of these are added, and with `-l` their loggers too.
///
/// It is not inlined, so that its paths are not on the stack while a command runs.
#[inline(never)]
pub(crate) fn listed_words(rt: &HostRuntime) -> Result<ProgramWords, ProgramWordsFault> {
    let words = program_words(rt)?;
    let Some(listing) = listing_in(&words) else {
        return Ok(as_given(words));
    };
    match service_words(rt, &rt.alloc(), listing.with_loggers) {
        Ok(None) => Ok(as_given(words)),
        Ok(Some(services)) => Ok(ProgramWords {
            words: svstat_of(rt, listing.form, services)?,
            is_list: listing.form.is_none(),
        }),
        Err(fault) if fault.kind() == ErrorKind::OutOfMemory => Err(ProgramWordsFault::OutOfMemory),
        Err(fault) => Err(ProgramWordsFault::NoList(Cause::of(&fault))),
    }
}

/// Returns words as they were given.
fn as_given(words: Vec<String>) -> ProgramWords {
    ProgramWords {
        words,
        is_list: false,
    }
}

/// What is asked about all services.
#[derive(Clone, Copy, Debug)]
struct Listing {
    /// Whether their loggers are asked about too.
    with_loggers: bool,
    /// The word that names a form of the report, if there is one.
    form: Option<&'static str>,
}

/// Returns what words ask about all services. Returns None if they do not ask for all services.
fn listing_in(words: &[String]) -> Option<Listing> {
    let (with_loggers, form) = match words {
        [command] if command.as_str() == "svstat" => (false, None),
        [command, word] if command.as_str() == "svstat" => option_in(word.as_str())?,
        [command, option, word] if command.as_str() == "svstat" && option.as_str() == "-l" => {
            (true, Some(form_in(word.as_str())?))
        }
        _ => return None,
    };
    Some(Listing { with_loggers, form })
}

/// Returns what a single word after `svstat` asks for, if it is no service: the loggers too, or a form.
fn option_in(word: &str) -> Option<(bool, Option<&'static str>)> {
    match word {
        "-l" => Some((true, None)),
        word => Some((false, Some(form_in(word)?))),
    }
}

/// Returns the form that a word names.
fn form_in(word: &str) -> Option<&'static str> {
    match word {
        "--json" => Some("--json"),
        "--metrics" => Some("--metrics"),
        "--html" => Some("--html"),
        _ => None,
    }
}

/// Returns the words for `svstat` of services, in a form if there is one.
fn svstat_of(
    rt: &HostRuntime,
    form: Option<&'static str>,
    services: Vec<String>,
) -> Result<Vec<String>, ProgramWordsFault> {
    let mut words = Vec::new(rt.alloc());
    push_word(&mut words, String::from_str(rt.alloc(), "svstat")?)?;
    if let Some(form) = form {
        push_word(&mut words, String::from_str(rt.alloc(), form)?)?;
    }
    for service in services {
        push_word(&mut words, service)?;
    }
    Ok(words)
}

/// Adds a word to others.
fn push_word(words: &mut Vec<String>, word: String) -> Result<(), ProgramWordsFault> {
    match words.push(word) {
        Ok(()) => Ok(()),
        Err(_) => Err(ProgramWordsFault::OutOfMemory),
    }
}

/// Does the same if one of them is not text.
fn words_of_bytes(rt: &HostRuntime) -> Result<Vec<String>, ProgramWordsFault> {
    let mut words: Vec<String> = Vec::new(rt.alloc());
    for place in 1..usize::MAX {
        let Some(bytes) = bytes_at(rt, place)? else {
            break;
        };
        let word = word_of(rt, &words, bytes)?;
        push_word(&mut words, word)?;
    }
    Ok(words)
}

/// Returns the bytes of the word at a place, if there is one.
fn bytes_at(rt: &HostRuntime, place: usize) -> Result<Option<Vec<u8>>, AllocError> {
    for doublings in 0..SIZES {
        let mut bytes = vec![in rt.alloc(); 0; FIRST_BYTES << doublings]?;
        match rt.arg(place, &mut bytes) {
            Ok(count) => {
                bytes.truncate(count);
                return Ok(Some(bytes));
            }
            Err(FillError::NotPresent) => return Ok(None),
            Err(FillError::TooLong) => {}
        }
    }
    Err(AllocError)
}

/// Returns the next word, from those before it and from its bytes.
fn word_of(
    rt: &HostRuntime,
    before: &[String],
    bytes: Vec<u8>,
) -> Result<String, ProgramWordsFault> {
    let bytes = match String::from_utf8(bytes) {
        Ok(text) => return Ok(text),
        Err(fault) => fault.into_bytes(),
    };
    let command = match before.first() {
        Some(name) => name.as_str(),
        None => "dtools",
    };
    if names_services(command) && !bytes.starts_with(b"-") {
        return Ok(missing_name(rt.alloc(), &bytes)?);
    }
    Err(ProgramWordsFault::NoText(refusal(rt.alloc(), command, &bytes)?))
}

/// Returns whether the words of a command, except for its options, name services.
fn names_services(command: &str) -> bool {
    matches!(
        Command::named(command),
        Some(
            Command::Svc
                | Command::Svstat
                | Command::Svok
                | Command::Wait
                | Command::Restart
                | Command::Why
        )
    )
}

/// Returns the digit of a number below 16.
fn digit(number: u8) -> char {
    char::from_digit(u32::from(number), 16).unwrap_or('?')
}

/// Writes bytes at the end of a text. Bytes that are not UTF-8 are each written as `\x` and two hexadecimal digits.
fn push_escaped<A: Allocator>(out: &mut String<A>, bytes: &[u8]) -> Result<(), AllocError> {
    for chunk in bytes.utf8_chunks() {
        out.push_str(chunk.valid())?;
        for byte in chunk.invalid() {
            out.push_str("\\x")?;
            out.push(digit(*byte >> 4))?;
            out.push(digit(*byte & 15))?;
        }
    }
    Ok(())
}

/// Returns a name that no file has, because it has a zero byte at its end: a word that is not text, escaped.
fn missing_name<A: Allocator>(alloc: A, bytes: &[u8]) -> Result<String<A>, AllocError>
    ensures { IfOk result (λ name. EndsWithZero (string_bytes name)) }
{
    let mut name = String::new(alloc);
    push_escaped(&mut name, bytes)?;
    name.push('\0')?;
    Ok(name)
}

/// Returns the line that says that a word is not text, after the name of the command.
fn refusal<A: Allocator>(alloc: A, command: &str, bytes: &[u8]) -> Result<String<A>, AllocError> {
    let mut line = String::from_str(alloc, command)?;
    line.push_str(": ")?;
    push_escaped(&mut line, bytes)?;
    line.push_str(": no text\n")?;
    Ok(line)
}
