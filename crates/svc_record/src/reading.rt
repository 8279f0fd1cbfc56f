//! Reading from its line how a process ended.
ghost use Rattle.std.specs.Prelude.{◌≡◌, ◌↔◌, None, IfSome, IsTrue};
ghost use Rattle.svc_record.specs.Exits.{IsEnding, Reads, Says};
ghost use Rattle.svc_record.specs.declared.ending.Ending.{Ending};

use crate::ending::Ending;
use crate::exit::{Exit, exit_text};
use crate::moment::{Moment, moment_in};
use tai_status::Label;

/// Returns whether a text is the line of the process with this number that ended in this way at this time.
fn says(text: &[u8], pid: u32, ending: Ending, label: &Label) -> bool
    ensures { IsTrue result ↔ Says text.now pid label.now ending }
{
    let exit = Exit {
        pid,
        ending,
        label: *label,
    };
    exit_text(&exit).as_slice() == text
}

/// Reads how the process with this number ended, at this time. The text must be its line with the newline, as
/// `exit_text` makes it. `None` is returned for the line of another process, and for any other text.
///
/// Each way to end is written and compared: there are few of them, and in this way no line can be read in two ways.
pub fn read_ending(text: &[u8], pid: u32, label: &Label) -> Option<Ending>
    ensures found { IfSome result (λ ending. Says text.now pid label.now ending) }
    ensures none { result ≡ None → (ending : Ending) → IsEnding ending → Says text.now pid label.now ending → ⊥ }
{
    for number in 0..=u8::MAX {
        if says(text, pid, Ending::Status(number), label) {
            return Some(Ending::Status(number));
        }
        if says(text, pid, Ending::Signal(number), label) {
            return Some(Ending::Signal(number));
        }
    }
    if says(text, pid, Ending::Unknown, label) {
        Some(Ending::Unknown)
    } else {
        None
    }
}

/// Reads from its line, with the newline, which process ended, how, and when. Returns None for any text that is not the
/// line of an exit.
pub fn read_exit(line: &[u8]) -> Option<Exit>
    ensures { Reads line.now result }
{
    let Some(Moment { pid, label }) = moment_in(line) else {
        return None;
    };
    match read_ending(line, pid, &label) {
        Some(ending) => Some(Exit { pid, ending, label }),
        None => None,
    }
}
