//! The line of a process that ended.
ghost use Rattle.std.specs.Prelude.{◌≡◌, ◌+◌, ◌≤◌, ◌++◌, decimal, length};
ghost use Rattle.arrayvec.specs.ArrayVec.{array_vec_len};
ghost use Rattle.tai_status.specs.Label.{label_text};
ghost use Rattle.svc_record.specs.Exits.{ending_words, exit_text, signal_word};

use crate::ending::{Ending, signal_name};
use arrayvec::ArrayVec;
use itoa::Buffer;
use tai_status::{Label, text};

/// A line of at most 64 bytes.
pub type ExitText = ArrayVec<u8, 64>;

/// A process that ended: its number, how it ended, and when.
#[derive(Clone, Copy, Debug, PartialEq, Eq)]
pub struct Exit {
    /// The number of the process.
    pub pid: u32,
    /// How the process ended.
    pub ending: Ending,
    /// When the process was found to have ended.
    pub label: Label,
}

/// Writes a number at the end of a line.
pub(crate) fn push_number(out: &mut ExitText, number: u32)
    requires { array_vec_len out.old + 10 ≤ 64 }
    ensures text { out.new.items ≡ out.old.items ++ decimal number }
    ensures len { array_vec_len out.new ≤ array_vec_len out.old + 10 }
{
    let mut buffer = Buffer::new();
    out.try_extend_from_slice(buffer.format(number).as_bytes())
        .unwrap();
}

/// Writes bytes at the end of a line.
pub(crate) fn push(out: &mut ExitText, bytes: &[u8])
    requires { array_vec_len out.old + length bytes.now ≤ 64 }
    ensures text { out.new.items ≡ out.old.items ++ bytes.now }
    ensures len { array_vec_len out.new ≡ array_vec_len out.old + length bytes.now }
{
    out.try_extend_from_slice(bytes).unwrap();
}

/// Writes the word of a signal at the end of a line.
fn push_signal(out: &mut ExitText, number: u8)
    requires { array_vec_len out.old + 10 ≤ 64 }
    ensures text { out.new.items ≡ out.old.items ++ signal_word number }
    ensures len { array_vec_len out.new ≤ array_vec_len out.old + 10 }
{
    match signal_name(number).as_bytes() {
        [] => push_number(out, u32::from(number)),
        name => push(out, name),
    }
}

/// Writes how a process ended at the end of a line.
fn push_ending(out: &mut ExitText, ending: Ending)
    requires { array_vec_len out.old + 18 ≤ 64 }
    ensures text { out.new.items ≡ out.old.items ++ ending_words ending }
    ensures len { array_vec_len out.new ≤ array_vec_len out.old + 18 }
{
    match ending {
        Ending::Status(code) => {
            push(out, b" status ");
            push_number(out, u32::from(code));
        }
        Ending::Signal(number) => {
            push(out, b" signal ");
            push_signal(out, number);
        }
        Ending::Unknown => push(out, b" unknown"),
    }
}

/// Returns the line of a process that ended, with its newline: `PID status CODE LABEL`, `PID signal NAME LABEL` or
/// `PID unknown LABEL`. A signal without a name is written as its number.
pub fn exit_text(exit: &Exit) -> ExitText
    ensures { result.items ≡ exit_text exit.now }
{
    let mut out = ArrayVec::new();
    push_number(&mut out, exit.pid);
    push_ending(&mut out, exit.ending);
    push(&mut out, b" ");
    push(&mut out, &text(&exit.label));
    push(&mut out, b"\n");
    out
}
