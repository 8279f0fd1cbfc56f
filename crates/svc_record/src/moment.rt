//! A line with the number of a process at the beginning and a time at the end.
ghost use Rattle.std.specs.Prelude.{◌≡◌, ◌<◌, ◌^◌, ◌++◌, ◌∷◌, [], ℕ, List, decimal, length, option_copied};
ghost use Rattle.std.specs.Prelude.{true, is_none};
ghost use Rattle.std.specs.Prelude.{Some, IfSome};
ghost use Rattle.sup_core.specs.Reading.{fields};
ghost use Rattle.tai_status.specs.Label.{IsLabel, Tai64n, label_text};
ghost use Rattle.svc_record.specs.Moments.{IsMomentIn, moment_text};

use crate::exit::{ExitText, push, push_number};
use arrayvec::ArrayVec;
use sup_core::{read_label, read_number, split_field};
use tai_status::{Label, text};

/// The number of bytes in the text of a label.
const LABEL_BYTES: usize = 25;

/// A process, and a time.
#[derive(Clone, Copy, Debug, PartialEq, Eq)]
pub struct Moment {
    /// The number of the process.
    pub pid: u32,
    /// The time.
    pub label: Label,
}

/// Returns the line of a process and a time, with its newline: `PID LABEL`.
pub fn moment_text(moment: &Moment) -> ExitText
    ensures { result.items ≡ moment_text moment.now }
{
    let mut out = ArrayVec::new();
    push_number(&mut out, moment.pid);
    push(&mut out, b" ");
    push(&mut out, &text(&moment.label));
    push(&mut out, b"\n");
    out
}

/// Returns the process number at the beginning of a line.
fn first_pid(line: &[u8]) -> Option<u32>
    ensures found { IfSome result (λ pid. (rest : List (List ℕ)) × (fields line.now ≡ decimal pid ∷ rest)) }
    ensures only { (pid : ℕ) → pid < 2 ^ 32 → (rest : List (List ℕ)) → fields line.now ≡ decimal pid ∷ rest
        → result ≡ Some pid }
{
    let number = read_number(split_field(line).0)?;
    u32::try_from(number).ok()
}

/// Returns what comes before the newline at the end of a text, if there is one.
pub fn before_newline(text: &[u8]) -> Option<&[u8]>
    ensures some { IfSome result (λ front. text.now ≡ front.now ++ 10 ∷ []) }
    ensures none { is_none result ≡ true → (front : List ℕ) → text.now ≡ front ++ 10 ∷ [] → ⊥ }
{
    match text {
        [front @ .., b'\n'] => Some(front),
        _ => None,
    }
}

/// Returns the last bytes of a text, as many as a label has.
fn last_bytes(text: &[u8]) -> Option<&[u8]>
    ensures found { IfSome result (λ last. (front : List ℕ) × (text.now ≡ front ++ last.now)) }
    ensures only { (front last : List ℕ) → length last ≡ 25 → text.now ≡ front ++ last
        → option_copied result ≡ Some last }
{
    let at = text.len().checked_sub(LABEL_BYTES)?;
    Some(text.split_at(at).1)
}

/// Returns the time at the end of a line.
fn last_label(line: &[u8]) -> Option<Label>
    ensures found { IfSome result (λ label. (front : List ℕ) × (line.now ≡ front ++ label_text label ++ 10 ∷ [])) }
    ensures only { (label : Tai64n) → IsLabel label → (front : List ℕ)
        → line.now ≡ front ++ label_text label ++ 10 ∷ [] → result ≡ Some label }
{
    read_label(last_bytes(before_newline(line)?)?)
}

/// Returns which process and which time a line says: the number of the process is its first field, and the time and a
/// newline are at its end. Returns None for any other text.
pub fn moment_in(line: &[u8]) -> Option<Moment>
    ensures { IsMomentIn line.now result }
{
    let pid = first_pid(line)?;
    let label = last_label(line)?;
    Some(Moment { pid, label })
}
