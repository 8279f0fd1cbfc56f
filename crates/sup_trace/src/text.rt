ghost use Rattle.std.specs.Prelude.{◌≡◌, ◌≤◌, ◌+◌, [], ◌∷◌, ◌++◌, List, ℕ, length, decimal, OnOk, IfOk, IfSome};
ghost use Rattle.std.specs.Prelude.{flat_map};
ghost use Rattle.std.specs.List.{AllByRecursion};
ghost use Rattle.tai_status.specs.Label.{Tai64n, IsLabel, label_text};
ghost use Rattle.tai_status.specs.Record.{Status, IsStatus};
ghost use Rattle.sup_core.specs.State.{IsState};
ghost use Rattle.sup_core.specs.Rules.{IsEvent};
ghost use Rattle.sup_core.specs.Reading.{IsInRange};
ghost use Rattle.tai_status.specs.Phase.{phase_name};
ghost use Rattle.sup_core.specs.Text.{event_text};
ghost use Rattle.sup_trace.specs.Content.{content_of};
ghost use Rattle.sup_trace.specs.Text.{record_digits, base_text, end_text, stay_text, until_text, trace_text};

use itoa::Buffer;
use std::alloc::{AllocError, Allocator};
use sup_core::{Event, Machine, Phase, event_text, phase_name};
use tai_status::{Label, View, encode, text};

/// The most bytes of an entry's line, with its newline: those of a start.
const LONGEST_ENTRY: usize = 45;

/// The most bytes of the lines before and after the entries.
const LONGEST_ENDS: usize = 128;

/// Writes the text of a trace with the entries of two slices, one after the other. It takes its memory at once.
pub(crate) fn trace_text<A: Allocator>(
    alloc: A,
    base: &Machine,
    folded: u64,
    first: &[Event],
    second: &[Event],
) -> Result<Vec<u8, A>, AllocError>
    requires few { length first.now + length second.now ≤ 65536 }
    requires events { AllByRecursion IsEvent (first.now ++ second.now) }

    // If it succeeds, the bytes are the text of a trace with the entries of both slices.
    ensures text { IfOk result (λ bytes. bytes.items
        ≡ trace_text (content_of base.now folded (first.now ++ second.now))) }

    // The base is then a possible state, its status and its label are in range, and so are the numbers of all entries.
    ensures state { OnOk result (IsState base.now) }
    ensures status { OnOk result (IsStatus base.now.status) }
    ensures until { OnOk result (IfSome base.now.until IsLabel) }
    ensures entries { OnOk result (AllByRecursion IsInRange (first.now ++ second.now)) }
{
    let count = first.len() + second.len();
    let mut out = Vec::with_capacity(alloc, LONGEST_ENDS + count * LONGEST_ENTRY)?;
    out.extend_from_slice(b"dtools-trace 1\n")?;
    push_base(&mut out, folded, base)?;
    push_entries(&mut out, first)?;
    push_entries(&mut out, second)?;
    push_end(&mut out, count)?;
    Ok(out)
}

/// Writes the line of an entry at the end of a text, for each of these.
fn push_entries<A: Allocator>(out: &mut Vec<u8, A>, entries: &[Event]) -> Result<(), AllocError>
    requires { AllByRecursion IsEvent entries.now }
    ensures text { OnOk result (out.new.items
        ≡ out.old.items ++ flat_map (λ event. event_text event ++ 10 ∷ []) entries.now) }
    ensures range { OnOk result (AllByRecursion IsInRange entries.now) }
{
    for event in entries {
        out.extend_from_slice(event_text(event).as_bytes())?;
        out.push(b'\n')?;
    }
    Ok(())
}

/// Writes the base's line at the end of a text. It has the count of folded events, the phase, the digits of the status
/// record, whether supervise exits after the process, and until when the machine settles or rests.
fn push_base<A: Allocator>(
    out: &mut Vec<u8, A>,
    folded: u64,
    base: &Machine,
) -> Result<(), AllocError>
    ensures text { OnOk result (out.new.items ≡ out.old.items ++ base_text folded base.now ++ 10 ∷ []) }
    ensures state { IsState base.now }
    ensures status { IsStatus base.now.status }
    ensures until { IfSome base.now.until IsLabel }
{
    let view = base.view();
    let until = base.until();
    push_count(out, b"base", folded)?;
    push_standing(out, base.phase(), &view, base.exiting())?;
    push_until(out, &until)?;
    out.extend_from_slice(b"\n")
}

/// Writes three fields at the end of a text, each after a space: the phase, the digits of the status record, and
/// whether supervise exits after the process.
fn push_standing<A: Allocator>(
    out: &mut Vec<u8, A>,
    phase: Phase,
    view: &View,
    exiting: bool,
) -> Result<(), AllocError>
    ensures { OnOk result (out.new.items
        ≡ out.old.items ++ 32 ∷ phase_name phase ++ 32 ∷ record_digits view.now ++ 32 ∷ stay_text exiting) }
{
    push_field(out, phase_name(phase).as_bytes())?;
    push_record(out, view)?;
    push_field(out, stay(exiting).as_bytes())
}

/// Returns the word for whether supervise exits after the process.
fn stay(exiting: bool) -> &'static str
    ensures { result.now ≡ stay_text exiting }
{
    if exiting { "exit" } else { "stay" }
}

/// Writes a space and a field at the end of a text.
fn push_field<A: Allocator>(out: &mut Vec<u8, A>, field: &[u8]) -> Result<(), AllocError>
    ensures { OnOk result (out.new.items ≡ out.old.items ++ 32 ∷ field.now) }
{
    out.push(b' ')?;
    out.extend_from_slice(field)
}

/// Writes a word, a space and a number at the end of a text.
fn push_count<A: Allocator>(
    out: &mut Vec<u8, A>,
    word: &[u8],
    number: u64,
) -> Result<(), AllocError>
    ensures { OnOk result (out.new.items ≡ out.old.items ++ word.now ++ 32 ∷ decimal number) }
{
    let mut buffer = Buffer::new();
    out.extend_from_slice(word)?;
    push_field(out, buffer.format(number).as_bytes())
}

/// Returns the 36 lower-case hexadecimal digits of a view's status record.
pub fn record_digits(view: &View) -> [u8; 36]
    ensures { result ≡ record_digits view.now }
{
    let mut digits = [0; 36];
    hex::encode_to_slice(&encode(view), &mut digits).unwrap();
    digits
}

/// Writes a space and the digits of a status record at the end of a text.
fn push_record<A: Allocator>(out: &mut Vec<u8, A>, view: &View) -> Result<(), AllocError>
    ensures { OnOk result (out.new.items ≡ out.old.items ++ 32 ∷ record_digits view.now) }
{
    push_field(out, &record_digits(view))
}

/// Writes a space and the end of settling or resting at the end of a text.
fn push_until<A: Allocator>(out: &mut Vec<u8, A>, until: &Option<Label>) -> Result<(), AllocError>
    ensures { OnOk result (out.new.items ≡ out.old.items ++ 32 ∷ until_text until.now) }
{
    match until {
        Some(label) => push_field(out, &text(label)),
        None => push_field(out, b"-"),
    }
}

/// Writes the last line at the end of a text: the number of entries.
fn push_end<A: Allocator>(out: &mut Vec<u8, A>, count: usize) -> Result<(), AllocError>
    ensures { OnOk result (out.new.items ≡ out.old.items ++ end_text count ++ 10 ∷ []) }
{
    push_count(out, b"end", count as u64)?;
    out.extend_from_slice(b"\n")
}
