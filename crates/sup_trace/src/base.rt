ghost use Rattle.std.specs.Prelude.{◌≡◌, ◌≢◌, ◌↔◌, ◌+◌, ◌^◌, ◌<◌, ◌≤◌, [], ◌∷◌, ℕ, List, length, codes, decimal};
ghost use Rattle.std.specs.Prelude.{Option, Some, None, IfSome, IfOk, IfErr, MatchOption, ⊤, true, false};
ghost use Rattle.std.specs.Prelude.{Ok, Err, IsErrOf, IsTrue};
ghost use Rattle.std.specs.Option.{option_copied};
ghost use Rattle.tai_status.specs.Label.{Tai64n, IsLabel};
ghost use Rattle.hex.specs.Hex.{encode_lower, decode_sized};
ghost use Rattle.tai_status.specs.Record.{Status, IsStatus, status_record};
ghost use Rattle.sup_core.specs.Reading.{fields};
ghost use Rattle.sup_trace.specs.declared.fault.TraceFaultKind.TheVariants as kind;
ghost use Rattle.sup_trace.specs.Content.{Content, content_of};
ghost use Rattle.sup_trace.specs.Reading.{folded_of_text, phase_of_text, status_of_bytes, status_of_text};
ghost use Rattle.sup_trace.specs.Reading.{exiting_of_text, until_of_text, standing, state_of_parts, Entries};
ghost use Rattle.sup_trace.specs.Reading.{at_base, base_result};
ghost use Rattle.sup_core.specs.State.{is_state};

use crate::fault::TraceFaultKind;
use crate::text::record_digits;
use crate::trace::LAST_COUNT;
use hex::FromHex;
use sup_core::{Machine, Phase, read_label, read_number, read_phase, split_field};
use tai_status::{Label, View, decode};

/// The fields of the base's line, after its first word.
#[derive(Clone, Copy)]
struct BaseFields<'a> {
    folded: &'a [u8],
    phase: &'a [u8],
    status: &'a [u8],
    stay: &'a [u8],
    until: &'a [u8],
}

/// Reads the count of folded events.
fn read_folded(text: &[u8]) -> Option<u64>
    ensures { result ≡ folded_of_text text.now }
{
    let folded = read_number(text)?;
    if folded <= LAST_COUNT {
        Some(folded)
    } else {
        None
    }
}

/// Reads the status that these digits spell, in upper or lower case.
fn status_meant(text: &[u8]) -> Option<View>
    ensures { result ≡ status_of_bytes (decode_sized text.now 18) }
{
    match <[u8; 18] as FromHex>::from_hex(text) {
        Ok(bytes) => decode(&bytes).ok(),
        Err(_) => None,
    }
}

/// Reads the status that has these digits as its record.
#[tactic(auto, unfolding(crate::specs::Reading::status_of_text))]
fn read_status(text: &[u8]) -> Option<View>
    ensures { result ≡ status_of_text text.now }
{
    let view = status_meant(text)?;
    if record_digits(&view).as_slice() == text {
        Some(view)
    } else {
        None
    }
}

/// Reads whether supervise exits after the process.
fn read_exiting(text: &[u8]) -> Option<bool>
    ensures { result ≡ exiting_of_text text.now }
{
    match text {
        b"exit" => Some(true),
        b"stay" => Some(false),
        _ => None,
    }
}

/// Reads until when the machine settles or rests.
fn read_until(text: &[u8]) -> Option<Option<Label>>
    ensures { result ≡ until_of_text text.now }
{
    match text {
        b"-" => Some(None),
        _ => Some(Some(read_label(text)?)),
    }
}

/// Splits a base's line into its fields.
#[tactic(auto, using(crate::proofs::Parts::base_result_many))]
fn base_fields(line: &[u8]) -> Option<BaseFields<'_>>
    ensures five { IfSome result (λ f. fields line.now
        ≡ codes "base" ∷ f.folded.now ∷ f.phase.now ∷ f.status.now ∷ f.stay.now ∷ f.until.now ∷ []) }
    ensures other { MatchOption result (base_result (fields line.now) ≡ Err TraceFaultKind.Line) (λ _. ⊤) }
{
    let (word, Some(rest)) = split_field(line) else {
        return None;
    };
    if word != b"base".as_slice() {
        return None;
    }
    let (folded, Some(rest)) = split_field(rest) else {
        return None;
    };
    let (phase, Some(rest)) = split_field(rest) else {
        return None;
    };
    let (status, Some(rest)) = split_field(rest) else {
        return None;
    };
    let (stay, Some(rest)) = split_field(rest) else {
        return None;
    };
    let (until, None) = split_field(rest) else {
        return None;
    };
    Some(BaseFields {
        folded,
        phase,
        status,
        stay,
        until,
    })
}

/// Reads the phase with this name.
fn phase_of(name: &[u8]) -> Option<Phase>
    ensures { result ≡ phase_of_text name.now }
{
    read_phase(name)
}

/// Reads the phase, the status, and whether supervise exits after the process.
fn read_standing(fields: &BaseFields<'_>) -> Option<(Phase, View, bool)>
    ensures { result ≡ standing (phase_of_text fields.now.phase.now) (status_of_text fields.now.status.now)
        (exiting_of_text fields.now.stay.now) }
{
    let phase = phase_of(fields.phase)?;
    let view = read_status(fields.status)?;
    let exiting = read_exiting(fields.stay)?;
    Some((phase, view, exiting))
}

/// Returns the machine with these parts, if there is one.
fn machine_of(standing: (Phase, View, bool), until: Option<Label>) -> Option<Machine>
    ensures base { IfSome result (λ base. base ≡ state_of_parts standing until) }
    ensures state { MatchOption result (is_state (state_of_parts standing until) ≡ false)
        (λ _. is_state (state_of_parts standing until) ≡ true) }
{
    let (phase, view, exiting) = standing;
    Machine::of_parts(phase, view, exiting, until)
}

/// Reads a base's line: the base and the count of folded events.
pub(crate) fn read_base(line: &[u8]) -> Result<(u64, Machine), TraceFaultKind>
    ensures base { IfOk result (λ (folded, base). base_result (fields line.now) ≡ Ok (at_base folded base)) }
    ensures fault { IfErr result (λ kind. base_result (fields line.now) ≡ Err kind) }
    ensures memory { IfErr result (λ why. why ≢ kind.OutOfMemory) }
{
    let Some(fields) = base_fields(line) else {
        return Err(TraceFaultKind::Line);
    };
    let folded = read_folded(fields.folded).ok_or(TraceFaultKind::Number)?;
    let standing = read_standing(&fields).ok_or(TraceFaultKind::Line)?;
    let until = read_until(fields.until).ok_or(TraceFaultKind::Label)?;
    let base = machine_of(standing, until).ok_or(TraceFaultKind::Line)?;
    Ok((folded, base))
}
