//! The text of a part, read and written.
ghost use Rattle.std.specs.Prelude.{◌≡◌, ◌+◌, ◌^◌, ◌<◌, ◌≤◌, ◌==◌, ◌∷◌, [], ◌++◌, length, position, decimal, IfSome};
ghost use Rattle.std.specs.Prelude.{MatchOption};
ghost use Rattle.std.specs.Option.{option_copied};
ghost use Rattle.arrayvec.specs.ArrayString.{array_string_len};
ghost use Rattle.suite_lines.specs.Text.{role_name, part_text};
ghost use Rattle.suite_lines.specs.Reading.{IsNoPart, dotted, number_of_text, role_of_text, part_from};
ghost use Rattle.suite_lines.specs.Fields.{dotted_after};

use arrayvec::ArrayString;
use itoa::Buffer;
use scan_table::{PartId, Role};
use sup_core::{EventFault, read_number};

/// Returns the name of a role.
fn role_name(role: Role) -> &'static str
    ensures name { result.now ≡ role_name role }
    ensures short { length result.now ≤ 4 }
{
    match role {
        Role::Main => "main",
        Role::Log => "log",
    }
}

/// Writes a number at the end of a text.
fn push_number(out: &mut ArrayString<48>, number: u64)
    requires { array_string_len out.old + 20 ≤ 48 }
    ensures text { out.new.bytes ≡ out.old.bytes ++ decimal number }
    ensures len { array_string_len out.new ≤ array_string_len out.old + 20 }
{
    let mut buffer = Buffer::new();
    out.push_str(buffer.format(number));
}

/// Returns the text of a part: its slot, `main` or `log`, and its life, separated by dots. It has at most 46 bytes.
pub fn part_text(part: PartId) -> ArrayString<48>
    ensures text { result.bytes ≡ part_text part }
    ensures short { length result.bytes ≤ 46 }
{
    let mut out = ArrayString::new();
    push_number(&mut out, part.slot);
    out.push_str(".");
    out.push_str(role_name(part.role));
    out.push_str(".");
    push_number(&mut out, part.life);
    out
}

/// Returns the place of the first dot.
fn dot_at(text: &[u8]) -> Option<usize>
    ensures at { result ≡ position (λ byte. byte == 46) text.now }
    ensures below { IfSome result (λ at. at < length text.now) }
{
    text.iter().position(|byte| *byte == b'.')
}

/// Splits a part's text into its first field and what comes after its dot, if there is one.
#[tactic(auto, using(sup_core::proofs::Fields::split_none, sup_core::proofs::Fields::split_some))]
fn split_dot(text: &[u8]) -> (&[u8], Option<&[u8]>)
    ensures { dotted text.now ≡ result.0.now ∷ dotted_after (option_copied result.1) }
{
    match dot_at(text) {
        None => (text, None),
        Some(at) => (&text[..at], Some(&text[at + 1..])),
    }
}

/// Splits a part's text into its three fields.
#[tactic(auto, using(crate::proofs::PartTexts::part_from_many))]
fn part_fields(text: &[u8]) -> Option<(&[u8], &[u8], &[u8])>
    ensures { MatchOption result (IsNoPart text.now)
        (λ (slot, role, life). dotted text.now ≡ slot.now ∷ role.now ∷ life.now ∷ []) }
{
    let (slot, Some(rest)) = split_dot(text) else {
        return None;
    };
    let (role, Some(rest)) = split_dot(rest) else {
        return None;
    };
    let (life, None) = split_dot(rest) else {
        return None;
    };
    Some((slot, role, life))
}

/// Reads the role with this name.
fn read_role(name: &[u8]) -> Option<Role>
    ensures { result ≡ role_of_text name.now }
{
    match name {
        b"main" => Some(Role::Main),
        b"log" => Some(Role::Log),
        _ => None,
    }
}

/// Reads the decimal text of a number.
fn number_of(text: &[u8]) -> Option<u64>
    ensures { result ≡ number_of_text text.now }
{
    read_number(text)
}

/// Reads the text of a part.
pub(crate) fn read_part(text: &[u8]) -> Result<PartId, EventFault>
    ensures { result ≡ part_from (dotted text.now) }
{
    let (slot, role, life) = part_fields(text).ok_or(EventFault::Line)?;
    let role = read_role(role).ok_or(EventFault::Line)?;
    let slot = number_of(slot).ok_or(EventFault::Number)?;
    let life = number_of(life).ok_or(EventFault::Number)?;
    Ok(PartId { slot, role, life })
}
