//! What each word asks for by itself.
ghost use Rattle.std.specs.Prelude.{◌≡◌, ◌-◌, ◌*◌, ◌+◌, ◌<◌, ◌^◌, ℕ, Ok, Err, length, min, false, true};
ghost use Rattle.std.specs.Prelude.{if◌then◌else◌, IfOk, IfErr};
ghost use Rattle.std.specs.List.{list_all};
ghost use Rattle.star_match.specs.Star.{has_adjacent_stars};
ghost use Rattle.mlog_script.specs.Script.{number, is_number, in_range, said};
ghost use Rattle.std.specs.Char.{is_ascii_digit};
ghost use Rattle.mlog_script.specs.Word.{act_said, HasLawfulPattern};

use crate::fault::ScriptFaultKind;
use star_match::has_adjacent_stars;

/// What a word asks for, in the word's own bytes.
#[derive(Drop)]
pub(crate) enum Said<'a> {
    Stamp,
    Alert,
    Size(u64),
    Keep(u64),
    Select(&'a [u8]),
    Deselect(&'a [u8]),
    Status(&'a [u8]),
    Log(&'a [u8]),
}

/// Reads what a word asks for. Returns its fault if it asks for nothing.
pub(crate) fn read_word(word: &[u8]) -> Result<Said<'_>, ScriptFaultKind>
    ensures ok { IfOk result (λ asked. said word.now ≡ Ok (act_said asked)) }
    ensures pattern { IfOk result (λ asked. HasLawfulPattern (act_said asked)) }
    ensures err { IfErr result (λ kind. said word.now ≡ Err kind) }
{
    match word {
        [b't'] => Ok(Said::Stamp),
        [b'e'] => Ok(Said::Alert),
        [b's', digits @ ..] => Ok(Said::Size(size_in(digits)?)),
        [b'n', digits @ ..] => Ok(Said::Keep(keep_in(digits)?)),
        [b'+' | b'-', pattern @ ..] if has_adjacent_stars(pattern) => Err(ScriptFaultKind::Pattern),
        [b'+', pattern @ ..] => Ok(Said::Select(pattern)),
        [b'-', pattern @ ..] => Ok(Said::Deselect(pattern)),
        [b'=', _, ..] => Ok(Said::Status(&word[1..])),
        [b'!', ..] => Err(ScriptFaultKind::Processor),
        [b'.' | b'/', ..] => Ok(Said::Log(word)),
        _ => Err(ScriptFaultKind::UnknownAction),
    }
}

/// The least size of a log.
pub(crate) const LEAST_SIZE: u64 = 4096;

/// The most bytes of a log's file.
const MOST_SIZE: u64 = 16_777_215;

/// Reads the size that digits set.
fn size_in(digits: &[u8]) -> Result<u64, ScriptFaultKind>
    ensures { result ≡ in_range digits.now LEAST_SIZE MOST_SIZE ScriptFaultKind.SizeRange }
{
    number_in(digits, LEAST_SIZE, MOST_SIZE, ScriptFaultKind::SizeRange)
}

/// Reads the number of old files that digits set.
fn keep_in(digits: &[u8]) -> Result<u64, ScriptFaultKind>
    ensures { result ≡ in_range digits.now 2 4294967295 ScriptFaultKind.CountRange }
{
    number_in(digits, 2, 4_294_967_295, ScriptFaultKind::CountRange)
}

/// Reads a number in a range.
fn number_in(
    digits: &[u8],
    least: u64,
    most: u64,
    range: ScriptFaultKind,
) -> Result<u64, ScriptFaultKind>
    requires { most < 2 ^ 64 - 1 }
    ensures { result ≡ in_range digits.now least most range }
{
    if !is_number(digits) {
        return Err(ScriptFaultKind::BadNumber);
    }
    let number = number(digits);
    if number < least || most < number {
        return Err(range);
    }
    Ok(number)
}

/// Returns whether bytes are one digit or more, and nothing else.
fn is_number(bytes: &[u8]) -> bool
    ensures { result ≡ is_number bytes.now }
{
    !bytes.is_empty() && are_digits(bytes)
}

/// Returns whether all bytes are digits.
fn are_digits(bytes: &[u8]) -> bool
    ensures { result ≡ list_all is_ascii_digit bytes.now }
{
    bytes.iter().all(|byte| byte.is_ascii_digit())
}

/// Returns the number of some digits, or the greatest `u64` if the number is greater.
#[tactic(auto, using(crate::proofs::Numbers::number_more))]
fn number(digits: &[u8]) -> u64
    ensures { result ≡ min (number digits.now) (2 ^ 64 - 1) }
{
    let mut number: u64 = 0;
    for digit in digits {
        number = with_digit(number, *digit);
    }
    number
}

/// Returns the number with one more digit, or the greatest `u64` if the number is greater.
fn with_digit(number: u64, digit: u8) -> u64
    ensures { result ≡ min (number * 10 + (digit - 48)) (2 ^ 64 - 1) }
{
    number
        .saturating_mul(10)
        .saturating_add(u64::from(digit.saturating_sub(b'0')))
}
