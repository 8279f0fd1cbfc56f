ghost use Rattle.std.specs.Prelude.{◌≡◌, ◌^◌, ℕ, decimal, Bool, Some, IfOk, Ok, ◌==◌, ◌<◌, ◌∷◌, [], length, position};
ghost use Rattle.std.specs.Prelude.{IfSome, IsTrue, ◌↔◌, ok_or};
ghost use Rattle.hex.specs.Hex.{encode_lower};
ghost use Rattle.std.specs.Option.{option_copied};
ghost use Rattle.tai_status.specs.Label.{Tai64n, IsLabel, label_text};
ghost use Rattle.tai_status.specs.Phase.{phase_name};
ghost use Rattle.sup_core.specs.declared.asks.Sig.{Sig};
ghost use Rattle.tai_status.specs.declared.phase.Phase.{Phase};
ghost use Rattle.sup_core.specs.declared.event.Event.{Event};
ghost use Rattle.sup_core.specs.declared.reading.Word.{Word};
ghost use Rattle.sup_core.specs.Rules.{IsEvent};
ghost use Rattle.sup_core.specs.Text.{byte_text, event_text, begin_text, signal_name};
ghost use Rattle.sup_core.specs.Fields.{word_name, fields_after, sole, sole_label, sole_byte};
ghost use Rattle.sup_core.specs.Reading.{fields, IsInRange, byte_of_text, pid_of_text, label_of_text, start_event};
ghost use Rattle.sup_core.specs.Reading.{start_fault, side_event, side_fault, event_from, begin_from};

use crate::asks::{Sig, signals};
use crate::event::Event;
use crate::text::byte_text;
use hex::FromHex;
use itoa::Buffer;
use std::str;
use tai_status::{Label, Phase, read_text};

/// Why a line spells nothing. The first one that applies is reported.
#[derive(Clone, Copy, Debug, PartialEq, Eq)]
pub enum EventFault {
    /// The first word is not known.
    UnknownEvent,
    /// The number of fields is wrong, or a field other than a number or a label.
    Line,
    /// The process number is wrong.
    Number,
    /// The label is wrong.
    Label,
}

/// The first word of an event's line.
#[derive(Clone, Copy)]
enum Word {
    Byte,
    Started,
    Failed,
    Death,
    Clock,
}

/// Finds the signal with a name, among these.
macro_rules! signal_named {
    (($name:expr) $($signal:ident $text:literal;)*) => {
        match $name {
            $($text => Some(Sig::$signal),)*
            _ => None,
        }
    };
}

/// Returns the signal with this name.
pub fn read_sig(name: &[u8]) -> Option<Sig>
    ensures found { IfSome result (λ sig. name.now ≡ signal_name sig) }
    ensures only { (sig : Sig) → name.now ≡ signal_name sig → result ≡ Some sig }
{
    signals!(signal_named(name))
}

/// Returns the phase with this name.
pub fn read_phase(name: &[u8]) -> Option<Phase>
    ensures found { IfSome result (λ phase. name.now ≡ phase_name phase) }
    ensures only { (phase : Phase) → name.now ≡ phase_name phase → result ≡ Some phase }
{
    match name {
        b"starting" => Some(Phase::Starting),
        b"settling" => Some(Phase::Settling),
        b"resting" => Some(Phase::Resting),
        b"up" => Some(Phase::Up),
        b"down" => Some(Phase::Down),
        b"gone" => Some(Phase::Gone),
        _ => None,
    }
}

/// Reads the text of a byte: a byte from `!` to `~` is itself, and any other is its two lower-case hexadecimal digits.
pub fn read_byte(text: &[u8]) -> Option<u8>
    ensures found { IfSome result (λ byte. text.now ≡ byte_text byte) }
    ensures only { (byte : ℕ) → byte < 2 ^ 8 → text.now ≡ byte_text byte → result ≡ Some byte }
    ensures exact { result ≡ byte_of_text text.now }
{
    let byte = byte_meant(text)?;
    if is_byte_text(text, byte) {
        Some(byte)
    } else {
        None
    }
}

/// Returns whether this is the text of a byte.
fn is_byte_text(text: &[u8], byte: u8) -> bool
    ensures { IsTrue result ↔ (text.now ≡ byte_text byte) }
{
    byte_text(byte).as_bytes() == text
}

/// Returns the only byte that can have this text.
#[tactic(auto, using(crate::proofs::Spelling::text_of_one, crate::proofs::Spelling::text_of_two))]
fn byte_meant(text: &[u8]) -> Option<u8>
    ensures { (byte : ℕ) → byte < 2 ^ 8 → text.now ≡ byte_text byte → result ≡ Some byte }
{
    match text {
        [byte] => Some(*byte),
        _ => digits_meant(text),
    }
}

/// Returns the byte of two digits.
#[tactic(auto, using(crate::proofs::Spelling::digits_read))]
fn digits_meant(digits: &[u8]) -> Option<u8>
    ensures { (byte : ℕ) → byte < 2 ^ 8 → digits.now ≡ encode_lower (byte ∷ []) → result ≡ Some byte }
{
    let bytes = <[u8; 1] as FromHex>::from_hex(digits).ok()?;
    Some(bytes[0])
}

/// Reads the decimal text of a number that is at least 1.
fn read_pid(text: &[u8]) -> Option<u32>
    ensures { result ≡ pid_of_text text.now }
{
    let number = read_number(text)?;
    if number == 0 {
        return None;
    }
    u32::try_from(number).ok()
}

/// Reads the decimal text of a number: digits alone, with no leading zero except in `0` itself.
pub fn read_number(text: &[u8]) -> Option<u64>
    ensures found { IfSome result (λ n. text.now ≡ decimal n) }
    ensures only { (n : ℕ) → n < 2 ^ 64 → text.now ≡ decimal n → result ≡ Some n }
{
    let number = parse_number(text)?;
    let mut buffer = Buffer::new();
    if buffer.format(number).as_bytes() == text {
        Some(number)
    } else {
        None
    }
}

/// Reads a number from a field, which may be other than the number's decimal text.
fn parse_number(field: &[u8]) -> Option<u64>
    ensures { (n : ℕ) → n < 2 ^ 64 → field.now ≡ decimal n → result ≡ Some n }
{
    match str::from_utf8(field) {
        Ok(text) => text.parse().ok(),
        Err(_) => None,
    }
}

/// Reads the text of a label: `@` and its 24 lower-case hexadecimal digits.
#[tactic(auto, unfolding(crate::specs::Reading::label_of_text))]
pub fn read_label(text: &[u8]) -> Option<Label>
    ensures found { IfSome result (λ label. IsLabel label × (text.now ≡ label_text label)) }
    ensures only { (label : Tai64n) → IsLabel label → text.now ≡ label_text label → result ≡ Some label }
    ensures exact { result ≡ label_of_text text.now }
{
    read_text(text).ok()
}

/// Returns the place of the first space.
fn space_at(line: &[u8]) -> Option<usize>
    ensures at { result ≡ position (λ byte. byte == 32) line.now }
    ensures below { IfSome result (λ at. at < length line.now) }
{
    line.iter().position(|byte| *byte == b' ')
}

/// Splits a line into its first field and what comes after its space, if there is one. One space separates two fields,
/// so two spaces have an empty field between them.
#[tactic(auto, using(crate::proofs::Fields::split_none, crate::proofs::Fields::split_some))]
pub fn split_field(line: &[u8]) -> (&[u8], Option<&[u8]>)
    ensures { fields line.now ≡ result.0.now ∷ fields_after (option_copied result.1) }
{
    match space_at(line) {
        None => (line, None),
        Some(at) => (&line[..at], Some(&line[at + 1..])),
    }
}

/// Returns the field, if just one is left.
#[tactic(auto, using(crate::proofs::Fields::sole_many))]
fn sole(rest: Option<&[u8]>) -> Option<&[u8]>
    ensures { option_copied result ≡ sole (fields_after (option_copied rest.entry)) }
{
    match split_field(rest?) {
        (field, None) => Some(field),
        (_, Some(_)) => None,
    }
}

/// Reads the label, if one field is left.
fn sole_label(rest: Option<&[u8]>) -> Result<Label, EventFault>
    ensures { result ≡ sole_label (fields_after (option_copied rest.entry)) }
{
    let text = sole(rest).ok_or(EventFault::Line)?;
    read_label(text).ok_or(EventFault::Label)
}

/// Reads the byte, if one field is left.
fn sole_byte(rest: Option<&[u8]>) -> Result<u8, EventFault>
    ensures { result ≡ sole_byte (fields_after (option_copied rest.entry)) }
{
    let text = sole(rest).ok_or(EventFault::Line)?;
    read_byte(text).ok_or(EventFault::Line)
}

/// Reads the start from the two fields left.
fn read_start(rest: Option<&[u8]>) -> Result<Event, EventFault>
    ensures { let left = fields_after (option_copied rest.entry) in
        result ≡ ok_or (start_event left) (start_fault left) }
{
    let (field, rest) = split_field(rest.ok_or(EventFault::Line)?);
    let text = sole(rest).ok_or(EventFault::Line)?;
    let pid = read_pid(field).ok_or(EventFault::Number)?;
    let label = read_label(text).ok_or(EventFault::Label)?;
    Ok(Event::Started { pid, label })
}

/// Reads the event of a line, without its newline. Fields are separated by one space:
///
/// | line | event |
/// |---|---|
/// | `byte C` | the control byte C, as `read_byte` reads it |
/// | `started PID LABEL` | the start made process PID, at least 1 |
/// | `failed LABEL` | the start failed |
/// | `death LABEL` | the process died |
/// | `clock LABEL` | the clock was read |
pub fn read_event(line: &[u8]) -> Result<Event, EventFault>
    ensures found { IfOk result (λ event. IsInRange event × (line.now ≡ event_text event)) }
    ensures only { (event : Event) → IsInRange event → line.now ≡ event_text event → result ≡ Ok event }
    // The first fault is returned.
    ensures exact { result ≡ event_from (fields line.now) }
    ensures event { IfOk result IsEvent }
{
    parse_event(line)
}

/// Reads the event of a line, by its fields.
fn parse_event(line: &[u8]) -> Result<Event, EventFault>
    ensures { result ≡ event_from (fields line.now) }
{
    let (word, rest) = split_field(line);
    match read_word(word) {
        Some(word) => read_rest(word, rest),
        None => Err(EventFault::UnknownEvent),
    }
}

/// Reads the first word of an event's line.
fn read_word(text: &[u8]) -> Option<Word>
    ensures found { IfSome result (λ word. text.now ≡ word_name word) }
    ensures only { (word : Word) → text.now ≡ word_name word → result ≡ Some word }
{
    match text {
        b"byte" => Some(Word::Byte),
        b"started" => Some(Word::Started),
        b"failed" => Some(Word::Failed),
        b"death" => Some(Word::Death),
        b"clock" => Some(Word::Clock),
        _ => None,
    }
}

/// Reads the event with a first word and what comes after its space.
fn read_rest(word: Word, rest: Option<&[u8]>) -> Result<Event, EventFault>
    ensures { result ≡ event_from (word_name word ∷ fields_after (option_copied rest.entry)) }
{
    match word {
        Word::Byte => Ok(Event::Byte(sole_byte(rest)?)),
        Word::Started => read_start(rest),
        Word::Failed => Ok(Event::StartFailed {
            label: sole_label(rest)?,
        }),
        Word::Death => Ok(Event::Death {
            label: sole_label(rest)?,
        }),
        Word::Clock => Ok(Event::Clock {
            label: sole_label(rest)?,
        }),
    }
}

/// Reads a line `begin up LABEL` or `begin down LABEL`, without its newline. Returns whether there is a `down` file,
/// and the label.
pub fn read_begin(line: &[u8]) -> Result<(bool, Label), EventFault>
    ensures found { IfOk result (λ (down, label). IsLabel label × (line.now ≡ begin_text down label)) }
    ensures only { (down : Bool) (label : Tai64n) → IsLabel label → line.now ≡ begin_text down label
        → result ≡ Ok (down, label) }
    // The first fault is returned.
    ensures exact { result ≡ begin_from (fields line.now) }
{
    parse_begin(line)
}

/// Reads the beginning of a line, by its fields.
fn parse_begin(line: &[u8]) -> Result<(bool, Label), EventFault>
    ensures { result ≡ begin_from (fields line.now) }
{
    let (word, rest) = split_field(line);
    match word {
        b"begin" => read_side(rest),
        _ => Err(EventFault::UnknownEvent),
    }
}

/// Reads the two fields left: whether there is a `down` file, and the label.
fn read_side(rest: Option<&[u8]>) -> Result<(bool, Label), EventFault>
    ensures { let left = fields_after (option_copied rest.entry) in
        result ≡ ok_or (side_event left) (side_fault left) }
{
    let (side, rest) = split_field(rest.ok_or(EventFault::Line)?);
    let down = match side {
        b"up" => false,
        b"down" => true,
        _ => return Err(EventFault::Line),
    };
    Ok((down, sole_label(rest)?))
}
