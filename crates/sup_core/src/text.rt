ghost use Rattle.std.specs.Prelude.{◌≡◌, ◌+◌, ◌^◌, ◌<◌, ◌≤◌, ◌++◌, [], length, codes, decimal, IsAscii};
ghost use Rattle.hex.specs.Hex.{encode_lower};
ghost use Rattle.arrayvec.specs.ArrayString.{array_string_len};
ghost use Rattle.tai_status.specs.Label.{IsLabel, label_text};
ghost use Rattle.tai_status.specs.Phase.{phase_name};
ghost use Rattle.sup_core.specs.Rules.{IsEvent};
ghost use Rattle.sup_core.specs.Reading.{IsInRange};
ghost use Rattle.sup_core.specs.Text.{byte_text, event_text, answer_text, ask_text, asks_text, signal_name};
ghost use Rattle.sup_core.specs.Text.{fault_name, longest};

use crate::asks::{Ask, Asks, Reply, Sig, signals};
use crate::event::Event;
use crate::ranges::label_in_range;
use crate::reading::EventFault;
use arrayvec::ArrayString;
use itoa::Buffer;
use std::error::Error;
use std::{fmt, str};
use tai_status::{Label, Phase, phase_name, text};

/// The name of a signal, among these.
macro_rules! name_of {
    (($sig:expr) $($name:ident $text:literal;)*) => {
        match $sig {
            $(Sig::$name => stringify!($name),)*
        }
    };
}

/// Returns the name of a signal, without `SIG`.
pub fn sig_name(sig: Sig) -> &'static str
    ensures name { result.now ≡ signal_name sig }
    ensures short { length result.now ≤ 6 }
{
    signals!(name_of(sig))
}

/// Returns the name of a fault in a line.
pub fn fault_name(why: EventFault) -> &'static str
    ensures name { result.now ≡ fault_name why }
    ensures short { length result.now ≤ 12 }
{
    match why {
        EventFault::UnknownEvent => "UnknownEvent",
        EventFault::Line => "Line",
        EventFault::Number => "Number",
        EventFault::Label => "Label",
    }
}

impl fmt::Display for Sig {
    ghost use Rattle.std.specs.Prelude.{Some};
    ghost use Rattle.sup_core.specs.Text.{signal_name};

    ghost output = { λ s. Some (signal_name s) };

    fn fmt<W: fmt::Write>(&self, f: &mut fmt::Formatter<W>) -> fmt::Result {
        f.write_str(sig_name(*self))
    }
}

impl fmt::Display for EventFault {
    ghost use Rattle.std.specs.Prelude.{Some};
    ghost use Rattle.sup_core.specs.Text.{fault_name};

    ghost output = { λ s. Some (fault_name s) };

    fn fmt<W: fmt::Write>(&self, f: &mut fmt::Formatter<W>) -> fmt::Result {
        f.write_str(fault_name(*self))
    }
}

impl Error for EventFault {}

impl fmt::Display for Event {
    ghost use Rattle.std.specs.Prelude.{Some};
    ghost use Rattle.sup_core.specs.Text.{event_text};

    ghost output = { λ s. Some (event_text s) };

    fn fmt<W: fmt::Write>(&self, f: &mut fmt::Formatter<W>) -> fmt::Result {
        f.write_str(event_text(self).as_str())
    }
}

impl fmt::Display for Ask {
    ghost use Rattle.std.specs.Prelude.{Some};
    ghost use Rattle.sup_core.specs.Text.{ask_text};

    ghost output = { λ s. Some (ask_text s) };

    fn fmt<W: fmt::Write>(&self, f: &mut fmt::Formatter<W>) -> fmt::Result {
        f.write_str(ask_text(self).as_str())
    }
}

/// Returns ASCII bytes as a text.
fn ascii(bytes: &[u8]) -> &str
    requires { IsAscii bytes.now }
    ensures { result.now ≡ bytes.now }
{
    str::from_utf8(bytes).unwrap()
}

/// Writes a number at the end of a text.
fn push_number<const N: usize>(out: &mut ArrayString<N>, number: u32)
    requires { array_string_len out.old + 10 ≤ N }
    ensures text { out.new.bytes ≡ out.old.bytes ++ decimal number }
    ensures len { array_string_len out.new ≤ array_string_len out.old + 10 }
    ensures range { number < 2 ^ 32 }
{
    let mut buffer = Buffer::new();
    out.push_str(buffer.format(number));
}

/// Writes a label at the end of a text.
fn push_label<const N: usize>(out: &mut ArrayString<N>, label: &Label)
    requires { array_string_len out.old + 25 ≤ N }
    ensures text { out.new.bytes ≡ out.old.bytes ++ label_text label.now }
    ensures len { array_string_len out.new ≡ array_string_len out.old + 25 }
    ensures range { IsLabel label.now }
{
    let label = label_in_range(label);
    let bytes = text(&label);
    out.push_str(ascii(&bytes));
}

/// Returns the text of a byte: one from `!` to `~` is itself, and any other is its two lower-case hexadecimal digits.
pub fn byte_text(byte: u8) -> ArrayString<2>
    ensures { result.bytes ≡ byte_text byte }
{
    let mut out = ArrayString::new();
    push_byte(&mut out, byte);
    out
}

/// Writes a byte at the end of a text.
pub(crate) fn push_byte<const N: usize>(out: &mut ArrayString<N>, byte: u8)
    requires { array_string_len out.old + 2 ≤ N }
    ensures text { out.new.bytes ≡ out.old.bytes ++ byte_text byte }
    ensures len { array_string_len out.new ≤ array_string_len out.old + 2 }
    ensures range { byte < 2 ^ 8 }
{
    if byte.is_ascii_graphic() {
        out.push(char::from(byte));
    } else {
        let mut digits = [0; 2];
        hex::encode_to_slice(&[byte], &mut digits).unwrap();
        out.push_str(ascii(&digits));
    }
}

/// Returns the line of an event, without its newline. `read_event` reads this line as this event.
pub fn event_text(event: &Event) -> ArrayString<48>
    ensures text { result.bytes ≡ event_text event.now }
    // Such a line is read as the event.
    ensures range { IsEvent event.now → IsInRange event.now }
{
    let mut out = ArrayString::new();
    match event {
        Event::Byte(byte) => {
            out.push_str("byte ");
            push_byte(&mut out, *byte);
        }
        Event::Started { pid, label } => {
            out.push_str("started ");
            push_number(&mut out, *pid);
            out.push_str(" ");
            push_label(&mut out, label);
        }
        Event::StartFailed { label } => {
            out.push_str("failed ");
            push_label(&mut out, label);
        }
        Event::Death { label } => {
            out.push_str("death ");
            push_label(&mut out, label);
        }
        Event::Clock { label } => {
            out.push_str("clock ");
            push_label(&mut out, label);
        }
    }
    out
}

/// Returns the text of an ask in an answer.
fn ask_text(ask: &Ask) -> ArrayString<47>
    ensures { result.bytes ≡ ask_text ask.now }
{
    let mut out = ArrayString::new();
    push_ask(&mut out, ask);
    out
}

/// Writes an ask at the end of a text.
fn push_ask<const N: usize>(out: &mut ArrayString<N>, ask: &Ask)
    requires { array_string_len out.old + longest ask.now ≤ N }
    ensures text { out.new.bytes ≡ out.old.bytes ++ ask_text ask.now }
    ensures len { array_string_len out.new ≤ array_string_len out.old + longest ask.now }
{
    match ask {
        Ask::Signal(sig, pid) => {
            out.push_str(sig_name(*sig));
            out.push_str(":");
            push_number(out, *pid);
        }
        Ask::Start => out.push_str("start"),
        Ask::Write(record) => {
            out.push_str("record:");
            push_record(out, record);
        }
    }
}

/// Writes the digits of a record at the end of a text.
fn push_record<const N: usize>(out: &mut ArrayString<N>, bytes: &[u8; 20])
    requires { array_string_len out.old + 40 ≤ N }
    ensures text { out.new.bytes ≡ out.old.bytes ++ encode_lower bytes.now }
    ensures len { array_string_len out.new ≡ array_string_len out.old + 40 }
{
    let mut digits = [0; 40];
    hex::encode_to_slice(bytes, &mut digits).unwrap();
    out.push_str(ascii(&digits));
}

/// Returns the answer to an event, with the phase of the machine after it. The text is `held`, or `took` and each ask
/// after a space, then the phase after ` -> `. An ask is `TERM:PID` or another signal, `start`, or `record:` and its
/// digits.
pub fn answer_text(reply: &Reply, phase: Phase) -> ArrayString<128>
    ensures { result.bytes ≡ answer_text reply.now phase }
{
    let mut out = ArrayString::new();
    match reply {
        Reply::Held => out.push_str("held"),
        Reply::Took(asks) => push_asks(&mut out, asks),
    }
    push_phase(&mut out, phase);
    out
}

/// Returns the answer to an event that was taken, or to a beginning, from what it asked for. It has the form of
/// `answer_text`.
pub fn took_text(asks: &Asks, phase: Phase) -> ArrayString<128>
    ensures { result.bytes ≡ answer_text (Reply.Took asks.now) phase }
{
    let mut out = ArrayString::new();
    push_asks(&mut out, asks);
    push_phase(&mut out, phase);
    out
}

/// Writes the phase after an event at the end of its answer.
fn push_phase(out: &mut ArrayString<128>, phase: Phase)
    requires { array_string_len out.old ≤ 100 }
    ensures { out.new.bytes ≡ out.old.bytes ++ codes " -> " ++ phase_name phase }
{
    out.push_str(" -> ");
    out.push_str(phase_name(phase));
}

/// Writes that an event was taken, and what it asked for.
fn push_asks(out: &mut ArrayString<128>, asks: &Asks)
    requires { out.old.bytes ≡ [] }
    ensures text { out.new.bytes ≡ codes "took" ++ asks_text asks.now }
    ensures len { array_string_len out.new ≤ 100 }
{
    out.push_str("took");
    for ask in asks.as_slice() {
        out.push_str(" ");
        push_ask(out, ask);
    }
}
