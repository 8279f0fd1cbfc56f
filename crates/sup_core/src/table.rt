ghost use Rattle.std.specs.Prelude.{◌≡◌, ◌≤◌, if◌then◌else◌, codes, length, map};
ghost use Rattle.sup_core.specs.declared.event.Event.TheVariants.{Byte};
ghost use Rattle.sup_core.specs.History.{History, runs};
ghost use Rattle.sup_core.specs.Rules.{asks_of, is_letter, letters, signal_of};
ghost use Rattle.sup_core.specs.Text.{ask_name, asked_names, names_text, table_text};

use crate::asks::Sig;
use crate::text::push_byte;
use arrayvec::ArrayString;

/// The control bytes, in the order in which the table is printed. Each row says what is asked for and what changes if
/// there is a process, and if there is none. Any other byte asks for nothing and changes nothing.
///
/// This macro passes the list to the macro that its caller names, after that macro's arguments.
macro_rules! control_bytes {
    ($rows:ident $arguments:tt) => {
        $rows! {
            $arguments
            b'u' running [record] {want = Up} idle [record start] {want = Up, phase = Starting};
            b'd' running [TERM CONT record] {want = Down, paused = false} idle [record] {want = Down};
            b'o' running [record] {want = Once} idle [record start] {want = Once, phase = Starting};
            b'p' running [STOP record] {paused = true} idle [record] {};
            b'c' running [CONT record] {paused = false} idle [record] {};
            b'h' running [HUP] {} idle [] {};
            b'a' running [ALRM] {} idle [] {};
            b'i' running [INT] {} idle [] {};
            b't' running [TERM] {} idle [] {};
            b'k' running [KILL] {} idle [] {};
            b'x' running [record] {exiting = true} idle [record] {exiting = true, phase = Gone};
            b'1' running [USR1] {} idle [] {};
            b'2' running [USR2] {} idle [] {};
            b'q' running [QUIT] {} idle [] {};
        }
    };
}

pub(crate) use control_bytes;

/// The events that are taken in each phase. Every other event is held.
macro_rules! taken_events {
    ($rows:ident $arguments:tt) => {
        $rows! {
            $arguments
            Starting takes Started always;
            Starting takes StartFailed always;
            Settling takes Clock at_its_end;
            Resting takes Clock at_its_end;
            Up takes Byte always;
            Up takes Death always;
            Down takes Byte always;
        }
    };
}

pub(crate) use taken_events;

/// What a row asks for, in words.
macro_rules! row_words {
    () => { "nothing" };
    ($($ask:ident)+) => { stringify!($($ask)+) };
}

/// The words of a byte's row.
macro_rules! words_of {
    (
        ($byte:expr, $running:expr)
        $($row:literal
            running [$($ask:ident)*] {$($field:ident = $value:tt),*}
            idle [$($idle_ask:ident)*] {$($idle_field:ident = $idle_value:tt),*};)*
    ) => {
        match ($byte, $running) {
            $(
                ($row, true) => row_words!($($ask)*),
                ($row, false) => row_words!($($idle_ask)*),
            )*
            _ => row_words!(),
        }
    };
}

/// The letters of the rows.
macro_rules! letters_of {
    (() $($row:literal running $asks:tt $change:tt idle $idle_asks:tt $idle_change:tt;)*) => {
        [$($row),*]
    };
}

/// One, for a row.
macro_rules! one {
    ($row:literal) => { 1 };
}

/// The number of rows.
macro_rules! count_of {
    (() $($row:literal running $asks:tt $change:tt idle $idle_asks:tt $idle_change:tt;)*) => {
        0 $(+ one!($row))*
    };
}

/// The number of control bytes.
pub const LETTER_COUNT: usize = control_bytes!(count_of());

/// The control bytes.
const LETTERS: [u8; LETTER_COUNT] = control_bytes!(letters_of());

/// Returns the control bytes, in the order in which the table is printed.
pub fn letters() -> &'static [u8]
    ensures { result.now ≡ letters }
{
    &LETTERS
}

/// Returns whether a byte is a control byte.
pub fn is_letter(byte: u8) -> bool
    ensures { result ≡ is_letter byte }
{
    LETTERS.contains(&byte)
}

/// The first signal that a row asks for.
macro_rules! first_signal {
    () => { None };
    (record $($ask:ident)*) => { None };
    ($signal:ident $($ask:ident)*) => { Some(Sig::$signal) };
}

/// The first signal of a byte's row.
macro_rules! signal_at {
    (
        ($byte:expr)
        $($row:literal running [$($ask:ident)*] $change:tt idle $idle_asks:tt $idle_change:tt;)*
    ) => {
        match $byte {
            $($row => first_signal!($($ask)*),)*
            _ => None,
        }
    };
}

/// Returns the first signal that a byte sends to a process, if it sends one.
pub fn signal_of(byte: u8) -> Option<Sig>
    ensures { result ≡ signal_of byte }
{
    control_bytes!(signal_at(byte))
}

/// Returns what a byte asks for, in words.
fn asked(byte: u8, running: bool) -> &'static str
    ensures words { result.now ≡ names_text (asked_names byte running) }
    ensures short { length result.now ≤ 16 }
{
    control_bytes!(words_of(byte, running))
}

/// Returns the heading of a side of the table.
fn side(running: bool) -> &'static str
    ensures text { result.now ≡ (if running then codes " running: " else codes " idle: ") }
    ensures short { length result.now ≤ 10 }
{
    if running { " running: " } else { " idle: " }
}

/// Returns the line of a control byte in the printed table: what it asks for if there is a process, or if there is
/// none.
///
/// A byte that is no control byte has a line too, which asks for nothing.
pub fn table_line(byte: u8, running: bool) -> ArrayString<48>
    ensures line { result.bytes ≡ table_text byte running }
    // The words are the names of what is asked for.
    ensures rules { (past : History) → runs past ≡ running
        → asked_names byte running ≡ map ask_name (asks_of past (Byte byte)) }
{
    let mut out = ArrayString::new();
    push_byte(&mut out, byte);
    out.push_str(side(running));
    out.push_str(asked(byte, running));
    out
}
