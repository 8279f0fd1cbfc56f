//! The entries of a trace by their kinds.
ghost use Rattle.std.specs.Prelude.{◌≡◌};
ghost use Rattle.cmd_why.specs.Entries.{before_last, behind_last, is_of, is_signal, last_of};

use sup_core::{Event, signal_of};

/// Kinds of entries.
#[derive(Clone, Copy, Debug, PartialEq, Eq)]
pub enum Kind {
    /// A process was started.
    Start,
    /// A process was started, or a start failed.
    Attempt,
    /// A process died.
    Death,
    /// A control byte came.
    Control,
    /// A control byte came that sends a signal to a running process.
    Signal,
    /// A control byte came that says what is wanted: `u`, `d` or `o`.
    Want,
}

/// Returns whether a control byte sends a signal to a running process.
pub fn is_signal(byte: u8) -> bool
    ensures { result ≡ is_signal byte }
{
    signal_of(byte).is_some()
}

/// Returns whether an entry is of a kind.
fn is_of(kind: Kind, event: &Event) -> bool
    ensures { result ≡ is_of kind event.now }
{
    match (kind, event) {
        (Kind::Start, Event::Started { .. }) => true,
        (Kind::Attempt, Event::Started { .. }) => true,
        (Kind::Attempt, Event::StartFailed { .. }) => true,
        (Kind::Death, Event::Death { .. }) => true,
        (Kind::Control, Event::Byte(_)) => true,
        (Kind::Signal, Event::Byte(byte)) => is_signal(*byte),
        (Kind::Want, Event::Byte(byte)) => b"udo".contains(byte),
        _ => false,
    }
}

/// Returns the last entry of a kind.
pub fn last_of(kind: Kind, entries: &[Event]) -> Option<Event>
    ensures { result ≡ last_of kind entries.now }
{
    let mut last = None;
    for event in entries {
        if is_of(kind, event) {
            last = Some(*event);
        }
    }
    last
}

/// Returns the entries after the last one of a kind, or all entries if there is none of that kind.
pub fn behind_last(kind: Kind, entries: &[Event]) -> &[Event]
    ensures { result.now ≡ behind_last kind entries.now }
{
    let mut behind = entries;
    for (place, event) in entries.iter().enumerate() {
        if is_of(kind, event) {
            behind = &entries[place + 1..];
        }
    }
    behind
}

/// Returns the entries before the last one of a kind, or no entries if there is none of that kind.
pub fn before_last(kind: Kind, entries: &[Event]) -> &[Event]
    ensures { result.now ≡ before_last kind entries.now }
{
    let mut before = &entries[..0];
    for (place, event) in entries.iter().enumerate() {
        if is_of(kind, event) {
            before = &entries[..place];
        }
    }
    before
}
