//! What a trace says about the processes of a service.
ghost use Rattle.std.specs.Prelude.{◌≡◌, ◌<◌, ◌^◌, false, IfSome};
ghost use Rattle.std.specs.List.{Contains};
ghost use Rattle.sup_core.specs.declared.event.Event.TheVariants as event;
ghost use Rattle.cmd_why.specs.declared.entries.Kind.TheVariants as kind;
ghost use Rattle.cmd_why.specs.Entries.{byte_in, behind_last, has, last_of};
ghost use Rattle.cmd_why.specs.Facts.{ended_at, ended_by, facts_of, has_not_run, is_failure, is_recent};
ghost use Rattle.cmd_why.specs.Facts.{is_asked, is_unasked, label_of_start, unasked_starts};
ghost use Rattle.cmd_why.specs.Facts.{is_recent_start, last_ended, leads_to, nanoseconds_after, pid_of_start};
ghost use Rattle.cmd_why.specs.Facts.{reaches_back, recent_starts};
ghost use Rattle.tai_status.specs.Label.{nanoseconds};
ghost use Rattle.cmd_why.specs.Facts.{same_label, tenths_between};

use crate::entries::{Kind, before_last, behind_last, last_of};
use std::alloc::Allocator;
use sup_core::Event;
use sup_trace::{TraceText, replay};
use tai_status::{Label, View};

/// The seconds before the clock reading in which starts are counted.
const MINUTE: u32 = 60;

/// The number of starts within 60 seconds, which nobody asked for, that count as flapping.
pub const FLAPPING: u64 = 5;

/// A process that ended, as a trace shows it.
#[derive(Clone, Copy, Debug, PartialEq, Eq)]
pub struct EndedProcess {
    pub pid: u32,
    /// When it ended.
    pub label: Label,
    /// How long it ran, in whole tenths of a second.
    pub tenths: u128,
    /// The last control byte of `u`, `d` and `o` after its start.
    pub wanted: Option<u8>,
    /// The last control byte after its start that sent a signal to it.
    pub sent: Option<u8>,
    /// Whether its start is among the entries, with no control byte after it.
    pub unasked: bool,
}

/// What a trace says in addition to the status record of a service.
#[derive(Clone, Copy, Debug, PartialEq, Eq)]
pub struct Facts {
    /// Whether the trace leads to the process that the record names, or to the same end of one. If not, the record is
    /// from a later moment, or from an earlier one, and only the starts of the trace are counted.
    pub leads: bool,
    /// The number of starts in the last 60 seconds, as far as its entries say.
    pub starts: u64,
    /// The number of those starts that nobody asked for: no control byte came since the start before.
    pub unasked: u64,
    /// Whether its entries reach back 60 seconds.
    pub reaches: bool,
    /// The last control byte after the last start that sent a signal.
    pub sent: Option<u8>,
    /// The last process that ended.
    pub ended: Option<EndedProcess>,
    /// Whether the last start failed.
    pub failed: bool,
    /// Whether no process has run since supervise began.
    pub unrun: bool,
}

/// Returns the nanoseconds since the beginning of labels.
pub fn nanoseconds(label: &Label) -> u128
    ensures value { result ≡ nanoseconds label.now }
    ensures bound { result < 2 ^ 100 }
{
    u128::from(label.sec) * 1_000_000_000 + u128::from(label.nano)
}

/// Returns the whole tenths of a second from one label to another, or 0 if the other is earlier.
fn tenths_between(from: &Label, to: &Label) -> u128
    ensures { result ≡ tenths_between from.now to.now }
{
    nanoseconds(to).saturating_sub(nanoseconds(from)) / 100_000_000
}

/// Returns whether two labels are the same.
pub(crate) fn same_label(a: &Label, b: &Label) -> bool
    ensures { result ≡ same_label a.now b.now }
{
    a.sec == b.sec && a.nano == b.nano
}

/// Returns the time that is so many seconds after a label, in nanoseconds.
fn nanoseconds_after(label: &Label, seconds: u32) -> u128
    ensures { result ≡ nanoseconds_after label.now seconds }
{
    nanoseconds(label) + u128::from(seconds) * 1_000_000_000
}

/// Returns whether a label is in so many seconds before the clock reading.
pub fn is_recent(now: &Label, seconds: u32, label: &Label) -> bool
    ensures { result ≡ is_recent now.now seconds label.now }
{
    let clock = nanoseconds(now);
    nanoseconds(label) <= clock && clock <= nanoseconds_after(label, seconds)
}

/// Returns whether an entry is a start with a label in the 60 seconds before the clock reading.
fn is_recent_start(now: &Label, event: &Event) -> bool
    ensures { result ≡ is_recent_start now.now event.now }
{
    match event {
        Event::Started { label, .. } => is_recent(now, MINUTE, label),
        _ => false,
    }
}

/// Returns how many of these entries are starts with labels in the 60 seconds before the clock reading.
pub fn recent_starts(now: &Label, entries: &[Event]) -> u64
    ensures { result ≡ recent_starts now.now entries.now }
{
    let mut count = 0;
    for event in entries {
        if is_recent_start(now, event) {
            count += 1;
        }
    }
    count
}

/// Returns whether an operator has asked for the next start, after one more event: a control byte came since the start
/// before it.
fn is_asked(asked: bool, event: &Event) -> bool
    ensures { result ≡ is_asked asked event.now }
{
    match event {
        Event::Byte(_) => true,
        Event::Started { .. } => false,
        _ => asked,
    }
}

/// Returns whether an event is a start in the last 60 seconds that nobody asked for.
fn is_unasked(now: &Label, asked: bool, event: &Event) -> bool
    ensures { result ≡ is_unasked now.now asked event.now }
{
    is_recent_start(now, event) && !asked
}

/// Returns how many of these entries are starts in the last 60 seconds with no control byte between them and the start
/// before.
pub fn unasked_starts(now: &Label, entries: &[Event]) -> u64
    ensures { result ≡ unasked_starts now.now false entries.now }
{
    let mut count = 0;
    let mut asked = false;
    for event in entries {
        if is_unasked(now, asked, event) {
            count += 1;
        }
        asked = is_asked(asked, event);
    }
    count
}

/// Returns whether every start in so many seconds before the clock reading is among the entries.
pub fn reaches_back<A: Allocator>(content: &TraceText<A>, seconds: u32, now: &Label) -> bool
    ensures { result ≡ reaches_back content.now seconds now.now }
{
    let label = content.base().view().label;
    content.folded() == 0 || nanoseconds_after(&label, seconds) < nanoseconds(now)
}

/// Returns the control byte of an event, if it is one.
fn byte_in(event: Option<Event>) -> Option<u8>
    ensures { result ≡ byte_in event }
{
    match event {
        Some(Event::Byte(byte)) => Some(byte),
        _ => None,
    }
}

/// Returns the last control byte after the last start that sends a signal to a running process. An entry after that
/// start is that byte.
pub fn last_signal(entries: &[Event]) -> Option<u8>
    ensures last { result ≡ byte_in (last_of kind.Signal (behind_last kind.Start entries.now)) }
    ensures came { IfSome result (λ byte. Contains (behind_last kind.Start entries.now) (event.Byte byte)) }
{
    byte_in(last_of(Kind::Signal, behind_last(Kind::Start, entries)))
}

/// Returns the last control byte of `u`, `d` and `o` after the last start. An entry after that start is that byte.
pub fn last_want(entries: &[Event]) -> Option<u8>
    ensures last { result ≡ byte_in (last_of kind.Want (behind_last kind.Start entries.now)) }
    ensures came { IfSome result (λ byte. Contains (behind_last kind.Start entries.now) (event.Byte byte)) }
{
    byte_in(last_of(Kind::Want, behind_last(Kind::Start, entries)))
}

/// Returns whether one of these entries is of a kind.
#[tactic(auto, using(crate::proofs::Lasts::some_last))]
fn has(kind: Kind, entries: &[Event]) -> bool
    ensures { result ≡ has kind entries.now }
{
    last_of(kind, entries).is_some()
}

/// Returns the number of the process that this start made, or of the process before it if there is no start.
fn pid_of_start(before: &View, start: &Option<Event>) -> u32
    ensures { result ≡ pid_of_start before.now start.now }
{
    match start {
        Some(Event::Started { pid, .. }) => *pid,
        _ => before.pid,
    }
}

/// Returns when that process was started.
fn label_of_start(before: &View, start: &Option<Event>) -> Label
    ensures { result ≡ label_of_start before.now start.now }
{
    match start {
        Some(Event::Started { label, .. }) => *label,
        _ => before.label,
    }
}

/// Returns the process that ended at this label, after these entries.
fn ended_at(before: &View, entries: &[Event], label: &Label) -> EndedProcess
    ensures { result ≡ ended_at before.now entries.now label.now }
{
    let start = last_of(Kind::Start, entries);
    let behind = behind_last(Kind::Start, entries);
    EndedProcess {
        pid: pid_of_start(before, &start),
        label: *label,
        tenths: tenths_between(&label_of_start(before, &start), label),
        wanted: last_want(entries),
        sent: last_signal(entries),
        unasked: has(Kind::Start, entries) && !has(Kind::Control, behind),
    }
}

/// Returns the process that the last death ended.
fn ended_by(before: &View, entries: &[Event], death: &Option<Event>) -> Option<EndedProcess>
    ensures { result ≡ ended_by before.now entries.now death.now }
{
    match death {
        Some(Event::Death { label }) => {
            Some(ended_at(before, before_last(Kind::Death, entries), label))
        }
        _ => None,
    }
}

/// Returns the last process that ended.
fn last_ended<A: Allocator>(content: &TraceText<A>) -> Option<EndedProcess>
    ensures { result ≡ last_ended content.now }
{
    let entries = content.entries();
    ended_by(
        &content.base().view(),
        entries,
        &last_of(Kind::Death, entries),
    )
}

/// Returns whether the last start failed.
fn is_failure(attempt: Option<Event>) -> bool
    ensures { result ≡ is_failure attempt }
{
    matches!(attempt, Some(Event::StartFailed { .. }))
}

/// Returns whether a trace leads to the process that a record names.
pub fn leads_to<A: Allocator>(content: &TraceText<A>, status: &View) -> bool
    ensures { result ≡ leads_to content.now status.now }
{
    let view = replay(content).view();
    same_label(&view.label, &status.label) && view.pid == status.pid
}

/// Returns whether no process is known since supervise began.
fn has_not_run<A: Allocator>(content: &TraceText<A>) -> bool
    ensures { result ≡ has_not_run content.now }
{
    content.folded() == 0 && content.base().view().pid == 0 && !has(Kind::Start, content.entries())
}

/// Returns what a trace says in addition to the status record of a service, at a clock reading.
pub fn facts_of<A: Allocator>(content: &TraceText<A>, status: &View, now: &Label) -> Facts
    ensures { result ≡ facts_of content.now status.now now.now }
{
    let entries = content.entries();
    Facts {
        leads: leads_to(content, status),
        starts: recent_starts(now, entries),
        unasked: unasked_starts(now, entries),
        reaches: reaches_back(content, MINUTE, now),
        sent: last_signal(entries),
        ended: last_ended(content),
        failed: is_failure(last_of(Kind::Attempt, entries)),
        unrun: has_not_run(content),
    }
}
