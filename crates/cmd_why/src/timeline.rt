//! The picture of a trace: the states over time.
ghost use Rattle.std.specs.Prelude.{◌≡◌, ◌≤◌, ◌<◌, ◌++◌, ◌^◌, length, IfOk, OnOk};
ghost use Rattle.std.specs.List.{AllByRecursion};
ghost use Rattle.sup_core.specs.Rules.{IsEvent};
ghost use Rattle.tai_status.specs.Label.{nanoseconds};
ghost use Rattle.cmd_why.specs.Timeline.{alone, bar, bar_of, behind, edge, ended_with, has_part, label_in, left_end};
ghost use Rattle.cmd_why.specs.Timeline.{moment, same, shown_before, shown_in, shown_of, sign, stands, stretches};
ghost use Rattle.cmd_why.specs.Timeline.{stretches_of};
ghost use Rattle.cmd_why.specs.Timeline.{tail, throughout, width};

use crate::facts::nanoseconds;
use arrayvec::ArrayString;
use cmd_svc::is_running;
use std::alloc::{AllocError, Allocator};
use sup_core::{Event, Machine, Phase};
use sup_trace::TraceText;
use tai_status::{Label, View};

/// The number of columns of a picture.
pub const COLUMNS: usize = 80;

/// The signs of a picture, one for each column.
pub type Bar = ArrayString<COLUMNS>;

/// How a service is shown.
#[derive(Clone, Copy, Debug, PartialEq, Eq)]
pub enum ShownState {
    /// There is a process.
    Up,
    /// There is a process, and it was paused for some of that time; a trace does not say when.
    Paused,
    /// It settles after a start, or rests after a failed one.
    Attempt,
    /// There is no process.
    Down,
    /// It is not known, because the trace does not lead to the record.
    Unknown,
}

/// A time for which a service is shown in one way. Both ends are in nanoseconds since the beginning of labels.
#[derive(Clone, Copy, Debug, PartialEq, Eq)]
pub struct Stretch {
    pub from: u128,
    pub to: u128,
    pub shown: ShownState,
}

/// Returns how a phase is shown.
fn shown_in(phase: Phase) -> ShownState
    ensures { result ≡ shown_in phase }
{
    match phase {
        Phase::Up => ShownState::Up,
        Phase::Settling | Phase::Resting => ShownState::Attempt,
        Phase::Starting | Phase::Down | Phase::Gone => ShownState::Down,
    }
}

/// Returns how a machine is shown.
fn shown_of(machine: &Machine) -> ShownState
    ensures { result ≡ shown_of machine.now }
{
    if machine.view().paused {
        return ShownState::Paused;
    }
    shown_in(machine.phase())
}

/// Returns how the machine before the entries is shown.
fn shown_before(view: &View) -> ShownState
    ensures { result ≡ shown_before view.now }
{
    if view.paused {
        ShownState::Paused
    } else if is_running(view) {
        ShownState::Up
    } else {
        ShownState::Down
    }
}

/// Returns the label of an entry. A control byte has none.
fn label_in(event: &Event) -> Option<Label>
    ensures { result ≡ label_in event.now }
{
    match event {
        Event::Byte(_) => None,
        Event::Started { label, .. } => Some(*label),
        Event::StartFailed { label } => Some(*label),
        Event::Death { label } => Some(*label),
        Event::Clock { label } => Some(*label),
    }
}

/// Returns when an entry with this label counts, after a stretch.
fn moment(now: u128, last: &Stretch, label: &Label) -> u128
    ensures { result ≡ moment now last.now label.now }
{
    last.from.max(nanoseconds(label)).min(now)
}

/// Adds the stretch that ends at an entry, if the entry has a label.
fn end_stretch<A: Allocator>(
    drawn: &mut Vec<Stretch, A>,
    now: u128,
    last: &Stretch,
    label: &Option<Label>,
) -> Result<(), AllocError>
    ensures { OnOk result (drawn.new.items ≡ drawn.old.items ++ ended_with now last.now label.now) }
{
    let Some(label) = label else {
        return Ok(());
    };
    drawn.push(Stretch {
        from: last.from,
        to: moment(now, last, label),
        shown: last.shown,
    })?;
    Ok(())
}

/// Returns the stretch after an entry that leads to this machine.
fn behind(now: u128, last: &Stretch, label: &Option<Label>, machine: &Machine) -> Stretch
    ensures { result ≡ behind now last.now label.now machine.now }
{
    match label {
        Some(label) => Stretch {
            from: moment(now, last, label),
            to: last.to,
            shown: shown_of(machine),
        },
        None => Stretch {
            from: last.from,
            to: last.to,
            shown: if machine.view().paused {
                ShownState::Paused
            } else {
                last.shown
            },
        },
    }
}

/// Returns the last stretch of all, up to now.
fn tail(leads: bool, last: &Stretch) -> Stretch
    ensures { result ≡ tail leads last.now }
{
    Stretch {
        from: last.from,
        to: last.to,
        shown: if leads {
            last.shown
        } else {
            ShownState::Unknown
        },
    }
}

/// Returns the stretches from the last one so far on, with those that these entries add.
fn stretches<A: Allocator>(
    alloc: A,
    now: u128,
    leads: bool,
    machine: Machine,
    last: Stretch,
    entries: &[Event],
) -> Result<Vec<Stretch, A>, AllocError>
    requires { AllByRecursion IsEvent entries.now }
    ensures { IfOk result (λ drawn. drawn.items ≡ stretches now leads machine last entries.now) }
{
    let mut drawn = Vec::new(alloc);
    let mut machine = machine;
    let mut last = last;
    for event in entries {
        machine.step(*event);
        let label = label_in(event);
        end_stretch(&mut drawn, now, &last, &label)?;
        let next = behind(now, &last, &label, &machine);
        last = next;
    }
    drawn.push(tail(leads, &last))?;
    Ok(drawn)
}

/// Returns how many nanoseconds wide a picture is.
fn width(from: u128, now: u128) -> u128
    requires { now < 2 ^ 100 }
    ensures value { result ≡ width from now }
    ensures bound { result < 2 ^ 101 }
{
    (now + 1).saturating_sub(from).max(COLUMNS as u128)
}

/// Returns the time at which a column begins.
fn edge(from: u128, width: u128, column: usize) -> u128
    requires from { from < 2 ^ 100 }
    requires width { width < 2 ^ 101 }
    requires column { column ≤ 80 }
    ensures { result ≡ edge from width column }
{
    from + column as u128 * width / COLUMNS as u128
}

/// Returns whether a stretch overlaps the time from one moment to another.
fn has_part(from: u128, to: u128, stretch: &Stretch) -> bool
    ensures { result ≡ has_part from to stretch.now }
{
    stretch.from < to && from < stretch.to
}

/// Returns whether both are shown the same way.
fn same(one: ShownState, other: ShownState) -> bool
    ensures { result ≡ same one other }
{
    match (one, other) {
        (ShownState::Up, ShownState::Up) => true,
        (ShownState::Paused, ShownState::Paused) => true,
        (ShownState::Attempt, ShownState::Attempt) => true,
        (ShownState::Down, ShownState::Down) => true,
        (ShownState::Unknown, ShownState::Unknown) => true,
        _ => false,
    }
}

/// Returns whether a stretch that is shown this way overlaps that time.
fn stands(from: u128, to: u128, what: ShownState, drawn: &[Stretch]) -> bool
    ensures { result ≡ stands from to what drawn.now }
{
    drawn.iter().any(|stretch| has_part(from, to, stretch) && same(stretch.shown, what))
}

/// Returns the one of these that holds, if exactly one does.
fn alone(up: bool, paused: bool, attempt: bool, down: bool, unknown: bool) -> Option<ShownState>
    ensures { result ≡ alone up paused attempt down unknown }
{
    match (up, paused, attempt, down, unknown) {
        (true, false, false, false, false) => Some(ShownState::Up),
        (false, true, false, false, false) => Some(ShownState::Paused),
        (false, false, true, false, false) => Some(ShownState::Attempt),
        (false, false, false, true, false) => Some(ShownState::Down),
        (false, false, false, false, true) => Some(ShownState::Unknown),
        _ => None,
    }
}

/// Returns what is shown throughout a time, or None if there is more than one.
fn throughout(from: u128, to: u128, drawn: &[Stretch]) -> Option<ShownState>
    ensures { result ≡ throughout from to drawn.now }
{
    alone(
        stands(from, to, ShownState::Up, drawn),
        stands(from, to, ShownState::Paused, drawn),
        stands(from, to, ShownState::Attempt, drawn),
        stands(from, to, ShownState::Down, drawn),
        stands(from, to, ShownState::Unknown, drawn),
    )
}

/// Returns the sign of a column.
fn sign(shown: Option<ShownState>) -> &'static str
    ensures sign { result.now ≡ sign shown }
    ensures one { length result.now ≡ 1 }
{
    match shown {
        Some(ShownState::Up) => "#",
        Some(ShownState::Paused) => "=",
        Some(ShownState::Attempt) => "*",
        Some(ShownState::Down) => ".",
        Some(ShownState::Unknown) => "?",
        None => "+",
    }
}

/// Returns the signs of all columns.
fn bar(from: u128, width: u128, drawn: &[Stretch]) -> Bar
    requires from { from < 2 ^ 100 }
    requires width { width < 2 ^ 101 }
    ensures { result.bytes ≡ bar from width drawn.now }
{
    let mut bar = Bar::new();
    for column in 0..COLUMNS {
        let from_edge = edge(from, width, column);
        let to_edge = edge(from, width, column + 1);
        bar.push_str(sign(throughout(from_edge, to_edge, drawn)));
    }
    bar
}

/// Returns the time at which the picture of a trace begins.
pub(crate) fn left_end<A: Allocator>(content: &TraceText<A>, now: &Label) -> Label
    ensures { result ≡ left_end content.now now.now }
{
    let label = content.base().view().label;
    if nanoseconds(now) < nanoseconds(&label) {
        *now
    } else {
        label
    }
}

/// Returns the stretches of a trace up to a clock reading, from the left end of its picture on.
pub fn stretches_of<A: Allocator, B: Allocator>(
    alloc: A,
    content: &TraceText<B>,
    leads: bool,
    now: &Label,
) -> Result<Vec<Stretch, A>, AllocError>
    ensures { IfOk result (λ drawn. drawn.items
        ≡ stretches_of content.now leads (nanoseconds (left_end content.now now.now)) (nanoseconds now.now)) }
{
    let from = nanoseconds(&left_end(content, now));
    let until = nanoseconds(now);
    let base = content.base();
    let last = Stretch {
        from,
        to: from + width(from, until),
        shown: shown_before(&base.view()),
    };
    stretches(alloc, until, leads, base, last, content.entries())
}

/// Returns the picture of a trace at a clock reading. It covers the time from the label of the machine before its
/// entries to that reading, in columns of equal width. Each column has the sign for the state throughout its time:
///
/// - `#` if there is a process, and `.` if there is none.
/// - `*` if it settles after a start, or rests after a failed one; each lasts a second.
/// - `=` if the process was paused for some of the time from one label to the next. A control byte has no label, so a
///   trace does not say when it came.
/// - `?` if the state is not known: the trace does not lead to the record, and this is after its last label.
/// - `+` if more than one of these applies.
///
/// An entry counts at the time of its label. If the entry before it is later, it counts at that time, because a clock
/// may be set back. If both are later than the reading, it counts at the reading. Returns `AllocError` only if the
/// allocator refuses the memory.
pub fn bar_of<A: Allocator, B: Allocator>(
    alloc: A,
    content: &TraceText<B>,
    leads: bool,
    now: &Label,
) -> Result<Bar, AllocError>
    ensures { IfOk result (λ bar. bar.bytes ≡ bar_of content.now leads now.now) }
{
    let from = nanoseconds(&left_end(content, now));
    let width = width(from, nanoseconds(now));
    let drawn = stretches_of(alloc, content, leads, now)?;
    Ok(bar(from, width, &drawn))
}
