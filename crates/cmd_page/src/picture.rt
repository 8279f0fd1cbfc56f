//! The picture of the last hour of a service, and its restarts.
ghost use Rattle.std.specs.Prelude.{◌≡◌, ◌++◌, ◌≤◌, ◌<◌, ◌^◌, flat_map, OnOk};
ghost use Rattle.tai_status.specs.Label.{nanoseconds};
ghost use Rattle.cmd_page.specs.Picture.{class_of, death_text, deaths, extent, has_more, has_run, is_asked};
ghost use Rattle.cmd_page.specs.Picture.{is_restart, mark, opening, picture, place, ran_before};
ghost use Rattle.cmd_page.specs.Picture.{rectangle, rectangles, restarts, restarts_text, stretch_text};

use crate::text::{push_number, push_text};
use cmd_why::{ShownState, Stretch, is_recent, is_signal, nanoseconds, reaches_back, stretches_of};
use std::alloc::{AllocError, Allocator};
use sup_core::Event;
use sup_trace::TraceText;
use tai_status::Label;

/// The width of a picture: the seconds of an hour.
const AXIS: u64 = 3600;

/// The width of the mark of a death.
const MARK: u64 = 12;

/// The nanoseconds of a second.
const SECOND: u128 = 1_000_000_000;

/// The seconds before the clock reading in which restarts are counted.
const HOUR: u32 = 3600;

/// Returns the place of a moment in a picture, in whole seconds. What is more than an hour ago is at its left end.
fn place(now: u128, moment: u128) -> u64
    ensures value { result ≡ place now moment }
    ensures within { result ≤ 3600 }
{
    let ago = now.saturating_sub(moment) / SECOND;
    AXIS - ago.min(u128::from(AXIS)) as u64
}

/// Writes the attributes of a rectangle from one place to another.
#[tactic(auto, unfolding(crate::specs::Picture::extent))]
fn push_extent<A: Allocator>(out: &mut Vec<u8, A>, from: u64, to: u64) -> Result<(), AllocError>
    ensures { OnOk result (out.new.items ≡ out.old.items ++ extent from to) }
{
    push_text(out, "\" x=\"")?;
    push_number(out, from)?;
    push_text(out, "\" width=\"")?;
    push_number(out, to.saturating_sub(from))
}

/// Writes a rectangle of a class, from one place to another.
#[tactic(auto, unfolding(crate::specs::Picture::rectangle))]
fn push_rectangle<A: Allocator>(
    out: &mut Vec<u8, A>,
    class: &str,
    from: u64,
    to: u64,
) -> Result<(), AllocError>
    ensures { OnOk result (out.new.items ≡ out.old.items ++ rectangle class.now from to) }
{
    push_text(out, "<rect class=\"")?;
    push_text(out, class)?;
    push_extent(out, from, to)?;
    push_text(out, "\" height=\"1\"/>")
}

/// Returns the class of a stretch.
fn class_of(shown: ShownState) -> &'static str
    ensures { result.now ≡ class_of shown }
{
    match shown {
        ShownState::Up => "up",
        ShownState::Paused | ShownState::Attempt => "warn",
        ShownState::Down => "down",
        ShownState::Unknown => "dark",
    }
}

/// Writes the rectangle of a stretch, if it has some width in the picture.
fn push_stretch<A: Allocator>(
    out: &mut Vec<u8, A>,
    now: u128,
    stretch: &Stretch,
) -> Result<(), AllocError>
    ensures { OnOk result (out.new.items ≡ out.old.items ++ stretch_text now stretch.now) }
{
    let from = place(now, stretch.from);
    let to = place(now, stretch.to);
    if from < to {
        return push_rectangle(out, class_of(stretch.shown), from, to);
    }
    Ok(())
}

/// Writes the rectangles of these stretches.
fn push_stretches<A: Allocator>(
    out: &mut Vec<u8, A>,
    now: u128,
    stretches: &[Stretch],
) -> Result<(), AllocError>
    ensures { OnOk result (out.new.items ≡ out.old.items ++ flat_map (stretch_text now) stretches.now) }
{
    for stretch in stretches {
        push_stretch(out, now, stretch)?;
    }
    Ok(())
}

/// Returns whether the end of a process was asked for, after one more event: since its start, a control byte came that
/// sends a signal.
fn is_asked(asked: bool, event: &Event) -> bool
    ensures { result ≡ is_asked asked event.now }
{
    match event {
        Event::Byte(byte) => asked || is_signal(*byte),
        Event::Started { .. } => false,
        _ => asked,
    }
}

/// Writes the mark of a death at a place.
fn push_mark<A: Allocator>(out: &mut Vec<u8, A>, place: u64) -> Result<(), AllocError>
    ensures { OnOk result (out.new.items ≡ out.old.items ++ mark place) }
{
    if place == 0 {
        return Ok(());
    }
    push_rectangle(out, "died", place.saturating_sub(MARK), place)
}

/// Writes the mark of an event, if it is a death that nobody asked for.
fn push_death<A: Allocator>(
    out: &mut Vec<u8, A>,
    now: u128,
    asked: bool,
    event: &Event,
) -> Result<(), AllocError>
    ensures { OnOk result (out.new.items ≡ out.old.items ++ death_text now asked event.now) }
{
    match event {
        Event::Death { label } if !asked => push_mark(out, place(now, nanoseconds(label))),
        _ => Ok(()),
    }
}

/// Writes the marks of the deaths among these entries that nobody asked for.
fn push_deaths<A: Allocator>(
    out: &mut Vec<u8, A>,
    now: u128,
    asked: bool,
    entries: &[Event],
) -> Result<(), AllocError>
    ensures { OnOk result (out.new.items ≡ out.old.items ++ deaths now asked entries.now) }
{
    let mut asked = asked;
    for event in entries {
        push_death(out, now, asked, event)?;
        asked = is_asked(asked, event);
    }
    Ok(())
}

/// Returns whether there were events before the entries of a trace.
fn has_more<A: Allocator>(content: &TraceText<A>) -> bool
    ensures { result ≡ has_more content.now }
{
    content.folded() != 0
}

/// Writes the rectangles of a trace: its stretches, and over them the deaths that nobody asked for.
#[tactic(auto, unfolding(crate::specs::Picture::rectangles))]
fn push_rectangles<A: Allocator + Clone, B: Allocator>(
    alloc: &A,
    out: &mut Vec<u8, A>,
    now: &Label,
    leads: bool,
    content: &TraceText<B>,
) -> Result<(), AllocError>
    ensures { OnOk result (out.new.items ≡ out.old.items ++ rectangles now.now leads content.now) }
{
    let stretches = stretches_of(alloc.clone()?, content, leads, now)?;
    push_stretches(out, nanoseconds(now), &stretches)?;
    push_deaths(out, nanoseconds(now), has_more(content), content.entries())
}

/// Returns the beginning of a picture.
#[tactic(auto, unfolding(crate::specs::Picture::opening))]
fn opening() -> &'static str
    ensures { result.now ≡ opening }
{
    "<svg viewBox=\"0 0 3600 1\" preserveAspectRatio=\"none\" role=\"img\" aria-label=\"the last hour\">"
}

/// Writes the picture of a trace: the hour before a clock reading, as rectangles. If the trace does not lead to the
/// record of the service, the time after its last label is left empty.
#[tactic(auto, unfolding(crate::specs::Picture::picture))]
pub fn push_picture<A: Allocator + Clone, B: Allocator>(
    alloc: &A,
    out: &mut Vec<u8, A>,
    now: &Label,
    leads: bool,
    content: &TraceText<B>,
) -> Result<(), AllocError>
    ensures { OnOk result (out.new.items ≡ out.old.items ++ picture now.now leads content.now) }
{
    push_text(out, opening())?;
    push_rectangles(alloc, out, now, leads, content)?;
    push_text(out, "</svg>")
}

/// Returns whether an event is a start in the last hour, after another process.
fn is_restart(now: &Label, ran: bool, event: &Event) -> bool
    ensures { result ≡ is_restart now.now ran event.now }
{
    match event {
        Event::Started { label, .. } => ran && is_recent(now, HOUR, label),
        _ => false,
    }
}

/// Returns whether a process has run, after one more event.
fn has_run(ran: bool, event: &Event) -> bool
    ensures { result ≡ has_run ran event.now }
{
    match event {
        Event::Started { .. } => true,
        _ => ran,
    }
}

/// Returns how many of these entries are restarts in the last hour.
fn restarts(now: &Label, ran: bool, entries: &[Event]) -> u64
    ensures { result ≡ restarts now.now ran entries.now }
{
    let mut count = 0;
    let mut ran = ran;
    for event in entries {
        if is_restart(now, ran, event) {
            count += 1;
        }
        ran = has_run(ran, event);
    }
    count
}

/// Returns whether a process ran before the entries of a trace.
fn ran_before<A: Allocator>(content: &TraceText<A>) -> bool
    ensures { result ≡ ran_before content.now }
{
    content.base().view().pid >= 1 || has_more(content)
}

/// Writes the number of restarts in the last hour, or the least number if the trace may not have all of them.
#[tactic(auto, unfolding(crate::specs::Picture::restarts_text))]
pub fn push_restarts<A: Allocator, B: Allocator>(
    out: &mut Vec<u8, A>,
    now: &Label,
    leads: bool,
    content: &TraceText<B>,
) -> Result<(), AllocError>
    ensures { OnOk result (out.new.items ≡ out.old.items ++ restarts_text now.now leads content.now) }
{
    if !(leads && reaches_back(content, HOUR, now)) {
        push_text(out, "at least ")?;
    }
    push_number(out, restarts(now, ran_before(content), content.entries()))
}
