//! The places of parts, and what is done at the place of one.
ghost use Rattle.std.specs.Prelude.{◌≡◌, ◌<◌, ◌∷◌, [], None, length, map, MatchOption, IfSome, option_copied};
ghost use Rattle.sup_core.specs.Rules.{IsEvent};
ghost use Rattle.sup_trace.specs.Trace.{noted_if_taken};
ghost use Rattle.suite_core.specs.Parts.{trace_of, parts_after, has_ended, restarted_in};
ghost use Rattle.suite_core.specs.Places.{AreRising, IsEdge, IsPlaceOf, IsPartAt, HasNone};
ghost use Rattle.suite_core.specs.Suite.{outs_at};

use crate::part::{SuitePart, is_before, is_part, is_place};
use scan_table::PartId;
use std::alloc::Allocator;
use suite_lines::StepOut;
use sup_core::Event;
use sup_trace::Trace;

/// Returns the place of the first part that does not come before this one.
fn edge<A: Allocator>(parts: &[SuitePart<A>], id: PartId) -> usize
    requires { AreRising parts.now }
    ensures { IsEdge parts.now id result }
{
    let mut low = 0;
    let mut high = parts.len();
    while low < high {
        let middle = low + (high - low) / 2;
        if is_before(parts[middle].id(), id) {
            low = middle + 1;
        } else {
            high = middle;
        }
    }
    low
}

/// Returns the place of the part with a slot and role, in any life.
fn place_of<A: Allocator>(parts: &[SuitePart<A>], id: PartId) -> Option<usize>
    requires { AreRising parts.now }
    ensures { MatchOption result (HasNone parts.now id) (λ place. IsPlaceOf parts.now id place) }
{
    let place = edge(parts, id);
    if place < parts.len() && is_place(parts[place].id(), id) {
        Some(place)
    } else {
        None
    }
}

/// Returns the place of a part.
pub(crate) fn find<A: Allocator>(parts: &[SuitePart<A>], id: PartId) -> Option<usize>
    requires { AreRising parts.now }
    ensures { MatchOption result (trace_of parts.now id ≡ None) (λ place. IsPartAt parts.now id place) }
{
    match place_of(parts, id) {
        Some(place) if is_part(parts[place].id(), id) => Some(place),
        _ => None,
    }
}

/// Returns the trace of a part.
pub(crate) fn trace_of<A: Allocator>(parts: &[SuitePart<A>], id: PartId) -> Option<&Trace<A>>
    requires { AreRising parts.now }
    ensures { option_copied result ≡ trace_of parts.now id }
{
    match find(parts, id) {
        Some(place) => Some(parts[place].trace()),
        None => None,
    }
}

/// Takes an event at the part at this place. Returns the result, and whether the part has then ended.
pub(crate) fn take_event<A: Allocator>(
    parts: &mut [SuitePart<A>],
    id: PartId,
    place: usize,
    event: Event,
) -> (StepOut<A>, bool)
    // The parts are in order, and this one is at the place. If the event is the start of a process, the number of the
    // process is at least 1.
    requires rising { AreRising parts.old }
    requires at { IsPartAt parts.old id place }
    requires event { IsEvent event }

    // The part keeps the event if its machine takes it, and it replies in either case. The other parts stay. The flag
    // says whether its machine is then gone.
    ensures parts { parts.new ≡ parts_after id event parts.old }
    ensures out { result.0 ∷ [] ≡ outs_at id event (trace_of parts.old id) }
    ensures ended { IfSome (trace_of parts.old id) (λ kept. result.1 ≡ has_ended (noted_if_taken kept event)) }
{
    parts[place].take(id, event)
}

/// Puts a part that restarts into its place.
fn restart<A: Allocator>(parts: &mut [SuitePart<A>], new: SuitePart<A>)
    requires { AreRising parts.old }
    ensures { parts.new ≡ map (restarted_in (new ∷ [])) parts.old }
{
    if let Some(place) = place_of(parts, new.id()) {
        parts[place] = new;
    }
}

/// Puts parts that restart into their places.
pub(crate) fn restart_all<A: Allocator>(parts: &mut [SuitePart<A>], news: Vec<SuitePart<A>, A>)
    requires { AreRising parts.old }
    ensures { parts.new ≡ map (restarted_in news.items) parts.old }
{
    for new in news {
        restart(parts, new);
    }
}
