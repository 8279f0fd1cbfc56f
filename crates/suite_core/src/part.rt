//! A part of a suite.
ghost use Rattle.std.specs.Prelude.{◌≡◌, ◌∷◌, [], ◌<◌, ◌≤◌, IfOk, Some, nat_lt, ◌==◌};
ghost use Rattle.sup_core.specs.Rules.{IsEvent};
ghost use Rattle.sup_trace.specs.Trace.{noted_if_taken, replay};
ghost use Rattle.suite_core.specs.Parts.{is_part, has_ended};
ghost use Rattle.scan_table.specs.Slots;
ghost use Rattle.suite_core.specs.Places.{rank, rank_in};
ghost use Rattle.suite_core.specs.Suite.{Beginning, begun_part, begun_out, outs_at};

use scan_table::{PartId, Role};
use std::alloc::{AllocError, Allocator, Global};
use std::marker::Model;
use suite_lines::{Begun, StepOut};
use sup_core::{Event, Machine};
use sup_trace::Trace;
use tai_status::Label;

/// A part and its trace.
#[derive(Drop)]
pub(crate) struct SuitePart<A: Allocator = Global> {
    id: PartId,
    trace: Trace<A>,
}

impl<A: Allocator> Model for SuitePart<A> {
    ghost use Rattle.suite_core.specs.Parts.{PartState};

    ghost Value = { PartState };

    ghost view = { λ part. record { id = part.id; trace = part.trace } };
}

/// Returns whether a role is the service itself, and not its logger.
fn is_main(role: Role) -> bool
    ensures { result ≡ Slots.is_main role }
{
    match role {
        Role::Main => true,
        Role::Log => false,
    }
}

/// Returns whether two names are those of one part.
pub(crate) fn is_part(a: PartId, b: PartId) -> bool
    ensures { result ≡ is_part a b }
{
    a.slot == b.slot && is_main(a.role) == is_main(b.role) && b.life == a.life
}

/// Returns whether a part comes before another: by slot, a service before its logger.
pub(crate) fn is_before(a: PartId, b: PartId) -> bool
    ensures { result ≡ nat_lt (rank a) (rank b) }
{
    a.slot < b.slot || (a.slot == b.slot && is_main(a.role) && !is_main(b.role))
}

/// Returns whether two parts have the same slot and role.
pub(crate) fn is_place(a: PartId, b: PartId) -> bool
    ensures { result ≡ (rank a == rank b) }
{
    a.slot == b.slot && is_main(a.role) == is_main(b.role)
}

impl<A: Allocator> SuitePart<A> {
    /// Begins a part. Returns it with what its beginning asks for. The trace takes all its memory now.
    pub(crate) fn begin(
        alloc: A,
        capacity: usize,
        label: Label,
        id: PartId,
        down: bool,
    ) -> Result<(SuitePart<A>, Begun), AllocError>
        requires room { 0 < capacity }
        requires limit { capacity ≤ 65536 }
        ensures part { IfOk result (λ made. made.0 ≡ begun_part capacity label (record { part = id; down = down })) }
        ensures begun { IfOk result (λ made. made.1 ≡ begun_out label (record { part = id; down = down })) }
    {
        let (machine, asks) = Machine::begin(down, label);
        let trace = Trace::new(alloc, capacity, machine)?;
        let begun = Begun {
            part: id,
            asks,
            phase: machine.phase(),
        };
        Ok((SuitePart { id, trace }, begun))
    }

    /// Returns the part's name.
    pub(crate) fn id(&self) -> PartId
        ensures { result ≡ self.now.id }
    {
        self.id
    }

    /// Returns the part's trace.
    pub(crate) fn trace(&self) -> &Trace<A>
        ensures { result.now ≡ self.now.trace }
    {
        &self.trace
    }

    /// Takes an event at the part with this name, or holds it. Returns the result, and whether the part has then ended.
    pub(crate) fn take(&mut self, id: PartId, event: Event) -> (StepOut<A>, bool)
        requires { IsEvent event }
        ensures part { self.new ≡ record { id = self.old.id; trace = noted_if_taken self.old.trace event } }
        ensures out { result.0 ∷ [] ≡ outs_at id event (Some self.old.trace) }
        ensures ended { result.1 ≡ has_ended (noted_if_taken self.old.trace event) }
    {
        let reply = self.trace.note(event);
        let machine = self.trace.state();
        let out = StepOut::At {
            part: id,
            reply,
            phase: machine.phase(),
        };
        (out, machine.is_gone())
    }
}
