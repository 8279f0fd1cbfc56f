ghost use Rattle.std.specs.Prelude.{◌≡◌, true, ◌+◌, ◌^◌, ◌<◌, ◌≤◌, length, slice_get, IfOk, OnOk, [], ◌∷◌};
ghost use Rattle.sup_core.specs.History.{state_of};
ghost use Rattle.sup_core.specs.Rules.{IsEvent, takes, reply_to};
ghost use Rattle.sup_trace.specs.Content.{IsContent};
ghost use Rattle.sup_trace.specs.Text.{trace_text};
ghost use Rattle.sup_trace.specs.Trace.{IsTrace, kept_of, history_of, noted};

use crate::content::TraceText;
use crate::text::trace_text;
use circular_buffer::HeapCircularBuffer;
use std::alloc::{AllocError, Allocator, Global};
use std::marker::Model;
use sup_core::{Event, Machine, Reply};

/// The most events that a trace may keep.
pub const MAX_CAPACITY: usize = 65536;

/// The maximum of the count of folded events.
pub(crate) const LAST_COUNT: u64 = 1 << 63;

/// The last events that a machine took, and the machine before them. Contracts see it as `Kept`.
#[derive(Drop)]
pub struct Trace<A: Allocator = Global> {
    base: Machine,
    entries: HeapCircularBuffer<Event, A>,
    folded: u64,
    machine: Machine,
}

impl<A: Allocator> Model for Trace<A> {
    ghost use Rattle.sup_trace.specs.Trace.{Kept, IsKeptUp, kept_of};

    ghost Value = { Kept };

    // The machine is computed from the other fields.
    ghost view = { λ trace. kept_of trace.base trace.entries trace.folded };

    ghost invariant = { λ trace. IsKeptUp (kept_of trace.base trace.entries trace.folded) trace.machine };
}

impl<A: Allocator> Trace<A> {
    ghost use Rattle.sup_trace.specs.Trace.{Kept, history_of, noted, noted_if_taken, new_trace, replay, content_by};

    /// Returns a trace of a machine that has taken nothing yet. It keeps as many events as the capacity says, 1 to
    /// `MAX_CAPACITY`, and takes all its memory now.
    pub fn new(alloc: A, capacity: usize, machine: Machine) -> Result<Trace<A>, AllocError>
        requires room { 0 < capacity }
        requires limit { capacity ≤ MAX_CAPACITY }
        ensures { IfOk result (λ trace. trace ≡ new_trace machine capacity) }
    {
        let entries = HeapCircularBuffer::with_capacity(alloc, capacity)?;
        Ok(Trace {
            base: machine,
            entries,
            folded: 0,
            machine,
        })
    }

    /// Returns the machine before the entries.
    pub fn base(&self) -> Machine
        ensures { result ≡ self.now.base }
    {
        self.base
    }

    /// Returns the entry at a place. The oldest is at 0.
    pub fn entry(&self, index: usize) -> Option<Event>
        ensures { result ≡ slice_get self.now.entries index }
    {
        self.entries.get(index).copied()
    }

    /// Returns how many entries there are.
    pub fn len(&self) -> usize
        ensures { result ≡ length self.now.entries }
    {
        self.entries.len()
    }

    /// Returns how many entries there may be.
    pub fn capacity(&self) -> usize
        ensures capacity { result ≡ self.now.capacity }
        ensures trace { IsTrace self.now }
    {
        self.entries.capacity()
    }

    /// Returns how many events were folded into the base. The count stops at `2 ^ 63`.
    pub fn folded(&self) -> u64
        ensures { result ≡ self.now.folded }
    {
        self.folded
    }

    /// Returns how many events were taken: the folded ones, as far as they are counted, and the entries.
    pub fn count(&self) -> u64
        ensures { result ≡ self.now.folded + length self.now.entries }
    {
        let kept = self.entries.len() as u64;
        kept + self.folded
    }

    /// Returns the machine after the entries.
    pub fn state(&self) -> Machine
        ensures { result ≡ replay self.now }
    {
        self.machine
    }

    /// Takes the event, which then is the newest entry, or holds it and does nothing. If the entries are full, the
    /// oldest one is folded into the base. This needs no memory, and takes the same time at any capacity.
    pub fn note(&mut self, event: Event) -> Reply
        requires { IsEvent event }
        ensures reply { result ≡ reply_to (history_of self.old) event }
        ensures kept { self.new ≡ noted_if_taken self.old event }
    {
        let entry = event;
        let reply = self.machine.step(event);
        if let Reply::Took(_) = &reply {
            keep(&mut self.base, &mut self.entries, &mut self.folded, entry);
        }
        reply
    }

    /// Writes the text of the trace, as `TraceText` writes it. `AllocError` is returned only if the allocator refuses
    /// memory for the text, which is taken at once.
    pub fn write_text<B: Allocator>(&self, alloc: B) -> Result<Vec<u8, B>, AllocError>
        ensures text { IfOk result (λ bytes. bytes.items ≡ trace_text (content_by self.now)) }
        // Such a text can be read, and gives this content.
        ensures range { OnOk result (IsContent (content_by self.now)) }
    {
        let (first, second) = self.entries.as_slices();
        trace_text(alloc, &self.base, self.folded, first, second)
    }

    /// Copies what the text of the trace says. `AllocError` is returned only if the allocator refuses memory for the
    /// entries.
    pub fn copy_text<B: Allocator>(&self, alloc: B) -> Result<TraceText<B>, AllocError>
        ensures { IfOk result (λ text. text ≡ content_by self.now) }
    {
        let entries = self.entries.to_vec(alloc)?;
        Ok(TraceText::from_parts(self.base, self.folded, entries))
    }
}

/// Adds an event that was taken as the newest entry. If the entries are full, the oldest one is folded into the base.
fn keep<A: Allocator>(
    base: &mut Machine,
    entries: &mut HeapCircularBuffer<Event, A>,
    folded: &mut u64,
    event: Event,
)
    requires trace { IsTrace (kept_of base.old entries.old folded.old) }
    requires condition { IsEvent event }
    requires taken { takes (history_of (kept_of base.old entries.old folded.old)) event ≡ true }
    ensures { kept_of base.new entries.new folded.new ≡ noted (kept_of base.old entries.old folded.old) (event ∷ []) }
{
    if let Some(oldest) = entries.push_back(event) {
        base.step(oldest);
        if *folded < LAST_COUNT {
            *folded += 1;
        }
    }
}
