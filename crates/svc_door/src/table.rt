//! The parts at the door.
ghost use Rattle.std.specs.Prelude.{◌≡◌, ◌≢◌, ◌+◌, ◌≤◌, ℕ, true, false, map, None, Some, vec_capacity};
ghost use Rattle.std.specs.Prelude.{IfErr, IfSome, IfNone, OnOk, OnErr};
ghost use Rattle.slab.specs.Slab.{HasRoomFor, get, slab_len};
ghost use Rattle.svc_door.specs.Dues.{due_at, due_slots, soonest_due};
ghost use Rattle.svc_door.specs.Slots.{Admits, AreOpen, Dismisses, number_at};
ghost use Rattle.svc_door.specs.Turning.{HasRound, HaveTurns, TurnsIfDue, TurnsOf, Wakes, WakesEach, slot_of};
ghost use Rattle.mio.specs.Events.{items};
ghost use Rattle.svc_door.specs.declared.table.Next.TheVariants as next;

use crate::part::DoorPart;
use crate::rests::sooner;
use mio::net::UnixListener;
use mio::{Events, Registry, Token};
use slab::Slab;
use std::alloc::Global;
use std::io;
use std::sync::Wait;
use svc_house::ControlSender;

/// The token of the door's own waker. The token of a part is the number of its slot, which is less.
pub const WAKER: Token = Token(usize::MAX);

/// What is given back for a part that was not admitted.
#[derive(Drop)]
pub struct AdmissionFault {
    /// The destination of its control bytes.
    pub sender: ControlSender,
    /// Why it was not admitted.
    pub fault: io::Error,
}

/// What the door's thread does next.
#[derive(Clone, Copy, Debug, PartialEq, Eq)]
pub enum Next {
    /// It exits.
    Ends,
    /// It polls until an event comes, or until this time.
    Polls(Option<u64>),
}

/// The parts, each in a slot, and the slots of those that have a turn without an event.
#[derive(Drop)]
pub struct Table {
    ends: bool,
    parts: Slab<DoorPart>,
    open_slots: Vec<usize>,
    ghost each: { AreOpen parts open_slots.items },
    ghost room: { slab_len parts ≤ vec_capacity open_slots },
}

impl Table {
    /// Returns a table with no part.
    pub fn new(alloc: Global) -> Table
        ensures parts { (slot : ℕ) → get result.parts slot ≡ None }
        ensures ends { result.ends ≡ false }
    {
        Table {
            ends: false,
            parts: Slab::new(alloc),
            open_slots: Vec::new(alloc),
        }
    }

    /// Makes the registry watch a part that begins, and puts the part into a slot. After a fault the slots are as they
    /// were, and the part's sender is given back.
    pub fn admit(
        &mut self,
        number: u64,
        sender: ControlSender,
        control: UnixListener,
        ok: UnixListener,
        registry: &Registry,
    ) -> Result<(), AdmissionFault>
        ensures admitted { OnOk result (Admits number sender control ok self.old.parts self.new.parts) }
        ensures refused { OnErr result ((slot : ℕ) → get self.new.parts slot ≡ get self.old.parts slot) }
        ensures sender { IfErr result (λ refused. refused.sender ≡ sender) }
        ensures open { self.new.open_slots.items ≡ self.old.open_slots.items }
        ensures ends { self.new.ends ≡ self.old.ends }
    {
        let token = Token(self.parts.vacant_key());
        let mut part = DoorPart::new(number, token, sender, control, ok);
        match self.watch(&mut part, registry) {
            Ok(()) => {
                self.parts.insert_reserved(part);
                Ok(())
            }
            Err(fault) => Err(AdmissionFault {
                sender: part.into_sender(),
                fault,
            }),
        }
    }

    // Makes the registry watch a part, after there is room for it and for its turns.
    fn watch(&mut self, part: &mut DoorPart, registry: &Registry) -> io::Result<()>
        // If it succeeds, one more part can get a slot, and its turns, without more memory.
        ensures room { OnOk result (HasRoomFor self.new.parts 1) }
        ensures room_for_turns { OnOk result (slab_len self.new.parts + 1 ≤ vec_capacity self.new.open_slots) }

        // The table stays as it was, even if it fails: each slot, the next free one, and those that have a turn.
        ensures parts { (slot : ℕ) → get self.new.parts slot ≡ get self.old.parts slot }
        ensures vacant { self.new.parts.vacant_key ≡ self.old.parts.vacant_key }
        ensures open { self.new.open_slots.items ≡ self.old.open_slots.items }
        ensures ends { self.new.ends ≡ self.old.ends }

        // Even if it fails, the part keeps its token, its number, its sender, its connection and its sockets, and is
        // due as before.
        ensures token { part.new.token ≡ part.old.token }
        ensures number { part.new.number ≡ part.old.number }
        ensures sender { part.new.sender ≡ part.old.sender }
        ensures due { part.new.due ≡ part.old.due }
        ensures connection { part.new.connection ≡ part.old.connection }
        ensures sockets { (part.new.control.socket ≡ part.old.control.socket)
            × (part.new.ok.socket ≡ part.old.ok.socket) }

        // If it succeeds, the events of both listeners name the token of the part.
        ensures watched { OnOk result ((part.new.control.watched ≡ Some part.old.token)
            × (part.new.ok.watched ≡ Some part.old.token)) }
    {
        let lacking = self
            .parts
            .len()
            .saturating_add(1)
            .saturating_sub(self.open_slots.len());
        self.open_slots.reserve(lacking)?;
        self.parts.reserve(1)?;
        part.register(registry)
    }

    /// Takes the part of a life out of its slot, and returns its sender. `None`: no part has this number.
    pub fn dismiss(&mut self, number: u64) -> Option<ControlSender>
        ensures dismissed { IfSome result (λ sender. Dismisses number sender self.old.parts self.new.parts
            self.old.open_slots.items self.new.open_slots.items) }
        ensures none { IfNone result ((slot : ℕ) → get self.new.parts slot ≡ get self.old.parts slot) }
        ensures ends { self.new.ends ≡ self.old.ends }
        ensures unknown { IfNone result ((slot : ℕ) → number_at self.old.parts slot ≢ Some number) }
    {
        let slot = self.slot_of(number)?;
        let part = self.parts.try_remove(slot)?;
        self.open_slots.retain(|other| *other != slot);
        Some(part.into_sender())
    }

    fn slot_of(&self, number: u64) -> Option<usize>
        ensures some { IfSome result (λ slot. number_at self.now.parts slot ≡ Some number) }
        ensures none { IfNone result ((slot : ℕ) → number_at self.now.parts slot ≢ Some number) }
    {
        for slot in 0..self.parts.capacity() {
            if let Some(part) = self.parts.get(slot) {
                if part.number == number {
                    return Some(slot);
                }
            }
        }
        None
    }

    /// Makes the part that an event's token names due now, if there is one.
    pub fn wake(&mut self, token: Token, now: u64)
        ensures wakes { Wakes now (get self.old.parts token.0) (get self.new.parts token.0) }
        ensures others { (other : ℕ) → other ≢ token.0 → get self.new.parts other ≡ get self.old.parts other }
        ensures ends { self.new.ends ≡ self.old.ends }
    {
        if !self.parts.contains(token.0) {
            return;
        }
        if due_at(&self.parts, token.0).is_none() {
            self.open_slots.push_reserved(token.0);
        }
        make_due(&mut self.parts, token.0, now);
    }

    fn wake_each(&mut self, events: &Events<Global>, now: u64)
        ensures wakes { WakesEach now (map slot_of (items events.now)) self.old.parts self.new.parts }
        ensures ends { self.new.ends ≡ self.old.ends }
    {
        for event in events.iter() {
            self.wake(event.token(), now);
        }
    }

    /// Notes that the door's thread is to exit.
    pub fn end(&mut self)
        ensures ends { self.new.ends ≡ true }
        ensures parts { (slot : ℕ) → get self.new.parts slot ≡ get self.old.parts slot }
    {
        self.ends = true;
    }

    /// Handles the events that a poll gave. If the thread is to exit, nothing is done.
    pub fn round<R: Wait>(
        &mut self,
        rt: &R,
        registry: &Registry,
        events: &Events<Global>,
        now: u64,
    ) -> Next
        ensures ends { self.old.ends ≡ true → (result ≡ next.Ends)
            × ((slot : ℕ) → get self.new.parts slot ≡ get self.old.parts slot) }
        ensures same { self.new.ends ≡ self.old.ends }
        ensures serves { self.old.ends ≡ false → HasRound now (items events.now) self.old.parts self.new.parts }
        ensures polls { self.old.ends ≡ false
            → result ≡ next.Polls (soonest_due self.new.parts self.new.open_slots.items) }
    {
        if self.ends {
            return Next::Ends;
        }
        self.wake_each(events, now);
        Next::Polls(self.turns(rt, registry, now))
    }

    /// Gives each due part one turn. Then keeps those that are due again, and returns when the first of them is.
    pub fn turns<R: Wait>(&mut self, rt: &R, registry: &Registry, now: u64) -> Option<u64>
        ensures turns { HaveTurns now self.old.parts self.new.parts }
        ensures ends { self.new.ends ≡ self.old.ends }
        ensures open { self.new.open_slots.items ≡ due_slots self.new.parts self.old.open_slots.items }
        ensures soonest { result ≡ soonest_due self.new.parts self.new.open_slots.items }
    {
        turn_each(rt, &mut self.parts, registry, &self.open_slots, now);
        keep_due(&self.parts, &mut self.open_slots);
        soonest_due(&self.parts, &self.open_slots)
    }
}

/// Gives each part of these slots its turn, if it is due.
fn turn_each<R: Wait>(
    rt: &R,
    parts: &mut Slab<DoorPart>,
    registry: &Registry,
    slots: &[usize],
    now: u64,
)
    ensures turns { TurnsOf now slots.now parts.old parts.new }
    ensures len { slab_len parts.new ≡ slab_len parts.old }
{
    for slot in slots {
        turn(rt, parts, registry, *slot, now);
    }
}

/// Gives a part its turn, if it is due.
fn turn<R: Wait>(rt: &R, parts: &mut Slab<DoorPart>, registry: &Registry, slot: usize, now: u64)
    ensures there { TurnsIfDue now (get parts.old slot) (get parts.new slot) }
    ensures others { (other : ℕ) → other ≢ slot → get parts.new other ≡ get parts.old other }
    ensures len { slab_len parts.new ≡ slab_len parts.old }
{
    if let Some(part) = parts.get_mut(slot) {
        if part.is_due(now) {
            part.turn(rt, registry, now);
        }
    }
}

/// Makes the part in a slot due now.
fn make_due(parts: &mut Slab<DoorPart>, slot: usize, now: u64)
    ensures wakes { Wakes now (get parts.old slot) (get parts.new slot) }
    ensures others { (other : ℕ) → other ≢ slot → get parts.new other ≡ get parts.old other }
    ensures len { slab_len parts.new ≡ slab_len parts.old }
{
    if let Some(part) = parts.get_mut(slot) {
        part.due = Some(now);
    }
}

/// Returns when the part in a slot is due.
fn due_at(parts: &Slab<DoorPart>, slot: usize) -> Option<u64>
    ensures { result ≡ due_at parts.now slot }
{
    match parts.get(slot) {
        Some(part) => part.due,
        None => None,
    }
}

/// Removes the slots with parts that are not due.
fn keep_due(parts: &Slab<DoorPart>, slots: &mut Vec<usize>)
    ensures due { slots.new.items ≡ due_slots parts.now slots.old.items }
    ensures room { vec_capacity slots.new ≡ vec_capacity slots.old }
{
    slots.retain(|slot| due_at(parts, *slot).is_some());
}

/// Returns when the first of these slots is due.
fn soonest_due(parts: &Slab<DoorPart>, slots: &[usize]) -> Option<u64>
    ensures { result ≡ soonest_due parts.now slots.now }
{
    let mut soonest = None;
    for slot in slots {
        soonest = sooner(soonest, due_at(parts, *slot));
    }
    soonest
}
