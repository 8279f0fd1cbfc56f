//! The loop of one service.
use crate::find::find;
use crate::gate::Gate;
use crate::inbox::Inbox;
use crate::pending::Pending;
use crate::request::request;
use crate::turned::{HouseFault, Turned};
use crate::world::World;
use std::marker::Model;
use std::sync::Wait;
use std::time::Duration;
use sup_core::{Asks, Event, Reply};
use svc_station::writer::Writer;
use tai_status::Label;

/// One service: its world, the source of its control bytes, the gate before the result of a start, and the writer of
/// its station. Contracts see it as `Standing`, and `IsHouse` is always true of it.
pub struct House<W: World, I: Inbox, G: Gate + Drop> {
    pub(crate) world: W,
    pub(crate) inbox: I,
    pub(crate) gate: G,
    pub(crate) writer: Writer,
    pub(crate) pending: Pending,
}

impl<W: World, I: Inbox, G: Gate + Drop> Model for House<W, I, G> {
    ghost use Rattle.svc_house.specs.Standing.{Standing, IsHouse, standing};

    ghost Value = { Standing I };

    ghost view = { λ h. standing h.writer h.pending (W.calls h.world) (W.mends h.world)
        h.inbox (I.source h.inbox) (I.given h.inbox) (I.nones h.inbox) (G.passes h.gate) };

    ghost invariant = { λ h. IsHouse (standing h.writer h.pending (W.calls h.world) (W.mends h.world)
        h.inbox (I.source h.inbox) (I.given h.inbox) (I.nones h.inbox) (G.passes h.gate)) };
}

impl<W: World, I: Inbox, G: Gate + Drop> House<W, I, G> {
    ghost use Rattle.std.specs.Prelude.{◌≡◌, ◌≢◌, ◌↔◌, ◌++◌, ◌∷◌, [], false, Ok, Some, None, All};
    ghost use Rattle.std.specs.Prelude.{IfOk, OnOk, OnErr, IfSome, MatchOption};
    ghost use Rattle.tai_status.specs.declared.phase.Phase.{Phase};
    ghost use Rattle.sup_core.specs.State.{is_gone};
    ghost use Rattle.sup_core.specs.Rules.{asks_of};
    ghost use Rattle.svc_station.specs.Ends.{history_of, published, station, opening_of};
    ghost use Rattle.svc_house.specs.Calls.{answers_in, CountsOne, ExtendedWhileKept, IsAsk, IsLastReading, requested};
    ghost use Rattle.svc_house.specs.Pending.{IsNext, rest_of};
    ghost use Rattle.svc_house.specs.Standing.{Standing, IsHouse, past_of, state_in};
    ghost use Rattle.svc_house.specs.Turn.{IsSameHouse, IsTurn, IsIdle, IsRefused, Listens, PassesGate, phase_in};
    ghost use Rattle.svc_house.specs.Turn.{polls_of};
    ghost use Rattle.svc_house.specs.declared.pending.Pending.TheVariants as pending;

    /// Opens a service with a new station. The world is asked `first`, in order, and nothing else. If the service
    /// begins, these are the asks with which its machine begins.
    pub fn open(world: W, inbox: I, gate: G, writer: Writer, first: Asks) -> House<W, I, G>
        // Nothing is published yet, the inbox gave no byte, and the world returned no result of a start and no death. A
        // signal among the asks goes to one process.
        requires published { published writer ≡ [] }
        requires given { I.given inbox ≡ [] }
        requires answered { IfSome (W.calls world) (λ calls. answers_in calls ≡ []) }
        requires asks { All IsAsk first }

        // If the world keeps its calls, it was called for these asks and for nothing else.
        ensures calls { ExtendedWhileKept (W.calls world) result.calls (requested first) }

        // The service takes bytes from this inbox, and publishes to the station of the writer. Nothing is published or
        // pending.
        ensures inbox { (result.inbox ≡ inbox) × (result.source ≡ I.source inbox) }
        ensures station { (result.station ≡ station writer) × (result.opening ≡ opening_of writer) }
        ensures events { (result.events ≡ []) × (result.pending ≡ pending.Empty) }

        // The gate was not passed, and the world was not asked to mend.
        ensures passes { result.passes ≡ G.passes gate }
        ensures mends { result.mends ≡ W.mends world }
    {
        let mut world = world;
        request(&mut world, first.as_slice());
        House {
            world,
            inbox,
            gate,
            writer,
            pending: Pending::Empty,
        }
    }

    /// Makes one turn. First it asks the world to mend, whatever the turn finds. Then it takes what is pending. If
    /// nothing is pending, it looks for what the phase can take:
    /// - the result of the start, while the service starts
    /// - the clock, while it settles or rests
    /// - a control byte, while it is down
    /// - a death, and then a control byte, while it is up; a service that dies at once therefore still gets its control
    ///   bytes
    ///
    /// What was found is published, and then the world is asked for what the event asks for, in order. If both a byte
    /// and a death were found, the byte is published, and the death stays pending.
    ///
    /// A turn never waits for something to happen: a turn that finds nothing is `Idle`. What can happen next depends on
    /// the phase:
    /// - a letter comes, while the service is up or down
    /// - the world has a result, while the service starts or is up
    /// - the time `until` is reached, while it settles or rests
    /// - the rest that the world allows (`longest_rest`) ends
    ///
    /// `OutOfMemory` is returned if there is no room to publish the event: what was found stays pending, and nothing
    /// was asked.
    pub fn turn<R: Wait>(&mut self, rt: &R) -> Result<Turned, HouseFault>
        ensures same { IsSameHouse self.old self.new }
        ensures mended { CountsOne self.old.mends self.new.mends }
        ensures turned { IfOk result (λ turned. IsTurn self.old turned self.new) }
        ensures ended { (result ≡ Ok Turned.Ended) ↔ (phase_in self.old ≡ Phase.Gone) }
        ensures refused { OnErr result (IsRefused self.old self.new) }
    {
        self.mend();
        self.turn_mended(rt)
    }

    // Asks the world to mend.
    fn mend(&mut self)
        ensures mended { CountsOne self.old.mends self.new.mends }
        ensures rest { self.new ≡ record self.old { mends = self.new.mends } }
    {
        self.world.mend();
    }

    // Makes a turn after the world was asked to mend.
    fn turn_mended<R: Wait>(&mut self, rt: &R) -> Result<Turned, HouseFault>
        ensures same { IsSameHouse self.old self.new }
        ensures mends { self.new.mends ≡ self.old.mends }
        ensures turned { IfOk result (λ turned. IsTurn self.old turned self.new) }
        ensures ended { (result ≡ Ok Turned.Ended) ↔ (phase_in self.old ≡ Phase.Gone) }
        ensures refused { OnErr result (IsRefused self.old self.new) }
    {
        if let Some(event) = self.pending.next() {
            return self.publish(rt, event);
        }
        if self.writer.machine().is_gone() {
            return Ok(Turned::Ended);
        }
        match self.look(rt) {
            Some(event) => self.publish(rt, event),
            None => Ok(Turned::Idle),
        }
    }

    // Looks for what the phase can take, and keeps it as pending. Returns the event that is next now.
    fn look<R: Wait>(&mut self, rt: &R) -> Option<Event>
        requires pending { self.old.pending ≡ pending.Empty }
        requires phase { is_gone (phase_in self.old) ≡ false }

        // The service stays the same. Nothing is published, and the world is not asked to mend.
        ensures same { IsSameHouse self.old self.new }
        ensures mends { self.new.mends ≡ self.old.mends }
        ensures events { self.new.events ≡ self.old.events }

        // What is found is pending, and the result is the first event of it.
        ensures pending { MatchOption result (self.new.pending ≡ pending.Empty)
            (λ event. IsNext event self.new.pending) }

        // If something is found, the world was called only to find it. The inbox is asked if the phase takes bytes, and
        // the gate is passed if the service starts.
        ensures polls { self.new.pending ≢ pending.Empty
            → ExtendedWhileKept self.old.calls self.new.calls (polls_of self.old self.new.pending) }
        ensures listens { Listens self.old self.new.pending self.new }
        ensures gate { PassesGate pending.Empty (phase_in self.old) self.old.passes self.new.passes }

        // If nothing is found, the turn is idle: each poll of the phase was made, and found nothing.
        ensures idle { self.new.pending ≡ pending.Empty → IsIdle self.old self.new }
    {
        let machine = self.writer.machine();
        self.pending = find(
            rt,
            &machine,
            &mut self.world,
            &mut self.inbox,
            &mut self.gate,
        );
        self.pending.next()
    }

    // Publishes the next pending event, and then asks for what it asks for.
    fn publish<R: Wait>(&mut self, rt: &R, event: Event) -> Result<Turned, HouseFault>
        requires { IsNext event self.old.pending }

        // The service stays the same, and the world is not asked to mend.
        ensures same { IsSameHouse self.old self.new }
        ensures mends { self.new.mends ≡ self.old.mends }

        // If it succeeds, the event is published, and then the world was asked what the event asks for. A clock reading
        // is the last one that the world gave.
        ensures took { IfOk result (λ turned. turned ≡ Turned.Took event) }
        ensures published { OnOk result (self.new.events ≡ self.old.events ++ event ∷ []) }
        ensures requested { OnOk result
            (ExtendedWhileKept self.old.calls self.new.calls (requested (asks_of (past_of self.old) event))) }
        ensures reading { OnOk result (IfSome self.new.calls (IsLastReading event)) }

        // If it succeeds, what was found with the event is still pending. The inbox was not asked, and the gate was not
        // passed.
        ensures pending { OnOk result (self.new.pending ≡ rest_of self.old.pending) }
        ensures nones { OnOk result (self.new.nones ≡ self.old.nones) }
        ensures gate { OnOk result (self.new.passes ≡ self.old.passes) }

        // If memory is missing, nothing changes.
        ensures refused { OnErr result (self.new ≡ self.old) }
    {
        let taken = event;
        match self.writer.publish(rt, event) {
            Ok(Reply::Took(asks)) => {
                request(&mut self.world, asks.as_slice());
                self.pending = self.pending.rest();
                Ok(Turned::Took(taken))
            }
            Ok(Reply::Held) => unreachable!(),
            Err(_refused) => Err(HouseFault::OutOfMemory),
        }
    }

    /// Returns how many seconds after it was asked to go the service's process gets KILL, as its world says. None: it
    /// never does, or there is no process.
    pub fn kill_time(&mut self) -> Option<u64>
        ensures { self.new ≡ self.old }
    {
        self.world.kill_time()
    }

    /// Returns how long the service may rest before its next turn, as its world says. `None`: until it is notified.
    pub fn longest_rest(&self) -> Option<Duration> {
        self.world.longest_rest()
    }

    /// Returns when settling or resting ends.
    pub fn until(&self) -> Option<Label>
        ensures { result ≡ (state_in self.now).until }
    {
        self.writer.machine().until()
    }

    /// Returns the parts of the service, with what is pending. `facts` says what is true of them.
    pub fn take_apart(self) -> (W, I, Writer, Pending)
        // The inbox comes back as it was, the world with the same calls, and the writer with the same station and
        // events.
        ensures world { W.calls result.0 ≡ self.calls }
        ensures inbox { result.1 ≡ self.inbox }
        ensures writer { (station result.2 ≡ self.station) × (published result.2 ≡ self.events) }

        // The history of the writer and what is pending are, together, all that was found.
        ensures history { history_of result.2 ≡ past_of self }
        ensures pending { result.3 ≡ self.pending }

        // What was found is what the inbox and the world gave, and the machine takes what is pending.
        ensures facts { IsHouse self }
    {
        let House {
            world,
            inbox,
            gate: _gate,
            writer,
            pending,
        } = self;
        (world, inbox, writer, pending)
    }
}
