ghost use Rattle.std.specs.Prelude.{◌≡◌, ◌≢◌, ◌<◌, ◌^◌, ◌⊎◌, ◌↔◌, ◌∷◌, [], ◌++◌, List, IsTrue, IsSome, IfSome, Bool};
ghost use Rattle.std.specs.Prelude.{false, true};
ghost use Rattle.std.specs.List.{AllByRecursion};
ghost use Rattle.tai_status.specs.Label.{Tai64n, IsLabel};
ghost use Rattle.tai_status.specs.Record.{IsStatus};
ghost use Rattle.tai_status.specs.Full.{IsFull, StandsIn, full_record, full_with};
ghost use Rattle.tai_status.specs.declared.phase.Phase.{Phase};
ghost use Rattle.sup_core.specs.State.{IsState, WaitsUntil, full_in, is_gone, phase_after_death, phase_after_pause};

use crate::asks::{Ask, Asks, Reply, Sig};
use crate::event::Event;
use crate::ranges::{label_in_range, view_in_range};
use crate::table::{control_bytes, taken_events};
use std::marker::Model;
use tai_status::{Full, Label, Phase, View, Want, encode_full};

/// Makes a row's changes to a machine.
macro_rules! change {
    ($machine:ident, want = $want:ident) => { $machine.view.want = Want::$want; };
    ($machine:ident, paused = $paused:literal) => { $machine.view.paused = $paused; };
    ($machine:ident, exiting = $exiting:literal) => { $machine.exiting = $exiting; };
    ($machine:ident, phase = $phase:ident) => { $machine.phase = Phase::$phase; };
}

/// Makes one ask of a row.
macro_rules! ask {
    ($machine:ident, record) => { record_ask($machine.phase, &$machine.view, $machine.exiting) };
    ($machine:ident, start) => { Ask::Start };
    ($machine:ident, $signal:ident) => { Ask::Signal(Sig::$signal, $machine.view.pid) };
}

/// Takes a control byte by the rows of the table.
macro_rules! take_byte {
    (
        ($machine:ident, $byte:expr)
        $($row:literal
            running [$($ask:ident)*] {$($field:ident = $value:tt),*}
            idle [$($idle_ask:ident)*] {$($idle_field:ident = $idle_value:tt),*};)*
    ) => {
        match ($byte, $machine.phase) {
            $(
                ($row, Phase::Up) => {
                    $(change!($machine, $field = $value);)*
                    let mut asks = Asks::new();
                    $(asks.push(ask!($machine, $ask));)*
                    asks
                }
                ($row, _) => {
                    $(change!($machine, $idle_field = $idle_value);)*
                    let mut asks = Asks::new();
                    $(asks.push(ask!($machine, $idle_ask));)*
                    asks
                }
            )*
            _ => Asks::new(),
        }
    };
}

/// Decides whether an event is taken, by the rows of the events that are.
macro_rules! takes_event {
    (
        ($machine:ident, $event:ident)
        $($phase:ident takes $kind:ident $when:ident;)*
    ) => {
        match ($machine.phase, $event) {
            $((Phase::$phase, Event::$kind { .. }) => is_time!($when, $machine, $event),)*
            _ => false,
        }
    };
}

/// Decides whether a row's event is taken now.
macro_rules! is_time {
    (always, $machine:ident, $event:ident) => { true };
    (at_its_end, $machine:ident, $event:ident) => { $machine.is_reached($event) };
}

/// Supervise's state for one service: its phase, what its status record says, whether supervise exits after the
/// process, and until when it settles or rests. Only possible states have a machine.
#[derive(Clone, Copy, Debug, PartialEq, Eq)]
pub struct Machine {
    phase: Phase,
    view: View,
    exiting: bool,
    until: Option<Label>,
}

impl Model for Machine {
    ghost use Rattle.sup_core.specs.State.{State, IsState};

    ghost Value = { State };

    ghost view = { λ m. record { phase = m.phase; status = m.view; exiting = m.exiting; until = m.until } };

    ghost invariant = { λ m.
        IsState (record { phase = m.phase; status = m.view; exiting = m.exiting; until = m.until }) };

    ghost inverse = { λ s. record { phase = s.phase; view = s.status; exiting = s.exiting; until = s.until } };
}

impl Machine {
    ghost use Rattle.sup_core.specs.History.{History, Begin, Opened, Then, state_of};
    ghost use Rattle.sup_core.specs.Runs.{after};
    ghost use Rattle.sup_core.specs.Rules.{asks_of, asks_of_begin, is_taken, reaches, takes, next, reply_to, IsEvent};
    ghost use Rattle.sup_core.specs.Asks.{records_in};

    /// Returns the phase.
    pub fn phase(&self) -> Phase
        ensures { result ≡ self.now.phase }
    {
        self.phase
    }

    /// Returns what the status record says.
    pub fn view(&self) -> View
        ensures view { result ≡ self.now.status }
        ensures range { IsStatus result }
        ensures stands { IsState self.now }
    {
        view_in_range(&self.view)
    }

    /// Returns what the full status record says.
    pub fn full(&self) -> Full
        ensures full { result ≡ full_in self.now }
        ensures range { IsFull result }
    {
        Full {
            view: view_in_range(&self.view),
            phase: self.phase,
            exiting: self.exiting,
        }
    }

    /// Returns whether supervise is done, and takes nothing more.
    pub fn is_gone(&self) -> bool
        ensures { result ≡ is_gone self.now.phase }
    {
        self.phase == Phase::Gone
    }

    /// Returns whether supervise exits once there is no process.
    pub fn exiting(&self) -> bool
        ensures { result ≡ self.now.exiting }
    {
        self.exiting
    }

    /// Returns the end of settling or resting: a clock reading from this label on is taken.
    pub fn until(&self) -> Option<Label>
        ensures until { result ≡ self.now.until }
        ensures range { IfSome result IsLabel }
    {
        match &self.until {
            Some(until) => Some(label_in_range(until)),
            None => None,
        }
    }

    /// Returns the machine with these parts, if a machine can be in that state:
    ///
    /// | phase | process | want | exiting | until |
    /// |---|---|---|---|---|
    /// | starting | none | up, once | no | none |
    /// | settling | one, not paused | up, once | no | one second past the view's label. |
    /// | resting | none | up, once | no | one second past some label. |
    /// | up | one | any | any | none |
    /// | down | none | down, once | no | none |
    /// | gone | none | any | yes | none |
    pub fn of_parts(
        phase: Phase,
        view: View,
        exiting: bool,
        until: Option<Label>,
    ) -> Option<Machine>
        ensures valid { IsSome result ↔
            IsState (record { phase = phase; status = view; exiting = exiting; until = until }) }
        ensures value { IfSome result (λ m.
            m ≡ record { phase = phase; status = view; exiting = exiting; until = until }) }
    {
        if can_stand(phase, &view, exiting, &until) {
            Some(Machine {
                phase,
                view,
                exiting,
                until,
            })
        } else {
            None
        }
    }

    /// Returns whether the machine takes the event. It holds every other event.
    pub fn takes(&self, event: &Event) -> bool
        ensures taken { (past : History) → state_of past ≡ self.now → result ≡ takes past event.now }
        ensures by_phase { result ≡ is_taken self.now.phase self.now.until event.now }
    {
        taken_events!(takes_event(self, event))
    }

    /// Returns whether a clock reading reaches the end of settling or resting.
    fn is_reached(&self, event: &Event) -> bool
        ensures { result ≡ reaches self.now.until event.now }
    {
        match event {
            Event::Clock { label } => self.until.is_some_and(|until| *label >= until),
            _ => false,
        }
    }

    /// Takes a control byte.
    fn take_byte(&mut self, byte: u8) -> Asks
        requires { (self.old.phase ≡ Phase.Up) ⊎ (self.old.phase ≡ Phase.Down) }
        ensures state { self.new ≡ state_of (Then (Opened self.old) (Event.Byte byte)) }
        ensures asks { result ≡ asks_of (Opened self.old) (Event.Byte byte) }
    {
        control_bytes!(take_byte(self, byte))
    }

    /// Takes the start that was asked for.
    fn take_start(&mut self, pid: u32, label: Label) -> Asks
        requires phase { self.old.phase ≡ Phase.Starting }
        requires process { 0 < pid }
        ensures state { self.new ≡ state_of (Then (Opened self.old) (Event.Started pid label)) }
        ensures asks { result ≡ asks_of (Opened self.old) (Event.Started pid label) }
    {
        self.phase = Phase::Settling;
        self.until = Some(label.plus_second());
        self.view = View {
            label,
            pid,
            paused: false,
            want: self.view.want,
        };
        let mut asks = Asks::new();
        asks.push(record_ask(self.phase, &self.view, self.exiting));
        asks
    }

    /// Takes the failure of the start that was asked for.
    fn take_failure(&mut self, label: Label) -> Asks
        requires { self.old.phase ≡ Phase.Starting }
        ensures state { self.new ≡ state_of (Then (Opened self.old) (Event.StartFailed label)) }
        ensures asks { result ≡ asks_of (Opened self.old) (Event.StartFailed label) }
    {
        self.phase = Phase::Resting;
        self.until = Some(label.plus_second());
        let mut asks = Asks::new();
        asks.push(record_ask(self.phase, &self.view, self.exiting));
        asks
    }

    /// Takes the death of the process.
    fn take_death(&mut self, label: Label) -> Asks
        requires { self.old.phase ≡ Phase.Up }
        ensures state { self.new ≡ state_of (Then (Opened self.old) (Event.Death label)) }
        ensures asks { result ≡ asks_of (Opened self.old) (Event.Death label) }
    {
        self.view = View {
            label,
            pid: 0,
            paused: false,
            want: self.view.want,
        };
        self.phase = phase_after_death(&self.view, self.exiting);
        let mut asks = Asks::new();
        asks.push(record_ask(self.phase, &self.view, self.exiting));
        if self.phase == Phase::Starting {
            asks.push(Ask::Start);
        }
        asks
    }

    /// Takes a clock reading that ends settling or resting.
    fn take_reading(&mut self) -> Asks
        requires { (self.old.phase ≡ Phase.Settling) ⊎ (self.old.phase ≡ Phase.Resting) }
        // The value of the clock reading makes no difference.
        ensures state { self.new ≡ state_of (Then (Opened self.old) (Event.Clock self.old.status.label)) }
        ensures asks { result ≡ asks_of (Opened self.old) (Event.Clock self.old.status.label) }
    {
        self.until = None;
        self.phase = phase_after_pause(self.phase, &self.view, self.exiting);
        let mut asks = Asks::new();
        asks.push(record_ask(self.phase, &self.view, self.exiting));
        if self.phase == Phase::Starting {
            asks.push(Ask::Start);
        }
        asks
    }

    /// Returns the machine with which supervise begins, with or without a `down` file, and what it asks for then: its
    /// record, and a start if there is no such file.
    pub fn begin(down_file: bool, label: Label) -> (Machine, Asks)
        ensures machine { result.0 ≡ state_of (Begin down_file label) }
        ensures asks { result.1 ≡ asks_of_begin (Begin down_file label) }
    {
        let machine = Machine {
            phase: if down_file {
                Phase::Down
            } else {
                Phase::Starting
            },
            view: View {
                label,
                pid: 0,
                paused: false,
                want: if down_file { Want::Down } else { Want::Up },
            },
            exiting: false,
            until: None,
        };
        let mut asks = Asks::new();
        asks.push(record_ask(machine.phase, &machine.view, machine.exiting));
        if !down_file {
            asks.push(Ask::Start);
        }
        (machine, asks)
    }

    /// Takes the event, or holds it and does nothing. The table of daemontools' pages on supervise and svc says which.
    ///
    /// The reply and the new state are right for every history that leads to the machine's state.
    pub fn step(&mut self, event: Event) -> Reply
        requires { IsEvent event }
        ensures reply { (past : History) → state_of past ≡ self.old → result ≡ reply_to past event }
        ensures state { (past : History) → state_of past ≡ self.old → self.new ≡ state_of (next past event) }

        // A step writes the record if what the record says may have changed. It writes it once, and with the state
        // after the step.
        ensures unwritten { records_in result ≡ [] → full_in self.new ≡ full_in self.old }
        ensures written { records_in result ≢ [] → records_in result ≡ full_record (full_in self.new) ∷ [] }
        ensures range { IsFull (full_in self.new) }
    {
        // What the record says is valid before and after: `unwritten` needs the first, and `range` is the second.
        let _ = self.full();
        let reply = self.advance(event);
        let _ = self.full();
        reply
    }

    /// Takes the event, or holds it and does nothing.
    fn advance(&mut self, event: Event) -> Reply
        requires { IsEvent event }
        ensures reply { (past : History) → state_of past ≡ self.old → result ≡ reply_to past event }
        ensures state { (past : History) → state_of past ≡ self.old → self.new ≡ state_of (next past event) }
    {
        if !self.takes(&event) {
            return Reply::Held;
        }
        Reply::Took(match event {
            Event::Byte(byte) => self.take_byte(byte),
            Event::Started { pid, label } => self.take_start(pid, label),
            Event::StartFailed { label } => self.take_failure(label),
            Event::Death { label } => self.take_death(label),
            Event::Clock { .. } => self.take_reading(),
        })
    }

    /// Takes each of these events that can be taken, one after another, and holds the others.
    pub fn run(&mut self, events: &[Event])
        requires { AllByRecursion IsEvent events.now }
        ensures { (past : History) → state_of past ≡ self.old → self.new ≡ state_of (after past events.now) }
    {
        for event in events {
            self.step(*event);
        }
    }
}

/// Returns the phase of a service after its process died.
fn phase_after_death(view: &View, exiting: bool) -> Phase
    requires { view.now.pid ≡ 0 }
    ensures phase { result ≡ phase_after_death view.now exiting }
    ensures stands { StandsIn result view.now exiting }
{
    if exiting {
        Phase::Gone
    } else if view.want == Want::Up {
        Phase::Starting
    } else {
        Phase::Down
    }
}

/// Returns the phase of a service after it settled or rested.
fn phase_after_pause(phase: Phase, view: &View, exiting: bool) -> Phase
    requires pauses { (phase ≡ Phase.Settling) ⊎ (phase ≡ Phase.Resting) }
    requires stands { StandsIn phase view.now exiting }
    ensures phase { result ≡ phase_after_pause phase view.now }
    ensures stands { StandsIn result view.now exiting }
{
    if phase == Phase::Settling {
        Phase::Up
    } else if view.want == Want::Up {
        Phase::Starting
    } else {
        Phase::Down
    }
}

/// Asks to write the status record of these parts.
fn record_ask(phase: Phase, view: &View, exiting: bool) -> Ask
    requires { StandsIn phase view.now exiting }
    ensures { result ≡ Ask.Write (full_record (full_with view.now phase exiting)) }
{
    Ask::Write(encode_full(&Full {
        view: *view,
        phase,
        exiting,
    }))
}

/// Returns whether a machine can have these parts.
fn can_stand(phase: Phase, view: &View, exiting: bool, until: &Option<Label>) -> bool
    ensures { IsTrue result ↔
        IsState (record { phase = phase; status = view.now; exiting = exiting; until = until.now }) }
{
    Full::new(*view, phase, exiting).is_some() && can_wait(phase, view, until)
}

/// Returns whether a machine can settle or rest until then.
fn can_wait(phase: Phase, view: &View, until: &Option<Label>) -> bool
    ensures { IsTrue result ↔ WaitsUntil phase view.now until.now }
{
    match phase {
        Phase::Settling => *until == Some(view.label.plus_second()),
        Phase::Resting => until.is_some_and(|until| until.sec >= 1),
        _ => until.is_none(),
    }
}
