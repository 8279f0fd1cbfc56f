//! How a service begins.
ghost use Rattle.std.specs.Prelude.{◌≡◌, ◌<◌, ◌⊎◌, false};
ghost use Rattle.tai_status.specs.declared.phase.Phase.{Phase};
ghost use Rattle.sup_core.specs.State.{is_gone};
ghost use Rattle.tai_status.specs.Loading.{status_in};
ghost use Rattle.svc_record.specs.Process.{IsLiving};
ghost use Rattle.svc_record.specs.Opening.{BeginsAlive, adopted, as_recorded, by_want, exiting_in, is_stale, is_want};
ghost use Rattle.svc_record.specs.Opening.{opening_of};
ghost use Rattle.svc_record.specs.Opening.{running, up_since, was_exiting, without_process};
ghost use Rattle.svc_record.specs.declared.opening.Opening.{Opening};

use crate::process::Fate;
use sup_core::{Ask, Asks, Machine};
use tai_status::{Full, Label, Loaded, Phase, View, Want, encode_full};

/// How a service begins.
#[derive(Clone, Copy, Debug, PartialEq, Eq)]
pub enum Opening {
    /// As its row says: with or without its `down` file.
    ByRow,
    /// As with the `down` file, or as without it, whatever its row says.
    Wanted { down: bool },
    /// As an earlier svscan left it.
    AsLeft(Machine),
}

impl Opening {
    ghost use Rattle.std.specs.Prelude.{◌≡◌, false};
    ghost use Rattle.sup_core.specs.History.{state_of};
    ghost use Rattle.sup_core.specs.Rules.{asks_of_begin};
    ghost use Rattle.svc_record.specs.Opening.{BeginsAlive, beginning};
    ghost use Rattle.sup_core.specs.State.{is_gone};

    /// Returns the machine with which a service begins. `down` says whether its row has the `down` file.
    pub fn machine(&self, down: bool, label: Label) -> Machine
        ensures machine { result ≡ state_of (beginning self.now down label) }
        ensures alive { BeginsAlive self.now → is_gone result.phase ≡ false }
    {
        match self {
            Opening::ByRow => Machine::begin(down, label).0,
            Opening::Wanted { down } => Machine::begin(*down, label).0,
            Opening::AsLeft(machine) => *machine,
        }
    }

    /// Returns what the beginning asks for: its record, and a start if it begins up by its row or as wanted. A machine
    /// that was left asks for no start.
    pub fn asks(&self, down: bool, label: Label) -> Asks
        ensures { result ≡ asks_of_begin (beginning self.now down label) }
    {
        match self {
            Opening::ByRow => Machine::begin(down, label).1,
            Opening::Wanted { down } => Machine::begin(*down, label).1,
            Opening::AsLeft(machine) => {
                let mut asks = Asks::new();
                asks.try_push(Ask::Write(encode_full(&machine.full())));
                asks
            }
        }
    }
}

/// Returns the machine in a full record, for a service that has a process or is down.
fn as_recorded(full: &Full) -> Machine
    requires { (0 < full.now.status.pid) ⊎ (full.now.phase ≡ Phase.Down) }
    ensures recorded { result ≡ as_recorded full.now }
    ensures alive { is_gone result.phase ≡ false }
{
    let until = match full.phase {
        Phase::Settling => Some(full.view.label.plus_second()),
        _ => None,
    };
    Machine::of_parts(full.phase, full.view, full.exiting, until).unwrap()
}

/// Returns the machine of a service that is up since its record's label, or since it was found.
fn up(view: View, exiting: bool) -> Machine
    requires { 0 < view.pid }
    ensures up { result ≡ up_since view.label view.pid view.paused view.want exiting }
{
    Machine::of_parts(Phase::Up, view, exiting, None).unwrap()
}

/// Returns the machine in a record that names a process.
fn running(loaded: &Loaded) -> Machine
    requires { 0 < (status_in loaded.now).pid }
    ensures running { result ≡ running loaded.now }
    ensures alive { is_gone result.phase ≡ false }
{
    match loaded {
        Loaded::Old(view) => up(*view, false),
        Loaded::New(full) => as_recorded(full),
    }
}

/// Returns whether supervise was to exit, as far as a record says.
fn exiting_in(loaded: &Loaded) -> bool
    ensures { result ≡ exiting_in loaded.now }
{
    match loaded {
        Loaded::Old(_) => false,
        Loaded::New(full) => full.exiting,
    }
}

/// Returns the machine of the process with this number, which is still alive and was found at this time.
fn adopted(recorded: &Option<Loaded>, pid: u32, found: Label) -> Machine
    requires { 0 < pid }
    ensures adopted { result ≡ adopted recorded.now pid found }
    ensures alive { is_gone result.phase ≡ false }
{
    let (want, exiting) = match recorded {
        Some(loaded) if loaded.view().pid == pid => return running(loaded),
        Some(loaded) => (loaded.view().want, exiting_in(loaded)),
        None => (Want::Up, false),
    };
    let view = View {
        label: found,
        pid,
        paused: false,
        want,
    };
    up(view, exiting)
}

/// Returns how a service without its process begins.
fn without_process(full: &Full) -> Opening
    ensures opening { result ≡ without_process full.now }
    ensures alive { BeginsAlive result }
{
    if full.exiting {
        Opening::ByRow
    } else if full.phase == Phase::Down {
        Opening::AsLeft(as_recorded(full))
    } else {
        Opening::Wanted {
            down: full.view.want != Want::Up,
        }
    }
}

/// Returns whether a status record is stale: the place of the service, which is written first, wants something else, or
/// there is no record.
fn is_stale(record: &Option<Loaded>, want: Want) -> bool
    ensures { result ≡ is_stale record.now want }
{
    match record {
        Some(loaded) => !is_want(loaded.view().want, want),
        None => true,
    }
}

/// Returns whether both are the same.
fn is_want(one: Want, other: Want) -> bool
    ensures { result ≡ is_want one other }
{
    match (one, other) {
        (Want::Up, Want::Up) | (Want::Down, Want::Down) | (Want::Once, Want::Once) => true,
        _ => false,
    }
}

/// Returns whether supervise was to exit, as far as the record that was left says.
fn was_exiting(record: &Option<Loaded>) -> bool
    ensures { result ≡ was_exiting record.now }
{
    match record {
        Some(loaded) => exiting_in(loaded),
        None => false,
    }
}

/// Returns how a service with a stale record begins, if this is wanted.
fn by_want(left: &Left, want: Want) -> Opening
    requires { IsLiving left.now.process }
    ensures opening { result ≡ by_want left.now want }
    ensures alive { BeginsAlive result }
{
    match &left.process {
        Fate::Lives(process) => {
            let view = View {
                label: left.label,
                pid: process.pid,
                paused: false,
                want,
            };
            Opening::AsLeft(up(view, was_exiting(&left.record)))
        }
        Fate::Gone => Opening::Wanted {
            down: !is_want(want, Want::Up),
        },
        Fate::Unknown => Opening::ByRow,
    }
}

/// Returns how a service begins if its record is not stale.
fn by_record(left: &Left) -> Opening
    requires { IsLiving left.now.process }
    ensures opening { result ≡ opening_of left.now.record left.now.process left.now.label }
    ensures alive { BeginsAlive result }
{
    match (&left.process, &left.record) {
        (Fate::Lives(process), record) => {
            Opening::AsLeft(adopted(record, process.pid, left.label))
        }
        (Fate::Gone, Some(Loaded::New(full))) => without_process(full),
        _ => Opening::ByRow,
    }
}

/// What an earlier svscan left of a service.
#[derive(Clone, Copy, Debug, PartialEq, Eq)]
pub struct Left {
    /// Its status record, if that could be read.
    pub record: Option<Loaded>,
    /// What its place wants, if that could be read and is from this boot.
    pub want: Option<Want>,
    /// What became of its process.
    pub process: Fate,
    /// When this was found.
    pub label: Label,
}

impl Left {
    ghost use Rattle.std.specs.Prelude.{◌≡◌};
    ghost use Rattle.svc_record.specs.Process.{IsLiving};
    ghost use Rattle.svc_record.specs.Opening.{BeginsAlive, opening_left};

    /// Returns how the service begins. A record counts only if a process was recorded in this boot. What the place
    /// wants counts more than what the record wants, since the place is written first, even if the record can't be
    /// written.
    ///
    /// | process | record | it begins |
    /// |---|---|---|
    /// | lives | names it | as the record says. |
    /// | lives | names another, or none | up since it was found, wanted as the record says. |
    /// | lives | there is none | up since it was found, wanted up. |
    /// | lives | the place wants something else | up since it was found, wanted as the place says. |
    /// | gone | the place wants something else | up or down, as the place says. |
    /// | gone | exiting or gone | by its row. |
    /// | gone | down | as the record says. |
    /// | gone | any other, wanted up | up. |
    /// | gone | any other, wanted down or once | down. |
    /// | gone | of 18 bytes, or none | by its row. |
    /// | none in this boot | any | by its row. |
    ///
    /// A service never begins as one that is gone.
    pub fn opening(&self) -> Opening
        requires { IsLiving self.now.process }
        ensures opening { result ≡ opening_left self.now }
        ensures alive { BeginsAlive result }
    {
        match self.want {
            Some(want) if is_stale(&self.record, want) => by_want(self, want),
            _ => by_record(self),
        }
    }
}
