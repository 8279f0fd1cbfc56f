//! A world with set results, which keeps its calls.
ghost use Rattle.std.specs.Prelude.{◌≡◌, ◌∷◌, [], IfSome};
ghost use Rattle.svc_house.specs.Calls.{IsAnswer, death_poll, start_poll};

use std::marker::Model;
use std::time::Duration;
use sup_core::{Ask, Event, Sig};
use svc_house::{Call, StartAnswer, World};
use tai_status::Label;

/// The most calls that a world keeps.
const MOST_CALLS: usize = 40;

// A world with set results, one for each poll. It keeps its calls as long as there is room. Contracts see them.
#[derive(Drop)]
pub(crate) struct Script {
    starts: [Option<StartAnswer>; 2],
    deaths: [Option<Label>; 2],
    clock: Label,
    start_polls: usize,
    death_polls: usize,
    calls: [Call; MOST_CALLS],
    count: usize,
    is_lost: bool,
}

impl Model for Script {
    ghost use Rattle.std.specs.Prelude.{◌≤◌, List, Option, take};
    ghost use Rattle.svc_house.specs.declared.call.Call.{Call};
    ghost use Rattle.svc_house.specs.Calls.{unless};

    ghost Value = { Option (List Call) };

    ghost view = { λ script. unless script.is_lost (take script.count script.calls) };

    ghost invariant = { λ script. script.count ≤ 40 };
}

impl Script {
    ghost use Rattle.std.specs.Prelude.{◌≡◌, ◌∷◌, [], Some, option_copied};
    ghost use Rattle.svc_house.specs.Calls.{ExtendedWhileKept};

    // Returns a world that was not called yet.
    pub(crate) fn new(
        starts: [Option<StartAnswer>; 2],
        deaths: [Option<Label>; 2],
        clock: Label,
    ) -> Script
        ensures { result ≡ Some [] }
    {
        Script {
            starts,
            deaths,
            clock,
            start_polls: 0,
            death_polls: 0,
            calls: [Call::NoStart; MOST_CALLS],
            count: 0,
            is_lost: false,
        }
    }

    // Returns its calls in order, unless there was no room for one.
    pub(crate) fn calls(&self) -> Option<&[Call]>
        ensures { option_copied result ≡ self.now }
    {
        if self.is_lost {
            None
        } else {
            Some(&self.calls[..self.count])
        }
    }

    fn note(&mut self, call: Call)
        ensures { ExtendedWhileKept self.old self.new (call ∷ []) }
    {
        if self.count < MOST_CALLS {
            self.calls[self.count] = call;
            self.count += 1;
        } else {
            self.is_lost = true;
        }
    }
}

// Returns the next result, if one is left.
fn answer<T: Copy>(answers: &[Option<T>], polls: &mut usize) -> Option<T> {
    let place = *polls;
    *polls = place.saturating_add(1);
    match answers.get(place) {
        Some(answer) => *answer,
        None => None,
    }
}

// Returns the call that polled for the result of a start.
fn start_call(found: &Option<StartAnswer>) -> Call
    ensures { result ≡ start_poll found.now }
{
    match found {
        Some(answer) => Call::Answered(answer.event()),
        None => Call::NoStart,
    }
}

// Returns the call that polled for a death.
fn death_call(found: &Option<Label>) -> Call
    ensures { result ≡ death_poll found.now }
{
    match found {
        Some(label) => Call::Answered(Event::Death { label: *label }),
        None => Call::NoDeath,
    }
}

// Returns that result if it is valid: a start that made a process has its number.
fn lawful(found: Option<StartAnswer>) -> Option<StartAnswer>
    ensures { IfSome result IsAnswer }
{
    match found {
        Some(StartAnswer::Started { pid: 0, label: _ }) | None => None,
        found => found,
    }
}

impl World for Script {
    ghost calls = { λ script. script };

    fn signal(&mut self, sig: Sig, pid: u32) {
        self.note(Call::Requested(Ask::Signal(sig, pid)));
    }

    fn start(&mut self) {
        self.note(Call::Requested(Ask::Start));
    }

    fn write(&mut self, bytes: &[u8; 20]) {
        self.note(Call::Requested(Ask::Write(*bytes)));
    }

    fn poll_start(&mut self) -> Option<StartAnswer> {
        let found = lawful(answer(&self.starts, &mut self.start_polls));
        self.note(start_call(&found));
        found
    }

    fn poll_death(&mut self) -> Option<Label> {
        let found = answer(&self.deaths, &mut self.death_polls);
        self.note(death_call(&found));
        found
    }

    fn clock(&mut self) -> Label {
        let label = self.clock;
        self.note(Call::Read(label));
        label
    }

    fn mend(&mut self) {}

    fn kill_time(&mut self) -> Option<u64> {
        None
    }

    fn longest_rest(&self) -> Option<Duration> {
        None
    }
}
