//! The order in which a turn looks at the gate, the world and the inbox.

use crate::station::{end_two, two_of as two_readers};
use std::alloc::Global;
use std::process::Abort;
use std::sync::atomic::{AtomicU64, Ordering};
use std::sync::{Arc, Wait};
use std::test::Fail;
use std::time::Duration;
use sup_core::{Machine, Sig};
use svc_house::{Gate, House, Inbox, StartAnswer, World};
use svc_station::station::Station;
use tai_status::Label;

// What was looked at so far, in order: a digit for each look.
type Looks = Arc<AtomicU64, Global>;

const GATE: u64 = 1;

const START: u64 = 2;

const DEATH: u64 = 3;

const LETTER: u64 = 4;

fn note(looks: &AtomicU64, digit: u64) {
    let before = looks.load(Ordering::SeqCst);
    let after = before.wrapping_mul(10).wrapping_add(digit);
    looks.store(after, Ordering::SeqCst);
}

// A gate that is open, and notes that it was passed.
#[derive(Drop)]
struct NotedGate {
    looks: Looks,
}

impl Gate for NotedGate {
    fn pass<R: Wait>(&mut self, _rt: &R) {
        note(&self.looks, GATE);
    }
}

// An inbox without letters, which notes each look.
#[derive(Drop)]
struct NotedInbox {
    looks: Looks,
    nones: u64,
}

impl Inbox for NotedInbox {
    ghost use Rattle.std.specs.Prelude.{[]};

    ghost given = { λ _. [] };

    ghost nones = { λ inbox. inbox.nones };

    fn take<R: Wait>(&mut self, _rt: &R) -> Option<u8> {
        note(&self.looks, LETTER);
        self.nones = self.nones.saturating_add(1);
        None
    }
}

// A world with a start that has its result at once and a process that stays alive. It notes each look.
#[derive(Drop)]
struct NotedWorld {
    looks: Looks,
    label: Label,
    clock: Label,
}

impl World for NotedWorld {
    fn signal(&mut self, _sig: Sig, _pid: u32) {}

    fn start(&mut self) {}

    fn write(&mut self, _bytes: &[u8; 20]) {}

    fn poll_start(&mut self) -> Option<StartAnswer> {
        note(&self.looks, START);
        Some(StartAnswer::Started {
            pid: 7,
            label: self.label,
        })
    }

    fn poll_death(&mut self) -> Option<Label> {
        note(&self.looks, DEATH);
        None
    }

    fn clock(&mut self) -> Label {
        self.clock
    }

    fn mend(&mut self) {}

    fn kill_time(&mut self) -> Option<u64> {
        None
    }

    fn longest_rest(&self) -> Option<Duration> {
        None
    }
}

// Returns what the first turns look at, of a service that starts, settles and is up.
fn looks_of_three_turns<R: Wait + Abort>(rt: &R, alloc: Global) -> Option<u64> {
    let looks = Arc::new(alloc, AtomicU64::new(0)).ok()?;
    let world = NotedWorld {
        looks: Arc::try_clone(&looks).ok()?,
        label: Label::from_unix(1, 0)?,
        clock: Label::from_unix(2, 0)?,
    };
    let inbox = NotedInbox {
        looks: Arc::try_clone(&looks).ok()?,
        nones: 0,
    };
    let gate = NotedGate {
        looks: Arc::try_clone(&looks).ok()?,
    };
    let (machine, asks) = Machine::begin(false, Label::from_unix(0, 0)?);
    let Ok((writer, readers)) = Station::open(rt, alloc, machine, 4, 2) else {
        return None;
    };
    let (reader, other, readers) = two_readers(readers, &writer);
    let mut house = House::open(world, inbox, gate, writer, asks);
    let turned = house.turn(rt).is_ok();
    let turned = house.turn(rt).is_ok() && turned;
    let turned = house.turn(rt).is_ok() && turned;
    let (_world, _inbox, writer, _pending) = house.take_apart();
    end_two(rt, writer, reader, other, readers);
    if turned {
        Some(looks.load(Ordering::SeqCst))
    } else {
        None
    }
}

/// The gate is passed before the result of a start is polled, and the world is polled for a death before the inbox for
/// a letter.
#[test]
fn turns_look_in_order(rt: HostRuntime) {
    assert_eq!(rt; looks_of_three_turns(&rt, rt.alloc()), Some(1234));
}
