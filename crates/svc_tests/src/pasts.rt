//! What a world was asked in a run of turns, compared with what the written table asks for.
ghost use Rattle.std.specs.Prelude.{◌≡◌, ◌≤◌, ◌++◌, [], Some, IfSome};
ghost use Rattle.svc_house.specs.Calls.{answers_in, outcomes_in};
ghost use Rattle.svc_house.specs.Pending.{events_in};
ghost use Rattle.svc_tests.specs.Asked.{IsAskedSo, taken_by};

use crate::house::at;
use crate::script::Script;
use crate::station::{end_two, two_of};
use std::alloc::Global;
use std::process::Abort;
use std::sync::Wait;
use std::test::Fail;
use sup_core::{Event, Machine};
use svc_house::{Call, House, HouseFault, Inbox, OpenGate, Pending, StartAnswer, Turned};
use svc_station::station::Station;
use tai_status::Label;

/// An inbox of two control bytes.
#[derive(Drop)]
struct TwoLetters {
    bytes: [u8; 2],
    count: usize,
    nones: u64,
    ghost within: { count ≤ 2 },
}

impl Inbox for TwoLetters {
    ghost use Rattle.std.specs.Prelude.{take};

    ghost given = { λ inbox. take inbox.count inbox.bytes };

    ghost nones = { λ inbox. inbox.nones };

    fn take<R: Wait>(&mut self, _rt: &R) -> Option<u8> {
        if self.count < 2 {
            let byte = self.bytes[self.count];
            self.count += 1;
            return Some(byte);
        }
        self.nones = self.nones.saturating_add(1);
        None
    }
}

/// Notes the event that a turn took.
fn note<R: Abort>(rt: &R, events: &mut Vec<Event>, turned: &Result<Turned, HouseFault>)
    ensures { events.new.items ≡ events.old.items ++ taken_by turned.now }
{
    if let Ok(Turned::Took(event)) = turned {
        events.push(*event).expect(rt, "memory");
    }
}

/// A world that was called, the events that were published, and what was found and is not published yet.
#[derive(Drop)]
struct Ran {
    world: Script,
    events: Vec<Event>,
    pending: Pending,
}

/// Makes this many turns of a service that begins. Its world is asked what the written table asks for at the beginning
/// and at the published events, in order, and nothing else. The starts and deaths that it returned are the published
/// ones, and then a pending one.
fn run<R: Wait + Abort>(
    rt: &R,
    alloc: Global,
    down: bool,
    label: Label,
    world: Script,
    bytes: [u8; 2],
    turns: u64,
) -> Option<Ran>
    requires { world ≡ Some [] }
    ensures asks { IfSome result (λ ran. IsAskedSo down label ran.events.items ran.world) }
    ensures answers { IfSome result (λ ran. IfSome ran.world (λ calls.
        answers_in calls ≡ outcomes_in (ran.events.items ++ events_in ran.pending))) }
{
    let (machine, asks) = Machine::begin(down, label);
    let Ok((writer, readers)) = Station::open(rt, alloc, machine, 16, 2) else {
        return None;
    };
    let (reader, other, readers) = two_of(readers, &writer);
    let inbox = TwoLetters {
        bytes,
        count: 0,
        nones: 0,
    };
    let mut house = House::open(world, inbox, OpenGate, writer, asks);
    let mut events = Vec::new(alloc);
    for _ in 0..turns {
        let turned = house.turn(rt);
        note(rt, &mut events, &turned);
    }
    let (world, _inbox, writer, pending) = house.take_apart();
    end_two(rt, writer, reader, other, readers);
    Some(Ran {
        world,
        events,
        pending,
    })
}

// Returns whether these calls, in order, are those that are no asks.
fn are_polls(calls: &[Call], wanted: &[Call]) -> bool {
    let mut count = 0;
    for call in calls {
        match call {
            Call::Requested(_) => {}
            poll => match wanted.get(count) {
                Some(other) if poll == other => count += 1,
                _ => return false,
            },
        }
    }
    count == wanted.len()
}

/// A service starts, gets `d` and then, as it dies, `u`, and starts again: there are eleven asks, and polls between
/// them.
#[test]
fn a_world_is_asked_what_the_table_asks(rt: HostRuntime) -> Result<(), Fail> {
    let (begun, first, read) = (at(0)?, at(1)?, at(2)?);
    let (died, second) = (at(3)?, at(4)?);
    let starts = [
        Some(StartAnswer::Started {
            pid: 7,
            label: first,
        }),
        Some(StartAnswer::Started {
            pid: 8,
            label: second,
        }),
    ];
    let world = Script::new(starts, [None, Some(died)], read);
    let ran = run(&rt, rt.alloc(), false, begun, world, *b"du", 7).ok_or("no memory")?;
    let calls = ran.world.calls().ok_or("no room")?;
    let polls = [
        Call::Answered(Event::Started {
            pid: 7,
            label: first,
        }),
        Call::Read(read),
        Call::NoDeath,
        Call::Answered(Event::Death { label: died }),
        Call::Answered(Event::Started {
            pid: 8,
            label: second,
        }),
        Call::Read(read),
    ];
    assert!(rt; are_polls(calls, &polls));
    assert_eq!(rt; calls.len(), 17);
    let events = [
        Event::Started {
            pid: 7,
            label: first,
        },
        Event::Clock { label: read },
        Event::Byte(b'd'),
        Event::Byte(b'u'),
        Event::Death { label: died },
        Event::Started {
            pid: 8,
            label: second,
        },
    ];
    assert_eq!(rt; ran.events.as_slice(), events.as_slice());
    assert_eq!(rt; ran.pending, Pending::Empty);
    Ok(())
}
