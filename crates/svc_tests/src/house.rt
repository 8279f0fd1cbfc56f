//! The loop of one service, over worlds with set results.
ghost use Rattle.std.specs.Prelude.{◌≡◌, [], Some, IfOk, IfErr};
ghost use Rattle.tai_status.specs.declared.phase.Phase.{Phase};
ghost use Rattle.sup_core.specs.History.{phase_of};
ghost use Rattle.svc_mail.specs.Ends.{AreAllSenders, box_of, home, number_of, senders_in};
ghost use Rattle.svc_station.specs.Ends.{IsSameReader, history_of, reader_station, station};

use crate::mail::two_of as two_senders;
use crate::script::Script;
use crate::station::{end_two, two_of as two_readers};
use std::alloc::{Allocator, Global};
use std::process::Abort;
use std::sync::Wait;
use std::test::Fail;
use sup_core::{Ask, Asks, Event, Machine, Phase, took_text};
use svc_house::{
    Call, House, HouseFault, MailInbox, NotWound, OpenGate, Pending, StartAnswer, Turned,
    WindFault, last_reading,
};
use svc_mail::letter::Letter;
use svc_mail::letters::Letters;
use svc_mail::mailbox::Mailbox;
use svc_mail::sender::Sender;
use svc_station::reader::Reader;
use svc_station::station::Station;
use svc_station::writer::Writer;
use tai_status::{Label, View, Want};
use test_base::Scarce;

// A service with a mailbox of two senders, and with a station of two readers.
struct Stage<A: Allocator + Clone> {
    house: House<Script, MailInbox<A>, OpenGate>,
    mailbox: Mailbox<u8, A>,
    first: Sender<u8, A>,
    second: Sender<u8, A>,
    senders: Vec<Sender<u8, A>, A>,
    reader: Reader,
    other: Reader,
    readers: Vec<Reader>,
    ghost source: { house.source ≡ Some (box_of mailbox, senders_in mailbox) },
    ghost two: { senders_in mailbox ≡ 2 },
    ghost first_is: { (home first ≡ box_of mailbox) × (number_of first ≡ 0) },
    ghost second_is: { (home second ≡ box_of mailbox) × (number_of second ≡ 1) },
    ghost no_senders: { senders.items ≡ [] },
    ghost two_readers: { house.station.readers ≡ 2 },
    ghost reader_is: { (reader_station reader ≡ house.station) × (reader.number ≡ 0) },
    ghost other_is: { (reader_station other ≡ house.station) × (other.number ≡ 1) },
    ghost no_readers: { readers.items ≡ [] },
}

impl<A: Allocator + Clone> Stage<A> {
    // Opens a service. The mailbox takes its memory from an allocator of its own.
    fn open<R: Wait>(rt: &R, alloc: Global, own: A, down: bool, script: Script) -> Option<Stage<A>>
        requires { script ≡ Some [] }
    {
        let label = Label::from_unix(0, 0)?;
        let (machine, asks) = Machine::begin(down, label);
        let Ok((mailbox, senders, receiver)) = Mailbox::open(own, 4, 2) else {
            return None;
        };
        let (first, second, senders) = two_senders(senders, 4, &mailbox);
        let Ok((writer, readers)) = Station::open(rt, alloc, machine, 256, 2) else {
            return None;
        };
        let (reader, other, readers) = two_readers(readers, &writer);
        let house = House::open(script, MailInbox::new(receiver), OpenGate, writer, asks);
        Some(Stage {
            house,
            mailbox,
            first,
            second,
            senders,
            reader,
            other,
            readers,
        })
    }

    fn turn<R: Wait>(&mut self, rt: &R) -> Result<Turned, HouseFault> {
        self.house.turn(rt)
    }

    // Returns whether the byte was posted.
    fn post<R: Wait>(&mut self, rt: &R, byte: u8) -> bool {
        self.first.post(rt, byte).is_ok()
    }

    fn post_second<R: Wait>(&mut self, rt: &R, byte: u8) -> bool {
        self.second.post(rt, byte).is_ok()
    }

    // Winds it up twice.
    fn wind_up<R: Wait + Abort>(
        self,
        rt: &R,
        alloc: Global,
        limited: Option<&Scarce<Global>>,
    ) -> Option<Wound<A>> {
        let Stage {
            house,
            mailbox,
            first,
            second,
            mut senders,
            mut reader,
            other,
            readers,
        } = self;
        senders.push(first).expect(rt, "room");
        senders.push(second).expect(rt, "room");
        let (writer, wound) = wind_up_twice(
            rt,
            alloc,
            limited,
            house,
            mailbox,
            senders,
            &mut reader,
        );
        end_two(rt, writer, reader, other, readers);
        wound
    }

    // Returns the world, what was pending, and what a reader reads after it learnt the writer's note: the status, and
    // how many events there were.
    fn end<R: Wait + Abort>(self, rt: &R, alloc: Global) -> (Script, Pending, View, Option<u64>) {
        let Stage {
            house,
            mailbox: _mailbox,
            first: _first,
            second: _second,
            senders: _senders,
            mut reader,
            other,
            readers,
        } = self;
        let (world, _inbox, mut writer, pending) = house.take_apart();
        reader.learn(writer.tell());
        let count = match reader.trace(alloc) {
            Ok(text) => Some(text.folded() + text.entries().len() as u64),
            Err(_refused) => None,
        };
        let view = reader.status();
        end_two(rt, writer, reader, other, readers);
        (world, pending, view, count)
    }
}

// What was tried with a service that is wound up after two turns, and the results.
#[derive(Drop)]
struct Wound<A: Allocator> {
    early: WindFault,
    turns: [Result<Turned, HouseFault>; 2],
    refused: bool,
    letters: Vec<Letter<u8>, A>,
    machine: Machine,
    entries: usize,
}

// Winds up a service that is gone. If there was no memory, it lifts the limit, and winds up what came back.
fn wind_up_gone<A: Allocator + Clone, R: Wait>(
    rt: &R,
    limited: Option<&Scarce<Global>>,
    house: House<Script, MailInbox<A>, OpenGate>,
    mailbox: Mailbox<u8, A>,
    senders: Vec<Sender<u8, A>, A>,
) -> (
    bool,
    Result<(Script, Writer, Letters<u8, A>), NotWound<Script, OpenGate, A>>,
)
    requires receiver { house.source ≡ Some (box_of mailbox, senders_in mailbox) }
    requires senders { AreAllSenders mailbox senders.items }
    ensures station { IfOk result.1 (λ wound. station wound.1 ≡ house.station) }
    ensures gone { IfOk result.1 (λ wound. phase_of (history_of wound.1) ≡ Phase.Gone) }
    ensures back { IfErr result.1 (λ back. back.house.station ≡ house.station) }
{
    match house.wind_up(rt, mailbox, senders) {
        Ok(wound) => (false, Ok(wound)),
        Err(
            NotWound {
                why: _,
                house,
                mailbox,
                senders,
            },
        ) => {
            if let Some(memory) = limited {
                let _refused = memory.lift();
            }
            (true, house.wind_up(rt, mailbox, senders))
        }
    }
}

// Winds up a service, which is refused, and again after two turns. The reader reads what is left of the service.
fn wind_up_twice<A: Allocator + Clone, R: Wait>(
    rt: &R,
    alloc: Global,
    limited: Option<&Scarce<Global>>,
    house: House<Script, MailInbox<A>, OpenGate>,
    mailbox: Mailbox<u8, A>,
    senders: Vec<Sender<u8, A>, A>,
    reader: &mut Reader,
) -> (Writer, Option<Wound<A>>)
    requires receiver { house.source ≡ Some (box_of mailbox, senders_in mailbox) }
    requires senders { AreAllSenders mailbox senders.items }
    requires reader { reader_station reader.old ≡ house.station }
    ensures station { station result.0 ≡ house.station }
    ensures reader { IsSameReader reader.old reader.new }
{
    let (early, mut house, mailbox, senders) = match house.wind_up(rt, mailbox, senders) {
        Ok((_world, writer, _letters)) => return (writer, None),
        Err(
            NotWound {
                why,
                house,
                mailbox,
                senders,
            },
        ) => (why, house, mailbox, senders),
    };
    let turns = [house.turn(rt), house.turn(rt)];
    let (refused, tried) = wind_up_gone(rt, limited, house, mailbox, senders);
    match tried {
        Ok((_world, mut writer, letters)) => {
            let note = writer.tell();
            match last_reading(alloc, reader, note) {
                Ok((machine, trace)) => {
                    let wound = Wound {
                        early,
                        turns,
                        refused,
                        letters: letters.into_vec(),
                        machine,
                        entries: trace.entries().len(),
                    };
                    (writer, Some(wound))
                }
                Err(_refused) => (writer, None),
            }
        }
        Err(
            NotWound {
                why: _,
                house,
                mailbox: _mailbox,
                senders: _senders,
            },
        ) => {
            let (_world, _inbox, writer, _pending) = house.take_apart();
            (writer, None)
        }
    }
}

// Returns the label of a Unix second.
pub(crate) fn at(second: u64) -> Result<Label, Fail> {
    Ok(Label::from_unix(second, 0).ok_or("a small second has a label")?)
}

// Returns whether the ask is this one, as `sim` writes it.
fn is_ask(ask: Ask, wanted: &str) -> bool {
    let mut one = Asks::new();
    one.try_push(ask);
    took_text(&one, Phase::Down).as_str() == wanted
}

// Returns whether these are the asks among calls that were kept, each as `sim` writes it.
fn are_asks(calls: Option<&[Call]>, wanted: &[&str]) -> bool {
    let Some(calls) = calls else {
        return false;
    };
    let mut count = 0;
    for call in calls {
        if let Call::Requested(ask) = call {
            match wanted.get(count) {
                Some(text) if is_ask(*ask, text) => count += 1,
                _ => return false,
            }
        }
    }
    count == wanted.len()
}

// Returns whether the turns are these.
fn are_turns<A: Allocator + Clone, R: Wait>(
    rt: &R,
    stage: &mut Stage<A>,
    wanted: &[Turned],
) -> bool {
    for turned in wanted {
        match stage.turn(rt) {
            Ok(found) if found == *turned => {}
            _ => return false,
        }
    }
    true
}

/// The stored run, turn by turn.
#[test]
fn a_service_from_its_start_to_its_death(rt: HostRuntime) -> Result<(), Fail> {
    let (l1, l2, l3) = (at(1)?, at(2)?, at(3)?);
    let pid = 4711;
    let script = Script::new(
        [Some(StartAnswer::Started { pid, label: l1 }), None],
        [None, Some(l3)],
        l2,
    );
    let mut stage = Stage::open(&rt, rt.alloc(), rt.alloc(), false, script).ok_or("no memory")?;
    assert!(rt; stage.post(&rt, b'd'));
    let wanted = [
        Turned::Took(Event::Started { pid, label: l1 }),
        Turned::Took(Event::Clock { label: l2 }),
        Turned::Took(Event::Byte(b'd')),
        Turned::Took(Event::Death { label: l3 }),
        Turned::Idle,
    ];
    assert!(rt; are_turns(&rt, &mut stage, &wanted));
    let (world, pending, view, count) = stage.end(&rt, rt.alloc());
    assert_eq!(rt; pending, Pending::Empty);
    assert_eq!(rt;
        (view.label, view.pid, view.want, count),
        (l3, 0, Want::Down, Some(4))
    );
    let reported = [
        "took record:400000000000000a000000000000000000750000 -> down",
        "took start -> down",
        "took record:400000000000000b000000006712000000750001 -> down",
        "took record:400000000000000b000000006712000000750003 -> down",
        "took TERM:4711 -> down",
        "took CONT:4711 -> down",
        "took record:400000000000000b000000006712000000640003 -> down",
        "took record:400000000000000d000000000000000000640004 -> down",
    ];
    assert!(rt; are_asks(world.calls(), &reported));
    Ok(())
}

/// A service that dies at once still gets the letter that was posted before its first turn.
#[test]
fn a_letter_goes_before_a_death(rt: HostRuntime) -> Result<(), Fail> {
    let (l1, l2, l3, l4) = (at(1)?, at(2)?, at(3)?, at(4)?);
    let first = StartAnswer::Started { pid: 7, label: l1 };
    let second = StartAnswer::Started { pid: 8, label: l4 };
    let script = Script::new([Some(first), Some(second)], [Some(l3), None], l2);
    let mut stage = Stage::open(&rt, rt.alloc(), rt.alloc(), false, script).ok_or("no memory")?;
    assert!(rt; stage.post(&rt, b'd'));
    let wanted = [
        Turned::Took(Event::Started { pid: 7, label: l1 }),
        Turned::Took(Event::Clock { label: l2 }),
        Turned::Took(Event::Byte(b'd')),
    ];
    assert!(rt; are_turns(&rt, &mut stage, &wanted));
    let (_world, pending, view, _count) = stage.end(&rt, rt.alloc());
    assert_eq!(rt; pending, Pending::One(Event::Death { label: l3 }));
    assert_eq!(rt; (view.pid, view.want), (7, Want::Down));
    let script = Script::new([Some(first), Some(second)], [Some(l3), None], l2);
    let mut stage = Stage::open(&rt, rt.alloc(), rt.alloc(), false, script).ok_or("no memory")?;
    assert!(rt; stage.post(&rt, b'd'));
    assert!(rt; are_turns(&rt, &mut stage, &wanted));
    assert_eq!(rt;
        stage.turn(&rt),
        Ok(Turned::Took(Event::Death { label: l3 }))
    );
    assert_eq!(rt; stage.turn(&rt), Ok(Turned::Idle));
    let (_world, _pending, view, count) = stage.end(&rt, rt.alloc());
    assert_eq!(rt; (view.pid, view.want, count), (0, Want::Down, Some(4)));
    Ok(())
}

/// A start that fails is asked for again after the rest.
#[test]
fn a_start_that_fails_comes_again(rt: HostRuntime) -> Result<(), Fail> {
    let (l1, l2) = (at(1)?, at(2)?);
    let failed = StartAnswer::Failed { label: l1 };
    let started = StartAnswer::Started { pid: 7, label: l2 };
    let script = Script::new([Some(failed), Some(started)], [None, None], l2);
    let mut stage = Stage::open(&rt, rt.alloc(), rt.alloc(), false, script).ok_or("no memory")?;
    let wanted = [
        Turned::Took(Event::StartFailed { label: l1 }),
        Turned::Took(Event::Clock { label: l2 }),
        Turned::Took(Event::Started { pid: 7, label: l2 }),
        Turned::Idle,
    ];
    assert!(rt; are_turns(&rt, &mut stage, &wanted));
    let (world, _pending, view, count) = stage.end(&rt, rt.alloc());
    assert_eq!(rt; (view.pid, view.want, count), (7, Want::Up, Some(3)));
    let reported = [
        "took record:400000000000000a000000000000000000750000 -> down",
        "took start -> down",
        "took record:400000000000000a000000000000000000750002 -> down",
        "took record:400000000000000a000000000000000000750000 -> down",
        "took start -> down",
        "took record:400000000000000c000000000700000000750001 -> down",
    ];
    assert!(rt; are_asks(world.calls(), &reported));
    Ok(())
}

/// A service that is taken apart has published its events.
#[test]
fn a_service_is_taken_apart(rt: HostRuntime) -> Result<(), Fail> {
    let script = Script::new([None, None], [None, None], at(0)?);
    let mut stage = Stage::open(&rt, rt.alloc(), rt.alloc(), true, script).ok_or("no memory")?;
    assert!(rt; stage.post(&rt, b'u'));
    assert_eq!(rt; stage.turn(&rt), Ok(Turned::Took(Event::Byte(b'u'))));
    let (_world, pending, view, count) = stage.end(&rt, rt.alloc());
    assert_eq!(rt; pending, Pending::Empty);
    assert_eq!(rt; (view.pid, view.want, count), (0, Want::Up, Some(1)));
    Ok(())
}

/// The letters of a service that is gone come out of its mailbox, and its last reading is of its whole history.
#[test]
fn a_service_is_wound_up(rt: HostRuntime) -> Result<(), Fail> {
    let script = Script::new([None, None], [None, None], at(0)?);
    let mut stage = Stage::open(&rt, rt.alloc(), rt.alloc(), true, script).ok_or("no memory")?;
    assert!(rt; stage.post(&rt, b'x'));
    assert!(rt; stage.post_second(&rt, b'd'));
    assert!(rt; stage.post(&rt, b'u'));
    let Some(wound) = stage.wind_up(&rt, rt.alloc(), None) else {
        return Err(Fail::from("not wound up"));
    };
    assert_eq!(rt; wound.early, WindFault::Running);
    assert_eq!(rt;
        wound.turns,
        [Ok(Turned::Took(Event::Byte(b'x'))), Ok(Turned::Ended)]
    );
    let left = [(1, 0, b'd'), (0, 1, b'u')].map(|(sender, place, item)| Letter {
        sender,
        place,
        item,
    });
    assert_eq!(rt; wound.letters.as_slice(), left.as_slice());
    let view = wound.machine.view();
    assert_eq!(rt;
        (wound.machine.phase(), view.pid, view.want),
        (Phase::Gone, 0, Want::Down)
    );
    assert_eq!(rt; wound.entries, 1);
    Ok(())
}

/// If there is no memory for the letters that are left, all parts come back, and can be wound up when there is memory.
#[test]
fn a_winding_up_is_refused_and_made_again(rt: HostRuntime) -> Result<(), Fail> {
    for growths in 0..400u64 {
        let memory = Scarce::new(rt.alloc());
        let script = Script::new([None, None], [None, None], at(0)?);
        let mut stage = Stage::open(&rt, rt.alloc(), &memory, true, script).ok_or("no memory")?;
        assert!(rt; stage.post(&rt, b'x'));
        assert!(rt; stage.post(&rt, b'u'));
        memory.give(growths);
        let Some(wound) = stage.wind_up(&rt, rt.alloc(), Some(&memory)) else {
            return Err(Fail::from("not wound up"));
        };
        assert_eq!(rt; wound.refused, memory.lift());
        assert_eq!(rt; wound.early, WindFault::Running);
        let left = [Letter {
            sender: 0,
            place: 1,
            item: b'u',
        }];
        assert_eq!(rt; wound.letters.as_slice(), left.as_slice());
        assert_eq!(rt; wound.machine.phase(), Phase::Gone);
        if !wound.refused {
            assert!(rt; growths > 0);
            return Ok(());
        }
    }
    Err(Fail::from("it never has enough"))
}
