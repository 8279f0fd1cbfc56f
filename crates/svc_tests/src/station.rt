ghost use Rattle.std.specs.Prelude.{◌≡◌, [], length};
ghost use mathlib.Core.List.{IsPrefix};
ghost use Rattle.svc_station.specs.Ends.{AreNewReaders, IsNewReader, IsSameReader, IsSameWriter};
ghost use Rattle.svc_station.specs.Ends.{known_to, number_of, published, reader_station, station};
ghost use Rattle.svc_station.specs.Parking.{GoesOn, writer_in};

use std::alloc::Global;
use std::process::Abort;
use std::sync::Wait;
use std::thread;
use std::thread::Threads;
use sup_core::{Event, Machine, Phase, Reply, answer_text};
use svc_station::audit::was_published;
use svc_station::parked::{Parked, SameStation};
use svc_station::reader::Reader;
use svc_station::station::Station;
use svc_station::writer::Writer;
use tai_status::{Label, View, Want};
use test_base::Scarce;

// Returns the two readers of a station that was just opened, and the vector that held them.
pub(crate) fn two_of(mut readers: Vec<Reader>, writer: &Writer) -> (Reader, Reader, Vec<Reader>)
    requires { (length readers.items ≡ 2) × AreNewReaders (station writer.now) readers.items }
    ensures first { IsNewReader (station writer.now) 0 result.0 }
    ensures second { IsNewReader (station writer.now) 1 result.1 }
    ensures room { result.2.items ≡ [] }
{
    let second = readers.pop().unwrap();
    let first = readers.pop().unwrap();
    (first, second, readers)
}

// Ends a station with two readers, in the vector that held them.
pub(crate) fn end_two<R: Wait + Abort>(
    rt: &R,
    writer: Writer,
    first: Reader,
    second: Reader,
    mut room: Vec<Reader>,
)
    requires count { (station writer).readers ≡ 2 }
    requires first { (reader_station first ≡ station writer) × (number_of first ≡ 0) }
    requires second { (reader_station second ≡ station writer) × (number_of second ≡ 1) }
    requires room { room.items ≡ [] }
{
    room.push(first).expect(rt, "room");
    room.push(second).expect(rt, "room");
    writer.end(rt, room);
}

// Returns what a reader reads: the status, and how many events were published, if there is memory for the trace. It
// takes no `Wait`.
fn read(reader: &mut Reader, alloc: Global) -> (View, Option<u64>)
    ensures { IsSameReader reader.old reader.new }
{
    let count = match reader.trace(alloc) {
        Ok(text) => Some(text.folded() + text.entries().len() as u64),
        Err(_refused) => None,
    };
    (reader.status(), count)
}

// Checks that what a reader knows begins what was published, which is all that was added.
fn begins_what_was_published<R: Abort>(rt: &R, reader: &Reader, writer: &mut Writer)
    requires { reader_station reader.now ≡ station writer.old }
    ensures begins { IsPrefix (known_to reader.now) (published writer.old) }
    ensures same { IsSameWriter writer.old writer.new }
{
    assert!(rt; writer.is_whole());
    was_published(reader, writer);
}

// Refuses each growth of a trace in turn. What was read before is read again.
fn trace_growth_by_growth<R: Abort>(rt: &R, alloc: Global, reader: &mut Reader)
    ensures { IsSameReader reader.old reader.new }
{
    let memory = Scarce::new(alloc);
    for growths in 0..400u64 {
        memory.give(growths);
        let is_refused = reader.trace(&memory).is_err();
        assert_eq!(rt; is_refused, memory.lift());
        if !is_refused {
            assert!(rt; growths > 0);
            return;
        }
    }
    rt.panic("it never has enough");
}

/// Only opening and traces take memory, and publishing succeeds without memory.
#[test]
fn readers_read_what_was_published(rt: HostRuntime) {
    let label = Label::from_unix(0, 0).expect(&rt, "a label");
    let (machine, _asks) = Machine::begin(true, label);
    if let Ok(_opened) = Station::open(&rt, rt.alloc(), machine, 4, usize::MAX) {
        rt.panic("more readers than there are places for");
    }
    let (mut writer, readers) = Station::open(&rt, rt.alloc(), machine, 4, 2).expect(&rt, "memory");
    let (mut first, mut second, room) = two_of(readers, &writer);
    let taken = writer.publish(&rt, Event::Byte(b'u')).expect(&rt, "room");
    let text = answer_text(&taken, writer.machine().phase());
    let wanted = "took record:400000000000000a000000000000000000750000 start -> starting";
    assert_eq!(rt; text.as_str(), wanted);
    first.learn(writer.tell());
    let held = writer.publish(&rt, Event::Byte(b'u')).expect(&rt, "room");
    assert!(rt; matches!(&held, Reply::Held));
    trace_growth_by_growth(&rt, rt.alloc(), &mut first);
    // The second reader learnt no note.
    for (view, count) in [read(&mut first, rt.alloc()), read(&mut second, rt.alloc())] {
        let shown = (view.label, view.pid, view.paused, view.want);
        assert_eq!(rt; shown, (label, 0, false, Want::Up));
        assert_eq!(rt; count, Some(1));
    }
    begins_what_was_published(&rt, &first, &mut writer);
    begins_what_was_published(&rt, &second, &mut writer);
    end_two(&rt, writer, first, second, room);
}

// Returns a machine for a service that is up.
fn machine_up(label: Label) -> Machine {
    let (mut machine, _asks) = Machine::begin(false, label);
    machine.step(Event::Started { pid: 4711, label });
    machine.step(Event::Clock {
        label: label.plus_second(),
    });
    machine
}

// Publishes a byte.
fn publish_byte<R: Wait + Abort>(rt: &R, writer: &mut Writer, byte: u8)
    ensures { GoesOn writer.old writer.new }
{
    writer.publish(rt, Event::Byte(byte)).expect(rt, "room");
}

// Publishes the bytes `p` and `c` in turn.
fn publish_turns<R: Wait + Abort + Copy + Drop>(rt: R, parked: Parked<R>, turns: u64) -> Parked<R>
    ensures { GoesOn (writer_in parked) (writer_in result) }
{
    let mut writer = parked.into_writer();
    for _turn in 0..turns {
        publish_byte(&rt, &mut writer, b'p');
        publish_byte(&rt, &mut writer, b'c');
    }
    Parked::new(writer, rt)
}

// Reads until this many events were published. Returns whether the count never fell.
fn watch<R: Wait + Abort>(rt: &R, alloc: Global, reader: &mut Reader, all: u64) -> bool
    ensures { IsSameReader reader.old reader.new }
{
    let mut last = 0;
    for _ in rt.forever() {
        let count = read(reader, alloc).1.expect(rt, "memory");
        if count < last || count >= all {
            return last <= count;
        }
        last = count;
    }
    unreachable!()
}

// A thread publishes while this one reads, and gives the writer back.
fn publish_beside<R: Threads + Wait + Abort + Copy + Drop + Send + 'static>(
    rt: R,
    alloc: Global,
    writer: Writer,
    reader: &mut Reader,
    turns: u64,
) -> (Writer, bool)
    requires { reader_station reader.old ≡ station writer }
    ensures writer { GoesOn writer result.0 }
    ensures reader { IsSameReader reader.old reader.new }
{
    let parked = Parked::new(writer, rt);
    let spawned = thread::spawn_with(
        &rt,
        SameStation::of(&parked),
        move || -> Parked<R>
            ensures { GoesOn (writer_in parked) (writer_in result) }
        { publish_turns(rt, parked, turns) },
    );
    match spawned {
        Ok(handle) => {
            let rose = watch(&rt, alloc, reader, turns.saturating_mul(2));
            (handle.join(&rt).into_writer(), rose)
        }
        Err(refused) => ((refused.value)().into_writer(), true),
    }
}

/// Measured on one core each, over 100,000 calls, when a publication exchanged its book's word once and not twice. It
/// took 0.5 microseconds with two idle readers, and 1.9 while one of them read without a pause. A status took 0.1
/// microseconds, and 0.35 while the writer published without a pause.
#[test]
fn a_reader_reads_beside_the_thread_that_publishes(rt: HostRuntime) {
    let label = Label::from_unix(0, 0).expect(&rt, "a label");
    let machine = machine_up(label);
    assert!(rt; matches!(machine.phase(), Phase::Up));
    let (writer, readers) = Station::open(&rt, rt.alloc(), machine, 4, 2).expect(&rt, "memory");
    let (mut first, mut second, room) = two_of(readers, &writer);
    let (mut writer, rose) = publish_beside(rt, rt.alloc(), writer, &mut first, 1000);
    assert!(rt; rose);
    begins_what_was_published(&rt, &first, &mut writer);
    first.learn(writer.tell());
    for (_view, count) in [read(&mut first, rt.alloc()), read(&mut second, rt.alloc())] {
        assert_eq!(rt; count, Some(2000));
    }
    end_two(&rt, writer, first, second, room);
}
