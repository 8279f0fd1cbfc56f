use std::alloc::{Allocator, Global};
use std::test::Fail;
use sup_core::{Event, Machine, read_begin, read_event};
use sup_trace::{MAX_CAPACITY, Trace, TraceFaultKind, explain, read_text, replay};
use test_base::{Scarce, check, refuse_in_turn};

/// The text of a trace of capacity 2 after a start, a second, the byte `d` and the death.
const TEXT: &[u8] = b"dtools-trace 1
base 2 up 400000000000000b00000000671200000075 stay -
byte d
death @400000000000000d00000000
end 2
";

/// The explanations of its entries.
const LINES: [&str; 2] = [
    "1 byte d: took TERM:4711 CONT:4711 record:400000000000000b000000006712000000640003 -> up",
    "2 death @400000000000000d00000000: took record:400000000000000d000000000000000000640004 -> down",
];

/// Returns the machine with which supervise begins in the tenth second of TAI.
fn begun() -> Result<Machine, Fail> {
    let (down_file, label) = read_begin(b"begin up @400000000000000a00000000")?;
    Ok(Machine::begin(down_file, label).0)
}

/// Notes a start, a second, the byte `d` and the death.
fn note_all<A: Allocator>(trace: &mut Trace<A>) -> Result<(), Fail> {
    trace.note(read_event(b"started 4711 @400000000000000b00000000")?);
    trace.note(read_event(b"clock @400000000000000c00000000")?);
    trace.note(Event::Byte(b'd'));
    trace.note(read_event(b"death @400000000000000d00000000")?);
    Ok(())
}

/// Makes a trace, and then its text and a copy.
fn keeping(memory: &Scarce<Global>, growths: u64) -> Result<bool, Fail> {
    memory.give(growths);
    let is_refused = Trace::new(memory, 2, begun()?).is_err();
    let no_trace = memory.lift();
    check("a trace", is_refused == no_trace)?;
    let mut trace = Trace::new(memory, 2, begun()?)?;
    note_all(&mut trace)?;
    memory.give(growths);
    let is_refused = trace.write_text(memory).is_err();
    let no_text = memory.lift();
    check("a text", is_refused == no_text)?;
    check("the text", trace.write_text(memory)?.as_slice() == TEXT)?;
    check("the counts", trace.folded() == 2 && trace.count() == 4)?;
    memory.give(growths);
    let is_refused = trace.copy_text(memory).is_err();
    let no_copy = memory.lift();
    check("a copy", is_refused == no_copy)?;
    let copy = trace.copy_text(memory)?;
    let is_same = replay(&copy) == trace.state() && copy.entries().len() == 2;
    check("the copy", is_same)?;
    Ok(no_trace || no_text || no_copy)
}

/// Reads a text, and then writes and explains what it says.
fn reading(memory: &Scarce<Global>, growths: u64) -> Result<bool, Fail> {
    memory.give(growths);
    let fault = read_text(memory, TEXT).err();
    let no_reading = memory.lift();
    check("want of memory", fault.is_some() == no_reading)?;
    if let Some(fault) = fault {
        check("at an entry", fault.line == 3 || fault.line == 4)?;
        check("nothing else", fault.kind == TraceFaultKind::OutOfMemory)?;
    }
    let read = read_text(memory, TEXT)?;
    memory.give(growths);
    let is_refused = explain(memory, &read).is_err();
    let no_lines = memory.lift();
    check("lines", is_refused == no_lines)?;
    let lines = explain(memory, &read)?;
    check("two lines", lines.len() == 2)?;
    for (line, wanted) in lines.as_slice().iter().zip(LINES) {
        check("a line", line.as_str() == wanted)?;
    }
    Ok(no_reading || no_lines)
}

/// After a refused growth the same call has the same result as without one.
#[test]
fn each_growth_of_traces_is_refused_in_turn(rt: HostRuntime) -> Result<(), Fail> {
    refuse_in_turn(rt.alloc(), keeping)?;
    refuse_in_turn(rt.alloc(), reading)
}

/// A ring of one place keeps the last event, and folds all before it.
#[test]
fn a_ring_of_one_keeps_the_last(rt: HostRuntime) -> Result<(), Fail> {
    let mut trace = Trace::new(rt.alloc(), 1, begun()?)?;
    note_all(&mut trace)?;
    assert_eq!(rt; (trace.folded(), trace.len(), trace.count()), (3, 1, 4));
    assert_eq!(rt;
        trace.entry(0),
        Some(read_event(b"death @400000000000000d00000000")?)
    );
    assert_eq!(rt; trace.entry(1), None);
    let text = trace.write_text(rt.alloc())?;
    assert_eq!(rt;
        replay(&read_text(rt.alloc(), text.as_slice())?),
        trace.state()
    );
    Ok(())
}

/// The last 65,536 of 70,000 events are kept, and the 4,464 before them are folded.
#[test]
fn folds_the_oldest_of_many(rt: HostRuntime) -> Result<(), Fail> {
    let (down_file, label) = read_begin(b"begin down @400000000000000a00000000")?;
    let (machine, _asks) = Machine::begin(down_file, label);
    let mut trace = Trace::new(rt.alloc(), MAX_CAPACITY, machine)?;
    for event in 0..70_000_u32 {
        trace.note(Event::Byte(if event == 4464 { b'd' } else { b'h' }));
    }
    assert_eq!(rt; (trace.folded(), trace.len()), (4464, 65_536));
    assert_eq!(rt; trace.entry(0), Some(Event::Byte(b'd')));
    assert_eq!(rt; trace.entry(1), Some(Event::Byte(b'h')));
    let text = trace.write_text(rt.alloc())?;
    assert_eq!(rt;
        replay(&read_text(rt.alloc(), text.as_slice())?),
        trace.state()
    );
    Ok(())
}
