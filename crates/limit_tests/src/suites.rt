ghost use Rattle.std.specs.Prelude.{IfOk};
ghost use Rattle.suite_core.specs.Suite.{IsSuiteEvent};

use scan_table::{DirRow, PartId, Role};
use std::alloc::{AllocError, Allocator, Global};
use std::test::Fail;
use suite_core::{StepFault, Suite, SuiteFault};
use suite_lines::{Rows, StepOut, SuiteEvent, SuiteLineFault, read_suite_event, step_text};
use sup_core::{Event, Phase};
use tai_status::{Label, Name};
use test_base::{Scarce, check, refuse_in_turn};

/// The result of the second scan: the logger of `p` ended and begins again, `q` is gone, and `r` is new.
const LINES: [&str; 4] = [
    "scan: 1 started, 1 restarted, 1 dropped, 0 refused",
    "3 dropped",
    "6.main.7 took record:400000000000000b000000000000000000640004 -> down",
    "0.log.5 took record:400000000000000b000000000000000000640004 -> down",
];

/// Returns the label of the second that is 10 after 1970 in TAI64, plus this many more.
fn label(seconds: u32) -> Label {
    Label {
        sec: (1 << 62) + 10 + seconds as u64,
        nano: 0,
    }
}

/// Returns a scan that finds directories with these names and files `down`, with a log if the name begins with `p`.
fn scan<A: Allocator + Clone>(
    alloc: A,
    seconds: u32,
    names: &[&str],
) -> Result<SuiteEvent<A>, AllocError>
    ensures { IfOk result IsSuiteEvent }
{
    let mut rows = Vec::new(alloc.clone()?);
    for name in names {
        rows.push(DirRow {
            name: Name::new(String::from_str(alloc.clone()?, name)?),
            is_dir: true,
            has_log: name.starts_with("p"),
            down: true,
            log_down: true,
        })?;
    }
    Ok(SuiteEvent::Scan(Rows::from_vec(rows), label(seconds)))
}

fn part(slot: u64, role: Role, life: u64) -> PartId {
    PartId { slot, role, life }
}

/// Returns a byte for a part.
fn byte<A: Allocator>(part: PartId, byte: u8) -> SuiteEvent<A>
    ensures { IsSuiteEvent result }
{
    SuiteEvent::At(part, Event::Byte(byte))
}

/// Reads the line of a scan, which a suite takes, and then writes the result.
fn scanning(memory: &Scarce<Global>, growths: u64) -> Result<bool, Fail> {
    let mut suite = Suite::new(memory, 0, 1)?;
    let mut out = Vec::new(memory);
    let logger = part(0, Role::Log, 2);
    let gone = part(3, Role::Main, 4);
    let first = [
        scan(memory, 0, &["p", "q"])?,
        byte(logger, b'x'),
        byte(gone, b'x'),
    ];
    check("a first scan", suite.run(&first, &mut out).is_ok())?;
    let line = b"scan @400000000000000b00000000 dlnm:p d-n-:r";
    memory.give(growths);
    let fault = read_suite_event(memory, line).err();
    let no_event = memory.lift();
    check(
        "a line",
        fault == no_event.then_some(SuiteLineFault::OutOfMemory),
    )?;
    let second = [read_suite_event(memory, line)?];
    memory.give(growths);
    let fault = suite.run(&second, &mut out).err();
    let no_scan = memory.lift();
    let wanted = SuiteFault {
        place: 0,
        fault: StepFault::OutOfMemory,
    };
    check("a scan", fault == no_scan.then_some(wanted))?;
    if no_scan {
        let is_there = suite.machine(gone).is_some() && suite.machine(logger).is_some();
        check("what was", out.len() == 3 && is_there)?;
        check("a scan again", suite.run(&second, &mut out).is_ok())?;
    }
    let are_gone = suite.machine(gone).is_none() && suite.machine(logger).is_none();
    let are_there = suite.machine(part(0, Role::Log, 5)).is_some()
        && suite.machine(part(6, Role::Main, 7)).is_some();
    check("the parts", out.len() == 4 && are_gone && are_there)?;
    let no_text = writing(memory, growths, out.as_slice())?;
    Ok(no_event || no_scan || no_text)
}

/// Writes the last of the results of steps.
fn writing(
    memory: &Scarce<Global>,
    growths: u64,
    out: &[StepOut<&Scarce<Global>>],
) -> Result<bool, Fail> {
    let Some(last) = out.last() else {
        return Err(Fail::new("it gave nothing"));
    };
    memory.give(growths);
    let is_refused = step_text(memory, last).is_err();
    let no_text = memory.lift();
    check("a text", is_refused == no_text)?;
    let lines = step_text(memory, last)?;
    check("the lines", lines.len() == LINES.len())?;
    for (line, wanted) in lines.as_slice().iter().zip(LINES) {
        check("a line", line.as_str() == wanted)?;
    }
    Ok(no_text)
}

/// Takes an event at a part.
fn taking(memory: &Scarce<Global>, growths: u64) -> Result<bool, Fail> {
    let mut suite = Suite::new(memory, 0, 1)?;
    let mut out = Vec::new(memory);
    let main = part(0, Role::Main, 1);
    let first = [scan(memory, 0, &["q"])?];
    check("a scan", suite.run(&first, &mut out).is_ok())?;
    // The vector of results is full now.
    out.shrink_to_fit();
    let second = [byte(main, b'u')];
    memory.give(growths);
    let fault = suite.run(&second, &mut out).err();
    let refused = memory.lift();
    let wanted = SuiteFault {
        place: 0,
        fault: StepFault::OutOfMemory,
    };
    check("an event", fault == refused.then_some(wanted))?;
    if refused {
        let phase = suite.machine(main).map(|machine| machine.phase());
        check("what was", out.len() == 1 && phase == Some(Phase::Down))?;
        check("an event again", suite.run(&second, &mut out).is_ok())?;
    }
    let phase = suite.machine(main).map(|machine| machine.phase());
    check(
        "it starts",
        out.len() == 2 && phase == Some(Phase::Starting),
    )?;
    Ok(refused)
}

#[test]
fn each_growth_of_a_suite_is_refused_in_turn(rt: HostRuntime) -> Result<(), Fail> {
    refuse_in_turn(rt.alloc(), scanning)?;
    refuse_in_turn(rt.alloc(), taking)
}
