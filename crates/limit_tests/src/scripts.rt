//! The run of one script.
ghost use Rattle.std.specs.List.{All};
ghost use Rattle.suite_core.specs.Suite.{IsSuiteEvent};

use scan_table::{PartId, Role};
use std::alloc::Allocator;
use std::process::Abort;
use suite_core::{StepFault, Suite, SuiteFault};
use suite_lines::{SuiteEvent, read_suite_event, step_text};
use sup_trace::{read_text, replay};

const SCRIPT: [&str; 7] = [
    "scan @400000000000000a00000000 d---:a",
    "at 0.main.1 started 10 @400000000000000b00000000",
    "at 0.main.1 clock @400000000000000c00000000",
    "at 0.main.1 byte x",
    "at 0.main.1 death @400000000000000c00000000",
    "scan @400000000000000d00000000 d---:a",
    "at 0.main.1 byte u",
];

const ANSWERS: [&str; 8] = [
    "scan: 1 started, 0 restarted, 0 dropped, 0 refused",
    "0.main.1 took record:400000000000000a000000000000000000750000 start -> starting",
    "0.main.1 took record:400000000000000b000000000a00000000750001 -> settling",
    "0.main.1 took record:400000000000000b000000000a00000000750003 -> up",
    "0.main.1 took record:400000000000000b000000000a00000000750103 -> up",
    "0.main.1 took record:400000000000000c000000000000000000750105 -> gone",
    "scan: 0 started, 1 restarted, 0 dropped, 0 refused",
    "0.main.2 took record:400000000000000d000000000000000000750000 start -> starting",
];

// Returns the service of the script, in this life.
fn service(life: u64) -> PartId {
    PartId {
        slot: 0,
        role: Role::Main,
        life,
    }
}

// Returns the events of the script.
fn script<R: Abort, A: Allocator + Clone + Copy>(rt: &R, alloc: A) -> Vec<SuiteEvent<A>, A>
    ensures { All IsSuiteEvent result.items }
{
    let mut events = Vec::new(alloc);
    for line in SCRIPT {
        let event = read_suite_event(alloc, line.as_bytes()).expect(rt, "an event");
        events.push(event).expect(rt, "memory");
    }
    events
}

/// A run replies to each event up to the one that is refused. The trace of a service that is there, written as text and
/// read again, replays to its machine.
#[test]
fn a_script_is_run(rt: HostRuntime) {
    let events = script(&rt, rt.alloc());
    let mut suite = Suite::new(rt.alloc(), 0, 256).expect(&rt, "memory");
    let mut outs = Vec::new(rt.alloc());
    let fault = SuiteFault {
        place: 6,
        fault: StepFault::NoSuchPart,
    };
    assert_eq!(rt; suite.run(&events, &mut outs), Err(fault));
    let mut lines = Vec::new(rt.alloc());
    for out in &outs {
        let mut more = step_text(rt.alloc(), out).expect(&rt, "memory").into_vec();
        lines.append(&mut more).expect(&rt, "memory");
    }
    assert_eq!(rt; lines.len(), ANSWERS.len());
    for (line, wanted) in lines.iter().zip(ANSWERS) {
        assert_eq!(rt; line.as_str(), wanted);
    }
    assert!(rt; suite.machine(service(1)).is_none());
    let trace = suite.trace(service(2)).expect(&rt, "a trace");
    let text = trace.write_text(rt.alloc()).expect(&rt, "memory");
    let again = read_text(rt.alloc(), &text).expect(&rt, "a trace's text");
    assert_eq!(rt; Some(replay(&again)), suite.machine(service(2)));
}
