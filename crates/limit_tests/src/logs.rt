ghost use Rattle.std.specs.Prelude.{◌≡◌, ◌∷◌, [], length, IfOk};

use mlog_core::{RunCounts, RunFault, run};
use mlog_files::{LogFiles, MemoryStore};
use mlog_script::Script;
use std::alloc::{AllocError, Allocator, Global};
use std::test::Fail;
use tai_status::{Input, Label, Output, TimeSource, stamp_lines};
use test_base::{Scarce, check, refuse_in_turn};

/// A clock that stays at the beginning of 1970.
#[derive(Drop)]
struct Stopped;

impl TimeSource for Stopped {
    fn now(&mut self) -> Label {
        Label {
            sec: (1 << 62) + 10,
            nano: 0,
        }
    }
}

/// Returns a store with one empty log.
pub(crate) fn one_log<A: Allocator + Clone>(alloc: A) -> Result<MemoryStore<A>, AllocError>
    ensures { IfOk result (λ store. store.logs ≡ record { current = []; olds = [] } ∷ []) }
{
    let mut logs = Vec::new(alloc.clone()?);
    logs.push(LogFiles {
        current: Vec::new(alloc.clone()?),
        olds: Vec::new(alloc.clone()?),
    })?;
    let statuses = Vec::new(alloc.clone()?);
    Ok(MemoryStore::new(alloc, logs, statuses))
}

/// Returns a script with one log that has files of 4,096 bytes, ten in all.
fn script(alloc: Global) -> Result<Script, Fail> {
    let words = ["s4096", "n10", "./main"];
    Script::read(alloc, &words).map_err(|_| Fail::new("a script"))
}

/// Runs a script of one log over a text.
fn run_over<A: Allocator + Clone, B: Allocator + Clone>(
    alloc: A,
    script: &Script,
    text: &str,
    store: &mut MemoryStore<B>,
) -> Result<Result<RunCounts, RunFault>, Fail>
    requires { length store.old.logs ≡ 1 }
    ensures { length store.new.logs ≡ 1 }
{
    if script.logs() != 1 || script.files() != 0 {
        return Err(Fail::new("a script of one log"));
    }
    let mut input = Input::new(text.as_bytes());
    let ran = run(alloc, script, &mut input, store, &mut Stopped);
    let is_unread = input.reads() == 0 && input.faults() == 0;
    check(
        "memory first",
        (ran == Err(RunFault::OutOfMemory)) == is_unread,
    )?;
    Ok(ran)
}

/// A line of a million bytes fills 244 files, and 235 of them are removed.
#[test]
fn counts_what_it_finished_and_removed(rt: HostRuntime) -> Result<(), Fail> {
    let mut text = "a".repeat(rt.alloc(), 1_000_000)?;
    text.push_str("\n")?;
    let mut store = one_log(rt.alloc())?;
    let ran = run_over(rt.alloc(), &script(rt.alloc())?, text.as_str(), &mut store)?;
    let wanted = RunCounts {
        lines: 1,
        finished: 244,
        removed: 235,
    };
    assert_eq!(rt; ran, Ok(wanted));
    let (mut logs, _statuses, _alerts) = store.take_apart();
    let files = logs.pop().ok_or("a log")?;
    assert_eq!(rt; (files.current.len(), files.olds.len()), (577, 9));
    Ok(())
}

/// The counts of a run over a line of 5,000 bytes.
const ONE_FILE: RunCounts = RunCounts {
    lines: 1,
    finished: 1,
    removed: 0,
};

fn line_of_5000(alloc: Global) -> Result<String, AllocError> {
    let mut text = "a".repeat(alloc, 5000)?;
    text.push_str("\n")?;
    Ok(text)
}

/// Runs with too little memory. Such a run reads nothing, and repeated with memory it has the counts of a first run.
fn beginning(memory: &Scarce<Global>, growths: u64) -> Result<bool, Fail> {
    let script = script(memory.ample())?;
    let text = line_of_5000(memory.ample())?;
    let mut store = one_log(memory.ample())?;
    memory.give(growths);
    let first = run_over(memory, &script, text.as_str(), &mut store)?;
    let refused = memory.lift();
    let wanted = if refused {
        Err(RunFault::OutOfMemory)
    } else {
        Ok(ONE_FILE)
    };
    check("a run", first == wanted)?;
    if refused {
        let again = run_over(memory, &script, text.as_str(), &mut store)?;
        check("a run again", again == Ok(ONE_FILE))?;
    }
    Ok(refused)
}

/// Runs over a store that fails, which ends the run. A prefix of the line is in the store's files.
fn storing(memory: &Scarce<Global>, growths: u64) -> Result<bool, Fail> {
    let script = script(memory.ample())?;
    let text = line_of_5000(memory.ample())?;
    let mut store = one_log(memory)?;
    memory.give(growths);
    let ran = run_over(memory.ample(), &script, text.as_str(), &mut store)?;
    let refused = memory.lift();
    let wanted = if refused {
        Err(RunFault::Store)
    } else {
        Ok(ONE_FILE)
    };
    check("a run", ran == wanted)?;
    let (mut logs, _statuses, _alerts) = store.take_apart();
    let files = logs.pop().ok_or("a log")?;
    let mut stored = files.current.len();
    for old in files.olds.as_slice() {
        stored = stored.saturating_add(old.bytes.len());
    }
    check(
        "a front",
        if refused {
            stored <= 5001
        } else {
            stored == 5001
        },
    )?;
    Ok(refused)
}

#[test]
fn each_growth_of_a_run_is_refused_in_turn(rt: HostRuntime) -> Result<(), Fail> {
    refuse_in_turn(rt.alloc(), beginning)?;
    refuse_in_turn(rt.alloc(), storing)
}

/// Two lines, the last one without a newline, are counted. Each has the label of the clock.
#[test]
fn counts_the_stamps(rt: HostRuntime) -> Result<(), Fail> {
    let mut input = Input::new(b"a\nb".as_slice());
    let mut output = Output::new(Vec::new(rt.alloc()));
    assert_eq!(rt; stamp_lines(&mut input, &mut output, &mut Stopped), Ok(2));
    let stamped = b"@400000000000000a00000000 a\n@400000000000000a00000000 b".as_slice();
    assert_eq!(rt; output.into_device().as_slice(), stamped);
    Ok(())
}
