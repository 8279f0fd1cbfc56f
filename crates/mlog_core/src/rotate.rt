//! How the logs of a script are rotated.
ghost use Rattle.std.specs.Prelude.{◌≤◌, ◌<◌, count_by, OnOk, IfErr};
ghost use Rattle.mlog_script.specs.Script.{is_log};
ghost use Rattle.mlog_core.specs.Rotate.{Rotates, RotatesLog, RotatesLogUpTo, RotatesUpTo};

use mlog_files::{LogFault, LogStore, Tail};
use mlog_script::Script;
use std::alloc::Allocator;
use tai_status::{Label, TimeSource};

/// Rotates the log with a number. No bytes may wait in it.
fn rotate_log<B: Allocator + Clone, S: LogStore>(
    script: &Script<B>,
    store: &mut S,
    log: usize,
    reading: &Label,
) -> Result<(), LogFault>
    requires log { log < (S.state store.old).logs }
    ensures done { OnOk result (RotatesLog script.now reading.now log (S.state store.old) (S.state store.new)) }
    ensures stopped { IfErr result
        (RotatesLogUpTo script.now reading.now log (S.state store.old) (S.state store.new)) }
{
    match script.log(log) {
        Some(plan) => {
            let mut tail = Tail::open(store, log, plan.size as usize, plan.keep);
            tail.rotate(store, log, reading)
        }
        None => Ok(()),
    }
}

/// Finishes the current file of each log that has a byte, all with one reading of the clock. No bytes may wait in any
/// log.
pub(crate) fn rotate_all<B: Allocator + Clone, S: LogStore, C: TimeSource>(
    script: &Script<B>,
    store: &mut S,
    clock: &mut C,
) -> Result<(), LogFault>
    requires logs { count_by is_log script.now ≤ (S.state store.old).logs }
    ensures done { OnOk result (Rotates script.now (S.state store.old) (S.state store.new)
        (C.readings clock.old) (C.readings clock.new)) }
    ensures stopped { IfErr result (RotatesUpTo script.now (S.state store.old) (S.state store.new)
        (C.readings clock.old) (C.readings clock.new)) }
{
    let reading = clock.now();
    for log in 0..script.logs() {
        rotate_log(script, store, log, &reading)?;
    }
    Ok(())
}
