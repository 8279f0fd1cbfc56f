//! The run of a script.
ghost use Rattle.std.specs.Prelude.{◌≡◌, ◌≤◌, count_by, OnOk, IsErrOf};
ghost use Rattle.tai_status.specs.Counted.{CountsRead, Fails, IsRead, Rose, Works};
ghost use Rattle.mlog_script.specs.Script.{is_log, is_file};
ghost use Rattle.mlog_line.specs.LineRouter.{IsWritten, Serves};
ghost use Rattle.mlog_core.specs.Run.{PartRuns, RunsTo};
ghost use Rattle.mlog_core.specs.Story.{RunsOf};
ghost use Rattle.mlog_files.specs.Store.{Stays};
ghost use Rattle.mlog_files.specs.declared.tail.LogFault.TheVariants as log_fault;

use crate::feed::{feed_block, feed_end};
use crate::parted::PartedInput;
use mlog_files::{LogFault, LogStore};
use mlog_line::LineRouter;
use mlog_script::Script;
use std::alloc::Allocator;
use std::io::Read;
use tai_status::{BLOCK, Input, Label, TimeSource};
use thiserror::Error;

/// The counts of a run.
#[derive(Clone, Copy, Debug, PartialEq, Eq)]
pub struct RunCounts {
    /// How many lines there were.
    pub lines: u64,

    /// How many old files were finished. The count stops at `u64::MAX`.
    pub finished: u64,

    /// How many old files were removed. The count stops at `u64::MAX`.
    pub removed: u64,
}

/// Why a run ended early.
#[derive(Clone, Copy, Debug, PartialEq, Eq, Error)]
pub enum RunFault {
    /// The reader failed.
    #[error("Read")]
    Read,
    /// The store failed.
    #[error("Store")]
    Store,
    /// There was too little memory to begin.
    #[error("OutOfMemory")]
    OutOfMemory,
    /// There is no greater label for an old file.
    #[error("LabelsSpent")]
    LabelsSpent,
}

/// Reads all lines, and hands each out to the logs, alerts and status files at which the script selects it. The clock
/// is read once for each line, at its first byte. A last line without a newline gets one in the logs.
///
/// All memory is taken at the beginning. `OutOfMemory` is returned only if the allocator refuses a block of 32,768
/// bytes for each log, or a byte for each alert, log and status file; nothing was read then. After `Read`, all lines
/// that were read whole are in their logs. After `Store` and `LabelsSpent`, each log has a prefix of what it was to
/// get.
pub fn run<A: Allocator + Clone, B: Allocator + Clone, D: Read, S: LogStore, C: TimeSource>(
    alloc: A,
    script: &Script<B>,
    reader: &mut Input<D>,
    store: &mut S,
    clock: &mut C,
) -> Result<RunCounts, RunFault>
    // The store has the logs and status files of the script.
    requires logs { count_by is_log script.now ≤ (S.state store.old).logs }
    requires files { count_by is_file script.now ≤ (S.state store.old).status_files }

    // The outcome decides what was handed out. If it succeeds, this is the whole input, and no fault of the reader is
    // counted.
    ensures runs { RunsTo result script.now reader.old reader.new
        S.state store.old store.new C.readings clock.old clock.new }
    ensures end { OnOk result (IsRead reader.new) }
    ensures works { OnOk result (Works reader.old reader.new) }

    // In each outcome the store keeps its numbers of logs and status files, and asks the system for no folder.
    ensures stays { Stays (S.state store.old) (S.state store.new) }

    // After `Read` the fault of the reader is counted, and after `Store` that of the store.
    ensures unread { IsErrOf result RunFault.Read → Fails reader.old reader.new }
    ensures unwritten { IsErrOf result RunFault.Store
        → Rose (S.state store.old).failures (S.state store.new).failures }
{
    run_part(alloc, script, reader, store, clock)
}

/// Runs the script over the part of an input that is being read. The parts after it stay unread.
pub(crate) fn run_part<A, B, I, S, C>(
    alloc: A,
    script: &Script<B>,
    input: &mut I,
    store: &mut S,
    clock: &mut C,
) -> Result<RunCounts, RunFault>
where
    A: Allocator + Clone,
    B: Allocator + Clone,
    I: PartedInput,
    S: LogStore,
    C: TimeSource,
    requires logs { count_by is_log script.now ≤ (S.state store.old).logs }
    requires files { count_by is_file script.now ≤ (S.state store.old).status_files }

    // The outcome decides what was handed out. If it succeeds, this is the whole part. The reads are counted, and no
    // fault of the reader is.
    ensures runs { PartRuns result script.now I.feed input.old input.new
        S.state store.old store.new C.readings clock.old clock.new }
    ensures end { OnOk result (IsRead (I.feed input.new).device) }
    ensures works { OnOk result (Works (I.feed input.old).device (I.feed input.new).device) }
    ensures reads { OnOk result (CountsRead (I.feed input.old).device (I.feed input.new).device) }

    // In each outcome the later parts stay. The store keeps its numbers of logs and status files, and asks the system
    // for no folder.
    ensures stays { Stays (S.state store.old) (S.state store.new) }
    ensures behind { (I.feed input.new).behind ≡ (I.feed input.old).behind }

    // After `Read` the fault of the reader is counted, and after `Store` that of the store.
    ensures unread { IsErrOf result RunFault.Read → Fails (I.feed input.old).device (I.feed input.new).device }
    ensures unwritten { IsErrOf result RunFault.Store
        → Rose (S.state store.old).failures (S.state store.new).failures }
{
    let Ok(mut router) = LineRouter::open(alloc, script, store) else {
        return Err(RunFault::OutOfMemory);
    };
    match run_lines(&mut router, script, input, store, clock) {
        Ok(lines) => Ok(RunCounts {
            lines,
            finished: router.finished(),
            removed: router.removed(),
        }),
        Err(why) => Err(why),
    }
}

/// Returns the fault of a run after a log stopped.
pub(crate) fn fault_of(why: LogFault) -> RunFault
    ensures store { why ≡ log_fault.Store → result ≡ RunFault.Store }
    ensures spent { why ≡ log_fault.LabelsSpent → result ≡ RunFault.LabelsSpent }
    ensures only_store { result ≡ RunFault.Store → why ≡ log_fault.Store }
    ensures only_spent { result ≡ RunFault.LabelsSpent → why ≡ log_fault.LabelsSpent }
    ensures other { (¬ (result ≡ RunFault.Read)) × (¬ (result ≡ RunFault.OutOfMemory)) }
{
    match why {
        LogFault::Store => RunFault::Store,
        LogFault::LabelsSpent => RunFault::LabelsSpent,
    }
}

/// Reads all lines, and hands them out. Returns how many there were.
fn run_lines<A, B, I, S, C>(
    router: &mut LineRouter<A>,
    script: &Script<B>,
    input: &mut I,
    store: &mut S,
    clock: &mut C,
) -> Result<u64, RunFault>
where
    A: Allocator + Clone,
    B: Allocator + Clone,
    I: PartedInput,
    S: LogStore,
    C: TimeSource,
    requires serves { Serves script.now router.old (S.state store.old) }
    requires written { IsWritten router.old.tails }

    // The outcome decides what was handed out. If it succeeds, this is the whole part, and no byte waits. The reads are
    // counted, and no fault of the reader is.
    ensures runs { RunsOf result script.now router.old router.new
        S.state store.old store.new C.readings clock.old clock.new I.feed input.old input.new }
    ensures written { OnOk result (IsWritten router.new.tails) }
    ensures end { OnOk result (IsRead (I.feed input.new).device) }
    ensures works { OnOk result (Works (I.feed input.old).device (I.feed input.new).device) }
    ensures reads { OnOk result (CountsRead (I.feed input.old).device (I.feed input.new).device) }

    // In each outcome the later parts stay. The store keeps its numbers of logs and status files, and asks the system
    // for no folder.
    ensures stays { Stays (S.state store.old) (S.state store.new) }
    ensures behind { (I.feed input.new).behind ≡ (I.feed input.old).behind }

    // After `Read` the fault of the reader is counted. Memory is never the reason, since the router already has all
    // that it needs.
    ensures unread { IsErrOf result RunFault.Read → Fails (I.feed input.old).device (I.feed input.new).device }
    ensures memory { ¬ (IsErrOf result RunFault.OutOfMemory) }
{
    let mut bytes = [0; BLOCK];
    let mut inside = None;
    let mut lines = 0;
    'reads: loop {
        let count = match input.read_part(&mut bytes) {
            Ok(count) => count,
            Err(_) => return Err(RunFault::Read),
        };
        if count == 0 {
            return match feed_end(router, script, store, inside) {
                Ok(()) => Ok(lines),
                Err(why) => Err(fault_of(why)),
            };
        }
        match feed_block(router, script, store, clock, inside, &bytes[..count]) {
            Ok(fed) => {
                inside = fed.inside;
                lines += fed.begun;
            }
            Err(why) => return Err(fault_of(why)),
        }
    }
}
