//! The ends of the logs of a script.
ghost use Rattle.std.specs.Prelude.{◌≡◌, ◌≤◌, ◌<◌, ◌+◌, ℕ, length, count_by, slice_get, OnOk, IfOk};
ghost use Rattle.mlog_script.specs.Script.{is_log};
ghost use Rattle.mlog_line.specs.Given.{nothing, to_one, to_one_if, to_logs, to_first};
ghost use Rattle.mlog_line.specs.Outputs.{Hands, HandsText};
ghost use Rattle.mlog_line.specs.LineRouter.{AreOpened, IsWritten, IsWrittenUpTo, HasRoomAt, HaveRoom};

use mlog_files::{LogFault, LogStore, Tail};
use mlog_script::Script;
use std::alloc::{AllocError, Allocator};
use tai_status::{BLOCK, Label};

/// Returns the ends of the logs of a script, as the store has them.
pub fn open_all<A: Allocator + Clone, B: Allocator + Clone, S: LogStore>(
    alloc: A,
    script: &Script<B>,
    store: &S,
) -> Result<Vec<Tail, A>, AllocError>
    requires logs { count_by is_log script.now ≤ (S.state store.now).logs }
    ensures opened { IfOk result (λ tails. AreOpened script.now (S.state store.now).visible tails.items) }
    ensures count { IfOk result (λ tails. length tails.items ≡ count_by is_log script.now) }
{
    let mut tails = Vec::new(alloc);
    while let Some(plan) = script.log(tails.len()) {
        let tail = Tail::open(store, tails.len(), plan.size as usize, plan.keep);
        tails.push(tail)?;
    }
    Ok(tails)
}

/// Puts bytes of a line into one log, if it is selected there.
fn put_one<A: Allocator, S: LogStore>(
    tails: &mut Vec<Tail, A>,
    log: usize,
    is_chosen: bool,
    store: &mut S,
    label: &Label,
    bytes: &[u8],
) -> Result<(), LogFault>
    requires log { log < length tails.old.items }
    requires logs { length tails.old.items ≤ (S.state store.old).logs }
    ensures { Hands result tails.old.items tails.new.items (S.state store.old) (S.state store.new)
        (to_one_if is_chosen log label.now bytes.now) }
{
    if is_chosen {
        tails[log].put(store, log, label, bytes)
    } else {
        Ok(())
    }
}

/// Puts bytes of a line into each log at which it is selected.
pub fn put_chosen<A: Allocator, S: LogStore>(
    tails: &mut Vec<Tail, A>,
    chosen: &[bool],
    store: &mut S,
    label: &Label,
    bytes: &[u8],
) -> Result<(), LogFault>
    requires chosen { length chosen.now ≤ length tails.old.items }
    requires logs { length tails.old.items ≤ (S.state store.old).logs }
    ensures { Hands result tails.old.items tails.new.items (S.state store.old) (S.state store.new)
        (to_logs chosen.now label.now bytes.now) }
{
    for (log, is_chosen) in chosen.iter().enumerate() {
        put_one(tails, log, *is_chosen, store, label, bytes)?;
    }
    Ok(())
}

/// Returns how many bytes can come, with any values, before a file of one of the logs can be full: at most a block.
pub fn room_in_all(tails: &[Tail]) -> usize
    ensures { HaveRoom result tails.now }
{
    let mut room = BLOCK;
    for tail in tails {
        room = room.min(tail.room());
    }
    room
}

/// Puts bytes that can't fill a file, from any lines, into one log.
fn put_one_within<A: Allocator, S: LogStore>(
    tails: &mut Vec<Tail, A>,
    log: usize,
    store: &mut S,
    bytes: &[u8],
) -> Result<(), LogFault>
    requires log { log < length tails.old.items }
    requires logs { length tails.old.items ≤ (S.state store.old).logs }
    requires room { HasRoomAt (length bytes.now) (slice_get tails.old.items log) }
    ensures hands { HandsText result tails.old.items tails.new.items (S.state store.old) (S.state store.new) bytes.now
        (to_one log) }
    ensures others { (n : ℕ) → log < n → slice_get tails.new.items n ≡ slice_get tails.old.items n }
{
    tails[log].put_within(store, log, bytes)
}

/// Puts bytes that can't fill a file, from any lines, into each log.
pub fn put_all_within<A: Allocator, S: LogStore>(
    tails: &mut Vec<Tail, A>,
    store: &mut S,
    bytes: &[u8],
) -> Result<(), LogFault>
    requires logs { length tails.old.items ≤ (S.state store.old).logs }
    requires room { HaveRoom (length bytes.now) tails.old.items }
    ensures { HandsText result tails.old.items tails.new.items (S.state store.old) (S.state store.new) bytes.now
        (to_first (length tails.old.items)) }
{
    let count = tails.len();
    for log in 0..count {
        put_one_within(tails, log, store, bytes)?;
    }
    Ok(())
}

/// Appends the bytes that wait in memory to one log.
fn flush_one<A: Allocator, S: LogStore>(
    tails: &mut Vec<Tail, A>,
    log: usize,
    store: &mut S,
) -> Result<(), LogFault>
    requires log { log < length tails.old.items }
    requires logs { length tails.old.items ≤ (S.state store.old).logs }
    ensures hands { Hands result tails.old.items tails.new.items (S.state store.old) (S.state store.new) nothing }
    ensures written { OnOk result (IsWrittenUpTo log tails.old.items → IsWrittenUpTo (log + 1) tails.new.items) }
{
    tails[log].flush(store, log)
}

/// Appends the bytes that wait in memory.
pub fn flush_all<A: Allocator, S: LogStore>(
    tails: &mut Vec<Tail, A>,
    store: &mut S,
) -> Result<(), LogFault>
    requires logs { length tails.old.items ≤ (S.state store.old).logs }
    ensures hands { Hands result tails.old.items tails.new.items (S.state store.old) (S.state store.new) nothing }
    ensures written { OnOk result (IsWritten tails.new.items) }
{
    for log in 0..tails.len() {
        flush_one(tails, log, store)?;
    }
    Ok(())
}
