//! How all services end, and how svscan leaves them.
ghost use Rattle.std.specs.Prelude.{◌≡◌, option_map, true};
ghost use Rattle.svc_host.specs.Parts.{count_running};
ghost use Rattle.cmd_svscan.specs.Closing.{Ends, FindsStill, GoesOnEnding, Leaves};
ghost use Rattle.svc_host.specs.HostRun.{Runs};
ghost use Rattle.cmd_svscan.specs.Leftovers.{FindsFirstUnlogged};

use crate::asking::leave_own;
use crate::losses::{add_unwritten, remaining, unlogged};
use crate::own_status::own_record;
use crate::resting::running_clock;
use std::alloc::Global;
use std::time::Duration;
use svc_host::{Host, Maker, Runtime};
use svc_maker::FolderHolder;
use svscan_rounds::{Remaining, Unlogged, rest_left};

/// The milliseconds between two steps of the end.
const STEP_MILLIS: u64 = 20;

/// Continues the end of all services until all have ended, at most for the length of a rest. Returns whether all have
/// ended.
fn end_in_steps<M, R>(rt: &R, host: &mut Host<M, R>) -> bool
where
    M: Maker + Drop,
    R: Runtime,
    ensures ends { GoesOnEnding host.old.parts host.new.parts }
    ensures all { result ≡ true → count_running host.new.parts ≡ 0 }
{
    let begin = running_clock(rt);
    for _ in rt.forever() {
        if host.end_services() == 0 {
            return true;
        }
        host.rest(Duration::from_millis(STEP_MILLIS));
        if rest_left(begin, running_clock(rt)).is_none() {
            return false;
        }
    }
    unreachable!()
}

/// Returns the processes that still run, or none if there is no memory for the list.
fn still_running<M, R>(alloc: Global, host: &mut Host<M, R>) -> Vec<Remaining>
where
    M: Maker + Drop,
    R: Runtime,
    ensures { FindsStill host.old result.items host.new }
{
    match remaining(alloc, host) {
        Ok(left) => left,
        Err(_) => Vec::new(alloc),
    }
}

/// Continues the end of all services, for the length of a rest. Returns None if all have ended.
pub(crate) fn end<M, R>(rt: R, alloc: Global, host: &mut Host<M, R>) -> Option<Vec<Remaining>>
where
    M: Maker + Drop,
    R: Runtime,
    ensures { Ends host.old (option_map (λ left. left.items) result) host.new }
{
    if end_in_steps(&rt, host) {
        return None;
    }
    Some(still_running(alloc, host))
}

/// Lets all outputs end, until svscan may leave them and no part owes what it could not write, at most for the length
/// of a rest.
fn end_outputs<M, R>(rt: &R, host: &mut Host<M, R>)
where
    M: Maker + Drop,
    R: Runtime,
    ensures { Runs host.old host.new }
{
    let begin = running_clock(rt);
    for _ in rt.forever() {
        let may_leave = host.end_outputs() && !host.any_owes();
        if may_leave || rest_left(begin, running_clock(rt)).is_none() {
            return;
        }
        host.rest(Duration::from_millis(STEP_MILLIS));
    }
    unreachable!()
}

/// Returns what did not reach the loggers, for each service, as far as there is memory for it.
fn unlogged_as_far<M, R>(rt: &R, alloc: Global, host: &mut Host<M, R>) -> Vec<Unlogged>
where
    M: Maker + Drop,
    R: Runtime,
    ensures { FindsFirstUnlogged host.old result.items host.new }
{
    match unlogged(rt, alloc, host) {
        Ok(all) => all,
        Err(some) => some,
    }
}

/// Leaves the services, once what was read of their outputs is with their loggers and their records are written, or
/// once five seconds are over.
pub(crate) fn leave<M, R>(rt: R, alloc: Global, host: &mut Host<M, R>) -> Vec<Unlogged>
where
    M: FolderHolder + Drop,
    R: Runtime,
    ensures { Leaves host.old result.items host.new }
{
    end_outputs(&rt, host);
    let mut all = unlogged_as_far(&rt, alloc, host);
    let _ = add_unwritten(alloc, host, &mut all);
    host.collect();
    host.keep_traces();
    let record = own_record(rt, 0);
    leave_own(host, &record);
    all
}
