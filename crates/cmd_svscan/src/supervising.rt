//! What `supervise` does: one scan of the row of one service, and then a watch over that service.
ghost use Rattle.std.specs.Prelude.{◌≡◌, ◌⊎◌, [], true, string_bytes, IfOk};
ghost use Rattle.scan_table.specs.Whole.{is_whole};
ghost use Rattle.svc_host.specs.Parts.{losses_in, no_loss, running_ids};
ghost use Rattle.cmd_svscan.specs.Supervising.{BeginsOne, OpensAndSupervises, SupervisesIf, Watches};
ghost use Rattle.cmd_svscan.specs.Supervising.{first_fault, first_loss, lone_row, supervision_of};

use crate::asking::{admit_all, refusals};
use crate::beginning::open;
use crate::looking::bring_up_to_date;
use crate::running::{RunningHost, SystemHost};
use crate::scanning::scan;
use scan_table::{DirRow, PartId};
use std::alloc::{AllocError, Global};
use std::fs;
use std::fs::Files;
use std::net::Net;
use std::process::{Processes, SystemProcess};
use svc_host::{Host, Loss, Maker, PartFault, Runtime};
use svc_maker::FolderHolder;
use svscan_rounds::{ServicePlace, Sight, Supervision, UnmadePart, place_of, whole_rest};
use tai_status::{Cause, Name};

/// Returns the row of a service without a logger.
fn lone_row(name: String, down: bool) -> DirRow
    ensures { result ≡ lone_row (string_bytes name) down }
{
    DirRow {
        name: Name::new(name),
        is_dir: true,
        has_log: false,
        down,
        log_down: false,
    }
}

/// Returns whether the folder at a path has a file `down`. Contracts see nothing of it; tests show that.
fn is_down<R: Files>(rt: &R, alloc: Global, dir: &str) -> Result<bool, AllocError> {
    let mut path = String::from_str(alloc, dir)?;
    path.push_str("/down")?;
    Ok(fs::metadata(rt, path.as_str()).is_ok())
}

/// Returns the row of the service in the folder at a path. That folder is opened later, which says what is wrong with
/// it.
fn row_at<R: Files>(rt: &R, alloc: Global, dir: &str, name: &str) -> Result<DirRow, AllocError>
    ensures { IfOk result (λ row. row ≡ lone_row name.now row.down) }
{
    let down = is_down(rt, alloc, dir)?;
    Ok(lone_row(String::from_str(alloc, name)?, down))
}

/// Returns why the first of some parts was not made.
fn first_fault(unmade: &[UnmadePart]) -> Option<PartFault>
    ensures { result ≡ first_fault unmade.now }
{
    match unmade {
        [one, ..] => Some(one.fault),
        [] => None,
    }
}

/// Returns what came of the begin of a service, after a scan that could not make these parts.
fn supervision<M, R>(host: &Host<M, R>, name: &str, unmade: &[UnmadePart]) -> Supervision
where
    M: Maker + Drop,
    R: Runtime,
    ensures { result ≡ supervision_of (is_whole host.now.table.slots name.now) (first_fault unmade.now) }
{
    let fault = first_fault(unmade);
    if host.is_whole(name) {
        return Supervision::Kept(fault);
    }
    match fault {
        Some(fault) => Supervision::Unmade(fault),
        None => Supervision::Unmade(PartFault::Refused(Cause::NoMemory)),
    }
}

/// Begins the service in the folder at a path, by one scan of its row.
fn begin_one<M, R>(rt: R, alloc: Global, host: &mut Host<M, R>, dir: &str) -> Supervision
where
    M: FolderHolder + Drop,
    R: Files + Runtime,
    ensures { BeginsOne dir.now host.old result host.new }
{
    let Some(ServicePlace { folder, name }) = place_of(dir) else {
        return Supervision::Unmade(PartFault::Refused(Cause::Missing));
    };
    let Ok(row) = row_at(&rt, alloc, dir, name) else {
        return Supervision::Unmade(PartFault::Refused(Cause::NoMemory));
    };
    match scan(rt, alloc, host, folder, &[row]) {
        Ok(out) => supervision(host, name, &out.unmade),
        Err(_) => Supervision::Unmade(PartFault::Refused(Cause::NoMemory)),
    }
}

/// Begins the service in the folder at a path, if there is a host.
fn try_supervise<M, R>(
    rt: R,
    alloc: Global,
    running: &mut Option<RunningHost<M, R>>,
    dir: &str,
) -> Supervision
where
    M: FolderHolder + Drop,
    R: Files + Runtime,
    ensures { SupervisesIf dir.now running.old result running.new }
{
    match running {
        Some(running) => begin_one(rt, alloc, &mut running.host, dir),
        None => Supervision::Unmade(PartFault::Refused(Cause::NoMemory)),
    }
}

/// Makes the host, if there is none, and then begins the service in the folder at a path. If the host can't be made,
/// returns `Unmade` with the reason.
pub(crate) fn open_and_supervise<R>(
    rt: R,
    files: HostRuntime,
    alloc: Global,
    running: &mut Option<SystemHost<R>>,
    dir: &str,
) -> Supervision
where
    R: Files + Net + Processes<Started = SystemProcess>,
    R: Runtime + Sync,
    ensures { OpensAndSupervises dir.now running.old result running.new }
{
    if let Err(cause) = open(rt, files, alloc, running) {
        return Supervision::Unmade(PartFault::Refused(cause));
    }
    try_supervise(rt, alloc, running, dir)
}

/// Returns whether it is known that no part runs: memory for the list of those that run may be lacking.
fn is_gone<M, R>(host: &Host<M, R>) -> bool
where
    M: Maker + Drop,
    R: Runtime,
    ensures { result ≡ true → running_ids host.now.parts ≡ [] }
{
    match host.running_parts() {
        Ok(parts) => parts.is_empty(),
        Err(_) => false,
    }
}

/// Returns what the first of some parts lost.
fn first_loss(losses: &[(PartId, Loss)]) -> Loss
    ensures { result ≡ first_loss losses.now }
{
    match losses {
        [(_, loss), ..] => *loss,
        [] => Loss::NONE,
    }
}

/// Returns what was lost when the part ended, if there is memory for the list.
fn loss_of<M, R>(host: &Host<M, R>) -> Loss
where
    M: Maker + Drop,
    R: Runtime,
    ensures { (result ≡ first_loss (losses_in host.now.parts)) ⊎ (result ≡ no_loss) }
{
    match host.losses() {
        Ok(losses) => first_loss(&losses),
        Err(_) => Loss::NONE,
    }
}

/// Returns why the first of some parts was refused.
fn first_refusal(refused: &[svc_host::Unmade]) -> Option<PartFault> {
    match refused {
        [one, ..] => Some(one.fault),
        [] => None,
    }
}

/// Watches over the service until it is gone, at most for the length of a rest. The host rests until its part has
/// ended. Keeps the trace, and admits the part to the door if it still waits for that.
pub(crate) fn watch<M, R>(host: &mut Host<M, R>) -> Sight
where
    M: FolderHolder + Drop,
    R: Runtime,
    ensures { Watches host.old result host.new }
{
    host.rest(whole_rest());
    bring_up_to_date(host, false);
    if is_gone(host) {
        return Sight::Gone(loss_of(host));
    }
    admit_all(host);
    Sight::Runs(first_refusal(&refusals(host)))
}
