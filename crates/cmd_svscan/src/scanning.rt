//! What a round does: one scan of the rows of a folder.
ghost use Rattle.std.specs.Prelude.{[], ◌∷◌};
ghost use Rattle.std.specs.Result.{is_ok};
ghost use Rattle.svc_host.specs.Calls.{AdmittedAll, AskedRefusals};
ghost use Rattle.cmd_svscan.specs.Asking.{IsAsked, Prepares};
ghost use Rattle.cmd_svscan.specs.Scanning.{DidNothing, NamesUnmade, Rounds, Scans, ScansUnless};

use crate::asking::{admit_all, allow, prepare_outputs, refusals, set_folder};
use crate::limits::allowed_descriptors;
use crate::losses::{losses_of, unmade_in};
use crate::running::RunningHost;
use cmd_base::SystemClock;
use scan_table::{DirRow, ScanFault};
use std::alloc::{AllocError, Global};
use svc_host::{Host, HostOut, Runtime};
use svc_maker::FolderHolder;
use svscan_rounds::{RoundOut, UnmadePart};
use tai_status::{Names, TimeSource};

/// Returns what a round did if there was nothing to do.
fn idle_round(alloc: Global) -> RoundOut
    ensures { DidNothing result }
{
    RoundOut {
        untaken: Vec::new(alloc),
        untraced: Names::from_vec(Vec::new(alloc)),
        unmade: Vec::new(alloc),
        refused: Names::from_vec(Vec::new(alloc)),
    }
}

/// Admits the parts that wait for it to the door, and names those that could not be made or admitted. If there is too
/// little memory, some of these are reported in a later round.
fn admit<M, R>(
    alloc: Global,
    host: &mut Host<M, R>,
    mut failed: Vec<svc_host::Unmade>,
) -> Vec<UnmadePart>
where
    M: FolderHolder + Drop,
    R: Runtime,
    ensures host { IsAsked (AdmittedAll ∷ AskedRefusals ∷ []) host.old host.new }
    ensures unmade { NamesUnmade host.old.table.slots failed.items result.items }
{
    admit_all(host);
    let refusals = refusals(host);
    let _ = failed.extend_from_slice(&refusals);
    unmade_in(alloc, host, &failed)
}

/// Asks the maker for what it must do before a scan: use the folder of the services, and make what their outputs lack.
fn prepare<M, R>(host: &mut Host<M, R>, folder: &str, rows: &[DirRow]) -> Result<(), AllocError>
where
    M: FolderHolder + Drop,
    R: Runtime,
    ensures { Prepares folder.now rows.now (is_ok result) host.old host.new }
{
    set_folder(host, folder)?;
    // The limit may have been raised since the last time.
    allow(host, allowed_descriptors());
    prepare_outputs(host, rows);
    Ok(())
}

/// Makes one scan of the rows of a folder, and returns also what parts lost that ended before. That is forgotten once
/// the scan is made. The parts of the last batch that the scan begins get their sockets after it; the maker admits
/// those before them.
pub(crate) fn scan<M, R>(
    rt: R,
    alloc: Global,
    host: &mut Host<M, R>,
    folder: &str,
    rows: &[DirRow],
) -> Result<RoundOut, ScanFault>
where
    M: FolderHolder + Drop,
    R: Runtime,
    ensures { Scans folder.now host.old rows.now result host.new }
{
    // This comes before the scan, because the scan gives the slots of parts that ended, and with them the names, to
    // other services.
    let Ok((untaken, untraced)) = losses_of(alloc, host) else {
        return Err(ScanFault::OutOfMemory);
    };
    let Ok(()) = prepare(host, folder, rows) else {
        return Err(ScanFault::OutOfMemory);
    };
    let label = SystemClock::new(rt).now();
    match host.scan(rows, label) {
        Ok(HostOut { scan, failed }) => {
            host.forget_losses();
            Ok(RoundOut {
                untaken,
                untraced,
                unmade: admit(alloc, host, failed),
                refused: scan.refused,
            })
        }
        Err(fault) => Err(fault),
    }
}

/// Makes one scan of the rows of a folder, unless the round is idle.
fn scan_unless<M, R>(
    rt: R,
    alloc: Global,
    host: &mut Host<M, R>,
    is_idle: bool,
    folder: &str,
    rows: &[DirRow],
) -> Result<RoundOut, ScanFault>
where
    M: FolderHolder + Drop,
    R: Runtime,
    ensures { ScansUnless is_idle folder.now host.old rows.now result host.new }
{
    if is_idle {
        return Ok(idle_round(alloc));
    }
    scan(rt, alloc, host, folder, rows)
}

/// Makes one round: a scan of the rows of a folder, unless the round is idle. Then a rest begins.
pub(crate) fn round<M, R>(
    rt: R,
    alloc: Global,
    running: &mut RunningHost<M, R>,
    folder: &str,
    rows: &[DirRow],
) -> Result<RoundOut, ScanFault>
where
    M: FolderHolder + Drop,
    R: Runtime,
    ensures { Rounds folder.now running.old.host running.old.quiet rows.now result
        running.new.host running.new.quiet }
{
    let is_idle = running.quiet.is_idle;
    let out = scan_unless(rt, alloc, &mut running.host, is_idle, folder, rows);
    running.quiet = running.quiet.scanned(out.is_err());
    running.rests_since = rt.monotonic().ok();
    out
}
