//! What a listing of the services' folder does.
ghost use Rattle.std.specs.Prelude.{map, string_bytes};
ghost use Rattle.cmd_svscan.specs.Looking.{FindsRows, IsFirstShortage, IsUpToDate, JoinsUnless, Lists, Looks};
ghost use Rattle.cmd_svscan.specs.Looking.{rows_in, rows_listed};

use crate::asking::any_waits;
use crate::limits::allowed_descriptors;
use crate::listing::{FolderNames, has_names, list_names, list_rows};
use crate::running::RunningHost;
use cmd_base::SystemClock;
use scan_table::DirRow;
use std::alloc::Global;
use std::fs::Files;
use std::time::Clock;
use svc_host::{Host, Maker, Runtime};
use svc_maker::FolderHolder;
use svscan_rounds::{ListFault, Listing, Quiet, Shortage, needed_names, shortage};
use tai_status::TimeSource;

/// Joins the threads of the parts that ended, unless nothing has happened. Parts that end from now on are left to the
/// next round. Then keeps the traces of what runs.
pub(crate) fn bring_up_to_date<M, R>(host: &mut Host<M, R>, is_quiet: bool)
where
    M: Maker + Drop,
    R: Runtime,
    ensures { IsUpToDate is_quiet host.old host.new }
{
    join_unless(host, is_quiet);
    host.keep_traces();
}

/// Joins the threads of the parts that ended, unless this is to be left out.
pub(crate) fn join_unless<M, R>(host: &mut Host<M, R>, is_left_out: bool)
where
    M: Maker + Drop,
    R: Runtime,
    ensures { JoinsUnless is_left_out host.old host.new }
{
    if !is_left_out {
        host.collect();
    }
}

/// Returns the names of a folder, and whether these are the names it had before.
fn names_now<R: Files + Clock + Copy>(
    rt: &R,
    alloc: Global,
    folder: &str,
    names: &mut Option<FolderNames>,
) -> Result<(FolderNames, bool), ListFault> {
    match names.take() {
        Some(known) if has_names(rt, folder, &known) => Ok((known, true)),
        known => {
            *names = known;
            let found = list_names(rt, alloc, folder, SystemClock::new(*rt).now())?;
            Ok((found, false))
        }
    }
}

/// Returns the rows of these names that a scan needs, unless the round is idle. Notes whether the scan needs any.
fn rows_needed<M, R>(
    rt: &R,
    alloc: Global,
    host: &Host<M, R>,
    quiet: &mut Quiet,
    folder: &str,
    names: &[String],
) -> Result<Vec<DirRow>, ListFault>
where
    M: Maker + Drop,
    R: Files + Runtime,
    ensures { FindsRows host.now.table.slots (map string_bytes names.now) quiet.old (rows_in result) quiet.new }
{
    if quiet.is_idle {
        return Ok(Vec::new(alloc));
    }
    let Ok(needed) = needed_names(alloc, host, names) else {
        return Err(ListFault::OutOfMemory);
    };
    *quiet = quiet.listed(!needed.is_empty());
    list_rows(rt, alloc, folder, needed)
}

/// Returns whether there are too few descriptors for these rows, if they come from the first listing.
fn first_shortage(is_first: bool, rows: &[DirRow]) -> Option<Shortage>
    ensures { IsFirstShortage is_first rows.now result }
{
    if is_first {
        shortage(rows, allowed_descriptors())
    } else {
        None
    }
}

/// Looks at the folder. If it has not changed, it is not listed again. If also nothing has happened to a service since
/// a scan needed no row, and no part waits to be admitted to the door, the round is idle.
fn look<M, R>(
    rt: &R,
    alloc: Global,
    running: &mut RunningHost<M, R>,
    folder: &str,
) -> Result<Listing, ListFault>
where
    M: FolderHolder + Drop,
    R: Files + Runtime,
    ensures { Looks running.old.host running.old.quiet (rows_listed result) running.new.host running.new.quiet }
{
    let is_first = running.names.is_none();
    let (names, has_names) = match names_now(rt, alloc, folder, &mut running.names) {
        Ok(found) => found,
        Err(fault) => return Err(fault),
    };
    let any_waits = any_waits(&mut running.host);
    running.quiet = running.quiet.looked(has_names, any_waits);
    let rows = rows_needed(
        rt,
        alloc,
        &running.host,
        &mut running.quiet,
        folder,
        &names.names,
    );
    let unnamed = names.unnamed;
    running.names = Some(names);
    match rows {
        Ok(rows) => Ok(Listing {
            shortage: first_shortage(is_first, &rows),
            rows,
            unnamed,
        }),
        Err(fault) => Err(fault),
    }
}

/// Lists a folder, after the threads of the parts that ended are joined. A rest may begin.
pub(crate) fn list<M, R>(
    rt: &R,
    alloc: Global,
    running: &mut RunningHost<M, R>,
    folder: &str,
) -> Result<Listing, ListFault>
where
    M: FolderHolder + Drop,
    R: Files + Runtime,
    ensures { Lists running.old.host running.old.quiet result running.new.host running.new.quiet }
{
    running.rests_since = rt.monotonic().ok();
    // This comes before threads are joined, so that whatever ends meanwhile is seen the next time.
    let activity = running.host.activity();
    running.quiet = running.quiet.read(activity);
    bring_up_to_date(&mut running.host, running.quiet.is_quiet());
    look(rt, alloc, running, folder)
}
