//! How the logs and status files of a script are opened.
ghost use Rattle.std.specs.Prelude.{◌≡◌, ◌≤◌, ℕ, [], length, count_by, take, IfErr, OnOk, OnErr};
ghost use Rattle.mlog_script.specs.Script.{is_log, is_file, file_paths};
ghost use Rattle.cmd_multilog.specs.Opening.{IsFault, Opens, OpensUpTo, folders_of};

use crate::fault::OpenFault;
use crate::log_system::LogSystem;
use crate::store::FolderStore;
use mlog_script::Script;
use std::alloc::{AllocError, Allocator};
use std::io::{Error, ErrorKind};
use tai_status::Cause;

/// Returns why a log is not opened.
fn fault_of(error: Error, log: usize) -> OpenFault
    ensures { IsFault error log result }
{
    if error.kind() == ErrorKind::OutOfMemory {
        return OpenFault::OutOfMemory;
    }
    OpenFault::Unopened(log, Cause::of(&error))
}

/// Opens the logs of a script, in order, up to the first one that can't be opened.
fn open_logs<D: LogSystem + Drop, A: Allocator + Clone, B: Allocator + Clone>(
    store: &mut FolderStore<D, A>,
    alloc: &A,
    script: &Script<B>,
) -> Result<(), OpenFault>
    requires none { store.old.logs ≡ [] }
    ensures ok { OnOk result (Opens store.old store.new (folders_of script.now) [] (folders_of script.now)) }
    ensures enough { OnOk result (count_by is_log script.now ≤ length store.new.logs) }
    ensures well { OnOk result (store.new.gave ≡ store.old.gave) }
    ensures err { IfErr result (λ why. OpensUpTo store.old store.new script.now why) }
{
    let mut log = 0;
    while let Some(plan) = script.log(log) {
        match store.open_log(alloc, plan.folder) {
            Ok(()) => log += 1,
            Err(error) => return Err(fault_of(error, log)),
        }
    }
    Ok(())
}

/// Places the status files of a script, in order.
fn place_statuses<D: LogSystem + Drop, A: Allocator + Clone, B: Allocator + Clone>(
    store: &mut FolderStore<D, A>,
    script: &Script<B>,
) -> Result<(), AllocError>
    requires none { store.old.statuses ≡ [] }
    ensures ok { OnOk result (Opens store.old store.new [] (file_paths script.now) []) }
    ensures enough { OnOk result (count_by is_file script.now ≤ length store.new.statuses) }
    ensures gave { store.new.gave ≡ store.old.gave }
    ensures err { OnErr result ((files : ℕ) × Opens store.old store.new [] (take files (file_paths script.now)) []) }
{
    let mut file = 0;
    while let Some(path) = script.file(file) {
        store.add_status(path)?;
        file += 1;
    }
    Ok(())
}

/// Opens the logs of a script, and then places its status files.
pub(crate) fn open_all<D: LogSystem + Drop, A: Allocator + Clone, B: Allocator + Clone>(
    store: &mut FolderStore<D, A>,
    alloc: &A,
    script: &Script<B>,
) -> Result<(), OpenFault>
    requires no_logs { store.old.logs ≡ [] }
    requires no_files { store.old.statuses ≡ [] }

    // If it succeeds, the store has each log and each status file of the script, in order. No call to open a folder
    // failed.
    ensures ok { OnOk result (Opens store.old store.new (folders_of script.now) (file_paths script.now)
        (folders_of script.now)) }
    ensures logs { OnOk result (count_by is_log script.now ≤ length store.new.logs) }
    ensures files { OnOk result (count_by is_file script.now ≤ length store.new.statuses) }
    ensures well { OnOk result (store.new.gave ≡ store.old.gave) }

    // If it fails, the store has only those that come first. The result names the log that the system refused, or it
    // says that memory is missing.
    ensures err { IfErr result (λ why. OpensUpTo store.old store.new script.now why) }
{
    open_logs(store, alloc, script)?;
    match place_statuses(store, script) {
        Ok(()) => Ok(()),
        Err(_) => Err(OpenFault::OutOfMemory),
    }
}
