//! How svscan begins: its host is made, and svscan itself is served.
ghost use Rattle.std.specs.Prelude.{◌≡◌, None, OnErr};
ghost use Rattle.cmd_svscan.specs.Beginning.{Begins, BeginsIf, Opens, OpensAndBegins, unserved};

use crate::asking::serve_own;
use crate::own_status::own_record;
use crate::running::{MAIL, RunningHost, SystemHost, open_host};
use std::alloc::Global;
use std::fs::Files;
use std::net::Net;
use std::process::{Processes, SystemProcess};
use std::{fs, process};
use svc_host::Runtime;
use svc_maker::{FolderHolder, OwnFault};
use svc_system::FolderFault;
use svscan_rounds::Startup;
use tai_status::Cause;

/// Returns what is said about svscan itself if it is not served.
fn unserved(fault: OwnFault) -> Startup
    ensures { result ≡ unserved fault }
{
    match fault {
        OwnFault::Unopened(FolderFault::Locked) => Startup::Locked,
        OwnFault::Unopened(FolderFault::NotOpened(cause)) | OwnFault::NotAdmitted(cause) =>
            Startup::Unserved(cause),
    }
}

/// Serves svscan itself in a folder. Its control bytes come to its inbox from then on.
fn begin<M, R>(
    rt: R,
    files: HostRuntime,
    alloc: Global,
    running: &mut RunningHost<M, R>,
    folder: &str,
) -> Startup
where
    M: FolderHolder + Drop,
    R: Runtime,
    ensures { Begins folder.now running.old running.new }
{
    let Ok(path) = format!(in alloc; "{folder}/.svscan") else {
        return Startup::Unserved(Cause::NoMemory);
    };
    let Some((sender, inbox)) = running.host.own_mailbox(MAIL) else {
        return Startup::Unserved(Cause::NoMemory);
    };
    let record = own_record(rt, process::id(files.process()));
    match serve_own(&mut running.host, path, &record, sender) {
        Ok(()) => {
            running.inbox = Some(inbox);
            Startup::Served
        }
        Err(fault) => unserved(fault),
    }
}

/// Makes the host, if there is none. A fault says why it can't be made.
pub(crate) fn open<R>(
    rt: R,
    files: HostRuntime,
    alloc: Global,
    running: &mut Option<SystemHost<R>>,
) -> Result<(), Cause>
where
    R: Files + Net + Processes<Started = SystemProcess>,
    R: Runtime + Sync,
    ensures opens { Opens running.old running.new }
    ensures refused { OnErr result (running.new ≡ None) }
{
    if running.is_none() {
        *running = Some(open_host(rt, files, alloc)?);
    }
    Ok(())
}

/// Checks that the folder of the services can be read. A fault says why it can't.
fn read_folder<R: Files>(rt: &R, alloc: Global, folder: &str) -> Result<(), Cause> {
    drop(fs::read_dir(&(rt, &alloc), folder)?);
    Ok(())
}

/// Serves svscan itself in a folder that can be read, if there is a host.
fn try_begin<M, R>(
    rt: R,
    files: HostRuntime,
    alloc: Global,
    running: &mut Option<RunningHost<M, R>>,
    folder: &str,
) -> Startup
where
    M: FolderHolder + Drop,
    R: Files + Runtime,
    ensures { BeginsIf folder.now running.old result running.new }
{
    if let Err(cause) = read_folder(&rt, alloc, folder) {
        return Startup::Unread(cause);
    }
    match running {
        Some(running) => begin(rt, files, alloc, running, folder),
        None => Startup::Refused(Cause::NoMemory),
    }
}

/// Makes the host, if there is none, and then serves svscan itself in a folder. If the host can't be made, returns
/// `Refused` with the reason.
pub(crate) fn open_and_begin<R>(
    rt: R,
    files: HostRuntime,
    alloc: Global,
    running: &mut Option<SystemHost<R>>,
    folder: &str,
) -> Startup
where
    R: Files + Net + Processes<Started = SystemProcess>,
    R: Runtime + Sync,
    ensures { OpensAndBegins folder.now running.old result running.new }
{
    if let Err(cause) = open(rt, files, alloc, running) {
        return Startup::Refused(cause);
    }
    try_begin(rt, files, alloc, running, folder)
}
