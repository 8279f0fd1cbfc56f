//! The services of a folder of this system, which are kept running.
ghost use Rattle.std.specs.Prelude.{◌≡◌, option_map};
ghost use Rattle.cmd_svscan.specs.Requests.{EndsIf, HearsIf, LeavesIf, ListsIf, OpensAndLists, RoundsIf};
ghost use Rattle.cmd_svscan.specs.Requests.{Serves, WatchesIf};

use crate::beginning::{open, open_and_begin};
use crate::closing::{end, leave};
use crate::looking::list;
use crate::resting::hear;
use crate::running::{RunningHost, SystemHost};
use crate::scanning::round;
use crate::supervising::{open_and_supervise, watch};
use scan_table::{DirRow, ScanFault};
use std::alloc::Global;
use std::fs::Files;
use std::net::Net;
use std::process::{Processes, SystemProcess};
use std::thread;
use svc_host::{Loss, Maker, PartFault, Runtime};
use svc_maker::FolderHolder;
use svscan_rounds::{
    ListFault, Listing, Remaining, RoundOut, ServiceSet, Sight, Startup, Supervision, Unlogged,
    whole_rest,
};
use tai_status::Cause;

/// What can be requested for the services of a folder.
#[derive(Drop)]
pub enum Request {
    /// To serve svscan itself in a folder.
    Begin(String),
    /// To list a folder.
    List(String),
    /// To make one round over these rows of a folder.
    Round { folder: String, rows: Vec<DirRow> },
    /// To wait for the next of svscan's own control bytes, until the next round is due.
    Hear,
    /// To end all services.
    End,
    /// To leave the services.
    Leave,
    /// To begin the one service in a folder.
    Supervise(String),
    /// To watch over the one service until it is gone, for at most the length of a rest.
    Watch,
}

/// The result of a request: each request has its own kind of response (specs/Requests).
#[derive(Drop)]
pub enum Response {
    /// The response to `Begin`.
    Begun(Startup),
    /// The response to `List`.
    Rows(Result<Listing, ListFault>),
    /// The response to `Round`.
    Round(Result<RoundOut, ScanFault>),
    /// The response to `Hear`.
    Heard(Option<u8>),
    /// The response to `End`.
    Ended(Option<Vec<Remaining>>),
    /// The response to `Leave`.
    Left(Vec<Unlogged>),
    /// The response to `Supervise`.
    Supervised(Supervision),
    /// The response to `Watch`.
    Watched(Sight),
}

/// Returns the next of svscan's own control bytes, or None once the next round is due.
fn hear_or_sleep<M: Maker + Drop, R: Runtime>(
    rt: R,
    running: &mut Option<RunningHost<M, R>>,
) -> Option<u8>
    ensures { HearsIf running.old result running.new }
{
    match running {
        Some(running) => hear(rt, running),
        None => {
            thread::sleep(&rt, whole_rest());
            None
        }
    }
}

/// Continues the end of all services, if there is a host.
fn try_end<M: Maker + Drop, R: Runtime>(
    rt: R,
    alloc: Global,
    running: &mut Option<RunningHost<M, R>>,
) -> Option<Vec<Remaining>>
    ensures { EndsIf running.old (option_map (λ left. left.items) result) running.new }
{
    match running {
        Some(running) => end(rt, alloc, &mut running.host),
        None => None,
    }
}

/// Leaves the services, if there is a host.
fn try_leave<M: FolderHolder + Drop, R: Runtime>(
    rt: R,
    alloc: Global,
    running: &mut Option<RunningHost<M, R>>,
) -> Vec<Unlogged>
    ensures { LeavesIf running.old result.items running.new }
{
    match running {
        Some(running) => leave(rt, alloc, &mut running.host),
        None => Vec::new(alloc),
    }
}

/// Lists a folder, if there is a host.
fn try_list<M, R>(
    rt: &R,
    alloc: Global,
    running: &mut Option<RunningHost<M, R>>,
    folder: &str,
) -> Result<Listing, ListFault>
where
    M: FolderHolder + Drop,
    R: Files + Runtime,
    ensures { ListsIf running.old result running.new }
{
    match running {
        Some(running) => list(rt, alloc, running, folder),
        None => Err(ListFault::OutOfMemory),
    }
}

/// Makes the host, if there is none, and then lists a folder.
fn open_and_list<R>(
    rt: R,
    files: HostRuntime,
    alloc: Global,
    running: &mut Option<SystemHost<R>>,
    folder: &str,
) -> Result<Listing, ListFault>
where
    R: Files + Net + Processes<Started = SystemProcess>,
    R: Runtime + Sync,
    ensures { OpensAndLists running.old result running.new }
{
    let _ = open(rt, files, alloc, running);
    try_list(&rt, alloc, running, folder)
}

/// Makes one round over these rows of a folder, if there is a host.
fn try_round<M: FolderHolder + Drop, R: Runtime>(
    rt: R,
    alloc: Global,
    running: &mut Option<RunningHost<M, R>>,
    folder: &str,
    rows: &[DirRow],
) -> Result<RoundOut, ScanFault>
    ensures { RoundsIf folder.now running.old rows.now result running.new }
{
    match running {
        Some(running) => round(rt, alloc, running, folder, rows),
        None => Err(ScanFault::OutOfMemory),
    }
}

/// Watches over the one service, if there is a host.
fn try_watch<M: FolderHolder + Drop, R: Runtime>(running: &mut Option<RunningHost<M, R>>) -> Sight
    ensures { WatchesIf running.old result running.new }
{
    match running {
        Some(running) => watch(&mut running.host),
        None => Sight::Gone(Loss::NONE),
    }
}

/// Does what is requested. The host is made at the beginning, if it can be. Otherwise it is made at the first listing
/// at which it can be, since memory may be lacking at the beginning.
pub fn handle<R>(
    rt: R,
    files: HostRuntime,
    alloc: Global,
    running: &mut Option<SystemHost<R>>,
    request: Request,
) -> Response
where
    R: Files + Net + Processes<Started = SystemProcess>,
    R: Runtime + Sync,
    ensures { Serves request result running.old running.new }
{
    match request {
        Request::Begin(folder) => {
            Response::Begun(open_and_begin(rt, files, alloc, running, folder.as_str()))
        }
        Request::List(folder) => {
            Response::Rows(open_and_list(rt, files, alloc, running, folder.as_str()))
        }
        Request::Round { folder, rows } => {
            Response::Round(try_round(rt, alloc, running, folder.as_str(), &rows))
        }
        Request::Hear => Response::Heard(hear_or_sleep(rt, running)),
        Request::End => Response::Ended(try_end(rt, alloc, running)),
        Request::Leave => Response::Left(try_leave(rt, alloc, running)),
        Request::Supervise(folder) => {
            Response::Supervised(open_and_supervise(rt, files, alloc, running, folder.as_str()))
        }
        Request::Watch => Response::Watched(try_watch(running)),
    }
}

/// Keeps the services of a folder of this system running, by requests to whatever has their host. It shows contracts
/// nothing of its calls.
///
/// That is a function, not the host itself, because a trait's method can't make threads here.
#[derive(Drop)]
pub struct FolderServices<F: FnMut(Request) -> Response + Drop> {
    alloc: Global,
    handle: F,
}

impl<F: FnMut(Request) -> Response + Drop> FolderServices<F> {
    /// Makes the value that keeps services running by requests to this function. The function may always be called, and
    /// each of its responses is the response of something that is served.
    pub fn new(alloc: Global, handle: F) -> FolderServices<F>
        ensures { result.handle ≡ handle }
    {
        FolderServices { alloc, handle }
    }
}

impl<F: FnMut(Request) -> Response + Drop> ServiceSet for FolderServices<F> {
    ghost use Rattle.cmd_svscan.specs.Requests.{RespondsAsServed};

    // The function may always be called, and its responses are those of something that is served.
    ghost ready = { λ services. F.IsAlwaysCallable services.handle × RespondsAsServed F.post };

    fn begin(&mut self, folder: &str) -> Startup {
        let Ok(folder) = String::from_str(self.alloc, folder) else {
            return Startup::Unserved(Cause::NoMemory);
        };
        match (self.handle)(Request::Begin(folder)) {
            Response::Begun(begun) => begun,
            _ => unreachable!(),
        }
    }

    fn list(&mut self, folder: &str) -> Result<Listing, ListFault> {
        let Ok(folder) = String::from_str(self.alloc, folder) else {
            return Err(ListFault::OutOfMemory);
        };
        match (self.handle)(Request::List(folder)) {
            Response::Rows(listing) => listing,
            _ => unreachable!(),
        }
    }

    fn round(&mut self, folder: &str, rows: Vec<DirRow>) -> Result<RoundOut, ScanFault> {
        let Ok(folder) = String::from_str(self.alloc, folder) else {
            return Err(ScanFault::OutOfMemory);
        };
        match (self.handle)(Request::Round { folder, rows }) {
            Response::Round(out) => out,
            _ => unreachable!(),
        }
    }

    fn hear(&mut self) -> Option<u8> {
        match (self.handle)(Request::Hear) {
            Response::Heard(byte) => byte,
            _ => unreachable!(),
        }
    }

    fn end(&mut self) -> Option<Vec<Remaining>> {
        match (self.handle)(Request::End) {
            Response::Ended(left) => left,
            _ => unreachable!(),
        }
    }

    fn leave(&mut self) -> Vec<Unlogged> {
        match (self.handle)(Request::Leave) {
            Response::Left(unlogged) => unlogged,
            _ => unreachable!(),
        }
    }

    fn supervise(&mut self, folder: &str) -> Supervision {
        let Ok(folder) = String::from_str(self.alloc, folder) else {
            return Supervision::Unmade(PartFault::Refused(Cause::NoMemory));
        };
        match (self.handle)(Request::Supervise(folder)) {
            Response::Supervised(supervision) => supervision,
            _ => unreachable!(),
        }
    }

    fn watch(&mut self) -> Sight {
        match (self.handle)(Request::Watch) {
            Response::Watched(sight) => sight,
            _ => unreachable!(),
        }
    }
}
