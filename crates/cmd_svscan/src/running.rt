//! The services of this system that are served.
ghost use Rattle.std.specs.Prelude.{IfOk};
ghost use Rattle.cmd_svscan.specs.Beginning.{IsNew};

use crate::listing::FolderNames;
use std::alloc::Global;
use std::fs::Files;
use std::io;
use std::marker::Model;
use std::net::Net;
use std::process::{Processes, SystemProcess};
use std::time::Duration;
use svc_door::Door;
use svc_host::{Host, Maker, Runtime};
use svc_house::MailInbox;
use svc_maker::{FolderMaker, SystemParts};
use svc_system::AdoptionWatch;
use svscan_rounds::Quiet;

/// The most control bytes that wait for a service, and the most pieces of its output that wait for its logger.
pub(crate) const MAIL: usize = 64;

/// The number of events in a service's trace.
const TRACE: usize = 256;

/// The services of this system that are served: their host, and the inbox for svscan's own control bytes. Contracts see
/// it as `Serving`: the host, whether the next round is idle, and the bytes that came.
#[derive(Drop)]
pub struct RunningHost<M: Maker + Drop, R: Runtime> {
    pub(crate) host: Host<M, R>,
    pub(crate) inbox: Option<MailInbox>,
    // When the last round was over, by the running clock.
    pub(crate) rests_since: Option<Duration>,
    // What the folder had when it was last listed, if it was.
    pub(crate) names: Option<FolderNames>,
    // Whether the next round is idle.
    pub(crate) quiet: Quiet,
}

impl<M: Maker + Drop, R: Runtime> Model for RunningHost<M, R> {
    ghost use Rattle.cmd_svscan.specs.Serving.{Serving, given_by};

    ghost Value = { Serving };

    ghost view = { λ running. record {
      host = running.host;
      quiet = running.quiet;
      given = given_by running.inbox;
    } };
}

/// The services of this system that are served.
pub type SystemHost<R> = RunningHost<FolderMaker<SystemParts<R>>, R>;

/// Opens the door of this system's services, and makes their host.
pub(crate) fn open_host<R>(rt: R, files: HostRuntime, alloc: Global) -> io::Result<SystemHost<R>>
where
    R: Files + Net + Processes<Started = SystemProcess>,
    R: Runtime + Sync,
    ensures { IfOk result IsNew }
{
    let door = Door::open(&rt, alloc)?;
    let adoptions = AdoptionWatch::open(&rt, alloc)?;
    let system = SystemParts::new(rt, files, alloc, door, adoptions)?;
    Ok(RunningHost {
        host: Host::new(rt, alloc, FolderMaker::new(alloc, system), MAIL, TRACE)?,
        inbox: None,
        rests_since: None,
        names: None,
        quiet: Quiet::new(),
    })
}
