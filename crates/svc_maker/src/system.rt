//! The system's own parts of services. It says nothing to contracts.
ghost use Rattle.std.specs.Prelude.{◌≡◌, string_bytes, IfOk};
ghost use Rattle.svc_record.specs.Leftover.{HasNumber};

use crate::descriptors::are_too_few;
use crate::kept_folder::LockedFolder;
use crate::part_system::{NotAdmitted, PartSystem};
use crate::reaper::PartReaper;
use crate::set_up::part_path;
use cmd_base::SystemClock;
use mio::net::UnixListener;
use scan_table::DirRow;
use std::alloc::{AllocError, Global};
use std::fs::{File, Files};
use std::io::{PipeReader, PipeWriter};
use std::net::Net;
use std::os::fd::AsRawFd;
use std::process::{Processes, SystemProcess};
use std::snapshot::Snapshot;
use std::sync::{Arc, Wait};
use std::time::Clock;
use std::{io, process};
use svc_door::Door;
use svc_house::{ControlSender, Notifier};
use svc_record::{Leftover, Place};
use svc_system::{
    AdoptionWatch, ChildReaper, Flow, FolderFault, LoggerInput, Neighbours, OutputEnds, OwnRun,
    Patience, ServiceFolder, SignalShell, Streams, Surroundings, SystemChildren, drain, is_read,
    open_output, prepare_outputs,
};
use svc_world::{ChildWorld, Remains, Takeover};
use tai_status::{Cause, TimeSource};

/// The folder of a service on this system, with its lock.
#[derive(Drop)]
pub struct OpenFolder {
    folder: Arc<ServiceFolder, Global>,
    // The path through which it was opened, for contracts only.
    path: Snapshot<String>,
}

impl LockedFolder for OpenFolder {
    ghost use Rattle.std.specs.Prelude.{string_bytes};

    ghost path = { λ kept. string_bytes kept.path.value };
}

/// What this system does for the parts of services: their folders, children and sockets.
#[derive(Drop)]
pub struct SystemParts<R>
where
    R: Files + Net + Processes<Started = SystemProcess> + Wait + Clock + Copy + Drop,
{
    runtime: R,
    files: HostRuntime,
    alloc: Global,
    clock: SystemClock<R>,
    shared: Arc<Surroundings<R>, Global>,
    door: Door,
    // The time until which locks are tried in this round.
    patience: Patience,
    // The number of descriptors that this process may have, and how many parts were opened in this round and have no
    // sockets yet.
    allowed: u64,
    waiting: u64,
    // This pipe is at its end once the other end is dropped: then outputs watch their flows.
    watch: Arc<PipeReader, Global>,
    unwatched: Option<PipeWriter>,
}

impl<R> SystemParts<R>
where
    R: Files + Net + Processes<Started = SystemProcess> + Wait + Clock + Copy + Drop,
{
    /// Makes the layer with a door, which serves the sockets of parts, and with the thread that watches adopted
    /// processes. Starts the shell for signals.
    pub fn new(
        runtime: R,
        files: HostRuntime,
        alloc: Global,
        door: Door,
        adoptions: AdoptionWatch,
    ) -> io::Result<SystemParts<R>> {
        let (watch, unwatched) = io::pipe(&runtime)?;
        let shared = Surroundings {
            own: OwnRun::find(&files, process::id(files.process())),
            shell: SignalShell::new(runtime, alloc),
            neighbours: Neighbours::new(files, alloc),
            adoptions,
        };
        Ok(SystemParts {
            runtime,
            files,
            alloc,
            clock: SystemClock::new(runtime),
            shared: Arc::new(alloc, shared)?,
            door,
            patience: Patience::new(&runtime),
            allowed: 0,
            waiting: 0,
            watch: Arc::new(alloc, watch)?,
            unwatched: Some(unwatched),
        })
    }

    // Makes the children of the service in a folder, and their reaper.
    fn children(
        &self,
        folder: &OpenFolder,
        name: &str,
        streams: Streams,
        notifier: Arc<Notifier, Global>,
    ) -> Result<(SystemChildren<R>, ChildReaper), AllocError> {
        let shared = Arc::try_clone(&self.shared)?;
        let own = Arc::try_clone(&folder.folder)?;
        SystemChildren::new(
            self.runtime,
            self.files,
            self.alloc,
            own,
            name,
            streams,
            notifier,
            shared,
        )
    }

    // Keeps an open folder, with the path through which it was opened.
    fn keep(&self, folder: ServiceFolder, path: &String) -> Result<OpenFolder, FolderFault>
        ensures { IfOk result (λ kept. string_bytes kept.path.value ≡ string_bytes path.now) }
    {
        match Arc::new(self.alloc, folder) {
            Ok(folder) => Ok(OpenFolder {
                folder,
                path: Snapshot::of(path),
            }),
            Err(_) => Err(FolderFault::NotOpened(Cause::NoMemory)),
        }
    }

    // Makes a pipe. The reading end will be shared by the children of a logger.
    fn logger_pipe(&self) -> io::Result<(Arc<PipeReader, Global>, PipeWriter)> {
        let (reader, writer) = io::pipe(&self.runtime)?;
        Ok((Arc::new(self.alloc, reader)?, writer))
    }

    // Prepares the outputs of the services of rows that have loggers.
    fn try_prepare(&self, folder: &str, rows: &[DirRow]) -> io::Result<()> {
        let mut folders = Vec::new(self.alloc);
        for row in rows {
            if row.is_eligible() && row.is_pair() {
                folders.push(part_path(self.alloc, folder, row.name.as_str())?)?;
            }
        }
        prepare_outputs(&self.runtime, &self.files, self.alloc, &folders)
    }

    // Returns whether there are too few descriptors for one more part. At least as many descriptors are taken as the
    // number of the lowest free one says.
    fn lacks_descriptors(&self) -> io::Result<bool> {
        let lowest = u64::from(self.watch.try_clone()?.as_raw_fd().unsigned_abs());
        Ok(are_too_few(lowest, self.waiting, self.allowed))
    }

    // Returns what is left over from the start that the place of a service intends. While that is not sure, looks again
    // as long as there is patience: processes that a killed svscan had started for itself end soon.
    fn leftover(&self, folder: &ServiceFolder, place: &Place) -> Leftover
        ensures { HasNumber result }
    {
        for _ in self.runtime.forever() {
            let found = self
                .shared
                .leftover(&self.runtime, self.alloc, folder, place);
            if !matches!(found, Leftover::Unsure(_)) || !self.patience.wait(&self.runtime) {
                return found;
            }
        }
        unreachable!()
    }

    // Opens the sockets of a folder: `control` and `ok`.
    fn sockets(&self, folder: &ServiceFolder) -> io::Result<(UnixListener, UnixListener)> {
        Ok((folder.control(&self.runtime)?, folder.ok(&self.runtime)?))
    }
}

/// Returns ends of pipes as the standard streams of children. They are shared with the pair.
fn shared(
    input: Option<&Arc<PipeReader, Global>>,
    output: Option<&Arc<File, Global>>,
) -> Result<Streams, AllocError> {
    let input = match input {
        Some(end) => Some(Arc::try_clone(end)?),
        None => None,
    };
    let output = match output {
        Some(end) => Some(Arc::try_clone(end)?),
        None => None,
    };
    Ok(Streams { input, output })
}

impl<R> PartSystem for SystemParts<R>
where
    R: Files + Net + Processes<Started = SystemProcess> + Wait + Clock + Copy + Drop,
{
    ghost use Rattle.svc_world.specs.Watch as watch;

    type Folder = OpenFolder;

    type World = Box<ChildWorld<SystemChildren<R>>>;

    type Reaper = PartReaper;

    ghost HasTaken = { λ world taken. watch.HasTaken world.value taken };

    fn set_allowed(&mut self, descriptors: u64) {
        self.allowed = descriptors;
    }

    fn prepare(&mut self, folder: &str, rows: &[DirRow]) {
        self.waiting = 0;
        self.patience = Patience::new(&self.runtime);
        let _ = self.shared.neighbours.set_folder(&self.runtime, folder);
        let _ = self.try_prepare(folder, rows);
    }

    fn pipe(
        &mut self,
        flow: &Arc<Flow, Global>,
    ) -> Result<(Arc<PipeReader, Global>, LoggerInput), Cause> {
        let flow = Arc::try_clone(flow)?;
        let (reader, writer) = self.logger_pipe()?;
        Ok((reader, LoggerInput::new(writer, flow)))
    }

    fn output(&mut self, path: &str) -> Result<OutputEnds, FolderFault> {
        open_output(
            &self.runtime,
            &self.files,
            self.alloc,
            path,
            &self.patience,
            &self.watch,
        )
    }

    fn open(&mut self, path: String) -> Result<OpenFolder, FolderFault> {
        let folder = ServiceFolder::open(&self.runtime, self.files, path.as_str(), &self.patience)?;
        if self.lacks_descriptors()? {
            return Err(FolderFault::NotOpened(Cause::NoDescriptor));
        }
        self.waiting = self.waiting.saturating_add(1);
        self.keep(folder, &path)
    }

    fn open_own(&mut self, path: String) -> Result<OpenFolder, FolderFault> {
        let folder = ServiceFolder::open_own(&self.runtime, self.files, path.as_str())?;
        self.keep(folder, &path)
    }

    fn record(&mut self, folder: &OpenFolder, bytes: &[u8; 20]) -> bool {
        folder.folder.replace_status(bytes).is_ok()
    }

    fn watch_outputs(&mut self) {
        drop(self.unwatched.take());
    }

    fn remains(&mut self, folder: &OpenFolder) -> Remains {
        let own = self.shared.own;
        let place = folder.folder.place(&own);
        let intended = folder.folder.intended(&own, place);
        let over = match &intended {
            Some(place) => Some(self.leftover(&folder.folder, place)),
            None => None,
        };
        let left = folder.folder.left(&own, place, over, self.clock.now());
        Remains::of(&own.vacant(), left, intended)
    }

    fn world(
        &mut self,
        folder: &OpenFolder,
        name: &str,
        taken: &Takeover,
        input: Option<&Arc<PipeReader, Global>>,
        output: Option<&Arc<File, Global>>,
        notifier: Arc<Notifier, Global>,
    ) -> Result<(Box<ChildWorld<SystemChildren<R>>>, PartReaper), Cause> {
        let streams = shared(input, output)?;
        let _ = folder.folder.remove_earlier();
        let (mut children, reaper) = self.children(folder, name, streams, notifier)?;
        if let Some(process) = &taken.adopted {
            children.try_adopt(process.pid, process.tick)?;
        }
        let world = ChildWorld::new(children, self.shared.own.session, taken);
        match Box::new(self.alloc, world) {
            Ok(world) => Ok((world, PartReaper { reaper })),
            Err(refused) => Err(AllocError::from(refused).into()),
        }
    }

    fn admit(
        &mut self,
        number: u64,
        folder: &OpenFolder,
        sender: ControlSender,
    ) -> Result<(), NotAdmitted> {
        let (control, ok) = match self.sockets(&folder.folder) {
            Ok(sockets) => sockets,
            Err(fault) => {
                let cause = Cause::from(fault);
                return Err(NotAdmitted { sender, cause });
            }
        };
        self.waiting = self.waiting.saturating_sub(1);
        match self.door.admit(&self.runtime, number, sender, control, ok) {
            Ok(()) => Ok(()),
            Err(refused) => Err(NotAdmitted {
                sender: refused.sender,
                cause: Cause::from(refused.fault),
            }),
        }
    }

    fn dismiss(&mut self, number: u64, folder: &OpenFolder) {
        drop(self.door.dismiss(&self.runtime, number));
        let _ = folder.folder.remove_sockets();
    }

    fn keep_trace(&mut self, folder: &OpenFolder, text: &[u8]) -> bool {
        folder.folder.replace_trace(text).is_ok()
    }

    fn end_output(&mut self, flow: &Flow, at_once: bool) {
        flow.end(at_once);
    }

    fn is_read(&mut self, input: &PipeReader) -> bool {
        is_read(input)
    }

    fn between(&mut self, flow: &Flow) -> u64 {
        flow.between()
    }

    fn drain(&mut self, input: &PipeReader) -> u64 {
        drain(input).unwrap_or(0)
    }
}
