//! The processes of the services in a folder, read from their places.
use crate::folder::FileId;
use crate::processes::{OwnRun, path_of_process};
use arrayvec::ArrayVec;
use cmd_base::read_front;
use std::alloc::{AllocError, Global};
use std::fs::{File, Files};
use std::sync::{Mutex, Wait};
use std::{fs, io};
use svc_record::{PLACE_BYTES, Place, ProcessId, first_line, read_place, read_process};

/// What is known of the services next to a service.
#[derive(Drop)]
pub(crate) struct Near {
    /// Their recorded processes.
    pub(crate) known: Vec<ProcessId>,
    /// The folders of those whose start is not known either.
    open: Vec<FileId>,
}

impl Near {
    /// Returns the number, counted from 1, of the open folder in which a process runs. Returns 0 if it runs in none.
    pub(crate) fn folder_of<R: Files<File = File>>(&self, files: &R, pid: u32) -> u64 {
        let there = FileId::found(fs::metadata(files, path_of_process(pid, "cwd").as_str()));
        match self.open.iter().position(|open| Some(*open) == there) {
            Some(place) => place as u64 + 1,
            None => 0,
        }
    }
}

/// The services next to a service: those of one folder, and their loggers.
#[derive(Drop)]
pub struct Neighbours {
    files: HostRuntime,
    alloc: Global,
    folder: Mutex<String>,
}

impl Neighbours {
    /// Makes the neighbours of no folder.
    pub fn new(files: HostRuntime, alloc: Global) -> Neighbours {
        Neighbours {
            files,
            alloc,
            folder: Mutex::new(String::new(alloc)),
        }
    }

    /// Uses the services of this folder from now on.
    pub fn set_folder<R: Wait>(&self, rt: &R, folder: &str) -> Result<(), AllocError> {
        let folder = String::from_str(self.alloc, folder)?;
        *self.folder.lock(rt) = folder;
        Ok(())
    }

    /// Returns what is known of them in this run of the system. It is used for a service whose start the svscan of this
    /// session intended.
    #[inline(never)]
    pub(crate) fn near<R: Wait>(&self, rt: &R, own: &OwnRun, session: u64) -> io::Result<Near> {
        let folder = self.folder.lock(rt);
        let mut near = Near {
            known: Vec::new(self.alloc),
            open: Vec::new(self.alloc),
        };
        for entry in fs::read_dir(&(&self.files, &self.alloc), folder.as_str())? {
            match entry {
                Ok(entry) => self.add(&mut near, folder.as_str(), entry.file_name(), own, session)?,
                // A name that is not text is not a service.
                Err(fault) if fault.kind() == io::ErrorKind::InvalidFilename => {}
                Err(fault) => return Err(fault),
            }
        }
        Ok(near)
    }

    // Adds what is known of the service with this name in a folder, and of its logger.
    fn add(
        &self,
        near: &mut Near,
        folder: &str,
        name: &str,
        own: &OwnRun,
        session: u64,
    ) -> io::Result<()> {
        let service = format!(in self.alloc; "{folder}/{name}")?;
        let logger = format!(in self.alloc; "{folder}/{name}/log")?;
        for path in [service.as_str(), logger.as_str()] {
            let place = self.place_at(path)?;
            if is_open(place, own, session)
                && let Some(folder) = FileId::found(fs::metadata(&self.files, path))
            {
                near.open.push(folder)?;
            }
            if let Some(process) = self.process_at(path, place, own)? {
                near.known.push(process)?;
            }
        }
        Ok(())
    }

    // Returns what the place of the service in a folder says.
    fn place_at(&self, path: &str) -> io::Result<Option<Place>> {
        let path = format!(in self.alloc; "{path}/supervise/place")?;
        match self.front::<PLACE_BYTES>(path.as_str())? {
            Some(text) => Ok(read_place(first_line(text.as_slice()))),
            None => Ok(None),
        }
    }

    // Returns the process recorded for the service in a folder, which has this place, if one from this boot is
    // recorded.
    fn process_at(
        &self,
        path: &str,
        place: Option<Place>,
        own: &OwnRun,
    ) -> io::Result<Option<ProcessId>> {
        if let Some(place) = place {
            let boot = place.boot;
            if place.pid > 0 && own.is_in(&boot) {
                return Ok(place.occupant());
            }
        }
        let path = format!(in self.alloc; "{path}/supervise/process")?;
        match self.front::<128>(path.as_str())? {
            Some(text) => Ok(read_process(text.as_slice())),
            None => Ok(None),
        }
    }

    // Returns the front of a file, if it exists.
    fn front<const N: usize>(&self, path: &str) -> io::Result<Option<ArrayVec<u8, N>>> {
        match read_front::<HostRuntime, N>(&self.files, path) {
            Ok(front) => Ok(Some(front)),
            Err(fault) if is_absent(&fault) => Ok(None),
            Err(fault) => Err(fault),
        }
    }
}

// Returns whether a place intends a start by the svscan of this session, in this run of the system.
fn is_open(place: Option<Place>, own: &OwnRun, session: u64) -> bool {
    match place {
        Some(place) => {
            place.is_intent() && place.session == session && place.is_of_run(&own.vacant())
        }
        None => false,
    }
}

// Returns whether a fault says that there is no such file. Something else than a file may be there.
fn is_absent(fault: &io::Error) -> bool {
    matches!(
        fault.kind(),
        io::ErrorKind::NotFound | io::ErrorKind::NotADirectory | io::ErrorKind::InvalidInput
    )
}
