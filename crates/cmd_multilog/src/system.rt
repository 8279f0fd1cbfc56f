//! The system's own folders.
ghost use Rattle.std.specs.Prelude.{◌<◌, ◌≤◌, length, IfOk};

use crate::log_system::{LogFolder, LogSystem, StatusPlace};
use crate::names::FileName;
use std::alloc::{AllocError, Allocator, Global};
use std::fs::{DirBuilder, File, Files, OpenOptions, Permissions};
use std::io::{Error, ErrorKind, Write};
use std::os::unix::fs::{DirBuilderExt, OpenOptionsExt, PermissionsExt};
use std::{fs, io, str};

/// The modes of what is made, without the bits of the umask, as in daemontools: only the owner reads a log's folder and
/// takes its lock.
const FOLDER_MODE: u32 = 0o700;

const LOCK_MODE: u32 = 0o600;

const STATUS_MODE: u32 = 0o600;

/// The mode of a current file, whatever the umask is.
const CURRENT_MODE: u32 = 0o644;

/// The mode of a current file that is complete and on the disk, and therefore of an old file.
const FINISHED_MODE: u32 = 0o744;

/// The bits of a mode that let others than the owner do something.
const OTHERS: u32 = 0o077;

/// The most tries of a write that is interrupted.
const TRIES: u32 = 1000;

/// The folder of a log on this system. It says nothing to contracts.
#[derive(Drop)]
pub struct SystemLogFolder<R: Files<File = File> + Drop, A: Allocator = Global> {
    runtime: R,
    alloc: A,
    path: String<A>,
    lock: Option<File>,
    current: Option<File>,
}

/// Returns the text of a name or a path.
fn text_of(bytes: &[u8]) -> io::Result<&str> {
    match str::from_utf8(bytes) {
        Ok(text) => Ok(text),
        Err(_) => Err(Error::from(ErrorKind::InvalidInput)),
    }
}

/// Returns the path of a name in a folder.
fn path_in<A: Allocator>(alloc: A, folder: &str, name: &str) -> Result<String<A>, AllocError> {
    let mut path = String::from_str(alloc, folder)?;
    path.push('/')?;
    path.push_str(name)?;
    Ok(path)
}

/// Opens a file for appending. Makes it with a mode if it is missing.
fn open_to_append<R: Files<File = File>>(runtime: &R, path: &str, mode: u32) -> io::Result<File> {
    let mut how = OpenOptions::new();
    how.append(true).create(true).mode(mode);
    how.open(runtime, path)
}

/// Closes a lock to others, who could otherwise hold it for ever. Only its owner may do that; a lock of somebody else
/// stays as it is.
fn close_to_others(lock: &File) {
    if let Ok(found) = lock.metadata() {
        if found.permissions().mode() & OTHERS != 0 {
            let _owned = lock.set_permissions(Permissions::from_mode(LOCK_MODE));
        }
    }
}

/// Writes a front of the piece, and tries again if a write was interrupted.
fn write_front<W: Write>(writer: &mut W, piece: &[u8]) -> io::Result<usize>
    ensures bound { IfOk result (λ count. count ≤ length piece.now) }
    ensures some { IfOk result (λ count. 0 < length piece.now → 0 < count) }
{
    for _ in 0..TRIES {
        match writer.write(piece) {
            Ok(count) => {
                if count == 0 && !piece.is_empty() {
                    return Err(Error::from(ErrorKind::WriteZero));
                }
                return Ok(count);
            }
            Err(fault) => {
                if fault.kind() != ErrorKind::Interrupted {
                    return Err(fault);
                }
            }
        }
    }
    Err(Error::from(ErrorKind::Interrupted))
}

impl<R: Files<File = File> + Drop, A: Allocator + Clone> SystemLogFolder<R, A> {
    /// Returns the path of a name in the folder.
    fn path_of(&self, name: &str) -> io::Result<String<A>> {
        Ok(path_in(self.alloc.clone()?, self.path.as_str(), name)?)
    }

    /// Gives the current file the mode of a finished one.
    fn mark_finished(&self) -> io::Result<()> {
        match &self.current {
            Some(file) => file.set_permissions(Permissions::from_mode(FINISHED_MODE)),
            None => Err(Error::from(ErrorKind::NotFound)),
        }
    }
}

impl<R: Files<File = File> + Drop, A: Allocator + Clone> LogFolder for SystemLogFolder<R, A> {
    fn lock(&mut self) -> io::Result<()> {
        let path = self.path_of("lock")?;
        let file = open_to_append(&self.runtime, path.as_str(), LOCK_MODE)?;
        close_to_others(&file);
        file.try_lock()?;
        self.lock = Some(file);
        Ok(())
    }

    fn open_current(&mut self) -> io::Result<()> {
        let path = self.path_of("current")?;
        let file = open_to_append(&self.runtime, path.as_str(), CURRENT_MODE)?;
        let _owned = file.set_permissions(Permissions::from_mode(CURRENT_MODE));
        self.current = Some(file);
        Ok(())
    }

    fn length(&mut self) -> io::Result<u64> {
        match &self.current {
            Some(file) => Ok(file.metadata()?.len()),
            None => Err(Error::from(ErrorKind::NotFound)),
        }
    }

    fn names<B: Allocator + Clone>(&mut self, alloc: &B) -> io::Result<Vec<FileName<B>, B>> {
        let mut names = Vec::new(alloc.clone()?);
        for entry in fs::read_dir(&(&self.runtime, alloc), self.path.as_str())? {
            let entry = entry?;
            names.push(FileName::new(alloc.clone()?, entry.file_name().as_bytes())?)?;
        }
        Ok(names)
    }

    fn append(&mut self, piece: &[u8]) -> io::Result<usize> {
        match &mut self.current {
            Some(file) => write_front(file, piece),
            None => Err(Error::from(ErrorKind::NotFound)),
        }
    }

    fn sync(&mut self) -> io::Result<()> {
        match &self.current {
            Some(file) => file.sync_all(),
            None => Err(Error::from(ErrorKind::NotFound)),
        }
    }

    fn rename(&mut self, name: &[u8]) -> io::Result<()> {
        if self.current.is_none() {
            return Err(Error::from(ErrorKind::NotFound));
        }
        let old = self.path_of(text_of(name)?)?;
        match fs::symlink_metadata(&self.runtime, old.as_str()) {
            Ok(_) => return Err(Error::from(ErrorKind::AlreadyExists)),
            Err(fault) => {
                if fault.kind() != ErrorKind::NotFound {
                    return Err(fault);
                }
            }
        }
        let path = self.path_of("current")?;
        self.mark_finished()?;
        fs::rename(&self.runtime, path.as_str(), old.as_str())?;
        self.current = None;
        Ok(())
    }

    fn remove(&mut self, name: &[u8]) -> io::Result<()> {
        fs::remove_file(&self.runtime, self.path_of(text_of(name)?)?.as_str())
    }
}

/// The place of a status file on this system. It says nothing to contracts.
#[derive(Drop)]
pub struct SystemStatus<R: Files<File = File> + Drop, A: Allocator = Global> {
    runtime: R,
    path: Vec<u8, A>,
    new: Vec<u8, A>,
}

/// Makes a new file at a path. Removes what is already there first, so that no link is followed.
fn make_anew<R: Files<File = File>>(runtime: &R, path: &str) -> io::Result<File> {
    let mut how = OpenOptions::new();
    how.write(true).create_new(true).mode(STATUS_MODE);
    match how.open(runtime, path) {
        Err(fault) if fault.kind() == ErrorKind::AlreadyExists => {
            fs::remove_file(runtime, path)?;
            how.open(runtime, path)
        }
        opened => opened,
    }
}

/// Makes a new file with this content and this mode.
fn write_file<R: Files<File = File>>(
    runtime: &R,
    path: &str,
    content: &[u8],
    mode: u32,
) -> io::Result<()> {
    let mut file = make_anew(runtime, path)?;
    if mode != STATUS_MODE {
        file.set_permissions(Permissions::from_mode(mode))?;
    }
    file.write_all(content)
}

/// Returns the mode of the file at a path, or that of a new status file if there is none.
fn mode_at<R: Files<File = File>>(runtime: &R, path: &str) -> u32 {
    match fs::metadata(runtime, path) {
        Ok(found) if found.is_file() => found.permissions().mode() & 0o777,
        _ => STATUS_MODE,
    }
}

impl<R: Files<File = File> + Drop, A: Allocator + Clone> StatusPlace for SystemStatus<R, A> {
    fn replace(&mut self, content: &[u8]) -> io::Result<()> {
        let new = text_of(&self.new)?;
        let path = text_of(&self.path)?;
        write_file(&self.runtime, new, content, mode_at(&self.runtime, path))?;
        fs::rename(&self.runtime, new, path)
    }
}

/// The folders and files of this system, and its standard error. It says nothing to contracts.
#[derive(Drop)]
pub struct SystemLogs<R: Files<File = File> + Copy + Drop, E: Write + Drop, A: Allocator = Global> {
    runtime: R,
    faults: E,
    alloc: A,
}

impl<R: Files<File = File> + Copy + Drop, E: Write + Drop, A: Allocator> SystemLogs<R, E, A> {
    /// Makes the logs of this runtime. Alerts go to this writer.
    pub fn new(runtime: R, faults: E, alloc: A) -> SystemLogs<R, E, A> {
        SystemLogs {
            runtime,
            faults,
            alloc,
        }
    }
}

impl<R: Files<File = File> + Copy + Drop, E: Write + Drop, A: Allocator + Clone> LogSystem
    for SystemLogs<R, E, A> {
    type Folder = SystemLogFolder<R, A>;

    type Status = SystemStatus<R, A>;

    fn folder(&mut self, path: &[u8]) -> io::Result<SystemLogFolder<R, A>> {
        let path = String::from_str(self.alloc.clone()?, text_of(path)?)?;
        let alloc = self.alloc.clone()?;
        let mut how = DirBuilder::new();
        how.mode(FOLDER_MODE);
        match how.create(&self.runtime, path.as_str()) {
            Ok(()) => {}
            Err(fault) => {
                if fault.kind() != ErrorKind::AlreadyExists {
                    return Err(fault);
                }
            }
        }
        Ok(SystemLogFolder {
            runtime: self.runtime,
            alloc,
            path,
            lock: None,
            current: None,
        })
    }

    fn take_back(&mut self, _folder: SystemLogFolder<R, A>) {}

    fn status_file(&self, path: &[u8]) -> Result<SystemStatus<R, A>, AllocError> {
        let mut own = Vec::new(self.alloc.clone()?);
        own.extend_from_slice(path)?;
        let mut new = Vec::new(self.alloc.clone()?);
        new.extend_from_slice(path)?;
        new.extend_from_slice(b".new")?;
        Ok(SystemStatus {
            runtime: self.runtime,
            path: own,
            new,
        })
    }

    fn alert(&mut self, piece: &[u8]) -> io::Result<usize> {
        write_front(&mut self.faults, piece)
    }
}
