//! The folder of a service on this system.
//!
//! A call of the file system keeps its path on the stack, with room for the longest path, and the thread of a service
//! never gives back the stack that it has touched. Each function that makes such calls therefore has a frame of its
//! own, which is gone before the next call.
ghost use Rattle.std.specs.Prelude.{◌≡◌, ◌↔◌, ◌≤◌, [], IfErr, IfOk, IfSome, IsTrue, Some, length};
ghost use Rattle.svc_system.specs.Left.{IsOneFile};

use crate::access::{Access, given};
use crate::notification::FIFO;
use crate::output::is_fifo;
use crate::patience::Patience;
use crate::private_files::{
    FILE_MODE, make_private, make_supervise, open_lock, overwrite, remove, write_private,
};
use arrayvec::{ArrayString, ArrayVec};
use cmd_base::{check_file, path_by_descriptor, read_front};
use std::fs::{File, Files, Metadata, OpenOptions, TryLockError};
use std::io::{Error, ErrorKind};
use std::os::fd::AsRawFd;
use std::os::unix::fs::{MetadataExt, OpenOptionsExt, PermissionsExt};
use std::sync::Wait;
use std::time::Clock;
use std::{fs, io};
use svc_record::{PLACE_BYTES, moment_in};
use tai_status::{Cause, Label};
use thiserror::Error;

/// The bits of a mode that let somebody execute the file.
const EXECUTABLE: u32 = 0o111;

/// The longest text of a file that holds a number.
const SETTING_BYTES: usize = 64;

/// The text of a file that holds a number.
pub(crate) type SettingText = ArrayVec<u8, SETTING_BYTES>;

/// The least number of bytes in a status record.
const STATUS_BYTES: u64 = 20;

/// The longest path of a name in a folder that is reached by descriptor.
const PATH_BYTES: usize = 64;

/// A path that begins at a descriptor.
pub(crate) type ShortPath = ArrayString<PATH_BYTES>;

/// Why a folder is not held.
#[derive(Clone, Copy, Debug, PartialEq, Eq, Error)]
pub enum FolderFault {
    /// Somebody else holds its lock.
    #[error("unable to lock")]
    Locked,
    /// It is not a folder, or something in it could not be opened or made.
    #[error("unable to open")]
    NotOpened(Cause),
}

impl From<Error> for FolderFault {
    fn from(fault: Error) -> FolderFault {
        FolderFault::NotOpened(Cause::of(&fault))
    }
}

/// What identifies a file, whatever its names are.
#[derive(Clone, Copy, Debug, PartialEq, Eq)]
pub(crate) struct FileId {
    device: u64,
    inode: u64,
}

impl FileId {
    /// Returns the id of the file that has this metadata.
    pub(crate) fn of(found: &Metadata) -> FileId {
        FileId {
            device: found.dev(),
            inode: found.ino(),
        }
    }

    /// Returns the id of the file that was found. Returns None if none was.
    pub(crate) fn found(found: io::Result<Metadata>) -> Option<FileId> {
        Some(FileId::of(&found.ok()?))
    }
}

/// Returns whether both files exist and are the same file.
pub(crate) fn is_one_file(there: Option<FileId>, here: Option<FileId>) -> bool
    ensures { IsTrue result ↔ IsOneFile there here }
{
    match (there, here) {
        (Some(there), Some(here)) => there == here,
        _ => false,
    }
}

/// The folder of a service, with its lock. It is held by descriptor, so that it can be reached whatever happens to its
/// path, and however long that path is. It says nothing to contracts.
///
/// It uses the runtime itself for its files, not a type parameter, so that any thread can use it.
#[derive(Drop)]
pub struct ServiceFolder {
    pub(crate) files: HostRuntime,
    pub(crate) service: File,
    // The access of the status record, if an administrator gave it to somebody.
    status: Option<Access>,
    _lock: File,
}

/// Returns whether a fault says that something is there from which no text can be read.
fn is_unfit(fault: ErrorKind) -> bool {
    matches!(fault, ErrorKind::InvalidInput | ErrorKind::PermissionDenied)
}

/// Returns the text of a setting, if there is one, after its file was read. What is no file, or may not be read, has no
/// text.
fn text_of_setting(read: io::Result<SettingText>) -> Option<SettingText>
    ensures read { IfOk read (λ text. result ≡ Some text) }
    ensures unread { IfErr read (λ _. IfSome result (λ text. text.items ≡ [])) }
{
    match read {
        Ok(text) => Some(text),
        Err(fault) if is_unfit(fault.kind()) => Some(SettingText::new()),
        Err(_) => None,
    }
}

/// Returns whether somebody can execute a file with this mode.
fn is_executable(mode: u32) -> bool {
    mode & EXECUTABLE != 0
}

/// Returns the path of a name in an open folder.
pub(crate) fn path_in(folder: &File, name: &str) -> ShortPath
    requires { length name.now ≤ 23 }
{
    path_by_descriptor(folder.as_raw_fd().unsigned_abs(), name)
}

/// Opens a folder. Returns `NotADirectory` if the path names something else.
pub(crate) fn open_folder<R: Files<File = File>>(runtime: &R, path: &str) -> io::Result<File> {
    if !fs::metadata(runtime, path)?.is_dir() {
        return Err(Error::from(ErrorKind::NotADirectory));
    }
    fs::open(runtime, path)
}

/// Returns whether the lock in the folder at a path is held. Changes nothing there, not even a time.
fn is_held<R: Files<File = File>>(runtime: &R, path: &str) -> bool {
    let Ok(folder) = open_folder(runtime, path) else {
        return false;
    };
    let path = path_in(&folder, "supervise/lock");
    if check_file(runtime, path.as_str()).is_err() {
        return false;
    }
    let Ok(lock) = fs::open(runtime, path.as_str()) else {
        return false;
    };
    match lock.try_lock() {
        // A child that is just being started has the file too: closing it alone would leave the lock.
        Ok(()) => lock.unlock().is_err(),
        Err(TryLockError::WouldBlock) => true,
        Err(TryLockError::Error(_)) => false,
    }
}

/// Waits while the lock in the folder at a path is held. Returns `Locked` if patience runs out.
fn while_held<R: Clock + Wait>(
    rt: &R,
    files: &HostRuntime,
    path: &str,
    patience: &Patience,
) -> Result<(), FolderFault> {
    for _ in rt.forever() {
        if !is_held(files, path) {
            return Ok(());
        }
        if !patience.wait(rt) {
            return Err(FolderFault::Locked);
        }
    }
    unreachable!()
}

/// Returns the access of the status record in an open folder, if an administrator gave it to somebody.
fn given_status(files: &HostRuntime, service: &File) -> Option<Access> {
    let path = path_in(service, "supervise/status");
    let found = fs::symlink_metadata(files, path.as_str()).ok()?;
    let before = if found.is_file() {
        Some(Access::of(&found))
    } else {
        None
    };
    given(before, &Access::own(files, FILE_MODE)?)
}

impl ServiceFolder {
    /// Opens svscan's own folder at a path in the same way as that of a service. Makes the folder if it is missing.
    /// While another svscan holds it, nothing there is changed, not even a time.
    pub fn open_own<R: Clock + Wait>(
        rt: &R,
        files: HostRuntime,
        path: &str,
    ) -> Result<ServiceFolder, FolderFault> {
        let patience = Patience::for_own_lock(rt);
        while_held(rt, &files, path, &patience)?;
        make_private(&files, path)?;
        ServiceFolder::open(rt, files, path, &patience)
    }

    /// Opens the folder at a path, makes its folder `supervise`, and takes the lock in there. If somebody else holds
    /// the lock, tries until patience runs out, and then returns `Locked`. The lock is held until the result is
    /// dropped.
    pub fn open<R: Clock + Wait>(
        rt: &R,
        files: HostRuntime,
        path: &str,
        patience: &Patience,
    ) -> Result<ServiceFolder, FolderFault> {
        let service = open_folder(&files, path)?;
        make_supervise(&files, files.alloc(), path_in(&service, ".").as_str())?;
        let lock = open_lock(&files, path_in(&service, "supervise/lock").as_str())?;
        match patience.lock(rt, &lock) {
            Ok(()) => {
                let status = given_status(&files, &service);
                Ok(ServiceFolder {
                    files,
                    service,
                    status,
                    _lock: lock,
                })
            }
            Err(TryLockError::WouldBlock) => Err(FolderFault::Locked),
            Err(TryLockError::Error(fault)) => Err(FolderFault::from(fault)),
        }
    }

    /// Returns the path of a name in the folder. It is valid in this process, and in its children while they start.
    pub(crate) fn path(&self, name: &str) -> ShortPath
        requires { length name.now ≤ 23 }
    {
        path_in(&self.service, name)
    }

    /// Replaces a file as a whole, by one with this content, for its owner alone.
    fn replace(&self, file: &str, new: &str, content: &[u8]) -> io::Result<()>
        requires file { length file.now ≤ 23 }
        requires new { length new.now ≤ 23 }
    {
        self.replace_with(file, new, content, None)
    }

    /// Replaces a file as a whole, by one with this content and this access. Makes the folder `supervise` again if somebody
    /// has removed it.
    #[inline(never)]
    fn replace_with(
        &self,
        file: &str,
        new: &str,
        content: &[u8],
        access: Option<Access>,
    ) -> io::Result<()>
        requires file { length file.now ≤ 23 }
        requires new { length new.now ≤ 23 }
    {
        let new = self.path(new);
        match write_private(&self.files, new.as_str(), content, access) {
            Err(fault) if fault.kind() == ErrorKind::NotFound => {
                self.make_supervise()?;
                write_private(&self.files, new.as_str(), content, access)?;
            }
            written => written?,
        }
        fs::rename(&self.files, new.as_str(), self.path(file).as_str())
    }

    /// Makes the folder `supervise`.
    #[inline(never)]
    fn make_supervise(&self) -> io::Result<()> {
        make_supervise(&self.files, self.files.alloc(), self.path(".").as_str())
    }

    /// Replaces the status record by these bytes. If that fails, as on a full device, writes them over the old record.
    /// After a fault the old bytes are there.
    #[inline(never)]
    pub fn replace_status(&self, bytes: &[u8]) -> io::Result<()> {
        let replaced = self.replace_with(
            "supervise/status",
            "supervise/status.new",
            bytes,
            self.status,
        );
        match replaced {
            Ok(()) => Ok(()),
            Err(fault) => {
                let path = self.path("supervise/status");
                overwrite(&self.files, path.as_str(), bytes, STATUS_BYTES).map_err(|_| fault)
            }
        }
    }

    /// Writes a line over the one in `supervise/place`. Makes the file if it is missing, with room for any other line.
    #[inline(never)]
    pub fn write_place(&self, line: &[u8]) -> io::Result<()> {
        let path = self.path("supervise/place");
        match overwrite(&self.files, path.as_str(), line, PLACE_BYTES as u64) {
            Ok(()) => Ok(()),
            Err(_) => self.make_place(line),
        }
    }

    /// Makes `supervise/place` with this line.
    #[inline(never)]
    fn make_place(&self, line: &[u8]) -> io::Result<()> {
        let mut content = [b'\n'; PLACE_BYTES];
        let room = &mut content[..line.len().min(PLACE_BYTES)];
        room.copy_from_slice(&line[..line.len().min(PLACE_BYTES)]);
        self.replace("supervise/place", "supervise/place.new", &content)
    }

    /// Replaces the line that says how the last process ended. After a fault the old line is there.
    pub fn replace_exit(&self, line: &[u8]) -> io::Result<()> {
        self.replace("supervise/exit", "supervise/exit.new", line)
    }

    /// Replaces the line that says how many processes began and ended. After a fault the old line is there.
    pub fn replace_counts(&self, line: &[u8]) -> io::Result<()> {
        self.replace("supervise/counts", "supervise/counts.new", line)
    }

    /// Replaces the line that says which process the service has. After a fault the old line is there.
    pub fn replace_process(&self, line: &[u8]) -> io::Result<()> {
        self.replace("supervise/process", "supervise/process.new", line)
    }

    /// Replaces the line that says when the process said that it is ready. Removes it if there is none.
    pub fn replace_ready(&self, line: &[u8]) -> io::Result<()> {
        self.replace_or_remove("supervise/ready", "supervise/ready.new", line)
    }

    /// Replaces the line that says until when the next start waits. Removes it if there is none.
    pub fn replace_backoff(&self, line: &[u8]) -> io::Result<()> {
        self.replace_or_remove("supervise/backoff", "supervise/backoff.new", line)
    }

    /// Replaces a file as a whole by this line, or removes it if the line is empty. Who has access to the status record
    /// has it to this file too.
    fn replace_or_remove(&self, file: &str, new: &str, line: &[u8]) -> io::Result<()>
        requires file { length file.now ≤ 23 }
        requires new { length new.now ≤ 23 }
    {
        if line.is_empty() {
            remove(&self.files, self.path(file).as_str())
        } else {
            self.replace_with(file, new, line, self.status)
        }
    }

    /// Removes what an earlier svscan wrote about its own time, if it exists: the counts, and until when a start waits.
    pub fn remove_earlier(&self) -> io::Result<()> {
        let counts = remove(&self.files, self.path("supervise/counts").as_str());
        counts.and(self.replace_backoff(b""))
    }

    /// Returns when the process with this number said that it is ready, if the folder says so.
    #[inline(never)]
    pub(crate) fn ready_since(&self, pid: u32) -> Option<Label> {
        let path = self.path("supervise/ready");
        let line = read_front::<HostRuntime, SETTING_BYTES>(&self.files, path.as_str()).ok()?;
        match moment_in(line.as_slice()) {
            Some(moment) if moment.pid == pid => Some(moment.label),
            _ => None,
        }
    }

    /// Removes the FIFO on which a process says that it is ready, and the word of an earlier process.
    #[inline(never)]
    pub(crate) fn remove_notification(&self) -> io::Result<()> {
        remove(&self.files, self.path(FIFO).as_str())?;
        self.replace_ready(b"")
    }

    /// Opens the FIFO on which a process says that it is ready. No read of it waits.
    #[inline(never)]
    pub(crate) fn open_notification(&self) -> io::Result<File> {
        let path = self.path(FIFO);
        if !is_fifo(&self.files, path.as_str()) {
            return Err(Error::from(ErrorKind::InvalidInput));
        }
        let mut how = OpenOptions::new();
        how.read(true).write(true);
        let fifo = how.open(&self.files, path.as_str())?;
        os::set_nonblocking(fifo.as_raw_fd(), true);
        Ok(fifo)
    }

    /// Replaces the text of the trace. After a fault the old text is there.
    pub fn replace_trace(&self, text: &[u8]) -> io::Result<()> {
        self.replace("supervise/trace", "supervise/trace.new", text)
    }

    /// Returns whether the service begins a session of its own: its folder has a file `setsid`.
    #[inline(never)]
    pub(crate) fn begins_session(&self) -> bool {
        fs::metadata(&self.files, self.path("setsid").as_str()).is_ok()
    }

    /// Returns whether the folder has a `finish` that somebody can execute.
    #[inline(never)]
    pub(crate) fn has_finish(&self) -> bool {
        match fs::metadata(&self.files, self.path("finish").as_str()) {
            Ok(found) => found.is_file() && is_executable(found.permissions().mode()),
            Err(_) => false,
        }
    }

    /// Returns the text of the file with this name. Returns None if there is no such file. What is no file, or may not be
    /// read, has no text.
    #[inline(never)]
    pub(crate) fn setting(&self, name: &str) -> Option<SettingText>
        requires { length name.now ≤ 23 }
    {
        text_of_setting(read_front(&self.files, self.path(name).as_str()))
    }

    /// Returns why nobody can execute `run`, if that shows without an attempt.
    #[inline(never)]
    pub(crate) fn look_at_run(&self) -> io::Result<()> {
        let found = fs::metadata(&self.files, self.path("run").as_str())?;
        if !is_executable(found.permissions().mode()) {
            return Err(Error::from(ErrorKind::PermissionDenied));
        }
        Ok(())
    }
}
