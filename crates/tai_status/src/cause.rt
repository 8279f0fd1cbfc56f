//! Why the system refused something.
ghost use Rattle.std.specs.Prelude.{◌≡◌};
ghost use Rattle.tai_status.specs.Causes.{cause_of_kind};

use std::alloc::AllocError;
use std::io::{Error, ErrorKind};

/// The error numbers that have a cause of their own, but no kind (errno(3)).
const EPERM: i32 = 1;

const EIO: i32 = 5;

const ENXIO: i32 = 6;

const ENOEXEC: i32 = 8;

const EBADF: i32 = 9;

const ENFILE: i32 = 23;

const EMFILE: i32 = 24;

const ENAMETOOLONG: i32 = 36;

/// Why the system refused something.
#[derive(Clone, Copy, Debug, PartialEq, Eq)]
pub enum Cause {
    /// Nothing has this name.
    Missing,
    /// The user has no permission.
    Denied,
    /// Something that must be a folder is not one.
    NoFolder,
    /// No more descriptors can be open.
    NoDescriptor,
    /// The system is out of memory.
    NoMemory,
    /// No more threads or processes can run.
    NoThread,
    /// The file system is read-only.
    ReadOnly,
    /// No room is left on the device.
    NoSpace,
    /// Links lead to one another.
    Loop,
    /// Only another user may do this.
    NotPermitted,
    /// A device failed.
    Device,
    /// Something that must be a file is a folder.
    IsFolder,
    /// Something has this name already.
    Exists,
    /// The name is too long.
    LongName,
    /// A name is not valid text.
    NoText,
    /// A file would be too large.
    TooLarge,
    /// The user's quota of the device is used up.
    Quota,
    /// No process reads the pipe.
    BrokenPipe,
    /// The descriptor is not open, or not open for this call.
    BadDescriptor,
    /// There is no such device, or no process has the other end open.
    NoDevice,
    /// The file is not a program for this machine.
    BadProgram,
    /// The list of words is too long.
    LongList,
    /// Something is in use.
    Busy,
    /// A program is running and can't be written to, or is open for writing and can't run.
    BusyProgram,
    /// The call does not fit its object.
    Invalid,
    /// Something else.
    Other,
}

/// Returns the cause of a kind of fault.
fn cause_of_kind(kind: ErrorKind) -> Cause
    ensures { result ≡ cause_of_kind kind }
{
    match kind {
        ErrorKind::NotFound => Cause::Missing,
        ErrorKind::PermissionDenied => Cause::Denied,
        ErrorKind::NotADirectory => Cause::NoFolder,
        ErrorKind::OutOfMemory => Cause::NoMemory,
        ErrorKind::WouldBlock => Cause::NoThread,
        ErrorKind::ReadOnlyFilesystem => Cause::ReadOnly,
        ErrorKind::StorageFull => Cause::NoSpace,
        ErrorKind::QuotaExceeded => Cause::Quota,
        ErrorKind::FilesystemLoop => Cause::Loop,
        ErrorKind::IsADirectory => Cause::IsFolder,
        ErrorKind::AlreadyExists => Cause::Exists,
        ErrorKind::InvalidFilename => Cause::NoText,
        ErrorKind::FileTooLarge => Cause::TooLarge,
        ErrorKind::BrokenPipe => Cause::BrokenPipe,
        ErrorKind::ArgumentListTooLong => Cause::LongList,
        ErrorKind::ResourceBusy => Cause::Busy,
        ErrorKind::ExecutableFileBusy => Cause::BusyProgram,
        ErrorKind::InvalidInput => Cause::Invalid,
        _ => Cause::Other,
    }
}

impl Cause {
    ghost use Rattle.std.specs.Prelude.{◌≡◌, ◌≤◌, length};
    ghost use Rattle.std.specs.IoError.{error_kind, raw_os_error};
    ghost use Rattle.tai_status.specs.Causes.{cause_of, cause_words};

    /// Returns the cause of a fault.
    pub fn of(fault: &Error) -> Cause
        ensures { result ≡ cause_of (raw_os_error fault.now) (error_kind fault.now) }
    {
        match fault.raw_os_error() {
            Some(EPERM) => Cause::NotPermitted,
            Some(EIO) => Cause::Device,
            Some(ENXIO) => Cause::NoDevice,
            Some(ENOEXEC) => Cause::BadProgram,
            Some(EBADF) => Cause::BadDescriptor,
            Some(ENAMETOOLONG) => Cause::LongName,
            Some(EMFILE | ENFILE) => Cause::NoDescriptor,
            _ => cause_of_kind(fault.kind()),
        }
    }

    /// Returns the words of the cause, as the C library has them (strerror(3)).
    pub fn words(self) -> &'static str
        ensures words { result.now ≡ cause_words self }
        ensures short { length result.now ≤ 34 }
    {
        match self {
            Cause::Missing => "No such file or directory",
            Cause::Denied => "Permission denied",
            Cause::NoFolder => "Not a directory",
            Cause::NoDescriptor => "Too many open files",
            Cause::NoMemory => "Cannot allocate memory",
            Cause::NoThread => "Resource temporarily unavailable",
            Cause::ReadOnly => "Read-only file system",
            Cause::NoSpace => "No space left on device",
            Cause::Loop => "Too many levels of symbolic links",
            Cause::NotPermitted => "Operation not permitted",
            Cause::Device => "Input/output error",
            Cause::IsFolder => "Is a directory",
            Cause::Exists => "File exists",
            Cause::LongName => "File name too long",
            Cause::NoText => "a name is no text",
            Cause::TooLarge => "File too large",
            Cause::Quota => "Disk quota exceeded",
            Cause::BrokenPipe => "Broken pipe",
            Cause::BadDescriptor => "Bad file descriptor",
            Cause::NoDevice => "No such device or address",
            Cause::BadProgram => "Exec format error",
            Cause::LongList => "Argument list too long",
            Cause::Busy => "Device or resource busy",
            Cause::BusyProgram => "Text file busy",
            Cause::Invalid => "Invalid argument",
            Cause::Other => "unknown cause",
        }
    }
}

impl From<Error> for Cause {
    fn from(fault: Error) -> Cause {
        Cause::of(&fault)
    }
}

impl From<AllocError> for Cause {
    fn from(_fault: AllocError) -> Cause {
        Cause::NoMemory
    }
}
