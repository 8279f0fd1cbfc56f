//! Why `envdir` starts no child.
ghost use Rattle.std.specs.Prelude.{◌≡◌, ◌≢◌};
ghost use Rattle.std.specs.IoError.{error_kind, raw_os_error};
ghost use Rattle.std.specs.declared.io.ErrorKind.TheVariants.{OutOfMemory};
ghost use Rattle.tai_status.specs.Causes.{cause_of};

use std::alloc::{AllocError, Allocator, Global};
use std::io::{Error, ErrorKind};
use std::marker::Model;
use tai_status::Cause;

/// Why the files of a folder have no effect.
#[derive(Clone, Copy, Debug, PartialEq, Eq)]
pub enum EnvdirFault {
    /// The name of the file at this place contains `=`.
    NameHasEquals(usize),
    /// The value of the file at this place is not valid text.
    NotText(usize),
    /// The child can't be started.
    NotRun(Cause),
    OutOfMemory,
}

/// Why a folder is not read.
#[derive(Drop)]
pub struct FolderReadFault<A: Allocator = Global> {
    /// The path of the file that can't be read, or none if it is the folder itself.
    file: Option<String<A>>,
    /// Why the system refused the read, or a lack of memory.
    cause: Cause,
}

impl<A: Allocator> Model for FolderReadFault<A> {
    ghost use Rattle.std.specs.Prelude.{option_map, string_bytes};
    ghost use Rattle.cmd_envdir.specs.System.{Unread};

    ghost Value = { Unread };

    ghost view = { λ fault. record { file = option_map string_bytes fault.file; cause = fault.cause } };
}

impl<A: Allocator> FolderReadFault<A> {
    ghost use Rattle.std.specs.Prelude.{◌≡◌, Some, string_bytes};
    ghost use Rattle.cmd_envdir.specs.System.{unread_path};

    /// Returns the fault that a file at this path can't be read.
    pub fn of_file(path: String<A>, cause: Cause) -> FolderReadFault<A>
        ensures file { result.file ≡ Some (string_bytes path) }
        ensures cause { result.cause ≡ cause }
    {
        FolderReadFault {
            file: Some(path),
            cause,
        }
    }

    /// Returns the cause of the fault.
    pub fn cause(&self) -> Cause
        ensures { result ≡ self.now.cause }
    {
        self.cause
    }

    /// Returns the path that can't be read: one in the folder at this path, or the folder itself.
    pub fn path<'a>(&'a self, dir: &'a str) -> &'a str
        ensures { result.now ≡ unread_path dir.now self.now.file }
    {
        match &self.file {
            Some(path) => path.as_str(),
            None => dir,
        }
    }
}

/// Returns the cause of a fault of the system. A lack of memory takes precedence over any other cause.
pub fn cause_in(error: &Error) -> Cause
    ensures memory { error_kind error.now ≡ OutOfMemory → result ≡ Cause.NoMemory }
    ensures other { error_kind error.now ≢ OutOfMemory
        → result ≡ cause_of (raw_os_error error.now) (error_kind error.now) }
{
    if error.kind() == ErrorKind::OutOfMemory {
        return Cause::NoMemory;
    }
    Cause::of(error)
}

impl<A: Allocator> From<Error> for FolderReadFault<A> {
    ghost use Rattle.std.specs.Prelude.{◌≡◌, None};

    ghost from_gives = { λ _ fault. fault.file ≡ None };

    fn from(error: Error) -> FolderReadFault<A> {
        FolderReadFault {
            file: None,
            cause: cause_in(&error),
        }
    }
}

impl<A: Allocator> From<AllocError> for FolderReadFault<A> {
    ghost use Rattle.std.specs.Prelude.{◌≡◌, None};

    ghost from_gives = { λ _ fault. fault.file ≡ None };

    fn from(_error: AllocError) -> FolderReadFault<A> {
        FolderReadFault {
            file: None,
            cause: Cause::NoMemory,
        }
    }
}
