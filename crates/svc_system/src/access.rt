//! The owner and the mode of a file that an administrator gave to somebody.
ghost use Rattle.std.specs.Prelude.{◌≡◌, option_copied};
ghost use Rattle.svc_system.specs.Access.{given};

use std::fs::{File, Files, Metadata, Permissions};
use std::os::unix::fs::{MetadataExt, PermissionsExt, fchown, lchown};
use std::{fs, io};

/// The bits of a mode that say who may do what.
const ACCESS_BITS: u32 = 0o777;

/// Who owns a file, and who may do what with it.
#[derive(Clone, Copy, Debug, PartialEq, Eq)]
pub(crate) struct Access {
    /// The number of the owner.
    pub(crate) owner: u32,
    /// The number of the group.
    pub(crate) group: u32,
    /// The mode, of nine bits.
    pub(crate) mode: u32,
}

/// Returns the access that a new file gets from the one before. Returns None if that is what each new file has.
pub(crate) fn given(before: Option<Access>, usual: &Access) -> Option<Access>
    ensures { result ≡ given before usual.now }
{
    match before {
        Some(before) if before != *usual => Some(before),
        _ => None,
    }
}

impl Access {
    /// Returns the access of the file that has this metadata.
    pub(crate) fn of(found: &Metadata) -> Access {
        Access {
            owner: found.uid(),
            group: found.gid(),
            mode: found.permissions().mode() & ACCESS_BITS,
        }
    }

    /// Returns the access of a new file of this process that has this mode. Returns None if the kernel does not say
    /// whose process this is.
    pub(crate) fn own<R: Files<File = File>>(files: &R, mode: u32) -> Option<Access> {
        let found = fs::metadata(files, "/proc/self").ok()?;
        Some(Access {
            mode,
            ..Access::of(&found)
        })
    }

    /// Gives an open file to its owner. Its mode is set only if that was possible, so that nobody else can use it.
    pub(crate) fn give(&self, file: &File) -> io::Result<()> {
        fchown(file, Some(self.owner), Some(self.group))?;
        file.set_permissions(Permissions::from_mode(self.mode))
    }

    /// Gives the file at a path to its owner, in the same way. Nobody else may be able to change the folder above it.
    pub(crate) fn give_at<R: Files<File = File>>(&self, files: &R, path: &str) -> io::Result<()> {
        lchown(files, path, Some(self.owner), Some(self.group))?;
        fs::set_permissions(files, path, Permissions::from_mode(self.mode))
    }
}
