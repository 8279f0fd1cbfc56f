//! The system's own listing of a folder. Contracts see nothing of what is there; tests show that.
ghost use Rattle.std.specs.Prelude.{◌≡◌, map, string_bytes, IfOk, IfErr};
ghost use Rattle.std.specs.Fs.{dir_entry_name};
ghost use Rattle.std.specs.Iterator.{IsFinite};
ghost use Rattle.cmd_svscan.specs.Listing.{IsWhyUnlisted, Lists};
ghost use Rattle.cmd_svscan.specs.Looking.{AreRowsOf};

use scan_table::DirRow;
use std::alloc::{AllocError, Allocator, Global};
use std::fs::{DirEntry, Files};
use std::os::unix::fs::MetadataExt;
use std::{fs, io};
use svscan_rounds::{Folder, FolderState, ListFault, is_unchanged, kept_state, rows_of};
use tai_status::{Cause, Label};

/// A folder on this system, reached by its path.
#[derive(Drop)]
struct SystemFolder<'a, R: Files> {
    rt: &'a R,
    alloc: Global,
    path: &'a str,
}

impl<'a, R: Files> SystemFolder<'a, R> {
    // Returns the path of a name followed by this rest.
    fn path_of(&self, name: &str, rest: &str) -> Result<String, AllocError> {
        let mut path = String::from_str(self.alloc, self.path)?;
        path.push('/')?;
        path.push_str(name)?;
        path.push_str(rest)?;
        Ok(path)
    }
}

/// Links are followed, so that a dangling one is not a directory. What can't be looked at is not there.
impl<'a, R: Files> Folder for SystemFolder<'a, R> {
    fn is_there(&self, name: &str, rest: &str) -> Result<bool, AllocError> {
        let path = self.path_of(name, rest)?;
        Ok(fs::metadata(self.rt, path.as_str()).is_ok())
    }

    fn is_dir(&self, name: &str, rest: &str) -> Result<bool, AllocError> {
        let path = self.path_of(name, rest)?;
        match fs::metadata(self.rt, path.as_str()) {
            Ok(found) => Ok(found.is_dir()),
            Err(_) => Ok(false),
        }
    }
}

fn fault_of(fault: &io::Error) -> ListFault {
    match fault.kind() {
        io::ErrorKind::OutOfMemory => ListFault::OutOfMemory,
        _ => ListFault::Unlisted(Cause::of(fault)),
    }
}

/// The names in a folder on this system, as they were when it was listed.
#[derive(Drop)]
pub struct FolderNames {
    /// Those that are text.
    pub names: Vec<String>,
    /// The number of its other names.
    pub unnamed: u64,
    // None if the folder may have changed unnoticed since.
    state: Option<FolderState>,
}

/// Returns the state of the folder at a path, if it can be found.
fn state_of<R: Files>(rt: &R, path: &str) -> Option<FolderState> {
    let found = fs::metadata(rt, path).ok()?;
    let seconds = u64::try_from(found.mtime()).ok()?;
    let nanos = u32::try_from(found.mtime_nsec()).ok()?;
    Some(FolderState {
        device: found.dev(),
        inode: found.ino(),
        changed: Label::from_unix(seconds, nanos)?,
    })
}

/// Returns the names of entries, in order, and how many others have a name that is not text. The first entry that can't
/// be read for another reason ends this with its fault.
fn names_in<R: Files + Drop, B: Allocator, I>(
    alloc: Global,
    entries: I,
) -> io::Result<(Vec<String>, u64)>
where
    I: Iterator<Item = io::Result<DirEntry<R, B>>> + Drop,
    requires may { I.can_next entries }
    requires ends { IsFinite (I.remaining entries) }
    ensures all { IfOk result (λ found.
        Lists I.next_gives dir_entry_name entries (map string_bytes found.0.items) found.1) }
    ensures first { IfErr result (λ fault. IsWhyUnlisted I.next_gives entries fault) }
{
    let mut names = Vec::new(alloc);
    let mut unnamed: u64 = 0;
    for entry in entries {
        match entry {
            Ok(entry) => names.push(String::from_str(alloc, entry.file_name())?)?,
            Err(fault) => match fault.kind() {
                io::ErrorKind::InvalidFilename => unnamed = unnamed.saturating_add(1),
                _ => return Err(fault),
            },
        }
    }
    Ok((names, unnamed))
}

/// Returns the names in the folder at a path. The folder has this state.
fn read_names<R: Files>(
    rt: &R,
    alloc: Global,
    path: &str,
    state: Option<FolderState>,
) -> io::Result<FolderNames> {
    let (names, unnamed) = names_in(alloc, fs::read_dir(&(rt, &alloc), path)?)?;
    Ok(FolderNames {
        names,
        unnamed,
        state,
    })
}

/// Returns the names that the folder at a path on this system has now.
pub fn list_names<R: Files>(
    rt: &R,
    alloc: Global,
    path: &str,
    now: Label,
) -> Result<FolderNames, ListFault> {
    // This comes before the names are read, so that a change meanwhile is seen the next time.
    let state = kept_state(state_of(rt, path), now);
    match read_names(rt, alloc, path, state) {
        Ok(names) => Ok(names),
        Err(fault) => Err(fault_of(&fault)),
    }
}

/// Returns whether the folder at a path still has these names.
pub fn has_names<R: Files>(rt: &R, path: &str, names: &FolderNames) -> bool {
    is_unchanged(names.state, state_of(rt, path))
}

/// Returns the rows of these names in a folder on this system, in the byte order of the names. Looks at nothing else in
/// the folder.
pub fn list_rows<R: Files>(
    rt: &R,
    alloc: Global,
    path: &str,
    names: Vec<String>,
) -> Result<Vec<DirRow>, ListFault>
    ensures { IfOk result (λ rows. AreRowsOf (map string_bytes names.items) rows.items) }
{
    let folder = SystemFolder { rt, alloc, path };
    match rows_of(alloc, &folder, names) {
        Ok(rows) => Ok(rows),
        Err(AllocError) => Err(ListFault::OutOfMemory),
    }
}
