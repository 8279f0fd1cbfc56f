//! Files and folders for the owner alone, whatever the umask is, and whatever has their name.
use crate::access::Access;
use crate::folder::FileId;
use std::alloc::Global;
use std::fs::{DirBuilder, File, Files, Metadata, OpenOptions, Permissions};
use std::io::{Error, ErrorKind, Write};
use std::os::unix::fs::{DirBuilderExt, FileExt, OpenOptionsExt, PermissionsExt};
use std::{fs, io};

/// The modes of new folders and files, whatever the umask is.
pub(crate) const FOLDER_MODE: u32 = 0o700;

pub(crate) const FILE_MODE: u32 = 0o600;

/// Makes a folder that only its owner can use, if it does not exist. An existing folder keeps its mode and its owner. A
/// link to nothing is a fault, `NotFound`.
pub(crate) fn make_private<R: Files<File = File>>(runtime: &R, path: &str) -> io::Result<()> {
    let mut how = DirBuilder::new();
    how.mode(FOLDER_MODE);
    match how.create(runtime, path) {
        Ok(()) => fs::set_permissions(runtime, path, Permissions::from_mode(FOLDER_MODE)),
        // A link to nothing has that name, and is no folder.
        Err(fault) if fault.kind() == ErrorKind::AlreadyExists => {
            fs::metadata(runtime, path).map(drop)
        }
        Err(fault) => Err(fault),
    }
}

/// Makes the folder that a link names, for its owner alone. The folder above it must exist.
fn make_linked<R: Files<File = File>>(
    runtime: &R,
    alloc: Global,
    folder: &str,
    link: &str,
) -> io::Result<()> {
    let named = fs::read_link(&(runtime, &alloc), link)?;
    let named = named.as_str();
    if named.starts_with('/') {
        return make_private(runtime, named);
    }
    let path = format!(in alloc; "{folder}/{named}")?;
    make_private(runtime, path.as_str())
}

/// Makes the folder `supervise` in a folder, for its owner alone. If its name is that of a dangling link, the folder
/// that the link names is made.
pub(crate) fn make_supervise<R: Files<File = File>>(
    runtime: &R,
    alloc: Global,
    folder: &str,
) -> io::Result<()> {
    let path = format!(in alloc; "{folder}/supervise")?;
    match make_private(runtime, path.as_str()) {
        Err(fault) if fault.kind() == ErrorKind::NotFound => {
            make_linked(runtime, alloc, folder, path.as_str())
        }
        made => made,
    }
}

/// Opens the existing file at a path this way. Returns it with its metadata. Refuses a link, a FIFO and anything else that
/// is no file. To open a FIFO could wait. A link could lead to the file of somebody else.
#[inline(never)]
fn open_same<R: Files<File = File>>(
    runtime: &R,
    how: &OpenOptions,
    path: &str,
) -> io::Result<(File, Metadata)> {
    let there = fs::symlink_metadata(runtime, path)?;
    if !there.is_file() {
        return Err(Error::from(ErrorKind::InvalidInput));
    }
    let file = how.open(runtime, path)?;
    let opened = file.metadata()?;
    if FileId::of(&there) == FileId::of(&opened) {
        Ok((file, opened))
    } else {
        Err(Error::from(ErrorKind::InvalidInput))
    }
}

/// Opens the file at a path for appending. Makes the file if it is missing. Follows no link.
fn open_or_make<R: Files<File = File>>(runtime: &R, path: &str) -> io::Result<File> {
    let mut how = OpenOptions::new();
    how.append(true);
    match open_same(runtime, &how, path) {
        Err(fault) if fault.kind() == ErrorKind::NotFound => {}
        opened => return Ok(opened?.0),
    }
    let mut make = OpenOptions::new();
    make.append(true).create_new(true).mode(FILE_MODE);
    match make.open(runtime, path) {
        // Another svscan has made it just now.
        Err(fault) if fault.kind() == ErrorKind::AlreadyExists => {
            Ok(open_same(runtime, &how, path)?.0)
        }
        made => made,
    }
}

/// Opens a file for appending, for its owner alone. Makes the file if it is missing. Follows no link.
pub(crate) fn open_lock<R: Files<File = File>>(runtime: &R, path: &str) -> io::Result<File> {
    let file = open_or_make(runtime, path)?;
    file.set_permissions(Permissions::from_mode(FILE_MODE))?;
    Ok(file)
}

/// Makes a file, for its owner alone. Removes any file of that name first, and follows no link.
fn make_anew<R: Files<File = File>>(runtime: &R, path: &str) -> io::Result<File> {
    let mut how = OpenOptions::new();
    how.write(true).create_new(true).mode(FILE_MODE);
    match how.open(runtime, path) {
        Err(fault) if fault.kind() == ErrorKind::AlreadyExists => {
            remove(runtime, path)?;
            how.open(runtime, path)
        }
        made => made,
    }
}

/// Makes a file with this content, for its owner alone or with this access. Removes any file of that name first, and
/// follows no link.
#[inline(never)]
pub(crate) fn write_private<R: Files<File = File>>(
    runtime: &R,
    path: &str,
    content: &[u8],
    access: Option<Access>,
) -> io::Result<()> {
    let mut file = make_anew(runtime, path)?;
    file.set_permissions(Permissions::from_mode(FILE_MODE))?;
    if let Some(access) = access {
        // If it can't be given away, it is for its owner alone.
        let _ = access.give(&file);
    }
    file.write_all(content)
}

/// Writes over the front of an existing file that has at least this many bytes. Follows no link. This takes no more room
/// on the device.
#[inline(never)]
pub(crate) fn overwrite<R: Files<File = File>>(
    runtime: &R,
    path: &str,
    content: &[u8],
    least: u64,
) -> io::Result<()> {
    let mut how = OpenOptions::new();
    how.write(true);
    let (file, opened) = open_same(runtime, &how, path)?;
    if opened.len() < least {
        return Err(Error::from(ErrorKind::UnexpectedEof));
    }
    file.write_all_at(content, 0)
}

/// Removes a file, if it exists.
#[inline(never)]
pub(crate) fn remove<R: Files<File = File>>(runtime: &R, path: &str) -> io::Result<()> {
    match fs::remove_file(runtime, path) {
        Err(fault) if fault.kind() != ErrorKind::NotFound => Err(fault),
        _ => Ok(()),
    }
}
