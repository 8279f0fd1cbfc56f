//! A log in a folder.
ghost use Rattle.std.specs.Prelude.{◌≡◌, IfOk, IfErr, OnOk};
ghost use Rattle.cmd_multilog.specs.Folder.{Changes, Begins, IsKept, IsCause};

use crate::log_system::LogFolder;
use crate::names::{FileName, OldNames, greatest_in, old_names};
use std::alloc::{AllocError, Allocator, Global};
use std::io;
use std::io::{Error, ErrorKind};
use std::marker::Model;
use tai_status::Label;

/// A log in a folder, which is locked while the log exists. The names of its old files are kept in byte order, so that
/// the folder is listed only once.
#[derive(Drop)]
pub struct FolderLog<F: LogFolder + Drop, A: Allocator = Global> {
    folder: F,
    olds: OldNames<A>,
    length: u64,
}

impl<F: LogFolder + Drop, A: Allocator> Model for FolderLog<F, A> {
    ghost use Rattle.std.specs.Prelude.{Option};
    ghost use Rattle.cmd_multilog.specs.Folder.{Folder, IsKept};

    ghost Value = { Option Folder };

    ghost view = { λ log. F.folder log.folder };

    ghost invariant = { λ log. IsKept (F.folder log.folder) log.olds.names.items log.length };
}

/// Locks a folder, opens its current file, and lists it. Returns how many bytes that file has, and the names of old
/// files. Returns a lack of memory only if no call for the folder failed.
pub(crate) fn begin<F: LogFolder, A: Allocator + Clone>(
    folder: &mut F,
    alloc: &A,
) -> io::Result<(u64, OldNames<A>)>
    ensures begun { OnOk result (Changes (F.folder folder.old) (F.folder folder.new) Begins) }
    ensures kept { IfOk result (λ (length, olds). IsKept (F.folder folder.new) olds.names.items length) }
    ensures why { IfErr result (λ error. IsCause error (F.gave folder.old) (F.gave folder.new)) }
{
    folder.lock()?;
    folder.open_current()?;
    let length = folder.length()?;
    let names = folder.names(alloc)?;
    let olds = old_names(alloc, names)?;
    Ok((length, olds))
}

impl<F: LogFolder + Drop, A: Allocator + Clone> FolderLog<F, A> {
    ghost use Rattle.std.specs.Prelude.{◌≡◌, ◌<◌, ◌≤◌, ◌∷◌, [], length, take, IfOk, IfSome, IsSome, OnOk, OnErr};
    ghost use Rattle.mlog_files.specs.Files.{Finish, Remove, append_steps};
    ghost use Rattle.mlog_files.specs.Named.{greatest_label};
    ghost use Rattle.mlog_files.specs.Store.{Reaches};
    ghost use Rattle.cmd_multilog.specs.Folder.{IsKept, StaysAt, files_of};

    /// Makes the log of a folder that was begun. Its current file has this many bytes, and these are the names of its
    /// old files.
    pub(crate) fn new(folder: F, length: u64, olds: OldNames<A>) -> FolderLog<F, A>
        requires { IsKept (F.folder folder) olds.names.items length }
        ensures { result ≡ F.folder folder }
    {
        FolderLog {
            folder,
            olds,
            length,
        }
    }

    /// Appends a front of the piece to the current file, and returns the length of that front.
    pub(crate) fn append(&mut self, piece: &[u8]) -> io::Result<usize>
        ensures bound { IfOk result (λ count. count ≤ length piece.now) }
        ensures some { IfOk result (λ count. 0 < length piece.now → 0 < count) }
        ensures ok { IfOk result (λ count.
            Reaches (files_of self.old) (files_of self.new) (append_steps (take count piece.now))) }
        ensures err { OnErr result (self.new ≡ self.old) }
        ensures stays { StaysAt self.old self.new }
    {
        if u64::MAX - self.length < piece.len() as u64 {
            return Err(Error::from(ErrorKind::FileTooLarge));
        }
        let count = self.folder.append(piece)?;
        self.length += count as u64;
        Ok(count)
    }

    /// Writes the current file out to the disk, makes it the old file with a label, and begins a new one. All memory is
    /// taken first. If the new file can't be made, the log has no current file.
    pub(crate) fn finish(&mut self, label: &Label) -> io::Result<()>
        ensures ok { OnOk result (Reaches (files_of self.old) (files_of self.new) (Finish label.now ∷ [])) }
        ensures begun { OnOk result (IfSome (files_of self.old) (λ _. IsSome (files_of self.new))) }
        ensures err { OnErr result (Reaches (files_of self.old) (files_of self.new) []) }
        ensures stays { StaysAt self.old self.new }
    {
        let name = FileName::of_label(self.olds.names.allocator().clone()?, label)?;
        self.olds.names.reserve(1)?;
        self.folder.sync()?;
        self.folder.rename(name.as_slice())?;
        self.length = 0;
        match self.olds.insert(name) {
            Ok(()) => self.folder.open_current(),
            Err(_) => unreachable!(),
        }
    }

    /// Removes the old file with the smallest name, if there is one.
    pub(crate) fn remove_smallest(&mut self) -> io::Result<()>
        ensures ok { OnOk result (Reaches (files_of self.old) (files_of self.new) (Remove ∷ [])) }
        ensures err { OnErr result (self.new ≡ self.old) }
        ensures stays { StaysAt self.old self.new }
    {
        if self.olds.names.is_empty() {
            return Ok(());
        }
        self.folder.remove(self.olds.names[0].as_slice())?;
        self.olds.names.remove(0);
        Ok(())
    }

    /// Returns how many bytes the current file has.
    pub(crate) fn length(&self) -> u64
        ensures { IfSome (files_of self.now) (λ files. result ≡ length files.current) }
    {
        self.length
    }

    /// Returns how many old files there are.
    pub(crate) fn old_count(&self) -> u64
        ensures { IfSome (files_of self.now) (λ files. result ≡ length files.olds) }
    {
        self.olds.names.len() as u64
    }

    /// Returns the greatest label in the names of the old files.
    pub(crate) fn last_label(&self) -> Option<Label>
        ensures { IfSome (files_of self.now) (λ files. result ≡ greatest_label files.olds) }
    {
        greatest_in(&self.olds.names)
    }
}
