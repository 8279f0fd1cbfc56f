//! A store over folders.
ghost use Rattle.std.specs.Prelude.{◌≡◌};

use crate::fault::{StoreCall, StoreTrouble};
use crate::folder_log::{FolderLog, begin};
use crate::log_system::{LogSystem, StatusPlace};
use mlog_files::{LogStore, StoreFault};
use std::alloc::{AllocError, Allocator, Global};
use std::io;
use std::io::Error;
use std::marker::Model;
use tai_status::{Cause, Label};

/// A status file at its place.
#[derive(Drop)]
struct PlacedStatus<S: StatusPlace + Drop> {
    file: S,
}

impl<S: StatusPlace + Drop> Model for PlacedStatus<S> {
    ghost use Rattle.std.specs.Prelude.{Option};
    ghost use Rattle.cmd_multilog.specs.Folder.{Status};

    ghost Value = { Option Status };

    ghost view = { λ placed. S.status placed.file };
}

impl<S: StatusPlace + Drop> PlacedStatus<S> {
    ghost use Rattle.std.specs.Prelude.{◌≡◌, OnOk, OnErr};
    ghost use Rattle.cmd_multilog.specs.Folder.{Receives};

    fn new(file: S) -> PlacedStatus<S>
        ensures { result ≡ S.status file }
    {
        PlacedStatus { file }
    }

    // Replaces the content of the file.
    fn replace(&mut self, content: &[u8]) -> io::Result<()>
        ensures ok { OnOk result (Receives self.old self.new content.now) }
        ensures err { OnErr result (self.new ≡ self.old) }
    {
        self.file.replace(content)
    }
}

/// The logs, status files and alerts of a system. It begins without logs and status files.
#[derive(Drop)]
pub struct FolderStore<D: LogSystem + Drop, A: Allocator = Global> {
    system: D,
    logs: Vec<FolderLog<D::Folder, A>, A>,
    statuses: Vec<PlacedStatus<D::Status>, A>,
    failures: u64,
    /// The last call that failed, and why.
    last: Option<StoreTrouble>,
}

impl<D: LogSystem + Drop, A: Allocator> Model for FolderStore<D, A> {
    ghost use Rattle.cmd_multilog.specs.Shelf.{Shelf};

    ghost Value = { Shelf };

    ghost view = { λ store. record {
      logs = store.logs.items;
      statuses = store.statuses.items;
      alerts = D.alerts store.system;
      asked = D.asked store.system;
      gave = D.gave store.system;
      failures = store.failures;
      last = store.last;
    } };
}

impl<D: LogSystem + Drop, A: Allocator + Clone> FolderStore<D, A> {
    ghost use Rattle.std.specs.Prelude.{◌≡◌, ◌<◌, ◌≤◌, ◌^◌, [], length, Some, IfOk, IfErr, OnOk, OnErr};
    ghost use Rattle.tai_status.specs.Counted.{Rose};
    ghost use Rattle.cmd_multilog.specs.Folder.{IsCause};
    ghost use Rattle.cmd_multilog.specs.Shelf.{OpensLog, AsksFor, AddsStatus, AddsNone, trouble_of};

    /// Makes a store over a system.
    pub fn new(system: D, alloc: A) -> Result<FolderStore<D, A>, AllocError>
        // If there is memory, the store begins without logs, status files and failed calls.
        ensures logs { IfOk result (λ store. store.logs ≡ []) }
        ensures statuses { IfOk result (λ store. store.statuses ≡ []) }
        ensures failures { IfOk result (λ store. store.failures ≡ 0) }

        // It continues what the system has: the folders that it was asked for, the errors of these calls, and the
        // alerts.
        ensures asked { IfOk result (λ store. store.asked ≡ D.asked system) }
        ensures gave { IfOk result (λ store. store.gave ≡ D.gave system) }
        ensures alerts { IfOk result (λ store. store.alerts ≡ D.alerts system) }
    {
        let statuses = Vec::new(alloc.clone()?);
        Ok(FolderStore {
            system,
            logs: Vec::new(alloc),
            statuses,
            failures: 0,
            last: None,
        })
    }

    /// Opens the log in the folder at a path, as the next one: makes the folder if it is missing, locks it, opens its
    /// current file and lists it. Returns a lack of memory only if no call of the system failed otherwise.
    pub(crate) fn open_log(&mut self, alloc: &A, path: &[u8]) -> io::Result<()>
        // If it succeeds, the log is the last one of the store, and no call to open its folder failed.
        ensures ok { OnOk result (OpensLog self.old self.new path.now) }
        ensures fits { OnOk result (length self.new.logs < 2 ^ 64) }
        ensures well { OnOk result (self.new.gave ≡ self.old.gave) }

        // If it fails, the store has the same logs. Either the system was asked for this folder, or memory was missing
        // before that. The error is the only one that a call returned, or it is a lack of memory and no call failed.
        ensures err { OnErr result (AddsNone self.old self.new) }
        ensures asked { IfErr result (λ error. AsksFor error self.old self.new path.now) }
        ensures why { IfErr result (λ error. IsCause error self.old.gave self.new.gave) }
    {
        self.logs.reserve(1)?;
        let mut folder = self.system.folder(path)?;
        match begin(&mut folder, alloc) {
            Ok((length, olds)) => {
                self.logs.push(FolderLog::new(folder, length, olds))?;
                Ok(())
            }
            Err(error) => {
                self.system.take_back(folder);
                Err(error)
            }
        }
    }

    /// Adds the next status file, at a path.
    pub(crate) fn add_status(&mut self, path: &[u8]) -> Result<(), AllocError>
        ensures ok { OnOk result (AddsStatus self.old self.new path.now) }
        ensures fits { OnOk result (length self.new.statuses < 2 ^ 64) }
        ensures err { OnErr result (AddsNone self.old self.new) }
        ensures asked { self.new.asked ≡ self.old.asked }
        ensures gave { self.new.gave ≡ self.old.gave }
    {
        let status = self.system.status_file(path)?;
        self.statuses.push(PlacedStatus::new(status))?;
        Ok(())
    }

    /// Returns the last call that failed, and why.
    pub(crate) fn last_trouble(&self) -> Option<StoreTrouble>
        ensures { result ≡ self.now.last }
    {
        self.last
    }

    // Counts a failed call, and keeps which one it is, and why it failed.
    fn fail(&mut self, call: StoreCall, error: &Error) -> StoreFault
        // This call is the last one that failed. The count of failures rises, up to its maximum.
        ensures last { self.new.last ≡ Some (trouble_of call error.now) }
        ensures rose { Rose self.old.failures self.new.failures }
        ensures steady { self.old.failures ≤ self.new.failures }

        // What the store holds, and what the system was asked for, stays as it was.
        ensures logs { self.new.logs ≡ self.old.logs }
        ensures statuses { self.new.statuses ≡ self.old.statuses }
        ensures alerts { self.new.alerts ≡ self.old.alerts }
        ensures asked { self.new.asked ≡ self.old.asked }
    {
        self.failures = self.failures.saturating_add(1);
        self.last = Some(StoreTrouble {
            call,
            cause: Cause::of(error),
        });
        StoreFault
    }
}

impl<D: LogSystem + Drop, A: Allocator + Clone> LogStore for FolderStore<D, A> {
    ghost use Rattle.cmd_multilog.specs.Shelf.{state_of};

    ghost state = { state_of };

    fn append(&mut self, log: usize, piece: &[u8]) -> Result<usize, StoreFault> {
        match self.logs[log].append(piece) {
            Ok(count) => Ok(count),
            Err(error) => Err(self.fail(StoreCall::Append(log), &error)),
        }
    }

    fn finish(&mut self, log: usize, label: &Label) -> Result<(), StoreFault> {
        match self.logs[log].finish(label) {
            Ok(()) => Ok(()),
            Err(error) => Err(self.fail(StoreCall::Finish(log), &error)),
        }
    }

    fn remove_smallest(&mut self, log: usize) -> Result<(), StoreFault> {
        match self.logs[log].remove_smallest() {
            Ok(()) => Ok(()),
            Err(error) => Err(self.fail(StoreCall::Remove(log), &error)),
        }
    }

    #[tactic(auto, using(crate::proofs::Shelves::received, crate::proofs::Shelves::unchanged))]
    fn replace_status(&mut self, file: usize, content: &[u8]) -> Result<(), StoreFault> {
        match self.statuses[file].replace(content) {
            Ok(()) => Ok(()),
            Err(error) => Err(self.fail(StoreCall::Status(file), &error)),
        }
    }

    fn alert(&mut self, piece: &[u8]) -> Result<usize, StoreFault> {
        match self.system.alert(piece) {
            Ok(count) => Ok(count),
            Err(error) => Err(self.fail(StoreCall::Alert, &error)),
        }
    }

    fn length(&self, log: usize) -> u64 {
        self.logs[log].length()
    }

    fn old_count(&self, log: usize) -> u64 {
        self.logs[log].old_count()
    }

    fn last_label(&self, log: usize) -> Option<Label> {
        self.logs[log].last_label()
    }
}
