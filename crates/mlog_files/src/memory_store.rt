//! A store in memory.
ghost use Rattle.std.specs.Prelude.{◌≡◌, ◌<◌, length, set, slice_get, OnOk, OnErr};
ghost use Rattle.mlog_files.specs.Files.{Finish, Remove, Step, files_after, append_steps};

use crate::memory::LogFiles;
use crate::store::{LogStore, StoreFault};
use std::alloc::{AllocError, Allocator, Global};
use std::marker::Model;
use tai_status::Label;

/// A content of a status file.
#[derive(Drop)]
pub struct Content<A: Allocator = Global> {
    pub bytes: Vec<u8, A>,
}

impl<A: Allocator> Model for Content<A> {
    ghost use Rattle.std.specs.Prelude.{ℕ, List};

    ghost Value = { List ℕ };

    ghost view = { λ content. content.bytes.items };
}

/// A status file: the contents that it was given, in order. The last one is its content.
#[derive(Drop)]
pub struct StatusFile<A: Allocator = Global> {
    pub contents: Vec<Content<A>, A>,
}

impl<A: Allocator> Model for StatusFile<A> {
    ghost use Rattle.std.specs.Prelude.{ℕ, List};

    ghost Value = { List (List ℕ) };

    ghost view = { λ status. status.contents.items };
}

impl<A: Allocator + Clone> StatusFile<A> {
    ghost use Rattle.std.specs.Prelude.{◌≡◌, ◌++◌, ◌∷◌, [], OnOk, OnErr};

    // Gives a content to the status file, if there is memory for it.
    fn give(&mut self, content: &[u8]) -> Result<(), AllocError>
        ensures ok { OnOk result (self.new ≡ self.old ++ content.now ∷ []) }
        ensures err { OnErr result (self.new ≡ self.old) }
    {
        let mut bytes = Vec::new(self.contents.allocator().clone()?);
        bytes.extend_from_slice(content)?;
        self.contents.push(Content { bytes })?;
        Ok(())
    }
}

/// Files of logs, status files and alerts in memory. A call that runs out of memory fails.
#[derive(Drop)]
pub struct MemoryStore<A: Allocator = Global> {
    logs: Vec<LogFiles<A>, A>,
    statuses: Vec<StatusFile<A>, A>,
    alerts: Vec<u8, A>,
    failures: u64,
}

impl<A: Allocator> Model for MemoryStore<A> {
    ghost use Rattle.mlog_files.specs.Memory.{Memory};

    ghost Value = { Memory };

    ghost view = { λ store. record {
      logs = store.logs.items;
      statuses = store.statuses.items;
      alerts = store.alerts.items;
      failures = store.failures;
    } };
}

impl<A: Allocator> MemoryStore<A> {
    ghost use Rattle.std.specs.Prelude.{◌≡◌, ◌≤◌, []};
    ghost use Rattle.tai_status.specs.Counted.{Rose};

    /// Returns a store with these logs and status files, and without an alert. Needs no memory.
    pub fn new(
        alloc: A,
        logs: Vec<LogFiles<A>, A>,
        statuses: Vec<StatusFile<A>, A>,
    ) -> MemoryStore<A>
        ensures { result ≡ record { logs = logs.items; statuses = statuses.items; alerts = []; failures = 0 } }
    {
        MemoryStore {
            logs,
            statuses,
            alerts: Vec::new(alloc),
            failures: 0,
        }
    }

    /// Returns the logs, the status files and all alerts. Needs no memory.
    pub fn take_apart(self) -> (Vec<LogFiles<A>, A>, Vec<StatusFile<A>, A>, Vec<u8, A>)
        ensures logs { result.0.items ≡ self.logs }
        ensures statuses { result.1.items ≡ self.statuses }
        ensures alerts { result.2.items ≡ self.alerts }
    {
        (self.logs, self.statuses, self.alerts)
    }

    // Counts a failed call.
    fn fail(&mut self) -> StoreFault
        ensures rose { Rose self.old.failures self.new.failures }
        ensures steady { self.old.failures ≤ self.new.failures }
        ensures logs { self.new.logs ≡ self.old.logs }
        ensures statuses { self.new.statuses ≡ self.old.statuses }
        ensures alerts { self.new.alerts ≡ self.old.alerts }
    {
        self.failures = self.failures.saturating_add(1);
        StoreFault
    }
}

impl<A: Allocator + Clone> LogStore for MemoryStore<A> {
    ghost use Rattle.mlog_files.specs.Memory.{state_of};

    ghost state = { state_of };

    fn append(&mut self, log: usize, piece: &[u8]) -> Result<usize, StoreFault> {
        match self.logs[log].append(piece) {
            Ok(()) => Ok(piece.len()),
            Err(_) => Err(self.fail()),
        }
    }

    fn finish(&mut self, log: usize, label: &Label) -> Result<(), StoreFault> {
        match self.logs[log].finish(label) {
            Ok(()) => Ok(()),
            Err(_) => Err(self.fail()),
        }
    }

    fn remove_smallest(&mut self, log: usize) -> Result<(), StoreFault> {
        self.logs[log].remove_smallest();
        Ok(())
    }

    fn replace_status(&mut self, file: usize, content: &[u8]) -> Result<(), StoreFault> {
        match self.statuses[file].give(content) {
            Ok(()) => Ok(()),
            Err(_) => Err(self.fail()),
        }
    }

    fn alert(&mut self, piece: &[u8]) -> Result<usize, StoreFault> {
        match self.alerts.extend_from_slice(piece) {
            Ok(()) => Ok(piece.len()),
            Err(_) => Err(self.fail()),
        }
    }

    fn length(&self, log: usize) -> u64 {
        self.logs[log].current.len() as u64
    }

    fn old_count(&self, log: usize) -> u64 {
        self.logs[log].olds.len() as u64
    }

    fn last_label(&self, log: usize) -> Option<Label> {
        self.logs[log].last_label()
    }
}
