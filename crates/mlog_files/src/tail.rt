//! The end of a log, to which its text is added.
ghost use Rattle.std.specs.Prelude.{◌≡◌, ◌≤◌, ◌<◌, ◌++◌, [], OnOk, OnErr, Some};
ghost use Rattle.mlog_files.specs.Files.{append_steps};
ghost use Rattle.mlog_files.specs.Steps.{label_given};
ghost use Rattle.mlog_files.specs.Store.{Does, Fails, Goes};

use crate::cut::{SLACK, first_cut};
use crate::store::{LogStore, StoreFault, append_all};
use tai_status::{BLOCK, Block, Label};
use thiserror::Error;

/// Why a log stops.
#[derive(Clone, Copy, Debug, PartialEq, Eq, Error)]
pub enum LogFault {
    /// The store failed.
    #[error("Store")]
    Store,
    /// There is no greater label for an old file.
    #[error("LabelsSpent")]
    LabelsSpent,
}

/// The state of a log's end: the bytes in its current file, including those that wait in memory; the number of old
/// files; the greatest label of one; and how many were finished and removed.
#[derive(Drop)]
pub struct Tail {
    size: usize,
    keep: u64,
    count: usize,
    kept: u64,
    last: Option<Label>,
    finished: u64,
    removed: u64,
    waiting: Block,
    ghost sized: { 2000 ≤ size },
    ghost keeps: { 2 ≤ keep },
}

// Returns the label for an old file, if there is one.
fn label_for(last: &Option<Label>, reading: &Label) -> Option<Label>
    ensures { result ≡ label_given last.now reading.now }
{
    match last {
        None => Some(*reading),
        Some(last) => label_past(last, reading),
    }
}

// Returns the reading, or the label after the last one.
fn label_past(last: &Label, reading: &Label) -> Option<Label>
    ensures { result ≡ label_given (Some last.now) reading.now }
{
    if last < reading {
        Some(*reading)
    } else if *last == Label::MAX {
        None
    } else {
        Some(last.plus_nano())
    }
}

// Appends the bytes that wait.
fn write_out<S: LogStore>(waiting: &mut Block, store: &mut S, log: usize) -> Result<(), StoreFault>
    requires { log < (S.state store.old).logs }
    ensures ok { OnOk result (Does (S.state store.old) (S.state store.new) log (append_steps waiting.old)) }
    ensures empty { OnOk result (waiting.new ≡ []) }
    ensures err { OnErr result (Fails (S.state store.old) (S.state store.new) log (append_steps waiting.old)) }
{
    append_all(store, log, waiting.as_slice())?;
    waiting.clear();
    Ok(())
}

// Adds a piece after the bytes that wait. They are appended first if there is no room.
fn hold<S: LogStore>(
    waiting: &mut Block,
    store: &mut S,
    log: usize,
    piece: &[u8],
) -> Result<(), StoreFault>
    requires { log < (S.state store.old).logs }
    ensures ok { OnOk result
        (Goes (S.state store.old) (S.state store.new) log waiting.old waiting.new (append_steps piece.now)) }
    ensures err { OnErr result
        (Fails (S.state store.old) (S.state store.new) log (append_steps waiting.old ++ append_steps piece.now)) }
{
    if piece.len() <= waiting.room() {
        waiting.push(piece);
        return Ok(());
    }
    write_out(waiting, store, log)?;
    if piece.len() <= BLOCK {
        waiting.push(piece);
        return Ok(());
    }
    append_all(store, log, piece)
}

impl Tail {
    ghost use Rattle.std.specs.Prelude.{◌≡◌, ◌<◌, ◌≤◌, ◌++◌, [], length, take, Some, IfOk, IfErr, IfSome, OnOk, OnErr};
    ghost use Rattle.mlog_files.specs.Files.{append_steps};
    ghost use Rattle.mlog_files.specs.Steps.{finish_steps};
    ghost use Rattle.mlog_files.specs.Going.{begun, finished_at, rotate_steps, rotated};
    ghost use Rattle.mlog_files.specs.Store.{Does, Fails, Goes};
    ghost use Rattle.mlog_files.specs.Tails.{size_of, keep_of, waiting_in, marks_at, standing, found};
    ghost use Rattle.mlog_files.specs.Tails.{room_in, longer, SameLimits, steps_to_finish, FinishesUpTo, Puts};
    ghost use Rattle.mlog_files.specs.Tails.{PutsUpTo, RotatesUpTo};
    ghost use Rattle.mlog_files.specs.declared.tail.LogFault.TheVariants as fault;

    /// Returns the end of a log as the store has it.
    pub fn open<S: LogStore>(store: &S, log: usize, size: usize, keep: u64) -> Tail
        // The store has this log. Its files may have at least 2000 bytes, and it keeps at least 2 old files.
        requires log { log < (S.state store.now).logs }
        requires size { 2000 ≤ size }
        requires keep { 2 ≤ keep }

        // The log has these limits, and no byte waits. If its files are visible, its state is what they show.
        ensures limits { (size_of result ≡ size) × (keep_of result ≡ keep) }
        ensures waiting { waiting_in result ≡ [] }
        ensures found { IfSome ((S.state store.now).visible.files log) (λ files. standing result ≡ found files) }
    {
        Tail {
            size,
            keep,
            count: store.length(log) as usize,
            kept: store.old_count(log),
            last: store.last_label(log),
            finished: 0,
            removed: 0,
            waiting: Block::new(),
        }
    }

    /// Returns how many old files were finished since the log was opened. The count stops at `u64::MAX`.
    pub fn finished(&self) -> u64
        ensures { result ≡ (marks_at self.now).finished }
    {
        self.finished
    }

    /// Returns how many old files were removed since the log was opened. The count stops at `u64::MAX`.
    pub fn removed(&self) -> u64
        ensures { result ≡ (marks_at self.now).removed }
    {
        self.removed
    }

    // Finishes the current file, and removes an old file if there are as many as are kept.
    fn finish_under<S: LogStore>(
        &mut self,
        store: &mut S,
        log: usize,
        label: Label,
    ) -> Result<(), StoreFault>
        requires { log < (S.state store.old).logs }

        // If it succeeds, the log went through the steps of this finish, and its state is the one after them.
        ensures ok { OnOk result (Does (S.state store.old) (S.state store.new) log
            (finish_steps self.old.keep (marks_at self.old) label)) }
        ensures stands { OnOk result (standing self.new ≡ begun self.old.keep (marks_at self.old) label) }

        // In each outcome the bytes that wait stay, and so do the limits.
        ensures waiting { self.new.waiting ≡ self.old.waiting }
        ensures same { SameLimits self.old self.new }

        // If it fails, the log went through a prefix of these steps, and the failure of the store is counted.
        ensures err { OnErr result (Fails (S.state store.old) (S.state store.new) log
            (finish_steps self.old.keep (marks_at self.old) label)) }
    {
        store.finish(log, &label)?;
        self.finished = self.finished.saturating_add(1);
        if self.kept >= self.keep - 1 {
            store.remove_smallest(log)?;
            self.removed = self.removed.saturating_add(1);
        } else {
            self.kept += 1;
        }
        self.last = Some(label);
        self.count = 0;
        Ok(())
    }

    // Finishes the current file, with the bytes that wait.
    fn finish<S: LogStore>(
        &mut self,
        store: &mut S,
        log: usize,
        reading: &Label,
    ) -> Result<(), LogFault>
        requires { log < (S.state store.old).logs }

        // If it succeeds, there was a label, and the bytes that waited are in the file that is finished. A new file
        // begins.
        ensures ok { OnOk result (Does (S.state store.old) (S.state store.new) log
            (steps_to_finish self.old reading.now)) }
        ensures stands { OnOk result
            (finished_at self.old.keep (marks_at self.old) reading.now ≡ Some (standing self.new)) }
        ensures empty { OnOk result (self.new.waiting ≡ []) }

        // The limits stay. If it fails, the log went through a prefix of the steps. If there is no label, these are all
        // steps before the finish.
        ensures same { SameLimits self.old self.new }
        ensures stopped { IfErr result (λ why.
            FinishesUpTo (S.state store.old) (S.state store.new) log self.old reading.now why) }
    {
        match write_out(&mut self.waiting, store, log) {
            Ok(()) => {}
            Err(_) => return Err(LogFault::Store),
        }
        let Some(label) = label_for(&self.last, reading) else {
            return Err(LogFault::LabelsSpent);
        };
        match self.finish_under(store, log, label) {
            Ok(()) => Ok(()),
            Err(_) => Err(LogFault::Store),
        }
    }

    /// Finishes the current file on request, under the label from a clock reading, or under the label after the
    /// greatest one. An empty file is left alone. No bytes may wait in memory. After a fault the log stops.
    pub fn rotate<S: LogStore>(
        &mut self,
        store: &mut S,
        log: usize,
        reading: &Label,
    ) -> Result<(), LogFault>
        requires log { log < (S.state store.old).logs }
        requires written { waiting_in self.old ≡ [] }

        // If it succeeds, the log went through the steps of a rotation, which are none for an empty file. No byte
        // waits.
        ensures done { OnOk result (Does (S.state store.old) (S.state store.new) log
            (rotate_steps (keep_of self.old) (standing self.old) reading.now)) }
        ensures stands { OnOk result
            (rotated (keep_of self.old) (standing self.old) reading.now ≡ Some (standing self.new)) }
        ensures written { OnOk result (waiting_in self.new ≡ []) }

        // The limits stay. If it fails, the log went through a prefix of the steps. If there is no label, it went
        // through none.
        ensures same { SameLimits self.old self.new }
        ensures stopped { IfErr result (λ why.
            RotatesUpTo (S.state store.old) (S.state store.new) log self.old reading.now why) }
    {
        if self.count == 0 {
            return Ok(());
        }
        self.finish(store, log, reading)
    }

    // Puts a prefix of a line's bytes into a current file that has room, and returns its length.
    fn put_open<S: LogStore>(
        &mut self,
        store: &mut S,
        log: usize,
        reading: &Label,
        bytes: &[u8],
    ) -> Result<usize, LogFault>
        // The store has this log. Its current file has room, and at least one byte comes.
        requires log { log < (S.state store.old).logs }
        requires room { self.old.count < self.old.size }
        requires some { 0 < length bytes.now }

        // If it succeeds, it took at least one byte. The log went through the steps of what it took, except for the
        // bytes that wait.
        ensures taken { IfOk result (λ taken. (0 < taken) × (taken ≤ length bytes.now)) }
        ensures puts { IfOk result (λ taken. Puts (S.state store.old) (S.state store.new) log
            self.old self.new reading.now (take taken bytes.now)) }

        // The limits stay. If it fails, the log went through a prefix of the steps: for the bytes that waited, and then
        // for all these.
        ensures same { SameLimits self.old self.new }
        ensures stopped { IfErr result (λ why.
            PutsUpTo (S.state store.old) (S.state store.new) log self.old reading.now bytes.now why) }
    {
        let cut = first_cut(self.size, self.count, bytes);
        match hold(&mut self.waiting, store, log, &bytes[..cut.len]) {
            Ok(()) => {}
            Err(_) => return Err(LogFault::Store),
        }
        if cut.is_full {
            self.finish(store, log, reading)?;
        } else {
            self.count += cut.len;
        }
        Ok(cut.len)
    }

    // Puts a prefix of a line's bytes. A file that was already too large is finished first.
    fn put_part<S: LogStore>(
        &mut self,
        store: &mut S,
        log: usize,
        reading: &Label,
        bytes: &[u8],
    ) -> Result<usize, LogFault>
        requires log { log < (S.state store.old).logs }
        requires some { 0 < length bytes.now }

        // If it succeeds, it took at least one byte. The log went through the steps of what it took, except for the
        // bytes that wait.
        ensures taken { IfOk result (λ taken. (0 < taken) × (taken ≤ length bytes.now)) }
        ensures puts { IfOk result (λ taken. Puts (S.state store.old) (S.state store.new) log
            self.old self.new reading.now (take taken bytes.now)) }

        // The limits stay. If it fails, the log went through a prefix of the steps: for the bytes that waited, and then
        // for all these.
        ensures same { SameLimits self.old self.new }
        ensures stopped { IfErr result (λ why.
            PutsUpTo (S.state store.old) (S.state store.new) log self.old reading.now bytes.now why) }
    {
        if self.count < self.size {
            return self.put_open(store, log, reading, bytes);
        }
        self.finish(store, log, reading)?;
        self.put_open(store, log, reading, bytes)
    }

    /// Adds bytes of one line to the log's text. A line may be put in any number of calls. The clock reading of the
    /// line gives the names of the old files that these bytes fill.
    ///
    /// Up to a block of the bytes may wait in memory until the next call or [`Tail::flush`]. After a fault the log
    /// stops; don't put the bytes that waited again.
    pub fn put<S: LogStore>(
        &mut self,
        store: &mut S,
        log: usize,
        reading: &Label,
        bytes: &[u8],
    ) -> Result<(), LogFault>
        requires log { log < (S.state store.old).logs }
        ensures puts { OnOk result
            (Puts (S.state store.old) (S.state store.new) log self.old self.new reading.now bytes.now) }
        ensures same { SameLimits self.old self.new }
        ensures stopped { IfErr result (λ why.
            PutsUpTo (S.state store.old) (S.state store.new) log self.old reading.now bytes.now why) }
    {
        let mut at = 0;
        while at < bytes.len() {
            at += self.put_part(store, log, reading, &bytes[at..])?;
        }
        Ok(())
    }

    /// Returns how many bytes can come, with any values, before the current file can be full.
    pub fn room(&self) -> usize
        ensures { result ≡ room_in self.now }
    {
        (self.size - SLACK)
            .saturating_sub(self.count)
            .saturating_sub(1)
    }

    /// Adds bytes that can't fill a file to the log's text, from any lines. They may wait as those of [`Tail::put`] do.
    /// After a fault the log stops.
    pub fn put_within<S: LogStore>(
        &mut self,
        store: &mut S,
        log: usize,
        bytes: &[u8],
    ) -> Result<(), LogFault>
        requires log { log < (S.state store.old).logs }
        requires room { length bytes.now ≤ room_in self.old }

        // If it succeeds, the bytes come after those that waited, and some of all these may be appended. The state
        // counts them all.
        ensures done { OnOk result (Goes (S.state store.old) (S.state store.new) log
            (waiting_in self.old) (waiting_in self.new) (append_steps bytes.now)) }
        ensures stands { OnOk result (standing self.new ≡ longer (standing self.old) (length bytes.now)) }

        // The limits stay. Only the store can fail. Then a prefix of the bytes that waited and of these is appended,
        // and the failure is counted.
        ensures same { SameLimits self.old self.new }
        ensures stopped { OnErr result (Fails (S.state store.old) (S.state store.new) log
            (append_steps (waiting_in self.old) ++ append_steps bytes.now)) }
        ensures why { IfErr result (λ why. why ≡ fault.Store) }
    {
        match hold(&mut self.waiting, store, log, bytes) {
            Ok(()) => {
                self.count += bytes.len();
                Ok(())
            }
            Err(_) => Err(LogFault::Store),
        }
    }

    /// Appends the bytes that wait in memory.
    pub fn flush<S: LogStore>(&mut self, store: &mut S, log: usize) -> Result<(), LogFault>
        requires log { log < (S.state store.old).logs }

        // If it succeeds, the bytes that waited are appended, and none waits.
        ensures done { OnOk result
            (Does (S.state store.old) (S.state store.new) log (append_steps (waiting_in self.old))) }
        ensures empty { OnOk result (waiting_in self.new ≡ []) }

        // In each outcome the state stays, since it already counts the bytes that wait. The limits stay too.
        ensures stands { standing self.new ≡ standing self.old }
        ensures same { SameLimits self.old self.new }

        // Only the store can fail. Then a prefix of the bytes that waited is appended, and the failure is counted.
        ensures stopped { OnErr result
            (Fails (S.state store.old) (S.state store.new) log (append_steps (waiting_in self.old))) }
        ensures why { IfErr result (λ why. why ≡ fault.Store) }
    {
        match write_out(&mut self.waiting, store, log) {
            Ok(()) => Ok(()),
            Err(_) => Err(LogFault::Store),
        }
    }
}
