//! A router: it hands out lines.
ghost use Rattle.std.specs.Prelude.{◌≡◌, ◌≤◌, ◌<◌, [], true, false, length, take, count_by, OnOk, IfOk};
ghost use Rattle.std.specs.List.{list_all, list_any};
ghost use Rattle.mlog_script.specs.Script.{is_log, is_file};
ghost use Rattle.mlog_script.specs.Selection.{chosen, Fits};
ghost use Rattle.mlog_line.specs.Given.{nothing};
ghost use Rattle.mlog_line.specs.Outputs.{Hands};
ghost use Rattle.mlog_line.specs.LineRouter.{AreOpened, IsAt, IsWritten, IsBare, HaveRoom, Serves, SamePlace};
ghost use Rattle.mlog_line.specs.LineRouter.{PutsLine, EndsLine, Decides, total_finished, total_removed};
ghost use Rattle.mlog_line.specs.Reach.{HandsAlike, Reaches};

use crate::alerts::alert_chosen;
use crate::logs::{flush_all, open_all, put_all_within, put_chosen, room_in_all};
use crate::statuses::replace_chosen;
use mlog_files::{LogFault, LogStore, Tail};
use mlog_script::{Choices, Script};
use std::alloc::{AllocError, Allocator, Global};
use std::marker::Model;
use tai_status::{Block, Label, text};

/// How many bytes of a line patterns see.
const FRONT: usize = 1000;

/// Returns whether all flags are set.
fn are_all_set(flags: &[bool]) -> bool
    ensures { result ≡ list_all (λ flag. flag) flags.now }
{
    flags.iter().all(|is_set| *is_set)
}

/// Returns whether any flag is set.
fn is_any_set(flags: &[bool]) -> bool
    ensures { result ≡ list_any (λ flag. flag) flags.now }
{
    flags.iter().any(|is_set| *is_set)
}

/// At which logs a line is selected.
#[derive(Clone, Copy, Debug, PartialEq, Eq)]
pub enum Reach {
    /// At all logs.
    Everywhere,
    /// At no log.
    Nowhere,
    /// At some logs, and not at others.
    Somewhere,
}

/// Returns the reach of a line that is selected at these logs.
fn reach_of(flags: &[bool]) -> Reach
    ensures { Reaches result flags.now }
{
    if are_all_set(flags) {
        Reach::Everywhere
    } else if is_any_set(flags) {
        Reach::Somewhere
    } else {
        Reach::Nowhere
    }
}

/// Hands out the lines of an input to the logs, alerts and status files of a script.
#[derive(Drop)]
pub struct LineRouter<A: Allocator + Clone = Global> {
    tails: Vec<Tail, A>,
    choices: Choices<A>,
    kept: Block,
    decided: bool,
}

impl<A: Allocator + Clone> Model for LineRouter<A> {
    ghost use Rattle.std.specs.Prelude.{length, ◌≤◌};
    ghost use Rattle.mlog_line.specs.LineRouter.{Place};

    ghost Value = { Place };

    ghost view = { λ router. record {
      tails = router.tails.items;
      chosen = router.choices;
      front = router.kept;
      decided = router.decided;
    } };

    ghost invariant = { λ router. length router.kept ≤ 1000 };
}

impl<A: Allocator + Clone> LineRouter<A> {
    /// Opens a router for a script, over a store that has its logs and status files.
    ///
    /// It takes all the memory that it needs: a block of 32,768 bytes for each log, and a byte for each alert, log and
    /// status file. `AllocError` is returned only if the allocator refuses that memory.
    pub fn open<B: Allocator + Clone, S: LogStore>(
        alloc: A,
        script: &Script<B>,
        store: &S,
    ) -> Result<LineRouter<A>, AllocError>
        requires logs { count_by is_log script.now ≤ (S.state store.now).logs }
        requires files { count_by is_file script.now ≤ (S.state store.now).status_files }
        ensures opened { IfOk result (λ router. AreOpened script.now (S.state store.now).visible router.tails) }
        ensures serves { IfOk result (λ router. Serves script.now router (S.state store.now)) }
    {
        let tails = open_all(alloc.clone()?, script, store)?;
        let choices = Choices::new(alloc, script)?;
        Ok(LineRouter {
            tails,
            choices,
            kept: Block::new(),
            decided: false,
        })
    }

    /// Begins a line with this label.
    pub fn begin<B: Allocator + Clone>(&mut self, script: &Script<B>, label: &Label)
        ensures at { IsAt script.now self.new label.now [] }
        ensures tails { self.new.tails ≡ self.old.tails }
        ensures chosen { self.new.chosen ≡ self.old.chosen }
    {
        self.decided = false;
        self.kept.clear();
        if script.stamps() {
            self.kept.push(&text(label));
            self.kept.push(b" ");
        }
    }

    /// Puts bytes of the line, without its newline. A front of less than 1000 bytes is kept in memory. Later bytes go
    /// to the logs at which the line is selected. Up to a block of them may wait there.
    ///
    /// After a fault the router stops.
    pub fn put<B: Allocator + Clone, S: LogStore>(
        &mut self,
        script: &Script<B>,
        store: &mut S,
        label: &Label,
        bytes: &[u8],
    ) -> Result<(), LogFault>
        requires serves { Serves script.now self.old (S.state store.old) }
        ensures { PutsLine result script.now self.old self.new (S.state store.old) (S.state store.new)
            label.now bytes.now }
    {
        if self.decided {
            put_chosen(&mut self.tails, self.choices.logs(), store, label, bytes)
        } else {
            self.put_kept(script, store, label, bytes)
        }
    }

    // Puts bytes of a line whose front is kept.
    fn put_kept<B: Allocator + Clone, S: LogStore>(
        &mut self,
        script: &Script<B>,
        store: &mut S,
        label: &Label,
        bytes: &[u8],
    ) -> Result<(), LogFault>
        requires serves { Serves script.now self.old (S.state store.old) }
        requires kept { self.old.decided ≡ false }
        ensures { PutsLine result script.now self.old self.new (S.state store.old) (S.state store.new)
            label.now bytes.now }
    {
        let room = FRONT - self.kept.as_slice().len();
        if bytes.len() < room {
            self.kept.push(bytes);
            return Ok(());
        }
        self.kept.push(&bytes[..room]);
        self.decide(script, store, label, b"")?;
        put_chosen(
            &mut self.tails,
            self.choices.logs(),
            store,
            label,
            &bytes[room..],
        )
    }

    // Decides at which outputs the line with the kept front is selected. Alerts it, puts it into status files, and puts
    // it into logs with these last bytes.
    fn decide<B: Allocator + Clone, S: LogStore>(
        &mut self,
        script: &Script<B>,
        store: &mut S,
        label: &Label,
        end: &[u8],
    ) -> Result<(), LogFault>
        requires serves { Serves script.now self.old (S.state store.old) }
        requires end { length end.now ≤ 1 }
        ensures decided { OnOk result (self.new.decided ≡ true) }
        ensures chosen { self.new.chosen ≡ chosen script.now self.old.front }
        ensures decides { Decides result script.now self.old self.new (S.state store.old) (S.state store.new)
            label.now end.now }
    {
        self.decided = true;
        let front = self.kept.as_slice();
        self.choices.choose(script, front);
        match alert_chosen(store, self.choices.alerts(), front) {
            Ok(()) => {}
            Err(_) => return Err(LogFault::Store),
        }
        match replace_chosen(store, self.choices.files(), front) {
            Ok(()) => {}
            Err(_) => return Err(LogFault::Store),
        }
        self.kept.push(end);
        let text = self.kept.as_slice();
        let put = put_chosen(&mut self.tails, self.choices.logs(), store, label, text);
        self.kept.clear();
        put
    }

    /// Ends the line. It gets its newline in the logs at which it is selected.
    ///
    /// After a fault the router stops.
    pub fn end<B: Allocator + Clone, S: LogStore>(
        &mut self,
        script: &Script<B>,
        store: &mut S,
        label: &Label,
    ) -> Result<(), LogFault>
        requires serves { Serves script.now self.old (S.state store.old) }
        ensures { EndsLine result script.now self.old self.new (S.state store.old) (S.state store.new) label.now }
    {
        if self.decided {
            put_chosen(&mut self.tails, self.choices.logs(), store, label, b"\n")
        } else {
            self.end_kept(script, store, label)
        }
    }

    // Ends a line whose front is kept: the front is the whole line.
    fn end_kept<B: Allocator + Clone, S: LogStore>(
        &mut self,
        script: &Script<B>,
        store: &mut S,
        label: &Label,
    ) -> Result<(), LogFault>
        requires serves { Serves script.now self.old (S.state store.old) }
        requires kept { self.old.decided ≡ false }
        ensures { EndsLine result script.now self.old self.new (S.state store.old) (S.state store.new) label.now }
    {
        self.decide(script, store, label, b"\n")
    }

    /// Returns how many bytes of whole lines [`LineRouter::put_alike`] takes. If lines are stamped, alerted or put into
    /// status files, it takes none. Otherwise it takes as many bytes as can't fill a file of any log, with any values,
    /// but at most a block.
    pub fn room<B: Allocator + Clone>(&self, script: &Script<B>) -> usize
        ensures bare { 0 < result → IsBare script.now }
        ensures room { HaveRoom result self.now.tails }
    {
        if script.stamps() || script.alerts() > 0 || script.files() > 0 {
            return 0;
        }
        room_in_all(&self.tails)
    }

    /// Returns at which logs a line is selected. The line is given without its newline.
    pub fn reach<B: Allocator + Clone>(&mut self, script: &Script<B>, line: &[u8]) -> Reach
        requires { Fits self.old.chosen script.now }

        // The first 1000 bytes of the line decide the flags. If it returns `Everywhere`, those of all logs are set, and
        // if it returns `Nowhere`, none of them is. `Somewhere` promises nothing.
        ensures chosen { self.new.chosen ≡ chosen script.now (take 1000 line.now) }
        ensures reach { Reaches result self.new.chosen.logs }

        // Nothing but the flags changes, and they fit the script as before.
        ensures tails { self.new.tails ≡ self.old.tails }
        ensures same { (self.new.front ≡ self.old.front) × (self.new.decided ≡ self.old.decided) }
        ensures fits { Fits self.new.chosen script.now }
    {
        let len = line.len().min(FRONT);
        self.choices.choose(script, &line[..len]);
        reach_of(self.choices.logs())
    }

    /// Puts whole lines of one reach, unchanged, into all logs or into none. Up to a block of them may wait.
    ///
    /// After a fault the router stops.
    pub fn put_alike<S: LogStore>(
        &mut self,
        store: &mut S,
        reach: Reach,
        bytes: &[u8],
    ) -> Result<(), LogFault>
        requires room { HaveRoom (length bytes.now) self.old.tails }
        requires logs { length self.old.tails ≤ (S.state store.old).logs }
        ensures hands { HandsAlike result self.old.tails self.new.tails (S.state store.old) (S.state store.new)
            bytes.now reach }
        ensures same { SamePlace self.old self.new }
    {
        match reach {
            Reach::Everywhere => put_all_within(&mut self.tails, store, bytes),
            Reach::Nowhere | Reach::Somewhere => Ok(()),
        }
    }

    /// Appends the bytes that wait in memory.
    pub fn flush<S: LogStore>(&mut self, store: &mut S) -> Result<(), LogFault>
        requires logs { length self.old.tails ≤ (S.state store.old).logs }
        ensures hands { Hands result self.old.tails self.new.tails (S.state store.old) (S.state store.new) nothing }
        ensures written { OnOk result (IsWritten self.new.tails) }
        ensures same { SamePlace self.old self.new }
    {
        flush_all(&mut self.tails, store)
    }

    /// Returns how many old files were finished in all logs since the router was opened. The count stops at `u64::MAX`.
    pub fn finished(&self) -> u64
        ensures { result ≡ total_finished self.now.tails }
    {
        let mut total = 0_u64;
        for tail in &self.tails {
            total = total.saturating_add(tail.finished());
        }
        total
    }

    /// Returns how many old files were removed in all logs since the router was opened. The count stops at `u64::MAX`.
    pub fn removed(&self) -> u64
        ensures { result ≡ total_removed self.now.tails }
    {
        let mut total = 0_u64;
        for tail in &self.tails {
            total = total.saturating_add(tail.removed());
        }
        total
    }
}
