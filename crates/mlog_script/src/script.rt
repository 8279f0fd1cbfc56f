ghost use Rattle.std.specs.Prelude.{◌≡◌, ◌<◌, ◌≤◌, ◌↔◌, Ok, true, length, map, count_by, slice_get, option_copied};
ghost use Rattle.std.specs.Prelude.{IfOk, IfErr, IsErrOf, IfSome, IsSome, MatchOption};
ghost use Rattle.std.specs.List.{list_any, list_all};
ghost use Rattle.mlog_script.specs.Script.{said, first_fault, is_stamp, is_alert, is_pattern, is_log, is_file};
ghost use Rattle.mlog_script.specs.Script.{is_within_limits, log_plans, file_paths};
ghost use Rattle.mlog_script.specs.Named.{IsWantOfMemory};
ghost use Rattle.mlog_script.specs.Selection.{stamps};
ghost use Rattle.mlog_script.specs.Action.{act, AreQuiet};
ghost use Rattle.mlog_script.specs.declared.word.TheConstants.{LEAST_SIZE};

use crate::action::Action;
use crate::check::check_words;
use crate::fault::{ScriptFault, ScriptFaultKind};
use crate::plan::{LogPlan, file_path, log_plan};
use crate::read::read_actions;
use std::alloc::{Allocator, Global};
use std::convert::AsSlice;
use std::marker::Model;

/// A script of multilog. Contracts see its actions, one for each word, in order.
#[derive(Debug, Drop)]
pub struct Script<A: Allocator + Clone = Global> {
    actions: Vec<Action<A>, A>,
    stamps: bool,
    has_patterns: bool,
    // How many actions come before the first that sends lines.
    quiet: usize,
}

impl<A: Allocator + Clone> Model for Script<A> {
    ghost use Rattle.std.specs.Prelude.{◌≡◌, true, List, map};
    ghost use Rattle.std.specs.List.{list_all, list_any};
    ghost use Rattle.mlog_script.specs.Script.{Act, is_within_limits, is_stamp, is_pattern};
    ghost use Rattle.mlog_script.specs.Action.{act, AreQuiet};

    ghost Value = { List Act };

    ghost view = { λ script. map act script.actions.items };

    ghost invariant = { λ script. (list_all is_within_limits (map act script.actions.items) ≡ true)
        × (script.stamps ≡ list_any is_stamp (map act script.actions.items))
        × (script.has_patterns ≡ list_any is_pattern (map act script.actions.items))
        × AreQuiet script.quiet (map act script.actions.items) };
}

impl<A: Allocator + Clone> Script<A> {
    /// Reads the words of a script. An empty list of words is a valid script, and needs no memory.
    ///
    /// The first bad word is reported, even if there is no memory. Otherwise `OutOfMemory` is returned only if the
    /// allocator refuses memory for the action of the reported word, or for the list of the actions up to it.
    pub fn read<W: AsSlice<u8>>(alloc: A, words: &[W]) -> Result<Script<A>, ScriptFault>
        ensures ok { IfOk result (λ script. map said (map W.items words.now) ≡ map (λ action. Ok action) script) }
        ensures refuses { MatchOption (first_fault (map W.items words.now))
            (IfErr result IsWantOfMemory) (λ fault. IsErrOf result fault) }
        ensures memory { IfErr result (λ fault. IsWantOfMemory fault
            → (0 < fault.word) × (fault.word ≤ length words.now)) }
    {
        check_words(words)?;
        let actions = read_actions(alloc, words)?;
        let stamps = any_stamp(&actions);
        let has_patterns = any_pattern(&actions);
        let quiet = quiet_front(&actions);
        Ok(Script {
            actions,
            stamps,
            has_patterns,
            quiet,
        })
    }

    /// Returns the actions, in order.
    pub(crate) fn actions(&self) -> &[Action<A>]
        ensures actions { map act result.now ≡ self.now }
        ensures limits { list_all is_within_limits self.now ≡ true }
    {
        self.actions.as_slice()
    }

    /// Returns how many actions come before the first that sends lines, or how many there are if none does.
    pub(crate) fn quiet(&self) -> usize
        ensures { AreQuiet result self.now }
    {
        self.quiet
    }

    /// Returns whether lines get a stamp.
    pub fn stamps(&self) -> bool
        ensures { result ≡ stamps self.now }
    {
        self.stamps
    }

    /// Returns whether a pattern selects or deselects lines. If none does, every line is selected at each action.
    pub fn has_patterns(&self) -> bool
        ensures { result ≡ list_any is_pattern self.now }
    {
        self.has_patterns
    }

    /// Returns how many alerts the script has.
    pub fn alerts(&self) -> usize
        ensures { result ≡ count_by is_alert self.now }
    {
        count_alerts(&self.actions)
    }

    /// Returns how many logs the script has.
    pub fn logs(&self) -> usize
        ensures { result ≡ count_by is_log self.now }
    {
        count_logs(&self.actions)
    }

    /// Returns how many status files the script has.
    pub fn files(&self) -> usize
        ensures { result ≡ count_by is_file self.now }
    {
        count_files(&self.actions)
    }

    /// Returns what the script asks for the log with this number: `Some` for each number below [`Script::logs`]. The
    /// size is at least 4096, and the log keeps at least 2 old files.
    pub fn log(&self, log: usize) -> Option<LogPlan<'_>>
        ensures plan { result ≡ slice_get (log_plans self.now) log }
        ensures there { IsSome result ↔ log < count_by is_log self.now }
        ensures limits { IfSome result (λ plan. (LEAST_SIZE ≤ plan.size) × (2 ≤ plan.keep)) }
    {
        log_plan(self.actions(), log)
    }

    /// Returns the path of the status file with this number: `Some` for each number below [`Script::files`].
    pub fn file(&self, file: usize) -> Option<&[u8]>
        ensures path { option_copied result ≡ slice_get (file_paths self.now) file }
        ensures there { IsSome result ↔ file < count_by is_file self.now }
    {
        file_path(self.actions(), file)
    }
}

/// Returns whether one of the actions is a stamp.
fn any_stamp<A: Allocator + Clone>(actions: &[Action<A>]) -> bool
    ensures { result ≡ list_any (λ action. is_stamp (act action)) actions.now }
{
    actions.iter().any(|action| action.is_stamp())
}

/// Returns whether one of the actions has a pattern.
fn any_pattern<A: Allocator + Clone>(actions: &[Action<A>]) -> bool
    ensures { result ≡ list_any (λ action. is_pattern (act action)) actions.now }
{
    actions.iter().any(|action| action.is_pattern())
}

/// Returns how many actions come before the first that sends lines.
fn quiet_front<A: Allocator + Clone>(actions: &[Action<A>]) -> usize
    ensures { AreQuiet result (map act actions.now) }
{
    for (place, action) in actions.iter().enumerate() {
        if action.is_output() {
            return place;
        }
    }
    actions.len()
}

/// Returns how many of the actions are alerts.
fn count_alerts<A: Allocator + Clone>(actions: &[Action<A>]) -> usize
    ensures { result ≡ count_by (λ action. is_alert (act action)) actions.now }
{
    actions.iter().filter(|action| action.is_alert()).count()
}

/// Returns how many of the actions are logs.
fn count_logs<A: Allocator + Clone>(actions: &[Action<A>]) -> usize
    ensures { result ≡ count_by (λ action. is_log (act action)) actions.now }
{
    actions.iter().filter(|action| action.is_log()).count()
}

/// Returns how many of the actions are status files.
fn count_files<A: Allocator + Clone>(actions: &[Action<A>]) -> usize
    ensures { result ≡ count_by (λ action. is_file (act action)) actions.now }
{
    actions.iter().filter(|action| action.is_file()).count()
}
