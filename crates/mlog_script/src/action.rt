//! Actions, with bytes of their own.
ghost use Rattle.std.specs.Prelude.{◌≡◌, Ok, false, is_ok, IsTrue, IfOk, IsOkUnless};
ghost use Rattle.star_match.specs.Star.{has_adjacent_stars};
ghost use Rattle.mlog_script.specs.Script.{said, is_stamp, is_alert, is_pattern, is_log, is_file, size_set, keep_set};
ghost use Rattle.mlog_script.specs.Selection.{decision};
ghost use Rattle.mlog_script.specs.Action.{act, HasNoOutput};

use crate::fault::ScriptFaultKind;
use crate::word::{Said, read_word};
use star_match::{NotedText, Pattern};
use std::alloc::{Allocator, Global};

/// What a word asks for.
#[derive(Debug, Drop)]
pub(crate) enum Action<A: Allocator + Clone = Global> {
    Stamp,
    Alert,
    Size(u64),
    Keep(u64),
    Select(Pattern<A>),
    Deselect(Pattern<A>),
    Status(Vec<u8, A>),
    Log(Vec<u8, A>),
}

impl<A: Allocator + Clone> Action<A> {
    /// Reads a word.
    pub(crate) fn read(alloc: A, word: &[u8]) -> Result<Action<A>, ScriptFaultKind>
        requires { IsTrue (is_ok (said word.now)) }
        ensures ok { IfOk result (λ action. said word.now ≡ Ok (act action)) }
        ensures memory { IsOkUnless result ScriptFaultKind.OutOfMemory }
    {
        match read_word(word)? {
            Said::Stamp => Ok(Action::Stamp),
            Said::Alert => Ok(Action::Alert),
            Said::Size(size) => Ok(Action::Size(size)),
            Said::Keep(keep) => Ok(Action::Keep(keep)),
            Said::Select(pattern) => Ok(Action::Select(own_pattern(alloc, pattern)?)),
            Said::Deselect(pattern) => Ok(Action::Deselect(own_pattern(alloc, pattern)?)),
            Said::Status(path) => Ok(Action::Status(own_bytes(alloc, path)?)),
            Said::Log(folder) => Ok(Action::Log(own_bytes(alloc, folder)?)),
        }
    }

    /// Returns whether a line with this front is selected after the action, if its pattern decides that.
    pub(crate) fn decision(&self, front: &[u8]) -> Option<bool>
        ensures { result ≡ decision front.now (act self.now) }
    {
        match self {
            Action::Select(pattern) if pattern.matches(front) => Some(true),
            Action::Deselect(pattern) if pattern.matches(front) => Some(false),
            _ => None,
        }
    }

    /// Returns the same for a front whose pairs are noted.
    pub(crate) fn decision_noted(&self, front: &NotedText<'_>) -> Option<bool>
        ensures { result ≡ decision front.now (act self.now) }
    {
        match self {
            Action::Select(pattern) if pattern.matches_noted(front) => Some(true),
            Action::Deselect(pattern) if pattern.matches_noted(front) => Some(false),
            _ => None,
        }
    }

    /// Returns whether the action sends lines to an alert, a log or a status file.
    pub(crate) fn is_output(&self) -> bool
        ensures none { result ≡ false → HasNoOutput (act self.now) }
    {
        matches!(self, Action::Alert | Action::Log(_) | Action::Status(_))
    }

    /// Returns the size that the action sets.
    pub(crate) fn size_set(&self) -> Option<u64>
        ensures { result ≡ size_set (act self.now) }
    {
        match self {
            Action::Size(size) => Some(*size),
            _ => None,
        }
    }

    /// Returns the number of old files that the action sets.
    pub(crate) fn keep_set(&self) -> Option<u64>
        ensures { result ≡ keep_set (act self.now) }
    {
        match self {
            Action::Keep(keep) => Some(*keep),
            _ => None,
        }
    }

    pub(crate) fn is_stamp(&self) -> bool
        ensures { result ≡ is_stamp (act self.now) }
    {
        matches!(self, Action::Stamp)
    }

    pub(crate) fn is_alert(&self) -> bool
        ensures { result ≡ is_alert (act self.now) }
    {
        matches!(self, Action::Alert)
    }

    pub(crate) fn is_pattern(&self) -> bool
        ensures { result ≡ is_pattern (act self.now) }
    {
        matches!(self, Action::Select(_) | Action::Deselect(_))
    }

    pub(crate) fn is_log(&self) -> bool
        ensures { result ≡ is_log (act self.now) }
    {
        matches!(self, Action::Log(_))
    }

    pub(crate) fn is_file(&self) -> bool
        ensures { result ≡ is_file (act self.now) }
    {
        matches!(self, Action::Status(_))
    }
}

/// Returns a pattern with these bytes.
fn own_pattern<A: Allocator + Clone>(alloc: A, bytes: &[u8]) -> Result<Pattern<A>, ScriptFaultKind>
    requires { has_adjacent_stars bytes.now ≡ false }
    ensures ok { IfOk result (λ pattern. pattern ≡ bytes.now) }
    ensures memory { IsOkUnless result ScriptFaultKind.OutOfMemory }
{
    Pattern::read(alloc, bytes).map_err(|_| ScriptFaultKind::OutOfMemory)
}

/// Copies the bytes.
fn own_bytes<A: Allocator>(alloc: A, bytes: &[u8]) -> Result<Vec<u8, A>, ScriptFaultKind>
    ensures ok { IfOk result (λ own. own.items ≡ bytes.now) }
    ensures memory { IsOkUnless result ScriptFaultKind.OutOfMemory }
{
    let mut own = Vec::new(alloc);
    own.extend_from_slice(bytes)
        .map_err(|_| ScriptFaultKind::OutOfMemory)?;
    Ok(own)
}
