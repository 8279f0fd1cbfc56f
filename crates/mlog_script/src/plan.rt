//! The logs and status files of a script.
ghost use Rattle.std.specs.Prelude.{◌≡◌, map, slice_get, option_copied};
ghost use Rattle.mlog_script.specs.Script.{size_after, keep_after, log_plans, file_paths};
ghost use Rattle.mlog_script.specs.Action.{act};

use crate::action::Action;
use std::alloc::Allocator;
use std::marker::Model;

/// The size of a log, if no word sets one.
pub const DEFAULT_SIZE: u64 = 99_999;

/// How many old files a log keeps, if no word sets a number.
pub const DEFAULT_KEEP: u64 = 10;

/// What a script asks for a log.
#[derive(Debug, Drop)]
pub struct LogPlan<'a> {
    /// The folder, as it is in the script.
    pub folder: &'a [u8],

    /// The size of a file, in bytes.
    pub size: u64,

    /// How many old files are kept.
    pub keep: u64,
}

impl<'a> Model for LogPlan<'a> {
    ghost use Rattle.mlog_script.specs.Script.{Plan};

    ghost Value = { Plan };

    ghost view = { λ plan. record { folder = plan.folder.now; size = plan.size; keep = plan.keep } };
}

/// Returns what actions ask for the log with this number.
#[tactic(auto, using(crate::proofs::Plans::plans_step))]
pub(crate) fn log_plan<A: Allocator + Clone>(
    actions: &[Action<A>],
    log: usize,
) -> Option<LogPlan<'_>>
    ensures { result ≡ slice_get (log_plans (map act actions.now)) log }
{
    let mut left = log;
    for (place, action) in actions.iter().enumerate() {
        if let Action::Log(folder) = action {
            if left == 0 {
                let before = &actions[..place];
                return Some(LogPlan {
                    folder,
                    size: size_after(before),
                    keep: keep_after(before),
                });
            }
            left -= 1;
        }
    }
    None
}

/// Returns the size of a log that comes after these actions.
fn size_after<A: Allocator + Clone>(actions: &[Action<A>]) -> u64
    ensures { result ≡ size_after (map act actions.now) }
{
    let mut size = DEFAULT_SIZE;
    for action in actions {
        size = action.size_set().unwrap_or(size);
    }
    size
}

/// Returns how many old files a log that comes after these actions keeps.
fn keep_after<A: Allocator + Clone>(actions: &[Action<A>]) -> u64
    ensures { result ≡ keep_after (map act actions.now) }
{
    let mut keep = DEFAULT_KEEP;
    for action in actions {
        keep = action.keep_set().unwrap_or(keep);
    }
    keep
}

/// Returns the path of the status file with this number.
pub(crate) fn file_path<A: Allocator + Clone>(actions: &[Action<A>], file: usize) -> Option<&[u8]>
    ensures { option_copied result ≡ slice_get (file_paths (map act actions.now)) file }
{
    let mut left = file;
    for action in actions {
        match action {
            Action::Status(path) if left == 0 => return Some(path),
            Action::Status(_) => left -= 1,
            _ => {}
        }
    }
    None
}
