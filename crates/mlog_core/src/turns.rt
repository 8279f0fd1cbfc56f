//! The run of a script over an input that comes in parts.
ghost use Rattle.std.specs.Prelude.{◌≡◌, ◌≤◌, count_by};
ghost use Rattle.std.specs.Result.{result_err};
ghost use Rattle.mlog_script.specs.Script.{is_log, is_file};
ghost use Rattle.mlog_files.specs.Store.{Stays};
ghost use Rattle.mlog_core.specs.Parts.{PlaysParts};

use crate::parted::PartedInput;
use crate::rotate::rotate_all;
use crate::stream::{RunFault, fault_of, run_part};
use mlog_files::LogStore;
use mlog_script::Script;
use std::alloc::Allocator;
use tai_status::TimeSource;

/// Runs a script over all parts of an input, each as [`crate::run`] does for a whole one. After each part but the last,
/// the current file of each log becomes an old file, unless it is empty. No bytes wait then, and no line is divided: a
/// part ends at the end of a line.
///
/// The memory for a part is taken at its beginning: `OutOfMemory` is returned before anything of the part is read.
pub fn run_parts<A, B, I, S, C>(
    alloc: A,
    script: &Script<B>,
    input: &mut I,
    store: &mut S,
    clock: &mut C,
) -> Result<(), RunFault>
where
    A: Allocator + Clone,
    B: Allocator + Clone,
    I: PartedInput,
    S: LogStore,
    C: TimeSource,
    requires logs { count_by is_log script.now ≤ (S.state store.old).logs }
    requires files { count_by is_file script.now ≤ (S.state store.old).status_files }
    ensures runs { PlaysParts (result_err result) script.now I.feed input.old input.new
        S.state store.old store.new C.readings clock.old clock.new }
    ensures stays { Stays (S.state store.old) (S.state store.new) }
{
    'parts: loop {
        let Ok(own) = alloc.clone() else {
            return Err(RunFault::OutOfMemory);
        };
        match run_part(own, script, input, store, clock) {
            Ok(_) => {}
            Err(why) => return Err(why),
        }
        if !input.next_part() {
            return Ok(());
        }
        match rotate_all(script, store, clock) {
            Ok(()) => {}
            Err(why) => return Err(fault_of(why)),
        }
    }
}
