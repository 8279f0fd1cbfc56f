//! The command `multilog`.
ghost use Rattle.std.specs.Prelude.{◌≡◌, [], slice_get, unwrap_or, IfOk, IfErr};
ghost use Rattle.tai_status.specs.Counted.{Reports};
ghost use Rattle.tai_status.specs.Words.{texts};
ghost use Rattle.cmd_multilog.specs.Opening.{folders_of};
ghost use Rattle.mlog_script.specs.Script.{file_paths};
ghost use Rattle.cmd_multilog.specs.Ends.{IsSaidBy, IsRefusal, refusal_report, refusal_status, open_report, EndsBy};
ghost use Rattle.cmd_multilog.specs.Ends.{fault_report, object_of, store_report, trouble_report};

use crate::fault::{
    NoScript, OpenFault, StoreCall, StoreTrouble, call_words, open_note, script_status,
    script_text, store_note,
};
use crate::log_system::LogSystem;
use crate::opening::open_all;
use crate::store::FolderStore;
use cmd_base::{DONE, TROUBLE, report, report_device, report_parts};
use mlog_core::{PartedInput, RunFault, run_parts};
use mlog_script::{Script, check_words};
use std::alloc::Allocator;
use std::io::Write;
use tai_status::{Cause, Output, TimeSource};

/// What is reported if there is no memory.
const NO_MEMORY: &[u8] = b"multilog: OutOfMemory\n";

/// Returns why words are not a script if there is no memory. Even then, the first bad word is reported.
fn starved(words: &[&str]) -> NoScript
    ensures { IsRefusal result (texts words.now) }
{
    match check_words(words) {
        Ok(()) => NoScript::OutOfMemory,
        Err(fault) => NoScript::Refused(fault),
    }
}

/// Reads the words of a script.
fn read_script<A: Allocator + Clone>(alloc: &A, words: &[&str]) -> Result<Script<A>, NoScript>
    ensures ok { IfOk result (λ script. IsSaidBy script (texts words.now)) }
    ensures err { IfErr result (λ why. IsRefusal why (texts words.now)) }
{
    let Ok(own) = alloc.clone() else {
        return Err(starved(words));
    };
    match Script::read(own, words) {
        Ok(script) => Ok(script),
        Err(fault) => Err(NoScript::Refused(fault)),
    }
}

/// Reports why words are not a script, and returns the exit status for that.
fn report_refusal<E: Write>(why: NoScript, faults: &mut Output<E>) -> u8
    ensures status { result ≡ refusal_status why }
    ensures reported { Reports faults.old faults.new (refusal_report why) }
{
    match why {
        NoScript::Refused(fault) => {
            report(faults, script_text(fault).as_bytes(), script_status(fault))
        }
        NoScript::OutOfMemory => report(faults, NO_MEMORY, TROUBLE),
    }
}

/// Returns the folder of the log with a number. It is empty if there is none.
fn folder_of<B: Allocator + Clone>(script: &Script<B>, log: usize) -> &[u8]
    ensures { result.now ≡ unwrap_or (slice_get (folders_of script.now) log) [] }
{
    match script.log(log) {
        Some(plan) => plan.folder,
        None => b"",
    }
}

/// Reports why not all logs are opened, and returns the exit status for that.
fn report_unopened<B: Allocator + Clone, E: Write>(
    why: OpenFault,
    script: &Script<B>,
    faults: &mut Output<E>,
) -> u8
    ensures status { result ≡ 111 }
    ensures reported { Reports faults.old faults.new (open_report script.now why) }
{
    match why {
        OpenFault::Unopened(log, cause) => report_parts(
            faults,
            b"multilog: unable to open ",
            folder_of(script, log),
            open_note(cause).as_bytes(),
            TROUBLE,
        ),
        OpenFault::OutOfMemory => report(faults, NO_MEMORY, TROUBLE),
    }
}

/// Returns the path of the status file with a number. It is empty if there is none.
fn file_of<B: Allocator + Clone>(script: &Script<B>, file: usize) -> &[u8]
    ensures { result.now ≡ unwrap_or (slice_get (file_paths script.now) file) [] }
{
    match script.file(file) {
        Some(path) => path,
        None => b"",
    }
}

/// Returns what a call of the store is about: the folder of a log, the path of a status file, or standard error.
fn object_of<B: Allocator + Clone>(script: &Script<B>, call: StoreCall) -> &[u8]
    ensures { result.now ≡ object_of script.now call }
{
    match call {
        StoreCall::Append(log) | StoreCall::Finish(log) | StoreCall::Remove(log) => folder_of(
            script, log,
        ),
        StoreCall::Status(file) => file_of(script, file),
        StoreCall::Alert => b"standard error",
    }
}

/// Reports which call of the store failed, and why, and returns the exit status for that.
fn report_trouble<B: Allocator + Clone, E: Write>(
    trouble: StoreTrouble,
    script: &Script<B>,
    faults: &mut Output<E>,
) -> u8
    ensures status { result ≡ 111 }
    ensures reported { Reports faults.old faults.new (trouble_report script.now trouble) }
{
    report_parts(
        faults,
        call_words(trouble.call),
        object_of(script, trouble.call),
        store_note(trouble).as_bytes(),
        TROUBLE,
    )
}

/// Reports which call of the store failed last, and why, if it is known, and returns the exit status for that.
fn report_store<B: Allocator + Clone, E: Write>(
    last: Option<StoreTrouble>,
    script: &Script<B>,
    faults: &mut Output<E>,
) -> u8
    ensures status { result ≡ 111 }
    ensures reported { Reports faults.old faults.new (store_report script.now last) }
{
    match last {
        Some(trouble) => report_trouble(trouble, script, faults),
        None => report(faults, b"multilog: Store\n", TROUBLE),
    }
}

/// Reports why a run ended early, and returns the exit status for that. `cause` is that of the last fault of the input,
/// and `last` is the last call of the store that failed.
fn report_run<B: Allocator + Clone, E: Write>(
    fault: RunFault,
    cause: Option<Cause>,
    last: Option<StoreTrouble>,
    script: &Script<B>,
    faults: &mut Output<E>,
) -> u8
    ensures status { result ≡ 111 }
    ensures reported { Reports faults.old faults.new (fault_report script.now cause last fault) }
{
    match fault {
        RunFault::Read => report_device(faults, b"multilog: ", b"Read", cause),
        RunFault::Store => report_store(last, script, faults),
        RunFault::OutOfMemory => report(faults, NO_MEMORY, TROUBLE),
        RunFault::LabelsSpent => report(faults, b"multilog: LabelsSpent\n", TROUBLE),
    }
}

/// The command `multilog`: reads lines, and hands them out to the logs, alerts and status files that its words ask for
/// (<https://cr.yp.to/daemontools/multilog.html>). No words are a valid script. After each part of the input except the
/// last, the current files that aren't empty become old files.
///
/// Returns the exit status:
///
/// - 0;
/// - 100 for words that are not a script, and then nothing is made or read;
/// - 111 if a log can't be opened, for a fault of the input or the store, if a log has no greater label, and for a lack
///   of memory.
///
/// A lack of memory for the words is reported only if none of them is bad.
pub fn run_multilog<D, A, I, E, C>(
    alloc: A,
    store: &mut FolderStore<D, A>,
    words: &[&str],
    input: &mut I,
    faults: &mut Output<E>,
    clock: &mut C,
) -> u8
where
    D: LogSystem + Drop,
    A: Allocator + Clone,
    I: PartedInput,
    E: Write,
    C: TimeSource,
    requires no_logs { store.old.logs ≡ [] }
    requires no_files { store.old.statuses ≡ [] }
    ensures ends { EndsBy I.feed C.readings (texts words.now) result store.old store.new
        input.old input.new clock.old clock.new faults.old faults.new }
{
    let script = match read_script(&alloc, words) {
        Ok(script) => script,
        Err(why) => return report_refusal(why, faults),
    };
    match open_all(store, &alloc, &script) {
        Ok(()) => {}
        Err(why) => return report_unopened(why, &script, faults),
    }
    match run_parts(alloc, &script, input, store, clock) {
        Ok(()) => DONE,
        Err(fault) => report_run(
            fault,
            input.last_cause(),
            store.last_trouble(),
            &script,
            faults,
        ),
    }
}
