//! Why `multilog` ends early, and what it reports about that.
ghost use Rattle.std.specs.Prelude.{◌≡◌, ◌≤◌, length};
ghost use Rattle.cmd_multilog.specs.Sayings.{call_words, open_note, open_words, script_report};
ghost use Rattle.cmd_multilog.specs.Sayings.{script_status, store_note, where_in};

use arrayvec::ArrayString;
use cmd_base::{REFUSED, TROUBLE, push_number};
use mlog_script::{ScriptFault, ScriptFaultKind, kind_name};
use tai_status::Cause;

/// Why the logs and status files of a script are not opened.
#[derive(Clone, Copy, Debug, PartialEq, Eq)]
pub enum OpenFault {
    /// The log with this number can't be opened, for this cause.
    Unopened(usize, Cause),
    OutOfMemory,
}

/// A call of the store, for the log or the status file with a number.
#[derive(Clone, Copy, Debug, PartialEq, Eq)]
pub enum StoreCall {
    /// A front of a piece was to be appended to the current file.
    Append(usize),
    /// The current file was to become an old one.
    Finish(usize),
    /// The smallest old file was to be removed.
    Remove(usize),
    /// The status file was to be replaced.
    Status(usize),
    /// A line was to be written to standard error.
    Alert,
}

/// A call of the store that failed, and why.
#[derive(Clone, Copy, Debug, PartialEq, Eq)]
pub struct StoreTrouble {
    pub call: StoreCall,
    pub cause: Cause,
}

/// Why words are not a script.
#[derive(Clone, Copy, Debug, PartialEq, Eq)]
pub enum NoScript {
    /// A word is refused, or there is no memory for its action.
    Refused(ScriptFault),
    /// The allocator refused a copy of itself, and no word is bad.
    OutOfMemory,
}

/// Returns what is reported about a fault of the script.
pub(crate) fn script_text(fault: ScriptFault) -> ArrayString<64>
    ensures { result.bytes ≡ script_report fault }
{
    let mut out = ArrayString::new();
    out.push_str("multilog: word ");
    push_number(&mut out, fault.word as u64);
    out.push_str(": ");
    out.push_str(kind_name(fault.kind));
    out.push_str("\n");
    out
}

/// Returns the exit status for a fault of the script.
pub(crate) fn script_status(fault: ScriptFault) -> u8
    ensures { result ≡ script_status fault }
{
    match fault.kind {
        ScriptFaultKind::OutOfMemory => TROUBLE,
        _ => REFUSED,
    }
}

/// Returns why a log can't be opened, in words. The call that would wait is the one for the lock.
fn open_words(cause: Cause) -> &'static str
    ensures words { result.now ≡ open_words cause }
    ensures short { length result.now ≤ 34 }
{
    match cause {
        Cause::NoThread => "locked by another process",
        other => other.words(),
    }
}

/// Returns why a log can't be opened, as it is reported after its folder.
pub(crate) fn open_note(cause: Cause) -> ArrayString<64>
    ensures { result.bytes ≡ open_note cause }
{
    let mut note = ArrayString::new();
    note.push_str(": ");
    note.push_str(open_words(cause));
    note.push_str("\n");
    note
}

/// Returns what a call was to do, as it is reported before the object of the call.
pub(crate) fn call_words(call: StoreCall) -> &'static [u8]
    ensures { result.now ≡ call_words call }
{
    match call {
        StoreCall::Append(_) | StoreCall::Status(_) | StoreCall::Alert => {
            b"multilog: Store: unable to write "
        }
        StoreCall::Finish(_) => b"multilog: Store: unable to finish ",
        StoreCall::Remove(_) => b"multilog: Store: unable to remove an old file of ",
    }
}

/// Returns the file of a log that a call is about, after its folder.
fn where_in(call: StoreCall) -> &'static str
    ensures words { result.now ≡ where_in call }
    ensures short { length result.now ≤ 8 }
{
    match call {
        StoreCall::Append(_) | StoreCall::Finish(_) => "/current",
        StoreCall::Remove(_) | StoreCall::Status(_) | StoreCall::Alert => "",
    }
}

/// Returns why a call failed, as it is reported after the object of the call.
pub(crate) fn store_note(trouble: StoreTrouble) -> ArrayString<64>
    ensures { result.bytes ≡ store_note trouble }
{
    let mut note = ArrayString::new();
    note.push_str(where_in(trouble.call));
    note.push_str(": ");
    note.push_str(trouble.cause.words());
    note.push_str("\n");
    note
}
