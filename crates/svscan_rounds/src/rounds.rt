//! The command `svscan`.
ghost use Rattle.std.specs.Prelude.{◌≡◌, ◌<◌, ◌++◌, ◌∷◌, [], ℕ, codes, map, true, false, IfSome};
ghost use Rattle.tai_status.specs.Counted.{Reports};
ghost use Rattle.tai_status.specs.Extended.{Extended};
ghost use Rattle.svscan_rounds.specs.Rounds.{effects, kind_name, name_report, not_taken, untaken_report};
ghost use Rattle.svscan_rounds.specs.Rounds.{is_listed_after, lines_of_listed, lines_of_unlisted, unable_to_list};
ghost use Rattle.svscan_rounds.specs.Rounds.{lines_of_listing, lines_of_out, lines_of_shortage, lines_of_unnamed};
ghost use Rattle.svscan_rounds.specs.Rounds.{lines_of_begun, remaining_report, still_runs, unfinished, unlogged_report};
ghost use Rattle.svscan_rounds.specs.Rounds.{locked_report, not_made, not_text, too_few, unable_to_supervise};
ghost use Rattle.svscan_rounds.specs.Rounds.{unmade_report};
ghost use Rattle.svscan_rounds.specs.Rounds.{unread_report};
ghost use Rattle.svscan_rounds.specs.Rounds.{BeginsAndRuns, EndsAll, Leaves, Rests, Runs, SvscanEnds, TakesRound};
ghost use Rattle.svscan_rounds.specs.Rounds.{ReportsAll};
ghost use Rattle.tai_status.specs.Words.{texts};

use crate::orders::{Order, order_of};
use crate::service_set::{
    ListFault, Listing, Remaining, RoundOut, ServiceSet, Shortage, Startup, Unfinished, Unlogged,
    UnmadePart, Untaken,
};
use crate::words::read_words;
use arrayvec::ArrayString;
use cmd_base::{
    Command, DONE, TROUBLE, cause_note, print_fault, push_number, report, report_parts, usage,
};
use scan_table::ScanFault;
use std::io::Write;
use std::sync::Wait;
use svc_host::PartFault;
use tai_status::{Cause, Name, Output};

/// Returns the name of a fault.
fn kind(fault: ScanFault) -> &'static [u8]
    ensures { result.now ≡ kind_name fault }
{
    match fault {
        ScanFault::Unsorted(_) => b"Unsorted",
        ScanFault::Twice(_) => b"Twice",
        ScanFault::Exhausted => b"Exhausted",
        ScanFault::OutOfMemory => b"OutOfMemory",
    }
}

/// Reports names, one line for each.
fn report_names<E: Write>(names: &[Name], what: &[u8], faults: &mut Output<E>)
    ensures { ReportsAll (map (name_report what.now) names.now) faults.old faults.new }
{
    for name in names {
        report_parts(faults, b"svscan: ", name.as_str().as_bytes(), what, DONE);
    }
}

/// Returns what is reported about this many control bytes, after a part's name.
pub(crate) fn not_taken(count: u64) -> ArrayString<64>
    ensures { result.bytes ≡ not_taken count }
{
    let mut text = ArrayString::new();
    text.push_str(": ");
    push_number(&mut text, count);
    text.push_str(" bytes were not taken\n");
    text
}

/// Reports control bytes that were not taken, one line for each part.
fn report_untaken<E: Write>(all: &[Untaken], faults: &mut Output<E>)
    ensures { ReportsAll (map untaken_report all.now) faults.old faults.new }
{
    for untaken in all {
        let text = not_taken(untaken.count);
        let name = untaken.name.as_str();
        report_parts(faults, b"svscan: ", name.as_bytes(), text.as_bytes(), DONE);
    }
}

/// Returns the end of the line about a part that can't be supervised, after its name.
fn unable_to_supervise(cause: Cause) -> ArrayString<64>
    ensures { result.bytes ≡ unable_to_supervise cause }
{
    let mut text = ArrayString::new();
    text.push_str(": unable to supervise");
    text.push_str(&cause_note(cause));
    text
}

/// Returns what is reported about a part that was not made, after its name.
fn not_made(fault: PartFault) -> ArrayString<64>
    ensures { result.bytes ≡ not_made fault }
{
    match fault {
        PartFault::Locked => {
            let mut text = ArrayString::new();
            text.push_str(": unable to lock\n");
            text
        }
        PartFault::Refused(cause) => unable_to_supervise(cause),
    }
}

/// Reports parts that were not made, one line for each.
fn report_unmade<E: Write>(all: &[UnmadePart], faults: &mut Output<E>)
    ensures { ReportsAll (map unmade_report all.now) faults.old faults.new }
{
    for unmade in all {
        let text = not_made(unmade.fault);
        let name = unmade.name.as_str();
        report_parts(faults, b"svscan: ", name.as_bytes(), text.as_bytes(), DONE);
    }
}

/// Returns what is reported about this many names that are not text.
fn not_text(count: u64) -> ArrayString<64>
    ensures { result.bytes ≡ not_text count }
{
    let mut text = ArrayString::new();
    text.push_str("svscan: ");
    push_number(&mut text, count);
    text.push_str(" names are not text\n");
    text
}

/// Reports names that are not text.
fn report_unnamed<E: Write>(count: u64, faults: &mut Output<E>)
    ensures { ReportsAll (lines_of_unnamed count) faults.old faults.new }
{
    if count > 0 {
        print_fault(faults, not_text(count).as_bytes());
    }
}

/// Returns what is reported if there are too few descriptors.
fn too_few(shortage: Shortage) -> ArrayString<128>
    ensures { result.bytes ≡ too_few shortage }
{
    let mut text = ArrayString::new();
    text.push_str("svscan: ");
    push_number(&mut text, shortage.needed);
    text.push_str(" descriptors are needed, ");
    push_number(&mut text, shortage.allowed);
    text.push_str(" are allowed\n");
    text
}

/// Reports that there are too few descriptors, if that is so.
fn report_shortage<E: Write>(shortage: Option<Shortage>, faults: &mut Output<E>)
    ensures { ReportsAll (lines_of_shortage shortage) faults.old faults.new }
{
    if let Some(shortage) = shortage {
        print_fault(faults, too_few(shortage).as_bytes());
    }
}

/// Reports what is wrong with what a folder has.
fn report_listing<E: Write>(unnamed: u64, shortage: Option<Shortage>, faults: &mut Output<E>)
    ensures { ReportsAll (lines_of_listing unnamed shortage) faults.old faults.new }
{
    report_unnamed(unnamed, faults);
    report_shortage(shortage, faults);
}

/// Reports what was lost, and what a round could not do.
fn report_out<E: Write>(out: &RoundOut, faults: &mut Output<E>)
    ensures { ReportsAll (lines_of_out out.now) faults.old faults.new }
{
    report_untaken(&out.untaken, faults);
    report_names(
        out.untraced.as_slice(),
        b": unable to write the trace\n",
        faults,
    );
    report_names(out.refused.as_slice(), b": TooMany\n", faults);
    report_unmade(&out.unmade, faults);
}

/// Returns whether a folder counts as listed after a fault of its listing.
fn is_listed_after(was_listed: bool, fault: ListFault) -> bool
    ensures { result ≡ is_listed_after was_listed fault }
{
    match fault {
        ListFault::Unlisted(_) => false,
        ListFault::OutOfMemory => was_listed,
    }
}

/// Reports that a folder can't be listed, for this cause.
fn report_unable_to_list<E: Write>(folder: &str, cause: Cause, faults: &mut Output<E>)
    ensures { ReportsAll (unable_to_list folder.now cause ∷ []) faults.old faults.new }
{
    let note = cause_note(cause);
    report_parts(
        faults,
        b"svscan: unable to list ",
        folder.as_bytes(),
        note.as_bytes(),
        DONE,
    );
}

/// Reports that a folder was not listed: if it counted as listed before, or if there is no memory.
fn report_unlisted<E: Write>(
    folder: &str,
    was_listed: bool,
    fault: ListFault,
    faults: &mut Output<E>,
)
    ensures { ReportsAll (lines_of_unlisted folder.now was_listed fault) faults.old faults.new }
{
    match fault {
        ListFault::Unlisted(cause) => {
            if was_listed {
                report_unable_to_list(folder, cause, faults);
            }
        }
        ListFault::OutOfMemory => print_fault(faults, b"svscan: OutOfMemory\n"),
    }
}

/// Reports that a folder is listed again, if it was not listed before.
fn report_listed<E: Write>(folder: &str, was_listed: bool, faults: &mut Output<E>)
    ensures { ReportsAll (lines_of_listed folder.now was_listed) faults.old faults.new }
{
    if !was_listed {
        report_parts(
            faults,
            b"svscan: ",
            folder.as_bytes(),
            b" is listed again\n",
            DONE,
        );
    }
}

/// Makes one round: lists the folder, scans its rows, and says what could not be done. Returns whether svscan
/// continues. If the folder can't be listed, says so in the first such round, and says once that it is listed again.
fn take_round<K: ServiceSet, E: Write>(
    services: &mut K,
    folder: &str,
    is_listed: &mut bool,
    faults: &mut Output<E>,
) -> bool
    requires ready { K.ready services.old }
    ensures ready { K.ready services.new }
    ensures round { TakesRound folder.now is_listed.old is_listed.new result
        (effects (K.calls services.old) faults.old) (effects (K.calls services.new) faults.new) }
{
    let was_listed = *is_listed;
    let Listing {
        rows,
        unnamed,
        shortage,
    } = match services.list(folder) {
        Ok(listing) => listing,
        Err(fault) => {
            report_unlisted(folder, was_listed, fault, faults);
            *is_listed = is_listed_after(was_listed, fault);
            return true;
        }
    };
    *is_listed = true;
    report_listed(folder, was_listed, faults);
    report_listing(unnamed, shortage, faults);
    match services.round(folder, rows) {
        Ok(out) => {
            report_out(&out, faults);
            true
        }
        Err(fault) => {
            report_parts(faults, b"svscan: ", kind(fault), b"\n", TROUBLE);
            fault == ScanFault::OutOfMemory
        }
    }
}

/// Returns what is reported about a process that still runs, after its part's name.
fn still_runs(pid: u32) -> ArrayString<64>
    ensures { result.bytes ≡ still_runs pid }
{
    let mut text = ArrayString::new();
    text.push_str(": process ");
    push_number(&mut text, u64::from(pid));
    text.push_str(" still runs\n");
    text
}

/// Reports processes that still run, one line for each.
fn report_remaining<E: Write>(all: &[Remaining], faults: &mut Output<E>)
    ensures { ReportsAll (map remaining_report all.now) faults.old faults.new }
{
    for remaining in all {
        let text = still_runs(remaining.pid);
        let name = remaining.name.as_str();
        report_parts(faults, b"svscan: ", name.as_bytes(), text.as_bytes(), DONE);
    }
}

/// Returns what is reported about something that svscan could not finish, after a name.
fn unfinished(what: Unfinished) -> ArrayString<64>
    ensures { result.bytes ≡ unfinished what }
{
    let mut text = ArrayString::new();
    match what {
        Unfinished::Bytes(count) => {
            text.push_str(": ");
            push_number(&mut text, count);
            text.push_str(" bytes were not logged\n");
        }
        Unfinished::Records => text.push_str(": unable to write its records\n"),
    }
    text
}

/// Reports what svscan could not finish, one line for each.
fn report_unlogged<E: Write>(all: &[Unlogged], faults: &mut Output<E>)
    ensures { ReportsAll (map unlogged_report all.now) faults.old faults.new }
{
    for unlogged in all {
        let text = unfinished(unlogged.what);
        let name = unlogged.name.as_str();
        report_parts(faults, b"svscan: ", name.as_bytes(), text.as_bytes(), DONE);
    }
}

/// Rests until svscan has something to do, and returns what that is.
fn rest<R: Wait, K: ServiceSet>(rt: &R, services: &mut K) -> Order
    requires ready { K.ready services.old }
    ensures ready { K.ready services.new }
    ensures rests { Rests result (K.calls services.old) (K.calls services.new) }
{
    for _ in rt.forever() {
        match services.hear() {
            Some(byte) => {
                if let Some(order) = order_of(byte) {
                    return order;
                }
            }
            None => return Order::Round,
        }
    }
    unreachable!()
}

/// Leaves the services, and reports what was not logged.
fn leave<K: ServiceSet, E: Write>(services: &mut K, faults: &mut Output<E>)
    requires ready { K.ready services.old }
    ensures ready { K.ready services.new }
    ensures leaves { Leaves
        (effects (K.calls services.old) faults.old) (effects (K.calls services.new) faults.new) }
{
    let unlogged = services.leave();
    report_unlogged(&unlogged, faults);
}

/// Ends all services, in order. Reports every five seconds what still runs, and at the end what was not logged.
fn end_all<R: Wait, K: ServiceSet, E: Write>(rt: &R, services: &mut K, faults: &mut Output<E>)
    requires ready { K.ready services.old }
    ensures ready { K.ready services.new }
    ensures ends { EndsAll
        (effects (K.calls services.old) faults.old) (effects (K.calls services.new) faults.new) }
{
    for _ in rt.forever() {
        match services.end() {
            Some(left) => report_remaining(&left, faults),
            None => {
                leave(services, faults);
                return;
            }
        }
    }
    unreachable!()
}

/// Makes rounds, with a rest between each two. Then ends all services, or only svscan itself.
fn take_rounds<R: Wait, K: ServiceSet, E: Write>(
    rt: &R,
    services: &mut K,
    folder: &str,
    rounds: Option<u32>,
    faults: &mut Output<E>,
) -> u8
    requires ready { K.ready services.old }
    requires some { IfSome rounds (λ number. 0 < number) }
    ensures { Runs folder.now rounds result
        (effects (K.calls services.old) faults.old) (effects (K.calls services.new) faults.new) }
{
    let mut left = rounds;
    let mut is_listed = true;
    for _ in rt.forever() {
        if !take_round(services, folder, &mut is_listed, faults) {
            end_all(rt, services, faults);
            return TROUBLE;
        }
        if let Some(number) = left {
            if number == 1 {
                end_all(rt, services, faults);
                return DONE;
            }
            left = Some(number - 1);
        }
        match rest(rt, services) {
            Order::Round => {}
            Order::End => {
                end_all(rt, services, faults);
                return DONE;
            }
            Order::Leave => {
                leave(services, faults);
                return DONE;
            }
        }
    }
    unreachable!()
}

/// Reports that svscan itself is not served, for this cause.
fn report_unserved<E: Write>(cause: Cause, faults: &mut Output<E>)
    ensures { ReportsAll (name_report (unable_to_supervise cause) (codes ".svscan") ∷ []) faults.old faults.new }
{
    let text = unable_to_supervise(cause);
    report_parts(faults, b"svscan: ", b".svscan", text.as_bytes(), DONE);
}

/// Reports that a folder can't be read, for this cause.
fn report_unread<E: Write>(folder: &str, cause: Cause, faults: &mut Output<E>)
    ensures { ReportsAll (unread_report folder.now cause ∷ []) faults.old faults.new }
{
    let note = cause_note(cause);
    report_parts(
        faults,
        b"svscan: unable to read ",
        folder.as_bytes(),
        note.as_bytes(),
        DONE,
    );
}

/// Reports that another svscan has a folder.
fn report_locked<E: Write>(folder: &str, faults: &mut Output<E>)
    ensures { ReportsAll (locked_report folder.now ∷ []) faults.old faults.new }
{
    report_parts(
        faults,
        b"svscan: unable to lock ",
        folder.as_bytes(),
        b"\n",
        DONE,
    );
}

/// Reports if svscan itself is not served in a folder.
fn report_begun<E: Write>(folder: &str, begun: Startup, faults: &mut Output<E>)
    ensures { ReportsAll (lines_of_begun folder.now begun) faults.old faults.new }
{
    match begun {
        Startup::Served => {}
        Startup::Unserved(cause) => report_unserved(cause, faults),
        Startup::Refused(cause) => report_unserved(cause, faults),
        Startup::Unread(cause) => report_unread(folder, cause, faults),
        Startup::Locked => report_locked(folder, faults),
    }
}

/// Serves svscan in the folder, and makes its rounds, unless another svscan has the folder, or the folder can't be
/// read, or no service could be kept running.
fn begin_and_run<R: Wait, K: ServiceSet, E: Write>(
    rt: &R,
    services: &mut K,
    folder: &str,
    rounds: Option<u32>,
    faults: &mut Output<E>,
) -> u8
    requires ready { K.ready services.old }
    requires some { IfSome rounds (λ number. 0 < number) }
    ensures { BeginsAndRuns folder.now rounds result
        (effects (K.calls services.old) faults.old) (effects (K.calls services.new) faults.new) }
{
    let begun = services.begin(folder);
    report_begun(folder, begun, faults);
    match begun {
        Startup::Locked | Startup::Unread(_) | Startup::Refused(_) => TROUBLE,
        Startup::Served | Startup::Unserved(_) => take_rounds(rt, services, folder, rounds, faults),
    }
}

/// The command `svscan [DIR [N]]`: keeps the services in DIR running, or those in the current folder
/// (<https://cr.yp.to/daemontools/svscan.html>). Each round lists the folder and scans its rows. Two rounds are five
/// seconds apart. svscan itself is served in the folder `.svscan` there. Its control byte `a` asks for a round now, `x`
/// for the end of all services, in order, and `q` for its own end, with the services left running. The first `x` or `q`
/// counts. With N, which is 1 to 4294967295 without leading zeros, it ends all services after N rounds. Without N, it
/// exits only if one of these two bytes comes, or after a fault.
///
/// It reports on `faults`:
///
/// - `svscan: unable to lock DIR` if another svscan has the folder;
/// - `svscan: unable to read DIR: CAUSE` if the folder can't be read at the beginning;
/// - `svscan: .svscan: unable to supervise: CAUSE` if it can't be served itself;
/// - `svscan: unable to list DIR: CAUSE` in the first round in which the folder can't be read, and `svscan: DIR is
///   listed again` in the first round after that in which it can;
/// - `svscan: OutOfMemory` if there is no memory: the round does nothing more, and the next one tries again;
/// - `svscan: N names are not text` if that many names get no service for this reason;
/// - `svscan: N descriptors are needed, M are allowed` if the first listing has more services than that;
/// - `svscan: NAME: N bytes were not taken` if control bytes came to a service which ended without taking them;
/// - `svscan: NAME: unable to write the trace` if the last trace of a service is not whole;
/// - `svscan: NAME: TooMany` for each name that gets no service because there are too many;
/// - `svscan: NAME: unable to lock` for each service that another svscan has;
/// - `svscan: NAME: unable to supervise: CAUSE` for each other one that a round could not begin, or that runs without
///   its sockets; CAUSE is in the words of the C library;
/// - `svscan: KIND` for another fault of the scan, which ends all services;
/// - `svscan: NAME: process PID still runs` every five seconds, for each process that does not end;
/// - `svscan: NAME: N bytes were not logged` if that many bytes did not reach their logger;
/// - `svscan: NAME: unable to write its records` for a part that svscan leaves in that state.
///
/// Returns the exit status, usually 0. The status is 111 after a fault of the scan, if another svscan has the folder,
/// if the folder can't be read, and if no service could be kept running. It is 100 for wrong words, and then nothing is
/// asked of the system.
pub fn run_svscan<R: Wait, K: ServiceSet, E: Write>(
    rt: &R,
    services: &mut K,
    words: &[&str],
    faults: &mut Output<E>,
) -> u8
    requires ready { K.ready services.old }
    ensures ends { SvscanEnds (texts words.now) result
        (effects (K.calls services.old) faults.old) (effects (K.calls services.new) faults.new) }
{
    match read_words(words) {
        Some(options) => begin_and_run(rt, services, options.folder, options.rounds, faults),
        None => usage(faults, Command::Svscan),
    }
}
