//! The command `supervise`.
ghost use Rattle.std.specs.Prelude.{◌≡◌, ◌∷◌, []};
ghost use Rattle.svscan_rounds.specs.Rounds.{effects, ReportsAll};
ghost use Rattle.svscan_rounds.specs.Supervise.{fault_report, lines_of_kept, lines_of_loss, lines_of_trace};
ghost use Rattle.svscan_rounds.specs.Supervise.{lines_of_untaken, locked_report, refused_report};
ghost use Rattle.svscan_rounds.specs.Supervise.{Outlasts, SuperviseEnds, Supervises};
ghost use Rattle.tai_status.specs.Words.{texts};

use crate::rounds::not_taken;
use crate::service_set::{ServiceSet, Sight, Supervision};
use cmd_base::{Command, DONE, TROUBLE, cause_note, report_parts, usage};
use std::io::Write;
use std::sync::Wait;
use svc_host::{Loss, PartFault};
use tai_status::{Cause, Output};

/// Reports that somebody else supervises the service in a folder.
fn report_locked<E: Write>(folder: &str, faults: &mut Output<E>)
    ensures { ReportsAll (locked_report folder.now ∷ []) faults.old faults.new }
{
    report_parts(
        faults,
        b"supervise: unable to lock ",
        folder.as_bytes(),
        b"\n",
        DONE,
    );
}

/// Reports that the service in a folder can't be begun, or has no sockets yet, for this cause.
fn report_refused<E: Write>(folder: &str, cause: Cause, faults: &mut Output<E>)
    ensures { ReportsAll (refused_report folder.now cause ∷ []) faults.old faults.new }
{
    let note = cause_note(cause);
    report_parts(
        faults,
        b"supervise: unable to supervise ",
        folder.as_bytes(),
        note.as_bytes(),
        DONE,
    );
}

/// Reports a fault of the service in a folder.
fn report_fault<E: Write>(folder: &str, fault: PartFault, faults: &mut Output<E>)
    ensures { ReportsAll (fault_report folder.now fault ∷ []) faults.old faults.new }
{
    match fault {
        PartFault::Locked => report_locked(folder, faults),
        PartFault::Refused(cause) => report_refused(folder, cause, faults),
    }
}

/// Reports why a service that runs has no sockets, if it has none.
fn report_kept<E: Write>(folder: &str, fault: Option<PartFault>, faults: &mut Output<E>)
    ensures { ReportsAll (lines_of_kept folder.now fault) faults.old faults.new }
{
    if let Some(fault) = fault {
        report_fault(folder, fault, faults);
    }
}

/// Reports how many control bytes a service did not take, if there are any.
fn report_untaken<E: Write>(folder: &str, count: u64, faults: &mut Output<E>)
    ensures { ReportsAll (lines_of_untaken folder.now count) faults.old faults.new }
{
    if count > 0 {
        let text = not_taken(count);
        report_parts(
            faults,
            b"supervise: ",
            folder.as_bytes(),
            text.as_bytes(),
            DONE,
        );
    }
}

/// Reports that the last trace of a service is not whole, if that is so.
fn report_trace<E: Write>(folder: &str, lacks_trace: bool, faults: &mut Output<E>)
    ensures { ReportsAll (lines_of_trace folder.now lacks_trace) faults.old faults.new }
{
    if lacks_trace {
        report_parts(
            faults,
            b"supervise: ",
            folder.as_bytes(),
            b": unable to write the trace\n",
            DONE,
        );
    }
}

/// Reports what was lost when a service ended.
fn report_loss<E: Write>(folder: &str, loss: Loss, faults: &mut Output<E>)
    ensures { ReportsAll (lines_of_loss folder.now loss) faults.old faults.new }
{
    report_untaken(folder, loss.untaken, faults);
    report_trace(folder, loss.lacks_trace, faults);
}

/// Watches over a service until it is gone. Reports every five seconds why it has no sockets, while it has none, and at
/// the end what was lost.
fn outlast<R: Wait, K: ServiceSet, E: Write>(
    rt: &R,
    services: &mut K,
    folder: &str,
    faults: &mut Output<E>,
)
    requires ready { K.ready services.old }
    ensures ready { K.ready services.new }
    ensures outlasts { Outlasts folder.now
        (effects (K.calls services.old) faults.old) (effects (K.calls services.new) faults.new) }
{
    for _ in rt.forever() {
        match services.watch() {
            Sight::Runs(fault) => report_kept(folder, fault, faults),
            Sight::Gone(loss) => {
                report_loss(folder, loss, faults);
                return;
            }
        }
    }
    unreachable!()
}

/// Keeps the service in a folder running until it is gone, unless it can't be begun.
fn supervise<R: Wait, K: ServiceSet, E: Write>(
    rt: &R,
    services: &mut K,
    folder: &str,
    faults: &mut Output<E>,
) -> u8
    requires ready { K.ready services.old }
    ensures { Supervises folder.now result
        (effects (K.calls services.old) faults.old) (effects (K.calls services.new) faults.new) }
{
    match services.supervise(folder) {
        Supervision::Kept(fault) => {
            report_kept(folder, fault, faults);
            outlast(rt, services, folder, faults);
            DONE
        }
        Supervision::Unmade(fault) => {
            report_fault(folder, fault, faults);
            TROUBLE
        }
    }
}

/// The command `supervise DIR`: keeps the service in DIR running, without its logger
/// (<https://cr.yp.to/daemontools/supervise.html>). It exits once the service was asked to exit and is gone.
///
/// It reports on `faults`:
///
/// - `supervise: unable to lock DIR` if somebody else supervises the service;
/// - `supervise: unable to supervise DIR: CAUSE` if the service can't be begun, and every five seconds while it runs
///   without its sockets; CAUSE is in the words of the C library;
/// - `supervise: DIR: N bytes were not taken` if control bytes came to the service which it did not take at its end;
/// - `supervise: DIR: unable to write the trace` if its last trace is not whole.
///
/// Returns the exit status, usually 0. The status is 111 if the service could not be begun. It is 100 for wrong words,
/// and then nothing is asked of the system.
pub fn run_supervise<R: Wait, K: ServiceSet, E: Write>(
    rt: &R,
    services: &mut K,
    words: &[&str],
    faults: &mut Output<E>,
) -> u8
    requires ready { K.ready services.old }
    ensures ends { SuperviseEnds (texts words.now) result
        (effects (K.calls services.old) faults.old) (effects (K.calls services.new) faults.new) }
{
    match words {
        [folder] => supervise(rt, services, folder, faults),
        _ => usage(faults, Command::Supervise),
    }
}
