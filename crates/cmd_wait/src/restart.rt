//! The command `restart`.
ghost use Rattle.std.specs.Prelude.{◌≡◌, false};
ghost use Rattle.cmd_svc.specs.Svc.{Serves, sending};
ghost use Rattle.svc_client.specs.Turns.{InTurn};
ghost use Rattle.tai_status.specs.Words.{texts};
ghost use Rattle.cmd_wait.specs.Finding.{awaited, unmarked};
ghost use Rattle.cmd_wait.specs.Restarting.{RestartEnds, RestartsAndTells, RestartsAsked, restart_bytes};
ghost use Rattle.cmd_wait.specs.Restarting.{restart_warning, sent_at, sent_to};

use crate::finding::AwaitedService;
use crate::marking::{Purpose, entries_of, mark_each};
use crate::options::{WaitOptions, read_restart};
use crate::pace::Pace;
use crate::sayings::report_failure;
use crate::wait::wait_for;
use cmd_base::{Command, TROUBLE, report, usage};
use cmd_svc::{serve, tell_missing};
use std::alloc::Allocator;
use std::io::Write;
use std::sync::Wait;
use svc_client::Services;
use tai_status::Output;

/// Asks for TERM and CONT, as `svc -t` does, if a service has a process. Returns whether some service was not reached,
/// this one or one before it.
fn end_one<S: Services, E: Write>(
    services: &mut S,
    entry: &AwaitedService<'_>,
    missed: bool,
    faults: &mut Output<E>,
) -> bool
    ensures { InTurn (Serves restart_warning restart_bytes) (sent_at entry.now.folder.now entry.now.mark)
        (sending (S.calls services.old) faults.old missed) (sending (S.calls services.new) faults.new result) }
{
    match entry.mark {
        None => missed,
        Some(_) => serve(
            services,
            b"restart: warning: unable to control ",
            entry.folder,
            b"t",
            missed,
            faults,
        ),
    }
}

/// Does the same for each service. Returns whether one was not reached.
fn end_each<S: Services, E: Write>(
    services: &mut S,
    entries: &[AwaitedService<'_>],
    faults: &mut Output<E>,
) -> bool
    ensures { InTurn (Serves restart_warning restart_bytes) (sent_to (awaited entries.now))
        (sending (S.calls services.old) faults.old false) (sending (S.calls services.new) faults.new result) }
{
    let mut missed = false;
    for entry in entries {
        missed = end_one(services, entry, missed, faults);
    }
    missed
}

/// Restarts services: gives each its mark, ends their processes, and waits until each is up with another process.
fn restart_each<R: Wait, S: Services, P: Pace, A: Allocator, E: Write>(
    rt: &R,
    services: &mut S,
    pace: &mut P,
    options: &WaitOptions<'_>,
    entries: Vec<AwaitedService<'_>, A>,
    faults: &mut Output<E>,
) -> u8
    requires { awaited entries.items ≡ unmarked (texts options.now.services.now) }
    ensures { RestartsAsked options.now result (S.calls services.old) (S.calls services.new)
        (P.steps pace.old) (P.steps pace.new) faults.old faults.new }
{
    let mut entries = entries;
    let awaits = options.goal.awaits_supervision;
    if let Err(failure) = mark_each(services, Purpose::Restarts, awaits, &mut entries) {
        return report_failure(b"restart: ", &failure, faults);
    }
    if end_each(services, &entries, faults) {
        return TROUBLE;
    }
    wait_for(rt, services, pace, b"restart: ", options, entries, faults)
}

/// Restarts services, and then reports for each folder that does not exist why.
fn restart_and_tell<R: Wait, S: Services, P: Pace, A: Allocator, E: Write>(
    rt: &R,
    services: &mut S,
    pace: &mut P,
    options: &WaitOptions<'_>,
    entries: Vec<AwaitedService<'_>, A>,
    faults: &mut Output<E>,
) -> u8
    requires { awaited entries.items ≡ unmarked (texts options.now.services.now) }
    ensures { RestartsAndTells options.now result (S.calls services.old) (S.calls services.new)
        (P.steps pace.old) (P.steps pace.new) faults.old faults.new }
{
    let status = restart_each(rt, services, pace, options, entries, faults);
    tell_missing(services, b"restart: ", options.services, faults);
    status
}

/// The command `restart [-t SECONDS] SERVICE..`: sends TERM and CONT to each service that has a process, as `svc -t`
/// does, and returns once each service is up with another process, by the rule of `wait -u`. It first looks at each
/// service. A service that is not wanted up is refused, and then nothing is sent to any service. At the end, it
/// reports for each folder that does not exist why.
///
/// With `-t`, a service that is not supervised is waited for too, and the time counts from when all was sent.
///
/// Returns the exit status:
///
/// - 0;
/// - 99 if the time is over, with a line on `faults` for each service that is left;
/// - 100 if a service is not wanted up, and for wrong words;
/// - 102 if a service is not supervised, or no longer supervised; not with `-t`;
/// - 111 if this user may not look at a service, if a status can't be read or is not a record, and for a lack of
///   memory;
/// - 111 if a service takes no connection at the first look, or was not reached when it was sent TERM.
pub fn run_restart<R: Wait, S: Services, P: Pace, A: Allocator, E: Write>(
    rt: &R,
    alloc: A,
    services: &mut S,
    pace: &mut P,
    words: &[&str],
    faults: &mut Output<E>,
) -> u8
    ensures ends { RestartEnds words.now result (S.calls services.old) (S.calls services.new)
        (P.steps pace.old) (P.steps pace.new) faults.old faults.new }
{
    let Some(options) = read_restart(words) else {
        return usage(faults, Command::Restart);
    };
    match entries_of(alloc, options.services) {
        Ok(entries) => restart_and_tell(rt, services, pace, &options, entries, faults),
        Err(_) => report(faults, b"restart: OutOfMemory\n", TROUBLE),
    }
}
