//! The command `wait`.
ghost use Rattle.std.specs.Prelude.{◌≡◌};
ghost use Rattle.tai_status.specs.Words.{texts};
ghost use Rattle.cmd_wait.specs.Ends.{MarksAsked, WaitEnds, WaitsAsked, WaitsAndTells, WaitsMarked};
ghost use Rattle.cmd_wait.specs.Finding.{awaited, unmarked};

use crate::finding::{AwaitedService, WaitState};
use crate::marking::{Purpose, entries_of, mark_each};
use crate::options::{WaitOptions, read_options};
use crate::pace::Pace;
use crate::rounds::{is_over, look_at_each};
use crate::sayings::{report_failure, report_over};
use crate::watch::{Watch, pause};
use cmd_base::{Command, DONE, TROUBLE, report, usage};
use cmd_svc::tell_missing;
use std::alloc::Allocator;
use std::io::Write;
use std::sync::Wait;
use svc_client::Services;
use tai_status::Output;

/// The exit status of a wait whose time is over.
const OVER: u8 = 99;

/// Waits for services: looks at those that are left, in rounds, with a pause between each two. The name of the command
/// includes its `: `.
pub(crate) fn wait_for<R: Wait, S: Services, P: Pace, A: Allocator, E: Write>(
    rt: &R,
    services: &mut S,
    pace: &mut P,
    command: &[u8],
    options: &WaitOptions<'_>,
    entries: Vec<AwaitedService<'_>, A>,
    faults: &mut Output<E>,
) -> u8
    ensures { WaitsAsked command.now options.now (awaited entries.entry.items) result
        (S.calls services.old) (S.calls services.new) (P.steps pace.old) (P.steps pace.new) faults.old faults.new }
{
    let mut left = entries;
    let mut watch = Watch::new();
    let begin = pace.now();
    for _ in rt.forever() {
        let now = pace.now();
        if let Err(failure) = look_at_each(services, options.goal, &mut left) {
            return report_failure(command, &failure, faults);
        }
        if left.is_empty() {
            return DONE;
        }
        if is_over(options.limit, begin, now) {
            report_over(command, options.goal.state, &left, faults);
            return OVER;
        }
        pause(services, pace, &mut watch, options.limit, begin, &left);
    }
    unreachable!()
}

/// Gives each service its mark, and then waits for them.
fn mark_and_wait<R: Wait, S: Services, P: Pace, A: Allocator, E: Write>(
    rt: &R,
    services: &mut S,
    pace: &mut P,
    options: &WaitOptions<'_>,
    entries: Vec<AwaitedService<'_>, A>,
    faults: &mut Output<E>,
) -> u8
    requires { awaited entries.items ≡ unmarked (texts options.now.services.now) }
    ensures { MarksAsked options.now result (S.calls services.old) (S.calls services.new)
        (P.steps pace.old) (P.steps pace.new) faults.old faults.new }
{
    let mut entries = entries;
    let awaits = options.goal.awaits_supervision;
    if let Err(failure) = mark_each(services, Purpose::Waits, awaits, &mut entries) {
        return report_failure(b"wait: ", &failure, faults);
    }
    wait_for(rt, services, pace, b"wait: ", options, entries, faults)
}

/// Waits for services: with marks, if each is to be up with another process, and otherwise without them.
fn wait_by_state<R: Wait, S: Services, P: Pace, A: Allocator, E: Write>(
    rt: &R,
    services: &mut S,
    pace: &mut P,
    options: &WaitOptions<'_>,
    entries: Vec<AwaitedService<'_>, A>,
    faults: &mut Output<E>,
) -> u8
    requires { awaited entries.items ≡ unmarked (texts options.now.services.now) }
    ensures { WaitsMarked options.now result (S.calls services.old) (S.calls services.new)
        (P.steps pace.old) (P.steps pace.new) faults.old faults.new }
{
    match options.goal.state {
        WaitState::Another => mark_and_wait(rt, services, pace, options, entries, faults),
        WaitState::Up | WaitState::Ready | WaitState::Down | WaitState::Unsupervised => {
            wait_for(rt, services, pace, b"wait: ", options, entries, faults)
        }
    }
}

/// Waits for services, and then reports for each folder that does not exist why.
fn wait_and_tell<R: Wait, S: Services, P: Pace, A: Allocator, E: Write>(
    rt: &R,
    services: &mut S,
    pace: &mut P,
    options: &WaitOptions<'_>,
    entries: Vec<AwaitedService<'_>, A>,
    faults: &mut Output<E>,
) -> u8
    requires { awaited entries.items ≡ unmarked (texts options.now.services.now) }
    ensures { WaitsAndTells options.now result (S.calls services.old) (S.calls services.new)
        (P.steps pace.old) (P.steps pace.new) faults.old faults.new }
{
    let status = wait_by_state(rt, services, pace, options, entries, faults);
    tell_missing(services, b"wait: ", options.services, faults);
    status
}

/// The command `wait [-u|-d|-x|-r] [-t SECONDS] SERVICE..`: returns once each service is up and settled, with a
/// process that has lived for two seconds; or down (`-d`); or no longer supervised (`-x`). With `-r` it returns once
/// each one is up, with another process than the one that a first look saw. It looks at them in rounds, and at each
/// one until that was found so once: what happens to it later is not seen. At the end, it reports for each folder
/// that does not exist why.
///
/// A round follows the one before it after 45 milliseconds, for a second after something changed in one of their
/// folders `supervise`. It also follows soon after such a change, and otherwise after a second. With `-t`, the last
/// round is the first one that begins when this many seconds are over, so that `-t 0` looks once. Without `-t`, it may
/// never return.
///
/// Returns the exit status:
///
/// - 0;
/// - 99 if the time is over, with a line on `faults` for each service that is left;
/// - 102 if a service is not supervised, or no longer supervised; not with `-t`, which waits until it is;
/// - 111 if this user may not look at a service, if a status can't be read or is not a record, and for a lack of
///   memory;
/// - 111 if the first look of `-r` finds that a service takes no connection;
/// - 100 for wrong words: the usage is reported, and nothing is asked.
///
/// For 102 and 111, a line says which service it is and why. The services after that one are not looked at.
pub fn run_wait<R: Wait, S: Services, P: Pace, A: Allocator, E: Write>(
    rt: &R,
    alloc: A,
    services: &mut S,
    pace: &mut P,
    words: &[&str],
    faults: &mut Output<E>,
) -> u8
    ensures ends { WaitEnds words.now result (S.calls services.old) (S.calls services.new)
        (P.steps pace.old) (P.steps pace.new) faults.old faults.new }
{
    let Some(options) = read_options(words) else {
        return usage(faults, Command::Wait);
    };
    match entries_of(alloc, options.services) {
        Ok(entries) => wait_and_tell(rt, services, pace, &options, entries, faults),
        Err(_) => report(faults, b"wait: OutOfMemory\n", TROUBLE),
    }
}
