//! What a look at a service finds.
ghost use Rattle.std.specs.Prelude.{◌≡◌};
ghost use Rattle.tai_status.specs.Extended.{Extended};
ghost use Rattle.cmd_wait.specs.Finding.{absent_finding, calls_of_age, has_lasted, is_another, is_down, is_up};
ghost use Rattle.cmd_wait.specs.Finding.{process_asked, reached_if, record_finding, service, unread_finding};
ghost use Rattle.cmd_wait.specs.Finding.{unsupervised_finding, AsksReady, Finds, asks_ready, is_ready};

use cmd_svc::{about, is_running, read_moment};
use std::io::ErrorKind;
use svc_client::{Notice, Services, Unreached};
use svc_record::Moment;
use tai_status::{Label, Loaded, Phase, RecordFault, View, decode_front};

/// The age, in hundredths of a second, from which the process of a service counts as up.
const LASTING: u128 = 200;

/// The state of a service that is waited for.
#[derive(Clone, Copy, Debug, PartialEq, Eq)]
pub enum WaitState {
    /// It is up and settled: a record of 20 bytes is in the phase `up`, or one of 18 bytes has a process. Also, this
    /// process lives, and has lived for two seconds.
    Up,
    /// It is down: a record of 20 bytes is in the phase `down` or `gone`, or one of 18 bytes has no process.
    Down,
    /// It is no longer supervised.
    Unsupervised,
    /// It is ready: its process lives, and said so.
    Ready,
    /// It is up as for `Up`, with another process than the one that the first look saw.
    Another,
}

/// A process of a service, as its status record names it.
#[derive(Clone, Copy, Debug, PartialEq, Eq)]
pub struct ProcessMark {
    /// Its number, at least 1.
    pub pid: u32,
    /// When it was started.
    pub label: Label,
}

/// A service that is waited for.
#[derive(Clone, Copy, Debug)]
pub(crate) struct AwaitedService<'a> {
    pub folder: &'a str,
    /// The process that the first look saw there, if there was one and it counts.
    pub mark: Option<ProcessMark>,
}

/// What is waited for.
#[derive(Clone, Copy, Debug, PartialEq, Eq)]
pub struct Goal {
    pub state: WaitState,
    /// Whether the wait goes on if a service is not supervised, until it is. If not, that is a fault.
    pub awaits_supervision: bool,
}

/// Why a service can't be waited for.
#[derive(Clone, Copy, Debug, PartialEq, Eq)]
pub enum WaitFault {
    /// It is not supervised.
    NotSupervised,
    /// This user may not connect to it.
    Denied,
    /// Its status can't be read.
    Unread,
    /// Its status is not a record.
    Bad(RecordFault),
    /// The first look found that it takes no connection.
    Unanswered,
    /// It is to be restarted, and is not wanted up.
    NotWantedUp,
}

/// What a look at a service found.
#[derive(Clone, Copy, Debug, PartialEq, Eq)]
pub enum Finding {
    /// It is as it should be.
    Reached,
    /// It is not yet so.
    Waiting,
    /// It can't be waited for.
    Failed(WaitFault),
}

/// Returns what is found about a service that is not supervised.
fn unsupervised_finding(goal: Goal) -> Finding
    ensures { result ≡ unsupervised_finding goal }
{
    match (goal.state, goal.awaits_supervision) {
        (WaitState::Unsupervised, _) => Finding::Reached,
        (_, true) => Finding::Waiting,
        (_, false) => Finding::Failed(WaitFault::NotSupervised),
    }
}

/// Returns what is found about a service that was not reached. A service that is there and takes no more connections is
/// looked at again.
fn absent_finding(goal: Goal, why: Unreached) -> Finding
    ensures { result ≡ absent_finding goal why }
{
    match why {
        Unreached::NotRunning => unsupervised_finding(goal),
        Unreached::Denied => Finding::Failed(WaitFault::Denied),
        Unreached::Unanswered => Finding::Waiting,
    }
}

/// Returns what is found about a service whose status can't be read. `is_missing` says whether it has none: svscan
/// begins to supervise a service just before it writes the first one.
fn unread_finding(goal: Goal, is_missing: bool) -> Finding
    ensures { result ≡ unread_finding goal is_missing }
{
    match (goal.state, goal.awaits_supervision && is_missing) {
        (WaitState::Unsupervised, _) | (_, true) => Finding::Waiting,
        (_, false) => Finding::Failed(WaitFault::Unread),
    }
}

/// Returns whether a record says that a service is up and settled.
fn is_up(loaded: &Loaded) -> bool
    ensures { result ≡ is_up loaded.now }
{
    match loaded {
        Loaded::Old(view) => view.pid >= 1,
        Loaded::New(full) => match full.phase {
            Phase::Up => true,
            _ => false,
        },
    }
}

/// Returns whether a record says that a service is down.
fn is_down(loaded: &Loaded) -> bool
    ensures { result ≡ is_down loaded.now }
{
    match loaded {
        Loaded::Old(view) => !(view.pid >= 1),
        Loaded::New(full) => match full.phase {
            Phase::Down | Phase::Gone => true,
            _ => false,
        },
    }
}

/// Returns what is found about a service, by whether it is as it should be.
fn reached_if(reached: bool) -> Finding
    ensures { result ≡ reached_if reached }
{
    if reached {
        Finding::Reached
    } else {
        Finding::Waiting
    }
}

/// Returns whether a process lives, and has lived for two seconds, from its age.
fn has_lasted(age: Option<u128>) -> bool
    ensures { result ≡ has_lasted age }
{
    match age {
        Some(age) => LASTING <= age,
        None => false,
    }
}

/// Returns the process whose age is asked for. There is one if the service should be up and its record says that it is,
/// and if it should be ready and its record names a process.
fn process_asked(state: WaitState, read: &Result<Loaded, RecordFault>) -> Option<u32>
    ensures { result ≡ process_asked state read.now }
{
    match (state, read) {
        (WaitState::Up | WaitState::Another, Ok(loaded)) if is_up(loaded) => {
            Some(loaded.view().pid)
        }
        (WaitState::Ready, Ok(loaded)) if is_running(&loaded.view()) => Some(loaded.view().pid),
        _ => None,
    }
}

/// Returns the age of that process, if there is one to ask about and it lives.
fn age_asked<S: Services>(
    services: &mut S,
    state: WaitState,
    read: &Result<Loaded, RecordFault>,
) -> Option<u128>
    ensures { Extended (S.calls services.old) (S.calls services.new)
        (calls_of_age (process_asked state read.now) result) }
{
    services.age(process_asked(state, read)?)
}

/// Returns whether it matters that a service is ready.
fn asks_ready(state: WaitState) -> bool
    ensures { result ≡ asks_ready state }
{
    matches!(state, WaitState::Ready)
}

/// Reads which process said that it is ready, and when, if that matters.
fn ready_asked<S: Services>(services: &mut S, asks: bool, folder: &str) -> Option<Moment>
    ensures { AsksReady asks folder.now result (S.calls services.old) (S.calls services.new) }
{
    if asks {
        read_moment(services, folder, Notice::Ready)
    } else {
        None
    }
}

/// Returns whether the process of a record lives, from its age, and said that it is ready.
fn is_ready(view: &View, age: Option<u128>, ready: Option<Moment>) -> bool
    ensures { result ≡ is_ready view.now age ready }
{
    age.is_some() && about(view, ready).is_some()
}

/// Returns whether the process of a record is another one than that of a mark. It is if there is no mark.
fn is_another(mark: Option<ProcessMark>, view: &View) -> bool
    ensures { result ≡ is_another mark view.now }
{
    match mark {
        None => true,
        Some(mark) => {
            !(mark.pid == view.pid
                && mark.label.sec == view.label.sec
                && mark.label.nano == view.label.nano)
        }
    }
}

/// Returns what is found about a service, from its mark and from what its status file says, and from the age of its
/// process and its readiness, if these were asked for.
fn record_finding(
    state: WaitState,
    mark: Option<ProcessMark>,
    read: &Result<Loaded, RecordFault>,
    age: Option<u128>,
    ready: Option<Moment>,
) -> Finding
    ensures { result ≡ record_finding state mark read.now age ready }
{
    match (state, read) {
        (WaitState::Unsupervised, _) => Finding::Waiting,
        (_, Err(fault)) => Finding::Failed(WaitFault::Bad(*fault)),
        (WaitState::Up, Ok(loaded)) => reached_if(is_up(loaded) && has_lasted(age)),
        (WaitState::Down, Ok(loaded)) => reached_if(is_down(loaded)),
        (WaitState::Ready, Ok(loaded)) => reached_if(is_ready(&loaded.view(), age, ready)),
        (WaitState::Another, Ok(loaded)) => {
            reached_if(is_up(loaded) && has_lasted(age) && is_another(mark, &loaded.view()))
        }
    }
}

/// Looks at a service: whether it is supervised, and then its status. If the service should be up and its record says
/// that it is, also looks how long its process has lived. If it should be ready, also reads whether its process said
/// so.
pub(crate) fn look<S: Services>(services: &mut S, goal: Goal, entry: &AwaitedService<'_>) -> Finding
    ensures { Finds goal (service entry.now.folder.now entry.now.mark) result
        (S.calls services.old) (S.calls services.new) }
{
    if let Err(why) = services.reach(entry.folder) {
        return absent_finding(goal, why);
    }
    let front = match services.read_status(entry.folder) {
        Ok(front) => front,
        Err(fault) => return unread_finding(goal, fault.kind() == ErrorKind::NotFound),
    };
    let read = decode_front(front.as_slice());
    let age = age_asked(services, goal.state, &read);
    let ready = ready_asked(services, asks_ready(goal.state), entry.folder);
    record_finding(goal.state, entry.mark, &read, age, ready)
}
