//! What is left over of a start with a process that was not recorded.
ghost use Rattle.std.specs.Prelude.{◌≡◌, option_copied};
ghost use Rattle.svc_record.specs.Leftover.{find_any_here, find_leftover, first_here, first_root, first_stray};
ghost use Rattle.svc_record.specs.Leftover.{has_other_root};
ghost use Rattle.svc_record.specs.Leftover.{has_others_there, if_new, is_above_here};
ghost use Rattle.svc_record.specs.Leftover.{is_known, is_neighbours, is_new, is_open, is_root, is_stray, is_sure};
ghost use Rattle.svc_record.specs.Leftover.{leads, may_be_started};
ghost use Rattle.svc_record.specs.Leftover.{parent_in, process_at};
ghost use Rattle.svc_record.specs.Leftover.{topmost, without_root};
ghost use Rattle.svc_record.specs.declared.leftover.TheConstants.{GENERATIONS};

use crate::process::Fate;

/// How many generations of ancestors are examined.
const GENERATIONS: usize = 256;

/// A process of the system, as seen in one look at all processes.
#[derive(Clone, Copy, Debug, PartialEq, Eq)]
pub struct Seen {
    /// The number of the process.
    pub pid: u32,
    /// The number of its parent.
    pub parent: u64,
    /// The tick of the kernel's clock at which it began.
    pub tick: u64,
    /// Its session.
    pub session: u64,
    /// Whether it died, and its parent has not waited for it yet.
    pub has_died: bool,
    /// Whether it runs in the folder of the service, or has the service's standard output as its own.
    pub is_here: bool,
    /// Whether it is known: it is this svscan, or the process of another service.
    pub is_known: bool,
    /// Whether it has this svscan's own session and began after this svscan.
    pub is_late: bool,
    /// Whether it runs in another folder, which names it as the process of its own service.
    pub is_elsewhere: bool,
    /// The neighbour in whose folder it runs, by its number from 1, or 0 if there is none. A neighbour is another
    /// service of the same svscan with an unknown start.
    pub neighbour: u64,
}

/// A start that an earlier svscan intended.
#[derive(Clone, Copy, Debug, PartialEq, Eq)]
pub struct Intent {
    /// When the start was intended, by the tick of the kernel's clock. No process of the start began before.
    pub tick: u64,
    /// The session of that svscan.
    pub session: u64,
    /// Whether the service begins a session of its own.
    pub begins_session: bool,
    /// The tick at which this svscan began.
    pub until: u64,
}

/// What is left over of a start.
#[derive(Clone, Copy, Debug, PartialEq, Eq)]
pub enum Leftover {
    /// No process is left.
    Nobody,
    /// The process with this number, which began at this tick.
    Process(u32, u64),
    /// Perhaps the process with this number.
    Unsure(u32),
}

impl Leftover {
    ghost use Rattle.std.specs.Prelude.{◌≡◌};
    ghost use Rattle.svc_record.specs.Leftover.{HasNumber, IsAwaited, awaited, left_of_finish, numbered};
    ghost use Rattle.svc_record.specs.Process.{IsLiving};

    /// Returns what is left over of a `finish` whose process became this.
    pub fn of_finish(found: Fate) -> Leftover
        requires { IsLiving found }
        ensures left { result ≡ left_of_finish found }
        ensures awaited { IsAwaited result }
        ensures number { HasNumber result }
    {
        match found {
            Fate::Lives(process) => Leftover::Unsure(process.pid),
            Fate::Gone | Fate::Unknown => Leftover::Nobody,
        }
    }

    /// Returns the same, except that a process is awaited and never adopted.
    pub fn awaited(self) -> Leftover
        requires { HasNumber self }
        ensures same { result ≡ awaited self }
        ensures awaited { IsAwaited result }
        ensures number { HasNumber result }
    {
        match self {
            Leftover::Process(pid, _) => Leftover::Unsure(pid),
            found => found,
        }
    }

    /// Returns the same, except that a process without a number counts as nobody.
    pub fn numbered(self) -> Leftover
        ensures same { result ≡ numbered self }
        ensures number { HasNumber result }
    {
        match self {
            Leftover::Process(0, _) => Leftover::Nobody,
            found => found,
        }
    }
}

/// Returns the process with this number.
fn process_at(all: &[Seen], pid: u64) -> Option<&Seen>
    ensures { option_copied result ≡ process_at pid all.now }
{
    all.iter().find(|other| u64::from(other.pid) == pid)
}

/// Returns the parent of a process.
fn parent_of(all: &[Seen], one: &Seen) -> Option<Seen>
    ensures { result ≡ parent_in all.now one.now }
{
    match process_at(all, one.parent) {
        Some(parent) => Some(*parent),
        None => None,
    }
}

/// Returns whether a process is alive, and began since the intent.
fn is_new(intent: &Intent, one: &Seen) -> bool
    ensures { result ≡ is_new intent.now one.now }
{
    !one.has_died && intent.tick <= one.tick
}

/// Returns the parent of a process, if it is new.
fn new_parent(intent: &Intent, all: &[Seen], one: &Seen) -> Option<Seen>
    ensures { result ≡ if_new intent.now (parent_in all.now one.now) }
{
    match parent_of(all, one) {
        Some(parent) if is_new(intent, &parent) => Some(parent),
        _ => None,
    }
}

/// Returns the topmost of a process and its new ancestors.
#[tactic(auto, using(crate::proofs::Generations::topmost_step, crate::proofs::Generations::topmost_end))]
fn topmost(intent: &Intent, all: &[Seen], one: &Seen) -> Seen
    ensures { result ≡ topmost GENERATIONS intent.now all.now one.now }
{
    let mut top = *one;
    for passed in 0..GENERATIONS {
        match new_parent(intent, all, &top) {
            Some(parent) => top = parent,
            None => return top,
        }
    }
    top
}

/// Returns whether a process or an ancestor of it is known.
#[tactic(auto, using(crate::proofs::Generations::known_step, crate::proofs::Generations::known_end))]
fn is_known(all: &[Seen], one: &Seen) -> bool
    ensures { result ≡ is_known GENERATIONS all.now one.now }
{
    let mut at = *one;
    for passed in 0..GENERATIONS {
        if at.is_known {
            return true;
        }
        match parent_of(all, &at) {
            Some(parent) => at = parent,
            None => return false,
        }
    }
    false
}

/// Returns whether a process may be what is left over.
fn is_open(intent: &Intent, all: &[Seen], one: &Seen) -> bool
    ensures { result ≡ is_open GENERATIONS intent.now all.now one.now }
{
    is_new(intent, one) && !is_known(all, one)
}

/// Returns whether the process with this number is the topmost of an open process that is here.
fn is_above_here(intent: &Intent, all: &[Seen], pid: u32) -> bool
    ensures { result ≡ is_above_here GENERATIONS intent.now all.now pid }
{
    all.iter().any(|other| {
        other.is_here && is_open(intent, all, other) && topmost(intent, all, other).pid == pid
    })
}

/// Returns whether a process is the topmost open process above one that is here.
fn is_root(intent: &Intent, all: &[Seen], one: &Seen) -> bool
    ensures { result ≡ is_root GENERATIONS intent.now all.now one.now }
{
    is_open(intent, all, one) && is_above_here(intent, all, one.pid)
}

/// Returns whether a process leads a session of its own, and is not younger than this svscan.
fn leads(intent: &Intent, one: &Seen) -> bool
    ensures { result ≡ leads intent.now one.now }
{
    one.session == u64::from(one.pid) && one.tick <= intent.until
}

/// Returns whether a process may be the one of the start, by its session.
pub fn may_be_started(intent: &Intent, one: &Seen) -> bool
    ensures { result ≡ may_be_started intent.now one.now }
{
    one.session == intent.session || (intent.begins_session && leads(intent, one))
}

/// Returns whether another process runs in the folder of the same neighbour, and is not below this one.
fn has_others_there(intent: &Intent, all: &[Seen], one: &Seen) -> bool
    ensures { result ≡ has_others_there GENERATIONS intent.now all.now one.now }
{
    all.iter().any(|other| {
        other.neighbour == one.neighbour
            && is_open(intent, all, other)
            && topmost(intent, all, other).pid != one.pid
    })
}

/// Returns whether a process is that of a neighbour's start: it is the topmost of all processes in that folder.
fn is_neighbours(intent: &Intent, all: &[Seen], one: &Seen) -> bool
    ensures { result ≡ is_neighbours GENERATIONS intent.now all.now one.now }
{
    one.neighbour != 0 && !has_others_there(intent, all, one)
}

/// Returns whether a process is the topmost of open ones and may be the one of the start, and none of them is here. It
/// is not that of a neighbour's start, and not that of a service elsewhere.
fn is_stray(intent: &Intent, all: &[Seen], one: &Seen) -> bool
    ensures { result ≡ is_stray GENERATIONS intent.now all.now one.now }
{
    may_be_started(intent, one)
        && !one.is_late
        && !one.is_elsewhere
        && is_open(intent, all, one)
        && topmost(intent, all, one).pid == one.pid
        && !is_above_here(intent, all, one.pid)
        && !is_neighbours(intent, all, one)
}

/// Returns the first root.
fn first_root<'a>(intent: &Intent, all: &'a [Seen]) -> Option<&'a Seen>
    ensures { option_copied result ≡ first_root GENERATIONS intent.now all.now }
{
    all.iter().find(|one| is_root(intent, all, one))
}

/// Returns the first stray.
fn first_stray<'a>(intent: &Intent, all: &'a [Seen]) -> Option<&'a Seen>
    ensures { option_copied result ≡ first_stray GENERATIONS intent.now all.now }
{
    all.iter().find(|one| is_stray(intent, all, one))
}

/// Returns whether there is a root other than the process with this number.
fn has_other_root(intent: &Intent, all: &[Seen], pid: u32) -> bool
    ensures { result ≡ has_other_root GENERATIONS intent.now all.now pid }
{
    all.iter()
        .any(|one| one.pid != pid && is_root(intent, all, one))
}

/// Returns whether a root is sure to be what is left over.
fn is_sure(intent: &Intent, all: &[Seen], root: &Seen) -> bool
    ensures { result ≡ is_sure GENERATIONS intent.now all.now root.now }
{
    may_be_started(intent, root)
        && !root.is_elsewhere
        && !has_other_root(intent, all, root.pid)
        && first_stray(intent, all).is_none()
}

/// Returns what is left over if there is no root.
fn without_root(stray: Option<&Seen>) -> Leftover
    ensures { result ≡ without_root (option_copied stray.entry) }
{
    match stray {
        Some(stray) => Leftover::Unsure(stray.pid),
        None => Leftover::Nobody,
    }
}

/// Returns what is left over of a start, by one look at all processes of the system.
///
/// The process of a start is the topmost one that began since the intent, above those that run in the service's folder
/// or have its output. It is sure only if it is the only one, and no other process with a session of the start is
/// unknown. It must also have such a session: that of the svscan that intended the start, or its own, if the service
/// begins a session and the process leads one. A process that runs alone in the folder of a neighbour with an unknown
/// start belongs to that neighbour. One that runs in a folder which names it belongs to the service there.
pub fn find_leftover(intent: &Intent, all: &[Seen]) -> Leftover
    ensures { result ≡ find_leftover GENERATIONS intent.now all.now }
{
    match first_root(intent, all) {
        None => without_root(first_stray(intent, all)),
        Some(root) if is_sure(intent, all, root) => Leftover::Process(root.pid, root.tick),
        Some(root) => Leftover::Unsure(root.pid),
    }
}

/// Returns what is left over of a start, if only the service is known. It is not sure whether that is the first process
/// that runs in the service's folder or has its output.
pub fn find_any_here(all: &[Seen]) -> Leftover
    ensures { result ≡ find_any_here all.now }
{
    without_root(first_here(all))
}

/// Returns the first process that is alive, is here and is not known.
fn first_here(all: &[Seen]) -> Option<&Seen>
    ensures { option_copied result ≡ first_here all.now }
{
    all.iter()
        .find(|one| one.is_here && !one.has_died && !one.is_known)
}
