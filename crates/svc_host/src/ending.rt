//! How all services end, in order, and when svscan may leave them.
ghost use Rattle.std.specs.Prelude.{◌≡◌};
ghost use Rattle.svc_host.specs.Ending.{end_step, is_log, lives, may_leave, sight_of};

use scan_table::Role;
use sup_core::Machine;
use tai_status::Phase;

/// The milliseconds that a logger has for what its service wrote, after the service is gone.
const LOGGER_MILLIS: u64 = 5000;

/// The next step for a part.
#[derive(Clone, Copy, Debug, PartialEq, Eq)]
pub(crate) enum EndStep {
    /// It must stop at once: `d` and `x`.
    Stop,
    /// It must exit when its process ends: `x`.
    Exit,
    /// It is left alone.
    Wait,
}

/// What is seen of the process of a part.
#[derive(Clone, Copy, Debug, PartialEq, Eq)]
pub(crate) enum ProcessSight {
    /// It has a process.
    Lives,
    /// It has none, and is to have one.
    Comes,
    /// It has none, and is to have none.
    Absent,
}

/// Returns whether this is the role of a logger.
pub(crate) fn is_log(role: Role) -> bool
    ensures { result ≡ is_log role }
{
    match role {
        Role::Main => false,
        Role::Log => true,
    }
}

/// Returns what is seen of the process of a part with this machine. A logger that an earlier svscan started reads
/// another input and does not count: the next logger is still to come.
pub(crate) fn sight_of(machine: &Machine, reads_another: bool) -> ProcessSight
    ensures { result ≡ sight_of machine.now reads_another }
{
    if machine.view().pid > 0 {
        return if reads_another {
            ProcessSight::Comes
        } else {
            ProcessSight::Lives
        };
    }
    match machine.phase() {
        Phase::Starting | Phase::Resting => ProcessSight::Comes,
        Phase::Settling | Phase::Up | Phase::Down | Phase::Gone => ProcessSight::Absent,
    }
}

/// Returns the next step for a part of this role. For a logger it depends on whether its service runs, whether an
/// earlier svscan started the logger's process, and how many milliseconds ago the service was found gone.
pub(crate) fn end_step(role: Role, service_runs: bool, is_adopted: bool, waited: u64) -> EndStep
    ensures { result ≡ end_step role service_runs is_adopted waited }
{
    match role {
        Role::Main => EndStep::Stop,
        Role::Log if service_runs => EndStep::Wait,
        Role::Log if waited >= LOGGER_MILLIS => EndStep::Stop,
        Role::Log if is_adopted => EndStep::Wait,
        Role::Log => EndStep::Exit,
    }
}

/// Returns whether a process is seen.
pub(crate) fn lives(sight: ProcessSight) -> bool
    ensures { result ≡ lives sight }
{
    matches!(sight, ProcessSight::Lives)
}

/// Returns whether svscan may leave a pair. `is_put` says whether all output is in the logger's input, and `is_read`
/// whether all of that was read.
pub(crate) fn may_leave(is_put: bool, is_read: bool, logger: ProcessSight) -> bool
    ensures { result ≡ may_leave is_put is_read logger }
{
    match logger {
        ProcessSight::Lives => is_put,
        ProcessSight::Comes => is_put && is_read,
        ProcessSight::Absent => true,
    }
}
