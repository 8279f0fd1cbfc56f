//! The samples of metrics, and the value that a service has of each.
ghost use Rattle.std.specs.Prelude.{◌≡◌};
ghost use Rattle.tai_status.specs.Record.{flag_byte};
ghost use Rattle.cmd_report.specs.Metrics.{deaths_in, is_supervised, look_value, metric_help, metric_name, metric_type, phase_value};
ghost use Rattle.cmd_report.specs.Metrics.{signal_of, signal_of_last, standing_value, starts_in, status_of};
ghost use Rattle.cmd_report.specs.Metrics.{backoff_in, is_finishing, ready_in, status_of_last, unix_second, value_in};

use crate::found::FoundService;
use cmd_svc::{Course, ServiceLook, is_running, wants_up};
use svc_record::{Counts, Ending, Exit};
use tai_status::{Label, Loaded, Phase, phase_name};

/// A sample that a service has of a metric.
#[derive(Clone, Copy, Debug, PartialEq, Eq)]
pub enum Sample {
    /// Whether its supervisor responds.
    Supervised,
    /// Whether it runs.
    Up,
    /// Whole seconds since its last change of process.
    Seconds,
    /// The Unix time of its last change of process.
    Since,
    /// Whether supervise is in this phase.
    InPhase(Phase),
    /// Whether it is to be up.
    WantedUp,
    /// Whether its process is paused.
    Paused,
    /// Whether its process said that it is ready.
    Ready,
    /// Whether its process has ended, and its `finish` runs.
    Finishing,
    /// Whether its next start waits, because its processes end too often.
    BackingOff,
    /// How often it was started since svscan began.
    Starts,
    /// How often it died since svscan began.
    Deaths,
    /// The status with which its last process exited.
    LastStatus,
    /// The number of the signal that ended its last process.
    LastSignal,
}

/// Returns the value of a sample of a service, if there is one. There always is one for `Supervised`. There is one for
/// `Starts` and `Deaths` if its counts were read, and for `LastStatus` and `LastSignal` if it is known that its last
/// process ended in that way. There is one for a phase if its record has 20 bytes, and for the others if its status was
/// read.
#[tactic(auto, unfolding(crate::specs::Metrics::value_in))]
pub fn value_in(sample: Sample, found: &FoundService) -> Option<u64>
    ensures { result ≡ value_in sample found.now }
{
    match sample {
        Sample::Supervised => Some(flag(is_supervised(&found.look))),
        Sample::Starts => starts_in(found.counts),
        Sample::Deaths => deaths_in(found.counts),
        Sample::LastStatus => status_of_last(found.last),
        Sample::LastSignal => signal_of_last(found.last),
        _ => look_value(sample, &found.look),
    }
}

/// Returns 1 if it holds, and otherwise 0.
fn flag(holds: bool) -> u64
    ensures { result ≡ flag_byte holds }
{
    if holds { 1 } else { 0 }
}

/// Returns whether a supervisor responded.
fn is_supervised(look: &ServiceLook) -> bool
    ensures { result ≡ is_supervised look.now }
{
    match look {
        ServiceLook::Unreached(_) => false,
        ServiceLook::Unread | ServiceLook::Bad(_) | ServiceLook::Standing { .. } => true,
    }
}

/// Returns how many starts are counted.
pub(crate) fn starts_in(counts: Option<Counts>) -> Option<u64>
    ensures { result ≡ starts_in counts }
{
    match counts {
        Some(counts) => Some(counts.starts),
        None => None,
    }
}

/// Returns how many deaths are counted.
pub(crate) fn deaths_in(counts: Option<Counts>) -> Option<u64>
    ensures { result ≡ deaths_in counts }
{
    match counts {
        Some(counts) => Some(counts.deaths),
        None => None,
    }
}

/// Returns the status with which a process exited, if it did.
pub(crate) fn status_of(ending: Ending) -> Option<u64>
    ensures { result ≡ status_of ending }
{
    match ending {
        Ending::Status(code) => Some(u64::from(code)),
        Ending::Signal(_) | Ending::Unknown => None,
    }
}

/// Returns the number of the signal that ended a process, if one did.
pub(crate) fn signal_of(ending: Ending) -> Option<u64>
    ensures { result ≡ signal_of ending }
{
    match ending {
        Ending::Signal(number) => Some(u64::from(number)),
        Ending::Status(_) | Ending::Unknown => None,
    }
}

/// Returns the status with which the last process exited, if it did.
fn status_of_last(last: Option<Exit>) -> Option<u64>
    ensures { result ≡ status_of_last last }
{
    match last {
        Some(exit) => status_of(exit.ending),
        None => None,
    }
}

/// Returns the number of the signal that ended the last process, if one did.
fn signal_of_last(last: Option<Exit>) -> Option<u64>
    ensures { result ≡ signal_of_last last }
{
    match last {
        Some(exit) => signal_of(exit.ending),
        None => None,
    }
}

/// Returns the value of a sample that a look has.
fn look_value(sample: Sample, look: &ServiceLook) -> Option<u64>
    ensures { result ≡ look_value sample look.now }
{
    match look {
        ServiceLook::Standing {
            loaded,
            now,
            course,
            ..
        } => match sample {
            Sample::Ready => Some(flag(ready_in(course).is_some())),
            Sample::Finishing => Some(flag(is_finishing(course))),
            Sample::BackingOff => Some(flag(backoff_in(course).is_some())),
            _ => standing_value(sample, loaded, now),
        },
        ServiceLook::Unreached(_) | ServiceLook::Unread | ServiceLook::Bad(_) => None,
    }
}

/// Returns when the process of a service said that it is ready, in Unix time, if it did.
pub(crate) fn ready_in(course: &Course) -> Option<u64>
    ensures { result ≡ ready_in course.now }
{
    match course {
        Course::Ready(label) => Some(unix_second(*label)),
        _ => None,
    }
}

/// Returns until when the next start of a service waits, in Unix time, if it does.
pub(crate) fn backoff_in(course: &Course) -> Option<u64>
    ensures { result ≡ backoff_in course.now }
{
    match course {
        Course::BackingOff(until) => Some(unix_second(*until)),
        _ => None,
    }
}

/// Returns whether the `finish` of a service runs.
pub(crate) fn is_finishing(course: &Course) -> bool
    ensures { result ≡ is_finishing course.now }
{
    matches!(course, Course::Finishing)
}

/// Returns the second of Unix time of a label, or 0 if it is before 1970 UTC.
pub(crate) fn unix_second(label: Label) -> u64
    ensures { result ≡ unix_second label }
{
    match Label::from_unix(0, 0) {
        Some(epoch) => label.sec.saturating_sub(epoch.sec),
        None => 0,
    }
}

/// Returns the value of a sample that a status has.
fn standing_value(sample: Sample, loaded: &Loaded, now: &Label) -> Option<u64>
    ensures { result ≡ standing_value sample loaded.now now.now }
{
    let view = loaded.view();
    match sample {
        Sample::Up => Some(flag(is_running(&view))),
        Sample::Seconds => Some(now.sec.saturating_sub(view.label.sec)),
        Sample::Since => Some(unix_second(view.label)),
        Sample::InPhase(phase) => phase_value(phase, loaded),
        Sample::WantedUp => Some(flag(wants_up(view.want))),
        Sample::Paused => Some(flag(view.paused)),
        Sample::Supervised | Sample::Starts | Sample::Deaths => None,
        Sample::Ready | Sample::Finishing | Sample::BackingOff => None,
        Sample::LastStatus | Sample::LastSignal => None,
    }
}

/// Returns whether supervise is in a phase, if a record says that.
fn phase_value(phase: Phase, loaded: &Loaded) -> Option<u64>
    ensures { result ≡ phase_value phase loaded.now }
{
    match loaded {
        Loaded::Old(_) => None,
        Loaded::New(full) => Some(flag(phase_name(full.phase) == phase_name(phase))),
    }
}

/// Returns the name of a sample's metric.
pub(crate) fn metric_name(sample: Sample) -> &'static str
    ensures { result.now ≡ metric_name sample }
{
    match sample {
        Sample::Supervised => "dtools_service_supervised",
        Sample::Up => "dtools_service_up",
        Sample::Seconds => "dtools_service_seconds",
        Sample::Since => "dtools_service_since_timestamp_seconds",
        Sample::InPhase(_) => "dtools_service_phase",
        Sample::WantedUp => "dtools_service_wanted_up",
        Sample::Paused => "dtools_service_paused",
        Sample::Ready => "dtools_service_ready",
        Sample::Finishing => "dtools_service_finishing",
        Sample::BackingOff => "dtools_service_backing_off",
        Sample::Starts => "dtools_service_starts_total",
        Sample::Deaths => "dtools_service_deaths_total",
        Sample::LastStatus => "dtools_service_last_exit_status",
        Sample::LastSignal => "dtools_service_last_signal",
    }
}

/// Returns what a metric says, in words.
pub(crate) fn metric_help(sample: Sample) -> &'static str
    ensures { result.now ≡ metric_help sample }
{
    match sample {
        Sample::Supervised => "Whether the supervisor of the service accepts connections.",
        Sample::Up => "Whether the service runs.",
        Sample::Seconds => "Seconds since the last start or end of its process.",
        Sample::Since => "Unix time of the last start or end of its process.",
        Sample::InPhase(_) => "Whether supervision of the service is in this phase.",
        Sample::WantedUp => "Whether the service is to be up.",
        Sample::Ready => "Whether the process of the service said that it is ready.",
        Sample::BackingOff => "Whether the next start of the service waits.",
        Sample::Finishing => "Whether the finish of the service runs.",
        Sample::Paused => "Whether the process of the service is paused.",
        Sample::Starts => "Starts of its process since svscan began.",
        Sample::Deaths => "Ends of its process since svscan began.",
        Sample::LastStatus => "Status of its last process that ended, if that exited.",
        Sample::LastSignal => "Signal that ended its last process that ended, if one did.",
    }
}

/// Returns the type of a metric: the numbers of starts and ends only rise.
pub(crate) fn metric_type(sample: Sample) -> &'static str
    ensures { result.now ≡ metric_type sample }
{
    match sample {
        Sample::Starts | Sample::Deaths => "counter",
        _ => "gauge",
    }
}
