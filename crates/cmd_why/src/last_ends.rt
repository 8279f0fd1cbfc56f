//! The last end of a service's process, from its trace and its file `exit`.
ghost use Rattle.std.specs.Prelude.{◌≡◌};
ghost use Rattle.std.specs.Option.{option_copied};
ghost use Rattle.cmd_why.specs.LastEnd.{ended_in, how, is_later, is_of_end, last_end, later};
ghost use Rattle.cmd_why.specs.LastEnd.{time_of_end, traced_end};

use crate::facts::{EndedProcess, Facts, nanoseconds, same_label};
use svc_record::{Ending, Exit};
use tai_status::Label;

/// The last end of a service's process.
#[derive(Clone, Copy, Debug, PartialEq, Eq)]
pub enum LastEnd {
    /// The trace has it, and the file `exit` may say how that process ended.
    Traced(EndedProcess, Option<Ending>),
    /// Only the file `exit` has it.
    Recorded(Exit),
}

/// Returns whether a line of `exit` is about the same process, and the same time, as an end in the trace.
fn is_of_end(exit: &Exit, ended: &EndedProcess) -> bool
    ensures { result ≡ is_of_end exit.now ended.now }
{
    exit.pid == ended.pid && same_label(&exit.label, &ended.label)
}

/// Returns how a process ended whose end is in the trace, if the line of `exit` is about it.
fn how(exit: &Exit, ended: &EndedProcess) -> Option<Ending>
    ensures { result ≡ how exit.now ended.now }
{
    if is_of_end(exit, ended) {
        Some(exit.ending)
    } else {
        None
    }
}

/// Returns whether the line of `exit` is later than an end in the trace.
fn is_later(exit: &Exit, ended: &EndedProcess) -> bool
    ensures { result ≡ is_later exit.now ended.now }
{
    nanoseconds(&ended.label) < nanoseconds(&exit.label)
}

/// Returns the later of two ends, or the one in the trace if both are at the same time.
fn later(exit: &Exit, ended: Option<EndedProcess>) -> LastEnd
    ensures { result ≡ later exit.now ended }
{
    match ended {
        Some(ended) if !is_later(exit, &ended) => LastEnd::Traced(ended, how(exit, &ended)),
        _ => LastEnd::Recorded(*exit),
    }
}

/// Returns the last end in a trace.
fn ended_in(facts: Option<&Facts>) -> Option<EndedProcess>
    ensures { result ≡ ended_in (option_copied facts.entry) }
{
    match facts {
        Some(facts) => facts.ended,
        None => None,
    }
}

/// Returns the last end in a trace, if the trace leads to the record.
fn traced_end(facts: Option<&Facts>) -> Option<EndedProcess>
    ensures { result ≡ traced_end (option_copied facts.entry) }
{
    match facts {
        Some(facts) if facts.leads => facts.ended,
        _ => None,
    }
}

/// Returns the last end of a service's process: the later of the one in its trace and the one in its file `exit`. If
/// there is no line of `exit`, returns the one in the trace, if the trace leads to the record.
pub fn last_end(facts: Option<&Facts>, exit: Option<Exit>) -> Option<LastEnd>
    ensures { result ≡ last_end (option_copied facts.entry) exit }
{
    match exit {
        Some(exit) => Some(later(&exit, ended_in(facts))),
        None => match traced_end(facts) {
            Some(ended) => Some(LastEnd::Traced(ended, None)),
            None => None,
        },
    }
}

/// Returns when a process ended.
pub(crate) fn time_of_end(end: &LastEnd) -> Label
    ensures { result ≡ time_of_end end.now }
{
    match end {
        LastEnd::Traced(ended, _) => ended.label,
        LastEnd::Recorded(exit) => exit.label,
    }
}
