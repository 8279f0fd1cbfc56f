//! The cells of the row of a service.
ghost use Rattle.std.specs.Prelude.{◌≡◌, ◌++◌, decimal, OnOk};
ghost use Rattle.std.specs.Option.{option_copied};
ghost use Rattle.cmd_page.specs.Page.{ending_text, last_text, leads, look_class, picture_in, process_text};
ghost use Rattle.cmd_page.specs.Page.{process_word, restarts_in, side_word};
ghost use Rattle.cmd_page.specs.Page.{span_text, state_class, state_word, status_of, unreached_word};
ghost use Rattle.cmd_page.specs.Page.{wanted_text};
ghost use Rattle.cmd_why.specs.Sentences.{signal_text};

use crate::picture::{push_picture, push_restarts};
use crate::text::{push_number, push_text};
use cmd_report::want_name;
use cmd_svc::{Course, ServiceLook, is_running, wants_up};
use cmd_why::leads_to;
use std::alloc::{AllocError, Allocator};
use sup_trace::TraceText;
use svc_client::Unreached;
use svc_record::{Ending, Exit, signal_name};
use tai_status::{Label, View};

/// Returns the status that a look found.
pub(crate) fn status_of(look: &ServiceLook) -> Option<View>
    ensures { result ≡ status_of look.now }
{
    match look {
        ServiceLook::Standing { loaded, .. } => Some(loaded.view()),
        _ => None,
    }
}

/// Returns whether a process runs, in a word: this one, if it does and is not paused.
fn process_word(status: &View, word: &'static str) -> &'static str
    ensures { result.now ≡ process_word status.now word.now }
{
    if !is_running(status) {
        "down"
    } else if status.paused {
        "paused"
    } else {
        word
    }
}

/// Returns the state of a service in a word.
fn side_word(status: &View, course: &Course) -> &'static str
    ensures { result.now ≡ side_word status.now course.now }
{
    match course {
        Course::Plain => process_word(status, "up"),
        Course::Ready(_) => process_word(status, "ready"),
        Course::Finishing => "finishing",
        Course::BackingOff(_) => "backoff",
    }
}

/// Returns why nothing is known about a service.
fn unreached_word(why: Unreached) -> &'static str
    ensures { result.now ≡ unreached_word why }
{
    match why {
        Unreached::NotRunning => "not supervised",
        Unreached::Denied => "no permission",
        Unreached::Unanswered => "no answer",
    }
}

/// Returns what a look found, in a word or two.
pub(crate) fn state_word(look: &ServiceLook) -> &'static str
    ensures { result.now ≡ state_word look.now }
{
    match look {
        ServiceLook::Unreached(why) => unreached_word(*why),
        ServiceLook::Unread => "status unreadable",
        ServiceLook::Bad(_) => "status damaged",
        ServiceLook::Standing { loaded, course, .. } => side_word(&loaded.view(), course),
    }
}

/// Returns the class of a state, from its status.
fn state_class(status: &Option<View>) -> &'static str
    ensures { result.now ≡ state_class status.now }
{
    match status {
        None => "warn",
        Some(status) if is_running(status) => { if status.paused { "warn" } else { "up" } }
        Some(status) if wants_up(status.want) => "warn",
        Some(_) => "down",
    }
}

/// Returns the class of the cell of a state.
pub(crate) fn look_class(look: &ServiceLook) -> &'static str
    ensures { result.now ≡ look_class look.now }
{
    match look {
        ServiceLook::Standing {
            course: Course::BackingOff(_),
            ..
        } => "warn",
        look => state_class(&status_of(look)),
    }
}

/// Returns what is wanted, if there is a status.
pub(crate) fn wanted_text(status: &Option<View>) -> &'static str
    ensures { result.now ≡ wanted_text status.now }
{
    match status {
        Some(status) => want_name(status.want),
        None => "",
    }
}

/// Writes the number of the process, if there is one.
pub(crate) fn push_process<A: Allocator>(
    out: &mut Vec<u8, A>,
    status: &Option<View>,
) -> Result<(), AllocError>
    ensures { OnOk result (out.new.items ≡ out.old.items ++ process_text status.now) }
{
    match status {
        Some(status) if is_running(status) => push_number(out, u64::from(status.pid)),
        _ => Ok(()),
    }
}

/// Returns whether a trace leads to the process that the status names, if there is a status.
fn leads<B: Allocator>(status: &Option<View>, content: &TraceText<B>) -> bool
    ensures { result ≡ leads status.now content.now }
{
    match status {
        Some(status) => leads_to(content, status),
        None => false,
    }
}

/// Writes the restarts in the last hour, if there is a trace.
pub(crate) fn push_restarts_in<A: Allocator, B: Allocator>(
    out: &mut Vec<u8, A>,
    now: &Label,
    status: &Option<View>,
    content: Option<&TraceText<B>>,
) -> Result<(), AllocError>
    ensures { OnOk result (out.new.items
        ≡ out.old.items ++ restarts_in now.now status.now (option_copied content.entry)) }
{
    match content {
        Some(content) => push_restarts(out, now, leads(status, content), content),
        None => Ok(()),
    }
}

/// Writes the picture of the last hour, if there is a trace.
pub(crate) fn push_picture_in<A: Allocator + Clone, B: Allocator>(
    alloc: &A,
    out: &mut Vec<u8, A>,
    now: &Label,
    status: &Option<View>,
    content: Option<&TraceText<B>>,
) -> Result<(), AllocError>
    ensures { OnOk result (out.new.items
        ≡ out.old.items ++ picture_in now.now status.now (option_copied content.entry)) }
{
    match content {
        Some(content) => push_picture(alloc, out, now, leads(status, content), content),
        None => Ok(()),
    }
}

/// Writes the name of a signal, or its number if it has no name.
#[tactic(auto, unfolding(cmd_why::specs::Sentences::signal_text))]
fn push_signal<A: Allocator>(out: &mut Vec<u8, A>, number: u8) -> Result<(), AllocError>
    ensures { OnOk result (out.new.items ≡ out.old.items ++ signal_text number) }
{
    match signal_name(number) {
        "" => {
            push_text(out, "signal ")?;
            push_number(out, u64::from(number))
        }
        name => {
            push_text(out, "SIG")?;
            push_text(out, name)
        }
    }
}

/// Writes how a process ended.
#[tactic(auto, unfolding(crate::specs::Page::ending_text))]
fn push_ending<A: Allocator>(out: &mut Vec<u8, A>, ending: Ending) -> Result<(), AllocError>
    ensures { OnOk result (out.new.items ≡ out.old.items ++ ending_text ending) }
{
    match ending {
        Ending::Status(code) => {
            push_text(out, "status ")?;
            push_number(out, u64::from(code))
        }
        Ending::Signal(number) => push_signal(out, number),
        Ending::Unknown => push_text(out, "unknown"),
    }
}

/// Writes a number and its unit.
fn push_unit<A: Allocator>(out: &mut Vec<u8, A>, number: u64, unit: &str) -> Result<(), AllocError>
    ensures { OnOk result (out.new.items ≡ out.old.items ++ decimal number ++ unit.now) }
{
    push_number(out, number)?;
    push_text(out, unit)
}

/// Writes a time in one unit.
#[tactic(auto, unfolding(crate::specs::Page::span_text))]
fn push_span<A: Allocator>(out: &mut Vec<u8, A>, seconds: u64) -> Result<(), AllocError>
    ensures { OnOk result (out.new.items ≡ out.old.items ++ span_text seconds) }
{
    if seconds < 120 {
        push_unit(out, seconds, " s")
    } else if seconds < 7200 {
        push_unit(out, seconds / 60, " min")
    } else if seconds < 172_800 {
        push_unit(out, seconds / 3600, " h")
    } else {
        push_unit(out, seconds / 86_400, " d")
    }
}

/// Writes how the last process ended, and how long ago, if that is known.
pub(crate) fn push_last<A: Allocator>(
    out: &mut Vec<u8, A>,
    now: &Label,
    last: &Option<Exit>,
) -> Result<(), AllocError>
    ensures { OnOk result (out.new.items ≡ out.old.items ++ last_text now.now last.now) }
{
    let Some(exit) = last else {
        return Ok(());
    };
    push_ending(out, exit.ending)?;
    push_text(out, ", ")?;
    push_span(out, now.sec.saturating_sub(exit.label.sec))?;
    push_text(out, " ago")
}
