//! What a service does that its status does not say.
ghost use Rattle.std.specs.Prelude.{◌≡◌, ◌-◌, ◌++◌, codes, decimal, string_bytes, OnOk};
ghost use Rattle.tai_status.specs.Loading.{status_in};
ghost use Rattle.cmd_svc.specs.Course.{AsksBy, AsksEnded, AsksProcess, AsksRunning, ReadsNotice, SeeksCourse};
ghost use Rattle.cmd_svc.specs.Course.{SeeksFinish, about, course_note, ended_course, running_course};
ghost use Rattle.cmd_svc.specs.Line.{is_running};

use crate::line::{is_running, push_number};
use std::alloc::{AllocError, Allocator};
use svc_client::{Notice, Services};
use svc_record::{Moment, moment_in};
use tai_status::{Label, Loaded, View};

/// What a service does that its status does not say.
#[derive(Clone, Copy, Debug, PartialEq, Eq)]
pub enum Course {
    /// Nothing more.
    Plain,
    /// Its process said at this time that it is ready.
    Ready(Label),
    /// Its process has ended, and its `finish` runs.
    Finishing,
    /// Its processes end too often, and the next start waits until this time.
    BackingOff(Label),
}

/// Reads the process and the time of a notice.
pub fn read_moment<S: Services>(services: &mut S, folder: &str, notice: Notice) -> Option<Moment>
    ensures { ReadsNotice folder.now notice result (S.calls services.old) (S.calls services.new) }
{
    match services.read_notice(folder, notice) {
        Some(text) => moment_in(text.as_slice()),
        None => None,
    }
}

/// Returns the time of a notice if it is about the process of a record: it has its number, and is not earlier than its
/// start.
pub fn about(view: &View, moment: Option<Moment>) -> Option<Label>
    ensures { result ≡ about view.now moment }
{
    match moment {
        Some(moment) if moment.pid == view.pid && !(moment.label < view.label) => Some(
            moment.label,
        ),
        _ => None,
    }
}

/// Returns what a service does whose process has ended, from the time until which its next start waits, if it does, and
/// from whether it has a `finish`.
fn ended_course(until: Option<Label>, has_finish: bool) -> Course
    ensures { result ≡ ended_course until has_finish }
{
    match (until, has_finish) {
        (Some(until), _) => Course::BackingOff(until),
        (None, true) => Course::Finishing,
        (None, false) => Course::Plain,
    }
}

/// Returns what a service does whose process lives, from when that said that it is ready, if it did.
fn running_course(ready: Option<Label>) -> Course
    ensures { result ≡ running_course ready }
{
    match ready {
        Some(label) => Course::Ready(label),
        None => Course::Plain,
    }
}

/// Looks for the `finish` of a service.
fn seek_finish<S: Services>(services: &mut S, folder: &str) -> bool
    ensures { SeeksFinish folder.now result (S.calls services.old) (S.calls services.new) }
{
    services.has_finish(folder)
}

/// Looks what a service does whose process has ended.
fn ask_ended<S: Services>(services: &mut S, folder: &str, view: &View) -> Course
    ensures { AsksEnded folder.now view.now result (S.calls services.old) (S.calls services.new) }
{
    let backoff = read_moment(services, folder, Notice::Backoff);
    let has_finish = seek_finish(services, folder);
    ended_course(about(view, backoff), has_finish)
}

/// Looks what a service does whose process lives.
fn ask_running<S: Services>(services: &mut S, folder: &str, view: &View) -> Course
    ensures { AsksRunning folder.now view.now result (S.calls services.old) (S.calls services.new) }
{
    let ready = read_moment(services, folder, Notice::Ready);
    running_course(about(view, ready))
}

/// Looks what a service does, by whether its process has ended.
fn ask_by<S: Services>(services: &mut S, has_ended: bool, folder: &str, view: &View) -> Course
    ensures { AsksBy has_ended folder.now view.now result (S.calls services.old) (S.calls services.new) }
{
    if has_ended {
        ask_ended(services, folder, view)
    } else {
        ask_running(services, folder, view)
    }
}

/// Looks whether the process of a record has ended, and then what the service does.
fn ask_process<S: Services>(services: &mut S, folder: &str, view: &View) -> Course
    ensures { AsksProcess folder.now view.now result (S.calls services.old) (S.calls services.new) }
{
    let exit = read_moment(services, folder, Notice::Exit);
    ask_by(services, about(view, exit).is_some(), folder, view)
}

/// Looks what a service does that its record does not say.
pub fn ask_course<S: Services>(services: &mut S, folder: &str, loaded: &Loaded) -> Course
    ensures { SeeksCourse (is_running (status_in loaded.now)) folder.now (status_in loaded.now) result
        (S.calls services.old) (S.calls services.new) }
{
    let view = loaded.view();
    if !is_running(&view) {
        return Course::Plain;
    }
    ask_process(services, folder, &view)
}

/// Returns how many seconds come from one time to another, or 0 if that is earlier.
fn seconds_between(from: &Label, to: &Label) -> u64
    ensures { result ≡ to.now.sec - from.now.sec }
{
    to.sec.saturating_sub(from.sec)
}

/// Writes a number of seconds at the end of a text, after these words.
fn push_seconds<A: Allocator>(
    out: &mut String<A>,
    words: &str,
    seconds: u64,
) -> Result<(), AllocError>
    ensures { OnOk result (string_bytes out.new
        ≡ string_bytes out.old ++ words.now ++ decimal seconds ++ codes " seconds") }
{
    out.push_str(words)?;
    push_number(out, u128::from(seconds))?;
    out.push_str(" seconds")
}

/// Writes the note on what a service does at the end of a text.
pub(crate) fn push_course<A: Allocator>(
    out: &mut String<A>,
    course: &Course,
    now: &Label,
) -> Result<(), AllocError>
    ensures { OnOk result (string_bytes out.new ≡ string_bytes out.old ++ course_note course.now now.now) }
{
    match course {
        Course::Plain => Ok(()),
        Course::Ready(label) => push_seconds(out, ", ready ", seconds_between(label, now)),
        Course::Finishing => out.push_str(", finishing"),
        Course::BackingOff(until) => {
            push_seconds(out, ", backoff ", seconds_between(now, until))
        }
    }
}
