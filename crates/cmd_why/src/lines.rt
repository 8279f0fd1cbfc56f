//! What a look at a service found, and the line about that.
ghost use Rattle.std.specs.Prelude.{◌≡◌, ◌++◌, ◌∷◌, [], replicate, string_bytes, IfOk, OnOk};
ghost use Rattle.cmd_why.specs.Timeline.{drawing_lines, scale};
ghost use Rattle.cmd_why.specs.Why.{absence_of, absence_words, drawing_in, found_line, found_text, is_denied};
ghost use Rattle.cmd_why.specs.Why.{is_missing};

use crate::facts::Facts;
use crate::last_ends::LastEnd;
use crate::sentences::why_line;
use crate::sources::LocalTime;
use crate::timeline::{Bar, COLUMNS};
use cmd_svc::{Course, fault_name, shown};
use std::alloc::{AllocError, Allocator};
use svc_client::Unreached;
use tai_status::{Cause, Label, Loaded, RecordFault};

/// Why no supervisor responds for a service.
#[derive(Clone, Copy, Debug, PartialEq, Eq)]
pub enum Absence {
    /// There is no such folder.
    NoFolder,
    /// There is no permission to reach the socket `supervise/ok` in the folder.
    NoPermission,
    /// The folder or that socket can't be reached for another reason, such as a socket that has no room for one more
    /// connection.
    Unreachable,
    /// There is no such socket, or nobody listens at it.
    Nobody,
}

/// What a look at a service found.
#[derive(Debug, Drop)]
pub enum WhyFinding {
    /// No supervisor responds for it.
    Absent(Absence),
    /// It is supervised, and its status can't be read.
    Unread,
    /// It is supervised, and its status is not a record.
    Bad(RecordFault),
    /// Its state.
    Standing(Standing),
}

/// A picture of the states of a service over time.
#[derive(Debug, Drop)]
pub struct Picture {
    /// The signs of its columns.
    pub bar: Bar,
    /// The local time of its left end.
    pub from: LocalTime,
}

/// What is drawn about a service.
#[derive(Debug, Drop)]
pub enum Drawing {
    /// No timeline is asked for.
    Unasked,
    /// It has no readable trace.
    Untraced,
    /// This picture.
    Of(Picture),
}

/// The state of a service.
#[derive(Debug, Drop)]
pub struct Standing {
    /// Its status record.
    pub loaded: Loaded,
    /// Whether its folder has no file `down`.
    pub normally_up: bool,
    /// What its trace says, if there is a readable one.
    pub facts: Option<Facts>,
    /// The last end of one of its processes, from its trace and its file `exit`.
    pub last: Option<LastEnd>,
    /// What it does that its status does not say.
    pub course: Course,
    /// The local time of that, or of the record's label.
    pub course_time: LocalTime,
    /// The local time of the record's label.
    pub time: LocalTime,
    /// When it was looked at.
    pub now: Label,
    /// What is drawn about it.
    pub drawing: Drawing,
}

/// Returns why no supervisor responds, from why the service was not reached, and why its folder can't be looked at, if
/// it can't. The first of these that applies is returned: either permission is missing; there is no such folder; the
/// folder can't be looked at, or somebody is there and does not respond; nobody is there.
pub fn absence_of(why: Unreached, fault: Option<Cause>) -> Absence
    ensures { result ≡ absence_of why fault }
{
    if why == Unreached::Denied || is_denied(fault) {
        return Absence::NoPermission;
    }
    if is_missing(fault) {
        return Absence::NoFolder;
    }
    if fault.is_some() || why == Unreached::Unanswered {
        return Absence::Unreachable;
    }
    Absence::Nobody
}

/// Returns whether permission is missing.
fn is_denied(fault: Option<Cause>) -> bool
    ensures { result ≡ is_denied fault }
{
    matches!(fault, Some(Cause::Denied | Cause::NotPermitted))
}

/// Returns whether there is no such folder.
fn is_missing(fault: Option<Cause>) -> bool
    ensures { result ≡ is_missing fault }
{
    matches!(fault, Some(Cause::Missing | Cause::NoFolder))
}

/// Returns why no supervisor responds, in words.
fn absence_words(absence: Absence) -> &'static str
    ensures { result.now ≡ absence_words absence }
{
    match absence {
        Absence::NoFolder => " is not supervised: there is no such folder.",
        Absence::NoPermission => " can't be reached: no permission.",
        Absence::Unreachable => " can't be reached.",
        Absence::Nobody => " is not supervised: nothing accepts connections at its supervise/ok.",
    }
}

/// Returns a folder's name and what is said about it.
fn said<A: Allocator>(
    alloc: A,
    folder: &str,
    words: &str,
    more: &str,
    end: &str,
) -> Result<String<A>, AllocError>
    ensures { IfOk result (λ line. string_bytes line ≡ folder.now ++ words.now ++ more.now ++ end.now) }
{
    let mut line = String::from_str(alloc, folder)?;
    line.push_str(words)?;
    line.push_str(more)?;
    line.push_str(end)?;
    Ok(line)
}

/// Returns the line about what a look at the service in a folder found, without a newline.
pub fn found_line<A: Allocator>(
    alloc: A,
    folder: &str,
    found: &WhyFinding,
) -> Result<String<A>, AllocError>
    ensures { IfOk result (λ line. string_bytes line ≡ found_line folder.now found.now) }
{
    match found {
        WhyFinding::Absent(absence) => said(alloc, folder, absence_words(*absence), "", ""),
        WhyFinding::Unread => said(
            alloc,
            folder,
            " is supervised, but its status can't be read.",
            "",
            "",
        ),
        WhyFinding::Bad(fault) => said(
            alloc,
            folder,
            " is supervised, but its status is no record: ",
            fault_name(*fault),
            ".",
        ),
        WhyFinding::Standing(standing) => why_line(
            alloc,
            folder,
            &standing.loaded,
            standing.normally_up,
            standing.facts.as_ref(),
            standing.last.as_ref(),
            &standing.course,
            standing.course_time.as_str(),
            standing.time.as_str(),
            &standing.now,
        ),
    }
}

/// Writes spaces.
fn push_spaces<A: Allocator>(out: &mut String<A>, count: usize) -> Result<(), AllocError>
    ensures { OnOk result (string_bytes out.new ≡ string_bytes out.old ++ replicate count 32) }
{
    for _ in 0..count {
        out.push_str(" ")?;
    }
    Ok(())
}

/// Writes when a picture begins, and that it ends now.
#[tactic(auto, unfolding(crate::specs::Timeline::scale))]
fn push_scale<A: Allocator>(out: &mut String<A>, from: &str) -> Result<(), AllocError>
    ensures { OnOk result (string_bytes out.new ≡ string_bytes out.old ++ scale from.now) }
{
    out.push_str(from)?;
    push_spaces(out, (COLUMNS - 3).saturating_sub(from.len()))?;
    out.push_str("now")
}

/// Writes what is drawn.
fn push_drawing<A: Allocator>(out: &mut String<A>, drawing: &Drawing) -> Result<(), AllocError>
    ensures { OnOk result (string_bytes out.new ≡ string_bytes out.old ++ drawing_lines drawing.now) }
{
    match drawing {
        Drawing::Unasked => Ok(()),
        Drawing::Untraced => { out.push_str("No timeline: it has no trace that can be read.\n") }
        Drawing::Of(picture) => {
            out.push_str(picture.bar.as_str())?;
            out.push_str("\n")?;
            push_scale(out, picture.from.as_str())?;
            out.push_str("\n")
        }
    }
}

/// Writes what is drawn about what a look found.
fn push_drawing_in<A: Allocator>(out: &mut String<A>, found: &WhyFinding) -> Result<(), AllocError>
    ensures { OnOk result (string_bytes out.new ≡ string_bytes out.old ++ drawing_lines (drawing_in found.now)) }
{
    match found {
        WhyFinding::Standing(standing) => push_drawing(out, &standing.drawing),
        WhyFinding::Absent(_) | WhyFinding::Unread | WhyFinding::Bad(_) => Ok(()),
    }
}

/// Returns what follows the line about a look: its newline, and what is drawn, each line with its newline.
fn found_end<A: Allocator>(alloc: A, found: &WhyFinding) -> Result<String<A>, AllocError>
    ensures { IfOk result (λ end. string_bytes end ≡ (10 ∷ []) ++ drawing_lines (drawing_in found.now)) }
{
    let mut end = String::from_str(alloc, "\n")?;
    push_drawing_in(&mut end, found)?;
    Ok(end)
}

/// Returns the line about what a look at the service in a folder found, and after it what is drawn. Control characters
/// of the folder's name are escaped. Each line has its newline.
pub fn found_text<A: Allocator + Clone>(
    alloc: A,
    folder: &str,
    found: &WhyFinding,
) -> Result<Vec<u8, A>, AllocError>
    ensures { IfOk result (λ text. text.items ≡ found_text folder.now found.now) }
{
    let line = found_line(alloc.clone()?, folder, found)?;
    let mut text = shown(alloc.clone()?, line.as_bytes())?;
    let end = found_end(alloc, found)?;
    text.extend_from_slice(end.as_bytes())?;
    Ok(text)
}
