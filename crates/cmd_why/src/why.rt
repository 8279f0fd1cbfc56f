//! The command `why`.
ghost use Rattle.std.specs.Prelude.{◌≡◌, false, if◌then◌else◌, OnOk, OnErr, IfOk, IfErr};
ghost use Rattle.std.specs.Option.{option_copied};
ghost use Rattle.std.specs.Prelude.{option_map};
ghost use Rattle.tai_status.specs.Counted.{Reports, Wrote, Works};
ghost use Rattle.tai_status.specs.Words.{texts};
ghost use Rattle.cmd_why.specs.Facts.{facts_of};
ghost use Rattle.cmd_why.specs.Why.{found_text, is_unread, why_report, FindsStanding, IsDrawing};
ghost use Rattle.cmd_why.specs.Why.{IsPicture, IsTraceOf, Looks, LooksInPart, MayReadExit, Reaches, ReadsExit};
ghost use Rattle.cmd_why.specs.Why.{ShowEnds};
ghost use Rattle.cmd_why.specs.Why.{ShowsEach, ShowsNot};
ghost use Rattle.cmd_why.specs.Why.{ShowsOne, ShowsUpTo, WhyEnds, WritesNot};

use crate::courses::time_of_course;
use crate::facts::{Facts, facts_of, leads_to};
use crate::last_ends::last_end;
use crate::lines::{Absence, Drawing, Picture, Standing, WhyFinding, absence_of, found_text};
use crate::sources::Evidence;
use crate::timeline::{bar_of, left_end};
use cmd_base::{DONE, TROUBLE, report, report_device};
use cmd_svc::{Course, ask_course, tell_missing};
use std::alloc::{AllocError, Allocator};
use std::io::{ErrorKind, Write};
use sup_trace::{TraceFaultKind, TraceText, read_text};
use svc_client::{Notice, Observer, Services};
use svc_record::Exit;
use tai_status::{Label, Loaded, Output, RecordFault, TimeSource, View, decode_front};

/// Why the text of a service is not written.
#[derive(Clone, Copy, Debug, PartialEq, Eq)]
pub enum WhyFault {
    /// There is no memory for it, or for the trace.
    OutOfMemory,
    /// The writer failed.
    Write,
}

/// The result of the calls for a service.
#[derive(Clone, Copy, Debug, PartialEq, Eq)]
pub(crate) enum ReachOutcome {
    /// No supervisor responds for it.
    Absent(Absence),
    /// Its status can't be read.
    Unread,
    /// Its status is not a record.
    Bad(RecordFault),
    /// Its status; whether it is normally up; and what it does that its status does not say.
    Standing(Loaded, bool, Course),
}

/// Asks the service in a folder whether it is supervised, then for its status, then for its file `down`, then for
/// what it does that its status does not say. The first of these that fails ends that.
fn reach_service<S: Services>(services: &mut S, folder: &str) -> ReachOutcome
    ensures { Reaches folder.now result (S.calls services.old) (S.calls services.new) }
{
    if let Err(why) = services.reach(folder) {
        return ReachOutcome::Absent(absence_of(why, services.folder_fault(folder)));
    }
    let Ok(front) = services.read_status(folder) else {
        return ReachOutcome::Unread;
    };
    match decode_front(front.as_slice()) {
        Ok(loaded) => {
            let normally_up = !services.has_down(folder);
            ReachOutcome::Standing(loaded, normally_up, ask_course(services, folder, &loaded))
        }
        Err(fault) => ReachOutcome::Bad(fault),
    }
}

/// Returns the trace of the service in a folder, if there is a readable one.
pub fn read_content<A: Allocator + Clone, K: Evidence>(
    alloc: &A,
    sources: &K,
    folder: &str,
) -> Result<Option<TraceText<A>>, AllocError>
    ensures { IfOk result (λ content. IsTraceOf ((K.known sources.now).traces folder.now) content) }
{
    match sources.read_trace(alloc.clone()?, folder) {
        Ok(text) => match read_text(alloc.clone()?, &text) {
            Ok(content) => Ok(Some(content)),
            Err(fault) if fault.kind == TraceFaultKind::OutOfMemory => Err(AllocError),
            Err(_) => Ok(None),
        },
        Err(fault) if fault.kind() == ErrorKind::OutOfMemory => Err(AllocError),
        Err(_) => Ok(None),
    }
}

/// Returns what a trace says, if there is one.
fn facts_in<A: Allocator>(
    content: Option<&TraceText<A>>,
    status: &View,
    now: &Label,
) -> Option<Facts>
    ensures { result ≡ option_map (λ content. facts_of content status.now now.now) (option_copied content.entry) }
{
    match content {
        Some(content) => Some(facts_of(content, status, now)),
        None => None,
    }
}

/// Reads what the file `exit` of the service in a folder says, if it can be read.
pub fn read_exit<S: Services>(services: &mut S, folder: &str) -> Option<Exit>
    ensures { ReadsExit folder.now result (S.calls services.old) (S.calls services.new) }
{
    match services.read_notice(folder, Notice::Exit) {
        Some(text) => svc_record::read_exit(text.as_slice()),
        None => None,
    }
}

/// Returns the picture of a trace for a record, and the local time of its left end.
fn picture<A: Allocator + Clone, K: Evidence>(
    alloc: &A,
    sources: &K,
    content: &TraceText<A>,
    status: &View,
    now: &Label,
) -> Result<Picture, AllocError>
    ensures { IfOk result (λ picture. IsPicture (K.known sources.now).times content.now status.now now.now picture) }
{
    let leads = leads_to(content, status);
    Ok(Picture {
        bar: bar_of(alloc.clone()?, content, leads, now)?,
        from: sources.local_time(&left_end(content, now)),
    })
}

/// Returns what is drawn about a trace, if a timeline is asked for.
fn draw<A: Allocator + Clone, K: Evidence>(
    alloc: &A,
    sources: &K,
    timeline: bool,
    content: Option<&TraceText<A>>,
    status: &View,
    now: &Label,
) -> Result<Drawing, AllocError>
    ensures { IfOk result (λ drawing.
        IsDrawing (K.known sources.now).times timeline (option_copied content.entry) status.now now.now drawing) }
{
    if !timeline {
        return Ok(Drawing::Unasked);
    }
    let Some(content) = content else {
        return Ok(Drawing::Untraced);
    };
    Ok(Drawing::Of(picture(alloc, sources, content, status, now)?))
}

/// Returns the state of the service in a folder whose record says this.
fn stand<S: Services, A: Allocator + Clone, K: Evidence, C: TimeSource>(
    alloc: &A,
    timeline: bool,
    observer: &mut Observer<S, C>,
    sources: &K,
    folder: &str,
    loaded: Loaded,
    normally_up: bool,
    course: Course,
) -> Result<Standing, AllocError>
    ensures ok { IfOk result (FindsStanding (K.known sources.now) timeline folder.now loaded normally_up course
        observer.old observer.new) }
    ensures err { OnErr result (MayReadExit folder.now observer.old.calls observer.new.calls) }
{
    let content = read_content(alloc, sources, folder)?;
    let now = observer.clock.now();
    let status = loaded.view();
    let facts = facts_in(content.as_ref(), &status, &now);
    let last = last_end(facts.as_ref(), read_exit(&mut observer.services, folder));
    let drawing = draw(alloc, sources, timeline, content.as_ref(), &status, &now)?;
    Ok(Standing {
        loaded,
        normally_up,
        facts,
        last,
        course,
        course_time: sources.local_time(&time_of_course(&course, &status.label)),
        time: sources.local_time(&status.label),
        now,
        drawing,
    })
}

/// Asks the service in a folder, and returns what is found.
fn look<S: Services, A: Allocator + Clone, K: Evidence, C: TimeSource>(
    alloc: &A,
    timeline: bool,
    observer: &mut Observer<S, C>,
    sources: &K,
    folder: &str,
) -> Result<WhyFinding, AllocError>
    ensures ok { IfOk result (λ found.
        Looks (K.known sources.now) timeline folder.now found observer.old observer.new) }
    ensures err { OnErr result (LooksInPart folder.now observer.old observer.new) }
{
    match reach_service(&mut observer.services, folder) {
        ReachOutcome::Absent(absence) => Ok(WhyFinding::Absent(absence)),
        ReachOutcome::Unread => Ok(WhyFinding::Unread),
        ReachOutcome::Bad(fault) => Ok(WhyFinding::Bad(fault)),
        ReachOutcome::Standing(loaded, normally_up, course) => Ok(WhyFinding::Standing(stand(
            alloc,
            timeline,
            observer,
            sources,
            folder,
            loaded,
            normally_up,
            course,
        )?)),
    }
}

/// Returns whether a service could not be read.
fn is_unread(found: &WhyFinding) -> bool
    ensures { result ≡ is_unread found.now }
{
    match found {
        WhyFinding::Absent(absence) => *absence != Absence::Nobody,
        WhyFinding::Unread | WhyFinding::Bad(_) => true,
        WhyFinding::Standing(_) => false,
    }
}

/// Writes the text about what a look at the service in a folder found.
fn write_text<A: Allocator + Clone, W: Write>(
    alloc: &A,
    folder: &str,
    found: &WhyFinding,
    writer: &mut Output<W>,
) -> Result<(), WhyFault>
    ensures ok { OnOk result (Wrote writer.old writer.new (found_text folder.now found.now)) }
    ensures works { OnOk result (Works writer.old writer.new) }
    ensures err { IfErr result (λ cause.
        WritesNot cause (found_text folder.now found.now) writer.old writer.new) }
{
    let Ok(alloc) = alloc.clone() else {
        return Err(WhyFault::OutOfMemory);
    };
    let Ok(text) = found_text(alloc, folder, found) else {
        return Err(WhyFault::OutOfMemory);
    };
    match writer.write_all(&text) {
        Ok(()) => Ok(()),
        Err(_) => Err(WhyFault::Write),
    }
}

/// Looks at the service in a folder, and writes the text about that. Returns whether some service could not be read,
/// this one or one before it.
fn show<S, K, A, W, C>(
    alloc: &A,
    timeline: bool,
    observer: &mut Observer<S, C>,
    sources: &K,
    folder: &str,
    unread: bool,
    writer: &mut Output<W>,
) -> Result<bool, WhyFault>
where
    S: Services,
    K: Evidence,
    A: Allocator + Clone,
    W: Write,
    C: TimeSource,
    ensures ok { IfOk result (ShowsOne (K.known sources.now) timeline folder.now
        observer.old observer.new writer.old writer.new unread) }
    ensures err { IfErr result (ShowsNot (K.known sources.now) timeline folder.now
        observer.old observer.new writer.old writer.new unread) }
{
    let Ok(found) = look(alloc, timeline, observer, sources, folder) else {
        return Err(WhyFault::OutOfMemory);
    };
    write_text(alloc, folder, &found, writer)?;
    Ok(unread || is_unread(&found))
}

/// Shows the services in folders, one after the other, up to the first one whose text can't be written. Returns whether
/// some service could not be read.
fn show_all<S, K, A, W, C>(
    alloc: &A,
    timeline: bool,
    observer: &mut Observer<S, C>,
    sources: &K,
    folders: &[&str],
    writer: &mut Output<W>,
) -> Result<bool, WhyFault>
where
    S: Services,
    K: Evidence,
    A: Allocator + Clone,
    W: Write,
    C: TimeSource,
    ensures ok { IfOk result (ShowsEach (K.known sources.now) timeline (texts folders.now)
        observer.old observer.new writer.old writer.new) }
    ensures err { IfErr result (ShowsUpTo (K.known sources.now) timeline (texts folders.now)
        observer.old observer.new writer.old writer.new) }
{
    let mut unread = false;
    for folder in folders {
        unread = show(alloc, timeline, observer, sources, folder, unread, writer)?;
    }
    Ok(unread)
}

/// Reports why the text of a service is not written, and returns the exit status for that. If the writer failed, the
/// line names the cause of its last fault.
fn report_fault<W: Write, E: Write>(
    fault: WhyFault,
    writer: &Output<W>,
    faults: &mut Output<E>,
) -> u8
    ensures status { result ≡ 111 }
    ensures reported { Reports faults.old faults.new (why_report fault writer.now) }
{
    match fault {
        WhyFault::OutOfMemory => report(faults, b"why: OutOfMemory\n", TROUBLE),
        WhyFault::Write => report_device(faults, b"why: ", b"write fault", writer.cause()),
    }
}

/// Returns the exit status after services were shown.
fn shown_status(unread: bool) -> u8
    ensures { result ≡ (if unread then 111 else 0) }
{
    if unread { TROUBLE } else { DONE }
}

/// Runs `why` over services, with or without timelines.
fn report_services<S, K, A, W, E, C>(
    alloc: A,
    timeline: bool,
    observer: &mut Observer<S, C>,
    sources: &K,
    folders: &[&str],
    writer: &mut Output<W>,
    faults: &mut Output<E>,
) -> u8
where
    S: Services,
    K: Evidence,
    A: Allocator + Clone,
    W: Write,
    E: Write,
    C: TimeSource,
    ensures { ShowEnds (K.known sources.now) timeline (texts folders.now) result
        observer.old observer.new writer.old writer.new faults.old faults.new }
{
    match show_all(&alloc, timeline, observer, sources, folders, writer) {
        Ok(unread) => {
            tell_missing(&mut observer.services, b"why: ", folders, faults);
            shown_status(unread)
        }
        Err(fault) => report_fault(fault, writer, faults),
    }
}

/// The command `why`: writes one line for the service in each folder that its words name, in order. The line says in
/// plain words in which state the service is and why, as [`why_line`](crate::why_line) does. If no supervisor responds,
/// or the service can't be read, it says that. The service is looked at just before its line is written. First its
/// status is read, then its trace, then the clock, once, and then how its last process ended.
///
/// If the first word is `--timeline`, two more lines follow the line of each service that could be read. These are the
/// picture of its trace, as [`bar_of`] draws it, and a line with the local time at which that begins, with `now` at its
/// end. If it has no readable trace, one line says so instead.
///
/// Control characters of a folder's name are escaped. After the lines, it reports for each folder that does not exist
/// why.
///
/// Returns the exit status, usually 0. It is 111 if a service could not be read, which its line says. It is also 111
/// for a fault of the writer and for a lack of memory, and then the services after that one are not looked at.
pub fn run_why<S, K, A, W, E, C>(
    alloc: A,
    observer: &mut Observer<S, C>,
    sources: &K,
    words: &[&str],
    writer: &mut Output<W>,
    faults: &mut Output<E>,
) -> u8
where
    S: Services,
    K: Evidence,
    A: Allocator + Clone,
    W: Write,
    E: Write,
    C: TimeSource,
    ensures ends { WhyEnds (K.known sources.now) (texts words.now) result
        observer.old observer.new writer.old writer.new faults.old faults.new }
{
    match words {
        ["--timeline", folders @ ..] => {
            report_services(alloc, true, observer, sources, folders, writer, faults)
        }
        _ => report_services(alloc, false, observer, sources, words, writer, faults),
    }
}
