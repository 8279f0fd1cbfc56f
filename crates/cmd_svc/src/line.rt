ghost use Rattle.std.specs.Prelude.{◌≡◌, ◌++◌, string_bytes, decimal, codes, IfOk, OnOk};
ghost use Rattle.svc_record.specs.Opening.{exiting_in};
ghost use Rattle.cmd_svc.specs.Line.{status_line, is_running, state_text, normal_notes, phase_notes};
ghost use Rattle.cmd_svc.specs.Line.{want_notes, wants_up, note};

use crate::course::{Course, push_course};
use itoa::Buffer;
use std::alloc::{AllocError, Allocator};
use tai_status::{Label, Loaded, Phase, View, Want};

/// Returns the line about the state of the service in a folder: `DIR: up (pid N) S seconds` or `DIR: down S seconds`. S
/// is the number of whole seconds since its last change of process, or 0 if that is still to come. After it come notes
/// on what is not as it should be:
///
/// - `, normally down` if it runs, and is not normally up;
/// - `, normally up` if it does not run, and is normally up;
/// - `, paused` if it is paused;
/// - `, want up` if it does not run, and is to be up;
/// - `, want down` if it runs, and is to be down;
/// - `, starting`, `, settling`, `, resting` or `, gone` if a record of 20 bytes says that supervise is in this phase;
/// - `, exiting` if a record of 20 bytes says that supervise is to end;
/// - `, ready N seconds` if its process said so, N whole seconds ago;
/// - `, finishing` if its process has ended, and its `finish` runs;
/// - `, backoff N seconds` if its processes end too often, and the next start waits for so long.
///
/// It runs if its process number is at least 1. The line has no newline. Returns `AllocError` only if the allocator
/// refuses the memory for the line.
pub fn stat_line<A: Allocator>(
    alloc: A,
    dir: &str,
    loaded: &Loaded,
    normally_up: bool,
    now: &Label,
    course: &Course,
) -> Result<String<A>, AllocError>
    ensures { IfOk result (λ line. string_bytes line
        ≡ status_line dir.now loaded.now normally_up now.now course.now) }
{
    let view = loaded.view();
    let seconds = now.sec.saturating_sub(view.label.sec);
    let mut line = String::from_str(alloc, dir)?;
    line.push_str(": ")?;
    push_state(&mut line, &view)?;
    line.push_str(" ")?;
    push_number(&mut line, u128::from(seconds))?;
    line.push_str(" seconds")?;
    line.push_str(normal_note(&view, normally_up))?;
    line.push_str(paused_note(&view))?;
    line.push_str(want_note(&view))?;
    line.push_str(phase_note(loaded))?;
    line.push_str(exiting_note(loaded))?;
    push_course(&mut line, course, now)?;
    Ok(line)
}

/// Returns whether a service runs.
pub fn is_running(view: &View) -> bool
    ensures { result ≡ is_running view.now }
{
    view.pid >= 1
}

/// Returns whether a process is wanted all the time.
pub fn wants_up(want: Want) -> bool
    ensures { result ≡ wants_up want }
{
    match want {
        Want::Up => true,
        Want::Down | Want::Once => false,
    }
}

/// Writes a number at the end of a text.
pub fn push_number<A: Allocator>(out: &mut String<A>, number: u128) -> Result<(), AllocError>
    ensures { OnOk result (string_bytes out.new ≡ string_bytes out.old ++ decimal number) }
{
    let mut buffer = Buffer::new();
    out.push_str(buffer.format(number))
}

/// Writes whether a service is up, and its process number, at the end of a text.
fn push_state<A: Allocator>(out: &mut String<A>, view: &View) -> Result<(), AllocError>
    ensures { OnOk result (string_bytes out.new ≡ string_bytes out.old ++ state_text view.now) }
{
    if !is_running(view) {
        return out.push_str("down");
    }
    out.push_str("up (pid ")?;
    push_number(out, u128::from(view.pid))?;
    out.push_str(")")
}

/// Returns the note for a service that is not as it normally is.
pub fn normal_note(view: &View, normally_up: bool) -> &'static str
    ensures { result.now ≡ normal_notes view.now normally_up }
{
    match (is_running(view), normally_up) {
        (true, false) => ", normally down",
        (false, true) => ", normally up",
        _ => "",
    }
}

/// Returns the note for a service that is paused.
pub fn paused_note(view: &View) -> &'static str
    ensures { result.now ≡ note view.now.paused (codes ", paused") }
{
    if view.paused { ", paused" } else { "" }
}

/// Returns the note for a service that is not as it is wanted.
fn want_note(view: &View) -> &'static str
    ensures { result.now ≡ want_notes view.now }
{
    match (is_running(view), view.want) {
        (false, Want::Up) => ", want up",
        (true, Want::Down) => ", want down",
        _ => "",
    }
}

/// Returns the note for a phase that does not show from the process.
fn phase_note(loaded: &Loaded) -> &'static str
    ensures { result.now ≡ phase_notes loaded.now }
{
    match loaded {
        Loaded::Old(_) => "",
        Loaded::New(full) => match full.phase {
            Phase::Starting => ", starting",
            Phase::Settling => ", settling",
            Phase::Resting => ", resting",
            Phase::Gone => ", gone",
            Phase::Up | Phase::Down => "",
        },
    }
}

/// Returns the note for a supervise that is to end.
fn exiting_note(loaded: &Loaded) -> &'static str
    ensures { result.now ≡ note (exiting_in loaded.now) (codes ", exiting") }
{
    match loaded {
        Loaded::New(full) if full.exiting => ", exiting",
        _ => "",
    }
}
