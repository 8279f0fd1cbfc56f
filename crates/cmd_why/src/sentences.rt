//! What is said about a service: sentences, each by a rule over its status record, its trace and the clock.
ghost use Rattle.std.specs.Prelude.{◌≡◌, ◌++◌, string_bytes, decimal, codes, IfOk, OnOk};
ghost use Rattle.cmd_svc.specs.Line.{note};
ghost use Rattle.cmd_why.specs.Sentences.{cause_sentence, count_sentence, count_words, end_text, ended_words};
ghost use Rattle.cmd_why.specs.Sentences.{end_opening, end_sentence, exit_words, how_words, is_before, led_sentences};
ghost use Rattle.cmd_why.specs.Sentences.{last_words, past_sentences, phase_text, process_text, starts_sentence};
ghost use Rattle.cmd_why.specs.Sentences.{unstarted_text};
ghost use Rattle.cmd_why.specs.Sentences.{side_text, signal_words, since_text, state_text, want_words, wanted_at};
ghost use Rattle.cmd_why.specs.Sentences.{end_words, phase_words, starts_opening, wanted_sentence, why_line};
ghost use Rattle.cmd_why.specs.Sentences.{sent_sentence};
ghost use Rattle.cmd_why.specs.Sentences.{ending_words, notes_text, signal_end, signal_text, standing_text};
ghost use Rattle.cmd_why.specs.Sentences.{tenths_text};
ghost use Rattle.std.specs.Option.{option_copied};

use crate::courses::push_course;
use crate::facts::{EndedProcess, FLAPPING, Facts, nanoseconds};
use crate::last_ends::{LastEnd, time_of_end};
use cmd_svc::{Course, is_running, normal_note, paused_note, push_number};
use std::alloc::{AllocError, Allocator};
use sup_core::{byte_text, sig_name, signal_of};
use svc_record::{Ending, Exit, signal_name};
use tai_status::{Label, Loaded, Phase, View, Want};

/// Returns the line about a service: first its state, from its record and the clock, and then, if there is a trace,
/// what that says.
///
/// The state:
///
/// - `DIR is up since TIME (S s), process N` if the record has a process, and otherwise `DIR is down since TIME (S s)`.
///   TIME is that of its label. S is the number of whole seconds from there to the clock, or 0 if it is still to come.
/// - `, being started`, `, settling after its start`, `, resting after a failed start` if a record of 20 bytes says so.
/// - `, paused` if it is paused.
/// - `, wanted up` if it is down, and is to be up. `, wanted down` or `, wanted once` if it is up, and is to be down,
///   or is not to be restarted.
/// - `, normally down` if it is up, and has a file `down`. `, normally up` if it is down, and has none.
/// - `, and supervise is gone`, `, and supervise is to end` if a record of 20 bytes says that it is exiting, in the
///   phase `gone` or in another one.
///
/// What was before. The trace leads to the record if the machine after its entries has the record's label and process
/// number. If it does, this sentence is for a service that is up:
///
/// - `It was sent SIGNAL (C).` if C is the last control byte with a signal after the last start.
///
/// These are for a service that is down:
///
/// - `It was brought down (d).` or `It was to run once (o).` if that is the last of `u`, `d` and `o` between the start
///   and the death of the last process that ended, and the trace has that death.
///
/// The last end of a process is the later of the last death in the trace and the end in the file `exit`
/// ([`last_end`](crate::last_end)):
///
/// - `Process N ran S s and ended.` if the trace has it. `Process N ended.` if only the file `exit` has it.
/// - `Before it process N ..` if the service is up, and the end is no later than the record.
///
/// It ended ` with status S` or ` by SIGNAL` if the file `exit` says so about that process. It ended ` after SIGNAL
/// (C)` if C is the last control byte with a signal between its start and its death, and ` without a control byte` if
/// the trace has its start and no control byte between them.
///
/// These are for a service that is down, if the trace leads to the record:
///
/// - `Its last start failed.` if no start is known after the last one that failed.
/// - `It has not run since supervise began.` if nothing was folded, there is no process before the entries, and no
///   start among them.
///
/// - `It has been ready since TIME.` if its process said so;
/// - `Its finish runs.` if the file `exit` says that its process has ended, and it has a `finish`;
/// - `Its processes end too often: the next start waits until TIME.` if it does.
///
/// Starts come last:
///
/// - `N starts in the last 60 s.` if that many entries, at least one, are starts with labels in the 60 seconds before
///   the clock reading.
/// - `It is flapping: N starts in the last 60 s.` if five or more of them came with no control byte since the start
///   before.
/// - `at least N` if the trace does not lead to the record, or its entries do not reach back 60 seconds.
///
/// Returns `AllocError` only if the allocator refuses the memory for the line.
pub fn why_line<A: Allocator>(
    alloc: A,
    dir: &str,
    loaded: &Loaded,
    normally_up: bool,
    facts: Option<&Facts>,
    last: Option<&LastEnd>,
    course: &Course,
    course_time: &str,
    time: &str,
    now: &Label,
) -> Result<String<A>, AllocError>
    ensures { IfOk result (λ line. string_bytes line
        ≡ why_line dir.now loaded.now normally_up (option_copied facts.entry) (option_copied last.entry)
        course.now course_time.now time.now now.now) }
{
    let view = loaded.view();
    let mut line = String::from_str(alloc, dir)?;
    push_state(&mut line, loaded, normally_up, time, now)?;
    push_past(&mut line, &view, facts, last)?;
    push_course(&mut line, course, course_time)?;
    push_traced_starts(&mut line, facts)?;
    Ok(line)
}

/// Writes the state of a service.
fn push_state<A: Allocator>(
    out: &mut String<A>,
    loaded: &Loaded,
    normally_up: bool,
    time: &str,
    now: &Label,
) -> Result<(), AllocError>
    ensures { OnOk result (string_bytes out.new
        ≡ string_bytes out.old ++ state_text loaded.now normally_up time.now now.now) }
{
    let view = loaded.view();
    push_side(out, &view, time, now)?;
    out.push_str(phase_text(loaded))?;
    push_notes(out, &view, normally_up)?;
    out.push_str(end_text(loaded))?;
    out.push_str(".")
}

/// Writes whether a service is up, since when, and with which process.
#[tactic(auto, unfolding(crate::specs::Sentences::standing_text))]
fn push_side<A: Allocator>(
    out: &mut String<A>,
    view: &View,
    time: &str,
    now: &Label,
) -> Result<(), AllocError>
    ensures { OnOk result (string_bytes out.new
        ≡ string_bytes out.old ++ standing_text view.now time.now now.now) }
{
    out.push_str(" is ")?;
    out.push_str(side_text(view))?;
    push_since(out, time, view, now)?;
    push_process(out, view)
}

/// Writes what is not as it should be.
#[tactic(auto, unfolding(crate::specs::Sentences::notes_text))]
fn push_notes<A: Allocator>(
    out: &mut String<A>,
    view: &View,
    normally_up: bool,
) -> Result<(), AllocError>
    ensures { OnOk result (string_bytes out.new ≡ string_bytes out.old ++ notes_text view.now normally_up) }
{
    push_three(
        out,
        paused_note(view),
        want_words(is_running(view), view.want),
        normal_note(view, normally_up),
    )
}

/// Returns whether a service is up, in a word.
#[tactic(auto, unfolding(crate::specs::Sentences::side_text))]
fn side_text(view: &View) -> &'static str
    ensures { result.now ≡ side_text view.now }
{
    if is_running(view) { "up" } else { "down" }
}

/// Writes since when it has been in this state.
#[tactic(auto, unfolding(crate::specs::Sentences::since_text))]
fn push_since<A: Allocator>(
    out: &mut String<A>,
    time: &str,
    view: &View,
    now: &Label,
) -> Result<(), AllocError>
    ensures { OnOk result (string_bytes out.new ≡ string_bytes out.old ++ since_text time.now view.now now.now) }
{
    let seconds = now.sec.saturating_sub(view.label.sec);
    out.push_str(" since ")?;
    out.push_str(time)?;
    out.push_str(" (")?;
    push_number(out, u128::from(seconds))?;
    out.push_str(" s)")
}

/// Writes its process.
#[tactic(auto, unfolding(crate::specs::Sentences::process_text))]
fn push_process<A: Allocator>(out: &mut String<A>, view: &View) -> Result<(), AllocError>
    ensures { OnOk result (string_bytes out.new ≡ string_bytes out.old ++ process_text view.now) }
{
    if !is_running(view) {
        return Ok(());
    }
    out.push_str(", process ")?;
    push_number(out, u128::from(view.pid))
}

/// Returns the phase of supervise, in words.
fn phase_words(phase: Phase) -> &'static str
    ensures { result.now ≡ phase_words phase }
{
    match phase {
        Phase::Starting => ", being started",
        Phase::Settling => ", settling after its start",
        Phase::Resting => ", resting after a failed start",
        Phase::Up | Phase::Down | Phase::Gone => "",
    }
}

/// Returns the phase of supervise, in words, if a record says it.
#[tactic(auto, unfolding(crate::specs::Sentences::phase_text))]
fn phase_text(loaded: &Loaded) -> &'static str
    ensures { result.now ≡ phase_text loaded.now }
{
    match loaded {
        Loaded::Old(_) => "",
        Loaded::New(full) => phase_words(full.phase),
    }
}

/// Returns what is wanted, in words, if that is not the present state.
#[tactic(auto, unfolding(crate::specs::Sentences::want_words))]
fn want_words(running: bool, want: Want) -> &'static str
    ensures { result.now ≡ want_words running want }
{
    match (running, want) {
        (false, Want::Up) => ", wanted up",
        (true, Want::Down) => ", wanted down",
        (true, Want::Once) => ", wanted once",
        _ => "",
    }
}

/// Returns the words that say whether supervise ends.
#[tactic(auto, unfolding(crate::specs::Sentences::end_text))]
fn end_text(loaded: &Loaded) -> &'static str
    ensures { result.now ≡ end_text loaded.now }
{
    match loaded {
        Loaded::New(full) if full.exiting => end_words(full.phase),
        _ => "",
    }
}

/// Returns the words that say that supervise ends, by its phase.
fn end_words(phase: Phase) -> &'static str
    ensures { result.now ≡ end_words phase }
{
    match phase {
        Phase::Gone => ", and supervise is gone",
        _ => ", and supervise is to end",
    }
}

/// Writes the first signal of a control byte that has one, and the byte.
#[tactic(auto, unfolding(crate::specs::Sentences::signal_words))]
fn push_signal_words<A: Allocator>(out: &mut String<A>, byte: u8) -> Result<(), AllocError>
    ensures { OnOk result (string_bytes out.new ≡ string_bytes out.old ++ signal_words byte) }
{
    match signal_of(byte) {
        Some(sig) => {
            push_three(out, sig_name(sig), " (", byte_text(byte).as_str())?;
            out.push_str(")")
        }
        None => Ok(()),
    }
}

/// Writes how a process ended.
#[tactic(auto, unfolding(crate::specs::Sentences::how_words))]
fn push_how<A: Allocator>(
    out: &mut String<A>,
    sent: Option<u8>,
    unasked: bool,
) -> Result<(), AllocError>
    ensures { OnOk result (string_bytes out.new ≡ string_bytes out.old ++ how_words sent unasked) }
{
    match sent {
        Some(byte) => {
            out.push_str(" after ")?;
            push_signal_words(out, byte)
        }
        None => out.push_str(unasked_text(unasked)),
    }
}

/// Returns the words that say whether a process ended without a control byte.
fn unasked_text(unasked: bool) -> &'static str
    ensures { result.now ≡ note unasked (codes " without a control byte") }
{
    if unasked {
        " without a control byte"
    } else {
        ""
    }
}

/// Writes a signal: its name, or its number if it has no name.
#[tactic(auto, unfolding(crate::specs::Sentences::signal_text))]
fn push_signal_text<A: Allocator>(out: &mut String<A>, number: u8) -> Result<(), AllocError>
    ensures { OnOk result (string_bytes out.new ≡ string_bytes out.old ++ signal_text number) }
{
    match signal_name(number) {
        "" => {
            out.push_str("signal ")?;
            push_number(out, u128::from(number))
        }
        name => {
            out.push_str("SIG")?;
            out.push_str(name)
        }
    }
}

/// Writes the exit status of a process.
fn push_status<A: Allocator>(out: &mut String<A>, code: u8) -> Result<(), AllocError>
    ensures { OnOk result (string_bytes out.new ≡ string_bytes out.old ++ codes " with status " ++ decimal code) }
{
    out.push_str(" with status ")?;
    push_number(out, u128::from(code))
}

/// Writes the exit status of a process, or the signal by which it ended, if that is known.
#[tactic(auto, unfolding(crate::specs::Sentences::ending_words))]
fn push_ending<A: Allocator>(out: &mut String<A>, ending: Option<Ending>) -> Result<(), AllocError>
    ensures { OnOk result (string_bytes out.new ≡ string_bytes out.old ++ ending_words ending) }
{
    match ending {
        Some(Ending::Status(code)) => push_status(out, code),
        Some(Ending::Signal(number)) => {
            out.push_str(" by ")?;
            push_signal_text(out, number)
        }
        Some(Ending::Unknown) | None => Ok(()),
    }
}

/// Writes which process ended, how long it ran, and how it ended.
fn push_ended<A: Allocator>(
    out: &mut String<A>,
    ended: &EndedProcess,
    ending: Option<Ending>,
) -> Result<(), AllocError>
    ensures { OnOk result (string_bytes out.new ≡ string_bytes out.old ++ ended_words ended.now ending) }
{
    push_number(out, u128::from(ended.pid))?;
    out.push_str(" ran ")?;
    push_tenths(out, ended.tenths)?;
    out.push_str(" s and ended")?;
    push_ending(out, ending)?;
    push_how(out, ended.sent, ended.unasked)?;
    out.push_str(".")
}

/// Writes tenths of a second as seconds.
#[tactic(auto, unfolding(crate::specs::Sentences::tenths_text))]
fn push_tenths<A: Allocator>(out: &mut String<A>, tenths: u128) -> Result<(), AllocError>
    ensures { OnOk result (string_bytes out.new ≡ string_bytes out.old ++ tenths_text tenths) }
{
    push_number(out, tenths / 10)?;
    out.push_str(".")?;
    push_number(out, tenths % 10)
}

/// Writes three texts, one after the other.
fn push_three<A: Allocator>(
    out: &mut String<A>,
    first: &str,
    second: &str,
    third: &str,
) -> Result<(), AllocError>
    ensures { OnOk result (string_bytes out.new ≡ string_bytes out.old ++ first.now ++ second.now ++ third.now) }
{
    out.push_str(first)?;
    out.push_str(second)?;
    out.push_str(third)
}

/// Writes the first signal of a control byte, and the byte, at the end of a sentence.
#[tactic(auto, unfolding(crate::specs::Sentences::signal_end))]
fn push_signal<A: Allocator>(out: &mut String<A>, byte: u8) -> Result<(), AllocError>
    ensures { OnOk result (string_bytes out.new ≡ string_bytes out.old ++ signal_end byte) }
{
    push_signal_words(out, byte)?;
    out.push_str(".")
}

/// Writes the last signal that was sent to a process since its start.
fn push_sent<A: Allocator>(out: &mut String<A>, sent: Option<u8>) -> Result<(), AllocError>
    ensures { OnOk result (string_bytes out.new ≡ string_bytes out.old ++ sent_sentence sent) }
{
    match sent {
        Some(byte) => {
            out.push_str(" It was sent ")?;
            push_signal(out, byte)
        }
        None => Ok(()),
    }
}

/// Writes which process ended, and how, if only the file `exit` says so.
fn push_exit<A: Allocator>(out: &mut String<A>, exit: &Exit) -> Result<(), AllocError>
    ensures { OnOk result (string_bytes out.new ≡ string_bytes out.old ++ exit_words exit.now) }
{
    push_number(out, u128::from(exit.pid))?;
    out.push_str(" ended")?;
    push_ending(out, Some(exit.ending))?;
    out.push_str(".")
}

/// Writes which process was the last to end, and how.
fn push_last_words<A: Allocator>(out: &mut String<A>, end: &LastEnd) -> Result<(), AllocError>
    ensures { OnOk result (string_bytes out.new ≡ string_bytes out.old ++ last_words end.now) }
{
    match end {
        LastEnd::Traced(ended, ending) => push_ended(out, ended, *ending),
        LastEnd::Recorded(exit) => push_exit(out, exit),
    }
}

/// Returns whether an end was before the running process began.
fn is_before(status: &View, end: &LastEnd) -> bool
    ensures { result ≡ is_before status.now end.now }
{
    is_running(status) && nanoseconds(&time_of_end(end)) <= nanoseconds(&status.label)
}

/// Returns how the sentence about the last end begins.
fn end_opening(before: bool) -> &'static str
    ensures { result.now ≡ end_opening before }
{
    if before {
        " Before it process "
    } else {
        " Process "
    }
}

/// Writes about the last end of a process, if there is one.
fn push_end<A: Allocator>(
    out: &mut String<A>,
    status: &View,
    last: Option<&LastEnd>,
) -> Result<(), AllocError>
    ensures { OnOk result (string_bytes out.new
        ≡ string_bytes out.old ++ end_sentence status.now (option_copied last.entry)) }
{
    match last {
        Some(end) => {
            out.push_str(end_opening(is_before(status, end)))?;
            push_last_words(out, end)
        }
        None => Ok(()),
    }
}

/// Returns why a service is down, if a control byte says it.
fn wanted_sentence(wanted: Option<u8>) -> &'static str
    ensures { result.now ≡ wanted_sentence wanted }
{
    match wanted {
        Some(b'd') => " It was brought down (d).",
        Some(b'o') => " It was to run once (o).",
        _ => "",
    }
}

/// Returns the control byte that says why a service is down, if the trace has the last end.
fn wanted_at(last: Option<&LastEnd>) -> Option<u8>
    ensures { result ≡ wanted_at (option_copied last.entry) }
{
    match last {
        Some(LastEnd::Traced(ended, _)) => ended.wanted,
        _ => None,
    }
}

/// Returns the words that say whether the last start failed.
fn failed_text(failed: bool) -> &'static str
    ensures { result.now ≡ note failed (codes " Its last start failed.") }
{
    if failed {
        " Its last start failed."
    } else {
        ""
    }
}

/// Returns the words that say whether no process has run.
fn unrun_text(unrun: bool) -> &'static str
    ensures { result.now ≡ note unrun (codes " It has not run since supervise began.") }
{
    if unrun {
        " It has not run since supervise began."
    } else {
        ""
    }
}

/// Writes the signal that was sent to the running process, or why the service is down.
fn push_cause<A: Allocator>(
    out: &mut String<A>,
    running: bool,
    facts: &Facts,
    last: Option<&LastEnd>,
) -> Result<(), AllocError>
    ensures { OnOk result (string_bytes out.new
        ≡ string_bytes out.old ++ cause_sentence running facts.now (option_copied last.entry)) }
{
    if running {
        return push_sent(out, facts.sent);
    }
    out.push_str(wanted_sentence(wanted_at(last)))
}

/// Writes about starts that made no process.
fn push_unstarted<A: Allocator>(
    out: &mut String<A>,
    running: bool,
    facts: &Facts,
) -> Result<(), AllocError>
    ensures { OnOk result (string_bytes out.new ≡ string_bytes out.old ++ unstarted_text running facts.now) }
{
    out.push_str(failed_text(!running && facts.failed))?;
    out.push_str(unrun_text(!running && facts.unrun))
}

/// Writes about the past, from a trace that leads to the record.
fn push_led<A: Allocator>(
    out: &mut String<A>,
    status: &View,
    facts: &Facts,
    last: Option<&LastEnd>,
) -> Result<(), AllocError>
    ensures { OnOk result (string_bytes out.new
        ≡ string_bytes out.old ++ led_sentences status.now facts.now (option_copied last.entry)) }
{
    let running = is_running(status);
    push_cause(out, running, facts, last)?;
    push_end(out, status, last)?;
    push_unstarted(out, running, facts)
}

/// Writes about the past.
fn push_past<A: Allocator>(
    out: &mut String<A>,
    status: &View,
    facts: Option<&Facts>,
    last: Option<&LastEnd>,
) -> Result<(), AllocError>
    ensures { OnOk result (string_bytes out.new
        ≡ string_bytes out.old ++ past_sentences status.now (option_copied facts.entry) (option_copied last.entry)) }
{
    match facts {
        Some(facts) if facts.leads => push_led(out, status, facts, last),
        _ => push_end(out, status, last),
    }
}

/// Writes how many starts there were.
fn push_count<A: Allocator>(out: &mut String<A>, starts: u64) -> Result<(), AllocError>
    ensures { OnOk result (string_bytes out.new ≡ string_bytes out.old ++ count_words starts) }
{
    push_number(out, u128::from(starts))?;
    out.push_str(if starts == 1 { " start" } else { " starts" })?;
    out.push_str(" in the last 60 s.")
}

/// Writes what is said about starts.
fn push_starts<A: Allocator>(
    out: &mut String<A>,
    starts: u64,
    unasked: u64,
    all: bool,
) -> Result<(), AllocError>
    ensures { OnOk result (string_bytes out.new ≡ string_bytes out.old ++ count_sentence starts unasked all) }
{
    if starts == 0 {
        return Ok(());
    }
    out.push_str(starts_opening(unasked, all))?;
    push_count(out, starts)
}

/// Returns how the sentence about starts begins.
fn starts_opening(unasked: u64, all: bool) -> &'static str
    ensures { result.now ≡ starts_opening unasked all }
{
    match (unasked >= FLAPPING, all) {
        (true, true) => " It is flapping: ",
        (true, false) => " It is flapping: at least ",
        (false, true) => " ",
        (false, false) => " At least ",
    }
}

/// Writes what the trace says about starts, if there is one.
fn push_traced_starts<A: Allocator>(
    out: &mut String<A>,
    facts: Option<&Facts>,
) -> Result<(), AllocError>
    ensures { OnOk result (string_bytes out.new
        ≡ string_bytes out.old ++ starts_sentence (option_copied facts.entry)) }
{
    match facts {
        Some(facts) => push_starts(
            out,
            facts.starts,
            facts.unasked,
            facts.leads && facts.reaches,
        ),
        None => Ok(()),
    }
}
