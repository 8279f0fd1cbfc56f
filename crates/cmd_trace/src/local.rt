//! What `trace --local` prints about a trace: local times in place of labels, and words in place of the digits of
//! records.
ghost use Rattle.std.specs.Prelude.{◌≡◌, ◌<◌, ◌++◌, ◌∷◌, [], decimal, IfOk, OnOk};
ghost use Rattle.cmd_base.specs.Printed.{printed};
ghost use Rattle.sup_core.specs.History.{History, state_of};
ghost use Rattle.sup_core.specs.Rules.{IsEvent, next};
ghost use Rattle.cmd_trace.specs.Local.{AddsEntry, answer_words, ask_words, asks_words, event_words, exiting_words};
ghost use Rattle.cmd_trace.specs.Local.{line_words, local_explanation, local_lines, local_state, paused_words};
ghost use Rattle.cmd_trace.specs.Local.{process_words, record_words, reply_words, time_words, want_words};

use cmd_local::{Zone, local_time, nine_digits};
use itoa::Buffer;
use std::alloc::{AllocError, Allocator};
use sup_core::{Ask, Event, Machine, Reply, event_text, phase_name, sig_name};
use sup_trace::{TraceText, replay};
use tai_status::{Label, Want, text};

/// Returns one line for each entry, and one about the machine after them, with local times: as `1 byte d: took
/// TERM:4711 CONT:4711 record (up 4711, wanted down, since 2026-11-25 01:33:02.123456789) -> up` and `state up (up
/// 4711, wanted down, since 2026-11-25 01:33:02.123456789)`.
///
/// A record is printed as the words `up PID` or `down`; `paused`, if its process is paused; `wanted up`, `wanted down`
/// or `wanted once`; `exiting`, if supervise is to end; and `since` with the last change of process. A label outside of
/// the years 1900 to 9999 is printed as its own text.
pub fn local_explanation<A: Allocator, B: Allocator, Z: Zone>(
    alloc: A,
    zone: &Z,
    content: &TraceText<B>,
) -> Result<Vec<u8, A>, AllocError>
    ensures { IfOk result (λ text. text.items ≡ local_explanation (Z.ahead_at zone.now) content.now) }
{
    let mut out = Vec::new(alloc);
    push_entries(&mut out, zone, content)?;
    push_state(&mut out, zone, &replay(content))?;
    Ok(out)
}

/// Writes one line for each entry at the end of a text.
fn push_entries<A: Allocator, B: Allocator, Z: Zone>(
    out: &mut Vec<u8, A>,
    zone: &Z,
    content: &TraceText<B>,
) -> Result<(), AllocError>
    ensures { OnOk result (out.new.items
        ≡ out.old.items ++ printed (local_lines (Z.ahead_at zone.now) content.now)) }
{
    let mut machine = content.base();
    for (place, event) in content.entries().iter().enumerate() {
        push_entry(out, zone, place as u64 + 1, &mut machine, event)?;
    }
    Ok(())
}

/// Writes the line of an entry, and lets the machine take its event.
fn push_entry<A: Allocator, Z: Zone>(
    out: &mut Vec<u8, A>,
    zone: &Z,
    number: u64,
    machine: &mut Machine,
    event: &Event,
) -> Result<(), AllocError>
    requires { IsEvent event.now }
    ensures line { AddsEntry result (Z.ahead_at zone.now) number machine.old event.now
        out.old.items out.new.items }
    ensures state { (past : History) → state_of past ≡ machine.old → machine.new ≡ state_of (next past event.now) }
{
    let reply = machine.step(*event);
    push_line(out, zone, number, event, machine, &reply)
}

/// Writes the line of an entry: what happened, what was answered, and the phase after it.
#[tactic(auto, unfolding(crate::specs::Local::line_words))]
fn push_line<A: Allocator, Z: Zone>(
    out: &mut Vec<u8, A>,
    zone: &Z,
    number: u64,
    event: &Event,
    after: &Machine,
    reply: &Reply,
) -> Result<(), AllocError>
    ensures { OnOk result (out.new.items
        ≡ out.old.items ++ line_words (Z.ahead_at zone.now) number event.now after.now reply.now ++ 10 ∷ []) }
{
    push_number(out, number)?;
    out.extend_from_slice(b" ")?;
    push_event(out, zone, event)?;
    out.extend_from_slice(b": ")?;
    push_answer(out, zone, after, reply)?;
    out.push(b'\n')?;
    Ok(())
}

/// Writes a number at the end of a text.
fn push_number<A: Allocator>(out: &mut Vec<u8, A>, number: u64) -> Result<(), AllocError>
    ensures { OnOk result (out.new.items ≡ out.old.items ++ decimal number) }
{
    let mut digits = Buffer::new();
    out.extend_from_slice(digits.format(number).as_bytes())
}

/// Writes what happened.
fn push_event<A: Allocator, Z: Zone>(
    out: &mut Vec<u8, A>,
    zone: &Z,
    event: &Event,
) -> Result<(), AllocError>
    ensures { OnOk result (out.new.items ≡ out.old.items ++ event_words (Z.ahead_at zone.now) event.now) }
{
    match event {
        Event::Byte(_) => out.extend_from_slice(event_text(event).as_bytes()),
        Event::Started { pid, label } => {
            out.extend_from_slice(b"started ")?;
            push_number(out, u64::from(*pid))?;
            out.extend_from_slice(b" ")?;
            push_time(out, zone, label)
        }
        Event::StartFailed { label } => {
            out.extend_from_slice(b"failed ")?;
            push_time(out, zone, label)
        }
        Event::Death { label } => {
            out.extend_from_slice(b"death ")?;
            push_time(out, zone, label)
        }
        Event::Clock { label } => {
            out.extend_from_slice(b"clock ")?;
            push_time(out, zone, label)
        }
    }
}

/// Writes the answer to an event, and the phase after it.
fn push_answer<A: Allocator, Z: Zone>(
    out: &mut Vec<u8, A>,
    zone: &Z,
    after: &Machine,
    reply: &Reply,
) -> Result<(), AllocError>
    ensures { OnOk result (out.new.items
        ≡ out.old.items ++ answer_words (Z.ahead_at zone.now) after.now reply.now) }
{
    push_reply(out, zone, after, reply)?;
    out.extend_from_slice(b" -> ")?;
    out.extend_from_slice(phase_name(after.phase()).as_bytes())
}

/// Writes what was answered.
fn push_reply<A: Allocator, Z: Zone>(
    out: &mut Vec<u8, A>,
    zone: &Z,
    after: &Machine,
    reply: &Reply,
) -> Result<(), AllocError>
    ensures { OnOk result (out.new.items
        ≡ out.old.items ++ reply_words (Z.ahead_at zone.now) after.now reply.now) }
{
    match reply {
        Reply::Held => out.extend_from_slice(b"held"),
        Reply::Took(asks) => {
            out.extend_from_slice(b"took")?;
            push_asks(out, zone, after, asks.as_slice())
        }
    }
}

/// Writes what was asked, each after a space.
fn push_asks<A: Allocator, Z: Zone>(
    out: &mut Vec<u8, A>,
    zone: &Z,
    after: &Machine,
    asks: &[Ask],
) -> Result<(), AllocError>
    ensures { OnOk result (out.new.items
        ≡ out.old.items ++ asks_words (Z.ahead_at zone.now) after.now asks.now) }
{
    for ask in asks {
        out.push(b' ')?;
        push_ask(out, zone, after, ask)?;
    }
    Ok(())
}

/// Writes an ask. A record is that of the machine after the event.
fn push_ask<A: Allocator, Z: Zone>(
    out: &mut Vec<u8, A>,
    zone: &Z,
    after: &Machine,
    ask: &Ask,
) -> Result<(), AllocError>
    ensures { OnOk result (out.new.items
        ≡ out.old.items ++ ask_words (Z.ahead_at zone.now) after.now ask.now) }
{
    match ask {
        Ask::Signal(sig, pid) => {
            out.extend_from_slice(sig_name(*sig).as_bytes())?;
            out.extend_from_slice(b":")?;
            push_number(out, u64::from(*pid))
        }
        Ask::Start => out.extend_from_slice(b"start"),
        Ask::Write(_) => {
            out.extend_from_slice(b"record (")?;
            push_record(out, zone, after)?;
            out.extend_from_slice(b")")
        }
    }
}

/// Writes what the record of a machine says.
#[tactic(auto, unfolding(crate::specs::Local::record_words))]
fn push_record<A: Allocator, Z: Zone>(
    out: &mut Vec<u8, A>,
    zone: &Z,
    machine: &Machine,
) -> Result<(), AllocError>
    ensures { OnOk result (out.new.items
        ≡ out.old.items ++ record_words (Z.ahead_at zone.now) machine.now) }
{
    let view = machine.view();
    push_process(out, view.pid)?;
    out.extend_from_slice(paused_words(view.paused).as_bytes())?;
    out.extend_from_slice(want_words(view.want).as_bytes())?;
    out.extend_from_slice(exiting_words(machine.exiting()).as_bytes())?;
    out.extend_from_slice(b", since ")?;
    push_time(out, zone, &view.label)
}

/// Writes whether there is a process, and which one.
#[tactic(auto, unfolding(crate::specs::Local::process_words))]
fn push_process<A: Allocator>(out: &mut Vec<u8, A>, pid: u32) -> Result<(), AllocError>
    ensures { OnOk result (out.new.items ≡ out.old.items ++ process_words pid) }
{
    if pid == 0 {
        return out.extend_from_slice(b"down");
    }
    out.extend_from_slice(b"up ")?;
    push_number(out, u64::from(pid))
}

/// Returns the words that say whether a process is paused.
fn paused_words(paused: bool) -> &'static str
    ensures { result.now ≡ paused_words paused }
{
    if paused { ", paused" } else { "" }
}

/// Returns the words that say what is wanted.
fn want_words(want: Want) -> &'static str
    ensures { result.now ≡ want_words want }
{
    match want {
        Want::Up => ", wanted up",
        Want::Down => ", wanted down",
        Want::Once => ", wanted once",
    }
}

/// Returns the words that say whether supervise is to end.
fn exiting_words(exiting: bool) -> &'static str
    ensures { result.now ≡ exiting_words exiting }
{
    if exiting { ", exiting" } else { "" }
}

/// Writes the local time of a label, or the label if it has none.
#[tactic(auto, unfolding(crate::specs::Local::time_words))]
fn push_time<A: Allocator, Z: Zone>(
    out: &mut Vec<u8, A>,
    zone: &Z,
    label: &Label,
) -> Result<(), AllocError>
    ensures { OnOk result (out.new.items ≡ out.old.items ++ time_words (Z.ahead_at zone.now) label.now) }
{
    match local_time(zone, label) {
        Some(second) => {
            out.extend_from_slice(&second)?;
            out.extend_from_slice(b".")?;
            out.extend_from_slice(&nine_digits(label.nano))
        }
        None => out.extend_from_slice(&text(label)),
    }
}

/// Writes the line about a machine.
fn push_state<A: Allocator, Z: Zone>(
    out: &mut Vec<u8, A>,
    zone: &Z,
    machine: &Machine,
) -> Result<(), AllocError>
    ensures { OnOk result (out.new.items
        ≡ out.old.items ++ local_state (Z.ahead_at zone.now) machine.now) }
{
    out.extend_from_slice(b"state ")?;
    out.extend_from_slice(phase_name(machine.phase()).as_bytes())?;
    out.extend_from_slice(b" (")?;
    push_record(out, zone, machine)?;
    out.extend_from_slice(b")\n")
}
