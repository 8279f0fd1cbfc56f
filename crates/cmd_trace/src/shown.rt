//! What `trace` prints about a trace.
ghost use Rattle.std.specs.Prelude.{◌≡◌, ◌++◌, OnOk, IfOk};
ghost use Rattle.cmd_base.specs.Printed.{printed};
ghost use Rattle.cmd_trace.specs.Traced.{explanation, state_text, times_in, IsBreakLine, IsShown};

use crate::local::local_explanation;
use cmd_local::Zone;
use itoa::Buffer;
use std::alloc::{AllocError, Allocator};
use sup_core::{Machine, phase_name};
use sup_trace::{Break, TraceText, explain, first_break, record_digits, replay};
use tai_status::Lines;

/// Returns what is printed about a trace: the line about a break, or if no break is asked for, the explanation, with
/// the local times of a zone if there is one.
pub fn shown<A: Allocator + Clone, B: Allocator, Z: Zone>(
    alloc: A,
    zone: Option<&Z>,
    content: &TraceText<B>,
    at: Option<Break>,
) -> Result<Vec<u8, A>, AllocError>
    ensures { IfOk result (λ text.
        IsShown (times_in Z.ahead_at zone.entry) content.now at text.items) }
{
    match (at, zone) {
        (Some(at), _) => break_line(alloc, content, at),
        (None, Some(zone)) => local_explanation(alloc, zone, content),
        (None, None) => explanation(alloc, content),
    }
}

/// Returns one line for each entry, and one about the machine after them.
fn explanation<A: Allocator + Clone, B: Allocator>(
    alloc: A,
    content: &TraceText<B>,
) -> Result<Vec<u8, A>, AllocError>
    ensures { IfOk result (λ text. text.items ≡ explanation content.now) }
{
    let lines = explain(alloc.clone()?, content)?;
    let mut out = Vec::new(alloc);
    push_lines(&mut out, &lines)?;
    push_state(&mut out, &replay(content))?;
    Ok(out)
}

/// Writes lines, each with a newline, at the end of a text.
fn push_lines<A: Allocator, B: Allocator>(
    out: &mut Vec<u8, A>,
    lines: &Lines<B>,
) -> Result<(), AllocError>
    ensures { OnOk result (out.new.items ≡ out.old.items ++ printed lines.now) }
{
    for line in lines.as_slice() {
        out.extend_from_slice(line.as_bytes())?;
        out.push(b'\n')?;
    }
    Ok(())
}

/// Writes the line about a machine at the end of a text.
fn push_state<A: Allocator>(out: &mut Vec<u8, A>, machine: &Machine) -> Result<(), AllocError>
    ensures { OnOk result (out.new.items ≡ out.old.items ++ state_text machine.now) }
{
    out.extend_from_slice(b"state ")?;
    out.extend_from_slice(phase_name(machine.phase()).as_bytes())?;
    out.extend_from_slice(b" ")?;
    out.extend_from_slice(&record_digits(&machine.view()))?;
    out.push(b'\n')?;
    Ok(())
}

/// Returns the line about a break.
fn break_line<A: Allocator, B: Allocator>(
    alloc: A,
    content: &TraceText<B>,
    at: Break,
) -> Result<Vec<u8, A>, AllocError>
    ensures { IfOk result (λ text. IsBreakLine content.now at text.items) }
{
    let mut out = Vec::new(alloc);
    match first_break(content, at) {
        Some(number) => {
            let mut digits = Buffer::new();
            out.extend_from_slice(b"break ")?;
            out.extend_from_slice(digits.format(number).as_bytes())?;
            out.push(b'\n')?;
        }
        None => out.extend_from_slice(b"no break\n")?,
    }
    Ok(out)
}
