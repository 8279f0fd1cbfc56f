//! The lines of a step's result.
ghost use Rattle.std.specs.Prelude.{◌≡◌, ◌++◌, IfOk, OnOk, map, string_bytes};
ghost use Rattle.suite_lines.specs.Text.{counts_text, drop_text, begun_text, refused_text, part_answer, step_lines};

use crate::out::{Begun, StepOut};
use crate::part::part_text;
use scan_table::{PartId, ScanOut};
use std::alloc::{AllocError, Allocator};
use sup_core::{answer_text, took_text};
use tai_status::{Lines, Name};

/// Writes how many parts a scan started and restarted, how many slots it dropped, and how many names it refused.
fn counts_line<A: Allocator, B: Allocator>(
    alloc: A,
    out: &ScanOut<B>,
) -> Result<String<A>, AllocError>
    ensures { IfOk result (λ line. string_bytes line ≡ counts_text out.now) }
{
    let started = out.starts.len();
    let restarted = out.restarts.len();
    let dropped = out.drops.len();
    let refused = out.refused.len();
    format!(in alloc;
        "scan: {started} started, {restarted} restarted, {dropped} dropped, {refused} refused"
    )
}

/// Writes the line of a slot that was dropped.
fn drop_line<A: Allocator>(alloc: A, slot: u64) -> Result<String<A>, AllocError>
    ensures { IfOk result (λ line. string_bytes line ≡ drop_text slot) }
{
    format!(in alloc; "{slot} dropped")
}

/// Writes the line of a part's answer.
fn part_line<A: Allocator>(alloc: A, part: PartId, answer: &str) -> Result<String<A>, AllocError>
    ensures { IfOk result (λ line. string_bytes line ≡ part_answer part answer.now) }
{
    let part = part_text(part);
    format!(in alloc; "{} {answer}", part.as_str())
}

/// Writes the line of a part that a scan began.
fn begun_line<A: Allocator>(alloc: A, begun: &Begun) -> Result<String<A>, AllocError>
    ensures { IfOk result (λ line. string_bytes line ≡ begun_text begun.now) }
{
    let answer = took_text(&begun.asks, begun.phase);
    part_line(alloc, begun.part, answer.as_str())
}

/// Writes the line of a name that gets no slot.
fn refused_line<A: Allocator, B: Allocator>(
    alloc: A,
    name: &Name<B>,
) -> Result<String<A>, AllocError>
    ensures { IfOk result (λ line. string_bytes line ≡ refused_text name.now) }
{
    let name = name.as_str();
    format!(in alloc; "{name} refused TooMany")
}

/// Adds the lines of the dropped slots after the others.
fn push_drops<A: Allocator + Clone>(
    alloc: &A,
    lines: &mut Vec<String<A>, A>,
    slots: &[u64],
) -> Result<(), AllocError>
    ensures { OnOk result (map (λ it. string_bytes it) lines.new.items
        ≡ map (λ it. string_bytes it) lines.old.items ++ map drop_text slots.now) }
{
    for slot in slots {
        lines.push(drop_line(alloc.clone()?, *slot)?)?;
    }
    Ok(())
}

/// Adds the lines of the parts that a scan began after the others.
fn push_begun<A: Allocator + Clone>(
    alloc: &A,
    lines: &mut Vec<String<A>, A>,
    begins: &[Begun],
) -> Result<(), AllocError>
    ensures { OnOk result (map (λ it. string_bytes it) lines.new.items
        ≡ map (λ it. string_bytes it) lines.old.items ++ map begun_text begins.now) }
{
    for begun in begins {
        lines.push(begun_line(alloc.clone()?, begun)?)?;
    }
    Ok(())
}

/// Adds the lines of the names that get no slot after the others.
fn push_refused<A: Allocator + Clone, B: Allocator>(
    alloc: &A,
    lines: &mut Vec<String<A>, A>,
    names: &[Name<B>],
) -> Result<(), AllocError>
    ensures { OnOk result (map (λ it. string_bytes it) lines.new.items
        ≡ map (λ it. string_bytes it) lines.old.items ++ map refused_text names.now) }
{
    for name in names {
        lines.push(refused_line(alloc.clone()?, name)?)?;
    }
    Ok(())
}

/// Writes the lines of a step's result, without their newlines. For an event at a part, this is the part's text and the
/// answer to the event. For a scan, the first line says how many parts it started and restarted, how many slots it
/// dropped, and how many names it refused. Then there is a line for each dropped slot; for each part that it began,
/// with what that part asks for; and for each name that it refused since there were too many slots.
pub fn step_text<A: Allocator + Clone, B: Allocator>(
    alloc: A,
    out: &StepOut<B>,
) -> Result<Lines<A>, AllocError>
    ensures { IfOk result (λ lines. lines ≡ step_lines out.now) }
{
    let mut lines = Vec::new(alloc.clone()?);
    match out {
        StepOut::Scanned { out, begun } => {
            lines.push(counts_line(alloc.clone()?, out)?)?;
            push_drops(&alloc, &mut lines, out.drops.as_slice())?;
            push_begun(&alloc, &mut lines, begun.as_slice())?;
            push_refused(&alloc, &mut lines, out.refused.as_slice())?;
        }
        StepOut::At { part, reply, phase } => {
            let answer = answer_text(reply, *phase);
            lines.push(part_line(alloc.clone()?, *part, answer.as_str())?)?;
        }
    }
    Ok(Lines::from_vec(lines))
}
