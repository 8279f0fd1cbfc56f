ghost use Rattle.std.specs.Prelude.{◌≡◌, ◌+◌, ◌^◌, ◌<◌, length, string_bytes, IfOk};
ghost use Rattle.std.specs.List.{AllByRecursion};
ghost use Rattle.tai_status.specs.LineReader.{IsPlain};
ghost use Rattle.sup_core.specs.History.{History, state_of};
ghost use Rattle.sup_core.specs.Rules.{IsEvent, next};
ghost use Rattle.sup_trace.specs.Explained.{explained, numbered_line};

use crate::content::TraceText;
use std::alloc::{AllocError, Allocator};
use sup_core::{Event, Machine, answer_text, event_text};
use tai_status::Lines;

/// Writes a line for each entry: its number from 1, a space, the event, `: `, and the reply. For example:
/// `1 byte d: took TERM:4711 CONT:4711 record:.. -> up`. The lines have no newlines.
pub fn explain<A: Allocator + Clone, B: Allocator>(
    alloc: A,
    content: &TraceText<B>,
) -> Result<Lines<A>, AllocError>
    ensures lines { IfOk result (λ lines. lines ≡ explained content.now) }
    ensures plain { IfOk result (λ lines. AllByRecursion IsPlain lines) }
{
    let mut machine = content.base();
    let mut lines = Vec::with_capacity(alloc.clone()?, content.entries().len())?;
    for (place, event) in content.entries().iter().enumerate() {
        lines.push(explained_line(&alloc, place + 1, &mut machine, event)?)?;
    }
    Ok(Lines::from_vec(lines))
}

/// Writes the line of an entry. The machine takes its event.
fn explained_line<A: Allocator + Clone>(
    alloc: &A,
    number: usize,
    machine: &mut Machine,
    event: &Event,
) -> Result<String<A>, AllocError>
    requires { IsEvent event.now }
    ensures line { (past : History) → state_of past ≡ machine.old
        → IfOk result (λ line. string_bytes line ≡ numbered_line number past event.now) }
    ensures state { (past : History) → state_of past ≡ machine.old → machine.new ≡ state_of (next past event.now) }
{
    let reply = machine.step(*event);
    let answer = answer_text(&reply, machine.phase());
    let event = event_text(event);
    format!(in alloc.clone()?; "{number} {}: {}", event.as_str(), answer.as_str())
}
