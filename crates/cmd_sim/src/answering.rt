//! The answer to one line.
ghost use Rattle.std.specs.Prelude.{◌≡◌, ◌≢◌, ◌≤◌, [], ◌∷◌, length, flat_map, None, IsOk, IfOk, IfErr, IsErrOf, Ok};
ghost use Rattle.std.specs.Prelude.{Err};
ghost use Rattle.sup_core.specs.declared.asks.Reply.{Reply};
ghost use Rattle.sup_core.specs.History.{History, Begin, state_of, phase_of};
ghost use Rattle.sup_core.specs.Reading.{fields, begin_from};
ghost use Rattle.sup_core.specs.Rules.{asks_of_begin};
ghost use Rattle.sup_core.specs.Text.{answer_text};
ghost use Rattle.suite_lines.specs.Reading.{suite_event_from};
ghost use Rattle.suite_lines.specs.Text.{step_lines};
ghost use Rattle.suite_core.specs.Suite.{IsSuiteEvent, refusal};
ghost use Rattle.cmd_sim.specs.declared.fault.Why.{Why};
ghost use Rattle.cmd_sim.specs.Sim.{Past, Nothing, Service, said, said_by, spells_scan, beginning, stepping};
ghost use Rattle.cmd_sim.specs.Sim.{refused_step, IsRight, MayWantMemory};
ghost use Rattle.cmd_sim.specs.Progress.{SaysService, Stands, Says, StepsService, StepsTo, first_step, texts_in};

use crate::fault::NoAnswer;
use arrayvec::ArrayString;
use std::alloc::{AllocError, Allocator, Global};
use suite_core::Suite;
use suite_lines::{StepOut, SuiteEvent, read_suite_event, step_text};
use sup_core::{Machine, answer_text, read_begin, read_event, split_field, took_text};
use tai_status::{Label, Lines};

/// How many entries fit in the trace of a suite's part.
const TRACE_CAPACITY: usize = 256;

/// What the lines so far said, as far as later lines depend on it.
#[derive(Drop)]
pub(crate) enum Subject<A: Allocator + Clone = Global> {
    Nothing,
    Service(Machine),
    Suite(Suite<A>),
}

/// The answer to a line.
#[derive(Drop)]
pub(crate) enum Answer<A: Allocator = Global> {
    Line(ArrayString<128>),
    Lines(Lines<A>),
}

/// Begins a service. Returns its machine, and the answer.
fn begin_at(opening: (bool, Label)) -> (Machine, ArrayString<128>)
    ensures machine { result.0 ≡ state_of (Begin opening.0 opening.1) }
    ensures text { result.1.bytes
        ≡ answer_text (Reply.Took (asks_of_begin (Begin opening.0 opening.1))) (phase_of (Begin opening.0 opening.1)) }
{
    let (down_file, label) = opening;
    let (machine, asks) = Machine::begin(down_file, label);
    let text = took_text(&asks, machine.phase());
    (machine, text)
}

/// Begins a service from a line.
fn begin_service(line: &[u8]) -> Result<(Machine, ArrayString<128>), NoAnswer>
    ensures ok { IfOk result (λ (machine, text).
        SaysService (beginning (begin_from (fields line.now))) machine text.bytes) }
    ensures refused { (why : Why) → IsErrOf result (NoAnswer.Refused why)
        → beginning (begin_from (fields line.now)) ≡ Err why }
    ensures memory { IfErr result (λ none. none ≢ NoAnswer.OutOfMemory) }
{
    Ok(begin_at(read_begin(line)?))
}

/// Takes an event of a service.
fn step_service(machine: &mut Machine, line: &[u8]) -> Result<ArrayString<128>, NoAnswer>
    ensures ok { IfOk result (λ text. StepsService line.now machine.old machine.new text.bytes) }
    ensures refused { (why : Why) → IsErrOf result (NoAnswer.Refused why)
        → (past : History) → said_by (Service past) line.now ≡ Err why }
    ensures memory { IfErr result (λ none. none ≢ NoAnswer.OutOfMemory) }
{
    let event = read_event(line)?;
    let reply = machine.step(event);
    Ok(answer_text(&reply, machine.phase()))
}

/// Returns the lines of the results of a suite's steps.
fn lines_of<A: Allocator + Clone>(alloc: &A, outs: &[StepOut<A>]) -> Result<Lines<A>, AllocError>
    ensures { IfOk result (λ lines. lines ≡ flat_map step_lines outs.now) }
{
    let mut lines = Vec::new(alloc.clone()?);
    for out in outs {
        let mut more = step_text(alloc.clone()?, out)?.into_vec();
        lines.append(&mut more)?;
    }
    Ok(Lines::from_vec(lines))
}

/// Takes an event of a suite. Memory can be lacking only if the event is not refused.
fn step_event<A: Allocator + Clone + Copy>(
    alloc: A,
    suite: &mut Suite<A>,
    event: &SuiteEvent<A>,
) -> Result<Lines<A>, NoAnswer>
    requires { IsSuiteEvent event.now }
    ensures ok { IfOk result (λ lines. StepsTo (stepping suite.old (Ok event.now)) lines suite.new) }
    ensures refused { (why : Why) → IsErrOf result (NoAnswer.Refused why)
        → stepping suite.old (Ok event.now) ≡ Err why }
    ensures memory { IsErrOf result NoAnswer.OutOfMemory → refused_step (refusal suite.old event.now) ≡ None }
{
    let mut outs = Vec::new(alloc);
    suite.step(event, &mut outs)?;
    Ok(lines_of(&alloc, &outs)?)
}

/// Takes the event of a suite in a line.
fn step_suite<A: Allocator + Clone + Copy>(
    alloc: A,
    suite: &mut Suite<A>,
    line: &[u8],
) -> Result<Lines<A>, NoAnswer>
    ensures ok { IfOk result (λ lines.
        StepsTo (stepping suite.old (suite_event_from {A = A} (fields line.now))) lines suite.new) }
    ensures refused { (why : Why) → IsErrOf result (NoAnswer.Refused why)
        → stepping suite.old (suite_event_from {A = A} (fields line.now)) ≡ Err why }
    ensures memory { IsErrOf result NoAnswer.OutOfMemory
        → IsRight suite.old (suite_event_from {A = A} (fields line.now)) }
{
    let event = read_suite_event(alloc, line)?;
    step_event(alloc, suite, &event)
}

/// Begins a suite with the event in a line.
fn begin_suite<A: Allocator + Clone + Copy>(
    alloc: A,
    line: &[u8],
) -> Result<(Suite<A>, Lines<A>), NoAnswer>
    ensures ok { IfOk result (λ (suite, lines). StepsTo (first_step A (fields line.now)) lines suite) }
    ensures refused { (why : Why) → IsErrOf result (NoAnswer.Refused why)
        → first_step A (fields line.now) ≡ Err why }
    ensures memory { IsErrOf result NoAnswer.OutOfMemory → IsOk (suite_event_from {A = A} (fields line.now)) }
{
    let event = read_suite_event(alloc, line)?;
    let mut suite = Suite::new(alloc, 0, TRACE_CAPACITY)?;
    let lines = step_event(alloc, &mut suite, &event)?;
    Ok((suite, lines))
}

/// Returns whether a line's first word is that of a scan.
fn spells_scan(line: &[u8]) -> bool
    ensures { result ≡ spells_scan (fields line.now) }
{
    let (word, _) = split_field(line);
    word == b"scan".as_slice()
}

/// Begins a service, or a suite.
fn begin<A: Allocator + Clone + Copy>(
    alloc: A,
    line: &[u8],
) -> Result<(Subject<A>, Answer<A>), NoAnswer>
    requires { length line.now ≤ 65536 }
    ensures ok { IfOk result (λ (subject, answer). Says Nothing line.now (texts_in answer) subject) }
    ensures refused { (why : Why) → IsErrOf result (NoAnswer.Refused why) → said Nothing line.now ≡ Err why }
    ensures memory { IsErrOf result NoAnswer.OutOfMemory → MayWantMemory Nothing line.now }
{
    if spells_scan(line) {
        let (suite, lines) = begin_suite(alloc, line)?;
        return Ok((Subject::Suite(suite), Answer::Lines(lines)));
    }
    let (machine, text) = begin_service(line)?;
    Ok((Subject::Service(machine), Answer::Line(text)))
}

impl<A: Allocator + Clone + Copy> Subject<A> {
    /// Answers a line: the first line begins, and each later line is an event.
    pub(crate) fn answer(&mut self, alloc: A, line: &[u8]) -> Result<Answer<A>, NoAnswer>
        requires { length line.now ≤ 65536 }
        ensures ok { IfOk result (λ answer. (past : Past) → Stands past self.old
            → Says past line.now (texts_in answer) self.new) }
        ensures refused { (why : Why) → IsErrOf result (NoAnswer.Refused why)
            → (past : Past) → Stands past self.old → said past line.now ≡ Err why }
        ensures memory { IsErrOf result NoAnswer.OutOfMemory
            → (past : Past) → Stands past self.old → MayWantMemory past line.now }
    {
        match self {
            Subject::Nothing => {
                let (subject, answer) = begin(alloc, line)?;
                *self = subject;
                Ok(answer)
            }
            Subject::Service(machine) => Ok(Answer::Line(step_service(machine, line)?)),
            Subject::Suite(suite) => Ok(Answer::Lines(step_suite(alloc, suite, line)?)),
        }
    }
}
