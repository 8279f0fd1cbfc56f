ghost use Rattle.std.specs.Prelude.{◌≡◌, ◌≢◌, ◌+◌, ◌^◌, ◌<◌, [], ℕ, length, bytes_eq, Ok, Err, OnOk, OnErr, IfOk};
ghost use Rattle.std.specs.Prelude.{IfErr, MatchResult};
ghost use Rattle.std.specs.Option.{option_copied};
ghost use Rattle.sup_core.specs.Reading.{fields, event_from};
ghost use Rattle.sup_core.specs.Fields.{fields_after};
ghost use Rattle.sup_trace.specs.declared.fault.TraceFault.{TraceFault};
ghost use Rattle.sup_trace.specs.declared.fault.TraceFaultKind.TheVariants as kind;
ghost use Rattle.sup_trace.specs.Content.{Content, IsContent, IsTraceText, content_of};
ghost use Rattle.sup_trace.specs.Text.{header, trace_text};
ghost use Rattle.sup_trace.specs.Reading.{Nothing, Header, Entries, Whole, line_result, heard_of, entry_result};
ghost use Rattle.sup_trace.specs.Reading.{end_result, kind_of, content_by_parts, parts_of, content_from, HasEntryAt};
ghost use Rattle.sup_trace.specs.Reading.{AddsEntry, at_base, IsBeforeFaults, ReadsEntry, ReadsOrStarves};
ghost use Rattle.sup_trace.specs.Steps.{KeepsEntries, ReadsNext, EndsInFault, ReadsAlike, WantsMemory};

use crate::base::read_base;
use crate::content::TraceText;
use crate::fault::{TraceFault, TraceFaultKind};
use crate::lines::TextLines;
use crate::trace::MAX_CAPACITY;
use std::alloc::{Allocator, Global};
use std::marker::Model;
use sup_core::{Event, EventFault, Machine, read_event, read_number, split_field};

/// The base and the entries so far, and the machine after them. Contracts see it as `Content`.
#[derive(Drop)]
struct Reading<A: Allocator> {
    base: Machine,
    folded: u64,
    entries: Vec<Event, A>,
    machine: Machine,
}

impl<A: Allocator> Model for Reading<A> {
    ghost use Rattle.std.specs.Prelude.{◌≡◌};
    ghost use Rattle.sup_trace.specs.Content.{Content, content_of, replay_of};

    ghost Value = { Content };

    // The machine is computed from the other fields.
    ghost view = { λ reading. content_of reading.base reading.folded reading.entries.items };

    ghost invariant = { λ reading.
        reading.machine ≡ replay_of (content_of reading.base reading.folded reading.entries.items) };
}

/// Returns the fault that is reported for a fault of an event's line.
fn kind_of(fault: EventFault) -> TraceFaultKind
    ensures { result ≡ kind_of fault }
{
    match fault {
        EventFault::UnknownEvent => TraceFaultKind::UnknownEvent,
        EventFault::Line => TraceFaultKind::Line,
        EventFault::Number => TraceFaultKind::Number,
        EventFault::Label => TraceFaultKind::Label,
    }
}

/// Returns whether this is the first line.
#[tactic(auto, unfolding(crate::specs::Text::header))]
fn is_header(line: &[u8]) -> bool
    ensures { result ≡ bytes_eq line.now header }
{
    line == b"dtools-trace 1".as_slice()
}

/// Reads the first line.
fn read_header(line: &[u8]) -> Result<(), TraceFaultKind>
    ensures { MatchResult result (λ u. line_result Nothing line.now ≡ Ok Header)
        (λ kind. line_result Nothing line.now ≡ Err kind) }
{
    if is_header(line) {
        Ok(())
    } else {
        Err(TraceFaultKind::Line)
    }
}

impl<A: Allocator> Reading<A> {
    /// Begins with the base, and no entries yet.
    fn new(alloc: A, base: Machine, folded: u64) -> Reading<A>
        ensures { result ≡ content_of base folded [] }
    {
        Reading {
            base,
            folded,
            entries: Vec::new(alloc),
            machine: base,
        }
    }

    /// Returns what was read, if a text can hold it.
    fn into_text(self) -> TraceText<A>
        requires { IsTraceText self }
        ensures { result ≡ self }
    {
        TraceText::from_parts(self.base, self.folded, self.entries)
    }

    /// Takes an event's line.
    fn take_event(&mut self, line: &[u8]) -> Result<(), TraceFaultKind>
        ensures ok { OnOk result (entry_result self.old (event_from (fields line.now)) ≡ Ok (Entries self.new)) }
        ensures fault { IfErr result (λ why. why ≢ kind.OutOfMemory
            → entry_result self.old (event_from (fields line.now)) ≡ Err why) }
        ensures memory { IfErr result (λ why. why ≡ kind.OutOfMemory
            → AddsEntry self.old (entry_result self.old (event_from (fields line.now)))) }
    {
        let event = match read_event(line) {
            Ok(event) => event,
            Err(fault) => return Err(kind_of(fault)),
        };
        if self.entries.len() >= MAX_CAPACITY {
            return Err(TraceFaultKind::Line);
        }
        if !self.machine.takes(&event) {
            return Err(TraceFaultKind::NotTaken);
        }
        match self.entries.push(event) {
            Ok(()) => {}
            Err(_) => return Err(TraceFaultKind::OutOfMemory),
        }
        self.machine.step(event);
        Ok(())
    }

    /// Takes the fields after the first word of the end line.
    #[tactic(auto, using(crate::proofs::Steps::end_result_many))]
    fn take_end(&self, rest: Option<&[u8]>) -> Result<(), TraceFaultKind>
        ensures ok { OnOk result (end_result self.now (fields_after (option_copied rest.entry)) ≡ Ok (Whole self.now)) }
        ensures fault { IfErr result (λ why. end_result self.now (fields_after (option_copied rest.entry)) ≡ Err why) }
    {
        let Some(rest) = rest else {
            return Err(TraceFaultKind::Line);
        };
        let (count, rest) = split_field(rest);
        if rest.is_some() {
            return Err(TraceFaultKind::Line);
        }
        if read_number(count) == Some(self.entries.len() as u64) {
            Ok(())
        } else {
            Err(TraceFaultKind::Number)
        }
    }
}

impl<A: Allocator> Reading<A> {
    /// Takes a line after the base's. Returns whether it is the end line.
    fn take_line(&mut self, line: &[u8]) -> Result<bool, TraceFaultKind>
        ensures ok { IfOk result (λ ended. line_result (Entries self.old) line.now ≡ Ok (heard_of ended self.new)) }
        ensures fault { IfErr result (λ why. why ≢ kind.OutOfMemory
            → line_result (Entries self.old) line.now ≡ Err why) }
        ensures memory { IfErr result (λ why. why ≡ kind.OutOfMemory
            → AddsEntry self.old (line_result (Entries self.old) line.now)) }
    {
        let (word, rest) = split_field(line);
        if word == b"end".as_slice() {
            return match self.take_end(rest) {
                Ok(()) => Ok(true),
                Err(why) => Err(why),
            };
        }
        match self.take_event(line) {
            Ok(()) => Ok(false),
            Err(why) => Err(why),
        }
    }
}

impl<A: Allocator> Reading<A> {
    /// Takes the next line after the base's. Returns whether it is the end line.
    fn take_next(&mut self, lines: &mut TextLines<'_>) -> Result<bool, TraceFault>
        requires room { lines.old.number + length lines.old.rest.now < 2 ^ 64 }

        // If it succeeds, the line is read and cut off the text. What is left is shorter, so the numbers of all later
        // lines fit too.
        ensures ok { IfOk result (λ ended.
            ReadsNext lines.old lines.new (Entries self.old) (heard_of ended self.new)) }
        ensures room { OnOk result (lines.new.number + length lines.new.rest.now < 2 ^ 64) }
        ensures shorter { OnOk result (length lines.new.rest.now < length lines.old.rest.now) }

        // If it fails, reading from this line on ends in this fault, unless memory is missing. Then the line is that of
        // an entry.
        ensures fault { IfErr result (EndsInFault lines.old (Entries self.old)) }
        ensures memory { IfErr result (WantsMemory lines.old (Entries self.old)) }
    {
        let number = lines.number;
        let line = lines.next_line()?;
        match self.take_line(line) {
            Ok(ended) => Ok(ended),
            Err(kind) => Err(TraceFault { line: number, kind }),
        }
    }
}

/// Takes the first line.
fn take_header(lines: &mut TextLines<'_>) -> Result<(), TraceFault>
    requires { lines.old.number + length lines.old.rest.now < 2 ^ 64 }
    ensures ok { OnOk result (ReadsNext lines.old lines.new Nothing Header) }
    ensures room { OnOk result (lines.new.number + length lines.new.rest.now < 2 ^ 64) }
    ensures fault { IfErr result (λ fault.
        content_by_parts lines.old.number Nothing (parts_of lines.old.rest.now) ≡ Err fault) }
    ensures memory { IfErr result (λ fault. fault.kind ≢ kind.OutOfMemory) }
{
    let number = lines.number;
    let line = lines.next_line()?;
    match read_header(line) {
        Ok(()) => Ok(()),
        Err(kind) => Err(TraceFault { line: number, kind }),
    }
}

/// Takes the base's line.
fn take_base(lines: &mut TextLines<'_>) -> Result<(u64, Machine), TraceFault>
    requires { lines.old.number + length lines.old.rest.now < 2 ^ 64 }
    ensures ok { IfOk result (λ (folded, base). ReadsNext lines.old lines.new Header (at_base folded base)) }
    ensures room { OnOk result (lines.new.number + length lines.new.rest.now < 2 ^ 64) }
    ensures fault { IfErr result (λ fault.
        content_by_parts lines.old.number Header (parts_of lines.old.rest.now) ≡ Err fault) }
    ensures memory { IfErr result (λ fault. fault.kind ≢ kind.OutOfMemory) }
{
    let number = lines.number;
    let line = lines.next_line()?;
    match read_base(line) {
        Ok(base) => Ok(base),
        Err(kind) => Err(TraceFault { line: number, kind }),
    }
}

/// Takes the two lines before the entries.
fn take_opening(lines: &mut TextLines<'_>) -> Result<(u64, Machine), TraceFault>
    requires { lines.old.number + length lines.old.rest.now < 2 ^ 64 }

    // If it succeeds, reading on from the base gives what reading from the first line gives, and each entry has the
    // same line in both.
    ensures ok { IfOk result (λ (folded, base).
        ReadsAlike lines.old Nothing lines.new (at_base folded base)) }
    ensures entry { IfOk result (λ (folded, base).
        KeepsEntries lines.old Nothing lines.new (at_base folded base)) }
    ensures room { OnOk result (lines.new.number + length lines.new.rest.now < 2 ^ 64) }

    // If it fails, reading the text ends in this fault. Memory is never the reason, since there is no entry yet.
    ensures fault { IfErr result (λ fault.
        content_by_parts lines.old.number Nothing (parts_of lines.old.rest.now) ≡ Err fault) }
    ensures memory { IfErr result (λ fault. fault.kind ≢ kind.OutOfMemory) }
{
    take_header(lines)?;
    take_base(lines)
}

impl<A: Allocator> Reading<A> {
    /// Takes the lines after the base's, up to the end line.
    fn take_entries(&mut self, lines: &mut TextLines<'_>) -> Result<(), TraceFault>
        requires room { lines.old.number + length lines.old.rest.now < 2 ^ 64 }
        ensures ok { OnOk result
            (ReadsAlike lines.old (Entries self.old) lines.new (Whole self.new)) }
        ensures fault { IfErr result (EndsInFault lines.old (Entries self.old)) }
        ensures memory { IfErr result (WantsMemory lines.old (Entries self.old)) }
    {
        'entries: loop {
            if self.take_next(lines)? {
                return Ok(());
            }
        }
    }
}

/// Reads the lines of a text, one after another.
fn read_lines<A: Allocator>(alloc: A, text: &[u8]) -> Result<TraceText<A>, TraceFault>
    ensures content { IfOk result (λ content. content_from text.now ≡ Ok content) }
    ensures fault { IfErr result (λ fault. fault.kind ≢ kind.OutOfMemory → content_from text.now ≡ Err fault) }
    ensures memory { IfErr result (λ fault. fault.kind ≡ kind.OutOfMemory
        → ReadsEntry fault.line 1 Nothing (parts_of text.now)) }
{
    let mut lines = TextLines::new(text);
    let (folded, base) = take_opening(&mut lines)?;
    let mut reading = Reading::new(alloc, base, folded);
    reading.take_entries(&mut lines)?;
    if !lines.rest.is_empty() {
        return Err(TraceFault {
            line: lines.number,
            kind: TraceFaultKind::Line,
        });
    }
    Ok(reading.into_text())
}

/// Reads a trace's text. It has a line `dtools-trace 1`, a line for the base, one event line for each entry, oldest
/// first, and a line `end` with the number of entries. Every line ends in a newline.
///
/// The base's line is `base FOLDED PHASE RECORD STAY UNTIL`. FOLDED is the count of events before the entries, at most
/// `2 ^ 63`. RECORD is the 36 lower-case digits of the status record. STAY is `exit` if supervise exits after the
/// process, and `stay` if not. UNTIL is the label until which the machine settles or rests, or `-`. An event line is
/// one that `read_event` reads.
///
/// The first faulty line is reported. If memory for an entry runs out, that is reported as a fault of its line.
pub fn read_text<A: Allocator>(alloc: A, text: &[u8]) -> Result<TraceText<A>, TraceFault>
    ensures found { IfOk result (λ content. IsContent content × (text.now ≡ trace_text content)) }
    ensures only { (content : Content) → IsContent content → text.now ≡ trace_text content
        → ReadsOrStarves result content }
    // The first fault is returned.
    ensures fault { IfErr result (λ fault. fault.kind ≢ kind.OutOfMemory → content_from text.now ≡ Err fault) }
    // Memory can run out only at an entry: the lines before it are read, its line is read, and its event is taken
    // there.
    ensures memory { IfErr result (λ fault. fault.kind ≡ kind.OutOfMemory → HasEntryAt text.now fault.line) }
    // Therefore any faulty line comes after it.
    ensures later { IfErr result (λ fault. fault.kind ≡ kind.OutOfMemory → IsBeforeFaults text.now fault.line) }
{
    read_lines(alloc, text)
}
