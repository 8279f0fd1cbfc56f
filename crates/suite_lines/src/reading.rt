//! Reading a suite event's line.
ghost use Rattle.std.specs.Prelude.{◌≡◌, true, Some, IfOk, MatchResult};
ghost use Rattle.std.specs.Option.{option_copied};
ghost use Rattle.sup_core.specs.Reading.{fields};
ghost use Rattle.sup_core.specs.Fields.{fields_after};
ghost use Rattle.suite_lines.specs.declared.event.SuiteEvent.{SuiteEvent};
ghost use Rattle.suite_lines.specs.Text.{IsSpellable, suite_event_text};
ghost use Rattle.suite_lines.specs.Reading.{rows_of_texts, scan_from, at_from, suite_event_from};
ghost use Rattle.suite_lines.specs.Answers.{IsRead, ReadsIfMemory};
ghost use Rattle.suite_lines.specs.Fields.{are_rows};

use crate::event::{Rows, SuiteEvent};
use crate::fault::SuiteLineFault;
use crate::part::read_part;
use crate::row::{own_row, read_row};
use std::alloc::{AllocError, Allocator};
use sup_core::{read_event, read_label, split_field};

/// Returns whether each field left is the text of a row.
fn are_rows(rest: Option<&[u8]>) -> bool
    ensures { result ≡ are_rows (fields_after (option_copied rest.entry)) }
{
    let mut left = rest;
    while let Some(text) = left {
        let (field, later) = split_field(text);
        if read_row(field).is_none() {
            return false;
        }
        left = later;
    }
    true
}

/// Reads the rows of the fields left. Each field is the text of a row.
fn own_rows<A: Allocator + Clone>(alloc: A, rest: Option<&[u8]>) -> Result<Rows<A>, AllocError>
    requires { are_rows (fields_after (option_copied rest)) ≡ true }
    ensures { IfOk result (λ rows. rows_of_texts (fields_after (option_copied rest.entry)) ≡ Some rows) }
{
    let mut rows = Vec::new(alloc.clone()?);
    let mut left = rest;
    while let Some(text) = left {
        let (field, later) = split_field(text);
        let row = read_row(field).unwrap();
        rows.push(own_row(alloc.clone()?, &row)?)?;
        left = later;
    }
    Ok(Rows::from_vec(rows))
}

/// Reads the scan from the fields left: a label, and rows.
fn read_scan<A: Allocator + Clone>(
    alloc: A,
    rest: Option<&[u8]>,
) -> Result<SuiteEvent<A>, SuiteLineFault>
    ensures { IsRead (scan_from (fields_after (option_copied rest.entry))) result }
{
    let (text, rest) = split_field(rest.ok_or(SuiteLineFault::Line)?);
    let label = read_label(text).ok_or(SuiteLineFault::Label)?;
    if !are_rows(rest) {
        return Err(SuiteLineFault::Line);
    }
    Ok(SuiteEvent::Scan(own_rows(alloc, rest)?, label))
}

/// Reads the event at a part from the fields left: the part, and the event's line.
#[tactic(auto, using(crate::proofs::EventTexts::at_from_line))]
fn read_at<A: Allocator>(rest: Option<&[u8]>) -> Result<SuiteEvent<A>, SuiteLineFault>
    ensures { IsRead (at_from (fields_after (option_copied rest.entry))) result }
{
    let (text, rest) = split_field(rest.ok_or(SuiteLineFault::Line)?);
    let line = rest.ok_or(SuiteLineFault::Line)?;
    let part = read_part(text)?;
    let event = read_event(line)?;
    Ok(SuiteEvent::At(part, event))
}

/// Reads the event of a line, by its fields.
fn parse_suite_event<A: Allocator + Clone>(
    alloc: A,
    line: &[u8],
) -> Result<SuiteEvent<A>, SuiteLineFault>
    ensures { IsRead (suite_event_from (fields line.now)) result }
{
    let (word, rest) = split_field(line);
    match word {
        b"scan" => read_scan(alloc, rest),
        b"at" => read_at(rest),
        _ => Err(SuiteLineFault::UnknownEvent),
    }
}

/// Reads an event of a suite from its line, without the newline. Fields are separated by one space:
///
/// | line | event |
/// |---|---|
/// | `scan LABEL ROW ..` | the folder was scanned, and had these rows, perhaps none |
/// | `at PART EVENT` | the event that the line EVENT spells happened at this part; `sup_core::read_event` reads it |
///
/// PART is a slot's number, `main` or `log`, and a life's number, separated by dots. ROW is four flags, a colon and a
/// name. The flags are `d` (a directory), `l` (has a log), `n` (has a file `down`) and `m` (its log has one), each its
/// letter or `-`. The name has at least one byte, and all its bytes are from `!` to `~`.
///
/// The first fault is reported. The first word comes first. The faults of a scan are, in order: no field for a label, a
/// wrong label, and a field that is no row's text. Those at a part are: fewer than three fields or no part; a slot or a
/// life that is no number of 64 bits; and the faults of the event's line. Memory is taken after a scan's line is known
/// to be right.
pub fn read_suite_event<A: Allocator + Clone>(
    alloc: A,
    line: &[u8],
) -> Result<SuiteEvent<A>, SuiteLineFault>
    ensures found { IfOk result (λ event. IsSpellable event × (line.now ≡ suite_event_text event)) }
    ensures only { (event : SuiteEvent A) → IsSpellable event → line.now ≡ suite_event_text event
        → ReadsIfMemory event result }
    // The first fault is returned. Memory is taken after the line is known to be that of a scan.
    ensures exact { IsRead (suite_event_from (fields line.now)) result }
{
    parse_suite_event(alloc, line)
}
