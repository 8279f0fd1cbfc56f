//! A suite of services.
ghost use Rattle.std.specs.Prelude.{◌≡◌, if◌then◌else◌, ◌+◌, ◌<◌, ◌≤◌, ◌∷◌, ◌++◌, [], None, length, map};
ghost use Rattle.std.specs.Prelude.{slice_index_or, vec_len, vec_capacity, option_copied, IfSome, IfOk, OnOk, OnErr};
ghost use Rattle.std.specs.Prelude.{IfErr};
ghost use Rattle.std.specs.Option.{option_map};
ghost use Rattle.std.specs.List.{All};
ghost use Rattle.sup_core.specs.Rules.{IsEvent};
ghost use Rattle.sup_trace.specs.Trace.{replay, noted_if_taken};
ghost use Rattle.scan_table.specs.Scan;
ghost use Rattle.scan_table.specs.Table.{scanned, after_end};
ghost use Rattle.suite_lines.specs.declared.event.SuiteEvent.{SuiteEvent};
ghost use Rattle.suite_core.specs.Parts.{trace_of, parts_after, has_ended};
ghost use Rattle.suite_core.specs.Places.{AreRising, IsPartAt};
ghost use Rattle.suite_core.specs.Suite.{new_suite, IsSuiteEvent, refusal, refusal_at, refusal_of_scan, IsCause};
ghost use Rattle.suite_core.specs.Suite.{scan_out, scan_starts, scan_restarts, scan_begun, begun_part, outs_at};
ghost use Rattle.suite_core.specs.Suite.{outs_of_scan, outs_of, suite_at, suite_scanned, suite_after};
ghost use Rattle.suite_core.specs.Run.{Ran, done, GoByOwnEvents, ReplyByOwnHistory, LeaveOthers, BeginAsRowsSay};
ghost use Rattle.suite_core.specs.Run.{GoesByOwnEvent, RepliesByOwnHistory, LeavesOthers, BeginsAsRowsSay};

use crate::fault::{StepFault, SuiteFault};
use crate::part::SuitePart;
use crate::place::{find, take_event, trace_of};
use crate::scan::{begin_parts, change};
use scan_table::{DirRow, PartId, ScanOut, ScanTable};
use std::alloc::{AllocError, Allocator, Global};
use std::marker::Model;
use suite_lines::{Begins, Begun, StepOut, SuiteEvent};
use sup_core::{Event, Machine};
use sup_trace::Trace;
use tai_status::Label;

/// Many services under one scan. Contracts see it as `SuiteState`.
#[derive(Drop)]
pub struct Suite<A: Allocator + Clone = Global> {
    alloc: A,
    table: ScanTable<A>,
    /// The parts by rising slot, each service before its logger.
    parts: Vec<SuitePart<A>, A>,
    capacity: usize,
}

impl<A: Allocator + Clone> Model for Suite<A> {
    ghost use Rattle.suite_core.specs.Suite.{SuiteState};
    ghost use Rattle.suite_core.specs.Places.{IsSuite};

    ghost Value = { SuiteState };

    ghost view = { λ suite. record { table = suite.table; parts = suite.parts.items; capacity = suite.capacity } };

    ghost invariant = { λ suite. IsSuite (record {
      table = suite.table;
      parts = suite.parts.items;
      capacity = suite.capacity;
    }) };
}

/// What a scan does. All memory for it is taken, except the room in the suite.
#[derive(Drop)]
struct Planned<A: Allocator + Clone = Global> {
    /// The table after the scan.
    table: ScanTable<A>,
    scan: ScanOut<A>,
    started: Vec<SuitePart<A>, A>,
    restarted: Vec<SuitePart<A>, A>,
    begun: Vec<Begun, A>,
}

/// Takes an event at the part at this place of a vector.
fn take_event_in<A: Allocator>(
    parts: &mut Vec<SuitePart<A>, A>,
    id: PartId,
    place: usize,
    event: Event,
) -> (StepOut<A>, bool)
    // The parts are in order, and this one is at the place. If the event is the start of a process, the number of the
    // process is at least 1.
    requires rising { AreRising parts.old.items }
    requires at { IsPartAt parts.old.items id place }
    requires event { IsEvent event }

    // The part keeps the event if its machine takes it, and it replies in either case. The other parts stay. The flag
    // says whether its machine is then gone.
    ensures parts { parts.new.items ≡ parts_after id event parts.old.items }
    ensures out { result.0 ∷ [] ≡ outs_at id event (trace_of parts.old.items id) }
    ensures ended { IfSome (trace_of parts.old.items id)
        (λ kept. result.1 ≡ has_ended (noted_if_taken kept event)) }
{
    take_event(parts, id, place, event)
}

/// Takes the room for one output and these parts.
fn reserve<A: Allocator>(
    out: &mut Vec<StepOut<A>, A>,
    parts: &mut Vec<SuitePart<A>, A>,
    count: usize,
) -> Result<(), AllocError>
    ensures out { out.new.items ≡ out.old.items }
    ensures parts { parts.new.items ≡ parts.old.items }
    ensures out_room { OnOk result (vec_len out.new < vec_capacity out.new) }
    ensures parts_room { OnOk result (vec_len parts.new + count ≤ vec_capacity parts.new) }
{
    out.reserve(1)?;
    parts.reserve(count)
}

/// Adds an output after others. There is room for it.
fn put<A: Allocator>(out: &mut Vec<StepOut<A>, A>, answer: StepOut<A>)
    requires { vec_len out.old < vec_capacity out.old }
    ensures { out.new.items ≡ out.old.items ++ answer ∷ [] }
{
    let _ = out.push(answer);
}

/// Notes in a table that a part has ended, if it has.
fn note_end<A: Allocator + Clone>(table: &mut ScanTable<A>, id: PartId, ended: bool)
    ensures { table.new ≡ (if ended then after_end table.old id else table.old) }
{
    if ended {
        table.ended(id);
    }
}

/// Scans. The caller has ruled out each refusal except a lack of memory.
fn scan<A: Allocator + Clone>(
    table: &mut ScanTable<A>,
    rows: &[DirRow<A>],
) -> Result<ScanOut<A>, AllocError>
    ensures table { OnOk result (table.new ≡ scanned table.old rows.now) }
    ensures out { IfOk result (λ out. out ≡ scan_out table.old rows.now) }
{
    match table.scan(rows) {
        Ok(out) => Ok(out),
        Err(_) => Err(AllocError),
    }
}

impl<A: Allocator + Clone> Suite<A> {
    /// Returns a suite without parts. This is its first number. Its traces keep as many events as the capacity says, 1
    /// to 65,536.
    pub fn new(alloc: A, next: u64, trace_capacity: usize) -> Result<Suite<A>, AllocError>
        requires room { 0 < trace_capacity }
        requires limit { trace_capacity ≤ 65536 }
        ensures { IfOk result (λ suite. suite ≡ new_suite next trace_capacity) }
    {
        Ok(Suite {
            table: ScanTable::new(alloc.clone()?, next)?,
            parts: Vec::new(alloc.clone()?),
            alloc,
            capacity: trace_capacity,
        })
    }

    /// Returns the trace of a part, if the part is there.
    pub fn trace(&self, part: PartId) -> Option<&Trace<A>>
        ensures { option_copied result ≡ trace_of self.now.parts part }
    {
        trace_of(&self.parts, part)
    }

    /// Returns the machine of a part, if the part is there.
    pub fn machine(&self, part: PartId) -> Option<Machine>
        ensures { result ≡ option_map replay (trace_of self.now.parts part) }
    {
        match self.trace(part) {
            Some(trace) => Some(trace.state()),
            None => None,
        }
    }

    /// Takes an event at a part.
    fn take_at(
        &mut self,
        id: PartId,
        event: Event,
        out: &mut Vec<StepOut<A>, A>,
    ) -> Result<(), StepFault>
        requires { IsEvent event }

        // If it succeeds, the part is there. The suite is the one after the event, and one output is added.
        ensures ok { OnOk result (self.new ≡ suite_at self.old id event) }
        ensures outs { OnOk result (out.new.items ≡ out.old.items ++ outs_at id event (trace_of self.old.parts id)) }
        ensures taken { OnOk result (refusal_at self.old id ≡ None) }

        // If it fails, nothing has changed. Memory is the reason only if the part is there.
        ensures unchanged { OnErr result ((self.new ≡ self.old) × (out.new.items ≡ out.old.items)) }
        ensures cause { IfErr result (λ why. IsCause (refusal_at self.old id) why) }
    {
        let Some(place) = find(&self.parts, id) else {
            return Err(StepFault::NoSuchPart);
        };
        if out.reserve(1).is_err() {
            return Err(StepFault::OutOfMemory);
        }
        let (answer, ended) = take_event_in(&mut self.parts, id, place, event);
        note_end(&mut self.table, id, ended);
        put(out, answer);
        Ok(())
    }

    /// Plans what a scan that is not refused does.
    fn plan(&self, rows: &[DirRow<A>], label: Label) -> Result<Planned<A>, AllocError>
        requires rising { Scan.AreRising rows.now }

        // If it succeeds, the table and the result are those of the scan.
        ensures table { IfOk result (λ plan. plan.table ≡ scanned self.now.table rows.now) }
        ensures scan { IfOk result (λ plan. plan.scan ≡ scan_out self.now.table rows.now) }

        // Each part that the scan begins has a new trace. Its history begins with the `down` of its row, at the label.
        // The list `begun` has the started parts first, and then the restarted ones.
        ensures started { IfOk result (λ plan. plan.started.items
            ≡ map (begun_part self.now.capacity label) (scan_starts self.now.table rows.now)) }
        ensures restarted { IfOk result (λ plan. plan.restarted.items
            ≡ map (begun_part self.now.capacity label) (scan_restarts self.now.table rows.now)) }
        ensures begun { IfOk result (λ plan. plan.begun.items ≡ scan_begun self.now.table rows.now label) }
    {
        let mut table = self.table.copy()?;
        let scan = scan(&mut table, rows)?;
        let mut begun = Vec::new(self.alloc.clone()?);
        let started = begin_parts(
            &self.alloc,
            self.capacity,
            label,
            &table,
            rows,
            scan.starts.as_slice(),
            &mut begun,
        )?;
        let restarted = begin_parts(
            &self.alloc,
            self.capacity,
            label,
            &table,
            rows,
            scan.restarts.as_slice(),
            &mut begun,
        )?;
        Ok(Planned {
            table,
            scan,
            started,
            restarted,
            begun,
        })
    }

    /// Takes a scan. All memory is taken before anything changes.
    fn take_scan(
        &mut self,
        rows: &[DirRow<A>],
        label: Label,
        out: &mut Vec<StepOut<A>, A>,
    ) -> Result<(), StepFault>
        ensures ok { OnOk result (self.new ≡ suite_scanned self.old rows.now label) }
        ensures outs { OnOk result (out.new.items ≡ out.old.items ++ outs_of_scan self.old rows.now label) }
        ensures taken { OnOk result (refusal_of_scan self.old rows.now ≡ None) }
        ensures unchanged { OnErr result ((self.new ≡ self.old) × (out.new.items ≡ out.old.items)) }
        ensures cause { IfErr result (λ why. IsCause (refusal_of_scan self.old rows.now) why) }
    {
        if let Err(why) = self.table.check(rows) {
            return Err(StepFault::Scan(why));
        }
        let Ok(plan) = self.plan(rows, label) else {
            return Err(StepFault::OutOfMemory);
        };
        let Ok(()) = reserve(out, &mut self.parts, plan.started.len()) else {
            return Err(StepFault::OutOfMemory);
        };
        let Planned {
            table,
            scan,
            started,
            restarted,
            begun,
        } = plan;
        change(&mut self.parts, scan.drops.as_slice(), started, restarted);
        self.table = table;
        put(
            out,
            StepOut::Scanned {
                out: scan,
                begun: Begins::from_vec(begun),
            },
        );
        Ok(())
    }

    /// Takes one event, and adds its result to `out`.
    ///
    /// After a fault nothing has changed. `NoSuchPart` is returned exactly if the event is at a part that is not there.
    /// `Scan` is returned exactly if the table refuses the scan. `OutOfMemory` is returned only if neither is the case.
    pub fn step(
        &mut self,
        event: &SuiteEvent<A>,
        out: &mut Vec<StepOut<A>, A>,
    ) -> Result<(), StepFault>
        requires { IsSuiteEvent event.now }

        // If it succeeds, the event is not refused. The suite is the one after it, and its output is added.
        ensures ok { OnOk result (self.new ≡ suite_after self.old event.now) }
        ensures outs { OnOk result (out.new.items ≡ out.old.items ++ outs_of self.old event.now) }
        ensures taken { OnOk result (refusal self.old event.now ≡ None) }

        // If it fails, nothing has changed. Memory is the reason only if the event is not refused.
        ensures unchanged { OnErr result ((self.new ≡ self.old) × (out.new.items ≡ out.old.items)) }
        ensures cause { IfErr result (λ why. IsCause (refusal self.old event.now) why) }

        // If it succeeds, this is what it means for each part: its reply and its trace follow from its own history
        // alone. A part that a scan begins has a history that begins with the `down` of its row.
        ensures replies { OnOk result (RepliesByOwnHistory self.old event.now out.old.items out.new.items) }
        ensures own { OnOk result (GoesByOwnEvent self.old event.now self.new) }
        ensures others { OnOk result (LeavesOthers self.old event.now self.new) }
        ensures begins { OnOk result (BeginsAsRowsSay self.old event.now self.new) }
    {
        let _ = &self.parts;
        match event {
            SuiteEvent::Scan(rows, label) => self.take_scan(rows.as_slice(), *label, out),
            SuiteEvent::At(part, event) => self.take_at(*part, *event, out),
        }
    }

    /// Takes the events in order, and adds one output for each to `out`.
    ///
    /// After a fault, the events before the place that it names are taken, with their outputs. The event there and
    /// those after it did nothing.
    pub fn run(
        &mut self,
        events: &[SuiteEvent<A>],
        out: &mut Vec<StepOut<A>, A>,
    ) -> Result<(), SuiteFault>
        requires { All IsSuiteEvent events.now }

        // The events before the place of a fault are taken, or all if it succeeds. The suite that is left refuses the
        // event at that place, or memory is missing for it.
        ensures ran { Ran self.old self.new out.old.items out.new.items events.now (done (length events.now) result) }
        ensures place { IfErr result (λ why. why.place < length events.now) }
        ensures cause { IfErr result (λ why. (d : SuiteEvent A) →
            IsCause (refusal self.new (slice_index_or events.now why.place d)) why.fault) }

        // For the events that are taken, this is what it means for each part: its replies and its trace follow from its
        // own history alone. A part that a scan begins has a history that begins with the `down` of its row.
        ensures replies { ReplyByOwnHistory self.old events.now (done (length events.now) result) }
        ensures own { GoByOwnEvents self.old events.now (done (length events.now) result) }
        ensures others { LeaveOthers self.old events.now (done (length events.now) result) }
        ensures begins { BeginAsRowsSay self.old events.now (done (length events.now) result) }
    {
        let _ = &self.parts;
        for (place, event) in events.iter().enumerate() {
            if let Err(fault) = self.step(event, out) {
                return Err(SuiteFault { place, fault });
            }
        }
        Ok(())
    }
}
