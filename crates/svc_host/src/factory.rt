//! What makes and starts parts and pairs.
ghost use Rattle.std.specs.Prelude.{◌≡◌, ◌≤◌, ◌<◌, IfOk, MatchBool, Some, length};
ghost use Rattle.std.specs.Result.{result_err};
ghost use Rattle.svc_house.specs.Calls.{MadeWhileKept};
ghost use Rattle.svc_host.specs.Calls.{AsksByName, AsksPart, ForgotSlot, HandsOutNone, HandsOutOne, HandsTrace};
ghost use Rattle.svc_host.specs.Calls.{KeptTrace};
ghost use Rattle.svc_host.specs.Calls.{StartsIfPair, StartsPair, has_pair, opening_in, pairs_without};
ghost use Rattle.svc_record.specs.Opening.{beginning};
ghost use Rattle.scan_table.specs.Scan.{AreRising};
ghost use Rattle.svc_host.specs.Parts.{IsHeard};
ghost use Rattle.svc_host.specs.Begun.{Begins, HasRooms, IsBegun};

use crate::ends::{PartEnds, open_station};
use crate::growth::Growth;
use crate::maker::{Maker, PartFault, PartResources, Reaper};
use crate::pair::Pair;
use crate::part::Part;
use crate::running::{Running, end};
use crate::service::{Beginning, Task};
use crate::shared::Activity;
use scan_table::{DirRow, PartId, ScanTable, find_row};
use std::alloc::Global;
use std::io;
use std::sync::Arc;
use std::thread::Builder;
use svc_house::{Notifier, Runtime};
use svc_station::parked::Parked;
use tai_status::{Cause, Label};

/// How much room each part gets.
#[derive(Clone, Copy)]
pub(crate) struct Rooms {
    /// The control bytes that a mailbox holds, which is also the number of pieces in a pair's box.
    pub(crate) mail: usize,
    /// The entries of a trace.
    pub(crate) trace: usize,
    ghost some_mail: { 0 < mail },
    ghost some_trace: { 0 < trace },
    ghost within_trace: { trace ≤ 65536 },
}

/// Returns whether the threads of the pair in a slot run.
fn has_pair(pairs: &[Pair], slot: u64) -> bool
    ensures { result ≡ has_pair slot pairs.now }
{
    for pair in pairs {
        if pair.slot == slot {
            return true;
        }
    }
    false
}

/// Starts the thread of a reaper.
fn start_reaper<A: Reaper + Drop + Send + 'static, R: Runtime>(rt: R, reaper: A) -> io::Result<()> {
    Builder::new()
        .stack_size(1)
        .spawn(&rt, move || reaper.run(rt))?;
    Ok(())
}

/// Makes parts and pairs, and has the pairs whose threads run.
#[derive(Drop)]
pub(crate) struct PartFactory<M: Maker + Drop, R: Runtime> {
    pub(crate) rt: R,
    pub(crate) alloc: Global,
    pub(crate) maker: M,
    pub(crate) pairs: Vec<Pair>,
    /// The notifier of the host. Each part that has ended notifies it.
    pub(crate) notifier: Arc<Notifier, Global>,
    pub(crate) activity: Arc<Activity, Global>,
    pub(crate) rooms: Rooms,
}

impl<M: Maker + Drop, R: Runtime> PartFactory<M, R> {
    /// Makes a part of the service with this name and starts its thread, or makes nothing.
    fn make(
        &mut self,
        name: &str,
        id: PartId,
        down: bool,
        label: Label,
    ) -> Result<Part<R>, PartFault>
        ensures begun { IfOk result (λ part. IsBegun id (beginning part.opening down label) part) }
        ensures rooms { IfOk result (HasRooms self.old.rooms.mail self.old.rooms.trace) }
        ensures asks { AsksPart id name.now (opening_in result) (M.calls self.old.maker) (M.calls self.new.maker) }
    {
        let PartEnds {
            shared,
            own,
            notifier,
            inside,
            outside,
            timer,
            receiver,
        } = PartEnds::open(self.alloc, &self.notifier, &self.activity, self.rooms.mail)?;
        let PartResources {
            world,
            gate,
            reaper,
            opening,
        } = self.maker.part(name, id, outside, notifier)?;
        let machine = opening.machine(down, label);
        let adopted = machine.view().pid;
        let Some((writer, status_reader)) = open_station(
            &self.rt,
            self.alloc,
            machine,
            self.rooms.trace,
        ) else {
            self.maker.ended(id);
            return Err(PartFault::Refused(Cause::NoMemory));
        };
        if start_reaper(self.rt, reaper).is_err() {
            self.maker.ended(id);
            end(&self.rt, writer, status_reader);
            return Err(PartFault::Refused(Cause::NoThread));
        }
        let task = Task {
            parked: Parked::new(writer, self.rt),
            world,
            gate,
            receiver,
            timer,
            begins: Beginning {
                opening,
                down,
                label,
            },
            shared: own,
        };
        let Some(running) = Running::start(self.rt, task, status_reader, shared) else {
            self.maker.ended(id);
            return Err(PartFault::Refused(Cause::NoThread));
        };
        self.activity.note();
        Ok(Part::new(id, opening, adopted, inside, running))
    }

    /// Makes a part of the table and starts its thread, or makes nothing. The part begins by the row of its slot, or as
    /// it was left.
    pub(crate) fn begin(
        &mut self,
        table: &ScanTable,
        rows: &[DirRow],
        label: Label,
        id: PartId,
    ) -> Result<Part<R>, PartFault>
        requires { AreRising rows.now }

        // The part that is made.
        ensures id { IfOk result (λ part. part.id ≡ id) }
        ensures begun { IfOk result (λ part. Begins table.now.slots rows.now label part) }
        ensures rooms { IfOk result (HasRooms self.old.rooms.mail self.old.rooms.trace) }

        // What the maker was asked.
        ensures hands { HandsOutOne id (result_err result) (M.calls self.old.maker) (M.calls self.new.maker) }
        ensures named { AsksByName table.now.slots (M.calls self.old.maker) (M.calls self.new.maker) }
    {
        let Some(name) = table.name(id.slot) else {
            return Err(PartFault::Refused(Cause::Missing));
        };
        if let Err(fault) = self.start_if_pair(table, name.as_str(), id.slot) {
            return Err(fault);
        }
        let Some(row) = find_row(rows, name.as_str()) else {
            return Err(PartFault::Refused(Cause::Missing));
        };
        let down = row.is_down(id.role);
        self.make(name.as_str(), id, down, label)
    }

    // Starts the threads of the pair in a slot if it is a pair and they don't run. A fault says why they can't be made.
    fn start_if_pair(&mut self, table: &ScanTable, name: &str, slot: u64) -> Result<(), PartFault>
        ensures starts { StartsIfPair table.now slot name.now (result_err result) self.old.pairs self.new.pairs
            (M.calls self.old.maker) (M.calls self.new.maker) }
        ensures hands { HandsOutNone (M.calls self.old.maker) (M.calls self.new.maker) }
        ensures rooms { self.new.rooms ≡ self.old.rooms }
    {
        if table.is_pair(slot) {
            return self.start_pair(name, slot);
        }
        Ok(())
    }

    // Starts the threads of a pair if they don't run. A fault says why they can't be made.
    fn start_pair(&mut self, name: &str, slot: u64) -> Result<(), PartFault>
        ensures rooms { self.new.rooms ≡ self.old.rooms }
        ensures starts { StartsPair slot name.now (result_err result) self.old.pairs.items self.new.pairs.items
            (M.calls self.old.maker) (M.calls self.new.maker) }
    {
        if has_pair(&self.pairs, slot) {
            return Ok(());
        }
        if self.pairs.reserve(1).is_err() {
            return Err(PartFault::Refused(Cause::NoMemory));
        }
        let room = self.rooms.mail;
        match Pair::start(self.rt, self.alloc, &mut self.maker, name, slot, room) {
            Ok(pair) => {
                self.pairs.push_reserved(pair);
                Ok(())
            }
            Err(fault) => Err(fault),
        }
    }

    /// Forgets a slot, and lets the threads of its pair end.
    pub(crate) fn forget(&mut self, slot: u64)
        ensures calls { MadeWhileKept M.calls (ForgotSlot slot) self.old.maker self.new.maker }
        ensures pairs { self.new.pairs.items ≡ pairs_without slot self.old.pairs.items }
    {
        self.pairs.retain(|pair| pair.slot != slot);
        self.maker.forget(slot);
    }

    /// Returns how many milliseconds ago this was first asked about the pair in a slot. If there is no pair, returns
    /// more than anybody waits for.
    pub(crate) fn wait_on(&mut self, slot: u64) -> u64
        ensures { M.calls self.new.maker ≡ M.calls self.old.maker }
    {
        for pair in self.pairs.iter_mut() {
            if pair.slot == slot {
                return pair.wait_on(&self.rt);
            }
        }
        u64::MAX
    }

    /// Hands the trace of a part to the maker if it has grown. Returns whether its newest trace is kept.
    pub(crate) fn keep_trace(&mut self, part: &mut Part<R>) -> bool
        ensures heard { IsHeard part.old part.new }
        ensures kept { MatchBool result (part.new.kept ≡ Some (length part.new.known))
            (part.new.kept ≡ part.old.kept) }
        ensures hands { HandsTrace part.old.kept part.new result (M.calls self.old.maker) (M.calls self.new.maker) }
    {
        match part.growth(self.alloc) {
            Growth::None => true,
            Growth::Refused => false,
            Growth::By { count, text } => self.hand_trace(part, count, &text),
        }
    }

    // Hands a trace of a part, with this count of events, to the maker. Returns whether it is kept.
    fn hand_trace(&mut self, part: &mut Part<R>, count: u64, text: &[u8]) -> bool
        ensures handed { MadeWhileKept M.calls (KeptTrace part.old.id text.now result) self.old.maker self.new.maker }
        ensures noted { MatchBool result (part.new ≡ record part.old { kept = Some count }) (part.new ≡ part.old) }
    {
        let kept = self.maker.keep_trace(part.id(), text);
        if kept {
            part.trace_is_kept(count);
        }
        kept
    }
}
