//! The host of all services.
ghost use Rattle.std.specs.Prelude.{◌≡◌, ◌+◌, ◌-◌, ◌≤◌, ◌++◌, ◌<◌, [], None, true, false};
ghost use Rattle.std.specs.Prelude.{IfOk, OnOk, length, slice_index_or, vec_len, vec_capacity};
ghost use Rattle.scan_table.specs.Scan.{AreRising};
ghost use Rattle.scan_table.specs.Order.{scan_refusal};
ghost use Rattle.scan_table.specs.Table.{scanned};
ghost use Rattle.svc_host.specs.Calls.{GivesBack, HandsOutNone};
ghost use Rattle.svc_host.specs.Ending.{EndSteps, IsEndStep};
ghost use Rattle.svc_host.specs.Outputs.{EndsInput, EndsOutput};
ghost use Rattle.svc_host.specs.Parts.{AreHeard, HostPart, IsGoneIfEnded, IsHearing, IsJoined, PartGoesOn};
ghost use Rattle.svc_host.specs.Rounds.{BeginsAll, BeginsOne, Forgets, IsScan, after_ends, staying, unmade_ids};

use crate::ending::{lives, may_leave};
use crate::ends::open_box;
use crate::factory::{PartFactory, Rooms};
use crate::maker::{Maker, PartFault};
use crate::part::{Loss, Part};
use crate::parts::{
    any_owes, forget_losses, losses, owing_ids, post_to, running, running_ids, service_runs,
    sight_at, status_of, stays,
};
use crate::shared::Activity;
use scan_table::{DirRow, PartId, Role, ScanFault, ScanOut, ScanTable};
use std::alloc::{AllocError, Global};
use std::marker::Model;
use std::mem;
use std::sync::{Arc, Wait};
use std::time::Duration;
use svc_house::{ControlSender, MailInbox, Notifier, Runtime};
use tai_status::{Label, Name, View};
use thiserror::Error;

/// What a scan of the host did.
#[derive(Drop)]
pub struct HostOut {
    /// What the scan of the table started, restarted, dropped and refused.
    pub scan: ScanOut,
    /// The parts that it started or restarted and that could not be made. They have ended, and the host does not have
    /// them.
    pub failed: Vec<Unmade>,
}

/// A part that could not be made, and why.
#[derive(Clone, Copy, Debug, PartialEq, Eq)]
pub struct Unmade {
    pub part: PartId,
    pub fault: PartFault,
}

/// Why a control byte was not posted.
#[derive(Clone, Copy, Debug, PartialEq, Eq, Error)]
pub enum PostFault {
    /// The host has no such part now.
    #[error("NoSuchPart")]
    NoSuchPart,
    /// Its mailbox is full.
    #[error("Full")]
    Full,
}

/// The host of all services of one svscan. Contracts see it as `HostState`: the table of slots, and the parts that the
/// host has. Whatever was called, what the host did so far is a run from a host without parts (`CameToBe`).
#[derive(Drop)]
pub struct Host<M: Maker + Drop, R: Runtime> {
    factory: PartFactory<M, R>,
    table: ScanTable,
    parts: Vec<Part<R>>,
    // The count of activity when all traces were last kept.
    kept_at: Option<u64>,
}

impl<M: Maker + Drop, R: Runtime> Model for Host<M, R> {
    ghost use Rattle.svc_host.specs.HostRun.{CameToBe};
    ghost use Rattle.svc_host.specs.Rounds.{HostState};

    ghost Value = { HostState };

    ghost view = { λ host. record {
      table = host.table;
      parts = host.parts.items;
      calls = M.calls host.factory.maker;
    } };

    ghost invariant = { λ host. CameToBe (record {
      table = host.table;
      parts = host.parts.items;
      calls = M.calls host.factory.maker;
    }) };
}

/// What a scan found, and the room that the rest of its round needs.
#[derive(Drop)]
struct Scanned {
    table: ScanTable,
    scan: ScanOut,
    // The parts that start, and then those that restart.
    ids: Vec<PartId>,
    // Room for as many parts that can't be made.
    failed: Vec<Unmade>,
}

/// Scans a copy of the table, and takes the room that the rest of the round needs. Fails if there is no memory, for a
/// scan that would be refused for no other reason.
fn scan<T: Drop>(
    alloc: Global,
    table: &ScanTable,
    rows: &[DirRow],
    parts: &mut Vec<T>,
) -> Result<Scanned, AllocError>
    requires { scan_refusal table.now rows.now ≡ None }

    // What was scanned.
    ensures rising { OnOk result (AreRising rows.now) }
    ensures scan { IfOk result (λ found. IsScan table.now rows.now found.scan) }
    ensures table { IfOk result (λ found. found.table ≡ scanned table.now rows.now) }
    ensures ids { IfOk result (λ found. found.ids.items ≡ found.scan.starts ++ found.scan.restarts) }

    // There is room for each part that begins, and for each that fails. The parts that are there stay.
    ensures failed { IfOk result (λ found. found.failed.items ≡ []) }
    ensures failed_room { IfOk result (λ found. vec_len found.ids ≤ vec_capacity found.failed) }
    ensures parts { parts.new.items ≡ parts.old.items }
    ensures parts_room { IfOk result (λ found. vec_len parts.new + vec_len found.ids ≤ vec_capacity parts.new) }
{
    let mut copy = table.copy()?;
    let Ok(scan) = copy.scan(rows) else {
        return Err(AllocError);
    };
    let count = scan.starts.len() + scan.restarts.len();
    let mut ids = Vec::with_capacity(alloc, count)?;
    ids.extend_from_slice(scan.starts.as_slice())?;
    ids.extend_from_slice(scan.restarts.as_slice())?;
    parts.reserve(ids.len())?;
    Ok(Scanned {
        table: copy,
        failed: Vec::with_capacity(alloc, ids.len())?,
        scan,
        ids,
    })
}

/// Removes the parts that a scan drops or restarts, and forgets the slots that it drops.
fn take_away<M: Maker + Drop, R: Runtime>(
    factory: &mut PartFactory<M, R>,
    parts: &mut Vec<Part<R>>,
    scan: &ScanOut,
)
    ensures parts { parts.new.items ≡ staying scan.now parts.old.items }
    ensures forgets { Forgets scan.now.drops (M.calls factory.old.maker) (M.calls factory.new.maker) }
    ensures room { vec_len parts.new + (vec_capacity parts.old - vec_len parts.old) ≤ vec_capacity parts.new }
{
    let drops = scan.drops.as_slice();
    let restarts = scan.restarts.as_slice();
    parts.retain(|part| stays(part.id(), drops, restarts));
    for slot in drops {
        factory.forget(*slot);
    }
}

/// The parts that the host has, and those of a scan that could not be made.
#[derive(Drop)]
struct BegunParts<R: Wait + Drop> {
    parts: Vec<Part<R>>,
    failed: Vec<Unmade>,
}

/// Begins a part, or notes that it can't be made.
fn begin_one<M: Maker + Drop, R: Runtime>(
    factory: &mut PartFactory<M, R>,
    table: &ScanTable,
    rows: &[DirRow],
    label: Label,
    id: PartId,
    begun: &mut BegunParts<R>,
)
    requires rising { AreRising rows.now }
    requires parts_room { vec_len begun.old.parts < vec_capacity begun.old.parts }
    requires failed_room { vec_len begun.old.failed < vec_capacity begun.old.failed }

    // The part is added, or why it can't be made.
    ensures begun { BeginsOne table.now.slots rows.now label id begun.old begun.new
        (M.calls factory.old.maker) (M.calls factory.new.maker) }

    // It takes at most one place in each list, and no other room.
    ensures parts_len { vec_len begun.new.parts ≤ vec_len begun.old.parts + 1 }
    ensures failed_len { vec_len begun.new.failed ≤ vec_len begun.old.failed + 1 }
    ensures parts_room { vec_capacity begun.new.parts ≡ vec_capacity begun.old.parts }
    ensures failed_room { vec_capacity begun.new.failed ≡ vec_capacity begun.old.failed }
{
    match factory.begin(table, rows, label, id) {
        Ok(part) => begun.parts.push_reserved(part),
        Err(fault) => begun.failed.push_reserved(Unmade { part: id, fault }),
    }
}

/// Begins parts one after the other, and notes those that can't be made.
fn begin_all<M: Maker + Drop, R: Runtime>(
    factory: &mut PartFactory<M, R>,
    table: &ScanTable,
    rows: &[DirRow],
    label: Label,
    ids: &[PartId],
    begun: &mut BegunParts<R>,
)
    requires rising { AreRising rows.now }
    requires parts_room { vec_len begun.old.parts + length ids.now ≤ vec_capacity begun.old.parts }
    requires failed_room { vec_len begun.old.failed + length ids.now ≤ vec_capacity begun.old.failed }
    requires failed { begun.old.failed.items ≡ [] }
    ensures { BeginsAll table.now.slots rows.now label ids.now begun.old begun.new
        (M.calls factory.old.maker) (M.calls factory.new.maker) }
{
    for id in ids {
        begin_one(factory, table, rows, label, *id, begun);
    }
}

/// Records in the table that the parts which could not be made have ended.
fn end_all(table: &mut ScanTable, failed: &[Unmade])
    ensures { table.new ≡ after_ends (unmade_ids failed.now) table.old }
{
    for unmade in failed {
        table.ended(unmade.part);
    }
}

/// Joins the thread of a part, keeps its last trace, closes its mailbox to the outside, and notes what was lost.
/// Returns whether the thread is joined. If its service has not begun, the part stays as it was.
fn join_part<M: Maker + Drop, R: Runtime>(
    factory: &mut PartFactory<M, R>,
    part: &mut Part<R>,
) -> bool
    ensures same { PartGoesOn part.old part.new }

    // If it is joined.
    ensures joined { result ≡ true → IsJoined part.new }
    ensures gone { IsGoneIfEnded part.new }
    ensures gives_back { result ≡ true
        → GivesBack part.old part.new (M.calls factory.old.maker) (M.calls factory.new.maker) }

    // If its service has not begun.
    ensures unbegun { result ≡ false → part.new ≡ part.old }
    ensures kept { result ≡ false → factory.new ≡ factory.old }
{
    if !part.join(&factory.rt, factory.alloc) {
        return false;
    }
    let has_trace = factory.keep_trace(part);
    factory.maker.ended(part.id());
    part.note_loss(&factory.rt, factory.rooms.mail, has_trace);
    true
}

/// Keeps the trace of the part at a place if it has grown. Returns whether its newest trace is kept.
fn keep_trace<M: Maker + Drop, R: Runtime>(
    factory: &mut PartFactory<M, R>,
    parts: &mut Vec<Part<R>>,
    place: usize,
) -> bool
    requires { place < length parts.old.items }
    ensures step { IsHearing parts.old.items place parts.new.items }
    ensures hands { HandsOutNone (M.calls factory.old.maker) (M.calls factory.new.maker) }
{
    let part = &mut parts[place];
    factory.keep_trace(part)
}

/// Keeps the traces that have grown. Returns whether all newest traces are kept.
fn keep_traces<M: Maker + Drop, R: Runtime>(
    factory: &mut PartFactory<M, R>,
    parts: &mut Vec<Part<R>>,
) -> bool
    ensures parts { AreHeard parts.old.items parts.new.items }
    ensures hands { HandsOutNone (M.calls factory.old.maker) (M.calls factory.new.maker) }
{
    let mut all = true;
    for place in 0..parts.len() {
        all = keep_trace(factory, parts, place) && all;
    }
    all
}

/// Returns how many milliseconds ago a pair began to wait for its end. Returns 0 while the service itself runs.
fn waited_for<M: Maker + Drop, R: Runtime>(
    factory: &mut PartFactory<M, R>,
    slot: u64,
    service_runs: bool,
) -> u64
    ensures { M.calls factory.new.maker ≡ M.calls factory.old.maker }
{
    if service_runs {
        0
    } else {
        factory.wait_on(slot)
    }
}

/// Ends the input of a logger that was asked to exit with its process, after all that its service wrote. Ends no other
/// part's input.
fn end_input<M: Maker + Drop, R: Runtime>(factory: &mut PartFactory<M, R>, part: &Part<R>)
    ensures { EndsInput part.now (M.calls factory.old.maker) (M.calls factory.new.maker) }
{
    let id = part.id();
    if part.is_reported() && id.role == Role::Log {
        factory.maker.end_output(id.slot, false);
    }
}

/// Posts the next step in the end of all services to the part at a place.
fn end_part<M: Maker + Drop, R: Runtime>(
    factory: &mut PartFactory<M, R>,
    parts: &mut Vec<Part<R>>,
    place: usize,
)
    requires { place < length parts.old.items }
    ensures step { IsEndStep parts.old.items place parts.new.items }
    ensures input { (d : HostPart) → EndsInput (slice_index_or parts.old.items place d)
        (M.calls factory.old.maker) (M.calls factory.new.maker) }
{
    let slot = parts[place].id().slot;
    let service_runs = service_runs(parts, slot);
    let waited = waited_for(factory, slot, service_runs);
    end_input(factory, &parts[place]);
    parts[place].end_next(&factory.rt, service_runs, waited);
}

/// Posts the next step in the end of all services to each part.
fn end_parts<M: Maker + Drop, R: Runtime>(factory: &mut PartFactory<M, R>, parts: &mut Vec<Part<R>>)
    ensures { EndSteps (length parts.old.items) parts.old.items parts.new.items }
{
    for place in 0..parts.len() {
        end_part(factory, parts, place);
    }
}

/// Lets the output of a slot's service end. `is_put` says whether all of it is in the input of its logger. Returns
/// whether svscan may leave the pair.
fn end_output<M: Maker + Drop, R: Runtime>(
    maker: &mut M,
    parts: &mut Vec<Part<R>>,
    slot: u64,
    is_put: bool,
) -> bool
    ensures { EndsOutput slot is_put result parts.old.items parts.new.items (M.calls maker.old) (M.calls maker.new) }
{
    let at_once = lives(sight_at(parts, slot, Role::Main));
    maker.end_output(slot, at_once);
    let is_read = maker.is_read(slot);
    may_leave(is_put, is_read, sight_at(parts, slot, Role::Log))
}

/// Lets the output of the pair at a place end. Returns whether svscan may leave the pair.
fn end_pair<M: Maker + Drop, R: Runtime>(
    factory: &mut PartFactory<M, R>,
    parts: &mut Vec<Part<R>>,
    at: usize,
) -> bool
    ensures { AreHeard parts.old.items parts.new.items }
{
    let Some(pair) = factory.pairs.get(at) else {
        return true;
    };
    let slot = pair.slot;
    let is_put = pair.is_put();
    end_output(&mut factory.maker, parts, slot, is_put)
}

impl<M: Maker + Drop, R: Runtime> Host<M, R> {
    ghost use Rattle.std.specs.Prelude.{◌≡◌, ◌↔◌, ◌<◌, ◌≤◌, [], Err, IfOk, IfErr, IfSome, OnErr, MatchOption};
    ghost use Rattle.std.specs.Prelude.{true, false};
    ghost use Rattle.std.specs.Prelude.{length, map, option_copied, option_map, slice_index_or};
    ghost use Rattle.std.specs.Fn.{FnOnceReturnsAtMut};
    ghost use Rattle.scan_table.specs.Table.{after_end, name_of, new_table, slot_at};
    ghost use Rattle.svc_host.specs.Ending.{EndsAll};
    ghost use Rattle.svc_host.specs.Parts.{AreHeard, HostPart, IsFullAt, IsGoneIfEnded, IsJoined};
    ghost use Rattle.svc_host.specs.Parts.{IsNowhere, IsPost, IsReading, IsStep};
    ghost use Rattle.svc_host.specs.Parts.{count_running, losses_in, running_ids, without_loss};
    ghost use Rattle.svc_host.specs.Calls.{HandsOut, HandsOutNone, returned_by};
    ghost use Rattle.svc_host.specs.Outputs.{CountsLost};
    ghost use Rattle.svc_host.specs.Rounds.{AreCollected, HostState, IsCause, IsScanned};
    ghost use Rattle.svc_host.specs.HostRun.{CameToBe, Runs};
    ghost use Rattle.scan_table.specs.Whole.{is_whole};
    ghost use Rattle.svc_house.specs.Mail.{receiver_in, sender_in};
    ghost use Rattle.svc_mail.specs.Ends.{home, posted, receiver_home, taken_by};

    /// Makes a host without parts, over a maker. Each part gets a mailbox with room for `mail_capacity` control bytes
    /// and a trace of `trace_capacity` entries. Each pair gets a box for `mail_capacity` pieces.
    pub fn new(
        rt: R,
        alloc: Global,
        maker: M,
        mail_capacity: usize,
        trace_capacity: usize,
    ) -> Result<Host<M, R>, AllocError>
        requires mail { 0 < mail_capacity }
        requires trace { (0 < trace_capacity) × (trace_capacity ≤ 65536) }
        ensures { IfOk result (λ host. host ≡ record { table = new_table 0; parts = []; calls = M.calls maker }) }
    {
        Ok(Host {
            factory: PartFactory {
                rt,
                alloc,
                maker,
                pairs: Vec::new(alloc),
                notifier: Arc::new(alloc, Notifier::new())?,
                activity: Arc::new(alloc, Activity::new())?,
                rooms: Rooms {
                    mail: mail_capacity,
                    trace: trace_capacity,
                },
            },
            table: ScanTable::new(alloc, 0)?,
            parts: Vec::new(alloc),
            kept_at: None,
        })
    }

    /// Posts a control byte to a part. Returns `NoSuchPart` exactly if the host does not have the part, and `Full` if
    /// its mailbox is full.
    pub fn post(&mut self, id: PartId, byte: u8) -> Result<(), PostFault>
        // The byte is in the mailbox of that part, or the result says why not.
        ensures there { (result ≡ Err PostFault.NoSuchPart) ↔ IsNowhere id self.old.parts }
        ensures posted { IfOk result (λ _. IsPost self.old.parts id byte self.new.parts) }
        ensures full { (result ≡ Err PostFault.Full) → IsFullAt id self.old.parts }

        // Nothing else changes.
        ensures table { self.new.table ≡ self.old.table }
        ensures unchanged { OnErr result (self.new ≡ self.old) }
        ensures runs { Runs self.old self.new }
    {
        post_to(&self.factory.rt, &mut self.parts, id, byte)
    }

    /// Returns what the status record of a part reports, after the events that were read of it. These begin with all
    /// that were read before. Returns None exactly if the host does not have the part.
    pub fn status(&mut self, id: PartId) -> Option<View>
        ensures table { self.new.table ≡ self.old.table }
        ensures parts { AreHeard self.old.parts self.new.parts }
        ensures there { MatchOption result (IsNowhere id self.old.parts)
            (λ view. IsReading id self.new.parts view) }
        ensures runs { Runs self.old self.new }
    {
        status_of(&mut self.parts, id)
    }

    /// Asks the maker for something, once. The parts stay as they were.
    pub fn ask_maker<T, F: FnOnce(&mut M) -> T>(&mut self, ask: F) -> T
        requires { F.IsAlwaysCallable ask }
        ensures asked { (before after : M) × (M.calls before ≡ self.old.calls) × (M.calls after ≡ self.new.calls)
            × FnOnceReturnsAtMut F.FnOnce ask before result after }
        ensures table { self.new.table ≡ self.old.table }
        ensures parts { self.new.parts ≡ self.old.parts }
        ensures runs { Runs self.old self.new }
    {
        ask(&mut self.factory.maker)
    }

    /// Rests until a part has ended, and at most this long. It may return early.
    pub fn rest(&self, longest: Duration) {
        self.factory.notifier.wait(&self.factory.rt, Some(longest));
    }

    /// Returns a count of what has happened to the services. The count differs if anything has happened since,
    /// including ends.
    pub fn activity(&self) -> u64 {
        self.factory.activity.count()
    }

    /// Keeps the traces of running services that have grown.
    pub fn keep_traces(&mut self)
        ensures table { self.new.table ≡ self.old.table }
        ensures parts { AreHeard self.old.parts self.new.parts }
        ensures hands { HandsOutNone self.old.calls self.new.calls }
        ensures runs { Runs self.old self.new }
    {
        // This comes before the traces are read, so that whatever happens meanwhile is seen the next time.
        let now = Some(self.activity());
        if self.kept_at == now {
            return;
        }
        if keep_traces(&mut self.factory, &mut self.parts) {
            self.kept_at = now;
        }
    }

    // Joins the thread of the part at a place, if the part has ended. Returns whether it was joined.
    fn reap(&mut self, place: usize) -> bool
        requires { place < length self.old.parts }
        ensures parts { IsStep self.old.parts place self.new.parts }

        // If it was joined, it had not ended before, and the table has its end.
        ensures ended { result ≡ true → (d : HostPart)
            → self.new.table ≡ after_end self.old.table (slice_index_or self.old.parts place d).id }
        ensures ran { result ≡ true → (d : HostPart) → (slice_index_or self.old.parts place d).has_ended ≡ false }
        ensures joined { result ≡ true → (d : HostPart) → IsJoined (slice_index_or self.new.parts place d) }
        ensures gone { result ≡ true → (d : HostPart) → IsGoneIfEnded (slice_index_or self.new.parts place d) }

        // If it was not joined, nothing changes.
        ensures table { result ≡ false → self.new.table ≡ self.old.table }
        ensures same { result ≡ false → self.new.parts ≡ self.old.parts }

        // What the maker was asked.
        ensures returned { (d : HostPart) → HandsOut self.old.calls self.new.calls []
            (returned_by result (slice_index_or self.old.parts place d).id) }
    {
        let part = &mut self.parts[place];
        if !part.is_to_be_joined() {
            return false;
        }
        if !join_part(&mut self.factory, part) {
            return false;
        }
        let id = part.id();
        self.table.ended(id);
        true
    }

    /// Joins the threads of the parts that have ended since the last call, keeps their last traces, and gives back
    /// their resources.
    pub fn collect(&mut self)
        ensures collected { AreCollected self.old self.new }
        ensures runs { Runs self.old self.new }
    {
        for place in 0..self.parts.len() {
            self.reap(place);
        }
    }

    /// States that what the host did so far is a run from a host without parts.
    pub fn has_run(&self)
        ensures { CameToBe self.now }
    {
        let _ = &self.factory;
    }

    /// Returns whether there is a service with this name and none of its parts has ended, as far as threads were
    /// joined. If so, a scan needs no row for it (`ScanTable::whole_need_no_row`).
    pub fn is_whole(&self, name: &str) -> bool
        ensures { result ≡ is_whole self.now.table.slots name.now }
    {
        self.table.is_whole(name)
    }

    /// Scans the rows of the folder. Forgets what is dropped, and makes what starts or restarts and starts its thread.
    /// A part that can't be made has ended.
    ///
    /// After a fault, nothing was started, restarted or dropped. Returns `OutOfMemory` only if nothing else is wrong.
    pub fn scan(&mut self, rows: &[DirRow], label: Label) -> Result<HostOut, ScanFault>
        ensures scanned { IfOk result (λ out. IsScanned self.old rows.now label out self.new) }
        ensures refused { OnErr result (self.new ≡ self.old) }
        ensures cause { IfErr result (λ fault. IsCause self.new.table rows.now fault) }
        ensures runs { Runs self.old self.new }
    {
        if let Err(fault) = self.table.check(rows) {
            return Err(fault);
        }
        let alloc = self.factory.alloc;
        let Ok(found) = scan(alloc, &self.table, rows, &mut self.parts) else {
            return Err(ScanFault::OutOfMemory);
        };
        let Scanned {
            table,
            scan,
            ids,
            failed,
        } = found;
        self.table = table;
        take_away(&mut self.factory, &mut self.parts, &scan);
        let parts = mem::replace(&mut self.parts, Vec::new(alloc));
        let mut begun = BegunParts { parts, failed };
        begin_all(
            &mut self.factory,
            &self.table,
            rows,
            label,
            &ids,
            &mut begun,
        );
        let BegunParts { parts, failed } = begun;
        self.parts = parts;
        end_all(&mut self.table, &failed);
        Ok(HostOut { scan, failed })
    }

    /// Returns what parts lost when they ended, in the order of the parts, as far as it was not forgotten.
    pub fn losses(&self) -> Result<Vec<(PartId, Loss)>, AllocError>
        ensures { IfOk result (λ losses. losses.items ≡ losses_in self.now.parts) }
    {
        losses(self.factory.alloc, &self.parts)
    }

    /// Forgets what parts lost when they ended, and nothing else.
    pub fn forget_losses(&mut self)
        ensures forgets { self.new ≡ record self.old { parts = map without_loss self.old.parts } }
        ensures runs { Runs self.old self.new }
    {
        forget_losses(&mut self.parts);
    }

    /// Returns the name of the service in a slot.
    pub fn name(&self, slot: u64) -> Option<&Name>
        ensures { option_copied result ≡ option_map name_of (slot_at self.now.table.slots slot) }
    {
        self.table.name(slot)
    }

    /// Opens a mailbox for this many control bytes. Each byte posted there ends a rest of the host.
    pub fn own_mailbox(&self, capacity: usize) -> Option<(ControlSender, MailInbox)>
        requires { 0 < capacity }
        ensures same { IfSome result (λ ends. home (sender_in ends.0) ≡ receiver_home (receiver_in ends.1)) }
        ensures unposted { IfSome result (λ ends. posted (sender_in ends.0) ≡ []) }
        ensures untaken { IfSome result (λ ends. taken_by (receiver_in ends.1) ≡ []) }
    {
        let (sender, receiver) = open_box(self.factory.alloc, capacity)?;
        let notifier = Arc::try_clone(&self.factory.notifier).ok()?;
        Some((
            ControlSender::new(sender, notifier),
            MailInbox::new(receiver),
        ))
    }

    /// Returns the parts that run, as far as threads were joined.
    pub fn running_parts(&self) -> Result<Vec<PartId>, AllocError>
        ensures { IfOk result (λ ids. ids.items ≡ running_ids self.now.parts) }
    {
        running_ids(self.factory.alloc, &self.parts)
    }

    /// Returns whether any part runs and owes what it could not write.
    pub fn any_owes(&self) -> bool {
        any_owes(&self.parts)
    }

    /// Returns the parts that run and owe what they could not write.
    pub fn owing_parts(&self) -> Result<Vec<PartId>, AllocError> {
        owing_ids(self.factory.alloc, &self.parts)
    }

    /// Continues the end of all services, in order, with the next step for each part. Returns how many parts still run.
    pub fn end_services(&mut self) -> usize
        ensures each { EndsAll self.old.parts self.new.parts }
        ensures left { result ≡ count_running self.new.parts }
        ensures runs { Runs self.old self.new }
    {
        self.factory.maker.watch_outputs();
        self.collect();
        end_parts(&mut self.factory, &mut self.parts);
        running(&self.parts)
    }

    /// Ends the output of each pair: at once if its service has a process, and otherwise when there is nothing to read
    /// for now. Returns whether svscan may leave all pairs.
    pub fn end_outputs(&mut self) -> bool
        ensures runs { Runs self.old self.new }
    {
        self.factory.maker.watch_outputs();
        self.collect();
        let mut may_leave = true;
        for at in 0..self.factory.pairs.len() {
            may_leave = end_pair(&mut self.factory, &mut self.parts, at) && may_leave;
        }
        may_leave
    }

    /// Ends one pair. Returns its slot, and how many bytes of its output were read and don't reach its logger. Returns
    /// None if no pair is left.
    pub fn take_lost(&mut self) -> Option<(u64, u64)>
        ensures counts { MatchOption result (self.new ≡ self.old) (λ lost. CountsLost lost.0 lost.1 self.old self.new) }
        ensures table { self.new.table ≡ self.old.table }
        ensures parts { AreHeard self.old.parts self.new.parts }
        ensures runs { Runs self.old self.new }
    {
        let pair = self.factory.pairs.pop()?;
        let has_logger = lives(sight_at(&mut self.parts, pair.slot, Role::Log));
        self.factory.maker.end_output(pair.slot, true);
        let count = self.factory.maker.lost(pair.slot, has_logger);
        Some((pair.slot, count))
    }
}
