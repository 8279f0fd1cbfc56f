//! The table of slots.
ghost use Rattle.std.specs.Prelude.{◌≡◌, ◌+◌, ◌<◌, ◌≤◌, ◌^◌, ◌++◌, [], false, length, map, vec_len, vec_capacity};
ghost use Rattle.std.specs.Prelude.{option_copied, IfOk, OnOk, OnErr, IfErr, is_some};
ghost use Rattle.std.specs.List.{AllPairs, list_any};
ghost use Rattle.std.specs.Option.{option_map};
ghost use Rattle.scan_table.specs.Scan.{AreRising, is_exhausted, starts, restarts, drops, refused, kept, new_slots};
ghost use Rattle.scan_table.specs.Scan.{IsCause};
ghost use Rattle.scan_table.specs.Table.{new_table, scanned, after_end, is_running, slot_ended, has_running, renewed};
ghost use Rattle.scan_table.specs.Table.{slot_at, has_log, name_of, AreFresh};
ghost use Rattle.scan_table.specs.Order.{fault_of, scan_refusal};
ghost use Rattle.scan_table.specs.Index.{IsBefore, IsTable, AreDistinct, names_of, IsIndex};
ghost use Rattle.scan_table.specs.Whole.{is_whole, WholeNeedNoRow};

use crate::fault::ScanFault;
use crate::index::{index_all, slot_named};
use crate::part::{Numbers, PartId, Parts};
use crate::place::{end_part, restart_all, slot_at};
use crate::plan::{Assignments, Plan, check_scan, keep, plan_scan};
use crate::row::DirRow;
use crate::slot::{Slot, copy_slots};
use std::alloc::{AllocError, Allocator, Global};
use std::marker::Model;
use tai_status::{Name, Names};

/// What a scan did.
#[derive(Drop)]
pub struct ScanOut<A: Allocator = Global> {
    /// The parts of the new slots, in the order of their rows, each service before its logger.
    pub starts: Parts<A>,
    /// The parts that restart, in the order of their rows, each service before its logger.
    pub restarts: Parts<A>,
    /// The numbers of the slots that were dropped, rising.
    pub drops: Numbers<A>,
    /// The names that get no slot since there are too many services, in the order of their rows.
    pub refused: Names<A>,
}

/// The slots of all services, and the counter that numbers slots and lives. No number is given twice. Contracts see it
/// as `TableState`.
#[derive(Drop)]
pub struct ScanTable<A: Allocator + Clone = Global> {
    alloc: A,
    /// The slots, by rising number.
    slots: Vec<Slot<A>, A>,
    /// The places of the slots, by the byte order of their names.
    index: Vec<usize, A>,
    /// The number that is given next.
    next: u64,
}

impl<A: Allocator + Clone> Model for ScanTable<A> {
    ghost use Rattle.scan_table.specs.Table.{TableState};
    ghost use Rattle.scan_table.specs.Index.{IsTable};

    ghost Value = { TableState };

    ghost view = { λ table. record { slots = table.slots.items; next = table.next } };

    ghost invariant = { λ table. IsTable table.slots.items table.next table.index.items };
}

/// Takes the room that new slots need.
fn reserve<A: Allocator>(
    slots: &mut Vec<Slot<A>, A>,
    index: &mut Vec<usize, A>,
    count: usize,
) -> Result<(), AllocError>
    ensures slots { slots.new.items ≡ slots.old.items }
    ensures index { index.new.items ≡ index.old.items }
    ensures slot_room { OnOk result (vec_len slots.new + count ≤ vec_capacity slots.new) }
    ensures index_room { OnOk result (vec_len index.new + count ≤ vec_capacity index.new) }
{
    slots.reserve(count)?;
    index.reserve(count)
}

/// Notes that a part has ended. Returns whether it was there and had not ended.
fn end_in<A: Allocator>(slots: &mut Vec<Slot<A>, A>, part: PartId) -> bool
    requires { AllPairs IsBefore slots.old.items }
    ensures slots { slots.new.items ≡ map (slot_ended part) slots.old.items }
    ensures running { result ≡ list_any (has_running part) slots.old.items }
{
    end_part(slots, part)
}

/// Begins parts of slots in new lives.
fn restart_in<A: Allocator>(slots: &mut Vec<Slot<A>, A>, parts: &[PartId])
    requires { AllPairs IsBefore slots.old.items }
    ensures slots { slots.new.items ≡ map (renewed parts.now) slots.old.items }
    ensures len { vec_len slots.new ≡ vec_len slots.old }
    ensures room { vec_capacity slots.new ≡ vec_capacity slots.old }
{
    restart_all(slots, parts);
}

/// Drops the slots that a scan drops, begins the parts that restart, and adds the new slots at the end.
fn change<A: Allocator>(
    slots: &mut Vec<Slot<A>, A>,
    rows: &[DirRow<A>],
    restarts: &[PartId],
    new: Vec<Slot<A>, A>,
)
    requires rows { AreRising rows.now }
    requires rising { AllPairs IsBefore slots.old.items }
    requires room { vec_len slots.old + vec_len new ≤ vec_capacity slots.old }
    ensures { slots.new.items ≡ map (renewed restarts.now) (kept slots.old.items rows.now) ++ new.items }
{
    keep(slots, rows);
    restart_in(slots, restarts);
    let mut new = new;
    let _ = slots.append(&mut new);
}

/// Takes the room that a scan needs, and then carries the scan out. If the room is refused, nothing changes.
fn carry_out<A: Allocator>(
    slots: &mut Vec<Slot<A>, A>,
    index: &mut Vec<usize, A>,
    rows: &[DirRow<A>],
    restarts: &[PartId],
    new: Vec<Slot<A>, A>,
) -> Result<(), AllocError>
    // The names of the rows rise, the numbers of the slots rise, and the index has a place for each slot. After the
    // scan no two slots have the same name.
    requires rows { AreRising rows.now }
    requires rising { AllPairs IsBefore slots.old.items }
    requires whole { length index.old.items ≡ length slots.old.items }
    requires distinct { AreDistinct (map (renewed restarts.now) (kept slots.old.items rows.now) ++ new.items) }

    // If it succeeds, the slots that stay come first, with the new lives of their parts, and then the new slots. The
    // index has them all.
    ensures slots { OnOk result (slots.new.items
        ≡ map (renewed restarts.now) (kept slots.old.items rows.now) ++ new.items) }
    ensures index { OnOk result (IsIndex (names_of slots.new.items) index.new.items) }
    ensures whole { OnOk result (length index.new.items ≡ length slots.new.items) }

    // If it fails, the slots and the index are as they were.
    ensures slots_stay { OnErr result (slots.new.items ≡ slots.old.items) }
    ensures index_stays { OnErr result (index.new.items ≡ index.old.items) }
{
    reserve(slots, index, new.len())?;
    change(slots, rows, restarts, new);
    index_all(slots, index);
    Ok(())
}

impl<A: Allocator + Clone> ScanTable<A> {
    /// Returns a table without slots. This is its first number.
    pub fn new(alloc: A, next: u64) -> Result<ScanTable<A>, AllocError>
        ensures { IfOk result (λ table. table ≡ new_table next) }
    {
        Ok(ScanTable {
            slots: Vec::new(alloc.clone()?),
            index: Vec::new(alloc.clone()?),
            alloc,
            next,
        })
    }

    /// Returns how many slots there are.
    pub fn slots(&self) -> usize
        ensures { result ≡ length self.now.slots }
    {
        self.slots.len()
    }

    /// Returns the name of the service in the slot with a number.
    pub fn name(&self, slot: u64) -> Option<&Name<A>>
        ensures { option_copied result ≡ option_map name_of (slot_at self.now.slots slot) }
    {
        match slot_at(&self.slots, slot) {
            Some(slot) => Some(&slot.name),
            None => None,
        }
    }

    /// Returns whether there is a slot with this number, and it is a pair.
    pub fn is_pair(&self, slot: u64) -> bool
        ensures { result ≡ has_log (slot_at self.now.slots slot) }
    {
        match slot_at(&self.slots, slot) {
            Some(slot) => slot.log.is_some(),
            None => false,
        }
    }

    /// Returns whether there is a service with this name, and no part of it has ended.
    pub fn is_whole(&self, name: &str) -> bool
        ensures { result ≡ is_whole self.now.slots name.now }
    {
        match slot_named(&self.slots, &self.index, name) {
            Some(slot) => slot.none_ended(),
            None => false,
        }
    }

    /// States a law: a scan does the same without the rows of the services with no ended part. Whoever lists a folder
    /// therefore need not look at these.
    pub fn whole_need_no_row(&self)
        ensures { WholeNeedNoRow self.now }
    {
        let _count = self.slots.len();
    }

    /// Notes that a part has ended. Returns whether it was there and had not ended. No other part changes.
    pub fn ended(&mut self, part: PartId) -> bool
        ensures running { result ≡ is_running self.old part }
        ensures table { self.new ≡ after_end self.old part }
    {
        end_in(&mut self.slots, part)
    }

    /// Copies the table.
    pub fn copy(&self) -> Result<ScanTable<A>, AllocError>
        ensures { IfOk result (λ copy. copy ≡ self.now) }
    {
        Ok(ScanTable {
            alloc: self.alloc.clone()?,
            slots: copy_slots(&self.alloc, &self.slots)?,
            index: self.index.to_vec(self.alloc.clone()?)?,
            next: self.next,
        })
    }

    /// Returns why a scan of these rows would be refused, apart from a lack of memory. Needs no memory.
    pub fn check(&self, rows: &[DirRow<A>]) -> Result<(), ScanFault>
        ensures exact { fault_of result ≡ scan_refusal self.now rows.now }
        ensures rising { OnOk result (AreRising rows.now) }
    {
        check_scan(&self.slots, &self.index, rows, self.next)
    }

    /// Takes in the entries of the folder. Their rows must rise by the byte order of their names.
    ///
    /// A service without a row goes after its parts have ended. Then each eligible row, in order, restarts each part of
    /// its service that has ended, or gets a new slot, if there are fewer than `MAX_SLOTS`. If there are as many, its
    /// name is refused. A row is eligible if it is a directory with a name that is not empty and does not begin with a
    /// dot. A new slot is a pair, the service and its logger, if the row has a log and its name has at most 255 bytes.
    ///
    /// `Unsorted` and `Twice` name the first place at which the names do not rise, and are reported first. `Exhausted`
    /// is returned if fewer numbers are left than the scan needs, and `OutOfMemory` only if nothing else is wrong.
    /// After a fault the table is as it was.
    pub fn scan(&mut self, rows: &[DirRow<A>]) -> Result<ScanOut<A>, ScanFault>
        // If it succeeds, what it returns and the new table are those of a scan of the old table.
        ensures starts { IfOk result (λ out. out.starts ≡ starts self.old.slots self.old.next rows.now) }
        ensures restarts { IfOk result (λ out. out.restarts ≡ restarts self.old.slots self.old.next rows.now) }
        ensures drops { IfOk result (λ out. out.drops ≡ drops self.old.slots rows.now) }
        ensures refused { IfOk result (λ out. out.refused ≡ refused self.old.slots rows.now) }
        ensures table { OnOk result (self.new ≡ scanned self.old rows.now) }

        // This scan gave the numbers of these lives, and no scan before or after it gives them.
        ensures fresh_starts { IfOk result (λ out. AreFresh self.old.next self.new.next out.starts) }
        ensures fresh_restarts { IfOk result (λ out. AreFresh self.old.next self.new.next out.restarts) }

        // If it succeeds, the names of the rows rise, and there were enough numbers.
        ensures rising { OnOk result (AreRising rows.now) }
        ensures enough { OnOk result (is_exhausted self.old.slots self.old.next rows.now ≡ false) }

        // If it fails, the table is as it was. The reason is the first that applies: the order of the rows, the
        // numbers, the memory.
        ensures unchanged { OnErr result (self.new ≡ self.old) }
        ensures cause { IfErr result (λ fault. IsCause self.old.slots self.old.next rows.now fault) }
    {
        let plan = plan_scan(&self.alloc, &self.slots, &self.index, rows, self.next)?;
        let Plan {
            starts,
            drops,
            assigned,
        } = plan;
        let Assignments {
            slots,
            restarts,
            refused,
            number,
            ..
        } = assigned;
        let Ok(()) = carry_out(&mut self.slots, &mut self.index, rows, &restarts, slots) else {
            return Err(ScanFault::OutOfMemory);
        };
        self.next = number;
        Ok(ScanOut {
            starts: Parts::from_vec(starts),
            restarts: Parts::from_vec(restarts),
            drops: Numbers::from_vec(drops),
            refused: Names::from_vec(refused),
        })
    }
}
