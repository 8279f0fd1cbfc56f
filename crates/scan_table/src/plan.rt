//! What a scan does, planned before anything changes.
ghost use Rattle.std.specs.Prelude.{◌≡◌, ◌+◌, ◌<◌, ◌≤◌, ◌++◌, ◌^◌, ◌∷◌, [], if◌then◌else◌, length, map, take, drop};
ghost use Rattle.std.specs.Prelude.{nat_le, None, Some, false, IfOk, OnOk, IfErr, option_copied, List, ℕ, vec_len};
ghost use Rattle.std.specs.Prelude.{vec_capacity};
ghost use Rattle.std.specs.List.{flat_map};
ghost use Rattle.scan_table.specs.Slots.{is_pair, roles_of, ended_roles, ids_of};
ghost use Rattle.scan_table.specs.Scan.{AreRising, has_row, is_dropped, drops, kept, slot_of, room, need_where};
ghost use Rattle.scan_table.specs.Scan.{needs, is_exhausted, IsCause, lives_from, new_slot, new_slot_where};
ghost use Rattle.scan_table.specs.Scan.{new_slots, restarts, restarts_where, refused, starts};
ghost use Rattle.scan_table.specs.Index.{names_of, IsIndex, ArePassed};
ghost use Rattle.scan_table.specs.Order.{fault_of, scan_refusal};
ghost use Rattle.scan_table.specs.Turns.{turn_need, row_slots, turn_restarts, turn_refused, is_counted};

use crate::fault::ScanFault;
use crate::index::slot_of;
use crate::part::{PartId, Role};
use crate::row::{DirRow, check_order, place_of_row};
use crate::slot::{Life, MAX_SLOTS, Slot, copy_name};
use std::alloc::{AllocError, Allocator, Global};
use tai_status::Name;

/// Returns whether a slot has an eligible row.
fn has_row<A: Allocator>(rows: &[DirRow<A>], slot: &Slot<A>) -> bool
    requires { AreRising rows.now }
    ensures { result ≡ has_row rows.now slot.now }
{
    match place_of_row(rows, slot.name()) {
        Some(place) => rows[place].is_eligible(),
        None => false,
    }
}

/// Returns whether a scan of these rows drops a slot.
fn is_dropped<A: Allocator>(rows: &[DirRow<A>], slot: &Slot<A>) -> bool
    requires { AreRising rows.now }
    ensures { result ≡ is_dropped rows.now slot.now }
{
    slot.all_ended() && !has_row(rows, slot)
}

/// Returns the numbers of the slots that a scan of these rows drops.
fn drops<A: Allocator>(
    alloc: A,
    slots: &[Slot<A>],
    rows: &[DirRow<A>],
) -> Result<Vec<u64, A>, AllocError>
    requires { AreRising rows.now }
    ensures { IfOk result (λ numbers. numbers.items ≡ drops slots.now rows.now) }
{
    let mut numbers = Vec::new(alloc);
    for slot in slots {
        if is_dropped(rows, slot) {
            numbers.push(slot.number())?;
        }
    }
    Ok(numbers)
}

/// Returns how many slots a scan of these rows keeps.
fn kept_count<A: Allocator>(slots: &[Slot<A>], rows: &[DirRow<A>]) -> usize
    requires { AreRising rows.now }
    ensures { result ≡ length (kept slots.now rows.now) }
{
    let mut count = 0;
    for slot in slots {
        if !is_dropped(rows, slot) {
            count += 1;
        }
    }
    count
}

/// Drops the slots that a scan of these rows drops.
pub(crate) fn keep<A: Allocator>(slots: &mut Vec<Slot<A>, A>, rows: &[DirRow<A>])
    requires { AreRising rows.now }
    ensures items { slots.new.items ≡ kept slots.old.items rows.now }
    ensures len { vec_len slots.new ≤ vec_len slots.old }
    ensures room { vec_capacity slots.new ≡ vec_capacity slots.old }
{
    slots.retain(
        |slot|
            requires { AreRising rows.now }
        { !is_dropped(rows, slot) },
    );
}

/// Returns how many numbers a row needs.
fn need<A: Allocator>(slot: Option<&Slot<A>>, row: &DirRow<A>, is_refused: bool) -> u64
    ensures need { result ≡ need_where is_refused row.now (option_copied slot.entry) }
    ensures bound { result ≤ 3 }
{
    match slot {
        Some(slot) => slot.ended_count(),
        None if is_refused => 0,
        None if row.is_pair() => 3,
        None => 2,
    }
}

/// Returns how many numbers a row needs, and whether it has a new name.
fn turn<A: Allocator>(
    slots: &[Slot<A>],
    index: &[usize],
    at: &mut usize,
    row: &DirRow<A>,
    is_refused: bool,
) -> (u64, bool)
    // The index has all slots, and `at` is a place in it or its end. All names before this place are smaller than the
    // row's.
    requires index { IsIndex (names_of slots.now) index.now }
    requires whole { length index.now ≡ length slots.now }
    requires at { at.old ≤ length index.now }
    requires passed { ArePassed (names_of slots.now) index.now at.old row.now.name }

    // A row that is not eligible needs no number, and its name is not new. No row needs more than 3 numbers.
    ensures need { result.0 ≡ turn_need slots.now is_refused row.now }
    ensures new { result.1 ≡ is_counted slots.now row.now }
    ensures bound { result.0 ≤ 3 }

    // All names of the index before the new `at` are smaller than the row's.
    ensures at { at.new ≤ length index.now }
    ensures passed { ArePassed (names_of slots.now) index.now at.new row.now.name }
{
    if !row.is_eligible() {
        return (0, false);
    }
    let slot = slot_of(slots, index, at, row);
    (need(slot, row, is_refused), slot.is_none())
}

/// Returns one for a new name, and zero otherwise.
fn count(is_new: bool) -> usize
    ensures count { result ≡ (if is_new then 1 else 0) }
    ensures bound { result ≤ 1 }
{
    if is_new { 1 } else { 0 }
}

/// Returns whether a scan needs more numbers than are left.
fn is_exhausted<A: Allocator>(
    slots: &[Slot<A>],
    index: &[usize],
    rows: &[DirRow<A>],
    room: usize,
    next: u64,
) -> bool
    requires index { IsIndex (names_of slots.now) index.now }
    requires whole { length index.now ≡ length slots.now }
    requires rising { AreRising rows.now }
    requires room { room ≡ Rattle.scan_table.specs.Scan.room slots.now rows.now }
    ensures { result ≡ is_exhausted slots.now next rows.now }
{
    let mut left = u64::MAX - next;
    let mut made = 0;
    let mut at = 0;
    for row in rows {
        let (need, is_new) = turn(slots, index, &mut at, row, room <= made);
        if need > left {
            return true;
        }
        left -= need;
        made += count(is_new);
    }
    false
}

/// What a scan has assigned so far.
#[derive(Drop)]
pub(crate) struct Assignments<A: Allocator = Global> {
    pub(crate) slots: Vec<Slot<A>, A>,
    pub(crate) restarts: Vec<PartId, A>,
    pub(crate) refused: Vec<Name<A>, A>,
    /// The next number.
    pub(crate) number: u64,
    /// How many new names there were.
    made: usize,
}

/// Adds the restarts of a slot's parts at the end, in lives from this one on.
fn push_restarts<A: Allocator>(
    list: &mut Vec<PartId, A>,
    slot: &Slot<A>,
    number: u64,
) -> Result<(), AllocError>
    requires { number + length (ended_roles slot.now) < 2 ^ 64 }
    ensures { OnOk result (list.new.items
        ≡ list.old.items ++ lives_from number slot.now.number (ended_roles slot.now)) }
{
    let mut life = number;
    if slot.main.has_ended {
        list.push(PartId {
            slot: slot.number,
            role: Role::Main,
            life,
        })?;
        life += 1;
    }
    if let Some(log) = slot.log {
        if log.has_ended {
            list.push(PartId {
                slot: slot.number,
                role: Role::Log,
                life,
            })?;
        }
    }
    Ok(())
}

/// Makes a new slot for a row. Its parts run in the lives after its number.
fn new_slot<A: Allocator>(alloc: A, row: &DirRow<A>, number: u64) -> Result<Slot<A>, AllocError>
    requires { number + 1 + length (roles_of row.now) ≤ 2 ^ 64 }
    ensures { IfOk result (λ slot. slot ≡ new_slot number row.now) }
{
    let name = copy_name(alloc, row.name())?;
    let log = if row.is_pair() {
        Some(Life {
            number: number + 2,
            has_ended: false,
        })
    } else {
        None
    };
    let main = Life {
        number: number + 1,
        has_ended: false,
    };
    Ok(Slot {
        number,
        name,
        main,
        log,
    })
}

impl<A: Allocator + Clone> Assignments<A> {
    /// Assigns its restarts to a row that has a slot.
    fn assign_restarts(&mut self, slot: &Slot<A>) -> Result<(), AllocError>
        requires { self.old.number + length (ended_roles slot.now) < 2 ^ 64 }

        // If it succeeds, each ended part of the slot restarts in a new life, which takes the next number.
        ensures restarts { OnOk result (self.new.restarts.items
            ≡ self.old.restarts.items ++ restarts_where self.old.number (Some slot.now)) }
        ensures number { OnOk result (self.new.number ≡ self.old.number + length (ended_roles slot.now)) }

        // In each outcome all else stays.
        ensures slots { self.new.slots ≡ self.old.slots }
        ensures refused { self.new.refused ≡ self.old.refused }
        ensures made { self.new.made ≡ self.old.made }
    {
        push_restarts(&mut self.restarts, slot, self.number)?;
        self.number += slot.ended_count();
        Ok(())
    }

    /// Assigns a slot to a row with a new name.
    fn assign_slot(&mut self, alloc: &A, row: &DirRow<A>) -> Result<(), AllocError>
        requires fits { self.old.number + 1 + length (roles_of row.now) < 2 ^ 64 }

        // If it succeeds, a new slot comes last. It takes the next number, and its parts take those after it.
        ensures slots { OnOk result (self.new.slots.items
            ≡ self.old.slots.items ++ new_slot self.old.number row.now ∷ []) }
        ensures number { OnOk result (self.new.number ≡ self.old.number + 1 + length (roles_of row.now)) }

        // In each outcome all else stays.
        ensures restarts { self.new.restarts ≡ self.old.restarts }
        ensures refused { self.new.refused ≡ self.old.refused }
        ensures made { self.new.made ≡ self.old.made }
    {
        let slot = new_slot(alloc.clone()?, row, self.number)?;
        self.slots.push(slot)?;
        self.number += if row.is_pair() { 3 } else { 2 };
        Ok(())
    }

    /// Assigns a slot to a row with a new name if there is room, and refuses the name if not.
    fn assign_new(&mut self, alloc: &A, row: &DirRow<A>, room: usize) -> Result<(), AllocError>
        requires fits { self.old.number + need_where (nat_le room self.old.made) row.now None < 2 ^ 64 }
        requires made { self.old.made + 1 < 2 ^ 64 }

        // If it succeeds, there is a new slot, or the name is refused. A refused name takes no number.
        ensures slots { OnOk result (self.new.slots.items
            ≡ self.old.slots.items ++ new_slot_where (nat_le room self.old.made) self.old.number row.now) }
        ensures refused { OnOk result (self.new.refused.items
            ≡ self.old.refused.items ++ (if nat_le room self.old.made then row.now.name ∷ [] else [])) }
        ensures number { OnOk result (self.new.number
            ≡ self.old.number + need_where (nat_le room self.old.made) row.now None) }

        // No part restarts. If it succeeds, the name counts as new, whether it is refused or not.
        ensures restarts { self.new.restarts ≡ self.old.restarts }
        ensures made { OnOk result (self.new.made ≡ self.old.made + 1) }
    {
        if self.made < room {
            self.assign_slot(alloc, row)?;
        } else {
            self.refused.push(copy_name(alloc.clone()?, row.name())?)?;
        }
        self.made += 1;
        Ok(())
    }

    /// Assigns to a row what it needs.
    fn assign(
        &mut self,
        alloc: &A,
        slots: &[Slot<A>],
        index: &[usize],
        at: &mut usize,
        row: &DirRow<A>,
        room: usize,
    ) -> Result<(), AllocError>
        // The index has all slots, and `at` is a place in it or its end. All names before this place are smaller than
        // the row's.
        requires index { IsIndex (names_of slots.now) index.now }
        requires whole { length index.now ≡ length slots.now }
        requires at { at.old ≤ length index.now }
        requires passed { ArePassed (names_of slots.now) index.now at.old row.now.name }

        // The numbers that the row needs are left, and one more new name can be counted.
        requires fits { self.old.number + turn_need slots.now (nat_le room self.old.made) row.now < 2 ^ 64 }
        requires made { self.old.made + 1 < 2 ^ 64 }

        // If it succeeds, a row with a slot restarts its ended parts. A new name gets a slot, or is refused if there
        // are already as many new names as there is room for. A row that is not eligible gets nothing.
        ensures slots { OnOk result (self.new.slots.items
            ≡ self.old.slots.items ++ row_slots slots.now (nat_le room self.old.made) self.old.number row.now) }
        ensures restarts { OnOk result (self.new.restarts.items
            ≡ self.old.restarts.items ++ turn_restarts slots.now self.old.number row.now) }
        ensures refused { OnOk result (self.new.refused.items
            ≡ self.old.refused.items ++ turn_refused slots.now (nat_le room self.old.made) row.now) }
        ensures number { OnOk result (self.new.number
            ≡ self.old.number + turn_need slots.now (nat_le room self.old.made) row.now) }
        ensures made { OnOk result (self.new.made ≡ self.old.made + (if is_counted slots.now row.now then 1 else 0)) }

        // In each outcome all names of the index before the new `at` are smaller than the row's.
        ensures at { at.new ≤ length index.now }
        ensures passed { ArePassed (names_of slots.now) index.now at.new row.now.name }
    {
        if !row.is_eligible() {
            return Ok(());
        }
        match slot_of(slots, index, at, row) {
            Some(slot) => self.assign_restarts(slot),
            None => self.assign_new(alloc, row, room),
        }
    }
}

/// Assigns to each row what it needs, in order.
fn assign_all<A: Allocator + Clone>(
    alloc: &A,
    slots: &[Slot<A>],
    index: &[usize],
    rows: &[DirRow<A>],
    room: usize,
    next: u64,
) -> Result<Assignments<A>, AllocError>
    // The index has all slots, and the names of the rows rise. The room is that of the whole scan, and there are enough
    // numbers for all rows.
    requires index { IsIndex (names_of slots.now) index.now }
    requires whole { length index.now ≡ length slots.now }
    requires rising { AreRising rows.now }
    requires room { room ≡ Rattle.scan_table.specs.Scan.room slots.now rows.now }
    requires numbers { next + needs slots.now rows.now < 2 ^ 64 }

    // If it succeeds, this is what the whole scan gives to the rows. The next number comes after all that they took.
    ensures slots { IfOk result (λ assigned. assigned.slots.items ≡ new_slots slots.now next rows.now) }
    ensures restarts { IfOk result (λ assigned. assigned.restarts.items ≡ restarts slots.now next rows.now) }
    ensures refused { IfOk result (λ assigned. assigned.refused.items ≡ refused slots.now rows.now) }
    ensures number { IfOk result (λ assigned. assigned.number ≡ next + needs slots.now rows.now) }
{
    let mut assigned = Assignments {
        slots: Vec::new(alloc.clone()?),
        restarts: Vec::new(alloc.clone()?),
        refused: Vec::new(alloc.clone()?),
        number: next,
        made: 0,
    };
    let mut at = 0;
    for row in rows {
        assigned.assign(alloc, slots, index, &mut at, row, room)?;
    }
    Ok(assigned)
}

/// What a scan does, with all the memory that it needs except the room of the slots themselves.
#[derive(Drop)]
pub(crate) struct Plan<A: Allocator = Global> {
    pub(crate) starts: Vec<PartId, A>,
    pub(crate) drops: Vec<u64, A>,
    pub(crate) assigned: Assignments<A>,
}

/// Adds the parts of a slot at the end.
fn push_parts<A: Allocator>(list: &mut Vec<PartId, A>, slot: &Slot<A>) -> Result<(), AllocError>
    ensures { OnOk result (list.new.items ≡ list.old.items ++ ids_of slot.now) }
{
    list.push(PartId {
        slot: slot.number,
        role: Role::Main,
        life: slot.main.number,
    })?;
    if let Some(log) = slot.log {
        list.push(PartId {
            slot: slot.number,
            role: Role::Log,
            life: log.number,
        })?;
    }
    Ok(())
}

/// Returns the parts of slots.
fn parts_of<A: Allocator>(alloc: A, slots: &[Slot<A>]) -> Result<Vec<PartId, A>, AllocError>
    ensures { IfOk result (λ parts. parts.items ≡ flat_map ids_of slots.now) }
{
    let mut parts = Vec::new(alloc);
    for slot in slots {
        push_parts(&mut parts, slot)?;
    }
    Ok(parts)
}

/// Plans what there is to do, after it is known that there are enough numbers.
fn gather<A: Allocator + Clone>(
    alloc: &A,
    slots: &[Slot<A>],
    index: &[usize],
    rows: &[DirRow<A>],
    room: usize,
    next: u64,
) -> Result<Plan<A>, AllocError>
    // The index has all slots, and the names of the rows rise. The room is that of the whole scan, and there are enough
    // numbers for all rows.
    requires index { IsIndex (names_of slots.now) index.now }
    requires whole { length index.now ≡ length slots.now }
    requires rising { AreRising rows.now }
    requires room { room ≡ Rattle.scan_table.specs.Scan.room slots.now rows.now }
    requires numbers { next + needs slots.now rows.now < 2 ^ 64 }

    // If it succeeds, this is all that the scan does. The starts are the parts of the new slots, and the next number
    // comes after all that the rows took.
    ensures slots { IfOk result (λ plan. plan.assigned.slots.items ≡ new_slots slots.now next rows.now) }
    ensures starts { IfOk result (λ plan. plan.starts.items ≡ starts slots.now next rows.now) }
    ensures restarts { IfOk result (λ plan. plan.assigned.restarts.items ≡ restarts slots.now next rows.now) }
    ensures drops { IfOk result (λ plan. plan.drops.items ≡ drops slots.now rows.now) }
    ensures refused { IfOk result (λ plan. plan.assigned.refused.items ≡ refused slots.now rows.now) }
    ensures number { IfOk result (λ plan. plan.assigned.number ≡ next + needs slots.now rows.now) }
{
    let drops = drops(alloc.clone()?, slots, rows)?;
    let assigned = assign_all(alloc, slots, index, rows, room, next)?;
    let starts = parts_of(alloc.clone()?, &assigned.slots)?;
    Ok(Plan {
        starts,
        drops,
        assigned,
    })
}

/// Returns how many more slots there may be after a scan of these rows.
fn room<A: Allocator>(slots: &[Slot<A>], rows: &[DirRow<A>]) -> usize
    requires { AreRising rows.now }
    ensures { result ≡ Rattle.scan_table.specs.Scan.room slots.now rows.now }
{
    MAX_SLOTS.saturating_sub(kept_count(slots, rows))
}

/// Returns why a scan would be refused, apart from a lack of memory.
pub(crate) fn check_scan<A: Allocator>(
    slots: &[Slot<A>],
    index: &[usize],
    rows: &[DirRow<A>],
    next: u64,
) -> Result<(), ScanFault>
    requires index { IsIndex (names_of slots.now) index.now }
    requires whole { length index.now ≡ length slots.now }
    ensures exact { fault_of result ≡ scan_refusal (record { slots = slots.now; next = next }) rows.now }
    ensures rising { OnOk result (AreRising rows.now) }
{
    check_order(rows)?;
    let room = room(slots, rows);
    if is_exhausted(slots, index, rows, room, next) {
        return Err(ScanFault::Exhausted);
    }
    Ok(())
}

/// Plans what a scan does.
pub(crate) fn plan_scan<A: Allocator + Clone>(
    alloc: &A,
    slots: &[Slot<A>],
    index: &[usize],
    rows: &[DirRow<A>],
    next: u64,
) -> Result<Plan<A>, ScanFault>
    requires index { IsIndex (names_of slots.now) index.now }
    requires whole { length index.now ≡ length slots.now }

    // If it succeeds, the names of the rows rise, and there are enough numbers.
    ensures rising { OnOk result (AreRising rows.now) }
    ensures enough { OnOk result (is_exhausted slots.now next rows.now ≡ false) }

    // If it succeeds, this is all that the scan does. The starts are the parts of the new slots, and the next number
    // comes after all that the rows took.
    ensures slots { IfOk result (λ plan. plan.assigned.slots.items ≡ new_slots slots.now next rows.now) }
    ensures starts { IfOk result (λ plan. plan.starts.items ≡ starts slots.now next rows.now) }
    ensures restarts { IfOk result (λ plan. plan.assigned.restarts.items ≡ restarts slots.now next rows.now) }
    ensures drops { IfOk result (λ plan. plan.drops.items ≡ drops slots.now rows.now) }
    ensures refused { IfOk result (λ plan. plan.assigned.refused.items ≡ refused slots.now rows.now) }
    ensures number { IfOk result (λ plan. plan.assigned.number ≡ next + needs slots.now rows.now) }

    // If it fails, the reason is the first that applies: the order of the rows, the numbers, the memory.
    ensures cause { IfErr result (λ fault. IsCause slots.now next rows.now fault) }
{
    check_order(rows)?;
    let room = room(slots, rows);
    if is_exhausted(slots, index, rows, room, next) {
        return Err(ScanFault::Exhausted);
    }
    match gather(alloc, slots, index, rows, room, next) {
        Ok(plan) => Ok(plan),
        Err(_) => Err(ScanFault::OutOfMemory),
    }
}
