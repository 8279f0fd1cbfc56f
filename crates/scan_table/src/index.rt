//! The index of slots by name.
ghost use Rattle.std.specs.Prelude.{◌≡◌, ◌+◌, ◌<◌, ◌≤◌, length, vec_len, vec_capacity, option_copied};
ghost use Rattle.scan_table.specs.Scan.{slot_of};
ghost use Rattle.scan_table.specs.Index.{names_of, IsIndex, IsSearched, ArePassed, AreDistinct};
ghost use Rattle.scan_table.specs.Whole.{slot_named};

use crate::row::DirRow;
use crate::slot::Slot;
use std::alloc::Allocator;
use std::cmp::Ordering;

/// Returns the place of a name in an index of the first slots, or the place at which it belongs.
fn search<A: Allocator>(slots: &[Slot<A>], index: &[usize], name: &str) -> Result<usize, usize>
    requires index { IsIndex (names_of slots.now) index.now }
    requires bound { length index.now ≤ length slots.now }
    ensures { IsSearched (names_of slots.now) index.now name.now result }
{
    let mut low = 0;
    let mut high = index.len();
    while low < high {
        let middle = low + (high - low) / 2;
        match slots[index[middle]].name().cmp(name) {
            Ordering::Less => low = middle + 1,
            Ordering::Equal => return Ok(middle),
            Ordering::Greater => high = middle,
        }
    }
    Err(low)
}

/// Returns the place of a name in an index, or the place at which it belongs. The search begins at a place; all names
/// before it are smaller.
fn seek<A: Allocator>(
    slots: &[Slot<A>],
    index: &[usize],
    from: usize,
    name: &str,
) -> Result<usize, usize>
    requires index { IsIndex (names_of slots.now) index.now }
    requires bound { length index.now ≤ length slots.now }
    requires from { from ≤ length index.now }
    requires passed { ArePassed (names_of slots.now) index.now from name.now }
    ensures { IsSearched (names_of slots.now) index.now name.now result }
{
    for at in from..index.len() {
        match slots[index[at]].name().cmp(name) {
            Ordering::Less => {}
            Ordering::Equal => return Ok(at),
            Ordering::Greater => return Err(at),
        }
    }
    Err(index.len())
}

/// Returns the slot with a row's name, by an index of all slots. Rows are looked up by rising name: the names of the
/// index before `at` are smaller than the row's, and stay smaller for later rows.
pub(crate) fn slot_of<'a, A: Allocator>(
    slots: &'a [Slot<A>],
    index: &[usize],
    at: &mut usize,
    row: &DirRow<A>,
) -> Option<&'a Slot<A>>
    // The index has all slots, and `at` is a place in it or its end. All names before this place are smaller than the
    // row's.
    requires index { IsIndex (names_of slots.now) index.now }
    requires whole { length index.now ≡ length slots.now }
    requires bound { at.old ≤ length index.now }
    requires passed { ArePassed (names_of slots.now) index.now at.old row.now.name }

    // It finds the slot if there is one with the row's name. The search for a later row may begin at the new `at`,
    // since all names before it are smaller than this row's.
    ensures slot { option_copied result ≡ slot_of slots.now row.now }
    ensures bound { at.new ≤ length index.now }
    ensures passed { ArePassed (names_of slots.now) index.now at.new row.now.name }
{
    match seek(slots, index, *at, row.name()) {
        Ok(place) => {
            *at = place;
            Some(&slots[index[place]])
        }
        Err(place) => {
            *at = place;
            None
        }
    }
}

/// Returns the slot with a name, by an index of all slots.
pub(crate) fn slot_named<'a, A: Allocator>(
    slots: &'a [Slot<A>],
    index: &[usize],
    name: &str,
) -> Option<&'a Slot<A>>
    requires index { IsIndex (names_of slots.now) index.now }
    requires whole { length index.now ≡ length slots.now }
    ensures { option_copied result ≡ slot_named slots.now name.now }
{
    match search(slots, index, name) {
        Ok(place) => Some(&slots[index[place]]),
        Err(_) => None,
    }
}

/// Adds the next slot to an index of the slots before it, which has room for it.
fn put<A: Allocator>(slots: &[Slot<A>], index: &mut Vec<usize, A>)
    // The index does not have all slots yet. It has room for one more, and all slots have different names.
    requires index { IsIndex (names_of slots.now) index.old.items }
    requires bound { vec_len index.old < length slots.now }
    requires room { vec_len index.old < vec_capacity index.old }
    requires distinct { AreDistinct slots.now }

    // The index has one more of the slots, and not less room.
    ensures index { IsIndex (names_of slots.now) index.new.items }
    ensures len { vec_len index.new ≡ vec_len index.old + 1 }
    ensures room { vec_capacity index.old ≤ vec_capacity index.new }
{
    let place = index.len();
    let at = match search(slots, index, slots[place].name()) {
        Ok(at) | Err(at) => at,
    };
    let _ = index.insert(at, place);
}

/// Makes an index of all slots, in a list that has room for it.
pub(crate) fn index_all<A: Allocator>(slots: &[Slot<A>], index: &mut Vec<usize, A>)
    requires room { length slots.now ≤ vec_capacity index.old }
    requires distinct { AreDistinct slots.now }
    ensures index { IsIndex (names_of slots.now) index.new.items }
    ensures whole { length index.new.items ≡ length slots.now }
{
    index.clear();
    for _place in 0..slots.len() {
        put(slots, index);
    }
}
