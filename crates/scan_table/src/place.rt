//! What is done to the slot with a number.
ghost use Rattle.std.specs.Prelude.{◌≡◌, ◌≢◌, ◌<◌, ℕ, length, map, slice_index_or, MatchOption, ◌∷◌, [], option_copied};
ghost use Rattle.std.specs.List.{AllPairs, All, list_any};
ghost use Rattle.scan_table.specs.Table.{slot_ended, has_running, renewed, slot_at};
ghost use Rattle.scan_table.specs.Index.{IsBefore, IsPlaceOf, HasNot};

use crate::part::PartId;
use crate::slot::Slot;
use std::alloc::Allocator;

/// Returns the place of the slot with a number.
fn place_of<A: Allocator>(slots: &[Slot<A>], number: u64) -> Option<usize>
    requires { AllPairs IsBefore slots.now }
    ensures { MatchOption result (HasNot slots.now number) (λ place. IsPlaceOf slots.now number place) }
{
    let mut low = 0;
    let mut high = slots.len();
    while low < high {
        let middle = low + (high - low) / 2;
        let here = slots[middle].number();
        if here == number {
            return Some(middle);
        }
        if here < number {
            low = middle + 1;
        } else {
            high = middle;
        }
    }
    None
}

/// Returns the slot with a number.
pub(crate) fn slot_at<A: Allocator>(slots: &[Slot<A>], number: u64) -> Option<&Slot<A>>
    requires { AllPairs IsBefore slots.now }
    ensures { option_copied result ≡ slot_at slots.now number }
{
    match place_of(slots, number) {
        Some(place) => Some(&slots[place]),
        None => None,
    }
}

/// Notes that a part has ended. Returns whether it was there and had not ended.
pub(crate) fn end_part<A: Allocator>(slots: &mut [Slot<A>], part: PartId) -> bool
    requires { AllPairs IsBefore slots.old }
    ensures slots { slots.new ≡ map (slot_ended part) slots.old }
    ensures running { result ≡ list_any (has_running part) slots.old }
{
    match place_of(slots, part.slot) {
        Some(place) => slots[place].end(part),
        None => false,
    }
}

/// Begins a part of a slot in a new life.
fn restart<A: Allocator>(slots: &mut [Slot<A>], part: PartId)
    requires { AllPairs IsBefore slots.old }
    ensures { slots.new ≡ map (renewed (part ∷ [])) slots.old }
{
    if let Some(place) = place_of(slots, part.slot) {
        slots[place].restart(part);
    }
}

/// Begins parts of slots in new lives.
pub(crate) fn restart_all<A: Allocator>(slots: &mut [Slot<A>], parts: &[PartId])
    requires { AllPairs IsBefore slots.old }
    ensures { slots.new ≡ map (renewed parts.now) slots.old }
{
    for part in parts {
        restart(slots, *part);
    }
}
