//! A slot, which keeps one service.
ghost use Rattle.std.specs.Prelude.{◌≡◌, ◌≤◌, ◌∷◌, [], length, IfOk};

use crate::part::{PartId, Role};
use std::alloc::{AllocError, Allocator, Global};
use std::marker::Model;
use tai_status::Name;

/// The most slots of a table.
pub const MAX_SLOTS: usize = 1000;

/// A part's life, and whether it has ended.
#[derive(Clone, Copy, Debug)]
pub(crate) struct Life {
    pub(crate) number: u64,
    pub(crate) has_ended: bool,
}

/// A slot: its main part, and its log if it is a pair.
#[derive(Drop)]
pub(crate) struct Slot<A: Allocator = Global> {
    pub(crate) number: u64,
    pub(crate) name: Name<A>,
    pub(crate) main: Life,
    pub(crate) log: Option<Life>,
}

impl<A: Allocator> Model for Slot<A> {
    ghost use Rattle.scan_table.specs.Slots.{SlotState};

    ghost Value = { SlotState };

    ghost view = { λ slot. record { number = slot.number; name = slot.name; main = slot.main; log = slot.log } };
}

impl<A: Allocator> Slot<A> {
    ghost use Rattle.scan_table.specs.Slots.{all_ended, ended_roles};
    ghost use Rattle.scan_table.specs.Table.{slot_ended, has_running, renewed};
    ghost use Rattle.scan_table.specs.Whole.{none_ended};

    /// Returns the slot's number.
    pub(crate) fn number(&self) -> u64
        ensures { result ≡ self.now.number }
    {
        self.number
    }

    /// Returns the name of its service.
    pub(crate) fn name(&self) -> &str
        ensures { result.now ≡ self.now.name }
    {
        self.name.as_str()
    }

    /// Returns whether all parts have ended.
    pub(crate) fn all_ended(&self) -> bool
        ensures { result ≡ all_ended self.now }
    {
        match self.log {
            None => self.main.has_ended,
            Some(log) => self.main.has_ended && log.has_ended,
        }
    }

    /// Returns whether no part has ended.
    pub(crate) fn none_ended(&self) -> bool
        ensures { result ≡ none_ended self.now }
    {
        match self.log {
            None => !self.main.has_ended,
            Some(log) => !self.main.has_ended && !log.has_ended,
        }
    }

    /// Returns how many parts have ended.
    pub(crate) fn ended_count(&self) -> u64
        ensures count { result ≡ length (ended_roles self.now) }
        ensures bound { result ≤ 2 }
    {
        let main = if self.main.has_ended { 1 } else { 0 };
        match self.log {
            Some(log) if log.has_ended => main + 1,
            _ => main,
        }
    }

    /// Begins a part in a new life, if it is a part of this slot.
    pub(crate) fn restart(&mut self, part: PartId)
        ensures { self.new ≡ renewed (part ∷ []) self.old }
    {
        if self.number != part.slot {
            return;
        }
        let life = Life {
            number: part.life,
            has_ended: false,
        };
        match part.role {
            Role::Main => self.main = life,
            Role::Log => {
                if self.log.is_some() {
                    self.log = Some(life);
                }
            }
        }
    }

    /// Notes that a part has ended. Returns whether it was there and had not ended.
    pub(crate) fn end(&mut self, part: PartId) -> bool
        ensures slot { self.new ≡ slot_ended part self.old }
        ensures running { result ≡ has_running part self.old }
    {
        if self.number != part.slot {
            return false;
        }
        match part.role {
            Role::Main => {
                if self.main.number != part.life || self.main.has_ended {
                    return false;
                }
                self.main.has_ended = true;
                true
            }
            Role::Log => match self.log {
                None => false,
                Some(log) => {
                    if log.number != part.life || log.has_ended {
                        return false;
                    }
                    self.log = Some(Life {
                        number: log.number,
                        has_ended: true,
                    });
                    true
                }
            },
        }
    }
}

/// Copies a name.
pub(crate) fn copy_name<A: Allocator>(alloc: A, name: &str) -> Result<Name<A>, AllocError>
    ensures { IfOk result (λ copy. copy ≡ name.now) }
{
    Ok(Name::new(String::from_str(alloc, name)?))
}

/// Copies a slot.
fn copy_slot<A: Allocator>(alloc: A, slot: &Slot<A>) -> Result<Slot<A>, AllocError>
    ensures { IfOk result (λ copy. copy ≡ slot.now) }
{
    Ok(Slot {
        number: slot.number,
        name: copy_name(alloc, slot.name())?,
        main: slot.main,
        log: slot.log,
    })
}

/// Copies slots.
pub(crate) fn copy_slots<A: Allocator + Clone>(
    alloc: &A,
    slots: &[Slot<A>],
) -> Result<Vec<Slot<A>, A>, AllocError>
    ensures { IfOk result (λ copies. copies.items ≡ slots.now) }
{
    let mut copies = Vec::with_capacity(alloc.clone()?, slots.len())?;
    for slot in slots {
        copies.push(copy_slot(alloc.clone()?, slot)?)?;
    }
    Ok(copies)
}
