//! The entries that a scan is given.
ghost use Rattle.std.specs.Prelude.{◌≡◌, OnOk, IfErr, MatchOption, option_copied};
ghost use Rattle.scan_table.specs.Scan.{AreRising, IsFirstAt, IsOrderFault};
ghost use Rattle.scan_table.specs.Order.{order_fault, fault_of, row_of, IsRowAt, HasNoRow};

use crate::fault::ScanFault;
use crate::part::Role;
use std::alloc::{Allocator, Global};
use std::cmp::Ordering;
use std::marker::Model;
use tai_status::Name;

/// An entry of the folder that is scanned.
#[derive(Drop)]
pub struct DirRow<A: Allocator = Global> {
    /// The name in the folder.
    pub name: Name<A>,
    /// Whether the entry is a directory.
    pub is_dir: bool,
    /// Whether the entry has a directory `log`.
    pub has_log: bool,
    /// Whether the entry has a file `down`.
    pub down: bool,
    /// Whether its `log` has a file `down`.
    pub log_down: bool,
}

impl<A: Allocator> Model for DirRow<A> {
    ghost use Rattle.scan_table.specs.Slots.{Row};

    ghost Value = { Row };

    ghost view = { λ row. record {
      name = row.name;
      is_dir = row.is_dir;
      has_log = row.has_log;
      down = row.down;
      log_down = row.log_down;
    } };
}

impl<A: Allocator> DirRow<A> {
    ghost use Rattle.scan_table.specs.Slots.{is_down, is_eligible, is_pair};

    /// Returns the name of the entry.
    pub(crate) fn name(&self) -> &str
        ensures { result.now ≡ self.now.name }
    {
        self.name.as_str()
    }

    /// Returns whether the row is that of a service: a directory with a name that is not empty and does not begin with
    /// a dot.
    pub fn is_eligible(&self) -> bool
        ensures { result ≡ is_eligible self.now }
    {
        self.is_dir && !matches!(self.name().as_bytes(), [] | [b'.', ..])
    }

    /// Returns whether the row has the file `down` of the part with this role.
    pub fn is_down(&self, role: Role) -> bool
        ensures { result ≡ is_down role self.now }
    {
        match role {
            Role::Main => self.down,
            Role::Log => self.log_down,
        }
    }

    /// Returns whether a new slot of the row is a pair.
    pub fn is_pair(&self) -> bool
        ensures { result ≡ is_pair self.now }
    {
        self.has_log && self.name().len() <= 255
    }
}

/// Returns a fault for the first place at which the rows do not rise by name.
pub(crate) fn check_order<A: Allocator>(rows: &[DirRow<A>]) -> Result<(), ScanFault>
    ensures ok { OnOk result (AreRising rows.now) }
    ensures err { IfErr result (λ fault. IsOrderFault rows.now fault) }
    ensures exact { fault_of result ≡ order_fault rows.now }
{
    for place in 1..rows.len() {
        match rows[place - 1].name().cmp(rows[place].name()) {
            Ordering::Less => {}
            Ordering::Equal => return Err(ScanFault::Twice(place as u64)),
            Ordering::Greater => return Err(ScanFault::Unsorted(place as u64)),
        }
    }
    Ok(())
}

/// Returns the place of the row with a name.
pub(crate) fn place_of_row<A: Allocator>(rows: &[DirRow<A>], name: &str) -> Option<usize>
    requires { AreRising rows.now }
    ensures { MatchOption result (HasNoRow rows.now name.now) (λ place. IsRowAt rows.now name.now place) }
{
    let mut low = 0;
    let mut high = rows.len();
    while low < high {
        let middle = low + (high - low) / 2;
        match rows[middle].name().cmp(name) {
            Ordering::Less => low = middle + 1,
            Ordering::Equal => return Some(middle),
            Ordering::Greater => high = middle,
        }
    }
    None
}

/// Returns the row with a name, among rows that rise by the byte order of their names.
pub fn find_row<'a, A: Allocator>(rows: &'a [DirRow<A>], name: &str) -> Option<&'a DirRow<A>>
    requires { AreRising rows.now }
    ensures { option_copied result ≡ row_of rows.now name.now }
{
    match place_of_row(rows, name) {
        Some(place) => Some(&rows[place]),
        None => None,
    }
}
