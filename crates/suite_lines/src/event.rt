//! What happens to a suite of services.
ghost use Rattle.std.specs.Prelude.{◌≡◌, ◌↔◌, IsTrue, [], length};

use scan_table::{DirRow, PartId};
use std::alloc::{Allocator, Global};
use std::marker::Model;
use sup_core::Event;
use tai_status::Label;

/// The entries of a folder when it was scanned.
#[derive(Drop)]
pub struct Rows<A: Allocator = Global> {
    rows: Vec<DirRow<A>, A>,
}

impl<A: Allocator> Model for Rows<A> {
    ghost use Rattle.std.specs.Prelude.{List};
    ghost use Rattle.scan_table.specs.Slots.{Row};

    ghost Value = { List Row };

    ghost view = { λ rows. rows.rows.items };
}

impl<A: Allocator> Rows<A> {
    /// Returns the list of these rows.
    pub fn from_vec(rows: Vec<DirRow<A>, A>) -> Rows<A>
        ensures { result ≡ rows.items }
    {
        Rows { rows }
    }

    /// Gives the rows back.
    pub fn into_vec(self) -> Vec<DirRow<A>, A>
        ensures { result.items ≡ self }
    {
        let Self { rows } = self;
        rows
    }

    /// Returns the rows, in order.
    pub fn as_slice(&self) -> &[DirRow<A>]
        ensures { result.now ≡ self.now }
    {
        self.rows.as_slice()
    }
}

/// What happens to a suite.
#[derive(Drop)]
pub enum SuiteEvent<A: Allocator = Global> {
    /// The folder was scanned, at this time.
    Scan(Rows<A>, Label),
    /// Something happened at a part.
    At(PartId, Event),
}
