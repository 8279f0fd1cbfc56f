//! The table of services that a scan keeps, as svscan does (<https://cr.yp.to/daemontools/svscan.html>).
//!
//! [`ScanTable::scan`] takes what the folder contains, and returns which services start, restart, go or are refused.
//! [`ScanTable::ended`] is called for each part that has ended.
#![tactic(auto)]

mod fault;
mod index;
mod part;
mod place;
mod plan;
mod row;
mod slot;
mod table;

pub use fault::ScanFault;
pub use part::{Numbers, PartId, Parts, Role};
pub use row::{DirRow, find_row};
pub use slot::MAX_SLOTS;
pub use table::{ScanOut, ScanTable};
