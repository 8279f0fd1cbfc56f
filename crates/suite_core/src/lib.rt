//! Many services under one scan: what svscan (<https://cr.yp.to/daemontools/svscan.html>) and its supervise processes
//! do, as one machine over a list of events.
//!
//! A [`Suite`] takes scans of the folder, and events at the parts that scans began. Each step returns what it asks of
//! the system. The machine of a part is what its own events make it, and its trace replays to that machine.
#![tactic(auto)]

mod fault;
mod part;
mod place;
mod scan;
mod suite;

pub use fault::{StepFault, SuiteFault};
pub use suite::Suite;
