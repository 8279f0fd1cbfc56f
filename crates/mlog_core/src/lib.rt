//! What multilog does (<https://cr.yp.to/daemontools/multilog.html>): it reads lines, and hands them out to logs,
//! alerts and status files as its script says.
//!
//! [`run`] streams: at most the first 1000 bytes of a line are kept in memory, and what a read gave is appended before
//! the next read.
#![tactic(auto)]

mod feed;
mod front;
mod laws;
mod parted;
mod rotate;
mod stream;
mod turns;

pub use laws::counts_of_a_run;
pub use parted::PartedInput;
pub use stream::{RunCounts, RunFault, run};
pub use turns::run_parts;
