//! The commands `wait` and `restart`: they return once services are up, down, no longer supervised, or restarted.
//!
//! [`read_options`] reads the words of `wait`, and [`Finding`] is what a look finds about a service. [`run_wait`] is
//! the command, over a [`Pace`]: the clock that it reads, and how it rests. [`run_restart`] also ends the processes
//! of the services.
#![tactic(auto)]

mod finding;
mod laws;
mod marking;
mod options;
mod pace;
mod restart;
mod rounds;
mod sayings;
mod wait;
mod watch;

pub use finding::{Finding, Goal, ProcessMark, WaitFault, WaitState};
pub use laws::{no_crash_loop_is_up, no_old_process_ends_a_restart, ready_is_of_the_process};
pub use options::{WaitOptions, read_options, read_restart};
pub use pace::{Pace, SystemPace};
pub use restart::run_restart;
pub use wait::run_wait;
