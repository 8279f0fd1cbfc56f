//! The command `sim`: what supervise would do, line by line.
#![tactic(auto)]

mod answering;
mod command;
mod fault;
mod session;
mod table;

pub use command::run_sim;
pub use fault::{SimFault, Why};
