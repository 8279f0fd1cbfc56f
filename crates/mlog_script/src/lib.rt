//! The scripts of multilog (<https://cr.yp.to/daemontools/multilog.html>): what the words of its command line ask for,
//! and what they decide about a line.
//!
//! [`Script::read`] reads the words. Each word is one action:
//!
//! | word | action |
//! |---|---|
//! | `t` | puts a stamp before each line; it must be the first word. |
//! | `-pattern`, `+pattern` | deselects, or selects, the lines that match. |
//! | `e` | alerts the selected lines. |
//! | `=path` | keeps the last selected line in a file. |
//! | `sN` | sets the size of the logs after it, from 4096 to 16777215; the default is 99999. |
//! | `nN` | sets how many old files the logs after it keep, from 2 to 4294967295; the default is 10. |
//! | `./folder`, `/folder` | puts the selected lines into a log. |
//!
//! Logs and status files are numbered from 0, in the order of the script. [`Choices::choose`] decides at which outputs
//! a line is selected: at each action, by the last pattern before it that matches the line.
#![tactic(auto)]

mod action;
mod check;
mod choices;
mod fault;
pub mod laws;
mod plan;
mod read;
mod script;
mod word;

pub use check::check_words;
pub use choices::Choices;
pub use fault::{ScriptFault, ScriptFaultKind, kind_name};
pub use plan::LogPlan;
pub use script::Script;
