//! The command `trace`: what each entry of a trace did. With `--local` it also says when, in local time, and uses
//! words.
#![tactic(auto)]

mod break_word;
mod command;
mod fault;
mod local;
mod shown;

pub use break_word::{read_break, read_spec};
pub use command::run_trace;
pub use fault::TraceTrouble;
