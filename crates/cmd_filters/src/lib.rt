//! The commands that read an input to its end and write a result: `tai64n` and `readproctitle`.
#![tactic(auto)]

mod proctitle;
mod stamping;

pub use proctitle::run_readproctitle;
pub use stamping::run_tai64n;
