//! A reader and memory for the tests: a reader that gives only a few bytes, and memory that runs out.
#![tactic(auto)]

mod scarce;
mod slow;

pub use scarce::{Scarce, check, refuse_in_turn};
pub use slow::Slow;
