//! The commands `help` and `version`: what there is, in a few lines.
#![tactic(auto)]

mod asking;
mod help;
mod pages;
mod source;

pub use asking::page_asked;
pub use help::{run_help, run_version};
pub use pages::{overview, svc_page_has_each_letter, tool_page};
