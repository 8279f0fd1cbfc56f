//! What happens to a suite of services, the results of its steps, and the lines that spell both.
#![tactic(auto)]

mod event;
mod fault;
mod out;
mod part;
mod reading;
mod row;
mod text;

pub use event::{Rows, SuiteEvent};
pub use fault::SuiteLineFault;
pub use out::{Begins, Begun, StepOut};
pub use part::part_text;
pub use reading::read_suite_event;
pub use text::step_text;
