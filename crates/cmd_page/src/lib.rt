//! The state of services as a page: `svstat --html`, one HTML page that loads nothing and has no script.
//!
//! The page has one row for each service. [`push_escaped`] writes all text that comes from outside. [`push_picture`]
//! draws the last hour from the trace, on an axis that is the same for all services. [`run_page`] is the command, and
//! [`run_view`] is `svstat` in each of its forms.
#![tactic(auto)]

mod cells;
mod command;
mod draw;
mod escape;
mod laws;
mod page;
mod picture;
mod report;
mod text;

pub use command::run_view;
pub use escape::push_escaped;
pub use laws::text_reads;
pub use page::push_row;
pub use picture::{push_picture, push_restarts};
pub use report::run_page;
