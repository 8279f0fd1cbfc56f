//! How multilog hands out a line to the logs, alerts and status files at which it is selected. The line may come in any
//! parts, and no more of it is in memory than its first 1000 bytes.
//!
//! A [`LineRouter`] takes a line by [`LineRouter::begin`], by [`LineRouter::put`] as often as bytes come, and by
//! [`LineRouter::end`]. It keeps the line's front, which is the first 1000 bytes, until they are there or the line has
//! ended, since patterns see these bytes. Then it decides at which outputs the line is selected. All further bytes go
//! to the selected logs as they come.
#![tactic(auto)]

mod alerts;
mod line_router;
mod logs;
mod statuses;

pub use line_router::{LineRouter, Reach};
