//! The patterns of multilog (<https://cr.yp.to/daemontools/multilog.html>): bytes, in which `*` is a star.
//!
//! A pattern matches a whole text. A byte that is no star matches itself. A star at the end matches any bytes. A star
//! before another byte matches any bytes without that byte, so its match ends at the first such byte:
//!
//! | pattern | matches | does not match |
//! |---|---|---|
//! | `a*b` | `ab`, `axxb` | `abb`, `a` |
//! | `*ab*` | `ab`, `xxabyy` | `aab`, since its first `a` begins no `ab` |
//! | `* fatal: *` | `log fatal: full` | `my log fatal: full` |
//! | `*` | every text | |
//!
//! Therefore one scan of the text decides, with no memory and without going back. Patterns and texts are any bytes:
//! NUL, newlines and bytes from 128 on are like all others. Two adjacent stars are refused.
//!
//! [`Pattern::read`] reads a pattern, and [`Pattern::matches`] matches it with a text. If a text is matched with many
//! patterns, [`NotedText`] reads it once, and [`Pattern::matches_noted`] refuses most patterns without another scan.
//! [`laws`] says what a match means.
#![tactic(auto)]

pub mod laws;
mod pairs;
mod pattern;

pub use pairs::NotedText;
pub use pattern::{Pattern, PatternFault, has_adjacent_stars};
