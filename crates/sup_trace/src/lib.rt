//! The last events of a service, and the machine before them: what is kept of a history when the rest is forgotten.
//!
//! A [`Trace`] takes events as a machine does, and keeps the last ones. Older events are folded into its base. A text
//! ([`TraceText`]) holds what it keeps, and [`read_text`] reads that text again. From it, [`replay`] computes the
//! machine, [`explain`] says what each entry did, and [`first_break`] finds the first entry of a kind. `specs/Trace`
//! defines, in one place, what is kept after any events.
#![tactic(auto)]

mod base;
mod breaks;
mod content;
mod explained;
mod fault;
mod law;
mod lines;
mod reading;
mod text;
mod trace;

pub use breaks::{Break, first_break};
pub use content::{TraceText, replay};
pub use explained::explain;
pub use fault::{TraceFault, TraceFaultKind, kind_name};
pub use law::{texts_of_traces, traces_after_events};
pub use reading::read_text;
pub use text::record_digits;
pub use trace::{MAX_CAPACITY, Trace};
