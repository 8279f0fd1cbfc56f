//! The command `why`: says in plain words in which state a service is, and why, from its status record, its trace and
//! the clock.
//!
//! [`facts_of`] reads from a trace what it says about the processes of a service. [`why_line`] puts that and the record
//! into words. [`run_why`] is the command.
#![tactic(auto)]

mod courses;
mod entries;
mod facts;
mod last_ends;
mod laws;
mod lines;
mod sentences;
mod sources;
mod timeline;
mod times;
mod why;

pub use entries::{Kind, before_last, behind_last, is_signal, last_of};
pub use facts::{
    EndedProcess, FLAPPING, Facts, facts_of, is_recent, last_signal, last_want, leads_to,
    nanoseconds, reaches_back, recent_starts, unasked_starts,
};
pub use last_ends::{LastEnd, last_end};
pub use laws::{ends_are_their_own, last_end_is_latest, names_the_last_signal};
pub use lines::{
    Absence, Drawing, Picture, Standing, WhyFinding, absence_of, found_line, found_text,
};
pub use sentences::why_line;
pub use sources::{Evidence, LocalTime, LocalTimes, ServiceEvidence};
pub use timeline::{Bar, COLUMNS, ShownState, Stretch, bar_of, stretches_of};
pub use why::{WhyFault, read_content, read_exit, run_why};
