//! A station: one writer publishes what happens to a service. Readers in other threads see its machine and trace
//! without a lock, and without waiting.
//!
//! There is one history: the machine that the station was opened with, and a list of events after it. The machine took
//! each event in its turn. `Writer::publish` adds an event to the history. A reader returns the state after the events
//! that it knows. They are a beginning of the history, which begins with all that the reader read before or learnt.
//!
//! `Writer::tell` makes a note of the whole history. A reader that learnt the note knows at least that:
//! `audit::last_machine` relies on it. A reader is never ahead of its writer, no matter who made the notes that it
//! learnt: what it read begins what the writer added. That is what the writer published, if no publication was refused
//! (`audit::was_published`).
//!
//! Some facts are in no contract, and only tested. A reading finds the newest publication: a reading that looks
//! nowhere, and returns what the reader knows already, meets the clauses. Calls succeed when there is enough memory. No
//! contract says that a call that may wait returns.
//!
//! A writer ends only by `Writer::end`, together with all readers of its station. It can't be dropped, so a thread
//! takes it and gives it back as a `parked::Parked`.
#![tactic(auto)]

mod appender;
pub mod audit;
mod look;
pub mod note;
pub mod parked;
mod prefix;
pub mod reader;
mod rule;
mod shown;
pub mod station;
pub mod writer;
mod writer_state;
