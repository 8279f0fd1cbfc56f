//! What supervise does at each event of a service: the decisions, with no process and no clock.
//!
//! A `Machine` is the state of supervise for one service. `Machine::step` takes an event, and returns what to ask of
//! the system: signals, the status record, a start. Contracts are about histories. `specs/History` defines what a
//! history says, and `specs/Rules` what is taken and asked for after it. Lines of text spell events and answers.
#![tactic(auto)]

mod asks;
mod event;
mod law;
mod machine;
mod ranges;
mod reading;
mod table;
mod text;

pub use asks::{Ask, Asks, Reply, Sig};
pub use event::Event;
pub use law::histories_of_one_state;
pub use machine::Machine;
pub use reading::{
    EventFault, read_begin, read_byte, read_event, read_label, read_number, read_phase, read_sig,
    split_field,
};
pub use table::{LETTER_COUNT, is_letter, letters, signal_of, table_line};
pub use tai_status::{Phase, phase_name};
pub use text::{answer_text, byte_text, event_text, fault_name, sig_name, took_text};
