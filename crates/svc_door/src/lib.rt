//! The door of all services: one thread that serves the control and ok sockets of every part.
//!
//! Each part has one control connection at a time, in the order in which they come. The first 4096 bytes of a
//! [`Connection`] are posted, in order and each once. A byte that is refused is kept, and offered again. Contracts see
//! a connection as `ConnectionState` (specs/Connection).
//!
//! The thread sleeps without a limit while nothing happens. It rests 1 ms while a mailbox is full, and 100 ms if there
//! are no descriptors for a connection. While connections are silent, it rests up to the end of the shortest silence,
//! and it drops a connection that is silent for 5 s. specs/Rests defines when it looks at a connection again. After a
//! poll each part that an event names is due, and then each due part has one turn (specs/Turning).
//!
//! Some facts are in no contract, and only tested: what the sockets give, that the thread runs, and what the door's
//! handle does under its lock.
#![tactic(auto)]

mod byte_source;
mod connection;
mod door;
mod greeting;
pub mod law;
mod listener;
mod part;
mod rests;
mod table;

pub use byte_source::{ByteSource, Heard};
pub use connection::{Connection, Turn};
pub use door::Door;
pub use table::AdmissionFault;
