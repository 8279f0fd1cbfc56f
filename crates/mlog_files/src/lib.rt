//! The files of a log, as multilog keeps them: how the text is cut into files, which names old files have, and which
//! old files are removed. They can be in any store.
#![tactic(auto)]

mod cut;
mod laws;
mod memory;
mod memory_store;
mod named;
mod store;
mod tail;

pub use laws::steps_of_a_text;
pub use memory::{LogFiles, OldFile};
pub use memory_store::{Content, MemoryStore, StatusFile};
pub use named::{label_in, later_of};
pub use store::{LogStore, StoreFault};
pub use tail::{LogFault, Tail};
