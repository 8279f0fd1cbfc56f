//! The rules of one service's world: what is written, spawned, signalled and reported, and in which order.
//!
//! `ChildWorld` keeps them over the small trait `ChildSystem`, which has the children, the papers and the clock:
//!
//! - No second copy of a service that still runs is started.
//! - No signal goes to a process that may belong to somebody else.
//! - Each start and each death is reported once.
//! - Each start records which process the service has. Each death records how that process ended, and how many began
//!   and ended.
//!
//! The system's own children of a service are in `svc_system`.
#![tactic(auto)]

mod backoff;
mod begin;
mod child_system;
mod deaths;
mod finishes;
mod holds;
mod paper;
mod papers;
mod readiness;
mod starts;
mod takeover;
mod world;

pub use backoff::seconds_after;
pub use begin::{Death, LastChild};
pub use child_system::ChildSystem;
pub use paper::{Owed, Paper, Remark};
pub use takeover::{Remains, Takeover};
pub use world::ChildWorld;
