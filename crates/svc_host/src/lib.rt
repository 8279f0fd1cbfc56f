//! The host of all services of one svscan: which parts there are, and the threads in which they run.
//!
//! A `Host` joins the table of slots (`scan_table`), the loop of each service (`svc_house`) in a thread of its own, the
//! two threads that carry a pair's output to its logger (`svc_relay`), and a `Maker`. The maker makes the resources of
//! each part: processes, files and sockets in the program, and prepared results in tests. Contracts see a host as
//! `HostState` and what a scan does as `IsScanned` (specs/Rounds).
//!
//! Some things are in no contract here, and are only tested: that the threads run side by side, and how long anything
//! takes. The same is true of the joints: that a part has its own mailbox, station and world, and those of no other
//! part. No contract says that a call which may wait ever returns.
#![tactic(auto)]

mod ending;
mod ends;
mod factory;
mod growing_reader;
mod growth;
mod host;
mod kill;
mod maker;
mod pair;
mod part;
mod part_thread;
mod parts;
mod rest;
mod running;
mod service;
mod shared;

pub use host::{Host, HostOut, PostFault, Unmade};
pub use kill::{never_without_seconds, once_for_each_asking};
pub use maker::{Maker, Outlets, PartFault, PartResources, Reaper};
pub use part::Loss;
pub use svc_house::Runtime;
