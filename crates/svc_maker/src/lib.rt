//! The resources of the parts of services, over real folders.
//!
//! A `FolderMaker` opens the folder of each part of a host (`svc_host`) and makes its world (`svc_world` over
//! `svc_system`). It admits the parts of a round to the door (`svc_door`) once all have begun. For a pair it makes
//! the output of the service and the pipe of its logger. Contracts see it as `Making` (specs/Making), over the small
//! trait `PartSystem`:
//!
//! - The maker keeps a part exactly if its folder was opened and locked, and its world was made. If a step fails, what
//!   was made before it is taken back.
//! - A part that waits is admitted, or it is refused and will be tried again.
//! - A part that ends is dismissed, once.
//!
//! Below that trait is the system's own layer, `SystemParts`, which says nothing to contracts.
//!
//! Some things are in no contract here, and are only tested: what the system does at each call, and that a lock is free
//! once its folder is dropped.
#![tactic(auto)]

mod descriptors;
mod holder;
mod kept_folder;
mod maker;
mod part_system;
mod pipes;
mod reaper;
mod set_up;
mod system;

pub use holder::{FolderHolder, OwnFault};
pub use kept_folder::LockedFolder;
pub use maker::FolderMaker;
pub use part_system::{NotAdmitted, PartSystem};
pub use pipes::PairOutlets;
pub use reaper::PartReaper;
pub use set_up::part_name;
pub use system::{OpenFolder, SystemParts};
