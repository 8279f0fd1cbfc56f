//! The command `svscan` on this system: it keeps the services of a folder running, in rounds that are five seconds
//! apart. And the command `supervise`, which keeps one service running.
//!
//! Its rounds are those of `svscan_rounds`, over a [`ServiceSet`], which is what svscan does to the system.
//! [`FolderServices`] is the system's own set, over the host of the services' threads. [`list_names`] and [`list_rows`]
//! are the system's own listing.
//!
//! `supervise` is one scan of one row of the same host, and then a watch over it.
//!
//! Two things are in no contract here, and are only tested: that the system's listing finds what the folder holds, and
//! that `supervise` finds the file `down`.
#![tactic(auto)]

mod asking;
mod beginning;
mod closing;
mod folder_services;
mod limits;
mod listing;
mod looking;
mod losses;
mod own_status;
mod resting;
mod running;
mod scanning;
mod supervising;

pub use folder_services::{FolderServices, Request, Response, handle};
pub use listing::{FolderNames, list_names, list_rows};
pub use running::{RunningHost, SystemHost};
pub use svscan_rounds::{ServiceSet, run_supervise, run_svscan};
