//! The rounds of `svscan`: what it asks of the services of a folder, and when.
//!
//! [`run_svscan`] makes the rounds over any [`ServiceSet`], which is what svscan does to the system. [`rows_of`] makes
//! the rows of a folder, in the byte order of their names. [`shortage`] says whether there are too few descriptors for
//! the services of rows. [`needed_names`] says which names a scan needs, [`Quiet`] when a round is idle, and
//! [`is_unchanged`] when a folder has the same names as before. [`rest_left`] says how much of a rest is left.
//!
//! [`run_supervise`] keeps one service running, over the same set. [`place_of`] returns its folder and its name there.
#![tactic(auto)]

mod descriptors;
mod folder_state;
mod needed;
mod orders;
mod place;
mod quiet;
mod resting;
mod rounds;
mod rows;
mod service_set;
mod supervise;
mod words;

pub use descriptors::shortage;
pub use folder_state::{FolderState, is_unchanged, kept_state};
pub use needed::{needed_names, others_need_no_row};
pub use orders::Order;
pub use place::{ServicePlace, place_of};
pub use quiet::{Quiet, idle_only_unchanged};
pub use resting::{rest_left, whole_rest};
pub use rounds::run_svscan;
pub use rows::{Entry, Folder, rows_of};
pub use service_set::{
    ListFault, Listing, Remaining, RoundOut, ServiceSet, Shortage, Sight, Startup, Supervision,
    Unfinished, Unlogged, UnmadePart, Untaken,
};
pub use supervise::run_supervise;
