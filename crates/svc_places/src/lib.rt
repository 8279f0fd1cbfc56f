//! Where the folder of a service is, by the word that names it: here, or in the folder that the variable `SVDIR` names.
//!
//! [`path_at`] decides that. [`service_path`] asks the system for what it decides by, and [`ServicePlaces`] does so for
//! a word that may also name a file. [`service_words`] lists the services of that folder.
#![tactic(auto)]

mod laws;
mod listing;
mod places;
mod system;

pub use laws::listed_is_found;
pub use listing::service_words;
pub use places::{ServicePath, is_looked_up, is_name, path_at};
pub use system::{ServicePlaces, service_path};
