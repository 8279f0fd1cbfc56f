//! What the system has of one service: its folder and lock, its output, its children, and the processes that an earlier
//! svscan left.
//!
//! `SystemChildren` does what the rules of `svc_world` ask, with the folder of the service (`ServiceFolder`), its
//! children (`ChildReaper`), the shell that sends signals (`SignalShell`), and the thread that watches adopted
//! processes (`AdoptionWatch`). This layer decides nothing: what a text means, which process lives, and how a fault
//! is named are functions with equations. How the shell is asked for a signal is proved too, over the small trait
//! `ShellProcess`.
#![tactic(auto)]

mod access;
mod adoption;
mod child_reaper;
mod children;
mod commands;
mod fates;
mod flow;
mod folder;
mod left;
mod linger;
mod listening;
mod neighbours;
mod notification;
mod output;
mod patience;
mod private_files;
mod processes;
mod remarks;
mod settings;
mod shell;
mod shell_process;
mod sockets;
mod surroundings;
mod times;

pub use adoption::AdoptionWatch;
pub use child_reaper::ChildReaper;
pub use children::{Streams, SystemChildren};
pub use flow::{Flow, LoggerInput, ServiceOutput, drain, is_read};
pub use folder::{FolderFault, ServiceFolder};
pub use neighbours::Neighbours;
pub use output::{OutputEnds, open_output, prepare_outputs};
pub use patience::Patience;
pub use processes::OwnRun;
pub use shell::SignalShell;
pub use surroundings::Surroundings;
