//! The command `envdir`: a program in the environment that the files of a folder make.
#![tactic(auto)]

mod child;
mod command;
mod env_system;
mod fault;
mod folder;
mod launcher;
mod names;
mod script;
mod variables;

pub use command::run_envdir;
pub use env_system::EnvSystem;
pub use fault::{EnvdirFault, FolderReadFault};
pub use folder::FolderFile;
pub use launcher::{Launcher, SystemLauncher};
pub use variables::system_env;
