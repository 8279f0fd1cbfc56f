//! The command `multilog` over folders.
#![tactic(auto)]

mod command;
mod fault;
mod folder_log;
mod laws;
mod line_clock;
mod log_system;
mod names;
mod opening;
mod rising;
mod stop;
mod store;
mod system;
mod system_input;

pub use command::run_multilog;
pub use fault::{NoScript, OpenFault};
pub use folder_log::FolderLog;
pub use laws::{labels_rise, what_a_stop_gives};
pub use line_clock::{LineClock, LineLabels};
pub use log_system::{LogFolder, LogSystem, StatusPlace};
pub use names::FileName;
pub use rising::RisingLabels;
pub use stop::{InputWithChannel, LoggerEvent, Stoppable};
pub use store::FolderStore;
pub use system::{SystemLogFolder, SystemLogs, SystemStatus};
pub use system_input::{SystemInput, stop_channel};
