//! What the commands use.
use crate::devices::Devices;
use cmd_base::FileSource;
use cmd_envdir::{EnvSystem, Launcher};
use cmd_local::Zone;
use cmd_multilog::{FolderStore, LogSystem};
use cmd_svscan::ServiceSet;
use cmd_wait::Pace;
use cmd_why::LocalTimes;
use mlog_core::PartedInput;
use std::io::{Read, Write};
use std::sync::Wait;
use svc_client::{Services, Traces};
use svc_places::ServicePlaces;
use tai_status::TimeSource;

/// The types of what the commands use.
pub trait Platform {
    /// The system: its files, variables and memory.
    type System: FileSource + ServicePlaces + EnvSystem + Traces + AllocGlobal + Drop;

    /// What starts the programs of other commands.
    type Launcher: Launcher + Drop;

    /// The system of the logs.
    type Logs: LogSystem + Drop;

    /// The input of a logger.
    type Lines: PartedInput + Drop;

    /// The services of a folder, for what supervises them.
    type ServiceSet: ServiceSet + Drop;

    /// What waits for threads.
    type Waiting: Wait + Drop;

    /// The pauses between looks at services.
    type Pace: Pace + Drop;

    /// The zone of local times.
    type Zone: Zone + LocalTimes + Drop;

    type Reader: Read + Drop;

    type Writer: Write + Drop;

    type Faults: Write + Drop;

    /// The services, as a client reaches them.
    type Services: Services + Drop;

    type Clock: TimeSource + Drop;
}

/// What the commands use. A command gets only what it needs. A logger has an input of its own.
#[derive(Drop)]
pub struct Tools<P: Platform> {
    pub system: P::System,
    pub launcher: P::Launcher,
    pub store: FolderStore<P::Logs>,
    pub lines: P::Lines,
    pub service_set: P::ServiceSet,
    pub waiting: P::Waiting,
    pub pace: P::Pace,
    pub zone: P::Zone,
    pub devices: Devices<P::Reader, P::Writer, P::Faults, P::Services, P::Clock>,
}
