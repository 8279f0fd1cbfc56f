//! What every command uses: the table of the commands with their pages, the reports of faults and the exit statuses,
//! the files that commands read (a service's status file among them), and the system's clock.
#![tactic(auto)]

mod clock;
mod command;
mod files;
mod front;
mod pages;
mod reporting;
mod status;

pub use clock::{SystemClock, millis_between};
pub use command::Command;
pub use files::FileSource;
pub use front::{check_file, read_front};
pub use pages::page_of;
pub use reporting::{
    DONE, REFUSED, TROUBLE, cause_note, print_fault, push_number, report, report_device,
    report_parts, usage,
};
pub use status::{StatusFront, path_by_descriptor};
