//! What is in `supervise/` next to the status record: the small files about the processes of a service, and how the
//! service begins after an earlier svscan.
//!
//! - `place`: the process that was started last, or that a start is intended. `process`: the process that was started
//!   last.
//! - `exit`: how the last process ended. `counts`: how many began and ended since svscan began.
//! - `ready`: when the process said that it is ready. `backoff`: until when the next start waits.
//!
//! A function with the name of a line makes it, and one that reads it gives exactly what was written. At each start the
//! place and the process are recorded. The next svscan reads them and finds what became of the process (`find`,
//! `find_leftover`). With the status record it decides how the service begins (`Left::opening`): by its row, as it is
//! wanted, or as it was left. A process that is still alive is adopted, with the machine in the record.
//!
//! The kernel's line about a process (`/proc/PID/stat`) is read here, too (`Stat`, `living_tick`), and so are the ticks of
//! its clock (`tick_at`).
#![tactic(auto)]

mod counts;
mod ending;
mod exit;
mod laws;
mod leftover;
mod moment;
mod opening;
mod place;
mod process;
mod reading;
mod stat;
mod ticks;

pub use counts::{Counts, CountsText, counts_text, read_counts};
pub use ending::{Ending, ending_of, signal_name};
pub use exit::{Exit, ExitText, exit_text};
pub use laws::{nobody_is_left, places_show_starts, takes_up_its_own};
pub use leftover::{Intent, Leftover, Seen, find_any_here, find_leftover, may_be_started};
pub use moment::{Moment, before_newline, moment_in, moment_text};
pub use opening::{Left, Opening};
pub use place::{PLACE_BYTES, Place, PlaceLine, first_line, place_line, read_place};
pub use process::{BootId, Fate, ProcessId, ProcessLine, find, process_line, read_process};
pub use reading::{read_ending, read_exit};
pub use stat::{STAT_BYTES, Stat, living_tick};
pub use ticks::{TICKS, tick_at};
