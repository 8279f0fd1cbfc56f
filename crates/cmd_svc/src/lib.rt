//! The commands `svc`, `svstat` and `svok`: what a client asks of supervised services, and what it reports about them.
//!
//! [`assemble`] splits the words of a svc command (<https://cr.yp.to/daemontools/svc.html>): the letters of the option
//! words at the front become control bytes, and the other words are services. [`stat_line`] says in which state a
//! service is, as svstat prints it (<https://cr.yp.to/daemontools/svstat.html>).
#![tactic(auto)]

mod course;
mod escaping;
mod form;
mod line;
mod listed;
mod look;
mod missing;
mod order;
mod svc;
mod svok;
mod svstat;
mod words;

pub use course::{Course, about, ask_course, read_moment};
pub use escaping::shown;
pub use form::LineForm;
pub use line::{is_running, normal_note, paused_note, push_number, stat_line, wants_up};
pub use listed::{ListedLine, Shade, is_colored, widest};
pub use look::{ServiceLook, fault_name, look_at};
pub use missing::tell_missing;
pub use order::{OrderBytes, SvcFault, SvcOrder};
pub use svc::{run_svc, serve};
pub use svok::run_svok;
pub use svstat::{SvstatFault, report_svstat, run_svstat, run_svstat_as};
pub use words::{assemble, is_option};
