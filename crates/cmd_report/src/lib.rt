//! The state of services, for programs: `svstat --json`, with one JSON object on each line, and `svstat --metrics`, in
//! the text format of Prometheus.
#![tactic(auto)]

mod command;
mod find;
mod found;
mod laws;
mod lines;
mod metrics;
mod objects;
mod report;
mod samples;

pub use command::run_report;
pub use find::find_one;
pub use found::FoundService;
pub use laws::{labels_read, same_words};
pub use lines::run_json;
pub use metrics::metrics_text;
pub use objects::{json_line, want_name};
pub use report::run_metrics;
pub use samples::{Sample, value_in};
