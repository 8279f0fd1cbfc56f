//! The laws that the running svscan does what a suite does.
//!
//! The promise for any number of services is proved for a `Suite` (`suite_core`), which `sim` runs. svscan runs a
//! `Host` (`svc_host`), whose parts are threads. The laws here join the two:
//!
//! - Both scan the same rows in the same way.
//! - What a part of the host publishes is what the suite makes of that part's own events. Each step has the same reply.
//! - A whole run of a host is a run of a suite.
//! - Every host results from such a run.
#![tactic(auto)]

mod law;

pub use law::{host_is_of_a_suite, parts_publish_alike, runs_are_of_suites, scans_are_alike};
