//! The reaper of a part's children, in a thread that the host makes.
use std::sync::Wait;
use std::time::Clock;
use svc_host::Reaper;
use svc_system::ChildReaper;

/// Reaps the children of one service.
#[derive(Drop)]
pub struct PartReaper {
    pub(crate) reaper: ChildReaper,
}

impl Reaper for PartReaper {
    fn run<R: Wait + Clock + Copy + Drop>(self, rt: R) {
        let PartReaper { reaper } = self;
        reaper.run(rt)
    }
}
