//! What the services of one svscan share.
ghost use Rattle.std.specs.Prelude.{◌≡◌, true};
ghost use Rattle.svc_record.specs.Leftover.{HasNumber, IsAwaited};

use crate::adoption::AdoptionWatch;
use crate::folder::ServiceFolder;
use crate::neighbours::Neighbours;
use crate::processes::OwnRun;
use crate::shell::SignalShell;
use std::alloc::Global;
use std::process::{Processes, SystemProcess};
use std::sync::Wait;
use svc_record::{Leftover, Place};

/// What the services of one svscan share.
#[derive(Drop)]
pub struct Surroundings<R: Processes<Started = SystemProcess> + Wait + Copy + Drop> {
    /// This svscan.
    pub own: OwnRun,
    /// The shell that sends their signals.
    pub shell: SignalShell<R>,
    /// The services of the folder, and their loggers.
    pub neighbours: Neighbours,
    /// The thread that watches adopted processes.
    pub adoptions: AdoptionWatch,
}

impl<R: Processes<Started = SystemProcess> + Wait + Copy + Drop> Surroundings<R> {
    /// Returns what is left over from the start that this place of the service in a folder intends.
    pub fn leftover(&self, rt: &R, alloc: Global, folder: &ServiceFolder, place: &Place) -> Leftover
        ensures awaited { place.now.is_finish ≡ true → IsAwaited result }
        ensures number { HasNumber result }
    {
        match self.neighbours.near(rt, &self.own, place.session) {
            Ok(near) => folder.leftover(alloc, &self.own, place, &near),
            Err(_) => Leftover::Unsure(0),
        }
    }
}
