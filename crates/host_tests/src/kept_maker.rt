//! A maker that records what it was asked.
ghost use Rattle.std.specs.Prelude.{◌≡◌};
ghost use Rattle.std.specs.Result.{result_err};
ghost use Rattle.svc_host.specs.Resources.{begins_as};

use crate::actor::{Actor, ActorReaper, Life, Lives, Said};
use crate::cast::Cast;
use crate::kept_calls::{Asked, KeptCalls};
use crate::meeting::Meeting;
use scan_table::PartId;
use std::alloc::Global;
use std::sync::Arc;
use svc_host::{Maker, PartFault, PartResources};
use svc_house::{ControlSender, Notifier};
use svc_record::Opening;

/// A cast that records its calls.
#[derive(Drop)]
pub(crate) struct KeptMaker {
    cast: Cast,
    calls: KeptCalls,
}

impl KeptMaker {
    ghost use Rattle.std.specs.Prelude.{◌≡◌, [], Some};

    /// Makes one that was asked nothing yet.
    pub(crate) fn new(alloc: Global, cast: Cast) -> KeptMaker
        ensures { result.calls ≡ Some [] }
    {
        KeptMaker {
            cast,
            calls: KeptCalls::new(alloc),
        }
    }

    /// Returns its calls in order, unless there was no memory for one.
    pub(crate) fn asked(&self) -> Option<&[Asked]> {
        self.calls.asked()
    }
}

/// Returns how a part begins, or why it was not made.
fn begins_as(
    made: &Result<PartResources<Actor, Meeting, ActorReaper>, PartFault>,
) -> Result<Opening, PartFault>
    ensures { result ≡ begins_as made.now }
{
    match made {
        Ok(resources) => Ok(resources.opening),
        Err(fault) => Err(*fault),
    }
}

/// Returns why a pair was not made.
fn fault_of(made: &Result<(Said, Lives), PartFault>) -> Option<PartFault>
    ensures { result ≡ result_err made.now }
{
    match made {
        Ok(_) => None,
        Err(fault) => Some(*fault),
    }
}

impl Maker for KeptMaker {
    ghost calls = { λ maker. maker.calls };

    type World = Actor;

    type Gate = Meeting;

    type Reaper = ActorReaper;

    type Output = Said;

    type Outlet = Life;

    type Outlets = Lives;

    fn part(
        &mut self,
        name: &str,
        part: PartId,
        sender: ControlSender,
        notifier: Arc<Notifier, Global>,
    ) -> Result<PartResources<Actor, Meeting, ActorReaper>, PartFault> {
        let made = self.cast.part(name, part, sender, notifier);
        self.calls.note_part(part, name, begins_as(&made));
        made
    }

    fn pair(&mut self, name: &str, slot: u64) -> Result<(Said, Lives), PartFault> {
        let made = self.cast.pair(name, slot);
        self.calls.note_pair(slot, name, fault_of(&made));
        made
    }

    fn keep_trace(&mut self, part: PartId, text: &[u8]) -> bool {
        let kept = self.cast.keep_trace(part, text);
        self.calls.note_trace(part, text, kept);
        kept
    }

    fn ended(&mut self, part: PartId) {
        self.calls.note(Asked::Ended(part));
    }

    fn forget(&mut self, slot: u64) {
        self.cast.forget(slot);
        self.calls.note(Asked::Forgot(slot));
    }

    fn watch_outputs(&mut self) {
        self.calls.note(Asked::Watched);
    }

    fn end_output(&mut self, slot: u64, at_once: bool) {
        self.calls.note(Asked::EndedOutput(slot, at_once));
    }

    fn is_read(&mut self, slot: u64) -> bool {
        let is_read = self.cast.is_read(slot);
        self.calls.note(Asked::IsRead(slot, is_read));
        is_read
    }

    fn lost(&mut self, slot: u64, has_logger: bool) -> u64 {
        let count = self.cast.lost(slot, has_logger);
        self.calls.note(Asked::Lost(slot, has_logger, count));
        count
    }
}
