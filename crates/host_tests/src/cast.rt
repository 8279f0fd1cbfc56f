//! What makes the parts of a host in a test.
use crate::actor::{Actor, ActorReaper, Life, Lives, Process, Said, Taken};
use crate::meeting::{Flag, Meeting};
use scan_table::PartId;
use std::alloc::{AllocError, Global};
use std::sync::Arc;
use svc_host::{Maker, PartFault, PartResources};
use svc_house::{ControlSender, Notifier};
use svc_record::Opening;
use tai_status::Label;

/// Makes actors. The parts of the first slot get one gate, and those of every other slot another one.
#[derive(Drop)]
pub(crate) struct Cast {
    pub(crate) alloc: Global,
    pub(crate) first: Meeting,
    pub(crate) second: Meeting,
    /// What the loggers of the first slot and of the others took.
    pub(crate) taken: [Arc<Taken, Global>; 2],
    /// The slots that were forgotten.
    pub(crate) forgotten: Vec<u64>,
    pub(crate) next_pid: u32,
}

impl Cast {
    fn new(alloc: Global, first: Meeting, second: Meeting) -> Result<Cast, AllocError> {
        Ok(Cast {
            alloc,
            first,
            second,
            taken: [
                Arc::new(alloc, Taken::new())?,
                Arc::new(alloc, Taken::new())?,
            ],
            forgotten: Vec::new(alloc),
            next_pid: 1,
        })
    }

    /// Makes a cast with one gate, which sets the first flag and waits for the second.
    pub(crate) fn gated(
        alloc: Global,
        own: &Arc<Flag, Global>,
        other: &Arc<Flag, Global>,
        in_vain: &Arc<Flag, Global>,
    ) -> Result<Cast, AllocError> {
        Cast::new(
            alloc,
            Meeting::new(own, other, in_vain)?,
            Meeting::new(own, other, in_vain)?,
        )
    }

    /// Makes a cast whose gates are open.
    pub(crate) fn open(alloc: Global) -> Result<Cast, AllocError> {
        let flag = Flag::new(alloc)?;
        let in_vain = Flag::new(alloc)?;
        Cast::gated(alloc, &flag, &flag, &in_vain)
    }

    /// Makes a cast with two gates that wait for one another.
    pub(crate) fn crossed(alloc: Global, in_vain: &Arc<Flag, Global>) -> Result<Cast, AllocError> {
        let left = Flag::new(alloc)?;
        let right = Flag::new(alloc)?;
        Cast::new(
            alloc,
            Meeting::new(&left, &right, in_vain)?,
            Meeting::new(&right, &left, in_vain)?,
        )
    }
}

impl Maker for Cast {
    type World = Actor;

    type Gate = Meeting;

    type Reaper = ActorReaper;

    type Output = Said;

    type Outlet = Life;

    type Outlets = Lives;

    fn part(
        &mut self,
        _name: &str,
        part: PartId,
        _sender: ControlSender,
        notifier: Arc<Notifier, Global>,
    ) -> Result<PartResources<Actor, Meeting, ActorReaper>, PartFault> {
        let gate = if part.slot == 0 {
            self.first.copy()?
        } else {
            self.second.copy()?
        };
        let process = Process::new(self.alloc)?;
        let reaper = ActorReaper {
            process: Arc::try_clone(&process)?,
            notifier: Arc::try_clone(&notifier)?,
        };
        let world = Actor {
            process,
            notifier,
            pid: self.next_pid,
            start: Label::from_unix(1, 0).unwrap(),
            clock: Label::from_unix(2, 0).unwrap(),
            death: Label::from_unix(3, 0).unwrap(),
            is_starting: false,
        };
        self.next_pid = self.next_pid.saturating_add(1);
        Ok(PartResources {
            world,
            gate,
            reaper,
            opening: Opening::ByRow,
        })
    }

    fn pair(&mut self, _name: &str, slot: u64) -> Result<(Said, Lives), PartFault> {
        let (bytes, taken) = if slot == 0 {
            (*b"abcdef", Arc::try_clone(&self.taken[0])?)
        } else {
            (*b"uvwxyz", Arc::try_clone(&self.taken[1])?)
        };
        Ok((Said { bytes, place: 0 }, Lives { taken, given: 0 }))
    }

    fn keep_trace(&mut self, _part: PartId, _text: &[u8]) -> bool {
        true
    }

    fn ended(&mut self, _part: PartId) {}

    fn forget(&mut self, slot: u64) {
        let _ = self.forgotten.push(slot);
    }

    fn watch_outputs(&mut self) {}

    fn end_output(&mut self, _slot: u64, _at_once: bool) {}

    fn is_read(&mut self, _slot: u64) -> bool {
        true
    }

    fn lost(&mut self, _slot: u64, _has_logger: bool) -> u64 {
        0
    }
}
