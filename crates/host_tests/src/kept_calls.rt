//! The calls of a maker, as they are recorded.
ghost use Rattle.std.specs.Prelude.{◌≡◌, IfOk};

use scan_table::PartId;
use std::alloc::{AllocError, Global};
use std::marker::Model;
use svc_host::PartFault;
use svc_record::Opening;

/// A call of a maker, with its result.
#[derive(Drop)]
pub enum Asked {
    Part(PartId, Vec<u8>, Result<Opening, PartFault>),
    Pair(u64, Vec<u8>, Option<PartFault>),
    Trace(PartId, Vec<u8>, bool),
    Ended(PartId),
    Forgot(u64),
    Watched,
    EndedOutput(u64, bool),
    IsRead(u64, bool),
    Lost(u64, bool, u64),
}

/// The calls of a maker, in order, as long as there is memory for them. Contracts see these.
#[derive(Drop)]
pub struct KeptCalls {
    alloc: Global,
    asked: Vec<Asked>,
    is_lost: bool,
}

impl Model for KeptCalls {
    ghost use Rattle.std.specs.Prelude.{List, Option, map};
    ghost use Rattle.svc_house.specs.Calls.{unless};
    ghost use Rattle.svc_host.specs.Calls.{Call};
    ghost use Rattle.host_tests.specs.Kept.{call_of};

    ghost Value = { Option (List Call) };

    ghost view = { λ calls. unless calls.is_lost (map call_of calls.asked.items) };
}

/// Returns a copy of these bytes.
fn copied(alloc: Global, bytes: &[u8]) -> Result<Vec<u8>, AllocError>
    ensures { IfOk result (λ copy. copy.items ≡ bytes.now) }
{
    let mut copy = Vec::new(alloc);
    copy.extend_from_slice(bytes)?;
    Ok(copy)
}

impl KeptCalls {
    ghost use Rattle.std.specs.Prelude.{◌≡◌, ◌∷◌, [], Some};
    ghost use Rattle.svc_house.specs.Calls.{ExtendedWhileKept};
    ghost use Rattle.svc_host.specs.Calls.{KeptTrace, MadePair, MadePart};
    ghost use Rattle.host_tests.specs.Kept.{call_of};

    /// Returns a record of no calls.
    pub fn new(alloc: Global) -> KeptCalls
        ensures { result ≡ Some [] }
    {
        KeptCalls {
            alloc,
            asked: Vec::new(alloc),
            is_lost: false,
        }
    }

    /// Returns the calls in order, unless there was no memory for one.
    pub fn asked(&self) -> Option<&[Asked]> {
        if self.is_lost {
            None
        } else {
            Some(self.asked.as_slice())
        }
    }

    /// Records a call.
    pub fn note(&mut self, asked: Asked)
        ensures { ExtendedWhileKept self.old self.new (call_of asked ∷ []) }
    {
        if self.asked.push(asked).is_err() {
            self.is_lost = true;
        }
    }

    /// Records that a part was asked for by this name.
    pub fn note_part(&mut self, id: PartId, name: &str, made: Result<Opening, PartFault>)
        ensures { ExtendedWhileKept self.old self.new (MadePart id name.now made ∷ []) }
    {
        match copied(self.alloc, name.as_bytes()) {
            Ok(name) => self.note(Asked::Part(id, name, made)),
            Err(AllocError) => self.is_lost = true,
        }
    }

    /// Records that a pair was asked for by this name.
    pub fn note_pair(&mut self, slot: u64, name: &str, fault: Option<PartFault>)
        ensures { ExtendedWhileKept self.old self.new (MadePair slot name.now fault ∷ []) }
    {
        match copied(self.alloc, name.as_bytes()) {
            Ok(name) => self.note(Asked::Pair(slot, name, fault)),
            Err(AllocError) => self.is_lost = true,
        }
    }

    /// Records that the trace of a part was to be kept.
    pub fn note_trace(&mut self, id: PartId, text: &[u8], kept: bool)
        ensures { ExtendedWhileKept self.old self.new (KeptTrace id text.now kept ∷ []) }
    {
        match copied(self.alloc, text) {
            Ok(text) => self.note(Asked::Trace(id, text, kept)),
            Err(AllocError) => self.is_lost = true,
        }
    }
}
