//! The resources of the parts of services.
use scan_table::PartId;
use std::alloc::{AllocError, Global};
use std::io::Read;
use std::sync::{Arc, Wait};
use std::time::Clock;
use svc_house::{ControlSender, Gate, Notifier, World};
use svc_record::Opening;
use svc_relay::outlet::Outlet;
use tai_status::Cause;

/// Why a part was not made.
#[derive(Clone, Copy, Debug, PartialEq, Eq)]
pub enum PartFault {
    /// Another svscan has its folder.
    Locked,
    /// The system refused something that the part needs.
    Refused(Cause),
}

impl From<AllocError> for PartFault {
    fn from(_fault: AllocError) -> PartFault {
        PartFault::Refused(Cause::NoMemory)
    }
}

/// What waits for the deaths of a part's processes.
pub trait Reaper {
    /// Waits for them, in a thread of its own. Returns by itself once the part's world is dropped.
    fn run<R: Wait + Clock + Copy + Drop>(self, rt: R);
}

/// The resources of one part: its processes, status file and clock; when it may look for the answer to a start; the
/// reaper of its processes; and how it begins.
#[derive(Drop)]
pub struct PartResources<W: World + Drop, G: Gate + Drop, A: Reaper + Drop> {
    pub world: W,
    pub gate: G,
    pub reaper: A,
    pub opening: Opening,
}

/// Where a pair's output goes, from one life of its logger to the next.
pub trait Outlets<O: Outlet + Drop> {
    ghost use Rattle.std.specs.Prelude.{◌≡◌, [], IfSome};

    /// Returns the input of the logger's newest life, into which nothing was put. Returns it once a life, and None
    /// otherwise. If there is none yet, it is asked again when more output comes, and after each write that fails.
    fn next(&mut self) -> Option<O>
        ensures fresh { IfSome result (λ outlet. IfSome (O.bytes outlet) (λ bytes. bytes ≡ [])) };
}

/// Makes the resources of each part. `pair` is called for a slot that is a pair before its parts are made. Contracts
/// see its calls (`MadeWhileKept`).
pub trait Maker {
    ghost use Rattle.std.specs.Prelude.{◌≡◌, Option, None, List, [], IfOk};
    ghost use Rattle.std.specs.Result.{result_err};
    ghost use Rattle.svc_house.specs.Calls.{MadeWhileKept};
    ghost use Rattle.svc_host.specs.Answers.{answered};
    ghost use Rattle.svc_record.specs.Opening.{BeginsAlive};
    ghost use Rattle.svc_host.specs.Resources.{begins_as};
    ghost use Rattle.svc_host.specs.Calls.{Call, MadePart, MadePair, KeptTrace, EndedPart, ForgotSlot};
    ghost use Rattle.svc_host.specs.Calls.{WatchedOutputs, EndedOutput, AskedIsRead, CountedLost};

    ghost calls: { Self → Option (List Call) } = { λ _. None };

    type World: World + Drop + Send + 'static;

    type Gate: Gate + Drop + Send + 'static;

    type Reaper: Reaper + Drop + Send + 'static;

    type Output: Read + Drop + Send + 'static;

    type Outlet: Outlet + Drop + Send + 'static;

    type Outlets: Outlets<Self::Outlet> + Drop + Send + 'static;

    /// Makes the resources of a part of the service with this name. A fault says why they can't be made. `sender`
    /// brings control bytes to the part from outside. The part's thread waits for `notifier`, and the world notifies it
    /// when it has an answer.
    fn part(
        &mut self,
        name: &str,
        id: PartId,
        sender: ControlSender,
        notifier: Arc<Notifier, Global>,
    ) -> Result<PartResources<Self::World, Self::Gate, Self::Reaper>, PartFault>
        ensures calls { MadeWhileKept calls (MadePart id name.now (begins_as result)) self.old self.new }
        ensures alive { IfOk result (λ resources. BeginsAlive resources.opening) }
        ensures fresh { IfOk result (λ resources. answered (Self.World.calls resources.world) ≡ []) };

    /// Makes the output of the service of a pair with this name, which continues from life to life, and the outlets for
    /// it. A fault says why they can't be made. It may be called again for a slot, if no thread could be made.
    fn pair(&mut self, name: &str, slot: u64) -> Result<(Self::Output, Self::Outlets), PartFault>
        ensures calls { MadeWhileKept calls (MadePair slot name.now (result_err result)) self.old self.new };

    /// Keeps the trace of a part, and returns whether it could.
    fn keep_trace(&mut self, id: PartId, text: &[u8]) -> bool
        ensures calls { MadeWhileKept calls (KeptTrace id text.now result) self.old self.new };

    /// Called when a part has ended, or could not be started after it was made: nothing may come to it from outside any
    /// more.
    fn ended(&mut self, id: PartId)
        ensures calls { MadeWhileKept calls (EndedPart id) self.old self.new };

    /// Called when a slot is dropped: the output of its pair, if it is a pair, must end.
    fn forget(&mut self, slot: u64)
        ensures calls { MadeWhileKept calls (ForgotSlot slot) self.old self.new };

    /// Lets all outputs of pairs be asked to end from now on (`end_output`).
    fn watch_outputs(&mut self)
        ensures calls { MadeWhileKept calls WatchedOutputs self.old self.new };

    /// Asks the output of a slot's pair to end: at once, or when there is nothing to read for now.
    fn end_output(&mut self, slot: u64, at_once: bool)
        ensures calls { MadeWhileKept calls (EndedOutput slot at_once) self.old self.new };

    /// Returns whether the logger of a slot's pair has nothing to read for now.
    fn is_read(&mut self, slot: u64) -> bool
        ensures calls { MadeWhileKept calls (AskedIsRead slot result) self.old self.new };

    /// Returns how many bytes of the output of a slot's pair were read and don't reach its logger, after that output
    /// has ended. These are the bytes that were not put into its input. If there is no logger, the bytes in its input
    /// count too.
    fn lost(&mut self, slot: u64, has_logger: bool) -> u64
        ensures calls { MadeWhileKept calls (CountedLost slot has_logger result) self.old self.new };
}
