//! What the operating system does for the parts of services.
use crate::kept_folder::LockedFolder;
use scan_table::DirRow;
use std::alloc::Global;
use std::fs::File;
use std::io::PipeReader;
use std::sync::Arc;
use svc_host::Reaper;
use svc_house::{ControlSender, Notifier, World};
use svc_system::{Flow, FolderFault, LoggerInput, OutputEnds};
use svc_world::{Remains, Takeover};
use tai_status::Cause;

/// What is given back if a part was not admitted to the door.
#[derive(Drop)]
pub struct NotAdmitted {
    /// The sender through which its control bytes were to come.
    pub sender: ControlSender,
    /// Why it was not admitted.
    pub cause: Cause,
}

/// What the operating system does for the parts of services. Contracts see its calls (`MadeWhileKept`).
pub trait PartSystem {
    ghost use Rattle.std.specs.Prelude.{◌≡◌, ⊤, Option, Some, None, List, [], string_bytes, IfOk, IfErr, OnOk};
    ghost use Rattle.std.specs.Result.{result_err};
    ghost use Rattle.svc_host.specs.Answers.{answered};
    ghost use Rattle.svc_house.specs.Calls.{MadeWhileKept};
    ghost use Rattle.svc_record.specs.Process.{IsLiving};
    ghost use Rattle.svc_maker.specs.Calls.{Call, Allowed, MadePipe, OpenedOutput, Opened, FoundRemains, Admitted};
    ghost use Rattle.svc_maker.specs.Calls.{Dismissed, KeptTrace, OpenedOwn, Prepared, Recorded, WatchedOutputs};
    ghost use Rattle.svc_maker.specs.Calls.{CountedBetween, Drained, EndedOutput, LookedAtInput, why_refused};
    ghost use Rattle.svc_maker.specs.Calls.{world_call};
    ghost use Rattle.svc_world.specs.Takeover.{AreOne};
    ghost use Rattle.svc_world.specs.declared.takeover.Takeover.{Takeover};

    ghost calls: { Self → Option (List Call) } = { λ _. None };

    // Whether a world has this taken over.
    ghost HasTaken: { Self.World → Takeover → Type 0 } = { λ _ _. ⊤ };

    type Folder: LockedFolder + Drop;

    type World: World + Drop;

    type Reaper: Reaper + Drop;

    /// Sets the number of descriptors that this process may have from now on.
    fn set_allowed(&mut self, descriptors: u64)
        ensures calls { MadeWhileKept calls (Allowed descriptors) self.old self.new };

    /// Makes, all at once, what the outputs of the services in these rows of a folder need and lack, as far as it can.
    /// What it can't make is made separately when the output is opened.
    fn prepare(&mut self, folder: &str, rows: &[DirRow])
        ensures calls { MadeWhileKept calls (Prepared folder.now rows.now) self.old self.new };

    /// Makes a pipe for the input of a logger. The flow counts what the pipe takes. A fault says why it can't be made.
    fn pipe(
        &mut self,
        flow: &Arc<Flow, Global>,
    ) -> Result<(Arc<PipeReader, Global>, LoggerInput), Cause>
        ensures calls { MadeWhileKept calls (MadePipe result) self.old self.new };

    /// Opens the output of the service in the folder at a path. A fault says why that can't be done in this round.
    fn output(&mut self, path: &str) -> Result<OutputEnds, FolderFault>
        ensures calls { MadeWhileKept calls (OpenedOutput path.now result) self.old self.new };

    /// Opens the folder at a path and takes its lock. Both are kept until the folder is dropped.
    fn open(&mut self, path: String) -> Result<Self::Folder, FolderFault>
        ensures opened { OnOk result (MadeWhileKept calls (Opened (string_bytes path) None) self.old self.new) }
        ensures path { IfOk result (λ folder. Self.Folder.path folder ≡ string_bytes path) }
        ensures fault { IfErr result (λ fault.
            MadeWhileKept calls (Opened (string_bytes path) (Some fault)) self.old self.new) };

    /// Opens the folder at a path in which svscan itself is served, and takes its lock. Makes the folder if it is
    /// missing, and changes nothing there while another svscan has the lock. Both are kept until the folder is dropped.
    fn open_own(&mut self, path: String) -> Result<Self::Folder, FolderFault>
        ensures calls { MadeWhileKept calls (OpenedOwn (string_bytes path) (result_err result)) self.old self.new }
        ensures path { IfOk result (λ folder. Self.Folder.path folder ≡ string_bytes path) };

    /// Replaces the status record in a folder by these bytes, and returns whether it could.
    fn record(&mut self, folder: &Self::Folder, bytes: &[u8; 20]) -> bool
        ensures calls { MadeWhileKept calls (Recorded (Self.Folder.path folder.now) bytes.now result)
            self.old self.new };

    /// Lets all outputs watch their flows from now on, so that each can be asked to end.
    fn watch_outputs(&mut self)
        ensures calls { MadeWhileKept calls WatchedOutputs self.old self.new };

    /// Returns what remains of the service in a folder after an earlier svscan. The process with which the service begins
    /// is the one that its world takes over.
    fn remains(&mut self, folder: &Self::Folder) -> Remains
        ensures calls { MadeWhileKept calls (FoundRemains (Self.Folder.path folder.now) result) self.old self.new }
        ensures process { IsLiving result.left.process }
        ensures one { AreOne result };

    /// Makes the world of the service in a folder, which takes this over, and the reaper of its processes. A fault
    /// says why they can't be made. The world looks for the death of a process that it takes over. Each child gets copies
    /// of these ends of pipes as standard input and output, and svscan's own if there is none. The ends are shared. The
    /// notifier is notified if there is news. Messages about the service use this name.
    fn world(
        &mut self,
        folder: &Self::Folder,
        name: &str,
        taken: &Takeover,
        input: Option<&Arc<PipeReader, Global>>,
        output: Option<&Arc<File, Global>>,
        notifier: Arc<Notifier, Global>,
    ) -> Result<(Self::World, Self::Reaper), Cause>
        ensures calls { MadeWhileKept calls (world_call (Self.Folder.path folder.now) name.now taken.now
            input.entry output.entry result) self.old self.new }
        ensures taken { IfOk result (λ made. HasTaken made.0 taken.now) }
        ensures fresh { IfOk result (λ made. answered (Self.World.calls made.0) ≡ []) };

    /// Admits a part to the door, with the sockets of its folder, or says why not. No other part there has this number.
    fn admit(
        &mut self,
        number: u64,
        folder: &Self::Folder,
        sender: ControlSender,
    ) -> Result<(), NotAdmitted>
        ensures calls { MadeWhileKept calls (Admitted number (Self.Folder.path folder.now) (why_refused result))
            self.old self.new }
        ensures sender { IfErr result (λ refused. refused.sender ≡ sender) };

    /// Dismisses a part from the door, if it is there, and removes the sockets of its folder.
    fn dismiss(&mut self, number: u64, folder: &Self::Folder)
        ensures calls { MadeWhileKept calls (Dismissed number (Self.Folder.path folder.now)) self.old self.new };

    /// Replaces the text of the trace in a folder, and returns whether it could. If not, the old text is there.
    fn keep_trace(&mut self, folder: &Self::Folder, text: &[u8]) -> bool
        ensures calls { MadeWhileKept calls (KeptTrace (Self.Folder.path folder.now) text.now result)
            self.old self.new };

    /// Asks the output with this flow to end: at once, or when there is nothing to read for now.
    fn end_output(&mut self, flow: &Flow, at_once: bool)
        ensures calls { MadeWhileKept calls (EndedOutput flow.now at_once) self.old self.new };

    /// Returns whether a logger's input has nothing to read for now.
    fn is_read(&mut self, input: &PipeReader) -> bool
        ensures calls { MadeWhileKept calls (LookedAtInput input.now result) self.old self.new };

    /// Returns how many bytes were read from the output with this flow and not put into the input of its logger.
    fn between(&mut self, flow: &Flow) -> u64
        ensures calls { MadeWhileKept calls (CountedBetween flow.now result) self.old self.new };

    /// Reads a logger's input to its end, and returns the number of bytes: 0 if it can't be read.
    fn drain(&mut self, input: &PipeReader) -> u64
        ensures calls { MadeWhileKept calls (Drained input.now result) self.old self.new };
}
