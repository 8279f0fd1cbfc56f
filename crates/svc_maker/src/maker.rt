//! The maker of parts over folders.
ghost use Rattle.std.specs.Prelude.{◌≡◌, ◌++◌, [], option_map, IfOk, OnOk, OnErr};
ghost use Rattle.std.specs.Result.{result_err, result_ok};
ghost use Rattle.svc_host.specs.Answers.{answered};
ghost use Rattle.svc_record.specs.Opening.{BeginsAlive};
ghost use Rattle.svc_house.specs.Calls.{ExtendedWhileKept};
ghost use Rattle.svc_maker.specs.Making.{EndsPart, KeepsTrace, MakesPair, Making, SetsUp};
ghost use Rattle.svc_maker.specs.Parts.{AdmitsBatch};

use crate::holder::{FolderHolder, OwnFault};
use crate::kept_folder::{KeptFolder, LockedFolder, admit_each, is_batch, place_of, refusals_in};
use crate::part_system::PartSystem;
use crate::pipes::{PairOutlets, PairPipes, leave_pipes, pipes_of};
use crate::set_up::{MakeFault, PartSetup, part_fault, part_name, part_path, set_up};
use scan_table::{DirRow, PartId};
use std::alloc::{AllocError, Global};
use std::marker::Model;
use std::sync::Arc;
use svc_host::{Maker, PartFault, PartResources, Unmade};
use svc_house::{ControlSender, Notifier, OpenGate};
use svc_system::{LoggerInput, OutputEnds, ServiceOutput};
use tai_status::{Cause, Output};

/// The number of svscan itself at the door. No life has this number.
const OWN_NUMBER: u64 = u64::MAX;

/// Makes the resources of the parts of services, over the folders in a folder. Contracts see it as `Making`
/// (specs/Making).
#[derive(Drop)]
pub struct FolderMaker<S: PartSystem + Drop> {
    alloc: Global,
    system: S,
    folder: String,
    kept: Vec<KeptFolder<S::Folder>>,
    pipes: Vec<PairPipes>,
    // The folder in which svscan itself is served.
    own: Option<S::Folder>,
}

impl<S: PartSystem + Drop> Model for FolderMaker<S> {
    ghost use Rattle.std.specs.Prelude.{string_bytes, option_map};
    ghost use Rattle.svc_maker.specs.Making.{Making};

    ghost Value = { Making };

    ghost view = { λ maker. record {
      calls = S.calls maker.system;
      folder = string_bytes maker.folder;
      kept = maker.kept.items;
      pipes = maker.pipes.items;
      own = option_map S.Folder.path maker.own;
    } };
}

impl<S: PartSystem + Drop> FolderMaker<S> {
    ghost use Rattle.std.specs.Prelude.{◌≡◌, [], None};

    /// Returns a maker over a system, with no part.
    pub fn new(alloc: Global, system: S) -> FolderMaker<S>
        ensures { result
            ≡ record { calls = S.calls system; folder = []; kept = []; pipes = []; own = None } }
    {
        FolderMaker {
            alloc,
            system,
            folder: String::new(alloc),
            kept: Vec::new(alloc),
            pipes: Vec::new(alloc),
            own: None,
        }
    }

    // Admits the parts that wait to the door, if they are a batch.
    fn admit_batch(&mut self)
        ensures { AdmitsBatch self.old self.new }
    {
        if is_batch(&self.kept) {
            admit_each(&mut self.kept, &mut self.system);
        }
    }

    // Sets a part up, and keeps it.
    fn try_part(
        &mut self,
        name: &str,
        part: PartId,
        sender: ControlSender,
        notifier: Arc<Notifier, Global>,
    ) -> Result<PartResources<S::World, OpenGate, S::Reaper>, MakeFault>
        ensures sets_up { SetsUp name.now part (result_err result)
            (option_map (λ resources. resources.opening) (result_ok result)) self.old self.new }
        ensures fresh { IfOk result (λ resources. answered (S.World.calls resources.world) ≡ []) }
        ensures alive { IfOk result (λ resources. BeginsAlive resources.opening) }
    {
        let Ok(shown) = part_name(self.alloc, name, part.role) else {
            return Err(MakeFault::NoRoom);
        };
        let Ok(path) = part_path(self.alloc, self.folder.as_str(), shown.as_str()) else {
            return Err(MakeFault::NoRoom);
        };
        if self.kept.reserve(1).is_err() {
            return Err(MakeFault::NoRoom);
        }
        let PartSetup {
            folder,
            world,
            reaper,
            opening,
        } = set_up(
            &mut self.system,
            path,
            shown.as_str(),
            part,
            &self.pipes,
            notifier,
        )?;
        self.kept
            .push_reserved(KeptFolder::new(part, folder, sender));
        Ok(PartResources {
            world,
            gate: OpenGate,
            reaper,
            opening,
        })
    }
}

impl<S: PartSystem + Drop> Maker for FolderMaker<S>
where
    S::World: Send + 'static,
    S::Reaper: Send + 'static,
{
    ghost use Rattle.std.specs.Prelude.{◌≡◌, [], true, None, IfErr, IfOk};
    ghost use Rattle.svc_host.specs.Answers.{answered};
    ghost use Rattle.svc_record.specs.Opening.{BeginsAlive};
    ghost use Rattle.svc_maker.specs.Making.{EndsOutput, EndsPart, KeepsTrace, LooksAtInput, Loses};
    ghost use Rattle.svc_maker.specs.Making.{MakesPair, WatchesOutputs};
    ghost use Rattle.svc_maker.specs.Parts.{FailsToMake, MakesPart};
    ghost use Rattle.svc_maker.specs.Pipes.{pipes_of, pipes_without};

    type World = S::World;

    type Gate = OpenGate;

    type Reaper = S::Reaper;

    type Output = ServiceOutput;

    type Outlet = Output<LoggerInput>;

    type Outlets = PairOutlets;

    /// Keeps a part exactly if its folder was opened and locked, and its world was made; then the part waits to be
    /// admitted to the door. Parts that wait already are admitted first, if they are a batch. The part begins as what
    /// an earlier svscan left in that folder says. The children of a pair have its pipes, once `pair` has made them
    /// for the slot.
    fn part(
        &mut self,
        name: &str,
        part: PartId,
        sender: ControlSender,
        notifier: Arc<Notifier, Global>,
    ) -> Result<PartResources<S::World, OpenGate, S::Reaper>, PartFault>
        ensures made { IfOk result (λ resources. MakesPart name.now part resources.opening self.old self.new) }
        ensures unmade { IfErr result (λ fault. FailsToMake name.now part fault self.old self.new) }
        ensures fresh { IfOk result (λ resources. answered (S.World.calls resources.world) ≡ []) }
        ensures alive { IfOk result (λ resources. BeginsAlive resources.opening) }
    {
        self.admit_batch();
        match self.try_part(name, part, sender, notifier) {
            Ok(resources) => Ok(resources),
            Err(failure) => Err(part_fault(failure)),
        }
    }

    /// Makes the output of a pair's service and the pipe of its logger. Once both are made, earlier ones of the slot
    /// are dropped.
    fn pair(&mut self, name: &str, slot: u64) -> Result<(ServiceOutput, PairOutlets), PartFault>
        ensures { MakesPair name.now slot result self.old self.new }
    {
        if self.pipes.reserve(1).is_err() {
            return Err(PartFault::Refused(Cause::NoMemory));
        }
        let Ok(path) = part_path(self.alloc, self.folder.as_str(), name) else {
            return Err(PartFault::Refused(Cause::NoMemory));
        };
        let OutputEnds {
            read: from_service,
            write: output,
            flow,
        } = match self.system.output(path.as_str()) {
            Ok(ends) => ends,
            Err(fault) => return Err(part_fault(MakeFault::Unopened(fault))),
        };
        let (input, to_logger) = match self.system.pipe(&flow) {
            Ok(ends) => ends,
            Err(cause) => return Err(PartFault::Refused(cause)),
        };
        let pipes = &mut self.pipes;
        leave_pipes(pipes, slot);
        pipes.push_reserved(PairPipes {
            slot,
            output,
            input,
            flow,
        });
        let outlet = Some(to_logger);
        Ok((from_service, PairOutlets { outlet }))
    }

    fn keep_trace(&mut self, part: PartId, text: &[u8]) -> bool
        ensures kept { KeepsTrace part text.now result self.old self.new }
    {
        match place_of(&self.kept, part) {
            Some(place) => {
                let kept = &self.kept[place];
                self.system.keep_trace(&kept.folder, text)
            }
            None => false,
        }
    }

    fn ended(&mut self, part: PartId)
        ensures ended { EndsPart part self.old self.new }
    {
        if let Some(place) = place_of(&self.kept, part) {
            let kept = self.kept.remove(place);
            self.system.dismiss(part.life, &kept.folder);
        }
    }

    fn forget(&mut self, slot: u64)
        ensures { self.new ≡ record self.old { pipes = pipes_without slot self.old.pipes } }
    {
        leave_pipes(&mut self.pipes, slot);
    }

    fn watch_outputs(&mut self)
        ensures { WatchesOutputs self.old self.new }
    {
        self.system.watch_outputs();
    }

    fn end_output(&mut self, slot: u64, at_once: bool)
        ensures { EndsOutput slot at_once self.old self.new }
    {
        if let Some(pair) = pipes_of(&self.pipes, slot) {
            self.system.end_output(&pair.flow, at_once);
        }
    }

    fn is_read(&mut self, slot: u64) -> bool
        ensures { LooksAtInput slot result self.old self.new }
    {
        match pipes_of(&self.pipes, slot) {
            Some(pair) => self.system.is_read(&pair.input),
            None => true,
        }
    }

    fn lost(&mut self, slot: u64, has_logger: bool) -> u64
        ensures { Loses slot has_logger result self.old self.new }
    {
        let Some(pair) = pipes_of(&self.pipes, slot) else {
            return 0;
        };
        if has_logger {
            return self.system.between(&pair.flow);
        }
        let unread = self.system.drain(&pair.input);
        self.system.between(&pair.flow).saturating_add(unread)
    }
}

impl<S: PartSystem + Drop> FolderHolder for FolderMaker<S>
where
    S::World: Send + 'static,
    S::Reaper: Send + 'static,
{
    ghost use Rattle.std.specs.Prelude.{◌≡◌, [], OnOk, OnErr, string_bytes};
    ghost use Rattle.std.specs.Result.{result_err};
    ghost use mathlib.Core.List.{IsPrefix};
    ghost use Rattle.svc_maker.specs.Admission.{AdmitsAll, any_waits, refusals};
    ghost use Rattle.svc_maker.specs.Making.{AllowsDescriptors, LeavesOwn, Prepares, ServesOwn};

    /// Looks for the folders of services in this folder from now on. Out of memory, it looks for them in the folder
    /// before.
    fn set_folder(&mut self, folder: &str) -> Result<(), AllocError>
        ensures ok { OnOk result (self.new ≡ record self.old { folder = folder.now }) }
        ensures err { OnErr result (self.new ≡ self.old) }
    {
        self.folder = String::from_str(self.alloc, folder)?;
        Ok(())
    }

    /// Sets the number of descriptors that this process may have from now on.
    fn set_allowed(&mut self, descriptors: u64)
        ensures { AllowsDescriptors descriptors self.old self.new }
    {
        self.system.set_allowed(descriptors);
    }

    /// Makes, all at once, what the outputs of the services in these rows of the scanned folder lack, as far as it can.
    fn prepare(&mut self, rows: &[DirRow])
        ensures { Prepares rows.now self.old self.new }
    {
        self.system.prepare(self.folder.as_str(), rows);
    }

    /// Tries once to admit each waiting part, in the order in which they were made. One that is refused is dismissed,
    /// with its sockets, and still waits.
    fn admit_all(&mut self)
        ensures { AdmitsAll self.old self.new }
    {
        admit_each(&mut self.kept, &mut self.system);
    }

    fn any_waits(&mut self) -> bool
        ensures same { self.new ≡ self.old }
        ensures waits { result ≡ any_waits self.old.kept }
    {
        self.kept.iter().any(|kept| kept.waits())
    }

    fn refusals(&mut self) -> Vec<Unmade>
        ensures same { self.new ≡ self.old }
        ensures refusals { IsPrefix result.items (refusals self.old.kept) }
    {
        refusals_in(self.alloc, &self.kept)
    }

    /// Serves svscan itself exactly if its folder was opened and locked and the door admitted it. Its record is written
    /// in between.
    fn serve_own(
        &mut self,
        path: String,
        bytes: &[u8; 20],
        sender: ControlSender,
    ) -> Result<(), OwnFault>
        ensures { ServesOwn (string_bytes path) bytes.now (result_err result) self.old self.new }
    {
        let folder = match self.system.open_own(path) {
            Ok(folder) => folder,
            Err(fault) => return Err(OwnFault::Unopened(fault)),
        };
        self.system.record(&folder, bytes);
        if let Err(refused) = self.system.admit(OWN_NUMBER, &folder, sender) {
            self.system.dismiss(OWN_NUMBER, &folder);
            return Err(OwnFault::NotAdmitted(refused.cause));
        }
        self.own = Some(folder);
        Ok(())
    }

    /// Dismisses svscan itself, with its sockets, and writes its record.
    fn leave_own(&mut self, bytes: &[u8; 20])
        ensures { LeavesOwn bytes.now self.old self.new }
    {
        if let Some(folder) = self.own.take() {
            self.system.dismiss(OWN_NUMBER, &folder);
            self.system.record(&folder, bytes);
        }
    }
}
