//! How a part is set up.
ghost use Rattle.std.specs.Prelude.{◌≡◌, ◌≢◌, ◌++◌, ◌∷◌, [], Some, string_bytes, IfOk};
ghost use Rattle.std.specs.Result.{result_err};
ghost use Rattle.svc_maker.specs.declared.set_up.MakeFault.{MakeFault};
ghost use Rattle.svc_host.specs.Answers.{answered};
ghost use Rattle.svc_record.specs.Opening.{BeginsAlive};
ghost use Rattle.svc_maker.specs.Making.{SetsUpAt, behind, part_fault, part_name};

use crate::kept_folder::LockedFolder;
use crate::part_system::PartSystem;
use crate::pipes::{PairPipes, input_of, output_of, pipes_of};
use scan_table::{PartId, Role};
use std::alloc::{AllocError, Global};
use std::sync::Arc;
use svc_host::PartFault;
use svc_house::Notifier;
use svc_record::Opening;
use svc_system::FolderFault;
use tai_status::Cause;

/// Why a part was not made.
#[derive(Clone, Copy, Debug, PartialEq, Eq)]
pub(crate) enum MakeFault {
    /// There was no memory. Nothing was asked of the system.
    NoRoom,
    /// Its folder was not opened.
    Unopened(FolderFault),
    /// Its world was not made.
    NoWorld(Cause),
}

/// Returns why a part was not made, in the form that its host gets.
pub(crate) fn part_fault(fault: MakeFault) -> PartFault
    ensures { result ≡ part_fault fault }
{
    match fault {
        MakeFault::NoRoom => PartFault::Refused(Cause::NoMemory),
        MakeFault::Unopened(FolderFault::Locked) => PartFault::Locked,
        MakeFault::Unopened(FolderFault::NotOpened(cause)) | MakeFault::NoWorld(cause) =>
            PartFault::Refused(cause),
    }
}

/// What a part that was set up has.
#[derive(Drop)]
pub(crate) struct PartSetup<S: PartSystem> {
    pub(crate) folder: S::Folder,
    pub(crate) world: S::World,
    pub(crate) reaper: S::Reaper,
    pub(crate) opening: Opening,
}

/// Returns what follows the name of a service in the path of a part.
pub(crate) fn behind(role: Role) -> &'static str
    ensures { result.now ≡ behind role }
{
    match role {
        Role::Main => "",
        Role::Log => "/log",
    }
}

/// Returns a part's name, as messages use it: for a logger, the service's name followed by `/log`.
pub fn part_name(alloc: Global, name: &str, role: Role) -> Result<String, AllocError>
    ensures { IfOk result (λ text. string_bytes text ≡ part_name name.now role) }
{
    let mut text = String::from_str(alloc, name)?;
    text.push_str(behind(role))?;
    Ok(text)
}

/// Returns the path of a part's folder.
pub(crate) fn part_path(alloc: Global, folder: &str, name: &str) -> Result<String, AllocError>
    ensures { IfOk result (λ text. string_bytes text ≡ folder.now ++ (47 ∷ name.now)) }
{
    let mut text = String::from_str(alloc, folder)?;
    text.push_str("/")?;
    text.push_str(name)?;
    Ok(text)
}

/// Sets a part up: opens its folder, finds what remains there after an earlier svscan, and makes its world.
pub(crate) fn set_up<S: PartSystem>(
    system: &mut S,
    path: String,
    name: &str,
    part: PartId,
    pipes: &[PairPipes],
    notifier: Arc<Notifier, Global>,
) -> Result<PartSetup<S>, MakeFault>
    ensures sets_up { SetsUpAt result (λ setup. setup.opening) (string_bytes path) name.now part pipes.now
        (S.calls system.old) (S.calls system.new) }
    ensures path { IfOk result (λ setup. S.Folder.path setup.folder ≡ string_bytes path) }
    ensures fresh { IfOk result (λ setup. answered (S.World.calls setup.world) ≡ []) }
    ensures alive { IfOk result (λ setup. BeginsAlive setup.opening) }
    ensures asked { result_err result ≢ Some MakeFault.NoRoom }
{
    let folder = match system.open(path) {
        Ok(folder) => folder,
        Err(fault) => return Err(MakeFault::Unopened(fault)),
    };
    let remains = system.remains(&folder);
    let pair = pipes_of(pipes, part.slot);
    let input = input_of(pair, part.role);
    let output = output_of(pair, part.role);
    let taken = &remains.taken;
    let (world, reaper) = match system.world(&folder, name, taken, input, output, notifier) {
        Ok(made) => made,
        Err(cause) => return Err(MakeFault::NoWorld(cause)),
    };
    Ok(PartSetup {
        folder,
        world,
        reaper,
        opening: remains.left.opening(),
    })
}
