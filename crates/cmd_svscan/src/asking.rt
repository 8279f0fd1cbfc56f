//! What is asked of the maker of svscan's host, call by call.
ghost use Rattle.std.specs.Prelude.{[], ◌∷◌, string_bytes};
ghost use Rattle.std.specs.Result.{is_ok};
ghost use Rattle.svc_host.specs.Calls.{AdmittedAll, Allowed, AskedRefusals, AskedWaits, LeftOwn, Prepared, ServedOwn};
ghost use Rattle.svc_host.specs.Calls.{SetFolder};
ghost use Rattle.cmd_svscan.specs.Asking.{IsAsked};

use scan_table::DirRow;
use std::alloc::AllocError;
use svc_host::{Host, Runtime, Unmade};
use svc_house::ControlSender;
use svc_maker::{FolderHolder, OwnFault};

/// Looks for the folders of services in this folder from now on. A fault means that there is no memory for that.
pub(crate) fn set_folder<M, R>(host: &mut Host<M, R>, folder: &str) -> Result<(), AllocError>
where
    M: FolderHolder + Drop,
    R: Runtime,
    ensures { IsAsked (SetFolder folder.now (is_ok result) ∷ []) host.old host.new }
{
    host.ask_maker(|maker| maker.set_folder(folder))
}

/// Allows this many descriptors from now on.
pub(crate) fn allow<M, R>(host: &mut Host<M, R>, descriptors: u64)
where
    M: FolderHolder + Drop,
    R: Runtime,
    ensures { IsAsked (Allowed descriptors ∷ []) host.old host.new }
{
    host.ask_maker(|maker| maker.set_allowed(descriptors));
}

/// Makes what the outputs of these rows lack.
pub(crate) fn prepare_outputs<M, R>(host: &mut Host<M, R>, rows: &[DirRow])
where
    M: FolderHolder + Drop,
    R: Runtime,
    ensures { IsAsked (Prepared rows.now ∷ []) host.old host.new }
{
    host.ask_maker(|maker| maker.prepare(rows));
}

/// Admits the parts that wait for it to the door.
pub(crate) fn admit_all<M, R>(host: &mut Host<M, R>)
where
    M: FolderHolder + Drop,
    R: Runtime,
    ensures { IsAsked (AdmittedAll ∷ []) host.old host.new }
{
    host.ask_maker(|maker| maker.admit_all());
}

/// Returns the parts that could not be admitted, and why.
pub(crate) fn refusals<M, R>(host: &mut Host<M, R>) -> Vec<Unmade>
where
    M: FolderHolder + Drop,
    R: Runtime,
    ensures { IsAsked (AskedRefusals ∷ []) host.old host.new }
{
    host.ask_maker(|maker| maker.refusals())
}

/// Returns whether a part waits to be admitted.
pub(crate) fn any_waits<M, R>(host: &mut Host<M, R>) -> bool
where
    M: FolderHolder + Drop,
    R: Runtime,
    ensures { IsAsked (AskedWaits result ∷ []) host.old host.new }
{
    host.ask_maker(|maker| maker.any_waits())
}

/// Serves svscan itself in the folder at a path, with this status record. A fault says why it is not served.
pub(crate) fn serve_own<M, R>(
    host: &mut Host<M, R>,
    path: String,
    record: &[u8; 20],
    sender: ControlSender,
) -> Result<(), OwnFault>
where
    M: FolderHolder + Drop,
    R: Runtime,
    ensures { IsAsked (ServedOwn (string_bytes path) (is_ok result) ∷ []) host.old host.new }
{
    host.ask_maker(|maker| maker.serve_own(path, record, sender))
}

/// Stops serving svscan itself, and writes this status record for it.
pub(crate) fn leave_own<M, R>(host: &mut Host<M, R>, record: &[u8; 20])
where
    M: FolderHolder + Drop,
    R: Runtime,
    ensures { IsAsked (LeftOwn ∷ []) host.old host.new }
{
    host.ask_maker(|maker| maker.leave_own(record));
}
