//! A maker of parts over the folders in a folder.
use scan_table::DirRow;
use std::alloc::AllocError;
use svc_host::{Maker, Unmade};
use svc_house::ControlSender;
use svc_system::FolderFault;
use tai_status::Cause;

/// Why svscan itself is not served.
#[derive(Clone, Copy, Debug, PartialEq, Eq)]
pub enum OwnFault {
    /// Its folder was not opened.
    Unopened(FolderFault),
    /// It was not admitted to the door.
    NotAdmitted(Cause),
}

/// A maker of parts over the folders in a folder, each with its lock. Contracts see its calls among those of a maker.
pub trait FolderHolder: Maker {
    ghost use Rattle.std.specs.Prelude.{string_bytes};
    ghost use Rattle.std.specs.Result.{is_ok};
    ghost use Rattle.svc_house.specs.Calls.{MadeWhileKept};
    ghost use Rattle.svc_host.specs.Calls.{AdmittedAll, Allowed, AskedRefusals, AskedWaits, LeftOwn, Prepared};
    ghost use Rattle.svc_host.specs.Calls.{ServedOwn, SetFolder};

    /// Looks for the folders of services in this folder from now on. Out of memory, it looks for them in the folder
    /// before.
    fn set_folder(&mut self, folder: &str) -> Result<(), AllocError>
        ensures calls { MadeWhileKept Self.calls (SetFolder folder.now (is_ok result)) self.old self.new };

    /// Sets the number of descriptors that this process may have from now on.
    fn set_allowed(&mut self, descriptors: u64)
        ensures calls { MadeWhileKept Self.calls (Allowed descriptors) self.old self.new };

    /// Makes, all at once, what the outputs of the services in these rows lack, as far as it can.
    fn prepare(&mut self, rows: &[DirRow])
        ensures calls { MadeWhileKept Self.calls (Prepared rows.now) self.old self.new };

    /// Admits the waiting parts to the door, as far as it can: from then on they get control bytes.
    fn admit_all(&mut self)
        ensures calls { MadeWhileKept Self.calls AdmittedAll self.old self.new };

    /// Returns whether a part waits to be admitted.
    fn any_waits(&mut self) -> bool
        ensures calls { MadeWhileKept Self.calls (AskedWaits result) self.old self.new };

    /// Returns the parts that could not be admitted, and why: as many as there is memory for.
    fn refusals(&mut self) -> Vec<Unmade>
        ensures calls { MadeWhileKept Self.calls AskedRefusals self.old self.new };

    /// Serves svscan itself in the folder at a path, with this status record. Its control bytes come through `sender`.
    /// A fault says why it is not served.
    fn serve_own(
        &mut self,
        path: String,
        bytes: &[u8; 20],
        sender: ControlSender,
    ) -> Result<(), OwnFault>
        ensures calls { MadeWhileKept Self.calls (ServedOwn (string_bytes path) (is_ok result)) self.old self.new };

    /// Stops serving svscan itself, and writes this status record for it.
    fn leave_own(&mut self, bytes: &[u8; 20])
        ensures calls { MadeWhileKept Self.calls LeftOwn self.old self.new };
}
