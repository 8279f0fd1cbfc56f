//! What is reported about services whose folders don't exist.
ghost use Rattle.cmd_svc.specs.Missing.{TellsEach, TellsMissing, telling};
ghost use Rattle.tai_status.specs.Words.{texts};

use cmd_base::{DONE, cause_note, report_parts};
use std::io::Write;
use svc_client::Services;
use tai_status::Output;

/// Reports why there is no folder at a path, if there is none. The name of the command includes its `: `.
fn tell_one<S: Services, E: Write>(
    services: &mut S,
    command: &[u8],
    folder: &str,
    faults: &mut Output<E>,
)
    ensures { TellsMissing command.now folder.now (telling (S.calls services.old) faults.old)
        (telling (S.calls services.new) faults.new) }
{
    if let Some(cause) = services.folder_fault(folder) {
        let note = cause_note(cause);
        report_parts(faults, command, folder.as_bytes(), note.as_bytes(), DONE);
    }
}

/// Reports for each service whose folder does not exist, in order, why: `COMMAND: DIR: CAUSE`. The name of the command
/// includes its `: `.
pub fn tell_missing<S: Services, E: Write>(
    services: &mut S,
    command: &[u8],
    folders: &[&str],
    faults: &mut Output<E>,
)
    ensures { TellsEach command.now (texts folders.now) (telling (S.calls services.old) faults.old)
        (telling (S.calls services.new) faults.new) }
{
    for folder in folders {
        tell_one(services, command, folder, faults);
    }
}
