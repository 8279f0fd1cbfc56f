//! A look at a service.
ghost use Rattle.std.specs.Prelude.{◌≡◌, ◌++◌, string_bytes, IfOk};
ghost use Rattle.svc_client.specs.Sight.{sight};
ghost use Rattle.cmd_svc.specs.Svstat.{Finds, fault_name, look_line, unreached_note};

use crate::course::{Course, ask_course};
use crate::line::stat_line;
use std::alloc::{AllocError, Allocator};
use svc_client::{Services, Unreached};
use tai_status::{Label, Loaded, RecordFault, TimeSource, decode_front};

/// What a look at a service found.
#[derive(Clone, Copy, Debug, PartialEq, Eq)]
pub enum ServiceLook {
    /// It can't be reached, so that nothing is known about it.
    Unreached(Unreached),
    /// Its status can't be read.
    Unread,
    /// Its status is not a record.
    Bad(RecordFault),
    /// Its status; whether it is normally up; when it was looked at; and what it does that its status does not say.
    Standing {
        loaded: Loaded,
        normally_up: bool,
        now: Label,
        course: Course,
    },
}

/// Looks at the service in a folder: whether it is supervised, then its status, then its file `down`, what it
/// does that its status does not say, and the clock. The first of these that fails ends the look.
pub fn look_at<S: Services, C: TimeSource>(
    services: &mut S,
    clock: &mut C,
    folder: &str,
) -> ServiceLook
    ensures { Finds folder.now result (sight (S.calls services.old) (C.readings clock.old))
        (sight (S.calls services.new) (C.readings clock.new)) }
{
    if let Err(why) = services.reach(folder) {
        return ServiceLook::Unreached(why);
    }
    let Ok(front) = services.read_status(folder) else {
        return ServiceLook::Unread;
    };
    match decode_front(front.as_slice()) {
        Ok(loaded) => ServiceLook::Standing {
            loaded,
            normally_up: !services.has_down(folder),
            course: ask_course(services, folder, &loaded),
            now: clock.now(),
        },
        Err(fault) => ServiceLook::Bad(fault),
    }
}

/// Returns what is said about a service that was not reached, after its folder.
fn unreached_note(why: Unreached) -> &'static str
    ensures { result.now ≡ unreached_note why }
{
    match why {
        Unreached::NotRunning => ": supervise not running",
        Unreached::Denied => ": unable to open supervise/ok: Permission denied",
        Unreached::Unanswered => ": unable to open supervise/ok: no answer",
    }
}

/// Returns the name of what is wrong with a status, as `svstat` reports it.
pub fn fault_name(fault: RecordFault) -> &'static str
    ensures { result.now ≡ fault_name fault }
{
    match fault {
        RecordFault::Length => "Length",
        RecordFault::BadLabel => "BadLabel",
        RecordFault::PausedFlag => "PausedFlag",
        RecordFault::PausedNoProcess => "PausedNoProcess",
        RecordFault::WantByte => "WantByte",
        RecordFault::ExitingFlag => "ExitingFlag",
        RecordFault::PhaseNumber => "PhaseNumber",
        RecordFault::NoSuchState => "NoSuchState",
    }
}

/// Returns a folder's name followed by a note.
fn noted<A: Allocator>(
    alloc: A,
    folder: &str,
    note: &str,
    more: &str,
) -> Result<String<A>, AllocError>
    ensures { IfOk result (λ line. string_bytes line ≡ folder.now ++ note.now ++ more.now) }
{
    let mut line = String::from_str(alloc, folder)?;
    line.push_str(note)?;
    line.push_str(more)?;
    Ok(line)
}

/// Returns the line about a look at the service in a folder, without a newline.
pub(crate) fn look_line<A: Allocator>(
    alloc: A,
    folder: &str,
    look: &ServiceLook,
) -> Result<String<A>, AllocError>
    ensures { IfOk result (λ line. string_bytes line ≡ look_line folder.now look.now) }
{
    match look {
        ServiceLook::Unreached(why) => noted(alloc, folder, unreached_note(*why), ""),
        ServiceLook::Unread => noted(alloc, folder, ": unable to read status", ""),
        ServiceLook::Bad(fault) => noted(
            alloc,
            folder,
            ": bad status record: ",
            fault_name(*fault),
        ),
        ServiceLook::Standing {
            loaded,
            normally_up,
            now,
            course,
        } => stat_line(alloc, folder, loaded, *normally_up, now, course),
    }
}
