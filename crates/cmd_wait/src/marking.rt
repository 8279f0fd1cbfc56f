//! The first look at services whose restart is waited for.
ghost use Rattle.std.specs.Prelude.{◌≡◌, OnOk, IfErr, IfOk};
ghost use Rattle.tai_status.specs.Words.{texts};
ghost use Rattle.cmd_wait.specs.Finding.{awaited, entry_folders, unmarked};
ghost use Rattle.cmd_wait.specs.Marking.{absent_mark, is_refused, mark_in, process_in, shown_mark, unsupervised_mark};
ghost use Rattle.cmd_wait.specs.Marking.{Glimpses, MarksEach, MarksNot};

use crate::finding::{AwaitedService, ProcessMark, WaitFault};
use crate::rounds::Failure;
use std::alloc::{AllocError, Allocator};
use svc_client::{Services, Unreached};
use tai_status::{Loaded, RecordFault, View, Want, decode_front};

/// What the first look at services is for.
#[derive(Clone, Copy, Debug, PartialEq, Eq)]
pub(crate) enum Purpose {
    /// To wait until they are restarted.
    Waits,
    /// To restart them: each must be wanted up.
    Restarts,
}

/// Returns the process that a record names, if there is one.
fn process_in(view: &View) -> Option<ProcessMark>
    ensures { result ≡ process_in view.now }
{
    if view.pid >= 1 {
        Some(ProcessMark {
            pid: view.pid,
            label: view.label,
        })
    } else {
        None
    }
}

/// Returns whether a service can't be restarted, since it is not wanted up.
fn is_refused(purpose: Purpose, view: &View) -> bool
    ensures { result ≡ is_refused purpose view.now }
{
    match (purpose, view.want) {
        (Purpose::Waits, _) | (Purpose::Restarts, Want::Up) => false,
        (Purpose::Restarts, Want::Down | Want::Once) => true,
    }
}

/// Returns the mark that a status gives, or why there can be none.
fn mark_in(purpose: Purpose, view: &View) -> Result<Option<ProcessMark>, WaitFault>
    ensures { result ≡ mark_in purpose view.now }
{
    if is_refused(purpose, view) {
        return Err(WaitFault::NotWantedUp);
    }
    Ok(process_in(view))
}

/// Returns the mark that what was read of a status gives, or why there can be none.
fn shown_mark(
    purpose: Purpose,
    read: &Result<Loaded, RecordFault>,
) -> Result<Option<ProcessMark>, WaitFault>
    ensures { result ≡ shown_mark purpose read.now }
{
    match read {
        Ok(loaded) => mark_in(purpose, &loaded.view()),
        Err(fault) => Err(WaitFault::Bad(*fault)),
    }
}

/// Returns the mark of a service that is not supervised, or that this is a fault.
fn unsupervised_mark(awaits_supervision: bool) -> Result<Option<ProcessMark>, WaitFault>
    ensures { result ≡ unsupervised_mark awaits_supervision }
{
    if awaits_supervision {
        Ok(None)
    } else {
        Err(WaitFault::NotSupervised)
    }
}

/// Returns the mark of a service that was not reached, or why there can be none.
fn absent_mark(awaits_supervision: bool, why: Unreached) -> Result<Option<ProcessMark>, WaitFault>
    ensures { result ≡ absent_mark awaits_supervision why }
{
    match why {
        Unreached::NotRunning => unsupervised_mark(awaits_supervision),
        Unreached::Denied => Err(WaitFault::Denied),
        Unreached::Unanswered => Err(WaitFault::Unanswered),
    }
}

/// Looks at the service in a folder for the first time: whether it is supervised, and then its status. Returns its
/// mark, or why there can be none.
fn first_look<S: Services>(
    services: &mut S,
    purpose: Purpose,
    awaits_supervision: bool,
    folder: &str,
) -> Result<Option<ProcessMark>, WaitFault>
    ensures { Glimpses purpose awaits_supervision folder.now result (S.calls services.old) (S.calls services.new) }
{
    if let Err(why) = services.reach(folder) {
        return absent_mark(awaits_supervision, why);
    }
    let Ok(front) = services.read_status(folder) else {
        return Err(WaitFault::Unread);
    };
    let read = decode_front(front.as_slice());
    shown_mark(purpose, &read)
}

/// Looks at each service for the first time, once, in order, and gives it its mark. The first one that can have none
/// ends that, and is the fault.
pub(crate) fn mark_each<'a, S: Services, A: Allocator>(
    services: &mut S,
    purpose: Purpose,
    awaits_supervision: bool,
    entries: &mut Vec<AwaitedService<'a>, A>,
) -> Result<(), Failure<'a>>
    ensures ok { OnOk result (MarksEach purpose awaits_supervision (entry_folders entries.old.items)
        (awaited entries.new.items) (S.calls services.old) (S.calls services.new)) }
    ensures err { IfErr result (λ failure.
        MarksNot purpose awaits_supervision (entry_folders entries.old.items) failure.folder.now failure.fault
        (S.calls services.old) (S.calls services.new)) }
{
    let mut at = 0;
    while at < entries.len() {
        let folder = entries[at].folder;
        match first_look(services, purpose, awaits_supervision, folder) {
            Ok(mark) => entries[at] = AwaitedService { folder, mark },
            Err(fault) => return Err(Failure { folder, fault }),
        }
        at += 1;
    }
    Ok(())
}

/// Returns entries for services, without marks. Returns `AllocError` only if the allocator refuses the memory for them.
pub(crate) fn entries_of<'a, A: Allocator>(
    alloc: A,
    folders: &[&'a str],
) -> Result<Vec<AwaitedService<'a>, A>, AllocError>
    ensures { IfOk result (λ entries. awaited entries.items ≡ unmarked (texts folders.now)) }
{
    let mut entries = Vec::new(alloc);
    for folder in folders {
        let entry = AwaitedService { folder, mark: None };
        if entries.push(entry).is_err() {
            return Err(AllocError);
        }
    }
    Ok(entries)
}
