//! What is reported about services.
ghost use Rattle.std.specs.Prelude.{◌≡◌};
ghost use Rattle.svc_client.specs.Turns.{InTurn};
ghost use Rattle.tai_status.specs.Counted.{Reports};
ghost use Rattle.cmd_wait.specs.Finding.{entry_folders};
ghost use Rattle.cmd_wait.specs.Ends.{bad_note, fault_note, fault_status, over_note, report_of, ReportsOver};

use crate::finding::{AwaitedService, WaitFault, WaitState};
use crate::rounds::Failure;
use cmd_base::{DONE, REFUSED, TROUBLE, report_parts};
use std::io::Write;
use tai_status::{Output, RecordFault};

/// The exit status for a service that is not supervised.
const NOT_SUPERVISED: u8 = 102;

/// Returns why a status is not a record, as it is reported after a service's folder.
fn bad_note(fault: RecordFault) -> &'static [u8]
    ensures { result.now ≡ bad_note fault }
{
    match fault {
        RecordFault::Length => b": bad status record: Length\n",
        RecordFault::BadLabel => b": bad status record: BadLabel\n",
        RecordFault::PausedFlag => b": bad status record: PausedFlag\n",
        RecordFault::PausedNoProcess => b": bad status record: PausedNoProcess\n",
        RecordFault::WantByte => b": bad status record: WantByte\n",
        RecordFault::ExitingFlag => b": bad status record: ExitingFlag\n",
        RecordFault::PhaseNumber => b": bad status record: PhaseNumber\n",
        RecordFault::NoSuchState => b": bad status record: NoSuchState\n",
    }
}

/// Returns why a service can't be waited for, as it is reported after its folder.
fn fault_note(fault: WaitFault) -> &'static [u8]
    ensures { result.now ≡ fault_note fault }
{
    match fault {
        WaitFault::NotSupervised => b": supervise not running\n",
        WaitFault::Denied => b": unable to open supervise/ok: Permission denied\n",
        WaitFault::Unread => b": unable to read status\n",
        WaitFault::Bad(fault) => bad_note(fault),
        WaitFault::Unanswered => b": unable to open supervise/ok: no answer\n",
        WaitFault::NotWantedUp => b": not wanted up\n",
    }
}

/// Returns the exit status for a service that can't be waited for.
fn fault_status(fault: WaitFault) -> u8
    ensures { result ≡ fault_status fault }
{
    match fault {
        WaitFault::NotSupervised => NOT_SUPERVISED,
        WaitFault::NotWantedUp => REFUSED,
        WaitFault::Denied | WaitFault::Unread | WaitFault::Bad(_) | WaitFault::Unanswered =>
            TROUBLE,
    }
}

/// Reports that a service can't be waited for, and returns the exit status for that. The name of the command includes
/// its `: `.
pub(crate) fn report_failure<E: Write>(
    command: &[u8],
    failure: &Failure<'_>,
    faults: &mut Output<E>,
) -> u8
    ensures status { result ≡ fault_status failure.now.fault }
    ensures reported { Reports faults.old faults.new
        (report_of command.now failure.now.folder.now (fault_note failure.now.fault)) }
{
    report_parts(
        faults,
        command,
        failure.folder.as_bytes(),
        fault_note(failure.fault),
        fault_status(failure.fault),
    )
}

/// Returns that the time is over, as it is reported after a service's folder.
fn over_note(state: WaitState) -> &'static [u8]
    ensures { result.now ≡ over_note state }
{
    match state {
        WaitState::Up => b": not up in time\n",
        WaitState::Ready => b": not ready in time\n",
        WaitState::Down => b": not down in time\n",
        WaitState::Unsupervised => b": still supervised\n",
        WaitState::Another => b": not restarted in time\n",
    }
}

/// Reports that the time is over, one line for each of these services. The name of the command includes its `: `.
pub(crate) fn report_over<E: Write>(
    command: &[u8],
    state: WaitState,
    left: &[AwaitedService<'_>],
    faults: &mut Output<E>,
)
    ensures { InTurn (ReportsOver command.now state) (entry_folders left.now) faults.old faults.new }
{
    for entry in left {
        let folder = entry.folder.as_bytes();
        report_parts(faults, command, folder, over_note(state), DONE);
    }
}
