//! What became of the last process of a service, by what the kernel and the folders report about it.
ghost use Rattle.std.specs.Prelude.{◌<◌, ◌≡◌, ℕ, IfSome, List, None, Option, Some, option_copied};
ghost use Rattle.std.specs.Result.{result_ok};
ghost use Rattle.svc_record.specs.Leftover.{HasNumber};
ghost use Rattle.svc_record.specs.Process.{IsLiving};
ghost use Rattle.svc_record.specs.declared.process.Fate.TheVariants.{Unknown};
ghost use Rattle.svc_system.specs.Fates.{IsFoundIn, IsLastFate, IsOfBoot, IsOwnFate, found_over, is_foreign};
ghost use Rattle.svc_system.specs.Fates.{known_tick, own_fate};

use std::io;
use svc_record::{BootId, Fate, Leftover, ProcessId, find};

/// Reports about a recorded process. Contracts see what is reported, if that is known.
pub(crate) trait ProcessReports {
    ghost use Rattle.std.specs.Prelude.{◌≡◌, Option, None, IfSome};
    ghost use Rattle.std.specs.Result.{result_ok};
    ghost use Rattle.svc_record.specs.declared.process.ProcessId.{ProcessId};
    ghost use Rattle.svc_system.specs.Fates.{Report};

    // what is reported about a process
    ghost report: { Self → ProcessId → Option Report } = { λ _ _. None };

    /// Returns the tick at which the living process with its number began, if there is one. A fault says why the kernel
    /// can't be asked.
    fn tick(&self, process: &ProcessId) -> io::Result<Option<u64>>
        ensures { IfSome (report self.now process.now) (λ report. result_ok result ≡ report.tick) };

    /// Returns whether it runs in the folder of the service.
    fn runs_here(&self, process: &ProcessId) -> bool
        ensures { IfSome (report self.now process.now) (λ report. result ≡ report.runs_here) };

    /// Returns whether this svscan has started it.
    fn is_child(&self, process: &ProcessId) -> bool
        ensures { IfSome (report self.now process.now) (λ report. result ≡ report.is_child) };

    /// Returns whether the folder in which it runs names it as the process of its service.
    fn is_named_there(&self, process: &ProcessId) -> bool
        ensures { IfSome (report self.now process.now) (λ report. result ≡ report.is_named_there) };
}

/// Returns the tick at which the living process with a recorded process's number began. If the kernel can't be asked, the
/// recorded process counts as alive, unless a later start was intended.
fn known_tick(
    tick: io::Result<Option<u64>>,
    process: &ProcessId,
    over: &Option<Leftover>,
) -> Option<u64>
    ensures { result ≡ known_tick (result_ok tick) process.now over.now }
{
    match (tick, over) {
        (Ok(tick), _) => tick,
        (Err(_), None) => Some(process.tick),
        (Err(_), Some(_)) => None,
    }
}

/// Returns whether a process that lives and is recorded here belongs to somebody else. It does not run in this folder.
/// Either this svscan has started it, for another service, or the folder in which it runs names it too: the record
/// here was copied from there.
fn is_foreign<P: ProcessReports>(reports: &P, process: &ProcessId) -> bool
    ensures { IfSome (P.report reports.now process.now) (λ report. result ≡ is_foreign report) }
{
    !reports.runs_here(process) && (reports.is_child(process) || reports.is_named_there(process))
}

/// Returns what became of the service's own process. If the recorded one lives and is that of somebody else, nothing is
/// known of the service's own.
fn own_fate<P: ProcessReports>(reports: &P, process: &ProcessId, found: Fate) -> Fate
    ensures own { IfSome (P.report reports.now process.now) (λ report. result ≡ own_fate found (is_foreign report)) }
    ensures living { IsLiving found → IsLiving result }
    ensures of_boot { (boot : Option (List ℕ)) → IsOfBoot boot found → IsOfBoot boot result }
{
    match found {
        Fate::Lives(_) if is_foreign(reports, process) => Fate::Unknown,
        found => found,
    }
}

/// Returns what became of the recorded process. `boot` is this boot, if it is known. `tick` is when the process that
/// has its number now began, if there is one.
fn find_in(recorded: Option<ProcessId>, boot: Option<&BootId>, tick: Option<u64>) -> Fate
    ensures { IsFoundIn recorded (option_copied boot.entry) tick result }
{
    match boot {
        Some(boot) => find(recorded, boot, tick),
        None => Fate::Unknown,
    }
}

/// Returns what became of a `finish` with this process, if the living process with its number began at this tick.
pub(crate) fn finish_fate(
    process: ProcessId,
    boot: Option<&BootId>,
    tick: io::Result<Option<u64>>,
) -> Fate
    requires { 0 < process.pid }
    ensures found { IsFoundIn (Some process) (option_copied boot.entry) (known_tick (result_ok tick) process None) result }
    ensures living { IsLiving result }
{
    let tick = known_tick(tick, &process, &None);
    find_in(Some(process), boot, tick)
}

/// Returns what became of the last process. If it does not live, a start was intended after it, and this boot is known,
/// what is left over from that start decides.
fn found_over(found: Fate, over: Option<Leftover>, boot: Option<&BootId>) -> Fate
    // A process that was found or is left over has a number of at least 1. If the fate is known, this boot is known,
    // and a process that lives began in it.
    requires living { IsLiving found }
    requires of_boot { IsOfBoot (option_copied boot) found }
    requires over { IfSome over HasNumber }

    // This is also true of the result.
    ensures living { IsLiving result }
    ensures of_boot { IsOfBoot (option_copied boot.entry) result }

    // What is left over decides nothing if the last process lives, or if this boot is not known.
    ensures found { result ≡ found_over found over (option_copied boot.entry) }
{
    match (found, over, boot) {
        (Fate::Lives(process), _, _) => Fate::Lives(process),
        (_, Some(Leftover::Process(pid, tick)), Some(boot)) => Fate::Lives(ProcessId {
            pid,
            tick,
            boot: *boot,
        }),
        (_, Some(_), Some(_)) => Fate::Gone,
        _ => found,
    }
}

/// Returns what became of the recorded process, by the reports about it.
#[tactic(auto, using(crate::proofs::Lefts::found_living, crate::proofs::Lefts::found_of_boot))]
fn recorded_fate<P: ProcessReports>(
    reports: &P,
    process: ProcessId,
    over: &Option<Leftover>,
    boot: Option<&BootId>,
) -> Fate
    requires { 0 < process.pid }
    ensures own { IfSome (P.report reports.now process) (λ report.
        IsOwnFate report process over.now (option_copied boot.entry) result) }
    ensures living { IsLiving result }
    ensures of_boot { IsOfBoot (option_copied boot.entry) result }
{
    let tick = known_tick(reports.tick(&process), &process, over);
    own_fate(reports, &process, find_in(Some(process), boot, tick))
}

/// Returns what became of the last process: the recorded one, if there is one, or what is left over from a start that
/// was intended after it.
pub(crate) fn last_fate<P: ProcessReports>(
    reports: &P,
    recorded: Option<ProcessId>,
    over: Option<Leftover>,
    boot: Option<&BootId>,
) -> Fate
    requires number { IfSome recorded (λ process. 0 < process.pid) }
    requires over { IfSome over HasNumber }
    ensures recorded { IfSome recorded (λ process. IfSome (P.report reports.now process) (λ report.
        IsLastFate report process over (option_copied boot.entry) result)) }
    ensures unrecorded { recorded ≡ None → result ≡ found_over Unknown over (option_copied boot.entry) }
    ensures living { IsLiving result }
    ensures of_boot { IsOfBoot (option_copied boot.entry) result }
{
    let found = match recorded {
        Some(process) => recorded_fate(reports, process, &over, boot),
        None => Fate::Unknown,
    };
    found_over(found, over, boot)
}
