//! One round over the services that are left.
ghost use Rattle.std.specs.Prelude.{◌≡◌, ◌↔◌, [], IsTrue, OnOk, IfErr};
ghost use Rattle.cmd_wait.specs.Finding.{awaited};
ghost use Rattle.cmd_wait.specs.Rounds.{FailsWith, LooksAt};
ghost use Rattle.cmd_wait.specs.Steps.{IsOver};

use crate::finding::{AwaitedService, Finding, Goal, WaitFault, look};
use std::alloc::Allocator;
use svc_client::Services;

/// A service that can't be waited for, and why.
#[derive(Clone, Copy, Debug)]
pub(crate) struct Failure<'a> {
    pub folder: &'a str,
    pub fault: WaitFault,
}

/// Looks at each service that is left, once, and keeps those that were not as they should be. The first one that can't
/// be waited for ends that, and is the fault.
pub(crate) fn look_at_each<'a, S: Services, A: Allocator>(
    services: &mut S,
    goal: Goal,
    left: &mut Vec<AwaitedService<'a>, A>,
) -> Result<(), Failure<'a>>
    ensures ok { OnOk result (LooksAt goal (awaited left.old.items) (awaited left.new.items) []
        (S.calls services.old) (S.calls services.new)) }
    ensures err { IfErr result (λ failure.
        FailsWith failure goal (awaited left.old.items) (S.calls services.old) (S.calls services.new)) }
{
    let mut at = 0;
    while at < left.len() {
        let entry = &left[at];
        let folder = entry.folder;
        match look(services, goal, entry) {
            Finding::Reached => {
                left.remove(at);
            }
            Finding::Waiting => at += 1,
            Finding::Failed(fault) => return Err(Failure { folder, fault }),
        }
    }
    Ok(())
}

/// Returns whether the time, if there is a limit, is over between two readings of the clock.
pub(crate) fn is_over(limit: Option<u32>, begin: u64, now: u64) -> bool
    ensures { IsTrue result ↔ IsOver limit begin now }
{
    match limit {
        None => false,
        Some(seconds) => 1000 * u64::from(seconds) <= now.saturating_sub(begin),
    }
}
