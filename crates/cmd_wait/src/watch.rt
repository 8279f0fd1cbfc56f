//! The pause between two rounds.
ghost use Rattle.std.specs.Prelude.{◌≡◌};
ghost use Rattle.cmd_wait.specs.Finding.{entry_folders};
ghost use Rattle.cmd_wait.specs.Watching.{is_same, newer, LearnsNewest, PausesFor, Rests};

use crate::finding::AwaitedService;
use crate::pace::Pace;
use crate::rounds::is_over;
use svc_client::Services;

/// The number of rests in a second.
const MOST_RESTS: u32 = 22;

/// What is noted about the services that are left.
#[derive(Clone, Copy, Debug)]
pub struct Watch {
    /// When something last changed in one of their folders, in nanoseconds since 1970. None if that is not known for
    /// each folder.
    newest: Option<u64>,
    /// The number of rests that are still followed by a round, because something changed less than a second ago.
    lively: u32,
}

impl Watch {
    ghost use Rattle.cmd_wait.specs.Watching.{first_watch, is_due, next_watch};

    /// Returns a watch that has noted nothing yet.
    pub(crate) fn new() -> Watch
        ensures { result ≡ first_watch }
    {
        Watch {
            newest: None,
            lively: 0,
        }
    }

    /// Notes when something last changed. Returns whether a round is due: something changed since the last note, or it
    /// changed less than a second ago.
    fn is_due(&mut self, newest: Option<u64>) -> bool
        ensures due { result ≡ is_due self.old newest }
        ensures noted { self.new ≡ next_watch self.old newest }
    {
        if !is_same(self.newest, newest) {
            self.newest = newest;
            self.lively = MOST_RESTS;
            return true;
        }
        let due = self.lively > 0;
        self.lively = self.lively.saturating_sub(1);
        due
    }
}

/// Returns whether two times are known, and are the same.
fn is_same(one: Option<u64>, other: Option<u64>) -> bool
    ensures { result ≡ is_same one other }
{
    match (one, other) {
        (Some(one), Some(other)) => one == other,
        _ => false,
    }
}

/// Returns the newer of two times, if both are known.
fn newer(one: Option<u64>, other: Option<u64>) -> Option<u64>
    ensures { result ≡ newer one other }
{
    match (one, other) {
        (Some(one), Some(other)) => Some(one.max(other)),
        _ => None,
    }
}

/// Returns when something last changed in a folder of these services, if that is known for each.
fn newest_change<S: Services>(services: &mut S, entries: &[AwaitedService<'_>]) -> Option<u64>
    ensures { LearnsNewest (entry_folders entries.now) result (S.calls services.old) (S.calls services.new) }
{
    let mut newest = Some(0);
    for entry in entries {
        newest = newer(newest, services.changed_at(entry.folder));
    }
    newest
}

/// Rests once. Returns whether a round is due then: something changed, or the time is over.
fn rest_once<S: Services, P: Pace>(
    services: &mut S,
    pace: &mut P,
    watch: &mut Watch,
    limit: Option<u32>,
    begin: u64,
    left: &[AwaitedService<'_>],
) -> bool
    ensures { Rests limit begin left.now result watch.old watch.new
        (S.calls services.old) (S.calls services.new) (P.steps pace.old) (P.steps pace.new) }
{
    pace.rest();
    let newest = newest_change(services, left);
    let over = is_over(limit, begin, pace.now());
    watch.is_due(newest) || over
}

/// Rests until a round is due, for at most a second.
pub(crate) fn pause<S: Services, P: Pace>(
    services: &mut S,
    pace: &mut P,
    watch: &mut Watch,
    limit: Option<u32>,
    begin: u64,
    left: &[AwaitedService<'_>],
)
    ensures { PausesFor limit begin left.now watch.old watch.new
        (S.calls services.old) (S.calls services.new) (P.steps pace.old) (P.steps pace.new) }
{
    for _ in 0..MOST_RESTS {
        if rest_once(services, pace, watch, limit, begin, left) {
            return;
        }
    }
}
