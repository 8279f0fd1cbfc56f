//! The law of host and suite. Each function here does nothing: its contract is the law.
ghost use Rattle.host_law.specs.Alike.{PartsPublishAlike, ScansAreAlike};
ghost use Rattle.host_law.specs.Whole.{IsOfSuite, RunsAreOfSuites};

use std::alloc::Allocator;
use svc_host::{Host, Maker, Runtime};

/// States that a scan of a host is a scan of each suite with the same table. Both return the same starts, restarts,
/// drops and refusals. Both come to the same table, except that parts which could not be made have ended. The host
/// keeps the parts that the suite keeps, and begins each of the others as the suite begins it.
pub fn scans_are_alike()
    ensures { ScansAreAlike }
{}

/// States that a part of a host publishes what it takes of its own events. Take a suite in which that part begins in
/// the same way. For these events, the suite returns the same asks and phases. It has the same trace of the part, which
/// replays to the same machine. Its table records the end of the part exactly if the part is gone.
pub fn parts_publish_alike<A: Allocator>()
    ensures { PartsPublishAlike A }
{}

/// States that a suite stands for the host, whatever was done with the host so far. There are turns of a new suite, and
/// the suite accepts each of them. After these turns, it has the host's table, and for each part of the host the trace
/// of that part's own events.
pub fn host_is_of_a_suite<A: Allocator, M: Maker + Drop, R: Runtime>(host: &Host<M, R>)
    ensures { IsOfSuite A host.now }
{
    host.has_run();
}

/// States that a whole run of a host is a run of each suite that stands for it.
pub fn runs_are_of_suites<A: Allocator>()
    ensures { RunsAreOfSuites A }
{}
