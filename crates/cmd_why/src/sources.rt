//! What `why` learns in addition to what it asks of services.
use arrayvec::ArrayString;
use std::alloc::Allocator;
use std::io;
use svc_client::Traces;
use tai_status::Label;

/// A local time, as `2026-11-25 01:33:02`.
pub type LocalTime = ArrayString<32>;

/// Local times. Contracts see the text of a label's time, if the type says so.
pub trait LocalTimes {
    ghost use Rattle.std.specs.Prelude.{ℕ, List, Option, None};
    ghost use Rattle.cmd_base.specs.Known.{IsKnown};
    ghost use Rattle.tai_status.specs.Label.{Tai64n};

    // the local time of a label
    ghost text_at: { Self → Tai64n → Option (List ℕ) } = { λ _ _. None };

    /// Returns the local time of a label.
    fn local_time(&self, label: &Label) -> LocalTime
        ensures { IsKnown (text_at self.now label.now) result.bytes };
}

/// What `why` learns in addition to what it asks of services: traces, and local times.
pub trait Evidence {
    ghost use Rattle.std.specs.Prelude.{IfOk, IfErr};
    ghost use Rattle.cmd_base.specs.Known.{IsKnown, IsMissed};
    ghost use Rattle.cmd_why.specs.Texts.{Knowledge};

    // what is known about them
    ghost known: { Self → Knowledge };

    /// Returns all bytes of the trace of the service in a folder.
    fn read_trace<A: Allocator>(&self, alloc: A, folder: &str) -> io::Result<Vec<u8, A>>
        ensures held { IfOk result (λ bytes. IsKnown ((known self.now).traces folder.now) bytes.items) }
        ensures missing { IfErr result (λ fault. IsMissed fault ((known self.now).traces folder.now)) };

    /// Returns the local time of a label.
    fn local_time(&self, label: &Label) -> LocalTime
        ensures { IsKnown ((known self.now).times label.now) result.bytes };
}

/// The traces of services on a system, and the local times of a zone.
#[derive(Drop)]
pub struct ServiceEvidence<'a, F: Traces, T: LocalTimes> {
    pub traces: &'a F,
    pub times: &'a T,
}

impl<'a, F: Traces, T: LocalTimes> Evidence for ServiceEvidence<'a, F, T> {
    ghost use Rattle.cmd_why.specs.Texts.{knowledge};

    ghost known = { λ evidence. knowledge (F.trace_at evidence.traces.now) (T.text_at evidence.times.now) };

    fn read_trace<A: Allocator>(&self, alloc: A, folder: &str) -> io::Result<Vec<u8, A>> {
        self.traces.read_trace(alloc, folder)
    }

    fn local_time(&self, label: &Label) -> LocalTime {
        self.times.local_time(label)
    }
}
