//! How a trace has grown since its text was last kept.
ghost use Rattle.std.specs.Prelude.{◌≡◌};
ghost use Rattle.sup_trace.specs.Text.{trace_text};
ghost use Rattle.svc_host.specs.Growth.{IsText};

use std::alloc::{AllocError, Global};
use sup_trace::TraceText;

/// How a trace has grown since its text was last kept.
#[derive(Drop)]
pub(crate) enum Growth {
    /// It counts the same number of events.
    None,
    /// It now counts this many events, and this is its text.
    By { count: u64, text: Vec<u8> },
    /// There is no memory for its text.
    Refused,
}

/// Returns the text of a trace that counts this many events.
pub(crate) fn text_of(trace: &TraceText, alloc: Global, count: u64) -> Growth
    ensures { IsText trace.now count result }
{
    match trace.write_text(alloc) {
        Ok(text) => Growth::By { count, text },
        Err(AllocError) => Growth::Refused,
    }
}
