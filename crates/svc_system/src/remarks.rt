//! The names of a service's papers, and what is said about the service.
ghost use Rattle.std.specs.Prelude.{◌≡◌};
ghost use Rattle.svc_system.specs.Commands.{paper_name, remark_text};

use arrayvec::ArrayString;
use cmd_base::push_number;
use svc_world::{Paper, Remark};
use tai_status::Cause;

/// Returns the name of a paper's file.
pub(crate) fn paper_name(paper: Paper) -> &'static str
    ensures { result.now ≡ paper_name paper }
{
    match paper {
        Paper::Place => "place",
        Paper::Process => "process",
        Paper::Status => "status",
        Paper::Exit => "exit",
        Paper::Counts => "counts",
        Paper::Ready => "ready",
        Paper::Backoff => "backoff",
    }
}

/// The most bytes in a remark about a service.
const REMARK_BYTES: usize = 96;

/// Returns what is said about a service. For a paper that can't be written, this includes the cause.
pub(crate) fn remark_text(remark: Remark, cause: Cause) -> ArrayString<REMARK_BYTES>
    ensures { result.bytes ≡ remark_text remark cause }
{
    let mut text = ArrayString::new();
    match remark {
        Remark::StillRuns(0) => text.push_str("unable to look for its process"),
        Remark::StillRuns(pid) => {
            text.push_str("process ");
            push_number(&mut text, u64::from(pid));
            text.push_str(" still runs");
        }
        Remark::Unwritten(paper) => {
            text.push_str("unable to write ");
            text.push_str(paper_name(paper));
            text.push_str(": ");
            text.push_str(cause.words());
        }
        Remark::AllWritten => text.push_str("all records are written again"),
    }
    text
}
