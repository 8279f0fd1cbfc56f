//! The command `svstat --html`.
ghost use Rattle.tai_status.specs.Words.{texts};
ghost use Rattle.cmd_page.specs.PageEnds.{PageEnds};

use crate::draw::draw;
use cmd_base::DONE;
use cmd_svc::{SvstatFault, report_svstat, tell_missing};
use cmd_why::Evidence;
use std::alloc::Allocator;
use std::io::Write;
use svc_client::{Observer, Services};
use tai_status::{Output, TimeSource};

/// The command `svstat --html`: reads the clock, looks at the service in each folder that its words name, in order, and
/// then writes the page about what was found. Then it reports for each folder that does not exist why.
///
/// Returns the exit status: 0; 111 for a lack of memory, and then nothing was written; 111 for a fault of the writer.
pub fn run_page<S, K, A, W, E, C>(
    alloc: A,
    observer: &mut Observer<S, C>,
    sources: &K,
    words: &[&str],
    writer: &mut Output<W>,
    faults: &mut Output<E>,
) -> u8
where
    S: Services,
    K: Evidence,
    A: Allocator + Clone,
    W: Write,
    E: Write,
    C: TimeSource,
    ensures ends { PageEnds (K.known sources.now) (texts words.now) result
        observer.old observer.new writer.old writer.new faults.old faults.new }
{
    let Ok(page) = draw(&alloc, observer, sources, words) else {
        return report_svstat(SvstatFault::OutOfMemory, writer, faults);
    };
    match writer.write_all(&page) {
        Ok(()) => {
            tell_missing(&mut observer.services, b"svstat: ", words, faults);
            DONE
        }
        Err(_) => report_svstat(SvstatFault::Write, writer, faults),
    }
}
