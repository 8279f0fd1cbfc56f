//! The command `svstat --metrics`.
ghost use Rattle.tai_status.specs.Words.{texts};
ghost use Rattle.cmd_report.specs.MetricsEnds.{MetricsEnds};

use crate::find::find_all;
use crate::metrics::metrics_text;
use cmd_base::DONE;
use cmd_svc::{SvstatFault, report_svstat, tell_missing};
use std::alloc::Allocator;
use std::io::Write;
use svc_client::{Observer, Services};
use tai_status::{Output, TimeSource};

/// The command `svstat --metrics`: looks at the service in each folder that its words name, in order, and then writes
/// what was found as [`metrics_text`] does. Then it reports for each folder that does not exist why.
///
/// Returns the exit status: 0; 111 for a lack of memory, and then nothing was written; 111 for a fault of the writer.
pub fn run_metrics<S, A, W, E, C>(
    alloc: A,
    observer: &mut Observer<S, C>,
    words: &[&str],
    writer: &mut Output<W>,
    faults: &mut Output<E>,
) -> u8
where
    S: Services,
    A: Allocator + Clone,
    W: Write,
    E: Write,
    C: TimeSource,
    ensures ends { MetricsEnds (texts words.now) result
        observer.old observer.new writer.old writer.new faults.old faults.new }
{
    let Ok(own) = alloc.clone() else {
        return report_svstat(SvstatFault::OutOfMemory, writer, faults);
    };
    let Ok(founds) = find_all(own, observer, words) else {
        return report_svstat(SvstatFault::OutOfMemory, writer, faults);
    };
    let Ok(text) = metrics_text(alloc, &founds) else {
        return report_svstat(SvstatFault::OutOfMemory, writer, faults);
    };
    match writer.write_all(&text) {
        Ok(()) => {
            tell_missing(&mut observer.services, b"svstat: ", words, faults);
            DONE
        }
        Err(_) => report_svstat(SvstatFault::Write, writer, faults),
    }
}
