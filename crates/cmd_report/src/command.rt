//! The command `svstat`, in each of its forms.
ghost use Rattle.tai_status.specs.Words.{texts};
ghost use Rattle.cmd_report.specs.Ends.{ReportEnds};

use crate::lines::run_json;
use crate::report::run_metrics;
use cmd_svc::run_svstat;
use std::alloc::Allocator;
use std::io::Write;
use svc_client::{Observer, Services};
use tai_status::{Output, TimeSource};

/// The command `svstat`. If its first word is `--json`, it works as [`run_json`], and if that is `--metrics`, as
/// [`run_metrics`], over the words after that one. Otherwise it works as [`run_svstat`], over all words.
pub fn run_report<S, A, W, E, C>(
    alloc: A,
    observer: &mut Observer<S, C>,
    words: &[&str],
    writer: &mut Output<W>,
    faults: &mut Output<E>,
) -> u8
where
    S: Services,
    A: Allocator + Clone,
    W: Write,
    E: Write,
    C: TimeSource,
    ensures ends { ReportEnds (texts words.now) result
        observer.old observer.new writer.old writer.new faults.old faults.new }
{
    match words {
        ["--json", folders @ ..] => { run_json(alloc, observer, folders, writer, faults) }
        ["--metrics", folders @ ..] => { run_metrics(alloc, observer, folders, writer, faults) }
        _ => run_svstat(alloc, observer, words, writer, faults),
    }
}
