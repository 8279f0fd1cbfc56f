//! The command `svstat`, in each of its forms.
ghost use Rattle.tai_status.specs.Words.{texts};
ghost use Rattle.cmd_page.specs.Ends.{ViewEnds};

use crate::report::run_page;
use cmd_report::run_report;
use cmd_why::Evidence;
use std::alloc::Allocator;
use std::io::Write;
use svc_client::{Observer, Services};
use tai_status::{Output, TimeSource};

/// The command `svstat`. If its first word is `--html`, it works as [`run_page`], over the words after that one.
/// Otherwise it works as [`run_report`], over all words.
pub fn run_view<S, K, A, W, E, C>(
    alloc: A,
    observer: &mut Observer<S, C>,
    sources: &K,
    words: &[&str],
    writer: &mut Output<W>,
    faults: &mut Output<E>,
) -> u8
where
    S: Services,
    K: Evidence,
    A: Allocator + Clone,
    W: Write,
    E: Write,
    C: TimeSource,
    ensures ends { ViewEnds (K.known sources.now) (texts words.now) result
        observer.old observer.new writer.old writer.new faults.old faults.new }
{
    match words {
        ["--html", folders @ ..] => { run_page(alloc, observer, sources, folders, writer, faults) }
        _ => run_report(alloc, observer, words, writer, faults),
    }
}
