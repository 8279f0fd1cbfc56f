//! The command `svok`.
ghost use Rattle.tai_status.specs.Words.{texts};
ghost use Rattle.cmd_svc.specs.Svok.{SvokEnds};

use cmd_base::{DONE, REFUSED};
use svc_client::Services;

/// The command `svok`: its exit status says whether the service in the folder that its one word names is supervised
/// (<https://cr.yp.to/daemontools/svok.html>): 0 if it is, and otherwise 100. It prints nothing and needs no memory. No
/// word, or more than one, is 100 too, and then nothing is asked.
pub fn run_svok<S: Services>(services: &mut S, words: &[&str]) -> u8
    ensures ends { SvokEnds (texts words.now) result (S.calls services.old) (S.calls services.new) }
{
    match words {
        [folder] if services.reach(folder).is_ok() => DONE,
        _ => REFUSED,
    }
}
