//! The command `svc`.
ghost use Rattle.std.specs.Prelude.{◌≡◌, codes, false, if◌then◌else◌};
ghost use Rattle.cmd_svc.specs.Words.{service_words};
ghost use Rattle.tai_status.specs.Words.{texts};
ghost use Rattle.tai_status.specs.Counted.{Reports};
ghost use Rattle.svc_client.specs.Turns.{InTurn};
ghost use Rattle.cmd_svc.specs.Svc.{effects, letter_report, missed_status, order_words, reason, sending};
ghost use Rattle.cmd_svc.specs.Svc.{OrderEnds, Serves, SvcEnds, svc_warning};

use crate::missing::tell_missing;
use crate::order::SvcFault;
use crate::words::{assemble, services_of};
use cmd_base::{DONE, REFUSED, TROUBLE, report, report_parts};
use std::alloc::Allocator;
use std::io::Write;
use svc_client::{Services, Unreached};
use tai_status::{Name, Output};

/// The warning about a service that can't be reached, up to its folder.
const WARNING: &[u8] = b"svc: warning: unable to control ";

/// Reports that a letter is unknown, and returns the exit status for that.
fn report_letter<E: Write>(letter: u8, faults: &mut Output<E>) -> u8
    ensures status { result ≡ 100 }
    ensures reported { Reports faults.old faults.new (letter_report letter) }
{
    let mut digits = [0; 2];
    hex::encode_to_slice(&[letter], &mut digits).unwrap();
    report_parts(faults, b"svc: unknown letter ", &digits, b"\n", REFUSED)
}

/// Returns why a service was not reached, as it is reported after its folder.
fn reason(why: Unreached) -> &'static [u8]
    ensures { result.now ≡ reason why }
{
    match why {
        Unreached::NotRunning => b": not running\n",
        Unreached::Denied => b": Permission denied\n",
        Unreached::Unanswered => b": no answer\n",
    }
}

/// Sends bytes to a service. If it can't be reached, reports that, and why, after the warning of the command that
/// sends. Returns whether some service was not reached, this one or one before it.
pub fn serve<S: Services, E: Write>(
    services: &mut S,
    warning: &[u8],
    folder: &str,
    bytes: &[u8],
    missed: bool,
    faults: &mut Output<E>,
) -> bool
    ensures { Serves warning.now bytes.now folder.now (sending (S.calls services.old) faults.old missed)
        (sending (S.calls services.new) faults.new result) }
{
    match services.send(folder, bytes) {
        Ok(()) => missed,
        Err(why) => {
            report_parts(faults, warning, folder.as_bytes(), reason(why), DONE);
            true
        }
    }
}

/// Sends bytes to services, one after the other. If there are no bytes, only checks whether each service accepts a
/// connection. Returns whether some service was not reached.
fn serve_each<S: Services, A: Allocator, E: Write>(
    services: &mut S,
    names: &[Name<A>],
    bytes: &[u8],
    faults: &mut Output<E>,
) -> bool
    ensures { InTurn (Serves svc_warning bytes.now) names.now (sending (S.calls services.old) faults.old false)
        (sending (S.calls services.new) faults.new result) }
{
    let mut missed = false;
    for name in names {
        missed = serve(services, WARNING, name.as_str(), bytes, missed, faults);
    }
    missed
}

/// Returns the exit status after services were served.
fn served_status(missed: bool, missed_status: u8) -> u8
    ensures { result ≡ (if missed then missed_status else 0) }
{
    if missed { missed_status } else { DONE }
}

/// Carries out the order in the words, or reports why they are not an order. Returns the exit status, which is
/// `missed_status` if a service was not reached.
fn run_order<S: Services, A: Allocator + Clone, E: Write>(
    alloc: A,
    services: &mut S,
    words: &[&str],
    missed_status: u8,
    faults: &mut Output<E>,
) -> u8
    ensures { OrderEnds missed_status (texts words.now) result (effects (S.calls services.old) faults.old)
        (effects (S.calls services.new) faults.new) }
{
    match assemble(alloc, words) {
        Ok(order) => {
            let names = order.services.as_slice();
            let missed = serve_each(services, names, order.bytes.as_slice(), faults);
            tell_missing(services, b"svc: ", services_of(words), faults);
            served_status(missed, missed_status)
        }
        Err(SvcFault::UnknownLetter(letter)) => report_letter(letter, faults),
        Err(SvcFault::OutOfMemory) => report(faults, b"svc: OutOfMemory\n", TROUBLE),
    }
}

/// Returns the exit status if a service is not reached: a first word `-W` makes that a fault.
fn missed_status(words: &[&str]) -> u8
    ensures { result ≡ missed_status (texts words.now) }
{
    match words {
        [first, ..] if *first == "-W" => TROUBLE,
        _ => DONE,
    }
}

/// Returns the words without a `-W` in the first place.
fn order_words<'a, 'b>(words: &'a [&'b str]) -> &'a [&'b str]
    ensures { texts result.now ≡ order_words (texts words.entry.now) }
{
    match words {
        [first, words @ ..] if *first == "-W" => words,
        _ => words,
    }
}

/// The command `svc`: sends the letters of its option words, as control bytes, to each service that its other words
/// name, in order (<https://cr.yp.to/daemontools/svc.html>). Each letter is sent once. A service that can't be reached
/// is reported as `svc: warning: unable to control DIR: WHY`, and the others are served. At the end, it is reported for
/// each folder that does not exist why. Without letters nothing is sent, and services that can't be reached are
/// reported.
///
/// Returns the exit status. It is 0 even after such warnings, but 111 if the first word is `-W`, which is then not an
/// option word. It is 100 for an unknown letter, and 111 for a lack of memory. In these two cases nothing is sent to
/// anybody.
pub fn run_svc<S: Services, A: Allocator + Clone, E: Write>(
    alloc: A,
    services: &mut S,
    words: &[&str],
    faults: &mut Output<E>,
) -> u8
    ensures ends { SvcEnds (texts words.now) result (effects (S.calls services.old) faults.old)
        (effects (S.calls services.new) faults.new) }
{
    run_order(
        alloc,
        services,
        order_words(words),
        missed_status(words),
        faults,
    )
}
