//! The files of a service that hold a number of seconds: what their texts mean, and what is said about a text that
//! means nothing.
ghost use Rattle.std.specs.Prelude.{◌≡◌, ◌<◌, ◌^◌, ◌++◌, ◌∷◌, [], List, ℕ, true, Some, IfSome, is_none};
ghost use Rattle.svc_system.specs.declared.settings.TheConstants.{FINISH_SECONDS};
ghost use Rattle.svc_system.specs.Settings.{IsBackoff, IsFinishTime, IsSeconds, is_late};

use sup_core::read_number;
use svc_record::{TICKS, before_newline};

/// The file of a service that says how long its `finish` may run.
pub(crate) const FINISH_TIME: &str = "timeout-finish";

/// What is said about a service if its file `timeout-finish` holds no number of seconds.
pub(crate) const NO_FINISH_TIME: &str = "timeout-finish is no number of seconds: 5 seconds count";

/// The seconds for which a `finish` may run if `timeout-finish` says nothing else.
const FINISH_SECONDS: u64 = 5;

/// The file of a service that says after how many seconds it gets KILL.
pub(crate) const KILL_TIME: &str = "timeout-kill";

/// What is said about a service if its file `timeout-kill` holds no number of seconds.
pub(crate) const NO_KILL_TIME: &str = "timeout-kill is no number of seconds: it does not count";

/// The file of a service that says for how many seconds a start waits after five ends within a minute.
pub(crate) const BACKOFF: &str = "backoff";

/// What is said about a service if its file `backoff` holds no such number.
pub(crate) const NO_BACKOFF: &str =
    "backoff is no number of seconds from 1 to 3600: it does not count";

/// The most seconds for which a start waits.
const LONGEST: u64 = 3600;

/// Returns the number in the text of a file: decimal digits, with or without a newline.
pub(crate) fn seconds_in(text: &[u8]) -> Option<u64>
    ensures found { IfSome result (λ seconds. IsSeconds seconds text.now) }
    ensures only { (seconds : ℕ) → seconds < 2 ^ 64 → IsSeconds seconds text.now → result ≡ Some seconds }
{
    match before_newline(text) {
        Some(digits) => read_number(digits),
        None => read_number(text),
    }
}

/// Returns for how many seconds a `finish` may run, by the text of `timeout-finish`, if there is such a file. 0 is
/// without a bound.
pub(crate) fn finish_seconds(text: Option<&[u8]>) -> u64
    ensures none { is_none text.entry ≡ true → result ≡ FINISH_SECONDS }
    ensures some { IfSome text.entry (λ text. IsFinishTime text.now result) }
{
    match text {
        Some(text) => seconds_in(text).unwrap_or(FINISH_SECONDS),
        None => FINISH_SECONDS,
    }
}

/// Returns whether a `finish` that began at this tick has run for as long as it may at another one.
pub(crate) fn is_late(seconds: u64, tick: u64, now: u64) -> bool
    ensures { result ≡ is_late seconds tick now }
{
    seconds != 0 && u128::from(tick) + u128::from(seconds) * TICKS <= u128::from(now)
}

/// Returns the number of seconds in the text of `timeout-kill`. Returns None if the text is no number, or 0, which
/// means never (<https://skarnet.org/software/s6/servicedir.html>).
pub(crate) fn kill_seconds(text: &[u8]) -> Option<u64>
    ensures some { IfSome result (λ seconds. (0 < seconds) × IsSeconds seconds text.now) }
    ensures only { (seconds : ℕ) → 0 < seconds → seconds < 2 ^ 64 → IsSeconds seconds text.now
        → result ≡ Some seconds }
{
    match seconds_in(text) {
        Some(0) | None => None,
        Some(seconds) => Some(seconds),
    }
}

/// Returns the number of seconds in the text of `backoff`, from 1 to 3600. Returns None for any other text.
pub(crate) fn backoff_seconds(text: &[u8]) -> Option<u64>
    ensures some { IfSome result (λ seconds. IsBackoff seconds text.now) }
    ensures only { (seconds : ℕ) → IsBackoff seconds text.now → result ≡ Some seconds }
{
    match seconds_in(text) {
        Some(seconds) if 0 < seconds && seconds <= LONGEST => Some(seconds),
        _ => None,
    }
}
