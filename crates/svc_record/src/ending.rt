//! How a process ended.
ghost use Rattle.std.specs.Prelude.{◌≡◌, ◌≤◌, length, IfOk, OnErr};
ghost use Rattle.svc_record.specs.Exits.{EndsBy, signal_name};
ghost use Rattle.svc_record.specs.declared.ending.Ending.TheVariants as ending;

use std::io;
use std::os::unix::process::ExitStatusExt;
use std::process::ExitStatus;

/// How a process ended.
#[derive(Clone, Copy, Debug, PartialEq, Eq)]
pub enum Ending {
    /// The process exited with this status.
    Status(u8),
    /// The signal with this number ended the process.
    Signal(u8),
    /// It is not known how the process ended.
    Unknown,
}

/// Returns how a child ended, by the result of waiting for it.
pub fn ending_of(waited: io::Result<ExitStatus>) -> Ending
    ensures known { IfOk waited (λ status. EndsBy status result) }
    ensures unknown { OnErr waited (result ≡ ending.Unknown) }
{
    match waited {
        Ok(status) => of_status(status),
        Err(_) => Ending::Unknown,
    }
}

/// Returns how a child with this status ended.
fn of_status(status: ExitStatus) -> Ending
    ensures { EndsBy status result }
{
    if let Some(code) = status.code() {
        return match u8::try_from(code) {
            Ok(code) => Ending::Status(code),
            Err(_) => Ending::Unknown,
        };
    }
    match status.signal() {
        Some(number) => match u8::try_from(number) {
            Ok(number) => Ending::Signal(number),
            Err(_) => Ending::Unknown,
        },
        None => Ending::Unknown,
    }
}

/// Returns the name of a Linux signal, without `SIG`. Signals from 32 on have no name, and give an empty text.
#[tactic(auto, unfolding(crate::specs::Exits::signal_name))]
pub fn signal_name(number: u8) -> &'static str
    ensures name { result.now ≡ signal_name number }
    ensures short { length result.now ≤ 6 }
{
    match number {
        1 => "HUP",
        2 => "INT",
        3 => "QUIT",
        4 => "ILL",
        5 => "TRAP",
        6 => "ABRT",
        7 => "BUS",
        8 => "FPE",
        9 => "KILL",
        10 => "USR1",
        11 => "SEGV",
        12 => "USR2",
        13 => "PIPE",
        14 => "ALRM",
        15 => "TERM",
        16 => "STKFLT",
        17 => "CHLD",
        18 => "CONT",
        19 => "STOP",
        20 => "TSTP",
        21 => "TTIN",
        22 => "TTOU",
        23 => "URG",
        24 => "XCPU",
        25 => "XFSZ",
        26 => "VTALRM",
        27 => "PROF",
        28 => "WINCH",
        29 => "IO",
        30 => "PWR",
        31 => "SYS",
        _ => "",
    }
}
