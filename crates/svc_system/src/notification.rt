//! How the process of a service says that it is ready: it writes a line to a descriptor
//! (<https://skarnet.org/software/s6/notifywhenup.html>).
//!
//! The descriptor is open on a FIFO in `supervise/`, for reading too. A process that writes while there is no svscan
//! therefore gets no signal, and its word waits in the FIFO for the next svscan. Each process of the service has a FIFO
//! of its own, so that no word of an earlier one counts.
ghost use Rattle.std.specs.Prelude.{◌≡◌, ◌≤◌, ◌∷◌, [], ℕ, codes, IfOk, IfSome, Some};
ghost use Rattle.std.specs.Process.{command_args, command_program};
ghost use Rattle.svc_system.specs.Notification.{IsDescriptor, is_said, script};

use crate::settings::seconds_in;
use arrayvec::ArrayString;
use cmd_base::push_number;
use std::alloc::{AllocError, Global};
use std::process::Command;

/// The file of a service that holds the number of the descriptor.
pub(crate) const NOTIFICATION: &str = "notification-fd";

/// What is said about a service if that file holds no such number.
pub(crate) const NO_NOTIFICATION: &str =
    "notification-fd is no number from 3 to 9: it does not count";

/// The FIFO, in the folder of the service.
pub(crate) const FIFO: &str = "supervise/notify";

/// The least number of the descriptor: those below are the standard ones.
const LEAST: u64 = 3;

/// The greatest number: a shell need not take more than one digit.
const GREATEST: u64 = 9;

/// Returns the number of a descriptor in the text of `notification-fd`, from 3 to 9. Returns None for any other text.
pub(crate) fn descriptor_in(text: &[u8]) -> Option<u64>
    ensures some { IfSome result (λ number. IsDescriptor number text.now) }
    ensures only { (number : ℕ) → IsDescriptor number text.now → result ≡ Some number }
{
    match seconds_in(text) {
        Some(number) if LEAST <= number && number <= GREATEST => Some(number),
        _ => None,
    }
}

/// Returns what a shell does to run the service with this descriptor, in a session of its own or not.
fn script(number: u64, begins_session: bool) -> ArrayString<80>
    requires { number ≤ GREATEST }
    ensures { result.bytes ≡ script number begins_session }
{
    let mut text = ArrayString::new();
    text.push_str("exec ");
    push_number(&mut text, number);
    text.push_str("<>");
    text.push_str(FIFO);
    text.push_str("; exec ");
    text.push_str(if begins_session {
        "/usr/bin/setsid ./run"
    } else {
        "./run"
    });
    text
}

/// Returns the command of a shell that runs the service with this descriptor.
pub(crate) fn run_notifying(
    alloc: Global,
    number: u64,
    begins_session: bool,
) -> Result<Command, AllocError>
    requires { number ≤ GREATEST }
    ensures program { IfOk result (λ command. command_program command ≡ codes "/bin/sh") }
    ensures words { IfOk result (λ command. command_args command
        ≡ codes "-c" ∷ script number begins_session ∷ []) }
{
    let mut command = Command::new(alloc, "/bin/sh")?;
    command
        .arg("-c")?
        .arg(script(number, begins_session).as_str())?;
    Ok(command)
}

/// Returns whether bytes that a process wrote say that it is ready: they have a newline.
pub(crate) fn is_said(bytes: &[u8]) -> bool
    ensures { result ≡ is_said bytes.now }
{
    bytes.contains(&b'\n')
}
