//! The commands that run a service and its `finish`, and what is said if one can't be run.
ghost use Rattle.std.specs.Prelude.{◌≡◌, [], ◌∷◌, codes, option_copied, IfOk};
ghost use Rattle.std.specs.IoError.{error_kind};
ghost use Rattle.std.specs.Process.{command_args, command_program};
ghost use Rattle.svc_system.specs.Commands.{unable_to_run};
ghost use Rattle.svc_system.specs.Finish.{signal_word, status_word};

use arrayvec::ArrayString;
use cmd_base::push_number;
use std::alloc::{AllocError, Global};
use std::io;
use std::io::ErrorKind;
use std::process::Command;
use svc_record::Ending;

/// What a shell does in place of a service that can't be run.
const SAY: &str = "printf 'svscan: %s: %s\\n' \"$1\" \"$2\" >&2; exit 111";

/// What is said about a service whose `finish` can't be run, before the cause.
pub(crate) const NO_FINISH: &str = "unable to run ./finish: ";

/// What is said about a service whose process can't say that it is ready, before the cause.
pub(crate) const NO_FIFO: &str = "unable to make supervise/notify: ";

/// What is said about a service that begins a session if there is no program for that.
pub(crate) const NO_SETSID: &str = "unable to run setsid: No such file or directory";

/// Returns the command that runs the service.
pub(crate) fn run(alloc: Global) -> Result<Command, AllocError>
    ensures program { IfOk result (λ command. command_program command ≡ codes "./run") }
    ensures words { IfOk result (λ command. command_args command ≡ []) }
{
    Command::new(alloc, "./run")
}

/// Returns the command that runs the service in a session of its own (setsid(1)).
pub(crate) fn run_in_session(alloc: Global) -> Result<Command, AllocError>
    ensures program { IfOk result (λ command. command_program command ≡ codes "/usr/bin/setsid") }
    ensures words { IfOk result (λ command. command_args command ≡ codes "./run" ∷ []) }
{
    let mut command = Command::new(alloc, "/usr/bin/setsid")?;
    command.arg("./run")?;
    Ok(command)
}

/// Returns the command of a shell that runs the service, or says why it can't and fails.
pub(crate) fn run_by_shell(alloc: Global) -> Result<Command, AllocError>
    ensures program { IfOk result (λ command. command_program command ≡ codes "/bin/sh") }
    ensures words { IfOk result (λ command. command_args command ≡ codes "-c" ∷ codes "exec ./run" ∷ []) }
{
    let mut command = Command::new(alloc, "/bin/sh")?;
    command.arg("-c")?.arg("exec ./run")?;
    Ok(command)
}

/// Returns the command of a shell that says this about the service with this name, and fails.
pub(crate) fn say(alloc: Global, name: &str, what: &str) -> Result<Command, AllocError>
    ensures program { IfOk result (λ command. command_program command ≡ codes "/bin/sh") }
    ensures words { IfOk result (λ command. command_args command
        ≡ codes "-c" ∷ SAY.now ∷ codes "sh" ∷ name.now ∷ what.now ∷ []) }
{
    let mut command = Command::new(alloc, "/bin/sh")?;
    command
        .arg("-c")?
        .arg(SAY)?
        .arg("sh")?
        .arg(name)?
        .arg(what)?
        .env_clear();
    Ok(command)
}

/// Returns what is said about a `run` that can't be executed. Returns None if a shell may still run it.
pub(crate) fn unable_to_run(fault: &io::Error) -> Option<&'static str>
    ensures { option_copied result ≡ unable_to_run (error_kind fault.now) }
{
    match fault.kind() {
        ErrorKind::NotFound => Some("unable to run ./run: No such file or directory"),
        ErrorKind::PermissionDenied => Some("unable to run ./run: Permission denied"),
        _ => None,
    }
}

/// Returns the two words of `finish`: the exit status or -1, and the number of the signal or 0.
fn finish_words(ending: Ending) -> (ArrayString<32>, ArrayString<32>)
    ensures status { result.0.bytes ≡ status_word ending }
    ensures signal { result.1.bytes ≡ signal_word ending }
{
    let (mut status, mut signal) = (ArrayString::new(), ArrayString::new());
    match ending {
        Ending::Status(number) => push_number(&mut status, u64::from(number)),
        _ => status.push_str("-1"),
    }
    match ending {
        Ending::Signal(number) => push_number(&mut signal, u64::from(number)),
        _ => signal.push_str("0"),
    }
    (status, signal)
}

/// Returns the command that runs the `finish` of a service whose process ended this way.
pub(crate) fn finish(alloc: Global, ending: Ending) -> Result<Command, AllocError>
    ensures program { IfOk result (λ command. command_program command ≡ codes "./finish") }
    ensures words { IfOk result (λ command. command_args command ≡ status_word ending ∷ signal_word ending ∷ []) }
{
    let (status, signal) = finish_words(ending);
    let mut command = Command::new(alloc, "./finish")?;
    command.arg(status.as_str())?.arg(signal.as_str())?;
    Ok(command)
}
