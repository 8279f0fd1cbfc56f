//! The child of `envdir`.
ghost use Rattle.std.specs.Prelude.{◌≡◌, ◌++◌, ◌∷◌, [], ℕ, List, false, IfOk, IfErr, OnOk};
ghost use Rattle.std.specs.Process.{command_args, command_program, command_var, clears_env, exit_code, SameEnv};
ghost use Rattle.std.specs.Process.{SameProgramAndArgs};
ghost use Rattle.cmd_envdir.specs.System.{start_of};
ghost use Rattle.tai_status.specs.Words.{texts};
ghost use Rattle.cmd_envdir.specs.Child.{IsCauseOf, IsOfStart, StartsChild, StartsNone, StartsOne, status_of_child};
ghost use Rattle.cmd_envdir.specs.Sayings.{said_after_files, said_after_set};

use crate::fault::EnvdirFault;
use crate::launcher::Launcher;
use cmd_base::TROUBLE;
use env_title::{Env, EnvFile, Variable};
use std::alloc::{AllocError, Allocator};
use std::io::{Error, ErrorKind};
use std::marker::Model;
use std::process::{Command, ExitStatus};
use tai_status::Cause;

/// A program and its arguments.
#[derive(Drop)]
pub struct Program<'a> {
    pub name: &'a str,
    pub arguments: &'a [&'a str],
}

impl<'a> Model for Program<'a> {
    ghost use Rattle.cmd_envdir.specs.System.{Child, child};
    ghost use Rattle.tai_status.specs.Words.{texts};

    ghost Value = { Child };

    ghost view = { λ program. child program.name.now (texts program.arguments.now) };
}

/// Adds an argument to a command.
fn add_argument<A: Allocator + Clone>(
    command: &mut Command<A>,
    argument: &str,
) -> Result<(), AllocError>
    ensures program { OnOk result (command_program command.new ≡ command_program command.old) }
    ensures arguments { OnOk result (command_args command.new ≡ command_args command.old ++ argument.now ∷ []) }
    ensures variables { OnOk result (SameEnv command.old command.new) }
{
    command.arg(argument)?;
    Ok(())
}

/// Adds arguments to a command.
fn add_arguments<A: Allocator + Clone>(
    command: &mut Command<A>,
    arguments: &[&str],
) -> Result<(), AllocError>
    ensures program { OnOk result (command_program command.new ≡ command_program command.old) }
    ensures arguments { OnOk result (command_args command.new
        ≡ command_args command.old ++ texts arguments.now) }
    ensures variables { OnOk result (SameEnv command.old command.new) }
{
    for argument in arguments {
        add_argument(command, argument)?;
    }
    Ok(())
}

/// Removes the variables with the names of files.
fn remove_variables<A: Allocator + Clone>(
    command: &mut Command<A>,
    files: &[EnvFile<'_>],
) -> Result<(), AllocError>
    requires { clears_env command.old ≡ false }
    ensures call { OnOk result (SameProgramAndArgs command.old command.new) }
    ensures variables { OnOk result ((name : List ℕ)
        → command_var command.new name ≡ said_after_files files.now name (command_var command.old name)) }
    ensures others { OnOk result (clears_env command.new ≡ false) }
{
    for file in files {
        command.env_remove(file.name)?;
    }
    Ok(())
}

/// Sets variables.
fn set_variables<A: Allocator + Clone>(
    command: &mut Command<A>,
    variables: &[Variable<A>],
) -> Result<(), AllocError>
    ensures call { OnOk result (SameProgramAndArgs command.old command.new) }
    ensures variables { OnOk result ((name : List ℕ)
        → command_var command.new name ≡ said_after_set variables.now name (command_var command.old name)) }
    ensures others { OnOk result (clears_env command.new ≡ clears_env command.old) }
{
    for variable in variables {
        command.env(variable.name(), variable.value())?;
    }
    Ok(())
}

/// Returns the command that starts a child in this environment. It sets each variable of the environment, and removes
/// those that the files have removed. Any other variable stays as it is.
fn child_command<A: Allocator + Clone>(
    alloc: A,
    program: &Program<'_>,
    files: &[EnvFile<'_>],
    variables: &Env<A>,
) -> Result<Command<A>, AllocError>
    ensures { IfOk result (λ command. StartsChild (start_of command)
        program.now files.now variables.now) }
{
    let mut command = Command::new(alloc, program.name)?;
    add_arguments(&mut command, program.arguments)?;
    remove_variables(&mut command, files)?;
    set_variables(&mut command, variables.as_slice())?;
    Ok(command)
}

/// Returns the status for how a child ended: its exit status, or 111 if a signal ended it.
fn child_status(status: ExitStatus) -> u8
    ensures { result ≡ status_of_child (exit_code status) }
{
    match status.code() {
        Some(code) => u8::try_from(code).unwrap_or(TROUBLE),
        None => TROUBLE,
    }
}

/// Returns why a command could not be started. Keeps the system's cause.
fn start_fault(error: Error) -> EnvdirFault
    ensures cause { IsCauseOf error result }
    ensures of_start { IsOfStart result }
{
    if error.kind() == ErrorKind::OutOfMemory {
        return EnvdirFault::OutOfMemory;
    }
    EnvdirFault::NotRun(Cause::of(&error))
}

/// Starts a program with arguments, in an environment that files have made, and waits until it ends. Returns its exit
/// status, or 111 if a signal ended it. The program is looked up in the `PATH` of that environment.
pub fn run_child<L: Launcher, A: Allocator + Clone>(
    launcher: &mut L,
    alloc: A,
    program: &Program<'_>,
    files: &[EnvFile<'_>],
    variables: &Env<A>,
) -> Result<u8, EnvdirFault>
    ensures ok { IfOk result (λ status. StartsOne (L.calls launcher.old) (L.calls launcher.new)
        program.now files.now variables.now status) }
    ensures none { IfErr result (λ cause. StartsNone (L.calls launcher.old) (L.calls launcher.new)
        program.now files.now variables.now cause) }
    ensures of_start { IfErr result (λ cause. IsOfStart cause) }
{
    let Ok(mut command) = child_command(alloc, program, files, variables) else {
        return Err(EnvdirFault::OutOfMemory);
    };
    match launcher.launch(&mut command) {
        Ok(status) => Ok(child_status(status)),
        Err(error) => Err(start_fault(error)),
    }
}
