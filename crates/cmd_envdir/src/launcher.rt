//! What starts the child of `envdir`.
use std::alloc::Allocator;
use std::io;
use std::process::{Command, ExitStatus, Processes};

/// Starts commands. Contracts see the commands that it was given and their results, if it keeps them.
pub trait Launcher {
    ghost use Rattle.std.specs.Prelude.{◌∷◌, [], Option, List, None};
    ghost use Rattle.cmd_envdir.specs.System.{Launch, launch_of};
    ghost use Rattle.tai_status.specs.Extended.{Extended};

    ghost calls: { Self → Option (List Launch) } = { λ _. None };

    /// Starts a command, waits until the child ends, and returns how it ended.
    fn launch<A: Allocator + Clone>(&mut self, command: &mut Command<A>) -> io::Result<ExitStatus>
        ensures handed { Extended (calls self.old) (calls self.new) (launch_of command.old result ∷ []) };
}

/// Starts commands on this system. It does not show contracts what it started.
#[derive(Drop)]
pub struct SystemLauncher<R: Processes + Drop> {
    runtime: R,
}

impl<R: Processes + Drop> SystemLauncher<R> {
    /// Returns the launcher of this runtime.
    pub fn new(runtime: R) -> SystemLauncher<R> {
        SystemLauncher { runtime }
    }
}

impl<R: Processes + Drop> Launcher for SystemLauncher<R> {
    fn launch<A: Allocator + Clone>(&mut self, command: &mut Command<A>) -> io::Result<ExitStatus> {
        command.status(&self.runtime)
    }
}
