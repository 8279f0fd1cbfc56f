//! The commands, and the words that name them.
ghost use Rattle.std.specs.Prelude.{◌≡◌};
ghost use Rattle.cmd_base.specs.Commands.{command_named};

/// A command of this program.
#[derive(Clone, Copy, Debug, PartialEq, Eq)]
pub enum Command {
    Svscan,
    Supervise,
    Svc,
    Svstat,
    Svok,
    Wait,
    Restart,
    Multilog,
    Tai64n,
    Tai64nlocal,
    Envdir,
    Readproctitle,
    Sim,
    Trace,
    Why,
    Help,
    Version,
}

impl Command {
    /// Returns the command with this name. `--help` and `--version` are names of commands as well.
    pub fn named(word: &str) -> Option<Command>
        ensures { result ≡ command_named word.now }
    {
        match word {
            "svscan" => Some(Command::Svscan),
            "supervise" => Some(Command::Supervise),
            "svc" => Some(Command::Svc),
            "svstat" => Some(Command::Svstat),
            "svok" => Some(Command::Svok),
            "wait" => Some(Command::Wait),
            "restart" => Some(Command::Restart),
            "multilog" => Some(Command::Multilog),
            "tai64n" => Some(Command::Tai64n),
            "tai64nlocal" => Some(Command::Tai64nlocal),
            "envdir" => Some(Command::Envdir),
            "readproctitle" => Some(Command::Readproctitle),
            "sim" => Some(Command::Sim),
            "trace" => Some(Command::Trace),
            "why" => Some(Command::Why),
            "help" | "--help" => Some(Command::Help),
            "version" | "--version" => Some(Command::Version),
            _ => None,
        }
    }
}
