//! The page of each command.
ghost use Rattle.std.specs.Prelude.{◌≡◌};
ghost use Rattle.cmd_base.specs.Pages.{page};

use crate::command::Command;

/// Returns the page of a command, which is one line: the words that it takes.
pub fn page_of(command: Command) -> &'static [u8]
    ensures page { result.now ≡ page command }
{
    match command {
        Command::Svscan => {
            b"dtools svscan [DIR [ROUNDS]]; DIR is the working directory if it is not given\n"
        }
        Command::Supervise => b"dtools supervise DIR\n",
        Command::Svc => {
            b"dtools svc [-W] [-udopchaitkx12q] SERVICE..; u up, d down, o once, x exit, and signals\n"
        }
        Command::Svstat => { b"dtools svstat [-l] [--json | --metrics | --html] [SERVICE..]\n" }
        Command::Svok => b"dtools svok SERVICE\n",
        Command::Wait => {
            b"dtools wait [-u|-U|-d|-x|-r] [-t SECONDS] SERVICE..; u up, U ready, d down, x no longer supervised, r restarted\n"
        }
        Command::Restart => {
            b"dtools restart [-t SECONDS] SERVICE..; sends TERM, and returns once another process is up\n"
        }
        Command::Multilog => {
            b"dtools multilog ACTION..: t, -PATTERN, +PATTERN, e, =FILE, sSIZE, nNUMBER, folders\n"
        }
        Command::Tai64n => b"dtools tai64n\n",
        Command::Tai64nlocal => b"dtools tai64nlocal\n",
        Command::Envdir =>
            b"dtools envdir DIR PROGRAM WORDS.., or dtools envdir --shell DIR [ENVIRON [PROGRAM WORDS..]]\n",
        Command::Readproctitle => {
            b"dtools readproctitle WORD..; the last word is as long as the title\n"
        }
        Command::Sim => b"dtools sim, with a script on standard input, or dtools sim table\n",
        Command::Trace => {
            b"dtools trace FILE|SERVICE [--break SPEC] [--local]; SPEC is byte:C, phase:PHASE or signal:NAME\n"
        }
        Command::Why => b"dtools why [--timeline] SERVICE..\n",
        Command::Help => b"dtools help [COMMAND]\n",
        Command::Version => b"dtools version\n",
    }
}
