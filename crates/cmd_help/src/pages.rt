//! What `help` prints.
ghost use Rattle.std.specs.Prelude.{◌≡◌};
ghost use Rattle.std.specs.Option.{option_copied};
ghost use Rattle.cmd_help.specs.Pages.{SvcPageHasEachLetter, help_of, overview, tool_page};

use cmd_base::{Command, page_of};

/// Returns what `help` prints without a word: the commands, one on each line.
pub fn overview() -> &'static [u8]
    ensures { result.now ≡ overview }
{
    b"dtools COMMAND WORDS..: supervision and logging of services
  svscan         keeps the services of a folder running
  supervise      keeps one service running
  svc            controls services
  svstat         shows the state of services
  svok           says whether a service is supervised
  wait           returns once services are up, ready, down, restarted, or no longer supervised
  restart        ends the processes of services, and returns once others are up
  multilog       logs lines into folders
  tai64n         puts a label before each line
  tai64nlocal    shows labels as local times
  envdir         runs a program in the environment that a folder holds
  readproctitle  keeps the last bytes of its input
  sim            replies to a script of events as supervise would
  trace          explains the last events of a service
  why            says in plain words which state a service is in, and why
  help COMMAND   shows the words of a command; man dtools-COMMAND has the rest
  version        says which dtools this is
"
}

/// Returns what `help` prints about a command: its page, and for `svc` also one line for each control byte.
pub fn help_of(command: Command) -> &'static [u8]
    ensures { result.now ≡ help_of command }
{
    match command {
        Command::Svc => {
            b"dtools svc [-W] [-udopchaitkx12q] SERVICE..; u up, d down, o once, x exit, and signals
  u  up: start it, and restart it whenever it exits
  d  down: send TERM and CONT, and do not restart it
  o  once: start it, and do not restart it
  p  pause: send STOP
  c  continue: send CONT
  h  send HUP
  a  send ALRM
  i  send INT
  t  send TERM
  k  send KILL
  x  exit: stop supervising it once it is down
  1  send USR1
  2  send USR2
  q  send QUIT
"
        }
        command => page_of(command),
    }
}

/// States that the page of `svc` names each control byte, and no other letter except `W`.
pub fn svc_page_has_each_letter()
    ensures { SvcPageHasEachLetter }
{}

/// Returns what `help` prints about a program that is installed next to `dtools` and is not one of its commands: which
/// words it takes. Returns None if there is no such program.
pub fn tool_page(name: &str) -> Option<&'static [u8]>
    ensures page { option_copied result ≡ tool_page name.now }
{
    match name {
        "svwait" => Some(page_of(Command::Wait)),
        "svrestart" => Some(page_of(Command::Restart)),
        "setuidgid" => Some(b"setuidgid ACCOUNT PROGRAM WORDS..\n"),
        "envuidgid" => Some(b"envuidgid ACCOUNT PROGRAM WORDS..\n"),
        "softlimit" => Some(b"softlimit [-acdflmoprst LIMIT].. PROGRAM WORDS..\n"),
        "setlock" => Some(b"setlock [-nNxX] FILE PROGRAM WORDS..\n"),
        "pgrphack" => Some(b"pgrphack PROGRAM WORDS..\n"),
        "fghack" => Some(b"fghack PROGRAM WORDS..\n"),
        "svscan-run" => Some(b"svscan-run [DIR]\n"),
        "dtools-service" => {
            Some(b"dtools-service --add FOLDER [NAME], --remove NAME, --list [NAME]\n")
        }
        _ => None,
    }
}
