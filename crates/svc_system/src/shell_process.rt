//! How the shell that sends a signal is asked for it.
ghost use Rattle.std.specs.Prelude.{◌≡◌, ◌≤◌, length};
ghost use Rattle.sup_core.specs.Text.{signal_name};
ghost use Rattle.svc_system.specs.Commands.{signal_line};
ghost use Rattle.svc_system.specs.Shell.{SendsLine};

use arrayvec::ArrayString;
use cmd_base::push_number;
use std::io;
use sup_core::{Sig, sig_name};

/// The most bytes in a line to the shell.
const LINE_BYTES: usize = 32;

/// A shell that sends the signals that its lines name. Contracts see the calls and their results, in order (`calls`),
/// while they are recorded.
pub(crate) trait ShellProcess {
    ghost use Rattle.std.specs.Prelude.{Option, None, List, [], ◌∷◌, is_ok};
    ghost use Rattle.svc_system.specs.Shell.{ShellCall, Sent, Ended, Started};
    ghost use Rattle.tai_status.specs.Extended.{Extended};

    ghost calls: { Self → Option (List ShellCall) } = { λ _. None };

    /// Sends the shell a line. A fault means that it did not take the whole line.
    fn send(&mut self, line: &str) -> io::Result<()>
        ensures calls { Extended (calls self.old) (calls self.new) (Sent line.now (is_ok result) ∷ []) };

    /// Ends the shell: it sends the signals of the lines that it took, and reaches the end of its input.
    fn end(&mut self)
        ensures calls { Extended (calls self.old) (calls self.new) (Ended ∷ []) };

    /// Starts another shell, if there is none.
    fn start(&mut self) -> io::Result<()>
        ensures calls { Extended (calls self.old) (calls self.new) (Started (is_ok result) ∷ []) };
}

/// Returns the line that asks the shell for a signal.
fn signal_line(name: &str, pid: u32) -> ArrayString<LINE_BYTES>
    requires { length name.now ≤ 6 }
    ensures { result.bytes ≡ signal_line name.now pid }
{
    let mut line = ArrayString::new();
    line.push_str(name);
    line.push_str(" ");
    push_number(&mut line, u64::from(pid));
    line.push_str("\n");
    line
}

/// Sends a line to a shell. If the shell does not take it, ends that shell, starts another one and sends it the line,
/// once. If that fails too, nothing is sent.
fn send_line<S: ShellProcess>(shell: &mut S, line: &str)
    ensures { SendsLine line.now (S.calls shell.old) (S.calls shell.new) }
{
    if shell.send(line).is_ok() {
        return;
    }
    shell.end();
    if shell.start().is_ok() {
        let _ = shell.send(line);
    }
}

/// Lets a shell send a signal to the process with this number.
pub(crate) fn send_signal<S: ShellProcess>(shell: &mut S, sig: Sig, pid: u32)
    ensures { SendsLine (signal_line (signal_name sig) pid) (S.calls shell.old) (S.calls shell.new) }
{
    send_line(shell, signal_line(sig_name(sig), pid).as_str())
}
