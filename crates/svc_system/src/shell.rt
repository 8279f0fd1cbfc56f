//! The shell that sends signals, on this system.
use crate::shell_process::{ShellProcess, send_signal};
use std::alloc::Global;
use std::io;
use std::io::{Error, ErrorKind, Write};
use std::process::{Child, Command, Processes, Stdio, SystemProcess};
use std::sync::{Mutex, Wait};
use sup_core::Sig;

/// What the shell runs. It ends at the end of its input, and ignores a process that is gone.
const SCRIPT: &str = "while read -r s n; do kill -$s $n 2>/dev/null; done";

/// The system's own shell, while it runs. It says nothing to contracts.
#[derive(Drop)]
struct SystemShell<R: Processes<Started = SystemProcess> + Drop> {
    runtime: R,
    alloc: Global,
    child: Option<Child<SystemProcess>>,
}

/// The one shell that sends the signals of all services. It is restarted if it died.
#[derive(Drop)]
pub struct SignalShell<R: Processes<Started = SystemProcess> + Wait + Copy + Drop> {
    runtime: R,
    shell: Mutex<SystemShell<R>>,
}

/// Starts the shell. It holds nothing of this process, and no folder.
fn start_shell<R: Processes<Started = SystemProcess>>(
    runtime: &R,
    alloc: Global,
) -> io::Result<Child<SystemProcess>> {
    let mut command = Command::new(alloc, "/bin/sh")?;
    command
        .arg("-c")?
        .arg(SCRIPT)?
        .current_dir("/")?
        .env_clear();
    command
        .stdin(Stdio::piped())
        .stdout(Stdio::null())
        .stderr(Stdio::null())
        .spawn(runtime)
}

impl<R: Processes<Started = SystemProcess> + Drop> ShellProcess for SystemShell<R> {
    fn send(&mut self, line: &str) -> io::Result<()> {
        match &mut self.child {
            Some(
                Child {
                    stdin: Some(input),
                    ..
                },
            ) => input.write_all(line.as_bytes()),
            _ => Err(Error::from(ErrorKind::BrokenPipe)),
        }
    }

    fn end(&mut self) {
        if let Some(mut child) = self.child.take() {
            drop(child.stdin.take());
            let _ = child.wait();
        }
    }

    fn start(&mut self) -> io::Result<()> {
        self.child = Some(start_shell(&self.runtime, self.alloc)?);
        Ok(())
    }
}

impl<R: Processes<Started = SystemProcess> + Wait + Copy + Drop> SignalShell<R> {
    /// Makes the shell, and starts it at once, so that signals can be sent even if nothing can be started later. If it
    /// can't be started now, the first signal starts it.
    pub fn new(runtime: R, alloc: Global) -> SignalShell<R> {
        let mut shell = SystemShell {
            runtime,
            alloc,
            child: None,
        };
        let _ = shell.start();
        SignalShell {
            runtime,
            shell: Mutex::new(shell),
        }
    }

    /// Lets the shell send a signal to the process with this number.
    pub fn signal(&self, sig: Sig, pid: u32) {
        let mut shell = self.shell.lock(&self.runtime);
        send_signal(&mut *shell, sig, pid)
    }
}
