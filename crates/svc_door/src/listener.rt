//! A listener, and the result when it was last asked.
ghost use Rattle.std.specs.Prelude.{◌≡◌, ◌+◌, ◌-◌, ◌^◌, min, None, Some, IfErr, OnOk, OnErr};
ghost use Rattle.std.specs.IoError.{error_kind};
ghost use Rattle.svc_door.specs.Listening.{IsSame};

use mio::net::{UnixListener, UnixStream};
use mio::{Interest, Registry, Token};
use std::io;
use std::io::ErrorKind;

/// A listener. Contracts see the token by which the registry watches it, if it does (`watched`), and how many
/// connections it gave since the count was last reset (`given`). If it gave none when it was last asked, they see why
/// (`refused`).
#[derive(Drop)]
pub struct Listener {
    socket: UnixListener,
    watched: Option<Token>,
    given: u32,
    refused: Option<ErrorKind>,
}

impl Listener {
    /// Returns the listener of a socket.
    pub fn new(socket: UnixListener) -> Listener
        ensures { result.socket ≡ socket }
    {
        Listener {
            socket,
            watched: None,
            given: 0,
            refused: None,
        }
    }

    /// Makes the registry watch the listener.
    pub fn register(&mut self, registry: &Registry, token: Token) -> io::Result<()>
        ensures watched { OnOk result (self.new.watched ≡ Some token) }
        ensures socket { self.new.socket ≡ self.old.socket }
    {
        registry.register(&mut self.socket, token, Interest::READABLE)?;
        self.watched = Some(token);
        Ok(())
    }

    /// Resets the count of its connections.
    pub fn count_anew(&mut self)
        ensures given { self.new.given ≡ 0 }
        ensures same { IsSame self.old self.new }
    {
        self.given = 0;
    }

    /// Returns the next connection. Does not wait.
    pub fn accept(&mut self) -> io::Result<UnixStream>
        ensures given { OnOk result (self.new.given ≡ min (self.old.given + 1) (2 ^ 32 - 1)) }
        ensures none { OnErr result (self.new.given ≡ self.old.given) }
        ensures refused { IfErr result (λ fault. self.new.refused ≡ Some (error_kind fault)) }
        ensures accepted { OnOk result (self.new.refused ≡ None) }
        ensures same { IsSame self.old self.new }
    {
        match self.socket.accept() {
            Ok((stream, _)) => {
                self.given = self.given.saturating_add(1);
                self.refused = None;
                Ok(stream)
            }
            Err(fault) => {
                self.refused = Some(fault.kind());
                Err(fault)
            }
        }
    }
}
