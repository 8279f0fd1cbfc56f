//! What a connection gives.
ghost use Rattle.std.specs.Prelude.{◌≡◌};
ghost use Rattle.svc_door.specs.Hearing.{heard_of};

use std::io;
use std::io::{ErrorKind, Read};

/// The result of one read of a connection.
#[derive(Clone, Copy, Debug, PartialEq, Eq)]
pub enum Heard {
    /// It gave this many bytes, at least one.
    Bytes(usize),
    /// It has no bytes for now.
    Nothing,
    /// It has ended.
    End,
    /// It failed.
    Fault,
}

/// A connection that is read. Contracts see the bytes that it has left, if they are known (`left`), and the result of
/// the last read, if it keeps that (`said`).
pub trait ByteSource {
    ghost use Rattle.std.specs.Prelude.{◌≡◌, ◌<◌, ℕ, Option, None, List, length, IfSome};
    ghost use Rattle.svc_door.specs.declared.byte_source.Heard.{Heard};
    ghost use Rattle.svc_door.specs.Hearing.{Hears};

    ghost left: { Self → Option (List ℕ) } = { λ _. None };

    ghost said: { Self → Option Heard } = { λ _. None };

    /// Reads once, into a buffer that has room. It does not wait.
    fn hear(&mut self, into: &mut [u8]) -> Heard
        requires { 0 < length into.old }
        ensures heard { Hears (left self.old) (left self.new) result into.new }
        ensures said { IfSome (said self.new) (λ heard. heard ≡ result) };
}

/// Returns what the result of a read means. `None`: it was interrupted, and is tried again.
fn heard_of(answer: io::Result<usize>) -> Option<Heard>
    ensures { result ≡ heard_of answer }
{
    match answer {
        Ok(0) => Some(Heard::End),
        Ok(count) => Some(Heard::Bytes(count)),
        Err(fault) => match fault.kind() {
            ErrorKind::Interrupted => None,
            ErrorKind::WouldBlock => Some(Heard::Nothing),
            _ => Some(Heard::Fault),
        },
    }
}

/// A reader is a connection. It does not keep its last result, since a reader over the system knows no past.
impl<S: Read> ByteSource for S {
    ghost left = { S.remaining };

    fn hear(&mut self, into: &mut [u8]) -> Heard {
        for _ in 0..u64::MAX {
            if let Some(heard) = heard_of(self.read(into)) {
                return heard;
            }
        }
        Heard::Fault
    }
}
