ghost use Rattle.std.specs.Prelude.{◌≡◌, Some, false, true};

use std::io;
use std::io::{ErrorKind, Read};

/// A reader that gives a few bytes in each read, and is interrupted before each. After the last byte it is at its end,
/// or fails at each read.
#[derive(Drop)]
pub struct Slow<'a> {
    bytes: &'a [u8],
    most: usize,
    ready: bool,
    fails: bool,
}

impl<'a> Slow<'a> {
    /// Returns a reader of these bytes that comes to its end, with at most this many bytes in each read.
    pub fn ending(bytes: &'a [u8], most: usize) -> Slow<'a>
        ensures { result.bytes.now ≡ bytes.entry.now }
    {
        Slow {
            bytes,
            most,
            ready: false,
            fails: false,
        }
    }

    /// Returns a reader of these bytes that fails after the last, with at most this many bytes in each read.
    pub fn failing(bytes: &'a [u8], most: usize) -> Slow<'a>
        ensures { result.bytes.now ≡ bytes.entry.now }
    {
        Slow {
            bytes,
            most,
            ready: false,
            fails: true,
        }
    }
}

impl<'a> Read for Slow<'a> {
    ghost use Rattle.std.specs.Prelude.{Some};

    ghost remaining = { λ slow. Some slow.bytes.now };

    fn read(&mut self, buf: &mut [u8]) -> io::Result<usize> {
        self.ready = !self.ready;
        if !self.ready {
            return Err(io::Error::from(ErrorKind::Interrupted));
        }
        if self.bytes.is_empty() && self.fails {
            return Err(io::Error::from(ErrorKind::Other));
        }
        let count = self.bytes.len().min(buf.len()).min(self.most.max(1));
        buf[..count].copy_from_slice(&self.bytes[..count]);
        self.bytes = &self.bytes[count..];
        Ok(count)
    }
}
