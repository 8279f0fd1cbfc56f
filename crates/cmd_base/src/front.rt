//! The fronts of small files.
ghost use Rattle.std.specs.Prelude.{◌<◌, length, take, IfOk};
ghost use Rattle.std.specs.Io.{ReadsAtMost};
ghost use Rattle.std.specs.Io.KnownBytes.{Consumes, IsAtEnd};

use arrayvec::ArrayVec;
use std::fs::{File, Files};
use std::io::{Error, ErrorKind, Read};
use std::{fs, io};

/// Refuses what is at a path, with `InvalidInput`, if it is something other than a file: to open it could wait.
#[inline(never)]
pub fn check_file<R: Files<File = File>>(runtime: &R, path: &str) -> io::Result<()> {
    if fs::metadata(runtime, path)?.is_file() {
        Ok(())
    } else {
        Err(Error::from(ErrorKind::InvalidInput))
    }
}

/// Fills a buffer from its start with bytes from a reader, in as many reads as that takes. Returns how many bytes these
/// were: fewer than there is room for only if the reader is at its end. After a fault the bytes read so far are lost.
fn fill<R: Read>(reader: &mut R, buffer: &mut [u8]) -> io::Result<usize>
    ensures bound { ReadsAtMost result buffer.new }
    ensures given { IfOk result (λ count. Consumes (R.remaining reader.old) (R.remaining reader.new)
        (take count buffer.new)) }
    ensures whole { IfOk result (λ count. count < length buffer.old → IsAtEnd (R.remaining reader.new)) }
{
    let mut filled = 0;
    while filled < buffer.len() {
        let count = reader.read(&mut buffer[filled..])?;
        if count == 0 {
            return Ok(filled);
        }
        filled += count;
    }
    Ok(filled)
}

/// Returns the first bytes of the file at a path. If something other than a file is there, it is not opened.
#[inline(never)]
pub fn read_front<R: Files<File = File>, const N: usize>(
    runtime: &R,
    path: &str,
) -> io::Result<ArrayVec<u8, N>> {
    check_file(runtime, path)?;
    let mut file = fs::open(runtime, path)?;
    let mut bytes = [0; N];
    let count = fill(&mut file, &mut bytes)?;
    let mut front = ArrayVec::new();
    let _fits = front.try_extend_from_slice(&bytes[..count]);
    Ok(front)
}
