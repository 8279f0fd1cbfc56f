//! The files that commands read.
ghost use Rattle.std.specs.Prelude.{IfOk, IfErr};

use std::alloc::Allocator;
use std::io::Read;
use std::{fs, io};

/// A place that holds files. Contracts see what a file holds, and why a read fails, if the place shows that.
pub trait FileSource {
    ghost use Rattle.std.specs.Prelude.{ℕ, List, Option, None};
    ghost use Rattle.std.specs.IoError.{error_kind};
    ghost use Rattle.std.specs.declared.io.ErrorKind.{ErrorKind};
    ghost use Rattle.cmd_base.specs.Known.{IsKnown, IsMissed};

    // the bytes of the file at a path
    ghost file_at: { Self → List ℕ → Option (List ℕ) } = { λ _ _. None };

    // the kind of error of a read of the file at a path, if that read fails
    ghost fault_at: { Self → List ℕ → Option ErrorKind } = { λ _ _. None };

    /// Reads all bytes of the file at a path.
    fn read_file<A: Allocator>(&self, alloc: A, path: &str) -> io::Result<Vec<u8, A>>
        ensures known { IfOk result (λ bytes. IsKnown (file_at self.now path.now) bytes.items) }
        ensures missing { IfErr result (λ fault. IsMissed fault (file_at self.now path.now)) }
        ensures fault { IfErr result (λ fault. IsKnown (fault_at self.now path.now) (error_kind fault)) };
}

/// The system's own files. They show nothing to contracts.
impl FileSource for HostRuntime {
    fn read_file<A: Allocator>(&self, alloc: A, path: &str) -> io::Result<Vec<u8, A>> {
        let mut bytes = Vec::new(alloc);
        fs::open(self, path)?.read_to_end(&mut bytes)?;
        Ok(bytes)
    }
}
