//! The traces of services, as a client reads them.
use cmd_base::check_file;
use std::alloc::Allocator;
use std::io::{Error, ErrorKind, Read};
use std::{fs, io};
use svc_places::service_path;

/// The most bytes in a trace: the text of 65,536 entries is shorter. A longer file is not a trace.
const TRACE_BYTES: u64 = 1 << 22;

/// The traces of services. Contracts see their bytes, if the type says so.
pub trait Traces {
    ghost use Rattle.std.specs.Prelude.{ℕ, List, Option, None, IfOk, IfErr};
    ghost use Rattle.cmd_base.specs.Known.{IsKnown, IsMissed};

    // the bytes of the trace of the service in a folder
    ghost trace_at: { Self → List ℕ → Option (List ℕ) } = { λ _ _. None };

    /// Returns all bytes of the trace of the service in a folder.
    fn read_trace<A: Allocator>(&self, alloc: A, folder: &str) -> io::Result<Vec<u8, A>>
        ensures known { IfOk result (λ bytes. IsKnown (trace_at self.now folder.now) bytes.items) }
        ensures missing { IfErr result (λ fault. IsMissed fault (trace_at self.now folder.now)) };
}

/// The services of this system. They say nothing to contracts.
impl Traces for HostRuntime {
    fn read_trace<A: Allocator>(&self, alloc: A, folder: &str) -> io::Result<Vec<u8, A>> {
        let path = service_path(self, folder, "/supervise/trace")?;
        check_file(self, path.as_str())?;
        if fs::metadata(self, path.as_str())?.len() > TRACE_BYTES {
            return Err(Error::from(ErrorKind::InvalidInput));
        }
        let mut bytes = Vec::new(alloc);
        fs::open(self, path.as_str())?
            .take(TRACE_BYTES)
            .read_to_end(&mut bytes)?;
        Ok(bytes)
    }
}
