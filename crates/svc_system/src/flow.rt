//! How the output of a service flows to its logger. The flow is counted, and it can be ended while the service runs.
ghost use Rattle.std.specs.Prelude.{◌≡◌, ◌≤◌, [], ◌∷◌, IfOk, OnErr};
ghost use Rattle.std.specs.Io.{ReadsAtMost, WritesAtMost};
ghost use Rattle.std.specs.Io.KnownBytes.{ReadConsumes, WriteAppends};
ghost use Rattle.tai_status.specs.Extended.{Extended};
ghost use Rattle.svc_system.specs.Flow.{is_over_after, is_watch_asked, wait_millis};

use libc::net::{POLLIN, poll};
use libc::types::pollfd;
use std::alloc::Global;
use std::fs::File;
use std::io;
use std::io::{Error, ErrorKind, PipeReader, PipeWriter, Read, Write};
use std::os::fd::AsRawFd;
use std::sync::Arc;
use std::sync::atomic::{AtomicBool, AtomicU64, Ordering};

/// The milliseconds that an output waits for bytes before it checks whether it is to end, once outputs may be ended.
const PAUSE_MILLIS: i32 = 20;

/// The most times that a wait is repeated.
const TRIES: u64 = 1 << 48;

/// The number of bytes that the system writes to a pipe completely or not at all.
const WHOLE: usize = 4096;

/// The counts of a service's output, and whether that output is to end.
#[derive(Drop)]
pub struct Flow {
    taken: AtomicU64,
    put: AtomicU64,
    ends: AtomicBool,
    ends_at_once: AtomicBool,
}

/// Counts the bytes that flow. Contracts see what was counted, in order (`counted`), while that is recorded.
trait ByteCounter {
    ghost use Rattle.std.specs.Prelude.{ℕ, Option, None, List, [], ◌∷◌};
    ghost use Rattle.tai_status.specs.Extended.{Extended};

    ghost counted: { Self → Option (List ℕ) } = { λ _. None };

    /// Counts this many more bytes.
    fn count(&mut self, more: usize)
        ensures { Extended (counted self.old) (counted self.new) (more ∷ []) };
}

/// A count of a flow that only one thread changes. It says nothing to contracts.
#[derive(Drop)]
struct FlowCount<'a> {
    bytes: &'a AtomicU64,
}

impl ByteCounter for FlowCount<'_> {
    fn count(&mut self, more: usize) {
        let before = self.bytes.load(Ordering::SeqCst);
        self.bytes
            .store(before.saturating_add(more as u64), Ordering::SeqCst);
    }
}

/// Reads once, and counts the bytes that were read.
fn read_counted<R: Read, C: ByteCounter>(
    reader: &mut R,
    counter: &mut C,
    into: &mut [u8],
) -> io::Result<usize>
    ensures bound { ReadsAtMost result into.new }
    ensures bytes { ReadConsumes (R.remaining reader.old) (R.remaining reader.new) result into.new }
    ensures counted { IfOk result (λ count. Extended (C.counted counter.old) (C.counted counter.new) (count ∷ [])) }
    ensures none { OnErr result (C.counted counter.new ≡ C.counted counter.old) }
{
    let count = reader.read(into)?;
    counter.count(count);
    Ok(count)
}

/// Writes once a front of these bytes, no longer than the system takes as a whole, and counts the bytes taken.
fn write_counted<W: Write, C: ByteCounter>(
    writer: &mut W,
    counter: &mut C,
    bytes: &[u8],
) -> io::Result<usize>
    ensures whole { IfOk result (λ count. count ≤ WHOLE) }
    ensures bound { WritesAtMost result bytes.now }
    ensures bytes { WriteAppends (W.contents writer.old) (W.contents writer.new) result bytes.now }
    ensures counted { IfOk result (λ count. Extended (C.counted counter.old) (C.counted counter.new) (count ∷ [])) }
    ensures none { OnErr result (C.counted counter.new ≡ C.counted counter.old) }
{
    let count = writer.write(&bytes[..bytes.len().min(WHOLE)])?;
    counter.count(count);
    Ok(count)
}

impl Flow {
    /// Makes a flow in which nothing has flowed yet.
    pub(crate) const fn new() -> Flow {
        Flow {
            taken: AtomicU64::new(0),
            put: AtomicU64::new(0),
            ends: AtomicBool::new(false),
            ends_at_once: AtomicBool::new(false),
        }
    }

    /// Ends the output: at once, or when there is nothing to read for now.
    pub fn end(&self, at_once: bool) {
        if at_once {
            self.ends_at_once.store(true, Ordering::SeqCst);
        }
        self.ends.store(true, Ordering::SeqCst);
    }

    /// Returns how many bytes were read from the output and not yet put into the input of its logger.
    pub fn between(&self) -> u64 {
        let put = self.put.load(Ordering::SeqCst);
        self.taken.load(Ordering::SeqCst).saturating_sub(put)
    }
}

/// Returns how an output waits for bytes: whether it also watches for the moment when outputs may be ended, and for how
/// many milliseconds it waits at most. A negative number means without limit.
fn wait_of(ends: bool, is_watched: bool) -> (bool, i32)
    ensures asked { result.0 ≡ is_watch_asked ends is_watched }
    ensures millis { result.1 ≡ wait_millis ends is_watched }
{
    match (ends, is_watched) {
        (true, _) => (false, 0),
        (false, true) => (false, PAUSE_MILLIS),
        (false, false) => (true, -1),
    }
}

/// Returns whether an output is over, after a wait that found something to read (`is_ready`) or nothing. `ends` says
/// whether the output is to end. None means that it waits again.
fn is_over_after(ends: bool, is_ready: bool) -> Option<bool>
    ensures { result ≡ is_over_after ends is_ready }
{
    if is_ready || ends {
        Some(!is_ready)
    } else {
        None
    }
}

/// Waits until the first descriptor has something to read, or the second one, if given, is at its end. Waits at most
/// this many milliseconds; a negative number means without limit. Returns whether each of the two is so.
fn wait_for_either(first: i32, second: Option<i32>, millis: i32) -> io::Result<(bool, bool)> {
    let mut asked = [first, second.unwrap_or(-1)].map(|fd| pollfd {
        fd,
        events: POLLIN,
        revents: 0,
    });
    if poll(&mut asked, millis) < 0 {
        let fault = Error::from_raw_os_error(os::errno());
        if fault.kind() == ErrorKind::Interrupted {
            return Ok((false, false));
        }
        return Err(fault);
    }
    Ok((asked[0].revents != 0, asked[1].revents != 0))
}

/// Returns whether a logger's input has nothing to read for now.
pub fn is_read(input: &PipeReader) -> bool {
    let mut asked = [pollfd {
        fd: input.as_raw_fd(),
        events: POLLIN,
        revents: 0,
    }];
    poll(&mut asked, 0) <= 0 || asked[0].revents & POLLIN == 0
}

/// Reads a logger's input to its end, and returns the number of bytes.
pub fn drain(input: &PipeReader) -> io::Result<u64> {
    let mut input = input.try_clone()?;
    io::copy(&mut input, &mut io::sink())
}

/// The reading end of a service's output. It ends if nobody has the writing end, or if it is asked to end.
#[derive(Drop)]
pub struct ServiceOutput {
    file: File,
    // This pipe is at its end once outputs may be asked to end.
    watch: Arc<PipeReader, Global>,
    flow: Arc<Flow, Global>,
    is_watched: bool,
}

impl ServiceOutput {
    /// Makes this end. Once the pipe `watch` is at its end, the output checks whether the flow is to end.
    pub(crate) fn new(
        file: File,
        watch: Arc<PipeReader, Global>,
        flow: Arc<Flow, Global>,
    ) -> ServiceOutput {
        ServiceOutput {
            file,
            watch,
            flow,
            is_watched: false,
        }
    }

    /// Waits until there is something to read, or the output is asked to end. Returns whether it is over.
    fn is_over(&mut self) -> io::Result<bool> {
        for _ in 0..TRIES {
            if self.flow.ends_at_once.load(Ordering::SeqCst) {
                return Ok(true);
            }
            let ends = self.flow.ends.load(Ordering::SeqCst);
            let (is_asked, millis) = wait_of(ends, self.is_watched);
            let watch = is_asked.then_some(self.watch.as_raw_fd());
            let (is_ready, is_watched) = wait_for_either(self.file.as_raw_fd(), watch, millis)?;
            if let Some(is_over) = is_over_after(ends, is_ready) {
                return Ok(is_over);
            }
            if is_watched {
                self.is_watched = true;
            }
        }
        Err(Error::from(ErrorKind::Interrupted))
    }
}

impl Read for ServiceOutput {
    fn read(&mut self, into: &mut [u8]) -> io::Result<usize> {
        if self.is_over()? {
            return Ok(0);
        }
        let mut taken = FlowCount {
            bytes: &self.flow.taken,
        };
        read_counted(&mut self.file, &mut taken, into)
    }
}

/// The writing end of a logger's input. It never takes more at once than the system takes as a whole, so that at any
/// moment it is known what was put.
#[derive(Drop)]
pub struct LoggerInput {
    pipe: PipeWriter,
    flow: Arc<Flow, Global>,
}

impl LoggerInput {
    /// Makes this end, with the flow that counts the bytes it took.
    pub fn new(pipe: PipeWriter, flow: Arc<Flow, Global>) -> LoggerInput {
        LoggerInput { pipe, flow }
    }
}

impl Write for LoggerInput {
    fn write(&mut self, bytes: &[u8]) -> io::Result<usize> {
        let mut put = FlowCount {
            bytes: &self.flow.put,
        };
        write_counted(&mut self.pipe, &mut put, bytes)
    }

    fn flush(&mut self) -> io::Result<()> {
        Ok(())
    }
}
