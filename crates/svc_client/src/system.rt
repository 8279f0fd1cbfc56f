//! The system's own folders of services.
ghost use Rattle.std.specs.Prelude.{◌≡◌, ◌↔◌, ◌≤◌, ◌<◌, ◌+◌, ◌*◌, ◌^◌, ◌++◌, length, IsTrue, SomeIff};
ghost use Rattle.std.specs.IoError.{error_kind};
ghost use Rattle.svc_client.specs.Paths.{FitsAddress};
ghost use Rattle.svc_client.specs.Connecting.{unreached_by};

use crate::notice::{Notice, NoticeText};
use crate::process::age_at;
use crate::services::{Services, Unreached};
use arrayvec::ArrayString;
use cmd_base::{StatusFront, path_by_descriptor, push_number, read_front};
use mio::net::UnixStream;
use std::env::Env;
use std::fs::{File, Files, Metadata};
use std::io::{Error, ErrorKind, Read, Write};
use std::net::Net;
use std::os::fd::AsRawFd;
use std::os::unix::fs::MetadataExt;
use std::time::Clock;
use std::{fs, io};
use svc_places::service_path;
use svc_record::{STAT_BYTES, living_tick, tick_at};
use tai_status::Cause;

/// The longest path of a socket, in bytes: its address has one more byte, for the zero at the end.
const SOCKET_BYTES: usize = 107;

/// The services of this system. It says nothing to contracts, and needs no memory.
#[derive(Drop)]
pub struct SystemServices<R: Files<File = File> + Net + Env + Clock + Drop> {
    runtime: R,
    /// The tick of the first reading of the clock for an age.
    first: Option<u64>,
}

impl<R: Files<File = File> + Net + Env + Clock + Drop> SystemServices<R> {
    /// Returns the services of this runtime.
    pub fn new(runtime: R) -> SystemServices<R> {
        SystemServices {
            runtime,
            first: None,
        }
    }

    /// Returns how many ticks, at least, the process has lived whose line is at a path.
    fn age_of(&mut self, path: &str) -> Option<u128> {
        let now = tick_at(self.runtime.monotonic().ok()?);
        let first = *self.first.get_or_insert(now);
        let own = living_tick_at(&self.runtime, "/proc/self/stat")?;
        let began = living_tick_at(&self.runtime, path)?;
        Some(age_at(began, own, first, now))
    }
}

/// Returns the tick at which the process began whose line is at a path, if it lives.
fn living_tick_at<R: Files<File = File>>(runtime: &R, path: &str) -> Option<u64> {
    let mut line = [0; STAT_BYTES];
    let mut file = fs::open(runtime, path).ok()?;
    let count = file.read(&mut line).ok()?;
    living_tick(&line[..count.min(STAT_BYTES)])
}

/// Returns whether there is something in the folder of a service.
fn is_there<R: Files + Env>(runtime: &R, folder: &str, rest: &str) -> bool {
    match service_path(runtime, folder, rest) {
        Ok(path) => fs::metadata(runtime, path.as_str()).is_ok(),
        Err(_) => false,
    }
}

/// Returns what there is at the path of the folder of a service.
fn folder_at<R: Files + Env>(runtime: &R, folder: &str) -> io::Result<Metadata> {
    let path = service_path(runtime, folder, "")?;
    fs::metadata(runtime, path.as_str())
}

/// Returns whether the path of a name in a folder fits into the address of a socket.
fn is_short(folder: &str, name: &str) -> bool
    ensures { IsTrue result ↔ FitsAddress (folder.now ++ name.now) }
{
    folder.len() + name.len() <= SOCKET_BYTES
}

/// Connects to the socket at a path, without waiting. A socket that has no room for one more connection refuses it.
fn connect_to<R: Files<File = File> + Net>(runtime: &R, path: &str) -> io::Result<UnixStream>
    requires { FitsAddress path.now }
{
    UnixStream::connect(runtime, path)
}

/// Connects to a socket of the service in a folder, without waiting. If the path is too long for a socket, connects
/// through the open folder.
fn connect<R: Files<File = File> + Net + Env>(
    runtime: &R,
    folder: &str,
    name: &str,
) -> io::Result<UnixStream>
    requires { length name.now ≤ 7 }
{
    let mut path = service_path(runtime, folder, "/supervise/")?;
    if is_short(path.as_str(), name) {
        path.push_str(name);
        return connect_to(runtime, path.as_str());
    }
    let opened = fs::open(runtime, path.as_str())?;
    let short = path_by_descriptor::<SOCKET_BYTES>(opened.as_raw_fd().unsigned_abs(), name);
    connect_to(runtime, short.as_str())
}

/// Returns what a fault of a connection says about the service.
fn unreached(fault: &Error) -> Unreached
    ensures { result ≡ unreached_by (error_kind fault.now) }
{
    match fault.kind() {
        ErrorKind::PermissionDenied => Unreached::Denied,
        ErrorKind::WouldBlock | ErrorKind::BrokenPipe | ErrorKind::ConnectionReset => {
            Unreached::Unanswered
        }
        _ => Unreached::NotRunning,
    }
}

/// Connects to the control socket of the service in a folder, and sends it bytes.
fn send_bytes<R: Files<File = File> + Net + Env>(
    runtime: &R,
    folder: &str,
    bytes: &[u8],
) -> io::Result<()> {
    connect(runtime, folder, "control")?.write_all(bytes)
}

/// Returns this many seconds and nanoseconds in nanoseconds, if they fit into 64 bits.
fn nanoseconds(seconds: u64, rest: u64) -> Option<u64>
    ensures { SomeIff result (seconds * 1000000000 + rest < 2 ^ 64) (seconds * 1000000000 + rest) }
{
    seconds.checked_mul(1_000_000_000)?.checked_add(rest)
}

/// Returns the path of a notice in the folder of a service.
fn notice_path(notice: Notice) -> &'static str {
    match notice {
        Notice::Exit => "/supervise/exit",
        Notice::Ready => "/supervise/ready",
        Notice::Backoff => "/supervise/backoff",
        Notice::Counts => "/supervise/counts",
    }
}

/// Reads a notice of the service in a folder.
fn read_notice<R: Files<File = File> + Env>(
    runtime: &R,
    folder: &str,
    notice: Notice,
) -> io::Result<NoticeText> {
    let path = service_path(runtime, folder, notice_path(notice))?;
    read_front(runtime, path.as_str())
}

/// Returns when a folder was last changed, in nanoseconds since 1970. Returns None for earlier times, and after the
/// year 2554.
fn changed_at(folder: &Metadata) -> Option<u64> {
    let seconds = u64::try_from(folder.mtime()).ok()?;
    let rest = u64::try_from(folder.mtime_nsec()).ok()?;
    nanoseconds(seconds, rest)
}

impl<R: Files<File = File> + Net + Env + Clock + Drop> Services for SystemServices<R> {
    fn send(&mut self, folder: &str, bytes: &[u8]) -> Result<(), Unreached> {
        send_bytes(&self.runtime, folder, bytes).map_err(|fault| unreached(&fault))
    }

    fn reach(&mut self, folder: &str) -> Result<(), Unreached> {
        match connect(&self.runtime, folder, "ok") {
            Ok(_) => Ok(()),
            Err(fault) => Err(unreached(&fault)),
        }
    }

    fn read_status(&mut self, folder: &str) -> io::Result<StatusFront> {
        let path = service_path(&self.runtime, folder, "/supervise/status")?;
        read_front(&self.runtime, path.as_str())
    }

    fn has_down(&mut self, folder: &str) -> bool {
        is_there(&self.runtime, folder, "/down")
    }

    fn has_finish(&mut self, folder: &str) -> bool {
        is_there(&self.runtime, folder, "/finish")
    }

    fn read_notice(&mut self, folder: &str, notice: Notice) -> Option<NoticeText> {
        read_notice(&self.runtime, folder, notice).ok()
    }

    fn changed_at(&mut self, folder: &str) -> Option<u64> {
        let path = service_path(&self.runtime, folder, "/supervise").ok()?;
        let found = fs::metadata(&self.runtime, path.as_str()).ok()?;
        changed_at(&found)
    }

    fn folder_fault(&mut self, folder: &str) -> Option<Cause> {
        match folder_at(&self.runtime, folder) {
            Ok(found) if found.is_dir() => None,
            Ok(_) => Some(Cause::NoFolder),
            Err(fault) => Some(Cause::of(&fault)),
        }
    }

    fn age(&mut self, process: u32) -> Option<u128> {
        let mut path = ArrayString::<32>::new();
        path.push_str("/proc/");
        push_number(&mut path, u64::from(process));
        path.push_str("/stat");
        self.age_of(path.as_str())
    }
}
