//! Processes of this system that are not children of this one.
ghost use Rattle.std.specs.Prelude.{◌≡◌, ◌↔◌, ◌<◌, ◌≤◌, length, take, option_and_then, false, true};
ghost use Rattle.std.specs.Prelude.{IfErr, IfOk, IfSome, IsTrue};
ghost use Rattle.svc_system.specs.Commands.{path_of_process};
ghost use Rattle.svc_record.specs.Stats.{living_tick};
ghost use Rattle.svc_system.specs.Stats.{IsChildOf, LivesSince};

use crate::folder::ShortPath;
use crate::neighbours::Near;
use arrayvec::ArrayString;
use cmd_base::{push_number, read_front};
use std::alloc::Global;
use std::fs::{File, Files};
use std::io::Read;
use std::os::unix::fs::MetadataExt;
use std::{fs, io};
use sup_core::read_number;
use svc_record::{
    BootId, Intent, Place, ProcessId, STAT_BYTES, Seen, Stat, may_be_started, read_process,
};
use tai_status::Want;

/// The error number for a process that is gone (errno(3)).
const ESRCH: i32 = 3;

/// Returns the path of a name in the kernel's folder of a process.
pub(crate) fn path_of_process(pid: u32, name: &str) -> ShortPath
    requires { length name.now ≤ 23 }
    ensures { result.bytes ≡ path_of_process pid name.now }
{
    let mut path = ArrayString::new();
    path.push_str("/proc/");
    push_number(&mut path, u64::from(pid));
    path.push_str("/");
    path.push_str(name);
    path
}

/// Reads the kernel's lines about processes. Contracts see what is reported for a process number, if that is known.
pub(crate) trait StatSource {
    ghost use Rattle.std.specs.Prelude.{◌≡◌, ℕ, Option, None, IfOk, IfSome};
    ghost use Rattle.svc_record.specs.declared.stat.Stat.{Stat};

    // what is reported for a process number, if there is such a process
    ghost stat_at: { Self → ℕ → Option (Option Stat) } = { λ _ _. None };

    /// Returns what the kernel says about the process with this number, if there is one. A fault says why the kernel
    /// can't be asked.
    fn stat_of(&self, pid: u32) -> io::Result<Option<Stat>>
        ensures { IfOk result (λ found. IfSome (stat_at self.now pid) (λ reported. found ≡ reported)) };
}

/// The system's own processes. They say nothing to contracts.
impl StatSource for HostRuntime {
    fn stat_of(&self, pid: u32) -> io::Result<Option<Stat>> {
        stat_of(self, pid)
    }
}

/// Returns what the kernel says about the process with this number, if there is one, in one read. A fault says why the
/// kernel can't be asked, for example out of descriptors. Seeing that a process is gone needs no descriptor.
#[inline(never)]
fn stat_of<R: Files<File = File>>(files: &R, pid: u32) -> io::Result<Option<Stat>> {
    if folder_of(files, pid)?.is_none() {
        return Ok(None);
    }
    let path = path_of_process(pid, "stat");
    let mut file = match fs::open(files, path.as_str()) {
        Ok(file) => file,
        Err(fault) if fault.kind() == io::ErrorKind::NotFound => return Ok(None),
        Err(fault) => return Err(fault),
    };
    let mut line = [0; STAT_BYTES];
    match file.read(&mut line) {
        Ok(count) => Ok(Stat::read(&line[..count.min(STAT_BYTES)])),
        Err(fault) if fault.raw_os_error() == Some(ESRCH) => Ok(None),
        Err(fault) => Err(fault),
    }
}

/// Returns the tick at which the living process with this number began, if there is one. A fault says why the kernel
/// can't be asked.
pub(crate) fn tick_of<S: StatSource>(processes: &S, pid: u32) -> io::Result<Option<u64>>
    ensures { IfOk result (λ tick.
        IfSome (S.stat_at processes.now pid) (λ reported. tick ≡ option_and_then living_tick reported)) }
{
    match processes.stat_of(pid)? {
        Some(stat) => Ok(stat.living_tick()),
        None => Ok(None),
    }
}

/// Returns whether a process is a child of the one with this number, from what was found for it. If the kernel could not
/// be asked, it does not count as one.
pub(crate) fn is_child_by(found: io::Result<Option<Stat>>, parent: u32) -> bool
    ensures asked { IfOk found (λ stat. IsTrue result ↔ IsChildOf parent stat) }
    ensures unasked { IfErr found (λ _. result ≡ false) }
{
    match found {
        Ok(Some(stat)) => stat.is_child_of(parent),
        _ => false,
    }
}

/// Returns whether the process that began at this tick lives, from what was found for its number. If the kernel could
/// not be asked, it counts as alive: if it were taken for dead, the service would be started twice.
pub(crate) fn lives_by(found: io::Result<Option<Stat>>, tick: u64) -> bool
    ensures asked { IfOk found (λ stat. LivesSince tick stat result) }
    ensures unasked { IfErr found (λ _. result ≡ true) }
{
    match found {
        Ok(Some(stat)) => stat.lives_since(tick),
        Ok(None) => false,
        Err(_) => true,
    }
}

/// Returns whether the process with this number that began at this tick is not known to be gone.
fn lives<S: StatSource>(processes: &S, pid: u32, tick: u64) -> bool
    ensures { result ≡ false → IfSome (S.stat_at processes.now pid) (λ reported. LivesSince tick reported false) }
{
    lives_by(processes.stat_of(pid), tick)
}

/// This process, which is an svscan: the boot and the first process under which it runs, and its session.
#[derive(Clone, Copy, Debug, PartialEq, Eq)]
pub struct OwnRun {
    pub boot: Option<BootId>,
    /// The tick at which the first process began.
    pub init: u64,
    pub session: u64,
    pub pid: u32,
    /// The tick at which this process began.
    pub tick: u64,
}

/// Returns what the kernel says about the process with this number, if it says anything.
fn known_stat(files: &HostRuntime, pid: u32) -> Option<Stat> {
    match files.stat_of(pid) {
        Ok(found) => found,
        Err(_) => None,
    }
}

/// The boot in the place of a service if the kernel does not name the boot. No svscan accepts such a place.
const UNKNOWN_BOOT: BootId = [b'-'; 36];

/// The number of the first process.
const INIT: u32 = 1;

impl OwnRun {
    /// Returns whether this process runs in that boot.
    pub(crate) fn is_in(&self, boot: &BootId) -> bool {
        match self.boot {
            Some(own) => own == *boot,
            None => false,
        }
    }

    /// Returns whether the folder in which this process of this boot runs names it as the process of its service.
    fn names_there<R: Files<File = File>>(&self, files: &R, pid: u32, tick: u64) -> bool {
        match self.boot {
            Some(boot) => is_named_there(files, &ProcessId { pid, tick, boot }),
            None => false,
        }
    }

    /// Returns the place of a service that has not been started in this run of the system.
    pub fn vacant(&self) -> Place {
        Place {
            pid: 0,
            tick: 0,
            session: self.session,
            init: self.init,
            want: Want::Up,
            is_finish: false,
            boot: self.boot.unwrap_or(UNKNOWN_BOOT),
        }
    }

    /// Returns what the kernel says about this process, which has this number. What it does not say is 0.
    pub fn find(files: &HostRuntime, pid: u32) -> OwnRun {
        let own = known_stat(files, pid);
        let init = known_stat(files, INIT);
        OwnRun {
            boot: boot_id(files),
            init: init.map_or(0, |stat| stat.tick),
            session: own.map_or(0, |stat| stat.session),
            pid,
            tick: own.map_or(0, |stat| stat.tick),
        }
    }
}

/// Returns whether the folder in which a process runs names it as the process of its service.
#[inline(never)]
pub(crate) fn is_named_there<R: Files<File = File>>(files: &R, process: &ProcessId) -> bool {
    let path = path_of_process(process.pid, "cwd/supervise/process");
    match read_front::<R, 128>(files, path.as_str()) {
        Ok(line) => read_process(line.as_slice()) == Some(*process),
        Err(_) => false,
    }
}

/// Returns all processes of the system as they are seen now. For those that began since the intent, `is_here` says
/// whether they are the service's. For the others that began since then, the neighbour in whose folder they run is
/// looked up. If one of them may be the process of the start, it is looked up whether the folder in which it runs names
/// it as the process of its own service.
#[inline(never)]
pub(crate) fn see_all<R: Files<File = File> + StatSource, F: Fn(u32) -> bool>(
    files: &R,
    alloc: Global,
    own: &OwnRun,
    intent: &Intent,
    near: &Near,
    is_here: F,
) -> io::Result<Vec<Seen>>
    requires { F.IsAlwaysCallable is_here }
{
    let mut all = Vec::new(alloc);
    for entry in fs::read_dir(&(files, &alloc), "/proc")? {
        let entry = entry?;
        let Some(pid) = read_number(entry.file_name().as_bytes()) else {
            continue;
        };
        let Ok(pid) = u32::try_from(pid) else {
            continue;
        };
        if let Some(stat) = files.stat_of(pid)? {
            let mut seen = stat.seen(pid);
            seen.is_known = pid == own.pid || is_among(&near.known, pid, seen.tick);
            seen.is_late = seen.session == own.session && seen.tick > own.tick;
            if seen.tick >= intent.tick {
                seen.is_here = is_here(pid);
                if !seen.is_here {
                    seen.neighbour = near.folder_of(files, pid);
                    seen.is_elsewhere = may_be_started(intent, &seen)
                        && own.names_there(files, pid, seen.tick);
                }
            }
            all.push(seen)?;
        }
    }
    Ok(all)
}

/// Returns whether the process with this number, which began at this tick, is in this list.
fn is_among(known: &[ProcessId], pid: u32, tick: u64) -> bool {
    known.iter().any(|one| one.pid == pid && one.tick == tick)
}

/// Returns the boot, if the kernel names it.
pub fn boot_id<R: Files<File = File>>(files: &R) -> Option<BootId> {
    let front = read_front::<R, 36>(files, "/proc/sys/kernel/random/boot_id").ok()?;
    BootId::try_from(front.as_slice()).ok()
}

/// Returns the inode number of the kernel's folder of a process, if it has one. No other process's folder has that
/// number.
#[inline(never)]
pub(crate) fn folder_of<R: Files<File = File>>(files: &R, pid: u32) -> io::Result<Option<u64>> {
    let path = path_of_process(pid, "");
    match fs::metadata(files, path.as_str()) {
        Ok(found) => Ok(Some(found.ino())),
        Err(fault) if fault.kind() == io::ErrorKind::NotFound => Ok(None),
        Err(fault) => Err(fault),
    }
}

/// Returns whether the process with this number may have ended and wait for its parent: it no longer runs in any
/// folder. This takes one look, which needs no descriptor. If the kernel does not say, the process may have ended.
#[inline(never)]
pub(crate) fn has_ended<R: Files<File = File>>(files: &R, pid: u32) -> bool {
    fs::metadata(files, path_of_process(pid, "cwd").as_str()).is_err()
}

/// A process that is not a child of this one. Its tick keeps it from being mistaken for another.
#[derive(Clone, Copy)]
pub(crate) struct AdoptedProcess {
    pub(crate) files: HostRuntime,
    pub(crate) pid: u32,
    pub(crate) tick: u64,
}

impl AdoptedProcess {
    /// Returns whether it lives, as far as is known.
    pub(crate) fn lives(&self) -> bool {
        lives(&self.files, self.pid, self.tick)
    }
}
