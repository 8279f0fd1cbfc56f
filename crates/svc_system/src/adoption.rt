//! The one thread that watches the processes that an earlier svscan started, and the FIFOs on which processes say that
//! they are ready.
ghost use Rattle.std.specs.Prelude.{◌≡◌, IfErr, IfOk};
ghost use Rattle.svc_system.specs.Adoption.{is_unchanged};

use crate::listening::{Listened, Listening};
use crate::processes::{AdoptedProcess, StatSource, folder_of, has_ended, lives_by};
use cmd_base::SystemClock;
use mio::{Events, Poll, Registry, Token, Waker};
use std::alloc::{AllocError, Global};
use std::net::Net;
use std::sync::atomic::{AtomicBool, AtomicU64, Ordering};
use std::sync::{Arc, Mutex, Wait};
use std::thread::{Builder, Threads};
use std::time::{Clock, Duration};
use std::{io, thread};
use svc_house::{News, Notifier};
use svc_record::Stat;
use tai_status::TimeSource;

/// The seconds between two looks at the adopted processes.
const LOOK_SECONDS: u64 = 1;

/// Every look whose number is a multiple of this checks whether a process has ended and waits for its parent. The
/// others check whether another process has its number.
const ENDS_EVERY: u64 = 2;

/// The most events that one poll gives.
const EVENTS: usize = 64;

/// How many milliseconds the thread rests after a poll failed.
const FAILED: u64 = 100;

/// The token of the waker: no descriptor has this number.
const WAKER: Token = Token(usize::MAX);

/// The inode number of a process's folder in /proc if it is not known. No folder has this number.
const UNKNOWN: u64 = 0;

/// An adopted process, and the notifier that its service waits for.
#[derive(Drop)]
struct Adopted {
    process: AdoptedProcess,
    notifier: Arc<Notifier, Global>,
    /// The inode number of the process's folder in /proc when its line was last read.
    folder: AtomicU64,
}

/// What one call of the system shows of an adopted process.
#[derive(Clone, Copy, Debug, PartialEq, Eq)]
enum Glance {
    /// The inode number of its folder in /proc. The folder of a later process with the same process number has another
    /// inode number.
    Folder(u64),
    /// Whether it may have ended and wait for its parent.
    End(bool),
}

/// Returns whether one call of the system shows that a process is the known one and lives. If not, its line is read.
fn is_unchanged(known: u64, glance: Glance) -> bool
    ensures { result ≡ is_unchanged known glance }
{
    known != UNKNOWN
        && match glance {
            Glance::Folder(number) => number == known,
            Glance::End(has_ended) => !has_ended,
        }
}

/// Returns the folder's number to compare with at the next look. A folder is known only if the line was read after the
/// folder was found, because another process may have it.
fn known_by(line: &io::Result<Option<Stat>>, found: u64) -> u64
    ensures read { IfOk line.now (λ _. result ≡ found) }
    ensures unread { IfErr line.now (λ _. result ≡ 0) }
{
    match line {
        Ok(_) => found,
        Err(_) => UNKNOWN,
    }
}

/// Returns the inode number of a process's folder in /proc, if the kernel says it.
fn folder_number(files: &HostRuntime, pid: u32) -> u64 {
    match folder_of(files, pid) {
        Ok(Some(number)) => number,
        _ => UNKNOWN,
    }
}

impl Adopted {
    /// Returns whether the process still lives. A look makes one call of the system if that shows no change, and
    /// otherwise reads the process's line in /proc. If the kernel can't be asked, the process counts as alive.
    fn lives(&self, looks_for_end: bool) -> bool {
        let AdoptedProcess { files, pid, tick } = &self.process;
        let glance = if looks_for_end {
            Glance::End(has_ended(files, *pid))
        } else {
            Glance::Folder(folder_number(files, *pid))
        };
        if is_unchanged(self.folder.load(Ordering::SeqCst), glance) {
            return true;
        }
        let found = folder_number(files, *pid);
        let line = files.stat_of(*pid);
        self.folder.store(known_by(&line, found), Ordering::SeqCst);
        lives_by(line, *tick)
    }
}

/// What the thread shares with those who adopt processes, and those who have FIFOs watched.
#[derive(Drop)]
struct WatchState {
    adopted: Mutex<Vec<Adopted>>,
    listening: Mutex<Listening>,
    closed: AtomicBool,
    registry: Registry,
    waker: Waker,
}

/// A thread that checks once a second whether the adopted processes live, and notifies the service of each one that
/// does not. The service itself then finds that its process is gone. The thread also notifies a service whose process
/// says that it is ready.
pub struct AdoptionWatch {
    state: Arc<WatchState, Global>,
}

impl Drop for AdoptionWatch {
    fn drop(self) {
        let AdoptionWatch { state } = self;
        state.closed.store(true, Ordering::SeqCst);
        let _ = state.waker.wake();
    }
}

impl AdoptionWatch {
    /// Starts the thread. No process is adopted yet, and no FIFO is watched.
    pub fn open<R: Net + Threads + Wait + Clock + Copy + Send + Drop + 'static>(
        rt: &R,
        alloc: Global,
    ) -> io::Result<AdoptionWatch> {
        let poll = Poll::new(rt)?;
        let events = Events::with_capacity(alloc, EVENTS)?;
        let state = WatchState {
            adopted: Mutex::new(Vec::new(alloc)),
            listening: Mutex::new(Listening::new(alloc)),
            closed: AtomicBool::new(false),
            registry: poll.registry().try_clone()?,
            waker: Waker::new(poll.registry(), WAKER)?,
        };
        let state = Arc::new(alloc, state)?;
        let theirs = Arc::try_clone(&state)?;
        start(*rt, poll, events, theirs)?;
        Ok(AdoptionWatch { state })
    }

    /// Watches a process from now on, and notifies its service once the process is gone.
    pub(crate) fn add<R: Wait>(
        &self,
        rt: &R,
        process: AdoptedProcess,
        notifier: Arc<Notifier, Global>,
    ) -> Result<(), AllocError> {
        let adopted = Adopted {
            process,
            notifier,
            folder: AtomicU64::new(UNKNOWN),
        };
        self.state.adopted.lock(rt).push(adopted)?;
        let _ = self.state.waker.wake();
        Ok(())
    }

    /// Watches a FIFO from now on, until its process says that it is ready.
    pub(crate) fn listen<R: Wait>(&self, rt: &R, one: Listened) -> io::Result<()> {
        self.state.listening.lock(rt).add(&self.state.registry, one)
    }

    /// Watches the FIFO with this number no longer.
    pub(crate) fn ignore<R: Wait>(&self, rt: &R, number: usize) {
        self.state.listening.lock(rt).ignore(number);
    }
}

/// Starts the thread.
fn start<R: Threads + Wait + Clock + Copy + Send + Drop + 'static>(
    rt: R,
    poll: Poll,
    events: Events<Global>,
    state: Arc<WatchState, Global>,
) -> io::Result<()> {
    Builder::new()
        .stack_size(1)
        .spawn(&rt, move || watch(rt, poll, events, &state))?;
    Ok(())
}

/// Looks repeatedly until the watch is closed. Rests without a time limit while no process is adopted.
fn watch<R: Wait + Clock + Copy + Drop>(
    rt: R,
    mut poll: Poll,
    mut events: Events<Global>,
    state: &WatchState,
) {
    let mut looks: u64 = 0;
    for _ in rt.forever() {
        if state.closed.load(Ordering::SeqCst) {
            return;
        }
        looks = looks.wrapping_add(1);
        let longest = if look(&rt, state, looks % ENDS_EVERY == 0) {
            Some(Duration::from_secs(LOOK_SECONDS))
        } else {
            None
        };
        if poll.poll(&mut events, longest).is_err() {
            thread::sleep(&rt, Duration::from_millis(FAILED));
        }
        hear(rt, &events, state);
    }
}

/// Reads the FIFOs that have something to read.
fn hear<R: Wait + Clock + Copy + Drop>(rt: R, events: &Events<Global>, state: &WatchState) {
    let mut clock = SystemClock::new(rt);
    for event in events.iter() {
        let Token(number) = event.token();
        state.listening.lock(&rt).hear(&rt, number, clock.now());
    }
}

/// Looks at each process once. Returns whether any still lives.
fn look<R: Wait>(rt: &R, state: &WatchState, looks_for_ends: bool) -> bool {
    let mut adopted = state.adopted.lock(rt);
    adopted.retain(|one| {
        let lives = one.lives(looks_for_ends);
        if !lives {
            one.notifier.notify(News::seen());
        }
        lives
    });
    !adopted.is_empty()
}
