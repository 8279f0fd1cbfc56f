//! The resources of a part in a test: a world that responds at once, the reaper of its process, and loggers that keep
//! what they take.
use crate::meeting::{LOOKS, rest};
use std::alloc::{AllocError, Global};
use std::io;
use std::io::Read;
use std::sync::atomic::{AtomicBool, AtomicU64, Ordering};
use std::sync::{Arc, Wait};
use std::time::{Clock, Duration};
use sup_core::Sig;
use svc_host::{Outlets, Reaper};
use svc_house::{News, Notifier, StartAnswer, World};
use svc_relay::outlet::{Outlet, OutletFault};
use tai_status::Label;

/// The state of an actor's process, for its world and for its reaper.
#[derive(Drop)]
pub(crate) struct Process {
    is_dying: AtomicBool,
    is_dead: AtomicBool,
}

impl Process {
    pub(crate) fn new(alloc: Global) -> Result<Arc<Process, Global>, AllocError> {
        let process = Process {
            is_dying: AtomicBool::new(false),
            is_dead: AtomicBool::new(false),
        };
        Ok(Arc::new(alloc, process)?)
    }
}

/// A world whose process starts as soon as it is asked for, and dies after TERM. Its start, its clock and its death
/// have one second each, one after the other.
#[derive(Drop)]
pub(crate) struct Actor {
    pub(crate) process: Arc<Process, Global>,
    pub(crate) notifier: Arc<Notifier, Global>,
    pub(crate) pid: u32,
    pub(crate) start: Label,
    pub(crate) clock: Label,
    pub(crate) death: Label,
    pub(crate) is_starting: bool,
}

impl World for Actor {
    fn signal(&mut self, sig: Sig, _pid: u32) {
        if sig == Sig::TERM {
            self.process.is_dying.store(true, Ordering::SeqCst);
        }
    }

    fn start(&mut self) {
        self.is_starting = true;
        self.notifier.notify(News::seen());
    }

    fn write(&mut self, _bytes: &[u8; 20]) {}

    fn poll_start(&mut self) -> Option<StartAnswer> {
        if !self.is_starting || self.pid == 0 {
            return None;
        }
        self.is_starting = false;
        Some(StartAnswer::Started {
            pid: self.pid,
            label: self.start,
        })
    }

    fn poll_death(&mut self) -> Option<Label> {
        if !self.process.is_dead.load(Ordering::SeqCst) {
            return None;
        }
        self.process.is_dead.store(false, Ordering::SeqCst);
        Some(self.death)
    }

    fn clock(&mut self) -> Label {
        self.clock
    }

    fn mend(&mut self) {}

    fn kill_time(&mut self) -> Option<u64> {
        None
    }

    fn longest_rest(&self) -> Option<Duration> {
        None
    }
}

/// The reaper of an actor's process. The process dies a while after its signal, when its part rests, and then only its
/// own part's notifier is notified.
#[derive(Drop)]
pub(crate) struct ActorReaper {
    pub(crate) process: Arc<Process, Global>,
    pub(crate) notifier: Arc<Notifier, Global>,
}

/// The number of rests of 1 ms for which a process lives on after its signal.
const LAST_RESTS: u32 = 20;

impl Reaper for ActorReaper {
    fn run<R: Wait + Clock + Copy + Drop>(self, rt: R) {
        for _ in 0..LOOKS {
            if self.process.is_dying.load(Ordering::SeqCst) {
                self.process.is_dying.store(false, Ordering::SeqCst);
                for _ in 0..LAST_RESTS {
                    rest(&rt);
                }
                self.notifier.notify(News::raise(&self.process.is_dead));
            }
            rest(&rt);
        }
    }
}

/// What a pair's service writes: six bytes, at most four of them for each read.
#[derive(Drop)]
pub(crate) struct Said {
    pub(crate) bytes: [u8; 6],
    pub(crate) place: usize,
}

impl Read for Said {
    fn read(&mut self, buf: &mut [u8]) -> io::Result<usize> {
        let begin = self.place.min(6);
        let count = (6 - begin).min(buf.len()).min(4);
        buf[..count].copy_from_slice(&self.bytes[begin..begin + count]);
        self.place = begin + count;
        Ok(count)
    }
}

/// What the loggers of a pair took. The last eight bytes are kept.
#[derive(Drop)]
pub(crate) struct Taken {
    // The bytes in their order, as the digits of a number.
    bytes: AtomicU64,
}

impl Taken {
    pub(crate) const fn new() -> Taken {
        Taken {
            bytes: AtomicU64::new(0),
        }
    }

    /// Returns whether these are the bytes that were taken, with zeros before them.
    pub(crate) fn is(&self, bytes: [u8; 8]) -> bool {
        self.bytes.load(Ordering::SeqCst) == u64::from_be_bytes(bytes)
    }

    fn add(&self, byte: u8) {
        let bytes = self.bytes.load(Ordering::SeqCst);
        self.bytes.store(bytes << 8 | byte as u64, Ordering::SeqCst);
    }
}

/// One life of a logger: it takes this many bytes, one at a time, and then fails.
#[derive(Drop)]
pub(crate) struct Life {
    taken: Arc<Taken, Global>,
    room: usize,
    failures: u64,
}

impl Outlet for Life {
    ghost failures = { λ life. life.failures };

    fn put(&mut self, piece: &[u8]) -> Result<usize, OutletFault> {
        if piece.is_empty() {
            return Ok(0);
        }
        if self.room == 0 {
            self.failures = self.failures.saturating_add(1);
            return Err(OutletFault);
        }
        self.room -= 1;
        self.taken.add(piece[0]);
        Ok(1)
    }
}

/// The lives of a pair's logger: the first takes two bytes, and the second takes all others. There is no third life.
#[derive(Drop)]
pub(crate) struct Lives {
    pub(crate) taken: Arc<Taken, Global>,
    pub(crate) given: u32,
}

impl Outlets<Life> for Lives {
    fn next(&mut self) -> Option<Life> {
        let room = match self.given {
            0 => 2,
            1 => usize::MAX,
            _ => return None,
        };
        self.given += 1;
        Some(Life {
            taken: Arc::try_clone(&self.taken).ok()?,
            room,
            failures: 0,
        })
    }
}
