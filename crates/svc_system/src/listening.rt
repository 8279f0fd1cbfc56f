//! The FIFOs on which processes say that they are ready.
use crate::notification::is_said;
use mio::unix::SourceFd;
use mio::{Interest, Registry, Token};
use std::alloc::{AllocError, Global};
use std::fs::File;
use std::io;
use std::io::Read;
use std::os::fd::AsRawFd;
use std::sync::{Arc, OnceLock, Wait};
use svc_house::{News, Notifier};
use tai_status::Label;

/// The number of bytes that one read of a FIFO takes.
const WORD_BYTES: usize = 64;

/// The place for the time at which a process said that it is ready.
pub(crate) type ReadySlot = Arc<OnceLock<Label>, Global>;

/// A FIFO that is watched until the process says that it is ready, and the notifier that its service waits for.
#[derive(Drop)]
pub(crate) struct Listened {
    pub(crate) fifo: File,
    pub(crate) slot: ReadySlot,
    pub(crate) notifier: Arc<Notifier, Global>,
}

impl Listened {
    /// Returns the number by which the FIFO is watched: that of its descriptor.
    pub(crate) fn number(&self) -> usize {
        number_of(&self.fifo)
    }

    /// Reads what is in the FIFO. Returns whether the process said that it is ready.
    fn hears(&mut self) -> bool {
        let mut bytes = [0; WORD_BYTES];
        for _ in 0..u32::MAX {
            match self.fifo.read(&mut bytes) {
                Ok(count) if count > 0 => {
                    if is_said(&bytes[..count.min(WORD_BYTES)]) {
                        return true;
                    }
                }
                _ => return false,
            }
        }
        false
    }
}

/// Returns the number of a file's descriptor.
pub(crate) fn number_of(file: &File) -> usize {
    file.as_raw_fd().unsigned_abs() as usize
}

/// The FIFOs that are watched.
#[derive(Drop)]
pub(crate) struct Listening {
    listened: Vec<Listened>,
}

impl Listening {
    /// Returns no FIFOs.
    pub(crate) fn new(alloc: Global) -> Listening {
        Listening {
            listened: Vec::new(alloc),
        }
    }

    /// Watches one more FIFO.
    pub(crate) fn add(&mut self, registry: &Registry, one: Listened) -> io::Result<()> {
        let number = one.number();
        let descriptor = one.fifo.as_raw_fd();
        self.push(one)?;
        let watched = registry.register(
            &mut SourceFd(&descriptor),
            Token(number),
            Interest::READABLE,
        );
        if watched.is_err() {
            self.ignore(number);
        }
        watched
    }

    /// Adds a FIFO.
    fn push(&mut self, one: Listened) -> Result<(), AllocError> {
        self.listened.push(one)?;
        Ok(())
    }

    /// Watches the FIFO with this number no longer, and closes it.
    pub(crate) fn ignore(&mut self, number: usize) {
        self.listened.retain(|one| one.number() != number);
    }

    /// Reads the FIFO with this number. If its process said that it is ready, notes this time, notifies the service,
    /// and watches the FIFO no longer.
    pub(crate) fn hear<R: Wait>(&mut self, rt: &R, number: usize, now: Label) {
        self.listened.retain_mut(|one| {
            if one.number() != number || !one.hears() {
                return true;
            }
            one.notifier.notify(News::set(rt, &one.slot, now));
            false
        });
    }
}
