//! Threads that wait for one another.
use std::alloc::{AllocError, Global};
use std::sync::atomic::{AtomicBool, Ordering};
use std::sync::{Arc, Wait};
use std::time::Duration;
use svc_house::{Gate, Notifier};

/// The number of times that a thread looks for another, with a rest of 1 ms after each look.
pub(crate) const LOOKS: u32 = 10_000;

/// Rests 1 ms.
pub(crate) fn rest<R: Wait>(rt: &R) {
    Notifier::new().wait(rt, Some(Duration::from_millis(1)));
}

/// A flag that one thread sets and another waits for.
#[derive(Drop)]
pub(crate) struct Flag {
    is_set: AtomicBool,
}

impl Flag {
    pub(crate) fn new(alloc: Global) -> Result<Arc<Flag, Global>, AllocError> {
        let flag = Flag {
            is_set: AtomicBool::new(false),
        };
        Ok(Arc::new(alloc, flag)?)
    }

    pub(crate) fn set(&self) {
        self.is_set.store(true, Ordering::SeqCst);
    }

    pub(crate) fn is_set(&self) -> bool {
        self.is_set.load(Ordering::SeqCst)
    }

    /// Returns whether it was set before all looks were over.
    pub(crate) fn comes<R: Wait>(&self, rt: &R) -> bool {
        for _ in 0..LOOKS {
            if self.is_set() {
                return true;
            }
            rest(rt);
        }
        false
    }
}

/// A gate that sets a flag and waits for another one. If that is not set in time, the gate sets a third one.
#[derive(Drop)]
pub(crate) struct Meeting {
    own: Arc<Flag, Global>,
    other: Arc<Flag, Global>,
    in_vain: Arc<Flag, Global>,
}

impl Meeting {
    pub(crate) fn new(
        own: &Arc<Flag, Global>,
        other: &Arc<Flag, Global>,
        in_vain: &Arc<Flag, Global>,
    ) -> Result<Meeting, AllocError> {
        Ok(Meeting {
            own: Arc::try_clone(own)?,
            other: Arc::try_clone(other)?,
            in_vain: Arc::try_clone(in_vain)?,
        })
    }

    pub(crate) fn copy(&self) -> Result<Meeting, AllocError> {
        Meeting::new(&self.own, &self.other, &self.in_vain)
    }
}

impl Gate for Meeting {
    fn pass<R: Wait>(&mut self, rt: &R) {
        self.own.set();
        if !self.other.comes(rt) {
            self.in_vain.set();
        }
    }
}
