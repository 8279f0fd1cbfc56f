//! What the threads of a host share.
use std::alloc::{AllocError, Global};
use std::sync::Arc;
use std::sync::atomic::{AtomicBool, AtomicU64, Ordering};
use svc_house::{News, Notifier};

/// A count of what has happened to the services of a host. If the count has not changed, nothing has happened.
#[derive(Drop)]
pub(crate) struct Activity {
    count: AtomicU64,
}

impl Activity {
    pub(crate) const fn new() -> Activity {
        Activity {
            count: AtomicU64::new(0),
        }
    }

    /// Notes that something has happened to a service, and can be read.
    pub(crate) fn note(&self) {
        self.count.fetch_add(1, Ordering::SeqCst);
    }

    pub(crate) fn count(&self) -> u64 {
        self.count.load(Ordering::SeqCst)
    }
}

/// What the thread of a service shares with the host.
#[derive(Drop)]
pub(crate) struct PartShared {
    /// The notifier of the service's thread.
    pub(crate) notifier: Arc<Notifier, Global>,
    // The notifier of the host.
    host: Arc<Notifier, Global>,
    activity: Arc<Activity, Global>,
    stays_out: AtomicBool,
    has_ended: AtomicBool,
    owes: AtomicBool,
}

impl PartShared {
    pub(crate) fn new(
        alloc: Global,
        host: &Arc<Notifier, Global>,
        activity: &Arc<Activity, Global>,
    ) -> Result<PartShared, AllocError> {
        Ok(PartShared {
            notifier: Arc::new(alloc, Notifier::new())?,
            host: Arc::try_clone(host)?,
            activity: Arc::try_clone(activity)?,
            stays_out: AtomicBool::new(false),
            has_ended: AtomicBool::new(false),
            owes: AtomicBool::new(false),
        })
    }

    /// Notes whether the service owes what it could not write, after its last turn.
    pub(crate) fn note_owing(&self, owes: bool) {
        self.owes.store(owes, Ordering::SeqCst);
    }

    pub(crate) fn owes(&self) -> bool {
        self.owes.load(Ordering::SeqCst)
    }

    /// Notes that the service must not begin, because it has no thread.
    pub(crate) fn stay_out(&self) {
        self.stays_out.store(true, Ordering::SeqCst);
    }

    pub(crate) fn stays_out(&self) -> bool {
        self.stays_out.load(Ordering::SeqCst)
    }

    /// Notes that an event of the service was published.
    pub(crate) fn note_event(&self) {
        self.activity.note();
    }

    /// Notes that the service has ended, and notifies the host.
    pub(crate) fn end(&self) {
        let news = News::raise(&self.has_ended);
        self.activity.note();
        self.host.notify(news);
    }

    pub(crate) fn has_ended(&self) -> bool {
        self.has_ended.load(Ordering::SeqCst)
    }
}

/// What the threads of a pair share with the host.
#[derive(Drop)]
pub(crate) struct PairShared {
    /// Notified if there is something to put, or a place to put it.
    pub(crate) filled: Arc<Notifier, Global>,
    /// Notified if there is room again.
    pub(crate) emptied: Notifier,
    leaves: AtomicBool,
    has_ended: AtomicBool,
    is_put: AtomicBool,
}

impl PairShared {
    pub(crate) fn new(alloc: Global) -> Result<PairShared, AllocError> {
        Ok(PairShared {
            filled: Arc::new(alloc, Notifier::new())?,
            emptied: Notifier::new(),
            leaves: AtomicBool::new(false),
            has_ended: AtomicBool::new(false),
            is_put: AtomicBool::new(false),
        })
    }

    /// Lets its threads end.
    pub(crate) fn leave(&self) {
        let (first, second) = News::raise(&self.leaves).twice();
        self.filled.notify(first);
        self.emptied.notify(second);
    }

    pub(crate) fn leaves(&self) -> bool {
        self.leaves.load(Ordering::SeqCst)
    }

    /// Notes that the output has ended and all of it is posted.
    pub(crate) fn end(&self) {
        self.filled.notify(News::raise(&self.has_ended));
    }

    pub(crate) fn has_ended(&self) -> bool {
        self.has_ended.load(Ordering::SeqCst)
    }

    /// Notes that all of the output is in the input of its logger, which ends there.
    pub(crate) fn put(&self) {
        self.is_put.store(true, Ordering::SeqCst);
    }

    pub(crate) fn is_put(&self) -> bool {
        self.is_put.load(Ordering::SeqCst)
    }
}
