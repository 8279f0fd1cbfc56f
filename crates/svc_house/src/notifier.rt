//! What the thread of a service waits on.
use crate::news::News;
use std::sync::Wait;
use std::sync::atomic::{AtomicU64, Ordering};
use std::thread::Parker;
use std::time::Duration;

/// One thread waits on this, and any thread notifies it.
///
/// The rule of use prevents lost notifications. Whoever notifies has put its news in place first, as its type says.
/// Whoever waits has looked at everything since it last came back from a wait. A notification between the look and the
/// wait ends that wait at once.
#[derive(Drop)]
pub struct Notifier {
    parker: Parker,
    letters: AtomicU64,
}

impl Notifier {
    /// Returns a notifier that was not notified yet.
    pub const fn new() -> Notifier {
        Notifier {
            parker: Parker::new(),
            letters: AtomicU64::new(0),
        }
    }

    /// Counts a letter that was posted, and notifies.
    pub(crate) fn notify_letter(&self, news: News) {
        self.letters.fetch_add(1, Ordering::SeqCst);
        self.notify(news);
    }

    /// Returns how many letters were notified.
    pub fn letters(&self) -> u64 {
        self.letters.load(Ordering::SeqCst)
    }

    /// Notifies: ends the current wait, or the next one if there is none. Returns at once.
    pub fn notify(&self, news: News) {
        news.end();
        self.parker.unpark()
    }

    /// Sleeps until a notification, and no longer than `longest`, if that is given. May return early. One thread at a
    /// time may wait.
    pub fn wait<R: Wait>(&self, rt: &R, longest: Option<Duration>) {
        match longest {
            None => self.parker.park(rt),
            Some(time) => self.parker.park_timeout(rt, time),
        }
    }
}
