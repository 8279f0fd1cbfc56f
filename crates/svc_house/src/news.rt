//! What a notification is about.
use std::alloc::{AllocError, Allocator};
use std::sync::atomic::{AtomicBool, Ordering};
use std::sync::{Mutex, OnceLock, Wait};
use svc_mail::letter::MailboxFull;
use svc_mail::sender::Sender;

/// Evidence that something new is in a place that a thread looks at. Only the act of putting it there creates this, so
/// no notification comes before its news. It ends only in `Notifier::notify`, so no news is left without a
/// notification.
#[must_use]
pub struct News {
    put: (),
}

impl News {
    ghost use Rattle.std.specs.Prelude.{◌≡◌, ◌++◌, ◌∷◌, [], IfErr, OnErr, OnOk};
    ghost use Rattle.svc_mail.specs.Ends.{IsSameSender, JoinsHistory, WasFull, heard_by, posted, seen_by};

    /// Posts a letter, once. `MailboxFull` gives it back, and nothing was posted.
    pub(crate) fn post<A: Allocator + Clone, R: Wait>(
        rt: &R,
        sender: &mut Sender<u8, A>,
        item: u8,
    ) -> Result<News, MailboxFull<u8>>
        // If it succeeds, the item is the last one that this sender posted. It comes in the history of the mailbox
        // after all that the sender had seen of it.
        ensures same { IsSameSender sender.old sender.new }
        ensures posted { OnOk result (posted sender.new ≡ posted sender.old ++ item ∷ []) }
        ensures history { OnOk result (JoinsHistory sender.old item sender.new) }

        // If it fails, nothing was posted, and the sender has seen no more of the history.
        ensures unposted { OnErr result (posted sender.new ≡ posted sender.old) }
        ensures unseen { OnErr result (seen_by sender.new ≡ seen_by sender.old) }

        // The sender learns no note. If it fails, the item comes back, and the mailbox was full at one moment, as far
        // as the sender knows.
        ensures unheard { heard_by sender.new ≡ heard_by sender.old }
        ensures full { IfErr result (λ full. (full.0 ≡ item) × WasFull sender.old) }
    {
        sender.post(rt, item)?;
        Ok(News { put: () })
    }

    /// Raises a flag.
    pub fn raise(flag: &AtomicBool) -> News {
        flag.store(true, Ordering::SeqCst);
        News { put: () }
    }

    /// Puts a value in its place, and replaces what is there.
    pub fn put<T: Drop, R: Wait>(rt: &R, place: &Mutex<Option<T>>, value: T) -> News {
        *place.lock(rt) = Some(value);
        News { put: () }
    }

    /// Puts a value in its place, if none is there.
    pub fn set<T: Drop, R: Wait>(rt: &R, place: &OnceLock<T>, value: T) -> News {
        let _ = place.set(rt, value);
        News { put: () }
    }

    /// Adds a value to a list.
    pub fn add<T: Drop, A: Allocator, R: Wait>(
        rt: &R,
        list: &Mutex<Vec<T, A>>,
        value: T,
    ) -> Result<News, AllocError> {
        list.lock(rt).push(value)?;
        Ok(News { put: () })
    }

    /// States that this many bytes were moved, and that there is something to take, or room.
    pub fn moved(_bytes: u64) -> News {
        News { put: () }
    }

    /// States that the kernel did it when it ended a process, and that this thread has seen it.
    pub fn seen() -> News {
        News { put: () }
    }

    /// Splits the news for two threads.
    pub fn twice(self) -> (News, News) {
        let News { put } = self;
        (News { put }, News { put })
    }

    pub(crate) fn end(self) {
        let News { put: () } = self;
    }
}
