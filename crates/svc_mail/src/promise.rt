//! What is known of an end of a mailbox that comes back from a thread that `thread::spawn_with` started.
use crate::letter::Letter;
use crate::receiver::Receiver;
use crate::sender::Sender;
use std::alloc::{Allocator, Global};
use std::snapshot::Snapshot;
use std::thread::Promise;

/// The sender comes back as the same one, and has posted these items more.
#[derive(Drop)]
pub struct PostsThese<T: Copy, A: Allocator = Global> {
    sender: Snapshot<Sender<T, A>>,
    items: Snapshot<Vec<T, A>>,
}

impl<T: Copy, A: Allocator> Promise<Sender<T, A>> for PostsThese<T, A> {
    ghost use Rattle.svc_mail.specs.Ends.{HasPosted};

    ghost kept_by = { λ promise sender. HasPosted promise.sender.value promise.items.value.items sender };
}

impl<T: Copy, A: Allocator> PostsThese<T, A> {
    ghost use Rattle.std.specs.Prelude.{◌≡◌};

    /// Notes the sender before the thread has it, and the items that the thread is to post.
    pub fn of(sender: &Sender<T, A>, items: &Vec<T, A>) -> PostsThese<T, A>
        ensures { (result.sender.value ≡ sender.now) × (result.items.value ≡ items.now) }
    {
        PostsThese {
            sender: Snapshot::of(sender),
            items: Snapshot::of(items),
        }
    }
}

/// The receiver comes back as the same one, together with the letters that it took in the thread.
#[derive(Drop)]
pub struct TakesThese<T: Copy, A: Allocator = Global> {
    receiver: Snapshot<Receiver<T, A>>,
}

impl<T: Copy, A: Allocator> Promise<(Receiver<T, A>, Vec<Letter<T>, A>)> for TakesThese<T, A> {
    ghost use Rattle.svc_mail.specs.Ends.{HasTaken};

    ghost kept_by = { λ promise back. HasTaken promise.receiver.value back.1.items back.0 };
}

impl<T: Copy, A: Allocator> TakesThese<T, A> {
    ghost use Rattle.std.specs.Prelude.{◌≡◌};

    /// Notes the receiver before the thread has it.
    pub fn of(receiver: &Receiver<T, A>) -> TakesThese<T, A>
        ensures { result.receiver.value ≡ receiver.now }
    {
        TakesThese {
            receiver: Snapshot::of(receiver),
        }
    }
}
