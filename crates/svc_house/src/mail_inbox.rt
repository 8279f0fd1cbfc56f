//! Control bytes from a mailbox.
use crate::inbox::Inbox;
use std::alloc::{Allocator, Global};
use std::sync::Wait;
use svc_mail::receiver::Receiver;

/// The inbox over a mailbox of bytes: it gives the items of the letters that its receiver takes.
#[derive(Drop)]
pub struct MailInbox<A: Allocator = Global> {
    pub(crate) receiver: Receiver<u8, A>,
    pub(crate) nones: u64,
}

impl<A: Allocator> MailInbox<A> {
    ghost use Rattle.std.specs.Prelude.{◌≡◌};
    ghost use Rattle.svc_house.specs.Mail.{receiver_in};

    /// Returns the inbox over this receiver's mailbox. All letters that the receiver took before count as given.
    pub fn new(receiver: Receiver<u8, A>) -> MailInbox<A>
        ensures { receiver_in result ≡ receiver }
    {
        MailInbox { receiver, nones: 0 }
    }

    /// Returns the receiver, with the letters that it took.
    pub fn receiver(self) -> Receiver<u8, A>
        ensures { result ≡ receiver_in self }
    {
        let MailInbox { receiver, nones: _ } = self;
        receiver
    }
}

impl<A: Allocator> Inbox for MailInbox<A> {
    ghost use Rattle.std.specs.Prelude.{Some};
    ghost use Rattle.svc_mail.specs.Ends.{taken_by, receiver_home, senders_at};
    ghost use Rattle.svc_house.specs.Mail.{items_of};

    ghost given = { λ inbox. items_of (taken_by inbox.receiver) };

    ghost nones = { λ inbox. inbox.nones };

    ghost source = { λ inbox. Some (receiver_home inbox.receiver, senders_at inbox.receiver) };

    fn take<R: Wait>(&mut self, rt: &R) -> Option<u8> {
        match self.receiver.take(rt) {
            Some(letter) => Some(letter.item),
            None => {
                self.nones = self.nones.saturating_add(1);
                None
            }
        }
    }
}
