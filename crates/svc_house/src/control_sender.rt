//! How a control byte from another thread reaches a service.
ghost use Rattle.std.specs.Prelude.{◌≡◌, ◌++◌, ◌∷◌, [], IfErr, OnErr, OnOk};
ghost use Rattle.svc_mail.specs.Ends.{IsSameSender, JoinsHistory, WasFull, heard_by, seen_by};
ghost use Rattle.svc_house.specs.Mail.{posted_by, sender_in};

use crate::news::News;
use crate::notifier::Notifier;
use std::alloc::{Allocator, Global};
use std::sync::{Arc, Wait};
use svc_mail::letter::MailboxFull;
use svc_mail::sender::Sender;

/// A sender of a service's mailbox, with the notifier that the service's thread waits on.
#[derive(Drop)]
pub struct ControlSender<A: Allocator = Global> {
    pub(crate) sender: Sender<u8, A>,
    notifier: Arc<Notifier, A>,
}

impl<A: Allocator + Clone> ControlSender<A> {
    /// Returns a sender that posts by this sender, and notifies this notifier.
    pub fn new(sender: Sender<u8, A>, notifier: Arc<Notifier, A>) -> ControlSender<A>
        ensures { sender_in result ≡ sender }
    {
        ControlSender { sender, notifier }
    }

    /// Posts a control byte, once, and then notifies. `MailboxFull` gives the byte back, and nothing was posted.
    pub fn post<R: Wait>(&mut self, rt: &R, byte: u8) -> Result<(), MailboxFull<u8>>
        // If it succeeds, the byte is the last one that this sender posted. It comes in the history of the mailbox
        // after all that the sender had seen of it.
        ensures same { IsSameSender (sender_in self.old) (sender_in self.new) }
        ensures posted { OnOk result (posted_by self.new ≡ posted_by self.old ++ byte ∷ []) }
        ensures history { OnOk result (JoinsHistory (sender_in self.old) byte (sender_in self.new)) }

        // If it fails, nothing was posted, and the sender has seen no more of the history.
        ensures unposted { OnErr result (posted_by self.new ≡ posted_by self.old) }
        ensures unseen { OnErr result (seen_by (sender_in self.new) ≡ seen_by (sender_in self.old)) }

        // The sender learns no note. If it fails, the byte comes back, and the mailbox was full at one moment, as far
        // as the sender knows.
        ensures unheard { heard_by (sender_in self.new) ≡ heard_by (sender_in self.old) }
        ensures full { IfErr result (λ full. (full.0 ≡ byte) × WasFull (sender_in self.old)) }
    {
        let news = News::post(rt, &mut self.sender, byte)?;
        self.notifier.notify_letter(news);
        Ok(())
    }
}
