//! How a service ends: it is left, or its mailbox is closed.
ghost use Rattle.std.specs.Prelude.{◌≡◌, ◌++◌, Some, IfOk, IfErr, OnOk, if◌then◌else◌};
ghost use Rattle.tai_status.specs.declared.phase.Phase.{Phase};
ghost use Rattle.sup_core.specs.State.{is_gone};
ghost use Rattle.svc_mail.specs.Ends.{AreAllSenders, box_of, senders_in, taken_by};
ghost use Rattle.svc_mail.specs.Whole.{RowsArrive, NamesASender};
ghost use Rattle.svc_station.specs.Ends.{history_of, published, station};
ghost use Rattle.svc_house.specs.Calls.{bytes_in};
ghost use Rattle.svc_house.specs.Mail.{items_of, receiver_in};
ghost use Rattle.svc_house.specs.Standing.{past_of};
ghost use Rattle.svc_house.specs.Turn.{phase_in};

use crate::gate::Gate;
use crate::house::House;
use crate::mail_inbox::MailInbox;
use crate::world::World;
use std::alloc::{Allocator, Global};
use std::sync::Wait;
use svc_mail::letters::Letters;
use svc_mail::mailbox::Mailbox;
use svc_mail::receiver::Receiver;
use svc_mail::sender::Sender;
use svc_mail::whole::every_letter_arrives;
use svc_station::writer::Writer;

/// Why a service was not wound up.
#[derive(Clone, Copy, Debug, PartialEq, Eq)]
pub enum WindFault {
    /// The service is not gone.
    Running,
    /// There was no memory for the letters that are left.
    OutOfMemory,
}

/// A service that was not wound up. All parts come back, unchanged.
pub struct NotWound<W: World, G: Gate + Drop, A: Allocator = Global> {
    pub why: WindFault,
    pub house: House<W, MailInbox<A>, G>,
    pub mailbox: Mailbox<u8, A>,
    pub senders: Vec<Sender<u8, A>, A>,
}

impl<W: World + Drop, G: Gate + Drop, A: Allocator> House<W, MailInbox<A>, G> {
    /// Leaves a service that is gone. Returns the writer of its station, and the receiver of its mailbox, which took
    /// the control bytes of the whole history and no others.
    pub fn leave(self) -> (Writer, Receiver<u8, A>)
        requires gone { phase_in self ≡ Phase.Gone }
        ensures writer { (station result.0 ≡ self.station) × (published result.0 ≡ self.events) }
        ensures history { history_of result.0 ≡ past_of self }
        ensures receiver { result.1 ≡ receiver_in self.inbox }
        ensures bytes { bytes_in (published result.0) ≡ items_of (taken_by result.1) }
    {
        let House {
            world: _world,
            inbox,
            gate: _gate,
            writer,
            pending: _pending,
        } = self;
        (writer, inbox.receiver())
    }
}

impl<W: World, G: Gate + Drop, A: Allocator + Clone> House<W, MailInbox<A>, G> {
    /// Ends a service that is gone, and closes its mailbox. Returns its world, the writer of its station, and the
    /// letters that are left, in the order in which they were accepted.
    ///
    /// `Running` is returned exactly if the service is not gone. `OutOfMemory` is returned if there is no memory for as
    /// many letters as the mailbox has room for. In both cases house, mailbox and senders come back as they were.
    pub fn wind_up<R: Wait>(
        self,
        rt: &R,
        mailbox: Mailbox<u8, A>,
        senders: Vec<Sender<u8, A>, A>,
    ) -> Result<(W, Writer, Letters<u8, A>), NotWound<W, G, A>>
        requires receiver { self.source ≡ Some (box_of mailbox, senders_in mailbox) }
        requires senders { AreAllSenders mailbox senders.items }
        ensures gone { OnOk result (phase_in self ≡ Phase.Gone) }
        ensures why { IfErr result (λ back.
            back.why ≡ (if is_gone (phase_in self) then WindFault.OutOfMemory else WindFault.Running)) }
        ensures back { IfErr result (λ back.
            (back.house ≡ self) × (back.mailbox ≡ mailbox) × (back.senders ≡ senders)) }
        ensures world { IfOk result (λ wound. W.calls wound.0 ≡ self.calls) }
        ensures writer { IfOk result (λ wound.
            (station wound.1 ≡ self.station) × (published wound.1 ≡ self.events)) }
        // The control bytes of the whole history are the items of the letters that were taken.
        ensures bytes { IfOk result (λ wound.
            bytes_in (published wound.1) ≡ items_of (taken_by (receiver_in self.inbox))) }
        // What each sender posted is what was taken of it, followed by what is left of it.
        ensures rows { IfOk result (λ wound.
            RowsArrive senders.items (taken_by (receiver_in self.inbox)) wound.2) }
        ensures names { IfOk result (λ wound.
            NamesASender (senders_in mailbox) (taken_by (receiver_in self.inbox) ++ wound.2)) }
    {
        if !self.writer.machine().is_gone() {
            return Err(NotWound {
                why: WindFault::Running,
                house: self,
                mailbox,
                senders,
            });
        }
        let House {
            world,
            inbox,
            gate,
            writer,
            pending,
        } = self;
        let MailInbox { receiver, nones } = inbox;
        match mailbox.close(rt, senders, receiver) {
            Ok(letters) => {
                every_letter_arrives::<u8, A>();
                Ok((world, writer, letters))
            }
            Err(back) => {
                let inbox = MailInbox {
                    receiver: back.receiver,
                    nones,
                };
                Err(NotWound {
                    why: WindFault::OutOfMemory,
                    house: House {
                        world,
                        inbox,
                        gate,
                        writer,
                        pending,
                    },
                    mailbox: back.mailbox,
                    senders: back.senders,
                })
            }
        }
    }
}
