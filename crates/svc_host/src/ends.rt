//! The ends of newly opened mailboxes and stations.
ghost use Rattle.std.specs.Prelude.{◌≡◌, ◌≤◌, ◌<◌, [], IfSome};
ghost use Rattle.svc_house.specs.Mail.{sender_in};
ghost use Rattle.svc_mail.specs.Ends.{home, posted, receiver_home, room_of, taken_by};
ghost use Rattle.svc_station.specs.Ends.{known_to, opening_of, published, reader_station, station};

use crate::running::{StatusReader, status_reader_of};
use crate::shared::{Activity, PartShared};
use std::alloc::{AllocError, Global};
use std::sync::{Arc, Wait};
use sup_core::Machine;
use svc_house::{ControlSender, Notifier};
use svc_mail::mailbox::Mailbox;
use svc_mail::receiver::Receiver;
use svc_mail::sender::Sender;
use svc_station::station::Station;
use svc_station::writer::Writer;

/// Opens a mailbox for one sender, and returns its ends.
pub(crate) fn open_box<T: Copy + Drop>(
    alloc: Global,
    capacity: usize,
) -> Option<(Sender<T>, Receiver<T>)>
    requires { 0 < capacity }
    ensures unposted { IfSome result (λ ends. posted ends.0 ≡ []) }
    ensures untaken { IfSome result (λ ends. taken_by ends.1 ≡ []) }
    ensures same { IfSome result (λ ends. home ends.0 ≡ receiver_home ends.1) }
{
    let Ok((_mailbox, mut senders, receiver)) = Mailbox::open(alloc, capacity, 1) else {
        return None;
    };
    let Some(sender) = senders.pop() else {
        return None;
    };
    Some((sender, receiver))
}

/// The ends of the mailbox of a service: the senders of the host, of the door and of the service's own timer, and the
/// receiver.
#[derive(Drop)]
pub(crate) struct MailboxEnds {
    inside: Sender<u8>,
    outside: Sender<u8>,
    timer: Sender<u8>,
    receiver: Receiver<u8>,
}

/// Opens the mailbox of a service.
pub(crate) fn open_mailbox(alloc: Global, capacity: usize) -> Option<MailboxEnds>
    requires { 0 < capacity }

    // Nothing was posted yet, and nothing taken.
    ensures unposted { IfSome result (λ ends. posted ends.inside ≡ []) }
    ensures untaken { IfSome result (λ ends. taken_by ends.receiver ≡ []) }

    // All three senders and the receiver belong to one mailbox, which has this room.
    ensures inside { IfSome result (λ ends. home ends.inside ≡ receiver_home ends.receiver) }
    ensures outside { IfSome result (λ ends. home ends.outside ≡ receiver_home ends.receiver) }
    ensures timer { IfSome result (λ ends. home ends.timer ≡ receiver_home ends.receiver) }
    ensures room { IfSome result (λ ends. room_of ends.inside ≡ capacity) }
{
    let Ok((_mailbox, mut senders, receiver)) = Mailbox::open(alloc, capacity, 3) else {
        return None;
    };
    let Some(inside) = senders.pop() else {
        return None;
    };
    let Some(outside) = senders.pop() else {
        return None;
    };
    let Some(timer) = senders.pop() else {
        return None;
    };
    Some(MailboxEnds {
        inside,
        outside,
        timer,
        receiver,
    })
}

/// What a part has before its maker is asked. Its thread and the host each have one of the two shared values. Its
/// thread waits for the notifier. From the one mailbox nothing was taken, and the host posted nothing to it.
#[derive(Drop)]
pub(crate) struct PartEnds {
    pub(crate) shared: Arc<PartShared, Global>,
    pub(crate) own: Arc<PartShared, Global>,
    pub(crate) notifier: Arc<Notifier, Global>,
    pub(crate) inside: ControlSender,
    pub(crate) outside: ControlSender,
    pub(crate) timer: ControlSender,
    pub(crate) receiver: Receiver<u8>,
    ghost unposted: { posted (sender_in inside) ≡ [] },
    ghost untaken: { taken_by receiver ≡ [] },
    ghost by_host: { home (sender_in inside) ≡ receiver_home receiver },
    ghost by_door: { home (sender_in outside) ≡ receiver_home receiver },
    ghost by_timer: { home (sender_in timer) ≡ receiver_home receiver },
}

impl PartEnds {
    ghost use Rattle.std.specs.Prelude.{◌≡◌, ◌<◌, IfOk};
    ghost use Rattle.svc_house.specs.Mail.{sender_in};
    ghost use Rattle.svc_mail.specs.Ends.{room_of};

    /// Opens the ends of a part whose mailbox has room for this many control bytes.
    pub(crate) fn open(
        alloc: Global,
        host: &Arc<Notifier, Global>,
        activity: &Arc<Activity, Global>,
        capacity: usize,
    ) -> Result<PartEnds, AllocError>
        requires { 0 < capacity }
        ensures { IfOk result (λ ends. room_of (sender_in ends.inside) ≡ capacity) }
    {
        let Ok(shared) = Arc::new(alloc, PartShared::new(alloc, host, activity)?) else {
            return Err(AllocError);
        };
        let Some(
            MailboxEnds {
                inside,
                outside,
                timer,
                receiver,
            },
        ) = open_mailbox(alloc, capacity)
        else {
            return Err(AllocError);
        };
        Ok(PartEnds {
            inside: ControlSender::new(inside, Arc::try_clone(&shared.notifier)?),
            outside: ControlSender::new(outside, Arc::try_clone(&shared.notifier)?),
            timer: ControlSender::new(timer, Arc::try_clone(&shared.notifier)?),
            notifier: Arc::try_clone(&shared.notifier)?,
            own: Arc::try_clone(&shared)?,
            shared,
            receiver,
        })
    }
}

/// Opens a station over a machine, with a trace of this many entries. Returns its writer and its reader.
pub(crate) fn open_station<R: Wait>(
    rt: &R,
    alloc: Global,
    machine: Machine,
    room: usize,
) -> Option<(Writer, StatusReader)>
    requires { (0 < room) × (room ≤ 65536) }

    // The writer begins with this machine, and nothing is published.
    ensures opening { IfSome result (λ ends. opening_of ends.0 ≡ machine) }
    ensures room { IfSome result (λ ends. (station ends.0).room ≡ room) }
    ensures unpublished { IfSome result (λ ends. published ends.0 ≡ []) }

    // The reader is one of the same station, and knows nothing yet.
    ensures reader { IfSome result (λ ends. reader_station ends.1.reader ≡ station ends.0) }
    ensures known { IfSome result (λ ends. known_to ends.1.reader ≡ []) }
{
    let Ok((writer, readers)) = Station::open(rt, alloc, machine, room, 1) else {
        return None;
    };
    let status_reader = status_reader_of(readers, &writer);
    Some((writer, status_reader))
}
