//! The thread of a service.
ghost use Rattle.std.specs.Prelude.{◌≡◌, [], true};
ghost use Rattle.tai_status.specs.declared.phase.Phase.{Phase};
ghost use Rattle.sup_core.specs.History.{state_of};
ghost use Rattle.svc_record.specs.Opening.{beginning};
ghost use Rattle.svc_house.specs.Calls.{ExtendedWhileKept, requested};
ghost use Rattle.sup_core.specs.Rules.{asks_of_begin};
ghost use Rattle.svc_station.specs.Ends.{opening_of, published, station};
ghost use Rattle.svc_station.specs.Parking.{GoesOn, writer_in};
ghost use Rattle.svc_mail.specs.Ends.{home, receiver_home, taken_by};
ghost use Rattle.svc_house.specs.Mail.{sender_in};
ghost use Rattle.svc_host.specs.Kills.{Begins, BeginsAsking, Heeds, KeepsTime, Looks, LooksAt, new_timer};
ghost use Rattle.svc_host.specs.Answers.{answered};
ghost use Rattle.svc_host.specs.Served.{IsServed, ServesOut};
ghost use Rattle.svc_house.specs.Turn.{IsSameHouse, phase_in};

use crate::kill::{KillTimer, is_asked};
use crate::rest::{nanos_of, rest_before, shorter};
use crate::shared::PartShared;
use cmd_base::SystemClock;
use std::alloc::Global;
use std::snapshot::Snapshot;
use std::sync::{Arc, Wait};
use std::thread::Promise;
use std::time::{Clock, Duration};
use sup_core::{Event, Machine};
use svc_house::{
    ControlSender, Gate, House, HouseFault, Inbox, MailInbox, Notifier, Turned, World,
};
use svc_mail::receiver::Receiver;
use svc_record::Opening;
use svc_station::parked::Parked;
use svc_station::writer::Writer;
use tai_status::{Label, TimeSource};

/// How a part begins: what its maker says, whether its row has the `down` file, and when.
#[derive(Clone, Copy)]
pub(crate) struct Beginning {
    pub(crate) opening: Opening,
    pub(crate) down: bool,
    pub(crate) label: Label,
}

/// What the thread of a service gets: a station to which nothing was published, a mailbox from which nothing was taken,
/// a world that has given no answer, and how the part begins.
#[derive(Drop)]
pub(crate) struct Task<W: World + Drop, G: Gate + Drop, R: Wait + Drop> {
    pub(crate) parked: Parked<R>,
    pub(crate) world: W,
    pub(crate) gate: G,
    pub(crate) receiver: Receiver<u8>,
    /// The sender through which the service gets `k`, if it was asked to go and its time is over.
    pub(crate) timer: ControlSender,
    pub(crate) begins: Beginning,
    pub(crate) shared: Arc<PartShared, Global>,
    ghost begun: { opening_of (writer_in parked)
        ≡ state_of (beginning begins.opening begins.down begins.label) },
    ghost unpublished: { published (writer_in parked) ≡ [] },
    ghost untaken: { taken_by receiver ≡ [] },
    ghost own_mailbox: { home (sender_in timer) ≡ receiver_home receiver },
    ghost unanswered: { answered (W.calls world) ≡ [] },
}

impl<W: World + Drop, G: Gate + Drop, R: Wait + Drop> Task<W, G, R> {
    ghost use Rattle.std.specs.Prelude.{◌≡◌};

    /// Returns only the writer of its station.
    fn into_parked(self) -> Parked<R>
        ensures { result ≡ self.parked }
    {
        let Task { parked, .. } = self;
        parked
    }
}

/// What the thread of a service gives back.
#[derive(Drop)]
pub(crate) struct Served<R: Wait> {
    /// The writer of its station.
    pub(crate) parked: Parked<R>,
    /// The receiver of its mailbox, once the service is gone. None: it did not begin, because it has no thread.
    pub(crate) receiver: Option<Receiver<u8>>,
}

/// The promise that the writer comes back as the one that went, and that the service is gone, if it began. It is for
/// `spawn_with`.
#[derive(Drop)]
pub(crate) struct ServesToItsEnd<R: Wait> {
    pub(crate) went: Snapshot<Parked<R>>,
}

impl<R: Wait> Promise<Served<R>> for ServesToItsEnd<R> {
    ghost use Rattle.svc_station.specs.Parking.{writer_in};
    ghost use Rattle.svc_host.specs.Served.{ServesOut};

    ghost kept_by = { λ promise back. ServesOut (writer_in promise.went.value) back };
}

impl<R: Wait> ServesToItsEnd<R> {
    ghost use Rattle.std.specs.Prelude.{◌≡◌};

    /// Makes the promise for the writer as it is before the thread has it.
    pub(crate) fn of(parked: &Parked<R>) -> ServesToItsEnd<R>
        ensures { result.went.value ≡ parked.now }
    {
        ServesToItsEnd {
            went: Snapshot::of(parked),
        }
    }
}

/// Returns the running clock in milliseconds, if it can be read.
fn running_millis<R: Clock>(rt: &R) -> Option<u64> {
    u64::try_from(rt.monotonic().ok()?.as_millis()).ok()
}

/// Returns the timer of a service with this machine. `k` goes through `sender`.
fn begin_timer<W: World, I: Inbox, G: Gate + Drop, R: Clock>(
    rt: &R,
    house: &mut House<W, I, G>,
    machine: &Machine,
    sender: ControlSender,
) -> KillTimer
    ensures house { house.new ≡ house.old }
    ensures begins { Begins machine.now (new_timer (sender_in sender)) result }
{
    let mut timer = KillTimer::new(sender);
    if is_asked(machine) {
        begin(rt, house, &mut timer);
    }
    timer
}

/// Notes that a service is asked to go now.
fn begin<W: World, I: Inbox, G: Gate + Drop, R: Clock>(
    rt: &R,
    house: &mut House<W, I, G>,
    timer: &mut KillTimer,
)
    ensures house { house.new ≡ house.old }
    ensures begins { BeginsAsking timer.old timer.new }
{
    let seconds = house.kill_time();
    // An asking whose time is not known is never due.
    timer.begin(running_millis(rt).unwrap_or(u64::MAX), seconds);
}

/// Heeds an event that was taken.
fn heed<W: World, I: Inbox, G: Gate + Drop, R: Clock>(
    rt: &R,
    house: &mut House<W, I, G>,
    timer: &mut KillTimer,
    event: &Event,
)
    ensures house { house.new ≡ house.old }
    ensures heeds { Heeds event.now timer.old timer.new }
{
    if timer.begins_with(event) {
        begin(rt, house, timer);
    } else {
        timer.note(event);
    }
}

/// Posts `k` if it is due at this time. Returns whether the asking is concluded.
fn kill_if_due<W: World, I: Inbox, G: Gate + Drop, R: Wait>(
    rt: &R,
    house: &mut House<W, I, G>,
    timer: &mut KillTimer,
    now: u64,
) -> bool
    ensures house { house.new ≡ house.old }
    ensures looks { LooksAt now timer.old timer.new }
{
    if !timer.is_due(now) {
        return false;
    }
    let runs = house.kill_time().is_some();
    timer.conclude(rt, runs)
}

/// Rests after a turn that found nothing: until a notification, until the end of the time for which the service settles
/// or rests, or until `k` is due, but no longer than its world allows.
fn rest<W: World, I: Inbox, G: Gate + Drop, R: Wait + Clock + Copy + Drop>(
    rt: R,
    house: &House<W, I, G>,
    timer: &KillTimer,
    now: u64,
    notifier: &Notifier,
) {
    let rest = match house.until() {
        None => None,
        Some(until) => Some(rest_before(SystemClock::new(rt).now(), until)),
    };
    let until_kill = timer.rest(now);
    let longest = house.longest_rest().map(nanos_of);
    let time = shorter(shorter(rest, until_kill), longest);
    notifier.wait(&rt, time.map(Duration::from_nanos));
}

/// Rests after a turn that found nothing, unless `k` was due.
fn idle<W: World, I: Inbox, G: Gate + Drop, R: Wait + Clock + Copy + Drop>(
    rt: R,
    house: &mut House<W, I, G>,
    timer: &mut KillTimer,
    notifier: &Notifier,
)
    ensures house { house.new ≡ house.old }
    ensures looks { Looks timer.old timer.new }
{
    let now = running_millis(&rt).unwrap_or(0);
    if !kill_if_due(&rt, house, timer, now) {
        rest(rt, house, timer, now, notifier);
    }
}

/// Makes one turn of the loop of a service. Returns whether the service is gone.
fn step<W: World, I: Inbox, G: Gate + Drop, R: Wait + Clock + Copy + Drop>(
    rt: R,
    house: &mut House<W, I, G>,
    timer: &mut KillTimer,
    shared: &PartShared,
) -> bool
    ensures same { IsSameHouse house.old house.new }
    ensures keeps { KeepsTime house.old.events house.new.events timer.old timer.new }
    ensures gone { result ≡ true → phase_in house.new ≡ Phase.Gone }
{
    let turned = house.turn(&rt);
    shared.note_owing(house.longest_rest().is_some());
    match turned {
        Ok(Turned::Took(event)) => {
            heed(&rt, house, timer, &event);
            shared.note_event();
            false
        }
        Ok(Turned::Ended) => true,
        Ok(Turned::Idle) => {
            idle(rt, house, timer, &shared.notifier);
            false
        }
        Err(HouseFault::OutOfMemory) => {
            shared.notifier.wait(&rt, Some(Duration::from_millis(1)));
            false
        }
    }
}

/// Turns the loop of a service until the service is gone. Its timer heeds each event.
///
/// This function, and what is called for the first start, each publication, each poll and each child, are not inlined.
/// The stack of a thread is therefore as deep as the deepest of them, not as all of them together.
#[inline(never)]
fn run<W: World, I: Inbox, G: Gate + Drop, R: Wait + Clock + Copy + Drop>(
    rt: R,
    house: &mut House<W, I, G>,
    timer: &mut KillTimer,
    shared: &PartShared,
)
    ensures same { IsSameHouse house.old house.new }
    ensures keeps { KeepsTime house.old.events house.new.events timer.old timer.new }
    ensures gone { phase_in house.new ≡ Phase.Gone }
{
    for _ in rt.forever() {
        if step(rt, house, timer, shared) {
            return;
        }
    }
}

/// Opens the house of a service whose station was opened when the service began. Passes on to the world what is asked
/// at that point.
#[inline(never)]
fn open<W: World + Drop, G: Gate + Drop>(
    world: W,
    receiver: Receiver<u8>,
    gate: G,
    writer: Writer,
    begins: Beginning,
) -> House<W, MailInbox<Global>, G>
    requires begun { opening_of writer ≡ state_of (beginning begins.opening begins.down begins.label) }
    requires unpublished { published writer ≡ [] }
    requires untaken { taken_by receiver ≡ [] }
    requires unanswered { answered (W.calls world) ≡ [] }

    // The world was asked what this beginning asks. The house is at the same station, and had no event.
    ensures asks { ExtendedWhileKept (W.calls world) result.calls
        (requested (asks_of_begin (beginning begins.opening begins.down begins.label))) }
    ensures station { (result.station ≡ station writer) × (result.events ≡ []) }
{
    let first = begins.opening.asks(begins.down, begins.label);
    House::open(world, MailInbox::new(receiver), gate, writer, first)
}

/// Runs a service for its whole life. Ends once the service is gone. Gives back the writer of its station, and the
/// receiver of its mailbox, which took the control bytes of its whole history.
fn serve<W: World + Drop, G: Gate + Drop, R: Wait + Clock + Copy + Drop>(
    rt: R,
    task: Task<W, G, R>,
) -> (Parked<R>, Receiver<u8>)
    ensures goes_on { GoesOn (writer_in task.parked) (writer_in result.0) }
    ensures served { IsServed (writer_in result.0) result.1 }
{
    let Task {
        parked,
        world,
        gate,
        receiver,
        timer,
        begins,
        shared,
    } = task;
    let mut house = open(world, receiver, gate, parked.into_writer(), begins);
    let machine = begins.opening.machine(begins.down, begins.label);
    let mut timer = begin_timer(&rt, &mut house, &machine, timer);
    run(rt, &mut house, &mut timer, &shared);
    let (writer, receiver) = house.leave();
    shared.end();
    (Parked::new(writer, rt), receiver)
}

/// Does what a thread does with its task: serves it to its end. If the system refused the thread, the task stays out,
/// and gives the writer back at once.
pub(crate) fn serve_or_stay_out<W: World + Drop, G: Gate + Drop, R: Wait + Clock + Copy + Drop>(
    rt: R,
    task: Task<W, G, R>,
) -> Served<R>
    ensures { ServesOut (writer_in task.parked) result }
{
    if task.shared.stays_out() {
        return Served {
            parked: task.into_parked(),
            receiver: None,
        };
    }
    let (parked, receiver) = serve(rt, task);
    Served {
        parked,
        receiver: Some(receiver),
    }
}
