//! The door's thread, and the handle to it.
use crate::rests::{in_millis, poll_limit};
use crate::table::{AdmissionFault, Next, Table, WAKER};
use mio::net::UnixListener;
use mio::{Events, Poll, Registry, Waker};
use std::alloc::Global;
use std::net::Net;
use std::sync::{Arc, Mutex, Wait};
use std::thread::{Builder, JoinHandle, Threads};
use std::time::{Clock, Duration};
use std::{io, thread};
use svc_house::{ControlSender, Runtime};

/// The most events that one poll gives.
const EVENTS: usize = 256;

/// How many milliseconds the thread rests after a poll failed.
const FAILED: u64 = 100;

// What the handle and the thread share.
#[derive(Drop)]
struct DoorShared {
    table: Mutex<Table>,
    registry: Registry,
    waker: Waker,
}

/// The door: a thread that serves the control and ok sockets of all admitted parts.
///
/// A door that is dropped without being closed continues with its parts as long as the process runs.
#[derive(Drop)]
pub struct Door {
    shared: Arc<DoorShared, Global>,
    thread: JoinHandle<()>,
}

impl Door {
    ghost use Rattle.std.specs.Prelude.{◌≡◌, IfErr};

    /// Opens a door with no part, and starts its thread.
    pub fn open<R: Net + Runtime>(rt: &R, alloc: Global) -> io::Result<Door> {
        let poll = Poll::new(rt)?;
        let events = Events::with_capacity(alloc, EVENTS)?;
        let shared = Arc::new(
            alloc,
            DoorShared {
                table: Mutex::new(Table::new(alloc)),
                registry: poll.registry().try_clone()?,
                waker: Waker::new(poll.registry(), WAKER)?,
            },
        )?;
        let theirs = Arc::try_clone(&shared)?;
        let thread = start(*rt, poll, events, theirs)?;
        Ok(Door { shared, thread })
    }

    /// Serves the sockets of a part from now on. `number` names the part, and no other part at the door has it.
    ///
    /// After a fault, such as a lack of memory, nothing of the part is at the door, both listeners are closed, and the
    /// sender is given back.
    pub fn admit<R: Wait>(
        &self,
        rt: &R,
        number: u64,
        sender: ControlSender,
        control: UnixListener,
        ok: UnixListener,
    ) -> Result<(), AdmissionFault>
        ensures sender { IfErr result (λ refused. refused.sender ≡ sender) }
    {
        self.shared
            .table
            .lock(rt)
            .admit(number, sender, control, ok, &self.shared.registry)
    }

    /// Closes the listeners and the connection of a part, and returns its sender: nothing more is posted through it.
    /// `None`: no part with this number is at the door.
    pub fn dismiss<R: Wait>(&self, rt: &R, number: u64) -> Option<ControlSender> {
        self.shared.table.lock(rt).dismiss(number)
    }

    /// Ends the thread, joins it, and closes all listeners and connections.
    pub fn close<R: Wait + Threads>(self, rt: &R) {
        let Door { shared, thread } = self;
        shared.table.lock(rt).end();
        let _ = shared.waker.wake();
        thread.join(rt)
    }
}

/// Reads the running clock, in milliseconds.
fn time(clock: &impl Clock) -> u64 {
    in_millis(clock.monotonic())
}

/// Starts the door's thread.
fn start<R: Runtime>(
    rt: R,
    poll: Poll,
    events: Events<Global>,
    shared: Arc<DoorShared, Global>,
) -> io::Result<JoinHandle<()>> {
    Builder::new()
        .stack_size(1)
        .spawn(&rt, move || run(&rt, poll, events, &shared))
}

/// Runs the door's thread.
fn run<R: Wait + Clock>(rt: &R, mut poll: Poll, mut events: Events<Global>, shared: &DoorShared) {
    let mut due: Option<u64> = None;
    for _ in rt.forever() {
        let limit = poll_limit(due, time(rt));
        if poll.poll(&mut events, limit).is_err() {
            thread::sleep(rt, Duration::from_millis(FAILED));
        }
        let mut table = shared.table.lock(rt);
        match table.round(rt, poll.registry(), &events, time(rt)) {
            Next::Ends => return,
            Next::Polls(soonest) => due = soonest,
        }
    }
}
