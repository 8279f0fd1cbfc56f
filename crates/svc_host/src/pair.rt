//! The two threads that carry a pair's output to its logger. One reads the output. At the first bytes it starts the
//! other one, which puts the output into the logger. Until then there is no box, and no block.
ghost use Rattle.std.specs.Prelude.{◌≡◌, ◌<◌, [], true, false, IfSome, IfErr, IfOk, None, OnOk};
ghost use mathlib.Core.List.{IsPrefix};
ghost use Rattle.tai_status.specs.Counted.{IsRead};
ghost use Rattle.svc_house.specs.Calls.{MadeWhileKept};
ghost use Rattle.svc_host.specs.Calls.{AsksPair, MadePair};
ghost use Rattle.svc_mail.specs.Ends.{IsSameReceiver, IsSameSender, home, posted, receiver_home, taken_by};
ghost use Rattle.svc_relay.specs.Whole.{bytes_put};

use crate::ends::open_box;
use crate::growing_reader::GrowingReader;
use crate::maker::{Maker, Outlets, PartFault};
use crate::shared::PairShared;
use cmd_base::millis_between;
use core::thread::Anything;
use std::alloc::Global;
use std::io::Read;
use std::sync::{Arc, Wait};
use std::thread::{Builder, Threads};
use std::time::{Clock, Duration};
use svc_house::{News, Notifier};
use svc_mail::receiver::Receiver;
use svc_mail::sender::Sender;
use svc_relay::intake::Intake;
use svc_relay::outlet::Outlet;
use svc_relay::piece::Piece;
use svc_relay::relay::Relay;
use svc_relay::turn::{IntakeTurn, RelayTurn};
use tai_status::{Cause, Input};

/// The size of a stack: a relay gathers 32 KiB in it.
const STACK: usize = 256 * 1024;

/// The milliseconds that a thread rests before it repeats a failed call.
const AGAIN_MILLIS: u64 = 100;

/// What the thread of an intake gets.
#[derive(Drop)]
struct Taking<D: Read + Drop, S: Drop> {
    alloc: Global,
    output: GrowingReader<D>,
    // The most pieces that wait.
    capacity: usize,
    putting: Putting<S>,
    ghost some: { 0 < capacity },
}

/// What the thread of a relay gets, besides the receiver.
#[derive(Drop)]
struct Putting<S: Drop> {
    outlets: S,
    shared: Arc<PairShared, Global>,
}

/// The receiver of a pair's box, which has taken nothing.
#[derive(Drop)]
struct NewReceiver {
    receiver: Receiver<Piece>,
    ghost untaken: { taken_by receiver ≡ [] },
}

/// Rests before a failed call is repeated.
fn rest_before_again<R: Wait>(rt: &R, notifier: &Notifier) {
    notifier.wait(rt, Some(Duration::from_millis(AGAIN_MILLIS)));
}

/// Waits for the first bytes of a pair's output. Returns whether there are any; if not, the output has ended, or the
/// pair leaves. A failed read is repeated.
fn has_begun<D: Read + Drop, R: Wait>(
    rt: &R,
    output: &mut GrowingReader<D>,
    shared: &PairShared,
) -> bool {
    for _ in rt.forever() {
        match output.fill() {
            Ok(is_there) => return is_there,
            Err(_) if shared.leaves() => return false,
            Err(_) => rest_before_again(rt, &shared.emptied),
        }
    }
    unreachable!()
}

/// Opens a box for this many pieces, once there is memory for it. Returns None if the pair leaves first.
fn open_in_time<R: Wait>(
    rt: &R,
    alloc: Global,
    capacity: usize,
    shared: &PairShared,
) -> Option<(Sender<Piece>, Receiver<Piece>)>
    requires { 0 < capacity }
    ensures unposted { IfSome result (λ ends. posted ends.0 ≡ []) }
    ensures untaken { IfSome result (λ ends. taken_by ends.1 ≡ []) }
    ensures same { IfSome result (λ ends. home ends.0 ≡ receiver_home ends.1) }
{
    for _ in rt.forever() {
        if let Some(ends) = open_box(alloc, capacity) {
            return Some(ends);
        }
        if shared.leaves() {
            return None;
        }
        rest_before_again(rt, &shared.emptied);
    }
    unreachable!()
}

/// Reads a pair's output and posts it, until it ends or the pair leaves. A failed read is repeated. Returns whether the
/// output has ended: then all of it is posted.
fn post_all<D: Read + Drop, R: Wait>(rt: &R, intake: &mut Intake<D>, shared: &PairShared) -> bool
    ensures same { IsSameSender intake.old.sender intake.new.sender }
    ensures opening { intake.new.opening ≡ intake.old.opening }
    ensures all { result ≡ true → IsRead intake.new.reader × (intake.new.kept ≡ None) }
{
    for _ in rt.forever() {
        match intake.turn(rt) {
            Ok(IntakeTurn::Moved(count)) => shared.filled.notify(News::moved(count)),
            Ok(IntakeTurn::Idle) => {
                if shared.leaves() {
                    return false;
                }
                shared.emptied.wait(rt, None);
            }
            Ok(IntakeTurn::Ended) => return true,
            Err(_) => {
                if shared.leaves() {
                    return false;
                }
                rest_before_again(rt, &shared.emptied);
            }
        }
    }
    unreachable!()
}

/// Reads a pair's output until it ends, or the pair leaves.
///
/// Its stack holds an intake's pieces. They are not part of the caller's stack before this is called.
#[inline(never)]
fn read_all<D: Read + Drop, R: Wait>(
    rt: &R,
    output: GrowingReader<D>,
    sender: Sender<Piece>,
    shared: &PairShared,
)
    requires { posted sender ≡ [] }
{
    let mut intake = Intake::new(Input::new(output), sender);
    if post_all(rt, &mut intake, shared) {
        shared.end();
    }
}

/// Returns the logger's next input, once there is one. Returns None if the pair leaves first.
fn next_outlet<O: Outlet + Drop, S: Outlets<O>, R: Wait>(
    rt: &R,
    outlets: &mut S,
    shared: &PairShared,
) -> Option<O>
    ensures { IfSome result (λ outlet. IfSome (O.bytes outlet) (λ bytes. bytes ≡ [])) }
{
    for _ in rt.forever() {
        if let Some(outlet) = outlets.next() {
            return Some(outlet);
        }
        if shared.leaves() {
            return None;
        }
        shared.filled.wait(rt, None);
    }
    unreachable!()
}

/// Begins the logger's next life, if there is one, and returns whether there is. What was put is not put again.
fn begin_life<O: Outlet + Drop, S: Outlets<O>>(relay: &mut Relay<O>, outlets: &mut S) -> bool
    ensures same { IsSameReceiver relay.old.receiver relay.new.receiver }
    ensures bytes { bytes_put relay.new ≡ bytes_put relay.old }
    ensures begins { result ≡ true → (relay.new.here ≡ []) × IfSome relay.new.shown (λ bytes. bytes ≡ []) }
    ensures none { result ≡ false → relay.new ≡ relay.old }
{
    match outlets.next() {
        Some(outlet) => {
            drop(relay.replace(outlet));
            true
        }
        None => false,
    }
}

/// Puts a pair's output into its logger, from life to life, until the pair leaves, or the output has ended and all of
/// it is put. A failed write is repeated, if the logger has no next input yet. What is put only grows: no byte is put
/// twice, and no byte that was put is taken back.
fn put_on<O: Outlet + Drop, S: Outlets<O>, R: Wait>(
    rt: &R,
    relay: &mut Relay<O>,
    outlets: &mut S,
    shared: &PairShared,
)
    ensures same { IsSameReceiver relay.old.receiver relay.new.receiver }
    ensures bytes { IsPrefix (bytes_put relay.old) (bytes_put relay.new) }
{
    for _ in rt.forever() {
        // This comes before the turn, so that a turn that finds nothing after it has taken everything.
        let is_last = shared.has_ended();
        match relay.turn(rt) {
            RelayTurn::Moved(count) => shared.emptied.notify(News::moved(count)),
            RelayTurn::Idle => {
                if is_last || shared.leaves() {
                    return;
                }
                shared.filled.wait(rt, None);
            }
            RelayTurn::Broken => {
                if !begin_life(relay, outlets) {
                    if shared.leaves() {
                        return;
                    }
                    rest_before_again(rt, &shared.filled);
                }
            }
        }
    }
}

/// Puts a pair's output into its logger, once the logger has an input. That input ends when this returns.
fn put_all<O: Outlet + Drop, S: Outlets<O> + Drop, R: Wait>(
    rt: &R,
    receiver: Receiver<Piece>,
    mut outlets: S,
    shared: &PairShared,
)
    requires { taken_by receiver ≡ [] }
{
    let Some(first) = next_outlet::<O, S, R>(rt, &mut outlets, shared) else {
        return;
    };
    let mut relay = Relay::new(receiver, first);
    put_on(rt, &mut relay, &mut outlets, shared);
}

/// What the thread of a relay does.
fn put_out<O: Outlet + Drop, S: Outlets<O> + Drop, R: Wait>(
    rt: &R,
    receiver: NewReceiver,
    putting: Putting<S>,
) {
    let NewReceiver { receiver } = receiver;
    let Putting { outlets, shared } = putting;
    put_all::<O, S, R>(rt, receiver, outlets, &shared);
    shared.put();
}

/// Starts the thread of a relay, once there can be one. Returns whether it runs; if not, the pair left first.
fn start_in_time<
    O: Outlet + Drop + Send + 'static,
    S: Outlets<O> + Drop + Send + 'static,
    R: Threads + Wait + Copy + Drop + Send + 'static,
>(rt: R, receiver: NewReceiver, putting: Putting<S>, shared: &PairShared) -> bool {
    let mut work = move || put_out::<O, S, R>(&rt, receiver, putting);
    for _ in rt.forever() {
        let started = Builder::new()
            .stack_size(STACK)
            .spawn_with(&rt, Anything, work);
        match started {
            Ok(_thread) => return true,
            Err(refused) => work = refused.value,
        }
        if shared.leaves() {
            return false;
        }
        rest_before_again(&rt, &shared.emptied);
    }
    unreachable!()
}

/// Reads a pair's output, and starts its relay at the first bytes. Returns whether a relay was started. If not, there
/// were no bytes, or the pair leaves, and the logger's input ends here.
fn carry<
    D: Read + Drop,
    O: Outlet + Drop + Send + 'static,
    S: Outlets<O> + Drop + Send + 'static,
    R: Threads + Wait + Copy + Drop + Send + 'static,
>(rt: R, task: Taking<D, S>, shared: &PairShared) -> bool {
    let Taking {
        alloc,
        mut output,
        capacity,
        putting,
    } = task;
    if !has_begun(&rt, &mut output, shared) {
        shared.end();
        return false;
    }
    let Some((sender, receiver)) = open_in_time(&rt, alloc, capacity, shared) else {
        return false;
    };
    let is_begun = start_in_time::<O, S, R>(rt, NewReceiver { receiver }, putting, shared);
    if is_begun {
        read_all(&rt, output, sender, shared);
    }
    is_begun
}

/// What the thread of an intake does. If it starts no relay, nothing is left to put.
fn take_in<
    D: Read + Drop,
    O: Outlet + Drop + Send + 'static,
    S: Outlets<O> + Drop + Send + 'static,
    R: Threads + Wait + Copy + Drop + Send + 'static,
>(rt: R, task: Taking<D, S>, shared: &PairShared) {
    if !carry::<D, O, S, R>(rt, task, shared) {
        shared.put();
    }
}

/// A pair whose threads run. They end once it is dropped.
pub(crate) struct Pair {
    pub(crate) slot: u64,
    shared: Arc<PairShared, Global>,
    // When the wait for its end began, by the running clock.
    waits_since: Option<Duration>,
}

impl Drop for Pair {
    fn drop(self) {
        let Pair {
            slot: _,
            shared,
            waits_since: _,
        } = self;
        shared.leave();
    }
}

impl Pair {
    /// Starts the thread that reads a pair's output. A fault says why it can't be started.
    pub(crate) fn start<M: Maker, R: Threads + Wait + Copy + Drop + Send + 'static>(
        rt: R,
        alloc: Global,
        maker: &mut M,
        name: &str,
        slot: u64,
        capacity: usize,
    ) -> Result<Pair, PartFault>
        requires { 0 < capacity }
        ensures slot { IfOk result (λ pair. pair.slot ≡ slot) }
        ensures asked { OnOk result (MadeWhileKept M.calls (MadePair slot name.now None) maker.old maker.new) }
        ensures failed { IfErr result (λ fault. AsksPair slot name.now fault (M.calls maker.old) (M.calls maker.new)) }
    {
        let Ok(shared) = Arc::new(alloc, PairShared::new(alloc)?) else {
            return Err(PartFault::Refused(Cause::NoMemory));
        };
        let (output, outlets) = maker.pair(name, slot)?;
        let taking = Taking {
            alloc,
            output: GrowingReader::new(alloc, output)?,
            capacity,
            putting: Putting {
                outlets,
                shared: Arc::try_clone(&shared)?,
            },
        };
        let own = Arc::try_clone(&shared)?;
        let reading = Builder::new().stack_size(STACK).spawn(
            &rt,
            move || take_in::<M::Output, M::Outlet, M::Outlets, R>(rt, taking, &own),
        );
        if reading.is_err() {
            return Err(PartFault::Refused(Cause::NoThread));
        }
        Ok(Pair {
            slot,
            shared,
            waits_since: None,
        })
    }

    /// Returns whether its output has ended, and all of it is in the input of its logger.
    pub(crate) fn is_put(&self) -> bool {
        self.shared.is_put()
    }

    /// Begins to wait for its end, if that wait has not begun. Returns how many milliseconds ago it began.
    pub(crate) fn wait_on(&mut self, clock: &impl Clock) -> u64 {
        let Ok(now) = clock.monotonic() else {
            return u64::MAX;
        };
        let Some(begin) = self.waits_since else {
            self.waits_since = Some(now);
            return 0;
        };
        millis_between(begin, now)
    }
}
