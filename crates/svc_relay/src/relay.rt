//! From a mailbox of pieces into the lives of a logger.
ghost use Rattle.std.specs.Prelude.{◌≡◌, ◌<◌, ◌≤◌, [], true, false, length, take};
ghost use Rattle.std.specs.Io.KnownBytes.{append_known};
ghost use Rattle.tai_status.specs.Counted.{Rose};
ghost use Rattle.svc_mail.specs.Ends.{IsSameReceiver, WasEmpty, taken_by};
ghost use Rattle.svc_relay.specs.Gathering.{Gathers};

use crate::outlet::{Outlet, OutletFault};
use crate::piece::{MOST, Piece};
use crate::turn::RelayTurn;
use std::marker::Model;
use std::sync::Wait;
use svc_mail::receiver::Receiver;
use tai_status::Block;

/// Puts the pieces of a service's output into the input of its logger, and into the input of the next logger if that
/// one dies. Contracts see it as `Passing`, and `IsRelay` is always true of it: the bytes that it took are those that
/// it put into all lives of the logger, followed by those that it keeps.
#[derive(Drop)]
pub struct Relay<O: Outlet> {
    receiver: Receiver<Piece>,
    outlet: O,
    // What was taken at once, and how many bytes of it were put.
    waiting: Block,
    put: usize,
    // How many bytes were put into earlier lives, and into this one.
    earlier: u128,
    here: u128,
}

impl<O: Outlet> Model for Relay<O> {
    ghost use Rattle.svc_relay.specs.Passing.{Passing, IsCounted, passing};

    ghost Value = { Passing };

    ghost view = { λ r. passing r.receiver r.earlier r.here r.waiting r.put (O.bytes r.outlet) (O.failures r.outlet) };

    ghost invariant = { λ r. IsCounted r.receiver r.earlier r.here r.waiting r.put (O.bytes r.outlet) };
}

// Takes the letters that are there, as long as there is room for a whole piece.
fn gather<R: Wait>(rt: &R, receiver: &mut Receiver<Piece>, waiting: &mut Block)
    ensures same { IsSameReceiver receiver.old receiver.new }
    ensures bytes { Gathers receiver.old receiver.new waiting.old waiting.new }
{
    while waiting.room() >= MOST {
        let Some(letter) = receiver.take(rt) else {
            return;
        };
        waiting.push(letter.item.as_slice());
    }
}

// Takes the letters that are there. Returns whether there were any.
fn fill<R: Wait>(rt: &R, receiver: &mut Receiver<Piece>, waiting: &mut Block) -> bool
    requires { waiting.old ≡ [] }

    // The receiver stays the same, and the bytes of the letters that it took wait, in order.
    ensures same { IsSameReceiver receiver.old receiver.new }
    ensures bytes { Gathers receiver.old receiver.new waiting.old waiting.new }

    // If there were letters, at least one byte waits. If there were none, nothing was taken, and the mailbox was empty
    // at one moment, as far as the receiver knows.
    ensures some { result ≡ true → 0 < length waiting.new }
    ensures none { result ≡ false → (waiting.new ≡ []) × (taken_by receiver.new ≡ taken_by receiver.old) }
    ensures empty { result ≡ false → WasEmpty receiver.old }
{
    match receiver.take(rt) {
        Some(first) => {
            waiting.push(first.item.as_slice());
            gather(rt, receiver, waiting);
            true
        }
        None => false,
    }
}

// Puts bytes, until all are put or the outlet fails. Returns how many were put, and whether the outlet failed.
fn put_all<O: Outlet>(outlet: &mut O, bytes: &[u8]) -> (usize, bool)
    // A prefix of the bytes was put, with the length that is returned.
    ensures within { result.0 ≤ length bytes.now }
    ensures front { O.bytes outlet.new ≡ append_known (O.bytes outlet.old) (take result.0 bytes.now) }

    // If the outlet did not fail, this prefix is all of the bytes, and the count of failures stays.
    ensures all { result.1 ≡ false → result.0 ≡ length bytes.now }
    ensures works { result.1 ≡ false → O.failures outlet.new ≡ O.failures outlet.old }

    // If the outlet failed, at least one byte was not put, and the count of failures rises, up to its maximum.
    ensures broken { result.1 ≡ true → result.0 < length bytes.now }
    ensures failed { result.1 ≡ true → Rose (O.failures outlet.old) (O.failures outlet.new) }
{
    let mut at = 0;
    while at < bytes.len() {
        match outlet.put(&bytes[at..]) {
            Ok(count) => at += count,
            Err(OutletFault) => return (at, true),
        }
    }
    (at, false)
}

impl<O: Outlet> Relay<O> {
    ghost use Rattle.std.specs.Prelude.{◌≡◌, ◌<◌, [], true, false, length, IfSome};
    ghost use Rattle.svc_mail.specs.Ends.{taken_by, IsSameReceiver};
    ghost use Rattle.svc_relay.specs.Passing.{HadNone, IsRelay, IsRelayTurn, beginning, next_life};

    /// Returns a relay that begins. The receiver must have taken nothing yet, and nothing may have been put into the
    /// outlet. Needs no memory.
    pub fn new(receiver: Receiver<Piece>, outlet: O) -> Relay<O>
        requires taken { taken_by receiver ≡ [] }
        requires put { IfSome (O.bytes outlet) (λ bytes. bytes ≡ []) }
        ensures { result ≡ beginning receiver (O.bytes outlet) (O.failures outlet) }
    {
        Relay {
            receiver,
            outlet,
            waiting: Block::new(),
            put: 0,
            earlier: 0,
            here: 0,
        }
    }

    /// Puts the bytes that are kept, and takes nothing. If none are kept, it takes the pieces that are there, up to
    /// 32,768 bytes, and puts them. Needs no memory. It may wait: as `Receiver::take` may, and for the outlet.
    ///
    /// `Idle` is returned only if nothing was kept and there was no piece. `Broken`, with the bytes that were not put
    /// kept, is returned only if the outlet failed; a further turn tries the same outlet again.
    pub fn turn<R: Wait>(&mut self, rt: &R) -> RelayTurn
        ensures same { IsSameReceiver self.old.receiver self.new.receiver }
        ensures earlier { self.new.earlier ≡ self.old.earlier }
        ensures bytes { IsRelay self.new }
        ensures kept { 0 < length self.old.kept → self.new.receiver ≡ self.old.receiver }
        ensures turned { IsRelayTurn self.old result self.new }
    {
        if self.refill(rt) {
            self.put()
        } else {
            RelayTurn::Idle
        }
    }

    /// Begins the logger's next life with an outlet into which nothing was put, and returns the old one. The bytes that
    /// are kept continue from the end of the old life.
    pub fn replace(&mut self, outlet: O) -> O
        requires { IfSome (O.bytes outlet) (λ bytes. bytes ≡ []) }
        ensures next { self.new ≡ next_life self.old (O.bytes outlet) (O.failures outlet) }
        ensures old { (O.bytes result ≡ self.old.shown) × (O.failures result ≡ self.old.failures) }
        ensures bytes { IsRelay self.new }
    {
        self.earlier += self.here;
        self.here = 0;
        std::mem::replace(&mut self.outlet, outlet)
    }

    /// Returns how many bytes were put into the earlier lives of the logger.
    pub fn earlier(&self) -> u128
        ensures count { result ≡ length self.now.earlier }
        ensures bytes { IsRelay self.now }
    {
        self.earlier
    }

    // Returns whether there is something to put: the bytes that are kept, or the pieces that are there, which it then
    // keeps.
    fn refill<R: Wait>(&mut self, rt: &R) -> bool
        // The receiver stays the same. Nothing is put, and the outlet did not fail.
        ensures same { IsSameReceiver self.old.receiver self.new.receiver }
        ensures earlier { self.new.earlier ≡ self.old.earlier }
        ensures here { self.new.here ≡ self.old.here }
        ensures outlet { (self.new.shown ≡ self.old.shown) × (self.new.failures ≡ self.old.failures) }

        // If bytes were kept, nothing is taken.
        ensures kept { 0 < length self.old.kept → self.new.receiver ≡ self.old.receiver }

        // If there is something to put, at least one byte is kept. If there is nothing, none was kept, and there was no
        // piece.
        ensures some { result ≡ true → 0 < length self.new.kept }
        ensures none { result ≡ false → HadNone self.old self.new × IsRelay self.new }
    {
        if self.put < self.waiting.as_slice().len() {
            return true;
        }
        self.waiting.clear();
        self.put = 0;
        fill(rt, &mut self.receiver, &mut self.waiting)
    }

    // Puts the bytes that are kept.
    fn put(&mut self) -> RelayTurn
        requires { 0 < length self.old.kept }
        ensures earlier { self.new.earlier ≡ self.old.earlier }
        ensures same { self.new.receiver ≡ self.old.receiver }
        ensures bytes { IsRelay self.new }
        ensures turned { IsRelayTurn self.old result self.new }
    {
        let (count, broken) = put_all(&mut self.outlet, &self.waiting.as_slice()[self.put..]);
        self.put += count;
        self.here += count as u128;
        if broken {
            RelayTurn::Broken
        } else {
            RelayTurn::Moved(count as u64)
        }
    }
}

impl<O: Outlet + Drop> Relay<O> {
    ghost use Rattle.std.specs.Prelude.{◌≡◌};
    ghost use Rattle.svc_relay.specs.Passing.{IsRelay};

    /// Returns the receiver. Drops the outlet, and bytes that are kept.
    pub fn receiver(self) -> Receiver<Piece>
        ensures receiver { result ≡ self.receiver }
        ensures bytes { IsRelay self }
    {
        let Relay {
            receiver,
            outlet: _outlet,
            waiting: _waiting,
            put: _,
            earlier: _,
            here: _,
        } = self;
        receiver
    }
}
