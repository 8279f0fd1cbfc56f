//! What one connection does.
use crate::byte_source::{ByteSource, Heard};
use crate::rests::{next_look, spoken};
use std::marker::Model;
use std::sync::Wait;
use svc_house::ControlSender;
use svc_mail::letter::MailboxFull;

/// The most bytes that are read from a connection. After them it is over.
pub const MOST: usize = 4096;

/// The most bytes of one read.
pub const PIECE: usize = 64;

/// The state in which a turn leaves a connection.
#[derive(Clone, Copy, Debug, PartialEq, Eq)]
pub enum Turn {
    /// All that was read is posted, and the connection has no bytes for now.
    Waits,
    /// The mailbox was full, and refused a byte. It is kept, and comes first in the next turn.
    Full,
    /// All that was read is posted. Either the connection has ended or failed, or 4096 bytes from it were posted.
    Ended,
}

/// One connection that gives control bytes, and when it last gave some. Each turn lends it the sender of a mailbox.
/// Contracts see it as `ConnectionState`. `law::turns_post_the_first_bytes` states what its turns do together.
#[derive(Drop)]
pub struct Connection<G: ByteSource> {
    source: G,
    // What was read last, and which part of it is not posted yet.
    piece: [u8; PIECE],
    from: usize,
    to: usize,
    // How many bytes were read.
    taken: usize,
    spoke: u64,
    // Whether an event announces its bytes.
    watched: bool,
}

impl<G: ByteSource> Model for Connection<G> {
    ghost use Rattle.std.specs.Prelude.{◌≡◌, ◌≤◌, length, drop, take};
    ghost use Rattle.svc_door.specs.declared.connection.TheConstants.{MOST, PIECE};
    ghost use Rattle.svc_door.specs.Connection.{ConnectionState};

    ghost Value = { ConnectionState };

    ghost view = { λ v. record {
      left = G.left v.source;
      said = G.said v.source;
      kept = drop v.from (take v.to v.piece);
      taken = v.taken;
      spoke = v.spoke;
      watched = v.watched;
    } };

    ghost invariant = { λ v. (v.from ≤ v.to) × (v.to ≤ PIECE) × (length v.piece ≡ PIECE) × (v.taken ≤ MOST) };
}

impl<G: ByteSource> Connection<G> {
    ghost use Rattle.std.specs.Prelude.{◌≡◌, ◌≤◌, ◌<◌, ◌+◌, [], length, nat_lt, true, false};
    ghost use Rattle.std.specs.Io.KnownBytes.{Consumes};
    ghost use Rattle.svc_mail.specs.Ends.{IsSameSender, WasFull};
    ghost use Rattle.svc_house.specs.Mail.{posted_by, sender_in};
    ghost use Rattle.svc_door.specs.Connection.{IsLeft, Posts, Reads, Said, beginning};
    ghost use Rattle.svc_door.specs.Rests.{spoke_at, looked_at};
    ghost use Rattle.svc_door.specs.declared.connection.TheConstants.{MOST};
    ghost use Rattle.svc_door.specs.declared.connection.Turn.TheVariants as turn;

    /// Returns a connection that begins now: nothing from it is read. `watched` says whether an event announces its
    /// bytes.
    pub fn new(source: G, watched: bool, now: u64) -> Connection<G>
        ensures { result ≡ beginning (G.left source) (G.said source) watched now }
    {
        Connection {
            source,
            piece: [0; PIECE],
            from: 0,
            to: 0,
            taken: 0,
            spoke: now,
            watched,
        }
    }

    /// Reads what the connection has, and posts it byte by byte. It needs no memory.
    ///
    /// `Waits` is returned only if the connection had no bytes for now. `Full` is returned only if the mailbox was full
    /// at the next byte: it is kept, and nothing is read before it is posted. `Ended` is returned exactly if 4096 bytes
    /// were posted, or the connection ended or failed. A further turn reads again, if fewer than 4096 bytes were read.
    pub fn turn<R: Wait>(&mut self, rt: &R, sender: &mut ControlSender, now: u64) -> Turn
        // The sender posts what was kept and then what was read, in order. The rest is kept, and the sender stays the
        // same.
        ensures posts { Posts (posted_by sender.old) (posted_by sender.new) self.old self.new }
        ensures same_sender { IsSameSender (sender_in sender.old) (sender_in sender.new) }

        // The result describes the connection after the turn. If it is `Full`, the mailbox was full at one moment, as
        // far as the sender knows.
        ensures left { IsLeft result self.new }
        ensures full { result ≡ turn.Full → WasFull (sender_in sender.new) }

        // The time at which the connection last gave bytes is now if it gave some or some are kept, and otherwise
        // stays. Whether an event announces its bytes stays as it was.
        ensures spoke { self.new.spoke ≡ spoke_at result (nat_lt self.old.taken self.new.taken) self.old.spoke now }
        ensures watched { self.new.watched ≡ self.old.watched }
    {
        let before = self.taken;
        let turn = self.serve(rt, sender);
        self.spoke = spoken(turn, self.taken > before, self.spoke, now);
        turn
    }

    /// Returns when the door looks at the connection again after such a turn. `None`: it is over, or was silent for 5
    /// s.
    pub fn next_look(&self, turn: Turn, now: u64) -> Option<u64>
        ensures { result ≡ looked_at turn self.now.watched self.now.spoke now }
    {
        next_look(turn, self.watched, self.spoke, now)
    }

    // Reads what the connection has, and posts it.
    fn serve<R: Wait>(&mut self, rt: &R, sender: &mut ControlSender) -> Turn
        ensures posts { Posts (posted_by sender.old) (posted_by sender.new) self.old self.new }
        ensures same_sender { IsSameSender (sender_in sender.old) (sender_in sender.new) }
        ensures left { IsLeft result self.new }
        ensures full { result ≡ turn.Full → WasFull (sender_in sender.new) }
        ensures same { (self.new.spoke ≡ self.old.spoke) × (self.new.watched ≡ self.old.watched) }
    {
        if !self.post_kept(rt, sender) {
            return Turn::Full;
        }
        while self.taken < MOST {
            match self.read() {
                Heard::Bytes(_) => {
                    if !self.post_kept(rt, sender) {
                        return Turn::Full;
                    }
                }
                Heard::Nothing => return Turn::Waits,
                Heard::End | Heard::Fault => return Turn::Ended,
            }
        }
        Turn::Ended
    }

    // Posts what is kept. Returns whether all of it was accepted.
    fn post_kept<R: Wait>(&mut self, rt: &R, sender: &mut ControlSender) -> bool
        // The sender posts a prefix of what was kept, and stays the same.
        ensures posts { Posts (posted_by sender.old) (posted_by sender.new) self.old self.new }
        ensures same_sender { IsSameSender (sender_in sender.old) (sender_in sender.new) }

        // Nothing is read, and nothing else of the connection changes.
        ensures unread { (self.new.left ≡ self.old.left) × (self.new.said ≡ self.old.said)
            × (self.new.taken ≡ self.old.taken) }
        ensures same { (self.new.spoke ≡ self.old.spoke) × (self.new.watched ≡ self.old.watched) }

        // The result is true exactly if nothing is kept any more. If it is false, the mailbox was full at one moment,
        // as far as the sender knows.
        ensures all { result ≡ true → self.new.kept ≡ [] }
        ensures some { result ≡ false → 0 < length self.new.kept }
        ensures full { result ≡ false → WasFull (sender_in sender.new) }
    {
        while self.from < self.to {
            match sender.post(rt, self.piece[self.from]) {
                Ok(()) => self.from += 1,
                Err(MailboxFull(_byte)) => return false,
            }
        }
        true
    }

    // Reads once, no more than the connection may still give.
    fn read(&mut self) -> Heard
        requires none { self.old.kept ≡ [] }
        requires some { self.old.taken < MOST }

        // The bytes that are kept are the next ones that the connection gave. They are counted, and with all earlier
        // ones they are at most 4096.
        ensures gives { Consumes self.old.left self.new.left self.new.kept }
        ensures count { self.new.taken ≡ self.old.taken + length self.new.kept }
        ensures most { self.new.taken ≤ MOST }

        // The result is the number of these bytes, or why there are none. It is also the last result that the
        // connection keeps, if it keeps that.
        ensures reads { Reads result self.old self.new }
        ensures said { Said self.new result }

        // The end of the turn, and not the read, sets when the connection last gave bytes.
        ensures same { (self.new.spoke ≡ self.old.spoke) × (self.new.watched ≡ self.old.watched) }
    {
        let room = PIECE.min(MOST - self.taken);
        let mut piece = [0; PIECE];
        let heard = self.source.hear(&mut piece[..room]);
        if let Heard::Bytes(count) = heard {
            self.piece = piece;
            self.from = 0;
            self.to = count;
            self.taken += count;
        }
        heard
    }
}
