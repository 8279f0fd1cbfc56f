//! From a service's output into a mailbox of pieces.
use crate::piece::{MOST, Piece};
use crate::turn::{IntakeFault, IntakeTurn};
use std::io::Read;
use std::marker::Model;
use std::snapshot::Snapshot;
use std::sync::Wait;
use svc_mail::letter::MailboxFull;
use svc_mail::sender::Sender;
use tai_status::Input;

/// Reads a service's output and posts it, one piece at a time. Contracts see it as `Carrying`, and `IsIntake` is always
/// true of it: the bytes that it read are those that it posted, followed by those that it keeps.
#[derive(Drop)]
pub struct Intake<D: Read> {
    opening: Snapshot<Input<D>>,
    reader: Input<D>,
    sender: Sender<Piece>,
    kept: Option<Piece>,
}

impl<D: Read> Model for Intake<D> {
    ghost use Rattle.svc_relay.specs.Carrying.{Carrying, IsIntake};

    ghost Value = { Carrying };

    ghost view = { λ i. record {
      opening = i.opening.value;
      reader = i.reader;
      sender = i.sender;
      kept = i.kept;
    } };

    ghost invariant = { λ i. IsIntake (record {
      opening = i.opening.value;
      reader = i.reader;
      sender = i.sender;
      kept = i.kept;
    }) };
}

impl<D: Read + Drop> Intake<D> {
    ghost use Rattle.std.specs.Prelude.{◌≡◌, [], None, Some, IsSome, IfOk, OnOk, OnErr};
    ghost use Rattle.tai_status.specs.Counted.{Works};
    ghost use Rattle.svc_mail.specs.Ends.{IsSameSender, posted};
    ghost use Rattle.svc_relay.specs.Carrying.{DidNotRead, IsAtEnd, IsIntake, IsIntakeTurn, IsUnread, beginning};

    /// Returns an intake that begins. The sender must have posted nothing yet. Needs no memory.
    pub fn new(reader: Input<D>, sender: Sender<Piece>) -> Intake<D>
        requires { posted sender ≡ [] }
        ensures { result ≡ beginning reader sender }
    {
        Intake {
            opening: Snapshot::of(&reader),
            reader,
            sender,
            kept: None,
        }
    }

    /// Posts the piece that is kept, without a read. If none is kept, it reads once, at most 512 bytes, and posts them
    /// as one piece. Needs no memory. It may wait: for the reader, and for the mailbox as `Sender::post` may.
    ///
    /// `Idle`, with the piece kept, is returned only if the mailbox refused it. `Ended` is returned only at the
    /// reader's end, with nothing kept; a further turn reads again. The fault `Read` is returned only if the reader
    /// failed.
    pub fn turn<R: Wait>(&mut self, rt: &R) -> Result<IntakeTurn, IntakeFault>
        // The sender stays the same, and no byte is lost: all bytes read since the beginning are posted or kept, in
        // order.
        ensures same { IsSameSender self.old.sender self.new.sender }
        ensures opening { self.new.opening ≡ self.old.opening }
        ensures bytes { IsIntake self.new }

        // If a piece was kept, nothing is read. The result says whether a piece is posted, the mailbox was full, or the
        // reader is at its end.
        ensures kept { IsSome self.old.kept → DidNotRead self.old self.new }
        ensures turned { IfOk result (λ turned. IsIntakeTurn self.old turned self.new) }

        // If it fails, the reader failed, and nothing was posted or is kept. If it succeeds, the reader did not fail.
        ensures works { OnOk result (Works self.old.reader self.new.reader) }
        ensures fault { OnErr result (IsUnread self.old self.new) }
    {
        match self.next()? {
            Some(piece) => Ok(self.post(rt, piece)),
            None => Ok(IntakeTurn::Ended),
        }
    }

    /// Returns the sender. Drops the reader, and a piece that is kept.
    pub fn sender(self) -> Sender<Piece>
        ensures sender { result ≡ self.sender }
        ensures bytes { IsIntake self }
    {
        let Intake {
            opening: _,
            reader: _reader,
            sender,
            kept: _,
        } = self;
        sender
    }

    // Returns the piece that is kept, or reads the next one and keeps it.
    fn next(&mut self) -> Result<Option<Piece>, IntakeFault>
        // Nothing is posted, and no byte is lost: all bytes read since the beginning are posted or kept, in order.
        ensures sender { self.new.sender ≡ self.old.sender }
        ensures opening { self.new.opening ≡ self.old.opening }
        ensures bytes { IsIntake self.new }

        // If it succeeds, the piece that is returned is kept. If one was kept before, nothing is read. If there is
        // none, the reader is at its end.
        ensures found { IfOk result (λ piece. self.new.kept ≡ piece) }
        ensures kept { IsSome self.old.kept → DidNotRead self.old self.new }
        ensures ended { IfOk result (λ piece. piece ≡ None → IsAtEnd self.old self.new) }

        // If it fails, the reader failed, and no piece is kept. If it succeeds, the reader did not fail.
        ensures works { OnOk result (Works self.old.reader self.new.reader) }
        ensures fault { OnErr result (IsUnread self.old self.new) }
    {
        if let Some(piece) = self.kept {
            return Ok(Some(piece));
        }
        let mut buffer = [0; MOST];
        match self.reader.read(&mut buffer) {
            Ok(0) => Ok(None),
            Ok(count) => {
                self.kept = Some(Piece::front(&buffer, count));
                Ok(self.kept)
            }
            Err(_fault) => Err(IntakeFault::Read),
        }
    }

    // Posts the piece that is kept.
    fn post<R: Wait>(&mut self, rt: &R, piece: Piece) -> IntakeTurn
        requires { self.old.kept ≡ Some piece }

        // The sender stays the same, and no byte is lost: all bytes read since the beginning are posted or kept, in
        // order.
        ensures same { IsSameSender self.old.sender self.new.sender }
        ensures opening { self.new.opening ≡ self.old.opening }
        ensures bytes { IsIntake self.new }

        // Nothing is read. Either the piece is posted and none is kept, or the mailbox was full and the piece is still
        // kept.
        ensures kept { DidNotRead self.old self.new }
        ensures turned { IsIntakeTurn self.old result self.new }
    {
        let count = piece.len() as u64;
        match self.sender.post(rt, piece) {
            Ok(()) => {
                self.kept = None;
                IntakeTurn::Moved(count)
            }
            Err(MailboxFull(_piece)) => IntakeTurn::Idle,
        }
    }
}
