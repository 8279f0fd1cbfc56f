ghost use Rattle.std.specs.Prelude.{◌≡◌, ◌++◌, ◌<◌, [], IfOk};
ghost use Rattle.svc_mail.specs.Ends.{IsItsReceiver, box_of, home, number_of, posted, senders_in, taken_by};
ghost use Rattle.svc_relay.specs.Whole.{bytes_between, bytes_put, bytes_read};

use std::alloc::{AllocError, Global};
use std::cell::Cell;
use std::io::{BufReader, Read};
use std::sync::Wait;
use std::test::Fail;
use std::thread::Threads;
use std::{io, thread};
use svc_mail::letters::Letters;
use svc_mail::mailbox::Mailbox;
use svc_mail::receiver::Receiver;
use svc_mail::sender::Sender;
use svc_relay::intake::Intake;
use svc_relay::outlet::{Outlet, OutletFault};
use svc_relay::piece::Piece;
use svc_relay::relay::Relay;
use svc_relay::turn::{IntakeFault, IntakeTurn, RelayTurn};
use svc_relay::whole::every_byte_passes;
use tai_status::{Counted, Input};
use test_base::Slow;

/// The input of one life of a logger. It takes at most two bytes in each put, and this many in all, and then fails.
#[derive(Drop)]
struct Life {
    held: Vec<u8>,
    room: usize,
    failures: u64,
}

impl Life {
    fn taking(alloc: Global, room: usize) -> Life
        ensures { result.held.items ≡ [] }
    {
        Life {
            held: Vec::new(alloc),
            room,
            failures: 0,
        }
    }
}

impl Outlet for Life {
    ghost use Rattle.std.specs.Prelude.{Some};

    ghost failures = { λ life. life.failures };

    ghost bytes = { λ life. Some life.held.items };

    fn put(&mut self, piece: &[u8]) -> Result<usize, OutletFault> {
        let count = piece.len().min(self.room).min(2);
        if count > 0 || piece.is_empty() {
            if let Ok(()) = self.held.extend_from_slice(&piece[..count]) {
                self.room -= count;
                return Ok(count);
            }
        }
        self.failures = self.failures.saturating_add(1);
        Err(OutletFault)
    }
}

// Opens a mailbox of pieces with one sender. Returns it with its receiver, and the vector that held the sender.
fn open(
    alloc: Global,
    capacity: usize,
) -> Result<
    (
        Mailbox<Piece>,
        Sender<Piece>,
        Receiver<Piece>,
        Vec<Sender<Piece>>,
    ),
    AllocError,
>
    requires { 0 < capacity }
    ensures sender { IfOk result (λ r. (home r.1 ≡ box_of r.0) × (number_of r.1 ≡ 0) × (posted r.1 ≡ [])) }
    ensures receiver { IfOk result (λ r. IsItsReceiver r.0 r.2 × (senders_in r.0 ≡ 1) × (taken_by r.2 ≡ [])) }
    ensures room { IfOk result (λ r. r.3.items ≡ []) }
{
    let (mailbox, mut senders, receiver) = Mailbox::open(alloc, capacity, 1)?;
    let sender = senders.pop().unwrap();
    Ok((mailbox, sender, receiver, senders))
}

// Closes the mailbox between an intake and a relay. What was read is what was put, followed by what is still between
// them.
fn close_one<D: Read + Drop, O: Outlet + Drop, R: Wait>(
    rt: &R,
    mailbox: Mailbox<Piece>,
    intake: Intake<D>,
    relay: Relay<O>,
    mut ends: Vec<Sender<Piece>>,
) -> Result<Letters<Piece>, AllocError>
    requires sender { (home intake.sender ≡ box_of mailbox) × (number_of intake.sender ≡ 0) }
    requires receiver { IsItsReceiver mailbox relay.receiver × (senders_in mailbox ≡ 1) }
    requires room { ends.items ≡ [] }
    ensures { IfOk result (λ left. bytes_read intake ≡ bytes_put relay ++ bytes_between intake relay left) }
{
    every_byte_passes();
    let sender = intake.sender();
    let receiver = relay.receiver();
    ends.push(sender)?;
    match mailbox.close(rt, ends, receiver) {
        Ok(left) => Ok(left),
        Err(_refused) => Err(AllocError),
    }
}

#[test]
fn the_next_logger_goes_on_where_one_died(rt: HostRuntime) -> Result<(), Fail> {
    let (mailbox, sender, receiver, ends) = open(rt.alloc(), 4)?;
    let mut intake = Intake::new(Counted::new(Slow::ending(b"abcdef", 512)), sender);
    let mut relay = Relay::new(receiver, Life::taking(rt.alloc(), 2));
    assert_eq!(rt; relay.turn(&rt), RelayTurn::Idle);
    assert_eq!(rt; intake.turn(&rt), Ok(IntakeTurn::Moved(6)));
    assert_eq!(rt; relay.turn(&rt), RelayTurn::Broken);
    assert_eq!(rt; relay.turn(&rt), RelayTurn::Broken);
    let first = relay.replace(Life::taking(rt.alloc(), 100));
    assert_eq!(rt;
        (first.held.as_slice(), first.failures),
        (b"ab".as_slice(), 2)
    );
    assert_eq!(rt; relay.earlier(), 2);
    assert_eq!(rt; relay.turn(&rt), RelayTurn::Moved(4));
    assert_eq!(rt; relay.turn(&rt), RelayTurn::Idle);
    assert_eq!(rt; intake.turn(&rt), Ok(IntakeTurn::Ended));
    let second = relay.replace(Life::taking(rt.alloc(), 0));
    assert_eq!(rt;
        (second.held.as_slice(), second.failures),
        (b"cdef".as_slice(), 0)
    );
    assert_eq!(rt; relay.earlier(), 6);
    assert_eq!(rt; close_one(&rt, mailbox, intake, relay, ends)?.len(), 0);
    Ok(())
}

#[test]
fn a_logger_may_die_at_each_byte(rt: HostRuntime) -> Result<(), Fail> {
    let text = b"abcdefg".as_slice();
    for room in 0..8usize {
        let (_mailbox, sender, receiver, _ends) = open(rt.alloc(), 4)?;
        let mut intake = Intake::new(Counted::new(Slow::ending(text, 4)), sender);
        let mut relay = Relay::new(receiver, Life::taking(rt.alloc(), room));
        assert_eq!(rt; intake.turn(&rt), Ok(IntakeTurn::Moved(4)));
        assert_eq!(rt; intake.turn(&rt), Ok(IntakeTurn::Moved(3)));
        let broken = relay.turn(&rt) == RelayTurn::Broken;
        assert_eq!(rt; broken, room < 7);
        let first = relay.replace(Life::taking(rt.alloc(), 100));
        assert_eq!(rt; first.held.as_slice(), &text[..room.min(text.len())]);
        assert_eq!(rt; relay.turn(&rt) == RelayTurn::Idle, room == 7);
        let last = relay.replace(Life::taking(rt.alloc(), 0));
        assert_eq!(rt; last.held.as_slice(), &text[room.min(text.len())..]);
        assert_eq!(rt; relay.turn(&rt), RelayTurn::Idle);
    }
    Ok(())
}

#[test]
fn each_logger_may_live_for_a_byte(rt: HostRuntime) -> Result<(), Fail> {
    let text = b"abcdefg".as_slice();
    let (_mailbox, sender, receiver, _ends) = open(rt.alloc(), 4)?;
    let mut intake = Intake::new(Counted::new(Slow::ending(text, 4)), sender);
    let mut relay = Relay::new(receiver, Life::taking(rt.alloc(), 1));
    assert_eq!(rt; intake.turn(&rt), Ok(IntakeTurn::Moved(4)));
    for life in 0..7usize {
        let broken = relay.turn(&rt) == RelayTurn::Broken;
        // The last byte of each piece ends a life without a failure.
        assert_eq!(rt; broken, life != 3 && life != 6);
        if life == 3 {
            assert_eq!(rt; intake.turn(&rt), Ok(IntakeTurn::Moved(3)));
        }
        let old = relay.replace(Life::taking(rt.alloc(), 1));
        assert_eq!(rt; old.held.as_slice(), &text[life..=life]);
    }
    assert_eq!(rt; relay.earlier(), 7);
    assert_eq!(rt; relay.turn(&rt), RelayTurn::Idle);
    Ok(())
}

/// A reader that counts its reads, and gives two bytes in each read.
#[derive(Drop)]
struct Watched<'a> {
    reads: &'a Cell<u64>,
    bytes: &'a [u8],
}

impl Read for Watched<'_> {
    ghost use Rattle.std.specs.Prelude.{Some};

    ghost remaining = { λ watched. Some watched.bytes.now };

    fn read(&mut self, buf: &mut [u8]) -> io::Result<usize> {
        self.reads.set(self.reads.get().saturating_add(1));
        let count = self.bytes.len().min(buf.len()).min(2);
        buf[..count].copy_from_slice(&self.bytes[..count]);
        self.bytes = &self.bytes[count..];
        Ok(count)
    }
}

#[test]
fn a_piece_waits_while_the_mailbox_is_full(rt: HostRuntime) -> Result<(), Fail> {
    let reads = Cell::new(0);
    let reader = Counted::new(Watched {
        reads: &reads,
        bytes: b"abcde",
    });
    let (mailbox, sender, receiver, ends) = open(rt.alloc(), 1)?;
    let mut intake = Intake::new(reader, sender);
    let mut relay = Relay::new(receiver, Life::taking(rt.alloc(), 100));
    // Each turn reads once, and does not wait for a full piece.
    assert_eq!(rt;
        (intake.turn(&rt), reads.get()),
        (Ok(IntakeTurn::Moved(2)), 1)
    );
    assert_eq!(rt; (intake.turn(&rt), reads.get()), (Ok(IntakeTurn::Idle), 2));
    assert_eq!(rt; (intake.turn(&rt), reads.get()), (Ok(IntakeTurn::Idle), 2));
    assert_eq!(rt; relay.turn(&rt), RelayTurn::Moved(2));
    assert_eq!(rt;
        (intake.turn(&rt), reads.get()),
        (Ok(IntakeTurn::Moved(2)), 2)
    );
    assert_eq!(rt; (intake.turn(&rt), reads.get()), (Ok(IntakeTurn::Idle), 3));
    // The second piece is left in the mailbox, and the third is kept.
    let old = relay.replace(Life::taking(rt.alloc(), 100));
    assert_eq!(rt; old.held.as_slice(), b"ab".as_slice());
    let left = close_one(&rt, mailbox, intake, relay, ends)?.into_vec();
    assert_eq!(rt; left.len(), 1);
    for letter in &left {
        assert_eq!(rt; letter.item.as_slice(), b"cd".as_slice());
    }
    Ok(())
}

#[test]
fn a_reader_that_fails_loses_no_byte(rt: HostRuntime) -> Result<(), Fail> {
    let (_mailbox, sender, receiver, _ends) = open(rt.alloc(), 4)?;
    let mut intake = Intake::new(Counted::new(Slow::failing(b"abc", 2)), sender);
    let mut relay = Relay::new(receiver, Counted::new(Vec::new(rt.alloc())));
    assert_eq!(rt; intake.turn(&rt), Ok(IntakeTurn::Moved(2)));
    assert_eq!(rt; intake.turn(&rt), Ok(IntakeTurn::Moved(1)));
    assert_eq!(rt; intake.turn(&rt), Err(IntakeFault::Read));
    assert_eq!(rt; intake.turn(&rt), Err(IntakeFault::Read));
    assert_eq!(rt; relay.turn(&rt), RelayTurn::Moved(3));
    let old = relay.replace(Counted::new(Vec::new(rt.alloc())));
    assert_eq!(rt; old.into_device().as_slice(), b"abc".as_slice());
    Ok(())
}

/// A service that writes this many bytes, each computed from its place.
#[derive(Drop)]
struct Writing {
    place: u64,
    most: u64,
}

fn byte_at(place: u64) -> u8 {
    (place % 251) as u8
}

impl Read for Writing {
    fn read(&mut self, buf: &mut [u8]) -> io::Result<usize> {
        let left = usize::try_from(self.most.saturating_sub(self.place)).unwrap_or(usize::MAX);
        let count = buf.len().min(left);
        for byte in &mut buf[..count] {
            *byte = byte_at(self.place);
            self.place = self.place.saturating_add(1);
        }
        Ok(count)
    }
}

// Makes turns until the reader is at its end. Returns whether it was.
fn read_all<R: Wait>(rt: &R, reader: Input<BufReader<Writing>>, sender: Sender<Piece>) -> bool
    requires { posted sender ≡ [] }
{
    let mut intake = Intake::new(reader, sender);
    for _ in rt.forever() {
        match intake.turn(rt) {
            Ok(IntakeTurn::Moved(_)) => {}
            Ok(IntakeTurn::Idle) => thread::yield_now(),
            Ok(IntakeTurn::Ended) => return true,
            Err(IntakeFault::Read) => return false,
        }
    }
    unreachable!()
}

// Makes turns until this many bytes are put. Returns the logger that has them.
fn put_all<R: Wait>(rt: &R, receiver: Receiver<Piece>, life: Life, next: Life, most: u64) -> Life
    requires taken { taken_by receiver ≡ [] }
    requires put { (life.held.items ≡ []) × (next.held.items ≡ []) }
{
    let mut relay = Relay::new(receiver, life);
    let mut put = 0u64;
    for _ in rt.forever() {
        match relay.turn(rt) {
            RelayTurn::Moved(count) => put = put.saturating_add(count),
            RelayTurn::Idle => thread::yield_now(),
            RelayTurn::Broken => return relay.replace(next),
        }
        if put >= most {
            return relay.replace(next);
        }
    }
    unreachable!()
}

// One thread reads a service's output, through a buffer, and another puts this many bytes into a logger.
fn carry<R: Threads + Wait + Copy + Send + 'static>(
    rt: R,
    alloc: Global,
    most: u64,
) -> Result<(Life, bool), Fail> {
    let reader = BufReader::with_capacity(alloc, 32_768, Writing { place: 0, most })?;
    let reader = Counted::new(reader);
    let (_mailbox, sender, receiver, _ends) = open(alloc, 4)?;
    let reading = thread::spawn(
        &rt,
        move || -> bool
            requires { posted sender ≡ [] }
        { read_all(&rt, reader, sender) },
    )?;
    let life = put_all(
        &rt,
        receiver,
        Life::taking(alloc, usize::MAX),
        Life::taking(alloc, 0),
        most,
    );
    Ok((life, reading.join(&rt)))
}

#[test]
fn a_service_and_its_logger_are_in_two_threads(rt: HostRuntime) -> Result<(), Fail> {
    let (life, ended) = carry(rt, rt.alloc(), 40_000)?;
    assert!(rt; ended);
    assert_eq!(rt; life.held.len(), 40_000);
    let mut place = 0;
    for byte in &life.held {
        assert_eq!(rt; *byte, byte_at(place));
        place = place.saturating_add(1);
    }
    Ok(())
}
