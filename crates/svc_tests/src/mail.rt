ghost use Rattle.std.specs.Prelude.{◌≡◌, ◌++◌, ◌∷◌, ◌+◌, ◌≤◌, [], IfOk, IfSome, length, vec_len, vec_capacity};
ghost use Rattle.svc_mail.specs.History.{letter, row_of};
ghost use Rattle.svc_mail.specs.Ends.{IsSameSender, IsSameReceiver, HasPosted, HasTaken, home, number_of, posted};
ghost use Rattle.svc_mail.specs.Ends.{receiver_home, taken_by, senders_at, box_of, senders_in, AreNewSenders};
ghost use Rattle.svc_mail.specs.Ends.{IsNewSender, IsItsReceiver};

use std::alloc::{AllocError, Allocator, Global};
use std::sync::Wait;
use std::test::Fail;
use std::thread;
use std::thread::Threads;
use svc_mail::letter::{Letter, MailboxFull};
use svc_mail::letters::Letters;
use svc_mail::mailbox::Mailbox;
use svc_mail::promise::{PostsThese, TakesThese};
use svc_mail::receiver::Receiver;
use svc_mail::sender::Sender;
use svc_mail::whole::every_letter_arrives;
use test_base::Scarce;

// Returns the two senders of a mailbox that was just opened, and the vector that held them.
pub(crate) fn two_of<T: Copy, A: Allocator + Clone>(
    mut senders: Vec<Sender<T, A>, A>,
    capacity: usize,
    mailbox: &Mailbox<T, A>,
) -> (Sender<T, A>, Sender<T, A>, Vec<Sender<T, A>, A>)
    requires { (length senders.items ≡ 2) × AreNewSenders capacity 2 (box_of mailbox.now) senders.items }
    ensures two { IsNewSender capacity 2 (box_of mailbox.now) 0 result.0
        × IsNewSender capacity 2 (box_of mailbox.now) 1 result.1 }
    ensures room { result.2.items ≡ [] }
{
    let second = senders.pop().unwrap();
    let first = senders.pop().unwrap();
    (first, second, senders)
}

// Closes a mailbox of two senders. If there was no memory, it lifts the limit, and closes what came back.
fn close_two<T: Copy, A: Allocator + Clone, R: Wait>(
    rt: &R,
    limited: Option<&Scarce<Global>>,
    mailbox: Mailbox<T, A>,
    one: Sender<T, A>,
    two: Sender<T, A>,
    receiver: Receiver<T, A>,
    mut ends: Vec<Sender<T, A>, A>,
) -> Result<Letters<T, A>, AllocError>
    // These are the only two senders of the mailbox and its receiver. The vector for the senders is empty.
    requires one { (home one ≡ box_of mailbox) × (number_of one ≡ 0) }
    requires two { (home two ≡ box_of mailbox) × (number_of two ≡ 1) }
    requires receiver { IsItsReceiver mailbox receiver × (senders_in mailbox ≡ 2) }
    requires room { ends.items ≡ [] }

    // If it succeeds, the letters taken before and those left are, for each sender, all that it posted, in order.
    ensures one { IfOk result (λ left. row_of 0 (taken_by receiver ++ left) ≡ posted one) }
    ensures two { IfOk result (λ left. row_of 1 (taken_by receiver ++ left) ≡ posted two) }
{
    ends.push(one)?;
    ends.push(two)?;
    match mailbox.close(rt, ends, receiver) {
        Ok(left) => Ok(left),
        Err(back) => {
            if let Some(memory) = limited {
                let _refused = memory.lift();
            }
            match back.mailbox.close(rt, back.senders, back.receiver) {
                Ok(left) => Ok(left),
                Err(_refused) => Err(AllocError),
            }
        }
    }
}

#[test]
fn each_growth_is_refused_in_turn(rt: HostRuntime) -> Result<(), Fail> {
    let letters = [(0, 0, b'u'), (0, 1, b't'), (1, 0, b'd')].map(|(sender, place, item)| Letter {
        sender,
        place,
        item,
    });
    for growths in 0..400u64 {
        let memory = Scarce::new(rt.alloc());
        memory.give(growths);
        let is_refused = Mailbox::<u8, &Scarce<Global>>::open(&memory, 3, 2).is_err();
        let no_mailbox = memory.lift();
        assert_eq!(rt; is_refused, no_mailbox);
        let (mailbox, senders, mut receiver) = Mailbox::open(&memory, 3, 2)?;
        let (mut first, mut second, room) = two_of(senders, 3, &mailbox);
        assert_eq!(rt; receiver.take(&rt), None);
        assert_eq!(rt; first.post(&rt, b'u'), Ok(()));
        assert_eq!(rt; first.post(&rt, b't'), Ok(()));
        assert_eq!(rt; second.post(&rt, b'd'), Ok(()));
        assert_eq!(rt; first.post(&rt, b'k'), Err(MailboxFull(b'k')));
        receiver.learn(second.tell());
        assert_eq!(rt; receiver.take(&rt), Some(letters[0]));
        first.learn(receiver.tell());
        memory.give(growths);
        let left = close_two(
            &rt,
            Some(&memory),
            mailbox,
            first,
            second,
            receiver,
            room,
        )?.into_vec();
        assert_eq!(rt; left.as_slice(), &letters[1..]);
        if !memory.lift() && !no_mailbox {
            assert!(rt; growths > 0);
            every_letter_arrives::<u8, Global>();
            return Ok(());
        }
    }
    Err(Fail::new("it never has enough"))
}

#[test]
fn a_mailbox_of_64_refuses_the_65th_letter(rt: HostRuntime) -> Result<(), Fail> {
    let (mailbox, senders, _receiver) = Mailbox::open(rt.alloc(), 64, 2)?;
    let (mut first, _second, _room) = two_of(senders, 64, &mailbox);
    for _letter in 0..64usize {
        assert_eq!(rt; first.post(&rt, b'u'), Ok(()));
    }
    assert_eq!(rt; first.post(&rt, b'u'), Err(MailboxFull(b'u')));
    Ok(())
}

// Posts an item, and tries again as long as it comes back.
fn post_until<R: Wait>(rt: &R, sender: &mut Sender<u32>, item: u32)
    ensures same { IsSameSender sender.old sender.new }
    ensures posted { posted sender.new ≡ posted sender.old ++ item ∷ [] }
{
    for _ in rt.forever() {
        match sender.post(rt, item) {
            Ok(()) => return,
            Err(_full) => thread::yield_now(),
        }
    }
    unreachable!()
}

// Posts all items.
fn post_all<R: Wait>(rt: &R, mut sender: Sender<u32>, items: &[u32]) -> Sender<u32>
    ensures { HasPosted sender items.now result }
{
    for &item in items {
        post_until(rt, &mut sender, item);
    }
    sender
}

// Waits for the next letter, and takes it.
fn take_until<R: Wait>(rt: &R, receiver: &mut Receiver<u32>) -> Letter<u32>
    ensures same { IsSameReceiver receiver.old receiver.new }
    ensures taken { taken_by receiver.new ≡ taken_by receiver.old ++ result ∷ [] }
{
    for _ in rt.forever() {
        match receiver.take(rt) {
            Some(letter) => return letter,
            None => thread::yield_now(),
        }
    }
    unreachable!()
}

// Takes this many letters.
fn take_all<R: Wait>(
    rt: &R,
    mut receiver: Receiver<u32>,
    count: usize,
    mut into: Vec<Letter<u32>>,
) -> (Receiver<u32>, Vec<Letter<u32>>)
    requires { (into.items ≡ []) × (count ≤ vec_capacity into) }
    ensures { HasTaken receiver result.1.items result.0 }
{
    for _taken in 0..count {
        into.push_reserved(take_until(rt, &mut receiver));
    }
    (receiver, into)
}

// Two threads post, a third takes as many letters, and what is left comes last.
fn carry<R: Threads + Wait + Copy + Send + 'static>(
    rt: R,
    alloc: Global,
    first: Vec<u32>,
    second: Vec<u32>,
    count: usize,
) -> Result<(Vec<Letter<u32>>, Letters<u32>), AllocError>
    ensures first { IfOk result (λ r. row_of 0 (r.0.items ++ r.1) ≡ first.items) }
    ensures second { IfOk result (λ r. row_of 1 (r.0.items ++ r.1) ≡ second.items) }
{
    let taken = Vec::with_capacity(alloc, count)?;
    let (mailbox, senders, receiver) = Mailbox::open(alloc, 4, 2)?;
    let (one, two, room) = two_of(senders, 4, &mailbox);
    let one = thread::spawn_with(
        &rt,
        PostsThese::of(&one, &first),
        move || -> Sender<u32>
            ensures { HasPosted one first.items result }
        { post_all(&rt, one, &first) },
    )?;
    let two = thread::spawn_with(
        &rt,
        PostsThese::of(&two, &second),
        move || -> Sender<u32>
            ensures { HasPosted two second.items result }
        { post_all(&rt, two, &second) },
    )?;
    let taker = thread::spawn_with(
        &rt,
        TakesThese::of(&receiver),
        move || -> (Receiver<u32>, Vec<Letter<u32>>)
            requires { (taken.items ≡ []) × (count ≤ vec_capacity taken) }
            ensures { HasTaken receiver result.1.items result.0 }
        { take_all(&rt, receiver, count, taken) },
    )?;
    let (one, two) = (one.join(&rt), two.join(&rt));
    let (receiver, taken) = taker.join(&rt);
    let left = close_two(&rt, None, mailbox, one, two, receiver, room)?;
    Ok((taken, left))
}

#[test]
fn two_thousand_letters_cross_threads(rt: HostRuntime) -> Result<(), Fail> {
    let mut first = Vec::new(rt.alloc());
    let mut second = Vec::new(rt.alloc());
    for i in 0..1000u32 {
        first.push(i)?;
        second.push(i + 5000)?;
    }
    let (taken, left) = carry(rt, rt.alloc(), first, second, 2000)?;
    assert_eq!(rt; left.len(), 0);
    let mut nexts = (0u64, 0u64);
    for letter in &taken {
        let place = if letter.sender == 0 { nexts.0 } else { nexts.1 };
        assert_eq!(rt; letter.place, place);
        if letter.sender == 0 {
            assert_eq!(rt; u64::from(letter.item), place);
            nexts.0 = nexts.0.wrapping_add(1);
        } else {
            assert_eq!(rt; letter.sender, 1);
            assert_eq!(rt; u64::from(letter.item), place.wrapping_add(5000));
            nexts.1 = nexts.1.wrapping_add(1);
        }
    }
    assert_eq!(rt; nexts, (1000, 1000));
    Ok(())
}
