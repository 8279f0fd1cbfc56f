//! A mailbox as a whole: how it is opened and closed.
use crate::letter::Letter;
use crate::letters::Letters;
use crate::receiver::Receiver;
use crate::rule::{Ended, Gets, Mark, Promised, Queue};
use crate::sender::Sender;
use std::alloc::{AllocError, Allocator, Global};
use std::sync::{Arc, Wait};

/// A mailbox as a whole, which closes it. Contracts see which mailbox it is (`box_of`), its room in letters
/// (`capacity_of`), and how many senders it was opened with (`senders_in`).
#[derive(Drop)]
pub struct Mailbox<T: Copy, A: Allocator = Global> {
    alloc: A,
    queue: Arc<Queue<T, A>, A>,
    senders: usize,
}

/// There was no memory for the letters that were left. The mailbox, its ends and the letters in it come back unchanged:
/// it can be used and closed as before.
#[derive(Drop)]
pub struct CloseRefused<T: Copy, A: Allocator = Global> {
    /// The mailbox that was to be closed.
    pub mailbox: Mailbox<T, A>,
    /// All its senders, in the order in which they were given.
    pub senders: Vec<Sender<T, A>, A>,
    /// Its receiver.
    pub receiver: Receiver<T, A>,
}

ghost use Rattle.std.specs.Prelude.{◌≡◌, ◌<◌, ◌≤◌, ◌+◌, ◌∷◌, ◌++◌, [], OnOk, IfOk, IfErr, All, map, List, ℕ, length};
ghost use Rattle.std.specs.Prelude.{vec_len, vec_capacity};
ghost use Rattle.std.specs.Arc.{arc_value};
ghost use Rattle.crossbeam_queue.specs.Passes.{view, IsPassOf, IsSamePass, ruled_capacity};
ghost use Rattle.svc_mail.specs.Kept.{taker, with_ended, HasNoneEnded, IsTaker, IsWhole, IsSettled};
ghost use Rattle.svc_mail.specs.Ends.{IsOpen, AreNewSenders, AreAllSenders, IsItsReceiver, IsWholeHistory};
ghost use Rattle.svc_mail.specs.Ends.{capacity_of, taken_by, home, record_of};

// Announces that the mailbox will have this many senders.
fn announce_senders<T: Copy, A: Allocator>(queue: &Queue<T, A>, mark: &mut Mark<T>, senders: usize)
    requires { IsPassOf queue.now mark.old × (view mark.old ≡ taker 0 0 [] [] [] []) }
    ensures { IsPassOf queue.now mark.new × (view mark.new ≡ taker senders 0 [] [] [] []) }
{
    for _made in 0..senders {
        queue.another::<Promised>(mark);
    }
}

// Returns the queue of a mailbox that will have this many senders, and the receiver's pass.
fn queue_for<T: Copy, A: Allocator + Clone>(
    alloc: &A,
    capacity: usize,
    senders: usize,
) -> Result<(Arc<Queue<T, A>, A>, Mark<T>), AllocError>
    requires { 0 < capacity }
    ensures capacity { IfOk result (λ r. ruled_capacity (arc_value r.0) ≡ capacity) }
    ensures pass { IfOk result (λ r. IsPassOf (arc_value r.0) r.1) }
    ensures knows { IfOk result (λ r. view r.1 ≡ taker senders 0 [] [] [] []) }
{
    let (queue, mut mark) = Queue::ruled(alloc.clone()?, capacity)?;
    announce_senders(&queue, &mut mark, senders);
    Ok((Arc::new(alloc.clone()?, queue)?, mark))
}

// Makes the senders.
fn make_senders<T: Copy, A: Allocator + Clone>(
    alloc: A,
    queue: &Arc<Queue<T, A>, A>,
    mark: &mut Mark<T>,
    senders: usize,
) -> Result<Vec<Sender<T, A>, A>, AllocError>
    requires { IsPassOf (arc_value queue.now) mark.old × (view mark.old ≡ taker senders 0 [] [] [] []) }
    ensures pass { OnOk result (IsPassOf (arc_value queue.now) mark.new) }
    ensures knows { OnOk result (view mark.new ≡ taker senders senders [] [] [] []) }
    ensures count { IfOk result (λ v. length v.items ≡ senders) }
    ensures new { IfOk result (λ v. AreNewSenders (ruled_capacity (arc_value queue.now)) senders
        (arc_value queue.now).table.shared.table_id v.items) }
{
    let mut ends = Vec::with_capacity(alloc, senders)?;
    for number in 0..senders {
        ends.push(Sender::from_pass(queue, mark, number)?)?;
    }
    Ok(ends)
}

// Takes the senders' passes in.
fn join_senders<T: Copy, A: Allocator + Clone>(
    queue: &Queue<T, A>,
    mark: &mut Mark<T>,
    senders: Vec<Sender<T, A>, A>,
)
    requires pass { IsPassOf queue.now mark.old }
    requires knows { HasNoneEnded (view mark.old) }
    requires senders { All (λ s. home s ≡ queue.now.table.shared.table_id) senders.items }
    ensures pass { IsPassOf queue.now mark.new }
    ensures knows { view mark.new ≡ with_ended (view mark.old) (map record_of senders.items) }
{
    for sender in senders {
        queue.absorb::<Ended>(mark, sender.into_mark());
    }
}

// Takes all letters that are left.
fn drain<T: Copy, A: Allocator, R: Wait>(
    rt: &R,
    queue: &Queue<T, A>,
    mark: &mut Mark<T>,
    room: Vec<Letter<T>, A>,
) -> Vec<Letter<T>, A>
    requires pass { IsPassOf queue.now mark.old }
    requires knows { IsTaker (view mark.old) × IsSettled (view mark.old) }
    requires room { (room.items ≡ []) × (ruled_capacity queue.now ≤ vec_capacity room) }
    ensures { IsWhole (view mark.old) ((view mark.old).taken ++ result.items) }
{
    let mut letters = room;
    let left = queue.len_as::<Gets, R>(rt, mark);
    for _taken in 0..left {
        match queue.pop_as::<Gets, R>(rt, mark) {
            Some(letter) => letters.push_reserved(letter),
            None => return letters,
        }
    }
    queue.learn_as::<Gets>(mark);
    letters
}

impl<T: Copy, A: Allocator + Clone> Mailbox<T, A> {
    /// Returns how many letters the mailbox has room for.
    pub fn capacity(&self) -> usize
        ensures { result ≡ capacity_of self.now }
    {
        self.queue.capacity()
    }

    // Takes memory for as many letters as can be left.
    fn room(&self) -> Result<Vec<Letter<T>, A>, AllocError>
        ensures { IfOk result (λ v. (v.items ≡ []) × (capacity_of self.now ≤ vec_capacity v)) }
    {
        Vec::with_capacity(self.alloc.clone()?, self.queue.capacity())
    }

    /// Opens a mailbox with room for `capacity` letters. Returns it with its senders, in the order of their numbers 0,
    /// 1, 2 and so on, and its receiver. `Err` is returned only if memory was refused, and then nothing of the mailbox
    /// is left.
    pub fn open(
        alloc: A,
        capacity: usize,
        senders: usize,
    ) -> Result<(Mailbox<T, A>, Vec<Sender<T, A>, A>, Receiver<T, A>), AllocError>
        requires { (0 < capacity) × (0 < senders) }
        ensures { IfOk result (λ r. IsOpen capacity senders r.0 r.1.items r.2) }
    {
        let (queue, mut mark) = queue_for(&alloc, capacity, senders)?;
        let ends = make_senders(alloc.clone()?, &queue, &mut mark, senders)?;
        let own = Arc::try_clone(&queue)?;
        let mailbox = Mailbox {
            alloc,
            queue: own,
            senders,
        };
        Ok((mailbox, ends, Receiver::over(queue, mark)))
    }

    /// Closes the mailbox, and returns the letters that are left, in the order of the history. It takes all senders, in
    /// any order, and the receiver. The letters taken, followed by those left, are the whole history. In it each
    /// sender's letters are what it posted. The call first takes memory for `capacity` letters. If that is refused, all
    /// come back unchanged.
    pub fn close<R: Wait>(
        self,
        rt: &R,
        senders: Vec<Sender<T, A>, A>,
        receiver: Receiver<T, A>,
    ) -> Result<Letters<T, A>, CloseRefused<T, A>>
        requires receiver { IsItsReceiver self receiver }
        requires senders { AreAllSenders self senders.items }
        ensures left { IfOk result (λ left. IsWholeHistory senders.items receiver (taken_by receiver ++ left)) }
        ensures refused { IfErr result (λ back.
            (back.mailbox ≡ self) × (back.senders ≡ senders) × (back.receiver ≡ receiver)) }
    {
        let Ok(room) = self.room() else {
            return Err(CloseRefused {
                mailbox: self,
                senders,
                receiver,
            });
        };
        let mut mark = receiver.into_mark();
        join_senders(&self.queue, &mut mark, senders);
        let letters = drain(rt, &self.queue, &mut mark, room);
        Ok(Letters::from_vec(letters))
    }
}
