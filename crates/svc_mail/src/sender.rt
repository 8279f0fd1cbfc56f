//! The posting end of a mailbox.
ghost use Rattle.std.specs.Prelude.{◌≡◌, ◌≤◌, ◌^◌, length};
ghost use Rattle.std.specs.Arc.{arc_value};
ghost use Rattle.crossbeam_queue.specs.Passes.{view, IsPassOf};
ghost use Rattle.svc_mail.specs.Kept.{IsPoster};

use crate::letter::{Letter, MailboxFull};
use crate::note::MailboxNote;
use crate::rule::{HearsTaken, MOST, Made, Mark, Posts, Queue};
use std::alloc::{AllocError, Allocator, Global};
use std::sync::{Arc, Wait};

/// A sender of a mailbox. Its number is its own, from 0, and its letters keep their order. Contracts see its mailbox
/// (`home`), its number (`number_of`) and its row, which is the items that it posted, in order (`posted`). A sender
/// that is dropped prevents the mailbox from being closed.
#[derive(Drop)]
pub struct Sender<T: Copy, A: Allocator = Global> {
    pub(crate) queue: Arc<Queue<T, A>, A>,
    pub(crate) mark: Mark<T>,
    number: usize,
    next: u64,
    ghost seated: { IsPassOf (arc_value queue) mark },
    ghost knows: { IsPoster number (view mark) },
    ghost counted: { next ≡ length (view mark).row },
    ghost within: { next ≤ 2 ^ 62 },
}

impl<T: Copy, A: Allocator + Clone> Sender<T, A> {
    ghost use Rattle.std.specs.Prelude.{◌≡◌, ◌+◌, ◌<◌, ◌≤◌, ◌^◌, ◌∷◌, ◌++◌, [], true, length, MatchResult, OnOk, IfOk};
    ghost use Rattle.std.specs.Prelude.{IfErr};
    ghost use Rattle.std.specs.Arc.{arc_value};
    ghost use Rattle.crossbeam_queue.specs.Passes.{view, IsPassOf};
    ghost use Rattle.svc_mail.specs.Kept.{IsPoster, next_sender, with_made};
    ghost use Rattle.svc_mail.specs.Ends.{IsSameSender, IsUnchangedSender, JoinsHistory, WasFull, home, number_of};
    ghost use Rattle.svc_mail.specs.Ends.{posted, seen_by, heard_by, senders_of, note_home, history_in, taken_in};

    // Makes the next sender, with a pass that is split from the receiver's.
    pub(crate) fn from_pass(
        queue: &Arc<Queue<T, A>, A>,
        mark: &mut Mark<T>,
        number: usize,
    ) -> Result<Sender<T, A>, AllocError>
        // The pass is the one of the receiver, and the sender with this number is made next.
        requires pass { IsPassOf (arc_value queue.now) mark.old }
        requires takes { (view mark.old).takes ≡ true }
        requires next { ((view mark.old).made ≡ number) × (number < (view mark.old).all) }

        // If there is memory, the receiver keeps its pass, and one more sender is made.
        ensures pass { OnOk result (IsPassOf (arc_value queue.now) mark.new) }
        ensures made { OnOk result (view mark.new ≡ with_made (view mark.old)) }

        // The sender belongs to the same mailbox and has this number. It has posted nothing and learnt no note.
        ensures queue { IfOk result (λ s. arc_value s.queue ≡ arc_value queue.now) }
        ensures seat { IfOk result (λ s. IsPassOf (arc_value queue.now) s.mark) }
        ensures knows { IfOk result (λ s. view s.mark ≡ next_sender (view mark.old)) }
        ensures number { IfOk result (λ s. number_of s ≡ number) }
    {
        let own = Arc::try_clone(queue)?;
        let its = queue.another::<Made>(mark);
        Ok(Sender {
            queue: own,
            mark: its,
            number,
            next: 0,
        })
    }

    pub(crate) fn into_mark(self) -> Mark<T>
        ensures mark { result ≡ self.mark }
        ensures posts { (view result).posts ≡ true }
        ensures number { (view result).number ≡ number_of self }
        ensures whole { result.me.1 ≡ [] }
    {
        let Sender {
            queue: _queue,
            mark,
            number: _,
            next: _,
        } = self;
        mark
    }

    /// Returns its number among the senders of its mailbox, from 0.
    pub fn number(&self) -> usize
        ensures { result ≡ number_of self.now }
    {
        self.number
    }

    /// Posts an item, once, as the next letter of this sender.
    ///
    /// The item comes back, and nothing was posted, only if the mailbox was full at one moment of the call, as far as
    /// this sender knows. It knows its own letters and what the receiver's notes say, so a mailbox with one sender was
    /// full. It knows of the other senders no more than it has seen, and it may believe that they filled the mailbox.
    ///
    /// The call needs no memory. It may wait, at any letter. After 2^62 letters of this sender it waits for ever.
    pub fn post<R: Wait>(&mut self, rt: &R, item: T) -> Result<(), MailboxFull<T>>
        // If it succeeds, the item is the last one that this sender posted. It comes in the history of the mailbox
        // after all that the sender had seen of it. If it fails, nothing was posted, and the sender has seen no more.
        ensures same { IsSameSender self.old self.new }
        ensures row { MatchResult result (λ _. posted self.new ≡ posted self.old ++ item ∷ [])
            (λ _. posted self.new ≡ posted self.old) }
        ensures history { MatchResult result (λ _. JoinsHistory self.old item self.new)
            (λ _. seen_by self.new ≡ seen_by self.old) }

        // If it fails, the item comes back. A history that agrees with all that the sender knows then filled the
        // mailbox.
        ensures full { IfErr result (λ full. (full.0 ≡ item) × WasFull self.old) }

        // The sender learns no note, and posts at most 2^62 items in all.
        ensures heard { heard_by self.new ≡ heard_by self.old }
        ensures within { length (posted self.new) ≤ 2 ^ 62 }
    {
        if self.next >= MOST {
            for _ in rt.forever() {}
            unreachable!()
        }
        let letter = Letter {
            sender: self.number,
            place: self.next,
            item,
        };
        match self.queue.push_as::<Posts, R>(rt, &mut self.mark, letter) {
            Ok(()) => {
                self.next += 1;
                Ok(())
            }
            Err(letter) => Err(MailboxFull(letter.item)),
        }
    }

    /// Makes a note of what this sender has seen of the history: at least all of it up to its own last letter.
    pub fn tell(&mut self) -> MailboxNote<T>
        ensures same { IsUnchangedSender self.old self.new }
        ensures home { note_home result ≡ home self.old }
        ensures history { history_in result ≡ seen_by self.old }
    {
        MailboxNote::of(&self.queue, &mut self.mark)
    }

    /// Learns the receiver's note: from now on `post` returns `MailboxFull` only if the box was full after the letters
    /// that the note gives as taken.
    pub fn learn(&mut self, note: MailboxNote<T>)
        requires { note_home note ≡ home self.old }
        ensures same { IsSameSender self.old self.new }
        ensures kept { (posted self.new ≡ posted self.old) × (seen_by self.new ≡ seen_by self.old) }
        ensures heard { heard_by self.new ≡ heard_by self.old ++ taken_in note ∷ [] }
    {
        let told = note.into_mark();
        self.queue.absorb::<HearsTaken>(&mut self.mark, told);
    }
}
