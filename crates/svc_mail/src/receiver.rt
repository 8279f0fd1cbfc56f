//! The taking end of a mailbox.
ghost use Rattle.std.specs.Prelude.{◌≡◌, ◌≤◌, ◌^◌, [], length};
ghost use Rattle.std.specs.Arc.{arc_value};
ghost use Rattle.crossbeam_queue.specs.Passes.{view, IsPassOf};
ghost use Rattle.svc_mail.specs.Kept.{HasAllSenders};

use crate::letter::Letter;
use crate::note::MailboxNote;
use crate::rule::{Gets, HearsPosted, MOST, Mark, Queue};
use std::alloc::{Allocator, Global};
use std::sync::{Arc, Wait};

/// The one receiver of a mailbox. Contracts see its mailbox (`receiver_home`) and the letters that it took, in order
/// (`taken_by`).
#[derive(Drop)]
pub struct Receiver<T: Copy, A: Allocator = Global> {
    pub(crate) queue: Arc<Queue<T, A>, A>,
    pub(crate) mark: Mark<T>,
    count: u64,
    ghost seated: { IsPassOf (arc_value queue) mark },
    ghost knows: { HasAllSenders (view mark) },
    ghost counted: { count ≡ length (view mark).taken },
    ghost within: { count ≤ 2 ^ 62 },
}

impl<T: Copy, A: Allocator> Receiver<T, A> {
    ghost use Rattle.std.specs.Prelude.{◌≡◌, ◌≤◌, ◌^◌, ◌∷◌, ◌++◌, [], length, MatchOption, ⊤};
    ghost use Rattle.std.specs.Arc.{arc_value};
    ghost use Rattle.crossbeam_queue.specs.Passes.{view, IsPassOf};
    ghost use Rattle.svc_mail.specs.Kept.{HasAllSenders};
    ghost use Rattle.svc_mail.specs.Ends.{IsSameReceiver, IsUnchangedReceiver, FollowsHistory, WasEmpty};
    ghost use Rattle.svc_mail.specs.Ends.{receiver_home, taken_by, seen_at, heard_at, note_home, history_in};
    ghost use Rattle.svc_mail.specs.Ends.{taken_in};

    pub(crate) fn over(queue: Arc<Queue<T, A>, A>, mark: Mark<T>) -> Receiver<T, A>
        requires pass { IsPassOf (arc_value queue) mark }
        requires knows { HasAllSenders (view mark) }
        requires new { (view mark).taken ≡ [] }
        ensures { (result.queue ≡ queue) × (result.mark ≡ mark) }
    {
        Receiver {
            queue,
            mark,
            count: 0,
        }
    }

    pub(crate) fn into_mark(self) -> Mark<T>
        ensures mark { result ≡ self.mark }
        ensures knows { HasAllSenders (view result) }
        ensures whole { result.me.1 ≡ [] }
    {
        let Receiver {
            queue: _queue,
            mark,
            count: _,
        } = self;
        mark
    }

    /// Takes the next letter of the mailbox's one history, after those that were taken.
    ///
    /// `None` is returned, and nothing was taken, only if the mailbox was empty at one moment of the call, as far as
    /// the receiver knows. All letters that it has seen, or that it learnt of by a sender's note (`learn`), had then
    /// been taken. Letters that no note mentioned may be not posted yet, as far as it knows.
    ///
    /// The call needs no memory. It may wait, at any letter. After 2^62 letters it waits for ever.
    pub fn take<R: Wait>(&mut self, rt: &R) -> Option<Letter<T>>
        // If a letter is returned, it is the last one taken, and all that was taken begins the history of the mailbox.
        // If none is returned, nothing was taken, and the receiver has seen no more.
        ensures same { IsSameReceiver self.old self.new }
        ensures taken { MatchOption result (taken_by self.new ≡ taken_by self.old)
            (λ letter. taken_by self.new ≡ taken_by self.old ++ letter ∷ []) }
        ensures history { MatchOption result (seen_at self.new ≡ seen_at self.old)
            (λ _. FollowsHistory self.old self.new) }

        // If none is returned, what was taken was the whole history at one moment, as far as the receiver knows.
        ensures empty { MatchOption result (WasEmpty self.old) (λ _. ⊤) }

        // The receiver learns no note, and takes at most 2^62 letters in all.
        ensures heard { heard_at self.new ≡ heard_at self.old }
        ensures within { length (taken_by self.new) ≤ 2 ^ 62 }
    {
        if self.count >= MOST {
            for _ in rt.forever() {}
            unreachable!()
        }
        match self.queue.pop_as::<Gets, R>(rt, &mut self.mark) {
            Some(letter) => {
                self.count += 1;
                Some(letter)
            }
            None => None,
        }
    }

    /// Makes a note of the letters that were taken, and of what the receiver has seen of the history.
    pub fn tell(&mut self) -> MailboxNote<T>
        ensures same { IsUnchangedReceiver self.old self.new }
        ensures home { note_home result ≡ receiver_home self.old }
        ensures taken { taken_in result ≡ taken_by self.old }
        ensures history { history_in result ≡ seen_at self.old }
    {
        MailboxNote::of(&self.queue, &mut self.mark)
    }

    /// Learns a sender's note: from now on `take` returns `None` only if all letters of that note were taken.
    pub fn learn(&mut self, note: MailboxNote<T>)
        requires { note_home note ≡ receiver_home self.old }
        ensures same { IsSameReceiver self.old self.new }
        ensures kept { (taken_by self.new ≡ taken_by self.old) × (seen_at self.new ≡ seen_at self.old) }
        ensures heard { heard_at self.new ≡ heard_at self.old ++ history_in note ∷ [] }
    {
        let told = note.into_mark();
        self.queue.absorb::<HearsPosted>(&mut self.mark, told);
    }
}
