//! What one end of a mailbox says to another.
ghost use Rattle.std.specs.Prelude.{◌≡◌, []};
ghost use Rattle.crossbeam_queue.specs.Passes.{view};
ghost use Rattle.svc_mail.specs.Kept.{IsNoted};

use crate::rule::{Mark, Queue, Told};
use std::alloc::Allocator;

/// What an end of a mailbox knew when it made the note. It has no bytes, and can be sent to the thread of another end.
/// Contracts see its mailbox (`note_home`), the history as far as the end had seen it (`history_in`), and what was
/// taken, as far as the end knew (`taken_in`).
#[derive(Drop)]
pub struct MailboxNote<T> {
    mark: Mark<T>,
    ghost whole: { mark.me.1 ≡ [] },
    ghost told: { IsNoted (view mark) },
}

impl<T> MailboxNote<T> {
    ghost use Rattle.std.specs.Prelude.{◌≡◌, []};
    ghost use Rattle.crossbeam_queue.specs.Passes.{view, IsPassOf, IsSamePass};

    // Returns a note with what the end of this pass knows.
    pub(crate) fn of<A: Allocator>(queue: &Queue<T, A>, mark: &mut Mark<T>) -> MailboxNote<T>
        requires { IsPassOf queue.now mark.old }
        ensures same { IsSamePass mark.old mark.new × (view mark.new ≡ view mark.old) }
        ensures home { result.mark.table_id ≡ mark.old.table_id }
        ensures seen { (view result.mark).seen ≡ (view mark.old).seen }
        ensures taken { (view result.mark).taken ≡ (view mark.old).taken }
    {
        MailboxNote {
            mark: queue.another::<Told>(mark),
        }
    }

    pub(crate) fn into_mark(self) -> Mark<T>
        ensures { (result ≡ self.mark) × (result.me.1 ≡ []) }
    {
        let MailboxNote { mark } = self;
        mark
    }
}
