//! The one end that adds events to a station's history.
ghost use Rattle.std.specs.Prelude.{◌≡◌, ◌+◌, ◌-◌, ◌*◌, ◌<◌, ◌≤◌, ◌^◌, length, IfSome};
ghost use Rattle.logbook.specs.Pages.{may_write};
ghost use Rattle.svc_station.specs.Book.{head_of};

use crate::prefix::{Head, Law, Nothing, Prefix, Token};
use logbook::{Offer, Pen, Plain, Play, Seen, Start, Word};
use sup_core::Event;

/// The most events of a history.
const MOST: u64 = 1 << 62;

/// A step that adds a cell.
pub struct Widen;

impl Play<Event, u64> for Widen {
    ghost use Rattle.svc_station.specs.Book.{Widens};

    ghost then = { Widens };
}

impl Plain<u64, Event, u64> for Widen {
    ghost use Rattle.std.specs.Prelude.{None};
    ghost use Rattle.sup_core.specs.declared.event.Event.TheVariants.{Byte};

    ghost ask = { λ _. Byte 0 };

    ghost state = { λ _. None };
}

/// A step that adds an event.
pub struct Add;

impl Play<Event, u64> for Add {
    ghost use Rattle.svc_station.specs.Book.{Adds};

    ghost then = { Adds };
}

/// The step asks for the event.
impl Plain<Event, Event, u64> for Add {
    ghost use Rattle.std.specs.Prelude.{None};

    ghost ask = { λ event. event };

    ghost state = { λ event. None };
}

/// A step that looks.
pub struct Look;

impl Play<Event, u64> for Look {
    ghost use Rattle.svc_station.specs.Book.{Looks};

    ghost then = { Looks };
}

// Returns the pen of a new cell with its word made, or `None` if the book has a different number of events and cells.
fn next_pen(head: &Head, seen: &Token, sum: u64) -> Option<Pen>
    // The word is the first one of this book. The sum is at most the number of the events seen, with as many cells and
    // three more. It can rise by one.
    requires head { head.now ≡ head_of seen.now.book }
    requires sum { sum ≤ 2 * length seen.now.log + 3 }
    requires fits { sum + 1 < 2 ^ 64 }

    // If a pen is returned, it belongs to this book, and may write the new cell. The number of this cell is the sum
    // without the number of the events seen.
    ensures book { IfSome result (λ pen. pen.book ≡ seen.now.book) }
    ensures right { IfSome result (λ pen. pen.nib.right ≡ may_write) }
    ensures key { IfSome result (λ pen. pen.nib.key ≡ sum - length seen.now.log) }
{
    let mut seen = seen.again();
    let mut offer: Offer<Event, u64, Law, Nothing> = seen.plain::<Nothing, u64, Widen>(&sum);
    let mut pen = seen.no_pen();
    let found = head.compare_exchange::<Widen, Nothing>(
        sum,
        sum + 1,
        &mut seen,
        &mut offer,
        &mut pen,
    );
    if found != sum {
        return None;
    }
    let _word: Head = Word::tracked(0, &mut pen);
    Some(pen)
}

/// Adds events to a history, and alone does so: it has the pen of the next cell.
#[derive(Drop)]
pub struct Appender {
    head: Head,
    pen: Pen,
    pub(crate) prefix: Prefix,
    ghost head_is: { head ≡ head_of prefix.seen.book },
    ghost pen_book: { pen.book ≡ prefix.seen.book },
    ghost pen_right: { pen.nib.right ≡ may_write },
    ghost pen_next: { pen.nib.key ≡ length prefix.seen.log + 2 },
}

impl Appender {
    ghost use Rattle.std.specs.Prelude.{◌≡◌, ◌++◌, ◌∷◌, [], IfSome, MatchBool};
    ghost use mathlib.Core.List.{IsPrefix};

    /// Returns the appender of an empty history. It would return `None` if another had added a cell since the book was
    /// opened, which no run meets.
    pub(crate) fn open() -> Option<Appender>
        ensures { IfSome result (λ appender. appender.prefix.seen.log ≡ []) }
    {
        // The book begins with no event and two cells.
        let (seen, mut first, _second) = Seen::open(Start::alone(), 2, 0);
        let head = Word::tracked(2, &mut first);
        let pen = next_pen(&head, &seen, 2)?;
        Some(Appender {
            head,
            pen,
            prefix: Prefix { count: 0, seen },
        })
    }

    /// Adds an event, and returns whether it did. It does not if the history has as many events as it may have.
    pub(crate) fn add(self, event: Event) -> (Appender, bool)
        ensures book { result.0.prefix.seen.book ≡ self.prefix.seen.book }
        ensures log { MatchBool result.1 (result.0.prefix.seen.log ≡ self.prefix.seen.log ++ event ∷ [])
            (result.0.prefix ≡ self.prefix) }
    {
        let Appender {
            head,
            mut pen,
            prefix,
        } = self;
        if prefix.count >= MOST {
            return (Appender { head, pen, prefix }, false);
        }
        // The sum of the events, and of the cells, which are three more: the two of a new book, and the one of this
        // pen.
        let sum = 2 * prefix.count + 3;
        let Some(next) = next_pen(&head, &prefix.seen, sum) else {
            return (Appender { head, pen, prefix }, false);
        };
        let mut seen = prefix.seen.again();
        let mut offer: Offer<Event, u64, Law, Nothing> = seen.plain::<Nothing, Event, Add>(&event);
        let sum = sum + 1;
        let found = head.compare_exchange::<Add, Nothing>(
            sum,
            sum + 1,
            &mut seen,
            &mut offer,
            &mut pen,
        );
        if found != sum {
            return (Appender { head, pen, prefix }, false);
        }
        let prefix = Prefix {
            count: prefix.count + 1,
            seen,
        };
        (
            Appender {
                head,
                pen: next,
                prefix,
            },
            true,
        )
    }

    /// Looks into the book: the other is a beginning of this history, since nobody else adds to it.
    pub(crate) fn look(self, other: &Prefix) -> Appender
        requires { other.now.seen.book ≡ self.prefix.seen.book }
        ensures same { result.prefix ≡ self.prefix }
        ensures begins { IsPrefix other.now.seen.log self.prefix.seen.log }
    {
        let Appender {
            head,
            mut pen,
            prefix,
        } = self;
        let mut seen = prefix.seen.again();
        seen.learn(&other.seen);
        let none = 0;
        let mut offer: Offer<Event, u64, Law, Nothing> = seen.plain::<Nothing, u64, Widen>(&none);
        let _found = head.compare_exchange::<Look, Nothing>(
            none, none, &mut seen, &mut offer, &mut pen,
        );
        Appender { head, pen, prefix }
    }
}
