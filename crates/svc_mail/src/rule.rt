//! The rule that the queue of a mailbox keeps at each step, and what each end of the mailbox therefore knows.
use crate::letter::Letter;
use crossbeam_queue::protocol::{Join, Lesson, Outcome, Protocol, Split};
use crossbeam_queue::{Pass, RuledArrayQueue};
use std::alloc::Global;
use std::collections::LinkedList;

// The most values that a queue ever takes.
pub(crate) const MOST: u64 = 1 << 62;

/// What an end of a mailbox knows. A sender knows its number and its row. The receiver knows what it took and the
/// senders that have ended. Both know the history that they have seen, and what they heard by notes. No value of this
/// type is made.
pub struct Knows<T> {
    pub all: u64,
    pub posts: bool,
    pub number: usize,
    pub row: LinkedList<T>,
    pub takes: bool,
    pub taken: LinkedList<Letter<T>>,
    pub made: u64,
    pub ended: LinkedList<(usize, LinkedList<T>, LinkedList<Letter<T>>)>,
    pub seen: LinkedList<Letter<T>>,
    pub heard: LinkedList<LinkedList<Letter<T>>>,
}

/// What was taken, followed by what the queue holds, is the history, in which each sender's letters are its row.
pub struct InOrder;

impl<T> Protocol<Letter<T>, Knows<T>> for InOrder {
    ghost use Rattle.std.specs.Prelude.{[]};
    ghost use Rattle.svc_mail.specs.Kept.{Kept, taker};

    ghost holds = { Kept };

    ghost first = { taker 0 0 [] [] [] [] };
}

/// A letter joins the history and its sender's row; or the sender learns that the queue was full.
pub struct Posts;

impl<T> Outcome<Letter<T>, Knows<T>> for Posts {
    ghost use Rattle.svc_mail.specs.Kept.{Adds};

    ghost then = { Adds };
}

impl<T> Lesson<Letter<T>, Knows<T>> for Posts {
    ghost use Rattle.std.specs.Prelude.{List, ◌++◌};
    ghost use Rattle.svc_mail.specs.Kept.{MayBe};

    ghost fact = { λ v items. (taken : List _) × MayBe v taken (taken ++ items) };
}

/// The receiver takes the next letter of the history; or it learns that it has taken them all.
pub struct Gets;

impl<T> Outcome<Letter<T>, Knows<T>> for Gets {
    ghost use Rattle.svc_mail.specs.Kept.{Takes};

    ghost then = { Takes };
}

impl<T> Lesson<Letter<T>, Knows<T>> for Gets {
    ghost use Rattle.std.specs.Prelude.{◌++◌};
    ghost use Rattle.svc_mail.specs.Kept.{IsWhole};

    ghost fact = { λ v items. IsWhole v (v.taken ++ items) };
}

/// The mailbox is to have one more sender.
pub struct Promised;

impl<T> Split<Knows<T>> for Promised {
    ghost use Rattle.svc_mail.specs.Kept.{nobody, with_promised};

    ghost left = { with_promised };

    ghost right = { λ v. nobody };
}

/// The next sender is made.
pub struct Made;

impl<T> Split<Knows<T>> for Made {
    ghost use Rattle.svc_mail.specs.Kept.{next_sender, with_made};

    ghost left = { with_made };

    ghost right = { next_sender };
}

/// A sender has ended. What it posted and saw is known from then on.
pub struct Ended;

impl<T> Join<Knows<T>> for Ended {
    ghost use Rattle.std.specs.Prelude.{[], ◌∷◌, ◌++◌};
    ghost use Rattle.svc_mail.specs.Kept.{with_ended, nobody};

    ghost both = { λ v w. with_ended v (v.ended ++ (w.number, w.row, w.seen) ∷ []) };

    ghost spent = { nobody };
}

/// An end makes a note of what it knows.
pub struct Told;

impl<T> Split<Knows<T>> for Told {
    ghost use Rattle.svc_mail.specs.Kept.{noted};

    ghost left = { λ v. v };

    ghost right = { λ v. noted v.taken v.seen };
}

/// The receiver hears what was posted.
pub struct HearsPosted;

impl<T> Join<Knows<T>> for HearsPosted {
    ghost use Rattle.std.specs.Prelude.{[], ◌∷◌, ◌++◌};
    ghost use Rattle.svc_mail.specs.Kept.{taker, nobody};

    ghost both = { λ v w. taker v.all v.made v.taken v.ended v.seen (v.heard ++ w.seen ∷ []) };

    ghost spent = { nobody };
}

/// A sender hears what was taken.
pub struct HearsTaken;

impl<T> Join<Knows<T>> for HearsTaken {
    ghost use Rattle.std.specs.Prelude.{[], ◌∷◌, ◌++◌};
    ghost use Rattle.svc_mail.specs.Kept.{poster, nobody};

    ghost both = { λ v w. poster v.all v.number v.row v.seen (v.heard ++ w.taken ∷ []) };

    ghost spent = { nobody };
}

/// The queue of letters, under the rule.
pub type Queue<T, A = Global> = RuledArrayQueue<Letter<T>, Knows<T>, InOrder, A>;

/// What one end knows of the queue. It has no bytes.
pub type Mark<T> = Pass<Letter<T>, Knows<T>>;
