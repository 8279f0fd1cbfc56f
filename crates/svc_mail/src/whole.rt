//! What the calls on a mailbox add up to.
ghost use Rattle.std.specs.Prelude.{◌++◌};
ghost use Rattle.svc_mail.specs.Ends.{taken_by, senders_at};
ghost use Rattle.svc_mail.specs.Whole.{OfEachClosed, RowsArrive, PlacesRunOn, NamesASender, IsEachOnce};

use std::alloc::Allocator;

/// States a law of every mailbox that was closed, for items of every type. What the receiver took, followed by the
/// letters that `close` returned, is all that the senders posted. Each sender's items are in their order, at the places
/// 0, 1, 2 and so on, and each letter is there once.
pub fn every_letter_arrives<T: Copy, A: Allocator>()
    ensures rows { OfEachClosed {T = T} {A = A} (λ ss r left. RowsArrive ss (taken_by r) left) }
    ensures places { OfEachClosed {T = T} {A = A} (λ ss r left. PlacesRunOn ss (taken_by r) left) }
    ensures senders { OfEachClosed {T = T} {A = A} (λ ss r left. NamesASender (senders_at r) (taken_by r ++ left)) }
    ensures once { OfEachClosed {T = T} {A = A} (λ ss r left. IsEachOnce (taken_by r ++ left)) }
{}
