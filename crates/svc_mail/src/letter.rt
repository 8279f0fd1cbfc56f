//! What a mailbox carries.
use std::alloc::AllocError;

/// An item that was posted, with the number of its sender and its place among what that sender posted.
#[derive(Copy, PartialEq, Eq, Debug)]
pub struct Letter<T> {
    /// The number of its sender, from 0.
    pub sender: usize,
    /// Its place, from 0, among the letters of that sender.
    pub place: u64,
    /// The item.
    pub item: T,
}

impl<T: Copy> Clone for Letter<T> {
    ghost use Rattle.std.specs.Prelude.{◌≡◌, ⊤};

    ghost is_clone = { λ letter copy. copy ≡ letter };

    ghost is_infallible = { λ _. ⊤ };

    fn clone(&self) -> Result<Letter<T>, AllocError> {
        Ok(*self)
    }
}

/// The mailbox was full. This is the item that was not posted.
#[derive(Clone, Copy, PartialEq, Eq, Debug)]
pub struct MailboxFull<T>(pub T);
