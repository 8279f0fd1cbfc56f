//! What a turn did.

/// What a turn of an intake did.
#[derive(Clone, Copy, Debug, PartialEq, Eq)]
pub enum IntakeTurn {
    /// A piece with this many bytes, 1 to 512, was posted.
    Moved(u64),
    /// The mailbox was full. The piece is kept.
    Idle,
    /// The reader is at its end, and nothing is kept.
    Ended,
}

/// Why an intake made no turn.
#[derive(Clone, Copy, Debug, PartialEq, Eq)]
pub enum IntakeFault {
    /// The reader failed. Nothing was posted, and no byte of it is lost.
    Read,
}

/// What a turn of a relay did.
#[derive(Clone, Copy, Debug, PartialEq, Eq)]
pub enum RelayTurn {
    /// This many bytes, at least one, were put, and nothing is kept.
    Moved(u64),
    /// Nothing was kept, and the mailbox was empty.
    Idle,
    /// The outlet failed. The bytes that it did not take are kept.
    Broken,
}
