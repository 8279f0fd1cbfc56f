//! What a turn did.
use sup_core::Event;
use thiserror::Error;

/// What a turn did.
#[derive(Clone, Copy, Debug, PartialEq, Eq)]
pub enum Turned {
    /// Nothing had happened.
    Idle,
    /// This event was published, and the world was asked what it asks for.
    Took(Event),
    /// The service is gone.
    Ended,
}

/// Why a turn was not done.
#[derive(Clone, Copy, Debug, PartialEq, Eq, Error)]
pub enum HouseFault {
    /// There was no memory to publish the event. It stays pending.
    #[error("OutOfMemory")]
    OutOfMemory,
}
