use thiserror::Error;

/// Why files make no environment. Places are counted from 0.
#[derive(Clone, Copy, Debug, PartialEq, Eq, Error)]
pub enum EnvFault {
    /// The name of the file at this place contains `=`.
    #[error("NameHasEquals")]
    NameHasEquals(usize),

    /// The value of the file at this place is not UTF-8.
    #[error("NotText")]
    NotText(usize),

    /// The allocator refused memory for the variables.
    #[error("OutOfMemory")]
    OutOfMemory,
}
