//! Why `trace` does not print the whole of a text.
use sup_trace::TraceFault;
use tai_status::Cause;

/// Why `trace` prints nothing about a text, or not everything.
#[derive(Clone, Copy, Debug, PartialEq, Eq)]
pub enum TraceTrouble {
    /// The text is refused.
    Refused(TraceFault),
    /// There is no memory.
    OutOfMemory,
    /// The writer failed: the cause of its last fault, if it is known.
    Write(Option<Cause>),
}
