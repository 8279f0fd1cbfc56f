use tai_status::Label;

/// What happens to a service. A label says when.
#[derive(Clone, Copy, Debug, PartialEq, Eq)]
pub enum Event {
    /// A control byte came.
    Byte(u8),
    /// The start that was asked for made this process. Its number is at least 1.
    Started { pid: u32, label: Label },
    /// The start that was asked for failed.
    StartFailed { label: Label },
    /// The process died.
    Death { label: Label },
    /// The clock was read.
    Clock { label: Label },
}
