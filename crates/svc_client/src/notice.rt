//! The small files in which svscan writes about a service's processes.
use arrayvec::ArrayVec;

/// The number of bytes read of a notice: more than the longest one has.
pub const NOTICE_BYTES: usize = 64;

/// The text of a notice.
pub type NoticeText = ArrayVec<u8, NOTICE_BYTES>;

/// A small file in which svscan writes about a service's processes.
#[derive(Clone, Copy, Debug, PartialEq, Eq)]
pub enum Notice {
    /// How the last process ended.
    Exit,
    /// When the process said that it is ready.
    Ready,
    /// Until when the next start waits.
    Backoff,
    /// How many of its processes began and ended.
    Counts,
}
