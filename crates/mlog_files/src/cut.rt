ghost use Rattle.std.specs.Prelude.{◌≡◌, ◌+◌, ◌-◌, ◌<◌, ◌≤◌, ◌==◌, ◌^◌, ℕ, true, false, length, slice_index};
ghost use Rattle.mlog_files.specs.Cut.{fills};
ghost use Rattle.memchr.specs.Find.{IsFirst, Passes, is_byte};

use memchr::memchr;

/// How far below its size a file that ends in a newline is full.
pub const SLACK: usize = 2000;

/// How many bytes still go into a file, and whether it is full with them.
#[derive(Clone, Copy, Debug)]
pub struct Cut {
    pub len: usize,
    pub is_full: bool,
}

/// Returns the first cut in bytes that come after `standing` earlier ones.
pub fn first_cut(size: usize, standing: usize, bytes: &[u8]) -> Cut
    // The size is at least the slack. The file has not reached it yet, and at least one byte comes.
    requires size { 2000 ≤ size }
    requires room { standing < size }
    requires some { 0 < length bytes.now }

    // The cut takes at least one byte, and no more than there are or than the size allows.
    ensures some { 0 < result.len }
    ensures within { result.len ≤ length bytes.now }
    ensures upto { standing + result.len ≤ size }

    // The file is full at no earlier place. If it is not full at the cut either, the cut takes all bytes.
    ensures open_before { (k : ℕ) → 0 < k → k < result.len
        → fills size (standing + k) (slice_index bytes.now (k - 1) == 10) ≡ false }
    ensures full { result.is_full ≡ fills size (standing + result.len) (slice_index bytes.now (result.len - 1) == 10) }
    ensures all { result.is_full ≡ false → result.len ≡ length bytes.now }
{
    let room = size - standing;
    let most = bytes.len().min(room);
    let edge = (size - SLACK).saturating_sub(standing + 1);
    match newline_from(bytes, edge, most) {
        Some(at) => Cut {
            len: at + 1,
            is_full: true,
        },
        None => Cut {
            len: most,
            is_full: most == room,
        },
    }
}

/// Returns the first newline from one place up to another.
fn newline_from(bytes: &[u8], from: usize, to: usize) -> Option<usize>
    requires { to ≤ length bytes.now }
    ensures { IsFirst (Passes (is_byte 10) bytes.now) from to result }
{
    if from >= to {
        return None;
    }
    match memchr(b'\n', &bytes[from..to]) {
        Some(at) => Some(from + at),
        None => None,
    }
}
