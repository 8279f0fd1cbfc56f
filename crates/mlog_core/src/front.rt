//! The bytes before a newline.
ghost use Rattle.std.specs.Prelude.{◌≡◌, ◌≤◌, true, false, length, take};
ghost use Rattle.tai_status.specs.LineReader.{IsPlain};
ghost use Rattle.mlog_core.specs.Scene.{HasNewlineAt};

use memchr::memchr;

/// How many bytes come before the first newline, and whether there is one.
#[derive(Clone, Copy)]
pub struct PlainFront {
    pub len: usize,
    pub ends: bool,
}

/// Returns how many bytes come before the first newline, or all if there is none. The newline is not counted.
pub fn plain_front(bytes: &[u8]) -> PlainFront
    ensures within { result.len ≤ length bytes.now }
    ensures plain { IsPlain (take result.len bytes.now) }
    ensures newline { result.ends ≡ true → HasNewlineAt bytes.now result.len }
    ensures none { result.ends ≡ false → result.len ≡ length bytes.now }
{
    match memchr(b'\n', bytes) {
        Some(at) => PlainFront {
            len: at,
            ends: true,
        },
        None => PlainFront {
            len: bytes.len(),
            ends: false,
        },
    }
}
