//! What a service wrote, one piece at a time.
ghost use Rattle.std.specs.Prelude.{◌<◌, ◌≤◌};

/// The most bytes of a piece.
pub const MOST: usize = 512;

/// 1 to 512 bytes of a service's output. Contracts see its bytes (`bytes_of`).
#[derive(Clone, Copy)]
pub struct Piece {
    bytes: [u8; MOST],
    len: usize,
    ghost some: { 0 < len },
    ghost within: { len ≤ 512 },
}

impl Piece {
    ghost use Rattle.std.specs.Prelude.{◌≡◌, ◌<◌, ◌≤◌, length, take};
    ghost use Rattle.svc_relay.specs.Pieces.{bytes_of};

    /// Returns the first `len` bytes of a buffer, 1 to 512, as a piece.
    pub fn front(buffer: &[u8; MOST], len: usize) -> Piece
        requires { (0 < len) × (len ≤ 512) }
        ensures { bytes_of result ≡ take len buffer.now }
    {
        Piece {
            bytes: *buffer,
            len,
        }
    }

    /// Returns the bytes.
    pub fn as_slice(&self) -> &[u8]
        ensures bytes { result.now ≡ bytes_of self.now }
        ensures some { (0 < length result.now) × (length result.now ≤ 512) }
    {
        &self.bytes[..self.len]
    }

    /// Returns how many bytes the piece has.
    pub fn len(&self) -> usize
        ensures bytes { result ≡ length (bytes_of self.now) }
        ensures some { (0 < result) × (result ≤ 512) }
    {
        self.len
    }
}
