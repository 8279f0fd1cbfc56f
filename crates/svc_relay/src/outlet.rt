//! The destination of a service's output.
use std::io::Write;
use tai_status::Output;

/// A fault of an outlet. Its count of failures shows it.
#[derive(Clone, Copy, Debug, PartialEq, Eq)]
pub struct OutletFault;

/// The input of one life of a logger. Contracts see how often it failed (`failures`, which may be at its maximum) and,
/// if it shows them, the bytes that were put into it, in order (`bytes`). It is a failure if it takes no byte of a
/// piece.
pub trait Outlet {
    ghost use Rattle.std.specs.Prelude.{◌≡◌, ◌≤◌, ◌<◌, ℕ, Option, None, List, length, take, IfOk, OnOk, OnErr};
    ghost use Rattle.std.specs.Io.KnownBytes.{append_known};
    ghost use Rattle.tai_status.specs.Counted.{Rose};

    ghost failures: { Self → ℕ };

    ghost bytes: { Self → Option (List ℕ) } = { λ _. None };

    /// Puts a prefix of the piece, and returns its length. At `Err` nothing was put.
    fn put(&mut self, piece: &[u8]) -> Result<usize, OutletFault>
        // If it succeeds, a prefix of the piece comes after the bytes that were put before. It is empty only if the
        // piece is.
        ensures within { IfOk result (λ count. count ≤ length piece.now) }
        ensures some { IfOk result (λ count. 0 < length piece.now → 0 < count) }
        ensures front { IfOk result (λ count. bytes self.new ≡ append_known (bytes self.old) (take count piece.now)) }

        // If it fails, the outlet took nothing, and its count of failures rises, up to its maximum. If it succeeds,
        // this count stays.
        ensures nothing { OnErr result (bytes self.new ≡ bytes self.old) }
        ensures works { OnOk result (failures self.new ≡ failures self.old) }
        ensures failed { OnErr result (Rose (failures self.old) (failures self.new)) };
}

/// A counted writer is an outlet. It does not show its bytes, since a writer over the system knows none.
impl<D: Write> Outlet for Output<D> {
    ghost failures = { λ output. output.faults };

    fn put(&mut self, piece: &[u8]) -> Result<usize, OutletFault> {
        match self.write(piece) {
            Ok(count) => Ok(count),
            Err(_fault) => Err(OutletFault),
        }
    }
}
