//! An input that comes in parts.
ghost use Rattle.std.specs.Prelude.{◌≡◌, ◌≤◌, true, false, IfOk, OnOk, OnErr, length};

use std::io::Read;
use tai_status::{Cause, DeviceFault, Input};

/// The input of a logger. It comes in parts: the logs are to be rotated after each part but the last. Contracts see the
/// part that is being read, and the parts after it if they are visible.
pub trait PartedInput {
    ghost use Rattle.std.specs.Prelude.{◌≡◌, ◌≤◌, true, false, IfOk, IsSome, OnOk, OnErr, length};
    ghost use Rattle.std.specs.Io.KnownBytes.{ReadConsumes};
    ghost use Rattle.tai_status.specs.Counted.{CountsRead, Fails, IsRead, Works};
    ghost use Rattle.mlog_core.specs.Feed.{Feed, OpensNext};

    ghost feed: { Self → Feed };

    /// Reads once from the part, as [`Input::read`] does. No byte comes only at the part's end, or with an empty
    /// buffer.
    fn read_part(&mut self, into: &mut [u8]) -> Result<usize, DeviceFault>
        // The front of the buffer has the bytes that the part gave. After a fault it gave none.
        ensures bound { IfOk result (λ count. count ≤ length into.new) }
        ensures bytes { ReadConsumes (feed self.old).device.bytes (feed self.new).device.bytes result into.new }

        // If it succeeds, the reads are counted, and no fault is. If it fails, the fault is counted, and its cause is
        // kept.
        ensures reads { OnOk result (CountsRead (feed self.old).device (feed self.new).device) }
        ensures faults { OnOk result (Works (feed self.old).device (feed self.new).device) }
        ensures fault { OnErr result (Fails (feed self.old).device (feed self.new).device) }
        ensures why { OnErr result (IsSome (feed self.new).device.cause) }

        // In each outcome the later parts stay.
        ensures behind { (feed self.new).behind ≡ (feed self.old).behind };

    /// Returns the cause of the last fault.
    fn last_cause(&self) -> Option<Cause>
        ensures { result ≡ (feed self.now).device.cause };

    /// Returns whether the logs are to be rotated after the part, which has ended. If so, the next part begins.
    fn next_part(&mut self) -> bool
        requires end { IsRead (feed self.old).device }
        ensures asked { result ≡ (feed self.old).rotates }
        ensures next { result ≡ true → OpensNext (feed self.old) (feed self.new) }
        ensures last { result ≡ false → feed self.new ≡ feed self.old };
}

impl<D: Read> PartedInput for Input<D> {
    ghost use Rattle.mlog_core.specs.Feed.{in_one};

    ghost feed = { in_one };

    fn read_part(&mut self, into: &mut [u8]) -> Result<usize, DeviceFault> {
        self.read(into)
    }

    fn last_cause(&self) -> Option<Cause> {
        self.cause()
    }

    fn next_part(&mut self) -> bool {
        false
    }
}
