ghost use Rattle.std.specs.Prelude.{◌≡◌, ◌≤◌, ◌<◌, ◌^◌, OnOk, OnErr, IfOk, Some, IsSome, length};
ghost use Rattle.std.specs.Io.KnownBytes.{ReadConsumes, WriteAppends};
ghost use Rattle.tai_status.specs.Counted.{Fails, Works, CountsRead, Wrote, WroteFront};

use crate::cause::Cause;
use std::io::{ErrorKind, Read, Write};
use std::marker::{Model, PhantomData};

/// The most reads of a device, and the most tries of one write.
const MOST_READS: u64 = 1 << 48;

/// A fault of a device. Its [`Counted`] shows the count and the cause.
#[derive(Clone, Copy, Debug, PartialEq, Eq)]
pub struct DeviceFault;

/// Marks a device that is read.
#[derive(Clone, Copy)]
pub struct In;

/// Marks a device that is written.
#[derive(Clone, Copy)]
pub struct Out;

/// A device that can be used in this way. Contracts see the bytes that it has left, or that it holds.
pub trait Used<Way> {
    ghost use Rattle.std.specs.Prelude.{ℕ, Option, List};

    ghost bytes: { Self → Option (List ℕ) };
}

impl<D: Read> Used<In> for D {
    ghost bytes = { D.remaining };
}

impl<D: Write> Used<Out> for D {
    ghost bytes = { D.contents };
}

/// A reader or a writer, with counts of its reads and its faults, and the cause of its last fault. Its use decides
/// which of the two it is.
///
/// A call returns a fault only if the count of faults rose in that call, or was at its maximum. After 2^48 reads, each
/// further read is a fault, so each loop over a reader ends.
#[derive(Drop)]
pub struct Counted<D: Used<Way>, Way> {
    device: D,
    reads: u64,
    faults: u64,
    cause: Option<Cause>,
    way: PhantomData<Way>,
}

/// A reader with counts.
pub type Input<D> = Counted<D, In>;

/// A writer with counts.
pub type Output<D> = Counted<D, Out>;

impl<D: Used<Way>, Way> Model for Counted<D, Way> {
    ghost use Rattle.std.specs.Prelude.{◌≤◌, ◌^◌};
    ghost use Rattle.tai_status.specs.Counted.{Device};

    ghost Value = { Device };

    ghost view = { λ c. record { bytes = D.bytes c.device; reads = c.reads; faults = c.faults; cause = c.cause } };

    ghost invariant = { λ c. c.reads ≤ 2 ^ 48 };
}

impl<D: Used<Way>, Way> Counted<D, Way> {
    /// Wraps a device, with no reads and no faults counted yet.
    pub fn new(device: D) -> Counted<D, Way>
        ensures { result ≡ record { bytes = D.bytes device; reads = 0; faults = 0; cause = None } }
    {
        Counted {
            device,
            reads: 0,
            faults: 0,
            cause: None,
            way: PhantomData,
        }
    }

    /// Returns the number of faults so far. It stops at `u64::MAX`.
    pub fn faults(&self) -> u64
        ensures { result ≡ self.now.faults }
    {
        self.faults
    }

    /// Returns the number of reads so far, at most 2^48.
    pub fn reads(&self) -> u64
        ensures count { result ≡ self.now.reads }
        ensures bounded { result ≤ 2 ^ 48 }
    {
        self.reads
    }

    /// Returns the cause of the last fault.
    pub fn cause(&self) -> Option<Cause>
        ensures { result ≡ self.now.cause }
    {
        self.cause
    }

    /// Returns the device itself.
    pub fn into_device(self) -> D
        ensures { D.bytes result ≡ self.bytes }
    {
        let Self { device, .. } = self;
        device
    }

    /// Counts a fault, and keeps its cause. The count stops at its maximum.
    fn count_fault(&mut self, cause: Cause) -> DeviceFault
        ensures rose { Fails self.old self.new }
        ensures cause { self.new.cause ≡ Some cause }
        ensures bytes { self.new.bytes ≡ self.old.bytes }
        ensures reads { self.new.reads ≡ self.old.reads }
    {
        self.faults = self.faults.saturating_add(1);
        self.cause = Some(cause);
        DeviceFault
    }
}

impl<D: Read> Counted<D, In> {
    /// Reads once, and tries again if the read was interrupted. A fault loses no byte.
    pub fn read(&mut self, into: &mut [u8]) -> Result<usize, DeviceFault>
        // The front of the buffer has the bytes that the device gave. After a fault it gave none.
        ensures bound { IfOk result (λ count. count ≤ length into.new) }
        ensures bytes { ReadConsumes self.old.bytes self.new.bytes result into.new }

        // If it succeeds, the reads are counted, and no fault is. If it fails, the fault is counted, and its cause is
        // kept.
        ensures reads { OnOk result (CountsRead self.old self.new) }
        ensures faults { OnOk result (Works self.old self.new) }
        ensures fault { OnErr result (Fails self.old self.new) }
        ensures why { OnErr result (IsSome self.new.cause) }
    {
        while self.reads < MOST_READS {
            self.reads += 1;
            match self.device.read(into) {
                Ok(count) => return Ok(count),
                Err(fault) => {
                    if fault.kind() != ErrorKind::Interrupted {
                        return Err(self.count_fault(Cause::of(&fault)));
                    }
                }
            }
        }
        Err(self.count_fault(Cause::Other))
    }
}

impl<D: Write> Counted<D, Out> {
    /// Writes a prefix of the piece, and tries again if the write was interrupted. It is a fault if the device takes no
    /// byte.
    pub fn write(&mut self, piece: &[u8]) -> Result<usize, DeviceFault>
        // The device takes a prefix of the piece, and at least one byte if there are any. After a fault it took none.
        ensures bound { IfOk result (λ count. count ≤ length piece.now) }
        ensures some { IfOk result (λ count. 0 < length piece.now → 0 < count) }
        ensures bytes { WriteAppends self.old.bytes self.new.bytes result piece.now }

        // No read is counted, and no fault if it succeeds. If it fails, the fault is counted, and its cause is kept.
        ensures reads { self.new.reads ≡ self.old.reads }
        ensures faults { OnOk result (Works self.old self.new) }
        ensures fault { OnErr result (Fails self.old self.new) }
        ensures why { OnErr result (IsSome self.new.cause) }
    {
        for _ in 0..MOST_READS {
            match self.device.write(piece) {
                Ok(count) => {
                    if count == 0 && !piece.is_empty() {
                        return Err(self.count_fault(Cause::Other));
                    }
                    return Ok(count);
                }
                Err(fault) => {
                    if fault.kind() != ErrorKind::Interrupted {
                        return Err(self.count_fault(Cause::of(&fault)));
                    }
                }
            }
        }
        Err(self.count_fault(Cause::Other))
    }

    /// Writes the whole piece. After a fault, a prefix of it is written.
    pub fn write_all(&mut self, piece: &[u8]) -> Result<(), DeviceFault>
        // All of the piece is written, or a prefix of it if it fails.
        ensures ok { OnOk result (Wrote self.old self.new piece.now) }
        ensures err { OnErr result (WroteFront self.old self.new piece.now) }

        // No read is counted, and no fault if it succeeds. If it fails, the fault is counted, and its cause is kept.
        ensures reads { self.new.reads ≡ self.old.reads }
        ensures faults { OnOk result (Works self.old self.new) }
        ensures fault { OnErr result (Fails self.old self.new) }
        ensures why { OnErr result (IsSome self.new.cause) }
    {
        let mut at = 0;
        while at < piece.len() {
            at += self.write(&piece[at..])?;
        }
        Ok(())
    }
}
