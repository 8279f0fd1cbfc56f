//! An input with two known parts.
ghost use Rattle.std.specs.Prelude.{◌≤◌, ◌^◌};

use mlog_core::PartedInput;
use tai_status::{Cause, DeviceFault};

/// The most reads of the input.
const MOST_READS: u64 = 1 << 48;

/// An input that comes in two parts. Contracts see all that is left of it. It counts its faults, which are reads after
/// the last one that it allows.
#[derive(Drop)]
pub struct TwoParts<'a> {
    left: &'a [u8],
    second: Option<&'a [u8]>,
    reads: u64,
    faults: u64,
    cause: Option<Cause>,
    ghost bounded: { reads ≤ 2 ^ 48 },
}

impl<'a> TwoParts<'a> {
    ghost use Rattle.std.specs.Prelude.{◌≡◌, Some, option_map};

    /// Returns an input that was not read yet, with the first part, and the second one after it.
    pub fn new(first: &'a [u8], second: &'a [u8]) -> TwoParts<'a>
        ensures first { result.left.now ≡ first.entry.now }
        ensures second { option_map (λ part. part.now) result.second ≡ Some second.entry.now }
    {
        TwoParts {
            left: first,
            second: Some(second),
            reads: 0,
            faults: 0,
            cause: None,
        }
    }
}

impl<'a> PartedInput for TwoParts<'a> {
    ghost use Rattle.std.specs.Prelude.{option_map};
    ghost use Rattle.limit_tests.specs.Parts.{feed_of};

    ghost feed = { λ parts.
        feed_of parts.left.now (option_map (λ part. part.now) parts.second) parts.reads parts.faults parts.cause };

    fn read_part(&mut self, into: &mut [u8]) -> Result<usize, DeviceFault> {
        if self.reads < MOST_READS {
            self.reads += 1;
            let count = self.left.len().min(into.len());
            into[..count].copy_from_slice(&self.left[..count]);
            self.left = &self.left[count..];
            return Ok(count);
        }
        self.faults = self.faults.saturating_add(1);
        self.cause = Some(Cause::Other);
        Err(DeviceFault)
    }

    fn last_cause(&self) -> Option<Cause> {
        self.cause
    }

    fn next_part(&mut self) -> bool {
        match self.second {
            Some(part) => {
                self.left = part;
                self.second = None;
                true
            }
            None => false,
        }
    }
}
