//! The clock of a logger, which is read once for each read of the input.
ghost use Rattle.std.specs.Prelude.{◌≡◌, MatchOption};
ghost use Rattle.cmd_multilog.specs.Rising.{later};

use crate::rising::RisingLabels;
use std::cell::Cell;
use tai_status::{Label, TimeSource};

/// The labels of a logger's lines, which its input and its clock share. The input says when bytes came or a word was
/// heard, and the clock gives a label for each line. They say nothing to contracts.
#[derive(Drop)]
pub struct LineLabels {
    labels: Cell<Option<RisingLabels>>,
}

impl LineLabels {
    /// Makes labels before any bytes have come.
    pub fn new() -> LineLabels {
        LineLabels {
            labels: Cell::new(None),
        }
    }

    /// Continues from this reading of the clock.
    pub(crate) fn renew(&self, reading: Label) {
        self.labels.set(Some(renewed(self.labels.get(), reading)));
    }

    /// Returns the label of the next line, if bytes have come.
    fn give(&self) -> Option<Label> {
        let mut labels = self.labels.get()?;
        let label = labels.give();
        self.labels.set(Some(labels));
        Some(label)
    }
}

/// Returns labels that continue from this reading: they begin with the first reading, and then rise.
fn renewed(labels: Option<RisingLabels>, reading: Label) -> RisingLabels
    ensures { MatchOption labels (result ≡ reading) (λ old. result ≡ later old reading) }
{
    match labels {
        Some(mut labels) => {
            labels.renew(reading);
            labels
        }
        None => RisingLabels::new(reading),
    }
}

/// A clock that a logger's input renews. If lines were read together, the label of each is one nanosecond past the one
/// before. If no logger's input was read, it is its own clock.
#[derive(Drop)]
pub struct LineClock<'l, C: TimeSource + Drop> {
    clock: C,
    labels: &'l LineLabels,
}

impl<'l, C: TimeSource + Drop> LineClock<'l, C> {
    /// Makes the clock for the lines that this input reads.
    pub fn new(clock: C, labels: &'l LineLabels) -> LineClock<'l, C> {
        LineClock { clock, labels }
    }
}

impl<'l, C: TimeSource + Drop> TimeSource for LineClock<'l, C> {
    fn now(&mut self) -> Label {
        match self.labels.give() {
            Some(label) => label,
            None => self.clock.now(),
        }
    }
}
