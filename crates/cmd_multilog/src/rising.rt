//! Labels that rise.
ghost use Rattle.std.specs.Prelude.{◌≡◌};
ghost use Rattle.tai_status.specs.Label.{plus_nano};
ghost use Rattle.cmd_multilog.specs.Rising.{later};

use std::marker::Model;
use tai_status::Label;

/// The labels of a logger's lines. Each is one nanosecond past the one before, or the reading of the clock that came in
/// between, if that is later. The labels therefore rise, whatever the clock returns. Contracts see the next label.
#[derive(Clone, Copy, Debug)]
pub struct RisingLabels {
    next: Label,
}

impl Model for RisingLabels {
    ghost use Rattle.tai_status.specs.Label.{Tai64n};

    ghost Value = { Tai64n };

    ghost view = { λ labels. labels.next };

    ghost inverse = { λ next. record { next = next } };
}

impl RisingLabels {
    /// Makes labels that begin with this reading.
    pub fn new(reading: Label) -> RisingLabels
        ensures { result ≡ reading }
    {
        RisingLabels { next: reading }
    }

    /// Continues from this reading, if it is past all labels that were given.
    pub fn renew(&mut self, reading: Label)
        ensures { self.new ≡ later self.old reading }
    {
        if self.next < reading {
            self.next = reading;
        }
    }

    /// Returns the next label.
    pub fn give(&mut self) -> Label
        ensures label { result ≡ self.old }
        ensures next { self.new ≡ plus_nano self.old }
    {
        let label = self.next;
        self.next = label.plus_nano();
        label
    }
}
