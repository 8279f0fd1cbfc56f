//! A clock that keeps its readings.
use std::alloc::Global;
use std::process::Abort;
use tai_status::{Label, TimeSource};

/// A clock that advances by a second at each reading, and keeps its readings. It ends the test if there is no memory
/// for one more: a clock that shows its readings must go on showing them.
#[derive(Drop)]
pub struct KeptClock<'a, R: Abort> {
    rt: &'a R,
    next: Label,
    readings: Vec<Label>,
}

impl<'a, R: Abort> KeptClock<'a, R> {
    ghost use Rattle.std.specs.Prelude.{◌≡◌, []};

    /// Returns a clock that was not read yet, and begins with this label.
    pub fn new(rt: &'a R, alloc: Global, next: Label) -> KeptClock<'a, R>
        ensures { result.readings.items ≡ [] }
    {
        KeptClock {
            rt,
            next,
            readings: Vec::new(alloc),
        }
    }

    /// Returns the readings, in order.
    pub fn into_readings(self) -> Vec<Label>
        ensures { result.items ≡ self.entry.readings.items }
    {
        self.readings
    }
}

impl<'a, R: Abort> TimeSource for KeptClock<'a, R> {
    ghost use Rattle.std.specs.Prelude.{Some};

    ghost readings = { λ clock. Some clock.readings.items };

    fn now(&mut self) -> Label {
        let label = self.next;
        self.next = label.plus_second();
        self.readings.push(label).expect(self.rt, "memory");
        label
    }
}
