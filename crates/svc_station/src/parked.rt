//! A writer on its way to a thread and back.
use crate::writer::Writer;
use std::snapshot::Snapshot;
use std::sync::Wait;
use std::thread::Promise;

/// A writer that a thread may take and give back. A writer ends only by `Writer::end`, so dropping this waits for ever.
pub struct Parked<R: Wait> {
    writer: Writer,
    rt: R,
}

impl<R: Wait> Drop for Parked<R> {
    fn drop(self) {
        let Self { writer, rt } = self;
        for _ in rt.forever() {}
        unreachable!()
    }
}

impl<R: Wait + Drop> Parked<R> {
    ghost use Rattle.std.specs.Prelude.{◌≡◌};
    ghost use Rattle.svc_station.specs.Parking.{writer_in};

    /// Wraps the writer for its way to a thread.
    pub fn new(writer: Writer, rt: R) -> Parked<R>
        ensures { writer_in result ≡ writer }
    {
        Parked { writer, rt }
    }

    /// Returns the writer, as it came.
    pub fn into_writer(self) -> Writer
        ensures { result ≡ writer_in self }
    {
        let Self { writer, rt: _ } = self;
        writer
    }
}

/// Promises that a writer comes back as the one that went: it has the same station, and its history continues what it
/// had published. For `thread::spawn_with`.
#[derive(Drop)]
pub struct SameStation<R: Wait> {
    went: Snapshot<Parked<R>>,
}

impl<R: Wait> Promise<Parked<R>> for SameStation<R> {
    ghost use Rattle.svc_station.specs.Parking.{GoesOn, writer_in};

    ghost kept_by = { λ promise back. GoesOn (writer_in promise.went.value) (writer_in back) };
}

impl<R: Wait> SameStation<R> {
    ghost use Rattle.std.specs.Prelude.{◌≡◌};

    /// Notes the writer before the thread has it.
    pub fn of(parked: &Parked<R>) -> SameStation<R>
        ensures { result.went.value ≡ parked.now }
    {
        SameStation {
            went: Snapshot::of(parked),
        }
    }
}
