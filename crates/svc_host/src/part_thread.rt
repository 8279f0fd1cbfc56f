//! The thread of a part.
ghost use Rattle.std.specs.Prelude.{◌≡◌, ◌+◌, length, option_map};
ghost use Rattle.sup_core.specs.History.{phase_of, state_of};
ghost use mathlib.Core.List.{IsPrefix};
ghost use Rattle.svc_mail.specs.Ends.{taken_by};
ghost use Rattle.svc_station.specs.Ends.{IsSameReader, history_at, history_of, known_to, published, reader_station};
ghost use Rattle.svc_station.specs.Ends.{station, trace_at};
ghost use Rattle.svc_house.specs.Calls.{bytes_in};
ghost use Rattle.svc_host.specs.Growth.{IsText};
ghost use Rattle.svc_host.specs.Served.{IsServed};
ghost use Rattle.tai_status.specs.declared.phase.Phase.{Phase};

use crate::growth::{Growth, text_of};
use crate::running::Running;
use core::mem::replace_with;
use std::alloc::{AllocError, Global};
use std::snapshot::Snapshot;
use std::sync::Wait;
use std::thread::Threads;
use sup_core::Machine;
use sup_trace::TraceText;
use svc_house::{Runtime, last_reading};
use svc_mail::receiver::Receiver;
use svc_station::audit::last_machine;
use svc_station::reader::Reader;
use svc_station::writer::Writer;

/// What is left of a service that is gone, once its station has ended: the machine after its whole history, how many
/// events that has, and its trace. The receiver of its mailbox is kept with a count of the letters it took after the
/// service was gone.
#[derive(Drop)]
pub(crate) struct Last {
    pub(crate) machine: Machine,
    count: u64,
    trace: Option<TraceText>,
    receiver: Receiver<u8>,
    pub(crate) untaken: u64,
    pub(crate) reader: Snapshot<Reader>,
    ghost reads: { machine ≡ state_of (history_at reader.value) },
    ghost gone: { phase_of (history_at reader.value) ≡ Phase.Gone },
    ghost all: { count ≡ length (known_to reader.value) },
    ghost requested: { option_map (λ _. trace_at reader.value) trace ≡ trace },
    // The service took one letter for each control byte of its whole history. Letters taken since then are counted.
    ghost counted: { length (taken_by receiver) ≡ length (bytes_in (known_to reader.value)) + untaken },
}

impl Last {
    ghost use Rattle.std.specs.Prelude.{◌≡◌, length};
    ghost use mathlib.Core.List.{IsPrefix};
    ghost use Rattle.sup_core.specs.History.{phase_of};
    ghost use Rattle.tai_status.specs.declared.phase.Phase.{Phase};
    ghost use Rattle.svc_station.specs.Ends.{IsSameReader, history_of, known_to, reader_station, station, trace_at};
    ghost use Rattle.svc_host.specs.Served.{IsServed};
    ghost use Rattle.svc_host.specs.Growth.{IsText};

    /// Reads what is left, after the reader has learnt everything that the writer of its station published. The
    /// writer's service is gone. If there is no memory for the trace, there is none.
    pub(crate) fn of(
        alloc: Global,
        reader: &mut Reader,
        writer: &mut Writer,
        receiver: Receiver<u8>,
    ) -> Last
        requires station { reader_station reader.old ≡ station writer.old }
        requires served { IsServed writer.old receiver }

        // The reader learns, and is still the same one.
        ensures same { IsSameReader reader.old reader.new }
        ensures own { IsPrefix (known_to reader.old) (known_to reader.new) }
        ensures now { result.reader.value ≡ reader.new }

        // The writer stays as it is, and all bytes were taken.
        ensures kept { writer.new ≡ writer.old }
        ensures untaken { result.untaken ≡ 0 }
    {
        let (machine, trace) = read_last(alloc, reader, writer);
        Last {
            machine,
            count: reader.count(),
            trace,
            receiver,
            untaken: 0,
            reader: Snapshot::of(reader),
        }
    }

    // Returns the text of its trace.
    fn text(&self, alloc: Global) -> Growth
        ensures { IsText (trace_at self.now.reader.value) (length (known_to self.now.reader.value)) result }
    {
        match &self.trace {
            Some(trace) => text_of(trace, alloc, self.count),
            None => Growth::Refused,
        }
    }

    // Takes a letter that the service did not take, and counts it. Returns whether there was one.
    fn take_one<R: Wait>(&mut self, rt: &R) -> bool
        ensures reader { self.new.reader ≡ self.old.reader }
        ensures machine { self.new.machine ≡ self.old.machine }
    {
        match self.receiver.take(rt) {
            Some(_letter) => {
                self.untaken += 1;
                true
            }
            None => false,
        }
    }

    /// Takes the letters that the service did not take, at most this many.
    pub(crate) fn drain<R: Wait>(&mut self, rt: &R, most: usize)
        ensures reader { self.new.reader ≡ self.old.reader }
        ensures machine { self.new.machine ≡ self.old.machine }
    {
        for _ in 0..most {
            if !self.take_one(rt) {
                return;
            }
        }
    }
}

/// Returns the machine and the trace of a service that is gone, after its whole history.
fn read_last(
    alloc: Global,
    reader: &mut Reader,
    writer: &mut Writer,
) -> (Machine, Option<TraceText>)
    requires station { reader_station reader.old ≡ station writer.old }
    requires gone { phase_of (history_of writer.old) ≡ Phase.Gone }

    // The machine is that of the whole history, and it is gone.
    ensures machine { result.0 ≡ state_of (history_at reader.new) }
    ensures gone { phase_of (history_at reader.new) ≡ Phase.Gone }
    ensures whole { known_to reader.new ≡ published writer.old }

    // The reader learns, and is still the same one. The writer stays as it is.
    ensures same { IsSameReader reader.old reader.new }
    ensures own { IsPrefix (known_to reader.old) (known_to reader.new) }
    ensures kept { writer.new ≡ writer.old }

    // If there is a trace, it is that of the reader.
    ensures trace { option_map (λ _. trace_at reader.new) result.1 ≡ result.1 }
{
    match last_reading(alloc, reader, writer.tell()) {
        Ok((machine, trace)) => (machine, Some(trace)),
        Err(_refused) => (last_machine(reader, writer.tell()), None),
    }
}

/// Returns how many events were read.
fn count_at(reader: &mut Reader) -> u64
    ensures same { IsSameReader reader.old reader.new }
    ensures own { IsPrefix (known_to reader.old) (known_to reader.new) }
    ensures count { result ≡ length (known_to reader.new) }
{
    reader.machine();
    reader.count()
}

/// Returns the text of the trace that is read.
fn text_at(alloc: Global, reader: &mut Reader) -> Growth
    ensures same { IsSameReader reader.old reader.new }
    ensures own { IsPrefix (known_to reader.old) (known_to reader.new) }
    ensures text { IsText (trace_at reader.new) (length (known_to reader.new)) result }
{
    match reader.trace(alloc) {
        Ok(trace) => text_of(&trace, alloc, reader.count()),
        Err(AllocError) => Growth::Refused,
    }
}

/// The thread of a part: it runs, or it has ended and was joined.
#[derive(Drop)]
pub(crate) enum PartThread<R: Wait + Drop> {
    Runs(Running<R>),
    Ended(Last),
}

impl<R: Runtime> PartThread<R> {
    ghost use Rattle.std.specs.Prelude.{◌≡◌, true, false, length};
    ghost use mathlib.Core.List.{IsPrefix};
    ghost use Rattle.sup_core.specs.History.{phase_of, state_of};
    ghost use Rattle.tai_status.specs.declared.phase.Phase.{Phase};
    ghost use Rattle.svc_station.specs.Ends.{history_at, known_to, reader_station, trace_at};
    ghost use Rattle.svc_host.specs.Growth.{IsText, Shows};
    ghost use Rattle.svc_host.specs.Threads.{IsAsBefore, IsSameThread, is_ended, reader_at, untaken_at};

    /// Returns whether the thread was joined.
    pub(crate) fn has_ended(&self) -> bool
        ensures { result ≡ is_ended self.now }
    {
        matches!(self, PartThread::Ended(_))
    }

    /// Returns whether the service has ended and its thread is still to be joined.
    pub(crate) fn is_to_be_joined(&self) -> bool
        ensures { result ≡ true → is_ended self.now ≡ false }
    {
        match self {
            PartThread::Runs(running) => running.shared.has_ended(),
            PartThread::Ended(_) => false,
        }
    }

    /// Returns whether the service runs and owes what it could not write.
    pub(crate) fn owes(&self) -> bool {
        match self {
            PartThread::Runs(running) => running.shared.owes(),
            PartThread::Ended(_) => false,
        }
    }

    // Joins the thread, if it was not joined. Returns whether it is joined then. A service that has not begun stays as
    // it was.
    fn joined(self, rt: &R, alloc: Global) -> (PartThread<R>, bool)
        ensures same { IsSameThread self result.0 }
        ensures ended { result.1 ≡ is_ended result.0 }
        ensures gone { result.1 ≡ true → phase_of (history_at (reader_at result.0)) ≡ Phase.Gone }
        ensures unbegun { result.1 ≡ false → IsAsBefore self result.0 }
    {
        match self {
            PartThread::Runs(running) => match running.join(rt, alloc) {
                Ok(last) => (PartThread::Ended(last), true),
                Err(running) => (PartThread::Runs(running), false),
            },
            PartThread::Ended(last) => (PartThread::Ended(last), true),
        }
    }

    /// Joins the thread, if it was not joined. Returns whether it is joined then. A service that has not begun stays as
    /// it was.
    pub(crate) fn join(&mut self, rt: &R, alloc: Global) -> bool
        ensures same { IsSameThread self.old self.new }
        ensures ended { result ≡ is_ended self.new }
        ensures gone { result ≡ true → phase_of (history_at (reader_at self.new)) ≡ Phase.Gone }
        ensures unbegun { result ≡ false → IsAsBefore self.old self.new }
    {
        replace_with(self, rt, |thread, rt| thread.joined(rt, alloc))
    }

    /// Returns the machine after the events that were read. If the part has ended, these are all its events.
    pub(crate) fn machine(&mut self) -> Machine
        ensures same { IsSameThread self.old self.new }
        ensures ended { is_ended self.new ≡ is_ended self.old }
        ensures untaken { untaken_at self.new ≡ untaken_at self.old }
        ensures reading { result ≡ state_of (history_at (reader_at self.new)) }
        ensures gone { is_ended self.new ≡ true → phase_of (history_at (reader_at self.new)) ≡ Phase.Gone }
    {
        match self {
            PartThread::Runs(running) => running.status_reader.reader.machine(),
            PartThread::Ended(last) => last.machine,
        }
    }

    // Returns how many events were published, as far as they were read. If the part has ended, these are all its
    // events.
    fn count(&mut self) -> u64
        ensures same { IsSameThread self.old self.new }
        ensures ended { is_ended self.new ≡ is_ended self.old }
        ensures untaken { untaken_at self.new ≡ untaken_at self.old }
        ensures count { result ≡ length (known_to (reader_at self.new)) }
    {
        match self {
            PartThread::Runs(running) => count_at(&mut running.status_reader.reader),
            PartThread::Ended(last) => last.count,
        }
    }

    // Returns the text of its trace: while the service runs, of its events so far, and after the join, of all of them.
    fn text(&mut self, alloc: Global) -> Growth
        ensures same { IsSameThread self.old self.new }
        ensures ended { is_ended self.new ≡ is_ended self.old }
        ensures untaken { untaken_at self.new ≡ untaken_at self.old }
        ensures text { IsText (trace_at (reader_at self.new)) (length (known_to (reader_at self.new))) result }
    {
        match self {
            PartThread::Runs(running) => text_at(alloc, &mut running.status_reader.reader),
            PartThread::Ended(last) => last.text(alloc),
        }
    }

    /// Returns the text of its trace, if it counts other events than it did the last time.
    pub(crate) fn growth(&mut self, alloc: Global, last: Option<u64>) -> Growth
        ensures same { IsSameThread self.old self.new }
        ensures ended { is_ended self.new ≡ is_ended self.old }
        ensures untaken { untaken_at self.new ≡ untaken_at self.old }
        ensures shows { Shows (reader_station (reader_at self.new)) (known_to (reader_at self.new)) last result }
    {
        if last == Some(self.count()) {
            return Growth::None;
        }
        self.text(alloc)
    }

    /// Takes the letters that its service, which is gone, did not take, at most this many. Returns how many were found
    /// so far, which is 0 while the service runs.
    pub(crate) fn drain(&mut self, rt: &R, most: usize) -> u64
        ensures same { IsSameThread self.old self.new }
        ensures ended { is_ended self.new ≡ is_ended self.old }
        ensures untaken { result ≡ untaken_at self.new }
        ensures gone { is_ended self.new ≡ true → phase_of (history_at (reader_at self.new)) ≡ Phase.Gone }
    {
        match self {
            PartThread::Runs(_) => 0,
            PartThread::Ended(last) => {
                last.drain(rt, most);
                last.untaken
            }
        }
    }
}
