//! A service that runs, as the host knows it.
ghost use Rattle.std.specs.Prelude.{◌≡◌, ◌+◌, ◌≤◌, [], length, vec_capacity, IfSome, IfOk, IfErr};
ghost use Rattle.svc_station.specs.Parking.{writer_in};
ghost use Rattle.svc_host.specs.Served.{ServesOut};
ghost use mathlib.Core.List.{IsPrefix};
ghost use Rattle.svc_station.specs.Ends.{AreNewReaders, IsNewReader, known_to, number_of, reader_station, station};

use crate::part_thread::Last;
use crate::service::{Served, ServesToItsEnd, Task, serve_or_stay_out};
use crate::shared::PartShared;
use std::alloc::Global;
use std::marker::Model;
use std::sync::{Arc, Wait};
use std::thread::{Builder, PromisedHandle, Threads};
use svc_house::{Gate, Runtime, World};
use svc_station::parked::Parked;
use svc_station::reader::Reader;
use svc_station::writer::Writer;

/// The reader of a station that has one reader, and the vector in which it is given back.
#[derive(Drop)]
pub(crate) struct StatusReader {
    pub(crate) reader: Reader,
    room: Vec<Reader>,
    ghost empty: { room.items ≡ [] },
    ghost has_room: { 1 ≤ vec_capacity room },
    ghost only: { (reader_station reader).readers ≡ 1 },
    ghost first: { number_of reader ≡ 0 },
}

/// Returns the reader of a newly opened station.
pub(crate) fn status_reader_of(mut readers: Vec<Reader>, writer: &Writer) -> StatusReader
    requires one { (length readers.items ≡ 1) × ((station writer.now).readers ≡ 1) }
    requires new { AreNewReaders (station writer.now) readers.items }
    ensures { IsNewReader (station writer.now) 0 result.reader }
{
    let reader = readers.pop().unwrap();
    StatusReader {
        reader,
        room: readers,
    }
}

/// Ends a station that has one reader.
pub(crate) fn end<R: Wait>(rt: &R, writer: Writer, status_reader: StatusReader)
    requires { reader_station status_reader.reader ≡ station writer }
{
    let StatusReader { reader, mut room } = status_reader;
    room.push_reserved(reader);
    writer.end(rt, room);
}

/// Where the writer of a service is.
#[derive(Drop)]
pub(crate) enum WriterPlace<R: Wait + Drop> {
    /// In the thread of the service.
    Thread(PromisedHandle<Served<R>, ServesToItsEnd<R>>),
    /// Here: the thread gave it back without having begun.
    Here(Parked<R>),
}

/// The writer of a service, wherever it is. Contracts see it as it was when it went there.
#[derive(Drop)]
pub(crate) struct Away<R: Wait + Drop>(WriterPlace<R>);

impl<R: Wait + Drop> Model for Away<R> {
    ghost use Rattle.svc_station.specs.declared.writer.Writer.{Writer};
    ghost use Rattle.svc_host.specs.Served.{writer_at};

    ghost Value = { Writer };

    ghost view = { λ away. writer_at away.0 };
}

impl<R: Threads + Wait + Drop> Away<R> {
    ghost use Rattle.svc_host.specs.Served.{ServesOut};

    /// Returns what the thread gives back when it ends, or what it already gave back.
    fn join(self, rt: &R) -> Served<R>
        ensures { ServesOut self result }
    {
        let Away(place) = self;
        match place {
            WriterPlace::Thread(thread) => thread.join(rt),
            WriterPlace::Here(parked) => Served {
                parked,
                receiver: None,
            },
        }
    }
}

/// A service in a thread of its own.
#[derive(Drop)]
pub(crate) struct Running<R: Wait + Drop> {
    pub(crate) status_reader: StatusReader,
    pub(crate) shared: Arc<PartShared, Global>,
    writer: Away<R>,
    ghost home: { station writer ≡ reader_station status_reader.reader },
}

impl<R: Runtime> Running<R> {
    /// Starts a service in a thread of its own. Ends its station if no thread can be made.
    pub(crate) fn start<W: World + Drop + Send + 'static, G: Gate + Drop + Send + 'static>(
        rt: R,
        task: Task<W, G, R>,
        status_reader: StatusReader,
        shared: Arc<PartShared, Global>,
    ) -> Option<Running<R>>
        requires { reader_station status_reader.reader ≡ station (writer_in task.parked) }
        ensures { IfSome result (λ running. running.status_reader ≡ status_reader) }
    {
        let promise = ServesToItsEnd::of(&task.parked);
        let spawned = Builder::new().stack_size(1).spawn_with(
            &rt,
            promise,
            move || -> Served<R>
                ensures { ServesOut (writer_in task.parked) result }
            { serve_or_stay_out(rt, task) },
        );
        match spawned {
            Ok(thread) => Some(Running {
                status_reader,
                shared,
                writer: Away(WriterPlace::Thread(thread)),
            }),
            Err(refused) => {
                shared.stay_out();
                let Served { parked, .. } = (refused.value)();
                end(&rt, parked.into_writer(), status_reader);
                None
            }
        }
    }

    /// Joins the thread of a service that has ended, and ends its station. Its reader then knows everything that was
    /// ever published there. If the service has not begun, everything stays as it was.
    pub(crate) fn join(self, rt: &R, alloc: Global) -> Result<Last, Running<R>>
        ensures home { IfOk result (λ last.
            reader_station last.reader.value ≡ reader_station self.status_reader.reader) }
        ensures known { IfOk result (λ last.
            IsPrefix (known_to self.status_reader.reader) (known_to last.reader.value)) }
        ensures untaken { IfOk result (λ last. last.untaken ≡ 0) }
        ensures unbegun { IfErr result (λ running. running.status_reader ≡ self.status_reader) }
    {
        let Running {
            mut status_reader,
            shared,
            writer,
        } = self;
        let Served { parked, receiver } = writer.join(rt);
        match receiver {
            Some(receiver) => {
                let mut writer = parked.into_writer();
                let last = Last::of(alloc, &mut status_reader.reader, &mut writer, receiver);
                end(rt, writer, status_reader);
                Ok(last)
            }
            None => Err(Running {
                status_reader,
                shared,
                writer: Away(WriterPlace::Here(parked)),
            }),
        }
    }
}
