//! What an earlier svscan left of a service, as its folder and the system say.
ghost use Rattle.std.specs.Prelude.{◌<◌, ◌≡◌, ◌≤◌, IfSome, None, Some, length, option_map, true};
ghost use Rattle.svc_record.specs.Leftover.{HasNumber, IsAwaited};
ghost use Rattle.svc_record.specs.Place.{AreOfOneRun, intending};
ghost use Rattle.svc_record.specs.Process.{IsLiving};
ghost use Rattle.svc_system.specs.Commands.{process_in};
ghost use Rattle.svc_system.specs.Fates.{IsOfBoot};
ghost use Rattle.svc_system.specs.Left.{intent_in, is_starting_in, placed};

use crate::fates::{ProcessReports, finish_fate, last_fate};
use crate::folder::{FileId, ServiceFolder, is_one_file};
use crate::neighbours::Near;
use crate::processes::{
    OwnRun, StatSource, is_child_by, is_named_there, path_of_process, see_all, tick_of,
};
use cmd_base::read_front;
use std::alloc::Global;
use std::{fs, io};
use svc_record::{
    Intent, Left, Leftover, PLACE_BYTES, Place, ProcessId, find_any_here, find_leftover,
    first_line, read_place, read_process,
};
use tai_status::{Label, Loaded, Phase, STATUS_FRONT, decode_front};

/// Returns the process that a status record names. Returns None if it names none, or if these bytes are not a record.
fn process_in(bytes: &[u8]) -> Option<u32>
    ensures { result ≡ process_in bytes.now }
{
    let view = decode_front(bytes).ok()?.view();
    if view.pid > 0 { Some(view.pid) } else { None }
}

/// Returns whether a record says that a start was asked for and not answered.
fn is_starting(recorded: &Option<Loaded>) -> bool
    ensures { result ≡ is_starting_in recorded.now }
{
    match recorded {
        Some(Loaded::New(full)) => matches!(full.phase, Phase::Starting),
        _ => false,
    }
}

/// Returns the process that a place names, if it names one.
fn placed(place: &Option<Place>) -> Option<ProcessId>
    ensures named { result ≡ placed place.now }
    ensures number { IfSome result (λ process. 0 < process.pid) }
{
    match place {
        Some(place) => place.process(),
        None => None,
    }
}

/// Returns the place that was read, if it is from this run of the system. A text that is no valid line of a place counts
/// as an intent about which nothing more is known. `vacant` is the place of a service that was not started in this run.
fn place_of_run(read: Option<Place>, vacant: &Place) -> Option<Place>
    ensures run { IfSome result (λ place. AreOfOneRun place vacant.now) }
    ensures read { IfSome read (λ place. AreOfOneRun place vacant.now → result ≡ Some place) }
    ensures unread { read ≡ None → result ≡ Some (intending vacant.now 1 0) }
{
    match read {
        Some(place) if place.is_of_run(vacant) => Some(place),
        Some(_) => None,
        None => Some(vacant.intending_unknown()),
    }
}

/// Returns the start that a place intends, if it intends one.
fn intent_in(place: Place) -> Option<Place>
    ensures { result ≡ intent_in place }
{
    if place.is_intent() { Some(place) } else { None }
}

/// What the kernel and the folders report about the process of a service, to this svscan.
#[derive(Drop)]
struct SystemReports<'a> {
    folder: &'a ServiceFolder,
    own: &'a OwnRun,
}

impl<'a> ProcessReports for SystemReports<'a> {
    fn tick(&self, process: &ProcessId) -> io::Result<Option<u64>> {
        tick_of(&self.folder.files, process.pid)
    }

    fn runs_here(&self, process: &ProcessId) -> bool {
        self.folder.is_running(process.pid)
    }

    fn is_child(&self, process: &ProcessId) -> bool {
        is_child_by(self.folder.files.stat_of(process.pid), self.own.pid)
    }

    fn is_named_there(&self, process: &ProcessId) -> bool {
        is_named_there(&self.folder.files, process)
    }
}

impl ServiceFolder {
    /// Returns whether the process that the record in a file names runs in this folder.
    fn has_process_of(&self, file: &str) -> bool
        requires { length file.now ≤ 23 }
    {
        let Ok(record) = read_front::<HostRuntime, STATUS_FRONT>(
            &self.files,
            self.path(file).as_str(),
        ) else {
            return false;
        };
        process_in(record.as_slice()).map_or(false, |pid| self.is_running(pid))
    }

    /// Returns whether an svscan that wrote no place may have left a process that is not recorded. That is so if the
    /// status record, or the copy of an earlier one, names a process that runs in this folder. It is also so if the
    /// record says that a start was asked for and not answered.
    fn has_unplaced(&self) -> bool {
        is_starting(&self.record())
            || self.has_process_of("supervise/earlier")
            || self.has_process_of("supervise/status")
    }

    /// Returns the status record, if it can be read.
    fn record(&self) -> Option<Loaded> {
        let path = self.path("supervise/status");
        let front = read_front::<HostRuntime, STATUS_FRONT>(&self.files, path.as_str()).ok()?;
        decode_front(front.as_slice()).ok()
    }

    /// Returns the process that was recorded at the last start.
    fn process(&self) -> Option<ProcessId>
        ensures { IfSome result (λ process. 0 < process.pid) }
    {
        let path = self.path("supervise/process");
        let line = read_front::<HostRuntime, 128>(&self.files, path.as_str()).ok()?;
        read_process(line.as_slice())
    }

    /// Returns what `supervise/place` says, if it is from this run of the system.
    pub fn place(&self, own: &OwnRun) -> Option<Place> {
        let path = self.path("supervise/place");
        let text = read_front::<HostRuntime, PLACE_BYTES>(&self.files, path.as_str()).ok()?;
        if text.is_empty() || own.boot.is_none() {
            return None;
        }
        place_of_run(read_place(first_line(text.as_slice())), &own.vacant())
    }

    /// Returns the process that the place names. If the place names none, returns the one recorded at the last start.
    fn last_process(&self, place: &Option<Place>) -> Option<ProcessId>
        ensures number { IfSome result (λ process. 0 < process.pid) }
        ensures placed { IfSome (placed place.now) (λ process. result ≡ Some process) }
    {
        match placed(place) {
            Some(process) => Some(process),
            None => self.process(),
        }
    }

    /// Returns what an earlier svscan left of the service, in this run of the system, at this time. `place` is what
    /// `place` returned. `over` is what is left over from the start that it intends, if it intends one.
    pub fn left(
        &self,
        own: &OwnRun,
        place: Option<Place>,
        over: Option<Leftover>,
        label: Label,
    ) -> Left
        requires over { IfSome over HasNumber }
        ensures want { result.want ≡ option_map (λ place. place.want) place }
        ensures living { IsLiving result.process }
        ensures boot { IsOfBoot own.now.boot result.process }
        ensures label { result.label ≡ label }
    {
        let reports = SystemReports { folder: self, own };
        let recorded = self.last_process(&place);
        Left {
            record: self.record(),
            want: place.map(|place| place.want),
            process: last_fate(&reports, recorded, over, own.boot.as_ref()),
            label,
        }
    }

    /// Returns the start that an earlier svscan intended and for which no process is recorded, if there is one. `place`
    /// is what `place` returned.
    pub fn intended(&self, own: &OwnRun, place: Option<Place>) -> Option<Place>
        ensures placed { IfSome place (λ place. result ≡ intent_in place) }
    {
        match place {
            Some(place) => intent_in(place),
            None if self.has_unplaced() => Some(own.vacant().intending_unknown()),
            None => None,
        }
    }

    /// Returns what is left over from a start that an earlier svscan intended. A `finish` is awaited, and never
    /// adopted.
    pub(crate) fn leftover(
        &self,
        alloc: Global,
        own: &OwnRun,
        place: &Place,
        near: &Near,
    ) -> Leftover
        ensures awaited { place.now.is_finish ≡ true → IsAwaited result }
        ensures number { HasNumber result }
    {
        if !place.is_finish {
            return self.find_left(alloc, own, place, near);
        }
        match place.finish() {
            Some(process) => self.finish_left(own, process),
            None => self.find_left(alloc, own, place, near).awaited(),
        }
    }

    /// Looks once at all processes, and returns what is left over from a start that an earlier svscan intended. If it
    /// can't look at them, the result is not sure.
    #[inline(never)]
    fn find_left(&self, alloc: Global, own: &OwnRun, place: &Place, near: &Near) -> Leftover
        ensures { HasNumber result }
    {
        let intent = Intent {
            tick: place.tick,
            session: place.session,
            begins_session: self.begins_session(),
            until: own.tick,
        };
        let output = FileId::found(fs::metadata(&self.files, self.path("supervise/out").as_str()));
        let is_here = |pid: u32| self.is_running(pid) || self.has_output(pid, output);
        let Ok(all) = see_all(&self.files, alloc, own, &intent, near, is_here) else {
            return Leftover::Unsure(0);
        };
        if place.is_unknown() {
            return find_any_here(&all).numbered();
        }
        find_leftover(&intent, &all).numbered()
    }

    /// Returns what is left over of a `finish` with this process.
    #[inline(never)]
    fn finish_left(&self, own: &OwnRun, process: ProcessId) -> Leftover
        requires { 0 < process.pid }
        ensures awaited { IsAwaited result }
        ensures number { HasNumber result }
    {
        let tick = tick_of(&self.files, process.pid);
        Leftover::of_finish(finish_fate(process, own.boot.as_ref(), tick))
    }

    /// Returns whether this file is the standard output of a process.
    #[inline(never)]
    fn has_output(&self, pid: u32, output: Option<FileId>) -> bool {
        let there = fs::metadata(&self.files, path_of_process(pid, "fd/1").as_str());
        is_one_file(FileId::found(there), output)
    }

    /// Returns whether a process runs in this folder.
    #[inline(never)]
    pub fn is_running(&self, pid: u32) -> bool {
        let there = fs::metadata(&self.files, path_of_process(pid, "cwd").as_str());
        let here = self.service.metadata();
        is_one_file(FileId::found(there), FileId::found(here))
    }
}
