//! The system's own children of one service.
ghost use Rattle.std.specs.Prelude.{◌≤◌, IfSome};
ghost use Rattle.svc_record.specs.Leftover.{HasNumber};
ghost use Rattle.svc_system.specs.declared.notification.TheConstants.{GREATEST};

use crate::child_reaper::{ChildReaper, ChildSlot, DeathSlot, WatchedChild};
use crate::commands::{
    NO_FIFO, NO_FINISH, NO_SETSID, finish, run, run_by_shell, run_in_session, say, unable_to_run,
};
use crate::folder::{ServiceFolder, SettingText};
use crate::linger::Linger;
use crate::listening::{Listened, ReadySlot};
use crate::notification::{FIFO, NO_NOTIFICATION, NOTIFICATION, descriptor_in, run_notifying};
use crate::output::make_fifos;
use crate::processes::{AdoptedProcess, tick_of};
use crate::remarks::{paper_name, remark_text};
use crate::settings::{
    BACKOFF, FINISH_TIME, KILL_TIME, NO_BACKOFF, NO_FINISH_TIME, NO_KILL_TIME, backoff_seconds,
    finish_seconds, is_late, kill_seconds, seconds_in,
};
use crate::surroundings::Surroundings;
use crate::times::{ClockReading, present_tick, steady};
use cmd_base::SystemClock;
use std::alloc::{AllocError, Global};
use std::fs::File;
use std::io;
use std::io::{ErrorKind, PipeReader, Write};
use std::process::{Child, Command, Processes, SystemProcess};
use std::sync::{Arc, OnceLock, Wait};
use std::time::Clock;
use sup_core::Sig;
use svc_house::Notifier;
use svc_record::{Ending, Exit, Leftover, Place};
use svc_world::{ChildSystem, Death, Paper, Remark};
use tai_status::{Cause, Label, TimeSource};

/// The standard input and output of a service's children, of each one after the other. They are shared, so that this
/// process has one descriptor for each. A child inherits from this process what is None here.
#[derive(Drop)]
pub struct Streams {
    /// Standard input.
    pub input: Option<Arc<PipeReader, Global>>,
    /// Standard output.
    pub output: Option<Arc<File, Global>>,
}

/// Where the death of a service's process is found.
#[derive(Drop)]
enum DeathSource {
    /// There is no process.
    None,
    /// The reaper puts the death here.
    Slot(DeathSlot),
    /// The process is not a child.
    Process(AdoptedProcess),
}

/// The source of the word of a service's process that it is ready.
#[derive(Drop)]
enum ReadySource {
    /// Nobody listens.
    None,
    /// The thread that watches the FIFO with this number puts it here.
    Slot(ReadySlot, usize),
    /// An earlier svscan has written it.
    Known(Label),
}

/// The children of one service on this system. It says nothing to contracts, except that a child has a number, and which
/// adopted process it watches.
#[derive(Drop)]
pub struct SystemChildren<R>
where
    R: Processes<Started = SystemProcess> + Wait + Clock + Copy + Drop,
{
    runtime: R,
    files: HostRuntime,
    alloc: Global,
    folder: Arc<ServiceFolder, Global>,
    name: String,
    streams: Streams,
    shared: Arc<Surroundings<R>, Global>,
    notifier: Arc<Notifier, Global>,
    clock: SystemClock<R>,
    // What `now` gave last.
    read: Option<ClockReading>,
    slot: ChildSlot,
    death: DeathSource,
    ready: ReadySource,
    // Why the last paper that could not be written failed.
    cause: Cause,
    linger: Linger,
}

impl<R> SystemChildren<R>
where
    R: Processes<Started = SystemProcess> + Wait + Clock + Copy + Drop,
{
    ghost use Rattle.std.specs.Prelude.{◌≤◌, length};
    ghost use Rattle.svc_system.specs.Adoption.{IsSource};

    /// Makes the children of the service with this name in this folder, and their reaper, which must run in a thread of
    /// its own: it finds their deaths, and notifies the notifier after each one.
    pub fn new(
        runtime: R,
        files: HostRuntime,
        alloc: Global,
        folder: Arc<ServiceFolder, Global>,
        name: &str,
        streams: Streams,
        notifier: Arc<Notifier, Global>,
        shared: Arc<Surroundings<R>, Global>,
    ) -> Result<(SystemChildren<R>, ChildReaper), AllocError> {
        let theirs = Arc::try_clone(&notifier)?;
        let (slot, reaper) = ChildReaper::open(alloc, theirs)?;
        let children = SystemChildren {
            runtime,
            files,
            alloc,
            folder,
            name: String::from_str(alloc, name)?,
            streams,
            shared,
            notifier,
            clock: SystemClock::new(runtime),
            read: None,
            slot,
            death: DeathSource::None,
            ready: ReadySource::None,
            cause: Cause::Other,
            linger: Linger::new(),
        };
        Ok((children, reaper))
    }

    /// Adopts the process that already runs for the service. A look for its death finds that it is gone. The notifier
    /// is notified once that is so. If the process is ready, or says so later, that is found too.
    pub fn try_adopt(&mut self, pid: u32, tick: u64) -> Result<(), AllocError>
        ensures watched { IsSource self.new.death pid tick }
    {
        self.ready = self.ready_of(pid);
        let process = AdoptedProcess {
            files: self.files,
            pid,
            tick,
        };
        self.death = DeathSource::Process(process);
        let notifier = Arc::try_clone(&self.notifier)?;
        self.shared.adoptions.add(&self.runtime, process, notifier)
    }

    // Returns the source of the word of an adopted process that it is ready.
    fn ready_of(&self, pid: u32) -> ReadySource {
        if let Some(label) = self.folder.ready_since(pid) {
            return ReadySource::Known(label);
        }
        if self.descriptor().is_none() {
            return ReadySource::None;
        }
        self.try_listen().unwrap_or(ReadySource::None)
    }

    // Returns the number of the descriptor on which the service's process says that it is ready, if its folder has one.
    #[inline(never)]
    fn descriptor(&self) -> Option<u64>
        ensures { IfSome result (λ number. number ≤ GREATEST) }
    {
        let text = self.folder.setting(NOTIFICATION)?;
        let number = descriptor_in(text.as_slice());
        if number.is_none() {
            self.report(NO_NOTIFICATION);
        }
        number
    }

    // Watches the FIFO on which the process says that it is ready.
    fn try_listen(&self) -> io::Result<ReadySource> {
        let slot = Arc::new(self.alloc, OnceLock::new())?;
        let one = Listened {
            fifo: self.folder.open_notification()?,
            slot: Arc::try_clone(&slot)?,
            notifier: Arc::try_clone(&self.notifier)?,
        };
        let number = one.number();
        self.shared.adoptions.listen(&self.runtime, one)?;
        Ok(ReadySource::Slot(slot, number))
    }

    // Makes a new FIFO on which the next process says that it is ready.
    fn make_fifo(&self) -> io::Result<()> {
        self.folder.remove_notification()?;
        let folder = self.folder.path(".");
        make_fifos(
            &self.runtime,
            self.alloc,
            folder.as_str(),
            &[String::from_str(self.alloc, FIFO)?],
        )
    }

    // Makes a new FIFO for the next process, and watches it.
    fn listen_anew(&self) -> io::Result<ReadySource> {
        self.make_fifo()?;
        self.try_listen()
    }

    // Prepares that the next process says that it is ready, if the folder has the number of a descriptor. Returns that
    // number.
    #[inline(never)]
    fn prepare_ready(&mut self) -> Option<u64>
        ensures { IfSome result (λ number. number ≤ GREATEST) }
    {
        let number = self.descriptor()?;
        match self.listen_anew() {
            Ok(ready) => self.ready = ready,
            Err(fault) => {
                self.report_fault(NO_FIFO, &fault);
                return None;
            }
        }
        Some(number)
    }

    // Forgets the source of the word of the last process.
    fn ignore_ready(&mut self) {
        if let ReadySource::Slot(_, number) = &self.ready {
            self.shared.adoptions.ignore(&self.runtime, *number);
        }
        self.ready = ReadySource::None;
    }

    // Writes this content of a paper into its file.
    #[inline(never)]
    fn try_write(&self, paper: Paper, content: &[u8]) -> io::Result<()> {
        match paper {
            Paper::Place => self.folder.write_place(content),
            Paper::Process => self.folder.replace_process(content),
            Paper::Status => self.folder.replace_status(content),
            Paper::Exit => self.folder.replace_exit(content),
            Paper::Counts => self.folder.replace_counts(content),
            Paper::Ready => self.folder.replace_ready(content),
            Paper::Backoff => self.folder.replace_backoff(content),
        }
    }

    /// Starts a command in the folder, with the streams.
    fn launch(&self, command: &mut Command) -> io::Result<Child<SystemProcess>> {
        command.current_dir(self.folder.path(".").as_str())?;
        if let Some(input) = &self.streams.input {
            command.stdin(input.try_clone()?);
        }
        if let Some(output) = &self.streams.output {
            command.stdout(output.try_clone()?);
        }
        command.spawn(&self.runtime)
    }

    /// Makes a child that is `run`.
    fn make_plain(&self) -> io::Result<Child<SystemProcess>> {
        self.launch(&mut run(self.alloc)?)
    }

    /// Makes a shell that runs the service.
    fn make_by_shell(&self) -> io::Result<Child<SystemProcess>> {
        self.launch(&mut run_by_shell(self.alloc)?)
    }

    /// Makes a shell that says this about the service, and fails.
    fn make_saying(&self, what: &str) -> io::Result<Child<SystemProcess>> {
        self.launch(&mut say(self.alloc, self.name.as_str(), what)?)
    }

    /// Makes a child in place of a `run` that can't be executed.
    fn make_in_place(&self, fault: &io::Error) -> io::Result<Child<SystemProcess>> {
        match unable_to_run(fault) {
            Some(what) => self.make_saying(what),
            None => self.make_by_shell(),
        }
    }

    /// Makes a child by the program that begins a session.
    fn make_by_setsid(&self) -> io::Result<Child<SystemProcess>> {
        self.launch(&mut run_in_session(self.alloc)?)
    }

    /// Makes a child in a session of its own. If there is no program for that, the child is a shell that says so.
    fn make_in_session(&self) -> io::Result<Child<SystemProcess>> {
        self.folder.look_at_run()?;
        match self.make_by_setsid() {
            Err(fault) if fault.kind() == ErrorKind::NotFound => self.make_saying(NO_SETSID),
            made => made,
        }
    }

    /// Makes a child that has this descriptor to say that it is ready.
    fn make_notifying(&self, number: u64) -> io::Result<Child<SystemProcess>>
        requires { number ≤ GREATEST }
    {
        self.folder.look_at_run()?;
        let begins_session = self.folder.begins_session();
        self.launch(&mut run_notifying(self.alloc, number, begins_session)?)
    }

    /// Makes a child of the service, with a descriptor to say that it is ready if there is one.
    fn make_running(&self, descriptor: Option<u64>) -> io::Result<Child<SystemProcess>>
        requires { IfSome descriptor (λ number. number ≤ GREATEST) }
    {
        match descriptor {
            Some(number) => self.make_notifying(number),
            None if self.folder.begins_session() => self.make_in_session(),
            None => self.make_plain(),
        }
    }

    /// Makes a child, with a descriptor to say that it is ready if there is one. If `./run` can't be executed, the
    /// child is a shell that says why.
    fn make(&self, descriptor: Option<u64>) -> io::Result<Child<SystemProcess>>
        requires { IfSome descriptor (λ number. number ≤ GREATEST) }
    {
        match self.make_running(descriptor) {
            Err(fault) => self.make_in_place(&fault),
            made => made,
        }
    }

    /// Makes a child that runs `finish`.
    fn make_finish(&self, exit: &Exit) -> io::Result<Child<SystemProcess>> {
        self.launch(&mut finish(self.alloc, exit.ending)?)
    }

    /// Returns the text of a file of the service, if there is one. Reports this if the text is no number of seconds.
    #[inline(never)]
    fn read_seconds(&self, name: &str, fault: &str) -> Option<SettingText>
        requires { length name.now ≤ 23 }
    {
        let text = self.folder.setting(name)?;
        if seconds_in(text.as_slice()).is_none() {
            self.report(fault);
        }
        Some(text)
    }

    /// Reports what can't be done for the service, and why.
    #[inline(never)]
    fn report_fault(&self, what: &str, fault: &io::Error) {
        let cause = Cause::of(fault);
        if let Ok(what) = format!(in self.alloc; "{what}{}", cause.words()) {
            self.report(what.as_str());
        }
    }

    /// Reports a fault of the service on this process's standard error, in one write.
    fn report(&self, what: &str) {
        if let Ok(line) = format!(in self.alloc; "svscan: {}: {what}\n", self.name.as_str()) {
            let _ = self.files.stderr().write_all(line.as_bytes());
        }
    }

    /// Makes a child that runs the service, or its `finish` after this end, and hands it to the reaper.
    fn make_watched(&mut self, ended: Option<&Exit>) -> io::Result<u32> {
        let death = Arc::new(self.alloc, OnceLock::new())?;
        let theirs = Arc::try_clone(&death)?;
        let child = match ended {
            Some(exit) => self.make_finish(exit)?,
            None => {
                let descriptor = self.prepare_ready();
                self.make(descriptor)?
            }
        };
        let pid = child.id();
        let watched = WatchedChild {
            child,
            death: theirs,
        };
        self.slot.put(&self.runtime, watched);
        self.death = DeathSource::Slot(death);
        Ok(pid)
    }
}

impl<R> ChildSystem for SystemChildren<R>
where
    R: Processes<Started = SystemProcess> + Wait + Clock + Copy + Drop,
{
    ghost use Rattle.svc_system.specs.Adoption.{IsSource};

    ghost Watches = { λ children pid tick. IsSource children.death pid tick };

    #[inline(never)]
    fn spawn(&mut self) -> Option<u32> {
        self.death = DeathSource::None;
        self.ignore_ready();
        self.linger.begin(self.notifier.letters());
        match self.make_watched(None) {
            Ok(pid) if pid > 0 => Some(pid),
            _ => None,
        }
    }

    fn has_finish(&mut self) -> bool {
        self.folder.has_finish()
    }

    #[inline(never)]
    fn finish(&mut self, exit: &Exit) -> Option<u32> {
        let _ = self.read_seconds(FINISH_TIME, NO_FINISH_TIME);
        match self.make_watched(Some(exit)) {
            Ok(pid) if pid > 0 => Some(pid),
            Ok(_) => None,
            Err(fault) => {
                self.report_fault(NO_FINISH, &fault);
                None
            }
        }
    }

    fn is_late(&mut self, tick: u64) -> bool {
        let text = self.folder.setting(FINISH_TIME);
        let seconds = finish_seconds(text.as_ref().map(|text| text.as_slice()));
        is_late(seconds, tick, present_tick(self.runtime.monotonic().ok()))
    }

    #[inline(never)]
    fn kill_time(&mut self) -> Option<u64> {
        let text = self.read_seconds(KILL_TIME, NO_KILL_TIME)?;
        kill_seconds(text.as_slice())
    }

    fn death(&mut self) -> Option<Death> {
        let death = match &self.death {
            DeathSource::None => return None,
            DeathSource::Slot(slot) => slot.get().copied()?,
            DeathSource::Process(process) if process.lives() => return None,
            DeathSource::Process(_) => Death {
                ending: Ending::Unknown,
                label: self.clock.now(),
            },
        };
        self.death = DeathSource::None;
        self.ignore_ready();
        Some(death)
    }

    fn ready(&mut self) -> Option<Label> {
        match &self.ready {
            ReadySource::None => None,
            ReadySource::Slot(slot, _) => slot.get().copied(),
            ReadySource::Known(label) => Some(*label),
        }
    }

    #[inline(never)]
    fn backoff(&mut self) -> Option<u64> {
        let text = self.folder.setting(BACKOFF)?;
        let seconds = backoff_seconds(text.as_slice());
        if seconds.is_none() {
            self.report(NO_BACKOFF);
        }
        seconds
    }

    fn lingers(&mut self) -> bool {
        let letters = self.notifier.letters();
        match self.runtime.monotonic() {
            Ok(now) => self.linger.look(letters, now),
            Err(_) => false,
        }
    }

    fn signal(&mut self, sig: Sig, pid: u32) {
        self.shared.shell.signal(sig, pid)
    }

    #[inline(never)]
    fn write(&mut self, paper: Paper, content: &[u8]) -> bool {
        match self.try_write(paper, content) {
            Ok(()) => true,
            Err(fault) => {
                self.cause = Cause::of(&fault);
                false
            }
        }
    }

    #[inline(never)]
    fn say(&mut self, remark: Remark) {
        self.report(remark_text(remark, self.cause).as_str());
    }

    #[inline(never)]
    fn leftover(&mut self, place: &Place) -> Leftover {
        self.shared
            .leftover(&self.runtime, self.alloc, &self.folder, place)
    }

    fn adopt(&mut self, pid: u32, tick: u64) {
        let _ = self.try_adopt(pid, tick);
    }

    fn present_tick(&mut self) -> u64 {
        present_tick(self.runtime.monotonic().ok())
    }

    fn tick(&mut self, pid: u32) -> Option<u64> {
        tick_of(&self.files, pid).unwrap_or(None)
    }

    fn now(&mut self) -> Label {
        let label = self.clock.now();
        let time = self.runtime.monotonic().ok();
        self.read = time.map(|time| ClockReading { label, time });
        label
    }

    fn steady_now(&mut self) -> Label {
        steady(self.clock.now(), self.read, self.runtime.monotonic().ok())
    }
}
