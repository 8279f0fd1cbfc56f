//! A part that the host has.
ghost use Rattle.std.specs.Prelude.{◌≡◌};
ghost use Rattle.svc_host.specs.Ending.{is_adopted};

use crate::ending::{EndStep, ProcessSight, end_step, is_log, sight_of};
use crate::growth::Growth;
use crate::part_thread::PartThread;
use crate::running::Running;
use scan_table::PartId;
use std::alloc::Global;
use std::marker::Model;
use std::sync::Wait;
use std::thread::Threads;
use sup_core::Machine;
use svc_house::{ControlSender, Runtime};
use svc_mail::letter::MailboxFull;
use svc_record::Opening;

/// What was lost as a part ended.
#[derive(Clone, Copy, Debug, PartialEq, Eq)]
pub struct Loss {
    /// The number of control bytes posted to it that its service did not take.
    pub untaken: u64,
    /// Whether its last trace was not kept: there was no memory for it, or the maker could not keep it.
    pub lacks_trace: bool,
}

impl Loss {
    ghost use Rattle.std.specs.Prelude.{◌≡◌};
    ghost use Rattle.svc_host.specs.Parts.{has_loss};

    /// Nothing was lost.
    pub const NONE: Loss = Loss {
        untaken: 0,
        lacks_trace: false,
    };

    /// Returns whether anything was lost.
    pub(crate) fn is_some(self) -> bool
        ensures { result ≡ has_loss self }
    {
        self.lacks_trace || self.untaken > 0
    }
}

/// Returns whether the process with this number is the adopted one. The number 0 means no process.
fn is_adopted(pid: u32, adopted: u32) -> bool
    ensures { result ≡ is_adopted pid adopted }
{
    pid > 0 && pid == adopted
}

/// A part that the host has. Contracts see it as `HostPart`.
#[derive(Drop)]
pub(crate) struct Part<R: Wait + Drop> {
    id: PartId,
    opening: Opening,
    sender: ControlSender,
    thread: PartThread<R>,
    // The number of the process that an earlier svscan started for it; 0 means none.
    adopted: u32,
    // The number of events in the trace that was last kept.
    kept: Option<u64>,
    // What was lost when it ended, and is not forgotten.
    loss: Loss,
    // Whether the bytes that end a service, `d` and then `x`, were posted.
    posted_down: bool,
    posted_exit: bool,
}

impl<R: Wait + Drop> Model for Part<R> {
    ghost use Rattle.svc_station.specs.Ends.{known_to, reader_station};
    ghost use Rattle.svc_house.specs.Mail.{sender_in};
    ghost use Rattle.svc_host.specs.Mails.{mail_of};
    ghost use Rattle.svc_host.specs.Parts.{HostPart};
    ghost use Rattle.svc_host.specs.Threads.{reader_at, is_ended, untaken_at};

    ghost Value = { HostPart };

    ghost view = { λ part. record {
      id = part.id;
      opening = part.opening;
      adopted = part.adopted;
      station = reader_station (reader_at part.thread);
      known = known_to (reader_at part.thread);
      mail = mail_of (sender_in part.sender);
      end_bytes = record { down = part.posted_down; exit = part.posted_exit };
      kept = part.kept;
      has_ended = is_ended part.thread;
      untaken = untaken_at part.thread;
      loss = part.loss;
    } };
}

impl<R: Runtime> Part<R> {
    ghost use Rattle.std.specs.Prelude.{◌≡◌, true, false, not, length, Some, MatchBool, MatchResult};
    ghost use Rattle.sup_core.specs.History.{phase_of, state_of};
    ghost use Rattle.tai_status.specs.declared.phase.Phase.{Phase};
    ghost use Rattle.svc_house.specs.Mail.{sender_in};
    ghost use Rattle.svc_host.specs.Ending.{EndsNext, PostsDown, PostsExit, PostsStep, has_adopted, part_sight};
    ghost use Rattle.svc_host.specs.Growth.{Shows};
    ghost use Rattle.svc_host.specs.Parts.{HasPosted, IsRead, IsRefused, PartGoesOn, history_of, new_part};
    ghost use Rattle.svc_host.specs.Parts.{without_loss};

    /// Makes a part whose service runs. `opening` and `adopted` say how it began and with which process; 0 means none.
    /// The host posts to it through `sender`.
    pub(crate) fn new(
        id: PartId,
        opening: Opening,
        adopted: u32,
        sender: ControlSender,
        running: Running<R>,
    ) -> Part<R>
        ensures { result ≡ new_part id opening adopted running.status_reader.reader (sender_in sender) }
    {
        Part {
            id,
            opening,
            adopted,
            sender,
            thread: PartThread::Runs(running),
            kept: None,
            loss: Loss::NONE,
            posted_down: false,
            posted_exit: false,
        }
    }

    /// Returns which part it is.
    pub(crate) fn id(&self) -> PartId
        ensures { result ≡ self.now.id }
    {
        self.id
    }

    /// Returns whether it runs and owes what it could not write.
    pub(crate) fn owes(&self) -> bool {
        self.thread.owes()
    }

    /// Returns whether its thread was joined.
    pub(crate) fn has_ended(&self) -> bool
        ensures { result ≡ self.now.has_ended }
    {
        self.thread.has_ended()
    }

    /// Returns whether its service has ended and its thread is still to be joined.
    pub(crate) fn is_to_be_joined(&self) -> bool
        ensures { result ≡ true → self.now.has_ended ≡ false }
    {
        self.thread.is_to_be_joined()
    }

    /// Joins its thread, if it was not joined. Returns whether it is joined then. If its service has not begun, the
    /// part stays as it was.
    pub(crate) fn join(&mut self, rt: &R, alloc: Global) -> bool
        ensures same { PartGoesOn self.old self.new }
        ensures ended { result ≡ self.new.has_ended }
        ensures kept { self.new.kept ≡ self.old.kept }
        ensures loss { self.new.loss ≡ self.old.loss }
        ensures unbegun { result ≡ false → self.new ≡ self.old }
    {
        self.thread.join(rt, alloc)
    }

    /// Returns the machine after the events that were read.
    pub(crate) fn machine(&mut self) -> Machine
        ensures read { IsRead self.old self.new }
        ensures reading { result ≡ state_of (history_of self.new) }
        ensures gone { self.new.has_ended ≡ true → phase_of (history_of self.new) ≡ Phase.Gone }
    {
        self.thread.machine()
    }

    /// Posts a control byte. `MailboxFull` gives it back: the mailbox was full, and nothing was posted.
    pub(crate) fn post(&mut self, rt: &R, byte: u8) -> Result<(), MailboxFull<u8>>
        ensures { MatchResult result (λ _. HasPosted self.old byte self.new) (λ _. IsRefused self.old self.new) }
    {
        self.sender.post(rt, byte)
    }

    // Posts a control byte, and returns whether it was posted.
    fn post_one(&mut self, rt: &R, byte: u8) -> bool
        ensures { MatchBool result (HasPosted self.old byte self.new) (IsRefused self.old self.new) }
    {
        self.post(rt, byte).is_ok()
    }

    // Notes that `d` was posted.
    fn note_down(&mut self)
        ensures { self.new ≡ record self.old { end_bytes = record self.old.end_bytes { down = true } } }
    {
        self.posted_down = true;
    }

    // Notes that `x` was posted.
    fn note_exit(&mut self)
        ensures { self.new ≡ record self.old { end_bytes = record self.old.end_bytes { exit = true } } }
    {
        self.posted_exit = true;
    }

    // Posts `d`, unless it was posted for the end of all services. Returns whether it has been posted.
    fn post_down(&mut self, rt: &R) -> bool
        ensures posts { PostsDown self.old self.new }
        ensures posted { result ≡ self.new.end_bytes.down }
    {
        if !self.posted_down && self.post_one(rt, b'd') {
            self.note_down();
        }
        self.posted_down
    }

    // Posts `x`, unless it was posted for the end of all services.
    fn post_exit(&mut self, rt: &R)
        ensures { PostsExit self.old self.new }
    {
        if !self.posted_exit && self.post_one(rt, b'x') {
            self.note_exit();
        }
    }

    // Posts those bytes of a step that were not posted yet, as far as its mailbox has room.
    fn post_step(&mut self, rt: &R, step: EndStep)
        ensures { PostsStep step self.old self.new }
    {
        match step {
            EndStep::Stop => {
                if self.post_down(rt) {
                    self.post_exit(rt);
                }
            }
            EndStep::Exit => self.post_exit(rt),
            EndStep::Wait => {}
        }
    }

    // Returns whether an earlier svscan started its process.
    fn has_adopted(&mut self) -> bool
        ensures read { IsRead self.old self.new }
        ensures adopted { result ≡ has_adopted self.new }
    {
        is_adopted(self.machine().view().pid, self.adopted)
    }

    /// Returns what is seen of its process.
    pub(crate) fn sight(&mut self) -> ProcessSight
        ensures read { IsRead self.old self.new }
        ensures sight { result ≡ part_sight self.new }
    {
        let machine = self.machine();
        let reads_another = is_log(self.id.role) && is_adopted(machine.view().pid, self.adopted);
        sight_of(&machine, reads_another)
    }

    /// Returns whether it was asked to exit with its process.
    pub(crate) fn is_reported(&self) -> bool
        ensures { result ≡ self.now.end_bytes.exit }
    {
        self.posted_exit
    }

    /// Posts the next step in the end of all services, unless the part has ended. `service_runs` says whether its
    /// service runs, and `waited` how many milliseconds ago the service was found gone.
    pub(crate) fn end_next(&mut self, rt: &R, service_runs: bool, waited: u64)
        ensures { EndsNext service_runs waited self.old self.new }
    {
        if self.has_ended() {
            return;
        }
        let has_adopted = self.has_adopted();
        let step = end_step(self.id.role, service_runs, has_adopted, waited);
        self.post_step(rt, step)
    }

    /// Returns the text of its trace, if it has grown since it was last kept.
    pub(crate) fn growth(&mut self, alloc: Global) -> Growth
        ensures read { IsRead self.old self.new }
        ensures shows { Shows self.new.station self.new.known self.new.kept result }
    {
        self.thread.growth(alloc, self.kept)
    }

    /// Notes that its trace with this many events was kept.
    pub(crate) fn trace_is_kept(&mut self, count: u64)
        ensures { self.new ≡ record self.old { kept = Some count } }
    {
        self.kept = Some(count);
    }

    /// Notes what was lost when it ended: the control bytes that are left in its mailbox, at most this many, and its
    /// last trace, if that was not kept.
    pub(crate) fn note_loss(&mut self, rt: &R, most: usize, has_trace: bool)
        ensures same { PartGoesOn self.old self.new }
        ensures ended { self.new.has_ended ≡ self.old.has_ended }
        ensures trace { self.new.loss.lacks_trace ≡ not has_trace }
        ensures untaken { self.new.loss.untaken ≡ self.new.untaken }
        ensures gone { self.new.has_ended ≡ true → phase_of (history_of self.new) ≡ Phase.Gone }
    {
        self.loss = Loss {
            untaken: self.thread.drain(rt, most),
            lacks_trace: !has_trace,
        };
    }

    /// Returns what was lost when it ended, and is not forgotten.
    pub(crate) fn loss(&self) -> Loss
        ensures { result ≡ self.now.loss }
    {
        self.loss
    }

    /// Forgets what was lost when it ended.
    pub(crate) fn forget_loss(&mut self)
        ensures { self.new ≡ without_loss self.old }
    {
        self.loss = Loss::NONE;
    }
}
