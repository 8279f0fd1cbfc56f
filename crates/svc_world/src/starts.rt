//! How a service starts: what an earlier svscan left is looked for, the intent is written, and a child is spawned.
ghost use Rattle.std.specs.Prelude.{◌<◌, ◌≡◌, IfSome};
ghost use Rattle.svc_house.specs.Calls.{IsAnswer};
ghost use Rattle.svc_world.specs.Watch.{answer_of, child_of};

use crate::begin::LastChild;
use crate::child_system::ChildSystem;
use crate::paper::Remark;
use crate::world::ChildWorld;
use svc_house::StartAnswer;
use svc_record::{Leftover, Place};
use tai_status::Label;

/// Returns how a start ended that made this child, or none.
fn answer_of(child: Option<u32>, label: Label) -> StartAnswer
    requires { IfSome child (λ pid. 0 < pid) }
    ensures answer { result ≡ answer_of child label }
    ensures process { IsAnswer result }
{
    match child {
        Some(pid) => StartAnswer::Started { pid, label },
        None => StartAnswer::Failed { label },
    }
}

/// Returns the last child, after a start that made this one, or none.
pub(crate) fn child_of(child: Option<u32>) -> LastChild
    ensures { result ≡ child_of child }
{
    match child {
        Some(pid) => LastChild::Alive(pid),
        None => LastChild::Gone,
    }
}

impl<C: ChildSystem + Drop> ChildWorld<C> {
    ghost use Rattle.std.specs.Prelude.{◌<◌, ◌≡◌, IfSome};
    ghost use Rattle.svc_record.specs.Leftover.{HasNumber};
    ghost use Rattle.svc_world.specs.Watch.{Adopts, Intends, ReadsTick, RecordsAt, RecordsChild, RecordsProcess};
    ghost use Rattle.svc_world.specs.Watch.{RecordsStart, Runs, Says, SeeksLeftover, SeeksTick, SpawnsIf, StartsBy};
    ghost use Rattle.svc_world.specs.Watch.{TakesUp, Vacates, Waits, answered, with_place, with_start};

    /// Returns what is left over from the start that an earlier svscan intended. Returns `Nobody` if no such start is
    /// open.
    pub(crate) fn leftover(&mut self) -> Leftover
        ensures seeks { SeeksLeftover self.old.is_open result self.old self.new }
        ensures number { HasNumber result }
    {
        if !self.is_open {
            return Leftover::Nobody;
        }
        let found = self.system.leftover(&self.place);
        self.is_open = matches!(found, Leftover::Unsure(_));
        found
    }

    // Writes the intent of a start into the place. Returns whether it is written.
    #[inline(never)]
    fn intend(&mut self) -> bool
        ensures { Intends result self.old self.new }
    {
        let tick = self.read_tick();
        let place = self.place.intending(tick, self.session);
        self.set_place(place);
        self.write_place()
    }

    /// Reads the present tick.
    pub(crate) fn read_tick(&mut self) -> u64
        ensures { ReadsTick result self.old self.new }
    {
        self.system.present_tick()
    }

    /// Sets the place of the service.
    pub(crate) fn set_place(&mut self, place: Place)
        ensures { self.new ≡ with_place place self.old }
    {
        self.place = place;
    }

    // Spawns a child, if a start was intended.
    fn spawn_if(&mut self, intended: bool) -> Option<u32>
        ensures spawns { SpawnsIf intended result self.old self.new }
        ensures number { IfSome result (λ pid. 0 < pid) }
    {
        if intended { self.system.spawn() } else { None }
    }

    /// Returns the tick at which a process began, if it can be found.
    pub(crate) fn seek_tick(&mut self, pid: u32) -> Option<u64>
        ensures { SeeksTick pid result self.old self.new }
    {
        self.system.tick(pid)
    }

    // Records the process with this number in the place, and as the service's process, if the tick at which it began is
    // known.
    fn record_at(&mut self, tick: Option<u64>, pid: u32)
        ensures { RecordsAt tick pid self.old self.new }
    {
        if let Some(tick) = tick {
            let place = self.place.occupied(pid, tick);
            self.set_place(place);
            self.write_place();
            self.write_process();
        }
    }

    /// Records the process with this number.
    pub(crate) fn record_process(&mut self, pid: u32)
        ensures { RecordsProcess pid self.old self.new }
    {
        let tick = self.seek_tick(pid);
        self.record_at(tick, pid);
    }

    // Counts one more child that has begun.
    fn count_start(&mut self)
        ensures { self.new ≡ with_start self.old }
    {
        self.counts = self.counts.one_started();
    }

    // Records a start that made the child with this number, and counts it.
    fn record_child(&mut self, pid: u32)
        ensures { RecordsChild pid self.old self.new }
    {
        self.record_process(pid);
        self.count_start();
        self.write_counts();
    }

    /// Records that no process was made: the place no longer intends a start.
    pub(crate) fn vacate(&mut self)
        ensures { Vacates self.old self.new }
    {
        let place = self.place.vacated();
        self.set_place(place);
        self.write_place();
    }

    // Records a start that made this child, or none.
    #[inline(never)]
    fn record_start(&mut self, child: Option<u32>)
        ensures { RecordsStart child self.old self.new }
    {
        match child {
            Some(pid) => self.record_child(pid),
            None => self.vacate(),
        }
    }

    // Sets this child, or none, as the answer to a start at this time.
    fn answer(&mut self, child: Option<u32>, label: Label)
        requires { IfSome child (λ pid. 0 < pid) }
        ensures { self.new ≡ answered child label self.old }
    {
        self.answer = Some(answer_of(child, label));
        self.child = child_of(child);
        self.is_asked = false;
    }

    // Runs the service: writes the intent, and then spawns a child.
    fn run(&mut self, label: Label)
        ensures { Runs label self.old self.new }
    {
        let intended = self.intend();
        let child = self.spawn_if(intended);
        self.answer(child, label);
        self.record_start(child);
    }

    // Adopts the process that was left over, as the process of this start.
    #[inline(never)]
    fn take_up(&mut self, pid: u32, tick: u64, label: Label)
        requires { 0 < pid }
        ensures { TakesUp pid tick label self.old self.new }
    {
        self.adopt(pid, tick);
        self.answer(Some(pid), label);
        self.record_start(Some(pid));
    }

    // Adopts a process.
    fn adopt(&mut self, pid: u32, tick: u64)
        requires { 0 < pid }
        ensures { Adopts pid tick self.old self.new }
    {
        self.system.adopt(pid, tick);
    }

    // Says this about the service.
    fn say(&mut self, remark: Remark)
        ensures { Says remark self.old self.new }
    {
        self.system.say(remark);
    }

    // Fails a start, since this process may still run.
    #[inline(never)]
    fn wait_for(&mut self, pid: u32, label: Label)
        ensures { Waits pid label self.old self.new }
    {
        self.answer(None, label);
        self.say(Remark::StillRuns(pid));
        self.bound_finish();
    }

    /// Continues a start according to what is left over.
    pub(crate) fn start_by(&mut self, found: Leftover, label: Label)
        requires { HasNumber found }
        ensures { StartsBy found label self.old self.new }
    {
        match found {
            Leftover::Nobody => self.run(label),
            Leftover::Process(pid, tick) => self.take_up(pid, tick, label),
            Leftover::Unsure(pid) => self.wait_for(pid, label),
        }
    }
}
