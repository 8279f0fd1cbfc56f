//! How a service's `finish` runs after its child died.

use crate::begin::LastChild;
use crate::child_system::ChildSystem;
use crate::paper::Paper;
use crate::world::ChildWorld;
use sup_core::Sig;
use svc_record::{Exit, ProcessId, exit_text};
use tai_status::Label;

impl<C: ChildSystem + Drop> ChildWorld<C> {
    ghost use Rattle.std.specs.Prelude.{◌<◌, ◌≡◌, IfSome};
    ghost use Rattle.svc_record.specs.Exits.{exit_text};
    ghost use Rattle.svc_record.specs.Place.{finish_in};
    ghost use Rattle.svc_world.specs.Deaths.{BeginsFinish, EndsFinish, FinishesBy, FinishesIf, IntendsFinish};
    ghost use Rattle.svc_world.specs.Deaths.{SeeksEnd, SeeksFinish, SpawnsFinishIf, with_exit, with_finish};
    ghost use Rattle.svc_world.specs.Watch.{Bounds, BoundsOne, Writes};
    ghost use Rattle.svc_world.specs.declared.paper.Paper.TheVariants as paper;

    // Sends KILL to a `finish` if its time is over. Sends nothing if another process has its number by now, or if the
    // kernel can't be asked.
    fn bound_one(&mut self, process: &ProcessId)
        requires { 0 < process.now.pid }
        ensures { BoundsOne process.now self.old self.new }
    {
        if !self.system.is_late(process.tick) {
            return;
        }
        let tick = self.system.tick(process.pid);
        if process.is_alive(tick) {
            self.system.signal(Sig::KILL, process.pid);
        }
    }

    /// Sends KILL to the `finish` in the place, if there is one and its time is over.
    pub(crate) fn bound_finish(&mut self)
        ensures { Bounds (finish_in self.old.place) self.old self.new }
    {
        if let Some(process) = self.place.finish() {
            self.bound_one(&process);
        }
    }

    /// Returns whether the service has a `finish`.
    pub(crate) fn seek_finish(&mut self) -> bool
        ensures { SeeksFinish result self.old self.new }
    {
        self.system.has_finish()
    }

    // Sets how the last child ended.
    fn set_exit(&mut self, exit: Exit)
        ensures { self.new ≡ with_exit exit self.old }
    {
        self.exit = Some(exit);
    }

    // Sets that the service's `finish` runs, after its child ended this way.
    fn set_finishing(&mut self, exit: Exit)
        ensures { self.new ≡ with_finish exit self.old }
    {
        self.child = LastChild::Finishing(exit);
    }

    /// Records how the last child ended.
    pub(crate) fn note_exit(&mut self, exit: &Exit)
        ensures { Writes paper.Exit (exit_text exit.now) (with_exit exit.now self.old) self.new }
    {
        self.set_exit(*exit);
        self.write_paper(Paper::Exit, exit_text(exit).as_slice());
    }

    // Writes the intent to start a `finish` into the place. Returns whether it is written.
    fn intend_finish(&mut self) -> bool
        ensures { IntendsFinish result self.old self.new }
    {
        let tick = self.read_tick();
        let place = self.place.finishing(tick, self.session);
        self.set_place(place);
        self.write_place()
    }

    // Spawns a `finish`, if a start of it was intended.
    fn spawn_finish_if(&mut self, intended: bool, exit: &Exit) -> Option<u32>
        ensures spawns { SpawnsFinishIf intended exit.now result self.old self.new }
        ensures number { IfSome result (λ pid. 0 < pid) }
    {
        if intended {
            self.system.finish(exit)
        } else {
            None
        }
    }

    // Records that a `finish` is over, and then reports the death, or keeps it while control bytes come.
    fn end_finish(&mut self, exit: Exit) -> Option<Label>
        ensures { EndsFinish exit result self.old self.new }
    {
        self.vacate();
        self.know_death(exit)
    }

    // Continues a death, by the `finish` that was made.
    fn finish_by(&mut self, child: Option<u32>, exit: Exit) -> Option<Label>
        ensures { FinishesBy child exit result self.old self.new }
    {
        match child {
            Some(pid) => {
                self.set_finishing(exit);
                self.record_process(pid);
                None
            }
            None => self.end_finish(exit),
        }
    }

    // Begins the `finish` after a child ended this way.
    #[inline(never)]
    fn begin_finish(&mut self, exit: Exit) -> Option<Label>
        ensures { BeginsFinish exit result self.old self.new }
    {
        self.note_exit(&exit);
        let intended = self.intend_finish();
        let child = self.spawn_finish_if(intended, &exit);
        self.finish_by(child, exit)
    }

    /// Begins the `finish`, if there is one. Otherwise reports the death, or keeps it while control bytes come.
    pub(crate) fn finish_if(&mut self, has: bool, exit: Exit) -> Option<Label>
        ensures { FinishesIf has exit result self.old self.new }
    {
        if has {
            self.begin_finish(exit)
        } else {
            self.know_death(exit)
        }
    }

    /// Looks for the end of the `finish` after a child ended this way.
    pub(crate) fn seek_end(&mut self, exit: Exit) -> Option<Label>
        ensures { SeeksEnd exit result self.old self.new }
    {
        match self.ask_death() {
            Some(_) => self.end_finish(exit),
            None => {
                self.bound_finish();
                None
            }
        }
    }
}
