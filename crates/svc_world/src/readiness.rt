//! When the child of a service said that it is ready.
use crate::begin::LastChild;
use crate::child_system::ChildSystem;
use crate::world::ChildWorld;
use svc_record::Moment;
use tai_status::Label;

impl<C: ChildSystem + Drop> ChildWorld<C> {
    ghost use Rattle.std.specs.Prelude.{◌≡◌};
    ghost use Rattle.svc_world.specs.Deaths.{ForgetsReady};
    ghost use Rattle.svc_world.specs.Watch.{AsksReady, LooksReady, NotesReady, SeeksReady, with_ready};

    // Looks when the last child said that it is ready.
    fn seek_ready(&mut self) -> Option<Label>
        ensures { SeeksReady result self.old self.new }
    {
        self.system.ready()
    }

    // Sets whether the last child is ready.
    fn set_ready(&mut self, ready: Option<Moment>)
        ensures { self.new ≡ with_ready ready self.old }
    {
        self.ready = ready;
    }

    // Notes that the child with this number is ready, if it said so.
    fn note_ready(&mut self, pid: u32, ready: Option<Label>)
        ensures { NotesReady pid ready self.old self.new }
    {
        if let Some(label) = ready {
            self.set_ready(Some(Moment { pid, label }));
            self.write_ready();
        }
    }

    // Looks whether the child with this number is ready, and notes it if it is.
    fn ask_ready(&mut self, pid: u32)
        ensures { AsksReady pid self.old self.new }
    {
        let ready = self.seek_ready();
        self.note_ready(pid, ready);
    }

    /// Looks whether the last child is ready, until it is.
    pub(crate) fn look_ready(&mut self)
        ensures { LooksReady self.old.child self.old.ready self.old self.new }
    {
        if let (LastChild::Alive(pid), None) = (self.child, self.ready) {
            self.ask_ready(pid);
        }
    }

    /// Forgets that the last child was ready.
    #[inline(never)]
    pub(crate) fn forget_ready(&mut self)
        ensures { ForgetsReady self.old.ready self.old self.new }
    {
        if self.ready.is_some() {
            self.set_ready(None);
            self.write_ready();
        }
    }
}
