//! How the next start waits after many ends.
use crate::backoff::{seconds_after, tick_after};
use crate::begin::LastChild;
use crate::child_system::ChildSystem;
use crate::world::ChildWorld;
use svc_record::{Exit, Moment};
use tai_status::{Label, Want};

impl<C: ChildSystem + Drop> ChildWorld<C> {
    ghost use Rattle.std.specs.Prelude.{◌≡◌};
    ghost use Rattle.svc_world.specs.Deaths.{AsksBackoff, CountsEnd, CountsIfSome, EndsHold, Holds, HoldsOn};
    ghost use Rattle.svc_world.specs.Deaths.{HoldsOrReports, KeepsUntil, LooksHeld, SeeksBackoff, with_hold};
    ghost use Rattle.svc_world.specs.Deaths.{with_no_backoff, with_unasked};
    ghost use Rattle.svc_world.specs.Watch.{ReadsClock};

    // Returns for how many seconds the next start waits after many ends.
    fn ask_backoff(&mut self) -> Option<u64>
        ensures { AsksBackoff result self.old self.new }
    {
        self.system.backoff()
    }

    /// Returns the same for an end that nobody asked for, if the service is to be up. Returns None for any other.
    pub(crate) fn seek_backoff(&mut self) -> Option<u64>
        ensures { SeeksBackoff self.old.is_asked self.old.place.want result self.old self.new }
    {
        match (self.is_asked, self.place.want) {
            (false, Want::Up) => self.ask_backoff(),
            _ => None,
        }
    }

    // Counts an end that nobody asked for.
    fn count_unasked(&mut self, tick: u64)
        ensures { self.new ≡ with_unasked tick self.old }
    {
        self.ends.add(tick);
    }

    // Reads the clock.
    fn read_clock(&mut self) -> Label
        ensures { ReadsClock result self.old self.new }
    {
        self.system.now()
    }

    // Sets that a death is kept until a tick, and the next start until a time.
    fn set_hold(&mut self, exit: Exit, until: u64, label: Label)
        ensures { self.new ≡ with_hold exit until label self.old }
    {
        let pid = exit.pid;
        self.backoff = Some(Moment { pid, label });
        self.child = LastChild::Held(exit, until);
    }

    // Keeps a death for this many seconds from this tick on, and notes until when the next start waits.
    fn keep_until(&mut self, tick: u64, seconds: u64, exit: Exit)
        ensures { KeepsUntil tick seconds exit self.old self.new }
    {
        let label = self.read_clock();
        let end = seconds_after(seconds, label);
        self.set_hold(exit, tick_after(seconds, tick), end);
        self.write_backoff();
    }

    // Notes how a child ended, and keeps its death for this many seconds from this tick on, so that the next start
    // waits.
    #[inline(never)]
    fn hold(&mut self, tick: u64, seconds: u64, exit: Exit)
        ensures { Holds tick seconds exit self.old self.new }
    {
        self.note_exit(&exit);
        self.keep_until(tick, seconds, exit);
    }

    // Reports a death that nobody asked for, or keeps it if it is the fifth within a minute.
    fn hold_or_report(
        &mut self,
        is_fifth: bool,
        tick: u64,
        seconds: u64,
        exit: Exit,
    ) -> Option<Label>
        ensures { HoldsOrReports is_fifth tick seconds exit result self.old self.new }
    {
        if is_fifth {
            self.hold(tick, seconds, exit);
            None
        } else {
            Some(self.report_death(exit))
        }
    }

    // Counts an end that nobody asked for, and then reports the death, or keeps it.
    fn count_end(&mut self, seconds: u64, exit: Exit) -> Option<Label>
        ensures { CountsEnd seconds exit result self.old self.new }
    {
        let tick = self.read_tick();
        let is_fifth = self.ends.is_fifth(tick);
        self.count_unasked(tick);
        self.hold_or_report(is_fifth, tick, seconds, exit)
    }

    /// Continues a death, if the service says for how many seconds the next start waits after many ends.
    pub(crate) fn count_if_some(&mut self, seconds: Option<u64>, exit: Exit) -> Option<Label>
        ensures { CountsIfSome seconds exit result self.old self.new }
    {
        match seconds {
            Some(seconds) => self.count_end(seconds, exit),
            None => Some(self.report_death(exit)),
        }
    }

    // Sets that no start waits.
    fn clear_backoff(&mut self)
        ensures { self.new ≡ with_no_backoff self.old }
    {
        self.backoff = None;
    }

    // Ends the wait of the next start, and reports the death before it.
    #[inline(never)]
    fn end_hold(&mut self, exit: Exit) -> Option<Label>
        ensures { EndsHold exit result self.old self.new }
    {
        self.clear_backoff();
        self.write_backoff();
        Some(self.report_death(exit))
    }

    // Ends the wait of the next start, if it is over.
    fn hold_on(&mut self, is_over: bool, exit: Exit) -> Option<Label>
        ensures { HoldsOn is_over exit result self.old self.new }
    {
        if is_over { self.end_hold(exit) } else { None }
    }

    /// Looks whether the next start still waits, after this end, until this tick.
    pub(crate) fn look_held(&mut self, exit: Exit, until: u64) -> Option<Label>
        ensures { LooksHeld exit until result self.old self.new }
    {
        let tick = self.read_tick();
        self.hold_on(until <= tick, exit)
    }
}
