//! How a death is found, and passed on once.
use crate::begin::{Death, LastChild};
use crate::child_system::ChildSystem;
use crate::paper::Paper;
use crate::world::ChildWorld;
use svc_record::{Exit, exit_text};
use tai_status::Label;

impl<C: ChildSystem + Drop> ChildWorld<C> {
    ghost use Rattle.std.specs.Prelude.{◌≡◌};
    ghost use Rattle.svc_world.specs.Deaths.{AsksDeath, AsksLinger, KeepsOrReports, KnowsDeath, LearnsDeath};
    ghost use Rattle.svc_world.specs.Deaths.{PassesDeath, ReportsDeath, SeeksDeath, bereft, with_end};

    /// Records and counts how the child ended whose death is reported. Returns when it ended.
    #[inline(never)]
    pub(crate) fn report_death(&mut self, exit: Exit) -> Label
        ensures label { result ≡ exit.label }
        ensures reports { ReportsDeath exit self.old self.new }
    {
        self.bereave(exit);
        self.write_paper(Paper::Exit, exit_text(&exit).as_slice());
        self.write_counts();
        exit.label
    }

    // Sets that there is no child any more, because it ended this way.
    fn bereave(&mut self, exit: Exit)
        ensures { self.new ≡ bereft exit self.old }
    {
        self.child = LastChild::Gone;
        self.exit = Some(exit);
        self.counts = self.counts.one_ended();
    }

    // Returns whether the report of a death waits.
    fn ask_linger(&mut self) -> bool
        ensures { AsksLinger result self.old self.new }
    {
        self.system.lingers()
    }

    // Keeps a death whose `finish` is over, and that is not reported yet.
    fn keep_death(&mut self, exit: Exit)
        ensures { self.new ≡ with_end exit self.old }
    {
        self.child = LastChild::Ended(exit);
    }

    // Reports a death, or keeps it so that the next start waits.
    fn pass_death(&mut self, exit: Exit) -> Option<Label>
        ensures { PassesDeath exit result self.old self.new }
    {
        let seconds = self.seek_backoff();
        self.count_if_some(seconds, exit)
    }

    // Passes a death on, or keeps it if it waits.
    fn keep_or_report(&mut self, waits: bool, exit: Exit) -> Option<Label>
        ensures { KeepsOrReports waits exit result self.old self.new }
    {
        if waits {
            self.keep_death(exit);
            None
        } else {
            self.pass_death(exit)
        }
    }

    /// Reports a death whose `finish` is over, or keeps it while control bytes come.
    pub(crate) fn know_death(&mut self, exit: Exit) -> Option<Label>
        ensures { KnowsDeath exit result self.old self.new }
    {
        let waits = self.ask_linger();
        self.keep_or_report(waits, exit)
    }

    /// Continues after a death was found.
    pub(crate) fn learn_death(&mut self, exit: Exit) -> Option<Label>
        ensures { LearnsDeath exit result self.old self.new }
    {
        self.forget_ready();
        let has = self.seek_finish();
        self.finish_if(has, exit)
    }

    /// Looks for the death of the last child.
    pub(crate) fn ask_death(&mut self) -> Option<Death>
        ensures { AsksDeath result self.old self.new }
    {
        self.system.death()
    }

    /// Looks for the death of the child with this number.
    pub(crate) fn seek_death(&mut self, pid: u32) -> Option<Label>
        ensures { SeeksDeath pid result self.old self.new }
    {
        match self.ask_death() {
            Some(death) => self.learn_death(death.exit_of(pid)),
            None => None,
        }
    }
}
