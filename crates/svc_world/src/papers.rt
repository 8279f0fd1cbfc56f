//! Writing what is known of a service into its papers, and again what is owed.
ghost use Rattle.std.specs.Prelude.{◌≡◌, option_copied};
ghost use Rattle.svc_world.specs.Watch.{notice};

use crate::child_system::ChildSystem;
use crate::paper::{Paper, Remark};
use crate::world::ChildWorld;
use svc_record::{ExitText, Moment, counts_text, exit_text, moment_text, place_line, process_line};

/// Returns the line about a process and a time, or nothing if there is none.
fn notice(moment: Option<&Moment>) -> ExitText
    ensures { result.items ≡ notice (option_copied moment.entry) }
{
    match moment {
        Some(moment) => moment_text(moment),
        None => ExitText::new(),
    }
}

impl<C: ChildSystem + Drop> ChildWorld<C> {
    ghost use Rattle.std.specs.Prelude.{◌≤◌, length};
    ghost use Rattle.svc_record.specs.Counts.{counts_text};
    ghost use Rattle.svc_record.specs.Place.{place_line};
    ghost use Rattle.svc_world.specs.Owed.{first_owed};
    ghost use Rattle.svc_world.specs.Watch.{SaysChange, Writes, WritesAgain, WritesAs, WritesEach, WritesIf};
    ghost use Rattle.svc_world.specs.Watch.{WritesIfSome, content_of, notice, papers};
    ghost use Rattle.svc_world.specs.declared.paper.Paper.TheVariants as paper;

    /// Writes this content of a paper, which is owed if it can't be written. Returns whether it is written.
    pub(crate) fn write_paper(&mut self, paper: Paper, content: &[u8]) -> bool
        requires { length content.now ≤ 160 }
        ensures { WritesAs paper content.now result self.old self.new }
    {
        let written = self.system.write(paper, content);
        self.owed = self.owed.with(paper, !written);
        written
    }

    /// Writes the place.
    #[inline(never)]
    pub(crate) fn write_place(&mut self) -> bool
        ensures { WritesAs paper.Place (place_line self.old.place) result self.old self.new }
    {
        let line = place_line(&self.place);
        self.write_paper(Paper::Place, line.as_slice())
    }

    /// Writes which process the service has, if that is known.
    #[inline(never)]
    pub(crate) fn write_process(&mut self)
        ensures { WritesIfSome paper.Process (content_of paper.Process self.old) self.old self.new }
    {
        if let Some(process) = self.place.process() {
            self.write_paper(Paper::Process, process_line(&process).as_slice());
        }
    }

    // Writes the status record, if there is one.
    #[inline(never)]
    fn write_status(&mut self) -> bool
        ensures { WritesIfSome paper.Status self.old.status self.old self.new }
    {
        match self.status {
            Some(bytes) => self.write_paper(Paper::Status, &bytes),
            None => true,
        }
    }

    // Writes how the last child ended, if one has.
    #[inline(never)]
    fn write_exit(&mut self)
        ensures { WritesIfSome paper.Exit (content_of paper.Exit self.old) self.old self.new }
    {
        if let Some(exit) = self.exit {
            self.write_paper(Paper::Exit, exit_text(&exit).as_slice());
        }
    }

    /// Writes how many children began and ended.
    #[inline(never)]
    pub(crate) fn write_counts(&mut self)
        ensures { Writes paper.Counts (counts_text self.old.counts) self.old self.new }
    {
        let text = counts_text(&self.counts);
        self.write_paper(Paper::Counts, text.as_bytes());
    }

    /// Writes when the last child said that it is ready, or removes that.
    #[inline(never)]
    pub(crate) fn write_ready(&mut self)
        ensures { Writes paper.Ready (notice self.old.ready) self.old self.new }
    {
        let line = notice(self.ready.as_ref());
        self.write_paper(Paper::Ready, line.as_slice());
    }

    /// Writes until when the next start waits, or removes that.
    #[inline(never)]
    pub(crate) fn write_backoff(&mut self)
        ensures { Writes paper.Backoff (notice self.old.backoff) self.old self.new }
    {
        let line = notice(self.backoff.as_ref());
        self.write_paper(Paper::Backoff, line.as_slice());
    }

    /// Writes a paper again, if it is owed.
    pub(crate) fn write_again(&mut self, paper: Paper)
        ensures { WritesAgain paper self.old self.new }
    {
        let owed = self.owed.has(paper);
        self.write_if(owed, paper)
    }

    // Writes a paper again, if this holds.
    fn write_if(&mut self, owed: bool, paper: Paper)
        ensures { WritesIf owed paper self.old self.new }
    {
        if !owed {
            return;
        }
        match paper {
            Paper::Place => {
                self.write_place();
            }
            Paper::Process => self.write_process(),
            Paper::Status => {
                self.write_status();
            }
            Paper::Exit => self.write_exit(),
            Paper::Counts => self.write_counts(),
            Paper::Ready => self.write_ready(),
            Paper::Backoff => self.write_backoff(),
        }
    }

    /// Says once that a paper is owed, and once that none is owed any more.
    #[inline(never)]
    pub(crate) fn say_change(&mut self)
        ensures { SaysChange (first_owed self.old.owed) self.old.is_said self.old self.new }
    {
        match (self.owed.first(), self.is_said) {
            (Some(paper), false) => {
                self.is_said = true;
                self.system.say(Remark::Unwritten(paper));
            }
            (None, true) => {
                self.is_said = false;
                self.system.say(Remark::AllWritten);
            }
            _ => {}
        }
    }

    /// Writes all owed papers again, one after the other.
    pub(crate) fn write_all(&mut self)
        ensures { WritesEach papers self.old self.new }
    {
        self.write_again(Paper::Place);
        self.write_again(Paper::Process);
        self.write_again(Paper::Status);
        self.write_again(Paper::Exit);
        self.write_again(Paper::Counts);
        self.write_again(Paper::Ready);
        self.write_again(Paper::Backoff);
    }
}
