//! The world of one service, over its children.
ghost use Rattle.std.specs.Prelude.{◌≡◌};
ghost use Rattle.svc_world.specs.Watch.{owed_wanting, released, want_loaded};
ghost use Rattle.tai_status.specs.Loading.{loaded_from};

use crate::backoff::{Ends, asks_end};
use crate::begin::LastChild;
use crate::child_system::ChildSystem;
use crate::paper::{Owed, Paper};
use crate::starts::child_of;
use crate::takeover::Takeover;
use std::marker::Model;
use std::time::Duration;
use sup_core::Sig;
use svc_house::{StartAnswer, World};
use svc_record::{Counts, Exit, Moment, Place};
use tai_status::{Label, Want, decode_front};

/// The most seconds that a service rests before its next turn while it owes a paper, or the next start waits.
const OWING_REST: u64 = 1;

/// The most milliseconds that a service rests before it checks again whether the time of its `finish` is over.
const FINISHING_REST: u64 = 100;

/// The most milliseconds that a service rests before it checks again whether a death is to be reported.
const LINGERING_REST: u64 = 3;

/// The world of one service. Contracts see it as `Watch` (specs/Watch).
///
/// A process of the service runs only if its number, or the intent to start it, is in the place of the service on disk.
/// The intent is written before a child is spawned, and no child is spawned if it can't be written. A start that spawns
/// no child leaves no intent. What is left over from a start that an earlier svscan intended is adopted if it is sure
/// which process that is. While that is not sure, no child is spawned.
///
/// The place also has what is wanted, and is on disk before a status record that wants something else.
///
/// Each paper that can't be written is owed: `mend` tries again to write it, with its content at that time. It says
/// once that something is owed, and once that all is written.
///
/// A signal goes to the last child, or to the adopted process, while its death is not known.
///
/// If the service has a `finish`, it runs after each death, and the death is reported once `finish` has ended. Its
/// intent and its process are in the place, so that no process of the service begins next to it, even if svscan is
/// killed. A `finish` whose time is over gets KILL.
///
/// If a child says that it is ready, that is written while it lives.
///
/// The next start waits if five children end within a minute, nobody asked them to, and the service says so in its
/// folder. The last of these deaths is reported after the wait. A new status record ends the wait.
#[derive(Drop)]
pub struct ChildWorld<C: ChildSystem + Drop> {
    pub(crate) system: C,
    pub(crate) session: u64,
    pub(crate) place: Place,
    pub(crate) is_open: bool,
    pub(crate) answer: Option<StartAnswer>,
    pub(crate) child: LastChild,
    pub(crate) status: Option<[u8; 20]>,
    pub(crate) exit: Option<Exit>,
    pub(crate) counts: Counts,
    pub(crate) ready: Option<Moment>,
    pub(crate) backoff: Option<Moment>,
    pub(crate) ends: Ends,
    pub(crate) is_asked: bool,
    pub(crate) owed: Owed,
    pub(crate) is_said: bool,
    pub(crate) unwritten: u64,
}

impl<C: ChildSystem + Drop> Model for ChildWorld<C> {
    ghost use Rattle.std.specs.Option.{ForSome};
    ghost use Rattle.svc_house.specs.Calls.{IsAnswer};
    ghost use Rattle.svc_world.specs.Watch.{Watch};

    ghost Value = { Watch };

    ghost view = { λ w. record {
      calls = C.calls w.system;
      session = w.session;
      place = w.place;
      is_open = w.is_open;
      answer = w.answer;
      child = w.child;
      status = w.status;
      exit = w.exit;
      counts = w.counts;
      ready = w.ready;
      backoff = w.backoff;
      ends = w.ends;
      is_asked = w.is_asked;
      owed = w.owed;
      is_said = w.is_said;
      unwritten = w.unwritten;
    } };

    ghost invariant = { λ w. ForSome w.answer IsAnswer };
}

/// Returns the last child, if the start after it waits no longer.
fn released(child: LastChild) -> LastChild
    ensures { result ≡ released child }
{
    match child {
        LastChild::Held(exit, _) => LastChild::Held(exit, 0),
        child => child,
    }
}

/// Returns what a status record says is wanted. If these bytes are not a record, returns what was wanted before.
fn want_in(bytes: &[u8; 20], before: Want) -> Want
    ensures { result ≡ want_loaded (loaded_from bytes.now) before }
{
    match decode_front(bytes) {
        Ok(loaded) => loaded.view().want,
        Err(_) => before,
    }
}

/// Returns which papers are owed once this is wanted, in place of what was wanted before.
fn owed_wanting(owed: Owed, want: Want, before: Want) -> Owed
    ensures { result ≡ owed_wanting want before owed }
{
    match (want, before) {
        (Want::Up, Want::Up) | (Want::Down, Want::Down) | (Want::Once, Want::Once) => owed,
        _ => owed.with(Paper::Place, true),
    }
}

impl<C: ChildSystem + Drop> ChildWorld<C> {
    ghost use Rattle.std.specs.Prelude.{◌≡◌, IfSome};
    ghost use Rattle.svc_world.specs.Watch.{CountsRecord, begun, with_status, with_want};

    /// Makes the world over these children, for an svscan of this session that takes this over. The children already
    /// look for the death of an adopted process. The place is written before the first status record.
    pub fn new(system: C, session: u64, taken: &Takeover) -> ChildWorld<C>
        requires watched { IfSome taken.now.adopted (λ process. C.Watches system process.pid process.tick) }
        ensures { result ≡ begun (C.calls system) session taken.now }
    {
        ChildWorld {
            system,
            session,
            place: taken.place,
            is_open: taken.is_open,
            answer: None,
            child: child_of(taken.adopted.map(|process| process.pid)),
            status: None,
            exit: None,
            counts: Counts::none(),
            ready: None,
            backoff: None,
            ends: Ends::none(),
            is_asked: false,
            owed: Owed::nothing().with(Paper::Place, true),
            is_said: false,
            unwritten: 0,
        }
    }

    /// Returns how many status records could not be written when they were new. The count stops at its highest value.
    pub fn unwritten(&self) -> u64
        ensures { result ≡ self.now.unwritten }
    {
        self.unwritten
    }

    /// Returns which papers are still to be written.
    pub fn owed(&self) -> Owed
        ensures { result ≡ self.now.owed }
    {
        self.owed
    }

    // Sets in the place what a status record says is wanted. If that is new, the place is owed.
    fn set_want(&mut self, bytes: &[u8; 20])
        ensures { self.new ≡ with_want bytes.now self.old }
    {
        let want = want_in(bytes, self.place.want);
        self.owed = owed_wanting(self.owed, want, self.place.want);
        self.place = self.place.wanting(want);
    }

    // Sets the status record. The next start waits no longer.
    fn set_status(&mut self, bytes: &[u8; 20])
        ensures { self.new ≡ with_status bytes.now self.old }
    {
        self.status = Some(*bytes);
        self.child = released(self.child);
    }

    // Counts a status record that is not written.
    fn count_record(&mut self, written: bool)
        ensures { CountsRecord written self.old self.new }
    {
        if !written {
            self.unwritten = self.unwritten.saturating_add(1);
        }
    }
}

impl<C: ChildSystem + Drop> World for ChildWorld<C> {
    ghost use Rattle.std.specs.Prelude.{◌≡◌, ◌≢◌, ◌<◌, None, IfSome};
    ghost use Rattle.svc_house.specs.Calls.{IsAnswer};
    ghost use Rattle.svc_world.specs.declared.begin.LastChild.TheVariants.{Alive};
    ghost use Rattle.svc_world.specs.Watch.{Mends, ReadsSteady, Records, SeeksKillTime, SignalsChild, Starts};
    ghost use Rattle.svc_world.specs.Deaths.{PollsDeath};
    ghost use Rattle.svc_world.specs.Watch.{Watch};

    /// Sends a signal to the last child if its death is not known. Looks for its death just before, and sends nothing
    /// if it finds one. Sends nothing to any other process.
    fn signal(&mut self, sig: Sig, pid: u32)
        requires { 0 < pid }
        ensures child { self.old.child ≡ Alive pid → SignalsChild sig pid self.old self.new }
        ensures other { self.old.child ≢ Alive pid → self.new ≡ self.old }
    {
        if !matches!(self.child, LastChild::Alive(number) if number == pid) {
            return;
        }
        self.is_asked = self.is_asked || asks_end(sig);
        match self.system.death() {
            Some(death) => self.child = LastChild::Dead(death.exit_of(pid)),
            None => self.system.signal(sig, pid),
        }
    }

    /// Starts the service once: adopts what an earlier svscan left over, or spawns one child. Spawns none while it is
    /// not sure what is left over, and never one whose intent is not in the place. The clock is read just before, so
    /// that no child dies before its start, as long as the clock is not set back.
    fn start(&mut self)
        ensures { Starts self.old self.new }
    {
        let found = self.leftover();
        let label = self.system.now();
        self.start_by(found, label);
    }

    /// Writes the status record. Before it, writes the place if what is wanted is new, or if the place is owed. The next
    /// start waits no longer.
    fn write(&mut self, bytes: &[u8; 20])
        ensures { Records bytes.now self.old self.new }
    {
        self.set_want(bytes);
        self.write_again(Paper::Place);
        self.set_status(bytes);
        let written = self.write_paper(Paper::Status, bytes);
        self.count_record(written);
    }

    /// Returns how the last start ended. This is reported once.
    fn poll_start(&mut self) -> Option<StartAnswer>
        ensures reported { result ≡ self.old.answer }
        ensures once { self.new ≡ record self.old { answer = None } }
        ensures process { IfSome result IsAnswer }
    {
        self.answer.take()
    }

    /// Returns when the last child died, once it has died and its `finish`, if there is one, is over. This is
    /// reported once, and how it ended is recorded then. While control bytes follow one another, they are taken
    /// first. If the next start is to wait, it is reported after that.
    fn poll_death(&mut self) -> Option<Label>
        ensures { PollsDeath self.old.child result self.old self.new }
    {
        match self.child {
            LastChild::Gone => None,
            LastChild::Alive(pid) => self.seek_death(pid),
            LastChild::Dead(exit) => self.learn_death(exit),
            LastChild::Finishing(exit) => self.seek_end(exit),
            LastChild::Ended(exit) => self.know_death(exit),
            LastChild::Held(exit, until) => self.look_held(exit, until),
        }
    }

    /// Returns the time, for a service that settles or rests.
    fn clock(&mut self) -> Label
        ensures { ReadsSteady result self.old self.new }
    {
        self.system.steady_now()
    }

    /// Writes each owed paper again, with its present content. Says so if something has become owed, or if nothing is
    /// owed any more. Then looks whether the last child has become ready.
    #[inline(never)]
    fn mend(&mut self)
        ensures { Mends self.old self.new }
    {
        self.write_all();
        self.say_change();
        self.look_ready();
    }

    /// Returns how many seconds after it was asked to go the last child gets KILL, if its death is not known. Returns
    /// None for any other.
    fn kill_time(&mut self) -> Option<u64>
        ensures { SeeksKillTime self.old.child result self.old self.new }
    {
        match self.child {
            LastChild::Alive(_) => self.system.kill_time(),
            _ => None,
        }
    }

    /// Returns 3 milliseconds while a death waits, 100 while a `finish` runs, and otherwise one second while the next
    /// start waits or a paper is owed.
    fn longest_rest(&self) -> Option<Duration> {
        match (self.child, self.owed.first()) {
            (LastChild::Dead(_) | LastChild::Ended(_), _) => {
                Some(Duration::from_millis(LINGERING_REST))
            }
            (LastChild::Finishing(_), _) => Some(Duration::from_millis(FINISHING_REST)),
            (LastChild::Held(..), _) | (_, Some(_)) => Some(Duration::from_secs(OWING_REST)),
            (_, None) => None,
        }
    }
}
