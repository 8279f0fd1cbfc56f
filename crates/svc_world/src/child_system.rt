//! What the system does for one service.
use crate::begin::Death;
use crate::paper::{Paper, Remark};
use sup_core::Sig;
use svc_record::{Exit, Leftover, Place};
use tai_status::Label;

/// The children, papers and clock of one service. Contracts see the calls and their results, in order (`calls`), while
/// they are recorded. A system that has no memory for more calls stops recording them, and does not resume.
pub trait ChildSystem {
    ghost use Rattle.std.specs.Prelude.{◌≡◌, ◌<◌, ◌≤◌, ⊤, ℕ, true, Option, None, List, IfSome, length};
    ghost use Rattle.svc_house.specs.Calls.{MadeWhileKept};
    ghost use Rattle.svc_world.specs.Calls.{Call, Spawned, SoughtDeath, Lingered, Signalled, Wrote, Said};
    ghost use Rattle.svc_world.specs.Calls.{SoughtLeftover, Adopted, SoughtLate, SoughtTick, ReadTick, ReadClock};
    ghost use Rattle.svc_world.specs.Calls.{ReadSteady, SoughtBackoff, SoughtFinish, SoughtKillTime, SoughtReady, SpawnedFinish};
    ghost use Rattle.svc_record.specs.Leftover.{HasNumber, IsAwaited};

    ghost calls: { Self → Option (List Call) } = { λ _. None };

    // Whether `death` looks for the death of the process with this number, which began at this tick.
    ghost Watches: { Self → ℕ → ℕ → Type 0 } = { λ _ _ _. ⊤ };

    /// Makes a child that runs the service, and returns its number. Returns None if no child could be made at all.
    fn spawn(&mut self) -> Option<u32>
        ensures calls { MadeWhileKept calls (Spawned result) self.old self.new }
        ensures number { IfSome result (λ pid. 0 < pid) };

    /// Returns whether the service has a `finish` that can be executed.
    fn has_finish(&mut self) -> bool
        ensures calls { MadeWhileKept calls (SoughtFinish result) self.old self.new };

    /// Makes a child that runs the service's `finish` after its process ended this way, and returns its number. Returns
    /// None if no child could be made.
    fn finish(&mut self, exit: &Exit) -> Option<u32>
        ensures calls { MadeWhileKept calls (SpawnedFinish exit.now result) self.old self.new }
        ensures number { IfSome result (λ pid. 0 < pid) };

    /// Returns whether a `finish` that began at this tick of the kernel's clock has run for as long as it may.
    fn is_late(&mut self, tick: u64) -> bool
        ensures calls { MadeWhileKept calls (SoughtLate tick result) self.old self.new };

    /// Returns how many seconds after it was asked to go the service gets KILL. Returns None if it never does.
    fn kill_time(&mut self) -> Option<u64>
        ensures calls { MadeWhileKept calls (SoughtKillTime result) self.old self.new };

    /// Returns when the last child, or the adopted process, said that it is ready. Returns None if it has not, and
    /// for a `finish`.
    fn ready(&mut self) -> Option<Label>
        ensures calls { MadeWhileKept calls (SoughtReady result) self.old self.new };

    /// Returns for how many seconds the next start waits after many ends. Returns None if it never waits.
    fn backoff(&mut self) -> Option<u64>
        ensures calls { MadeWhileKept calls (SoughtBackoff result) self.old self.new };

    /// Returns how and when the last child, or the adopted process, died, once it has died. The last child may be a
    /// `finish`. Each death is reported once.
    fn death(&mut self) -> Option<Death>
        ensures calls { MadeWhileKept calls (SoughtDeath result) self.old self.new };

    /// Returns whether the report of a death waits. It waits while control bytes for the service follow one another:
    /// these are taken first.
    fn lingers(&mut self) -> bool
        ensures calls { MadeWhileKept calls (Lingered result) self.old self.new };

    /// Sends a signal to the process with this number, which is at least 1.
    fn signal(&mut self, sig: Sig, pid: u32)
        requires { 0 < pid }
        ensures calls { MadeWhileKept calls (Signalled sig pid) self.old self.new };

    /// Writes this content of a paper, of at most 160 bytes, in place of the content before. A paper without content is
    /// removed. Returns whether that is done.
    fn write(&mut self, paper: Paper, content: &[u8]) -> bool
        requires { length content.now ≤ 160 }
        ensures calls { MadeWhileKept calls (Wrote paper content.now result) self.old self.new };

    /// Says this about the service on standard error.
    fn say(&mut self, remark: Remark)
        ensures calls { MadeWhileKept calls (Said remark) self.old self.new };

    /// Returns what is left over from the start that this place intends. A `finish` is awaited, and never adopted.
    fn leftover(&mut self, place: &Place) -> Leftover
        ensures calls { MadeWhileKept calls (SoughtLeftover place.now result) self.old self.new }
        ensures awaited { place.now.is_finish ≡ true → IsAwaited result }
        ensures number { HasNumber result };

    /// Adopts the process with this number, which began at this tick: from now on `death` looks for its death.
    fn adopt(&mut self, pid: u32, tick: u64)
        requires { 0 < pid }
        ensures calls { MadeWhileKept calls (Adopted pid tick) self.old self.new }
        ensures watched { Watches self.new pid tick };

    /// Returns the tick of the kernel's clock at which the process with this number began. Returns None if there is no
    /// such process.
    fn tick(&mut self, pid: u32) -> Option<u64>
        ensures calls { MadeWhileKept calls (SoughtTick pid result) self.old self.new };

    /// Returns the present tick of the kernel's clock, or an earlier one. It is at least 1.
    fn present_tick(&mut self) -> u64
        ensures calls { MadeWhileKept calls (ReadTick result) self.old self.new };

    /// Returns the time.
    fn now(&mut self) -> Label
        ensures calls { MadeWhileKept calls (ReadClock result) self.old self.new };

    /// Returns the time, or the last one that `now` gave and the seconds that have passed since then, if that is later.
    /// The end of a rest is therefore reached although the clock is set back.
    fn steady_now(&mut self) -> Label
        ensures calls { MadeWhileKept calls (ReadSteady result) self.old self.new };
}
