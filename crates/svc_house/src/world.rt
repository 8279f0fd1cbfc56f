//! The world of one service: its process, its status file and a clock.
use crate::call::StartAnswer;
use std::alloc::Allocator;
use std::boxed::Box;
use std::time::Duration;
use sup_core::Sig;
use tai_status::Label;

/// What a service's loop asks and polls. Contracts see its calls (`MadeWhileKept`), and how often the world was asked
/// to mend (`mends`), if the world counts that. A record that can't be written is owed: the service continues, and each
/// turn asks the world to mend.
pub trait World {
    ghost use Rattle.std.specs.Prelude.{◌≡◌, ◌<◌, ℕ, Option, None, List, IfSome};
    ghost use Rattle.sup_core.specs.declared.asks.Ask.{Ask};
    ghost use Rattle.svc_house.specs.declared.call.Call.{Call};
    ghost use Rattle.svc_house.specs.Calls.{CountsOne, IsAnswer, MadeWhileKept, death_poll, start_poll};

    ghost calls: { Self → Option (List Call) } = { λ _. None };

    ghost mends: { Self → Option ℕ } = { λ _. None };

    /// Sends a signal to the process with this number, which is at least 1.
    fn signal(&mut self, sig: Sig, pid: u32)
        requires { 0 < pid }
        ensures calls { MadeWhileKept calls (Call.Requested (Ask.Signal sig pid)) self.old self.new }
        ensures mends { mends self.new ≡ mends self.old };

    /// Starts the service. `poll_start` returns the result.
    fn start(&mut self)
        ensures calls { MadeWhileKept calls (Call.Requested Ask.Start) self.old self.new }
        ensures mends { mends self.new ≡ mends self.old };

    /// Writes the status record.
    fn write(&mut self, bytes: &[u8; 20])
        ensures calls { MadeWhileKept calls (Call.Requested (Ask.Write bytes.now)) self.old self.new }
        ensures mends { mends self.new ≡ mends self.old };

    /// Returns the result of the start that was asked for, after it ended.
    fn poll_start(&mut self) -> Option<StartAnswer>
        ensures calls { MadeWhileKept calls (start_poll result) self.old self.new }
        ensures process { IfSome result IsAnswer }
        ensures mends { mends self.new ≡ mends self.old };

    /// Returns when the process died, after it died.
    fn poll_death(&mut self) -> Option<Label>
        ensures calls { MadeWhileKept calls (death_poll result) self.old self.new }
        ensures mends { mends self.new ≡ mends self.old };

    /// Reads the clock.
    fn clock(&mut self) -> Label
        ensures calls { MadeWhileKept calls (Call.Read result) self.old self.new }
        ensures mends { mends self.new ≡ mends self.old };

    /// Tries again to write what could not be written.
    fn mend(&mut self)
        ensures calls { calls self.new ≡ calls self.old }
        ensures mends { CountsOne (mends self.old) (mends self.new) };

    /// Returns how many seconds after it was asked to go the service's process gets KILL. Returns None if it never
    /// does, or if there is no process.
    fn kill_time(&mut self) -> Option<u64>
        ensures calls { calls self.new ≡ calls self.old }
        ensures mends { mends self.new ≡ mends self.old };

    /// Returns how long the service may rest before its next turn, if that turn finds nothing. `None`: until it is
    /// notified.
    fn longest_rest(&self) -> Option<Duration>;
}

/// A world on the heap. A call goes to the world inside. A thread that takes such a world moves only its address, and
/// touches less of its stack.
impl<W: World, A: Allocator> World for Box<W, A> {
    ghost calls = { λ boxed. W.calls boxed.value };

    ghost mends = { λ boxed. W.mends boxed.value };

    fn signal(&mut self, sig: Sig, pid: u32) {
        self.as_mut().signal(sig, pid)
    }

    fn start(&mut self) {
        self.as_mut().start()
    }

    fn write(&mut self, bytes: &[u8; 20]) {
        self.as_mut().write(bytes)
    }

    fn poll_start(&mut self) -> Option<StartAnswer> {
        self.as_mut().poll_start()
    }

    fn poll_death(&mut self) -> Option<Label> {
        self.as_mut().poll_death()
    }

    fn clock(&mut self) -> Label {
        self.as_mut().clock()
    }

    fn mend(&mut self) {
        self.as_mut().mend()
    }

    fn kill_time(&mut self) -> Option<u64> {
        self.as_mut().kill_time()
    }

    fn longest_rest(&self) -> Option<Duration> {
        self.as_ref().longest_rest()
    }
}
