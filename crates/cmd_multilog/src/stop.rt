//! The input of a logger that can be asked to rotate its logs, and to stop. Both happen at the end of a line, so that
//! no line is lost or split.
ghost use Rattle.std.specs.Prelude.{◌≡◌, ◌<◌, ◌≤◌, ◌^◌, true, false, IfOk, OnOk, OnErr, length, take};

use mlog_core::PartedInput;
use std::io;
use std::marker::Model;
use tai_status::{Cause, DeviceFault};

/// The most reads of a logger's input.
const MOST_READS: u64 = 1 << 48;

/// What a wait found.
#[derive(Clone, Copy, Debug, PartialEq, Eq)]
pub enum LoggerEvent {
    /// There is input, or the input is at its end.
    Input,
    /// The logger is asked to stop.
    Stop,
    /// The logger is asked to rotate its logs.
    Rotate,
}

/// The input of a logger, with the channel through which it is asked to stop or to rotate. Contracts see what comes, if
/// it is reported, and how many of its calls failed.
pub trait InputWithChannel {
    ghost use Rattle.std.specs.Prelude.{◌≡◌, ◌<◌, ℕ, Option, None, IfOk, OnOk, OnErr, length, take};
    ghost use Rattle.std.specs.Io.{ReadsAtMost};
    ghost use Rattle.tai_status.specs.Counted.{Rose};
    ghost use Rattle.cmd_multilog.specs.Stop.{Coming, Changes, Hears, Reads, IsOver};

    ghost coming: { Self → Option Coming } = { λ _. None };

    ghost failures: { Self → ℕ };

    /// Waits until there is input, or its end, or a word is heard. A word goes first.
    fn wait(&mut self) -> io::Result<LoggerEvent>
        ensures ok { IfOk result (λ heard. Changes (coming self.old) (coming self.new) (Hears heard)) }
        ensures err { OnErr result (coming self.new ≡ coming self.old) }
        ensures works { OnOk result (failures self.new ≡ failures self.old) }
        ensures fails { OnErr result (Rose (failures self.old) (failures self.new)) };

    /// Reads once, and again if that is interrupted. Returns no bytes only at the end of the input, or for an empty
    /// buffer.
    fn read_once(&mut self, into: &mut [u8]) -> io::Result<usize>
        // If it succeeds, the front of the buffer has the next bytes that come. If it has none in a buffer with room,
        // nothing more comes.
        ensures bound { ReadsAtMost result into.new }
        ensures ok { IfOk result (λ count.
            Changes (coming self.old) (coming self.new) (Reads (take count into.new))) }
        ensures end { IfOk result (λ count. count ≡ 0 → 0 < length into.new → IsOver (coming self.new)) }

        // If it fails, no byte that comes is lost. The count of failed calls then rises, up to its maximum, and
        // otherwise stays.
        ensures err { OnErr result (coming self.new ≡ coming self.old) }
        ensures works { OnOk result (failures self.new ≡ failures self.old) }
        ensures fails { OnErr result (Rose (failures self.old) (failures self.new)) };
}

/// A reader of whole lines. Once it hears a word, it reads the line in hand to its newline, byte by byte, and then its
/// part is at its end. After a rotation, the next part begins there. After a stop, whatever comes after that line is
/// not read. The reader counts its faults, of waits and of reads, and keeps the cause of the last one.
#[derive(Drop)]
pub struct Stoppable<S: InputWithChannel + Drop> {
    input: S,
    stopped: bool,
    rotates: bool,
    in_line: bool,
    reads: u64,
    faults: u64,
    cause: Option<Cause>,
}

impl<S: InputWithChannel + Drop> Model for Stoppable<S> {
    ghost use Rattle.std.specs.Prelude.{◌≡◌, true};
    ghost use Rattle.cmd_multilog.specs.Stop.{Listening};

    ghost Value = { Listening };

    ghost view = { λ s. record {
      coming = S.coming s.input;
      failures = S.failures s.input;
      stopped = s.stopped;
      rotates = s.rotates;
      in_line = s.in_line;
      reads = s.reads;
      faults = s.faults;
      cause = s.cause;
    } };

    ghost invariant = { λ s. s.rotates ≡ true → s.stopped ≡ true };
}

impl<S: InputWithChannel + Drop> Stoppable<S> {
    ghost use Rattle.std.specs.Prelude.{◌≡◌, ◌<◌, false, None, IfOk, OnOk, OnErr, length, take};
    ghost use Rattle.std.specs.Io.{ReadsAtMost};
    ghost use Rattle.std.specs.Io.KnownBytes.{ReadConsumes};
    ghost use Rattle.tai_status.specs.Counted.{Rose};
    ghost use Rattle.cmd_multilog.specs.Stop.{Changes, Reads, IsOver, is_in_line, left_in, behind_in};
    ghost use Rattle.cmd_multilog.specs.Stop.{SameCounts, SameWord};

    /// Makes a reader that has heard no word yet, at the beginning of a line.
    pub fn new(input: S) -> Stoppable<S>
        ensures { result ≡ record {
          coming = S.coming input;
          failures = S.failures input;
          stopped = false;
          rotates = false;
          in_line = false;
          reads = 0;
          faults = 0;
          cause = None;
        } }
    {
        Stoppable {
            input,
            stopped: false,
            rotates: false,
            in_line: false,
            reads: 0,
            faults: 0,
            cause: None,
        }
    }

    // Waits for input or a word, unless a word was heard in this part.
    fn listen(&mut self) -> io::Result<()>
        ensures left { left_in self.new ≡ left_in self.old }
        ensures behind { behind_in self.new ≡ behind_in self.old }
        ensures counts { SameCounts self.old self.new }
        ensures works { OnOk result (self.new.failures ≡ self.old.failures) }
        ensures fails { OnErr result (Rose self.old.failures self.new.failures) }
    {
        if self.stopped {
            return Ok(());
        }
        match self.input.wait()? {
            LoggerEvent::Input => {}
            LoggerEvent::Stop => self.stopped = true,
            LoggerEvent::Rotate => {
                self.stopped = true;
                self.rotates = true;
            }
        }
        Ok(())
    }

    // Reads once, and notes whether a line is in hand after what was read.
    fn take(&mut self, into: &mut [u8]) -> io::Result<usize>
        // If it succeeds, the front of the buffer has the next bytes that come. The last of them decides whether a line
        // is in hand. If there are none in a buffer with room, nothing more comes.
        ensures bound { ReadsAtMost result into.new }
        ensures ok { IfOk result (λ count. Changes self.old.coming self.new.coming (Reads (take count into.new))) }
        ensures line { IfOk result (λ count. self.new.in_line ≡ is_in_line self.old.in_line (take count into.new)) }
        ensures end { IfOk result (λ count. count ≡ 0 → 0 < length into.new → IsOver self.new.coming) }

        // What was heard stays. `read_part` counts the reads and the faults.
        ensures word { SameWord self.old self.new }
        ensures counts { SameCounts self.old self.new }

        // If it fails, only the count of failed calls changes: it rises, up to its maximum. If it succeeds, this count
        // stays.
        ensures err { OnErr result (self.new ≡ record self.old { failures = self.new.failures }) }
        ensures works { OnOk result (self.new.failures ≡ self.old.failures) }
        ensures fails { OnErr result (Rose self.old.failures self.new.failures) }
    {
        let count = self.input.read_once(into)?;
        if count > 0 {
            self.in_line = into[count - 1] != b'\n';
        }
        Ok(count)
    }

    // Listens, and reads. In a part in which a word was heard, reads one byte of the line in hand.
    fn read_lines(&mut self, into: &mut [u8]) -> io::Result<usize>
        // If it succeeds, the front of the buffer has the next bytes of the part that is read. If it fails, no byte of
        // the part is lost.
        ensures bound { ReadsAtMost result into.new }
        ensures bytes { ReadConsumes (left_in self.old) (left_in self.new) result into.new }

        // The parts after this one stay the same, even if a word is heard. `read_part` counts the reads and the faults.
        ensures behind { behind_in self.new ≡ behind_in self.old }
        ensures counts { SameCounts self.old self.new }

        // The count of failed calls rises if a wait or a read fails, up to its maximum, and otherwise stays.
        ensures works { OnOk result (self.new.failures ≡ self.old.failures) }
        ensures fails { OnErr result (Rose self.old.failures self.new.failures) }
    {
        self.listen()?;
        if !self.stopped {
            return self.take(into);
        }
        if !self.in_line || into.is_empty() {
            return Ok(0);
        }
        self.take(&mut into[..1])
    }
}

impl<S: InputWithChannel + Drop> PartedInput for Stoppable<S> {
    ghost use Rattle.std.specs.Prelude.{◌≡◌, ◌≤◌, IfOk, IsSome, OnOk, OnErr, length};
    ghost use Rattle.std.specs.Io.KnownBytes.{ReadConsumes};
    ghost use Rattle.tai_status.specs.Counted.{CountsRead, Fails, Works};
    ghost use Rattle.cmd_multilog.specs.Stop.{feed_of};

    ghost feed = { feed_of };

    /// Reads once from the part, as the trait says. If a call of its input failed, returns neither bytes nor an end.
    fn read_part(&mut self, into: &mut [u8]) -> Result<usize, DeviceFault>
        // If it succeeds, the front of the buffer has the next bytes of the part. If it fails, no byte of the part is
        // lost.
        ensures bound { IfOk result (λ count. count ≤ length into.new) }
        ensures bytes { ReadConsumes (feed_of self.old).device.bytes (feed_of self.new).device.bytes result into.new }

        // If it succeeds, it counts as a read, and not as a fault. There are at most 2^48 reads.
        ensures reads { OnOk result (CountsRead (feed_of self.old).device (feed_of self.new).device) }
        ensures faults { OnOk result (Works (feed_of self.old).device (feed_of self.new).device) }

        // If it fails, the count of faults rises, up to its maximum, and there is a cause.
        ensures fault { OnErr result (Fails (feed_of self.old).device (feed_of self.new).device) }
        ensures why { OnErr result (IsSome (feed_of self.new).device.cause) }

        // The parts after this one stay the same. If it succeeds, no call of the input failed.
        ensures behind { (feed_of self.new).behind ≡ (feed_of self.old).behind }
        ensures works { OnOk result (self.new.failures ≡ self.old.failures) }
    {
        let mut cause = Cause::Other;
        if self.reads < MOST_READS {
            self.reads += 1;
            match self.read_lines(into) {
                Ok(count) => return Ok(count),
                Err(error) => cause = Cause::of(&error),
            }
        }
        self.faults = self.faults.saturating_add(1);
        self.cause = Some(cause);
        Err(DeviceFault)
    }

    fn last_cause(&self) -> Option<Cause> {
        self.cause
    }

    fn next_part(&mut self) -> bool {
        if !self.rotates {
            return false;
        }
        self.stopped = false;
        self.rotates = false;
        self.in_line = false;
        true
    }
}
