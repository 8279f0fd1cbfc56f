ghost use Rattle.std.specs.Prelude.{◌≡◌, ◌↔◌, IsTrue, if◌then◌else◌, ◌<◌, ◌≤◌, ◌∷◌, ◌++◌, [], length};

use arrayvec::ArrayVec;
use std::marker::Model;

/// A signal to a process, by its name without `SIG`.
#[derive(Clone, Copy, Debug, PartialEq, Eq)]
pub enum Sig {
    TERM,
    CONT,
    STOP,
    HUP,
    ALRM,
    INT,
    KILL,
    USR1,
    USR2,
    QUIT,
}

/// The signals, each with its name in a line.
///
/// This macro passes the list to the macro that its caller names, after that macro's arguments.
macro_rules! signals {
    ($rows:ident $arguments:tt) => {
        $rows! {
            $arguments
            TERM b"TERM";
            CONT b"CONT";
            STOP b"STOP";
            HUP b"HUP";
            ALRM b"ALRM";
            INT b"INT";
            KILL b"KILL";
            USR1 b"USR1";
            USR2 b"USR2";
            QUIT b"QUIT";
        }
    };
}

pub(crate) use signals;

/// What a machine asks of the system.
#[derive(Clone, Copy, Debug, PartialEq, Eq, Default)]
pub enum Ask {
    /// Send this signal to the process with this number.
    Signal(Sig, u32),
    /// Start the service.
    #[default]
    Start,
    /// Write these bytes as the status record.
    Write([u8; 20]),
}

impl Ask {
    ghost use Rattle.sup_core.specs.Asks.{is_write};

    /// Returns whether this asks for a record to be written.
    fn is_write(&self) -> bool
        ensures { result ≡ is_write self.now }
    {
        matches!(self, Ask::Write(_))
    }
}

/// What one step asks for, in order: at most three asks, and at most one of them a record.
#[derive(Debug, Drop)]
pub struct Asks {
    asks: ArrayVec<Ask, 3>,
}

impl Model for Asks {
    ghost use Rattle.std.specs.Prelude.{List};
    ghost use Rattle.sup_core.specs.declared.asks.Ask.{Ask};

    ghost Value = { List Ask };

    ghost use Rattle.sup_core.specs.Asks.{AreAsks};

    ghost view = { λ a. a.asks.items };

    ghost invariant = { λ a. AreAsks a.asks.items };
}

impl Asks {
    ghost use Rattle.sup_core.specs.Asks.{AreAsks, count_of_writes};

    /// Returns an empty list of asks.
    pub fn new() -> Asks
        ensures { result ≡ [] }
    {
        Asks {
            asks: ArrayVec::new(),
        }
    }

    /// Adds an ask at the end, unless there are three already, or it is a second record. Returns whether it was added.
    pub fn try_push(&mut self, ask: Ask) -> bool
        ensures fits { IsTrue result ↔ AreAsks (self.old ++ ask ∷ []) }
        ensures asks { self.new ≡ (if result then self.old ++ ask ∷ [] else self.old) }
    {
        let fits = self.fits(&ask);
        if fits {
            self.push(ask);
        }
        fits
    }

    /// Returns whether an ask can be added at the end.
    #[tactic(auto, using(crate::proofs::Counts::count_of_writes_push))]
    fn fits(&self, ask: &Ask) -> bool
        ensures { IsTrue result ↔ AreAsks (self.now ++ ask.now ∷ []) }
    {
        self.asks.len() < 3 && !(ask.is_write() && self.has_record())
    }

    /// Returns whether a record is asked for.
    fn has_record(&self) -> bool
        ensures { IsTrue result ↔ (0 < count_of_writes self.now) }
    {
        self.asks.iter().any(|ask| ask.is_write())
    }

    /// Adds an ask at the end.
    pub(crate) fn push(&mut self, ask: Ask)
        requires few { length self.old < 3 }
        requires one_record { count_of_writes (self.old ++ ask ∷ []) ≤ 1 }
        ensures { self.new ≡ self.old ++ ask ∷ [] }
    {
        self.asks.push(ask);
    }

    /// Returns the asks, in order.
    pub fn as_slice(&self) -> &[Ask]
        ensures asks { result.now ≡ self.now }
        ensures bounds { AreAsks result.now }
    {
        self.asks.as_slice()
    }
}

/// The reply to an event.
#[derive(Debug, Drop)]
pub enum Reply {
    /// The event was not taken, and nothing changed.
    Held,
    /// The event was taken.
    Took(Asks),
}
