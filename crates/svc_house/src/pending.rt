//! What was found and is not published yet.
use sup_core::Event;
use tai_status::Label;

/// Events that were found and are not published yet.
#[derive(Clone, Copy, Debug, PartialEq, Eq)]
pub enum Pending {
    /// No event is pending.
    Empty,
    /// One event is pending.
    One(Event),
    /// A control byte, and a death that was found with it and is published after it.
    ByteThenDeath { byte: u8, label: Label },
}

impl Pending {
    ghost use Rattle.std.specs.Prelude.{◌≡◌, MatchOption};
    ghost use Rattle.svc_house.specs.Pending.{IsNext, rest_of};
    ghost use Rattle.svc_house.specs.declared.pending.Pending.TheVariants as pending;

    /// Returns the event that is published next.
    pub fn next(&self) -> Option<Event>
        ensures { MatchOption result (self.now ≡ pending.Empty) (λ event. IsNext event self.now) }
    {
        match self {
            Pending::Empty => None,
            Pending::One(event) => Some(*event),
            Pending::ByteThenDeath { byte, label: _ } => Some(Event::Byte(*byte)),
        }
    }

    /// Returns what is pending after that event is published.
    pub fn rest(&self) -> Pending
        ensures { result ≡ rest_of self.now }
    {
        match self {
            Pending::ByteThenDeath { byte: _, label } => Pending::One(Event::Death {
                label: *label,
            }),
            Pending::Empty | Pending::One(_) => Pending::Empty,
        }
    }
}
