ghost use Rattle.std.specs.Prelude.{◌≡◌, ◌↔◌, IsTrue, MatchOption};
ghost use Rattle.sup_trace.specs.Breaks.{AsksFor, HasNoBreak, IsFirstBreak, IsSignal};

use crate::content::TraceText;
use std::alloc::Allocator;
use sup_core::{Ask, Event, Phase, Reply, Sig};

/// Where to break.
#[derive(Clone, Copy, Debug, PartialEq, Eq)]
pub enum Break {
    /// An entry that is this control byte.
    Byte(u8),
    /// An entry after which the machine is in this phase.
    Phase(Phase),
    /// An entry at which the machine asks for this signal.
    Signal(Sig),
}

impl Break {
    ghost use Rattle.sup_trace.specs.Breaks.{AnswersBreak};

    /// Returns whether an event, its reply and the phase after it meet the break.
    pub(crate) fn is_met(&self, event: &Event, reply: &Reply, phase: Phase) -> bool
        ensures { AnswersBreak result self.now event.now reply.now phase }
    {
        match self {
            Break::Byte(byte) => *event == Event::Byte(*byte),
            Break::Phase(wanted) => phase == *wanted,
            Break::Signal(sig) => asks_for(reply, *sig),
        }
    }
}

/// Returns the number, from 1, of the first entry that meets the break: the entry is that byte, or leads to that phase,
/// or asks for that signal. The base itself is not considered.
pub fn first_break<A: Allocator>(content: &TraceText<A>, at: Break) -> Option<u64>
    ensures { MatchOption result (HasNoBreak content.now at) (IsFirstBreak content.now at) }
{
    let mut machine = content.base();
    for (place, event) in content.entries().iter().enumerate() {
        let reply = machine.step(*event);
        if at.is_met(event, &reply, machine.phase()) {
            return Some(place as u64 + 1);
        }
    }
    None
}

/// Returns whether a reply asks for a signal.
fn asks_for(reply: &Reply, sig: Sig) -> bool
    ensures { IsTrue result ↔ AsksFor sig reply.now }
{
    match reply {
        Reply::Held => false,
        Reply::Took(asks) => asks.as_slice().iter().any(|ask| is_signal(ask, sig)),
    }
}

/// Returns whether an ask is this signal.
fn is_signal(ask: &Ask, sig: Sig) -> bool
    ensures { IsTrue result ↔ IsSignal sig ask.now }
{
    match ask {
        Ask::Signal(other, _) => *other == sig,
        _ => false,
    }
}
