//! How a turn finds what happened.
ghost use Rattle.std.specs.Prelude.{◌≡◌, ◌≢◌, ◌++◌, false, true};
ghost use Rattle.tai_status.specs.Counted.{Rose};
ghost use Rattle.sup_core.specs.State.{is_gone};
ghost use Rattle.tai_status.specs.declared.phase.Phase.TheVariants as phase;
ghost use Rattle.svc_house.specs.declared.pending.Pending.TheVariants as pending;
ghost use Rattle.svc_house.specs.Calls.{ExtendedWhileKept, bytes_in, polls_before};
ghost use Rattle.svc_house.specs.Pending.{events_in, has_byte};
ghost use Rattle.svc_house.specs.Find.{IsReady};
ghost use Rattle.svc_house.specs.Turn.{PassesGate, PolledInVain, takes_bytes};

use crate::gate::Gate;
use crate::inbox::Inbox;
use crate::pending::Pending;
use crate::world::World;
use std::sync::Wait;
use sup_core::{Event, Machine, Phase};
use tai_status::Label;

/// Returns both, while the service is up.
fn byte_then_death(machine: &Machine, byte: u8, label: Label) -> Pending
    requires { machine.now.phase ≡ phase.Up }
    ensures both { result ≡ pending.ByteThenDeath byte label }
    ensures ready { IsReady machine.now result }
{
    // Reading the view gives the prover its invariant: a machine that is up has a process.
    let _process = machine.view().pid;
    Pending::ByteThenDeath { byte, label }
}

/// Polls for what the machine can take in its phase.
#[inline(never)]
pub(crate) fn find<W: World, I: Inbox, G: Gate, R: Wait>(
    rt: &R,
    machine: &Machine,
    world: &mut W,
    inbox: &mut I,
    gate: &mut G,
) -> Pending
    requires { is_gone machine.now.phase ≡ false }

    // The machine takes what is found.
    ensures ready { IsReady machine.now result }

    // If something is found, the world was called only to find it. If nothing is found, each poll of the phase was
    // made, and found nothing.
    ensures polls { result ≢ pending.Empty
        → ExtendedWhileKept (W.calls world.old) (W.calls world.new) (polls_before result machine.now.phase) }
    ensures vain { result ≡ pending.Empty
        → PolledInVain machine.now.phase machine.now.until (W.calls world.old) (W.calls world.new) }

    // The world is not asked to mend. The gate is passed once while the service starts, and not at all in another
    // phase.
    ensures mends { W.mends world.new ≡ W.mends world.old }
    ensures gate { PassesGate pending.Empty machine.now.phase (G.passes gate.old) (G.passes gate.new) }

    // The inbox has the same source, and gave the control byte that is found, if there is one. If the phase takes bytes
    // and none is found, the inbox was asked and had none.
    ensures source { I.source inbox.new ≡ I.source inbox.old }
    ensures given { I.given inbox.new ≡ I.given inbox.old ++ bytes_in (events_in result) }
    ensures nones { takes_bytes machine.now.phase ≡ true → has_byte result ≡ false
        → Rose (I.nones inbox.old) (I.nones inbox.new) }
{
    match machine.phase() {
        Phase::Starting => {
            gate.pass(rt);
            match world.poll_start() {
                Some(answer) => Pending::One(answer.event()),
                None => Pending::Empty,
            }
        }
        Phase::Settling | Phase::Resting => {
            let event = Event::Clock {
                label: world.clock(),
            };
            if machine.takes(&event) {
                Pending::One(event)
            } else {
                Pending::Empty
            }
        }
        Phase::Up => match (world.poll_death(), inbox.take(rt)) {
            (Some(label), Some(byte)) => byte_then_death(machine, byte, label),
            (Some(label), None) => Pending::One(Event::Death { label }),
            (None, Some(byte)) => Pending::One(Event::Byte(byte)),
            (None, None) => Pending::Empty,
        },
        Phase::Down => match inbox.take(rt) {
            Some(byte) => Pending::One(Event::Byte(byte)),
            None => Pending::Empty,
        },
        Phase::Gone => Pending::Empty,
    }
}
