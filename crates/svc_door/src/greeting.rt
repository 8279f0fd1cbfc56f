//! The connections to `ok`.
ghost use Rattle.svc_door.specs.Listening.{IsSame};
ghost use Rattle.svc_door.specs.Turns.{Greets};

use crate::listener::Listener;
use crate::rests::after_refusal;

/// The most connections to `ok` that one turn accepts.
const GREETED: u32 = 16;

/// Accepts connections to `ok` and closes them. Returns when the door looks at `ok` again.
pub fn greet(ok: &mut Listener, now: u64) -> Option<u64>
    ensures greets { Greets ok.new now result }
    ensures same { IsSame ok.old ok.new }
{
    ok.count_anew();
    for _given in 0..GREETED {
        match ok.accept() {
            Ok(_source) => {}
            Err(fault) => return after_refusal(&fault, now),
        }
    }
    Some(now)
}
