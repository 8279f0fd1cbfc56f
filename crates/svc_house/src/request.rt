//! How asks reach the world.
ghost use Rattle.std.specs.Prelude.{◌≡◌, All};
ghost use Rattle.svc_house.specs.declared.call.Call.{Call};
ghost use Rattle.svc_house.specs.Calls.{ExtendedWhileKept, IsAsk, MadeWhileKept, requested};

use crate::world::World;
use sup_core::Ask;

fn request_one<W: World>(world: &mut W, ask: &Ask)
    requires { IsAsk ask.now }
    ensures calls { MadeWhileKept W.calls (Call.Requested ask.now) world.old world.new }
    ensures mends { W.mends world.new ≡ W.mends world.old }
{
    match ask {
        Ask::Signal(sig, pid) => world.signal(*sig, *pid),
        Ask::Start => world.start(),
        Ask::Write(bytes) => world.write(bytes),
    }
}

/// Makes these asks of the world, in order.
pub(crate) fn request<W: World>(world: &mut W, asks: &[Ask])
    requires { All IsAsk asks.now }
    ensures calls { ExtendedWhileKept (W.calls world.old) (W.calls world.new) (requested asks.now) }
    ensures mends { W.mends world.new ≡ W.mends world.old }
{
    for ask in asks {
        request_one(world, ask);
    }
}
