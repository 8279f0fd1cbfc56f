//! When the result of a start may be polled.
use std::sync::Wait;

/// Decides when the result of a start may be polled. Contracts see how often the gate was passed, if it counts that.
pub trait Gate {
    ghost use Rattle.std.specs.Prelude.{ℕ, Option, None};
    ghost use Rattle.svc_house.specs.Calls.{CountsOne};

    ghost passes: { Self → Option ℕ } = { λ _. None };

    /// Returns when the result may be polled.
    fn pass<R: Wait>(&mut self, rt: &R)
        ensures { CountsOne (passes self.old) (passes self.new) };
}

/// A gate that is always open.
#[derive(Drop)]
pub struct OpenGate;

impl Gate for OpenGate {
    fn pass<R: Wait>(&mut self, _rt: &R) {}
}
