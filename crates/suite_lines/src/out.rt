//! The result of a step of a suite.
ghost use Rattle.std.specs.Prelude.{◌≡◌};

use scan_table::{PartId, ScanOut};
use std::alloc::{Allocator, Global};
use std::marker::Model;
use sup_core::{Asks, Phase, Reply};

/// A part that a scan began: what its beginning asks for, and the phase after it.
#[derive(Drop)]
pub struct Begun {
    pub part: PartId,
    pub asks: Asks,
    pub phase: Phase,
}

/// The parts that a scan began.
#[derive(Drop)]
pub struct Begins<A: Allocator = Global> {
    begins: Vec<Begun, A>,
}

impl<A: Allocator> Model for Begins<A> {
    ghost use Rattle.std.specs.Prelude.{List};
    ghost use Rattle.suite_lines.specs.declared.out.Begun.{Begun};

    ghost Value = { List Begun };

    ghost view = { λ begins. begins.begins.items };
}

impl<A: Allocator> Begins<A> {
    /// Returns the list of these.
    pub fn from_vec(begins: Vec<Begun, A>) -> Begins<A>
        ensures { result ≡ begins.items }
    {
        Begins { begins }
    }

    /// Returns the parts, in order.
    pub fn as_slice(&self) -> &[Begun]
        ensures { result.now ≡ self.now }
    {
        self.begins.as_slice()
    }
}

/// The result of a step of a suite.
#[derive(Drop)]
pub enum StepOut<A: Allocator = Global> {
    /// What a scan did, and the parts that it began: first those that start, then those that restart.
    Scanned {
        out: ScanOut<A>,
        begun: Begins<A>,
    },
    /// The reply to an event at a part, and the phase after it.
    At {
        part: PartId,
        reply: Reply,
        phase: Phase,
    },
}
