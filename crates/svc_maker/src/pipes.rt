//! What is between a service and its logger.
//!
//! A pair has an output and a pipe, and both live as long as its slot. What the service writes, in all its lives, is
//! read from the output. What all lives of the logger read is written to the pipe. If a logger dies, what it had not
//! read therefore waits for the next one. The output itself outlives svscan, as long as a process of the service has it
//! open.
ghost use Rattle.std.specs.Prelude.{◌≡◌, ◌≤◌, option_copied, vec_capacity, vec_len};
ghost use Rattle.svc_maker.specs.Pipes.{input_of, output_of, pipes_of, pipes_without};

use scan_table::Role;
use std::alloc::Global;
use std::fs::File;
use std::io::PipeReader;
use std::sync::Arc;
use svc_host::Outlets;
use svc_system::{Flow, LoggerInput};
use tai_status::{Counted, Output};

/// Those ends of a pair's output and pipe that its children get.
#[derive(Drop)]
pub(crate) struct PairPipes {
    pub(crate) slot: u64,
    /// The standard output of the service.
    pub(crate) output: Arc<File, Global>,
    /// The standard input of its logger.
    pub(crate) input: Arc<PipeReader, Global>,
    /// The counts of what flows between them.
    pub(crate) flow: Arc<Flow, Global>,
}

/// The input of a pair's logger: one pipe for all its lives.
#[derive(Drop)]
pub struct PairOutlets {
    pub(crate) outlet: Option<LoggerInput>,
}

impl Outlets<Output<LoggerInput>> for PairOutlets {
    ghost use Rattle.std.specs.Prelude.{◌≡◌, None, is_some};

    /// Returns the pipe, once.
    fn next(&mut self) -> Option<Output<LoggerInput>>
        ensures there { is_some result ≡ is_some self.old.outlet }
        ensures once { self.new.outlet ≡ None }
    {
        match self.outlet.take() {
            Some(outlet) => Some(Counted::new(outlet)),
            None => None,
        }
    }
}

/// Returns the pipes of a slot, if it is a pair.
pub(crate) fn pipes_of(pipes: &[PairPipes], slot: u64) -> Option<&PairPipes>
    ensures { option_copied result ≡ pipes_of slot pipes.now }
{
    for pair in pipes {
        if pair.slot == slot {
            return Some(pair);
        }
    }
    None
}

/// Drops the pipes of a slot.
pub(crate) fn leave_pipes(pipes: &mut Vec<PairPipes>, slot: u64)
    ensures pipes { pipes.new.items ≡ pipes_without slot pipes.old.items }
    ensures fewer { vec_len pipes.new ≤ vec_len pipes.old }
    ensures room { vec_capacity pipes.new ≡ vec_capacity pipes.old }
{
    pipes.retain(|pair| pair.slot != slot);
}

/// Returns the standard input of a part's children. None means svscan's own.
pub(crate) fn input_of(pair: Option<&PairPipes>, role: Role) -> Option<&Arc<PipeReader, Global>>
    ensures { option_copied result ≡ input_of role (option_copied pair.entry) }
{
    match (role, pair) {
        (Role::Log, Some(pair)) => Some(&pair.input),
        _ => None,
    }
}

/// Returns the standard output of a part's children. None means svscan's own.
pub(crate) fn output_of(pair: Option<&PairPipes>, role: Role) -> Option<&Arc<File, Global>>
    ensures { option_copied result ≡ output_of role (option_copied pair.entry) }
{
    match (role, pair) {
        (Role::Main, Some(pair)) => Some(&pair.output),
        _ => None,
    }
}
