//! What is true for the definitions alone. The functions here do nothing: their contracts are the laws.
ghost use Rattle.cmd_why.specs.Laws.{EndsAreTheirOwn, LastEndIsLatest, NamesEachSignal, NamesTheLastSignal};

/// States that `why` names the signal of the last control byte with a signal since the start of a process. If it names
/// none, there was none.
pub fn names_the_last_signal()
    ensures last { NamesTheLastSignal }
    ensures none { NamesEachSignal }
{}

/// States that neither the trace nor a line of the file `exit` has an end that is later than the last end.
#[tactic(auto, using(crate::proofs::Own::latest))]
pub fn last_end_is_latest()
    ensures { LastEndIsLatest }
{}

/// States that `why` reports the status or signal of a process only if the file `exit` has the number of this process
/// and the time of its end.
#[tactic(auto, using(crate::proofs::Own::their_own))]
pub fn ends_are_their_own()
    ensures { EndsAreTheirOwn }
{}
