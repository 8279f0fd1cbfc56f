//! What the definition of the words means, line by line.
ghost use Rattle.trace_words.specs.Examples.{RefusesLines, TakesLines};

/// States what sixteen command lines ask for. It does nothing: its contract is the law.
pub fn worked_lines()
    ensures taken { TakesLines }
    ensures refused { RefusesLines }
{}
