//! What is true for the definitions alone, for readers. The function does nothing: its contract is the law.
ghost use Rattle.cmd_multilog.specs.Rising.{LabelsRise};
ghost use Rattle.cmd_multilog.specs.Stop.{StopsAtALine, LosesNothing, RunsToALine};

/// States what a logger gets that may be asked to stop or to rotate. It gets whole lines, or all of its input. Nothing
/// of the input is lost between its parts. What it writes for a part is what a run over just these bytes writes.
pub fn what_a_stop_gives()
    ensures lines { StopsAtALine }
    ensures nothing_lost { LosesNothing }
    ensures runs { RunsToALine }
{}

/// States that the labels of a logger's lines rise up to the greatest label of all, whatever the clock returns in
/// between.
pub fn labels_rise()
    ensures { LabelsRise }
{}
