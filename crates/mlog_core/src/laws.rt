//! Facts about the definitions alone, for readers. The function does nothing: its contract is the law.
ghost use Rattle.mlog_core.specs.Laws.{RunsCountTheirSteps};

/// States that the counts of a run are the numbers of files finished and removed in the steps of all its logs.
pub fn counts_of_a_run()
    ensures counts { RunsCountTheirSteps }
{}
