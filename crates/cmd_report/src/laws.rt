//! What is true for the definitions alone. The functions here do nothing: their contracts are the laws.
ghost use Rattle.cmd_report.specs.Label.{LabelsRead};
ghost use Rattle.cmd_report.specs.Laws.{SameBad, SameUnread, SameUnreached};

/// States that the errors in a JSON line are, word for word, what the line of svstat has after the folder and `: `.
pub fn same_words()
    ensures unreached { SameUnreached }
    ensures unread { SameUnread }
    ensures bad { SameBad }
{}

/// States that the written value of a label reads as its text, and has no quote, newline or lone backslash.
#[tactic(auto, using(crate::proofs::Labels::reads_label))]
pub fn labels_read()
    ensures { LabelsRead }
{}
