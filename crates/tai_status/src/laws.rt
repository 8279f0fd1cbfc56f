//! Facts about the definitions alone, for readers and for the crates above. Each function here does nothing: its
//! contract is the law.
ghost use Rattle.tai_status.specs.Laws.{FirstLine, LastLine, WholeText, TextsOfLines, OneRecord, OneFullRecord};

/// States how a text is cut into lines: at each newline. The bytes after the last newline are a line too, if there are
/// any. Joined, the lines are the text. The texts of lines are the lines without their newlines.
pub fn lines_in_turn()
    ensures first { FirstLine }
    ensures last { LastLine }
    ensures whole { WholeText }
    ensures texts { TextsOfLines }
{}

/// States that a view has one status record.
pub fn one_record()
    ensures { OneRecord }
{}

/// States that a full status has one full record.
pub fn one_full_record()
    ensures { OneFullRecord }
{}
