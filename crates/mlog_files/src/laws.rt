//! Facts about the definitions alone, for readers and for the crates above. The function does nothing: its contract is
//! the law.
ghost use Rattle.mlog_files.specs.Laws.{EachIsCut, GoesByItsCut, FinishesAnOverfull, GoesInTurn, CountsItsSteps};

/// States how the text of a log continues. Byte by byte, it continues as its cut says. In parts, it continues as one
/// text does. Its counts are the numbers of its finished and its removed files.
pub fn steps_of_a_text()
    ensures cut { EachIsCut }
    ensures steps { GoesByItsCut }
    ensures over_full { FinishesAnOverfull }
    ensures turns { GoesInTurn }
    ensures counts { CountsItsSteps }
{}
