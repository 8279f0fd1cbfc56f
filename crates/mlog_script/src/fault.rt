ghost use Rattle.std.specs.Prelude.{◌≡◌};
ghost use Rattle.mlog_script.specs.Named.{kind_name};

use std::error::Error;
use std::fmt;

/// What is wrong with a word of a script.
#[derive(Clone, Copy, Debug, PartialEq, Eq)]
pub enum ScriptFaultKind {
    /// A `t` that is not the first word.
    StampNotFirst,

    /// A size below 4096 or above 16777215.
    SizeRange,

    /// A number of old files below 2 or above 4294967295.
    CountRange,

    /// No digit comes after `s` or `n`, or another byte does.
    BadNumber,

    /// A word that begins with `!`: dtools runs no processors.
    Processor,

    /// A word that spells no action.
    UnknownAction,

    /// A pattern with two adjacent stars.
    Pattern,

    /// The folder of a log that is in an earlier word.
    SameLogTwice,

    /// The allocator refused memory for the action.
    OutOfMemory,
}

/// Returns the name of a fault.
pub fn kind_name(kind: ScriptFaultKind) -> &'static str
    ensures { result.now ≡ kind_name kind }
{
    match kind {
        ScriptFaultKind::StampNotFirst => "StampNotFirst",
        ScriptFaultKind::SizeRange => "SizeRange",
        ScriptFaultKind::CountRange => "CountRange",
        ScriptFaultKind::BadNumber => "BadNumber",
        ScriptFaultKind::Processor => "Processor",
        ScriptFaultKind::UnknownAction => "UnknownAction",
        ScriptFaultKind::Pattern => "Pattern",
        ScriptFaultKind::SameLogTwice => "SameLogTwice",
        ScriptFaultKind::OutOfMemory => "OutOfMemory",
    }
}

impl fmt::Display for ScriptFaultKind {
    ghost use Rattle.std.specs.Prelude.{Some};
    ghost use Rattle.mlog_script.specs.Named.{kind_name};

    ghost output = { λ kind. Some (kind_name kind) };

    fn fmt<W: fmt::Write>(&self, f: &mut fmt::Formatter<W>) -> fmt::Result {
        f.write_str(kind_name(*self))
    }
}

impl Error for ScriptFaultKind {}

/// Why words are no script. It is shown as multilog reports it: `word 2: SameLogTwice`.
#[derive(Clone, Copy, Debug, PartialEq, Eq)]
pub struct ScriptFault {
    /// The place of the word, counted from 1.
    pub word: usize,

    /// What is wrong with the word.
    pub kind: ScriptFaultKind,
}

impl fmt::Display for ScriptFault {
    ghost use Rattle.std.specs.Prelude.{Some};
    ghost use Rattle.mlog_script.specs.Named.{script_fault_text};

    ghost output = { λ fault. Some (script_fault_text fault) };

    fn fmt<W: fmt::Write>(&self, f: &mut fmt::Formatter<W>) -> fmt::Result {
        write!(f, "word {}: {}", self.word, self.kind)
    }
}

impl Error for ScriptFault {}
