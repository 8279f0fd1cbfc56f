ghost use Rattle.std.specs.Prelude.{◌≡◌, ◌≤◌, length};
ghost use Rattle.sup_trace.specs.Reading.{kind_name};

use std::error::Error;
use std::fmt;

/// Why a line of a trace's text is refused.
#[derive(Clone, Copy, Debug, PartialEq, Eq)]
pub enum TraceFaultKind {
    /// The line is missing, has the wrong form, or is one more than there may be.
    Line,
    /// A label is wrong.
    Label,
    /// A number is wrong.
    Number,
    /// The first word of an event's line is not known.
    UnknownEvent,
    /// The machine does not take the event at this place.
    NotTaken,
    /// Memory for the entry ran out.
    OutOfMemory,
}

/// Returns the name of a fault of a line.
pub fn kind_name(kind: TraceFaultKind) -> &'static str
    ensures name { result.now ≡ kind_name kind }
    ensures short { length result.now ≤ 12 }
{
    match kind {
        TraceFaultKind::Line => "Line",
        TraceFaultKind::Label => "Label",
        TraceFaultKind::Number => "Number",
        TraceFaultKind::UnknownEvent => "UnknownEvent",
        TraceFaultKind::NotTaken => "NotTaken",
        TraceFaultKind::OutOfMemory => "OutOfMemory",
    }
}

/// The first line of a trace's text that is refused, numbered from 1, and the reason.
#[derive(Clone, Copy, Debug, PartialEq, Eq)]
pub struct TraceFault {
    pub line: u64,
    pub kind: TraceFaultKind,
}

impl fmt::Display for TraceFaultKind {
    ghost use Rattle.std.specs.Prelude.{Some};
    ghost use Rattle.sup_trace.specs.Reading.{kind_name};

    ghost output = { λ s. Some (kind_name s) };

    fn fmt<W: fmt::Write>(&self, f: &mut fmt::Formatter<W>) -> fmt::Result {
        f.write_str(kind_name(*self))
    }
}

impl Error for TraceFaultKind {}

impl fmt::Display for TraceFault {
    ghost use Rattle.std.specs.Prelude.{Some};
    ghost use Rattle.sup_trace.specs.Reading.{refusal_text};

    ghost output = { λ s. Some (refusal_text s) };

    fn fmt<W: fmt::Write>(&self, f: &mut fmt::Formatter<W>) -> fmt::Result {
        write!(f, "line {}: {}", self.line, self.kind)
    }
}

impl Error for TraceFault {}
