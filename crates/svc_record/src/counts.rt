//! How many processes of a service began and ended.
ghost use Rattle.std.specs.Prelude.{◌≡◌, Some};
ghost use Rattle.svc_record.specs.Counts.{IsCounts, IsCountsIn, counts_text};
ghost use Rattle.svc_record.specs.declared.counts.Counts.{Counts};

use crate::moment::before_newline;
use crate::process::split_number;
use arrayvec::ArrayString;
use cmd_base::push_number;
use sup_core::read_number;

/// A line of at most 48 bytes.
pub type CountsText = ArrayString<48>;

/// How many processes of a service began and ended since svscan began. A count stops at its maximum.
#[derive(Clone, Copy, Debug, PartialEq, Eq)]
pub struct Counts {
    /// The number of starts that made a process.
    pub starts: u64,
    /// The number of deaths of those processes.
    pub deaths: u64,
}

impl Counts {
    ghost use Rattle.std.specs.Prelude.{◌≡◌};
    ghost use Rattle.svc_record.specs.Counts.{no_counts, one_ended, one_started};

    /// Returns counts with no start and no death.
    pub fn none() -> Counts
        ensures { result ≡ no_counts }
    {
        Counts {
            starts: 0,
            deaths: 0,
        }
    }

    /// Returns the counts after one more start.
    pub fn one_started(&self) -> Counts
        ensures { result ≡ one_started self.now }
    {
        Counts {
            starts: self.starts.saturating_add(1),
            deaths: self.deaths,
        }
    }

    /// Returns the counts after one more death.
    pub fn one_ended(&self) -> Counts
        ensures { result ≡ one_ended self.now }
    {
        Counts {
            starts: self.starts,
            deaths: self.deaths.saturating_add(1),
        }
    }
}

/// Returns the line of counts, with its newline: `STARTS DEATHS`.
pub fn counts_text(counts: &Counts) -> CountsText
    ensures { result.bytes ≡ counts_text counts.now }
{
    let mut out = ArrayString::new();
    push_number(&mut out, counts.starts);
    out.push_str(" ");
    push_number(&mut out, counts.deaths);
    out.push_str("\n");
    out
}

/// Returns the only counts that can have this line.
#[tactic(auto, using(crate::proofs::Spaces::one_in_front))]
fn counts_meant(line: &[u8]) -> Option<Counts>
    ensures only { (counts : Counts) → IsCounts counts → line.now ≡ counts_text counts → result ≡ Some counts }
{
    let (starts, rest) = split_number(line)?;
    let deaths = read_number(before_newline(rest)?)?;
    Some(Counts { starts, deaths })
}

/// Reads counts from their line, with the newline. Returns None for any text that is not the line of counts.
pub fn read_counts(line: &[u8]) -> Option<Counts>
    ensures { IsCountsIn line.now result }
{
    let counts = counts_meant(line)?;
    if counts_text(&counts).as_bytes() == line {
        Some(counts)
    } else {
        None
    }
}
