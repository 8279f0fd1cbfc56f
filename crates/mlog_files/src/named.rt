//! Labels in the names of old files.
ghost use Rattle.std.specs.Prelude.{◌≡◌, take};
ghost use Rattle.mlog_files.specs.Named.{label_in, later_of};

use tai_status::{Label, read_text};

/// The length of a label's text.
const LABEL: usize = 25;

// Returns the bytes of a name that may be a label.
#[tactic(auto, using(crate::proofs::Kept::short_name))]
fn front(name: &[u8]) -> &[u8]
    ensures { result.now ≡ take 25 name.now }
{
    if name.len() <= LABEL {
        return name;
    }
    &name[..LABEL]
}

/// Returns the label in a name: the one that its first 25 bytes spell, if they spell one.
pub fn label_in(name: &[u8]) -> Option<Label>
    ensures { result ≡ label_in name.now }
{
    read_text(front(name)).ok()
}

/// Returns the later of two labels. One or both may be missing.
pub fn later_of(a: Option<Label>, b: Option<Label>) -> Option<Label>
    ensures { result ≡ later_of a b }
{
    let Some(first) = a else {
        return b;
    };
    let Some(second) = b else {
        return a;
    };
    if first < second { b } else { a }
}
