//! Facts about values that follow from their types alone, given to callers as clauses.
//!
//! The prover knows the range of a number and the invariants of each label and view only if code reads their fields. A
//! caller knows them only from a clause. Therefore each function here reads a value, returns it, and states its range.
//! They cost nothing at run time.
ghost use Rattle.std.specs.Prelude.{◌≡◌, ◌^◌, ◌<◌};
ghost use Rattle.tai_status.specs.Label.{IsLabel};
ghost use Rattle.tai_status.specs.Record.{IsStatus};

use tai_status::{Label, View};

/// Returns a view with its range, so its record can be read again.
pub(crate) fn view_in_range(view: &View) -> View
    ensures view { result ≡ view.now }
    ensures range { IsStatus result }
{
    View {
        label: label_in_range(&view.label),
        pid: pid_in_range(view.pid),
        paused: view.paused,
        want: view.want,
    }
}

/// Returns a label with its range, so its text can be read again.
pub(crate) fn label_in_range(label: &Label) -> Label
    ensures label { result ≡ label.now }
    ensures range { IsLabel result }
{
    Label {
        sec: label.sec,
        nano: label.nano,
    }
}

/// Returns a process number with its range: it fits its type.
fn pid_in_range(pid: u32) -> u32
    ensures pid { result ≡ pid }
    ensures range { result < 2 ^ 32 }
{
    pid
}
