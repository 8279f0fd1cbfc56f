//! The table of the control bytes.
ghost use Rattle.std.specs.Prelude.{◌≡◌, ◌≤◌, ◌+◌, [], ◌∷◌, ◌++◌, length, flat_map};
ghost use Rattle.arrayvec.specs.ArrayString.{array_string_len};
ghost use Rattle.sup_core.specs.Text.{table_text};
ghost use Rattle.cmd_base.specs.Printed.{printed};
ghost use Rattle.cmd_sim.specs.Sim.{both_sides, printed_table};

use arrayvec::ArrayString;
use sup_core::{letters, table_line};

/// Writes a row of the table and a newline at the end of a text.
fn push_row(out: &mut ArrayString<2048>, byte: u8, running: bool)
    requires { array_string_len out.old + 49 ≤ 2048 }
    ensures text { out.new.bytes ≡ out.old.bytes ++ (table_text byte running ++ 10 ∷ []) }
    ensures len { array_string_len out.new ≤ array_string_len out.old + 49 }
{
    out.push_str(&table_line(byte, running));
    out.push_str("\n");
}

/// Returns the rows of control bytes, both sides of each.
fn rows_of(bytes: &[u8]) -> ArrayString<2048>
    requires { length bytes.now ≤ 20 }
    ensures { result.bytes ≡ printed (flat_map both_sides bytes.now) }
{
    let mut out = ArrayString::new();
    for byte in bytes {
        push_row(&mut out, *byte, true);
        push_row(&mut out, *byte, false);
    }
    out
}

/// Returns the printed table.
pub fn whole_table() -> ArrayString<2048>
    ensures { result.bytes ≡ printed_table }
{
    rows_of(letters())
}
