//! A row, as a line spells it.
ghost use Rattle.std.specs.Prelude.{◌≡◌, false, true, IfOk, MatchOption};
ghost use Rattle.std.specs.List.{list_all};
ghost use Rattle.suite_lines.specs.Text.{is_graphic, is_row_name};
ghost use Rattle.suite_lines.specs.Reading.{is_flag, row_of_text};

use scan_table::DirRow;
use std::alloc::{AllocError, Allocator};
use std::marker::Model;
use std::str;
use tai_status::Name;

/// A row, as a line spells it; the name is borrowed from the line. Contracts see it as `Row`.
#[derive(Drop)]
pub(crate) struct RowText<'a> {
    name: &'a str,
    is_dir: bool,
    has_log: bool,
    down: bool,
    log_down: bool,
}

impl<'a> Model for RowText<'a> {
    ghost use Rattle.scan_table.specs.Slots.{Row};

    ghost Value = { Row };

    ghost view = { λ row. record {
      name = row.name.now;
      is_dir = row.is_dir;
      has_log = row.has_log;
      down = row.down;
      log_down = row.log_down;
    } };
}

/// Returns whether a byte is the flag with this letter: the letter, or `-`.
fn is_flag(byte: u8, letter: u8) -> bool
    ensures { result ≡ is_flag letter byte }
{
    byte == letter || byte == b'-'
}

/// Returns whether all bytes are from `!` to `~`.
fn are_graphic(bytes: &[u8]) -> bool
    ensures { result ≡ list_all is_graphic bytes.now }
{
    bytes.iter().all(|byte| byte.is_ascii_graphic())
}

/// Reads a row's name: at least one byte, all from `!` to `~`.
fn read_name(name: &[u8]) -> Option<&str>
    ensures { MatchOption result (is_row_name name.now ≡ false)
        (λ text. (is_row_name name.now ≡ true) × (text.now ≡ name.now)) }
{
    if name.is_empty() || !are_graphic(name) {
        return None;
    }
    str::from_utf8(name).ok()
}

/// Reads the text of a row: the flags `d`, `l`, `n` and `m`, each its letter or `-`, a colon, and the name.
pub(crate) fn read_row(text: &[u8]) -> Option<RowText<'_>>
    ensures { result ≡ row_of_text text.now }
{
    let [dir, log, down, log_down, b':', name @ ..] = text else {
        return None;
    };
    if !(is_flag(*dir, b'd')
        && is_flag(*log, b'l')
        && is_flag(*down, b'n')
        && is_flag(*log_down, b'm'))
    {
        return None;
    }
    Some(RowText {
        name: read_name(name)?,
        is_dir: *dir == b'd',
        has_log: *log == b'l',
        down: *down == b'n',
        log_down: *log_down == b'm',
    })
}

/// Copies the row, with a name of its own.
pub(crate) fn own_row<A: Allocator>(alloc: A, row: &RowText<'_>) -> Result<DirRow<A>, AllocError>
    ensures { IfOk result (λ own. own ≡ row.now) }
{
    Ok(DirRow {
        name: Name::new(String::from_str(alloc, row.name)?),
        is_dir: row.is_dir,
        has_log: row.has_log,
        down: row.down,
        log_down: row.log_down,
    })
}
