//! The rows of a folder.
ghost use Rattle.std.specs.Prelude.{◌≡◌, map, string_bytes, IfOk, IsPermutation};
ghost use Rattle.std.specs.Prelude.{◌++◌, ◌&&◌, IfSome};
ghost use Rattle.svscan_rounds.specs.Rows.{AreAsSaid, AreInOrder, entries_of, is_directory, is_there, row_of};

use scan_table::DirRow;
use std::alloc::{AllocError, Global};
use tai_status::Name;

/// What a folder says of an entry.
#[derive(Clone, Copy, Debug, PartialEq, Eq)]
pub struct Entry {
    /// Whether it is a directory.
    pub is_dir: bool,
    /// Whether it has a directory `log`.
    pub has_log: bool,
    /// Whether it has a file `down`.
    pub down: bool,
    /// Whether its `log` has a file `down`.
    pub log_down: bool,
}

/// A folder whose entries can be looked at. Contracts see what is at each path in it, if that is known (`at`).
pub trait Folder {
    ghost use Rattle.std.specs.Prelude.{◌≡◌, ◌++◌, ℕ, Option, None, List, IfSome, IfOk};
    ghost use Rattle.svscan_rounds.specs.Rows.{Standing, is_directory, is_there};

    ghost at: { Self → Option (List ℕ → Standing) } = { λ _. None };

    /// Returns whether a directory is at the path that consists of a name and this rest.
    fn is_dir(&self, name: &str, rest: &str) -> Result<bool, AllocError>
        ensures { IfOk result (λ is. IfSome (at self.now) (λ at. is ≡ is_directory (at (name.now ++ rest.now)))) };

    /// Returns whether anything is at that path.
    fn is_there(&self, name: &str, rest: &str) -> Result<bool, AllocError>
        ensures { IfOk result (λ is. IfSome (at self.now) (λ at. is ≡ is_there (at (name.now ++ rest.now)))) };
}

/// Returns whether a directory has anything at the path that consists of a name and this rest. If `is_dir` is false, it
/// has nothing.
fn has<F: Folder>(folder: &F, is_dir: bool, name: &str, rest: &str) -> Result<bool, AllocError>
    ensures { IfOk result (λ has. IfSome (F.at folder.now)
        (λ at. has ≡ (is_dir && is_there (at (name.now ++ rest.now))))) }
{
    if is_dir {
        return folder.is_there(name, rest);
    }
    Ok(false)
}

/// Returns whether a directory has a directory at the path that consists of a name and this rest.
fn has_dir<F: Folder>(folder: &F, is_dir: bool, name: &str, rest: &str) -> Result<bool, AllocError>
    ensures { IfOk result (λ has. IfSome (F.at folder.now)
        (λ at. has ≡ (is_dir && is_directory (at (name.now ++ rest.now))))) }
{
    if is_dir {
        return folder.is_dir(name, rest);
    }
    Ok(false)
}

/// Returns what a folder says of the entry with a name.
fn entry_of<F: Folder>(folder: &F, name: &str) -> Result<Entry, AllocError>
    ensures { IfOk result (λ entry. IfSome (entries_of (F.at folder.now)) (λ said. entry ≡ said name.now)) }
{
    let is_dir = has_dir(folder, true, name, "")?;
    let has_log = has_dir(folder, is_dir, name, "/log")?;
    let down = has(folder, is_dir, name, "/down")?;
    let log_down = has(folder, has_log, name, "/log/down")?;
    Ok(Entry {
        is_dir,
        has_log,
        down,
        log_down,
    })
}

/// Returns a row for each name, in the byte order of the names.
pub fn rows_of<F: Folder>(
    alloc: Global,
    folder: &F,
    names: Vec<String>,
) -> Result<Vec<DirRow>, AllocError>
    ensures order { IfOk result (λ rows. AreInOrder (map (λ row. row.name) rows.items)) }
    ensures each { IfOk result (λ rows.
        IsPermutation (map string_bytes names.items) (map (λ row. row.name) rows.items)) }
    ensures entries { IfOk result (λ rows. AreAsSaid (entries_of (F.at folder.now)) rows.items) }
{
    let mut names = names;
    names.sort_unstable();
    rows_in_turn(alloc, folder, names)
}

/// Returns a row for each name, in the order of the names.
fn rows_in_turn<F: Folder>(
    alloc: Global,
    folder: &F,
    names: Vec<String>,
) -> Result<Vec<DirRow>, AllocError>
    ensures names { IfOk result (λ rows. map (λ row. row.name) rows.items ≡ map string_bytes names.items) }
    ensures entries { IfOk result (λ rows. AreAsSaid (entries_of (F.at folder.now)) rows.items) }
{
    let mut rows = Vec::with_capacity(alloc, names.len())?;
    for name in names {
        let entry = entry_of(folder, name.as_str())?;
        rows.push(row(name, entry))?;
    }
    Ok(rows)
}

/// Returns the row of an entry.
fn row(name: String, entry: Entry) -> DirRow
    ensures { result ≡ row_of (string_bytes name) entry }
{
    DirRow {
        name: Name::new(name),
        is_dir: entry.is_dir,
        has_log: entry.has_log,
        down: entry.down,
        log_down: entry.log_down,
    }
}
