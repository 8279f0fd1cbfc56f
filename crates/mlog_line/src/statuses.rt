//! Status files of a line.
ghost use Rattle.std.specs.Prelude.{◌≡◌, ◌≤◌, ◌<◌, ◌∷◌, [], length, OnOk, OnErr};
ghost use Rattle.mlog_script.specs.Selection.{padded};
ghost use Rattle.mlog_files.specs.Store.{Replaces, FailsToReplace};
ghost use Rattle.mlog_line.specs.Several.{Replaced, ReplacedSome};

use mlog_files::{LogStore, StoreFault};

/// How many bytes a status file has. A shorter line is filled up with newlines.
const CONTENT: usize = 1001;

/// Gives the content for a line with this front to each status file whose flag is set, once.
pub fn replace_chosen<S: LogStore>(
    store: &mut S,
    chosen: &[bool],
    front: &[u8],
) -> Result<(), StoreFault>
    requires files { length chosen.now ≤ (S.state store.old).status_files }
    requires front { length front.now ≤ 1000 }
    ensures ok { OnOk result (Replaced (S.state store.old) (S.state store.new) chosen.now (padded front.now)) }
    ensures err { OnErr result (ReplacedSome (S.state store.old) (S.state store.new) chosen.now (padded front.now)) }
{
    for (file, is_chosen) in chosen.iter().enumerate() {
        if *is_chosen {
            replace_one(store, file, front)?;
        }
    }
    Ok(())
}

/// Gives the content for a line with this front to a status file.
fn replace_one<S: LogStore>(store: &mut S, file: usize, front: &[u8]) -> Result<(), StoreFault>
    requires file { file < (S.state store.old).status_files }
    requires front { length front.now ≤ 1000 }
    ensures ok { OnOk result (Replaces (S.state store.old) (S.state store.new) file (padded front.now ∷ [])) }
    ensures err { OnErr result (FailsToReplace (S.state store.old) (S.state store.new) file) }
{
    let mut content = [b'\n'; CONTENT];
    content[..front.len()].copy_from_slice(front);
    store.replace_status(file, &content)
}
