//! A store: the files of logs, status files and alerts.
ghost use Rattle.std.specs.Prelude.{◌≡◌, ◌<◌, ◌≤◌, length, OnOk, OnErr};
ghost use Rattle.mlog_files.specs.Files.{append_steps};
ghost use Rattle.mlog_files.specs.Store.{Does, Fails};

use tai_status::Label;
use thiserror::Error;

/// A store failed. Its count of failures shows it.
#[derive(Clone, Copy, Debug, PartialEq, Eq, Error)]
#[error("Store")]
pub struct StoreFault;

/// The files of logs by the number of the log, status files by their number, and alerts. They may be in folders or in
/// memory. A call that fails changed nothing. No call asks the system for a folder.
pub trait LogStore {
    ghost use Rattle.std.specs.Prelude.{◌≡◌, ◌<◌, ◌∷◌, [], length, IfOk, IfSome, OnOk, OnErr};
    ghost use Rattle.mlog_files.specs.Files.{Finish, Remove};
    ghost use Rattle.mlog_files.specs.Named.{greatest_label};
    ghost use Rattle.mlog_files.specs.Store.{StoreState, Does, AppendsPart, FailsAt, Replaces, FailsToReplace};
    ghost use Rattle.mlog_files.specs.Store.{AlertsPart, FailsToAlert};

    // How many logs and status files there are, which folders were asked for, how many calls failed, and what the store
    // shows.
    ghost state: { Self → StoreState };

    /// Appends a prefix of the piece to a log's current file, and returns its length.
    fn append(&mut self, log: usize, piece: &[u8]) -> Result<usize, StoreFault>
        requires { log < (state self.old).logs }
        ensures ok { IfOk result (λ count. AppendsPart (state self.old) (state self.new) log piece.now count) }
        ensures err { OnErr result (FailsAt (state self.old) (state self.new) log) };

    /// Makes a log's current file the old file of a label, and begins a new one.
    fn finish(&mut self, log: usize, label: &Label) -> Result<(), StoreFault>
        requires { log < (state self.old).logs }
        ensures ok { OnOk result (Does (state self.old) (state self.new) log (Finish label.now ∷ [])) }
        ensures err { OnErr result (FailsAt (state self.old) (state self.new) log) };

    /// Removes a log's old file: the one with the smallest name in byte order.
    fn remove_smallest(&mut self, log: usize) -> Result<(), StoreFault>
        requires { log < (state self.old).logs }
        ensures ok { OnOk result (Does (state self.old) (state self.new) log (Remove ∷ [])) }
        ensures err { OnErr result (FailsAt (state self.old) (state self.new) log) };

    /// Replaces a status file.
    fn replace_status(&mut self, file: usize, content: &[u8]) -> Result<(), StoreFault>
        requires { file < (state self.old).status_files }
        ensures ok { OnOk result (Replaces (state self.old) (state self.new) file (content.now ∷ [])) }
        ensures err { OnErr result (FailsToReplace (state self.old) (state self.new) file) };

    /// Alerts a prefix of the piece, and returns its length.
    fn alert(&mut self, piece: &[u8]) -> Result<usize, StoreFault>
        ensures ok { IfOk result (λ count. AlertsPart (state self.old) (state self.new) piece.now count) }
        ensures err { OnErr result (FailsToAlert (state self.old) (state self.new)) };

    /// Returns how many bytes a log's current file has.
    fn length(&self, log: usize) -> u64
        requires { log < (state self.now).logs }
        ensures { IfSome ((state self.now).visible.files log) (λ files. result ≡ length files.current) };

    /// Returns how many old files a log has.
    fn old_count(&self, log: usize) -> u64
        requires { log < (state self.now).logs }
        ensures { IfSome ((state self.now).visible.files log) (λ files. result ≡ length files.olds) };

    /// Returns the greatest label in the names of a log's old files.
    fn last_label(&self, log: usize) -> Option<Label>
        requires { log < (state self.now).logs }
        ensures { IfSome ((state self.now).visible.files log) (λ files. result ≡ greatest_label files.olds) };
}

/// Appends the whole piece to a log's current file.
pub(crate) fn append_all<S: LogStore>(
    store: &mut S,
    log: usize,
    piece: &[u8],
) -> Result<(), StoreFault>
    requires { log < (S.state store.old).logs }
    ensures ok { OnOk result (Does (S.state store.old) (S.state store.new) log (append_steps piece.now)) }
    ensures err { OnErr result (Fails (S.state store.old) (S.state store.new) log (append_steps piece.now)) }
{
    let mut at = 0;
    while at < piece.len() {
        let count = store.append(log, &piece[at..])?;
        if count == 0 {
            return Err(StoreFault);
        }
        at += count;
    }
    Ok(())
}
