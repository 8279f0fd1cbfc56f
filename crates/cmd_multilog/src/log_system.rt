//! The layer over the operating system: folders of logs, status files, and the destination of alerts.
ghost use Rattle.std.specs.Prelude.{◌≡◌};

use crate::names::FileName;
use std::alloc::{AllocError, Allocator};
use std::io;

/// The folder of a log. Contracts see what is in it, and which errors came from the calls that open it, if the type
/// says so. A call that fails changes nothing.
pub trait LogFolder {
    ghost use Rattle.std.specs.Prelude.{◌≡◌, ◌<◌, ◌≤◌, ◌∷◌, [], List, Option, None, length, take, IfOk, IfErr};
    ghost use Rattle.std.specs.Prelude.{OnOk, OnErr};
    ghost use Rattle.std.specs.declared.io.Error.{Error};
    ghost use Rattle.tai_status.specs.Extended.{Extended};
    ghost use Rattle.cmd_multilog.specs.Folder.{Folder, Changes, IsLocked, IsSynced, HasLength, HasNames};
    ghost use Rattle.cmd_multilog.specs.Folder.{Locks, Opens, Extends, Syncs, Renames, Removes};

    ghost folder: { Self → Option Folder } = { λ _. None };

    // the errors that its calls returned, in order
    ghost gave: { Self → Option (List Error) } = { λ _. None };

    /// Takes the lock, without waiting for another process that has it. The lock is held until the folder is dropped.
    fn lock(&mut self) -> io::Result<()>
        ensures ok { OnOk result (Changes (folder self.old) (folder self.new) Locks) }
        ensures err { OnErr result (folder self.new ≡ folder self.old) }
        ensures well { OnOk result (gave self.new ≡ gave self.old) }
        ensures gave { IfErr result (λ error. Extended (gave self.old) (gave self.new) (error ∷ [])) };

    /// Opens the current file for appending. Makes it if it is missing.
    fn open_current(&mut self) -> io::Result<()>
        requires locked { IsLocked (folder self.old) }
        ensures ok { OnOk result (Changes (folder self.old) (folder self.new) Opens) }
        ensures err { OnErr result (folder self.new ≡ folder self.old) }
        ensures well { OnOk result (gave self.new ≡ gave self.old) }
        ensures gave { IfErr result (λ error. Extended (gave self.old) (gave self.new) (error ∷ [])) };

    /// Returns how many bytes the current file has.
    fn length(&mut self) -> io::Result<u64>
        ensures ok { IfOk result (HasLength (folder self.new)) }
        ensures same { folder self.new ≡ folder self.old }
        ensures well { OnOk result (gave self.new ≡ gave self.old) }
        ensures gave { IfErr result (λ error. Extended (gave self.old) (gave self.new) (error ∷ [])) };

    /// Returns all names in the folder. A name that is not text is a fault.
    fn names<A: Allocator + Clone>(&mut self, alloc: &A) -> io::Result<Vec<FileName<A>, A>>
        ensures ok { IfOk result (λ names. HasNames (folder self.new) names.items) }
        ensures same { folder self.new ≡ folder self.old }
        ensures well { OnOk result (gave self.new ≡ gave self.old) }
        ensures gave { IfErr result (λ error. Extended (gave self.old) (gave self.new) (error ∷ [])) };

    /// Appends a front of the piece to the current file, and returns the length of that front.
    fn append(&mut self, piece: &[u8]) -> io::Result<usize>
        ensures bound { IfOk result (λ count. count ≤ length piece.now) }
        ensures some { IfOk result (λ count. 0 < length piece.now → 0 < count) }
        ensures ok { IfOk result (λ count.
            Changes (folder self.old) (folder self.new) (Extends (take count piece.now))) }
        ensures err { OnErr result (folder self.new ≡ folder self.old) };

    /// Writes all of the current file out to the disk.
    fn sync(&mut self) -> io::Result<()>
        ensures ok { OnOk result (Changes (folder self.old) (folder self.new) Syncs) }
        ensures err { OnErr result (folder self.new ≡ folder self.old) };

    /// Makes the current file the old file with a name that nothing in the folder has. After that there is no current
    /// file.
    fn rename(&mut self, name: &[u8]) -> io::Result<()>
        requires synced { IsSynced (folder self.old) }
        ensures ok { OnOk result (Changes (folder self.old) (folder self.new) (Renames name.now)) }
        ensures err { OnErr result (folder self.new ≡ folder self.old) };

    /// Removes the old file with a name.
    fn remove(&mut self, name: &[u8]) -> io::Result<()>
        ensures ok { OnOk result (Changes (folder self.old) (folder self.new) (Removes name.now)) }
        ensures err { OnErr result (folder self.new ≡ folder self.old) };
}

/// The place of a status file. Contracts see its path and the contents that it was given, if the type says so.
pub trait StatusPlace {
    ghost use Rattle.std.specs.Prelude.{◌≡◌, Option, None, OnOk, OnErr};
    ghost use Rattle.cmd_multilog.specs.Folder.{Status, Receives};

    ghost status: { Self → Option Status } = { λ _. None };

    /// Replaces the content of the file. After a fault it has the content it had.
    fn replace(&mut self, content: &[u8]) -> io::Result<()>
        ensures ok { OnOk result (Receives (status self.old) (status self.new) content.now) }
        ensures err { OnErr result (status self.new ≡ status self.old) };
}

/// What the operating system does for logs, and standard error. Contracts see which folders it was asked for, which
/// errors came from the calls that open these, and what it alerted, if the type says so.
pub trait LogSystem {
    type Folder: LogFolder + Drop;

    type Status: StatusPlace + Drop;

    ghost use Rattle.std.specs.Prelude.{◌≡◌, ◌<◌, ◌≤◌, ℕ, List, [], ◌∷◌, Option, None, length, take, IfOk, IfSome};
    ghost use Rattle.std.specs.Prelude.{OnOk, OnErr, IfErr};
    ghost use Rattle.std.specs.declared.io.Error.{Error};
    ghost use Rattle.std.specs.Io.KnownBytes.{Appends};
    ghost use Rattle.tai_status.specs.Extended.{Extended};

    // the folders that it was asked for, in order
    ghost asked: { Self → Option (List (List ℕ)) } = { λ _. None };

    // the errors that it returned for a folder, and those of the folders that it took back, in order
    ghost gave: { Self → Option (List Error) } = { λ _. None };

    ghost alerts: { Self → Option (List ℕ) } = { λ _. None };

    /// Returns the folder at a path. Makes it if it is missing. The list of its errors continues this one's.
    fn folder(&mut self, path: &[u8]) -> io::Result<Self::Folder>
        // If it succeeds, the folder is the one at that path, and its list of errors continues this one's, which stays.
        ensures path { IfOk result (λ folder. IfSome (Self.Folder.folder folder) (λ f. f.path ≡ path.now)) }
        ensures goes_on { IfOk result (λ folder. Self.Folder.gave folder ≡ gave self.old) }
        ensures well { OnOk result (gave self.new ≡ gave self.old) }

        // If it fails, the list of errors has one more. The path is noted in both cases.
        ensures gave { IfErr result (λ error. Extended (gave self.old) (gave self.new) (error ∷ [])) }
        ensures asked { Extended (asked self.old) (asked self.new) (path.now ∷ []) }
        ensures alerts { alerts self.new ≡ alerts self.old };

    /// Takes back a folder that can't be begun, with the list of its errors.
    fn take_back(&mut self, folder: Self::Folder)
        ensures gave { gave self.new ≡ Self.Folder.gave folder }
        ensures asked { asked self.new ≡ asked self.old }
        ensures alerts { alerts self.new ≡ alerts self.old };

    /// Returns the place of the status file at a path. Nothing is made yet.
    fn status_file(&self, path: &[u8]) -> Result<Self::Status, AllocError>
        ensures { IfOk result (λ file. IfSome (Self.Status.status file) (λ s. s.path ≡ path.now)) };

    /// Alerts a front of the piece, and returns the length of that front.
    fn alert(&mut self, piece: &[u8]) -> io::Result<usize>
        ensures bound { IfOk result (λ count. count ≤ length piece.now) }
        ensures some { IfOk result (λ count. 0 < length piece.now → 0 < count) }
        ensures ok { IfOk result (λ count. Appends (alerts self.old) (alerts self.new) (take count piece.now)) }
        ensures err { OnErr result (alerts self.new ≡ alerts self.old) }
        ensures asked { asked self.new ≡ asked self.old };
}
