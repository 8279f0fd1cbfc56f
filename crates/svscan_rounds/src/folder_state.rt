//! When a folder is known to have the same names as before.
ghost use Rattle.std.specs.Prelude.{◌≡◌, ◌↔◌, true};
ghost use Rattle.svscan_rounds.specs.FolderStates.{IsUnchanged, is_settled, kept_state};

use tai_status::Label;

/// The folder that a path names, and when something in it last changed.
#[derive(Clone, Copy, Debug, PartialEq, Eq)]
pub struct FolderState {
    pub device: u64,
    pub inode: u64,
    pub changed: Label,
}

impl FolderState {
    /// Returns whether a change now would give the folder another time than the last change did. Some systems only
    /// record whole seconds, or every second one.
    fn is_settled(&self, now: Label) -> bool
        ensures { result ≡ is_settled self.now now }
    {
        self.changed.plus_second().plus_second() < now
    }
}

/// Returns what is kept of a folder's state when it is listed: nothing, if the folder may change unnoticed.
pub fn kept_state(state: Option<FolderState>, now: Label) -> Option<FolderState>
    ensures { result ≡ kept_state state now }
{
    let state = state?;
    if state.is_settled(now) {
        Some(state)
    } else {
        None
    }
}

/// Returns whether a folder has the same names as before: its state was kept, and is the same now.
pub fn is_unchanged(kept: Option<FolderState>, now: Option<FolderState>) -> bool
    ensures { (result ≡ true) ↔ IsUnchanged kept now }
{
    kept.is_some() && kept == now
}
