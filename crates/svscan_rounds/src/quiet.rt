//! When a round is idle.
ghost use Rattle.std.specs.Prelude.{◌≡◌};
ghost use Rattle.svscan_rounds.specs.Quiet.{IdleOnlyUnchanged, fresh, is_quiet, listed, looked, read, scanned};

/// What the last listing found, as far as the next one uses it.
#[derive(Clone, Copy, Debug, PartialEq, Eq)]
pub struct Quiet {
    /// The last activity that was read, before the threads of parts that had ended were joined.
    pub activity: u64,
    /// The activity at which a scan needed no row of the folder's names, if that was so.
    pub whole_at: Option<u64>,
    /// Whether the next round is idle: a scan would find nothing to do.
    pub is_idle: bool,
}

impl Quiet {
    /// Returns the state before anything was read.
    pub fn new() -> Quiet
        ensures { result ≡ fresh }
    {
        Quiet {
            activity: 0,
            whole_at: None,
            is_idle: false,
        }
    }

    /// Returns the state after the activity was read.
    pub fn read(self, activity: u64) -> Quiet
        ensures { result ≡ read self activity }
    {
        Quiet {
            activity,
            whole_at: self.whole_at,
            is_idle: false,
        }
    }

    /// Returns whether nothing has happened to a service since a scan needed no row.
    pub fn is_quiet(self) -> bool
        ensures { result ≡ is_quiet self }
    {
        self.whole_at == Some(self.activity)
    }

    /// Returns the state after a look at the folder. `has_names` says whether it has the same names as before, and
    /// `any_waits` whether a part waits to be admitted to the door.
    pub fn looked(self, has_names: bool, any_waits: bool) -> Quiet
        ensures { result ≡ looked self has_names any_waits }
    {
        Quiet {
            activity: self.activity,
            whole_at: if has_names { self.whole_at } else { None },
            is_idle: self.is_quiet() && has_names && !any_waits,
        }
    }

    /// Returns the state after the names were looked through. `needs_rows` says whether a scan needs any row.
    pub fn listed(self, needs_rows: bool) -> Quiet
        ensures { result ≡ listed self needs_rows }
    {
        Quiet {
            activity: self.activity,
            whole_at: if needs_rows {
                None
            } else {
                Some(self.activity)
            },
            is_idle: false,
        }
    }

    /// Returns the state after a round. After a refused round, no round is idle before the next listing.
    pub fn scanned(self, is_refused: bool) -> Quiet
        ensures { result ≡ scanned self is_refused }
    {
        Quiet {
            activity: self.activity,
            whole_at: if is_refused { None } else { self.whole_at },
            is_idle: false,
        }
    }
}

/// A law: a round is idle only if three things hold. The folder has the same names, no part waits to be admitted to the
/// door, and nothing has happened to a service since a scan needed no row of these names.
pub fn idle_only_unchanged()
    ensures { IdleOnlyUnchanged }
{}
