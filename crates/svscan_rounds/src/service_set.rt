//! The services of a folder.
use scan_table::{DirRow, ScanFault};
use svc_host::{Loss, PartFault};
use tai_status::{Cause, Name, Names};

/// The services of a folder need more descriptors than are allowed.
#[derive(Clone, Copy, Debug, PartialEq, Eq)]
pub struct Shortage {
    pub needed: u64,
    pub allowed: u64,
}

/// What a folder has.
#[derive(Drop)]
pub struct Listing {
    /// The rows of its names, in the byte order of the names.
    pub rows: Vec<DirRow>,
    /// The number of further names, which are not text: no service has such a name.
    pub unnamed: u64,
    /// Present if the folder is listed for the first time, and there are too few descriptors for its services.
    pub shortage: Option<Shortage>,
}

/// Why a folder was not listed.
#[derive(Clone, Copy, Debug, PartialEq, Eq)]
pub enum ListFault {
    /// It can't be read, for this cause.
    Unlisted(Cause),
    /// There is no memory for its rows.
    OutOfMemory,
}

/// Control bytes that were posted to a part which ended without taking them.
#[derive(Drop)]
pub struct Untaken {
    /// The part: the name of its service, for a logger followed by `/log`.
    pub name: Name,
    /// The number of these bytes.
    pub count: u64,
}

/// A part that a round could not make, or that runs and could not get its sockets.
#[derive(Drop)]
pub struct UnmadePart {
    /// The part: the name of its service, for a logger followed by `/log`.
    pub name: Name,
    /// The reason.
    pub fault: PartFault,
}

/// What was lost when parts ended, and what a round could not do.
#[derive(Drop)]
pub struct RoundOut {
    /// The control bytes that parts which ended did not take.
    pub untaken: Vec<Untaken>,
    /// The parts that ended and whose last trace could not be written.
    pub untraced: Names,
    /// The names that get no service because there are too many.
    pub refused: Names,
    /// The parts that could not be made, and those that run without their sockets.
    pub unmade: Vec<UnmadePart>,
}

/// Whether svscan itself is served in a folder.
#[derive(Clone, Copy, Debug, PartialEq, Eq)]
pub enum Startup {
    /// It is served, and no other svscan will be.
    Served,
    /// It is not served, because the system refused something that its own folder needs.
    Unserved(Cause),
    /// Another svscan is served there.
    Locked,
    /// The folder of the services can't be read. svscan exits.
    Unread(Cause),
    /// The system refused something without which no service can be kept running. svscan exits.
    Refused(Cause),
}

/// A process that still runs while all services are to end.
#[derive(Drop)]
pub struct Remaining {
    /// The part: the name of its service, for a logger followed by `/log`.
    pub name: Name,
    /// Its process number.
    pub pid: u32,
}

/// What svscan could not finish when it left.
#[derive(Clone, Copy, Debug, PartialEq, Eq)]
pub enum Unfinished {
    /// This many bytes of a service's output did not reach its logger.
    Bytes(u64),
    /// The records of a part could not be written.
    Records,
}

/// What svscan could not finish for a service when it left.
#[derive(Drop)]
pub struct Unlogged {
    /// The name of the service, or of the part.
    pub name: Name,
    /// What could not be finished.
    pub what: Unfinished,
}

/// What came of the begin of one service.
#[derive(Clone, Copy, Debug, PartialEq, Eq)]
pub enum Supervision {
    /// It is kept running. Present: why it has no sockets yet.
    Kept(Option<PartFault>),
    /// It is not, for this reason.
    Unmade(PartFault),
}

/// What a watch over one service found.
#[derive(Clone, Copy, Debug, PartialEq, Eq)]
pub enum Sight {
    /// It is kept running. Present: why it has no sockets yet.
    Runs(Option<PartFault>),
    /// It was asked to exit and is gone. This was lost.
    Gone(Loss),
}

/// The services of a folder, or one service, which it keeps running. Contracts see which calls were made and their
/// results, while these are recorded.
pub trait ServiceSet {
    ghost use Rattle.std.specs.Prelude.{◌∷◌, [], ⊤, Option, None, List, option_map};
    ghost use Rattle.svscan_rounds.specs.Calls.{Call, Began, Listed, Scanned, Heard, Ended, Left, Supervised, Watched};
    ghost use Rattle.tai_status.specs.Extended.{Extended};

    ghost calls: { Self → Option (List Call) } = { λ _. None };

    // Whether it may be called.
    ghost ready: { Self → Type 0 } = { λ _. ⊤ };

    /// Called before the first round. Serves svscan itself in the folder, or says why not. Nothing is changed there if
    /// another svscan is served there.
    fn begin(&mut self, folder: &str) -> Startup
        requires { ready self.old }
        ensures ready { ready self.new }
        ensures began { Extended (calls self.old) (calls self.new) (Began folder.now result ∷ []) };

    /// Lists a folder. It may leave out the rows of services whose parts all run: the round after it does the same
    /// without these rows. A fault says why the folder was not listed.
    fn list(&mut self, folder: &str) -> Result<Listing, ListFault>
        requires { ready self.old }
        ensures ready { ready self.new }
        ensures listed { Extended (calls self.old) (calls self.new) (Listed folder.now result ∷ []) };

    /// Makes one round over these rows of the folder: starts what is new, restarts what ended, and drops what is no
    /// longer there.
    fn round(&mut self, folder: &str, rows: Vec<DirRow>) -> Result<RoundOut, ScanFault>
        requires { ready self.old }
        ensures ready { ready self.new }
        ensures scanned { Extended (calls self.old) (calls self.new) (Scanned folder.now rows.items result ∷ []) };

    /// Returns the next of svscan's own control bytes, or None once the next round is due: five seconds after the last
    /// one.
    fn hear(&mut self) -> Option<u8>
        requires { ready self.old }
        ensures ready { ready self.new }
        ensures heard { Extended (calls self.old) (calls self.new) (Heard result ∷ []) };

    /// Continues the end of all services, in order, for at most five seconds. Returns None once all have ended, and
    /// otherwise the processes that still run.
    fn end(&mut self) -> Option<Vec<Remaining>>
        requires { ready self.old }
        ensures ready { ready self.new }
        ensures ended { Extended (calls self.old) (calls self.new)
            (Ended (option_map (λ left. left.items) result) ∷ []) };

    /// Leaves the services. Before that, puts what was read of their outputs into their loggers, for at most five
    /// seconds. svscan itself is no longer served. Returns what was not logged, and whose records could not be written.
    fn leave(&mut self) -> Vec<Unlogged>
        requires { ready self.old }
        ensures ready { ready self.new }
        ensures left { Extended (calls self.old) (calls self.new) (Left result.items ∷ []) };
    /// Begins the service in a folder, without its logger, and serves it there. Says why not.
    fn supervise(&mut self, folder: &str) -> Supervision
        requires { ready self.old }
        ensures ready { ready self.new }
        ensures supervised { Extended (calls self.old) (calls self.new) (Supervised folder.now result ∷ []) };

    /// Watches over the service that was begun, until it is gone, for at most five seconds. It may return early.
    fn watch(&mut self) -> Sight
        requires { ready self.old }
        ensures ready { ready self.new }
        ensures watched { Extended (calls self.old) (calls self.new) (Watched result ∷ []) };
}
