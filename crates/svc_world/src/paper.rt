//! What is written about a service, what of it is owed, and what is said about the service.
ghost use Rattle.std.specs.Prelude.{◌≡◌};
ghost use Rattle.svc_world.specs.Owed.{first_owed, is_owed, with_owed};

/// What is written about a service. Each paper has a file of its own in `supervise/`.
#[derive(Clone, Copy, Debug, PartialEq, Eq)]
pub enum Paper {
    /// Which process runs, or that one is about to be started, and what is wanted.
    Place,
    /// The process that was started last.
    Process,
    /// The status record.
    Status,
    /// How the last process ended.
    Exit,
    /// How many processes began and ended.
    Counts,
    /// When the process said that it is ready. While it has not, there is no such file.
    Ready,
    /// Until when the next start waits. While none waits, there is no such file.
    Backoff,
}

/// What svscan says about a service on its standard error.
#[derive(Clone, Copy, Debug, PartialEq, Eq)]
pub enum Remark {
    /// The service is not started, because the process with this number still runs.
    StillRuns(u32),
    /// A paper can't be written. It will be tried again.
    Unwritten(Paper),
    /// All that was owed is written.
    AllWritten,
}

/// The papers that are still to be written, each with its present content.
#[derive(Clone, Copy, Debug, PartialEq, Eq)]
pub struct Owed {
    pub place: bool,
    pub process: bool,
    pub status: bool,
    pub exit: bool,
    pub counts: bool,
    pub ready: bool,
    pub backoff: bool,
}

impl Owed {
    ghost use Rattle.svc_world.specs.Owed.{nothing_owed};

    /// Returns that nothing is owed.
    pub(crate) fn nothing() -> Owed
        ensures { result ≡ nothing_owed }
    {
        Owed {
            place: false,
            process: false,
            status: false,
            exit: false,
            counts: false,
            ready: false,
            backoff: false,
        }
    }

    /// Returns the same, except that this paper is owed or not.
    pub(crate) fn with(self, paper: Paper, owed: bool) -> Owed
        ensures { result ≡ with_owed paper owed self }
    {
        match paper {
            Paper::Place => Owed {
                place: owed,
                ..self
            },
            Paper::Process => Owed {
                process: owed,
                ..self
            },
            Paper::Status => Owed {
                status: owed,
                ..self
            },
            Paper::Exit => Owed { exit: owed, ..self },
            Paper::Counts => Owed {
                counts: owed,
                ..self
            },
            Paper::Ready => Owed {
                ready: owed,
                ..self
            },
            Paper::Backoff => Owed {
                backoff: owed,
                ..self
            },
        }
    }

    /// Returns whether this paper is owed.
    pub(crate) fn has(&self, paper: Paper) -> bool
        ensures { result ≡ is_owed paper self.now }
    {
        match paper {
            Paper::Place => self.place,
            Paper::Process => self.process,
            Paper::Status => self.status,
            Paper::Exit => self.exit,
            Paper::Counts => self.counts,
            Paper::Ready => self.ready,
            Paper::Backoff => self.backoff,
        }
    }

    /// Returns the first paper that is owed.
    pub(crate) fn first(&self) -> Option<Paper>
        ensures { result ≡ first_owed self.now }
    {
        if self.place {
            Some(Paper::Place)
        } else if self.process {
            Some(Paper::Process)
        } else if self.status {
            Some(Paper::Status)
        } else if self.exit {
            Some(Paper::Exit)
        } else if self.counts {
            Some(Paper::Counts)
        } else if self.ready {
            Some(Paper::Ready)
        } else if self.backoff {
            Some(Paper::Backoff)
        } else {
            None
        }
    }
}
