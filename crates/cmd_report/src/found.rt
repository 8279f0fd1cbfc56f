//! What is found about a service: a look at it, its counts, and its last end.
use cmd_svc::ServiceLook;
use svc_record::{Counts, Exit};

/// What was found about the service in a folder.
#[derive(Clone, Copy, Debug)]
pub struct FoundService<'a> {
    pub folder: &'a str,
    pub look: ServiceLook,
    /// Its counts, if its status was read and its file `counts` has them.
    pub counts: Option<Counts>,
    /// How its last process ended, if its status was read and its file `exit` says it.
    pub last: Option<Exit>,
}
