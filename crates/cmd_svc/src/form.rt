//! Forms of the line about a look.
ghost use Rattle.cmd_svc.specs.Svstat.{shown_line};

use crate::escaping::shown;
use crate::look::{ServiceLook, look_line};
use std::alloc::{AllocError, Allocator};

/// A form in which `svstat` writes what a look found. Contracts see the line as a function of the folder and the look.
pub trait LineForm {
    ghost use Rattle.std.specs.Prelude.{◌≡◌, ℕ, List, IfOk};
    ghost use Rattle.cmd_svc.specs.declared.look.ServiceLook.{ServiceLook};

    // the line about a look at the service in a folder, without a newline
    ghost line_of: { Self → List ℕ → ServiceLook → List ℕ };

    /// Returns the line about a look at the service in a folder, without a newline.
    fn line<A: Allocator + Clone>(
        &self,
        alloc: A,
        folder: &str,
        look: &ServiceLook,
    ) -> Result<Vec<u8, A>, AllocError>
        ensures { IfOk result (λ line. line.items ≡ line_of self.now folder.now look.now) };
}

/// The form of svstat itself. Control characters in the folder's name are escaped.
pub(crate) struct PlainLine;

impl LineForm for PlainLine {
    ghost line_of = { λ _ folder look. shown_line folder look };

    fn line<A: Allocator + Clone>(
        &self,
        alloc: A,
        folder: &str,
        look: &ServiceLook,
    ) -> Result<Vec<u8, A>, AllocError> {
        let line = look_line(alloc.clone()?, folder, look)?;
        shown(alloc, line.as_bytes())
    }
}
