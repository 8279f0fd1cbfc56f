//! What `envdir` reads from the operating system.
ghost use Rattle.std.specs.Prelude.{IfOk, IfErr};

use crate::fault::FolderReadFault;
use crate::folder::{FolderFile, folder_files};
use crate::variables::{given_env, system_env};
use env_title::Env;
use std::alloc::{AllocError, Allocator};

/// The folders, and the variables of the process. Contracts see what they hold, if the system shows it.
pub trait EnvSystem {
    ghost use Rattle.std.specs.Prelude.{◌≡◌, None, IsOk, map};
    ghost use Rattle.cmd_base.specs.Known.{IsKnown};
    ghost use Rattle.cmd_envdir.specs.Child.{AreInByteOrder};
    ghost use Rattle.cmd_envdir.specs.System.{SystemState, IsUnread, unknown_state};

    // the files of each folder, as `read_folder` gives them; the fault with which it fails; the variables of the
    // process; and those that another process was given
    ghost state: { Self → SystemState } = { λ _. unknown_state };

    /// Returns the files of a folder, in byte order of their names, without those with names that begin with a dot. A
    /// name that is not text, a folder in place of a file, and a file that can't be read are faults. The fault says
    /// which file can't be read, and why.
    fn read_folder<A: Allocator + Clone>(
        &self,
        alloc: &A,
        dir: &str,
    ) -> Result<Vec<FolderFile<A>, A>, FolderReadFault<A>>
        ensures order { IfOk result (λ files. AreInByteOrder (map (λ file. file.name) files.items)) }
        ensures known { IfOk result (λ files. IsKnown ((state self.now).folder dir.now) files.items) }
        ensures missing { IfErr result (λ fault. IsUnread fault ((state self.now).folder dir.now)) }
        ensures fault { IfErr result (λ fault. IsKnown ((state self.now).folder_fault dir.now) fault) }
        ensures whole { IsOk result → (state self.now).folder_fault dir.now ≡ None };

    /// Returns the variables of this process, except those that are not text.
    fn variables<A: Allocator + Clone>(&self, alloc: &A) -> Result<Env<A>, AllocError>
        ensures known { IfOk result (λ variables. IsKnown (state self.now).variables variables) };

    /// Returns the variables that a process was given, by the path of its `environ` in /proc, except those that are not
    /// text. If that can't be read, returns the variables of this process.
    fn given_variables<A: Allocator + Clone>(
        &self,
        alloc: &A,
        path: &str,
    ) -> Result<Env<A>, AllocError>
        ensures known { IfOk result (λ variables. IsKnown ((state self.now).given path.now) variables) };
}

/// The operating system itself. It does not show contracts what it holds.
impl EnvSystem for HostRuntime {
    fn read_folder<A: Allocator + Clone>(
        &self,
        alloc: &A,
        dir: &str,
    ) -> Result<Vec<FolderFile<A>, A>, FolderReadFault<A>> {
        folder_files(self, alloc, dir)
    }

    fn variables<A: Allocator + Clone>(&self, alloc: &A) -> Result<Env<A>, AllocError> {
        system_env(self, alloc)
    }

    fn given_variables<A: Allocator + Clone>(
        &self,
        alloc: &A,
        path: &str,
    ) -> Result<Env<A>, AllocError> {
        given_env(self, alloc, path)
    }
}
