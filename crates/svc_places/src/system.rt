//! The system's own folders of services.
use crate::places::{PATH_BYTES, ServicePath, is_looked_up, path_at};
use std::alloc::{AllocError, Allocator};
use std::env::Env;
use std::fs::Files;
use std::{fs, io, str};

/// The variable that names the folder of services.
const VARIABLE: &str = "SVDIR";

/// Returns the folder of services, by its variable. Returns an empty path if the variable is not set, is not text, or is
/// longer than any path.
pub(crate) fn services_folder<R: Env>(runtime: &R) -> ServicePath {
    let mut folder = ServicePath::new();
    let mut bytes = [0; PATH_BYTES];
    if let Ok(count) = runtime.var(VARIABLE, &mut bytes) {
        if let Ok(text) = str::from_utf8(&bytes[..count.min(PATH_BYTES)]) {
            folder.push_str(text);
        }
    }
    folder
}

/// Returns whether there is a folder at a path.
pub(crate) fn is_folder<R: Files>(runtime: &R, path: &str) -> bool {
    match fs::metadata(runtime, path) {
        Ok(found) => found.is_dir(),
        Err(_) => false,
    }
}

/// Returns the path of something in the folder of the service that a word names. A name that is no folder here is looked
/// up in the folder of services. A path that is longer than any on this system is a fault.
pub fn service_path<R: Files + Env>(
    runtime: &R,
    word: &str,
    rest: &str,
) -> io::Result<ServicePath> {
    let services = services_folder(runtime);
    let sought = is_looked_up(word, false, services.as_str());
    let is_here = sought && is_folder(runtime, word);
    path_at(word, is_here, services.as_str(), rest)
}

/// The files and folders that a word may name. Contracts see which one it names, if the type says so.
pub trait ServicePlaces {
    ghost use Rattle.std.specs.Prelude.{ℕ, List, Option, None, string_bytes, IfOk};
    ghost use Rattle.cmd_base.specs.Known.{IsKnown};

    // the path that a word names
    ghost place_at: { Self → List ℕ → Option (List ℕ) } = { λ _ _. None };

    /// Returns the path of the file, or of the service's folder, that a word names.
    fn place<A: Allocator>(&self, alloc: A, word: &str) -> Result<String<A>, AllocError>
        ensures { IfOk result (λ path. IsKnown (place_at self.now word.now) (string_bytes path)) };
}

/// Returns the path that a word names on this system, if it can name a file. A name that nothing has here is looked up
/// in the folder of services. A path that is longer than any on this system is the word itself.
fn sought_path<R: Files + Env>(runtime: &R, word: &str) -> Option<ServicePath> {
    let services = services_folder(runtime);
    let sought = is_looked_up(word, false, services.as_str());
    let is_here = sought && fs::metadata(runtime, word).is_ok();
    path_at(word, is_here, services.as_str(), "").ok()
}

/// This system. It says nothing to contracts.
impl ServicePlaces for HostRuntime {
    fn place<A: Allocator>(&self, alloc: A, word: &str) -> Result<String<A>, AllocError> {
        match sought_path(self, word) {
            Some(path) => String::from_str(alloc, path.as_str()),
            None => String::from_str(alloc, word),
        }
    }
}
