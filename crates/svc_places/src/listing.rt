//! The services of the folder that `SVDIR` names, as words that name them.
ghost use Rattle.std.specs.Prelude.{◌≡◌, ◌∷◌, ◌++◌, string_bytes, IfOk};
ghost use Rattle.std.specs.Iterator.{IsFinite};
ghost use Rattle.svc_places.specs.Places.{place_of, word_for};

use crate::system::{is_folder, services_folder};
use std::alloc::{AllocError, Allocator};
use std::env::Env;
use std::fs::{DirEntry, Files};
use std::io::ErrorKind;
use std::{fs, io};

/// Returns the path of a name in a folder.
fn path_in<A: Allocator>(alloc: A, folder: &str, name: &str) -> Result<String<A>, AllocError>
    ensures { IfOk result (λ path. string_bytes path ≡ folder.now ++ 47 ∷ name.now) }
{
    let mut path = String::from_str(alloc, folder)?;
    path.push('/')?;
    path.push_str(name)?;
    Ok(path)
}

/// Returns a word that names the service of a name in the folder of services: the name, or the path if the name alone
/// means something else, as a folder here or an option. Such a word is found there by the rule of
/// [`path_at`](crate::path_at).
fn word_for<A: Allocator>(
    alloc: A,
    name: &str,
    means_other: bool,
    services: &str,
) -> Result<String<A>, AllocError>
    ensures word { IfOk result (λ word. string_bytes word ≡ word_for name.now means_other services.now) }
{
    if means_other {
        path_in(alloc, services, name)
    } else {
        String::from_str(alloc, name)
    }
}

/// Returns the names in a folder that are text and do not begin with a dot, in byte order.
fn visible_names<R: Files, A: Allocator + Clone>(
    runtime: &R,
    alloc: &A,
    folder: &str,
) -> io::Result<Vec<String<A>, A>> {
    let mut names = names_in(alloc, fs::read_dir(&(runtime, alloc), folder)?)?;
    names.sort_unstable();
    Ok(names)
}

/// Returns the names of entries that are text and do not begin with a dot. Another fault of an entry ends this.
fn names_in<R: Files + Drop, B: Allocator, A: Allocator + Clone, I>(
    alloc: &A,
    entries: I,
) -> io::Result<Vec<String<A>, A>>
where
    I: Iterator<Item = io::Result<DirEntry<R, B>>> + Drop,
    requires may { I.can_next entries }
    requires ends { IsFinite (I.remaining entries) }
{
    let mut names = Vec::new(alloc.clone()?);
    for entry in entries {
        match entry {
            Ok(entry) => push_visible(alloc, &mut names, entry.file_name())?,
            Err(fault) if fault.kind() == ErrorKind::InvalidFilename => {}
            Err(fault) => return Err(fault),
        }
    }
    Ok(names)
}

/// Adds a name to names, unless it begins with a dot.
fn push_visible<A: Allocator + Clone>(
    alloc: &A,
    names: &mut Vec<String<A>, A>,
    name: &str,
) -> Result<(), AllocError> {
    if name.as_bytes().first() != Some(&b'.') {
        names.push(String::from_str(alloc.clone()?, name)?)?;
    }
    Ok(())
}

/// Adds the word for the service of a name, if there is such a folder, and then the path of its logger, if that is asked
/// for and there is one.
fn push_service<R: Files, A: Allocator + Clone>(
    runtime: &R,
    alloc: &A,
    words: &mut Vec<String<A>, A>,
    services: &str,
    name: &str,
    with_loggers: bool,
) -> Result<(), AllocError> {
    let path = path_in(alloc.clone()?, services, name)?;
    if is_folder(runtime, path.as_str()) {
        let means_other = name.as_bytes().first() == Some(&b'-') || is_folder(runtime, name);
        words.push(word_for(alloc.clone()?, name, means_other, services)?)?;
        let logger = path_in(alloc.clone()?, path.as_str(), "log")?;
        if with_loggers && is_folder(runtime, logger.as_str()) {
            words.push(logger)?;
        }
    }
    Ok(())
}

/// Returns words that name the services in the folder of services, in byte order of their names, each followed by its
/// logger if that is asked for. A service is a folder whose name does not begin with a dot. Returns None if there is no
/// folder of services.
pub fn service_words<R: Files + Env, A: Allocator + Clone>(
    runtime: &R,
    alloc: &A,
    with_loggers: bool,
) -> io::Result<Option<Vec<String<A>, A>>> {
    let services = services_folder(runtime);
    if services.as_str().is_empty() {
        return Ok(None);
    }
    let names = visible_names(runtime, alloc, services.as_str())?;
    let mut words = Vec::new(alloc.clone()?);
    for name in &names {
        push_service(
            runtime,
            alloc,
            &mut words,
            services.as_str(),
            name.as_str(),
            with_loggers,
        )?;
    }
    Ok(Some(words))
}
