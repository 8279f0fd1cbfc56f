//! The environment of this process, and that of another one.
ghost use Rattle.std.specs.Prelude.{◌≡◌, OnOk};
ghost use Rattle.cmd_envdir.specs.System.{entry_put};

use cmd_base::FileSource;
use env_title::Env;
use std::alloc::{AllocError, Allocator};
use std::env::FillError;
use std::io::ErrorKind;
use std::{env, str};

/// Returns the variables of this process, except those that are not text.
pub fn system_env<R: env::Env, A: Allocator + Clone>(
    rt: &R,
    alloc: &A,
) -> Result<Env<A>, AllocError> {
    let mut variables = Env::new(alloc.clone()?);
    for place in 0..usize::MAX {
        let Some(entry) = entry_at(rt, alloc, place)? else {
            break;
        };
        put_entry(&mut variables, alloc, &entry)?;
    }
    Ok(variables)
}

/// Returns the variables that a process was given, by the path of its `environ` in /proc, as `EnvSystem` says.
pub fn given_env<R: FileSource + env::Env, A: Allocator + Clone>(
    rt: &R,
    alloc: &A,
    path: &str,
) -> Result<Env<A>, AllocError> {
    match rt.read_file(alloc.clone()?, path) {
        Ok(entries) => entries_env(alloc, &entries),
        Err(error) if error.kind() == ErrorKind::OutOfMemory => Err(AllocError),
        Err(_) => system_env(rt, alloc),
    }
}

/// Returns the variables of entries that each end in a NUL.
fn entries_env<A: Allocator + Clone>(alloc: &A, entries: &[u8]) -> Result<Env<A>, AllocError> {
    let mut variables = Env::new(alloc.clone()?);
    for entry in entries.split(|byte| *byte == 0) {
        put_entry(&mut variables, alloc, entry)?;
    }
    Ok(variables)
}

/// Returns the entry at a place, if there is one.
fn entry_at<R: env::Env, A: Allocator + Clone>(
    rt: &R,
    alloc: &A,
    place: usize,
) -> Result<Option<Vec<u8, A>>, AllocError> {
    let mut bytes = Vec::new(alloc.clone()?);
    let mut room = 256_usize;
    for _ in 0..usize::BITS {
        bytes.resize(room, 0)?;
        match rt.var_at(place, &mut bytes) {
            Ok(count) => {
                bytes.truncate(count);
                return Ok(Some(bytes));
            }
            Err(FillError::NotPresent) => return Ok(None),
            Err(FillError::TooLong) => room = room.saturating_mul(2),
        }
    }
    Err(AllocError)
}

/// Puts the variable of an entry `NAME=VALUE`, if it is text.
fn put_entry<A: Allocator + Clone>(
    variables: &mut Env<A>,
    alloc: &A,
    entry: &[u8],
) -> Result<(), AllocError>
    ensures { OnOk result (variables.new ≡ entry_put variables.old entry.now) }
{
    let Ok(text) = str::from_utf8(entry) else {
        return Ok(());
    };
    match text.split_once('=') {
        Some((name, value)) if !name.is_empty() => variables.put(
            String::from_str(alloc.clone()?, name)?,
            String::from_str(alloc.clone()?, value)?,
        ),
        _ => Ok(()),
    }
}
