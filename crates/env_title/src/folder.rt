ghost use Rattle.std.specs.Prelude.{◌≡◌, ◌<◌, ◌+◌, true, length, MatchOption, IsOk, IsErr, IfOk, OnOk, IsErrOf};
ghost use Rattle.std.specs.Prelude.{IsOkUnless};
ghost use Rattle.std.specs.Str.{is_utf8};
ghost use Rattle.env_title.specs.Files.{after_file, env_after, file_value};
ghost use Rattle.env_title.specs.Faults.{first_fault};

use crate::env::Env;
use crate::fault::EnvFault;
use crate::file::EnvFile;
use crate::value::file_value;
use std::alloc::{AllocError, Allocator};

/// Returns the environment after the files of a folder, in the order given, as the envdir page
/// (<https://cr.yp.to/daemontools/envdir.html>) describes it.
///
/// A file with a name that begins with a dot is ignored. Among the others, the last file of each name counts. Variables
/// without a counting file of their name stay, in their order. After them come the variables of the files that count,
/// in the order of the files. A file with 0 bytes removes its variable. For any other file, the value is its first
/// line, without the spaces and tabs at its end, and with a newline for each NUL.
///
/// The first file that cannot be applied is reported, even if there is no memory. `NameHasEquals` is returned if its
/// name contains `=`, even if the file has 0 bytes. `NotText` is returned if its value is not UTF-8, even if a later
/// file of that name counts. Otherwise `OutOfMemory` is returned only if the allocator refuses memory for the
/// variables. Without variables and files no memory is needed.
pub fn apply<A: Allocator + Clone>(
    alloc: A,
    files: &[EnvFile<'_>],
    env: &Env<A>,
) -> Result<Env<A>, EnvFault>
    ensures ok { IfOk result (λ new. new ≡ env_after files.now env.now) }
    ensures refuses { MatchOption (first_fault files.now)
        (IsOkUnless result EnvFault.OutOfMemory)
        (λ fault. IsErrOf result fault) }
    ensures memory { IsErrOf result EnvFault.OutOfMemory → 0 < length env.now + length files.now }
{
    check(files)?;
    after(alloc, files, env).map_err(|_| EnvFault::OutOfMemory)
}

/// Returns the fault of the first file that cannot be applied, if there is one. Needs no memory.
pub fn first_fault(files: &[EnvFile<'_>]) -> Option<EnvFault>
    ensures { result ≡ first_fault files.now }
{
    check(files).err()
}

/// Returns an error for the first file that cannot be applied.
fn check(files: &[EnvFile<'_>]) -> Result<(), EnvFault>
    ensures { MatchOption (first_fault files.now) (IsOk result) (λ fault. result ≡ Err fault) }
{
    for (place, file) in files.iter().enumerate() {
        file.check(place)?;
    }
    Ok(())
}

/// Returns the environment after files that can be applied.
fn after<A: Allocator + Clone>(
    alloc: A,
    files: &[EnvFile<'_>],
    env: &Env<A>,
) -> Result<Env<A>, AllocError>
    requires { first_fault files.now ≡ None }
    ensures ok { IfOk result (λ new. new ≡ env_after files.now env.now) }
    ensures memory { IsErr result → 0 < length env.now + length files.now }
{
    let mut new = env.copy(alloc)?;
    for file in files {
        if !file.is_hidden() {
            put_file(&mut new, file)?;
        }
    }
    Ok(new)
}

/// Sets or removes the variable of one file.
fn put_file<A: Allocator + Clone>(env: &mut Env<A>, file: &EnvFile<'_>) -> Result<(), AllocError>
    requires { is_utf8 (file_value file.now.bytes) ≡ true }
    ensures { OnOk result (env.new ≡ after_file env.old file.now) }
{
    if file.bytes.is_empty() {
        env.remove(file.name);
        return Ok(());
    }
    let own = env.allocator().clone()?;
    let name = String::from_str(own.clone()?, file.name)?;
    let value = file_value(own, file.bytes)?;
    env.put(name, value)
}
