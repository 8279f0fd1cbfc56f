//! The files of the folder of `envdir`.
ghost use Rattle.std.specs.Prelude.{◌≡◌, [], ◌∷◌, ◌++◌, map, string_bytes, slice_get};
ghost use Rattle.std.specs.Prelude.{IfOk, IfErr, OnOk, IsSorted};
ghost use Rattle.std.specs.Fs.{dir_entry_name};
ghost use Rattle.std.specs.Iterator.{IsFinite};
ghost use Rattle.std.specs.List.{filter};
ghost use Rattle.std.specs.String.{string_cmp};
ghost use Rattle.std.specs.Option.{option_map_or};
ghost use Rattle.env_title.specs.Faults.{first_fault};
ghost use Rattle.cmd_envdir.specs.Child.{AreInByteOrder};
ghost use Rattle.cmd_envdir.specs.Listing.{IsWhyUnlisted, ListsVisible, is_visible};
ghost use Rattle.cmd_envdir.specs.System.{AreHeld, NamesFile};

use crate::fault::{FolderReadFault, cause_in};
use cmd_base::FileSource;
use env_title::{EnvFault, EnvFile};
use std::alloc::{AllocError, Allocator, Global};
use std::fs::{DirEntry, Files};
use std::marker::Model;
use std::{fs, io};

/// A file of a folder: its name, and all its bytes.
#[derive(Drop)]
pub struct FolderFile<A: Allocator = Global> {
    name: String<A>,
    bytes: Vec<u8, A>,
}

impl<A: Allocator> Model for FolderFile<A> {
    ghost use Rattle.std.specs.Prelude.{string_bytes};
    ghost use Rattle.env_title.specs.Files.{File};

    ghost Value = { File };

    ghost view = { λ file. record { name = string_bytes file.name; bytes = file.bytes.items } };
}

/// Returns the files of a folder on this system, as `EnvSystem` says.
pub fn folder_files<R: Files + FileSource, A: Allocator + Clone>(
    rt: &R,
    alloc: &A,
    dir: &str,
) -> Result<Vec<FolderFile<A>, A>, FolderReadFault<A>>
    ensures order { IfOk result (λ files. AreInByteOrder (map (λ file. file.name) files.items)) }
    ensures held { IfOk result (λ files. AreHeld (R.file_at rt.now) dir.now files.items) }
    ensures file { IfErr result (λ fault. NamesFile (R.file_at rt.now) dir.now fault) }
{
    let mut files = Vec::new(alloc.clone()?);
    for name in visible_names(rt, alloc, dir)? {
        let path = path_in(alloc, dir, name.as_str())?;
        match rt.read_file(alloc.clone()?, path.as_str()) {
            Ok(bytes) => push_file(&mut files, FolderFile { name, bytes })?,
            Err(error) => return Err(FolderReadFault::of_file(path, cause_in(&error))),
        }
    }
    Ok(files)
}

/// Adds a file to files.
fn push_file<A: Allocator>(
    files: &mut Vec<FolderFile<A>, A>,
    file: FolderFile<A>,
) -> Result<(), AllocError>
    ensures { OnOk result (files.new.items ≡ files.old.items ++ file ∷ []) }
{
    files.push(file)?;
    Ok(())
}

/// Returns the names in a folder that do not begin with a dot, in byte order.
fn visible_names<R: Files, A: Allocator + Clone>(
    rt: &R,
    alloc: &A,
    dir: &str,
) -> io::Result<Vec<String<A>, A>>
    ensures order { IfOk result (λ names. IsSorted string_cmp names.items) }
{
    let mut names = names_in(alloc, fs::read_dir(&(rt, alloc), dir)?)?;
    names.sort_unstable();
    Ok(names)
}

/// Returns whether a name does not begin with a dot.
fn is_visible(name: &str) -> bool
    ensures { result ≡ is_visible name.now }
{
    name.as_bytes().first() != Some(&b'.')
}

/// Adds a name to names, unless it begins with a dot.
fn push_visible<A: Allocator + Clone>(
    alloc: &A,
    names: &mut Vec<String<A>, A>,
    name: &str,
) -> Result<(), AllocError>
    ensures { OnOk result (map string_bytes names.new.items
        ≡ map string_bytes names.old.items ++ filter is_visible (name.now ∷ [])) }
{
    if is_visible(name) {
        names.push(String::from_str(alloc.clone()?, name)?)?;
    }
    Ok(())
}

/// Returns the names of entries that do not begin with a dot, in order. The first entry that can't be read ends this
/// with its fault.
fn names_in<R: Files + Drop, B: Allocator, A: Allocator + Clone, I>(
    alloc: &A,
    entries: I,
) -> io::Result<Vec<String<A>, A>>
where
    I: Iterator<Item = io::Result<DirEntry<R, B>>> + Drop,
    requires may { I.can_next entries }
    requires ends { IsFinite (I.remaining entries) }
    ensures all { IfOk result (λ names. ListsVisible I.next_gives dir_entry_name entries
        (map string_bytes names.items)) }
    ensures first { IfErr result (λ fault. IsWhyUnlisted I.next_gives entries fault) }
{
    let mut names = Vec::new(alloc.clone()?);
    for entry in entries {
        let entry = entry?;
        push_visible(alloc, &mut names, entry.file_name())?;
    }
    Ok(names)
}

/// Returns the path of a name in a folder.
fn path_in<A: Allocator + Clone>(alloc: &A, dir: &str, name: &str) -> Result<String<A>, AllocError>
    ensures { IfOk result (λ path. string_bytes path ≡ dir.now ++ 47 ∷ name.now) }
{
    let mut path = String::from_str(alloc.clone()?, dir)?;
    path.push('/')?;
    path.push_str(name)?;
    Ok(path)
}

impl<A: Allocator> FolderFile<A> {
    ghost use Rattle.std.specs.Prelude.{◌≡◌};

    // Returns the file as a change of an environment.
    fn change(&self) -> EnvFile<'_>
        ensures { result ≡ self.now }
    {
        EnvFile {
            name: self.name.as_str(),
            bytes: self.bytes.as_slice(),
        }
    }
}

/// Returns the fault of the first file that can't be applied, or none if all can. Needs no memory.
pub fn fault_in<A: Allocator>(folder: &[FolderFile<A>]) -> Option<EnvFault>
    ensures { result ≡ first_fault folder.now }
{
    for (place, file) in folder.iter().enumerate() {
        let fault = file.change().fault(place);
        if fault.is_some() {
            return fault;
        }
    }
    None
}

/// Returns the files as changes of an environment.
pub fn env_files<'a, A: Allocator + Clone>(
    alloc: &A,
    folder: &'a [FolderFile<A>],
) -> Result<Vec<EnvFile<'a>, A>, AllocError>
    ensures { IfOk result (λ files. files.items ≡ folder.now) }
{
    let mut files = Vec::with_capacity(alloc.clone()?, folder.len())?;
    for file in folder {
        files.push(file.change())?;
    }
    Ok(files)
}

/// Returns the name of the file at a place, or an empty name if there is none.
pub fn name_at<A: Allocator>(folder: &[FolderFile<A>], place: usize) -> &str
    ensures { result.now ≡ option_map_or (λ file. file.name) (slice_get folder.now place) [] }
{
    match folder.get(place) {
        Some(file) => file.name.as_str(),
        None => "",
    }
}
