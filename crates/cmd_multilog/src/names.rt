//! Names of old files.
ghost use Rattle.std.specs.Prelude.{◌≡◌, ◌≤◌, ◌<◌, ◌++◌, ◌∷◌, [], length, take, drop, OnOk, OnErr, IfOk, IsOk};
ghost use Rattle.std.specs.Prelude.{vec_len, vec_capacity, ◌+◌};
ghost use Rattle.std.specs.Cmp.Lexicographic.{slice_cmp};
ghost use Rattle.std.specs.Ordering.{is_lt, nat_cmp};
ghost use Rattle.mlog_files.specs.Files.{old_name};
ghost use Rattle.cmd_multilog.specs.Names.{begins_with_at, is_old_name, with_name, old_names, greatest_in, AreInOrder};

use mlog_files::{label_in, later_of};
use std::alloc::{AllocError, Allocator, Global};
use std::marker::Model;
use tai_status::{Label, text};

/// The length of a label's text.
const LABEL: usize = 25;

/// A name in the folder of a log.
#[derive(Drop)]
pub struct FileName<A: Allocator = Global> {
    bytes: Vec<u8, A>,
}

impl<A: Allocator> Model for FileName<A> {
    ghost use Rattle.std.specs.Prelude.{ℕ, List};

    ghost Value = { List ℕ };

    ghost view = { λ name. name.bytes.items };
}

impl<A: Allocator> FileName<A> {
    ghost use Rattle.std.specs.Prelude.{◌≡◌, IfOk};
    ghost use Rattle.mlog_files.specs.Files.{old_name};
    ghost use Rattle.mlog_files.specs.Named.{label_in};

    /// Makes the name with these bytes.
    pub fn new(alloc: A, bytes: &[u8]) -> Result<FileName<A>, AllocError>
        ensures { IfOk result (λ name. name ≡ bytes.now) }
    {
        let mut name = Vec::new(alloc);
        name.extend_from_slice(bytes)?;
        Ok(FileName { bytes: name })
    }

    /// Returns the name of the old file with a label.
    pub(crate) fn of_label(alloc: A, label: &Label) -> Result<FileName<A>, AllocError>
        ensures { IfOk result (λ name. name ≡ old_name label.now) }
    {
        let mut name = Vec::new(alloc);
        name.extend_from_slice(&text(label))?;
        name.extend_from_slice(b".s")?;
        Ok(FileName { bytes: name })
    }

    /// Returns the name's bytes.
    pub fn as_slice(&self) -> &[u8]
        ensures { result.now ≡ self.now }
    {
        self.bytes.as_slice()
    }

    // Returns the label in the name.
    fn label(&self) -> Option<Label>
        ensures { result ≡ label_in self.now }
    {
        label_in(self.as_slice())
    }
}

/// Returns the greatest label in names.
pub(crate) fn greatest_in<A: Allocator>(names: &[FileName<A>]) -> Option<Label>
    ensures { result ≡ greatest_in names.now }
{
    let mut greatest = None;
    for name in names {
        greatest = later_of(greatest, name.label());
    }
    greatest
}

// Returns whether a name is that of an old file.
fn is_old_name(name: &[u8]) -> bool
    ensures { result ≡ is_old_name name.now }
{
    name.first() == Some(&b'@') && LABEL <= name.len()
}

// Returns whether a name comes before another, in byte order.
fn is_below(first: &[u8], second: &[u8]) -> bool
    ensures { result ≡ is_lt (slice_cmp nat_cmp first.now second.now) }
{
    first.cmp(second).is_lt()
}

// Returns the place that a name gets among names in byte order. The search begins at the end, because a new label
// belongs there.
fn place_of<A: Allocator>(names: &[FileName<A>], name: &[u8]) -> usize
    requires { AreInOrder names.now }
    ensures within { result ≤ length names.now }
    ensures place { with_name name.now names.now ≡ take result names.now ++ name.now ∷ drop result names.now }
{
    let mut place = names.len();
    while place > 0 {
        if is_below(names[place - 1].as_slice(), name) {
            return place;
        }
        place -= 1;
    }
    0
}

/// The names of old files, in byte order.
#[derive(Drop)]
pub(crate) struct OldNames<A: Allocator = Global> {
    pub(crate) names: Vec<FileName<A>, A>,
    ghost in_order: { AreInOrder names.items },
}

impl<A: Allocator> OldNames<A> {
    /// Inserts a name at its place.
    pub(crate) fn insert(&mut self, name: FileName<A>) -> Result<(), AllocError>
        ensures ok { OnOk result (self.new.names.items ≡ with_name name self.old.names.items) }
        ensures err { OnErr result (self.new.names.items ≡ self.old.names.items) }
        ensures room { vec_len self.old.names + 1 ≤ vec_capacity self.old.names → IsOk result }
    {
        let place = place_of(&self.names, name.as_slice());
        self.names.insert(place, name)?;
        Ok(())
    }
}

/// Returns the names of old files among names, in byte order.
pub(crate) fn old_names<A: Allocator + Clone>(
    alloc: &A,
    names: Vec<FileName<A>, A>,
) -> Result<OldNames<A>, AllocError>
    ensures { IfOk result (λ olds. olds.names.items ≡ old_names names.items) }
{
    let mut olds = OldNames {
        names: Vec::new(alloc.clone()?),
    };
    for name in names {
        if is_old_name(name.as_slice()) {
            olds.insert(name)?;
        }
    }
    Ok(olds)
}
