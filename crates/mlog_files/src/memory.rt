//! Files of logs in memory.
ghost use Rattle.std.specs.Prelude.{◌≡◌, ◌≤◌, ◌++◌, ◌∷◌, length, take, drop};
ghost use Rattle.std.specs.Cmp.Lexicographic.{slice_cmp};
ghost use Rattle.std.specs.Ordering.{is_lt, nat_cmp};
ghost use Rattle.mlog_files.specs.Files.{Old, with_old};

use crate::named::{label_in, later_of};
use crate::store::{LogStore, StoreFault};
use std::alloc::{AllocError, Allocator, Global};
use std::marker::Model;
use std::mem;
use tai_status::{Label, text};

/// An old file of a log.
#[derive(Drop)]
pub struct OldFile<A: Allocator = Global> {
    pub name: Vec<u8, A>,
    pub bytes: Vec<u8, A>,
}

impl<A: Allocator> Model for OldFile<A> {
    ghost use Rattle.mlog_files.specs.Files.{Old};

    ghost Value = { Old };

    ghost view = { λ old. record { name = old.name.items; bytes = old.bytes.items } };
}

impl<A: Allocator> OldFile<A> {
    ghost use Rattle.mlog_files.specs.Named.{label_in};
    ghost use Rattle.std.specs.Prelude.{◌≡◌};

    fn name(&self) -> &[u8]
        ensures { result.now ≡ self.now.name }
    {
        self.name.as_slice()
    }

    // Returns the label in the name.
    fn label(&self) -> Option<Label>
        ensures { result ≡ label_in self.now.name }
    {
        label_in(self.name())
    }
}

/// The files of a log: the current one, and the old ones in byte order of their names.
#[derive(Drop)]
pub struct LogFiles<A: Allocator = Global> {
    pub current: Vec<u8, A>,
    pub olds: Vec<OldFile<A>, A>,
}

impl<A: Allocator> Model for LogFiles<A> {
    ghost use Rattle.mlog_files.specs.Files.{Files};

    ghost Value = { Files };

    ghost view = { λ files. record { current = files.current.items; olds = files.olds.items } };
}

// Returns whether a name comes before another, in byte order.
fn is_below(first: &[u8], second: &[u8]) -> bool
    ensures { result ≡ is_lt (slice_cmp nat_cmp first.now second.now) }
{
    first.cmp(second).is_lt()
}

// Returns the place of an old file with this name.
fn place_of<A: Allocator>(olds: &[OldFile<A>], name: &[u8]) -> usize
    ensures within { result ≤ length olds.now }
    ensures place { (old : Old) → old.name ≡ name.now
        → with_old old olds.now ≡ take result olds.now ++ old ∷ drop result olds.now }
{
    for (place, old) in olds.iter().enumerate() {
        if !is_below(old.name(), name) {
            return place;
        }
    }
    olds.len()
}

impl<A: Allocator + Clone> LogFiles<A> {
    ghost use Rattle.std.specs.Prelude.{◌≡◌, ◌∷◌, [], length, drop, OnOk, OnErr};
    ghost use Rattle.mlog_files.specs.Files.{Finish, Remove, step_files, files_after, append_steps};
    ghost use Rattle.mlog_files.specs.Named.{greatest_label};

    #[tactic(auto, using(crate::proofs::Kept::appended_files))]
    pub(crate) fn append(&mut self, piece: &[u8]) -> Result<(), AllocError>
        ensures ok { OnOk result (self.new ≡ files_after (append_steps piece.now) self.old) }
        ensures err { OnErr result (self.new ≡ self.old) }
    {
        self.current.extend_from_slice(piece)
    }

    // Makes the current file the old file of a label.
    pub(crate) fn finish(&mut self, label: &Label) -> Result<(), AllocError>
        ensures ok { OnOk result (self.new ≡ step_files (Finish label.now) self.old) }
        ensures err { OnErr result (self.new ≡ self.old) }
    {
        let begun = Vec::new(self.olds.allocator().clone()?);
        let mut name = Vec::new(self.olds.allocator().clone()?);
        name.extend_from_slice(&text(label))?;
        name.extend_from_slice(b".s")?;
        self.olds.reserve(1)?;
        let place = place_of(&self.olds, &name);
        let bytes = mem::replace(&mut self.current, begun);
        match self.olds.insert(place, OldFile { name, bytes }) {
            Ok(()) => Ok(()),
            Err(_) => unreachable!(),
        }
    }

    pub(crate) fn remove_smallest(&mut self)
        ensures { self.new ≡ step_files Remove self.old }
    {
        if !self.olds.is_empty() {
            self.olds.remove(0);
        }
    }

    pub(crate) fn last_label(&self) -> Option<Label>
        ensures { result ≡ greatest_label self.now.olds }
    {
        let mut greatest = None;
        for old in &self.olds {
            greatest = later_of(greatest, old.label());
        }
        greatest
    }
}
