//! The parts whose folders are kept.
ghost use Rattle.std.specs.Prelude.{◌≡◌, ◌<◌, MatchOption};
ghost use mathlib.Core.List.{IsPrefix};
ghost use Rattle.svc_maker.specs.Admission.{AdmitsEach, refusals};
ghost use Rattle.svc_maker.specs.Making.{IsNowhere, IsPlace};
ghost use Rattle.svc_maker.specs.Parts.{count_new, is_batch};

use crate::part_system::{NotAdmitted, PartSystem};
use scan_table::PartId;
use std::alloc::Global;
use std::marker::Model;
use svc_host::{PartFault, Unmade};
use svc_house::ControlSender;
use tai_status::Cause;

/// How many parts may have begun and wait to be admitted to the door, before another part is made. A start takes less
/// than two milliseconds, so that a service is served within 100 ms after its start, however many there are.
const BATCH: usize = 32;

/// The folder of a part, open and locked. Contracts see the path through which it was opened (`path`).
pub trait LockedFolder {
    ghost use Rattle.std.specs.Prelude.{ℕ, List};

    ghost path: { Self → List ℕ };
}

/// A part that the maker has made, and its folder, which is kept.
#[derive(Drop)]
pub(crate) struct KeptFolder<F: LockedFolder + Drop> {
    pub(crate) part: PartId,
    pub(crate) folder: F,
    // The sender for its control bytes, while the part waits to be admitted to the door.
    sender: Option<ControlSender>,
    // Why the door last refused it.
    refused: Option<Cause>,
}

impl<F: LockedFolder + Drop> Model for KeptFolder<F> {
    ghost use Rattle.std.specs.Prelude.{is_some};
    ghost use Rattle.svc_maker.specs.Making.{KeptPart};

    ghost Value = { KeptPart };

    ghost view = { λ kept. record {
      part = kept.part;
      path = F.path kept.folder;
      waits = is_some kept.sender;
      refused = kept.refused;
    } };
}

impl<F: LockedFolder + Drop> KeptFolder<F> {
    ghost use Rattle.std.specs.Prelude.{◌≡◌, Some, None, true, is_some};
    ghost use Rattle.svc_maker.specs.Admission.{Admits};
    ghost use Rattle.svc_maker.specs.Parts.{is_new};

    /// Makes a part that waits to be admitted to the door. Its control bytes will come through `sender`.
    pub(crate) fn new(part: PartId, folder: F, sender: ControlSender) -> KeptFolder<F>
        ensures { result ≡ record { part = part; path = F.path folder; waits = true; refused = None } }
    {
        KeptFolder {
            part,
            folder,
            sender: Some(sender),
            refused: None,
        }
    }

    /// Returns whether it waits to be admitted to the door.
    pub(crate) fn waits(&self) -> bool
        ensures { result ≡ self.now.waits }
    {
        self.sender.is_some()
    }

    /// Returns whether it waits to be admitted and was not refused yet.
    fn is_new(&self) -> bool
        ensures { result ≡ is_new self.now }
    {
        self.sender.is_some() && self.refused.is_none()
    }

    /// Returns why the door last refused it.
    pub(crate) fn refused(&self) -> Option<Cause>
        ensures { result ≡ self.now.refused }
    {
        self.refused
    }

    /// Admits it to the door of a system, if it waits for that.
    pub(crate) fn admit<S: PartSystem<Folder = F>>(&mut self, system: &mut S)
        ensures { Admits self.old self.new (S.calls system.old) (S.calls system.new) }
    {
        let Some(sender) = self.sender.take() else {
            return;
        };
        match system.admit(self.part.life, &self.folder, sender) {
            Ok(()) => self.refused = None,
            Err(NotAdmitted { sender, cause }) => {
                system.dismiss(self.part.life, &self.folder);
                self.sender = Some(sender);
                self.refused = Some(cause);
            }
        }
    }
}

/// Returns the place of a part.
pub(crate) fn place_of<F: LockedFolder + Drop>(
    kept: &[KeptFolder<F>],
    part: PartId,
) -> Option<usize>
    ensures { MatchOption result (IsNowhere part kept.now) (λ place. IsPlace part kept.now place) }
{
    for place in 0..kept.len() {
        let one = &kept[place];
        if one.part == part {
            return Some(place);
        }
    }
    None
}

/// Returns how many of these parts are new.
fn count_new<F: LockedFolder + Drop>(kept: &[KeptFolder<F>]) -> usize
    ensures { result ≡ count_new kept.now }
{
    kept.iter().filter(|one| one.is_new()).count()
}

/// Returns whether so many of these parts are new that they are to be admitted before another part is made.
pub(crate) fn is_batch<F: LockedFolder + Drop>(kept: &[KeptFolder<F>]) -> bool
    ensures { result ≡ is_batch kept.now }
{
    count_new(kept) >= BATCH
}

/// Admits each of these parts that waits to the door of a system.
pub(crate) fn admit_each<S: PartSystem>(kept: &mut [KeptFolder<S::Folder>], system: &mut S)
    ensures { AdmitsEach kept.old kept.new (S.calls system.old) (S.calls system.new) }
{
    for place in 0..kept.len() {
        kept[place].admit(system);
    }
}

/// Returns the parts that the door refused: as many as there is memory for.
pub(crate) fn refusals_in<F: LockedFolder + Drop>(
    alloc: Global,
    kept: &[KeptFolder<F>],
) -> Vec<Unmade>
    ensures { IsPrefix result.items (refusals kept.now) }
{
    let mut all = Vec::new(alloc);
    for one in kept {
        if let Some(cause) = one.refused() {
            if all.reserve(1).is_err() {
                return all;
            }
            let fault = PartFault::Refused(cause);
            all.push_reserved(Unmade {
                part: one.part,
                fault,
            });
        }
    }
    all
}
