//! The parts that the host has, as a list.
ghost use Rattle.std.specs.Prelude.{◌≡◌, ◌<◌, ◌++◌, ◌↔◌, [], ◌∷◌, IsTrue, Err, IfOk, OnOk, OnErr, MatchOption};
ghost use Rattle.std.specs.Prelude.{length, map};
ghost use Rattle.std.specs.Prelude.{false, slice_index_or};
ghost use Rattle.sup_core.specs.History.{state_of};
ghost use Rattle.std.specs.List.{All, list_any};
ghost use Rattle.scan_table.specs.Table.{is_at};
ghost use Rattle.svc_host.specs.Parts.{AreHeard, HostPart, IsFullAt, IsHearing, IsNowhere, IsPlace, IsPost, IsReading};
ghost use Rattle.svc_host.specs.Parts.{IsGoneIfEnded, RunsHere, count_running, history_of, losses_in, running_ids};
ghost use Rattle.svc_host.specs.Parts.{runs_at, service_runs, stays, without_loss};
ghost use Rattle.svc_host.specs.Ending.{IsSight};

use crate::ending::ProcessSight;
use crate::host::PostFault;
use crate::part::{Loss, Part};
use scan_table::{PartId, Role};
use std::alloc::{AllocError, Global};
use sup_core::Machine;
use svc_house::Runtime;
use tai_status::View;

/// Returns whether it is this part.
fn is_part<R: Runtime>(part: &Part<R>, id: PartId) -> bool
    ensures { IsTrue result ↔ (part.now.id ≡ id) }
{
    part.id() == id
}

/// Returns the place of a part.
pub(crate) fn place_of<R: Runtime>(parts: &[Part<R>], id: PartId) -> Option<usize>
    ensures { MatchOption result (IsNowhere id parts.now) (λ place. IsPlace id parts.now place) }
{
    for place in 0..parts.len() {
        if is_part(&parts[place], id) {
            return Some(place);
        }
    }
    None
}

/// Posts a control byte to a part.
pub(crate) fn post_to<R: Runtime>(
    rt: &R,
    parts: &mut Vec<Part<R>>,
    id: PartId,
    byte: u8,
) -> Result<(), PostFault>
    ensures there { (result ≡ Err PostFault.NoSuchPart) ↔ IsNowhere id parts.old.items }
    ensures posted { OnOk result (IsPost parts.old.items id byte parts.new.items) }
    ensures full { (result ≡ Err PostFault.Full) → IsFullAt id parts.old.items }
    ensures unchanged { OnErr result (parts.new.items ≡ parts.old.items) }
{
    let Some(place) = place_of(parts, id) else {
        return Err(PostFault::NoSuchPart);
    };
    match parts[place].post(rt, byte) {
        Ok(()) => Ok(()),
        Err(_full) => Err(PostFault::Full),
    }
}

/// Returns the machine of the part at a place, after the events that were read.
fn machine_at<R: Runtime>(parts: &mut Vec<Part<R>>, place: usize) -> Machine
    requires { place < length parts.old.items }
    ensures step { IsHearing parts.old.items place parts.new.items }
    ensures reading { (d : HostPart) → result ≡ state_of (history_of (slice_index_or parts.new.items place d)) }
    ensures gone { (d : HostPart) → IsGoneIfEnded (slice_index_or parts.new.items place d) }
{
    parts[place].machine()
}

/// Returns what the status record of a part reports.
pub(crate) fn status_of<R: Runtime>(parts: &mut Vec<Part<R>>, id: PartId) -> Option<View>
    ensures parts { AreHeard parts.old.items parts.new.items }
    ensures there { MatchOption result (IsNowhere id parts.old.items) (λ view. IsReading id parts.new.items view) }
{
    let place = place_of(parts, id)?;
    Some(machine_at(parts, place).view())
}

/// Adds what a part lost when it ended, if it lost anything.
fn add_loss<R: Runtime>(losses: &mut Vec<(PartId, Loss)>, part: &Part<R>) -> Result<(), AllocError>
    ensures { OnOk result (losses.new.items ≡ losses.old.items ++ losses_in (part.now ∷ [])) }
{
    if part.loss().is_some() {
        losses.push((part.id(), part.loss()))?;
    }
    Ok(())
}

/// Returns what the parts lost when they ended and is not forgotten, in the order of the parts.
pub(crate) fn losses<R: Runtime>(
    alloc: Global,
    parts: &[Part<R>],
) -> Result<Vec<(PartId, Loss)>, AllocError>
    ensures { IfOk result (λ losses. losses.items ≡ losses_in parts.now) }
{
    let mut losses = Vec::new(alloc);
    for part in parts {
        add_loss(&mut losses, part)?;
    }
    Ok(losses)
}

/// Forgets what the parts lost when they ended.
pub(crate) fn forget_losses<R: Runtime>(parts: &mut Vec<Part<R>>)
    ensures { parts.new.items ≡ map without_loss parts.old.items }
{
    for place in 0..parts.len() {
        parts[place].forget_loss();
    }
}

/// Returns how many parts run.
pub(crate) fn running<R: Runtime>(parts: &[Part<R>]) -> usize
    ensures { result ≡ count_running parts.now }
{
    parts.iter().filter(|part| !part.has_ended()).count()
}

/// Returns what is seen of the process of the part with this role in a slot.
pub(crate) fn sight_at<R: Runtime>(parts: &mut Vec<Part<R>>, slot: u64, role: Role) -> ProcessSight
    ensures { IsSight slot role parts.old.items parts.new.items result }
{
    match place_at(parts, slot, role) {
        Some(place) => parts[place].sight(),
        None => ProcessSight::Absent,
    }
}

/// Returns whether it is the part with this role in a slot, and runs.
fn runs_at<R: Runtime>(part: &Part<R>, slot: u64, role: Role) -> bool
    ensures { result ≡ runs_at slot role part.now }
{
    is_of(
        &part.id(),
        PartId {
            slot,
            role,
            life: 0,
        },
    ) && !part.has_ended()
}

/// Returns the place of the part with this role in a slot, if it runs.
fn place_at<R: Runtime>(parts: &[Part<R>], slot: u64, role: Role) -> Option<usize>
    ensures { MatchOption result (All (λ (part : HostPart). runs_at slot role part ≡ false) parts.now)
        (λ place. RunsHere slot role parts.now place) }
{
    for place in 0..parts.len() {
        if runs_at(&parts[place], slot, role) {
            return Some(place);
        }
    }
    None
}

/// Returns whether the service itself runs in a slot.
pub(crate) fn service_runs<R: Runtime>(parts: &[Part<R>], slot: u64) -> bool
    ensures { result ≡ service_runs slot parts.now }
{
    for part in parts {
        if runs_at(part, slot, Role::Main) {
            return true;
        }
    }
    false
}

/// Adds a part, if it runs.
fn add_running<R: Runtime>(ids: &mut Vec<PartId>, part: &Part<R>) -> Result<(), AllocError>
    ensures { OnOk result (ids.new.items ≡ ids.old.items ++ running_ids (part.now ∷ [])) }
{
    if !part.has_ended() {
        ids.push(part.id())?;
    }
    Ok(())
}

/// Returns the parts that run.
pub(crate) fn running_ids<R: Runtime>(
    alloc: Global,
    parts: &[Part<R>],
) -> Result<Vec<PartId>, AllocError>
    ensures { IfOk result (λ ids. ids.items ≡ running_ids parts.now) }
{
    let mut ids = Vec::with_capacity(alloc, parts.len())?;
    for part in parts {
        add_running(&mut ids, part)?;
    }
    Ok(ids)
}

/// Returns the parts that run and owe what they could not write.
pub(crate) fn owing_ids<R: Runtime>(
    alloc: Global,
    parts: &[Part<R>],
) -> Result<Vec<PartId>, AllocError> {
    let mut ids = Vec::new(alloc);
    for part in parts {
        if part.owes() {
            ids.push(part.id())?;
        }
    }
    Ok(ids)
}

/// Returns whether any part runs and owes what it could not write.
pub(crate) fn any_owes<R: Runtime>(parts: &[Part<R>]) -> bool {
    parts.iter().any(|part| part.owes())
}

/// Returns whether a part has the slot and the role of another.
fn is_of(other: &PartId, id: PartId) -> bool
    ensures { result ≡ is_at other.now id.slot id.role }
{
    match id.role {
        Role::Main => matches!(other.role, Role::Main) && other.slot == id.slot,
        Role::Log => matches!(other.role, Role::Log) && other.slot == id.slot,
    }
}

/// Returns whether one of these parts has the slot and the role of a part.
fn restarts_in(ids: &[PartId], id: PartId) -> bool
    ensures { result ≡ list_any (λ other. is_at other id.slot id.role) ids.now }
{
    for other in ids {
        if is_of(other, id) {
            return true;
        }
    }
    false
}

/// Returns whether a part stays at a scan: its slot is not dropped, and it does not restart.
pub(crate) fn stays(id: PartId, drops: &[u64], restarts: &[PartId]) -> bool
    ensures { result ≡ stays drops.now restarts.now id }
{
    !drops.contains(&id.slot) && !restarts_in(restarts, id)
}
