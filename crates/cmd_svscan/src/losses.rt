//! What a round finds about parts that ended and parts that could not be made, and what svscan's own end finds.
ghost use Rattle.std.specs.Prelude.{◌≡◌, map, IfErr, IfOk};
ghost use mathlib.Core.List.{IsPrefix};
ghost use Rattle.svc_host.specs.Parts.{losses_in, running_ids};
ghost use Rattle.cmd_svscan.specs.Losses.{name_at, shown_name, unmade_in, unmade_of, untaken_in, untraced_in};
ghost use Rattle.cmd_svscan.specs.Leftovers.{AreRead, AreTaken, FindsFirstUnlogged, FindsRemaining, FindsUnlogged};
ghost use Rattle.cmd_svscan.specs.Leftovers.{part_of, remaining_in, unlogged_in};

use scan_table::PartId;
use std::alloc::{AllocError, Global};
use svc_host::{Host, Loss, Maker, Runtime};
use svc_maker::part_name;
use svscan_rounds::{Remaining, Unfinished, Unlogged, UnmadePart, Untaken};
use tai_status::{Name, Names, View};

/// Returns the name of the service in a slot. It is empty if there is none.
fn name_at<M: Maker + Drop, R: Runtime>(host: &Host<M, R>, slot: u64) -> &str
    ensures { result.now ≡ name_at host.now.table.slots slot }
{
    match host.name(slot) {
        Some(name) => name.as_str(),
        None => "",
    }
}

/// Returns the name by which messages show a part.
fn shown_name<M: Maker + Drop, R: Runtime>(
    alloc: Global,
    host: &Host<M, R>,
    part: PartId,
) -> Result<Name, AllocError>
    ensures { IfOk result (λ name. name ≡ shown_name host.now.table.slots part) }
{
    Ok(Name::new(part_name(alloc, name_at(host, part.slot), part.role)?))
}

/// Returns the control bytes that parts which ended did not take.
fn untaken_in<M: Maker + Drop, R: Runtime>(
    alloc: Global,
    host: &Host<M, R>,
    losses: &[(PartId, Loss)],
) -> Result<Vec<Untaken>, AllocError>
    ensures { IfOk result (λ untaken. untaken.items ≡ untaken_in host.now.table.slots losses.now) }
{
    let mut untaken = Vec::new(alloc);
    for (part, loss) in losses {
        if loss.untaken > 0 {
            let name = shown_name(alloc, host, *part)?;
            let count = loss.untaken;
            untaken.push(Untaken { name, count })?;
        }
    }
    Ok(untaken)
}

/// Returns the parts whose last trace was not kept.
fn untraced_in<M: Maker + Drop, R: Runtime>(
    alloc: Global,
    host: &Host<M, R>,
    losses: &[(PartId, Loss)],
) -> Result<Names, AllocError>
    ensures { IfOk result (λ untraced. untraced ≡ untraced_in host.now.table.slots losses.now) }
{
    let mut untraced = Vec::new(alloc);
    for (part, loss) in losses {
        if loss.lacks_trace {
            untraced.push(shown_name(alloc, host, *part)?)?;
        }
    }
    Ok(Names::from_vec(untraced))
}

/// Returns what was lost when parts ended and is not forgotten: the control bytes that were not taken, and the parts
/// whose last trace was not kept.
pub(crate) fn losses_of<M: Maker + Drop, R: Runtime>(
    alloc: Global,
    host: &Host<M, R>,
) -> Result<(Vec<Untaken>, Names), AllocError>
    ensures untaken { IfOk result (λ found.
        found.0.items ≡ untaken_in host.now.table.slots (losses_in host.now.parts)) }
    ensures untraced { IfOk result (λ found.
        found.1 ≡ untraced_in host.now.table.slots (losses_in host.now.parts)) }
{
    let losses = host.losses()?;
    let untaken = untaken_in(alloc, host, &losses)?;
    let untraced = untraced_in(alloc, host, &losses)?;
    Ok((untaken, untraced))
}

/// Returns a part that could not be made, with its name.
fn unmade_of<M: Maker + Drop, R: Runtime>(
    alloc: Global,
    host: &Host<M, R>,
    one: &svc_host::Unmade,
) -> Result<UnmadePart, AllocError>
    ensures { IfOk result (λ unmade. unmade ≡ unmade_of host.now.table.slots one.now) }
{
    Ok(UnmadePart {
        name: shown_name(alloc, host, one.part)?,
        fault: one.fault,
    })
}

/// Returns the parts that could not be made, with their names: as many as there is memory for, because the next round
/// makes them or fails again.
pub(crate) fn unmade_in<M: Maker + Drop, R: Runtime>(
    alloc: Global,
    host: &Host<M, R>,
    failed: &[svc_host::Unmade],
) -> Vec<UnmadePart>
    ensures { IsPrefix result.items (unmade_in host.now.table.slots failed.now) }
{
    let mut all = Vec::new(alloc);
    for one in failed {
        let Ok(unmade) = unmade_of(alloc, host, one) else {
            return all;
        };
        if all.reserve(1).is_err() {
            return all;
        }
        all.push_reserved(unmade);
    }
    all
}

/// Reads the status of each part that runs, one after the other.
fn statuses<M: Maker + Drop, R: Runtime>(
    alloc: Global,
    host: &mut Host<M, R>,
) -> Result<Vec<(PartId, View)>, AllocError>
    ensures each { IfOk result (λ read. map part_of read.items ≡ running_ids host.old.parts) }
    ensures read { IfOk result (λ read. AreRead read.items host.old.parts host.new.parts) }
    ensures table { host.new.table ≡ host.old.table }
{
    let parts = host.running_parts()?;
    let mut read = Vec::new(alloc);
    for part in &parts {
        let Some(view) = host.status(*part) else {
            continue;
        };
        read.push((*part, view))?;
    }
    Ok(read)
}

/// Returns the processes of parts, from what was read of each.
fn remaining_in<M: Maker + Drop, R: Runtime>(
    alloc: Global,
    host: &Host<M, R>,
    read: &[(PartId, View)],
) -> Result<Vec<Remaining>, AllocError>
    ensures { IfOk result (λ left. left.items ≡ remaining_in host.now.table.slots read.now) }
{
    let mut left = Vec::new(alloc);
    for (part, view) in read {
        if view.pid > 0 {
            let name = shown_name(alloc, host, *part)?;
            let pid = view.pid;
            left.push(Remaining { name, pid })?;
        }
    }
    Ok(left)
}

/// Returns the processes of the parts that run.
pub(crate) fn remaining<M: Maker + Drop, R: Runtime>(
    alloc: Global,
    host: &mut Host<M, R>,
) -> Result<Vec<Remaining>, AllocError>
    ensures { IfOk result (λ left. FindsRemaining host.old left.items host.new) }
{
    let read = statuses(alloc, host)?;
    remaining_in(alloc, host, &read)
}

/// Returns for each pair its slot and how many bytes did not reach its logger, as the host reports them: for all pairs,
/// or for as many as there is memory for.
fn take_all_lost<M: Maker + Drop, R: Runtime>(
    rt: &R,
    alloc: Global,
    host: &mut Host<M, R>,
) -> Vec<(u64, u64)>
    ensures taken { AreTaken result.items host.old host.new }
    ensures table { host.new.table ≡ host.old.table }
{
    let mut all = Vec::new(alloc);
    for _ in rt.forever() {
        if all.reserve(1).is_err() {
            break;
        }
        let Some(lost) = host.take_lost() else {
            break;
        };
        all.push_reserved(lost);
    }
    all
}

/// Returns what did not reach the loggers, for each service, as far as there is memory for it.
fn unlogged_in<M: Maker + Drop, R: Runtime>(
    alloc: Global,
    host: &Host<M, R>,
    lost: &[(u64, u64)],
) -> Result<Vec<Unlogged>, Vec<Unlogged>>
    ensures whole { IfOk result (λ all. all.items ≡ unlogged_in host.now.table.slots lost.now) }
    ensures first { IfErr result (λ some. IsPrefix some.items (unlogged_in host.now.table.slots lost.now)) }
{
    let mut all = Vec::new(alloc);
    for (slot, count) in lost {
        let count = *count;
        if count > 0 {
            let Ok(name) = String::from_str(alloc, name_at(host, *slot)) else {
                return Err(all);
            };
            if all.reserve(1).is_err() {
                return Err(all);
            }
            let name = Name::new(name);
            let what = Unfinished::Bytes(count);
            all.push_reserved(Unlogged { name, what });
        }
    }
    Ok(all)
}

/// Returns what did not reach the loggers, for each service, as far as there is memory for it.
pub(crate) fn unlogged<M: Maker + Drop, R: Runtime>(
    rt: &R,
    alloc: Global,
    host: &mut Host<M, R>,
) -> Result<Vec<Unlogged>, Vec<Unlogged>>
    ensures whole { IfOk result (λ all. FindsUnlogged host.old all.items host.new) }
    ensures first { IfErr result (λ some. FindsFirstUnlogged host.old some.items host.new) }
{
    let lost = take_all_lost(rt, alloc, host);
    unlogged_in(alloc, host, &lost)
}

/// Adds the parts whose records could not be written: all, or as many as there is memory for.
pub(crate) fn add_unwritten<M: Maker + Drop, R: Runtime>(
    alloc: Global,
    host: &Host<M, R>,
    all: &mut Vec<Unlogged>,
) -> Result<(), AllocError>
    ensures { IsPrefix all.old.items all.new.items }
{
    for part in &host.owing_parts()? {
        let name = shown_name(alloc, host, *part)?;
        let what = Unfinished::Records;
        all.push(Unlogged { name, what })?;
    }
    Ok(())
}
