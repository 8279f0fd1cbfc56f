//! What a scan begins, and the parts after it.
ghost use Rattle.std.specs.Prelude.{◌≡◌, ◌+◌, ◌<◌, ◌≤◌, ◌++◌, map, not, IfOk, OnOk, vec_len, vec_capacity};
ghost use Rattle.std.specs.List.{filter};
ghost use Rattle.scan_table.specs.Scan.{AreRising};
ghost use Rattle.suite_core.specs.Parts.{is_of, restarted_in};
ghost use Rattle.suite_core.specs.Places;
ghost use Rattle.suite_core.specs.Suite.{beginning, begun_part, begun_out, changed};

use crate::part::SuitePart;
use crate::place::restart_all;
use scan_table::{DirRow, PartId, ScanTable, find_row};
use std::alloc::{AllocError, Allocator};
use suite_lines::Begun;
use tai_status::Label;

/// Returns the `down` for a part from the row of its service.
fn begins_down<A: Allocator + Clone>(table: &ScanTable<A>, rows: &[DirRow<A>], id: PartId) -> bool
    requires { AreRising rows.now }
    ensures { result ≡ (beginning table.now.slots rows.now id).down }
{
    let Some(name) = table.name(id.slot) else {
        return false;
    };
    match find_row(rows, name.as_str()) {
        Some(row) => row.is_down(id.role),
        None => false,
    }
}

/// Begins the parts that a scan starts or restarts, and adds what their beginnings ask for.
pub(crate) fn begin_parts<A: Allocator + Clone>(
    alloc: &A,
    capacity: usize,
    label: Label,
    table: &ScanTable<A>,
    rows: &[DirRow<A>],
    ids: &[PartId],
    begun: &mut Vec<Begun, A>,
) -> Result<Vec<SuitePart<A>, A>, AllocError>
    requires room { 0 < capacity }
    requires limit { capacity ≤ 65536 }
    requires rows { AreRising rows.now }
    ensures parts { IfOk result (λ parts. parts.items
        ≡ map (begun_part capacity label) (map (beginning table.now.slots rows.now) ids.now)) }
    ensures begun { OnOk result (begun.new.items
        ≡ begun.old.items ++ map (begun_out label) (map (beginning table.now.slots rows.now) ids.now)) }
{
    let mut parts = Vec::new(alloc.clone()?);
    for id in ids {
        let down = begins_down(table, rows, *id);
        let (part, said) = SuitePart::begin(alloc.clone()?, capacity, label, *id, down)?;
        parts.push(part)?;
        begun.push(said)?;
    }
    Ok(parts)
}

/// Drops the parts of these slots.
fn keep<A: Allocator>(parts: &mut Vec<SuitePart<A>, A>, dropped: &[u64])
    ensures items { parts.new.items ≡ filter (λ part. not (is_of dropped.now part)) parts.old.items }
    ensures len { vec_len parts.new ≤ vec_len parts.old }
    ensures room { vec_capacity parts.new ≡ vec_capacity parts.old }
{
    parts.retain(|part| !dropped.contains(&part.id().slot));
}

/// Puts parts that restart into their places.
fn restart_in<A: Allocator>(parts: &mut Vec<SuitePart<A>, A>, news: Vec<SuitePart<A>, A>)
    requires { Places.AreRising parts.old.items }
    ensures items { parts.new.items ≡ map (restarted_in news.items) parts.old.items }
    ensures len { vec_len parts.new ≡ vec_len parts.old }
    ensures room { vec_capacity parts.new ≡ vec_capacity parts.old }
{
    restart_all(parts, news);
}

/// Drops the parts of dropped slots, puts restarted parts into their places, and adds started parts at the end.
pub(crate) fn change<A: Allocator>(
    parts: &mut Vec<SuitePart<A>, A>,
    dropped: &[u64],
    started: Vec<SuitePart<A>, A>,
    restarted: Vec<SuitePart<A>, A>,
)
    requires rising { Places.AreRising parts.old.items }
    requires room { vec_len parts.old + vec_len started ≤ vec_capacity parts.old }
    ensures { parts.new.items ≡ changed dropped.now started.items restarted.items parts.old.items }
{
    keep(parts, dropped);
    restart_in(parts, restarted);
    let mut started = started;
    let _ = parts.append(&mut started);
}
