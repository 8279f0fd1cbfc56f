use scan_table::{DirRow, PartId, Role, ScanFault, ScanTable};
use std::alloc::{AllocError, Allocator, Global};
use std::test::Fail;
use tai_status::Name;
use test_base::{Scarce, check, refuse_in_turn};

/// Returns directories with these names, with a log if the name begins with `p`.
fn rows<A: Allocator + Clone>(alloc: A, names: &[&str]) -> Result<Vec<DirRow<A>, A>, AllocError> {
    let mut rows = Vec::new(alloc.clone()?);
    for name in names {
        rows.push(DirRow {
            name: Name::new(String::from_str(alloc.clone()?, name)?),
            is_dir: true,
            has_log: name.starts_with("p"),
            down: false,
            log_down: false,
        })?;
    }
    Ok(rows)
}

fn part(slot: u64, role: Role, life: u64) -> PartId {
    PartId { slot, role, life }
}

/// A table with one number left has too few for a service, which takes two. A table with two numbers left has enough.
#[test]
fn numbers_run_out(rt: HostRuntime) -> Result<(), Fail> {
    let found = rows(rt.alloc(), &["a"])?;
    let mut table = ScanTable::new(rt.alloc(), u64::MAX - 1)?;
    assert_eq!(rt;
        table.scan(found.as_slice()).err(),
        Some(ScanFault::Exhausted)
    );
    assert_eq!(rt; table.slots(), 0);
    let mut table = ScanTable::new(rt.alloc(), u64::MAX - 2)?;
    let out = table.scan(found.as_slice())?;
    let started = part(u64::MAX - 2, Role::Main, u64::MAX - 1);
    assert_eq!(rt; out.starts.as_slice(), [started].as_slice());
    Ok(())
}

/// Makes a scan that starts, restarts and drops, and a copy of the table. After a refused growth nothing has changed,
/// and the same scan gives what it gives without a refusal.
fn scanning(memory: &Scarce<Global>, growths: u64) -> Result<bool, Fail> {
    let mut table = ScanTable::new(memory, 0)?;
    table.scan(rows(memory, &["p", "q"])?.as_slice())?;
    let logger = part(0, Role::Log, 2);
    let ended = table.ended(logger) && table.ended(part(3, Role::Main, 4));
    check("both were there", ended)?;
    let found = rows(memory, &["p", "r"])?;
    memory.give(growths);
    let first = table.scan(found.as_slice());
    let refused = memory.lift();
    check("want of memory", first.is_err() == refused)?;
    let out = match first {
        Ok(out) => out,
        Err(fault) => {
            check("and nothing else", fault == ScanFault::OutOfMemory)?;
            check("what was", table.slots() == 2 && table.name(3).is_some())?;
            table.scan(found.as_slice())?
        }
    };
    let restarts = [part(0, Role::Log, 5)];
    check("restarts", out.restarts.as_slice() == restarts.as_slice())?;
    let starts = [part(6, Role::Main, 7)];
    check("starts", out.starts.as_slice() == starts.as_slice())?;
    check("drops", out.drops.as_slice() == [3].as_slice())?;
    check("slots", table.slots() == 2)?;
    memory.give(growths);
    let is_refused = table.copy().is_err();
    let no_copy = memory.lift();
    check("a copy", is_refused == no_copy)?;
    let name = table.copy()?.name(6).map(Name::as_str) == Some("r");
    check("the copy", name)?;
    Ok(refused || no_copy)
}

#[test]
fn each_growth_of_a_scan_is_refused_in_turn(rt: HostRuntime) -> Result<(), Fail> {
    refuse_in_turn(rt.alloc(), scanning)
}
