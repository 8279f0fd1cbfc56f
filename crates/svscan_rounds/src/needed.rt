//! The names whose rows a scan needs.
ghost use Rattle.std.specs.Prelude.{◌≡◌, map, string_bytes, IfOk};
ghost use Rattle.scan_table.specs.Slots.{is_service_name};
ghost use Rattle.svscan_rounds.specs.Needed.{NeedsNoOtherRow, needed};

use scan_table::ScanTable;
use std::alloc::{AllocError, Global};
use svc_host::{Host, Maker, Runtime};

/// Returns whether a service may have this name: it is not empty, and does not begin with a dot.
pub(crate) fn is_service_name(name: &str) -> bool
    ensures { result ≡ is_service_name name.now }
{
    !matches!(name.as_bytes(), [] | [b'.', ..])
}

/// Returns those of some names whose rows a scan of a host needs (`others_need_no_row`). It leaves out names that no
/// service may have, and the names of services whose parts all run.
pub fn needed_names<M: Maker + Drop, R: Runtime>(
    alloc: Global,
    host: &Host<M, R>,
    names: &[String],
) -> Result<Vec<String>, AllocError>
    ensures { IfOk result (λ found.
        map string_bytes found.items ≡ needed host.now.table.slots (map string_bytes names.now)) }
{
    let mut found = Vec::new(alloc);
    for name in names {
        if is_service_name(name.as_str()) && !host.is_whole(name.as_str()) {
            found.push(String::from_str(alloc, name.as_str())?)?;
        }
    }
    Ok(found)
}

/// A law: a scan does the same with only the rows of the names that it needs. Whoever lists a folder therefore need not
/// look at services whose parts all run, nor at names that begin with a dot.
pub fn others_need_no_row(table: &ScanTable)
    ensures { NeedsNoOtherRow table.now }
{
    table.whole_need_no_row();
}
