//! How many descriptors the services of a folder need.
ghost use Rattle.std.specs.Prelude.{◌≡◌};
ghost use Rattle.svscan_rounds.specs.Descriptors.{descriptors_for, descriptors_of, shortage};

use crate::service_set::Shortage;
use scan_table::DirRow;

/// The descriptors that svscan has for itself: the 17 that stay open, and those that its threads open for a moment,
/// when a child starts or a record is written.
const OWN: u64 = 24;

/// The descriptors of a service: its folder, its lock and two sockets.
const SERVICE: u64 = 4;

/// The descriptors of a service with a logger: twice as many, and two ends each for the output of the service and the
/// input of the logger.
const PAIR: u64 = 12;

/// Returns how many descriptors the service of a row needs.
fn descriptors_of(row: &DirRow) -> u64
    ensures { result ≡ descriptors_of row.now }
{
    if !row.is_eligible() {
        0
    } else if row.is_pair() {
        PAIR
    } else {
        SERVICE
    }
}

/// Returns how many descriptors svscan needs for the services of these rows.
fn descriptors_for(rows: &[DirRow]) -> u64
    ensures { result ≡ descriptors_for rows.now }
{
    let mut needed = OWN;
    for row in rows {
        needed = needed.saturating_add(descriptors_of(row));
    }
    needed
}

/// Returns a shortage if too few descriptors are allowed for the services of these rows.
pub fn shortage(rows: &[DirRow], allowed: u64) -> Option<Shortage>
    ensures { result ≡ shortage rows.now allowed }
{
    let needed = descriptors_for(rows);
    if allowed < needed {
        Some(Shortage { needed, allowed })
    } else {
        None
    }
}
