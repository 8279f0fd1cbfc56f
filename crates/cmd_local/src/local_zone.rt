//! The time zone of a computer.
ghost use Rattle.std.specs.Prelude.{◌≡◌};
ghost use Rattle.jiff_core.specs.Timestamp.{nanos_of_seconds};
ghost use Rattle.cmd_local.specs.Zones.{nearest_second, zone_ahead};

use crate::zone::Zone;
use jiff::Timestamp;
use jiff::tz::{TimeZone, Tzif};

/// The first and the last second of Unix time for which the offset of a zone is looked up. Earlier seconds have the
/// offset of the first one, and later seconds that of the last one.
const FIRST: i64 = -377_705_023_201;

const LAST: i64 = 253_402_207_200;

/// A time zone: UTC, the table of a zone's file, or a POSIX rule.
#[derive(Drop)]
pub enum LocalZone {
    Utc,
    Table(Tzif),
    Rule(TimeZone<'static>),
}

/// Returns the instant of a second, or the nearest one that can be looked up.
fn nearest(second: i64) -> Timestamp
    ensures { result.nanosecond ≡ nanos_of_seconds (nearest_second second) }
{
    Timestamp::from_second(second.clamp(FIRST, LAST)).unwrap()
}

impl Zone for LocalZone {
    ghost ahead_at = { zone_ahead };

    fn ahead(&self, second: i64) -> i32 {
        let at = nearest(second);
        match self {
            LocalZone::Utc => 0,
            LocalZone::Table(table) => TimeZone::tzif(table).to_offset(at).seconds(),
            LocalZone::Rule(rule) => rule.to_offset(at).seconds(),
        }
    }
}
