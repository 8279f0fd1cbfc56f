//! Time zones, and the local time of a label.
ghost use Rattle.std.specs.Prelude.{◌≡◌};
ghost use Rattle.cmd_local.specs.Local.{local_text};

pub use crate::civil::TIME_LEN;
use crate::civil::civil_text;
use tai_status::Label;

/// Labels are reserved from this second on.
const RESERVED: u64 = 1 << 63;

/// The second of a label at the beginning of 1970 UTC.
const UNIX_EPOCH: i64 = (1 << 62) + 10;

/// A time zone.
pub trait Zone {
    ghost use Rattle.std.specs.Prelude.{ℤ};

    // the seconds by which clocks are ahead of UTC, at each second of Unix time
    ghost ahead_at: { Self → ℤ → ℤ };

    /// Returns by how many seconds clocks are ahead of UTC at a second of Unix time, which is negative before 1970.
    fn ahead(&self, second: i64) -> i32
        ensures { result ≡ ahead_at self.now second };
}

/// Returns the local time of a label's second.
#[tactic(auto, unfolding(crate::specs::Local::local_text))]
pub fn second_text<Z: Zone>(zone: &Z, sec: u64) -> Option<[u8; TIME_LEN]>
    ensures { result ≡ local_text (Z.ahead_at zone.now) sec }
{
    if sec >= RESERVED {
        return None;
    }
    let unix = sec as i64 - UNIX_EPOCH;
    civil_text(unix + i64::from(zone.ahead(unix)))
}

/// Returns the local time of a label to the second, as in `2026-11-25 01:33:02`. Returns None outside of the years 1900
/// to 9999.
///
/// A label's second is ten more than 2^62 and the second of Unix time, as in daemontools
/// (<https://cr.yp.to/daemontools/tai64nlocal.html>).
pub fn local_time<Z: Zone>(zone: &Z, label: &Label) -> Option<[u8; TIME_LEN]>
    ensures { result ≡ local_text (Z.ahead_at zone.now) label.now.sec }
{
    second_text(zone, label.sec)
}
