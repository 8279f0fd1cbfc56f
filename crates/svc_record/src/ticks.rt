//! The ticks of the kernel's clock, by which processes are known.
ghost use Rattle.std.specs.Prelude.{◌≡◌};
ghost use Rattle.svc_record.specs.Ticks.{tick_at};

use std::time::Duration;

/// The ticks of the kernel's clock in a second (proc(5): `sysconf(_SC_CLK_TCK)` is 100 on Linux).
pub const TICKS: u128 = 100;

/// The nanoseconds in a tick.
const TICK_NANOS: u128 = 1_000_000_000 / TICKS;

/// Returns the tick at this time of the running clock: no process that begins now has an earlier one. The first tick is
/// 1.
pub fn tick_at(now: Duration) -> u64
    ensures { result ≡ tick_at now }
{
    u64::try_from(now.as_nanos() / TICK_NANOS)
        .unwrap_or(u64::MAX)
        .max(1)
}
