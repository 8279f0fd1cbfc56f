//! The status of svscan itself.
ghost use Rattle.std.specs.Prelude.{◌≡◌};
ghost use Rattle.cmd_svscan.specs.OwnStatus.{own_status};

use cmd_base::SystemClock;
use std::time::Clock;
use tai_status::{Full, Label, Phase, TimeSource, View, Want, encode_full};

/// Returns the status of svscan itself since this moment, with the process of this number; 0 means that it is gone.
pub(crate) fn own_status(label: Label, pid: u32) -> Full
    ensures { result ≡ own_status label pid }
{
    let view = View {
        label,
        pid,
        paused: false,
        want: Want::Up,
    };
    let (phase, exiting) = if pid > 0 {
        (Phase::Up, false)
    } else {
        (Phase::Gone, true)
    };
    Full::new(view, phase, exiting).unwrap()
}

/// Returns the status record of svscan itself as of now, with the process of this number; 0 means that it is gone.
pub(crate) fn own_record<R: Clock + Drop>(rt: R, pid: u32) -> [u8; 20] {
    encode_full(&own_status(SystemClock::new(rt).now(), pid))
}
