//! The phases of supervise.
ghost use Rattle.std.specs.Prelude.{◌≡◌, ◌≤◌, length};
ghost use Rattle.tai_status.specs.Phase.{phase_name, phase_byte, phase_from};

use std::fmt;

/// The phase of supervise, for one service.
#[derive(Clone, Copy, Debug, PartialEq, Eq)]
pub enum Phase {
    /// A start was asked for, and its result is not known yet.
    Starting,
    /// A process was started less than a second ago.
    Settling,
    /// A start failed less than a second ago.
    Resting,
    /// There is a process.
    Up,
    /// There is no process, and none is wanted.
    Down,
    /// There is no process, and supervise is done.
    Gone,
}

/// Returns the name of a phase.
pub fn phase_name(phase: Phase) -> &'static str
    ensures name { result.now ≡ phase_name phase }
    ensures short { length result.now ≤ 8 }
{
    match phase {
        Phase::Starting => "starting",
        Phase::Settling => "settling",
        Phase::Resting => "resting",
        Phase::Up => "up",
        Phase::Down => "down",
        Phase::Gone => "gone",
    }
}

impl fmt::Display for Phase {
    ghost use Rattle.std.specs.Prelude.{Some};
    ghost use Rattle.tai_status.specs.Phase.{phase_name};

    ghost output = { λ s. Some (phase_name s) };

    fn fmt<W: fmt::Write>(&self, f: &mut fmt::Formatter<W>) -> fmt::Result {
        f.write_str(phase_name(*self))
    }
}

/// Returns the number of a phase in a full record.
pub(crate) fn phase_byte(phase: Phase) -> u8
    ensures { result ≡ phase_byte phase }
{
    match phase {
        Phase::Starting => 0,
        Phase::Settling => 1,
        Phase::Resting => 2,
        Phase::Up => 3,
        Phase::Down => 4,
        Phase::Gone => 5,
    }
}

/// Returns the phase with this number.
pub(crate) fn phase_from(byte: u8) -> Option<Phase>
    ensures { result ≡ phase_from byte }
{
    match byte {
        0 => Some(Phase::Starting),
        1 => Some(Phase::Settling),
        2 => Some(Phase::Resting),
        3 => Some(Phase::Up),
        4 => Some(Phase::Down),
        5 => Some(Phase::Gone),
        _ => None,
    }
}
