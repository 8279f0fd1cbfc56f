//! What the kernel's line about a process reports, and what follows from that.
ghost use Rattle.std.specs.Prelude.{◌≡◌, ◌<◌, ◌^◌, ℕ, Some, IfSome, option_copied, slice_get};
ghost use Rattle.sup_core.specs.Reading.{fields};
ghost use Rattle.svc_record.specs.Stats.{SaysLiving, behind_name, is_dead};

use crate::leftover::Seen;
use sup_core::{read_number, split_field};

/// The number of bytes that are read of a process's line: enough to reach the tick at which it began, whatever the
/// program's name.
pub const STAT_BYTES: usize = 512;

/// What the line about a process reports (proc(5), `stat`).
#[derive(Clone, Copy, Debug, PartialEq, Eq)]
pub struct Stat {
    /// Whether the process died and its parent has not waited for it.
    pub has_died: bool,
    /// The number of its parent.
    pub parent: u64,
    /// Its session.
    pub session: u64,
    /// The tick of the kernel's clock at which it began.
    pub tick: u64,
}

/// Returns what comes after the last parenthesis of a process's line, which ends the program's name.
fn behind_name(line: &[u8]) -> &[u8]
    ensures { result.now ≡ behind_name line.now }
{
    let mut from = line.len();
    while from > 0 && line[from - 1] != b')' {
        from -= 1;
    }
    &line[from..]
}

/// Returns the field at a place after the name. The process's state is the first one.
fn field_at(behind: &[u8], place: usize) -> Option<&[u8]>
    ensures { option_copied result ≡ slice_get (fields behind.now) place }
{
    let mut rest = behind;
    for passed in 0..place {
        rest = split_field(rest).1?;
    }
    Some(split_field(rest).0)
}

/// Returns whether a process in this state is a zombie or dead.
fn is_dead(state: &[u8]) -> bool
    ensures { result ≡ is_dead state.now }
{
    match state {
        [letter] => *letter == b'Z' || *letter == b'X',
        _ => false,
    }
}

/// Returns the tick at which the process of a line began, if it lives (proc(5), `stat`).
pub fn living_tick(line: &[u8]) -> Option<u64>
    ensures reported { IfSome result (λ tick. SaysLiving line.now tick) }
    ensures only { (tick : ℕ) → tick < 2 ^ 64 → SaysLiving line.now tick → result ≡ Some tick }
{
    let behind = behind_name(line);
    if is_dead(field_at(behind, 1)?) {
        return None;
    }
    read_number(field_at(behind, 20)?)
}

impl Stat {
    ghost use Rattle.std.specs.Prelude.{◌≡◌, ◌↔◌, IsTrue, IfSome, Some};
    ghost use Rattle.svc_record.specs.Stats.{FitsStat, SaysStat, living_tick, seen_as};

    /// Reads what the line about a process reports. Returns None if it is not such a line.
    pub fn read(line: &[u8]) -> Option<Stat>
        ensures reported { IfSome result (λ stat. SaysStat line.now stat) }
        ensures only { (stat : Stat) → FitsStat stat → SaysStat line.now stat → result ≡ Some stat }
    {
        let behind = behind_name(line);
        Some(Stat {
            has_died: is_dead(field_at(behind, 1)?),
            parent: read_number(field_at(behind, 2)?)?,
            session: read_number(field_at(behind, 4)?)?,
            tick: read_number(field_at(behind, 20)?)?,
        })
    }

    /// Returns whether this number is that of the process's parent.
    pub fn is_child_of(&self, parent: u32) -> bool
        ensures { IsTrue result ↔ (self.now.parent ≡ parent) }
    {
        self.parent == u64::from(parent)
    }

    /// Returns the tick at which the process began, if it lives.
    pub fn living_tick(&self) -> Option<u64>
        ensures { result ≡ living_tick self.now }
    {
        if self.has_died { None } else { Some(self.tick) }
    }

    /// Returns whether the process lives, and is the one that began at this tick.
    pub fn lives_since(&self, tick: u64) -> bool
        ensures { IsTrue result ↔ (living_tick self.now ≡ Some tick) }
    {
        self.living_tick() == Some(tick)
    }

    /// Returns the process with this number, as a look at all processes sees it.
    pub fn seen(&self, pid: u32) -> Seen
        ensures { result ≡ seen_as pid self.now }
    {
        Seen {
            pid,
            parent: self.parent,
            tick: self.tick,
            session: self.session,
            has_died: self.has_died,
            is_here: false,
            is_known: false,
            is_late: false,
            is_elsewhere: false,
            neighbour: 0,
        }
    }
}
