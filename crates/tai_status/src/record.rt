ghost use Rattle.std.specs.Prelude.{◌≡◌, ◌↔◌, ◌<◌, true, IsSome, IfSome};
ghost use Rattle.tai_status.specs.Record.{IsRecord, status_record, want_byte};

use crate::label::{Label, pack};
use std::marker::Model;
use thiserror::Error;

/// What is wanted of a service: to be up, to be down, or to run once.
#[derive(Clone, Copy, Debug, PartialEq, Eq, Hash)]
pub enum Want {
    Up,
    Down,
    Once,
}

impl Want {
    fn byte(self) -> u8
        ensures { result ≡ want_byte self }
    {
        match self {
            Want::Up => b'u',
            Want::Down => b'd',
            Want::Once => 0,
        }
    }
}

/// What a status record says of a service.
#[derive(Clone, Copy, Debug, PartialEq, Eq, Hash)]
pub struct View {
    /// When the process last changed.
    pub label: Label,
    /// The process number, 0 for none.
    pub pid: u32,
    /// Whether there is a process that is paused.
    pub paused: bool,
    pub want: Want,
}

impl Model for View {
    ghost use Rattle.std.specs.Prelude.{◌≡◌, ◌<◌, true};
    ghost use Rattle.tai_status.specs.Record.{Status};

    ghost Value = { Status };

    ghost view = { λ v. record { label = v.label; pid = v.pid; paused = v.paused; want = v.want } };

    ghost invariant = { λ v. v.paused ≡ true → 0 < v.pid };

    ghost inverse = { λ v. record { label = v.label; pid = v.pid; paused = v.paused; want = v.want } };
}

impl View {
    /// Returns the view with these parts, or `None` if it is paused and has no process.
    pub fn new(label: Label, pid: u32, paused: bool, want: Want) -> Option<View>
        ensures valid { IsSome result ↔ (paused ≡ true → 0 < pid) }
        ensures value { IfSome result (λ v. v ≡ record { label = label; pid = pid; paused = paused; want = want }) }
    {
        if paused && pid == 0 {
            return None;
        }
        Some(View {
            label,
            pid,
            paused,
            want,
        })
    }
}

/// Why bytes are no status record. The first one that applies is reported.
#[derive(Clone, Copy, Debug, PartialEq, Eq, Error)]
pub enum RecordFault {
    /// The length is not 18 bytes. If both lengths are read, it is not 20 either.
    #[error("Length")]
    Length,
    /// Bytes 0 to 11 are not a packed label.
    #[error("BadLabel")]
    BadLabel,
    /// Byte 16 is neither 0 nor 1.
    #[error("PausedFlag")]
    PausedFlag,
    /// Byte 16 is 1, and the process number is 0.
    #[error("PausedNoProcess")]
    PausedNoProcess,
    /// Byte 17 is not `u`, `d` or 0.
    #[error("WantByte")]
    WantByte,
    /// In a record of 20 bytes, byte 18 is neither 0 nor 1.
    #[error("ExitingFlag")]
    ExitingFlag,
    /// In a record of 20 bytes, byte 19 is not the number of a phase.
    #[error("PhaseNumber")]
    PhaseNumber,
    /// In a record of 20 bytes, the parts are not a state of a service.
    #[error("NoSuchState")]
    NoSuchState,
}

/// Returns the status record of a service: the packed label; the process number, least significant byte first; 1 if it
/// is paused, 0 if not; and `u`, `d` or 0 for what is wanted.
pub fn encode(view: &View) -> [u8; 18]
    // The bytes are in the rows of the record's table.
    ensures rows { IsRecord result view.now }
    // No other bytes are.
    ensures record { result ≡ status_record view.now }
{
    write_record(view)
}

fn write_record(view: &View) -> [u8; 18]
    ensures { result ≡ status_record view.now }
{
    let mut record = [0; 18];
    record[..12].copy_from_slice(&pack(&view.label));
    record[12..16].copy_from_slice(&view.pid.to_le_bytes());
    record[16] = u8::from(view.paused);
    record[17] = view.want.byte();
    record
}
