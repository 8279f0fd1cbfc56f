//! The full state of a service, and its full record.
ghost use Rattle.std.specs.Prelude.{◌≡◌, ◌↔◌, IsSome, IfSome, IsTrue};
ghost use Rattle.tai_status.specs.Full.{IsFullRecord, StandsIn, full_of_parts, full_record, full_with, stands_in};

use crate::phase::{Phase, phase_byte};
use crate::record::{View, Want, encode};
use std::marker::Model;

/// What a full status record says of a service.
#[derive(Clone, Copy, Debug, PartialEq, Eq)]
pub struct Full {
    /// What a record of 18 bytes says.
    pub view: View,
    /// The phase of supervise.
    pub phase: Phase,
    /// Whether supervise exits once there is no process.
    pub exiting: bool,
}

impl Model for Full {
    ghost use Rattle.tai_status.specs.Full.{FullStatus, StandsIn};

    ghost Value = { FullStatus };

    ghost view = { λ f. record { status = f.view; phase = f.phase; exiting = f.exiting } };

    ghost invariant = { λ f. StandsIn f.phase f.view f.exiting };

    ghost inverse = { λ f. record { view = f.status; phase = f.phase; exiting = f.exiting } };
}

impl Full {
    /// Returns these parts together, if a service can be in that state:
    ///
    /// | phase | process | want | exiting |
    /// |---|---|---|---|
    /// | starting, resting | none | up, once | no |
    /// | settling | one, not paused | up, once | no |
    /// | up | one | any | any |
    /// | down | none | down, once | no |
    /// | gone | none | any | yes |
    pub fn new(view: View, phase: Phase, exiting: bool) -> Option<Full>
        ensures valid { IsSome result ↔ StandsIn phase view exiting }
        ensures value { IfSome result (λ full. full ≡ full_with view phase exiting) }
        ensures exact { result ≡ full_of_parts view phase exiting }
    {
        if can_stand(phase, &view, exiting) {
            Some(Full {
                view,
                phase,
                exiting,
            })
        } else {
            None
        }
    }
}

/// Returns whether a service can be in this state.
fn can_stand(phase: Phase, view: &View, exiting: bool) -> bool
    ensures stands { IsTrue result ↔ StandsIn phase view.now exiting }
    ensures test { result ≡ stands_in phase view.now exiting }
{
    let idle = view.pid == 0;
    let restarts = !exiting && view.want != Want::Down;
    match phase {
        Phase::Starting | Phase::Resting => idle && restarts,
        Phase::Settling => !idle && !view.paused && restarts,
        Phase::Up => !idle,
        Phase::Down => idle && !exiting && view.want != Want::Up,
        Phase::Gone => idle && exiting,
    }
}

/// Returns the full status record of a service: its record of 18 bytes, 1 if supervise exits after the process or 0 if
/// not, and the number of its phase.
pub fn encode_full(full: &Full) -> [u8; 20]
    // The bytes are in the rows of the record's table.
    ensures rows { IsFullRecord result full.now }
    // No other bytes are.
    ensures record { result ≡ full_record full.now }
{
    write_full(full)
}

fn write_full(full: &Full) -> [u8; 20]
    ensures { result ≡ full_record full.now }
{
    let mut record = [0; 20];
    record[..18].copy_from_slice(&encode(&full.view));
    record[18] = u8::from(full.exiting);
    record[19] = phase_byte(full.phase);
    record
}
