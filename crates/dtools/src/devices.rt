//! What commands read and write.
use std::io::{Read, Write};
use std::marker::Model;
use svc_client::{Observer, Services};
use tai_status::{Input, Output, TimeSource};

/// What a command reads and writes, the device for reports of its faults, the services that it asks, and its clock. A
/// command gets only those that it needs.
#[derive(Drop)]
pub struct Devices<D: Read, W: Write, E: Write, S: Services, C: TimeSource> {
    pub reader: Input<D>,
    pub writer: Output<W>,
    pub faults: Output<E>,
    pub observer: Observer<S, C>,
}

impl<D: Read, W: Write, E: Write, S: Services, C: TimeSource> Model for Devices<D, W, E, S, C> {
    ghost use Rattle.cmd_base.specs.Console.{console};
    ghost use Rattle.dtools.specs.Commands.{Equipment};

    ghost Value = { Equipment };

    ghost view = { λ d. record { console = console d.reader d.writer d.faults; sight = d.observer } };
}
