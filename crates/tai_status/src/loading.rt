//! Status records of either length.
ghost use Rattle.std.specs.Prelude.{◌≡◌, List, ℕ, take, IfOk, Ok};
ghost use Rattle.tai_status.specs.declared.loading.Loaded.{Loaded};
ghost use Rattle.tai_status.specs.Loading.{IsLoaded, full_from, loaded_from, old_from, status_in};

use crate::decoding::decode;
use crate::full::Full;
use crate::phase::phase_from;
use crate::record::{RecordFault, View};

/// What the bytes of a status record say.
#[derive(Clone, Copy, Debug, PartialEq, Eq)]
pub enum Loaded {
    /// A record of 18 bytes, which has no phase: that of an earlier dtools.
    Old(View),
    /// A record of 20 bytes.
    New(Full),
}

impl Loaded {
    ghost use Rattle.std.specs.Prelude.{◌≡◌};
    ghost use Rattle.tai_status.specs.Loading.{status_in};

    /// Returns what a record of either length says of the process and of the wanted state.
    pub fn view(&self) -> View
        ensures { result ≡ status_in self.now }
    {
        match self {
            Loaded::Old(view) => *view,
            Loaded::New(full) => full.view,
        }
    }
}

/// Reads these bytes as a status record of 18 or of 20 bytes. Returns the first fault if they are neither.
pub fn decode_any(bytes: &[u8]) -> Result<Loaded, RecordFault>
    // Whatever is read has this record.
    ensures found { IfOk result (λ loaded. IsLoaded bytes.now loaded) }
    // Whatever has this record is read.
    ensures only { (loaded : Loaded) → IsLoaded bytes.now loaded → result ≡ Ok loaded }
    // The first fault is returned.
    ensures exact { result ≡ loaded_from bytes.now }
{
    load(bytes)
}

/// How many first bytes of a status file are enough to read it: one more than the longer record has, which shows that
/// the file is longer.
pub const STATUS_FRONT: usize = 21;

/// Reads a status file by its first `STATUS_FRONT` bytes, or by all of them if it has fewer. The whole file, however
/// long, would give the same result.
pub fn decode_front(front: &[u8]) -> Result<Loaded, RecordFault>
    ensures read { result ≡ loaded_from front.now }
    ensures file { (file : List ℕ) → front.now ≡ take STATUS_FRONT file → result ≡ loaded_from file }
{
    decode_any(front)
}

#[tactic(auto, unfolding(crate::specs::Loading::loaded_from))]
fn load(bytes: &[u8]) -> Result<Loaded, RecordFault>
    ensures { result ≡ loaded_from bytes.now }
{
    if bytes.len() != 20 {
        return load_old(&decode(bytes));
    }
    load_full(&decode(&bytes[..18]), bytes[18], bytes[19])
}

fn load_old(view: &Result<View, RecordFault>) -> Result<Loaded, RecordFault>
    ensures { result ≡ old_from view.now }
{
    match view {
        Ok(view) => Ok(Loaded::Old(*view)),
        Err(fault) => Err(*fault),
    }
}

fn load_full(
    view: &Result<View, RecordFault>,
    exiting: u8,
    phase: u8,
) -> Result<Loaded, RecordFault>
    ensures { result ≡ full_from view.now exiting phase }
{
    let view = match view {
        Ok(view) => *view,
        Err(fault) => return Err(*fault),
    };
    if exiting > 1 {
        return Err(RecordFault::ExitingFlag);
    }
    let Some(phase) = phase_from(phase) else {
        return Err(RecordFault::PhaseNumber);
    };
    match Full::new(view, phase, exiting == 1) {
        Some(full) => Ok(Loaded::New(full)),
        None => Err(RecordFault::NoSuchState),
    }
}
