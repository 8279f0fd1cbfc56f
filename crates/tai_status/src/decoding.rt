ghost use Rattle.std.specs.Prelude.{◌≡◌, ◌<◌, IfOk, Ok, Err};
ghost use Rattle.tai_status.specs.Record.{Status, IsStatus, IsRecord};
ghost use Rattle.tai_status.specs.Decoding.{status_from, from_fields, want_from};

use crate::label::{Label, LabelFault};
use crate::reading::unpack;
use crate::record::{RecordFault, View, Want};

/// Reads these bytes as a status record of 18 bytes. Returns the first fault if they are none.
pub fn decode(bytes: &[u8]) -> Result<View, RecordFault>
    // Whatever is read has this record.
    ensures found { IfOk result (λ status. IsStatus status × IsRecord bytes.now status) }
    // Whatever has this record is read.
    ensures only { (status : Status) → IsStatus status → IsRecord bytes.now status → result ≡ Ok status }
    // The first fault is returned.
    ensures exact { result ≡ status_from bytes.now }
{
    read_record(bytes)
}

#[tactic(auto, unfolding(crate::specs::Decoding::status_from))]
fn read_record(bytes: &[u8]) -> Result<View, RecordFault>
    ensures { result ≡ status_from bytes.now }
{
    if bytes.len() != 18 {
        return Err(RecordFault::Length);
    }
    let pid = u32::from_le_bytes(bytes[12..16].try_into().unwrap());
    read_fields(&unpack(&bytes[..12]), pid, bytes[16], bytes[17])
}

fn read_fields(
    label: &Result<Label, LabelFault>,
    pid: u32,
    paused: u8,
    want: u8,
) -> Result<View, RecordFault>
    ensures { result ≡ from_fields label.now pid paused want }
{
    let Ok(label) = *label else {
        return Err(RecordFault::BadLabel);
    };
    if paused > 1 {
        return Err(RecordFault::PausedFlag);
    }
    if paused == 1 && pid == 0 {
        return Err(RecordFault::PausedNoProcess);
    }
    let Some(want) = read_want(want) else {
        return Err(RecordFault::WantByte);
    };
    Ok(View {
        label,
        pid,
        paused: paused == 1,
        want,
    })
}

fn read_want(byte: u8) -> Option<Want>
    ensures { result ≡ want_from byte }
{
    match byte {
        b'u' => Some(Want::Up),
        b'd' => Some(Want::Down),
        0 => Some(Want::Once),
        _ => None,
    }
}
