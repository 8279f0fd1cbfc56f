//! What all crates above share, in four groups: TAI64N labels; the status records of a service; counted readers and
//! writers, with the lines of an input and their stamps; and lists of names and lines.
//!
//! Each group uses only those before it. They are one crate since each is small, and most crates above need several.
#![tactic(auto)]

mod block;
mod cause;
mod counted;
mod decoding;
mod full;
mod label;
mod laws;
mod line_reader;
mod lists;
mod loading;
mod phase;
mod reading;
mod record;
mod stamp;

pub use block::{BLOCK, Block};
pub use cause::Cause;
pub use counted::{Counted, DeviceFault, In, Input, Out, Output, Used};
pub use decoding::decode;
pub use full::{Full, encode_full};
pub use label::{Label, LabelFault, pack, text};
pub use laws::{lines_in_turn, one_full_record, one_record};
pub use line_reader::{LineFault, LineReader};
pub use lists::{Lines, Name, Names};
pub use loading::{Loaded, STATUS_FRONT, decode_any, decode_front};
pub use phase::{Phase, phase_name};
pub use reading::{read_text, unpack};
pub use record::{RecordFault, View, Want, encode};
pub use stamp::{StampFault, TimeSource, stamp_lines};
