//! The command `tai64nlocal`: lines with local time in place of TAI64N labels. Other commands use it for a label's
//! local time as text.
#![tactic(auto)]

mod civil;
mod line;
mod local_zone;
mod localising;
mod system;
mod zone;

pub use civil::nine_digits;
pub use local_zone::LocalZone;
pub use localising::{LocalFault, run_tai64nlocal};
pub use system::system_zone;
pub use zone::{TIME_LEN, Zone, local_time};
