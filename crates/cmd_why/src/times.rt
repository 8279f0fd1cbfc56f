//! The local times of a computer.
use crate::sources::{LocalTime, LocalTimes};
use cmd_local::{LocalZone, local_time};
use tai_status::{Label, text};

/// A label outside of the years 1900 to 9999 is shown as its own text. It says nothing to contracts.
impl LocalTimes for LocalZone {
    fn local_time(&self, label: &Label) -> LocalTime {
        match local_time(self, label) {
            Some(time) => text_of(&time),
            None => text_of(&text(label)),
        }
    }
}

/// Returns bytes as text.
fn text_of(bytes: &[u8]) -> LocalTime {
    let mut out = LocalTime::new();
    if let Ok(text) = str::from_utf8(bytes) {
        let _ = out.try_push_str(text);
    }
    out
}
