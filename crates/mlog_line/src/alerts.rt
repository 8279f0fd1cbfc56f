//! Alerts of a line.
ghost use Rattle.std.specs.Prelude.{◌≡◌, ◌≤◌, ◌++◌, ◌∷◌, [], length, take, if◌then◌else◌, OnOk, OnErr};
ghost use Rattle.mlog_script.specs.Selection.{alert};
ghost use Rattle.mlog_files.specs.Store.{Alerts};
ghost use Rattle.mlog_line.specs.Given.{alerts_for};
ghost use Rattle.mlog_line.specs.Several.{AlertsFront};

use mlog_files::{LogStore, StoreFault};

/// How many bytes of a line are in an alert.
const ALERT: usize = 200;

/// Alerts the whole text.
fn alert_all<S: LogStore>(store: &mut S, text: &[u8]) -> Result<(), StoreFault>
    ensures ok { OnOk result (Alerts (S.state store.old) (S.state store.new) text.now) }
    ensures err { OnErr result (AlertsFront (S.state store.old) (S.state store.new) text.now) }
{
    let mut at = 0;
    while at < text.len() {
        let count = store.alert(&text[at..])?;
        if count == 0 {
            return Err(StoreFault);
        }
        at += count;
    }
    Ok(())
}

/// Alerts the first 200 bytes of a line's front, and a newline.
fn alert_front<S: LogStore>(store: &mut S, front: &[u8]) -> Result<(), StoreFault>
    ensures ok { OnOk result (Alerts (S.state store.old) (S.state store.new) (alert front.now)) }
    ensures err { OnErr result (AlertsFront (S.state store.old) (S.state store.new) (alert front.now)) }
{
    let len = front.len().min(ALERT);
    let mut text = [b'\n'; ALERT + 1];
    text[..len].copy_from_slice(&front[..len]);
    alert_all(store, &text[..=len])
}

/// Alerts a line with this front, once for each flag that is set.
pub fn alert_chosen<S: LogStore>(
    store: &mut S,
    chosen: &[bool],
    front: &[u8],
) -> Result<(), StoreFault>
    ensures ok { OnOk result (Alerts (S.state store.old) (S.state store.new) (alerts_for chosen.now front.now)) }
    ensures err { OnErr result (AlertsFront (S.state store.old) (S.state store.new) (alerts_for chosen.now front.now)) }
{
    for is_chosen in chosen {
        alert_if(store, *is_chosen, front)?;
    }
    Ok(())
}

/// Alerts a line with this front, if it is selected.
fn alert_if<S: LogStore>(store: &mut S, is_chosen: bool, front: &[u8]) -> Result<(), StoreFault>
    ensures ok { OnOk result
        (Alerts (S.state store.old) (S.state store.new) (if is_chosen then alert front.now else [])) }
    ensures err { OnErr result
        (AlertsFront (S.state store.old) (S.state store.new) (if is_chosen then alert front.now else [])) }
{
    if is_chosen {
        alert_front(store, front)
    } else {
        Ok(())
    }
}
