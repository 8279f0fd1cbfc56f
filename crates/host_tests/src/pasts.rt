//! What was asked of the maker of a host, in addition to the parts that it has.
ghost use Rattle.std.specs.Prelude.{◌≡◌, [], Some, IfSome};
ghost use Rattle.host_tests.specs.Kept.{HasScannedOnce, unasked};

use crate::cast::Cast;
use crate::kept_calls::Asked;
use crate::kept_maker::KeptMaker;
use crate::threads::{finish, log_of, main_of, row};
use scan_table::{DirRow, PartId};
use std::alloc::Global;
use std::test::Fail;
use svc_host::{Host, Runtime};
use svc_record::Opening;
use tai_status::Label;

/// Returns a host after its first scan. Its maker was asked nothing before, and then what the written rules of a scan
/// ask.
fn first_scan<R: Runtime>(
    mut host: Host<KeptMaker, R>,
    rows: &[DirRow],
    label: Label,
) -> Option<Host<KeptMaker, R>>
    requires { host ≡ unasked }
    ensures { IfSome result (HasScannedOnce rows.now label) }
{
    match host.scan(rows, label) {
        Ok(_out) => Some(host),
        Err(_) => None,
    }
}

/// Returns a host after its first scan, over a maker that records its calls from the first one on.
fn scanned_once<R: Runtime>(
    rt: R,
    alloc: Global,
    maker: KeptMaker,
    rows: &[DirRow],
    label: Label,
) -> Option<Host<KeptMaker, R>>
    requires { maker.calls ≡ Some [] }
    ensures { IfSome result (HasScannedOnce rows.now label) }
{
    match Host::new(rt, alloc, maker, 4, 16) {
        Ok(host) => first_scan(host, rows, label),
        Err(_) => None,
    }
}

/// Returns whether a part was asked for by this name, and begins by its row.
fn is_part(asked: &Asked, part: PartId, name: &[u8]) -> bool {
    match asked {
        Asked::Part(id, own, Ok(Opening::ByRow)) => *id == part && own.as_slice() == name,
        _ => false,
    }
}

/// Returns whether a pair was asked for by this name, and was made.
fn is_pair(asked: &Asked, pair: u64, name: &[u8]) -> bool {
    match asked {
        Asked::Pair(slot, own, None) => *slot == pair && own.as_slice() == name,
        _ => false,
    }
}

/// Returns whether the last trace of a part was kept and then its resources were given back, each once.
fn was_given_back(asked: &[Asked], part: PartId) -> bool {
    let mut is_kept = false;
    let mut is_back = false;
    for call in asked {
        match call {
            Asked::Trace(id, _, true) if *id == part => {
                if is_kept || is_back {
                    return false;
                }
                is_kept = true;
            }
            Asked::Ended(id) if *id == part => {
                if !is_kept || is_back {
                    return false;
                }
                is_back = true;
            }
            _ => {}
        }
    }
    is_back
}

/// A service and a pair. Their maker is asked for each part once, by the name of its service, and for the pair before
/// its parts. At the end it is asked for the last trace of each part, and then to take back what it handed out.
#[test]
fn a_maker_is_asked_for_what_is_there(rt: HostRuntime) -> Result<(), Fail> {
    let alloc = rt.alloc();
    let rows = [row(alloc, "a", false)?, row(alloc, "b", true)?];
    let label = Label::from_unix(0, 0).ok_or("no label")?;
    let maker = KeptMaker::new(alloc, Cast::open(alloc)?);
    let mut host = scanned_once(rt, alloc, maker, &rows, label).ok_or("no memory")?;
    let parts = [main_of(0, 1), main_of(2, 3), log_of(2, 4)];
    assert!(rt;
        host.ask_maker(|maker| match maker.asked() {
            Some([service, pair, main, log]) => is_part(service, parts[0], b"a")
                && is_pair(pair, 2, b"b")
                && is_part(main, parts[1], b"b")
                && is_part(log, parts[2], b"b"),
            _ => false,
        })
    );
    assert_eq!(rt; finish(&rt, &mut host), Some(3));
    assert!(rt;
        host.ask_maker(|maker| match maker.asked() {
            Some(asked) => parts.iter().all(|part| was_given_back(asked, *part)),
            None => false,
        })
    );
    Ok(())
}
