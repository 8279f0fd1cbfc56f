//! The threads of services, and what is joined to each.
ghost use Rattle.std.specs.Prelude.{◌<◌};

use crate::actor::Taken;
use crate::cast::Cast;
use crate::meeting::{Flag, LOOKS, rest};
use scan_table::{DirRow, PartId, Role};
use std::alloc::{AllocError, Global};
use std::sync::{Arc, Wait};
use std::test::Fail;
use svc_host::{Host, Maker, PostFault, Runtime};
use tai_status::{Label, Name, View, Want};

pub(crate) fn main_of(slot: u64, life: u64) -> PartId {
    PartId {
        slot,
        role: Role::Main,
        life,
    }
}

pub(crate) fn log_of(slot: u64, life: u64) -> PartId {
    PartId {
        slot,
        role: Role::Log,
        life,
    }
}

/// Returns the row of a service with this name.
pub(crate) fn row(alloc: Global, name: &str, has_log: bool) -> Result<DirRow, AllocError> {
    Ok(DirRow {
        name: Name::new(String::from_str(alloc, name)?),
        is_dir: true,
        has_log,
        down: false,
        log_down: false,
    })
}

/// Returns the rows of services with these names.
fn rows(alloc: Global, names: &[&str], has_log: bool) -> Result<Vec<DirRow>, AllocError> {
    let mut rows = Vec::new(alloc);
    for name in names {
        rows.push(row(alloc, name, has_log)?)?;
    }
    Ok(rows)
}

/// What a test waits for in a status.
#[derive(Clone, Copy)]
enum Sight {
    Process,
    WantsDown,
}

impl Sight {
    fn is_in(self, view: View) -> bool {
        match self {
            Sight::Process => view.pid > 0,
            Sight::WantsDown => view.want == Want::Down,
        }
    }
}

/// Returns a host over a cast after its first round, over these rows, if that started these parts.
fn begin<R: Runtime>(
    rt: R,
    alloc: Global,
    cast: Cast,
    mail: usize,
    rows: &[DirRow],
    parts: &[PartId],
) -> Option<Host<Cast, R>>
    requires { 0 < mail }
{
    let label = Label::from_unix(0, 0)?;
    let mut host = Host::new(rt, alloc, cast, mail, 16).ok()?;
    let started = match host.scan(rows, label) {
        Ok(out) => out.failed.is_empty() && out.scan.starts.as_slice() == parts,
        Err(_) => false,
    };
    if started { Some(host) } else { None }
}

/// Returns whether a part's status shows this in time.
fn comes<R: Runtime>(rt: &R, host: &mut Host<Cast, R>, part: PartId, sight: Sight) -> bool {
    for _ in 0..LOOKS {
        if host.status(part).is_some_and(|view| sight.is_in(view)) {
            return true;
        }
        rest(rt);
    }
    false
}

/// Returns whether the loggers of a slot have taken these bytes in time.
fn arrives<R: Wait>(rt: &R, taken: &Taken, bytes: &[u8; 8]) -> bool {
    for _ in 0..LOOKS {
        if taken.is(*bytes) {
            return true;
        }
        rest(rt);
    }
    false
}

/// Returns whether both have a process in time, and only the second one hears a letter to it.
fn both_run<R: Runtime>(rt: &R, host: &mut Host<Cast, R>, one: PartId, other: PartId) -> bool {
    comes(rt, host, one, Sight::Process)
        && comes(rt, host, other, Sight::Process)
        && host.post(other, b'd').is_ok()
        && comes(rt, host, other, Sight::WantsDown)
        && host.status(one).is_some_and(|view| view.want == Want::Up)
}

/// Ends all services, in order. Returns how many there were.
pub(crate) fn finish<M: Maker + Drop, R: Runtime>(rt: &R, host: &mut Host<M, R>) -> Option<u64> {
    let count = host.running_parts().ok()?.len();
    for _ in 0..LOOKS {
        if host.end_services() == 0 && host.end_outputs() {
            return Some(count as u64);
        }
        rest(rt);
    }
    None
}

/// Returns how many services ended, of two that wait for one another when they start. Returns None if one of them
/// waited in vain.
fn run_two<R: Runtime>(rt: R, alloc: Global, cast: Cast) -> Option<u64> {
    let (a, b) = (main_of(0, 1), main_of(2, 3));
    let rows = rows(alloc, &["a", "b"], false).ok()?;
    let mut host = begin(rt, alloc, cast, 4, &rows, &[a, b])?;
    let ran = both_run(&rt, &mut host, a, b);
    let count = finish(&rt, &mut host)?;
    if ran { Some(count) } else { None }
}

/// Two services wait for one another when they start, so each one is in a thread of its own.
#[test]
fn services_run_side_by_side(rt: HostRuntime) -> Result<(), Fail> {
    let in_vain = Flag::new(rt.alloc())?;
    let cast = Cast::crossed(rt.alloc(), &in_vain)?;
    assert_eq!(rt; run_two(rt, rt.alloc(), cast), Some(2));
    assert!(rt; !in_vain.is_set());
    Ok(())
}

/// Posts two letters to a service that is at its gate, and then opens the gate. Returns whether there was no room for
/// the second one, and the first one was heard.
fn fills<R: Runtime>(
    rt: &R,
    host: &mut Host<Cast, R>,
    part: PartId,
    at_the_gate: &Flag,
    opens: &Flag,
) -> bool {
    let reported = at_the_gate.comes(rt)
        && host.post(part, b'd').is_ok()
        && host.post(part, b'x') == Err(PostFault::Full);
    opens.set();
    reported && comes(rt, host, part, Sight::WantsDown)
}

/// Returns how many services ended after the mailbox of one was filled. Returns None if that was not reported.
fn fill_one<R: Runtime>(
    rt: R,
    alloc: Global,
    cast: Cast,
    at_the_gate: &Flag,
    opens: &Flag,
) -> Option<u64> {
    let part = main_of(0, 1);
    let rows = rows(alloc, &["a"], false).ok()?;
    let mut host = begin(rt, alloc, cast, 1, &rows, &[part])?;
    let reported = fills(&rt, &mut host, part, at_the_gate, opens);
    let count = finish(&rt, &mut host)?;
    if reported { Some(count) } else { None }
}

/// A mailbox with room for one letter takes one, while its service is at a closed gate.
#[test]
fn a_full_mailbox_is_reported(rt: HostRuntime) -> Result<(), Fail> {
    let in_vain = Flag::new(rt.alloc())?;
    let at_the_gate = Flag::new(rt.alloc())?;
    let opens = Flag::new(rt.alloc())?;
    let cast = Cast::gated(rt.alloc(), &at_the_gate, &opens, &in_vain)?;
    let count = fill_one(rt, rt.alloc(), cast, &at_the_gate, &opens);
    assert_eq!(rt; count, Some(1));
    assert!(rt; !in_vain.is_set());
    Ok(())
}

/// Posts `d` to each of these parts in turn. Each one then wants to be down, and those after it still want to be up.
fn put_down<R: Runtime>(rt: &R, host: &mut Host<Cast, R>, parts: &[PartId]) -> bool {
    for place in 0..parts.len() {
        if host.post(parts[place], b'd').is_err() {
            return false;
        }
        if !comes(rt, host, parts[place], Sight::WantsDown) {
            return false;
        }
        for later in place + 1..parts.len() {
            if host.status(parts[later]).map(|view| view.want) != Some(Want::Up) {
                return false;
            }
        }
    }
    true
}

/// Returns whether these are two numbers, in any order.
fn are_both(numbers: &[u64], one: u64, other: u64) -> bool {
    numbers == [one, other].as_slice() || numbers == [other, one].as_slice()
}

/// What rounds did until there was nothing more to wait for.
#[derive(Drop)]
struct Rounds {
    starts: usize,
    restarts: Vec<PartId>,
    drops: Vec<u64>,
}

/// Makes rounds over these rows until this many parts were restarted and this many slots dropped.
fn rounds_until<R: Runtime>(
    rt: &R,
    alloc: Global,
    host: &mut Host<Cast, R>,
    rows: &[DirRow],
    restarts: usize,
    drops: usize,
) -> Option<Rounds> {
    let label = Label::from_unix(5, 0)?;
    let mut done = Rounds {
        starts: 0,
        restarts: Vec::new(alloc),
        drops: Vec::new(alloc),
    };
    for _ in 0..LOOKS {
        host.collect();
        let out = host.scan(rows, label).ok()?;
        done.starts = done.starts.saturating_add(out.scan.starts.len());
        done.restarts
            .extend_from_slice(out.scan.restarts.as_slice())
            .ok()?;
        done.drops
            .extend_from_slice(out.scan.drops.as_slice())
            .ok()?;
        if done.restarts.len() >= restarts && done.drops.len() >= drops {
            break;
        }
        rest(rt);
    }
    Some(done)
}

/// Returns whether each of these parts has a process in time.
fn all_come<R: Runtime>(rt: &R, host: &mut Host<Cast, R>, parts: &[PartId]) -> bool {
    for part in parts {
        if !comes(rt, host, *part, Sight::Process) {
            return false;
        }
    }
    true
}

/// Ends a part, and makes rounds until it comes back. Returns whether only that part came back, in this life, and the
/// host no longer has the old one.
fn comes_back<R: Runtime>(
    rt: &R,
    alloc: Global,
    host: &mut Host<Cast, R>,
    rows: &[DirRow],
    part: PartId,
    again: PartId,
) -> bool {
    if host.post(part, b'x').is_err() {
        return false;
    }
    let came = match rounds_until(rt, alloc, host, rows, 1, 0) {
        Some(done) => {
            done.starts == 0
                && done.drops.is_empty()
                && done.restarts.as_slice() == [again].as_slice()
        }
        None => false,
    };
    came && host.post(part, b'u') == Err(PostFault::NoSuchPart)
        && comes(rt, host, again, Sight::Process)
}

/// Ends these parts, and makes rounds over no rows until two slots were dropped. Returns whether it was these slots,
/// and the maker was asked to forget exactly these.
fn are_dropped<R: Runtime>(
    rt: &R,
    alloc: Global,
    host: &mut Host<Cast, R>,
    parts: &[PartId],
    slots: [u64; 2],
) -> bool {
    for part in parts {
        if host.post(*part, b'x').is_err() {
            return false;
        }
    }
    let [one, other] = slots;
    let went = match rounds_until(rt, alloc, host, &[], 0, 2) {
        Some(done) => {
            done.starts == 0 && done.restarts.is_empty() && are_both(&done.drops, one, other)
        }
        None => false,
    };
    went && host.ask_maker(|cast| are_both(&cast.forgotten, one, other))
}

/// Runs two pairs from their first life to the end. Returns whether each part is joined only to what is its own.
fn live<R: Runtime>(
    rt: &R,
    alloc: Global,
    host: &mut Host<Cast, R>,
    rows: &[DirRow],
    parts: [PartId; 4],
    taken: [&Taken; 2],
) -> bool {
    let again = main_of(0, 6);
    all_come(rt, host, &parts)
        && arrives(rt, taken[0], b"\0\0abcdef")
        && arrives(rt, taken[1], b"\0\0uvwxyz")
        && put_down(rt, host, &parts)
        && comes_back(rt, alloc, host, rows, parts[0], again)
        && host.post(again, b'd').is_ok()
        && are_dropped(
            rt,
            alloc,
            host,
            &[again, parts[1], parts[2], parts[3]],
            [0, 3],
        )
}

/// Returns how many services were left at the end of two pairs' lives. Returns None if something went wrong.
fn run_pairs<R: Runtime>(rt: R, alloc: Global, cast: Cast, taken: [&Taken; 2]) -> Option<u64> {
    let parts = [main_of(0, 1), log_of(0, 2), main_of(3, 4), log_of(3, 5)];
    let rows = rows(alloc, &["a", "b"], true).ok()?;
    let mut host = begin(rt, alloc, cast, 4, &rows, &parts)?;
    let lived = live(&rt, alloc, &mut host, &rows, parts, taken);
    let count = finish(&rt, &mut host)?;
    if lived { Some(count) } else { None }
}

/// Two pairs: each part hears its own letters, shows its own state and comes back alone. Each pair's loggers get what
/// its own service wrote, and the second one continues after the point at which the first one failed.
#[test]
fn each_part_has_its_own(rt: HostRuntime) -> Result<(), Fail> {
    let cast = Cast::open(rt.alloc())?;
    let left = Arc::try_clone(&cast.taken[0])?;
    let right = Arc::try_clone(&cast.taken[1])?;
    assert_eq!(rt; run_pairs(rt, rt.alloc(), cast, [&left, &right]), Some(0));
    Ok(())
}
