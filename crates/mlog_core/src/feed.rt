//! How bytes are given to a router, line by line.
ghost use Rattle.std.specs.Prelude.{◌≡◌, ◌≤◌, ◌<◌, true, Option, None, length, take, OnOk, IfOk};
ghost use Rattle.mlog_script.specs.Selection.{Fits};
ghost use Rattle.mlog_files.specs.Store.{Stays};
ghost use Rattle.mlog_line.specs.LineRouter.{IsBare, IsWritten, Serves};
ghost use Rattle.mlog_core.specs.Scene.{left_of, GoesOn, AreAlike, FeedsLine, FeedsTo, EndsInput};

use crate::front::plain_front;
use mlog_files::{LogFault, LogStore};
use mlog_line::{LineRouter, Reach};
use mlog_script::Script;
use std::alloc::Allocator;
use tai_status::{Label, TimeSource};

/// How many of some bytes were taken, and whether their line has ended.
#[derive(Clone, Copy)]
pub struct Taken {
    pub len: usize,
    pub ends: bool,
}

/// How many of some bytes were taken, the label of the line that continues after them, and how many lines began.
#[derive(Clone, Copy)]
pub struct Fed {
    pub len: usize,
    pub inside: Option<Label>,
    pub begun: u64,
}

/// Returns the label of the line that continues after a part, unless it has ended.
fn line_left(label: Label, ends: bool) -> Option<Label>
    ensures { result ≡ left_of label ends }
{
    if ends { None } else { Some(label) }
}

/// Gives the router bytes of a line that has begun, up to a newline or to their end.
fn feed_line<A: Allocator + Clone, B: Allocator + Clone, S: LogStore>(
    router: &mut LineRouter<A>,
    script: &Script<B>,
    store: &mut S,
    label: &Label,
    bytes: &[u8],
) -> Result<Taken, LogFault>
    requires serves { Serves script.now router.old (S.state store.old) }
    requires some { 0 < length bytes.now }
    ensures { FeedsLine result script.now router.old router.new (S.state store.old) (S.state store.new)
        label.now bytes.now }
{
    let front = plain_front(bytes);
    router.put(script, store, label, &bytes[..front.len])?;
    if !front.ends {
        return Ok(Taken {
            len: front.len,
            ends: false,
        });
    }
    router.end(script, store, label)?;
    Ok(Taken {
        len: front.len + 1,
        ends: true,
    })
}

/// Gives the router the bytes up to a newline or to their end. A line that begins with them gets a label.
fn feed_part<A: Allocator + Clone, B: Allocator + Clone, S: LogStore, C: TimeSource>(
    router: &mut LineRouter<A>,
    script: &Script<B>,
    store: &mut S,
    clock: &mut C,
    inside: Option<Label>,
    bytes: &[u8],
) -> Result<Fed, LogFault>
    requires serves { Serves script.now router.old (S.state store.old) }
    requires some { 0 < length bytes.now }
    ensures feeds { FeedsTo result script.now inside router.old router.new
        S.state store.old store.new C.readings clock.old clock.new bytes.now }
    ensures some { IfOk result (λ fed. 0 < fed.len) }
{
    match inside {
        Some(label) => {
            let taken = feed_line(router, script, store, &label, bytes)?;
            Ok(Fed {
                len: taken.len,
                inside: line_left(label, taken.ends),
                begun: 0,
            })
        }
        None => {
            let label = clock.now();
            router.begin(script, &label);
            let taken = feed_line(router, script, store, &label, bytes)?;
            Ok(Fed {
                len: taken.len,
                inside: line_left(label, taken.ends),
                begun: 1,
            })
        }
    }
}

/// Some whole lines of one reach: how many bytes they have, and how many lines they are.
#[derive(Clone, Copy)]
pub struct AlikeLines {
    pub len: usize,
    pub count: u64,
    pub reach: Reach,
}

/// Returns whether a line can be added to some lines of one reach: it goes to all logs or to none, and if there are
/// lines already, they go to the same logs.
fn goes_on(lines: &AlikeLines, next: Reach) -> bool
    ensures { result ≡ true → GoesOn lines.now next }
{
    match next {
        Reach::Somewhere => false,
        _ => lines.count == 0 || next == lines.reach,
    }
}

/// Returns the whole lines at the beginning of some bytes that are all selected at all logs, or all at none. Reads the
/// clock for each.
fn read_alike<A: Allocator + Clone, B: Allocator + Clone, C: TimeSource>(
    router: &mut LineRouter<A>,
    script: &Script<B>,
    clock: &mut C,
    bytes: &[u8],
) -> AlikeLines
    requires fits { Fits router.old.chosen script.now }
    requires bare { 0 < length bytes.now → IsBare script.now }

    // It takes whole lines. Each goes unchanged to all logs or to none, as the reach says. The clock was read once for
    // each.
    ensures within { result.len ≤ length bytes.now }
    ensures count { result.count ≤ result.len }
    ensures alike { AreAlike script.now result.reach (C.readings clock.old) (C.readings clock.new)
        (take result.len bytes.now) result.count }

    // The ends of the logs stay. The flags of the router fit the script, as before.
    ensures tails { router.new.tails ≡ router.old.tails }
    ensures fits { Fits router.new.chosen script.now }
{
    let mut lines = AlikeLines {
        len: 0,
        count: 0,
        reach: Reach::Everywhere,
    };
    'lines: while lines.len < bytes.len() {
        let rest = &bytes[lines.len..];
        let front = plain_front(rest);
        if !front.ends {
            return lines;
        }
        let reach = router.reach(script, &rest[..front.len]);
        if !goes_on(&lines, reach) {
            return lines;
        }
        clock.now();
        lines = AlikeLines {
            len: lines.len + front.len + 1,
            count: lines.count + 1,
            reach,
        };
    }
    lines
}

/// Gives the router, as one piece, the whole lines at the beginning of some bytes that go only to logs: to all of them
/// or to none. It gives as many as can't fill a file.
fn feed_alike<A: Allocator + Clone, B: Allocator + Clone, S: LogStore, C: TimeSource>(
    router: &mut LineRouter<A>,
    script: &Script<B>,
    store: &mut S,
    clock: &mut C,
    bytes: &[u8],
) -> Result<Fed, LogFault>
    requires serves { Serves script.now router.old (S.state store.old) }
    ensures feeds { FeedsTo result script.now None router.old router.new
        S.state store.old store.new C.readings clock.old clock.new bytes.now }
    ensures none { IfOk result (λ fed. fed.inside ≡ None) }
{
    let room = router.room(script).min(bytes.len());
    if room == 0 {
        return Ok(Fed {
            len: 0,
            inside: None,
            begun: 0,
        });
    }
    let lines = read_alike(router, script, clock, &bytes[..room]);
    router.put_alike(store, lines.reach, &bytes[..lines.len])?;
    Ok(Fed {
        len: lines.len,
        inside: None,
        begun: lines.count,
    })
}

/// Gives the router as many bytes as it takes at once. If no line has begun, these are whole lines that go only to
/// logs, to all of them or to none. Otherwise they are bytes of one line.
fn feed_some<A: Allocator + Clone, B: Allocator + Clone, S: LogStore, C: TimeSource>(
    router: &mut LineRouter<A>,
    script: &Script<B>,
    store: &mut S,
    clock: &mut C,
    inside: Option<Label>,
    bytes: &[u8],
) -> Result<Fed, LogFault>
    requires serves { Serves script.now router.old (S.state store.old) }
    requires some { 0 < length bytes.now }
    ensures feeds { FeedsTo result script.now inside router.old router.new
        S.state store.old store.new C.readings clock.old clock.new bytes.now }
    ensures some { IfOk result (λ fed. 0 < fed.len) }
{
    match inside {
        Some(_) => return feed_part(router, script, store, clock, inside, bytes),
        None => {}
    }
    let fed = feed_alike(router, script, store, clock, bytes)?;
    if fed.len > 0 {
        return Ok(fed);
    }
    feed_part(router, script, store, clock, None, bytes)
}

/// Gives the router all bytes.
fn feed_parts<A: Allocator + Clone, B: Allocator + Clone, S: LogStore, C: TimeSource>(
    router: &mut LineRouter<A>,
    script: &Script<B>,
    store: &mut S,
    clock: &mut C,
    inside: Option<Label>,
    bytes: &[u8],
) -> Result<Fed, LogFault>
    requires serves { Serves script.now router.old (S.state store.old) }
    ensures feeds { FeedsTo result script.now inside router.old router.new
        S.state store.old store.new C.readings clock.old clock.new bytes.now }
    ensures all { IfOk result (λ fed. fed.len ≡ length bytes.now) }
{
    let mut len = 0;
    let mut label = inside;
    let mut begun = 0;
    while len < bytes.len() {
        let fed = feed_some(router, script, store, clock, label, &bytes[len..])?;
        label = fed.inside;
        begun += fed.begun;
        len += fed.len;
    }
    Ok(Fed {
        len,
        inside: label,
        begun,
    })
}

/// Gives the router all bytes, and appends the bytes that wait.
pub fn feed_block<A: Allocator + Clone, B: Allocator + Clone, S: LogStore, C: TimeSource>(
    router: &mut LineRouter<A>,
    script: &Script<B>,
    store: &mut S,
    clock: &mut C,
    inside: Option<Label>,
    bytes: &[u8],
) -> Result<Fed, LogFault>
    requires serves { Serves script.now router.old (S.state store.old) }
    ensures feeds { FeedsTo result script.now inside router.old router.new
        S.state store.old store.new C.readings clock.old clock.new bytes.now }
    ensures all { IfOk result (λ fed. fed.len ≡ length bytes.now) }
    ensures written { OnOk result (IsWritten router.new.tails) }
{
    let fed = feed_parts(router, script, store, clock, inside, bytes)?;
    router.flush(store)?;
    Ok(fed)
}

/// Ends the last line, if one has begun, and appends the bytes that wait.
pub fn feed_end<A: Allocator + Clone, B: Allocator + Clone, S: LogStore>(
    router: &mut LineRouter<A>,
    script: &Script<B>,
    store: &mut S,
    inside: Option<Label>,
) -> Result<(), LogFault>
    requires serves { Serves script.now router.old (S.state store.old) }
    ensures ends { EndsInput result script.now inside router.old router.new (S.state store.old) (S.state store.new) }
    ensures written { OnOk result (IsWritten router.new.tails) }
    ensures stays { Stays (S.state store.old) (S.state store.new) }
{
    match inside {
        Some(label) => {
            router.end(script, store, &label)?;
            router.flush(store)
        }
        None => router.flush(store),
    }
}
