//! What is found about services, as a page.
ghost use Rattle.std.specs.Prelude.{◌≡◌, IfOk, OnErr, OnOk};
ghost use Rattle.tai_status.specs.Words.{texts};
ghost use Rattle.cmd_report.specs.Finds.{FindsFront};
ghost use Rattle.cmd_page.specs.Page.{status_of};
ghost use Rattle.cmd_page.specs.PageEnds.{AddsRow, AddsRows, Draws, DrawsNone, IsSince, ReadsClock};

use crate::cells::status_of;
use crate::page::{push_end, push_head, push_row};
use cmd_report::{FoundService, find_one};
use cmd_why::{Evidence, LocalTime, read_content};
use std::alloc::{AllocError, Allocator};
use svc_client::{Observer, Services};
use tai_status::{Label, TimeSource, View};

/// Reads the clock.
fn read_clock<S: Services, C: TimeSource>(observer: &mut Observer<S, C>) -> Label
    ensures { ReadsClock observer.old observer.new result }
{
    observer.clock.now()
}

/// Returns the local time of the last change of process, if there is a status.
fn since_of<K: Evidence>(sources: &K, status: &Option<View>) -> LocalTime
    ensures { IsSince (K.known sources.now).times status.now result.bytes }
{
    match status {
        Some(status) => sources.local_time(&status.label),
        None => LocalTime::new(),
    }
}

/// Reads the trace of a service, and adds its row to a page.
fn add_row<K: Evidence, A: Allocator + Clone>(
    alloc: &A,
    page: &mut Vec<u8, A>,
    sources: &K,
    now: &Label,
    found: &FoundService,
) -> Result<(), AllocError>
    ensures { OnOk result (AddsRow (K.known sources.now) now.now found.now page.old.items page.new.items) }
{
    let content = read_content(alloc, sources, found.folder)?;
    let since = since_of(sources, &status_of(&found.look));
    push_row(alloc, page, now, found, content.as_ref(), since.as_str())
}

/// Looks at the services in folders, one after the other, and adds their rows to a page.
fn add_rows<S, K, A, C>(
    alloc: &A,
    page: &mut Vec<u8, A>,
    observer: &mut Observer<S, C>,
    sources: &K,
    now: &Label,
    folders: &[&str],
) -> Result<(), AllocError>
where
    S: Services,
    K: Evidence,
    A: Allocator + Clone,
    C: TimeSource,
    ensures ok { OnOk result (AddsRows (K.known sources.now) now.now (texts folders.now)
        observer.old observer.new page.old.items page.new.items) }
    ensures err { OnErr result (FindsFront (texts folders.now) observer.old observer.new) }
{
    for folder in folders {
        let found = find_one(observer, folder);
        add_row(alloc, page, sources, now, &found)?;
    }
    Ok(())
}

/// Returns the page about the services in folders: reads the clock, and then looks at them, one after the other.
pub(crate) fn draw<S, K, A, C>(
    alloc: &A,
    observer: &mut Observer<S, C>,
    sources: &K,
    folders: &[&str],
) -> Result<Vec<u8, A>, AllocError>
where
    S: Services,
    K: Evidence,
    A: Allocator + Clone,
    C: TimeSource,
    ensures ok { IfOk result (λ page.
        Draws (K.known sources.now) (texts folders.now) observer.old observer.new page.items) }
    ensures err { OnErr result (DrawsNone (texts folders.now) observer.old observer.new) }
{
    let now = read_clock(observer);
    let time = sources.local_time(&now);
    let mut page = Vec::new(alloc.clone()?);
    push_head(alloc, &mut page, time.as_str())?;
    add_rows(alloc, &mut page, observer, sources, &now, folders)?;
    push_end(&mut page)?;
    Ok(page)
}
