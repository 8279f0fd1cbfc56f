//! A look at each of many services.
ghost use Rattle.std.specs.Prelude.{◌≡◌, IfOk, OnErr};
ghost use Rattle.tai_status.specs.Words.{texts};
ghost use Rattle.cmd_report.specs.Finds.{FindsFront, FindsOne, FindsWords, ReadsCounts, SeeksPast};

use crate::found::FoundService;
use cmd_svc::{ServiceLook, look_at};
use cmd_why::read_exit;
use std::alloc::{AllocError, Allocator};
use svc_client::{Notice, Observer, Services};
use svc_record::{Counts, Exit, read_counts};
use tai_status::TimeSource;

/// Reads what the file `counts` of the service in a folder says, if it can be read.
fn counts_of<S: Services>(services: &mut S, folder: &str) -> Option<Counts>
    ensures { ReadsCounts folder.now result (S.calls services.old) (S.calls services.new) }
{
    match services.read_notice(folder, Notice::Counts) {
        Some(text) => read_counts(text.as_slice()),
        None => None,
    }
}

/// Reads the counts of the service in a folder, and then how its last process ended, if its status was read.
fn read_past<S: Services>(
    services: &mut S,
    folder: &str,
    look: &ServiceLook,
) -> (Option<Counts>, Option<Exit>)
    ensures { SeeksPast look.now folder.now result.0 result.1 (S.calls services.old) (S.calls services.new) }
{
    match look {
        ServiceLook::Standing { .. } => {
            let counts = counts_of(services, folder);
            (counts, read_exit(services, folder))
        }
        ServiceLook::Unreached(_) | ServiceLook::Unread | ServiceLook::Bad(_) => (None, None),
    }
}

/// Looks at the service in a folder. If its status was read, reads its counts and its last end too.
pub fn find_one<'a, S: Services, C: TimeSource>(
    observer: &mut Observer<S, C>,
    folder: &'a str,
) -> FoundService<'a>
    ensures finds { FindsOne result observer.old observer.new }
    ensures folder { result.folder.now ≡ folder.now }
{
    let look = look_at(&mut observer.services, &mut observer.clock, folder);
    let (counts, last) = read_past(&mut observer.services, folder, &look);
    FoundService {
        folder,
        look,
        counts,
        last,
    }
}

/// Looks at the services in folders, one after the other.
pub(crate) fn find_all<'a, S, A, C>(
    alloc: A,
    observer: &mut Observer<S, C>,
    folders: &[&'a str],
) -> Result<Vec<FoundService<'a>, A>, AllocError>
where
    S: Services,
    A: Allocator,
    C: TimeSource,
    ensures ok { IfOk result (λ founds.
        FindsWords (texts folders.now) founds.items observer.old observer.new) }
    ensures err { OnErr result (FindsFront (texts folders.now) observer.old observer.new) }
{
    let mut founds = Vec::new(alloc);
    for folder in folders {
        let found = find_one(observer, folder);
        if founds.push(found).is_err() {
            return Err(AllocError);
        }
    }
    Ok(founds)
}
