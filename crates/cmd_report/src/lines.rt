//! The command `svstat --json`.
ghost use Rattle.std.specs.Prelude.{◌≡◌, ◌∷◌, [], ◌++◌, OnOk, IfOk, IfErr};
ghost use Rattle.tai_status.specs.Counted.{Wrote, Works};
ghost use Rattle.tai_status.specs.Words.{texts};
ghost use Rattle.svc_client.specs.Turns.{InTurn};
ghost use Rattle.cmd_svc.specs.Svstat.{scene, WritesNot};
ghost use Rattle.cmd_report.specs.Json.{json_line};
ghost use Rattle.cmd_report.specs.JsonEnds.{JsonEnds, Shows, ShowsNot, ShowsUpTo};

use crate::find::find_one;
use crate::found::FoundService;
use crate::objects::json_line;
use cmd_base::DONE;
use cmd_svc::{SvstatFault, report_svstat, tell_missing};
use std::alloc::{AllocError, Allocator};
use std::io::Write;
use svc_client::{Observer, Services};
use tai_status::{Output, TimeSource};

/// Returns the line about what was found about a service, with its newline.
fn whole_line<A: Allocator + Clone>(
    alloc: &A,
    found: &FoundService,
) -> Result<Vec<u8, A>, AllocError>
    ensures { IfOk result (λ line. line.items ≡ json_line found.now ++ 10 ∷ []) }
{
    let mut line = json_line(alloc.clone()?, found)?;
    line.push(b'\n')?;
    Ok(line)
}

/// Writes the line about what was found about a service.
fn write_line<A: Allocator + Clone, W: Write>(
    alloc: &A,
    found: &FoundService,
    writer: &mut Output<W>,
) -> Result<(), SvstatFault>
    ensures ok { OnOk result (Wrote writer.old writer.new (json_line found.now ++ 10 ∷ [])) }
    ensures works { OnOk result (Works writer.old writer.new) }
    ensures err { IfErr result (λ cause.
        WritesNot cause (json_line found.now ++ 10 ∷ []) writer.old writer.new) }
{
    let Ok(line) = whole_line(alloc, found) else {
        return Err(SvstatFault::OutOfMemory);
    };
    match writer.write_all(&line) {
        Ok(()) => Ok(()),
        Err(_) => Err(SvstatFault::Write),
    }
}

/// Looks at the service in a folder, and writes the line about what was found.
fn show<S, A, W, C>(
    alloc: &A,
    observer: &mut Observer<S, C>,
    folder: &str,
    writer: &mut Output<W>,
) -> Result<(), SvstatFault>
where
    S: Services,
    A: Allocator + Clone,
    W: Write,
    C: TimeSource,
    ensures ok { OnOk result
        (Shows folder.now (scene observer.old writer.old) (scene observer.new writer.new)) }
    ensures err { IfErr result (λ cause.
        ShowsNot folder.now cause (scene observer.old writer.old) (scene observer.new writer.new)) }
{
    let found = find_one(observer, folder);
    write_line(alloc, &found, writer)
}

/// Shows the services in folders, one after the other, up to the first one whose line can't be written.
fn show_all<S, A, W, C>(
    alloc: &A,
    observer: &mut Observer<S, C>,
    folders: &[&str],
    writer: &mut Output<W>,
) -> Result<(), SvstatFault>
where
    S: Services,
    A: Allocator + Clone,
    W: Write,
    C: TimeSource,
    ensures ok { OnOk result
        (InTurn Shows (texts folders.now) (scene observer.old writer.old) (scene observer.new writer.new)) }
    ensures err { IfErr result
        (ShowsUpTo (texts folders.now) (scene observer.old writer.old) (scene observer.new writer.new)) }
{
    for folder in folders {
        show(alloc, observer, folder, writer)?;
    }
    Ok(())
}

/// The command `svstat --json`: writes the object of [`json_line`] on a line for the service in each folder that its
/// words name, in order. The service is looked at just before its line is written, and if its status was read, its
/// counts and its last end are read too. After the lines, it reports for each folder that does not exist why.
///
/// Returns the exit status: 0, whatever the lines say; 111 for a fault of the writer and for a lack of memory, and then
/// the services after that one are not looked at.
pub fn run_json<S, A, W, E, C>(
    alloc: A,
    observer: &mut Observer<S, C>,
    words: &[&str],
    writer: &mut Output<W>,
    faults: &mut Output<E>,
) -> u8
where
    S: Services,
    A: Allocator + Clone,
    W: Write,
    E: Write,
    C: TimeSource,
    ensures ends { JsonEnds (texts words.now) result
        observer.old observer.new writer.old writer.new faults.old faults.new }
{
    match show_all(&alloc, observer, words, writer) {
        Ok(()) => {
            tell_missing(&mut observer.services, b"svstat: ", words, faults);
            DONE
        }
        Err(fault) => report_svstat(fault, writer, faults),
    }
}
