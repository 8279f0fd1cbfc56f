//! The command `svstat`.
ghost use Rattle.std.specs.Prelude.{◌≡◌, ◌∷◌, [], ◌++◌, OnOk, IfOk, IfErr};
ghost use Rattle.tai_status.specs.Counted.{Reports, Wrote, Works};
ghost use Rattle.tai_status.specs.Words.{texts};
ghost use Rattle.svc_client.specs.Turns.{InTurn};
ghost use Rattle.cmd_svc.specs.Svstat.{scene, shown_line, Shows, ShowsNot, ShowsUpTo};
ghost use Rattle.cmd_svc.specs.Svstat.{SvstatEnds, WritesNot, svstat_report};

use crate::form::{LineForm, PlainLine};
use crate::look::{ServiceLook, look_at};
use crate::missing::tell_missing;
use cmd_base::{DONE, TROUBLE, report, report_device};
use std::alloc::{AllocError, Allocator};
use std::io::Write;
use svc_client::{Observer, Services};
use tai_status::{Output, TimeSource};

/// Why the line of a service is not written.
#[derive(Clone, Copy, Debug, PartialEq, Eq)]
pub enum SvstatFault {
    /// There is no memory for it.
    OutOfMemory,
    /// The writer failed.
    Write,
}

/// Returns the line about a look at the service in a folder, with its newline.
fn whole_line<F: LineForm, A: Allocator + Clone>(
    form: &F,
    alloc: &A,
    folder: &str,
    look: &ServiceLook,
) -> Result<Vec<u8, A>, AllocError>
    ensures { IfOk result (λ line. line.items ≡ F.line_of form.now folder.now look.now ++ 10 ∷ []) }
{
    let mut line = form.line(alloc.clone()?, folder, look)?;
    line.push(b'\n')?;
    Ok(line)
}

/// Writes the line about a look at the service in a folder.
fn write_line<F: LineForm, A: Allocator + Clone, W: Write>(
    form: &F,
    alloc: &A,
    folder: &str,
    look: &ServiceLook,
    writer: &mut Output<W>,
) -> Result<(), SvstatFault>
    ensures ok { OnOk result
        (Wrote writer.old writer.new (F.line_of form.now folder.now look.now ++ 10 ∷ [])) }
    ensures works { OnOk result (Works writer.old writer.new) }
    ensures err { IfErr result (λ cause.
        WritesNot cause (F.line_of form.now folder.now look.now ++ 10 ∷ []) writer.old writer.new) }
{
    let Ok(line) = whole_line(form, alloc, folder, look) else {
        return Err(SvstatFault::OutOfMemory);
    };
    match writer.write_all(&line) {
        Ok(()) => Ok(()),
        Err(_) => Err(SvstatFault::Write),
    }
}

/// Looks at the service in a folder, and writes the line about that.
fn show<F: LineForm, S: Services, A: Allocator + Clone, W: Write, C: TimeSource>(
    form: &F,
    alloc: &A,
    observer: &mut Observer<S, C>,
    folder: &str,
    writer: &mut Output<W>,
) -> Result<(), SvstatFault>
    ensures ok { OnOk result (Shows (F.line_of form.now) folder.now
        (scene observer.old writer.old) (scene observer.new writer.new)) }
    ensures err { IfErr result (λ cause. ShowsNot (F.line_of form.now) folder.now cause
        (scene observer.old writer.old) (scene observer.new writer.new)) }
{
    let look = look_at(&mut observer.services, &mut observer.clock, folder);
    write_line(form, alloc, folder, &look, writer)
}

/// Shows the services in folders, one after the other, up to the first one whose line can't be written.
fn show_all<F: LineForm, S: Services, A: Allocator + Clone, W: Write, C: TimeSource>(
    form: &F,
    alloc: &A,
    observer: &mut Observer<S, C>,
    folders: &[&str],
    writer: &mut Output<W>,
) -> Result<(), SvstatFault>
    ensures ok { OnOk result (InTurn (Shows (F.line_of form.now)) (texts folders.now)
        (scene observer.old writer.old) (scene observer.new writer.new)) }
    ensures err { IfErr result (ShowsUpTo (F.line_of form.now) (texts folders.now)
        (scene observer.old writer.old) (scene observer.new writer.new)) }
{
    for folder in folders {
        show(form, alloc, observer, folder, writer)?;
    }
    Ok(())
}

/// Reports why the line of a service is not written, and returns the exit status for that. If the writer failed, the
/// line names the cause of its last fault.
pub fn report_svstat<W: Write, E: Write>(
    fault: SvstatFault,
    writer: &Output<W>,
    faults: &mut Output<E>,
) -> u8
    ensures status { result ≡ 111 }
    ensures reported { Reports faults.old faults.new (svstat_report fault writer.now) }
{
    match fault {
        SvstatFault::OutOfMemory => report(faults, b"svstat: OutOfMemory\n", TROUBLE),
        SvstatFault::Write => report_device(faults, b"svstat: ", b"write fault", writer.cause()),
    }
}

/// The command `svstat` with lines in a form: as [`run_svstat`], which uses the form of svstat itself.
pub fn run_svstat_as<F, S, A, W, E, C>(
    form: &F,
    alloc: A,
    observer: &mut Observer<S, C>,
    words: &[&str],
    writer: &mut Output<W>,
    faults: &mut Output<E>,
) -> u8
where
    F: LineForm,
    S: Services,
    A: Allocator + Clone,
    W: Write,
    E: Write,
    C: TimeSource,
    ensures ends { SvstatEnds (F.line_of form.now) (texts words.now) result
        observer.old observer.new writer.old writer.new faults.old faults.new }
{
    match show_all(form, &alloc, observer, words, writer) {
        Ok(()) => {
            tell_missing(&mut observer.services, b"svstat: ", words, faults);
            DONE
        }
        Err(fault) => report_svstat(fault, writer, faults),
    }
}

/// The command `svstat`: writes one line for the service in each folder that its words name, in order
/// (<https://cr.yp.to/daemontools/svstat.html>). The line gives its state, or says that it is not supervised, that its
/// status can't be read, or that the status is not a record. The service is looked at just before its line is written,
/// and the clock is read once for it. Control characters in its name are escaped, as by [`shown`](crate::shown). After
/// the lines, it reports for each folder that does not exist why.
///
/// Returns the exit status: 0, whatever the lines say; 111 for a fault of the writer and for a lack of memory, and then
/// the services after that one are not looked at.
pub fn run_svstat<S: Services, A: Allocator + Clone, W: Write, E: Write, C: TimeSource>(
    alloc: A,
    observer: &mut Observer<S, C>,
    words: &[&str],
    writer: &mut Output<W>,
    faults: &mut Output<E>,
) -> u8
    ensures ends { SvstatEnds shown_line (texts words.now) result
        observer.old observer.new writer.old writer.new faults.old faults.new }
{
    run_svstat_as(&PlainLine, alloc, observer, words, writer, faults)
}
