//! The command `envdir`.
ghost use Rattle.std.specs.Prelude.{◌≡◌, ◌++◌, ◌<◌, None, length, option_copied, IsOk, IfOk, IfErr};
ghost use Rattle.cmd_base.specs.Known.{IsKnown};
ghost use Rattle.env_title.specs.Files.{env_after};
ghost use Rattle.env_title.specs.Faults.{first_fault};
ghost use Rattle.tai_status.specs.Causes.{cause_note};
ghost use Rattle.tai_status.specs.Counted.{Reports};
ghost use Rattle.cmd_envdir.specs.System.{outputs};
ghost use Rattle.tai_status.specs.Words.{texts};
ghost use Rattle.cmd_envdir.specs.Script.{ReadsAsScriptOf};
ghost use Rattle.cmd_envdir.specs.Child.{IsBeforeStart};
ghost use Rattle.cmd_envdir.specs.Ends.{AskedEnds, ChildEnds, EndsWriting, EnvdirStarts, EnvdirWrites, HasNoChild};
ghost use Rattle.cmd_envdir.specs.Ends.{
  IsChangedBy,
  IsFirstFault,
  IsScriptFor,
  ReportsUnread,
  RunsChild,
  ScriptEnds,
  envdir_report,
  given_by,
  memory_report,
  name_of,
  starved,
  unwritten_report,
};

use crate::child::{Program, run_child};
use crate::env_system::EnvSystem;
use crate::fault::{EnvdirFault, FolderReadFault};
use crate::folder::{FolderFile, env_files, fault_in, name_at};
use crate::launcher::Launcher;
use crate::script::shell_text;
use cmd_base::{Command, DONE, TROUBLE, cause_note, report, report_device, report_parts, usage};
use env_title::{Env, EnvFault, EnvFile, apply, first_fault};
use std::alloc::{AllocError, Allocator};
use std::io::Write;
use tai_status::{Cause, Output};

/// Returns the fault to report if memory is lacking: that of the first file that can't be applied, if there is one.
fn starved(first: Option<EnvFault>) -> EnvdirFault
    ensures { result ≡ starved first }
{
    match first {
        Some(EnvFault::NameHasEquals(place)) => EnvdirFault::NameHasEquals(place),
        Some(EnvFault::NotText(place)) => EnvdirFault::NotText(place),
        Some(EnvFault::OutOfMemory) | None => EnvdirFault::OutOfMemory,
    }
}

/// Returns the environment that files make of another one.
fn applied<A: Allocator + Clone>(
    alloc: &A,
    files: &[EnvFile<'_>],
    before: &Env<A>,
) -> Result<Env<A>, EnvdirFault>
    ensures ok { IfOk result (λ after. after ≡ env_after files.now before.now) }
    ensures good { IsOk result → first_fault files.now ≡ None }
    ensures first { IfErr result (λ why. IsFirstFault why files.now) }
    ensures before { IfErr result (λ why. IsBeforeStart why) }
{
    let Ok(own) = alloc.clone() else {
        return Err(starved(first_fault(files)));
    };
    match apply(own, files, before) {
        Ok(after) => Ok(after),
        Err(EnvFault::NameHasEquals(place)) => Err(EnvdirFault::NameHasEquals(place)),
        Err(EnvFault::NotText(place)) => Err(EnvdirFault::NotText(place)),
        Err(EnvFault::OutOfMemory) => Err(EnvdirFault::OutOfMemory),
    }
}

/// Returns the environment that files make of this process's variables.
fn changed_env<R: EnvSystem, A: Allocator + Clone>(
    rt: &R,
    alloc: &A,
    files: &[EnvFile<'_>],
) -> Result<Env<A>, EnvdirFault>
    ensures ok { IfOk result (λ after. IsChangedBy files.now (R.state rt.now) after) }
    ensures first { IfErr result (λ why. IsFirstFault why files.now) }
    ensures before { IfErr result (λ why. IsBeforeStart why) }
{
    match rt.variables(alloc) {
        Ok(before) => applied(alloc, files, &before),
        Err(_) => Err(starved(first_fault(files))),
    }
}

/// Runs a child in the environment that the files of a folder make of this one. Returns its status.
fn run_with<R: EnvSystem, L: Launcher, A: Allocator + Clone>(
    rt: &R,
    launcher: &mut L,
    alloc: &A,
    folder: &[FolderFile<A>],
    program: &Program<'_>,
) -> Result<u8, EnvdirFault>
    ensures ok { IfOk result (λ status. RunsChild (R.state rt.now) (L.calls launcher.old) (L.calls launcher.new)
        program.now folder.now status) }
    ensures none { IfErr result (λ why. HasNoChild (R.state rt.now) (L.calls launcher.old) (L.calls launcher.new)
        program.now folder.now why) }
    ensures first { IfErr result (λ why. IsFirstFault why folder.now) }
{
    let Ok(files) = env_files(alloc, folder) else {
        return Err(starved(fault_in(folder)));
    };
    let after = match changed_env(rt, alloc, &files) {
        Ok(after) => after,
        Err(fault) => return Err(fault),
    };
    match alloc.clone() {
        Ok(own) => run_child(launcher, own, program, &files, &after),
        Err(_) => Err(EnvdirFault::OutOfMemory),
    }
}

/// Returns the commands by which a shell that was given these variables makes the environment of the files of a folder,
/// and runs these words.
fn script_over<A: Allocator + Clone>(
    alloc: &A,
    folder: &[FolderFile<A>],
    before: &Env<A>,
    program: &[&str],
) -> Result<Vec<u8, A>, EnvdirFault>
    ensures ok { IfOk result (λ text. ReadsAsScriptOf folder.now before.now (texts program.now) text.items) }
    ensures good { IsOk result → first_fault folder.now ≡ None }
    ensures first { IfErr result (λ why. IsFirstFault why folder.now) }
    ensures before { IfErr result (λ why. IsBeforeStart why) }
{
    let Ok(files) = env_files(alloc, folder) else {
        return Err(starved(fault_in(folder)));
    };
    match applied(alloc, &files, before) {
        Ok(after) => {
            shell_text(alloc, &files, &after, program).map_err(|_| EnvdirFault::OutOfMemory)
        }
        Err(fault) => Err(fault),
    }
}

/// Returns the variables of this process, or those in the file at a path.
fn variables_of<R: EnvSystem, A: Allocator + Clone>(
    rt: &R,
    alloc: &A,
    path: Option<&str>,
) -> Result<Env<A>, AllocError>
    ensures known { IfOk result (λ variables. IsKnown
        (given_by (R.state rt.now) (option_copied path.entry)) variables) }
{
    match path {
        Some(path) => rt.given_variables(alloc, path),
        None => rt.variables(alloc),
    }
}

/// Returns the commands for those variables.
fn folder_script<R: EnvSystem, A: Allocator + Clone>(
    rt: &R,
    alloc: &A,
    folder: &[FolderFile<A>],
    path: Option<&str>,
    program: &[&str],
) -> Result<Vec<u8, A>, EnvdirFault>
    ensures ok { IfOk result (λ text. IsScriptFor (R.state rt.now) (option_copied path.entry)
        folder.now (texts program.now) text.items) }
    ensures good { IsOk result → first_fault folder.now ≡ None }
    ensures first { IfErr result (λ why. IsFirstFault why folder.now) }
    ensures before { IfErr result (λ why. IsBeforeStart why) }
{
    match variables_of(rt, alloc, path) {
        Ok(before) => script_over(alloc, folder, &before, program),
        Err(_) => Err(starved(fault_in(folder))),
    }
}

/// Returns the name of the file that is refused, or an empty name if none is.
fn refused_name<A: Allocator>(fault: EnvdirFault, folder: &[FolderFile<A>]) -> &str
    ensures { result.now ≡ name_of fault folder.now }
{
    match fault {
        EnvdirFault::NameHasEquals(place) | EnvdirFault::NotText(place) => name_at(folder, place),
        _ => "",
    }
}

/// Reports a lack of memory, and returns the exit status for that.
fn report_memory<E: Write>(faults: &mut Output<E>) -> u8
    ensures status { result ≡ 111 }
    ensures reported { Reports faults.old faults.new memory_report }
{
    report(faults, b"envdir: OutOfMemory\n", TROUBLE)
}

/// Reports what can't be done with something that has this name, and why. Returns the exit status for that.
fn report_unable<E: Write>(what: &[u8], name: &str, cause: Cause, faults: &mut Output<E>) -> u8
    ensures status { result ≡ 111 }
    ensures reported { Reports faults.old faults.new (what.now ++ (name.now ++ cause_note cause)) }
{
    let note = cause_note(cause);
    report_parts(faults, what, name.as_bytes(), note.as_bytes(), TROUBLE)
}

/// Reports why a folder is not read, and returns the exit status for that.
fn report_unread<A: Allocator, E: Write>(
    unread: &FolderReadFault<A>,
    dir: &str,
    faults: &mut Output<E>,
) -> u8
    ensures status { result ≡ 111 }
    ensures reported { ReportsUnread dir.now unread.now faults.old faults.new }
{
    let cause = unread.cause();
    if cause == Cause::NoMemory {
        return report_memory(faults);
    }
    report_unable(b"envdir: unable to read ", unread.path(dir), cause, faults)
}

/// Reports why the files of a folder have no effect, and returns the exit status for that.
fn report_fault<E: Write>(
    fault: EnvdirFault,
    program: &str,
    name: &str,
    faults: &mut Output<E>,
) -> u8
    ensures status { result ≡ 111 }
    ensures reported { Reports faults.old faults.new (envdir_report program.now name.now fault) }
{
    match fault {
        EnvdirFault::NotRun(cause) => {
            report_unable(b"envdir: unable to run ", program, cause, faults)
        }
        EnvdirFault::NameHasEquals(_) => report_parts(
            faults,
            b"envdir: ",
            name.as_bytes(),
            b": NameHasEquals\n",
            TROUBLE,
        ),
        EnvdirFault::NotText(_) => {
            report_parts(
                faults,
                b"envdir: ",
                name.as_bytes(),
                b": NotText\n",
                TROUBLE,
            )
        }
        EnvdirFault::OutOfMemory => report_memory(faults),
    }
}

/// Runs a program in the environment that the files of a folder make of this one, and returns its status; or reports
/// why there is no such environment.
fn run_in_folder<R: EnvSystem, L: Launcher, A: Allocator + Clone, E: Write>(
    rt: &R,
    launcher: &mut L,
    alloc: &A,
    dir: &str,
    program: &Program<'_>,
    faults: &mut Output<E>,
) -> u8
    ensures ends { ChildEnds (R.state rt.now) dir.now program.now result
        (L.calls launcher.old) (L.calls launcher.new) faults.old faults.new }
{
    let folder = match rt.read_folder(alloc, dir) {
        Ok(folder) => folder,
        Err(unread) => return report_unread(&unread, dir, faults),
    };
    match run_with(rt, launcher, alloc, &folder, program) {
        Ok(status) => status,
        Err(fault) => {
            let refused = refused_name(fault, &folder);
            report_fault(fault, program.name, refused, faults)
        }
    }
}

/// Reports that the writer failed, and why, and returns the exit status for that.
fn report_unwritten<W: Write, E: Write>(writer: &Output<W>, faults: &mut Output<E>) -> u8
    ensures status { result ≡ 111 }
    ensures reported { Reports faults.old faults.new (unwritten_report writer.now) }
{
    report_device(faults, b"envdir: ", b"write fault", writer.cause())
}

/// Writes a text, and returns the exit status for that.
fn write_text<W: Write, E: Write>(text: &[u8], writer: &mut Output<W>, faults: &mut Output<E>) -> u8
    ensures ends { EndsWriting text.now result (outputs writer.old faults.old) (outputs writer.new faults.new) }
{
    match writer.write_all(text) {
        Ok(()) => DONE,
        Err(_) => report_unwritten(writer, faults),
    }
}

/// Writes the commands by which a shell makes the environment of the files of a folder, and runs these words; or
/// reports why there are none.
fn write_script<R: EnvSystem, A: Allocator + Clone, W: Write, E: Write>(
    rt: &R,
    alloc: &A,
    dir: &str,
    path: Option<&str>,
    program: &[&str],
    writer: &mut Output<W>,
    faults: &mut Output<E>,
) -> u8
    ensures ends { ScriptEnds (R.state rt.now) dir.now (option_copied path.entry) (texts program.now) result
        (outputs writer.old faults.old) (outputs writer.new faults.new) }
{
    let folder = match rt.read_folder(alloc, dir) {
        Ok(folder) => folder,
        Err(unread) => return report_unread(&unread, dir, faults),
    };
    match folder_script(rt, alloc, &folder, path, program) {
        Ok(text) => write_text(text.as_slice(), writer, faults),
        Err(fault) => report_fault(fault, "", refused_name(fault, &folder), faults),
    }
}

/// Writes the commands for the words after `--shell`: a folder, the path of variables, and a program with its words.
fn write_asked<R: EnvSystem, A: Allocator + Clone, W: Write, E: Write>(
    rt: &R,
    alloc: &A,
    words: &[&str],
    writer: &mut Output<W>,
    faults: &mut Output<E>,
) -> u8
    ensures ends { AskedEnds (R.state rt.now) (texts words.now) result
        (outputs writer.old faults.old) (outputs writer.new faults.new) }
{
    match words {
        [] => usage(faults, Command::Envdir),
        [dir] => write_script(rt, alloc, dir, None, &[], writer, faults),
        [dir, path, program @ ..] => {
            write_script(rt, alloc, dir, Some(path), program, writer, faults)
        }
    }
}

/// The command `envdir` (<https://cr.yp.to/daemontools/envdir.html>): starts the program in its second word, with the
/// words after it, and waits until it ends. The files of the folder in the first word have changed the program's
/// environment. The program is looked up in the changed `PATH`.
///
/// Returns the status of the child, or 111 if a signal ended it. Returns 100 for less than two words. Returns 111 if
/// the folder can't be read or applied, if the child can't be started, and if it is out of memory.
///
/// With `--shell` and a folder, it starts nothing. It writes the commands by which a shell makes that environment of
/// its own variables, and the first words of the command that runs a program in the shell's place. A third word is the
/// path of the variables that the shell itself was given, /proc/PID/environ: those that a shell drops or changes are
/// set again. Words after it are the program and its arguments. Returns 0; 111 for the faults above, and if the writer
/// fails; 100 if there is no folder.
pub fn run_envdir<R: EnvSystem, L: Launcher, A: Allocator + Clone, W: Write, E: Write>(
    rt: &R,
    launcher: &mut L,
    alloc: A,
    words: &[&str],
    writer: &mut Output<W>,
    faults: &mut Output<E>,
) -> u8
    ensures starts { EnvdirStarts (R.state rt.now) (texts words.now) result
        (L.calls launcher.old) (L.calls launcher.new) faults.old faults.new }
    ensures writes { EnvdirWrites (R.state rt.now) (texts words.now) result
        (outputs writer.old faults.old) (outputs writer.new faults.new) }
    ensures unasked { length words.now < 2 → launcher.new ≡ launcher.old }
{
    let [first, rest @ ..] = words else {
        return usage(faults, Command::Envdir);
    };
    if *first == "--shell" {
        return write_asked(rt, &alloc, rest, writer, faults);
    }
    let [name, arguments @ ..] = rest else {
        return usage(faults, Command::Envdir);
    };
    let program = Program { name, arguments };
    run_in_folder(rt, launcher, &alloc, first, &program, faults)
}
