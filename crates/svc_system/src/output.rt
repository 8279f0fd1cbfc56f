//! The output of a service that has a logger: what the service writes waits there until somebody reads it.
//!
//! It is a FIFO in the folder of the service, and each process of the service has it open for reading too. A process
//! that writes while there is no svscan therefore gets no signal and no error: it waits once the FIFO is full, and goes
//! on with the next svscan. Only if the folder can hold no FIFO at all is the output a pipe, which is gone when svscan
//! ends.
ghost use Rattle.std.specs.Prelude.{◌≡◌, [], ◌∷◌, codes, IfOk};
ghost use Rattle.std.specs.Process.{command_args, command_program};
ghost use Rattle.svc_system.specs.Flow.{may_be_pipe};

use crate::flow::{Flow, ServiceOutput};
use crate::folder::FolderFault;
use crate::patience::Patience;
use crate::private_files::{make_supervise, open_lock, remove};
use std::alloc::{AllocError, Global};
use std::fs::{File, Files, OpenOptions};
use std::io::PipeReader;
use std::os::fd::AsRawFd;
use std::os::unix::fs::FileTypeExt;
use std::process::{Command, Processes, Stdio, SystemProcess};
use std::sync::{Arc, Wait};
use std::time::Clock;
use std::{fs, io};
use tai_status::Cause;

/// The two ends of an output: the one to read, and the one that the service's processes have. What is counted of the
/// output is with them.
#[derive(Drop)]
pub struct OutputEnds {
    pub read: ServiceOutput,
    pub write: Arc<File, Global>,
    pub flow: Arc<Flow, Global>,
}

/// Returns whether there is a FIFO at a path.
pub(crate) fn is_fifo<R: Files<File = File>>(files: &R, path: &str) -> bool {
    match fs::symlink_metadata(files, path) {
        Ok(found) => found.file_type().is_fifo(),
        Err(_) => false,
    }
}

/// Returns the command of the system's own tool that makes FIFOs for their owner alone, at the paths that follow.
fn fifo_maker(alloc: Global) -> Result<Command, AllocError>
    ensures program { IfOk result (λ command. command_program command ≡ codes "mkfifo") }
    ensures words { IfOk result (λ command. command_args command ≡ codes "-m" ∷ codes "600" ∷ []) }
{
    let mut command = Command::new(alloc, "mkfifo")?;
    command.arg("-m")?.arg("600")?;
    Ok(command)
}

/// Makes FIFOs at these paths for their owner alone, by one call of the system's own tool. The paths begin in this
/// folder.
pub(crate) fn make_fifos<R: Processes<Started = SystemProcess> + Wait>(
    rt: &R,
    alloc: Global,
    folder: &str,
    paths: &[String],
) -> io::Result<()> {
    let mut command = fifo_maker(alloc)?;
    for path in paths {
        command.arg(path.as_str())?;
    }
    command
        .current_dir(folder)?
        .stderr(Stdio::null())
        .spawn(rt)?
        .wait()?;
    Ok(())
}

/// Returns whether the FIFO of the service in a folder is to be made: it is missing, and no svscan has the service.
/// Removes a file that is in its place.
fn lacks_fifo<R: Files<File = File>>(
    files: &R,
    alloc: Global,
    folder: &str,
    path: &str,
) -> io::Result<bool> {
    if is_fifo(files, path) || !is_free(files, alloc, folder)? {
        return Ok(false);
    }
    remove(files, path)?;
    Ok(true)
}

/// Makes the missing FIFOs of the services in these folders, by one call. Those that can't be made now are tried again
/// one by one, when each output is opened.
pub fn prepare_outputs<R: Processes<Started = SystemProcess> + Wait>(
    rt: &R,
    files: &HostRuntime,
    alloc: Global,
    folders: &[String],
) -> io::Result<()> {
    let mut paths = Vec::new(alloc);
    for folder in folders {
        let path = path_of_output(alloc, folder.as_str())?;
        if lacks_fifo(files, alloc, folder.as_str(), path.as_str()).unwrap_or(false) {
            paths.push(path)?;
        }
    }
    if paths.is_empty() {
        return Ok(());
    }
    make_fifos(rt, alloc, ".", &paths)
}

/// Returns the path of the FIFO of the service in a folder.
fn path_of_output(alloc: Global, folder: &str) -> io::Result<String> {
    Ok(format!(in alloc; "{folder}/supervise/out")?)
}

/// Opens the lock of the service in a folder, without taking it.
fn lock_of<R: Files<File = File>>(files: &R, alloc: Global, folder: &str) -> io::Result<File> {
    make_supervise(files, alloc, folder)?;
    let lock = format!(in alloc; "{folder}/supervise/lock")?;
    open_lock(files, lock.as_str())
}

/// Returns whether no svscan has the service in a folder.
fn is_free<R: Files<File = File>>(files: &R, alloc: Global, folder: &str) -> io::Result<bool> {
    let file = lock_of(files, alloc, folder)?;
    if file.try_lock().is_err() {
        return Ok(false);
    }
    // A child that is just being started has the file too, until it executes its program: closing it alone would leave
    // the lock.
    file.unlock()?;
    Ok(true)
}

/// Why the FIFO of a service is not opened.
#[derive(Clone, Copy, Debug, PartialEq, Eq)]
pub enum FifoFault {
    /// Somebody else holds the lock of the service, and others may write to the FIFO.
    Held,
    /// Its folder can hold other files, but no FIFO.
    Unfit,
    /// Some other fault, which may pass.
    Refused(Cause),
}

impl From<io::Error> for FifoFault {
    fn from(fault: io::Error) -> FifoFault {
        FifoFault::Refused(Cause::of(&fault))
    }
}

impl From<AllocError> for FifoFault {
    fn from(_fault: AllocError) -> FifoFault {
        FifoFault::Refused(Cause::NoMemory)
    }
}

/// Returns whether a pipe may replace a FIFO that is not opened. It may only if no FIFO can be there at all. Otherwise
/// another reader of the service's output, or a service that has the FIFO, would be cut off.
fn may_be_pipe(fault: FifoFault) -> bool
    ensures { result ≡ may_be_pipe fault }
{
    match fault {
        FifoFault::Unfit => true,
        FifoFault::Held | FifoFault::Refused(_) => false,
    }
}

/// Returns what is reported about a FIFO that is not opened.
fn folder_fault(fault: FifoFault) -> FolderFault {
    match fault {
        FifoFault::Held => FolderFault::Locked,
        FifoFault::Unfit => FolderFault::NotOpened(Cause::Other),
        FifoFault::Refused(cause) => FolderFault::NotOpened(cause),
    }
}

/// Checks that the folder of this path can hold files, by making one at the path and removing it again.
fn holds_files(files: &HostRuntime, path: &str) -> io::Result<()> {
    let mut how = OpenOptions::new();
    how.write(true).create_new(true);
    let file = how.open(files, path)?;
    drop(file);
    remove(files, path)
}

/// Makes the FIFO at a path, if it is missing. Removes a file that is in its place.
fn make_fifo<R: Processes<Started = SystemProcess> + Wait>(
    rt: &R,
    files: &HostRuntime,
    alloc: Global,
    path: &str,
) -> Result<(), FifoFault> {
    if is_fifo(files, path) {
        return Ok(());
    }
    remove(files, path)?;
    let paths = [String::from_str(alloc, path)?];
    make_fifos(rt, alloc, ".", &paths)?;
    if is_fifo(files, path) {
        return Ok(());
    }
    holds_files(files, path)?;
    Err(FifoFault::Unfit)
}

/// Opens the FIFO of the service in a folder, once for reading and once for writing. If somebody else holds the
/// service's lock, tries until patience runs out, and then returns `Held`.
fn open_fifo<R: Processes<Started = SystemProcess> + Clock + Wait>(
    rt: &R,
    files: &HostRuntime,
    alloc: Global,
    folder: &str,
    patience: &Patience,
) -> Result<(File, File), FifoFault> {
    let lock = lock_of(files, alloc, folder)?;
    if patience.lock(rt, &lock).is_err() {
        return Err(FifoFault::Held);
    }
    // A child that is just being started has the file too: closing it alone would leave the lock.
    lock.unlock()?;
    let path = path_of_output(alloc, folder)?;
    make_fifo(rt, files, alloc, path.as_str())?;
    // The writing end is opened first, so that opening the other one does not wait for it.
    let mut how = OpenOptions::new();
    how.read(true).write(true);
    let write = how.open(files, path.as_str())?;
    let read = fs::open(files, path.as_str())?;
    Ok((read, write))
}

/// Makes a pipe, and returns its ends as files, the reading end first.
fn open_pipe(files: &HostRuntime, alloc: Global) -> io::Result<(File, File)> {
    let (reader, writer) = io::pipe(files)?;
    let read = format!(in alloc; "/proc/self/fd/{}", reader.as_raw_fd())?;
    let write = format!(in alloc; "/proc/self/fd/{}", writer.as_raw_fd())?;
    let mut how = OpenOptions::new();
    how.write(true);
    Ok((
        fs::open(files, read.as_str())?,
        how.open(files, write.as_str())?,
    ))
}

/// Returns the ends of an output that is read and written through these files.
fn ends_of(
    alloc: Global,
    read: File,
    write: File,
    watch: &Arc<PipeReader, Global>,
) -> io::Result<OutputEnds> {
    let flow = Arc::new(alloc, Flow::new())?;
    Ok(OutputEnds {
        read: ServiceOutput::new(read, Arc::try_clone(watch)?, Arc::try_clone(&flow)?),
        write: Arc::new(alloc, write)?,
        flow,
    })
}

/// Opens the output of the service in a folder. Once the pipe is at its end, the output may be asked to end. A fault
/// says why it was not opened in this round.
pub fn open_output<R: Processes<Started = SystemProcess> + Clock + Wait>(
    rt: &R,
    files: &HostRuntime,
    alloc: Global,
    folder: &str,
    patience: &Patience,
    watch: &Arc<PipeReader, Global>,
) -> Result<OutputEnds, FolderFault> {
    let (read, write) = match open_fifo(rt, files, alloc, folder, patience) {
        Ok(ends) => ends,
        Err(fault) if may_be_pipe(fault) => open_pipe(files, alloc)?,
        Err(fault) => return Err(folder_fault(fault)),
    };
    Ok(ends_of(alloc, read, write, watch)?)
}
