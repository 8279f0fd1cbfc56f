//! The process of a service that was started last, as a line.
ghost use Rattle.std.specs.Prelude.{◌≡◌, ◌<◌, ◌≤◌, ◌+◌, ◌^◌, ◌++◌, ◌∷◌, ◌==◌, ℕ, List, codes, decimal, length};
ghost use Rattle.std.specs.Prelude.{position};
ghost use Rattle.std.specs.Prelude.{Some, IfSome, IsSomeAnd};
ghost use Rattle.arrayvec.specs.ArrayVec.{array_vec_len};
ghost use Rattle.svc_record.specs.Process.{AreParts, IsFound, IsProcess, process_line};
ghost use Rattle.svc_record.specs.declared.process.ProcessId.{ProcessId};

use arrayvec::ArrayVec;
use itoa::Buffer;
use sup_core::read_number;

/// The kernel's name of a boot.
pub type BootId = [u8; 36];

/// A line of at most 80 bytes.
pub type ProcessLine = ArrayVec<u8, 80>;

/// A process, distinguished from every other that ever ran: its number, and when it began.
#[derive(Clone, Copy, Debug, PartialEq, Eq)]
pub struct ProcessId {
    /// The number of the process.
    pub pid: u32,
    /// The tick of the kernel's clock at which it began.
    pub tick: u64,
    /// The boot in which it began.
    pub boot: BootId,
}

/// What became of the recorded process.
#[derive(Clone, Copy, Debug, PartialEq, Eq)]
pub enum Fate {
    /// No process was recorded in this boot.
    Unknown,
    /// The process ran in this boot, and is gone.
    Gone,
    /// The process is alive.
    Lives(ProcessId),
}

/// Writes a number and a space at the end of a line.
pub(crate) fn push_field<const N: usize>(line: &mut ArrayVec<u8, N>, number: u64)
    requires { array_vec_len line.old + 21 ≤ N }
    ensures text { line.new.items ≡ line.old.items ++ decimal number ++ codes " " }
    ensures len { array_vec_len line.new ≤ array_vec_len line.old + 21 }
{
    let mut buffer = Buffer::new();
    line.try_extend_from_slice(buffer.format(number).as_bytes())
        .unwrap();
    line.push(b' ');
}

/// Returns the line that records a process, with its newline: `PID TICK BOOT`.
pub fn process_line(process: &ProcessId) -> ProcessLine
    ensures { result.items ≡ process_line process.now }
{
    let mut line = ArrayVec::new();
    push_field(&mut line, u64::from(process.pid));
    push_field(&mut line, process.tick);
    line.try_extend_from_slice(&process.boot).unwrap();
    line.push(b'\n');
    line
}

/// Returns the place of the first space.
fn space_at(text: &[u8]) -> Option<usize>
    ensures place { result ≡ position (λ byte. byte == 32) text.now }
    ensures within { IfSome result (λ place. place < length text.now) }
{
    text.iter().position(|byte| *byte == b' ')
}

/// Reads the number before the first space. Returns it, and what comes after that space.
pub(crate) fn split_number(text: &[u8]) -> Option<(u64, &[u8])>
    ensures only { (number : ℕ) (rest : List ℕ) → number < 2 ^ 64 → text.now ≡ decimal number ++ 32 ∷ rest
        → IsSomeAnd result (AreParts number rest) }
{
    let at = space_at(text)?;
    let number = read_number(&text[..at])?;
    Some((number, &text[at + 1..]))
}

/// Reads the boot at the end of a line.
pub(crate) fn read_boot(text: &[u8]) -> Option<BootId>
    ensures only { (boot : List ℕ) → length boot ≡ 36 → text.now ≡ boot ++ codes "\n" → result ≡ Some boot }
{
    BootId::try_from(text.strip_suffix(b"\n")?).ok()
}

/// Returns the only process that can have this line.
fn process_meant(text: &[u8]) -> Option<ProcessId>
    ensures only { (process : ProcessId) → IsProcess process → text.now ≡ process_line process → result ≡ Some process }
{
    let (pid, rest) = split_number(text)?;
    let (tick, rest) = split_number(rest)?;
    let boot = read_boot(rest)?;
    let pid = u32::try_from(pid).ok()?;
    Some(ProcessId { pid, tick, boot })
}

/// Reads the line of a process, with its newline, as `process_line` makes it.
pub fn read_process(text: &[u8]) -> Option<ProcessId>
    ensures found { IfSome result (λ process. (text.now ≡ process_line process) × (0 < process.pid)) }
    ensures only { (process : ProcessId) → IsProcess process → text.now ≡ process_line process → result ≡ Some process }
{
    let process = process_meant(text)?;
    if process.pid > 0 && process_line(&process).as_slice() == text {
        Some(process)
    } else {
        None
    }
}

impl ProcessId {
    ghost use Rattle.std.specs.Prelude.{◌≡◌, ◌≢◌, true, false, Some};
    ghost use Rattle.svc_record.specs.Process.{is_alive};

    /// Returns whether this process is alive in its boot. `tick` is when the process that now has its number began, if
    /// there is one.
    pub fn is_alive(&self, tick: Option<u64>) -> bool
        ensures alive { result ≡ is_alive self.now tick }
        ensures same { result ≡ true → tick ≡ Some self.now.tick }
        ensures other { result ≡ false → tick ≢ Some self.now.tick }
    {
        match tick {
            Some(tick) => tick == self.tick,
            None => false,
        }
    }
}

/// Returns what became of the recorded process. `boot` is this boot. `tick` is when the process that now has its number
/// began, if there is one.
pub fn find(recorded: Option<ProcessId>, boot: &BootId, tick: Option<u64>) -> Fate
    ensures { IsFound recorded boot.now tick result }
{
    let Some(process) = recorded else {
        return Fate::Unknown;
    };
    let its_boot = process.boot;
    if its_boot != *boot {
        Fate::Unknown
    } else if process.is_alive(tick) {
        Fate::Lives(process)
    } else {
        Fate::Gone
    }
}
