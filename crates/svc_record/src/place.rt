//! The place of a service: the process that was started last, or that one is about to be started, and what is wanted.
//! While the service's `finish` runs, the place has this process.
ghost use Rattle.std.specs.Prelude.{◌≡◌, ◌<◌, ◌^◌, ◌++◌, ◌∷◌, ℕ, Bool, List, IsSomeAnd, codes, decimal, length};
ghost use Rattle.std.specs.Prelude.{position, ◌==◌};
ghost use Rattle.std.specs.Prelude.{Some, IfSome};
ghost use Rattle.svc_record.specs.Place.{AreTwo, IsPlace, first_line, last_number, place_line};
ghost use Rattle.tai_status.specs.declared.record.Want.{Want};
ghost use Rattle.svc_record.specs.declared.place.Place.{Place};

use crate::process::{BootId, ProcessId, push_field, read_boot, split_number};
use arrayvec::ArrayVec;
use tai_status::Want;

/// The length of a file with a place, for any line.
pub const PLACE_BYTES: usize = 160;

/// A line of at most 160 bytes.
pub type PlaceLine = ArrayVec<u8, PLACE_BYTES>;

/// The content of a service's file `supervise/place`. It is written before a process of the service begins, and before
/// its `finish` begins.
#[derive(Clone, Copy, Debug, PartialEq, Eq)]
pub struct Place {
    /// The number of the process that was started last. It is 0 if the number is not known, or if there is no process.
    pub pid: u32,
    /// The tick of the kernel's clock at which that process began. Without a process: the tick at which a start was
    /// intended, or 0 if none was.
    pub tick: u64,
    /// The session of the svscan that started the process.
    pub session: u64,
    /// The tick at which the first process of the system began.
    pub init: u64,
    /// What is wanted of the service.
    pub want: Want,
    /// Whether the start is that of the service's `finish`. `finish` runs after the service's own process died.
    pub is_finish: bool,
    /// The boot.
    pub boot: BootId,
}

/// Returns the number for a wanted state, and whether the start is that of `finish`.
fn last_number(is_finish: bool, want: Want) -> u64
    ensures { result ≡ last_number is_finish want }
{
    match (is_finish, want) {
        (false, Want::Down) => 0,
        (false, Want::Up) => 1,
        (false, Want::Once) => 2,
        (true, Want::Down) => 3,
        (true, Want::Up) => 4,
        (true, Want::Once) => 5,
    }
}

/// Returns what has this number: whether the start is that of `finish`, and the wanted state.
fn read_last(number: u64) -> Option<(bool, Want)>
    ensures { (is_finish : Bool) (want : Want) → number ≡ last_number is_finish want
        → result ≡ Some (is_finish, want) }
{
    match number {
        0 => Some((false, Want::Down)),
        1 => Some((false, Want::Up)),
        2 => Some((false, Want::Once)),
        3 => Some((true, Want::Down)),
        4 => Some((true, Want::Up)),
        5 => Some((true, Want::Once)),
        _ => None,
    }
}

/// Returns the line of a place, with its newline: `PID TICK SESSION INIT WANT BOOT`. If the start is that of `finish`,
/// WANT is 3 more.
pub fn place_line(place: &Place) -> PlaceLine
    ensures { result.items ≡ place_line place.now }
{
    let mut line = ArrayVec::new();
    push_field(&mut line, u64::from(place.pid));
    push_field(&mut line, place.tick);
    push_field(&mut line, place.session);
    push_field(&mut line, place.init);
    push_field(&mut line, last_number(place.is_finish, place.want));
    line.try_extend_from_slice(&place.boot).unwrap();
    line.push(b'\n');
    line
}

/// Returns the place of the first newline.
fn newline_at(text: &[u8]) -> Option<usize>
    ensures place { result ≡ position (λ byte. byte == 10) text.now }
    ensures within { IfSome result (λ place. place < length text.now) }
{
    text.iter().position(|byte| *byte == b'\n')
}

/// Returns the first line of a text, with its newline.
pub fn first_line(text: &[u8]) -> &[u8]
    ensures { result.now ≡ first_line text.now }
{
    match newline_at(text) {
        Some(at) => &text[..at + 1],
        None => text,
    }
}

/// Reads the two numbers before the second space. Returns them, and what comes after that space.
fn split_two(text: &[u8]) -> Option<(u64, u64, &[u8])>
    ensures only { (first second : ℕ) (rest : List ℕ) → first < 2 ^ 64 → second < 2 ^ 64
        → text.now ≡ decimal first ++ 32 ∷ (decimal second ++ 32 ∷ rest)
        → IsSomeAnd result (AreTwo first second rest) }
{
    let (first, rest) = split_number(text)?;
    let (second, rest) = split_number(rest)?;
    Some((first, second, rest))
}

/// Reads the end of a place's line: whether the start is that of `finish`, the wanted state, and the boot.
fn read_end(text: &[u8]) -> Option<(bool, Want, BootId)>
    ensures only { (is_finish : Bool) (want : Want) (boot : List ℕ) → length boot ≡ 36
        → text.now ≡ decimal (last_number is_finish want) ++ 32 ∷ (boot ++ codes "\n")
        → result ≡ Some (is_finish, want, boot) }
{
    let (number, rest) = split_number(text)?;
    let (is_finish, want) = read_last(number)?;
    Some((is_finish, want, read_boot(rest)?))
}

/// Returns the only place that can have this line.
fn place_meant(text: &[u8]) -> Option<Place>
    ensures only { (place : Place) → IsPlace place → text.now ≡ place_line place → result ≡ Some place }
{
    let (pid, tick, rest) = split_two(text)?;
    let (session, init, rest) = split_two(rest)?;
    let (is_finish, want, boot) = read_end(rest)?;
    let pid = u32::try_from(pid).ok()?;
    Some(Place {
        pid,
        tick,
        session,
        init,
        want,
        is_finish,
        boot,
    })
}

/// Reads the line of a place, with its newline, as `place_line` makes it.
pub fn read_place(text: &[u8]) -> Option<Place>
    ensures found { IfSome result (λ place. text.now ≡ place_line place) }
    ensures only { (place : Place) → IsPlace place → text.now ≡ place_line place → result ≡ Some place }
{
    let place = place_meant(text)?;
    if place_line(&place).as_slice() == text {
        Some(place)
    } else {
        None
    }
}

impl Place {
    ghost use Rattle.std.specs.Prelude.{◌≡◌, ◌<◌, ◌↔◌, IsTrue, IfSome};
    ghost use Rattle.svc_record.specs.Place.{AreOfOneRun, finish_in, finishing, intending, is_intent};
    ghost use Rattle.svc_record.specs.Place.{is_unknown, occupant_in};
    ghost use Rattle.svc_record.specs.Place.{occupied, process_in, vacated, wanting};

    /// Returns the place before a start that an svscan with this session intended at this tick.
    pub fn intending(&self, tick: u64, session: u64) -> Place
        ensures { result ≡ intending self.now tick session }
    {
        Place {
            pid: 0,
            tick,
            session,
            is_finish: false,
            ..*self
        }
    }

    /// Returns the place before a start of `finish` that an svscan with this session intended at this tick.
    pub fn finishing(&self, tick: u64, session: u64) -> Place
        ensures { result ≡ finishing self.now tick session }
    {
        Place {
            pid: 0,
            tick,
            session,
            is_finish: true,
            ..*self
        }
    }

    /// Returns the place after a start made the process with this number, which began at this tick.
    pub fn occupied(&self, pid: u32, tick: u64) -> Place
        ensures { result ≡ occupied self.now pid tick }
    {
        Place { pid, tick, ..*self }
    }

    /// Returns the place after a start made no process, or after `finish` ended: no start is intended any more.
    pub fn vacated(&self) -> Place
        ensures { result ≡ vacated self.now }
    {
        Place {
            pid: 0,
            tick: 0,
            is_finish: false,
            ..*self
        }
    }

    /// Returns the place of a service if an svscan that left no place may have started a process of it.
    pub fn intending_unknown(&self) -> Place
        ensures { result ≡ intending self.now 1 0 }
    {
        self.intending(1, 0)
    }

    /// Returns whether the time and the session of the intended start are both unknown.
    pub fn is_unknown(&self) -> bool
        ensures { result ≡ is_unknown self.now }
    {
        self.pid == 0 && self.tick == 1 && self.session == 0
    }

    /// Returns the place with this wanted.
    pub fn wanting(&self, want: Want) -> Place
        ensures { result ≡ wanting self.now want }
    {
        Place { want, ..*self }
    }

    /// Returns whether something of this start may run without being the service's own recorded process: a start was
    /// intended, and its process is not known, or the start is that of `finish`.
    pub fn is_intent(&self) -> bool
        ensures { result ≡ is_intent self.now }
    {
        self.is_finish || self.pid == 0 && self.tick != 0
    }

    /// Returns the process in the place: the service's own, or its `finish`.
    pub fn occupant(&self) -> Option<ProcessId>
        ensures process { result ≡ occupant_in self.now }
        ensures number { IfSome result (λ process. 0 < process.pid) }
    {
        if self.pid == 0 {
            return None;
        }
        Some(ProcessId {
            pid: self.pid,
            tick: self.tick,
            boot: self.boot,
        })
    }

    /// Returns the service's own process in the place.
    pub fn process(&self) -> Option<ProcessId>
        ensures process { result ≡ process_in self.now }
        ensures number { IfSome result (λ process. 0 < process.pid) }
    {
        if self.is_finish {
            return None;
        }
        self.occupant()
    }

    /// Returns the process of `finish` in the place.
    pub fn finish(&self) -> Option<ProcessId>
        ensures process { result ≡ finish_in self.now }
        ensures number { IfSome result (λ process. 0 < process.pid) }
    {
        if self.is_finish {
            self.occupant()
        } else {
            None
        }
    }

    /// Returns whether both are from one run of the system: they have the same boot and the same first process.
    pub fn is_of_run(&self, here: &Place) -> bool
        ensures { IsTrue result ↔ AreOfOneRun self.now here.now }
    {
        let (boot, its_boot) = (self.boot, here.boot);
        boot == its_boot && self.init == here.init
    }
}
