//! The lines about all services of a folder, for people.
ghost use Rattle.std.specs.Prelude.{◌≡◌, ◌++◌, replicate, IfOk, OnOk};
ghost use Rattle.cmd_svc.specs.Shown.{shown};
ghost use Rattle.tai_status.specs.Loading.{status_in};
ghost use Rattle.cmd_svc.specs.Listed.{code_end, code_of, is_colored, listed_line, room_for, shade_of, shaded};
ghost use Rattle.cmd_svc.specs.Listed.{used_shade, widest, word_length};
ghost use Rattle.tai_status.specs.Words.{texts};

use crate::escaping::shown;
use crate::form::LineForm;
use crate::line::{is_running, wants_up};
use crate::look::{ServiceLook, look_line};
use std::alloc::{AllocError, Allocator};

/// The longest name, in bytes, for which other names leave room.
const WIDEST: usize = 32;

/// How the word for a state is shown.
#[derive(Clone, Copy, Debug, PartialEq, Eq)]
pub enum Shade {
    /// The service is up.
    Green,
    /// It is down, as it is wanted.
    Yellow,
    /// It is down, though it is wanted up.
    Red,
    /// It has no color.
    Plain,
}

/// Returns the bytes for which other names leave room.
fn room_for(name: &str) -> usize
    ensures { result ≡ room_for name.now }
{
    if name.len() <= WIDEST { name.len() } else { 0 }
}

/// Returns the greatest room of these names.
pub fn widest(names: &[&str]) -> usize
    ensures { result ≡ widest 0 (texts names.now) }
{
    let mut width = 0;
    for name in names {
        width = room_for(name).max(width);
    }
    width
}

/// Returns whether states have colors: on a terminal, if the variable NO_COLOR is not set or is empty.
pub fn is_colored(terminal: bool, unset: bool) -> bool
    ensures { result ≡ is_colored terminal unset }
{
    terminal && unset
}

/// Returns the shade of a state.
fn shade_of(look: &ServiceLook) -> Shade
    ensures { result ≡ shade_of look.now }
{
    let ServiceLook::Standing { loaded, .. } = look else {
        return Shade::Plain;
    };
    let status = loaded.view();
    if is_running(&status) {
        Shade::Green
    } else if wants_up(status.want) {
        Shade::Red
    } else {
        Shade::Yellow
    }
}

/// Returns how many bytes the word has that is shaded.
fn word_length(shade: Shade) -> usize
    ensures { result ≡ word_length shade }
{
    match shade {
        Shade::Green => 2,
        Shade::Yellow | Shade::Red => 4,
        Shade::Plain => 0,
    }
}

/// Returns what a terminal takes as the beginning of a color.
fn code_of(shade: Shade) -> &'static str
    ensures { result.now ≡ code_of shade }
{
    match shade {
        Shade::Green => "\x1b[32m",
        Shade::Yellow => "\x1b[33m",
        Shade::Red => "\x1b[31m",
        Shade::Plain => "",
    }
}

/// Returns what a terminal takes as its end.
fn code_end(shade: Shade) -> &'static str
    ensures { result.now ≡ code_end shade }
{
    match shade {
        Shade::Plain => "",
        _ => "\x1b[0m",
    }
}

/// Returns the shade that is used.
fn used_shade(colored: bool, shade: Shade) -> Shade
    ensures { result ≡ used_shade colored shade }
{
    if colored { shade } else { Shade::Plain }
}

/// Writes spaces.
fn push_spaces<A: Allocator>(out: &mut Vec<u8, A>, count: usize) -> Result<(), AllocError>
    ensures { OnOk result (out.new.items ≡ out.old.items ++ replicate count 32) }
{
    for _ in 0..count {
        out.extend_from_slice(b" ")?;
    }
    Ok(())
}

/// Writes a text without control characters.
fn push_all_shown<A: Allocator + Clone>(
    alloc: &A,
    out: &mut Vec<u8, A>,
    text: &[u8],
) -> Result<(), AllocError>
    ensures { OnOk result (out.new.items ≡ out.old.items ++ shown text.now) }
{
    let seen = shown(alloc.clone()?, text)?;
    out.extend_from_slice(&seen)
}

/// Returns a line with spaces after its name, colon and blank, and with the first word of the rest shaded.
#[tactic(auto, unfolding(crate::specs::Listed::shaded))]
fn shaded<A: Allocator + Clone>(
    alloc: &A,
    name: usize,
    spaces: usize,
    shade: Shade,
    line: &[u8],
) -> Result<Vec<u8, A>, AllocError>
    ensures { IfOk result (λ out. out.items ≡ shaded name spaces shade line.now) }
{
    let (front, rest) = line.split_at(name.min(line.len()));
    let (word, rest) = rest.split_at(word_length(shade).min(rest.len()));
    let mut out = Vec::new(alloc.clone()?);
    push_all_shown(alloc, &mut out, front)?;
    push_spaces(&mut out, spaces)?;
    out.extend_from_slice(code_of(shade).as_bytes())?;
    push_all_shown(alloc, &mut out, word)?;
    out.extend_from_slice(code_end(shade).as_bytes())?;
    push_all_shown(alloc, &mut out, rest)?;
    Ok(out)
}

/// The form of the lines about all services of a folder: as svstat's, with the states in one column, and in color if
/// that is asked for.
#[derive(Clone, Copy, Debug)]
pub struct ListedLine {
    /// The greatest room of the names, as [`widest`] returns it.
    pub width: usize,
    pub colored: bool,
}

impl LineForm for ListedLine {
    ghost line_of = { λ form folder look. listed_line form.width form.colored folder look };

    fn line<A: Allocator + Clone>(
        &self,
        alloc: A,
        folder: &str,
        look: &ServiceLook,
    ) -> Result<Vec<u8, A>, AllocError> {
        let line = look_line(alloc.clone()?, folder, look)?;
        let shade = used_shade(self.colored, shade_of(look));
        let spaces = self.width.saturating_sub(folder.len());
        shaded(&alloc, folder.len() + 2, spaces, shade, line.as_bytes())
    }
}
