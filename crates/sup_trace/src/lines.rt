ghost use Rattle.std.specs.Prelude.{◌≡◌, ◌+◌, ◌^◌, ◌<◌, [], ◌∷◌, length, position, ◌==◌, OnOk, OnErr, IfOk, IfErr};
ghost use Rattle.std.specs.Prelude.{IfSome, MatchOption};
ghost use Rattle.sup_trace.specs.declared.fault.TraceFaultKind.TheVariants as kind;
ghost use Rattle.sup_trace.specs.Reading.{parts_of};

use crate::fault::{TraceFault, TraceFaultKind};

/// A text that is read line by line: what is left of it, and the number of the next line.
#[derive(Clone, Copy)]
pub(crate) struct TextLines<'a> {
    pub rest: &'a [u8],
    pub number: u64,
}

/// Returns the place of the first newline.
fn newline_at(text: &[u8]) -> Option<usize>
    ensures at { result ≡ position (λ byte. byte == 10) text.now }
    ensures below { IfSome result (λ at. at < length text.now) }
{
    text.iter().position(|byte| *byte == b'\n')
}

/// Splits a text at its first newline: the bytes before it, and those after it.
fn cut_line(text: &[u8]) -> Option<(&[u8], &[u8])>
    ensures parts { MatchOption result (parts_of text.now ≡ text.now ∷ [])
        (λ (line, rest). parts_of text.now ≡ line.now ∷ parts_of rest.now) }
    ensures shorter { IfSome result (λ (line, rest). length rest.now < length text.now) }
{
    match newline_at(text) {
        None => None,
        Some(at) => Some((&text[..at], &text[at + 1..])),
    }
}

impl<'a> TextLines<'a> {
    /// Returns the lines of a text.
    pub fn new(text: &'a [u8]) -> TextLines<'a>
        ensures rest { result.rest.now ≡ text.now }
        ensures number { result.number ≡ 1 }
    {
        TextLines {
            rest: text,
            number: 1,
        }
    }

    /// Returns the next line, without its newline. It is a fault of that line if it is missing or has no newline.
    pub fn next_line(&mut self) -> Result<&'a [u8], TraceFault>
        requires { self.old.number + length self.old.rest.now < 2 ^ 64 }

        // If it succeeds, the line and its newline are cut off the text. What is left is shorter, so the numbers of all
        // later lines fit too.
        ensures line { IfOk result (λ line. parts_of self.old.rest.now ≡ line.now ∷ parts_of self.new.rest.now) }
        ensures number { OnOk result (self.new.number ≡ self.old.number + 1) }
        ensures room { OnOk result (self.new.number + length self.new.rest.now < 2 ^ 64) }
        ensures shorter { OnOk result (length self.new.rest.now < length self.old.rest.now) }

        // If it fails, the rest of the text has no newline, and the fault has the number of this line.
        ensures fault { IfErr result (λ fault. fault ≡ record { line = self.old.number; kind = kind.Line }) }
        ensures missing { OnErr result (parts_of self.old.rest.now ≡ self.old.rest.now ∷ []) }
    {
        match cut_line(self.rest) {
            None => Err(TraceFault {
                line: self.number,
                kind: TraceFaultKind::Line,
            }),
            Some((line, rest)) => {
                self.rest = rest;
                self.number += 1;
                Ok(line)
            }
        }
    }
}
