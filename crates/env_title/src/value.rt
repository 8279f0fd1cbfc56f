//! The value of a variable, from the bytes of its file.
ghost use Rattle.std.specs.Prelude.{◌≡◌, true, IfOk, map, string_bytes};
ghost use Rattle.std.specs.Str.{is_utf8};
ghost use Rattle.env_title.specs.Files.{first_line, without_end_blanks, nul_as_newline, file_value};

use memchr::memchr;
use std::alloc::{AllocError, Allocator};

/// Returns the bytes before the first newline, or all bytes if there is none.
fn first_line(bytes: &[u8]) -> &[u8]
    ensures { result.now ≡ first_line bytes.now }
{
    let end = memchr(b'\n', bytes).unwrap_or(bytes.len());
    &bytes[..end]
}

/// Returns the bytes without the spaces and tabs at their end.
fn without_end_blanks(bytes: &[u8]) -> &[u8]
    ensures { result.now ≡ without_end_blanks bytes.now }
{
    let mut rest = bytes;
    while let [front @ .., b' ' | b'\t'] = rest {
        rest = front;
    }
    rest
}

/// Returns the first line without the spaces and tabs at its end.
pub(crate) fn text_of(bytes: &[u8]) -> &[u8]
    ensures { result.now ≡ without_end_blanks (first_line bytes.now) }
{
    without_end_blanks(first_line(bytes))
}

/// Copies the bytes, with a newline for each NUL.
fn with_newlines<A: Allocator>(alloc: A, bytes: &[u8]) -> Result<Vec<u8, A>, AllocError>
    ensures { IfOk result (λ copy. copy.items ≡ map nul_as_newline bytes.now) }
{
    bytes
        .iter()
        .map(|byte| if *byte == 0 { b'\n' } else { *byte })
        .collect(alloc)
}

/// Returns the value that a file with these bytes gives.
pub(crate) fn file_value<A: Allocator>(alloc: A, bytes: &[u8]) -> Result<String<A>, AllocError>
    requires { is_utf8 (file_value bytes.now) ≡ true }
    ensures { IfOk result (λ value. string_bytes value ≡ file_value bytes.now) }
{
    let value = with_newlines(alloc, text_of(bytes))?;
    Ok(String::from_utf8(value).unwrap())
}
