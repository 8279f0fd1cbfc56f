//! Text in a page.
ghost use Rattle.std.specs.Prelude.{◌≡◌, ◌++◌, chars, flat_map, IfOk, OnOk};
ghost use Rattle.cmd_page.specs.Escape.{entity, escaped, hex_text, is_between, is_hidden, visible, visible_char};

use std::alloc::{AllocError, Allocator};

/// Returns whether a character is one of those from the first to the last.
fn is_between(first: u32, last: u32, code: u32) -> bool
    ensures { result ≡ is_between first last code }
{
    first <= code && code <= last
}

/// Returns whether a character is not seen, and can change how others are seen: a control character, or one that turns
/// the direction of text.
fn is_hidden(character: char) -> bool
    ensures { result ≡ is_hidden character }
{
    let code = character as u32;
    code < 32
        || is_between(127, 159, code)
        || is_between(0x202a, 0x202e, code)
        || is_between(0x2066, 0x2069, code)
}

/// Writes a byte as `\x` and its two hexadecimal digits.
#[tactic(auto, unfolding(crate::specs::Escape::hex_text))]
fn push_hex<A: Allocator>(out: &mut Vec<u8, A>, byte: u8) -> Result<(), AllocError>
    ensures { OnOk result (out.new.items ≡ out.old.items ++ hex_text byte) }
{
    let mut digits = [0; 2];
    hex::encode_to_slice(&[byte], &mut digits).unwrap();
    out.extend_from_slice(b"\\x")?;
    out.extend_from_slice(&digits)
}

/// Writes each of these bytes so.
fn push_all_hex<A: Allocator>(out: &mut Vec<u8, A>, bytes: &[u8]) -> Result<(), AllocError>
    ensures { OnOk result (out.new.items ≡ out.old.items ++ flat_map hex_text bytes.now) }
{
    for byte in bytes {
        push_hex(out, *byte)?;
    }
    Ok(())
}

/// Writes a character. Writes the bytes of one that is not seen in hexadecimal digits.
fn push_visible<A: Allocator>(out: &mut Vec<u8, A>, character: char) -> Result<(), AllocError>
    ensures { OnOk result (out.new.items ≡ out.old.items ++ visible_char character) }
{
    let mut buffer = [0; 4];
    let bytes = character.encode_utf8(&mut buffer).as_bytes();
    if is_hidden(character) {
        return push_all_hex(out, bytes);
    }
    out.extend_from_slice(bytes)
}

/// Returns the characters of a text.
fn chars_of<A: Allocator + Clone>(alloc: A, text: &str) -> Result<Vec<char, A>, AllocError>
    ensures { IfOk result (λ characters. characters.items ≡ chars text.now) }
{
    text.chars().collect(alloc)
}

/// Writes each of these characters so.
fn push_all_visible<A: Allocator>(
    out: &mut Vec<u8, A>,
    characters: &[char],
) -> Result<(), AllocError>
    ensures { OnOk result (out.new.items ≡ out.old.items ++ flat_map visible_char characters.now) }
{
    for character in characters {
        push_visible(out, *character)?;
    }
    Ok(())
}

/// Returns a text in which each character that is not seen is written as its bytes in hexadecimal digits.
fn visible<A: Allocator + Clone>(alloc: &A, text: &str) -> Result<Vec<u8, A>, AllocError>
    ensures { IfOk result (λ seen. seen.items ≡ visible text.now) }
{
    let characters = chars_of(alloc.clone()?, text)?;
    let mut out = Vec::new(alloc.clone()?);
    push_all_visible(&mut out, &characters)?;
    Ok(out)
}

/// Writes a byte of text. Writes the entity of one that has a meaning in a page.
#[tactic(auto, unfolding(crate::specs::Escape::entity))]
fn push_entity<A: Allocator>(out: &mut Vec<u8, A>, byte: u8) -> Result<(), AllocError>
    ensures { OnOk result (out.new.items ≡ out.old.items ++ entity byte) }
{
    match byte {
        b'&' => out.extend_from_slice(b"&amp;"),
        b'<' => out.extend_from_slice(b"&lt;"),
        b'>' => out.extend_from_slice(b"&gt;"),
        b'"' => out.extend_from_slice(b"&quot;"),
        b'\'' => out.extend_from_slice(b"&#39;"),
        _ => out.extend_from_slice(&[byte]),
    }
}

/// Writes each of these bytes so.
fn push_entities<A: Allocator>(out: &mut Vec<u8, A>, bytes: &[u8]) -> Result<(), AllocError>
    ensures { OnOk result (out.new.items ≡ out.old.items ++ flat_map entity bytes.now) }
{
    for byte in bytes {
        push_entity(out, *byte)?;
    }
    Ok(())
}

/// Writes a text into a page. In place of `&`, `<`, `>`, `"` and `'`, writes their entities. A control character, and
/// one that turns the direction of text, is written as `\x` and two hexadecimal digits for each of its bytes.
pub fn push_escaped<A: Allocator + Clone>(
    alloc: &A,
    out: &mut Vec<u8, A>,
    text: &str,
) -> Result<(), AllocError>
    ensures { OnOk result (out.new.items ≡ out.old.items ++ escaped text.now) }
{
    let seen = visible(alloc, text)?;
    push_entities(out, &seen)
}
