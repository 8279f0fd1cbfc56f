//! Text without control characters.
ghost use Rattle.std.specs.Prelude.{◌≡◌, ◌++◌, IfOk, OnOk};
ghost use Rattle.cmd_svc.specs.Shown.{is_control, shown, shown_byte};

use std::alloc::{AllocError, Allocator};

/// Returns whether a byte is an ASCII control character: it may end a line, or change what a terminal shows.
fn is_control(byte: u8) -> bool
    ensures { result ≡ is_control byte }
{
    byte < 32 || byte == 127
}

/// Writes a byte at the end of a text. In place of a control character, writes `\x` and its two hexadecimal digits.
#[tactic(auto, unfolding(crate::specs::Shown::shown_byte))]
fn push_shown<A: Allocator>(out: &mut Vec<u8, A>, byte: u8) -> Result<(), AllocError>
    ensures { OnOk result (out.new.items ≡ out.old.items ++ shown_byte byte) }
{
    if !is_control(byte) {
        return out.extend_from_slice(&[byte]);
    }
    let mut digits = [0; 2];
    hex::encode_to_slice(&[byte], &mut digits).unwrap();
    out.extend_from_slice(b"\\x")?;
    out.extend_from_slice(&digits)
}

/// Returns a text in which each ASCII control character is written as `\x` and its two hexadecimal digits. Everything
/// else is unchanged, including backslashes. Returns `AllocError` only if the allocator refuses the memory for the
/// result.
pub fn shown<A: Allocator>(alloc: A, text: &[u8]) -> Result<Vec<u8, A>, AllocError>
    ensures { IfOk result (λ line. line.items ≡ shown text.now) }
{
    let mut out = Vec::new(alloc);
    for byte in text {
        push_shown(&mut out, *byte)?;
    }
    Ok(out)
}
