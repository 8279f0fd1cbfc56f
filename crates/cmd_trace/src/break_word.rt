//! The word after `--break`.
ghost use Rattle.std.specs.Prelude.{◌≡◌, ◌<◌, ◌^◌, ℕ, IfOk, IfSome, OnErr, Some, Option, option_map};
ghost use Rattle.tai_status.specs.declared.phase.Phase.{Phase};
ghost use Rattle.sup_core.specs.declared.asks.Sig.{Sig};
ghost use Rattle.cmd_trace.specs.Traced.{NamesBreak, break_text};

use sup_core::{read_byte, read_phase, read_sig};
use sup_trace::Break;

/// Returns the break that a word names: `byte:C`, with the byte C as in the line of an event; `phase:PHASE`; or
/// `signal:NAME`.
pub fn read_break(word: &[u8]) -> Option<Break>
    ensures found { IfSome result (λ at. word.now ≡ break_text at) }
    ensures byte { (byte : ℕ) → byte < 2 ^ 8
        → word.now ≡ break_text (Break.Byte byte) → result ≡ Some (Break.Byte byte) }
    ensures phase { (phase : Phase) → word.now ≡ break_text (Break.Phase phase) → result ≡ Some (Break.Phase phase) }
    ensures signal { (sig : Sig) → word.now ≡ break_text (Break.Signal sig) → result ≡ Some (Break.Signal sig) }
{
    if let Some(text) = word.strip_prefix(b"byte:") {
        return Some(Break::Byte(read_byte(text)?));
    }
    if let Some(text) = word.strip_prefix(b"phase:") {
        return Some(Break::Phase(read_phase(text)?));
    }
    if let Some(text) = word.strip_prefix(b"signal:") {
        return Some(Break::Signal(read_sig(text)?));
    }
    None
}

/// Says that the word after `--break` names no break.
#[derive(Clone, Copy, Debug, PartialEq, Eq)]
pub struct NoSuchBreak;

/// Returns the break that the word after `--break` names, if there is such a word.
pub fn read_spec(spec: Option<&str>) -> Result<Option<Break>, NoSuchBreak>
    ensures named { IfOk result (λ at. NamesBreak (option_map (λ word. word.now) spec.entry) at) }
    ensures wrong { OnErr result ((at : Option Break) → NamesBreak (option_map (λ word. word.now) spec.entry) at → ⊥) }
{
    let Some(word) = spec else {
        return Ok(None);
    };
    match read_break(word.as_bytes()) {
        Some(at) => Ok(Some(at)),
        None => Err(NoSuchBreak),
    }
}
