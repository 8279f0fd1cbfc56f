//! Which words are bad.
ghost use Rattle.std.specs.Prelude.{◌≡◌, ◌<◌, ◌≤◌, [], length, IfErr, map, bytes_eq, IsOk, OnOk, MatchOption, Err};
ghost use Rattle.std.specs.List.{list_any};
ghost use Rattle.mlog_script.specs.Script.{is_among, fault_of, faults, first_fault};

use crate::fault::{ScriptFault, ScriptFaultKind};
use crate::word::{Said, read_word};
use std::convert::AsSlice;

/// Returns an error for the first bad word of a script. Needs no memory.
pub fn check_words<W: AsSlice<u8>>(words: &[W]) -> Result<(), ScriptFault>
    ensures reported { MatchOption (first_fault (map W.items words.now)) (IsOk result) (λ fault. result ≡ Err fault) }
    ensures lawful { OnOk result (faults (map W.items words.now) ≡ []) }
    ensures word { IfErr result (λ fault. (0 < fault.word) × (fault.word ≤ length words.now)) }
{
    for (place, word) in words.iter().enumerate() {
        if let Some(kind) = fault_of(&words[..place], word.as_slice()) {
            return Err(ScriptFault {
                word: place + 1,
                kind,
            });
        }
    }
    Ok(())
}

/// Returns the fault of a word that comes after these words.
fn fault_of<W: AsSlice<u8>>(before: &[W], word: &[u8]) -> Option<ScriptFaultKind>
    ensures { result ≡ fault_of (map W.items before.now) word.now }
{
    match read_word(word) {
        Ok(Said::Stamp) if !before.is_empty() => Some(ScriptFaultKind::StampNotFirst),
        Ok(Said::Log(folder)) if stands_among(before, folder) => {
            Some(ScriptFaultKind::SameLogTwice)
        }
        Ok(_) => None,
        Err(kind) => Some(kind),
    }
}

/// Returns whether a word is among these.
#[tactic(auto, unfolding(crate::specs::Script::is_among))]
fn stands_among<W: AsSlice<u8>>(words: &[W], word: &[u8]) -> bool
    ensures { result ≡ is_among (map W.items words.now) word.now }
{
    let mut rest = words;
    while let [other, tail @ ..] = rest {
        if other.as_slice() == word {
            return true;
        }
        rest = tail;
    }
    false
}
