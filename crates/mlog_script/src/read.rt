//! The actions of words that are not bad.
ghost use Rattle.std.specs.Prelude.{◌≡◌, ◌<◌, ◌≤◌, ◌++◌, ◌∷◌, [], Ok, true, is_ok, length, map, IfOk, IfErr, OnOk};
ghost use Rattle.std.specs.Prelude.{◌-◌, take, IsErr, IsOkUnless};
ghost use Rattle.mlog_script.specs.Script.{said, faults};
ghost use Rattle.mlog_script.specs.Action.{act, asked_by};

use crate::action::Action;
use crate::fault::{ScriptFault, ScriptFaultKind};
use std::alloc::Allocator;
use std::convert::AsSlice;

/// Reads the actions of words that are not bad.
pub(crate) fn read_actions<A: Allocator + Clone, W: AsSlice<u8>>(
    alloc: A,
    words: &[W],
) -> Result<Vec<Action<A>, A>, ScriptFault>
    requires { faults (map W.items words.now) ≡ [] }
    ensures ok { IfOk result (λ actions.
        map said (map W.items words.now) ≡ map (λ action. Ok (act action)) actions.items) }
    ensures memory { IfErr result (λ fault. (fault.kind ≡ ScriptFaultKind.OutOfMemory) × (0 < fault.word)
        × (fault.word ≤ length words.now)) }
{
    let mut actions = Vec::new(alloc);
    add_all(&mut actions, words)?;
    Ok(actions)
}

/// Reads the actions of words that are not bad, up to the first one that runs out of memory.
fn add_all<A: Allocator + Clone, W: AsSlice<u8>>(
    actions: &mut Vec<Action<A>, A>,
    words: &[W],
) -> Result<(), ScriptFault>
    requires lawful { faults (map W.items words.now) ≡ [] }
    requires none { actions.old.items ≡ [] }
    ensures ok { OnOk result (asked_by actions.new.items ≡ map said (map W.items words.now)) }
    ensures read { IfErr result (λ fault.
        asked_by actions.new.items ≡ take (fault.word - 1) (map said (map W.items words.now))) }
    ensures memory { IfErr result (λ fault. (fault.kind ≡ ScriptFaultKind.OutOfMemory) × (0 < fault.word)
        × (fault.word ≤ length words.now)) }
{
    for (place, word) in words.iter().enumerate() {
        if let Err(kind) = add(actions, word.as_slice()) {
            return Err(ScriptFault {
                word: place + 1,
                kind,
            });
        }
    }
    Ok(())
}

/// Adds the action of a word after the others.
fn add<A: Allocator + Clone>(
    actions: &mut Vec<Action<A>, A>,
    word: &[u8],
) -> Result<(), ScriptFaultKind>
    requires { is_ok (said word.now) ≡ true }
    ensures ok { OnOk result (asked_by actions.new.items ≡ asked_by actions.old.items ++ said word.now ∷ []) }
    ensures err { IsErr result → asked_by actions.new.items ≡ asked_by actions.old.items }
    ensures memory { IsOkUnless result ScriptFaultKind.OutOfMemory }
{
    let own = actions
        .allocator()
        .clone()
        .map_err(|_| ScriptFaultKind::OutOfMemory)?;
    let action = Action::read(own, word)?;
    actions
        .push(action)
        .map_err(|_| ScriptFaultKind::OutOfMemory)
}
