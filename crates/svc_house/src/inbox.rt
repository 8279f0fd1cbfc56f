//! The source of a service's control bytes.
use std::sync::Wait;

/// A source of control bytes. Contracts see the bytes that it gave, in order (`given`), and how often it had none
/// (`nones`, a count that may be at its maximum). If it takes from a mailbox, they see which one, and with how many
/// senders (`source`).
pub trait Inbox {
    ghost use Rattle.std.specs.Prelude.{◌≡◌, ◌++◌, ℕ, Option, None, List};
    ghost use Rattle.atomic_table.specs.Seated.{TableId};
    ghost use Rattle.tai_status.specs.Counted.{Rose};
    ghost use Rattle.svc_house.specs.Calls.{as_list};

    ghost given: { Self → List ℕ };

    ghost nones: { Self → ℕ };

    ghost source: { Self → Option (TableId × ℕ) } = { λ _. None };

    /// Takes the next byte, if there is one.
    fn take<R: Wait>(&mut self, rt: &R) -> Option<u8>
        ensures source { source self.new ≡ source self.old }
        ensures given { given self.new ≡ given self.old ++ as_list result }
        ensures nones { result ≡ None → Rose (nones self.old) (nones self.new) };
}
