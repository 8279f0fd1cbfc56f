//! The status file of a service on this system, and paths into an open folder.
ghost use Rattle.std.specs.Prelude.{◌≡◌, ◌+◌, ◌≤◌, length};
ghost use Rattle.cmd_base.specs.Paths.{path_by_descriptor};

use crate::reporting::push_number;
use arrayvec::{ArrayString, ArrayVec};
use tai_status::STATUS_FRONT;

/// The first bytes of a status file, which are enough to read it (`tai_status::decode_front`).
pub type StatusFront = ArrayVec<u8, STATUS_FRONT>;

/// Returns the path of a name in the folder that is open under a descriptor.
pub fn path_by_descriptor<const N: usize>(descriptor: u32, name: &str) -> ArrayString<N>
    requires { length name.now + 35 ≤ N }
    ensures { result.bytes ≡ path_by_descriptor descriptor name.now }
{
    let mut path = ArrayString::new();
    path.push_str("/proc/self/fd/");
    push_number(&mut path, u64::from(descriptor));
    path.push_str("/");
    path.push_str(name);
    path
}
