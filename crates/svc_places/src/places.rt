//! Which folder a word of a command names.
ghost use Rattle.std.specs.Prelude.{◌≡◌, ◌+◌, ◌<◌, ◌++◌, length, IfOk, OnErr};
ghost use Rattle.svc_places.specs.Places.{is_looked_up, is_name, place_of};

use arrayvec::ArrayString;
use std::io;
use std::io::Error;

/// The longest path on this system, in bytes, with the zero at its end.
pub(crate) const PATH_BYTES: usize = 4096;

/// The error number for a path that is too long (errno(3)).
const ENAMETOOLONG: i32 = 36;

/// The path of a service's folder, or of something in it.
pub type ServicePath = ArrayString<PATH_BYTES>;

/// Returns whether a word can be a name in a folder: it is not empty, and has no slash.
pub fn is_name(word: &str) -> bool
    ensures { result ≡ is_name word.now }
{
    !word.is_empty() && !word.as_bytes().contains(&b'/')
}

/// Returns whether a word is looked up in the folder of services: it is a name, nothing here has it, and there is such a
/// folder. An empty text says that there is none.
pub fn is_looked_up(word: &str, is_here: bool, services: &str) -> bool
    ensures { result ≡ is_looked_up word.now is_here services.now }
{
    is_name(word) && !is_here && !services.is_empty()
}

/// Returns four texts as one path. A path that is longer than any on this system is a fault.
fn joined(folder: &str, slash: &str, word: &str, rest: &str) -> io::Result<ServicePath>
    ensures ok { IfOk result (λ path. path.bytes ≡ folder.now ++ slash.now ++ word.now ++ rest.now) }
    ensures err { OnErr result
        (4096 < length folder.now + length slash.now + length word.now + length rest.now) }
{
    let mut path = ServicePath::new();
    if path.try_push_str(folder).is_err()
        || path.try_push_str(slash).is_err()
        || path.try_push_str(word).is_err()
        || path.try_push_str(rest).is_err()
    {
        return Err(Error::from_raw_os_error(ENAMETOOLONG));
    }
    Ok(path)
}

/// Returns the path of something in the folder of the service that a word names. `is_here` says whether there is such a
/// folder without a look into the folder of services. A path that is longer than any on this system is a fault.
pub fn path_at(word: &str, is_here: bool, services: &str, rest: &str) -> io::Result<ServicePath>
    ensures ok { IfOk result (λ path. path.bytes ≡ place_of word.now is_here services.now ++ rest.now) }
    ensures err { OnErr result (4096 < length (place_of word.now is_here services.now ++ rest.now)) }
{
    if is_looked_up(word, is_here, services) {
        joined(services, "/", word, rest)
    } else {
        joined("", "", word, rest)
    }
}
