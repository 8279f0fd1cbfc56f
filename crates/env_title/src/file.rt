ghost use Rattle.std.specs.Prelude.{◌≡◌, MatchOption, IsOk, Err};
ghost use Rattle.env_title.specs.Files.{is_hidden};
ghost use Rattle.env_title.specs.Faults.{fault_at};

use crate::fault::EnvFault;
use crate::value::text_of;
use std::marker::Model;
use std::str;

/// A file of the folder. Contracts see the bytes of its name and its content.
#[derive(Debug, Drop)]
pub struct EnvFile<'a> {
    /// The name of the file, which is the name of the variable.
    pub name: &'a str,
    /// All bytes of the file.
    pub bytes: &'a [u8],
}

impl<'a> Model for EnvFile<'a> {
    ghost use Rattle.env_title.specs.Files.{File};

    ghost Value = { File };

    ghost view = { λ file. record { name = file.name.now; bytes = file.bytes.now } };
}

impl EnvFile<'_> {
    /// Returns whether the name begins with a dot.
    pub(crate) fn is_hidden(&self) -> bool
        ensures { result ≡ is_hidden self.now }
    {
        matches!(self.name.as_bytes(), [b'.', ..])
    }

    /// Returns the fault of the file at this place, if it has one. Needs no memory.
    pub fn fault(&self, place: usize) -> Option<EnvFault>
        ensures { result ≡ fault_at place self.now }
    {
        self.check(place).err()
    }

    // Returns an error if the file at this place has a fault.
    pub(crate) fn check(&self, place: usize) -> Result<(), EnvFault>
        ensures { MatchOption (fault_at place self.now) (IsOk result) (λ fault. result ≡ Err fault) }
    {
        if self.is_hidden() {
            return Ok(());
        }
        if self.name.as_bytes().contains(&b'=') {
            return Err(EnvFault::NameHasEquals(place));
        }
        match str::from_utf8(text_of(self.bytes)) {
            Ok(_) => Ok(()),
            Err(_) => Err(EnvFault::NotText(place)),
        }
    }
}
