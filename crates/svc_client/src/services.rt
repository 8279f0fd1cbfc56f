//! The folders of services, as a client sees them.
use crate::notice::{Notice, NoticeText};
use cmd_base::StatusFront;
use std::io;
use tai_status::Cause;

/// Why a service was not reached.
#[derive(Clone, Copy, Debug, PartialEq, Eq)]
pub enum Unreached {
    /// Nothing accepts connections there: the service is not supervised.
    NotRunning,
    /// This user may not connect to it.
    Denied,
    /// It exists, and does not take what is sent: too many others already wait for it, or it has just ended.
    Unanswered,
}

/// The folders of services, as a client reaches them. Contracts see which calls were made and their results, while
/// these are recorded.
pub trait Services {
    ghost use Rattle.std.specs.Prelude.{◌∷◌, [], Option, Some, None, List, IfOk, IfErr, OnOk, OnErr, option_map};
    ghost use Rattle.svc_client.specs.Calls.{Call, Sent, Reached, ReadStatus, SoughtAge, SoughtChange, SoughtDown};
    ghost use Rattle.svc_client.specs.Calls.{ReadNotice, SoughtFinish, SoughtFolder};
    ghost use Rattle.tai_status.specs.Extended.{Extended};

    ghost calls: { Self → Option (List Call) } = { λ _. None };

    /// Sends bytes to the control socket of the service in a folder. A fault means that they did not all arrive.
    fn send(&mut self, folder: &str, bytes: &[u8]) -> Result<(), Unreached>
        ensures ok { OnOk result (Extended (calls self.old) (calls self.new) (Sent folder.now bytes.now None ∷ [])) }
        ensures err { IfErr result (λ why.
            Extended (calls self.old) (calls self.new) (Sent folder.now bytes.now (Some why) ∷ [])) };

    /// Asks whether the service in a folder is supervised: its socket `ok` accepts a connection. A fault means that it
    /// does not.
    fn reach(&mut self, folder: &str) -> Result<(), Unreached>
        ensures ok { OnOk result (Extended (calls self.old) (calls self.new) (Reached folder.now None ∷ [])) }
        ensures err { IfErr result (λ why.
            Extended (calls self.old) (calls self.new) (Reached folder.now (Some why) ∷ [])) };

    /// Returns the bytes of the status file of the service in a folder, up to one more than the longer record has.
    fn read_status(&mut self, folder: &str) -> io::Result<StatusFront>
        ensures ok { IfOk result (λ bytes.
            Extended (calls self.old) (calls self.new) (ReadStatus folder.now (Some bytes.items) ∷ [])) }
        ensures err { OnErr result (Extended (calls self.old) (calls self.new) (ReadStatus folder.now None ∷ [])) };

    /// Returns whether the folder of a service has a file `down`.
    fn has_down(&mut self, folder: &str) -> bool
        ensures sought { Extended (calls self.old) (calls self.new) (SoughtDown folder.now result ∷ []) };

    /// Returns whether the folder of a service has a file `finish`.
    fn has_finish(&mut self, folder: &str) -> bool
        ensures sought { Extended (calls self.old) (calls self.new) (SoughtFinish folder.now result ∷ []) };

    /// Returns the text of a notice of svscan about the processes of the service in a folder, if it can be read.
    fn read_notice(&mut self, folder: &str, notice: Notice) -> Option<NoticeText>
        ensures read { Extended (calls self.old) (calls self.new)
            (ReadNotice folder.now notice (option_map (λ text. text.items) result) ∷ []) };

    /// Returns when something in the folder `supervise` of the service was last made, replaced or removed, in
    /// nanoseconds since 1970. Returns None if that can't be found.
    fn changed_at(&mut self, folder: &str) -> Option<u64>
        ensures sought { Extended (calls self.old) (calls self.new) (SoughtChange folder.now result ∷ []) };

    /// Returns why there is no folder at a path, if there is none.
    fn folder_fault(&mut self, folder: &str) -> Option<Cause>
        ensures sought { Extended (calls self.old) (calls self.new) (SoughtFolder folder.now result ∷ []) };

    /// Returns how many hundredths of a second, at least, the process with a number has lived. Returns None if there is
    /// none, if it has ended, even if its parent has not waited for it, and if that can't be found.
    fn age(&mut self, process: u32) -> Option<u128>
        ensures sought { Extended (calls self.old) (calls self.new) (SoughtAge process result ∷ []) };
}
