//! The sockets of a service, in its folder.
ghost use Rattle.std.specs.Prelude.{◌≤◌, length};

use crate::access::{Access, given};
use crate::folder::{FileId, ServiceFolder, is_one_file, open_folder, path_in};
use crate::private_files::{FILE_MODE, FOLDER_MODE, make_private, remove};
use mio::net::UnixListener;
use std::fs::{File, Files, Permissions};
use std::io::{Error, ErrorKind};
use std::net::Net;
use std::os::unix::fs::{FileTypeExt, PermissionsExt};
use std::{fs, io};

/// Returns the access of the socket at a path, if an administrator gave it to somebody.
fn given_socket(files: &HostRuntime, path: &str) -> Option<Access> {
    let found = fs::symlink_metadata(files, path).ok()?;
    let before = if found.file_type().is_socket() {
        Some(Access::of(&found))
    } else {
        None
    };
    given(before, &Access::own(files, FILE_MODE)?)
}

impl ServiceFolder {
    /// Listens at a socket with this name. It replaces an old file of that name. If an administrator gave an old socket
    /// to somebody, the new one has the same owner and mode.
    fn listen<R: Files + Net>(&self, rt: &R, name: &str) -> io::Result<UnixListener>
        requires { length name.now ≤ 23 }
    {
        match given_socket(&self.files, self.path(name).as_str()) {
            Some(access) => self.listen_for(rt, name, &access),
            None => self.listen_alone(rt, name),
        }
    }

    /// Listens at a new socket with this name, for the owner alone. Removes an old file of that name first.
    #[inline(never)]
    fn listen_alone<R: Files + Net>(&self, rt: &R, name: &str) -> io::Result<UnixListener>
        requires { length name.now ≤ 23 }
    {
        let path = self.path(name);
        remove(&self.files, path.as_str())?;
        let listener = UnixListener::bind(rt, path.as_str())?;
        fs::set_permissions(
            &self.files,
            path.as_str(),
            Permissions::from_mode(FILE_MODE),
        )?;
        Ok(listener)
    }

    /// Listens at a new socket with this access, which then gets this name. It is made in a folder that nobody else can
    /// change, so that nobody else can use it before it has its access, or put another file in its place.
    #[inline(never)]
    fn listen_for<R: Files + Net>(
        &self,
        rt: &R,
        name: &str,
        access: &Access,
    ) -> io::Result<UnixListener>
        requires { length name.now ≤ 23 }
    {
        let room = self.private_room()?;
        let made = path_in(&room, "socket");
        remove(&self.files, made.as_str())?;
        let listener = UnixListener::bind(rt, made.as_str())?;
        fs::set_permissions(
            &self.files,
            made.as_str(),
            Permissions::from_mode(FILE_MODE),
        )?;
        // If it can't be given away, it is for its owner alone.
        let _ = access.give_at(&self.files, made.as_str());
        fs::rename(&self.files, made.as_str(), self.path(name).as_str())?;
        fs::remove_dir(&self.files, self.path("supervise/room").as_str())?;
        Ok(listener)
    }

    /// Opens the folder `supervise/room`, which only this process's account can change. It is made if it is missing.
    fn private_room(&self) -> io::Result<File> {
        let path = self.path("supervise/room");
        make_private(&self.files, path.as_str())?;
        let room = open_folder(&self.files, path.as_str())?;
        let found = room.metadata()?;
        let is_own = Access::own(&self.files, FOLDER_MODE) == Some(Access::of(&found));
        // A link to another folder of this account is not that folder.
        let there = FileId::found(fs::symlink_metadata(&self.files, path.as_str()));
        if is_own && is_one_file(there, FileId::found(Ok(found))) {
            Ok(room)
        } else {
            Err(Error::from(ErrorKind::PermissionDenied))
        }
    }

    /// Listens at the socket that takes control bytes.
    pub fn control<R: Files + Net>(&self, rt: &R) -> io::Result<UnixListener> {
        self.listen(rt, "supervise/control")
    }

    /// Listens at the socket that shows that the service is supervised.
    pub fn ok<R: Files + Net>(&self, rt: &R) -> io::Result<UnixListener> {
        self.listen(rt, "supervise/ok")
    }

    /// Removes both sockets, if they exist.
    pub fn remove_sockets(&self) -> io::Result<()> {
        let control = remove(&self.files, self.path("supervise/control").as_str());
        let ok = remove(&self.files, self.path("supervise/ok").as_str());
        control.and(ok)
    }
}
