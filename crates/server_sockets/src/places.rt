//! The file of a socket: whose it is, and how it is made and removed.

ghost use Rattle.std.specs.Prelude.{◌≤◌, length};

use lg_outside::Failed;
use mio::net as without_waiting;
use std::fs::{self, Permissions};
use std::io::{self, ErrorKind};
use std::net::Net;
use std::os::fd::OwnedFd;
use std::os::unix::fs::{FileTypeExt, MetadataExt, PermissionsExt};
use std::os::unix::net::{UnixListener, UnixStream};
use std::rt::Files;
use std::time::Duration;

/// How many bytes the path of a socket may have.
const MOST: usize = 107;

/// The mode of the socket: its owner and its group connect.
const OWNER_AND_GROUP: u32 = 0o660;

/// How long one accept waits, in milliseconds.
const TURN: u64 = 100;

/// Which file of the system one is.
#[derive(Clone, Copy, PartialEq, Eq)]
struct Identity {
    device: u64,
    inode: u64,
}

/// The file of a socket: its path, and which file it is.
#[derive(Drop)]
pub struct SocketFile {
    path: [u8; MOST],
    size: usize,
    identity: Identity,
    ghost within: { size ≤ 107 },
}

/// What stands at the path of a socket.
enum Standing {
    Nothing,
    /// A socket whose server is gone.
    Dead(Identity),
    /// What has to be left alone: a server that answers, another kind of file, or what can't be looked at.
    Kept,
}

/// Which file stands at the path, links not followed.
fn identity_at<F: Files>(files: &F, path: &str) -> io::Result<Identity> {
    let found = fs::symlink_metadata(files, path)?;
    Ok(Identity {
        device: found.dev(),
        inode: found.ino(),
    })
}

/// What stands at the path. A socket is asked whether it answers, without waiting.
fn standing_at<R: Files + Net>(rt: &R, path: &str) -> Standing {
    let found = match fs::symlink_metadata(rt, path) {
        Ok(found) => found,
        Err(error) => {
            return if error.kind() == ErrorKind::NotFound {
                Standing::Nothing
            } else {
                Standing::Kept
            };
        }
    };
    if !found.file_type().is_socket() {
        return Standing::Kept;
    }
    match without_waiting::UnixStream::connect(rt, path) {
        Err(error) if error.kind() == ErrorKind::ConnectionRefused => Standing::Dead(Identity {
            device: found.dev(),
            inode: found.ino(),
        }),
        _ => Standing::Kept,
    }
}

/// Removes the file at the path where it is this one.
fn remove_at<F: Files>(files: &F, path: &str, identity: Identity) -> io::Result<()> {
    if identity_at(files, path)? == identity {
        return fs::remove_file(files, path);
    }
    Ok(())
}

/// Makes way for a new socket at the path: a dead one is removed, and anything else is a failure and left as it is.
fn clear<R: Files + Net>(rt: &R, path: &str) -> Result<(), Failed> {
    match standing_at(rt, path) {
        Standing::Nothing => Ok(()),
        Standing::Dead(identity) => match remove_at(rt, path, identity) {
            Ok(()) => Ok(()),
            Err(_) => Err(Failed),
        },
        Standing::Kept => Err(Failed),
    }
}

/// The listener, of which one accept waits no longer than a turn.
fn with_turns(listener: UnixListener) -> io::Result<UnixListener> {
    let socket = UnixStream::from(OwnedFd::from(listener));
    socket.set_read_timeout(Some(Duration::from_millis(TURN)))?;
    Ok(UnixListener::from(OwnedFd::from(socket)))
}

/// Gives the socket at the path its mode, and its listener turns.
fn prepared<F: Files>(files: &F, path: &str, listener: UnixListener) -> io::Result<UnixListener> {
    fs::set_permissions(files, path, Permissions::from_mode(OWNER_AND_GROUP))?;
    with_turns(listener)
}

/// A listener at the path, and the file of its socket. Where the socket can't be given its mode it is removed again.
pub(crate) fn listen_at<R: Files + Net>(
    rt: &R,
    path: &str,
) -> Result<(UnixListener, SocketFile), Failed> {
    if path.len() > MOST {
        return Err(Failed);
    }
    clear(rt, path)?;
    let Ok(listener) = UnixListener::bind(rt, path) else {
        return Err(Failed);
    };
    let Ok(identity) = identity_at(rt, path) else {
        return Err(Failed);
    };
    match prepared(rt, path, listener) {
        Ok(listener) => Ok((listener, SocketFile::new(path, identity))),
        Err(_) => {
            let _ = remove_at(rt, path, identity);
            Err(Failed)
        }
    }
}

impl SocketFile {
    /// The file at a path.
    fn new(path: &str, identity: Identity) -> SocketFile
        requires { length path.now ≤ 107 }
    {
        let mut kept = [0u8; MOST];
        kept[..path.len()].copy_from_slice(path.as_bytes());
        SocketFile {
            path: kept,
            size: path.len(),
            identity,
        }
    }

    /// The path.
    fn path(&self) -> Option<&str> {
        str::from_utf8(&self.path[..self.size]).ok()
    }

    /// Whether the file was removed, or another one stands in its place.
    pub(crate) fn is_gone<F: Files>(&self, files: &F) -> bool {
        let Some(path) = self.path() else {
            return false;
        };
        match identity_at(files, path) {
            Ok(found) => found != self.identity,
            Err(error) => error.kind() == ErrorKind::NotFound,
        }
    }

    /// Removes the file, where it is still this one.
    pub(crate) fn remove<F: Files>(&self, files: &F) {
        if let Some(path) = self.path() {
            let _ = remove_at(files, path, self.identity);
        }
    }
}
