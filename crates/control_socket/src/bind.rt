//! Making the socket (unix(7)).
use std::fs::{self, Files, Permissions};
use std::io::{self, ErrorKind};
use std::net::Net;
use std::os::unix::fs::{FileTypeExt, PermissionsExt};
use std::os::unix::net::{UnixListener, UnixStream};

/// The mode of the socket's file: its owner alone may connect.
const MODE: u32 = 0o600;

/// How many clients that came before the mode was set are turned away (own).
const EARLY: usize = 1024;

/// Why the socket isn't made.
#[derive(Drop)]
pub enum BindFault {
    /// Another server listens there.
    InUse,
    /// There is a file that is no socket.
    NoSocket,
    /// The system refused it.
    Io(io::Error),
}

impl From<io::Error> for BindFault {
    fn from(fault: io::Error) -> BindFault {
        BindFault::Io(fault)
    }
}

/// Listens at a path, and accepts without waiting. A socket there on which nobody listens any more is replaced; another file is left.
pub fn bind_control<R: Files + Net>(rt: &R, path: &str) -> Result<UnixListener, BindFault> {
    remove_stale(rt, path)?;
    let listener = UnixListener::bind(rt, path)?;
    fs::set_permissions(rt, path, Permissions::from_mode(MODE))?;
    listener.set_nonblocking(true)?;
    // A client that came before the mode was set isn't heard.
    for _ in 0..EARLY {
        if listener.accept().is_err() {
            break;
        }
    }
    Ok(listener)
}

/// Removes a socket at a path, if nobody listens on it.
fn remove_stale<R: Files + Net>(rt: &R, path: &str) -> Result<(), BindFault> {
    let Ok(found) = fs::symlink_metadata(rt, path) else {
        return Ok(());
    };
    if !found.file_type().is_socket() {
        return Err(BindFault::NoSocket);
    }
    match UnixStream::connect(rt, path) {
        Ok(_) => Err(BindFault::InUse),
        Err(fault) if fault.kind() == ErrorKind::ConnectionRefused => {
            fs::remove_file(rt, path)?;
            Ok(())
        }
        Err(fault) => Err(BindFault::Io(fault)),
    }
}
