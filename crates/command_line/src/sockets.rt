//! A socket in the file system, at which connections are taken.

use std::fs::{Files, Permissions, remove_file, set_permissions, symlink_metadata};
use std::io;
use std::io::ErrorKind;
use std::net::Net;
use std::os::unix::fs::{FileTypeExt, PermissionsExt};
use std::os::unix::net::{UnixListener, UnixStream};

/// The rights of the socket's file: its owner may connect, and nobody else.
const OWNER_ALONE: u32 = 0o600;

// Whether the file is a socket.
fn is_socket<R: Files>(rt: &R, name: &str) -> bool {
    match symlink_metadata(rt, name) {
        Ok(metadata) => metadata.file_type().is_socket(),
        Err(_) => false,
    }
}

// Whether the file is a socket at which nobody listens any more.
fn is_left_over<R: Files + Net>(rt: &R, name: &str) -> bool {
    if !is_socket(rt, name) {
        return false;
    }
    match UnixStream::connect(rt, name) {
        Err(fault) => fault.kind() == ErrorKind::ConnectionRefused,
        Ok(_) => false,
    }
}

// Listens at the file, which isn't there, or is left over from a run that ended.
fn bound<R: Files + Net>(rt: &R, name: &str) -> io::Result<UnixListener> {
    match UnixListener::bind(rt, name) {
        Err(fault) if fault.kind() == ErrorKind::AddrInUse && is_left_over(rt, name) => {
            remove_file(rt, name)?;
            UnixListener::bind(rt, name)
        }
        answer => answer,
    }
}

/// Listens at the file, to which nobody but its owner may connect. A socket that is left over from a run that ended is replaced; one at
/// which somebody listens stays, and so does a file that is none.
pub(crate) fn listener_at<R: Files + Net>(rt: &R, name: &str) -> io::Result<UnixListener> {
    let listener = bound(rt, name)?;
    set_permissions(rt, name, Permissions::from_mode(OWNER_ALONE))?;
    Ok(listener)
}
