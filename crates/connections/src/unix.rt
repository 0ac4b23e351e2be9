//! Connections over sockets in the file system.

use crate::gate::{Accept, AcceptFault, Close, Listen};
use crate::lingering::{Socket, linger};
use std::io;
use std::io::ErrorKind;
use std::net::Shutdown;
use std::os::fd::OwnedFd;
use std::os::unix::net::{UnixListener, UnixStream};
use std::time::Duration;
use wire::Plain;

impl Socket for UnixStream {
    fn end_writing(&self) -> io::Result<()> {
        self.shutdown(Shutdown::Write)
    }

    fn limit_reads(&self, patience: Duration) -> io::Result<()> {
        self.set_read_timeout(Some(patience))
    }
}

impl Close for Plain<UnixStream> {
    fn close(self) {
        linger(&mut self.into_inner());
    }
}

/// Takes the connections of a listener.
#[derive(Drop)]
pub struct UnixAccept {
    listener: UnixListener,
}

// A connection of a listener: what its lines are read from, and what its replies are written to. `None` where the system has no
// further handle for it, which closes it.
fn ends_of(stream: UnixStream) -> Option<(Plain<UnixStream>, Plain<UnixStream>)> {
    // It has the listener's limit from its beginning.
    stream.set_read_timeout(None).ok()?;
    let other = stream.try_clone().ok()?;
    Some((Plain::new(stream), Plain::new(other)))
}

impl UnixAccept {
    /// The connections of this listener. It is bound to its file already, which stays when this is dropped. `accept` then
    /// waits for each connection without end, passes over one that its peer gave up before, and fails where the system does. No
    /// clause says which connections come, since nothing is known of what the system does.
    pub fn new(listener: UnixListener) -> UnixAccept {
        UnixAccept { listener }
    }

    /// The same, but an accept waits no longer than this moment.
    pub fn within(listener: UnixListener, moment: Duration) -> io::Result<UnixAccept> {
        // How long an accept waits is an option of the socket. The library sets it through a stream, so through a second handle of the
        // listener that is taken for one.
        let handle = OwnedFd::from(listener.try_clone()?);
        UnixStream::from(handle).set_read_timeout(Some(moment))?;
        Ok(UnixAccept { listener })
    }

    // The next connection. One that its peer gave up before it was taken is passed over.
    fn next(&self) -> io::Result<UnixStream> {
        for _ in 0..u64::MAX {
            match self.listener.accept() {
                Ok((stream, _)) => return Ok(stream),
                Err(fault) if fault.kind() == ErrorKind::ConnectionAborted => {}
                Err(fault) => return Err(fault),
            }
        }
        Err(io::Error::from(ErrorKind::ConnectionAborted))
    }
}

impl Accept for UnixAccept {
    type Reader = Plain<UnixStream>;

    type Writer = Plain<UnixStream>;

    // Nothing is known of what the system does.
    ghost takes = { λ _ _ _ _. Unit {0} };

    ghost fails = { λ _ _. Unit {0} };

    fn accept(&mut self) -> Result<(Plain<UnixStream>, Plain<UnixStream>), AcceptFault> {
        let Ok(stream) = self.next() else {
            return Err(AcceptFault);
        };
        match ends_of(stream) {
            Some(ends) => Ok(ends),
            None => Err(AcceptFault),
        }
    }
}

impl Listen for UnixAccept {
    fn accept_soon(
        &mut self,
    ) -> Result<Option<(Plain<UnixStream>, Plain<UnixStream>)>, AcceptFault> {
        let stream = match self.next() {
            Ok(stream) => stream,
            Err(fault) if fault.kind() == ErrorKind::WouldBlock => return Ok(None),
            Err(_) => return Err(AcceptFault),
        };
        match ends_of(stream) {
            Some(ends) => Ok(Some(ends)),
            None => Err(AcceptFault),
        }
    }
}
