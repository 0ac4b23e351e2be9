//! How a connection over a socket is closed.

use std::io;
use std::io::Read;
use std::time::Duration;

/// For how many milliseconds a connection that is over waits for each further read.
const PATIENCE: u64 = 500;

/// How many further reads are made of a connection that is over.
const MOST_READS: u8 = 16;

/// How many bytes a further read takes.
const READ_SIZE: usize = 4096;

/// A socket that is connected.
pub(crate) trait Socket: Read {
    /// Closes the sending side.
    fn end_writing(&self) -> io::Result<()>;

    /// Lets a read wait so long at most.
    fn limit_reads(&self, patience: Duration) -> io::Result<()>;
}

// Reads what the peer still sends. A connection that is closed while there are bytes to read is reset, and then its peer may lose
// replies.
fn read_on<S: Socket>(socket: &mut S) {
    let mut bytes = [0; READ_SIZE];
    for _ in 0..MOST_READS {
        match socket.read(&mut bytes) {
            Ok(0) | Err(_) => return,
            Ok(_) => {}
        }
    }
}

/// Closes the sending side, and reads what the peer still sends, until it closes its own, is silent, or was read often enough.
pub(crate) fn linger<S: Socket>(socket: &mut S) {
    if socket.end_writing().is_ok() && socket.limit_reads(Duration::from_millis(PATIENCE)).is_ok() {
        read_on(socket);
    }
}
