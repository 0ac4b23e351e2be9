//! The address to listen at.

use crate::wish::Address;
use std::alloc::{AllocError, Global};
use std::fmt::Write;
use std::net::SocketAddrV4;

/// What a word begins with that names a socket's file.
const UNIX: &str = "unix:";

/// The address that the word is the text of: `unix:` and the name of a file, or an address of the machine itself.
pub(crate) fn address_of<'a>(
    alloc: Global,
    word: &'a str,
) -> Result<Option<Address<'a>>, AllocError> {
    match word.strip_prefix(UNIX) {
        Some("") => Ok(None),
        Some(file) => Ok(Some(Address::Unix(file))),
        None => Ok(match port_of(alloc, word)? {
            Some(address) => Some(Address::Tcp(address)),
            None => None,
        }),
    }
}

// The address that the word is the text of, where it is one of the machine itself: `127.x.y.z:port`, in decimals without leading zeros.
fn port_of(alloc: Global, word: &str) -> Result<Option<SocketAddrV4>, AllocError> {
    let Ok(address) = word.parse::<SocketAddrV4>() else {
        return Ok(None);
    };
    let mut text = String::new(alloc);
    if write!(text, "{address}").is_err() {
        return Err(AllocError);
    }
    let is_own = address.ip().is_loopback() && text.as_str() == word;
    Ok(if is_own { Some(address) } else { None })
}
