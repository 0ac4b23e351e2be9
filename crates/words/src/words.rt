//! The program's words as text. What is no UTF-8 in a word becomes U+FFFD, which is in no name of a process.
use std::alloc::{AllocError, Global};
use std::env::{Env, FillError};

/// The longest word that is asked for, in bytes.
const LONGEST: usize = 1 << 22;

// The bytes of the word at this place, or None past the last.
fn word_bytes<R: Env>(rt: &R, alloc: Global, at: usize) -> Result<Option<Vec<u8>>, AllocError> {
    let mut size = 256;
    for _ in 0..15 {
        let mut bytes = vec![in alloc; 0u8; size]?;
        match rt.arg(at, bytes.as_mut_slice()) {
            Ok(len) => {
                bytes.truncate(len);
                return Ok(Some(bytes));
            }
            Err(FillError::NotPresent) => return Ok(None),
            Err(FillError::TooLong) => size = size.saturating_mul(2).min(LONGEST),
        }
    }
    Err(AllocError)
}

/// All words, the first of which is the program's name.
pub fn words_of<R: Env>(rt: &R, alloc: Global) -> Result<Vec<String>, AllocError> {
    let mut words = Vec::new(alloc);
    for at in 0..usize::MAX {
        match word_bytes(rt, alloc, at)? {
            Some(bytes) => words.push(String::from_utf8_lossy(alloc, bytes.as_slice())?)?,
            None => break,
        }
    }
    Ok(words)
}
