//! The bytes that a text is written for.

use rows::{Output, first_word, number_of};

/// The byte that a character is written for.
fn byte_of(character: char) -> u8 {
    if character == '$' {
        b'\n'
    } else {
        (u32::from(character) % 256) as u8
    }
}

/// Appends what a text without repetitions is written for, so many times.
fn put_times(bytes: &mut Vec<u8>, text: &str, count: u64, out: &mut Output) {
    for _ in 0..count {
        for character in text.chars() {
            if bytes.push(byte_of(character)).is_err() {
                out.is_cut = true;
            }
        }
    }
}

/// The bytes that a text is written for: `$` is a line feed, any other character the byte of its number's last eight bits,
/// and between two backquotes stand a count and, after a blank, what is repeated so many times.
pub(crate) fn bytes_of(text: &str, out: &mut Output) -> Vec<u8> {
    let mut bytes = out.copy_of(b"");
    for (place, part) in text.split('`').enumerate() {
        if place % 2 == 0 {
            put_times(&mut bytes, part, 1, out);
        } else {
            let (count, repeated) = first_word(part);
            put_times(&mut bytes, repeated, number_of(count), out);
        }
    }
    bytes
}
