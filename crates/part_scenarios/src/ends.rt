//! Connections of which each read fails in turn, and each write.

ghost use Rattle.std.specs.Prelude.{◌≡◌};
ghost use Rattle.alphabet.specs.Channels.{event_count};

use crate::lines::{Ends, came, put};
use alphabet::Alphabet;
use rows::Output;
use std::alloc::Global;
use std::sync::Wait;
use wire::{End, WireError};

/// A byte at a time, and to the end.
const BYTES: Ends = Ends {
    size: 1,
    fails: false,
    room: 1_000_000,
    most: 1,
};

/// Whether the connection ends as stated where the read after these bytes fails: it has the replies to the lines before, and tells the
/// failure where it hadn't ended before.
fn is_told_by_read<T: Wait>(
    rt: &T,
    alphabet: &Alphabet<Global>,
    alloc: Global,
    bytes: &[u8],
) -> bool
    requires { event_count alphabet.now ≡ 2 }
{
    let (mut replies, mut written) = (Vec::new(alloc), Vec::new(alloc));
    let fails = Ends {
        fails: true,
        ..BYTES
    };
    let (whole, _) = came(rt, alphabet, alloc, bytes, BYTES, &mut replies);
    let (failed, _) = came(rt, alphabet, alloc, bytes, fails, &mut written);
    let end = match whole.end {
        Ok(End::Input) => Err(WireError::Read),
        end => end,
    };
    failed.end == end && failed.judged == whole.judged && written.as_slice() == replies.as_slice()
}

/// Whether the reply from this place on is a verdict.
fn is_verdict(replies: &[u8], place: usize) -> bool {
    match replies.get(place..) {
        Some(reply) => reply.starts_with(b"OK ") || reply.starts_with(b"NO "),
        None => false,
    }
}

/// How many reports are judged by the time at which so many bytes of the replies are written and the next is to be.
fn judged_by(replies: &[u8], count: usize) -> u64 {
    let mut judged: u64 = 0;
    let mut begins = true;
    for (place, byte) in replies.iter().enumerate() {
        if begins && place <= count && is_verdict(replies, place) {
            judged = judged.saturating_add(1);
        }
        begins = *byte == b'\n';
    }
    judged
}

/// Whether the connection ends as stated where the write after so many bytes fails: it has written a beginning of the replies, has judged
/// what these are for, and tells the failure.
fn is_told_by_write<T: Wait>(
    rt: &T,
    alphabet: &Alphabet<Global>,
    alloc: Global,
    bytes: &[u8],
    replies: &[u8],
    count: usize,
) -> bool
    requires { event_count alphabet.now ≡ 2 }
{
    let mut written = Vec::new(alloc);
    let ends = Ends {
        room: count,
        ..BYTES
    };
    let (failed, _) = came(rt, alphabet, alloc, bytes, ends, &mut written);
    failed.end == Err(WireError::Write)
        && failed.judged == judged_by(replies, count)
        && replies.get(..count) == Some(written.as_slice())
}

/// Appends the reads that aren't told as stated, and how many there are.
fn put_reads<T: Wait>(
    rt: &T,
    alphabet: &Alphabet<Global>,
    alloc: Global,
    bytes: &[u8],
    out: &mut Output,
)
    requires { event_count alphabet.now ≡ 2 }
{
    for count in 0..=bytes.len() {
        let before = bytes.get(..count).unwrap_or(bytes);
        if !is_told_by_read(rt, alphabet, alloc, before) {
            out.put(", not the read after");
            out.put_word(&count);
        }
    }
    out.put(",");
    out.put_word(&bytes.len());
    out.put(" reads");
}

/// Appends the writes that aren't told as stated, and how many there are.
fn put_writes<T: Wait>(
    rt: &T,
    alphabet: &Alphabet<Global>,
    alloc: Global,
    bytes: &[u8],
    replies: &[u8],
    out: &mut Output,
)
    requires { event_count alphabet.now ≡ 2 }
{
    for count in 0..replies.len() {
        if !is_told_by_write(rt, alphabet, alloc, bytes, replies, count) {
            out.put(", not the write after");
            out.put_word(&count);
        }
    }
    out.put(",");
    out.put_word(&replies.len());
    out.put(" writes");
}

/// Appends what comes of a connection over the bytes, and of each read and each write that fails.
pub(crate) fn put_each_end<T: Wait>(
    rt: &T,
    alphabet: &Alphabet<Global>,
    alloc: Global,
    bytes: &[u8],
    out: &mut Output,
)
    requires { event_count alphabet.now ≡ 2 }
{
    let mut replies = Vec::new(alloc);
    let (whole, _) = came(rt, alphabet, alloc, bytes, BYTES, &mut replies);
    put(whole, &replies, out);
    put_reads(rt, alphabet, alloc, bytes, out);
    put_writes(rt, alphabet, alloc, bytes, &replies, out);
}
