//! Connections to the judge of `P = a -> d.2 -> P`.

ghost use Rattle.std.specs.Prelude.{◌≡◌};
ghost use Rattle.alphabet.specs.Channels.{event_count};

use crate::bytes::bytes_of;
use crate::devices::{Gathering, Narrow, Pieces, Telling};
use crate::ends::put_each_end;
use crate::turns::{Outcome, talk};
use alphabet::Alphabet;
use disk::Count;
use rows::{Output, Refusing, first_word, number_of};
use script::read;
use std::alloc::{Allocator, Global};
use std::cell::Cell;
use std::sync::Wait;
use wire::{End, Fault, Plain, WireError, refuse, unjudged};

/// Room for all replies of a row.
const ROOM: usize = 1_000_000;

/// How a connection's reader gives its bytes, and how its writer takes them.
#[derive(Clone, Copy)]
pub(crate) struct Ends {
    /// How many bytes are read at most at a time.
    pub size: usize,
    /// Whether the reader fails at the end.
    pub fails: bool,
    /// How many bytes the writer takes.
    pub room: usize,
    /// How many bytes are written at most at a time.
    pub most: usize,
}

/// All at a time, and to the end.
const WHOLE: Ends = Ends {
    size: ROOM,
    fails: false,
    room: ROOM,
    most: ROOM,
};

/// Appends how a connection ended, how many entries the judge has, and what was written.
pub(crate) fn put(came: Outcome, written: &[u8], out: &mut Output) {
    out.put(match came.end {
        Ok(End::Quit) => "quit",
        Ok(End::Input) => "input",
        Ok(End::Line) => "line",
        Err(WireError::Read) => "no read",
        Err(WireError::Write) => "no write",
        Err(WireError::Memory) => "no memory",
    });
    out.put_word(&came.judged);
    out.put(" [");
    out.put_bytes(written);
    out.put("]");
}

/// What comes of a connection over these bytes, in memory of this allocator; what was written, and how many bytes weren't read.
pub(crate) fn came<T: Wait, B: Allocator + Clone + Drop>(
    rt: &T,
    alphabet: &Alphabet<Global>,
    alloc: B,
    bytes: &[u8],
    ends: Ends,
    written: &mut Vec<u8>,
) -> (Outcome, usize)
    requires { event_count alphabet.now ≡ 2 }
{
    let waits = Cell::new(false);
    let mut reader = Pieces {
        bytes,
        size: ends.size,
        fails: ends.fails,
        waits: &waits,
        failures: Count::new(),
    };
    let mut writer = Narrow {
        taken: written,
        room: ends.room,
        most: ends.most,
        failures: Count::new(),
    };
    let outcome = talk(rt, alloc, &mut reader, &mut writer, alphabet, false);
    (outcome, reader.bytes.len())
}

/// The size of the pieces, the room of the writer, how the reader ends, and the text.
fn put_pieces<T: Wait>(
    rt: &T,
    alphabet: &Alphabet<Global>,
    alloc: Global,
    rest: &str,
    out: &mut Output,
)
    requires { event_count alphabet.now ≡ 2 }
{
    let (size, rest) = first_word(rest);
    let (room, rest) = first_word(rest);
    let (end, text) = first_word(rest);
    let ends = Ends {
        size: number_of(size) as usize,
        room: number_of(room) as usize,
        fails: end == "fails",
        most: ROOM,
    };
    let bytes = bytes_of(text, out);
    let mut written = Vec::new(alloc);
    let (outcome, _) = came(rt, alphabet, alloc, &bytes, ends, &mut written);
    put(outcome, &written, out);
}

/// The reader fails where it is asked for more before a reply was flushed.
fn put_waiting<T: Wait>(
    rt: &T,
    alphabet: &Alphabet<Global>,
    alloc: Global,
    bytes: &[u8],
    out: &mut Output,
)
    requires { event_count alphabet.now ≡ 2 }
{
    let waits = Cell::new(false);
    let mut writer = Plain::new(Telling {
        taken: Vec::new(alloc),
        waits: &waits,
    });
    let mut reader = Pieces {
        bytes,
        size: 2,
        fails: false,
        waits: &waits,
        failures: Count::new(),
    };
    let outcome = talk(rt, alloc, &mut reader, &mut writer, alphabet, false);
    let Telling { taken, waits } = writer.into_inner();
    put(outcome, &taken, out);
    out.put(if waits.get() { " waits" } else { " flushed" });
}

/// The writer hands on what it took when it is flushed.
fn put_gathering<T: Wait>(
    rt: &T,
    alphabet: &Alphabet<Global>,
    alloc: Global,
    bytes: &[u8],
    out: &mut Output,
)
    requires { event_count alphabet.now ≡ 2 }
{
    let mut reader = Plain::new(bytes);
    let mut writer = Gathering {
        gathered: Vec::new(alloc),
        handed_on: Vec::new(alloc),
        failures: Count::new(),
    };
    let outcome = talk(rt, alloc, &mut reader, &mut writer, alphabet, false);
    if outcome.end != Err(WireError::Write) {
        prove!(writer.gathered.is_empty());
    }
    put(outcome, &writer.handed_on, out);
}

/// A reader and a writer of the standard library, and after the connection a refusal for want of seats.
fn put_plain<T: Wait>(
    rt: &T,
    alphabet: &Alphabet<Global>,
    alloc: Global,
    bytes: &[u8],
    out: &mut Output,
)
    requires { event_count alphabet.now ≡ 2 }
{
    let mut reader = Plain::new(bytes);
    let mut writer = Plain::new(Vec::new(alloc));
    let outcome = talk(rt, alloc, &mut reader, &mut writer, alphabet, false);
    let refused = refuse(&mut writer, Fault::Seats).is_ok();
    put(outcome, &writer.into_inner(), out);
    out.put(if refused { " refused" } else { " no refusal" });
}

/// A judge that takes names.
fn put_named<T: Wait>(
    rt: &T,
    alphabet: &Alphabet<Global>,
    alloc: Global,
    bytes: &[u8],
    out: &mut Output,
)
    requires { event_count alphabet.now ≡ 2 }
{
    let mut reader = Plain::new(bytes);
    let mut writer = Plain::new(Vec::new(alloc));
    let outcome = talk(rt, alloc, &mut reader, &mut writer, alphabet, true);
    put(outcome, &writer.into_inner(), out);
    out.put(" ");
    put_tally(outcome, out);
}

/// Appends what there was among the answers, and how many lines weren't judged.
fn put_tally(outcome: Outcome, out: &mut Output) {
    out.put("rejected");
    out.put_answer(outcome.tally.rejected);
    out.put(" unjudged");
    out.put_word(&unjudged(&outcome.end, &outcome.tally));
    out.put(" limit");
    out.put_answer(outcome.tally.limit);
}

/// The number of a request for memory that is refused, and the text.
fn put_refusing<T: Wait>(
    rt: &T,
    alphabet: &Alphabet<Global>,
    alloc: Global,
    rest: &str,
    out: &mut Output,
)
    requires { event_count alphabet.now ≡ 2 }
{
    let (which, text) = first_word(rest);
    let bytes = bytes_of(text, out);
    let refusing = Refusing::new(alloc, number_of(which));
    let mut written = Vec::new(alloc);
    let (outcome, left) = came(rt, alphabet, &refusing, &bytes, WHOLE, &mut written);
    put(outcome, &written, out);
    out.put_answer(refusing.has_refused());
    out.put_word(&left);
}

/// Appends what comes of a connection over a whole text.
fn put_whole<T: Wait>(
    rt: &T,
    alphabet: &Alphabet<Global>,
    alloc: Global,
    row: (&str, &str),
    out: &mut Output,
)
    requires { event_count alphabet.now ≡ 2 }
{
    let (kind, text) = row;
    let bytes = bytes_of(text, out);
    match kind {
        "waiting" => put_waiting(rt, alphabet, alloc, &bytes, out),
        "gathering" => put_gathering(rt, alphabet, alloc, &bytes, out),
        "each_end" => put_each_end(rt, alphabet, alloc, &bytes, out),
        "plain" => put_plain(rt, alphabet, alloc, &bytes, out),
        "named" => put_named(rt, alphabet, alloc, &bytes, out),
        _ => {
            let mut written = Vec::new(alloc);
            let (outcome, _) = came(rt, alphabet, alloc, &bytes, WHOLE, &mut written);
            put_tally(outcome, out);
        }
    }
}

/// Appends what comes of a connection over the alphabet of the script.
fn put_kind<T: Wait>(
    rt: &T,
    alphabet: &Alphabet<Global>,
    alloc: Global,
    row: (&str, &str),
    out: &mut Output,
) {
    if alphabet.len() != 2 {
        return out.put("another alphabet");
    }
    match row {
        ("pieces", rest) => put_pieces(rt, alphabet, alloc, rest, out),
        ("refusing", rest) => put_refusing(rt, alphabet, alloc, rest, out),
        _ => put_whole(rt, alphabet, alloc, row, out),
    }
}

const SCRIPT: &[u8] = b"channel a\nchannel d : {2}\nP = a -> d.2 -> P";

/// Appends what comes of a connection, where the row is of this kind.
pub(crate) fn play<T: Wait>(rt: &T, alloc: Global, row: &str, out: &mut Output) -> bool {
    let (kind, rest) = first_word(row);
    if !matches!(
        kind,
        "pieces" | "waiting" | "gathering" | "plain" | "named" | "tally" | "refusing" | "each_end"
    ) {
        return false;
    }
    match read(alloc, SCRIPT, b"P") {
        Ok(spec) => put_kind(rt, spec.alphabet(), alloc, (kind, rest), out),
        Err(error) => out.put_word(&error),
    }
    true
}
