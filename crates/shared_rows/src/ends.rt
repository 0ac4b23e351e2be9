//! How conversations ended, and what a session has then.

use alphabet::{Alphabet, EventSet};
use disk::Disk;
use rows::Output;
use shared::{Session, SessionError, Status, Summary};
use std::alloc::{Allocator, Global};
use wire::{End, Tally, WireError};

/// Appends how a conversation ended, whether rejections and faults were among its answers, and what was written.
pub(crate) fn put_talk(
    end: Result<End, WireError>,
    tally: Tally,
    written: &[u8],
    out: &mut Output,
) {
    out.put(match end {
        Ok(End::Quit) => "quit",
        Ok(End::Input) => "input",
        Ok(End::Line) => "line",
        Err(WireError::Read) => "no read",
        Err(WireError::Write) => "no write",
        Err(WireError::Memory) => "no memory",
    });
    out.put(if tally.rejected { " rejected" } else { "" });
    out.put(if 0 < tally.unjudged { " misuse" } else { "" });
    out.put(if tally.limit { " limit" } else { "" });
    out.put(" ");
    out.put_file(written);
    out.put("; ");
}

/// Appends counts, and whether the session is closed.
fn put_status(summary: Summary, closed: bool, out: &mut Output) {
    out.put("S");
    out.put_word(&summary.judged);
    out.put_word(&summary.events);
    out.put_word(&summary.refusals);
    out.put_word(&summary.rejected);
    out.put(if closed { " closed" } else { " open" });
}

/// Appends what a seat answers without a report.
pub(crate) fn put_looks<A: Allocator>(
    alphabet: &Alphabet<A>,
    status: Status,
    next: &EventSet,
    out: &mut Output,
) {
    put_status(status.summary, status.closed, out);
    out.put(", N");
    for place in 1..alphabet.len() + 2 {
        if let Some(event) = alphabet.at(place)
            && next.contains(event)
        {
            let mut name = out.copy_of(b" ");
            if alphabet.name_into(event, &mut name).is_err() {
                out.is_cut = true;
            }
            out.put_bytes(&name);
        }
    }
    out.put("; ");
}

/// Appends how many reports were answered with a receipt, where that is known.
pub(crate) fn put_receipts(count: Option<u64>, out: &mut Output) {
    match count {
        Some(count) => {
            out.put_shown(&count);
            out.put(" receipts");
        }
        None => out.put("no count"),
    }
}

/// Appends how many reports were answered with a receipt, and what the session has in the end.
pub(crate) fn put_session<D: Disk, A: Allocator>(
    count: Option<u64>,
    session: &Session<D, A>,
    out: &mut Output,
) {
    put_receipts(count, out);
    out.put("; L");
    out.put_word(&session.history().len());
    out.put("; ");
    put_status(session.summary(), session.is_closed(), out);
}

/// Appends what a session of the file has.
pub(crate) fn put_kept<D: Disk + Drop>(alloc: Global, disk: D, out: &mut Output) {
    out.put(" | ");
    match Session::replay(alloc, disk, None) {
        Ok((session, header)) => {
            drop(header);
            put_status(session.summary(), session.is_closed(), out);
            drop(session);
        }
        Err((error, disk)) => {
            drop(disk);
            put_unopened(error, out);
        }
    }
}

/// Appends why there is no session. A fault of the script is written as `script::read` reports it.
pub(crate) fn put_unopened(error: SessionError, out: &mut Output) {
    match error {
        SessionError::Script(fault) => out.put_shown(&fault),
        error => out.put_shown(&error),
    }
}
