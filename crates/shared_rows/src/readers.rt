//! Readers of a board that may have places for fewer of them.

ghost use Rattle.std.specs.Prelude.{[], ◌≡◌, ◌<◌, ◌≤◌, IfSome};

use crate::ends::put_unopened;
use disk::Disk;
use locked::{BoardReader, Locked, close};
use memory_disks::MemoryDisk;
use rows::{Output, first_word, number_of};
use shared::{Opened, Recorder, Session, SessionOn, Sharing};
use std::alloc::Global;
use std::marker::Brand;
use std::sync::Wait;
use std::sync::ledger::Blank;

/// How many places for readers there are, and how many readers are asked for.
#[derive(Clone, Copy)]
struct Asked {
    places: u64,
    readers: u64,
}

/// Asks for one more reader, and appends the number of its seat, or why there is none. The reader is kept, and with it its place.
fn admit<J: Recorder, N: Sharing<J>>(
    locked: &mut Locked<J, Global, N>,
    kept: &mut Vec<BoardReader<N, Global>, Global>,
    out: &mut Output,
) {
    match locked.admit() {
        Ok((number, counts, board_reader)) => {
            drop(counts);
            let number = number.get();
            out.put_shown(&number);
            if kept.push(board_reader).is_err() {
                out.is_cut = true;
            }
        }
        Err(fault) => out.put_shown(&fault.plain()),
    }
}

/// Appends what comes of so many readers, and of one more once all of them are gone.
fn put_readers<J: Recorder, N: Sharing<J>>(
    alloc: Global,
    locked: &mut Locked<J, Global, N>,
    readers: u64,
    out: &mut Output,
) {
    let mut kept = Vec::new(alloc);
    for turn in 0..readers {
        out.put(if turn == 0 { "" } else { ", " });
        admit(locked, &mut kept, out);
    }
    drop(kept);
    out.put("; ");
    let mut later = Vec::new(alloc);
    admit(locked, &mut later, out);
}

/// Appends what comes of the readers of this session's board. The caller picks the names.
fn share<J: Recorder + Drop, N: Sharing<J>, T: Wait>(
    rt: &T,
    alloc: Global,
    session: SessionOn<J, Global>,
    opened: Opened,
    blank: Blank,
    asked: Asked,
    out: &mut Output,
)
    requires story { (session.spec ≡ N.spec) × (session.history ≡ N.opening) × (session.offered ≡ []) }
    requires before { IfSome N.before (λ before. before ≡ session) }
    requires book { opened.seen.book ≡ N.book }
    requires ledger { (blank.name ≡ N.name) × (blank.parts ≡ N.parts) × (N.all ≡ N.parts) × (N.all ≡ 65) }
    requires places { (0 < asked.places) × (asked.places ≤ 64) }
{
    match Locked::<J, Global, N>::new(rt, alloc, session, opened, blank, asked.places) {
        Ok(locked) => {
            let mut locked = locked;
            put_readers(alloc, &mut locked, asked.readers, out);
            let (session, _, _, _, _) = close(rt, locked);
            drop(session);
        }
        Err(_) => out.put("40 memory"),
    }
}

/// Appends what comes of the readers of a new session on this disk.
fn on_disk<D: Disk + Drop, T: Wait>(
    rt: &T,
    alloc: Global,
    disk: D,
    asked: Asked,
    out: &mut Output,
) {
    if asked.places == 0 || asked.places > 64 {
        return out.put("no such number of places");
    }
    match Session::create(alloc, disk, b"P = SKIP\n", b"P") {
        Ok(session) => share::<_, Brand, _>(
            rt,
            alloc,
            session,
            Opened::new(),
            Blank::new(65),
            asked,
            out,
        ),
        Err((error, _)) => put_unopened(error, out),
    }
}

/// Plays a row of this kind. Whether it is one is answered.
pub(crate) fn play<T: Wait>(rt: &T, alloc: Global, row: &str, out: &mut Output) -> bool {
    let (kind, text) = first_word(row);
    if kind != "readers" {
        return false;
    }
    let (places, readers) = first_word(text);
    let asked = Asked {
        places: number_of(places),
        readers: number_of(readers),
    };
    on_disk(rt, alloc, MemoryDisk::new(Vec::new(alloc)), asked, out);
    true
}
