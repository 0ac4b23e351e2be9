//! Journals by themselves, without a session, and the numbers of seats.

ghost use Rattle.std.specs.Prelude.{◌≡◌};
ghost use Rattle.journal.specs.Format.{IsFormed};

use disk::Disk;
use journal::{Header, Journal, Kind, Record, prepare_record};
use memory_disks::MemoryDisk;
use rows::{Output, first_word};
use session::SeatNumber;
use std::alloc::Global;
use term::Names;

/// Appends a record, as `SEAT NUMBER KIND MARK..`.
fn put_record(record: &Record<Global>, out: &mut Output) {
    out.put(" ");
    out.put_shown(&record.seat);
    out.put(" ");
    out.put_shown(&record.number);
    out.put(match record.kind {
        Kind::Event => " E",
        Kind::Refusal => " R",
    });
    out.put(if record.verdict { "+" } else { "-" });
    for mark in &record.marks {
        out.put(" ");
        out.put_bytes(mark);
    }
    out.put(";");
}

/// Appends the header, and the records.
fn put_read(header: &Header<Global>, records: &[Record<Global>], out: &mut Output) {
    out.put_bytes(&header.root);
    out.put(" ");
    out.put_file(&header.script);
    for record in records {
        put_record(record, out);
    }
    out.put(" ");
}

/// Puts the records into the journal, and notes each that it doesn't take.
fn put_all<D: Disk>(
    alloc: Global,
    journal: &mut Journal<D>,
    records: &[Record<Global>],
    out: &mut Output,
) {
    for record in records {
        match prepare_record(alloc, record) {
            Ok(line) if journal.put(&line).is_ok() => {}
            _ => out.put("no put "),
        }
    }
}

/// Appends what was read, and the file of a new journal of the same.
fn put_copy(alloc: Global, header: &Header<Global>, records: &[Record<Global>], out: &mut Output)
    requires { IsFormed header.now.version header.now.script.items header.now.root.items records.now }
{
    let disk = MemoryDisk::new(Vec::new(alloc));
    put_read(header, records, out);
    match Journal::create(alloc, disk, &header.script, &header.root) {
        Ok(mut journal) => {
            put_all(alloc, &mut journal, records, out);
            out.put_file(journal.into_disk().bytes());
        }
        Err((error, _)) => out.put_shown(&error),
    }
}

/// Appends what the journal in the file holds, and the file of a new one that holds the same.
fn put_copied(alloc: Global, text: &str, out: &mut Output) {
    let disk = MemoryDisk::new(out.copy_of(text.as_bytes()));
    match Journal::open(alloc, disk) {
        Ok((_journal, header, records)) => put_copy(alloc, &header, &records, out),
        Err((error, _)) => out.put_shown(&error),
    }
}

/// Appends a seat's number, or `none`.
fn put_seat(seat: Option<SeatNumber>, out: &mut Output) {
    match seat {
        Some(seat) => out.put_shown(&seat.get()),
        None => out.put("none"),
    }
}

/// Plays a row of these kinds. Whether it is one is answered.
pub(crate) fn play(alloc: Global, row: &str, out: &mut Output) -> bool {
    let (kind, text) = first_word(row);
    match kind {
        "copied" => put_copied(alloc, text, out),
        "seat" => {
            let number = text.parse().unwrap_or(0);
            put_seat(SeatNumber::new(number), out);
            for names in [Names::Steps, Names::Bodies] {
                out.put(" ");
                put_seat(SeatNumber::after(number, names), out);
            }
        }
        _ => return false,
    }
    true
}
