//! A disk on a real file, one on a file in memory, and one in memory.

use disk::{Disk, DiskFault};
use file_disk::{FileDisk, MemoryFile, PlacedFile};
use memory_disks::MemoryDisk;
use rows::{Output, first_word, number_of, parts};
use std::alloc::Global;
use std::fs::{self, OpenOptions};
use std::io;
use std::rt::Files;

/// The file, in the folder that the program is run in.
const NAME: &str = "file";

/// The most bytes that a call reads.
const ROOM: usize = 20;

/// Appends what comes of a call that answers nothing more.
fn put_done(done: Result<(), DiskFault>, out: &mut Output) {
    out.put(if done.is_ok() { "done" } else { "failed" });
}

/// Appends a length.
fn put_count(count: Result<usize, DiskFault>, out: &mut Output) {
    match count {
        Ok(count) => out.put_shown(&count),
        Err(DiskFault) => out.put("failed"),
    }
}

/// Appends what comes of the call on the disk: of a read, how many bytes are read, and what the buffer, of dots before, has after that.
fn put_answer<D: Disk>(disk: &mut D, call: &str, out: &mut Output) {
    let (kind, rest) = first_word(call);
    let (at, text) = first_word(rest);
    let at = number_of(at) as usize;
    match kind {
        "length" => put_count(disk.len(), out),
        "read" => {
            let mut buf = [b'.'; ROOM];
            put_count(disk.read_at(at, &mut buf), out);
            out.put(" ");
            out.put_bytes(&buf);
        }
        "write" => put_done(disk.write_at(at, text.as_bytes()), out),
        "cut" => put_done(disk.cut(at), out),
        "sync" => put_done(disk.sync(), out),
        _ => out.put("no such call"),
    }
}

/// Appends what comes of the calls on the disk.
fn put_answers<D: Disk>(disk: &mut D, calls: &str, out: &mut Output) {
    for call in calls.split("; ") {
        put_answer(disk, call, out);
        out.put("; ");
    }
}

/// Writes the file, and opens it for reading and writing.
fn opened<R: Files>(rt: &R, text: &str) -> io::Result<R::File> {
    fs::write(rt, NAME, text.as_bytes())?;
    OpenOptions::new().read(true).write(true).open(rt, NAME)
}

/// Appends what comes of the calls on a disk on a file of this text, and what the file is at the end. It is removed after that.
fn put_file_disk<R: Files + AllocGlobal>(rt: &R, text: &str, calls: &str, out: &mut Output)
where
    R::File: PlacedFile,
{
    match opened(rt, text) {
        Ok(file) => put_answers(&mut FileDisk::new(file), calls, out),
        Err(_) => out.put("no file"),
    }
    match fs::read_to_string(rt, NAME) {
        Ok(text) => out.put(&text),
        Err(_) => out.put("no text"),
    }
    let _ = fs::remove_file(rt, NAME);
}

/// Appends the same of a disk on a file in memory, which reads and writes no more than so many bytes in one call.
fn put_short_disk(rest: &str, out: &mut Output) {
    let (most, rest) = first_word(rest);
    let (text, calls) = parts(rest);
    let bytes = out.copy_of(text.as_bytes());
    let alloc = *bytes.allocator();
    match MemoryFile::new(alloc, bytes, number_of(most) as usize) {
        Ok(file) => {
            let mut disk = FileDisk::new(file);
            put_answers(&mut disk, calls, out);
            out.put_bytes(disk.into_file().bytes());
        }
        Err(_) => out.put("no file"),
    }
}

/// Appends the same of a disk in memory.
fn put_memory_disk(text: &str, calls: &str, out: &mut Output) {
    let mut disk = MemoryDisk::new(out.copy_of(text.as_bytes()));
    put_answers(&mut disk, calls, out);
    out.put_bytes(disk.bytes());
}

/// Plays a row of these kinds. Whether it is one is answered.
pub(crate) fn play<R: Files + AllocGlobal>(rt: &R, row: &str, out: &mut Output) -> bool
where
    R::File: PlacedFile,
{
    let (kind, rest) = first_word(row);
    let (text, calls) = parts(rest);
    match kind {
        "file" => put_file_disk(rt, text, calls, out),
        "short" => put_short_disk(rest, out),
        "disk" => put_memory_disk(text, calls, out),
        _ => return false,
    }
    true
}
