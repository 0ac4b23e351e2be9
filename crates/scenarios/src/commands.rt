//! What `check`, `replay`, `show` and `print` come to in memory of an allocator that refuses requests.

use crate::clients::Client;
use crate::memory::Memory;
use disk::Disk;
use memory_disks::{Afterwards, FaultDisk};
use program::{
    DisplayError, Exit, Format, Options, PrintError, Selection, SessionError, check,
    exit_of_journal, exit_of_opening, exit_of_script, print, replay, show,
};
use rows::{Output, first_word, parts};
use std::alloc::Allocator;
use std::sync::Wait;
use term::Names;
use wire::Plain;

/// Appends the exit status.
fn put_exit(exit: Exit, out: &mut Output) {
    out.put(" status ");
    out.put_shown(&exit.code());
}

/// Appends why there is no session, and the exit status.
fn put_unopened(error: SessionError, exit: Exit, out: &mut Output) {
    match error {
        SessionError::Script(fault) => out.put_shown(&fault),
        error => out.put_shown(&error),
    }
    put_exit(exit, out);
}

/// Appends the replies to the lines of a session on this disk, or why there is none, and the exit status.
fn put_checked<T: Wait, D: Disk + Drop, A: Allocator + Copy + Drop>(
    rt: &T,
    alloc: A,
    disk: D,
    memory: Memory,
    text: &str,
    out: &mut Output,
) {
    let (begin, lines) = parts(text);
    let (root, script) = first_word(begin);
    let mut reader = Client::new(lines.as_bytes(), memory);
    let mut writer = Plain::new(out.copy_of(b""));
    let (root, script) = (root.as_bytes(), script.as_bytes());
    let names = Names::Steps;
    let came = check(
        rt,
        alloc,
        disk,
        script,
        root,
        names,
        &mut reader,
        &mut writer,
    );
    out.put_bytes(&writer.into_inner());
    match came {
        Ok(checked) => {
            put_exit(checked.exit, out);
            drop(checked);
        }
        Err(error) => put_unopened(error, exit_of_opening(&error), out),
    }
}

/// Appends the counts of the journal on the disk, or why it gives no session, and the exit status.
fn put_replayed<D: Disk + Drop, A: Allocator + Copy + Drop>(alloc: A, disk: D, out: &mut Output) {
    match replay(alloc, disk) {
        Ok(replayed) => {
            out.put_bytes(&replayed.line);
            put_exit(replayed.exit, out);
            drop(replayed);
        }
        Err(error) => put_unopened(error, exit_of_journal(&error), out),
    }
}

/// Appends what `show` prints of the journal on the disk, or why it gives no session, and the exit status.
fn put_displayed<D: Disk + Drop, A: Allocator + Copy + Drop>(
    alloc: A,
    disk: D,
    format: Format,
    out: &mut Output,
) {
    let options = Options {
        entries: Selection::All,
        coverage: true,
        format,
    };
    let mut written = Plain::new(out.copy_of(b""));
    let came = show(alloc, disk, options, &mut written);
    let written = written.into_inner();
    out.put_bytes(&written);
    drop(written);
    match came {
        Ok(displayed) => {
            put_exit(displayed.exit, out);
            drop(displayed);
        }
        Err(DisplayError::Session(error)) => put_unopened(error, exit_of_journal(&error), out),
        Err(DisplayError::Output) => put_exit(Exit::FileFailed, out),
    }
}

/// Appends the printed form of what the script denotes, or why there is none, and the exit status.
fn put_printed(memory: Memory, text: &str, out: &mut Output) {
    let (root, script) = first_word(text);
    let exit = match print(memory.refusing, script.as_bytes(), root.as_bytes()) {
        Ok(printed) => {
            out.put_bytes(&printed);
            Exit::Done
        }
        Err(PrintError::Script(fault)) => {
            out.put_shown(&fault);
            exit_of_script(&fault)
        }
        Err(PrintError::Memory) => {
            out.put("40 memory");
            Exit::Limit
        }
    };
    put_exit(exit, out);
}

/// Appends what comes of a row of these kinds on this disk.
fn put_on<T: Wait, D: Disk + Drop, A: Allocator + Copy + Drop>(
    rt: &T,
    alloc: A,
    disk: D,
    memory: Memory,
    row: (&str, &str),
    out: &mut Output,
) {
    match row {
        ("check", text) => put_checked(rt, alloc, disk, memory, text, out),
        ("replay", _) => put_replayed(alloc, disk, out),
        ("json", _) => put_displayed(alloc, disk, Format::Json, out),
        ("show", _) => put_displayed(alloc, disk, Format::Text, out),
        _ => out.put("no such row"),
    }
}

/// Appends what comes of a row of these kinds in this memory. But for `check` the disk has the bytes that are written in the row.
pub(crate) fn put<T: Wait>(rt: &T, memory: Memory, row: &str, out: &mut Output) {
    let (kind, text) = first_word(row);
    if kind == "print" {
        return put_printed(memory, text, out);
    }
    let file = if kind == "check" { "" } else { text };
    match Vec::from_slice(memory.refusing, file.as_bytes()) {
        Ok(file) => {
            let disk = FaultDisk::new(file, 0, Afterwards::GoOn);
            put_on(rt, memory.refusing, disk, memory, (kind, text), out);
        }
        Err(_) => out.put("40 memory"),
    }
}
