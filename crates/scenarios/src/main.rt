//! Plays rows of text over the libraries: each line of standard input is a row, and for each a line is written that says what came of it.
//! The first word of a row is the crate that plays it: this one, or a library, whose `src/lib.rt` has what its rows play. A line that begins
//! with `#` names the rows that follow; it is written as it is, and so is an empty one. After each row that tries points one after the other
//! (a request that is refused, a call that fails, a place at which the disk stops, a length), standard error has the row, and how many there
//! were.
//!
//! This crate's rows are of sessions, journals, disks and the calls of `program`. In a row and its answer `$` is a line feed.
//!
//! | Row | What is played |
//! |---|---|
//! | `session ROOT SCRIPT # ASKS`, `written ..` | a new session of the script, on a disk in memory: the answers, and by `written` the journal's file |
//! | `over FILE # ROOT SCRIPT # ASKS` | the same on a disk that holds this file before: the answers, and the journal's file |
//! | `opened FILE # ASKS`, `journal ..` | a session of what the file holds: the answers, and by `journal` the file as it is then |
//! | `fault K once ROW` | one of these rows on a disk whose K-th call fails: the answers, the file, and what a session of that file answers to `S` and leaves |
//! | `fault K always ROW` | the same where all calls from the K-th on fail |
//! | `failures once ROW`, `failures always ROW` | the same with each call of the disk, as far as the first that isn't made; each outcome with the first call that has it |
//! | `crashes PART ROW` | the file that a crash after each number of calls leaves, of which this part of what no sync has followed is done (`nothing`, `everything`, `first`, `plus`), and what a session of that file answers to `S` and leaves; each with the first number that has it |
//! | `stops ROW` | what sessions answer to `S` of every file that a stop after each number of calls may leave: each beginning and each end of what no sync has followed is done, the rest is as before, or `+`; each list of answers with the first number that has it |
//! | `lengths ROW` | sessions of the file cut to each length, each outcome with the first length that has it |
//! | `memory once ROW` | each outcome of one of these rows with what a session of its file answers to `S` in the end, or of `check ROOT SCRIPT # LINES`, `print ROOT SCRIPT`, `replay FILE`, `show FILE` or `json FILE` with its exit status, where one request for memory is refused, each in turn, up to the one that isn't made |
//! | `memory until ROW`, `memory always ROW` | the same where the request and all after it are refused: until an answer says so; or all |
//! | `no_request ROW` | one of these rows, where every request is refused during the calls that take no memory: the answers, after which a call is named that made a request, and the file |
//! | `copied FILE` | the journal in the file: its header and its records, and the file of a journal of the same |
//! | `seat NUMBER` | the seat with this number, and the one after it, where names are kept as steps, and as their bodies |
//! | `fault_text session NAME`, `fault_text journal NAME` | a fault's number and word, and its text |
//! | `file TEXT # CALLS`, `disk TEXT # CALLS` | a disk on a real file of this text, or in memory: what each call answers, and the bytes at the end |
//! | `short N TEXT # CALLS` | the same of a disk on a file in memory that reads and writes no more than N bytes in one call |
#![tactic(auto)]

mod asks;
mod clients;
mod commands;
mod crashes;
mod faults;
mod files;
mod journals;
mod memory;
mod playing;
mod scenes;
mod shortage;
mod stops;

use file_disk::PlacedFile;
use rows::{Output, first_word};
use std::alloc::Global;
use std::io;
use std::rt::Files;
use std::sync::Wait;
use std::thread::Threads;
use std::time::Clock;

/// Appends what comes of a row of this crate, in which `$` is a line feed; `out` is cut where there is no memory for it.
fn play_here<T: Wait + Files + AllocGlobal>(rt: &T, alloc: Global, row: &str, out: &mut Output)
where
    T::File: PlacedFile,
{
    match row.replace(alloc, '$', "\n") {
        Ok(row) => playing::play(rt, alloc, &row, out),
        Err(_) => out.is_cut = true,
    }
}

/// Appends what comes of a row.
fn play<T: Threads + Wait + Clock + Files + AllocGlobal + Sync>(
    rt: &T,
    alloc: Global,
    row: &str,
    out: &mut Output,
)
where
    T::File: PlacedFile,
{
    let (library, rest) = first_word(row);
    match library {
        "part_scenarios" => part_scenarios::play(rt, alloc, rest, out),
        "scenarios" => play_here(rt, alloc, rest, out),
        "server_rows" => server_rows::play(rt, alloc, rest, out),
        "shared_rows" => shared_rows::play(rt, alloc, rest, out),
        _ => out.put(row),
    }
}

/// Writes what comes of a row, and how many points it tried.
fn tell<T: Print + Eprint + Threads + Wait + Clock + Files + AllocGlobal + Sync>(
    rt: &T,
    alloc: Global,
    row: &str,
) -> io::Result<()>
where
    T::File: PlacedFile,
{
    let mut out = Output::new(alloc);
    play(rt, alloc, row, &mut out);
    if out.is_cut {
        return println!(rt; "no memory for the row");
    }
    println!(rt; "{}", out.text())?;
    if out.points > 0 {
        eprintln!(rt; "{row}: {} points", out.points)?;
    }
    Ok(())
}

fn main(rt: HostRuntime) -> io::Result<()> {
    let alloc = rt.alloc();
    for line in rt.lines(alloc) {
        let line = line?;
        tell(&rt, alloc, line.as_str())?;
    }
    Ok(())
}
