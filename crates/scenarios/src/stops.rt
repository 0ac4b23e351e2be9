//! A stop after each call of a disk, with every file that the disk may then have: what a session of it answers to `S`.

use crate::scenes::{Scene, in_memory};
use memory_disks::{CrashDisk, Part};
use rows::Output;
use std::alloc::Global;

/// How much of what no sync has followed is done, as far as a place in the file.
#[derive(Clone, Copy)]
enum Done {
    /// All before the place, and nothing from it on.
    Before,
    /// All before the place; from it on each byte that was to change is `+`.
    Plus,
    /// All from the place on, and nothing before it.
    From,
}

/// The byte at this index of a file in which so much is done, between the old file and the written one. `None` at its end.
fn byte_at(old: &[u8], written: &[u8], place: usize, done: Done, index: usize) -> Option<u8> {
    let (before, after) = (old.get(index).copied(), written.get(index).copied());
    match done {
        Done::Before if index < place => after,
        Done::Before => before,
        Done::Plus if index < place || before == after => after,
        Done::From if index >= place => after,
        Done::From if before.is_some() => before,
        Done::Plus | Done::From => Some(b'+'),
    }
}

/// A file that may be left.
fn left(old: &[u8], written: &[u8], place: usize, done: Done, out: &mut Output) -> Vec<u8> {
    let mut file = out.copy_of(b"");
    for index in 0..old.len().max(written.len()) {
        match byte_at(old, written, place, done, index) {
            Some(byte) => {
                if file.push(byte).is_err() {
                    out.is_cut = true;
                }
            }
            None => break,
        }
    }
    file
}

/// Adds what sessions of the files answer in which all, or nothing, is done as far as a place.
fn put_place(alloc: Global, old: &[u8], written: &[u8], place: usize, answers: &mut Output) {
    for done in [Done::Before, Done::Plus, Done::From] {
        let mut came = Output::new(alloc);
        let file = left(old, written, place, done, &mut came);
        let _ = in_memory(alloc, &Scene::opening(&file), &mut came);
        answers.put_other(&came);
    }
}

/// How many bytes are the same in both files from their beginning on.
fn common(old: &[u8], written: &[u8]) -> usize {
    let mut count: usize = 0;
    for (before, after) in old.iter().zip(written) {
        if before != after {
            return count;
        }
        count = count.saturating_add(1);
    }
    count
}

/// Adds what sessions of all files that may be left answer, each answer once.
fn put_places(alloc: Global, old: &[u8], written: &[u8], answers: &mut Output) {
    for place in common(old, written)..=old.len().max(written.len()) {
        put_place(alloc, old, written, place, answers);
    }
}

/// Adds what sessions answer of all files that may be left after so many calls.
fn put_answers(alloc: Global, disk: &CrashDisk<Global>, count: usize, answers: &mut Output) {
    if count > disk.calls() {
        return;
    }
    let old = disk.left_after(count, Part::Nothing);
    let written = disk.left_after(count, Part::Everything);
    match (old, written) {
        (Ok(old), Ok(written)) => put_places(alloc, &old, &written, answers),
        _ => answers.is_cut = true,
    }
}

/// What sessions answer of all files that may be left after each number of calls, each with the first number that has it.
pub(crate) fn stops(alloc: Global, disk: &CrashDisk<Global>, out: &mut Output) {
    for count in 0..=disk.calls() {
        let mut answers = Output::new(alloc);
        put_answers(alloc, disk, count, &mut answers);
        out.put_outcome(count, &answers);
    }
}
