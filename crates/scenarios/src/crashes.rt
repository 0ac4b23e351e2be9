//! What a crash leaves after each call, what comes where each call fails, and what there is in a file cut to each length.

use crate::memory::{Memory, Way};
use crate::scenes::{Scene, after_failing, at_fault, in_memory, played, put_left};
use crate::stops::stops;
use memory_disks::{Afterwards, CrashDisk, Part};
use rows::{Output, Refusing, first_word};
use std::alloc::Global;

/// More calls than a row's disk has.
const MOST_CALLS: usize = 1_000;

/// The part with this name.
fn part_of(word: &str) -> Part {
    match word {
        "everything" => Part::Everything,
        "first" => Part::FirstByte,
        "plus" => Part::Plus,
        _ => Part::Nothing,
    }
}

/// Appends the file that a crash after so many calls leaves, and what a session of it answers and leaves.
fn put_crash(alloc: Global, disk: &CrashDisk<Global>, count: usize, part: Part, out: &mut Output) {
    if count <= disk.calls() {
        match disk.left_after(count, part) {
            Ok(file) => put_left(alloc, &file, out),
            Err(_) => out.is_cut = true,
        }
    }
}

/// What a crash after each number of calls leaves.
fn crashes(alloc: Global, disk: &CrashDisk<Global>, part: Part, out: &mut Output) {
    let calls = disk.calls();
    out.put_shown(&calls);
    out.put(" calls, ");
    for count in 0..=calls {
        let mut came = Output::new(alloc);
        put_crash(alloc, disk, count, part, &mut came);
        out.put_outcome(count, &came);
    }
}

/// Plays the scene on the disk, which keeps its calls, and then what it leaves: after a crash, or after a stop where the word is none of
/// a part.
fn play_kept(alloc: Global, disk: CrashDisk<Global>, scene: &Scene, word: &str, out: &mut Output) {
    let refusing = Refusing::new(alloc, 0);
    let memory = Memory {
        refusing: &refusing,
        way: Way::Made,
    };
    let mut answers = Output::new(alloc);
    let disk = played(alloc, disk, scene, memory, &mut answers);
    if word == "stops" {
        stops(alloc, &disk, out);
    } else {
        crashes(alloc, &disk, part_of(word), out);
    }
}

/// Plays the scene on a disk that keeps its calls.
fn play_crash(alloc: Global, scene: &Scene, word: &str, out: &mut Output) {
    match CrashDisk::new(alloc, out.copy_of(scene.file)) {
        Ok(disk) => play_kept(alloc, disk, scene, word, out),
        Err(_) => out.is_cut = true,
    }
}

/// What sessions of the file, cut to each length, answer, and whether they leave the file as it was.
fn lengths(alloc: Global, scene: &Scene, out: &mut Output) {
    for length in 0..=scene.file.len() {
        let mut came = Output::new(alloc);
        let file = in_memory(alloc, &scene.cut_to(length), &mut came);
        let is_kept = scene.file.get(..length) == Some(file.as_slice());
        came.put(if is_kept { ", kept" } else { ", changed" });
        out.put_outcome(length, &came);
    }
}

/// What comes where this call of the disk fails; with 0 none does.
fn failure(alloc: Global, call: usize, afterwards: Afterwards, scene: &Scene) -> Output {
    let mut out = Output::new(alloc);
    let file = at_fault(alloc, call as u64, afterwards, scene, &mut out);
    out.put(" ");
    put_left(alloc, &file, &mut out);
    out
}

/// What comes where each call of the disk fails, as far as the first that isn't made: then the full outcome comes.
fn failures(alloc: Global, afterwards: Afterwards, scene: &Scene, out: &mut Output) {
    let full = failure(alloc, 0, afterwards, scene);
    for call in 1..MOST_CALLS {
        let came = failure(alloc, call, afterwards, scene);
        out.put_outcome(call, &came);
        if came.text() == full.text() {
            return;
        }
    }
    out.put(" too many calls");
}

/// Plays a row of these kinds. Whether it is one is answered.
pub(crate) fn play(alloc: Global, row: &str, out: &mut Output) -> bool {
    let (kind, text) = first_word(row);
    let (word, scene) = match kind {
        "crashes" => first_word(text),
        "stops" | "lengths" => (kind, text),
        "failures" => first_word(text),
        _ => return false,
    };
    match Scene::read(scene) {
        Some(scene) if kind == "failures" => failures(alloc, after_failing(text).0, &scene, out),
        Some(scene) if kind == "lengths" => lengths(alloc, &scene, out),
        Some(scene) => play_crash(alloc, &scene, word, out),
        None => out.put("no such row"),
    }
    true
}
