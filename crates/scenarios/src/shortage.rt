//! What is played while requests for memory are refused, each in turn.

use crate::commands;
use crate::memory::{Memory, Way};
use crate::scenes::{Scene, in_memory, played_on};
use memory_disks::Afterwards;
use rows::{Output, Refusing, first_word};
use std::alloc::Global;
use std::sync::Wait;

/// More requests than a row makes.
const MOST: u64 = 1_000_000;

/// Appends the answers of a session in this memory, and what a session of its file then answers to `S`.
fn put_session(alloc: Global, memory: Memory, scene: &Scene, out: &mut Output) {
    let file = played_on(memory, 0, Afterwards::GoOn, scene, out);
    out.put(" | ");
    let _ = in_memory(alloc, &Scene::opening(&file), out);
}

/// Appends what comes of the row where the request with this number is refused, or all from it on: always, or up to an answer that says
/// so. Whether one was is answered.
fn put_refused<T: Wait>(
    rt: &T,
    alloc: Global,
    request: u64,
    word: &str,
    row: &str,
    out: &mut Output,
) -> bool {
    let refusing = match word {
        "once" => Refusing::new(alloc, request),
        _ => Refusing::all_from(alloc, request),
    };
    let way = match word {
        "until" => Way::UntilAnswered,
        _ => Way::Made,
    };
    let memory = Memory {
        refusing: &refusing,
        way,
    };
    match Scene::read(row) {
        Some(scene) => put_session(alloc, memory, &scene, out),
        None => commands::put(rt, memory, row, out),
    }
    refusing.has_refused()
}

/// Each outcome of the row where one request after the other is refused, up to the one that isn't made.
fn sweep<T: Wait>(rt: &T, alloc: Global, word: &str, row: &str, out: &mut Output) {
    for request in 1..MOST {
        let mut came = Output::new(alloc);
        let was_refused = put_refused(rt, alloc, request, word, row, &mut came);
        out.put_other(&came);
        if !was_refused {
            return;
        }
    }
    out.put(" too many requests");
}

/// Plays a row of this kind. Whether it is one is answered.
pub(crate) fn play<T: Wait>(rt: &T, alloc: Global, row: &str, out: &mut Output) -> bool {
    let (kind, text) = first_word(row);
    if kind == "memory" {
        let (word, row) = first_word(text);
        sweep(rt, alloc, word, row, out);
    }
    kind == "memory"
}
