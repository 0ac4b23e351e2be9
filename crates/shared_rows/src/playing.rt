//! Conversations on disks in memory of which some fail, and with requests for memory refused.

use crate::memory::{Memory, Way};
use crate::talks::{Talks, on_disk};
use memory_disks::{Afterwards, FaultDisk};
use rows::{Output, Refusing, first_word, number_of};
use std::alloc::Global;
use std::sync::Wait;

/// More requests than a row makes.
const MOST: u64 = 1_000_000;

/// Appends what comes of the conversations in this memory, on a disk in ample memory of which a call fails; with 0 none does.
fn put_talks<T: Wait>(
    rt: &T,
    memory: Memory,
    failing: (u64, Afterwards),
    row: &str,
    out: &mut Output,
) {
    let (call, afterwards) = failing;
    let disk = FaultDisk::new(Vec::new(memory.alloc), call, afterwards);
    on_disk(rt, memory.refusing, disk, &Talks::read(row), memory, out);
}

/// Appends what comes of the conversations on a disk of which a call fails; with 0 none does.
fn put_at_fault<T: Wait>(
    rt: &T,
    alloc: Global,
    failing: (u64, Afterwards),
    row: &str,
    out: &mut Output,
) {
    let refusing = Refusing::new(alloc, 0);
    let memory = Memory {
        alloc,
        refusing: &refusing,
        way: Way::Made,
    };
    put_talks(rt, memory, failing, row, out);
}

/// Plays `K once ROW` or `K always ROW`.
fn put_fault<T: Wait>(rt: &T, alloc: Global, text: &str, out: &mut Output) {
    let (call, text) = first_word(text);
    let (word, row) = first_word(text);
    let afterwards = match word {
        "always" => Afterwards::Fail,
        _ => Afterwards::GoOn,
    };
    put_at_fault(rt, alloc, (number_of(call), afterwards), row, out);
}

/// Appends what comes of the conversations where the request with this number is refused, or all from it on: always, or until the
/// conversation is over. Whether one was is answered.
fn put_refused<T: Wait>(
    rt: &T,
    alloc: Global,
    request: u64,
    word: &str,
    row: &str,
    out: &mut Output,
) -> bool {
    let refusing = match word {
        "once" => Refusing::new(alloc, request),
        _ => Refusing::all_from(alloc, request),
    };
    let way = match word {
        "until" => Way::UntilOver,
        _ => Way::Made,
    };
    let memory = Memory {
        alloc,
        refusing: &refusing,
        way,
    };
    put_talks(rt, memory, (0, Afterwards::GoOn), row, out);
    refusing.has_refused()
}

/// Each outcome of the row where one request after the other is refused, up to the one that isn't made.
fn sweep<T: Wait>(rt: &T, alloc: Global, text: &str, out: &mut Output) {
    let (word, row) = first_word(text);
    for request in 1..MOST {
        let mut came = Output::new(alloc);
        let was_refused = put_refused(rt, alloc, request, word, row, &mut came);
        out.put_other(&came);
        if !was_refused {
            return;
        }
    }
    out.put(" too many requests");
}

/// Appends what comes of the conversations, after which every request is refused, and whether there was one.
fn put_quiet<T: Wait>(rt: &T, alloc: Global, row: &str, out: &mut Output) {
    let refusing = Refusing::new(alloc, 0);
    let memory = Memory {
        alloc,
        refusing: &refusing,
        way: Way::Quiet,
    };
    put_talks(rt, memory, (0, Afterwards::GoOn), row, out);
    out.put(if refusing.has_refused() {
        ", a request"
    } else {
        ", no request"
    });
}

/// Plays a row of these kinds. Whether it is one is answered.
pub(crate) fn play<T: Wait>(rt: &T, alloc: Global, row: &str, out: &mut Output) -> bool {
    let (kind, text) = first_word(row);
    match kind {
        "talk" => put_at_fault(rt, alloc, (0, Afterwards::GoOn), text, out),
        "talk_fault" => put_fault(rt, alloc, text, out),
        "memory" => sweep(rt, alloc, text, out),
        "no_request" => put_quiet(rt, alloc, text, out),
        _ => return false,
    }
    true
}
