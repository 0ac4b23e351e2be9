//! Plays rows of text over shared sessions. In a row and its answer `$` is a line feed.
//!
//! | Row | What is played |
//! |---|---|
//! | `talk PLACES ROOT SCRIPT # SEAT INPUT # SEAT INPUT ..` | conversations with the seats of a session with so many places, on a disk in memory, one after the other: how each ended, whether rejected reports (`rejected`), lines that asked for nothing or named no event (`misuse`) and faults (`limit`) were among its answers, and what was written; then why there is no further seat, how many reports were answered with a receipt, the length of the history, and its counts; and what a session of its file has |
//! | `talk_fault K once PLACES ROOT SCRIPT # SEAT INPUT ..` | the same on a disk whose K-th call fails (`always`: all from that on) |
//! | `threads SHARES TASK TASK ..` | a session of `P = SKIP` with a seat for each task, on a thread of its own, which reports tick so many times: how many reports were answered with a receipt, where so many of the shares are handed in; how many were judged and rejected; whether the history has each seat's answers, in their order |
//! | `held SHARES TASK TASK ..` | the same, where the first sync after the opening is held until a seat whose task is `look` has looked at its status; and how many reports that had |
//! | `memory once PLACES ROOT SCRIPT # SEAT INPUT ..` | each outcome of a `talk` where one request for memory of the session, its seats and conversations is refused, each in turn, up to the one that isn't made |
//! | `memory until ..`, `memory always ..` | the same where the request and all after it are refused: until the conversation is over; or all |
//! | `service PLACES ROOT SCRIPT # STEP # STEP ..` | a service with so many places, on a disk in memory. Its steps: `come` (a seat comes, or why it doesn't), `K INPUT` (a conversation with the K-th seat of those that are there), `leave K`. Then how many places are free, and how many reports were answered to the seats that left; and as at the end of a `talk` |
//! | `service_fault K PLACES ROOT SCRIPT # STEP # STEP ..` | the same on a disk whose K-th call fails |
//! | `readers PLACES READERS` | a board with places for so many readers, for which so many are asked, one after the other, that stay: the number of each one's seat, or why there is none; and, once they are gone, the same of one more |
//! | `no_request PLACES ROOT SCRIPT # SEAT INPUT ..` | a `talk` after which every request is refused: what the status and the next events of each seat are then, the last one first, the same end as that of `talk`, and whether there was a request |
#![tactic(auto)]

mod callers;
mod ends;
mod held;
mod memory;
mod playing;
mod readers;
mod services;
mod talks;
mod threads;

use rows::Output;
use std::alloc::Global;
use std::sync::Wait;
use std::thread::Threads;
use std::time::Clock;

// Appends what comes of a row.
fn play_row<T: Threads + Wait + Clock + Sync>(rt: &T, alloc: Global, row: &str, out: &mut Output) {
    if !playing::play(rt, alloc, row, out)
        && !threads::play(rt, alloc, row, out)
        && !services::play(rt, alloc, row, out)
        && !readers::play(rt, alloc, row, out)
    {
        out.put("no such kind of row");
    }
}

/// Appends what comes of a row, in which `$` is a line feed; `out` is cut where there is no memory for it.
pub fn play<T: Threads + Wait + Clock + Sync>(rt: &T, alloc: Global, row: &str, out: &mut Output) {
    match row.replace(alloc, '$', "\n") {
        Ok(row) => play_row(rt, alloc, &row, out),
        Err(_) => out.is_cut = true,
    }
}
