//! Plays rows of text over the libraries that a session is built on.
//!
//! A row is a kind and what it is played on. In texts `$` is a line feed, any other character the byte of its number's last eight bits (`␍` a carriage return), and what
//! stands between two backquotes is a count and, after a blank, what is repeated so many times. Scripts are read for the root
//! `P`; for a script that has a fault that is told. After its kind a row tells, with `yes` and `no` for answers:
//!
//! | Row | Tells |
//! |---|---|
//! | `pieces N ROOM end TEXT` | of a connection to the judge of `P = a -> d.2 -> P`, how it ended, how many reports were judged, and the replies: TEXT comes in pieces of at most N bytes and then ends (`fails`: then fails); the writer takes ROOM bytes and then fails |
//! | `waiting TEXT` | the same where the reader fails if it is asked for more before a reply was flushed |
//! | `gathering TEXT` | the same where the writer hands on what it took when it is flushed |
//! | `plain TEXT` | the same over a reader and a writer of the standard library, and then a refusal of the connection |
//! | `named TEXT` | the same to a judge that takes names: seat 7 is taken, and of any other there are a million reports times its number; then what `tally` tells |
//! | `tally TEXT` | whether among the answers there was a rejected report, how many lines weren't judged, and whether there was a fault |
//! | `refusing K TEXT` | the same where the K-th request for memory is refused; whether it was, and how many bytes weren't read |
//! | `tokens TEXT` | a script's tokens after their lines: a name as it is, a number after `#`, a kept word after `*` |
//! | `token_count TEXT`, `end_line TEXT` | how many tokens there are; the line of the text's end |
//! | `parse TEXT` | whether there is a tree |
//! | `tree_lines TEXT` | the line of the tree, those of its parts, those of its last part's parts, and so once more |
//! | `is_name WORD,WORD,..` | which words are names of the language |
//! | `names in SCRIPT` | each event with its place, its channel and its place there, and its values; `?` where not each leads to the others |
//! | `events NAME NAME .. in SCRIPT` | the places of the events with these names |
//! | `channels in SCRIPT` | each channel with how many fields it has; how many channels and events there are, and whether there are no events |
//! | `event_at CHANNEL PLACE in SCRIPT`, `sigma in SCRIPT` | the event with this place in its channel; the set of all events |
//! | `set SET`, `report SET` | the members in order, and a refusal of them; a set is written as numbers of events and `T`, tick |
//! | `union SET, SET`, `minus SET, SET`, `within SET, SET` | the union, the difference, whether the first is within the second |
//! | `has SET, EVENT EVENT ..` | which of the events are members |
//! | `looks in SCRIPT` | whether the root's body can terminate, whether it is stable, and what it offers |
//! | `steps LABEL in SCRIPT` | whether the body with number 1 has steps with this label, and whether each leads to the body with number 2 |
//! | `numbered TIMES LABEL in SCRIPT` | how many targets the steps of the root's body have by number, in so many hidings of no event, as far as one more than a set of states may have: found, and remembered; and whether a hidden step leads to a process that is too deep |
//! | `hidden TIMES in SCRIPT` | of the root's body in so many hidings of no event how deep and how large it is, and a fault of its hidden steps or the depths of the list that their targets are appended to, which has `SKIP` before |
//! | `same TIMES in SCRIPT` | whether the first two bodies are the same in so many hidings of no event |
//! | `bodies in SCRIPT` | how deep and how large each body is, and how many it equals; `?` where a copy differs |
//! | `remembered NAME NAME .. in SCRIPT` | how many answers a space remembers after these events from the root on, each from the set before it, and after the same events once more |
//! | `no_request NAME NAME .. in SCRIPT` | where every request for memory is refused: how many events a new alphabet has, and the places of these events, `yes` where they lead back, and what `channels` tells; how many bodies there are, the root's depth and size, whether it equals itself, and what `looks` tells; of the set of states of the opening the next events, which of the events it refuses, and how many answers are remembered; of a monitor the verdict on the first event, the length of the trace, the number of bodies and the next events; how many bodies a new specification of one body has; and whether there was a request |
//! | `each_end TEXT` | what comes of a connection over the text, and whether it is as stated where each read fails, of one byte each, and where each write does, of one byte each: the replies are those to the lines before, or a beginning of them; how many reads and writes there were |
//! | `fault_text CRATE NAME` | a fault's number and word, and its text |
//! | `requests K` | which of three requests for memory are granted where the K-th is refused, and whether one was refused |
#![tactic(auto)]

mod alphabets;
mod bytes;
mod devices;
mod ends;
mod faults;
mod lines;
mod numbers;
mod quiet;
mod remembering;
mod requests;
mod scripts;
mod sets;
mod steps;
mod texts;
mod turns;

use rows::Output;
use std::alloc::Global;
use std::sync::Wait;

/// Appends what comes of a row.
pub fn play<T: Wait>(rt: &T, alloc: Global, row: &str, out: &mut Output) {
    if !lines::play(rt, alloc, row, out)
        && !texts::play(alloc, row, out)
        && !sets::play(row, out)
        && !alphabets::play(row, out)
        && !faults::play(row, out)
        && !requests::play(alloc, row, out)
        && !scripts::play(alloc, row, out)
    {
        out.put("no such kind of row");
    }
}
