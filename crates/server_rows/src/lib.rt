//! Plays rows of text over whole servers. In a row and its answer `$` is a line feed.
//!
//! The row `SIZE ROOT SCRIPT # STEP # STEP ..` is runs of `program::serve_parts` in a folder in memory, with so many records in a part; where
//! SIZE is 0, of `program::serve` on a disk in memory. They come one after the other, and the files that a run leaves are those of the next.
//!
//! | Step | Does |
//! |---|---|
//! | `file TEXT` | puts a file with this text after those that are there |
//! | `PLAN ; MOVE ; MOVE ..` | a run. A move is a client's digit, a blank and what it sends, once what was sent before is answered: `+` where it comes |
//!
//! | Plan | Is |
//! |---|---|
//! | `over N` | so many connections |
//! | `counted N` | the same, and lines that aren't judged are counted |
//! | `idle 0` | a service until no connection is left |
//! | `stopped N` | a service without end. After the last client accepts fail, of which N are tried again |
//! | `over N door`, .. | no door opens, with the status 6 |
//! | `over N output K`, .. | the output has room for K bytes; the door writes `open$` |
//! | `over N disk K`, .. | the disk's K-th call fails |
//!
//! A run's answer: each write to a client, by its digit; the output; the status, or why there is no session, and once the doors are closed
//! whether a report was rejected, whether a limit was met, how many lines weren't judged, and whether an accept failed; and the files.
#![tactic(auto)]

mod clients;
mod crossing;
mod folder;
mod hall;
mod runs;
mod scene;

pub use runs::play;
