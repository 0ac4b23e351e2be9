//! The readers' board, and the list that ties what one thread has seen to what stands under a lock.
//!
//! A list of entries only grows, and whoever holds a `Front` has evidence of a beginning of it. The board shows four counts with such
//! evidence, so whoever looks at it learns the counts of a history that goes on from all that it has seen.
#![tactic(auto)]

mod counts;
mod ends;
mod front;

pub use counts::Counts;
pub use ends::{Board, BoardReader, Publisher, Source, add, look};
pub use front::{Front, Naming, Opened, Spine};
