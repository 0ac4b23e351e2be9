//! The counts of a list of entries, with evidence of the list.

ghost use Rattle.std.specs.Prelude.{◌≡◌, ◌++◌};
ghost use Rattle.history.specs.Entries.{summary_of};

use crate::{Front, Naming};
use history::Summary;
use std::marker::Model;

/// The four counts of a history: of the opening, and of a list after it. Contracts see that list.
#[derive(Drop)]
pub struct Counts<N: Naming> {
    summary: Summary,
    front: Front<N>,
}

impl<N: Naming> Model for Counts<N> {
    ghost use Rattle.std.specs.Prelude.{◌≡◌, ◌++◌, List};
    ghost use Rattle.history.specs.declared.entry.Entry.{Entry};
    ghost use Rattle.history.specs.Entries.{summary_of};

    ghost Value = { List Entry };

    ghost view = { λ c. c.front };

    ghost invariant = { λ c. c.summary ≡ summary_of (N.opening ++ c.front) };
}

impl<N: Naming> Counts<N> {
    /// The counts of the opening and this list. Whoever adds to the list knows both, and makes this for the board: so who looks
    /// there learns the four numbers together with the list that they are of. Nothing is counted here: the contract asks that the
    /// summary be that of the opening and the list. Constant cost; takes no memory.
    pub fn new(summary: Summary, front: Front<N>) -> Counts<N>
        requires { summary ≡ summary_of (N.opening ++ front) }
        ensures { result ≡ front }
    {
        Counts { summary, front }
    }

    /// The four counts.
    pub fn summary(&self) -> Summary
        ensures { result ≡ summary_of (N.opening ++ self.now) }
    {
        self.summary
    }

    /// The list after the opening.
    pub fn front(&self) -> &Front<N>
        ensures { result.now ≡ self.now }
    {
        &self.front
    }

    /// A copy.
    pub fn again(&self) -> Counts<N>
        ensures { result ≡ self.now }
    {
        Counts {
            summary: self.summary,
            front: self.front.again(),
        }
    }
}
