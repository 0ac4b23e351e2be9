//! A count that only proofs read: it takes no memory, and it has no greatest value.
//!
//! A device counts its failures, so that a caller can see that an error was the device's own. A failure has to raise
//! the count strictly, which no machine integer can promise; this one can.

ghost use Rattle.std.specs.Prelude.{◌≡◌, ℕ, ◌+◌};
ghost use Rattle.std.specs.Borrow.{ftrue};

use std::marker::Model;

/// How often something has happened, for instance how often a device has failed.
#[derive(Drop)]
pub struct Count {
    pub ghost n: { ℕ },
}

impl Model for Count {
    ghost also_owns = { λ _. ftrue };
}

impl Count {
    /// The count of something that has not happened yet. A device has one from the beginning on, and puts the count
    /// after it in its place at each failure: so a contract can say that the count has risen where a call fails. Proofs
    /// alone read the number, which is 0 here and has no greatest value. It takes no memory.
    ///
    /// ```text
    /// let mut failures = Count::new();
    /// failures = Count::after(&failures); // in each call that fails
    /// ```
    pub fn new() -> Count
        ensures { result.n ≡ 0 }
    {
        Count {}
    }

    /// The count once it has happened one more time.
    pub fn after(_before: &Count) -> Count
        ensures { result.n ≡ _before.now.n + 1 }
    {
        Count {} // the proof gives its number
    }
}
