//! How many connections a run serves.

ghost use Rattle.std.specs.Prelude.{◌≡◌, ◌≤◌, ◌<◌, ◌⊎◌, MatchOption};

use std::marker::Model;

// The most connections that a run serves.
const MOST: u8 = 64;

/// How many connections a run serves, from 1 to 64. A clause sees the number.
#[derive(Clone, Copy, Debug, PartialEq, Eq)]
pub struct Connections {
    count: u8,
}

impl Model for Connections {
    ghost use Rattle.std.specs.Prelude.{ℕ, ◌≤◌};

    ghost Value = { ℕ };

    ghost view = { λ c. c.count };

    ghost invariant = { λ c. (1 ≤ c.count) × (c.count ≤ 64) };

    ghost inverse = { λ n. record { count = n } };
}

impl Connections {
    /// So many; none, or more than 64, aren't served.
    pub fn new(count: u8) -> Option<Connections>
        ensures { MatchOption result ((count ≡ 0) ⊎ (64 < count)) (λ connections. connections ≡ count) }
    {
        if count == 0 || MOST < count {
            return None;
        }
        Some(Connections { count })
    }

    /// The number.
    pub fn get(self) -> u8
        ensures number { result ≡ self }
        ensures some { 1 ≤ result }
        ensures small { result ≤ 64 }
    {
        self.count
    }
}
