//! Half of the bits of a set of events.

ghost use Rattle.std.specs.Prelude.{◌≡◌};

use std::marker::Model;

/// 128 bits in two words. So it is aligned as a word is, where a `u128` takes twice that.
#[derive(Clone, Copy)]
pub(crate) struct Half {
    low: u64,
    high: u64,
}

impl Model for Half {
    ghost use Rattle.std.specs.Prelude.{ℕ, ◌+◌, ◌*◌, ◌/◌, ◌%◌, ◌^◌, ◌<◌};

    ghost Value = { ℕ };

    ghost view = { λ h. h.high * 2 ^ 64 + h.low };

    ghost invariant = { λ h. (h.low < 2 ^ 64) × (h.high < 2 ^ 64) };

    ghost inverse = { λ n. record { low = n % 2 ^ 64; high = n / 2 ^ 64 } };
}

impl Half {
    /// These bits.
    pub(crate) fn of(bits: u128) -> Half
        ensures { result ≡ bits }
    {
        Half {
            low: (bits % (1 << 64)) as u64,
            high: (bits >> 64) as u64,
        }
    }

    /// The bits.
    pub(crate) fn bits(self) -> u128
        ensures { result ≡ self }
    {
        (u128::from(self.high) << 64) | u128::from(self.low)
    }
}
