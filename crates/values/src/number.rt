//! Numbers within their limits.
ghost use Rattle.std.specs.Prelude.{◌≡◌, Some, ◌+ℤ◌, ◌-ℤ◌, ◌*ℤ◌};
ghost use Rattle.values.specs.Values.{limited as limited_of, remainder as remainder_of};
ghost use Rattle.values.specs.View.{Gives};

use tokens::{Position, ReadError, ScriptErrorKind, fault};

/// The number, if it is from -1,000,000 to 1,000,000.
#[tactic(auto, unfolding(crate::specs::Values::limited))]
pub(crate) fn limited(number: i64, line: Position) -> Result<i64, ReadError>
    ensures { Gives (λ z. z) result (limited_of number) }
{
    if number < -1_000_000 || number > 1_000_000 {
        return Err(fault(line, ScriptErrorKind::OutOfRange));
    }
    Ok(number)
}

/// What is computed, if it is a number within the limits; None is past 64 bits.
#[tactic(auto, using(crate::proofs::Numbers::beyond))]
pub(crate) fn sum(first: i64, second: i64, line: Position) -> Result<i64, ReadError>
    ensures { Gives (λ z. z) result (limited_of (first +ℤ second)) }
{
    match first.checked_add(second) {
        Some(number) => limited(number, line),
        None => Err(fault(line, ScriptErrorKind::OutOfRange)),
    }
}

#[tactic(auto, using(crate::proofs::Numbers::beyond))]
pub(crate) fn difference(first: i64, second: i64, line: Position) -> Result<i64, ReadError>
    ensures { Gives (λ z. z) result (limited_of (first -ℤ second)) }
{
    match first.checked_sub(second) {
        Some(number) => limited(number, line),
        None => Err(fault(line, ScriptErrorKind::OutOfRange)),
    }
}

#[tactic(auto, using(crate::proofs::Numbers::beyond))]
pub(crate) fn product(first: i64, second: i64, line: Position) -> Result<i64, ReadError>
    ensures { Gives (λ z. z) result (limited_of (first *ℤ second)) }
{
    match first.checked_mul(second) {
        Some(number) => limited(number, line),
        None => Err(fault(line, ScriptErrorKind::OutOfRange)),
    }
}

/// The remainder of a number that is at least 0 by one above 0.
#[tactic(auto, unfolding(crate::specs::Values::remainder))]
pub(crate) fn remainder(first: i64, second: i64, line: Position) -> Result<i64, ReadError>
    ensures { Gives (λ z. z) result (remainder_of first second) }
{
    if first < 0 || second <= 0 {
        return Err(fault(line, ScriptErrorKind::OutOfRange));
    }
    Ok(first % second)
}
