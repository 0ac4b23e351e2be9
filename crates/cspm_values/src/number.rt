//! What operators make of numbers.
ghost use Rattle.std.specs.Prelude.{◌≡◌, ◌+ℤ◌, ◌-ℤ◌, ◌*ℤ◌, ◌≤ℤ◌, pos, negsuc};
ghost use Rattle.std.specs.Int.{int_div_euclid, int_rem_euclid};
ghost use Rattle.cspm_values.specs.Limits.{limited as limited_of};
ghost use Rattle.cspm_values.specs.Numbers.{quotient as quotient_of, remainder as remainder_of, divided as divided_of, left_over as left_over_of};
ghost use Rattle.cspm_values.specs.Functions.{calculated as calculated_of, computed as computed_of, negated as negated_of};
ghost use Rattle.cspm_values.specs.View.{Gives, value as plain_value, values as plain_values};

use crate::operator::Operator;
use crate::parts::{number_value, only, the_number, two_numbers};
use crate::stop::{FaultKind, Limit, Stop, beyond, fault};
use crate::value::Value;
use std::alloc::Allocator;

/// The least number.
pub const LEAST_NUMBER: i64 = -1_000_000;

/// The largest number.
pub const LARGEST_NUMBER: i64 = 1_000_000;

/// The number, if it is from -1,000,000 to 1,000,000.
#[tactic(auto, unfolding(crate::specs::Limits::limited))]
pub fn limited(number: i64) -> Result<i64, Stop>
    ensures { Gives (λ z. z) result (limited_of number) }
{
    if number < LEAST_NUMBER || number > LARGEST_NUMBER {
        return Err(beyond(Limit::Numbers));
    }
    Ok(number)
}

/// What is computed, if it is a number within the limits; None is past 64 bits.
#[tactic(auto, using(crate::proofs::Bounds::past))]
fn sum(first: i64, second: i64) -> Result<i64, Stop>
    ensures { Gives (λ z. z) result (limited_of (first +ℤ second)) }
{
    match first.checked_add(second) {
        Some(number) => limited(number),
        None => Err(beyond(Limit::Numbers)),
    }
}

#[tactic(auto, using(crate::proofs::Bounds::past))]
fn difference(first: i64, second: i64) -> Result<i64, Stop>
    ensures { Gives (λ z. z) result (limited_of (first -ℤ second)) }
{
    match first.checked_sub(second) {
        Some(number) => limited(number),
        None => Err(beyond(Limit::Numbers)),
    }
}

#[tactic(auto, using(crate::proofs::Bounds::past))]
fn product(first: i64, second: i64) -> Result<i64, Stop>
    ensures { Gives (λ z. z) result (limited_of (first *ℤ second)) }
{
    match first.checked_mul(second) {
        Some(number) => limited(number),
        None => Err(beyond(Limit::Numbers)),
    }
}

/// The quotient, rounded down.
#[tactic(auto, using(crate::proofs::Bounds::quotient_above, crate::proofs::Bounds::quotient_below, crate::proofs::Bounds::quotient_none))]
fn quotient(first: i64, second: i64) -> Result<i64, Stop>
    requires { (negsuc 999999) ≤ℤ first × first ≤ℤ (pos 1000000) × (negsuc 999999) ≤ℤ second × second ≤ℤ (pos 1000000) }
    ensures { Gives (λ z. z) result (quotient_of first second) }
{
    if second == 0 {
        return Err(fault(FaultKind::Division));
    }
    if second > 0 {
        Ok(first.div_euclid(second))
    } else {
        Ok((-first).div_euclid(-second))
    }
}

/// What is left of a division that is rounded down.
#[tactic(auto, using(crate::proofs::Bounds::remainder_above, crate::proofs::Bounds::remainder_below, crate::proofs::Bounds::remainder_none))]
fn remainder(first: i64, second: i64) -> Result<i64, Stop>
    requires { (negsuc 999999) ≤ℤ first × first ≤ℤ (pos 1000000) × (negsuc 999999) ≤ℤ second × second ≤ℤ (pos 1000000) }
    ensures { Gives (λ z. z) result (remainder_of first second) }
{
    if second == 0 {
        return Err(fault(FaultKind::Division));
    }
    if second > 0 {
        Ok(first.rem_euclid(second))
    } else {
        Ok(-(-first).rem_euclid(-second))
    }
}

/// The quotient of two numbers within the limits.
#[tactic(auto, unfolding(crate::specs::Numbers::divided), using(crate::proofs::Bounds::within))]
fn divided(first: i64, second: i64) -> Result<i64, Stop>
    ensures { Gives (λ z. z) result (divided_of first second) }
{
    let first = limited(first)?;
    let second = limited(second)?;
    quotient(first, second)
}

/// What is left of the division of two numbers within the limits.
#[tactic(auto, unfolding(crate::specs::Numbers::left_over), using(crate::proofs::Bounds::within))]
fn left_over(first: i64, second: i64) -> Result<i64, Stop>
    ensures { Gives (λ z. z) result (left_over_of first second) }
{
    let first = limited(first)?;
    let second = limited(second)?;
    remainder(first, second)
}

#[tactic(auto, unfolding(crate::specs::Functions::calculated))]
fn calculated(operator: Operator, numbers: (i64, i64)) -> Result<i64, Stop>
    ensures { Gives (λ z. z) result (calculated_of operator numbers.0 numbers.1) }
{
    let (first, second) = numbers;
    match operator {
        Operator::Plus => sum(first, second),
        Operator::Minus => difference(first, second),
        Operator::Times => product(first, second),
        Operator::Divide => divided(first, second),
        Operator::Remainder => left_over(first, second),
        _ => Err(fault(FaultKind::Form)),
    }
}

#[tactic(auto, unfolding(crate::specs::Functions::computed))]
pub(crate) fn computed<A: Allocator>(
    operator: Operator,
    values: &[Value<A>],
) -> Result<Value<A>, Stop>
    ensures { Gives plain_value result (computed_of operator (plain_values values.now)) }
{
    let numbers = two_numbers(values)?;
    let number = calculated(operator, numbers)?;
    Ok(number_value(number))
}

/// The number with its sign turned.
#[tactic(auto, unfolding(crate::specs::Functions::negated))]
pub fn negated<A: Allocator>(values: &[Value<A>]) -> Result<Value<A>, Stop>
    ensures { Gives plain_value result (negated_of (plain_values values.now)) }
{
    let only = only(values)?;
    let number = the_number(only)?;
    let number = difference(0, number)?;
    Ok(number_value(number))
}
