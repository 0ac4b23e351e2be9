//! The numbers from one to another.
ghost use Rattle.std.specs.Prelude.{◌≡◌, IfOk, suc, ◌≤ℤ◌};
ghost use Rattle.std.specs.Int.{int_gap};
ghost use Rattle.cspm_values.specs.Numbers.{range as range_of, numbers_from};
ghost use Rattle.cspm_values.specs.Functions.{ranged as ranged_of};
ghost use Rattle.cspm_values.specs.View.{Gives, value as plain_value, values as plain_values};

use crate::making::{Kind, made};
use crate::parts::{number_value, two_numbers};
use crate::stop::{Limit, Stop, beyond};
use crate::value::Value;
use std::alloc::{AllocError, Allocator};

/// How far the last number of a range is above the first at most.
const MAX_GAP: i64 = 65_535;

/// The numbers from the first to the last, which isn't below it.
fn numbers<A: Allocator + Clone>(
    alloc: &A,
    first: i64,
    last: i64,
) -> Result<Vec<Value<A>, A>, AllocError>
    requires { first ≤ℤ last }
    ensures { IfOk result (λ v. plain_values v.items ≡ numbers_from first (suc (int_gap first last))) }
{
    let mut all = Vec::new(alloc.clone()?);
    let mut next = first;
    while next < last {
        all.push(number_value(next))?;
        next += 1;
    }
    all.push(number_value(last))?;
    Ok(all)
}

/// The numbers from the first to the last, if they are no more than the limit.
#[tactic(auto, using(crate::proofs::Ranges::range_none))]
fn range<A: Allocator + Clone>(alloc: &A, ends: (i64, i64)) -> Result<Vec<Value<A>, A>, Stop>
    ensures { Gives (λ v. plain_values v.items) result (range_of ends.0 ends.1) }
{
    let (first, last) = ends;
    if last < first {
        return Ok(Vec::new(alloc.clone()?));
    }
    match last.checked_sub(first) {
        Some(gap) => {
            if gap > MAX_GAP {
                return Err(beyond(Limit::Members));
            }
            Ok(numbers(alloc, first, last)?)
        }
        None => Err(beyond(Limit::Members)),
    }
}

/// `{x..y}` or `<x..y>`.
#[tactic(auto, unfolding(crate::specs::Functions::ranged))]
pub fn ranged<A: Allocator + Clone>(
    alloc: &A,
    kind: Kind,
    ends: &[Value<A>],
) -> Result<Value<A>, Stop>
    ensures { Gives plain_value result (ranged_of kind (plain_values ends.now)) }
{
    let ends = two_numbers(ends)?;
    let numbers = range(alloc, ends)?;
    made(alloc, kind, numbers)
}
