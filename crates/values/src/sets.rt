//! Sets of values.
ghost use Rattle.std.specs.Prelude.{◌≡◌, Some, IfOk, map, suc, ◌≤ℤ◌};
ghost use Rattle.std.specs.Int.{int_gap};
ghost use Rattle.values.specs.Values.{union as union_of, intersection as intersection_of, difference as difference_of, fitting_set, range as range_of, numbers_from};
ghost use Rattle.values.specs.View.{Gives, value, values};

use crate::value::Value;
use std::alloc::{AllocError, Allocator};
use std::collections::BTreeSet;
use tokens::{Position, ReadError, ScriptErrorKind, fault};

/// A set of values, in their order.
pub type Values<A> = BTreeSet<Value<A>, A>;

/// The most values that a set has.
pub const SET_LIMIT: usize = 65_536;

/// How far the last number of a range is above the first at most.
const MAX_GAP: i64 = 65_535;

/// The values of both sets.
#[tactic(auto, using(crate::proofs::ValueSets::union_more, crate::proofs::ValueSets::union_end))]
pub(crate) fn union<A: Allocator + Clone>(
    first: Values<A>,
    second: Values<A>,
) -> Result<Values<A>, AllocError>
    ensures { IfOk result (λ s. values s ≡ union_of (values first) (values second)) }
{
    let mut all = first;
    let mut more = second;
    while let Some(value) = more.pop_first() {
        let _added = all.insert(value)?;
    }
    Ok(all)
}

/// The values of the first set that the second has.
pub(crate) fn intersection<A: Allocator>(first: Values<A>, second: &Values<A>) -> Values<A>
    ensures { values result ≡ intersection_of (values first) (values second.now) }
{
    let mut kept = first;
    kept.retain(|value| second.contains(value));
    kept
}

/// The values of the first set that the second lacks.
pub(crate) fn difference<A: Allocator>(first: Values<A>, second: &Values<A>) -> Values<A>
    ensures { values result ≡ difference_of (values first) (values second.now) }
{
    let mut kept = first;
    kept.retain(|value| !second.contains(value));
    kept
}

/// The set, if it has no more values than the limit.
pub(crate) fn fitting<A: Allocator>(set: Values<A>, line: Position) -> Result<Values<A>, ReadError>
    ensures { Gives values result (fitting_set (values set)) }
{
    if set.len() > SET_LIMIT {
        return Err(fault(line, ScriptErrorKind::TooLarge));
    }
    Ok(set)
}

/// The numbers from the first to the last, which isn't below it.
#[tactic(auto, using(crate::proofs::Numbers::numbers_none, crate::proofs::Numbers::numbers_more, crate::proofs::Numbers::gap_more))]
fn numbers<A: Allocator + Clone>(alloc: &A, first: i64, last: i64) -> Result<Values<A>, AllocError>
    requires { first ≤ℤ last }
    ensures { IfOk result (λ s. values s ≡ numbers_from first (suc (int_gap first last))) }
{
    let mut set = BTreeSet::new(alloc.clone()?);
    let mut next = first;
    while next < last {
        let _added = set.insert(Value::Number(next))?;
        next += 1;
    }
    let _added = set.insert(Value::Number(last))?;
    Ok(set)
}

/// The numbers from the first to the last, if they are no more than the limit.
#[tactic(auto, using(crate::proofs::Numbers::range_none))]
pub(crate) fn range<A: Allocator + Clone>(
    alloc: &A,
    ends: (i64, i64),
    line: Position,
) -> Result<Values<A>, ReadError>
    ensures { Gives values result (range_of ends.0 ends.1) }
{
    let (first, last) = ends;
    if last < first {
        return Ok(BTreeSet::new(alloc.clone()?));
    }
    match last.checked_sub(first) {
        Some(gap) => {
            if gap > MAX_GAP {
                return Err(fault(line, ScriptErrorKind::TooLarge));
            }
            Ok(numbers(alloc, first, last)?)
        }
        None => Err(fault(line, ScriptErrorKind::TooLarge)),
    }
}
