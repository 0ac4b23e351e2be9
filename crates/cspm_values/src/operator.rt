//! What operators make of values.
ghost use Rattle.std.specs.Prelude.{◌≡◌};
ghost use Rattle.cspm_values.specs.Functions.{is_at_most as is_at_most_of, is_less as is_less_of, compared as compared_of, comparison as comparison_of, is_comparison as is_comparison_of, operated as operated_of, negated_truth as negated_truth_of};
ghost use Rattle.cspm_values.specs.View.{Gives, value as plain_value, values as plain_values};

use crate::number::computed;
use crate::order::is_same;
use crate::parts::{both, only, the_number, the_set, the_truth, truth_value};
use crate::sequence::appended;
use crate::set::is_included;
use crate::stop::{FaultKind, Stop, fault};
use crate::value::{Head, Value, sort_of, split};
use std::alloc::Allocator;

/// An operator between two phrases.
#[derive(Clone, Copy, Debug, PartialEq, Eq)]
pub enum Operator {
    Plus,
    Minus,
    Times,
    Divide,
    Remainder,
    Equal,
    NotEqual,
    Less,
    LessOrEqual,
    Greater,
    GreaterOrEqual,
    /// `s^t`
    Append,
    And,
    Or,
}

/// Numbers by size, sets by inclusion.
#[tactic(auto, unfolding(crate::specs::Functions::is_at_most), using(crate::proofs::Rows::parts_back))]
fn is_at_most<A: Allocator + Clone>(
    alloc: &A,
    first: &Value<A>,
    second: &Value<A>,
) -> Result<bool, Stop>
    ensures { Gives (λ b. b) result (is_at_most_of (plain_value first.now) (plain_value second.now)) }
{
    let (head, members) = split(first);
    match head {
        Head::Number(number) => {
            let other = the_number(second)?;
            Ok(*number <= other)
        }
        Head::Set => {
            let others = the_set(second)?;
            Ok(is_included(alloc, members, others)?)
        }
        _ => Err(fault(FaultKind::Unfit {
            found: sort_of(head),
        })),
    }
}

/// At most, and not the same.
#[tactic(auto, unfolding(crate::specs::Functions::is_less))]
fn is_less<A: Allocator + Clone>(
    alloc: &A,
    first: &Value<A>,
    second: &Value<A>,
) -> Result<bool, Stop>
    ensures { Gives (λ b. b) result (is_less_of (plain_value first.now) (plain_value second.now)) }
{
    let below = is_at_most(alloc, first, second)?;
    let above = is_at_most(alloc, second, first)?;
    Ok(below && !above)
}

#[tactic(auto, unfolding(crate::specs::Functions::compared))]
fn compared<A: Allocator + Clone>(
    alloc: &A,
    operator: Operator,
    first: &Value<A>,
    second: &Value<A>,
) -> Result<bool, Stop>
    ensures { Gives (λ b. b) result (compared_of operator (plain_value first.now) (plain_value second.now)) }
{
    match operator {
        Operator::Equal => Ok(is_same(first, second)),
        Operator::NotEqual => Ok(!is_same(first, second)),
        Operator::Less => is_less(alloc, first, second),
        Operator::LessOrEqual => is_at_most(alloc, first, second),
        Operator::Greater => is_less(alloc, second, first),
        Operator::GreaterOrEqual => is_at_most(alloc, second, first),
        _ => Err(fault(FaultKind::Form)),
    }
}

#[tactic(auto, unfolding(crate::specs::Functions::comparison))]
fn comparison<A: Allocator + Clone>(
    alloc: &A,
    operator: Operator,
    values: &[Value<A>],
) -> Result<Value<A>, Stop>
    ensures { Gives plain_value result (comparison_of operator (plain_values values.now)) }
{
    let (first, second) = both(values)?;
    let truth = compared(alloc, operator, first, second)?;
    Ok(truth_value(truth))
}

#[tactic(auto, unfolding(crate::specs::Functions::is_comparison))]
fn is_comparison(operator: Operator) -> bool
    ensures { result ≡ is_comparison_of operator }
{
    match operator {
        Operator::Equal => true,
        Operator::NotEqual => true,
        Operator::Less => true,
        Operator::LessOrEqual => true,
        Operator::Greater => true,
        Operator::GreaterOrEqual => true,
        _ => false,
    }
}

/// What an operator other than `and` and `or` makes of its sides.
#[tactic(auto, unfolding(crate::specs::Functions::operated))]
pub fn operated<A: Allocator + Clone>(
    alloc: &A,
    operator: Operator,
    values: &[Value<A>],
) -> Result<Value<A>, Stop>
    ensures { Gives plain_value result (operated_of operator (plain_values values.now)) }
{
    match operator {
        Operator::Append => appended(alloc, values),
        _ => {
            if is_comparison(operator) {
                comparison(alloc, operator, values)
            } else {
                computed(operator, values)
            }
        }
    }
}

/// The other truth.
#[tactic(auto, unfolding(crate::specs::Functions::negated_truth))]
pub fn negated_truth<A: Allocator>(values: &[Value<A>]) -> Result<Value<A>, Stop>
    ensures { Gives plain_value result (negated_truth_of (plain_values values.now)) }
{
    let only = only(values)?;
    let truth = the_truth(only)?;
    Ok(truth_value(!truth))
}
