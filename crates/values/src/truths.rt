//! Truths and comparisons.
ghost use Rattle.std.specs.Prelude.{◌≡◌, Some, false, map, MatchOption};
ghost use Rattle.values.specs.Worths.{one, truth_of as truth_of_bool, negated_truth as negated_truth_of, are_same as are_same_of, is_less as is_less_of, is_at_most as is_at_most_of, is_comparison as is_comparison_of, compared as compared_of, comparison as comparison_of, is_lazy as is_lazy_of};
ghost use Rattle.values.specs.Lazy.{form_of};
ghost use Rattle.values.specs.View.{Gives, value as value_of, worth as worth_of};

use crate::value::Value;
use crate::worth::{Worth, the_number, the_only, the_truth, the_two};
use std::alloc::Allocator;
use syntax::{Form, Operator};
use tokens::{Position, ReadError, ScriptErrorKind, fault};

/// A form of which not all parts are looked at.
#[derive(Clone, Copy)]
pub(crate) enum Lazy {
    /// `if`
    Condition,
    /// `and` or `or`, with the truth of a first side that decides.
    Connective(bool),
}

/// Which of the forms of which not all parts are looked at this is, if it is one.
#[tactic(auto, unfolding(crate::specs::Worths::is_lazy))]
pub(crate) fn lazy_form(form: Form) -> Option<Lazy>
    ensures { MatchOption result (is_lazy_of form ≡ false) (λ lazy. form ≡ form_of lazy) }
{
    match form {
        Form::If => Some(Lazy::Condition),
        Form::Operation(Operator::And) => Some(Lazy::Connective(false)),
        Form::Operation(Operator::Or) => Some(Lazy::Connective(true)),
        _ => None,
    }
}

/// The truth, of no parts.
pub(crate) fn truth_of<A: Allocator>(
    truth: bool,
    worths: Vec<Worth<A>, A>,
    line: Position,
) -> Result<Worth<A>, ReadError>
    ensures { Gives worth_of result (truth_of_bool truth (map worth_of worths.items)) }
{
    if worths.is_empty() {
        return Ok(Worth::Truth(truth));
    }
    Err(fault(line, ScriptErrorKind::Expected))
}

/// The other truth.
#[tactic(auto, unfolding(crate::specs::Worths::negated_truth))]
pub(crate) fn negated_truth<A: Allocator>(
    worths: Vec<Worth<A>, A>,
    line: Position,
) -> Result<Worth<A>, ReadError>
    ensures { Gives worth_of result (negated_truth_of (map worth_of worths.items)) }
{
    let only = the_only(worths, line)?;
    let truth = the_truth(only, line)?;
    Ok(Worth::Truth(!truth))
}

/// Whether two numbers or two constants are the same.
#[tactic(auto, unfolding(crate::specs::Worths::are_same, crate::specs::Values::is_same))]
fn are_same_values<A: Allocator>(
    first: &Value<A>,
    second: &Value<A>,
    line: Position,
) -> Result<bool, ReadError>
    ensures { Gives (λ b. b) result (are_same_of (one (value_of first.now)) (one (value_of second.now))) }
{
    match (first, second) {
        (Value::Number(_), Value::Number(_)) | (Value::Constant(_), Value::Constant(_)) => {
            Ok(first == second)
        }
        (_, _) => Err(fault(line, ScriptErrorKind::Expected)),
    }
}

/// Whether two numbers, two constants or two truths are the same.
#[tactic(auto, unfolding(crate::specs::Worths::are_same))]
fn are_same<A: Allocator>(
    first: Worth<A>,
    second: Worth<A>,
    line: Position,
) -> Result<bool, ReadError>
    ensures { Gives (λ b. b) result (are_same_of (worth_of first) (worth_of second)) }
{
    match (first, second) {
        (Worth::One(first), Worth::One(second)) => are_same_values(&first, &second, line),
        (Worth::Truth(first), Worth::Truth(second)) => Ok(first == second),
        (_, _) => Err(fault(line, ScriptErrorKind::Expected)),
    }
}

/// Whether the first of two numbers is below the second.
#[tactic(auto, unfolding(crate::specs::Worths::is_less))]
fn is_less<A: Allocator>(
    first: Worth<A>,
    second: Worth<A>,
    line: Position,
) -> Result<bool, ReadError>
    ensures { Gives (λ b. b) result (is_less_of (worth_of first) (worth_of second)) }
{
    let first = the_number(first, line)?;
    let second = the_number(second, line)?;
    Ok(first < second)
}

/// Whether the first of two numbers is at most the second.
#[tactic(auto, unfolding(crate::specs::Worths::is_at_most))]
fn is_at_most<A: Allocator>(
    first: Worth<A>,
    second: Worth<A>,
    line: Position,
) -> Result<bool, ReadError>
    ensures { Gives (λ b. b) result (is_at_most_of (worth_of first) (worth_of second)) }
{
    let first = the_number(first, line)?;
    let second = the_number(second, line)?;
    Ok(first <= second)
}

/// What a comparison makes of its sides.
#[tactic(auto, unfolding(crate::specs::Worths::compared))]
fn compared<A: Allocator>(
    operator: Operator,
    sides: (Worth<A>, Worth<A>),
    line: Position,
) -> Result<bool, ReadError>
    ensures { Gives (λ b. b) result (compared_of operator (worth_of sides.0) (worth_of sides.1)) }
{
    let (first, second) = sides;
    match operator {
        Operator::Equal => are_same(first, second, line),
        Operator::NotEqual => Ok(!are_same(first, second, line)?),
        Operator::Less => is_less(first, second, line),
        Operator::LessOrEqual => is_at_most(first, second, line),
        Operator::Greater => is_less(second, first, line),
        Operator::GreaterOrEqual => is_at_most(second, first, line),
        _ => Err(fault(line, ScriptErrorKind::Expected)),
    }
}

/// Whether the operator is one of comparisons.
#[tactic(auto, unfolding(crate::specs::Worths::is_comparison))]
pub(crate) fn is_comparison(operator: Operator) -> bool
    ensures { result ≡ is_comparison_of operator }
{
    match operator {
        Operator::Equal | Operator::NotEqual => true,
        Operator::Less | Operator::LessOrEqual => true,
        Operator::Greater | Operator::GreaterOrEqual => true,
        _ => false,
    }
}

/// The truth that a comparison makes of what its sides mean.
#[tactic(auto, unfolding(crate::specs::Worths::comparison))]
pub(crate) fn comparison<A: Allocator>(
    operator: Operator,
    worths: Vec<Worth<A>, A>,
    line: Position,
) -> Result<Worth<A>, ReadError>
    ensures { Gives worth_of result (comparison_of operator (map worth_of worths.items)) }
{
    let sides = the_two(worths, line)?;
    let truth = compared(operator, sides, line)?;
    Ok(Worth::Truth(truth))
}
