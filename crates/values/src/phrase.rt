//! What phrases for values, sets of values and truths mean.
ghost use Rattle.std.specs.Prelude.{◌≡◌, Some, map};
ghost use Rattle.syntax.specs.View.{shape, shapes};
ghost use Rattle.syntax.specs.Grammar.{Node};
ghost use Rattle.syntax.specs.Parsing.{syntaxes};
ghost use Rattle.values.specs.Worths.{calculated as calculated_of, computed as computed_of, operated as operated_of, negated as negated_of, nothing_of, set_with as set_with_of, range_with as range_with_of, union_with as union_with_of, intersection_with as intersection_with_of, difference_with as difference_with_of, formed as formed_of, condition as condition_of, worth as worth_in, worths as worths_in};
ghost use Rattle.values.specs.Lazy.{connective};
ghost use Rattle.values.specs.View.{Gives, worth as worth_of};
ghost use Rattle.values.specs.Tables.{table, input, behind};

use crate::input::{Input, worth_behind};
use crate::known::Known;
use crate::number::{difference as number_difference, limited, product, remainder, sum};
use crate::sets::{difference, fitting, intersection, range, union};
use crate::truths::{Lazy, comparison, is_comparison, lazy_form, negated_truth, truth_of};
use crate::value::Value;
use crate::worth::{Worth, listed, the_number, the_only, the_truth, two_numbers, two_sets};
use std::alloc::Allocator;
use std::collections::BTreeSet;
use syntax::{Form, Operator, Tree};
use tokens::{Position, ReadError, ScriptErrorKind, fault};

/// What `+`, `-`, `*` and `%` make of two numbers.
#[tactic(auto, unfolding(crate::specs::Worths::calculated))]
fn calculated(operator: Operator, numbers: (i64, i64), line: Position) -> Result<i64, ReadError>
    ensures { Gives (λ z. z) result (calculated_of operator numbers.0 numbers.1) }
{
    let (first, second) = numbers;
    match operator {
        Operator::Plus => sum(first, second, line),
        Operator::Minus => number_difference(first, second, line),
        Operator::Times => product(first, second, line),
        Operator::Remainder => remainder(first, second, line),
        _ => Err(fault(line, ScriptErrorKind::Expected)),
    }
}

/// The same of what their sides mean.
#[tactic(auto, unfolding(crate::specs::Worths::computed))]
fn computed<A: Allocator>(
    operator: Operator,
    worths: Vec<Worth<A>, A>,
    line: Position,
) -> Result<Worth<A>, ReadError>
    ensures { Gives worth_of result (computed_of operator (map worth_of worths.items)) }
{
    let numbers = two_numbers(worths, line)?;
    let number = calculated(operator, numbers, line)?;
    Ok(Worth::One(Value::Number(number)))
}

/// What an operator makes of what its sides mean.
#[tactic(auto, unfolding(crate::specs::Worths::operated))]
fn operated<A: Allocator>(
    operator: Operator,
    worths: Vec<Worth<A>, A>,
    line: Position,
) -> Result<Worth<A>, ReadError>
    ensures { Gives worth_of result (operated_of operator (map worth_of worths.items)) }
{
    if is_comparison(operator) {
        comparison(operator, worths, line)
    } else {
        computed(operator, worths, line)
    }
}

/// The number with its sign turned.
#[tactic(auto, unfolding(crate::specs::Worths::negated))]
fn negated<A: Allocator>(worths: Vec<Worth<A>, A>, line: Position) -> Result<Worth<A>, ReadError>
    ensures { Gives worth_of result (negated_of (map worth_of worths.items)) }
{
    let only = the_only(worths, line)?;
    let number = the_number(only, line)?;
    let number = number_difference(0, number, line)?;
    Ok(Worth::One(Value::Number(number)))
}

/// The set without values, of no parts.
#[tactic(auto, unfolding(crate::specs::Worths::nothing_of), using(crate::proofs::Lists::no_parts))]
fn nothing<A: Allocator + Clone>(
    alloc: &A,
    worths: Vec<Worth<A>, A>,
    line: Position,
) -> Result<Worth<A>, ReadError>
    ensures { Gives worth_of result (nothing_of (map worth_of worths.items)) }
{
    if worths.is_empty() {
        return Ok(Worth::Many(BTreeSet::new(alloc.clone()?)));
    }
    Err(fault(line, ScriptErrorKind::Expected))
}

/// The set of the values of the parts.
#[tactic(auto, unfolding(crate::specs::Worths::set_with))]
fn set_with<A: Allocator + Clone>(
    alloc: &A,
    worths: Vec<Worth<A>, A>,
    line: Position,
) -> Result<Worth<A>, ReadError>
    ensures { Gives worth_of result (set_with_of (map worth_of worths.items)) }
{
    let set = listed(alloc, worths, line)?;
    let set = fitting(set, line)?;
    Ok(Worth::Many(set))
}

#[tactic(auto, unfolding(crate::specs::Worths::range_with))]
fn range_with<A: Allocator + Clone>(
    alloc: &A,
    worths: Vec<Worth<A>, A>,
    line: Position,
) -> Result<Worth<A>, ReadError>
    ensures { Gives worth_of result (range_with_of (map worth_of worths.items)) }
{
    let numbers = two_numbers(worths, line)?;
    let set = range(alloc, numbers, line)?;
    Ok(Worth::Many(set))
}

#[tactic(auto, unfolding(crate::specs::Worths::union_with))]
fn union_with<A: Allocator + Clone>(
    worths: Vec<Worth<A>, A>,
    line: Position,
) -> Result<Worth<A>, ReadError>
    ensures { Gives worth_of result (union_with_of (map worth_of worths.items)) }
{
    let (first, second) = two_sets(worths, line)?;
    let set = union(first, second)?;
    let set = fitting(set, line)?;
    Ok(Worth::Many(set))
}

#[tactic(auto, unfolding(crate::specs::Worths::intersection_with))]
fn intersection_with<A: Allocator>(
    worths: Vec<Worth<A>, A>,
    line: Position,
) -> Result<Worth<A>, ReadError>
    ensures { Gives worth_of result (intersection_with_of (map worth_of worths.items)) }
{
    let (first, second) = two_sets(worths, line)?;
    let set = intersection(first, &second);
    Ok(Worth::Many(set))
}

#[tactic(auto, unfolding(crate::specs::Worths::difference_with))]
fn difference_with<A: Allocator>(
    worths: Vec<Worth<A>, A>,
    line: Position,
) -> Result<Worth<A>, ReadError>
    ensures { Gives worth_of result (difference_with_of (map worth_of worths.items)) }
{
    let (first, second) = two_sets(worths, line)?;
    let set = difference(first, &second);
    Ok(Worth::Many(set))
}

/// What a form makes of what its parts mean.
#[tactic(auto, unfolding(crate::specs::Worths::formed))]
fn formed<A: Allocator + Clone>(
    alloc: &A,
    form: Form,
    worths: Vec<Worth<A>, A>,
    line: Position,
) -> Result<Worth<A>, ReadError>
    ensures { Gives worth_of result (formed_of form (map worth_of worths.items)) }
{
    match form {
        Form::Event | Form::Brackets => the_only(worths, line),
        Form::Negation | Form::NegativeNumber => negated(worths, line),
        Form::True => truth_of(true, worths, line),
        Form::False => truth_of(false, worths, line),
        Form::Not => negated_truth(worths, line),
        Form::Operation(operator) => operated(operator, worths, line),
        Form::EmptySet => nothing(alloc, worths, line),
        Form::Set => set_with(alloc, worths, line),
        Form::Range => range_with(alloc, worths, line),
        Form::Union => union_with(worths, line),
        Form::Intersection => intersection_with(worths, line),
        Form::Difference => difference_with(worths, line),
        _ => Err(fault(line, ScriptErrorKind::Expected)),
    }
}

/// What a phrase means after these inputs, where other names mean what the table says. The last input of a
/// name is the one that counts. The branch that a condition doesn't choose isn't looked at, and neither is the second
/// side of `and` and `or` where the first decides.
///
/// The fault has the line of the phrase that is at fault: `Expected` for a phrase of another kind, `UnknownName` for a
/// name that neither the inputs nor the table have, `OutOfRange` for a number past its limits, `TooLarge` for a set of more than 65,536
/// values.
#[cycle(phrase)]
#[tactic(auto, unfolding(crate::specs::Worths::worth))]
pub fn stands_for<A: Allocator + Clone>(
    alloc: &A,
    known: &Known<A>,
    inputs: &[Input<A>],
    tree: &Tree<A>,
) -> Result<Worth<A>, ReadError>
    ensures { Gives worth_of result (worth_in (behind (table known.now) (map input inputs.now)) (shape tree.now)) }
{
    match tree {
        Tree::Name { line, text } => worth_behind(known, inputs, text, *line),
        Tree::Number { line, value } => {
            let number = limited(i64::from(*value), *line)?;
            Ok(Worth::One(Value::Number(number)))
        }
        Tree::Node { line, form, parts } => match lazy_form(*form) {
            Some(Lazy::Condition) => conditional(alloc, known, inputs, parts, *line),
            Some(Lazy::Connective(decisive)) => {
                connected(alloc, known, inputs, decisive, parts, *line)
            }
            None => {
                let worths = each_stands_for(alloc, known, inputs, parts)?;
                formed(alloc, *form, worths, *line)
            }
        },
    }
}

/// What the branch means that the condition chooses. The other one isn't looked at.
#[cycle(phrase)]
fn conditional<A: Allocator + Clone>(
    alloc: &A,
    known: &Known<A>,
    inputs: &[Input<A>],
    parts: &[Tree<A>],
    line: Position,
) -> Result<Worth<A>, ReadError>
    ensures { Gives worth_of result (worth_in (behind (table known.now) (map input inputs.now)) (Node Form.If (syntaxes (shapes parts.now)))) }
{
    match parts {
        [condition, first, second] => {
            let truth = truth_of_phrase(alloc, known, inputs, condition)?;
            if truth {
                stands_for(alloc, known, inputs, first)
            } else {
                stands_for(alloc, known, inputs, second)
            }
        }
        _ => Err(fault(line, ScriptErrorKind::Expected)),
    }
}

/// What `and` or `or` makes of its sides. The second isn't looked at where the first is the truth that decides.
#[cycle(phrase)]
fn connected<A: Allocator + Clone>(
    alloc: &A,
    known: &Known<A>,
    inputs: &[Input<A>],
    decisive: bool,
    sides: &[Tree<A>],
    line: Position,
) -> Result<Worth<A>, ReadError>
    ensures { Gives worth_of result (worth_in (behind (table known.now) (map input inputs.now)) (Node (Form.Operation (connective decisive)) (syntaxes (shapes sides.now)))) }
{
    match sides {
        [first, second] => {
            let truth = truth_of_phrase(alloc, known, inputs, first)?;
            if truth == decisive {
                return Ok(Worth::Truth(truth));
            }
            let other = truth_of_phrase(alloc, known, inputs, second)?;
            Ok(Worth::Truth(other))
        }
        _ => Err(fault(line, ScriptErrorKind::Expected)),
    }
}

/// The truth that a phrase means.
#[cycle(phrase)]
#[tactic(auto, unfolding(crate::specs::Worths::condition))]
fn truth_of_phrase<A: Allocator + Clone>(
    alloc: &A,
    known: &Known<A>,
    inputs: &[Input<A>],
    tree: &Tree<A>,
) -> Result<bool, ReadError>
    ensures { Gives (λ b. b) result (condition_of (behind (table known.now) (map input inputs.now)) (shape tree.now)) }
{
    let worth = stands_for(alloc, known, inputs, tree)?;
    the_truth(worth, tree.line())
}

/// What each of the phrases means.
#[cycle(phrase)]
fn each_stands_for<A: Allocator + Clone>(
    alloc: &A,
    known: &Known<A>,
    inputs: &[Input<A>],
    trees: &[Tree<A>],
) -> Result<Vec<Worth<A>, A>, ReadError>
    ensures { Gives (λ v. map worth_of v.items) result (worths_in (behind (table known.now) (map input inputs.now)) (syntaxes (shapes trees.now))) }
{
    let mut worths = Vec::new(alloc.clone()?);
    for tree in trees {
        worths.push(stands_for(alloc, known, inputs, tree)?)?;
    }
    Ok(worths)
}
