//! What phrases mean: values, sets of values, and truths.
ghost use Rattle.std.specs.Prelude.{◌≡◌, Some, IfOk, map};
ghost use Rattle.alphabet.specs.Channels.{constant};
ghost use Rattle.values.specs.Values.{set_of};
ghost use Rattle.values.specs.Worths.{the_value as the_value_of, the_number as the_number_of, the_set as the_set_of, the_truth as the_truth_of, the_only as the_only_of, the_two as the_two_of, two_numbers as two_numbers_of, two_sets as two_sets_of, set_of_all};
ghost use Rattle.values.specs.View.{Gives, value, values, worth as worth_of};

use crate::sets::Values;
use crate::value::Value;
use std::alloc::{AllocError, Allocator};
use std::collections::BTreeSet;
use tokens::{Position, ReadError, ScriptErrorKind, fault};

/// What a phrase means.
#[derive(Drop)]
pub enum Worth<A: Allocator> {
    /// A number or a constant.
    One(Value<A>),
    /// A set of them.
    Many(Values<A>),
    Truth(bool),
}

impl<A: Allocator + Clone> Worth<A> {
    /// A copy of its own memory.
    pub fn try_clone(&self) -> Result<Worth<A>, AllocError>
        ensures { IfOk result (λ copy. worth_of copy ≡ worth_of self.now) }
    {
        match self {
            Worth::One(value) => Ok(Worth::One(value.clone()?)),
            Worth::Many(set) => Ok(Worth::Many(set.clone()?)),
            Worth::Truth(truth) => Ok(Worth::Truth(*truth)),
        }
    }
}

/// The value, where it is one; else `Expected`.
#[tactic(auto, unfolding(crate::specs::Worths::the_value))]
pub fn the_value<A: Allocator>(worth: Worth<A>, line: Position) -> Result<Value<A>, ReadError>
    ensures { Gives value result (the_value_of (worth_of worth)) }
{
    match worth {
        Worth::One(value) => Ok(value),
        Worth::Many(_) | Worth::Truth(_) => Err(fault(line, ScriptErrorKind::Expected)),
    }
}

/// The number, where it is one.
#[tactic(auto, unfolding(crate::specs::Worths::the_number))]
pub(crate) fn the_number<A: Allocator>(worth: Worth<A>, line: Position) -> Result<i64, ReadError>
    ensures { Gives (λ z. z) result (the_number_of (worth_of worth)) }
{
    match worth {
        Worth::One(Value::Number(number)) => Ok(number),
        Worth::One(Value::Constant(_)) => Err(fault(line, ScriptErrorKind::Expected)),
        Worth::Many(_) | Worth::Truth(_) => Err(fault(line, ScriptErrorKind::Expected)),
    }
}

/// The set, where it is one; else `Expected`.
#[tactic(auto, unfolding(crate::specs::Worths::the_set))]
pub fn the_set<A: Allocator>(worth: Worth<A>, line: Position) -> Result<Values<A>, ReadError>
    ensures { Gives values result (the_set_of (worth_of worth)) }
{
    match worth {
        Worth::One(_) | Worth::Truth(_) => Err(fault(line, ScriptErrorKind::Expected)),
        Worth::Many(set) => Ok(set),
    }
}

/// The truth, where it is one; else `Expected`.
#[tactic(auto, unfolding(crate::specs::Worths::the_truth))]
pub fn the_truth<A: Allocator>(worth: Worth<A>, line: Position) -> Result<bool, ReadError>
    ensures { Gives (λ b. b) result (the_truth_of (worth_of worth)) }
{
    match worth {
        Worth::One(_) | Worth::Many(_) => Err(fault(line, ScriptErrorKind::Expected)),
        Worth::Truth(truth) => Ok(truth),
    }
}

/// The only one of the list.
pub(crate) fn the_only<A: Allocator>(
    worths: Vec<Worth<A>, A>,
    line: Position,
) -> Result<Worth<A>, ReadError>
    ensures { Gives worth_of result (the_only_of (map worth_of worths.items)) }
{
    let mut worths = worths;
    if worths.len() != 1 {
        return Err(fault(line, ScriptErrorKind::Expected));
    }
    match worths.pop() {
        Some(only) => Ok(only),
        None => Err(fault(line, ScriptErrorKind::Expected)),
    }
}

/// The two of the list.
#[tactic(auto, using(crate::proofs::Lists::only_two))]
pub(crate) fn the_two<A: Allocator>(
    worths: Vec<Worth<A>, A>,
    line: Position,
) -> Result<(Worth<A>, Worth<A>), ReadError>
    ensures { Gives (λ p. (worth_of p.0, worth_of p.1)) result (the_two_of (map worth_of worths.items)) }
{
    let mut worths = worths;
    if worths.len() != 2 {
        return Err(fault(line, ScriptErrorKind::Expected));
    }
    let Some(second) = worths.pop() else {
        return Err(fault(line, ScriptErrorKind::Expected));
    };
    match worths.pop() {
        Some(first) => Ok((first, second)),
        None => Err(fault(line, ScriptErrorKind::Expected)),
    }
}

/// The two numbers of the list.
#[tactic(auto, unfolding(crate::specs::Worths::two_numbers))]
pub(crate) fn two_numbers<A: Allocator>(
    worths: Vec<Worth<A>, A>,
    line: Position,
) -> Result<(i64, i64), ReadError>
    ensures { Gives (λ p. (p.0, p.1)) result (two_numbers_of (map worth_of worths.items)) }
{
    let (first, second) = the_two(worths, line)?;
    let first = the_number(first, line)?;
    let second = the_number(second, line)?;
    Ok((first, second))
}

/// The two sets of the list.
#[tactic(auto, unfolding(crate::specs::Worths::two_sets))]
pub(crate) fn two_sets<A: Allocator>(
    worths: Vec<Worth<A>, A>,
    line: Position,
) -> Result<(Values<A>, Values<A>), ReadError>
    ensures { Gives (λ p. (values p.0, values p.1)) result (two_sets_of (map worth_of worths.items)) }
{
    let (first, second) = the_two(worths, line)?;
    let first = the_set(first, line)?;
    let second = the_set(second, line)?;
    Ok((first, second))
}

/// The set of the values in the list, each of which has to be one.
#[tactic(auto, using(crate::proofs::Lists::listed_start, crate::proofs::Lists::listed_more, crate::proofs::Lists::listed_fails, crate::proofs::Lists::listed_end))]
pub(crate) fn listed<A: Allocator + Clone>(
    alloc: &A,
    worths: Vec<Worth<A>, A>,
    line: Position,
) -> Result<Values<A>, ReadError>
    ensures { Gives values result (set_of_all (map worth_of worths.items)) }
{
    let mut worths = worths;
    let mut set = BTreeSet::new(alloc.clone()?);
    while let Some(worth) = worths.pop() {
        let value = the_value(worth, line)?;
        let _added = set.insert(value)?;
    }
    Ok(set)
}

/// The set of the constants with these names.
#[tactic(auto, using(crate::proofs::Lists::constants_start, crate::proofs::Lists::constants_more, crate::proofs::Lists::constants_end))]
pub fn constant_set<A: Allocator + Clone>(
    alloc: &A,
    names: &[Vec<u8, A>],
) -> Result<Values<A>, ReadError>
    ensures { Gives values result (Some (set_of (map (λ n. constant n.items) names.now))) }
{
    let mut worths = Vec::new(alloc.clone()?);
    for name in names {
        worths.push(Worth::One(Value::Constant(name.clone()?)))?;
    }
    listed(alloc, worths, Position::Line(1))
}
