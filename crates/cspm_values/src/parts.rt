//! The parts that operators and functions want.
ghost use Rattle.std.specs.Prelude.{◌≡◌};
ghost use Rattle.std.specs.Option.{option_map};
ghost use Rattle.cspm_values.specs.Answers.{wanted};
ghost use Rattle.cspm_values.specs.Parts.{first_of, one_of, two_of, number_value as number_value_of, truth_value as truth_value_of, the_number as the_number_of, the_truth as the_truth_of, the_set as the_set_of, the_sequence as the_sequence_of, the_members as the_members_of, two_numbers as two_numbers_of, two_sets as two_sets_of, two_sequences as two_sequences_of, only_set as only_set_of, only_sequence as only_sequence_of};
ghost use Rattle.cspm_values.specs.View.{Gives, IsFault, value as plain_value, values as plain_values};

use crate::stop::{FaultKind, Sort, Stop, fault};
use crate::value::{Head, Value, sort_of, split};
use std::alloc::Allocator;

/// A number as a value.
pub fn number_value<A: Allocator>(number: i64) -> Value<A>
    ensures { plain_value result ≡ number_value_of number }
{
    Value::Plain(Head::Number(number))
}

/// A truth as a value.
pub fn truth_value<A: Allocator>(truth: bool) -> Value<A>
    ensures { plain_value result ≡ truth_value_of truth }
{
    Value::Plain(Head::Truth(truth))
}

/// Another kind of value is wanted.
fn unlike<A: Allocator>(wanted: Sort, found: &Head<A>) -> Stop
    ensures { IsFault result }
{
    fault(FaultKind::Sort {
        wanted,
        found: sort_of(found),
    })
}

/// The number, where the value is one.
#[tactic(auto, unfolding(crate::specs::Parts::the_number))]
pub(crate) fn the_number<A: Allocator>(value: &Value<A>) -> Result<i64, Stop>
    ensures { Gives (λ z. z) result (the_number_of (plain_value value.now)) }
{
    let (head, _) = split(value);
    match head {
        Head::Number(number) => Ok(*number),
        _ => Err(unlike(Sort::Number, head)),
    }
}

/// The truth, where the value is one.
#[tactic(auto, unfolding(crate::specs::Parts::the_truth))]
pub fn the_truth<A: Allocator>(value: &Value<A>) -> Result<bool, Stop>
    ensures { Gives (λ b. b) result (the_truth_of (plain_value value.now)) }
{
    let (head, _) = split(value);
    match head {
        Head::Truth(truth) => Ok(*truth),
        _ => Err(unlike(Sort::Truth, head)),
    }
}

/// The members of a set.
#[tactic(auto, unfolding(crate::specs::Parts::the_set), using(crate::proofs::Rows::parts_back))]
pub(crate) fn the_set<A: Allocator>(value: &Value<A>) -> Result<&[Value<A>], Stop>
    ensures { Gives (λ vs. plain_values vs.now) result (the_set_of (plain_value value.now)) }
{
    let (head, parts) = split(value);
    match head {
        Head::Set => Ok(parts),
        _ => Err(unlike(Sort::Set, head)),
    }
}

/// The members of a sequence.
#[tactic(auto, unfolding(crate::specs::Parts::the_sequence), using(crate::proofs::Rows::parts_back))]
pub(crate) fn the_sequence<A: Allocator>(value: &Value<A>) -> Result<&[Value<A>], Stop>
    ensures { Gives (λ vs. plain_values vs.now) result (the_sequence_of (plain_value value.now)) }
{
    let (head, parts) = split(value);
    match head {
        Head::Sequence => Ok(parts),
        _ => Err(unlike(Sort::Sequence, head)),
    }
}

/// What a generator goes over.
#[tactic(auto, unfolding(crate::specs::Parts::the_members), using(crate::proofs::Rows::parts_back))]
pub fn the_members<A: Allocator>(value: &Value<A>) -> Result<&[Value<A>], Stop>
    ensures { Gives (λ vs. plain_values vs.now) result (the_members_of (plain_value value.now)) }
{
    let (head, parts) = split(value);
    match head {
        Head::Set => Ok(parts),
        Head::Sequence => Ok(parts),
        _ => Err(unlike(Sort::Set, head)),
    }
}

/// The first value and those after it.
#[tactic(auto, unfolding(crate::specs::Parts::first_of))]
pub fn first_value<A: Allocator>(values: &[Value<A>]) -> Option<(&Value<A>, &[Value<A>])>
    ensures { option_map (λ p. (plain_value p.0.now, plain_values p.1.now)) result ≡ first_of (plain_values values.now) }
{
    match values {
        [] => None,
        [first, rest @ ..] => Some((first, rest)),
    }
}

#[tactic(auto, unfolding(crate::specs::Parts::one_of))]
fn one_value<A: Allocator>(values: &[Value<A>]) -> Option<&Value<A>>
    ensures { option_map (λ v. plain_value v.now) result ≡ one_of (plain_values values.now) }
{
    match values {
        [only] => Some(only),
        _ => None,
    }
}

#[tactic(auto, unfolding(crate::specs::Parts::two_of))]
fn two_values<A: Allocator>(values: &[Value<A>]) -> Option<(&Value<A>, &Value<A>)>
    ensures { option_map (λ p. (plain_value p.0.now, plain_value p.1.now)) result ≡ two_of (plain_values values.now) }
{
    let (head, rest) = first_value(values)?;
    Some((head, one_value(rest)?))
}

/// The only value.
pub(crate) fn only<A: Allocator>(values: &[Value<A>]) -> Result<&Value<A>, Stop>
    ensures { Gives (λ v. plain_value v.now) result (wanted (one_of (plain_values values.now))) }
{
    match one_value(values) {
        Some(found) => Ok(found),
        None => Err(fault(FaultKind::Arguments)),
    }
}

/// The two values.
pub(crate) fn both<A: Allocator>(values: &[Value<A>]) -> Result<(&Value<A>, &Value<A>), Stop>
    ensures { Gives (λ p. (plain_value p.0.now, plain_value p.1.now)) result (wanted (two_of (plain_values values.now))) }
{
    match two_values(values) {
        Some(found) => Ok(found),
        None => Err(fault(FaultKind::Arguments)),
    }
}

/// The first member and those after it.
pub(crate) fn first_member<A: Allocator>(
    values: &[Value<A>],
) -> Result<(&Value<A>, &[Value<A>]), Stop>
    ensures { Gives (λ p. (plain_value p.0.now, plain_values p.1.now)) result (wanted (first_of (plain_values values.now))) }
{
    match first_value(values) {
        Some(found) => Ok(found),
        None => Err(fault(FaultKind::Empty)),
    }
}

#[tactic(auto, unfolding(crate::specs::Parts::two_numbers))]
pub(crate) fn two_numbers<A: Allocator>(values: &[Value<A>]) -> Result<(i64, i64), Stop>
    ensures { Gives (λ p. (p.0, p.1)) result (two_numbers_of (plain_values values.now)) }
{
    let (first, second) = both(values)?;
    let first = the_number(first)?;
    let second = the_number(second)?;
    Ok((first, second))
}

/// The members of two sets.
#[tactic(auto, unfolding(crate::specs::Parts::two_sets))]
pub(crate) fn two_sets<A: Allocator>(
    values: &[Value<A>],
) -> Result<(&[Value<A>], &[Value<A>]), Stop>
    ensures { Gives (λ p. (plain_values p.0.now, plain_values p.1.now)) result (two_sets_of (plain_values values.now)) }
{
    let (first, second) = both(values)?;
    let first = the_set(first)?;
    let second = the_set(second)?;
    Ok((first, second))
}

/// The members of two sequences.
#[tactic(auto, unfolding(crate::specs::Parts::two_sequences))]
pub(crate) fn two_sequences<A: Allocator>(
    values: &[Value<A>],
) -> Result<(&[Value<A>], &[Value<A>]), Stop>
    ensures { Gives (λ p. (plain_values p.0.now, plain_values p.1.now)) result (two_sequences_of (plain_values values.now)) }
{
    let (first, second) = both(values)?;
    let first = the_sequence(first)?;
    let second = the_sequence(second)?;
    Ok((first, second))
}

#[tactic(auto, unfolding(crate::specs::Parts::only_set))]
pub(crate) fn only_set<A: Allocator>(values: &[Value<A>]) -> Result<&[Value<A>], Stop>
    ensures { Gives (λ vs. plain_values vs.now) result (only_set_of (plain_values values.now)) }
{
    let only = only(values)?;
    the_set(only)
}

#[tactic(auto, unfolding(crate::specs::Parts::only_sequence))]
pub(crate) fn only_sequence<A: Allocator>(values: &[Value<A>]) -> Result<&[Value<A>], Stop>
    ensures { Gives (λ vs. plain_values vs.now) result (only_sequence_of (plain_values values.now)) }
{
    let only = only(values)?;
    the_sequence(only)
}
