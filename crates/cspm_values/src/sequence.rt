//! Functions of sequences.
ghost use Rattle.std.specs.Prelude.{[], ◌++◌};
ghost use Rattle.cspm_values.specs.Limits.{fitting as fitting_of};
ghost use Rattle.cspm_values.specs.Sequences.{joined as joined_of, appended as appended_of, length_of, head_of, tail_of, is_null as is_null_of, is_element as is_element_of, concatenation as concatenation_of};
ghost use Rattle.cspm_values.specs.View.{Gives, value as plain_value, values as plain_values};

use crate::making::{extended, fitting, joined, sequence_value};
use crate::order::is_among;
use crate::parts::{
    both, first_member, number_value, only_sequence, the_sequence, truth_value, two_sequences,
};
use crate::set::{counted, is_nothing};
use crate::stop::Stop;
use crate::value::{Value, all_copied, copied};
use std::alloc::Allocator;

#[tactic(auto, unfolding(crate::specs::Sequences::appended))]
pub(crate) fn appended<A: Allocator + Clone>(
    alloc: &A,
    values: &[Value<A>],
) -> Result<Value<A>, Stop>
    ensures { Gives plain_value result (appended_of (plain_values values.now)) }
{
    let (first, second) = two_sequences(values)?;
    let all = joined(alloc, first, second)?;
    sequence_value(all)
}

#[tactic(auto, unfolding(crate::specs::Sequences::length_of))]
pub(crate) fn length<A: Allocator>(values: &[Value<A>]) -> Result<Value<A>, Stop>
    ensures { Gives plain_value result (length_of (plain_values values.now)) }
{
    let members = only_sequence(values)?;
    let number = counted(members)?;
    Ok(number_value(number))
}

#[tactic(auto, unfolding(crate::specs::Sequences::head_of))]
pub(crate) fn head<A: Allocator + Clone>(alloc: &A, values: &[Value<A>]) -> Result<Value<A>, Stop>
    ensures { Gives plain_value result (head_of (plain_values values.now)) }
{
    let members = only_sequence(values)?;
    let (first, _) = first_member(members)?;
    Ok(copied(alloc, first)?)
}

#[tactic(auto, unfolding(crate::specs::Sequences::tail_of))]
pub(crate) fn tail<A: Allocator + Clone>(alloc: &A, values: &[Value<A>]) -> Result<Value<A>, Stop>
    ensures { Gives plain_value result (tail_of (plain_values values.now)) }
{
    let members = only_sequence(values)?;
    let (_, rest) = first_member(members)?;
    sequence_value(all_copied(alloc, rest)?)
}

#[tactic(auto, unfolding(crate::specs::Sequences::is_null))]
pub(crate) fn is_null<A: Allocator>(values: &[Value<A>]) -> Result<Value<A>, Stop>
    ensures { Gives plain_value result (is_null_of (plain_values values.now)) }
{
    let members = only_sequence(values)?;
    Ok(truth_value(is_nothing(members)))
}

#[tactic(auto, unfolding(crate::specs::Sequences::is_element))]
pub(crate) fn is_element<A: Allocator>(values: &[Value<A>]) -> Result<Value<A>, Stop>
    ensures { Gives plain_value result (is_element_of (plain_values values.now)) }
{
    let (value, sequence) = both(values)?;
    let members = the_sequence(sequence)?;
    Ok(truth_value(is_among(value, members)))
}

/// The values, and then copies of these.
fn with_members<A: Allocator + Clone>(
    alloc: &A,
    values: Vec<Value<A>, A>,
    members: &[Value<A>],
) -> Result<Vec<Value<A>, A>, Stop>
    ensures { Gives (λ v. plain_values v.items) result (fitting_of (plain_values values.items ++ plain_values members.now)) }
{
    let all = extended(alloc, values, members)?;
    fitting(all)
}

/// The members of all these sequences.
#[tactic(auto, using(crate::proofs::Turns::joined_more, crate::proofs::Turns::joined_fails, crate::proofs::Turns::joined_full, crate::proofs::Turns::joined_end))]
fn joined_all<A: Allocator + Clone>(
    alloc: &A,
    sequences: &[Value<A>],
) -> Result<Vec<Value<A>, A>, Stop>
    ensures { Gives (λ v. plain_values v.items) result (joined_of [] (plain_values sequences.now)) }
{
    let mut all = Vec::new(alloc.clone()?);
    for sequence in sequences {
        let members = the_sequence(sequence)?;
        all = with_members(alloc, all, members)?;
    }
    Ok(all)
}

#[tactic(auto, unfolding(crate::specs::Sequences::concatenation))]
pub(crate) fn concatenation<A: Allocator + Clone>(
    alloc: &A,
    values: &[Value<A>],
) -> Result<Value<A>, Stop>
    ensures { Gives plain_value result (concatenation_of (plain_values values.now)) }
{
    let sequences = only_sequence(values)?;
    let members = joined_all(alloc, sequences)?;
    sequence_value(members)
}
