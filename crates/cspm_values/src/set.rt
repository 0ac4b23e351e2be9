//! Functions of sets.
ghost use Rattle.std.specs.Prelude.{◌≡◌, [], ◌∷◌, ◌++◌, if◌then◌else◌, IfOk, pos, length};
ghost use Rattle.cspm_values.specs.Values.{is_among as is_among_of};
ghost use Rattle.cspm_values.specs.Limits.{limited as limited_of, fitting as fitting_of};
ghost use Rattle.cspm_values.specs.Made.{with_all as with_all_of};
ghost use Rattle.cspm_values.specs.Sets.{intersection as intersection_of, difference as difference_of, is_nothing as is_nothing_of, is_included as is_included_of, united as united_of, shared as shared_of, shared_by as shared_by_all, set_with as set_with_of, union_with as union_with_of, intersection_with as intersection_with_of, difference_with as difference_with_of, union_of_all as union_of_all_of, intersection_of_all as intersection_of_all_of, membership as membership_of, cardinality as cardinality_of, emptiness as emptiness_of, set_of_sequence as set_of_sequence_of, sequence_of_set as sequence_of_set_of};
ghost use Rattle.cspm_values.specs.View.{Gives, value as plain_value, values as plain_values};

use crate::height::sized;
use crate::making::{
    MEMBER_LIMIT, Tree, joined, listed, sequence_value, set_value, tree, with_all,
};
use crate::number::limited;
use crate::order::is_among;
use crate::parts::{
    both, first_member, number_value, only_sequence, only_set, the_set, truth_value, two_sets,
};
use crate::stop::{Limit, Stop, beyond};
use crate::value::{Head, Value, all_copied, copied, with_parts};
use std::alloc::{AllocError, Allocator};
use std::collections::BTreeSet;

/// Whether the set has the value.
#[tactic(auto, using(crate::proofs::Members::has_view))]
fn has<A: Allocator>(set: &Tree<A>, value: &Value<A>) -> bool
    ensures { result ≡ is_among_of (plain_value value.now) (plain_values set.now.keys) }
{
    set.contains(value)
}

/// The values, and a copy of this one where it is wanted.
fn with_wanted<A: Allocator + Clone>(
    alloc: &A,
    values: Vec<Value<A>, A>,
    value: &Value<A>,
    is_wanted: bool,
) -> Result<Vec<Value<A>, A>, AllocError>
    ensures { IfOk result (λ v. plain_values v.items ≡ plain_values values.items ++ (if is_wanted then plain_value value.now ∷ [] else [])) }
{
    let mut kept = values;
    if is_wanted {
        kept.push(copied(alloc, value)?)?;
        return Ok(kept);
    }
    Ok(kept)
}

/// Those of the first that are among the second.
fn intersection<A: Allocator + Clone>(
    alloc: &A,
    first: &[Value<A>],
    second: &[Value<A>],
) -> Result<Vec<Value<A>, A>, AllocError>
    ensures { IfOk result (λ v. plain_values v.items ≡ intersection_of (plain_values first.now) (plain_values second.now)) }
{
    let set = tree(alloc, second)?;
    let mut kept = Vec::new(alloc.clone()?);
    for value in first {
        let is_wanted = has(&set, value);
        kept = with_wanted(alloc, kept, value, is_wanted)?;
    }
    Ok(kept)
}

/// Those of the first that aren't among the second.
fn difference<A: Allocator + Clone>(
    alloc: &A,
    first: &[Value<A>],
    second: &[Value<A>],
) -> Result<Vec<Value<A>, A>, AllocError>
    ensures { IfOk result (λ v. plain_values v.items ≡ difference_of (plain_values first.now) (plain_values second.now)) }
{
    let set = tree(alloc, second)?;
    let mut kept = Vec::new(alloc.clone()?);
    for value in first {
        let is_shared = has(&set, value);
        kept = with_wanted(alloc, kept, value, !is_shared)?;
    }
    Ok(kept)
}

#[tactic(auto, unfolding(crate::specs::Sets::is_nothing))]
pub(crate) fn is_nothing<A: Allocator>(values: &[Value<A>]) -> bool
    ensures { result ≡ is_nothing_of (plain_values values.now) }
{
    match values {
        [] => true,
        [_, ..] => false,
    }
}

/// Whether all of the first are among the second.
#[tactic(auto, unfolding(crate::specs::Sets::is_included))]
pub(crate) fn is_included<A: Allocator + Clone>(
    alloc: &A,
    first: &[Value<A>],
    second: &[Value<A>],
) -> Result<bool, AllocError>
    ensures { IfOk result (λ b. b ≡ is_included_of (plain_values first.now) (plain_values second.now)) }
{
    let rest = difference(alloc, first, second)?;
    Ok(is_nothing(&rest))
}

/// The set of values, if they are no more than the limit.
#[tactic(auto, unfolding(crate::specs::Limits::fitting))]
fn fitting_set<A: Allocator>(set: Tree<A>) -> Result<Tree<A>, Stop>
    ensures { Gives (λ s. plain_values s.keys) result (fitting_of (plain_values set.keys)) }
{
    if set.len() > MEMBER_LIMIT {
        return Err(beyond(Limit::Members));
    }
    Ok(set)
}

/// The set, and the members of one more.
fn with_members<A: Allocator + Clone>(
    alloc: &A,
    set: Tree<A>,
    members: &[Value<A>],
) -> Result<Tree<A>, Stop>
    ensures { Gives (λ s. plain_values s.keys) result (fitting_of (with_all_of (plain_values set.keys) (plain_values members.now))) }
{
    let all = with_all(alloc, set, members)?;
    fitting_set(all)
}

/// The members of all these sets.
#[tactic(auto, using(crate::proofs::Turns::united_more, crate::proofs::Turns::united_fails, crate::proofs::Turns::united_full, crate::proofs::Turns::united_end))]
fn united<A: Allocator + Clone>(alloc: &A, sets: &[Value<A>]) -> Result<Vec<Value<A>, A>, Stop>
    ensures { Gives (λ v. plain_values v.items) result (united_of [] (plain_values sets.now)) }
{
    let mut all = BTreeSet::new(alloc.clone()?);
    for set in sets {
        let members = the_set(set)?;
        all = with_members(alloc, all, members)?;
    }
    Ok(listed(alloc, all)?)
}

/// What of the values is in all these sets.
#[tactic(auto, using(crate::proofs::Turns::shared_more, crate::proofs::Turns::shared_fails, crate::proofs::Turns::shared_end))]
fn shared<A: Allocator + Clone>(
    alloc: &A,
    values: &[Value<A>],
    sets: &[Value<A>],
) -> Result<Vec<Value<A>, A>, Stop>
    ensures { Gives (λ v. plain_values v.items) result (shared_of (plain_values values.now) (plain_values sets.now)) }
{
    let mut kept = all_copied(alloc, values)?;
    for set in sets {
        let members = the_set(set)?;
        kept = intersection(alloc, &kept, members)?;
    }
    Ok(kept)
}

/// What all these sets share, where there is one.
#[tactic(auto, unfolding(crate::specs::Sets::shared_by))]
fn shared_by<A: Allocator + Clone>(alloc: &A, sets: &[Value<A>]) -> Result<Vec<Value<A>, A>, Stop>
    ensures { Gives (λ v. plain_values v.items) result (shared_by_all (plain_values sets.now)) }
{
    let (first, rest) = first_member(sets)?;
    let members = the_set(first)?;
    shared(alloc, members, rest)
}

#[tactic(auto, unfolding(crate::specs::Sets::set_with))]
fn set_with<A: Allocator>(values: Vec<Value<A>, A>) -> Result<Value<A>, Stop>
    ensures { Gives plain_value result (set_with_of (plain_values values.items)) }
{
    sized(with_parts(Head::Set, values))
}

#[tactic(auto, unfolding(crate::specs::Sets::union_with))]
pub(crate) fn union_with<A: Allocator + Clone>(
    alloc: &A,
    values: &[Value<A>],
) -> Result<Value<A>, Stop>
    ensures { Gives plain_value result (union_with_of (plain_values values.now)) }
{
    let (first, second) = two_sets(values)?;
    let all = joined(alloc, first, second)?;
    set_value(alloc, &all)
}

#[tactic(auto, unfolding(crate::specs::Sets::intersection_with))]
pub(crate) fn intersection_with<A: Allocator + Clone>(
    alloc: &A,
    values: &[Value<A>],
) -> Result<Value<A>, Stop>
    ensures { Gives plain_value result (intersection_with_of (plain_values values.now)) }
{
    let (first, second) = two_sets(values)?;
    set_with(intersection(alloc, first, second)?)
}

#[tactic(auto, unfolding(crate::specs::Sets::difference_with))]
pub(crate) fn difference_with<A: Allocator + Clone>(
    alloc: &A,
    values: &[Value<A>],
) -> Result<Value<A>, Stop>
    ensures { Gives plain_value result (difference_with_of (plain_values values.now)) }
{
    let (first, second) = two_sets(values)?;
    set_with(difference(alloc, first, second)?)
}

#[tactic(auto, unfolding(crate::specs::Sets::union_of_all))]
pub(crate) fn union_of_all<A: Allocator + Clone>(
    alloc: &A,
    values: &[Value<A>],
) -> Result<Value<A>, Stop>
    ensures { Gives plain_value result (union_of_all_of (plain_values values.now)) }
{
    let sets = only_set(values)?;
    let members = united(alloc, sets)?;
    set_with(members)
}

#[tactic(auto, unfolding(crate::specs::Sets::intersection_of_all))]
pub(crate) fn intersection_of_all<A: Allocator + Clone>(
    alloc: &A,
    values: &[Value<A>],
) -> Result<Value<A>, Stop>
    ensures { Gives plain_value result (intersection_of_all_of (plain_values values.now)) }
{
    let sets = only_set(values)?;
    let members = shared_by(alloc, sets)?;
    set_with(members)
}

#[tactic(auto, unfolding(crate::specs::Sets::membership))]
pub(crate) fn membership<A: Allocator>(values: &[Value<A>]) -> Result<Value<A>, Stop>
    ensures { Gives plain_value result (membership_of (plain_values values.now)) }
{
    let (value, set) = both(values)?;
    let members = the_set(set)?;
    Ok(truth_value(is_among(value, members)))
}

/// How many there are.
#[tactic(auto)]
pub(crate) fn counted<A: Allocator>(values: &[Value<A>]) -> Result<i64, Stop>
    ensures { Gives (λ z. z) result (limited_of (pos (length (plain_values values.now)))) }
{
    match i64::try_from(values.len()) {
        Ok(number) => limited(number),
        Err(_) => Err(beyond(Limit::Numbers)),
    }
}

#[tactic(auto, unfolding(crate::specs::Sets::cardinality))]
pub(crate) fn cardinality<A: Allocator>(values: &[Value<A>]) -> Result<Value<A>, Stop>
    ensures { Gives plain_value result (cardinality_of (plain_values values.now)) }
{
    let members = only_set(values)?;
    let number = counted(members)?;
    Ok(number_value(number))
}

#[tactic(auto, unfolding(crate::specs::Sets::emptiness))]
pub(crate) fn emptiness<A: Allocator>(values: &[Value<A>]) -> Result<Value<A>, Stop>
    ensures { Gives plain_value result (emptiness_of (plain_values values.now)) }
{
    let members = only_set(values)?;
    Ok(truth_value(is_nothing(members)))
}

#[tactic(auto, unfolding(crate::specs::Sets::set_of_sequence))]
pub(crate) fn set_of_sequence<A: Allocator + Clone>(
    alloc: &A,
    values: &[Value<A>],
) -> Result<Value<A>, Stop>
    ensures { Gives plain_value result (set_of_sequence_of (plain_values values.now)) }
{
    let members = only_sequence(values)?;
    set_value(alloc, members)
}

#[tactic(auto, unfolding(crate::specs::Sets::sequence_of_set))]
pub(crate) fn sequence_of_set<A: Allocator + Clone>(
    alloc: &A,
    values: &[Value<A>],
) -> Result<Value<A>, Stop>
    ensures { Gives plain_value result (sequence_of_set_of (plain_values values.now)) }
{
    let members = only_set(values)?;
    sequence_value(all_copied(alloc, members)?)
}
