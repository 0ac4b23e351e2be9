//! Tuples, sequences and sets of values.
ghost use Rattle.std.specs.Prelude.{◌≡◌, ◌++◌, IfOk};
ghost use Rattle.cspm_values.specs.Limits.{fitting as fitting_of};
ghost use Rattle.cspm_values.specs.Made.{with_all as with_all_of, set_of as set_of_all, sequence_value as sequence_value_of, set_value as set_value_of, made as made_of};
ghost use Rattle.cspm_values.specs.View.{Gives, value as plain_value, values as plain_values};

use crate::height::sized;
use crate::stop::{Limit, Stop, beyond};
use crate::value::{Head, Value, all_copied, copied, with_parts};
use std::alloc::{AllocError, Allocator};
use std::collections::BTreeSet;

/// What a list of values makes.
#[derive(Clone, Copy, Debug, PartialEq, Eq)]
pub enum Kind {
    Tuple,
    Sequence,
    Set,
}

/// The most members of a set or a sequence, and the most choices that generators have together.
pub const MEMBER_LIMIT: usize = 65_536;

/// The values of a set while it is made.
pub(crate) type Tree<A> = BTreeSet<Value<A>, A>;

/// The values, if they are no more than the limit.
#[tactic(auto, unfolding(crate::specs::Limits::fitting))]
pub fn fitting<A: Allocator>(values: Vec<Value<A>, A>) -> Result<Vec<Value<A>, A>, Stop>
    ensures { Gives (λ v. plain_values v.items) result (fitting_of (plain_values values.items)) }
{
    if values.len() > MEMBER_LIMIT {
        return Err(beyond(Limit::Members));
    }
    Ok(values)
}

/// The set with these values too.
#[tactic(auto, using(crate::proofs::Members::all_more, crate::proofs::Members::all_end))]
pub(crate) fn with_all<A: Allocator + Clone>(
    alloc: &A,
    set: Tree<A>,
    values: &[Value<A>],
) -> Result<Tree<A>, AllocError>
    ensures { IfOk result (λ s. plain_values s.keys ≡ with_all_of (plain_values set.keys) (plain_values values.now)) }
{
    let mut all = set;
    for value in values {
        let _added = all.insert(copied(alloc, value)?)?;
    }
    Ok(all)
}

/// The values of a list, in their order.
pub(crate) fn tree<A: Allocator + Clone>(
    alloc: &A,
    values: &[Value<A>],
) -> Result<Tree<A>, AllocError>
    ensures { IfOk result (λ s. plain_values s.keys ≡ set_of_all (plain_values values.now)) }
{
    let empty = BTreeSet::new(alloc.clone()?);
    with_all(alloc, empty, values)
}

/// The values of a set.
#[tactic(auto, using(crate::proofs::Members::listed_more, crate::proofs::Members::listed_end))]
pub(crate) fn listed<A: Allocator + Clone>(
    alloc: &A,
    set: Tree<A>,
) -> Result<Vec<Value<A>, A>, AllocError>
    ensures { IfOk result (λ v. plain_values v.items ≡ plain_values set.keys) }
{
    let mut rest = set;
    let mut values = Vec::new(alloc.clone()?);
    while let Some(value) = rest.pop_first() {
        values.push(value)?;
    }
    Ok(values)
}

/// The set of these.
fn set_of<A: Allocator + Clone>(
    alloc: &A,
    values: &[Value<A>],
) -> Result<Vec<Value<A>, A>, AllocError>
    ensures { IfOk result (λ v. plain_values v.items ≡ set_of_all (plain_values values.now)) }
{
    let tree = tree(alloc, values)?;
    listed(alloc, tree)
}

/// The values, and then copies of these.
#[tactic(auto, using(crate::proofs::Members::copies_more, crate::proofs::Members::copies_end))]
pub(crate) fn extended<A: Allocator + Clone>(
    alloc: &A,
    values: Vec<Value<A>, A>,
    more: &[Value<A>],
) -> Result<Vec<Value<A>, A>, AllocError>
    ensures { IfOk result (λ v. plain_values v.items ≡ plain_values values.items ++ plain_values more.now) }
{
    let mut all = values;
    for value in more {
        all.push(copied(alloc, value)?)?;
    }
    Ok(all)
}

/// Copies of these, and then of those.
pub(crate) fn joined<A: Allocator + Clone>(
    alloc: &A,
    first: &[Value<A>],
    second: &[Value<A>],
) -> Result<Vec<Value<A>, A>, AllocError>
    ensures { IfOk result (λ v. plain_values v.items ≡ plain_values first.now ++ plain_values second.now) }
{
    let all = all_copied(alloc, first)?;
    extended(alloc, all, second)
}

/// A sequence of these.
#[tactic(auto, unfolding(crate::specs::Made::sequence_value))]
pub(crate) fn sequence_value<A: Allocator>(values: Vec<Value<A>, A>) -> Result<Value<A>, Stop>
    ensures { Gives plain_value result (sequence_value_of (plain_values values.items)) }
{
    let values = fitting(values)?;
    sized(with_parts(Head::Sequence, values))
}

/// The set of these.
#[tactic(auto, unfolding(crate::specs::Made::set_value))]
pub(crate) fn set_value<A: Allocator + Clone>(
    alloc: &A,
    values: &[Value<A>],
) -> Result<Value<A>, Stop>
    ensures { Gives plain_value result (set_value_of (plain_values values.now)) }
{
    let values = set_of(alloc, values)?;
    let values = fitting(values)?;
    sized(with_parts(Head::Set, values))
}

/// A tuple, a sequence or a set of these.
#[tactic(auto, unfolding(crate::specs::Made::made))]
pub fn made<A: Allocator + Clone>(
    alloc: &A,
    kind: Kind,
    values: Vec<Value<A>, A>,
) -> Result<Value<A>, Stop>
    ensures { Gives plain_value result (made_of kind (plain_values values.items)) }
{
    match kind {
        Kind::Tuple => sized(with_parts(Head::Tuple, values)),
        Kind::Sequence => sequence_value(values),
        Kind::Set => set_value(alloc, &values),
    }
}
