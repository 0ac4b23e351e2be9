//! The order of values.
ghost use Rattle.std.proofs.Common.{rules};
ghost use Rattle.std.specs.Prelude.{◌≡◌};
ghost use Rattle.std.specs.Cmp.{on_total, eq_by_cmp_equiv, partial_order_from_total, partial_equiv_from_equiv};
ghost use Rattle.std.specs.Cmp.Rules.{comparing};
ghost use Rattle.std.specs.Ordering.{on, as_partial_cmp, eq_by_cmp};
ghost use Rattle.cspm_values.specs.Values.{row_of, rank as rank_of, name_of, size_of, head_cmp, value_cmp, values_cmp, is_same as is_same_of, is_among as is_among_of};
ghost use Rattle.cspm_values.specs.Order.{value_total};
ghost use Rattle.cspm_values.specs.View.{head as plain_head, value as plain_value, values as plain_values};

use crate::value::{Head, Value, split};
use std::alloc::Allocator;
use std::cmp::Ordering;

/// Numbers, truths, constructors, tuples, sequences, sets.
fn rank<A: Allocator>(head: &Head<A>) -> u8
    ensures { result ≡ rank_of (plain_head head.now) }
{
    match head {
        Head::Number(_) => 0,
        Head::Truth(_) => 1,
        Head::Constructor(_, _) => 2,
        Head::Tuple => 3,
        Head::Sequence => 4,
        Head::Set => 5,
    }
}

/// The name of a constructor.
fn name<A: Allocator>(head: &Head<A>) -> &[u8]
    ensures { result.now ≡ name_of (plain_head head.now) }
{
    match head {
        Head::Constructor(name, _) => name,
        _ => &[],
    }
}

/// The number, 0 or 1 for a truth, or how many arguments a constructor takes.
fn size<A: Allocator>(head: &Head<A>) -> i64
    ensures { result ≡ size_of (plain_head head.now) }
{
    match head {
        Head::Number(number) => *number,
        Head::Truth(truth) => i64::from(*truth),
        Head::Constructor(_, arity) => i64::from(*arity),
        _ => 0,
    }
}

fn compare_heads<A: Allocator>(first: &Head<A>, second: &Head<A>) -> Ordering
    ensures { result ≡ head_cmp (plain_head first.now) (plain_head second.now) }
{
    rank(first)
        .cmp(&rank(second))
        .then(name(first).cmp(name(second)))
        .then(size(first).cmp(&size(second)))
}

/// The order of values.
#[cycle(order)]
#[tactic(auto, unfolding(crate::specs::Values::value_cmp))]
pub fn compare<A: Allocator>(first: &Value<A>, second: &Value<A>) -> Ordering
    ensures { result ≡ value_cmp (plain_value first.now) (plain_value second.now) }
{
    let (head, parts) = split(first);
    let (other, others) = split(second);
    match compare_heads(head, other) {
        Ordering::Less => Ordering::Less,
        Ordering::Equal => compare_all(parts, others),
        Ordering::Greater => Ordering::Greater,
    }
}

/// The order of lists of values.
#[cycle(order)]
#[tactic(auto, using(crate::proofs::Rows::order_more, crate::proofs::Rows::order_less, crate::proofs::Rows::order_greater, crate::proofs::Rows::order_equal))]
pub(crate) fn compare_all<A: Allocator>(first: &[Value<A>], second: &[Value<A>]) -> Ordering
    ensures { result ≡ values_cmp (row_of (plain_values first.now)) (row_of (plain_values second.now)) }
{
    let mut index = 0;
    while index < first.len() {
        if index >= second.len() {
            return Ordering::Greater;
        }
        match compare(&first[index], &second[index]) {
            Ordering::Less => return Ordering::Less,
            Ordering::Equal => index += 1,
            Ordering::Greater => return Ordering::Greater,
        }
    }
    if index < second.len() {
        Ordering::Less
    } else {
        Ordering::Equal
    }
}

/// Whether the values are the same.
pub fn is_same<A: Allocator>(first: &Value<A>, second: &Value<A>) -> bool
    ensures { result ≡ is_same_of (plain_value first.now) (plain_value second.now) }
{
    compare(first, second).is_eq()
}

/// Whether the value is one of these.
#[tactic(auto, unfolding(crate::specs::Values::is_among), using(crate::proofs::Members::among_next, crate::proofs::Members::among_end))]
pub(crate) fn is_among<A: Allocator>(value: &Value<A>, values: &[Value<A>]) -> bool
    ensures { result ≡ is_among_of (plain_value value.now) (plain_values values.now) }
{
    for other in values {
        if is_same(value, other) {
            return true;
        }
    }
    false
}

impl<A: Allocator> PartialEq for Value<A> {
    ghost eq = { eq_by_cmp (on plain_value value_cmp) };

    ghost laws = { partial_equiv_from_equiv (eq_by_cmp_equiv (on_total plain_value value_total)) };

    fn eq(&self, other: &Value<A>) -> bool {
        self.cmp(other).is_eq()
    }
}

impl<A: Allocator> Eq for Value<A> {
    ghost laws = { eq_by_cmp_equiv (on_total plain_value value_total) };
}

impl<A: Allocator> PartialOrd for Value<A> {
    ghost partial_cmp = { as_partial_cmp (on plain_value value_cmp) };

    ghost laws = { partial_order_from_total (on_total plain_value value_total) };

    fn partial_cmp(&self, other: &Value<A>) -> Option<Ordering> {
        Some(self.cmp(other))
    }
}

impl<A: Allocator> Ord for Value<A> {
    ghost cmp = { on plain_value value_cmp };

    ghost total = { on_total plain_value value_total };

    ghost matches_partial_cmp = { Prim.search (comparing, rules) };

    ghost matches_eq = { Prim.search (comparing, rules) };

    fn cmp(&self, other: &Value<A>) -> Ordering {
        compare(self, other)
    }
}
