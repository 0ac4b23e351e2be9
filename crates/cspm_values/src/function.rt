//! The functions of the language.
ghost use Rattle.cspm_values.specs.Functions.{applied as applied_of};
ghost use Rattle.cspm_values.specs.View.{Gives, value as plain_value, values as plain_values};

use crate::sequence::{concatenation, head, is_element, is_null, length, tail};
use crate::set::{
    cardinality, difference_with, emptiness, intersection_of_all, intersection_with, membership,
    sequence_of_set, set_of_sequence, union_of_all, union_with,
};
use crate::stop::Stop;
use crate::value::Value;
use std::alloc::Allocator;

/// A function of the language.
#[derive(Clone, Copy, Debug, PartialEq, Eq)]
pub enum Function {
    /// `union(S, T)`
    Union,
    /// `inter(S, T)`
    Intersection,
    /// `diff(S, T)`
    Difference,
    /// `Union(SS)`
    UnionOfAll,
    /// `Inter(SS)`
    IntersectionOfAll,
    /// `member(x, S)`
    Member,
    /// `card(S)`
    Card,
    /// `empty(S)`
    Empty,
    /// `set(s)`
    SetOfSequence,
    /// `seq(S)`
    SequenceOfSet,
    /// `length(s)`, `#s`
    Length,
    /// `head(s)`
    Head,
    /// `tail(s)`
    Tail,
    /// `null(s)`
    Null,
    /// `elem(x, s)`
    Element,
    /// `concat(ss)`
    Concat,
}

/// What a function makes of its arguments.
#[tactic(auto, unfolding(crate::specs::Functions::applied))]
pub fn applied<A: Allocator + Clone>(
    alloc: &A,
    function: Function,
    arguments: &[Value<A>],
) -> Result<Value<A>, Stop>
    ensures { Gives plain_value result (applied_of function (plain_values arguments.now)) }
{
    match function {
        Function::Union => union_with(alloc, arguments),
        Function::Intersection => intersection_with(alloc, arguments),
        Function::Difference => difference_with(alloc, arguments),
        Function::UnionOfAll => union_of_all(alloc, arguments),
        Function::IntersectionOfAll => intersection_of_all(alloc, arguments),
        Function::Member => membership(arguments),
        Function::Card => cardinality(arguments),
        Function::Empty => emptiness(arguments),
        Function::SetOfSequence => set_of_sequence(alloc, arguments),
        Function::SequenceOfSet => sequence_of_set(alloc, arguments),
        Function::Length => length(arguments),
        Function::Head => head(alloc, arguments),
        Function::Tail => tail(alloc, arguments),
        Function::Null => is_null(arguments),
        Function::Element => is_element(arguments),
        Function::Concat => concatenation(alloc, arguments),
    }
}
