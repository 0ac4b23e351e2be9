//! Events by their channels and values.
ghost use Rattle.std.specs.Prelude.{◌≡◌, ◌++◌, IfOk};
ghost use Rattle.std.specs.Cmp.Lexicographic.{pointwise};
ghost use Rattle.values.specs.Values.{is_same};
ghost use Rattle.values.specs.View.{value};
ghost use Rattle.event_phrases.specs.Events.{begins as begins_with, begins_so as begins_so_with, is_event_of};
ghost use Rattle.event_phrases.specs.View.{beginning, listed, row};

use std::alloc::{AllocError, Allocator};
use values::Value;

/// A channel and values of its first fields: an event, if there is a value for each field.
#[derive(Drop)]
pub struct Row<A: Allocator> {
    /// The channel's name.
    pub channel: Vec<u8, A>,
    /// The values of its fields, from left to right.
    pub values: Vec<Value<A>, A>,
}

/// The values, and after them copies of these.
pub(crate) fn extended<A: Allocator + Clone>(
    values: Vec<Value<A>, A>,
    more: &[Value<A>],
) -> Result<Vec<Value<A>, A>, AllocError>
    ensures { IfOk result (λ v. listed v.items ≡ listed values.items ++ listed more.now) }
{
    let mut values = values;
    for value in more {
        values.push(value.clone()?)?;
    }
    Ok(values)
}

/// Whether these are one value.
#[tactic(auto, using(crate::proofs::Rows::same_value))]
pub(crate) fn is_equal<A: Allocator>(first: &Value<A>, second: &Value<A>) -> bool
    ensures { result ≡ is_same (value first.now) (value second.now) }
{
    first == second
}

/// Whether the values begin with the first ones.
#[tactic(auto, unfolding(crate::specs::Events::begins))]
fn begins<A: Allocator>(first: &[Value<A>], values: &[Value<A>]) -> bool
    ensures { result ≡ begins_with (listed first.now) (listed values.now) }
{
    match first {
        [] => true,
        [u, us @ ..] => match values {
            [] => false,
            [v, vs @ ..] => is_equal(u, v) && begins(us, vs),
        },
    }
}

/// Whether an event begins so.
#[tactic(auto, unfolding(crate::specs::Events::begins_so))]
pub(crate) fn begins_so<A: Allocator>(first: &Row<A>, event: &Row<A>) -> bool
    ensures { result ≡ begins_so_with (beginning first.now) (row event.now) }
{
    first.channel == event.channel && begins(&first.values, &event.values)
}

/// Whether both lists have the same values.
fn are_same<A: Allocator>(first: &[Value<A>], values: &[Value<A>]) -> bool
    ensures { result ≡ pointwise is_same (listed first.now) (listed values.now) }
{
    match first {
        [] => values.is_empty(),
        [u, us @ ..] => match values {
            [] => false,
            [v, vs @ ..] => is_equal(u, v) && are_same(us, vs),
        },
    }
}

/// Whether this is the event.
pub(crate) fn is_row<A: Allocator>(wanted: &Row<A>, event: &Row<A>) -> bool
    ensures { result ≡ is_event_of (beginning wanted.now) (row event.now) }
{
    wanted.channel == event.channel && are_same(&wanted.values, &event.values)
}
