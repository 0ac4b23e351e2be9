//! How many values stand in one another.
ghost use Rattle.std.specs.Prelude.{◌≡◌};
ghost use Rattle.cspm_values.specs.Values.{row_of};
ghost use Rattle.cspm_values.specs.Limits.{is_within as is_within_of, are_within as are_within_of, sized as sized_of};
ghost use Rattle.cspm_values.specs.View.{Gives, value as plain_value, values as plain_values};

use crate::stop::{Limit, Stop, beyond};
use crate::value::{Value, split};
use std::alloc::Allocator;

/// How many values stand in one another at most.
pub const HEIGHT_LIMIT: u32 = 250;

/// Whether at most so many values stand in one another, this one included.
#[cycle(height)]
#[tactic(auto, unfolding(crate::specs::Limits::is_within))]
pub fn is_within<A: Allocator>(levels: u32, value: &Value<A>) -> bool
    ensures { result ≡ is_within_of levels (plain_value value.now) }
{
    if levels == 0 {
        return false;
    }
    let (_, parts) = split(value);
    are_within(levels - 1, parts)
}

#[cycle(height)]
fn are_within<A: Allocator>(levels: u32, values: &[Value<A>]) -> bool
    ensures { result ≡ are_within_of levels (row_of (plain_values values.now)) }
{
    for value in values {
        if !is_within(levels, value) {
            return false;
        }
    }
    true
}

/// The value, if at most 250 values stand in one another.
#[tactic(auto, unfolding(crate::specs::Limits::sized))]
pub fn sized<A: Allocator>(value: Value<A>) -> Result<Value<A>, Stop>
    ensures { Gives plain_value result (sized_of (plain_value value)) }
{
    if is_within(HEIGHT_LIMIT, &value) {
        Ok(value)
    } else {
        Err(beyond(Limit::Height))
    }
}
