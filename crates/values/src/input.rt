//! Inputs before a phrase, whose names mean values and hide other uses.
ghost use Rattle.std.specs.Prelude.{◌≡◌, map};
ghost use Rattle.std.specs.Option.{option_map};
ghost use Rattle.values.specs.View.{Gives, value as value_of, worth as worth_of};
ghost use Rattle.values.specs.Tables.{input, last_of, behind, names_value, table};

use crate::known::Known;
use crate::value::Value;
use crate::worth::Worth;
use std::alloc::Allocator;
use tokens::{Position, ReadError};

/// An input: its name, and the value that the name means after it.
#[derive(Drop)]
pub struct Input<A: Allocator> {
    pub name: Vec<u8, A>,
    pub value: Value<A>,
}

/// The value of the last input with this name.
#[tactic(auto, unfolding(crate::specs::Tables::last_of))]
fn last_value<'a, A: Allocator>(inputs: &'a [Input<A>], name: &[u8]) -> Option<&'a Value<A>>
    ensures { option_map (λ v. value_of v.now) result ≡ last_of (map input inputs.now) name.now }
{
    let mut left = inputs.len();
    while left > 0 {
        left -= 1;
        let input = &inputs[left];
        if name == input.name.as_slice() {
            return Some(&input.value);
        }
    }
    None
}

/// A copy of what the name means after the inputs; `UnknownName` where neither they nor the table have it.
#[tactic(auto, using(crate::proofs::Inputs::by_input, crate::proofs::Inputs::by_table))]
pub(crate) fn worth_behind<A: Allocator + Clone>(
    known: &Known<A>,
    inputs: &[Input<A>],
    name: &[u8],
    line: Position,
) -> Result<Worth<A>, ReadError>
    ensures { Gives worth_of result (behind (table known.now) (map input inputs.now) name.now) }
{
    match last_value(inputs, name) {
        Some(value) => Ok(Worth::One(value.clone()?)),
        None => known.worth(name, line),
    }
}

/// Whether the name means one value or a truth after the inputs. Such a name hides a channel, a process or a set of events
/// of its name. Costs a turn for each input and a look-up.
#[tactic(auto, using(crate::proofs::Inputs::by_input, crate::proofs::Inputs::by_table))]
pub fn is_value<A: Allocator>(known: &Known<A>, inputs: &[Input<A>], name: &[u8]) -> bool
    ensures { result ≡ names_value (behind (table known.now) (map input inputs.now) name.now) }
{
    match last_value(inputs, name) {
        Some(_) => true,
        None => known.is_one(name),
    }
}
