//! Calls: definitions with the values of their parameters.
ghost use Rattle.std.specs.Prelude.{◌≡◌, IfOk};
ghost use Rattle.std.specs.List.{flat_map, fold};
ghost use Rattle.values.specs.View.{value as value_of};
ghost use Rattle.event_phrases.specs.View.{listed};
ghost use Rattle.denotation.specs.Bodies.{same_key};
ghost use Rattle.denotation.specs.CallLaws.{key_writes, same_laws, same_partial, same_writes, value_writes};
ghost use Rattle.denotation.specs.View.{key};

use std::alloc::{AllocError, Allocator};
use std::hash::{Hash, Hasher};
use values::Value;

/// A definition, and the values of its parameters.
#[derive(Drop)]
pub(crate) struct Call<A: Allocator> {
    /// The definition's name.
    pub(crate) name: Vec<u8, A>,
    /// A value for each of its parameters.
    pub(crate) arguments: Vec<Value<A>, A>,
}

impl<A: Allocator> PartialEq for Call<A> {
    ghost eq = { λ a b. same_key (key a) (key b) };

    ghost laws = { same_partial key };

    fn eq(&self, other: &Call<A>) -> bool {
        self.name == other.name && self.arguments == other.arguments
    }
}

impl<A: Allocator> Eq for Call<A> {
    ghost laws = { same_laws key };
}

impl<A: Allocator> Hash for Call<A> {
    ghost hash_input = { λ c. key_writes (key c) };

    ghost respects_eq = { same_writes key };

    fn hash<H: Hasher>(&self, state: &mut H) {
        state.write(&self.name);
        feed_values(&self.arguments, state);
    }
}

impl<A: Allocator + Copy> Call<A> {
    /// A copy in memory of `alloc`.
    pub(crate) fn try_clone(&self, alloc: A) -> Result<Call<A>, AllocError>
        ensures { IfOk result (λ copy. key copy ≡ key self.now) }
    {
        let mut arguments = Vec::with_capacity(alloc, self.arguments.len())?;
        for value in &self.arguments {
            arguments.push(value.clone()?)?;
        }
        Ok(Call {
            name: Vec::from_slice(alloc, &self.name)?,
            arguments,
        })
    }
}

/// Feeds a value to a hasher.
fn feed_value<A: Allocator, H: Hasher>(value: &Value<A>, state: &mut H)
    ensures { state.new ≡ fold H.write state.old (value_writes (value_of value.now)) }
{
    match value {
        Value::Number(number) => state.write_i64(*number),
        Value::Constant(name) => state.write(name),
    }
}

/// Feeds values to a hasher, one after another.
fn feed_values<A: Allocator, H: Hasher>(values: &[Value<A>], state: &mut H)
    ensures { state.new ≡ fold H.write state.old (flat_map value_writes (listed values.now)) }
{
    for value in values {
        feed_value(value, state);
    }
}
