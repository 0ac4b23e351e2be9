//! The fields of channels, by the channels' names.
ghost use Rattle.std.specs.Prelude.{◌≡◌, ℕ, List, IfOk, map};
ghost use Rattle.std.specs.Option.{option_map};
ghost use Rattle.alphabet.specs.Stored.{value_of as field_value_of, field_of};
ghost use Rattle.values.specs.View.{value as value_of};
ghost use Rattle.event_phrases.specs.Events.{fields_named};
ghost use Rattle.event_phrases.specs.View.{listed};
ghost use Rattle.script.specs.Tables.{said};
ghost use Rattle.script.specs.Fields.{field_lists};

use crate::table::Table;
use alphabet::{Alphabet, Field, Value as FieldValue};
use event_phrases::Set;
use std::alloc::{AllocError, Allocator};
use values::Value;

/// A copy of a field's value.
pub(crate) fn copy_of<A: Allocator + Copy>(
    alloc: A,
    value: &FieldValue<A>,
) -> Result<Value<A>, AllocError>
    ensures { IfOk result (λ v. value_of v ≡ field_value_of value.now) }
{
    match value {
        FieldValue::Number(number) => Ok(Value::Number(*number)),
        FieldValue::Name(name) => Ok(Value::Constant(Vec::from_slice(alloc, name)?)),
    }
}

/// The values of a field.
#[tactic(auto, using(crate::proofs::Copies::map_more, crate::proofs::Copies::map_all))]
fn set_of<A: Allocator + Copy>(alloc: A, field: &[FieldValue<A>]) -> Result<Set<A>, AllocError>
    ensures { IfOk result (λ s. listed s.items ≡ map field_value_of field.now) }
{
    let mut set = Vec::with_capacity(alloc, field.len())?;
    for value in field {
        set.push(copy_of(alloc, value)?)?;
    }
    Ok(set)
}

/// The values of each field.
#[tactic(auto, using(crate::proofs::Copies::map_more, crate::proofs::Copies::map_all))]
fn sets_of<A: Allocator + Copy>(alloc: A, fields: &[Field<A>]) -> Result<Vec<Set<A>, A>, AllocError>
    ensures { IfOk result (λ f. field_lists f ≡ map field_of fields.now) }
{
    let mut sets = Vec::with_capacity(alloc, fields.len())?;
    for field in fields {
        sets.push(set_of(alloc, field)?)?;
    }
    Ok(sets)
}

/// The values of the fields of each channel, by its name. Costs a copy of the channels' names and fields.
pub(crate) fn fields_by_name<A: Allocator + Copy>(
    alloc: A,
    alphabet: &Alphabet<A>,
) -> Result<Table<Vec<Set<A>, A>, A>, AllocError>
    ensures { IfOk result (λ t. (name : List ℕ) → option_map field_lists (said t name) ≡ fields_named alphabet.now name) }
{
    let mut table = Table::new(alloc);
    for number in (0..alphabet.channels()).rev() {
        if let Some((name, fields)) = alphabet.channel(number) {
            table.insert(name, sets_of(alloc, fields)?)?;
        }
    }
    Ok(table)
}
