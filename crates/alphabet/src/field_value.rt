//! The values that the fields of channels range over.

ghost use Rattle.std.specs.Prelude.{◌≡◌, IfOk, OnOk, IsTrue, map};
ghost use Rattle.std.specs.List.{list_all};
ghost use Rattle.alphabet.specs.Channels.{is_in_range};
ghost use Rattle.alphabet.specs.Stored.{value_of, field_of};

use std::alloc::{AllocError, Allocator};

/// A value of a field.
#[derive(Debug, Drop, PartialEq, Eq)]
pub enum Value<A: Allocator> {
    /// A number, written in decimal.
    Number(i64),
    /// A constant, by the bytes of its name.
    Name(Vec<u8, A>),
}

/// The values of a field in order: numbers by size, then constants by the bytes of their names, none twice.
pub type Field<A> = Vec<Value<A>, A>;

impl<A: Allocator + Copy> Value<A> {
    /// A copy in memory of `alloc`. Costs the name's length.
    pub fn try_clone(&self, alloc: A) -> Result<Value<A>, AllocError>
        ensures same { IfOk result (λ copy. value_of copy ≡ value_of self.now) }
        ensures ranged { IsTrue (is_in_range (value_of self.now)) }
    {
        match self {
            Value::Number(number) => Ok(Value::Number(*number)),
            Value::Name(name) => Ok(Value::Name(Vec::from_slice(alloc, name)?)),
        }
    }
}

/// A copy of a field in memory of `alloc`.
fn clone_field<A: Allocator + Copy>(field: &Field<A>, alloc: A) -> Result<Field<A>, AllocError>
    ensures same { IfOk result (λ copy. field_of copy ≡ field_of field.now) }
    ensures ranged { OnOk result (IsTrue (list_all is_in_range (field_of field.now))) }
{
    let mut copy = Vec::new(alloc);
    for value in field {
        copy.push(value.try_clone(alloc)?)?;
    }
    Ok(copy)
}

/// A copy of a channel's fields in memory of `alloc`.
pub fn clone_fields<A: Allocator + Copy>(
    fields: &[Field<A>],
    alloc: A,
) -> Result<Vec<Field<A>, A>, AllocError>
    ensures same { IfOk result (λ copy. map field_of copy.items ≡ map field_of fields.now) }
    ensures ranged { OnOk result (IsTrue (list_all (list_all is_in_range) (map field_of fields.now))) }
{
    let mut copy = Vec::new(alloc);
    for field in fields {
        copy.push(clone_field(field, alloc)?)?;
    }
    Ok(copy)
}
