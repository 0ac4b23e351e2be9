//! The printed declarations.
ghost use Rattle.std.specs.Prelude.{◌≡◌, ◌++◌, OnOk, map, codes};
ghost use Rattle.std.specs.List.{flat_map};
ghost use Rattle.alphabet.specs.Channels.{value_text};
ghost use Rattle.alphabet.specs.Stored.{value_of, field_of, channel_of};
ghost use Rattle.printing.specs.Names.{primed, datatype_name};
ghost use Rattle.printing.specs.Printed.{joined, gap, field_text, fields_text, channel_line, datatype_line};
ghost use Rattle.printing.specs.View.{bytes};

use crate::names::{Names, channel_at, put_datatype_name};
use alphabet::{Alphabet, Field, Value};
use itoa::Buffer;
use std::alloc::{AllocError, Allocator};

/// Appends a value.
fn put_value<A: Allocator, B: Allocator>(
    text: &mut Vec<u8, B>,
    value: &Value<A>,
) -> Result<(), AllocError>
    ensures { OnOk result (text.new.items ≡ text.old.items ++ value_text (value_of value.now)) }
{
    match value {
        Value::Number(number) => {
            let mut buffer = Buffer::new();
            text.extend_from_slice(buffer.format(*number).as_bytes())
        }
        Value::Name(name) => text.extend_from_slice(name),
    }
}

/// Appends a blank where the first value is negative.
fn put_gap<A: Allocator, B: Allocator>(
    text: &mut Vec<u8, B>,
    values: &[Value<A>],
) -> Result<(), AllocError>
    ensures { OnOk result (text.new.items ≡ text.old.items ++ gap (map value_of values.now)) }
{
    match values {
        [Value::Number(number), ..] if *number < 0 => text.extend_from_slice(b" "),
        _ => Ok(()),
    }
}

/// Appends the values, each after a comma.
fn put_other_values<A: Allocator, B: Allocator>(
    text: &mut Vec<u8, B>,
    values: &[Value<A>],
) -> Result<(), AllocError>
    ensures { OnOk result (text.new.items ≡ text.old.items ++ flat_map (λ v. codes ", " ++ value_text (value_of v)) values.now) }
{
    for value in values {
        text.extend_from_slice(b", ")?;
        put_value(text, value)?;
    }
    Ok(())
}

/// Appends the values with commas between them.
fn put_values<A: Allocator, B: Allocator>(
    text: &mut Vec<u8, B>,
    values: &[Value<A>],
) -> Result<(), AllocError>
    ensures { OnOk result (text.new.items ≡ text.old.items ++ joined (codes ", ") (map value_text (map value_of values.now))) }
{
    match values {
        [] => Ok(()),
        [first, others @ ..] => {
            put_value(text, first)?;
            put_other_values(text, others)
        }
    }
}

/// Appends the values of a field as a set.
fn put_field<A: Allocator, B: Allocator>(
    text: &mut Vec<u8, B>,
    field: &[Value<A>],
) -> Result<(), AllocError>
    ensures { OnOk result (text.new.items ≡ text.old.items ++ field_text (map value_of field.now)) }
{
    text.extend_from_slice(b"{")?;
    put_gap(text, field)?;
    put_values(text, field)?;
    text.extend_from_slice(b"}")
}

/// Appends the fields, each after a dot.
fn put_other_fields<A: Allocator, B: Allocator>(
    text: &mut Vec<u8, B>,
    fields: &[Field<A>],
) -> Result<(), AllocError>
    ensures { OnOk result (text.new.items ≡ text.old.items ++ flat_map (λ f. codes "." ++ field_text (field_of f)) fields.now) }
{
    for field in fields {
        text.extend_from_slice(b".")?;
        put_field(text, field)?;
    }
    Ok(())
}

/// Appends the fields of a channel.
fn put_fields<A: Allocator, B: Allocator>(
    text: &mut Vec<u8, B>,
    fields: &[Field<A>],
) -> Result<(), AllocError>
    ensures { OnOk result (text.new.items ≡ text.old.items ++ fields_text (map field_of fields.now)) }
{
    match fields {
        [] => Ok(()),
        [first, others @ ..] => {
            text.extend_from_slice(b" : ")?;
            put_field(text, first)?;
            put_other_fields(text, others)
        }
    }
}

/// Appends the declaration of a channel.
fn put_channel<A: Allocator, B: Allocator>(
    text: &mut Vec<u8, B>,
    name: &[u8],
    fields: &[Field<A>],
) -> Result<(), AllocError>
    ensures { OnOk result (text.new.items ≡ text.old.items ++ channel_line (channel_of name.now fields.now)) }
{
    text.extend_from_slice(b"channel ")?;
    text.extend_from_slice(name)?;
    put_fields(text, fields)?;
    text.extend_from_slice(b"\n")
}

/// Appends the declarations of all channels.
pub(crate) fn put_channels<A: Allocator, B: Allocator>(
    text: &mut Vec<u8, B>,
    alphabet: &Alphabet<A>,
) -> Result<(), AllocError>
    ensures { OnOk result (text.new.items ≡ text.old.items ++ flat_map channel_line alphabet.now) }
{
    for number in 0..alphabet.channels() {
        let channel = channel_at(alphabet, number);
        put_channel(text, channel.0, channel.1)?;
    }
    Ok(())
}

/// Appends what stands before the constants of the datatype.
fn put_head<B: Allocator>(text: &mut Vec<u8, B>, primes: usize) -> Result<(), AllocError>
    ensures { OnOk result (text.new.items ≡ text.old.items ++ codes "datatype " ++ primed datatype_name primes ++ codes " = ") }
{
    text.extend_from_slice(b"datatype ")?;
    put_datatype_name(text, primes)?;
    text.extend_from_slice(b" = ")
}

/// Appends a constant after others.
fn put_constant<B: Allocator>(text: &mut Vec<u8, B>, name: &[u8]) -> Result<(), AllocError>
    ensures { OnOk result (text.new.items ≡ text.old.items ++ codes " | " ++ name.now) }
{
    text.extend_from_slice(b" | ")?;
    text.extend_from_slice(name)
}

/// Appends the declaration of the datatype with these constants, if there are any.
pub(crate) fn put_datatype<B: Allocator>(
    text: &mut Vec<u8, B>,
    constants: &Names<B>,
    primes: usize,
) -> Result<(), AllocError>
    ensures { OnOk result (text.new.items ≡ text.old.items ++ datatype_line primes (bytes constants.now.keys)) }
{
    let mut names = constants.iter();
    let Some(first) = names.next() else {
        return Ok(());
    };
    put_head(text, primes)?;
    text.extend_from_slice(first)?;
    for name in names {
        put_constant(text, name)?;
    }
    text.extend_from_slice(b"\n")
}
