//! The names of a channel's events, one after another.

ghost use Rattle.std.specs.Prelude.{◌≡◌, ◌+◌, ◌<◌, ◌≤◌, ◌++◌, [], ◌∷◌, true, false, min, map, length, IfOk, OnOk, OnErr, ◌↔◌, IsSome, IfSome, Some, slice_get, slice_index_or};
ghost use Rattle.std.specs.List.{list_all};
ghost use Rattle.alphabet.specs.Channels.{choices, value_text, dotted, channel_events, event_text, is_in_range};
ghost use Rattle.alphabet.specs.Stored.{value_of, field_of, channel_of};
ghost use Rattle.alphabet.specs.Tables.{stored_names};
ghost use Rattle.alphabet.specs.Naming.{own_names};
ghost use Rattle.alphabet.specs.Elements.{In, Distinct};

use crate::field_value::{Field, Value};
use crate::table::{Hashing, SIGMA_LIMIT};
use indexmap::IndexSet;
use itoa::Buffer;
use std::alloc::{AllocError, Allocator};

/// How many events a channel with these fields has, or one more than the limit where it has more. Costs one product for
/// each field, however long the fields are.
pub fn event_total<A: Allocator>(fields: &[Field<A>]) -> usize
    ensures { result ≡ min (length (choices (map field_of fields.now))) 257 }
{
    let mut total: usize = 1;
    for field in fields {
        total = total.saturating_mul(field.len()).min(SIGMA_LIMIT + 1);
    }
    total
}

/// Appends the value's text.
fn push_text<A: Allocator, B: Allocator>(
    into: &mut Vec<u8, B>,
    value: &Value<A>,
) -> Result<(), AllocError>
    ensures { OnOk result (into.new.items ≡ into.old.items ++ value_text (value_of value.now)) }
{
    match value {
        Value::Number(number) => {
            let mut buffer = Buffer::new();
            into.extend_from_slice(buffer.format(*number).as_bytes())
        }
        Value::Name(name) => into.extend_from_slice(name),
    }
}

/// The name of the event with this number among the channel's `total` events.
fn event_name<A: Allocator + Copy>(
    alloc: A,
    channel: &[u8],
    fields: &[Field<A>],
    total: usize,
    number: usize,
) -> Result<Vec<u8, A>, AllocError>
    requires all { total ≡ length (choices (map field_of fields.now)) }
    requires within { number < total }
    ensures { IfOk result (λ name. name.items ≡ slice_index_or (own_names (channel_of channel.now fields.now)) number []) }
{
    let mut name = Vec::from_slice(alloc, channel)?;
    let mut stride = total;
    let mut left = number;
    for field in fields {
        stride /= field.len();
        name.push(b'.')?;
        push_text(&mut name, &field[left / stride])?;
        left %= stride;
    }
    Ok(name)
}

/// Puts the name of one event after the others.
fn add_name<A: Allocator + Copy>(
    names: &mut IndexSet<Vec<u8, A>, Hashing, A>,
    channel: &[u8],
    fields: &[Field<A>],
    total: usize,
    number: usize,
) -> Result<(), AllocError>
    requires all { total ≡ length (choices (map field_of fields.now)) }
    requires within { number < total }
    requires fresh { In (slice_index_or (own_names (channel_of channel.now fields.now)) number []) (stored_names names.old.keys) → ⊥ }
    ensures added { OnOk result (stored_names names.new.keys ≡ stored_names names.old.keys ++ slice_index_or (own_names (channel_of channel.now fields.now)) number [] ∷ []) }
    ensures unchanged { OnErr result (names.new.keys ≡ names.old.keys) }
{
    let name = event_name(*names.allocator(), channel, fields, total, number)?;
    names.insert(name)?;
    Ok(())
}

/// The value that the event with this number among the channel's `total` events has in this field.
pub fn chosen<A: Allocator>(
    fields: &[Field<A>],
    total: usize,
    number: usize,
    field: usize,
) -> Option<&Value<A>>
    requires all { total ≡ length (choices (map field_of fields.now)) }
    requires within { number < total }
    ensures found { IsSome result ↔ (field < length fields.now) }
    ensures value { IfSome result (λ v. slice_get (slice_index_or (choices (map field_of fields.now)) number []) field ≡ Some (value_of v.now)) }
{
    let mut stride = total;
    let mut left = number;
    for (place, values) in fields.iter().enumerate() {
        stride /= values.len();
        if place == field {
            return Some(&values[left / stride]);
        }
        left %= stride;
    }
    None
}

/// Puts the names of all events of a channel after the others, or leaves the table as it was.
pub fn add_names<A: Allocator + Copy>(
    names: &mut IndexSet<Vec<u8, A>, Hashing, A>,
    channel: &[u8],
    fields: &[Field<A>],
    total: usize,
) -> Result<(), AllocError>
    requires all { total ≡ length (choices (map field_of fields.now)) }
    requires fresh { Distinct (stored_names names.old.keys ++ own_names (channel_of channel.now fields.now)) }
    ensures added { OnOk result (stored_names names.new.keys ≡ stored_names names.old.keys ++ own_names (channel_of channel.now fields.now)) }
    ensures unchanged { OnErr result (stored_names names.new.keys ≡ stored_names names.old.keys) }
{
    let before = names.len();
    for number in 0..total {
        if let Err(refused) = add_name(names, channel, fields, total, number) {
            names.truncate(before);
            return Err(refused);
        }
    }
    Ok(())
}
