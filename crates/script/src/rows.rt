//! The events of an alphabet, by their channels and values.
ghost use Rattle.std.specs.Prelude.{◌≡◌, ◌≤◌, Some, IfOk, length, map};
ghost use Rattle.alphabet.specs.Channels.{IsEvent, Parts, events as events_of};
ghost use Rattle.alphabet.specs.EventParts.{parts_of};
ghost use Rattle.event_phrases.specs.View.{listed, row};

use crate::fields::copy_of;
use alphabet::{Alphabet, Event};
use event_phrases::Row;
use std::alloc::{AllocError, Allocator};
use values::Value;

/// The values of the event's fields.
#[tactic(auto, using(crate::proofs::Copies::first_none, crate::proofs::Copies::first_more, crate::proofs::Copies::first_less))]
fn values_of<A: Allocator + Copy>(
    alloc: A,
    alphabet: &Alphabet<A>,
    event: Event,
) -> Result<Vec<Value<A>, A>, AllocError>
    requires { IsEvent alphabet.now event }
    ensures { IfOk result (λ v. (p : Parts) → parts_of alphabet.now event ≡ Some p → listed v.items ≡ p.values) }
{
    let mut values = Vec::new(alloc);
    while let Some(value) = alphabet.value(event, values.len()) {
        values.push(copy_of(alloc, value)?)?;
    }
    Ok(values)
}

/// The name of the event's channel.
fn channel_of<A: Allocator>(alphabet: &Alphabet<A>, event: Event) -> &[u8]
    requires { IsEvent alphabet.now event }
    ensures { (p : Parts) → parts_of alphabet.now event ≡ Some p → result.now ≡ p.channel }
{
    match alphabet.channel_of(event) {
        Some((channel, _)) => match alphabet.channel(channel) {
            Some((name, _)) => name,
            None => b"",
        },
        None => b"",
    }
}

/// The event by its channel and values.
fn row_of<A: Allocator + Copy>(
    alloc: A,
    alphabet: &Alphabet<A>,
    event: Event,
) -> Result<Row<A>, AllocError>
    requires { IsEvent alphabet.now event }
    ensures { IfOk result (λ r. (p : Parts) → parts_of alphabet.now event ≡ Some p → row r ≡ p) }
{
    Ok(Row {
        channel: Vec::from_slice(alloc, channel_of(alphabet, event))?,
        values: values_of(alloc, alphabet, event)?,
    })
}

/// The events of the alphabet, each at its number. Costs a copy of each event's values.
#[tactic(auto, using(crate::proofs::Copies::rows_more, crate::proofs::Copies::rows_all, crate::proofs::Copies::rows_few))]
pub(crate) fn rows_of<A: Allocator + Copy>(
    alloc: A,
    alphabet: &Alphabet<A>,
) -> Result<Vec<Row<A>, A>, AllocError>
    ensures rows { IfOk result (λ v. map row v.items ≡ events_of alphabet.now) }
    ensures few { IfOk result (λ v. length v.items ≤ 256) }
{
    let count = alphabet.len();
    let mut rows = Vec::with_capacity(alloc, count)?;
    for number in 0..count {
        rows.push(row_of(alloc, alphabet, Event::Of(number as u8))?)?;
    }
    Ok(rows)
}
