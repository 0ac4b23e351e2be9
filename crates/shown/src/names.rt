//! The names of events.

ghost use Rattle.std.specs.Prelude.{◌≡◌, ◌++◌, OnOk, map, decimal};
ghost use Rattle.std.specs.List.{flat_map};
ghost use Rattle.alphabet.specs.EventSets.{members};
ghost use Rattle.alphabet.specs.Channels.{name_of};
ghost use Rattle.shown.specs.Names.{between, joined, name_text, names_text, set_text};

use crate::options::Format;
use alphabet::{Alphabet, Event, EventSet};
use itoa::Buffer;
use std::alloc::{AllocError, Allocator};

/// Appends a number in decimal.
pub(crate) fn put_number<B: Allocator>(text: &mut Vec<u8, B>, number: u64) -> Result<(), AllocError>
    ensures { OnOk result (text.new.items ≡ text.old.items ++ decimal number) }
{
    let mut buffer = Buffer::new();
    text.extend_from_slice(buffer.format(number).as_bytes())
}

/// Appends the mark, and a number in decimal after it.
pub(crate) fn put_marked<B: Allocator>(
    text: &mut Vec<u8, B>,
    mark: &[u8],
    number: u64,
) -> Result<(), AllocError>
    ensures { OnOk result (text.new.items ≡ text.old.items ++ mark.now ++ decimal number) }
{
    text.extend_from_slice(mark)?;
    put_number(text, number)
}

/// Appends the event's name. What is no event of the alphabet has none.
pub(crate) fn put_plain<A: Allocator, B: Allocator>(
    text: &mut Vec<u8, B>,
    alphabet: &Alphabet<A>,
    event: Event,
) -> Result<(), AllocError>
    ensures { OnOk result (text.new.items ≡ text.old.items ++ name_of alphabet.now event) }
{
    if let Event::Of(number) = event
        && number as usize >= alphabet.len()
    {
        return Ok(());
    }
    alphabet.name_into(event, text)
}

/// Appends the event's name, in JSON in quotes.
pub(crate) fn put_name<A: Allocator, B: Allocator>(
    text: &mut Vec<u8, B>,
    alphabet: &Alphabet<A>,
    event: Event,
    format: Format,
) -> Result<(), AllocError>
    ensures { OnOk result (text.new.items ≡ text.old.items ++ name_text format alphabet.now event) }
{
    text.extend_from_slice(format.quote())?;
    put_plain(text, alphabet, event)?;
    text.extend_from_slice(format.quote())
}

/// Appends a blank and a name for each event of the set.
pub(crate) fn put_names<A: Allocator, B: Allocator>(
    text: &mut Vec<u8, B>,
    alphabet: &Alphabet<A>,
    set: EventSet,
) -> Result<(), AllocError>
    ensures { OnOk result (text.new.items ≡ text.old.items ++ names_text alphabet.now set) }
{
    for event in set.iter() {
        text.extend_from_slice(b" ")?;
        put_plain(text, alphabet, event)?;
    }
    Ok(())
}

/// Appends the names of the events of the set, with what stands between them.
pub(crate) fn put_joined<A: Allocator, B: Allocator>(
    text: &mut Vec<u8, B>,
    alphabet: &Alphabet<A>,
    set: EventSet,
    format: Format,
) -> Result<(), AllocError>
    ensures { OnOk result (text.new.items ≡ text.old.items ++ joined (between format) (map (name_text format alphabet.now) (members set))) }
{
    let mut events = set.iter();
    let Some(first) = events.next() else {
        return Ok(());
    };
    put_name(text, alphabet, first, format)?;
    for event in events {
        text.extend_from_slice(format.between())?;
        put_name(text, alphabet, event, format)?;
    }
    Ok(())
}

/// Appends a set of events.
#[tactic(auto, unfolding(crate::specs::Names::set_text))]
pub(crate) fn put_set<A: Allocator, B: Allocator>(
    text: &mut Vec<u8, B>,
    alphabet: &Alphabet<A>,
    set: EventSet,
    format: Format,
) -> Result<(), AllocError>
    ensures { OnOk result (text.new.items ≡ text.old.items ++ set_text format alphabet.now set) }
{
    text.extend_from_slice(format.opening())?;
    put_joined(text, alphabet, set, format)?;
    text.extend_from_slice(format.closing())
}
