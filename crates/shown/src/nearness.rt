//! How near an event is to another, by their names.

ghost use Rattle.std.specs.Prelude.{◌≡◌, ◌++◌, ◌∷◌, MatchOption, OnOk, IfOk};
ghost use Rattle.std.specs.List.{list_any};
ghost use Rattle.alphabet.specs.EventSets.{members};
ghost use Rattle.alphabet.specs.Channels.{name_of};
ghost use Rattle.shown.specs.Nearness.{channel_part, has_part, nearest_first, nearness, parts, shares_value, so_near};
ghost use Rattle.shown.specs.Parting.{LacksDot};

use crate::names::put_plain;
use alphabet::{Alphabet, Event, EventSet};
use memchr::memchr;
use std::alloc::{AllocError, Allocator};

/// What stands before the first dot, and what stands after it.
fn cut(text: &[u8]) -> Option<(&[u8], &[u8])>
    ensures { MatchOption result (LacksDot text.now)
        (λ parts. LacksDot parts.0.now × (text.now ≡ parts.0.now ++ 46 ∷ parts.1.now)) }
{
    let place = memchr(b'.', text)?;
    Some((&text[..place], &text[place + 1..]))
}

/// Whether the part is one of those of the text.
fn has(text: &[u8], part: &[u8]) -> bool
    ensures { result ≡ has_part (parts text.now) part.now }
{
    let mut rest = text;
    while let Some((first, others)) = cut(rest) {
        if part == first {
            return true;
        }
        rest = others;
    }
    part == rest
}

/// Whether one of the parts of the text is one of those of the other.
fn have_common(text: &[u8], other: &[u8]) -> bool
    ensures { result ≡ list_any (has_part (parts other.now)) (parts text.now) }
{
    let mut rest = text;
    while let Some((first, others)) = cut(rest) {
        if has(other, first) {
            return true;
        }
        rest = others;
    }
    has(other, rest)
}

/// What stands before the first dot, or all.
fn channel_of(name: &[u8]) -> &[u8]
    ensures { result.now ≡ channel_part name.now }
{
    match cut(name) {
        Some((channel, _)) => channel,
        None => name,
    }
}

/// Whether the names have a value in common.
fn share_value(name: &[u8], other: &[u8]) -> bool
    ensures { result ≡ shares_value name.now other.now }
{
    let Some((_, values)) = cut(name) else {
        return false;
    };
    let Some((_, others)) = cut(other) else {
        return false;
    };
    have_common(values, others)
}

/// 0 where both names are of one channel, 1 where they share a value, else 2.
fn nearness_of(name: &[u8], other: &[u8]) -> u8
    ensures { result ≡ nearness name.now other.now }
{
    if channel_of(name) == channel_of(other) {
        0
    } else if share_value(name, other) {
        1
    } else {
        2
    }
}

/// How near the event is to one with this name, by its name in the buffer.
fn nearness_in<A: Allocator, B: Allocator>(
    alphabet: &Alphabet<A>,
    name: &[u8],
    event: Event,
    buffer: &mut Vec<u8, B>,
) -> Result<u8, AllocError>
    ensures { IfOk result (λ n. n ≡ nearness name.now (name_of alphabet.now event)) }
{
    buffer.clear();
    put_plain(buffer, alphabet, event)?;
    Ok(nearness_of(name, buffer))
}

/// Appends the events of the set that are so near to one with this name.
fn add_near<A: Allocator, B: Allocator>(
    list: &mut Vec<Event, B>,
    alphabet: &Alphabet<A>,
    name: &[u8],
    near: u8,
    set: EventSet,
    buffer: &mut Vec<u8, B>,
) -> Result<(), AllocError>
    ensures { OnOk result (list.new.items ≡ list.old.items ++ so_near alphabet.now name.now near (members set)) }
{
    for event in set.iter() {
        if nearness_in(alphabet, name, event, buffer)? == near {
            list.push(event)?;
        }
    }
    Ok(())
}

/// Appends the events of the set, those that are nearest to one with this name first.
pub(crate) fn add_nearest<A: Allocator, B: Allocator>(
    list: &mut Vec<Event, B>,
    alphabet: &Alphabet<A>,
    name: &[u8],
    set: EventSet,
    buffer: &mut Vec<u8, B>,
) -> Result<(), AllocError>
    ensures { OnOk result (list.new.items ≡ list.old.items ++ nearest_first alphabet.now name.now (members set)) }
{
    add_near(list, alphabet, name, 0, set, buffer)?;
    add_near(list, alphabet, name, 1, set, buffer)?;
    add_near(list, alphabet, name, 2, set, buffer)
}
