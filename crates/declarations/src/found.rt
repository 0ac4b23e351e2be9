//! What definitions are found to be.

use crate::kinds::{Kind, Wanted};
use crate::needs::{Names, needs_of_name, needs_of_phrase};
use crate::phrase_kinds::{evaluated_kind, without_conditions};
use crate::sight::{Found, Sight};
use declared_names::{Answer, Entries, Meaning, answer_of};
use std::alloc::{AllocError, Allocator};
use syntax::Tree;
use tokens::ReadError;
use values::{Input, Known};

/// The name that is all of the phrase, if it is one.
fn bare_name<A: Allocator>(phrase: &Tree<A>) -> Option<&[u8]> {
    match answer_of(phrase) {
        Answer::SameAs(name) => Some(name),
        Answer::Known(_) => None,
    }
}

/// The name that is all of the body of the definition with this name, as its conditions decide; none where one is at fault.
fn next_name<'a, A: Allocator + Copy>(
    sight: &Sight<'_, 'a, A>,
    name: &[u8],
) -> Result<Option<&'a [u8]>, AllocError> {
    let Some(entry) = sight.entries.get(name) else {
        return Ok(None);
    };
    let Meaning::Definition(body) = &entry.meaning else {
        return Ok(None);
    };
    match without_conditions(sight, *body) {
        Ok(phrase) => Ok(bare_name(phrase)),
        Err(ReadError::Fault(_)) => Ok(None),
        Err(ReadError::Memory) => Err(AllocError),
    }
}

/// Whether the name leads to others without end. Names that do are those of processes.
fn leads_in_a_circle<'a, A: Allocator + Copy>(
    sight: &Sight<'_, 'a, A>,
    name: &[u8],
) -> Result<bool, AllocError> {
    if !sight.entries.is_process(name) {
        return Ok(false);
    }
    let mut followed = name;
    for _ in 0..sight.entries.len() {
        match next_name(sight, followed)? {
            Some(next) => followed = next,
            None => return Ok(false),
        }
    }
    Ok(true)
}

/// What the definition with this name is, which was looked into or leads in a circle.
fn kind_named<'a, A: Allocator + Copy>(
    sight: &Sight<'_, 'a, A>,
    name: &[u8],
    found: Found,
) -> Result<Option<Kind>, AllocError> {
    match found {
        Found::Is(kind) => Ok(Some(kind)),
        Found::Nothing => {
            let circle = leads_in_a_circle(sight, name)?;
            Ok(if circle { Some(Kind::Process) } else { None })
        }
        Found::Fault(_) => Ok(None),
    }
}

/// What was found of the definition whose name is all of this phrase.
fn kind_behind<'a, A: Allocator + Copy>(
    sight: &Sight<'_, 'a, A>,
    phrase: &Tree<A>,
) -> Result<Option<Kind>, AllocError> {
    let Some(name) = bare_name(phrase) else {
        return Ok(None);
    };
    let Some(place) = sight.entries.place(name) else {
        return Ok(None);
    };
    match sight.found.get(place) {
        Some(found) => kind_named(sight, name, *found),
        None => Ok(None),
    }
}

/// What the body of a definition is.
fn kind_of_body<'a, A: Allocator + Copy>(
    sight: &Sight<'_, 'a, A>,
    body: &Tree<A>,
) -> Result<Kind, ReadError> {
    let phrase = without_conditions(sight, body)?;
    if let Some(kind) = kind_behind(sight, phrase)? {
        return Ok(kind);
    }
    evaluated_kind(sight, phrase, Wanted::Anything)
}

/// What is found of the definition at this place.
fn found_at<'a, A: Allocator + Copy>(sight: &Sight<'_, 'a, A>, place: usize) -> Found {
    match sight.entries.at(place) {
        Some(entry) => match &entry.meaning {
            Meaning::Definition(body) => match kind_of_body(sight, body) {
                Ok(kind) => Found::Is(kind),
                Err(error) => Found::Fault(error),
            },
            _ => Found::Nothing,
        },
        None => Found::Nothing,
    }
}

/// Looks into the definitions at these places, one after the other.
fn look_into<'a, A: Allocator + Copy>(sight: &mut Sight<'_, 'a, A>, places: &[usize]) {
    for place in places {
        let found = found_at(sight, *place);
        if let Some(cell) = sight.found.get_mut(*place) {
            *cell = found;
        }
    }
}

/// What can be seen without inputs, with what is found of the definitions at these places.
fn seen_with<'s, 'a, A: Allocator + Copy>(
    names: &Names<'s, 'a, A>,
    places: &[usize],
    has_events: bool,
) -> Result<Sight<'s, 'a, A>, AllocError> {
    let found = vec![in names.alloc; Found::Nothing; names.entries.len()]?;
    let mut sight = Sight {
        alloc: names.alloc,
        entries: names.entries,
        known: names.known,
        inputs: &[],
        has_events,
        found,
    };
    look_into(&mut sight, places);
    Ok(sight)
}

/// What can be seen after these inputs, with what is found of the definitions that the phrase needs.
pub(crate) fn seen_behind<'s, 'a, A: Allocator + Copy>(
    alloc: A,
    entries: &'s Entries<'a, A>,
    known: &'s Known<A>,
    inputs: &'s [Input<A>],
    phrase: &Tree<A>,
    has_events: bool,
) -> Result<Sight<'s, 'a, A>, AllocError> {
    let names = Names {
        alloc,
        entries,
        known,
        inputs,
    };
    let places = needs_of_phrase(&names, phrase)?;
    let mut sight = seen_with(&names, &places, has_events)?;
    sight.inputs = inputs;
    Ok(sight)
}

/// What can be seen with what is found of the definition with this name.
pub(crate) fn seen_of<'s, 'a, A: Allocator + Copy>(
    alloc: A,
    entries: &'s Entries<'a, A>,
    known: &'s Known<A>,
    name: &[u8],
) -> Result<Sight<'s, 'a, A>, AllocError> {
    let names = Names {
        alloc,
        entries,
        known,
        inputs: &[],
    };
    let places = needs_of_name(&names, name)?;
    seen_with(&names, &places, true)
}
