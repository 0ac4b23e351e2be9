//! The events that the part of an operator is asked for.

ghost use Rattle.std.specs.Prelude.{◌≡◌, ◌<◌, ℕ, IfOk, true};
ghost use Rattle.alphabet.specs.EventSets.{has};
ghost use Rattle.term.specs.Traces.{In, partners};
ghost use Rattle.targets.specs.Targets.{is_empty, sources};

use alphabet::{Event, EventSet};
use std::alloc::{AllocError, Allocator};

/// The events that a renaming takes to this one.
pub(crate) fn sources_of<A: Allocator>(
    pairs: &[(u8, u8)],
    event: u8,
    alloc: A,
) -> Result<Vec<u8, A>, AllocError>
    ensures { IfOk result (λ events. events.items ≡ sources pairs.now event) }
{
    let mut events = Vec::new(alloc);
    for pair in pairs {
        if pair.1 == event {
            events.push(pair.0)?;
        }
    }
    if is_alone(pairs, event) {
        events.push(event)?;
    }
    Ok(events)
}

/// Whether no pair begins with this event.
fn is_alone(pairs: &[(u8, u8)], event: u8) -> bool
    ensures { result ≡ is_empty (partners pairs.now event) }
{
    for pair in pairs {
        if pair.0 == event {
            return false;
        }
    }
    true
}

/// The events of the set, by their numbers.
pub(crate) fn events_in<A: Allocator>(set: EventSet, alloc: A) -> Result<Vec<u8, A>, AllocError>
    ensures only { IfOk result (λ events. (a : ℕ) → In a events.items → has set a ≡ true) }
    ensures all { IfOk result (λ events. (a : ℕ) → a < 256 → has set a ≡ true → In a events.items) }
{
    let mut events = Vec::new(alloc);
    for number in 0..256u16 {
        if set.contains(Event::Of(number as u8)) {
            events.push(number as u8)?;
        }
    }
    Ok(events)
}
