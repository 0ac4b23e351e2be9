//! Counts of events.

ghost use Rattle.std.specs.Prelude.{◌≡◌, ◌+◌, ◌<◌, ◌≤◌, ◌^◌, cond, length, IfOk};
ghost use Rattle.alphabet.specs.declared.events.Event.{Event};
ghost use Rattle.alphabet.specs.Events.{is_event};
ghost use Rattle.shown.specs.Slots.{AreCounts, count_at, slot};

use alphabet::Event;
use std::alloc::{AllocError, Allocator};

/// The place of the event's count: tick's is the first.
fn slot(event: Event) -> usize
    ensures { result ≡ slot event }
{
    match event {
        Event::Tick => 0,
        Event::Of(number) => number as usize + 1,
    }
}

/// Counts of nothing, for tick and so many events.
pub(crate) fn zeros<A: Allocator>(alloc: A, events: usize) -> Result<Vec<u64, A>, AllocError>
    requires { events ≤ 256 }
    ensures { IfOk result (λ counts. AreCounts events (λ _. 0) counts.items) }
{
    let mut counts = Vec::new(alloc);
    counts.resize(events + 1, 0)?;
    Ok(counts)
}

/// The event's count; 0 for one that isn't counted.
pub(crate) fn count_of(counts: &[u64], event: Event) -> u64
    ensures { result ≡ count_at counts.now event }
{
    match counts.get(slot(event)) {
        Some(count) => *count,
        None => 0,
    }
}

/// Counts the event once more, if it is counted at all.
pub(crate) fn count_event(counts: &mut [u64], event: Event)
    requires { slot event < length counts.old → count_at counts.old event < 2 ^ 62 }
    ensures length { length counts.new ≡ length counts.old }
    ensures each { (x : Event) → slot x < length counts.old → count_at counts.new x ≡ count_at counts.old x + cond (is_event event x) 1 0 }
{
    let place = slot(event);
    if place < counts.len() {
        counts[place] += 1;
    }
}
