//! The pairs of renamings.
ghost use Rattle.std.specs.Prelude.{◌≡◌, ℕ, ◌<◌, ◌≤◌, ◌++◌, IfOk, map, filter};
ghost use Rattle.std.specs.List.{range_with_len};
ghost use Rattle.alphabet.specs.EventSets.{has};
ghost use Rattle.event_phrases.specs.Events.{is_pair_of, in_order};

use alphabet::{Event, EventSet};
use std::alloc::{AllocError, Allocator};

/// The events to which the pairs take this one.
fn images(pairs: &[(u8, u8)], event: u8) -> EventSet
    ensures { (b : ℕ) → has result b ≡ is_pair_of pairs.now event b }
{
    let mut set = EventSet::empty();
    for pair in pairs {
        if pair.0 == event {
            set = set.with(Event::Of(pair.1));
        }
    }
    set
}

/// Appends a pair of the event with each member of the set whose number is below the count.
fn put_pairs<A: Allocator>(
    event: u8,
    set: EventSet,
    count: usize,
    pairs: Vec<(u8, u8), A>,
) -> Result<Vec<(u8, u8), A>, AllocError>
    requires { count ≤ 256 }
    ensures { IfOk result (λ v. v.items ≡ pairs.items ++ map (λ b. (event, b)) (filter (has set) (range_with_len 0 count))) }
{
    let mut pairs = pairs;
    for number in 0..count {
        if set.contains(Event::Of(number as u8)) {
            pairs.push((event, number as u8))?;
        }
    }
    Ok(pairs)
}

/// The pairs by their left and then by their right event, none twice, where so many events are there. Costs a turn for
/// each two events, and one for each event and pair.
#[tactic(auto, unfolding(crate::specs::Events::in_order))]
pub fn ordered<A: Allocator + Clone>(
    alloc: &A,
    count: usize,
    pairs: &[(u8, u8)],
) -> Result<Vec<(u8, u8), A>, AllocError>
    requires { count ≤ 256 }
    ensures { IfOk result (λ v. v.items ≡ in_order count pairs.now) }
{
    let mut ordered = Vec::new(alloc.clone()?);
    for event in 0..count {
        let set = images(pairs, event as u8);
        ordered = put_pairs(event as u8, set, count, ordered)?;
    }
    Ok(ordered)
}
