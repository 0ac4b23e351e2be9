//! Sets of events that processes offer, of which only the least are kept, and their order.

ghost use Rattle.std.specs.Prelude.{◌≡◌, ◌↔◌, ◌≤◌, ◌⊎◌, false, IfOk, IsTrue, OnOk, length};
ghost use Rattle.alphabet.specs.declared.events.Event.{Event};
ghost use Rattle.alphabet.specs.EventSets.{Set, member};
ghost use Rattle.term.specs.Traces.{In};
ghost use Rattle.spaces.specs.Acceptances.{AreOrdered, ComesBefore, HasApart, IsPart};
ghost use Rattle.spaces.specs.Offers.{AreSmall, HasPart, HasPutInOrder, HasPutOffer, IsPlace, IsSmall};

use alphabet::EventSet;
use std::alloc::{AllocError, Allocator};

/// Puts the set among others, unless one of them lies within it, and in place of those within which it lies.
pub(crate) fn put_offer<A: Allocator>(
    offer: EventSet,
    into: &mut Vec<EventSet, A>,
) -> Result<(), AllocError>
    ensures { OnOk result (HasPutOffer into.old.items offer into.new.items) }
{
    if has_part(into, &offer) {
        return Ok(());
    }
    take_out(&offer, into);
    into.push(offer)?;
    Ok(())
}

/// Whether one of the sets lies within this one.
fn has_part(sets: &[EventSet], set: &EventSet) -> bool
    ensures { IsTrue result ↔ HasPart sets.now set.now }
{
    for other in sets {
        if other.is_within(set) {
            return true;
        }
    }
    false
}

/// Takes out the sets within which this one lies.
fn take_out<A: Allocator>(set: &EventSet, from: &mut Vec<EventSet, A>)
    ensures only { (O : Set) → In O from.new.items → In O from.old.items }
    ensures kept { (O : Set) → In O from.old.items → In O from.new.items ⊎ IsPart set.now O }
    ensures out { (O : Set) → In O from.new.items → IsPart set.now O → ⊥ }
{
    let mut place = 0;
    while place < from.len() {
        if set.is_within(&from[place]) {
            let _ = from.swap_remove(place);
        } else {
            place += 1;
        }
    }
}

/// Whether one of the sets has nothing of this one.
pub(crate) fn some_apart(sets: &[EventSet], set: &EventSet) -> bool
    ensures { IsTrue result ↔ HasApart sets.now set.now }
{
    for other in sets {
        if are_apart(other, set) {
            return true;
        }
    }
    false
}

/// Whether no event is in both sets, and tick isn't either.
fn are_apart(set: &EventSet, other: &EventSet) -> bool
    ensures { IsTrue result ↔ ((x : Event) → IsTrue (member set.now x) → IsTrue (member other.now x) → ⊥) }
{
    set.is_within(&set.minus(*other))
}

/// The same sets, each once, in the order of their first differences.
pub(crate) fn in_order<A: Allocator>(
    alloc: A,
    sets: &[EventSet],
) -> Result<Vec<EventSet, A>, AllocError>
    ensures same { IfOk result (λ ordered. (M : Set) → In M ordered.items ↔ In M sets.now) }
    ensures ordered { IfOk result (λ ordered. AreSmall sets.now → AreOrdered ordered.items) }
{
    let mut ordered = Vec::new(alloc);
    for set in sets {
        put_in_order(*set, &mut ordered)?;
    }
    Ok(ordered)
}

/// Puts the set into its place among ordered ones, unless it is there.
fn put_in_order<A: Allocator>(set: EventSet, into: &mut Vec<EventSet, A>) -> Result<(), AllocError>
    ensures { OnOk result (HasPutInOrder into.old.items set into.new.items) }
{
    let place = place_of(&set, into);
    if place < into.len() && into[place] == set {
        return Ok(());
    }
    into.insert(place, set)?;
    Ok(())
}

/// The place of the set among ordered ones: that of the first that doesn't come before it.
fn place_of(set: &EventSet, sets: &[EventSet]) -> usize
    ensures within { result ≤ length sets.now }
    ensures place { IsSmall set.now → AreSmall sets.now → IsPlace sets.now set.now result }
{
    for (place, other) in sets.iter().enumerate() {
        if !comes_before(other, set) {
            return place;
        }
    }
    sets.len()
}

/// Whether the first event that is in one of the sets alone is in this one.
fn comes_before(set: &EventSet, other: &EventSet) -> bool
    ensures before { IsSmall set.now → IsSmall other.now → IsTrue result → ComesBefore set.now other.now }
    ensures after { IsSmall set.now → IsSmall other.now → result ≡ false → (set.now ≡ other.now) ⊎ ComesBefore other.now set.now }
{
    let apart = set.minus(*other).union(other.minus(*set));
    match apart.iter().next() {
        Some(first) => set.contains(first),
        None => false,
    }
}
