//! What an operator offers, from what its parts offer.

ghost use Rattle.std.specs.Prelude.{◌≡◌, ◌↔◌, ℕ, IsTrue, true, false};
ghost use Rattle.alphabet.specs.EventSets.{has, member};
ghost use Rattle.alphabet.specs.declared.events.Event.{Event};
ghost use Rattle.alphabet.specs.declared.events.Event.TheVariants.{Tick as tick};
ghost use Rattle.targets.specs.Offers.{both_or_one, some_passes};
ghost use Rattle.targets.specs.Targets.{sources};

use alphabet::{Event, EventSet};

/// What a parallel offers: of the set what both sides offer, outside it what one of them offers.
pub(crate) fn joined(set: EventSet, left: EventSet, right: EventSet) -> EventSet
    ensures { (x : Event) → member result x ≡ both_or_one (member set x) (member left x) (member right x) }
{
    let alone = left.union(right).minus(set);
    let both = left.minus(left.minus(right));
    alone.union(both.minus(both.minus(set)))
}

/// What a renaming offers: the right sides of offered events, and the offered events that are on no left side.
pub(crate) fn renamed(pairs: &[(u8, u8)], from: EventSet) -> EventSet
    ensures events { (a : ℕ) → has result a ≡ some_passes (has from) (sources pairs.now a) }
    ensures tick { member result tick ≡ member from tick }
{
    let mut kept = from;
    let mut found = EventSet::empty();
    for pair in pairs {
        kept = kept.minus(EventSet::empty().with(Event::Of(pair.0)));
        if from.contains(Event::Of(pair.0)) {
            found = found.with(Event::Of(pair.1));
        }
    }
    kept.union(found)
}

/// Whether no event of Sigma is in both sets, where the second has no tick.
pub(crate) fn are_apart(hidden: EventSet, offered: EventSet) -> bool
    ensures { member offered tick ≡ false → IsTrue result ↔ ((a : ℕ) → has hidden a ≡ true → has offered a ≡ true → ⊥) }
{
    offered.minus(offered.minus(hidden)).is_empty()
}
