//! What is known of a set of states.

ghost use Rattle.std.specs.Prelude.{◌≡◌, ◌↔◌, ◌&&◌, ◌++◌, ◌∷◌, [], ℕ, IfOk, IsTrue, List, OnOk, length, not};
ghost use Rattle.alphabet.specs.declared.events.Event.{Event};
ghost use Rattle.alphabet.specs.declared.events.Event.TheVariants.{Tick as tick};
ghost use Rattle.alphabet.specs.EventSets.{member};
ghost use Rattle.term.specs.Proc.{Proc};
ghost use Rattle.term.specs.Steps.{Refuses};
ghost use Rattle.term.specs.Traces.{In};
ghost use Rattle.tau_closures.specs.Known.{IsKnown};
ghost use Rattle.tau_closures.specs.Looks.{look, AllBelow};
ghost use Rattle.tau_closures.specs.Closing.{Takes};
ghost use Rattle.spaces.specs.Known.{AreFactsOf};
ghost use Rattle.spaces.specs.Acceptances.{AreOrdered};
ghost use Rattle.spaces.specs.Offers.{AreLeastOf, AreOffers, AreSmall};

use crate::offers::{in_order, put_offer, some_apart};
use alphabet::{Event, EventSet};
use std::alloc::{AllocError, Allocator};
use tau_closures::{Facts, Transitions};

/// What is known of a set of states.
#[derive(Drop)]
pub(crate) struct SetFacts<A: Allocator> {
    /// The events with which some state has a step, tick among them.
    pub(crate) next: EventSet,
    /// What states offer that have no hidden step and can't terminate. Of two such sets, one within the other, only the
    /// smaller is needed.
    offers: Vec<EventSet, A>,
}

/// What is known of the set of these processes.
pub(crate) fn facts_of<A: Allocator + Copy>(
    all: &Transitions<A>,
    alloc: A,
    numbers: &[u32],
) -> Result<SetFacts<A>, AllocError>
    requires { AllBelow (length all.now.table.processes) numbers.now }
    ensures { IfOk result (λ facts. AreFactsOf facts (look all.now.table.processes numbers.now)) }
{
    let offers = offers_of(all, alloc, numbers)?;
    let next = next_of(all, numbers);
    Ok(SetFacts { next, offers })
}

/// The events with which one of the processes has a step, tick among them.
fn next_of<A: Allocator>(all: &Transitions<A>, numbers: &[u32]) -> EventSet
    requires { AllBelow (length all.now.table.processes) numbers.now }
    ensures { (x : Event) → IsTrue (member result x) ↔ ((Q : Proc) × In Q (look all.now.table.processes numbers.now) × Takes Q x) }
{
    let mut next = EventSet::empty();
    for number in numbers {
        next = next.union(events_of(all.facts(*number)));
    }
    next
}

/// The events with which the process has a step, tick among them.
fn events_of(facts: Facts) -> EventSet
    ensures { (P : Proc) → IsKnown facts P → (x : Event) → IsTrue (member result x) ↔ Takes P x }
{
    if facts.ticks {
        facts.offers.with(Event::Tick)
    } else {
        facts.offers
    }
}

/// What those of the processes offer that have no hidden step and can't terminate.
fn offers_of<A: Allocator + Copy>(
    all: &Transitions<A>,
    alloc: A,
    numbers: &[u32],
) -> Result<Vec<EventSet, A>, AllocError>
    requires { AllBelow (length all.now.table.processes) numbers.now }
    ensures { IfOk result (λ offers. AreOffers offers.items (look all.now.table.processes numbers.now)) }
{
    let mut offers = Vec::new(alloc);
    for number in numbers {
        put_offers(all.facts(*number), &mut offers)?;
    }
    Ok(offers)
}

/// Puts what the process offers among others, if it has no hidden step and can't terminate.
fn put_offers<A: Allocator>(facts: Facts, into: &mut Vec<EventSet, A>) -> Result<(), AllocError>
    ensures { OnOk result ((P : Proc) (ps : List Proc) → IsKnown facts P → AreOffers into.old.items ps → AreOffers into.new.items (ps ++ P ∷ [])) }
{
    if facts.ticks {
        return Ok(());
    }
    if !facts.rests {
        return Ok(());
    }
    put_offer(facts.offers, into)
}

impl<A: Allocator + Copy> SetFacts<A> {
    /// What the states accept at least: the offers, and tick alone where some state can terminate. Of two such sets, one
    /// within the other, only the smaller is there, and they are in the order of their first differences.
    pub(crate) fn acceptances(&self, alloc: A) -> Result<Vec<EventSet, A>, AllocError>
        ensures { IfOk result (λ sets. AreLeastOf self.now.next self.now.offers.items sets.items × (AreSmall self.now.offers.items → AreOrdered sets.items)) }
    {
        let least = self.least(alloc)?;
        in_order(alloc, &least)
    }

    /// The same in any order.
    fn least(&self, alloc: A) -> Result<Vec<EventSet, A>, AllocError>
        ensures { IfOk result (λ sets. AreLeastOf self.now.next self.now.offers.items sets.items) }
    {
        let mut sets = Vec::from_slice(alloc, &self.offers)?;
        if self.next.contains(Event::Tick) {
            put_offer(EventSet::empty().with(Event::Tick), &mut sets)?;
        }
        Ok(sets)
    }
}

impl<A: Allocator> SetFacts<A> {
    /// Whether some state refuses the events of this set: by its termination, where tick isn't among them, or at rest,
    /// where it offers none of them.
    pub(crate) fn refuse(&self, set: &EventSet) -> bool
        ensures { (ps : List Proc) (B : ℕ → Proc) → AreFactsOf self.now ps → IsTrue result ↔ ((Q : Proc) × In Q ps × Refuses B (member set.now) Q) }
    {
        if self.end_outside(set) {
            return true;
        }
        some_apart(&self.offers, set)
    }

    /// Whether some state can terminate, and tick isn't in this set.
    fn end_outside(&self, set: &EventSet) -> bool
        ensures { result ≡ (member self.now.next tick && not (member set.now tick)) }
    {
        self.next.contains(Event::Tick) && !set.contains(Event::Tick)
    }
}
