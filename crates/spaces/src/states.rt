//! Sets of states.

ghost use Rattle.std.specs.Prelude.{◌≡◌, ◌↔◌, ◌++◌, [], ◌∷◌, List, IfOk, IfErr, IfSome, IfNone, OnErr, OnOk, IsTrue, length};
ghost use Rattle.alphabet.specs.declared.events.Event.{Event};
ghost use Rattle.alphabet.specs.EventSets.{member};
ghost use Rattle.term.specs.Meaning.{Failure, Trace};
ghost use Rattle.term.specs.Proc.{bodies_of, root};
ghost use Rattle.tau_closures.specs.Limits.{EventMeets, EventMeetsNone, OpeningMeets, OpeningMeetsNone};
ghost use Rattle.spaces.specs.Acceptances.{AreAcceptances};
ghost use Rattle.spaces.specs.Spaces.{Belongs, GrewFrom, IsSetOf};

use crate::space::Space;
use alphabet::{Event, EventSet};
use std::alloc::{AllocError, Allocator};
use std::marker::Model;
use tau_closures::AfterFault;

/// The processes in which the root may be after a trace, with hidden steps anywhere, also at the end, each kept as the
/// specification says: a set of a space, by its number there.
#[derive(Clone, Copy)]
pub struct StateSet {
    number: u32,
}

impl Model for StateSet {
    ghost use Rattle.std.specs.Prelude.{ℕ};

    ghost Value = { ℕ };

    ghost view = { λ s. s.number };

    ghost inverse = { λ n. record { number = n } };
}

impl StateSet {
    /// The set with this number.
    pub(crate) fn at(number: u32) -> StateSet
        ensures { result ≡ number }
    {
        StateSet { number }
    }

    /// The number of the set.
    pub fn number(self) -> u32
        ensures { result ≡ self }
    {
        self.number
    }

    /// The set of the empty trace. It is refused where the opening meets a limit: the first level from the root on that does so
    /// decides. Where names stay names, it does by `Depth` where it holds a process that is too deep, else by `States`; where
    /// they are kept as their bodies, by `States` where it is too much, else by `Depth`.
    pub fn start<A: Allocator + Copy>(space: &mut Space<A>) -> Result<StateSet, AfterFault>
        ensures belongs { IfOk result (λ set. Belongs space.new set []) }
        ensures within { OnOk result (OpeningMeetsNone space.old.spec) }
        ensures limit { IfErr result (OpeningMeets space.old.spec) }
        ensures space { GrewFrom space.old space.new }
    {
        space.opening()
    }

    /// The set after this event more. The set is one of this space. None where no trace goes on so. It is refused where the event
    /// meets a limit: the first level from its targets on that does so decides, as for the empty trace. What was asked before is
    /// remembered.
    pub fn advance<A: Allocator + Copy>(
        self,
        space: &mut Space<A>,
        event: Event,
    ) -> Result<Option<StateSet>, AfterFault>
        requires { IsSetOf space.old self }

        // For each trace to which the set belongs.
        ensures none { (u : List Event) → Belongs space.old self u → IfOk result (λ next. IfNone next (Trace (bodies_of space.old.spec.bodies) root (u ++ event ∷ []) → ⊥)) }
        ensures some { (u : List Event) → Belongs space.old self u → IfOk result (λ next. IfSome next (λ set. Trace (bodies_of space.old.spec.bodies) root (u ++ event ∷ []) × Belongs space.new set (u ++ event ∷ []))) }
        ensures within { (u : List Event) → Belongs space.old self u → OnOk result (EventMeetsNone space.old.spec u event) }
        ensures limit { (u : List Event) → Belongs space.old self u → IfErr result (EventMeets space.old.spec u event) }
        ensures space { GrewFrom space.old space.new }
    {
        space.answer(self, event)
    }

    /// The space begins anew with this set alone: all other sets are gone, and what was remembered. The set has this number
    /// then. Where memory is refused, all stays. The set is one of this space.
    pub fn renew<A: Allocator + Copy>(self, space: &mut Space<A>) -> Result<StateSet, AllocError>
        requires { IsSetOf space.old self }
        ensures same { (u : List Event) → Belongs space.old self u → IfOk result (λ set. Belongs space.new set u) }
        ensures spec { space.new.spec ≡ space.old.spec }
        ensures one { OnOk result (length space.new.sets ≡ 1) }
        ensures kept { OnErr result (space.new ≡ space.old) }
    {
        space.renew(self)
    }

    /// Whether the events of this set are refused after the trace: some state offers none of them and has no hidden
    /// step, or may terminate while tick is not among them. The set is one of this space. Takes no memory.
    pub fn refuses<A: Allocator>(self, space: &Space<A>, set: &EventSet) -> bool
        ensures { (u : List Event) → Belongs space.now self u → (IsTrue result ↔ Failure (bodies_of space.now.spec.bodies) root u (member set.now)) }
    {
        match space.facts(self) {
            Some(facts) => facts.refuse(set),
            None => false,
        }
    }

    /// The minimal acceptances after the trace, in a fixed order: of two sets the first event that is in one of them
    /// alone decides which is first, by having it. The set is one of this space. Refused only where memory is.
    pub fn acceptances<A: Allocator + Copy>(
        self,
        space: &Space<A>,
        alloc: A,
    ) -> Result<Vec<EventSet, A>, AllocError>
        ensures { (u : List Event) → Belongs space.now self u → IfOk result (λ sets. AreAcceptances (bodies_of space.now.spec.bodies) root u sets.items) }
    {
        // All events of the sets are of this alphabet.
        let _ = space.spec().alphabet().len();
        match space.facts(self) {
            Some(facts) => facts.acceptances(alloc),
            None => Ok(Vec::new(alloc)),
        }
    }

    /// The events that go on from the trace, tick among them. The set is one of this space. Takes no memory.
    pub fn next<A: Allocator>(self, space: &Space<A>) -> EventSet
        ensures { (u : List Event) → Belongs space.now self u → (x : Event) → IsTrue (member result x) ↔ Trace (bodies_of space.now.spec.bodies) root (u ++ x ∷ []) }
    {
        match space.facts(self) {
            Some(facts) => facts.next,
            None => EventSet::empty(),
        }
    }
}
