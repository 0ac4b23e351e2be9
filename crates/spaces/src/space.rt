//! The space of a specification's sets of states, with the answers that it remembers.

ghost use Rattle.std.specs.Prelude.{◌≡◌, ◌<◌, ◌≤◌, [], IfErr, IfNone, IfOk, IfSome, List, OnErr, OnOk, length};
ghost use Rattle.alphabet.specs.declared.events.Event.{Event};
ghost use Rattle.term.specs.Specs.{IsClosed};
ghost use Rattle.tau_closures.specs.Limits.{EventMeets, OpeningMeets, OpeningMeetsNone};
ghost use Rattle.spaces.specs.Answers.{HasMembers, IsAnswer};
ghost use Rattle.spaces.specs.Known.{AreFactsOf};
ghost use Rattle.spaces.specs.Spaces.{Belongs, GrewFrom, IsSetOf, most_remembered, states};

use crate::facts::SetFacts;
use crate::found::{FoundSets, Hashing};
use crate::keys::key_of;
use crate::states::StateSet;
use alphabet::Event;
use indexmap::IndexMap;
use std::alloc::{AllocError, Allocator};
use std::marker::Model;
use tau_closures::AfterFault;
use term::Spec;

/// The most answers that are remembered.
pub const MOST_REMEMBERED: usize = 65_536;

/// What comes of sets by events, by keys.
pub(crate) type Answers<A> = IndexMap<u64, Option<StateSet>, Hashing, A>;

/// The sets of states of a specification, each once. What comes of a set by an event is found once, and remembered as
/// long as there is room.
#[derive(Drop)]
pub struct Space<A: Allocator> {
    found: FoundSets<A>,
    answers: Answers<A>,
}

impl<A: Allocator> Model for Space<A> {
    ghost use Rattle.spaces.specs.Answers.{IsMemory};
    ghost use Rattle.spaces.specs.Found.{shown};
    ghost use Rattle.spaces.specs.Spaces.{Spaced, spaced_code};

    ghost Value = { Spaced };

    ghost coded = { spaced_code };

    ghost view = { λ s. shown s.found };

    ghost invariant = { λ s. IsMemory (shown s.found) s.answers.entries };
}

impl<A: Allocator + Copy> Space<A> {
    /// The space of this specification, without sets. Takes no memory; it grows in memory of `alloc`.
    pub fn new(alloc: A, spec: Spec<A>) -> Space<A>
        ensures spec { result.spec ≡ spec }
        ensures empty { result.sets ≡ [] }
    {
        Space {
            found: FoundSets::new(alloc, spec),
            answers: IndexMap::new(alloc),
        }
    }

    /// The set of the empty trace.
    pub(crate) fn opening(&mut self) -> Result<StateSet, AfterFault>
        ensures set { IfOk result (λ set. Belongs self.new set []) }
        ensures within { OnOk result (OpeningMeetsNone self.old.spec) }
        ensures limit { IfErr result (OpeningMeets self.old.spec) }
        ensures grown { GrewFrom self.old self.new }
    {
        self.found.opening()
    }

    /// Begins anew with this set alone, without what was remembered, and gives the set's number then. Where memory is
    /// refused, all stays.
    pub(crate) fn renew(&mut self, set: StateSet) -> Result<StateSet, AllocError>
        requires { set < length self.old.sets }
        ensures set { IfOk result (HasMembers self.new (states self.old set)) }
        ensures spec { self.new.spec ≡ self.old.spec }
        ensures one { OnOk result (length self.new.sets ≡ 1) }
        ensures kept { OnErr result (self.new ≡ self.old) }
    {
        let set = self.found.renew(set)?;
        self.answers.clear();
        Ok(set)
    }

    /// What comes of the set by this event: none where no trace goes on so. What was asked before is remembered.
    pub(crate) fn answer(
        &mut self,
        set: StateSet,
        event: Event,
    ) -> Result<Option<StateSet>, AfterFault>
        requires { IsSetOf self.old set }
        ensures answer { IfOk result (IsAnswer self.new set event) }
        ensures limit { (u : List Event) → Belongs self.old set u → IfErr result (EventMeets self.old.spec u event) }
        ensures grown { GrewFrom self.old self.new }
    {
        if let Some(answer) = self.recall(set, event) {
            return Ok(answer);
        }
        match self.find(set, event) {
            Ok(answer) => {
                self.remember(set, event, &answer);
                Ok(answer)
            }
            Err(fault) => Err(fault),
        }
    }

    /// The same without what is remembered.
    fn find(&mut self, set: StateSet, event: Event) -> Result<Option<StateSet>, AfterFault>
        requires { IsSetOf self.old set }
        ensures answer { IfOk result (IsAnswer self.new set event) }
        ensures limit { (u : List Event) → Belongs self.old set u → IfErr result (EventMeets self.old.spec u event) }
        ensures grown { GrewFrom self.old self.new }
    {
        self.found.find(set, event)
    }

    /// Remembers what comes of the set by the event, unless enough is remembered or memory is refused.
    fn remember(&mut self, set: StateSet, event: Event, answer: &Option<StateSet>)
        requires here { set < length self.old.sets }
        requires answer { IsAnswer self.old set event answer.now }
        ensures { self.new ≡ self.old }
    {
        if self.answers.len() >= MOST_REMEMBERED {
            return;
        }
        let _ = self.answers.insert(key_of(set, event), *answer);
    }
}

impl<A: Allocator> Space<A> {
    /// The specification. Takes no memory.
    pub fn spec(&self) -> &Spec<A>
        ensures spec { result.now ≡ self.now.spec }
        ensures closed { IsClosed self.now.spec }
    {
        self.found.spec()
    }

    /// Whether it has grown so large that it should begin anew: by more than `MOST_NEW_PROCESSES` processes since it began, or
    /// by sets with more than `MOST_MEMBERS` members together. Takes no memory.
    pub fn is_large(&self) -> bool {
        self.found.is_large()
    }

    /// How many answers are remembered. Takes no memory.
    pub fn remembered(&self) -> usize
        ensures { result ≤ most_remembered }
    {
        self.answers.len()
    }

    /// What is remembered of the set and the event.
    fn recall(&self, set: StateSet, event: Event) -> Option<Option<StateSet>>
        ensures { IfSome result (IsAnswer self.now set event) }
    {
        match self.answers.get(&key_of(set, event)) {
            Some(answer) => Some(*answer),
            None => None,
        }
    }

    /// What is known of the set; none where there is no such set.
    pub(crate) fn facts(&self, set: StateSet) -> Option<&SetFacts<A>>
        ensures known { IfSome result (λ facts. AreFactsOf facts.now (states self.now set)) }
        ensures none { IfNone result (length self.now.sets ≤ set) }
    {
        self.found.facts(set)
    }
}
