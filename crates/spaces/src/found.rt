//! The sets of states found so far.

ghost use Rattle.std.specs.List.{All};
ghost use Rattle.std.specs.Prelude.{◌≡◌, ◌↔◌, ◌+◌, ◌++◌, ◌<◌, ◌≤◌, ◌^◌, ◌∷◌, [], IfErr, IfNone, IfOk, IfSome, List, OnErr, OnOk, ℕ, get_or, length};
ghost use Rattle.alphabet.specs.declared.events.Event.{Event};
ghost use Rattle.term.specs.Meaning.{Trace};
ghost use Rattle.term.specs.Proc.{Proc, bodies_of, root};
ghost use Rattle.term.specs.Specs.{IsClosed};
ghost use Rattle.term.specs.Traces.{In};
ghost use Rattle.tau_closures.specs.Closing.{AllShallow};
ghost use Rattle.tau_closures.specs.KeptBelonging.{KeptBelongs};
ghost use Rattle.tau_closures.specs.Limits.{EventMeets, EventMeetsNone, OpeningMeets, OpeningMeetsNone};
ghost use Rattle.tau_closures.specs.Looks.{look, AllBelow};
ghost use Rattle.tau_closures.specs.Unfolding.{unfolding_depth};
ghost use Rattle.spaces.specs.Answers.{HasMembers, IsAnswer};
ghost use Rattle.spaces.specs.Found.{HasBegun, HasList, members, shown};
ghost use Rattle.spaces.specs.Known.{AreFactsOf, AreOf, IsStored, lists_of};
ghost use Rattle.spaces.specs.Spaces.{Belongs, GrewFrom, IsSetOf, states};

use crate::facts::{SetFacts, facts_of};
use crate::states::StateSet;
use alphabet::Event;
use indexmap::IndexMap;
use std::alloc::{AllocError, Allocator};
use std::hash::{BuildHasherDefault, FoldHasher};
use std::marker::Model;
use std::mem::replace;
use tau_closures::{AfterFault, States, Transitions, advance, start};
use term::Spec;

pub(crate) type Hashing = BuildHasherDefault<FoldHasher>;

/// The numbers of the members of each set, with what is known of it.
type Lists<A> = IndexMap<Vec<u32, A>, SetFacts<A>, Hashing, A>;

/// By how many processes a space grows at most until it is large.
pub const MOST_NEW_PROCESSES: u32 = 524_288;

/// How many members all sets of a space have together at most until it is large.
pub const MOST_MEMBERS: usize = 33_554_432;

/// The most sets.
const MOST_SETS: usize = 4_294_967_295;

/// The sets of states of a specification that were found so far, each once.
#[derive(Drop)]
pub(crate) struct FoundSets<A: Allocator> {
    spec: Spec<A>,
    states: States<A>,
    sets: Lists<A>,
    // How many numbers the lists have, as far as a `usize` goes. No clause speaks of it, nor of the next one.
    members: usize,
    // How many processes there were when it last began anew.
    begun_with: u32,
    alloc: A,
}

impl<A: Allocator> Model for FoundSets<A> {
    ghost use Rattle.spaces.specs.Found.{Found, found_code};
    ghost use Rattle.spaces.specs.Known.{IsSound, found};

    ghost Value = { Found };

    ghost coded = { found_code };

    ghost view = { λ s. found s.spec s.states s.sets.entries };

    ghost invariant = { λ s. IsSound s.spec s.states s.sets.entries };
}

impl<A: Allocator + Copy> FoundSets<A> {
    /// No sets yet, of this specification. Takes no memory: the bodies get their numbers at the first opening.
    pub(crate) fn new(alloc: A, spec: Spec<A>) -> FoundSets<A>
        ensures spec { result.spec ≡ spec }
        ensures empty { result.sets ≡ [] }
    {
        // A specification is closed: a clause of its own says so.
        let _bodies = spec.bodies();
        FoundSets {
            spec,
            states: States::without_bodies(alloc),
            sets: IndexMap::new(alloc),
            members: 0,
            begun_with: 0,
            alloc,
        }
    }

    /// The set of the empty trace.
    pub(crate) fn opening(&mut self) -> Result<StateSet, AfterFault>
        ensures set { IfOk result (λ set. Belongs (shown self.new) set []) }
        ensures within { OnOk result (OpeningMeetsNone self.old.spec) }
        ensures limit { IfErr result (OpeningMeets self.old.spec) }
        ensures grown { GrewFrom (shown self.old) (shown self.new) }
    {
        self.begin()?;
        let first = match self.first_states() {
            Ok(first) => first,
            Err(fault) => return Err(fault),
        };
        let set = self.put(first)?;
        Ok(set)
    }

    /// Gives the specification's bodies numbers, unless they have them.
    fn begin(&mut self) -> Result<(), AllocError>
        ensures begun { OnOk result (HasBegun self.new) }
        ensures grown { GrewFrom (shown self.old) (shown self.new) }
    {
        if self.sets.len() > 0 {
            return Ok(());
        }
        let states = States::new(self.alloc, &self.spec)?;
        drop(replace(&mut self.states, states));
        Ok(())
    }

    /// The numbers of the states after the empty trace.
    fn first_states(&mut self) -> Result<Vec<u32, A>, AfterFault>
        requires { HasBegun self.old }
        ensures begun { HasBegun self.new }
        ensures below { IfOk result (λ list. AllBelow (length self.new.table.processes) list.items) }
        ensures shallow { IfOk result (λ list. AllShallow (look self.new.table.processes list.items)) }
        ensures belongs { IfOk result (λ list. KeptBelongs self.old.spec (unfolding_depth self.old.spec) (look self.new.table.processes list.items) []) }
        ensures within { OnOk result (OpeningMeetsNone self.old.spec) }
        ensures limit { IfErr result (OpeningMeets self.old.spec) }
        ensures grown { GrewFrom (shown self.old) (shown self.new) }
    {
        start(&self.spec, &mut self.states, self.alloc)
    }

    /// What comes of the set by this event: none where no trace goes on so.
    pub(crate) fn find(
        &mut self,
        set: StateSet,
        event: Event,
    ) -> Result<Option<StateSet>, AfterFault>
        requires { IsSetOf (shown self.old) set }
        ensures answer { IfOk result (IsAnswer (shown self.new) set event) }
        ensures limit { (u : List Event) → Belongs (shown self.old) set u → IfErr result (EventMeets self.old.spec u event) }
        ensures grown { GrewFrom (shown self.old) (shown self.new) }
    {
        let next = match self.states_after(set, event) {
            Ok(Some(next)) => next,
            Ok(None) => return Ok(None),
            Err(fault) => return Err(fault),
        };
        let next = self.put(next)?;
        Ok(Some(next))
    }

    /// The numbers of the states after the event from the set's members: none where no trace goes on so.
    fn states_after(
        &mut self,
        set: StateSet,
        event: Event,
    ) -> Result<Option<Vec<u32, A>>, AfterFault>
        requires { IsSetOf (shown self.old) set }
        ensures begun { HasBegun self.new }
        ensures below { IfOk result (λ next. IfSome next (λ list. AllBelow (length self.new.table.processes) list.items)) }
        ensures shallow { IfOk result (λ next. IfSome next (λ list. AllShallow (look self.new.table.processes list.items))) }
        ensures none { (u : List Event) → Belongs (shown self.old) set u → IfOk result (λ next. IfNone next (Trace (bodies_of self.old.spec.bodies) root (u ++ event ∷ []) → ⊥)) }
        ensures some { (u : List Event) → Belongs (shown self.old) set u → IfOk result (λ next. IfSome next (λ list. Trace (bodies_of self.old.spec.bodies) root (u ++ event ∷ []) × KeptBelongs self.old.spec (unfolding_depth self.old.spec) (look self.new.table.processes list.items) (u ++ event ∷ []))) }
        ensures within { (u : List Event) → Belongs (shown self.old) set u → OnOk result (EventMeetsNone self.old.spec u event) }
        ensures limit { (u : List Event) → Belongs (shown self.old) set u → IfErr result (EventMeets self.old.spec u event) }
        ensures grown { GrewFrom (shown self.old) (shown self.new) }
    {
        let numbers = numbers_of(&self.sets, set);
        advance(&self.spec, &mut self.states, self.alloc, numbers, event)
    }

    /// The set with these members.
    fn put(&mut self, numbers: Vec<u32, A>) -> Result<StateSet, AllocError>
        requires begun { HasBegun self.old }
        requires below { AllBelow (length self.old.table.processes) numbers.items }
        requires shallow { AllShallow (look self.old.table.processes numbers.items) }
        ensures set { IfOk result (HasMembers (shown self.new) (look self.old.table.processes numbers.items)) }
        ensures grown { GrewFrom (shown self.old) (shown self.new) }
    {
        let mut sorted = numbers;
        sorted.sort_unstable();
        match self.set_of(&sorted) {
            Some(set) => Ok(set),
            None => match self.facts_of_new(&sorted) {
                Ok(facts) => self.put_new(sorted, facts),
                Err(refused) => Err(refused),
            },
        }
    }

    /// The set of which this list is stored.
    fn set_of(&self, list: &[u32]) -> Option<StateSet>
        ensures found { IfSome result (HasList (shown self.now) (look self.now.table.processes list.now)) }
        ensures absent { IfNone result ((set : ℕ) → set < length self.now.sets → members self.now set ≡ list.now → ⊥) }
    {
        match self.sets.get_index_of(list) {
            Some(place) => Some(StateSet::at(place as u32)),
            None => None,
        }
    }

    /// What is known of a set that isn't stored yet. Refused where no number is left for it.
    fn facts_of_new(&self, numbers: &[u32]) -> Result<SetFacts<A>, AllocError>
        requires { AllBelow (length self.now.table.processes) numbers.now }
        ensures facts { IfOk result (λ facts. AreFactsOf facts (look self.now.table.processes numbers.now)) }
        ensures few { OnOk result (length self.now.sets + 1 < 2 ^ 32) }
    {
        if self.sets.len() >= MOST_SETS {
            return Err(AllocError);
        }
        facts_of(self.states.all(), self.alloc, numbers)
    }

    /// A set that isn't stored yet, of which this is known.
    fn put_new(&mut self, list: Vec<u32, A>, facts: SetFacts<A>) -> Result<StateSet, AllocError>
        requires begun { HasBegun self.old }
        requires below { AllBelow (length self.old.table.processes) list.items }
        requires shallow { AllShallow (look self.old.table.processes list.items) }
        requires facts { AreFactsOf facts (look self.old.table.processes list.items) }
        requires few { length self.old.sets + 1 < 2 ^ 32 }
        requires new { (set : ℕ) → set < length self.old.sets → members self.old set ≡ list.items → ⊥ }
        ensures set { IfOk result (HasList (shown self.new) (look self.old.table.processes list.items)) }
        ensures grown { GrewFrom (shown self.old) (shown self.new) }
    {
        let number = self.sets.len();
        let members = self.members.saturating_add(list.len());
        self.sets.insert(list, facts)?;
        self.members = members;
        Ok(StateSet::at(number as u32))
    }

    /// Begins anew with this set alone, and gives its number then. Where memory is refused, all stays.
    pub(crate) fn renew(&mut self, set: StateSet) -> Result<StateSet, AllocError>
        requires { set < length self.old.sets }
        ensures set { IfOk result (HasMembers (shown self.new) (states (shown self.old) set)) }
        ensures spec { self.new.spec ≡ self.old.spec }
        ensures one { OnOk result (length self.new.sets ≡ 1) }
        ensures kept { OnErr result (self.new ≡ self.old) }
    {
        let mut states = States::without_bodies(self.alloc);
        let mut sets = IndexMap::new(self.alloc);
        let Ok(members) = self.put_alone(set, &mut states, &mut sets) else {
            drop(sets);
            drop(states);
            return Err(AllocError);
        };
        self.members = members;
        self.begun_with = states.all().len();
        drop(replace(&mut self.states, states));
        drop(replace(&mut self.sets, sets));
        Ok(StateSet::at(0))
    }

    /// Puts the set alone among no sets, of processes that become those that it needs. Gives the number of its members.
    fn put_alone(
        &self,
        set: StateSet,
        into: &mut States<A>,
        sets: &mut Lists<A>,
    ) -> Result<usize, AllocError>
        requires set { set < length self.now.sets }
        requires none { sets.old.entries ≡ [] }
        ensures begun { OnOk result (AreOf self.now.spec into.new) }
        ensures one { OnOk result (length (lists_of sets.new.entries) ≡ 1) }
        ensures stored { OnOk result (All (IsStored into.new.all.table.processes) sets.new.entries) }
        ensures same { OnOk result ((Q : Proc) → In Q (look into.new.all.table.processes (get_or (lists_of sets.new.entries) 0 [])) ↔ In Q (states (shown self.now) set)) }
    {
        let list = self.copies(set, into)?;
        let members = list.len();
        put_list(sets, into.all(), self.alloc, list)?;
        Ok(members)
    }

    /// The processes become the specification's bodies and the set's members. Gives the members' numbers there.
    fn copies(&self, set: StateSet, into: &mut States<A>) -> Result<Vec<u32, A>, AllocError>
        requires { set < length self.now.sets }
        ensures begun { OnOk result (AreOf self.now.spec into.new) }
        ensures below { IfOk result (λ list. AllBelow (length into.new.all.table.processes) list.items) }
        ensures shallow { IfOk result (λ list. AllShallow (look into.new.all.table.processes list.items)) }
        ensures same { IfOk result (λ list. (Q : Proc) → In Q (look into.new.all.table.processes list.items) ↔ In Q (states (shown self.now) set)) }
    {
        let bodies = States::new(self.alloc, &self.spec)?;
        drop(replace(into, bodies));
        let mut list = into.put_from(&self.states, numbers_of(&self.sets, set))?;
        list.sort_unstable();
        Ok(list)
    }
}

impl<A: Allocator> FoundSets<A> {
    /// Whether it has so many processes more than it began with, or so many members of sets, that it should begin anew. So that
    /// isn't done again before as many have come, also where the set that is left has many processes. Takes no memory.
    pub(crate) fn is_large(&self) -> bool {
        self.states.all().len().saturating_sub(self.begun_with) > MOST_NEW_PROCESSES
            || self.members > MOST_MEMBERS
    }

    /// The specification. Takes no memory.
    pub(crate) fn spec(&self) -> &Spec<A>
        ensures spec { result.now ≡ self.now.spec }
        ensures closed { IsClosed self.now.spec }
    {
        &self.spec
    }

    /// What is known of the set; none where there is no such set.
    pub(crate) fn facts(&self, set: StateSet) -> Option<&SetFacts<A>>
        ensures known { IfSome result (λ facts. AreFactsOf facts.now (states (shown self.now) set)) }
        ensures none { IfNone result (length (shown self.now).sets ≤ set) }
    {
        match self.sets.get_index(set.number() as usize) {
            Some((_, facts)) => Some(facts),
            None => None,
        }
    }
}

/// Puts the set of this list among no sets, with what is known of it.
fn put_list<A: Allocator + Copy>(
    sets: &mut Lists<A>,
    all: &Transitions<A>,
    alloc: A,
    list: Vec<u32, A>,
) -> Result<(), AllocError>
    requires none { sets.old.entries ≡ [] }
    requires below { AllBelow (length all.now.table.processes) list.items }
    requires shallow { AllShallow (look all.now.table.processes list.items) }
    ensures list { OnOk result (lists_of sets.new.entries ≡ list.items ∷ []) }
    ensures stored { OnOk result (All (IsStored all.now.table.processes) sets.new.entries) }
{
    let facts = facts_of(all, alloc, &list)?;
    sets.insert(list, facts)?;
    Ok(())
}

/// The numbers of the set's members.
fn numbers_of<A: Allocator>(sets: &Lists<A>, set: StateSet) -> &[u32]
    requires { set < length sets.now.entries }
    ensures { result.now ≡ get_or (lists_of sets.now.entries) set [] }
{
    match sets.get_index(set.number() as usize) {
        Some((numbers, _)) => numbers.as_slice(),
        None => &[],
    }
}
