//! The search for a trace after which a process lacks a property.

ghost use Rattle.std.specs.Prelude.{◌≡◌, ◌↔◌, ◌++◌, ◌∷◌, [], ◌<◌, IfErr, IfNone, IfOk, IfSome, IsTrue, List, OnOk, ℕ, length, map};
ghost use Rattle.alphabet.specs.EventSets.{member};
ghost use Rattle.alphabet.specs.declared.events.Event.{Event};
ghost use Rattle.alphabet.specs.declared.events.Event.TheVariants.{Of as ev};
ghost use Rattle.term.specs.Meaning.{Trace};
ghost use Rattle.term.specs.Proc.{bodies_of, root};
ghost use Rattle.term.specs.Specs.{Specified};
ghost use Rattle.spaces.specs.Spaces.{Belongs};
ghost use Rattle.refinement.specs.declared.property.Property.TheVariants.{DeadlockFree, Deterministic};
ghost use Rattle.refinement.specs.Nodes.{AreSoundNodes, GrewNodes, Is, IsLed, IsNodeDone, IsWell, node_at};
ghost use Rattle.refinement.specs.Properties.{Has, IsChoice, IsUnsettled, Shows};

use crate::outcome::Fault;
use crate::property::{Lack, Property, Witness};
use crate::reached::Nodes;
use alphabet::{Event, EventSet};
use spaces::StateSet;
use std::alloc::Allocator;
use term::Spec;

/// Whether the process has the property: none where it has, else a trace after which it lacks it. Of such traces it is a shortest
/// one, which no clause says. It isn't decided where the process meets a limit, or where there are more sets of states than `most`:
/// the fault is then one of `Fault::Implementation`, `Fault::Pairs` and `Fault::Memory`. Takes memory for each set that it finds.
pub fn lacks<A: Allocator + Copy>(
    alloc: A,
    property: Property,
    spec: Spec<A>,
    most: usize,
) -> Result<Option<Witness<A>>, Fault>
    ensures has { IfOk result (λ found. IfNone found (Has property (bodies_of spec.bodies))) }
    ensures shows { IfOk result (λ found. IfSome found (λ w. Shows property (bodies_of spec.bodies) w.trace.items w.lack)) }
    ensures undecided { IfErr result (IsUnsettled most spec) }
{
    let mut nodes = Nodes::new(alloc, spec, most);
    let answer = nodes.decide(alloc, property);
    drop(nodes);
    answer
}

impl<A: Allocator + Copy> Nodes<A> {
    fn decide(&mut self, alloc: A, property: Property) -> Result<Option<Witness<A>>, Fault>
        requires { self.old.nodes.items ≡ [] }
        ensures has { IfOk result (λ found. IfNone found (Has property (bodies_of self.old.space.spec.bodies))) }
        ensures shows { IfOk result (λ found. IfSome found (λ w. Shows property (bodies_of self.old.space.spec.bodies) w.trace.items w.lack)) }
        ensures undecided { IfErr result (IsUnsettled self.old.most self.old.space.spec) }
    {
        self.begin()?;
        match self.seek(property)? {
            None => Ok(None),
            Some((at, lack)) => {
                let trace = self.trace_to(alloc, at)?;
                Ok(Some(Witness { trace, lack }))
            }
        }
    }

    /// Looks at each node, those that come of it among them. Gives the first at which the property is lacking.
    fn seek(&mut self, property: Property) -> Result<Option<(usize, Lack)>, Fault>
        requires sound { AreSoundNodes self.old.space self.old.nodes.items self.old.places.entries self.old.most }
        requires some { 0 < length self.old.nodes.items }
        ensures most { self.new.most ≡ self.old.most }
        ensures sound { OnOk result (AreSoundNodes self.new.space self.new.nodes.items self.new.places.entries self.new.most) }
        ensures spec { OnOk result (self.new.space.spec ≡ self.old.space.spec) }
        ensures has { IfOk result (λ found. IfNone found (Has property (bodies_of self.old.space.spec.bodies))) }
        ensures within { IfOk result (λ found. IfSome found (λ f. f.0 < length self.new.nodes.items)) }
        ensures shows { IfOk result (λ found. IfSome found (λ f. (vs : List ℕ) → Is self.new.space (node_at self.new.nodes.items f.0) vs → Shows property (bodies_of self.old.space.spec.bodies) (map ev vs) f.1)) }
        ensures undecided { IfErr result (IsUnsettled self.old.most self.old.space.spec) }
    {
        let mut at = 0;
        while at < self.nodes.len() {
            if let Some(lack) = self.lack(property, at) {
                return Ok(Some((at, lack)));
            }
            self.expand(at)?;
            at += 1;
        }
        Ok(None)
    }

    /// Finds the nodes to which events of Sigma lead from the node at this place.
    fn expand(&mut self, at: usize) -> Result<(), Fault>
        requires sound { AreSoundNodes self.old.space self.old.nodes.items self.old.places.entries self.old.most }
        requires here { at < length self.old.nodes.items }
        ensures most { self.new.most ≡ self.old.most }
        ensures sound { OnOk result (AreSoundNodes self.new.space self.new.nodes.items self.new.places.entries self.new.most) }
        ensures grown { OnOk result (GrewNodes self.old.space self.old.nodes.items self.new.space self.new.nodes.items) }
        ensures led { OnOk result ((a : ℕ) → IsLed self.new.space self.new.nodes.items (node_at self.old.nodes.items at) a) }
        ensures undecided { IfErr result (IsUnsettled self.old.most self.old.space.spec) }
    {
        let node = self.nodes[at];
        let next = node.set.next(&self.space);
        let count = self.space.spec().alphabet().len();
        for number in 0..count {
            self.take(at, &next, number as u8)?;
        }
        Ok(())
    }

    /// Follows the event, where it is among those that may come next.
    fn take(&mut self, at: usize, next: &EventSet, event: u8) -> Result<(), Fault>
        requires sound { AreSoundNodes self.old.space self.old.nodes.items self.old.places.entries self.old.most }
        requires here { at < length self.old.nodes.items }
        requires next { (vs : List ℕ) → Is self.old.space (node_at self.old.nodes.items at) vs → Trace (bodies_of self.old.space.spec.bodies) root (map ev (vs ++ event ∷ [])) → IsTrue (member next.now (ev event)) }
        ensures most { self.new.most ≡ self.old.most }
        ensures sound { OnOk result (AreSoundNodes self.new.space self.new.nodes.items self.new.places.entries self.new.most) }
        ensures grown { OnOk result (GrewNodes self.old.space self.old.nodes.items self.new.space self.new.nodes.items) }
        ensures led { OnOk result (IsLed self.new.space self.new.nodes.items (node_at self.old.nodes.items at) event) }
        ensures fault { IfErr result (IsUnsettled self.old.most self.old.space.spec) }
    {
        if !next.contains(Event::Of(event)) {
            return Ok(());
        }
        self.follow(at, event)
    }
}

impl<A: Allocator> Nodes<A> {
    /// What the node at this place lacks of the property.
    fn lack(&self, property: Property, at: usize) -> Option<Lack>
        requires here { at < length self.now.nodes.items }
        ensures well { IfNone result (IsWell property self.now.space (node_at self.now.nodes.items at)) }
        ensures shows { IfSome result (λ lack. (vs : List ℕ) → Is self.now.space (node_at self.now.nodes.items at) vs → Shows property (bodies_of self.now.space.spec.bodies) (map ev vs) lack) }
    {
        match property {
            Property::DeadlockFree => self.deadlock(at),
            Property::Deterministic => self.choice(at),
        }
    }

    /// Whether everything may be refused at the node.
    fn deadlock(&self, at: usize) -> Option<Lack>
        requires here { at < length self.now.nodes.items }
        ensures well { IfNone result (IsWell DeadlockFree self.now.space (node_at self.now.nodes.items at)) }
        ensures shows { IfSome result (λ lack. (vs : List ℕ) → Is self.now.space (node_at self.now.nodes.items at) vs → Shows DeadlockFree (bodies_of self.now.space.spec.bodies) (map ev vs) lack) }
    {
        let node = self.nodes[at];
        let all = EventSet::all(self.space.spec().alphabet()).with(Event::Tick);
        if node.set.refuses(&self.space, &all) {
            Some(Lack::Deadlock)
        } else {
            None
        }
    }

    /// The first event that may be taken and may be refused at the node.
    fn choice(&self, at: usize) -> Option<Lack>
        requires here { at < length self.now.nodes.items }
        ensures well { IfNone result (IsWell Deterministic self.now.space (node_at self.now.nodes.items at)) }
        ensures shows { IfSome result (λ lack. (vs : List ℕ) → Is self.now.space (node_at self.now.nodes.items at) vs → Shows Deterministic (bodies_of self.now.space.spec.bodies) (map ev vs) lack) }
    {
        let set = self.nodes[at].set;
        let count = self.space.spec().alphabet().len();
        for number in 0..count {
            let event = Event::Of(number as u8);
            if self.is_choice(set, event) {
                return Some(Lack::Choice(event));
            }
        }
        if self.is_choice(set, Event::Tick) {
            Some(Lack::Choice(Event::Tick))
        } else {
            None
        }
    }

    /// Whether the event may be taken and may be refused after the traces to which the set belongs.
    fn is_choice(&self, set: StateSet, event: Event) -> bool
        ensures { (u : List Event) → Belongs self.now.space set u → IsTrue result ↔ IsChoice (bodies_of self.now.space.spec.bodies) u event }
    {
        if !set.next(&self.space).contains(event) {
            return false;
        }
        set.refuses(&self.space, &EventSet::empty().with(event))
    }
}
