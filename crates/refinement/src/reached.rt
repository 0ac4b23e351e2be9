//! Sets of states that a process reaches by events of Sigma.

ghost use Rattle.std.specs.Prelude.{◌≡◌, ◌↔◌, ◌++◌, ◌∷◌, [], ◌<◌, ◌≤◌, IfErr, IfNone, IfOk, IfSome, IsTrue, List, OnOk, ℕ, length, map};
ghost use Rattle.alphabet.specs.declared.events.Event.TheVariants.{Of as ev};
ghost use Rattle.refinement.specs.Nodes.{AreSoundNodes, GrewNodes, HasSet, Is, IsAmong, IsLed, IsTied, no_node, node_at, node_key};
ghost use Rattle.refinement.specs.Places.{ArePlaced, IsFull};
ghost use Rattle.refinement.specs.Properties.{IsUnsettled};

use crate::outcome::Fault;
use alphabet::Event;
use indexmap::IndexMap;
use spaces::{Space, StateSet};
use std::alloc::{AllocError, Allocator};
use std::hash::{BuildHasherDefault, FoldHasher};
use term::Spec;

type Hashing = BuildHasherDefault<FoldHasher>;

/// A set of a trace, and the set and the event of which it came.
#[derive(Clone, Copy)]
pub(crate) struct Node {
    pub(crate) set: StateSet,
    pub(crate) parent: usize,
    pub(crate) event: u8,
}

/// The sets found so far.
#[derive(Drop)]
pub(crate) struct Nodes<A: Allocator> {
    pub(crate) space: Space<A>,
    pub(crate) nodes: Vec<Node, A>,
    // Where a set stands, by its number.
    pub(crate) places: IndexMap<u32, usize, Hashing, A>,
    pub(crate) most: usize,
}

impl<A: Allocator + Copy> Nodes<A> {
    /// No sets yet, and so many at most. Takes no memory.
    pub(crate) fn new(alloc: A, spec: Spec<A>, most: usize) -> Nodes<A>
        ensures spec { result.space.spec ≡ spec }
        ensures empty { result.nodes.items ≡ [] }
        ensures most { result.most ≡ most }
    {
        Nodes {
            space: Space::new(alloc, spec),
            nodes: Vec::new(alloc),
            places: IndexMap::new(alloc),
            most,
        }
    }

    /// Finds the set of the empty trace.
    pub(crate) fn begin(&mut self) -> Result<(), Fault>
        requires { self.old.nodes.items ≡ [] }
        ensures most { self.new.most ≡ self.old.most }
        ensures sound { OnOk result (AreSoundNodes self.new.space self.new.nodes.items self.new.places.entries self.new.most) }
        ensures one { OnOk result (0 < length self.new.nodes.items) }
        ensures spec { self.new.space.spec ≡ self.old.space.spec }
        ensures fault { IfErr result (IsUnsettled self.old.most self.old.space.spec) }
    {
        let set = match StateSet::start(&mut self.space) {
            Ok(set) => set,
            Err(fault) => return Err(Fault::Implementation(fault)),
        };
        self.put(Node {
            set,
            parent: 0,
            event: 0,
        })
    }

    /// Follows the event from the node at this place.
    pub(crate) fn follow(&mut self, at: usize, event: u8) -> Result<(), Fault>
        requires sound { AreSoundNodes self.old.space self.old.nodes.items self.old.places.entries self.old.most }
        requires here { at < length self.old.nodes.items }
        ensures most { self.new.most ≡ self.old.most }
        ensures sound { OnOk result (AreSoundNodes self.new.space self.new.nodes.items self.new.places.entries self.new.most) }
        ensures grown { OnOk result (GrewNodes self.old.space self.old.nodes.items self.new.space self.new.nodes.items) }
        ensures led { OnOk result (IsLed self.new.space self.new.nodes.items (node_at self.old.nodes.items at) event) }
        ensures fault { IfErr result (IsUnsettled self.old.most self.old.space.spec) }
    {
        let node = self.nodes[at];
        let set = match node.set.advance(&mut self.space, Event::Of(event)) {
            Ok(Some(set)) => set,
            Ok(None) => return Ok(()),
            Err(fault) => return Err(Fault::Implementation(fault)),
        };
        self.enter(Node {
            set,
            parent: at,
            event,
        })
    }
}

impl<A: Allocator> Nodes<A> {
    /// Puts the node among the others, unless its set is there.
    fn enter(&mut self, node: Node) -> Result<(), Fault>
        requires sound { AreSoundNodes self.old.space self.old.nodes.items self.old.places.entries self.old.most }
        requires tied { IsTied self.old.space self.old.nodes.items (length self.old.nodes.items) node }
        ensures most { self.new.most ≡ self.old.most }
        ensures sound { OnOk result (AreSoundNodes self.new.space self.new.nodes.items self.new.places.entries self.new.most) }
        ensures found { OnOk result ((vs : List ℕ) → Is self.new.space node vs → IsAmong self.new.space self.new.nodes.items vs) }
        ensures grown { OnOk result (GrewNodes self.old.space self.old.nodes.items self.new.space self.new.nodes.items) }
        ensures space { self.new.space ≡ self.old.space }
        ensures fault { IfErr result (IsUnsettled self.old.most self.old.space.spec) }
    {
        if self.has(node.set) {
            return Ok(());
        }
        self.put(node)
    }

    /// Whether there is a node of this set.
    fn has(&self, set: StateSet) -> bool
        requires { ArePlaced node_key no_node self.now.nodes.items self.now.places.entries }
        ensures { IsTrue result ↔ HasSet self.now.nodes.items set }
    {
        let Some(place) = self.places.get(&set.number()) else {
            return false;
        };
        let place = *place;
        if place >= self.nodes.len() {
            return false;
        }
        let node = self.nodes[place];
        node.set.number() == set.number()
    }

    /// Puts the node behind the others, unless there are as many as are kept.
    fn put(&mut self, node: Node) -> Result<(), Fault>
        requires placed { ArePlaced node_key no_node self.old.nodes.items self.old.places.entries }
        requires fresh { HasSet self.old.nodes.items node.set → ⊥ }
        ensures put { OnOk result (self.new.nodes.items ≡ self.old.nodes.items ++ node ∷ []) }
        ensures placed { OnOk result (ArePlaced node_key no_node self.new.nodes.items self.new.places.entries) }
        ensures few { OnOk result (length self.new.nodes.items ≤ self.old.most) }
        ensures space { self.new.space ≡ self.old.space }
        ensures most { self.new.most ≡ self.old.most }
        ensures full { IfErr result (IsFull (length self.old.nodes.items) self.old.most) }
    {
        let place = self.nodes.len();
        if place >= self.most {
            return Err(Fault::Pairs);
        }
        let key = node.set.number();
        self.nodes.push(node)?;
        self.places.insert(key, place)?;
        Ok(())
    }

    /// The trace by which the node at this place was found.
    pub(crate) fn trace_to(&self, alloc: A, at: usize) -> Result<Vec<Event, A>, AllocError>
        requires sound { AreSoundNodes self.now.space self.now.nodes.items self.now.places.entries self.now.most }
        requires here { at < length self.now.nodes.items }
        ensures { IfOk result (λ trace. (vs : List ℕ) × (trace.items ≡ map ev vs) × Is self.now.space (node_at self.now.nodes.items at) vs) }
    {
        let mut trace = Vec::new(alloc);
        let mut place = at;
        while place > 0 {
            let node = self.nodes[place];
            trace.push(Event::Of(node.event))?;
            place = node.parent;
        }
        trace.reverse();
        Ok(trace)
    }
}
