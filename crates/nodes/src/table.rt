//! A table of nodes.

ghost use Rattle.std.specs.Prelude.{◌≡◌, ◌<◌, [], IfOk, length, nat_eq, position};
ghost use Rattle.term.specs.Proc.{stop};
ghost use Rattle.term.specs.Same.{same_pairs};
ghost use Rattle.nodes.specs.Known.{IsKnown};
ghost use Rattle.nodes.specs.Shapes.{at, shape, set_at, relation_at, IsWithin};
ghost use Rattle.nodes.specs.Tables.{HasGrown, IsNumber, NoneTwice, is_relation};

use crate::facts::{
    Facts, of_ext, of_hide, of_int, of_intr, of_name, of_par, of_prefix, of_ren, of_seq, of_skip,
    of_stop,
};
use crate::node::Node;
use alphabet::EventSet;
use indexmap::IndexMap;
use std::alloc::{AllocError, Allocator};
use std::hash::{BuildHasherDefault, FoldHasher};
use std::marker::Model;

type Hashing = BuildHasherDefault<FoldHasher>;

/// The most numbers of a kind.
const NUMBERS: usize = 4_294_967_295;

/// Processes by number: each is a node over the numbers of its parts, with what is known of it, and stands once. Sets of
/// events and relations have numbers of their own.
#[derive(Drop)]
pub struct Table<A: Allocator> {
    sets: Vec<EventSet, A>,
    relations: Vec<Vec<(u8, u8), A>, A>,
    nodes: IndexMap<Node, Facts, Hashing, A>,
    alloc: A,
}

impl<A: Allocator> Model for Table<A> {
    ghost use Rattle.std.specs.Map.{keys_of, values_of};
    ghost use Rattle.nodes.specs.Tables.{IsTable, Tabled, parameters_of, tabled, tabled_code};

    ghost Value = { Tabled };

    ghost coded = { tabled_code };

    ghost view = { λ t. tabled (parameters_of t.sets.items t.relations.items) (keys_of t.nodes.entries) };

    ghost invariant = { λ t. IsTable (parameters_of t.sets.items t.relations.items) (keys_of t.nodes.entries) (values_of t.nodes.entries) };
}

impl<A: Allocator + Copy> Table<A> {
    /// A table without processes, which grows in memory of `alloc`. Takes no memory.
    pub fn new(alloc: A) -> Table<A>
        ensures processes { result.processes ≡ [] }
        ensures sets { result.parameters.sets ≡ [] }
        ensures relations { result.parameters.relations ≡ [] }
    {
        Table {
            sets: Vec::new(alloc),
            relations: Vec::new(alloc),
            nodes: IndexMap::new(alloc),
            alloc,
        }
    }

    /// The number of this relation. Numbers keep what they are of, also where memory is refused. A relation is the `R`
    /// of `P[[R]]`: pairs of numbers of events, first the event of `P` and then what it becomes. One with the same
    /// pairs in the same order has its number already; a new one is copied and gets the next, counted from 0. Costs a
    /// comparison with each relation here. The error is that memory was refused, or that all 4,294,967,295 numbers are
    /// given.
    pub fn put_pairs(&mut self, pairs: &[(u8, u8)]) -> Result<u32, AllocError>
        ensures within { IfOk result (λ n. n < length self.new.parameters.relations) }
        ensures pairs { IfOk result (λ n. relation_at self.new.parameters n ≡ pairs.now) }
        ensures grown { HasGrown self.old self.new }
    {
        if let Some(number) = place_of_pairs(&self.relations, pairs) {
            return Ok(number as u32);
        }
        let number = self.relations.len();
        if number >= NUMBERS {
            return Err(AllocError);
        }
        let kept = pairs.to_vec(self.alloc)?;
        self.relations.push(kept)?;
        Ok(number as u32)
    }

    /// The allocator of what is stored.
    pub(crate) fn allocator(&self) -> A {
        self.alloc
    }
}

impl<A: Allocator> Table<A> {
    /// The number of this node's process. Numbers keep what they are of, also where memory is refused. The node's
    /// parts, its set and its relation are in this table already, so a term is put from its leaves on. A process that
    /// is here keeps its number; a new one gets the next, counted from 0, and what is known of it is found from its
    /// parts. Costs a look-up by hash. The error is that memory was refused, or that all 4,294,967,295 numbers are
    /// given.
    ///
    /// ```text
    /// let stop = table.put(Node::Stop)?;
    /// let first = table.put(Node::Prefix(0, stop))?; // event 0 of Sigma, then `STOP`
    /// let again = table.put(Node::Prefix(0, stop))?; // the number of `first`
    /// ```
    pub fn put(&mut self, node: Node) -> Result<u32, AllocError>
        requires { IsWithin self.old.parameters (length self.old.processes) node }
        ensures number { IfOk result (λ n. IsNumber self.new n (shape self.old.parameters self.old.processes node)) }
        ensures grown { HasGrown self.old self.new }
    {
        if let Some(number) = self.nodes.get_index_of(&node) {
            return Ok(number as u32);
        }
        let number = self.nodes.len();
        if number >= NUMBERS {
            return Err(AllocError);
        }
        let facts = self.facts_of(node);
        self.nodes.insert(node, facts)?;
        Ok(number as u32)
    }

    /// The number of this set of events. Numbers keep what they are of, also where memory is refused.
    pub fn put_set(&mut self, set: EventSet) -> Result<u32, AllocError>
        ensures within { IfOk result (λ n. n < length self.new.parameters.sets) }
        ensures set { IfOk result (λ n. set_at self.new.parameters n ≡ set) }
        ensures grown { HasGrown self.old self.new }
    {
        if let Some(number) = place_of_set(&self.sets, set) {
            return Ok(number as u32);
        }
        let number = self.sets.len();
        if number >= NUMBERS {
            return Err(AllocError);
        }
        self.sets.push(set)?;
        Ok(number as u32)
    }

    /// Different numbers are those of different processes. Does nothing. It is here for proofs: a caller that keeps
    /// each number once in a list learns that each process is there once, and so compares numbers alone. Processes are
    /// compared as terms: two that behave alike but are built in another way have two numbers.
    pub fn once(&self)
        ensures { NoneTwice stop self.now.processes }
    {
        let _ = &self.nodes;
    }

    /// How many processes there are.
    pub fn len(&self) -> u32
        ensures { result ≡ length self.now.processes }
    {
        self.nodes.len() as u32
    }

    /// The node with this number. It is the one that `put` was given: an operator over the numbers of its parts. Those
    /// are smaller than this number, so a walk from a process down to its parts ends. The number is below `len`.
    /// Constant cost; takes no memory.
    pub fn node(&self, number: u32) -> Node
        requires { number < length self.now.processes }
        ensures within { IsWithin self.now.parameters number result }
        ensures shape { at self.now.processes number ≡ shape self.now.parameters self.now.processes result }
    {
        match self.nodes.get_index(number as usize) {
            Some((node, _)) => *node,
            None => Node::Stop,
        }
    }

    /// What is known of the process with this number. It says, before any step is looked for, what `step::offers`,
    /// `step::is_stable` and `step::can_tick` say of a term: which events of Sigma the process offers (never tick),
    /// whether it has no hidden step, whether it can terminate; and its depth. It was found from the parts when the
    /// process was put, so it costs one look-up by place, however large the process is, and no memory. The number is
    /// below `len`.
    pub fn facts(&self, number: u32) -> Facts
        requires { number < length self.now.processes }
        ensures { IsKnown result (at self.now.processes number) }
    {
        self.nodes[number as usize]
    }

    /// The set of events with this number.
    pub fn set(&self, number: u32) -> EventSet
        requires { number < length self.now.parameters.sets }
        ensures { result ≡ set_at self.now.parameters number }
    {
        self.sets[number as usize]
    }

    /// The relation with this number.
    pub fn pairs(&self, number: u32) -> &[(u8, u8)]
        requires { number < length self.now.parameters.relations }
        ensures { result.now ≡ relation_at self.now.parameters number }
    {
        &self.relations[number as usize]
    }

    /// What is known of the node's process, from what is known of its parts.
    fn facts_of(&self, node: Node) -> Facts
        requires { IsWithin self.now.parameters (length self.now.processes) node }
        ensures { IsKnown result (shape self.now.parameters self.now.processes node) }
    {
        match node {
            Node::Stop => of_stop(),
            Node::Skip => of_skip(),
            Node::Prefix(event, p) => of_prefix(event, self.facts(p)),
            Node::Ext(p, q) => of_ext(self.facts(p), self.facts(q)),
            Node::Int(p, q) => of_int(self.facts(p), self.facts(q)),
            Node::Seq(p, q) => of_seq(self.facts(p), self.facts(q)),
            Node::Par(set, p, q) => of_par(self.set(set), self.facts(p), self.facts(q)),
            Node::Hide(set, p) => of_hide(self.set(set), self.facts(p)),
            Node::Ren(relation, p) => of_ren(self.pairs(relation), self.facts(p)),
            Node::Intr(p, q) => of_intr(self.facts(p), self.facts(q)),
            Node::Name(_) => of_name(),
        }
    }
}

/// The place of the set in the list.
fn place_of_set(sets: &[EventSet], set: EventSet) -> Option<usize>
    ensures { result ≡ position (nat_eq set) sets.now }
{
    sets.iter().position(|other| set == *other)
}

/// The place of the relation in the list.
fn place_of_pairs<A: Allocator>(relations: &[Vec<(u8, u8), A>], pairs: &[(u8, u8)]) -> Option<usize>
    ensures { result ≡ position (is_relation pairs.now) relations.now }
{
    relations.iter().position(|other| are_same(pairs, other))
}

/// Whether two relations have the same pairs in the same order.
fn are_same(a: &[(u8, u8)], b: &[(u8, u8)]) -> bool
    ensures { result ≡ same_pairs a.now b.now }
{
    if a.len() != b.len() {
        return false;
    }
    for (x, y) in a.iter().zip(b) {
        if x.0 != y.0 || x.1 != y.1 {
            return false;
        }
    }
    true
}
