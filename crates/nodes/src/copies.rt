//! Processes of a table that are put into another one.

ghost use Rattle.std.specs.Prelude.{◌≡◌, ◌<◌, ℕ, List, IfOk, IfSome, Some, length};
ghost use Rattle.term.specs.Proc.{Proc};
ghost use Rattle.nodes.specs.Copies.{ArePlaces};
ghost use Rattle.nodes.specs.Looks.{look, AllBelow};
ghost use Rattle.nodes.specs.Shapes.{Parameters, at, shape, IsWithin};
ghost use Rattle.nodes.specs.Tables.{HasGrown, IsNumber, Tabled};

use crate::node::Node;
use crate::table::Table;
use std::alloc::{AllocError, Allocator};

impl<A: Allocator + Copy> Table<A> {
    /// Puts the processes that have these numbers in another table here, and gives their numbers here, in the same order.
    pub fn put_from<B: Allocator>(
        &mut self,
        other: &Table<B>,
        numbers: &[u32],
    ) -> Result<Vec<u32, A>, AllocError>
        requires { AllBelow (length other.now.processes) numbers.now }
        ensures below { IfOk result (λ ns. AllBelow (length self.new.processes) ns.items) }
        ensures same { IfOk result (λ ns. look self.new.processes ns.items ≡ look other.now.processes numbers.now) }
        ensures grown { HasGrown self.old self.new }
    {
        let wanted = self.wanted(other, numbers)?;
        let places = self.put_wanted(other, &wanted)?;
        self.numbers_at(&places, numbers)
    }

    /// Which processes of the other table these are made of, by their numbers.
    fn wanted<B: Allocator>(
        &self,
        other: &Table<B>,
        numbers: &[u32],
    ) -> Result<Vec<bool, A>, AllocError> {
        let mut wanted = vec![in self.allocator(); false; other.len() as usize]?;
        for number in numbers {
            set_wanted(&mut wanted, *number);
        }
        set_all_parts_wanted(&mut wanted, other);
        Ok(wanted)
    }

    /// Puts the wanted processes of the other table here, and gives the number of each here, by its number there.
    fn put_wanted<B: Allocator>(
        &mut self,
        other: &Table<B>,
        wanted: &[bool],
    ) -> Result<Vec<Option<u32>, A>, AllocError>
        ensures places { IfOk result (λ places. ArePlaces self.new other.now.processes places.items) }
        ensures grown { HasGrown self.old self.new }
    {
        let mut places = Vec::new(self.allocator());
        for number in 0..other.len() {
            let place = self.put_copy(other, number, wanted, &places)?;
            places.push(place)?;
        }
        Ok(places)
    }

    /// The number here of the process that has this one in the other table, where it is wanted. Its parts have places.
    fn put_copy<B: Allocator>(
        &mut self,
        other: &Table<B>,
        number: u32,
        wanted: &[bool],
        places: &[Option<u32>],
    ) -> Result<Option<u32>, AllocError>
        requires number { number < length other.now.processes }
        requires places { ArePlaces self.old other.now.processes places.now }
        ensures number { IfOk result (λ place. (n : ℕ) → place ≡ Some n → IsNumber self.new n (at other.now.processes number)) }
        ensures grown { HasGrown self.old self.new }
    {
        if !is_wanted(wanted, number) {
            return Ok(None);
        }
        let node = self.copy_of(other, other.node(number), places)?;
        let copy = self.put(node)?;
        Ok(Some(copy))
    }

    /// The node here of this one's process in the other table. Refused where one of its parts has no place.
    fn copy_of<B: Allocator>(
        &mut self,
        other: &Table<B>,
        node: Node,
        places: &[Option<u32>],
    ) -> Result<Node, AllocError>
        requires node { IsWithin other.now.parameters (length other.now.processes) node }
        requires places { ArePlaces self.old other.now.processes places.now }
        ensures within { IfOk result (λ copy. IsWithin self.new.parameters (length self.new.processes) copy) }
        ensures shape { IfOk result (λ copy. shape self.new.parameters self.new.processes copy ≡ shape other.now.parameters other.now.processes node) }
        ensures grown { HasGrown self.old self.new }
    {
        match with_parts_at(places, node) {
            Some(moved) => self.with_own_parameters(other, moved),
            None => Err(AllocError),
        }
    }

    /// The node of the other table, whose parts are numbers here already, with the set or the relation by its number here.
    fn with_own_parameters<B: Allocator>(
        &mut self,
        other: &Table<B>,
        node: Node,
    ) -> Result<Node, AllocError>
        requires node { IsWithin other.now.parameters (length self.old.processes) node }
        ensures within { IfOk result (λ copy. IsWithin self.new.parameters (length self.new.processes) copy) }
        ensures shape { IfOk result (λ copy. shape self.new.parameters self.new.processes copy ≡ shape other.now.parameters self.old.processes node) }
        ensures grown { HasGrown self.old self.new }
    {
        match node {
            Node::Par(set, p, q) => match self.put_set(other.set(set)) {
                Ok(set) => Ok(Node::Par(set, p, q)),
                Err(refused) => Err(refused),
            },
            Node::Hide(set, p) => match self.put_set(other.set(set)) {
                Ok(set) => Ok(Node::Hide(set, p)),
                Err(refused) => Err(refused),
            },
            Node::Ren(relation, p) => match self.put_pairs(other.pairs(relation)) {
                Ok(relation) => Ok(Node::Ren(relation, p)),
                Err(refused) => Err(refused),
            },
            Node::Stop
            | Node::Skip
            | Node::Name(_)
            | Node::Prefix(_, _)
            | Node::Ext(_, _)
            | Node::Int(_, _)
            | Node::Seq(_, _)
            | Node::Intr(_, _) => Ok(node),
        }
    }

    /// The numbers at these places.
    fn numbers_at(&self, places: &[Option<u32>], numbers: &[u32]) -> Result<Vec<u32, A>, AllocError>
        ensures below { IfOk result (λ ns. (ps : List Proc) → ArePlaces self.now ps places.now → AllBelow (length self.now.processes) ns.items) }
        ensures same { IfOk result (λ ns. (ps : List Proc) → ArePlaces self.now ps places.now → look self.now.processes ns.items ≡ look ps numbers.now) }
    {
        let mut found = Vec::new(self.allocator());
        for number in numbers {
            let Some(place) = place(places, *number) else {
                return Err(AllocError);
            };
            found.push(place)?;
        }
        Ok(found)
    }
}

/// The number at this place. There is none only where no wanted process has the part.
fn place(places: &[Option<u32>], number: u32) -> Option<u32>
    ensures { IfSome result (λ n. (t : Tabled) (ps : List Proc) → ArePlaces t ps places.now → IsNumber t n (at ps number)) }
{
    match places.get(number as usize) {
        Some(place) => *place,
        None => None,
    }
}

/// The numbers at these two places.
fn both(places: &[Option<u32>], first: u32, second: u32) -> Option<(u32, u32)>
    ensures first { IfSome result (λ two. (t : Tabled) (ps : List Proc) → ArePlaces t ps places.now → IsNumber t two.0 (at ps first)) }
    ensures second { IfSome result (λ two. (t : Tabled) (ps : List Proc) → ArePlaces t ps places.now → IsNumber t two.1 (at ps second)) }
{
    match (place(places, first), place(places, second)) {
        (Some(first), Some(second)) => Some((first, second)),
        _ => None,
    }
}

/// The node with the numbers of its parts at these places; none where a part has no place.
fn with_parts_at(places: &[Option<u32>], node: Node) -> Option<Node>
    ensures within { IfSome result (λ moved. (S : Parameters) (t : Tabled) (ps : List Proc) → ArePlaces t ps places.now → IsWithin S (length ps) node → IsWithin S (length t.processes) moved) }
    ensures shape { IfSome result (λ moved. (S : Parameters) (t : Tabled) (ps : List Proc) → ArePlaces t ps places.now → shape S t.processes moved ≡ shape S ps node) }
{
    match node {
        Node::Stop | Node::Skip | Node::Name(_) => Some(node),
        Node::Prefix(event, p) => match place(places, p) {
            Some(p) => Some(Node::Prefix(event, p)),
            None => None,
        },
        Node::Hide(set, p) => match place(places, p) {
            Some(p) => Some(Node::Hide(set, p)),
            None => None,
        },
        Node::Ren(relation, p) => match place(places, p) {
            Some(p) => Some(Node::Ren(relation, p)),
            None => None,
        },
        Node::Ext(p, q) => match both(places, p, q) {
            Some((p, q)) => Some(Node::Ext(p, q)),
            None => None,
        },
        Node::Int(p, q) => match both(places, p, q) {
            Some((p, q)) => Some(Node::Int(p, q)),
            None => None,
        },
        Node::Seq(p, q) => match both(places, p, q) {
            Some((p, q)) => Some(Node::Seq(p, q)),
            None => None,
        },
        Node::Par(set, p, q) => match both(places, p, q) {
            Some((p, q)) => Some(Node::Par(set, p, q)),
            None => None,
        },
        Node::Intr(p, q) => match both(places, p, q) {
            Some((p, q)) => Some(Node::Intr(p, q)),
            None => None,
        },
    }
}

/// Whether the process with this number is wanted.
fn is_wanted(wanted: &[bool], number: u32) -> bool {
    match wanted.get(number as usize) {
        Some(test) => *test,
        None => false,
    }
}

/// The process with this number is wanted.
fn set_wanted(wanted: &mut [bool], number: u32) {
    if let Some(test) = wanted.get_mut(number as usize) {
        *test = true;
    }
}

/// What the wanted processes of the table are made of is wanted too: parts have smaller numbers than what they are parts of.
fn set_all_parts_wanted<A: Allocator>(wanted: &mut [bool], table: &Table<A>) {
    for number in (0..table.len()).rev() {
        if is_wanted(wanted, number) {
            set_parts_wanted(wanted, table.node(number));
        }
    }
}

/// The node's parts are wanted.
fn set_parts_wanted(wanted: &mut [bool], node: Node) {
    match node {
        Node::Stop | Node::Skip | Node::Name(_) => {}
        Node::Prefix(_, p) | Node::Hide(_, p) | Node::Ren(_, p) => set_wanted(wanted, p),
        Node::Ext(p, q)
        | Node::Int(p, q)
        | Node::Seq(p, q)
        | Node::Par(_, p, q)
        | Node::Intr(p, q) => {
            set_wanted(wanted, p);
            set_wanted(wanted, q);
        }
    }
}
