//! What a process becomes by a hidden step, from what its parts become.

ghost use Rattle.std.specs.Prelude.{OnOk, ◌≡◌, ◌<◌, ◌⊎◌, [], ℕ, List, length, map};
ghost use Rattle.term.specs.Proc.{Proc, seq};
ghost use Rattle.term.specs.Steps.{Hid};
ghost use Rattle.targets.specs.Among.{Joined};
ghost use Rattle.targets.specs.Cuts.{CutOf};
ghost use Rattle.nodes.specs.Shapes.{at, shape, IsWithin};
ghost use Rattle.nodes.specs.Looks.{look, around, AllBelow, AreHidsOfParts, IsCutIn, IsPlaceIn, OrEnd};
ghost use Rattle.nodes.specs.Tables.{HasGrown};

use crate::node::Node;
use crate::places::Place;
use crate::table::Table;
use std::alloc::{AllocError, Allocator};

impl<A: Allocator> Table<A> {
    /// Appends to the empty list the numbers of what the node's process becomes by a hidden step, each once: of all of it,
    /// or of more than `most`. The other lists have what its parts become by one, each once and as far as the bound: for a
    /// parallel with `SKIP` for each side that can end, for a hiding with what the part becomes by the hidden events, and
    /// for a name its body.
    pub fn put_hids(
        &mut self,
        node: Node,
        lefts: &[u32],
        rights: &[u32],
        most: usize,
        into: &mut Vec<u32, A>,
    ) -> Result<(), AllocError>
        requires within { IsWithin self.old.parameters (length self.old.processes) node }
        requires lefts { AllBelow (length self.old.processes) lefts.now }
        requires rights { AllBelow (length self.old.processes) rights.now }
        requires empty { into.old.items ≡ [] }
        ensures cut { OnOk result ((B : ℕ → Proc) → AreHidsOfParts self.old B node most lefts.now rights.now → IsCutIn self.new (Hid B (shape self.old.parameters self.old.processes node)) most into.new.items) }
        ensures grown { HasGrown self.old self.new }
    {
        match node {
            Node::Stop | Node::Skip | Node::Prefix(_, _) => Ok(()),
            Node::Ext(p, q) => {
                self.put_two(
                    Place::ExtLeft(q),
                    Place::ExtRight(p),
                    lefts,
                    rights,
                    most,
                    into,
                )
            }
            Node::Int(p, q) => self.put_int(p, q, most, into),
            Node::Seq(p, q) => self.put_seq(p, q, lefts, most, into),
            Node::Par(set, p, q) => {
                self.put_two(
                    Place::ParLeft(set, q),
                    Place::ParRight(set, p),
                    lefts,
                    rights,
                    most,
                    into,
                )
            }
            Node::Hide(set, _) => self.put_each(Place::Hide(set), lefts, most, into),
            Node::Ren(relation, _) => self.put_each(Place::Ren(relation), lefts, most, into),
            Node::Intr(p, q) => {
                self.put_two(
                    Place::IntrLeft(q),
                    Place::IntrRight(p),
                    lefts,
                    rights,
                    most,
                    into,
                )
            }
            Node::Name(_) => self.join(lefts, most, into),
        }
    }

    /// Appends `SKIP` to what this side of a parallel becomes by a hidden step, where the side can terminate and isn't
    /// `SKIP` itself, unless it is in the list or there are more than `most`.
    pub fn put_end(
        &mut self,
        side: u32,
        most: usize,
        into: &mut Vec<u32, A>,
    ) -> Result<(), AllocError>
        requires side { side < length self.old.processes }
        requires here { AllBelow (length self.old.processes) into.old.items }
        ensures here { OnOk result (AllBelow (length self.new.processes) into.new.items) }
        ensures cut { OnOk result ((B : ℕ → Proc) → CutOf (Hid B (at self.old.processes side)) most (look self.old.processes into.old.items) → CutOf (OrEnd (Hid B (at self.old.processes side)) (at self.old.processes side)) most (look self.new.processes into.new.items)) }
        ensures grown { HasGrown self.old self.new }
    {
        let facts = self.facts(side);
        let ends = facts.ticks & !facts.skip;
        if ends {
            let skip = self.put(Node::Skip)?;
            self.add(skip, most, into)?;
        }
        Ok(())
    }

    /// Puts the left parts in the left place and the right ones in the right place, and appends those that aren't in the
    /// list, as long as there are no more than `most`.
    fn put_two(
        &mut self,
        left: Place,
        right: Place,
        lefts: &[u32],
        rights: &[u32],
        most: usize,
        into: &mut Vec<u32, A>,
    ) -> Result<(), AllocError>
        requires left { IsPlaceIn self.old left }
        requires right { IsPlaceIn self.old right }
        requires lefts { AllBelow (length self.old.processes) lefts.now }
        requires rights { AllBelow (length self.old.processes) rights.now }
        requires here { AllBelow (length self.old.processes) into.old.items }
        ensures here { OnOk result (AllBelow (length self.new.processes) into.new.items) }
        ensures joined { OnOk result ((middle : List Proc) × Joined most (look self.old.processes into.old.items) (map (around self.old left) (look self.old.processes lefts.now)) middle × Joined most middle (map (around self.old right) (look self.old.processes rights.now)) (look self.new.processes into.new.items)) }
        ensures grown { HasGrown self.old self.new }
    {
        self.put_each(left, lefts, most, into)?;
        self.put_each(right, rights, most, into)?;
        Ok(())
    }

    /// Both parts of an internal choice.
    fn put_int(&self, p: u32, q: u32, most: usize, into: &mut Vec<u32, A>) -> Result<(), AllocError>
        requires left { p < length self.now.processes }
        requires right { q < length self.now.processes }
        requires empty { into.old.items ≡ [] }
        ensures here { OnOk result (AllBelow (length self.now.processes) into.new.items) }
        ensures cut { OnOk result (CutOf (λ R. (R ≡ at self.now.processes p) ⊎ (R ≡ at self.now.processes q)) most (look self.now.processes into.new.items)) }
    {
        self.add(p, most, into)?;
        self.add(q, most, into)?;
        Ok(())
    }

    /// The same for a sequence of the processes with the numbers `p` and `q`.
    fn put_seq(
        &mut self,
        p: u32,
        q: u32,
        parts: &[u32],
        most: usize,
        into: &mut Vec<u32, A>,
    ) -> Result<(), AllocError>
        requires first { p < length self.old.processes }
        requires second { q < length self.old.processes }
        requires parts { AllBelow (length self.old.processes) parts.now }
        requires empty { into.old.items ≡ [] }
        ensures here { OnOk result (AllBelow (length self.new.processes) into.new.items) }
        ensures cut { OnOk result ((B : ℕ → Proc) → CutOf (Hid B (at self.old.processes p)) most (look self.old.processes parts.now) → CutOf (Hid B (seq (at self.old.processes p) (at self.old.processes q))) most (look self.new.processes into.new.items)) }
        ensures grown { HasGrown self.old self.new }
    {
        let ends = self.facts(p).ticks;
        self.put_each(Place::SeqLeft(q), parts, most, into)?;
        if ends {
            self.add(q, most, into)?;
        }
        Ok(())
    }
}
