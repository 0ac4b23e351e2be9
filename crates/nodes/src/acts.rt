//! What a process becomes by an event of Sigma, from what its parts become.

ghost use Rattle.std.specs.Prelude.{OnOk, ◌≡◌, ◌<◌, ◌∷◌, [], ℕ, length, nat_eq};
ghost use Rattle.term.specs.Proc.{Proc, ext, hide, intr, par};
ghost use Rattle.term.specs.Steps.{Act};
ghost use Rattle.targets.specs.Targets.{where_};
ghost use Rattle.targets.specs.Cuts.{CutOf};
ghost use Rattle.nodes.specs.Shapes.{at, set_at, shape, IsWithin};
ghost use Rattle.nodes.specs.Looks.{look, AllBelow, AreActsOfParts, IsCutIn};
ghost use Rattle.nodes.specs.Tables.{HasGrown};

use crate::node::Node;
use crate::places::Place;
use crate::table::Table;
use alphabet::Event;
use std::alloc::{AllocError, Allocator};

impl<A: Allocator> Table<A> {
    /// Appends to the empty list the numbers of what the node's process becomes by the event, each once: of all of it, or
    /// of more than `most`. The other lists have what its parts become by the event, each once and as far as the bound;
    /// under a renaming what the part becomes by the events that are taken to this one.
    pub fn put_acts(
        &mut self,
        node: Node,
        event: u8,
        lefts: &[u32],
        rights: &[u32],
        most: usize,
        into: &mut Vec<u32, A>,
    ) -> Result<(), AllocError>
        requires within { IsWithin self.old.parameters (length self.old.processes) node }
        requires parts { AreActsOfParts self.old node event most lefts.now rights.now }
        requires empty { into.old.items ≡ [] }
        ensures cut { OnOk result (IsCutIn self.new (Act (shape self.old.parameters self.old.processes node) event) most into.new.items) }
        ensures grown { HasGrown self.old self.new }
    {
        match node {
            Node::Stop | Node::Skip | Node::Int(_, _) | Node::Name(_) => Ok(()),
            Node::Prefix(first, p) => put_single(first == event, p, into),
            Node::Ext(_, _) => self.put_ext(lefts, rights, most, into),
            Node::Seq(_, q) => self.put_each(Place::SeqLeft(q), lefts, most, into),
            Node::Par(set, p, q) => self.put_par(set, p, q, event, lefts, rights, most, into),
            Node::Hide(set, _) => self.put_hide(set, event, lefts, most, into),
            Node::Ren(relation, _) => self.put_each(Place::Ren(relation), lefts, most, into),
            Node::Intr(_, q) => self.put_intr(q, lefts, rights, most, into),
        }
    }

    /// The same for an external choice.
    fn put_ext(
        &self,
        lefts: &[u32],
        rights: &[u32],
        most: usize,
        into: &mut Vec<u32, A>,
    ) -> Result<(), AllocError>
        requires lefts { AllBelow (length self.now.processes) lefts.now }
        requires rights { AllBelow (length self.now.processes) rights.now }
        requires empty { into.old.items ≡ [] }
        ensures here { OnOk result (AllBelow (length self.now.processes) into.new.items) }
        ensures cut { OnOk result ((P Q : Proc) (a : ℕ) → CutOf (Act P a) most (look self.now.processes lefts.now) → CutOf (Act Q a) most (look self.now.processes rights.now) → CutOf (Act (ext P Q) a) most (look self.now.processes into.new.items)) }
    {
        self.join(lefts, most, into)?;
        self.join(rights, most, into)?;
        Ok(())
    }

    /// The same for an interrupt by the process with the number `q`.
    fn put_intr(
        &mut self,
        q: u32,
        lefts: &[u32],
        rights: &[u32],
        most: usize,
        into: &mut Vec<u32, A>,
    ) -> Result<(), AllocError>
        requires right { q < length self.old.processes }
        requires lefts { AllBelow (length self.old.processes) lefts.now }
        requires rights { AllBelow (length self.old.processes) rights.now }
        requires empty { into.old.items ≡ [] }
        ensures here { OnOk result (AllBelow (length self.new.processes) into.new.items) }
        ensures cut { OnOk result ((P Q : Proc) (a : ℕ) → Q ≡ at self.old.processes q → CutOf (Act P a) most (look self.old.processes lefts.now) → CutOf (Act Q a) most (look self.old.processes rights.now) → CutOf (Act (intr P Q) a) most (look self.new.processes into.new.items)) }
        ensures grown { HasGrown self.old self.new }
    {
        self.put_each(Place::IntrLeft(q), lefts, most, into)?;
        self.join(rights, most, into)?;
        Ok(())
    }

    /// The same for a parallel over the set of the processes with the numbers `p` and `q`.
    fn put_par(
        &mut self,
        set: u32,
        p: u32,
        q: u32,
        event: u8,
        lefts: &[u32],
        rights: &[u32],
        most: usize,
        into: &mut Vec<u32, A>,
    ) -> Result<(), AllocError>
        requires set { set < length self.old.parameters.sets }
        requires left { p < length self.old.processes }
        requires right { q < length self.old.processes }
        requires lefts { IsCutIn self.old (Act (at self.old.processes p) event) most lefts.now }
        requires rights { IsCutIn self.old (Act (at self.old.processes q) event) most rights.now }
        requires empty { into.old.items ≡ [] }
        ensures cut { OnOk result (IsCutIn self.new (Act (par (set_at self.old.parameters set) (at self.old.processes p) (at self.old.processes q)) event) most into.new.items) }
        ensures grown { HasGrown self.old self.new }
    {
        if self.set(set).contains(Event::Of(event)) {
            self.put_parallels(set, lefts, rights, most, into)?;
            return Ok(());
        }
        self.put_each(Place::ParLeft(set, q), lefts, most, into)?;
        self.put_each(Place::ParRight(set, p), rights, most, into)?;
        Ok(())
    }

    /// The same for a hiding of the set.
    fn put_hide(
        &mut self,
        set: u32,
        event: u8,
        parts: &[u32],
        most: usize,
        into: &mut Vec<u32, A>,
    ) -> Result<(), AllocError>
        requires set { set < length self.old.parameters.sets }
        requires parts { AllBelow (length self.old.processes) parts.now }
        requires empty { into.old.items ≡ [] }
        ensures here { OnOk result (AllBelow (length self.new.processes) into.new.items) }
        ensures cut { OnOk result ((P : Proc) → CutOf (Act P event) most (look self.old.processes parts.now) → CutOf (Act (hide (set_at self.old.parameters set) P) event) most (look self.new.processes into.new.items)) }
        ensures grown { HasGrown self.old self.new }
    {
        if self.set(set).contains(Event::Of(event)) {
            return Ok(());
        }
        self.put_each(Place::Hide(set), parts, most, into)?;
        Ok(())
    }
}

/// Appends the number to the empty list, where the test holds.
fn put_single<A: Allocator>(
    test: bool,
    number: u32,
    into: &mut Vec<u32, A>,
) -> Result<(), AllocError>
    requires { into.old.items ≡ [] }
    ensures { OnOk result (into.new.items ≡ where_ test (number ∷ [])) }
{
    if test {
        into.push(number)?;
    }
    Ok(())
}
