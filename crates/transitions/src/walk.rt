//! What processes become by steps: the walk over their parts.

ghost use Rattle.std.specs.Prelude.{◌≡◌, ◌↔◌, ◌<◌, ◌⊎◌, ◌++◌, ◌∷◌, [], ℕ, List, IfOk, OnOk, length, true, false};
ghost use Rattle.alphabet.specs.EventSets.{has};
ghost use Rattle.alphabet.specs.declared.events.Event.TheVariants.{Tick as tick, Of as ev};
ghost use Rattle.term.specs.Proc.{Proc, bodies_of};
ghost use Rattle.term.specs.Steps.{Act, Hid};
ghost use Rattle.targets.specs.declared.labels.Label.TheVariants as label;
ghost use Rattle.targets.specs.HiddenSets.{SetsBelow};
ghost use Rattle.targets.specs.Labels.{Step};
ghost use Rattle.targets.specs.Targets.{sources};
ghost use Rattle.targets.specs.Among.{ActsIn};
ghost use Rattle.nodes.specs.Shapes.{at, relation_at, set_at, shape, IsWithin};
ghost use Rattle.nodes.specs.Looks.{ActsBy, AllBelow, AreActsOfParts, AreHidsOfParts, IsCutIn, OrEnd};
ghost use Rattle.transitions.specs.Numbered.{AreCutTargets, AreTargets, HidesEvents, KeepsNumbers};

use crate::events::events_in;
use crate::transitions::{MOST_STATES, Transitions};
use alphabet::Event;
use nodes::Node;
use std::alloc::{AllocError, Allocator};
use targets::Label;

impl<A: Allocator + Copy> Transitions<A> {
    /// Appends to the empty list the numbers of what the process becomes by a step with this label, each once: of all of
    /// it, or of more than a set of states may have. Numbers keep what they are of, also where memory is refused. What was
    /// asked of parts is remembered, and what the process becomes by hidden steps. What it becomes by an event isn't: most
    /// members of a set of states are asked once, and what comes of the set is remembered.
    pub fn put_targets(
        &mut self,
        number: u32,
        label: Label,
        into: &mut Vec<u32, A>,
    ) -> Result<(), AllocError>
        requires number { number < length self.old.table.processes }
        requires hides { HidesEvents self.old number }
        requires empty { into.old.items ≡ [] }
        ensures targets { OnOk result (AreTargets self.new number label into.new.items) }
        ensures kept { KeepsNumbers self.old self.new }
    {
        self.put_targets_within(number, label, MOST_STATES, into)
    }

    /// As `put_targets`, with a bound of the caller's: the numbers of all that the process becomes, or of more than `most`.
    /// With the greatest `usize` these are all, since no list is longer. What is remembered goes as far as a set of states
    /// may: it is taken here where it is whole, or where `most` asks for no more.
    pub fn put_targets_within(
        &mut self,
        number: u32,
        label: Label,
        most: usize,
        into: &mut Vec<u32, A>,
    ) -> Result<(), AllocError>
        requires number { number < length self.old.table.processes }
        requires hides { HidesEvents self.old number }
        requires empty { into.old.items ≡ [] }
        ensures targets { OnOk result (AreCutTargets self.new number label most into.new.items) }
        ensures kept { KeepsNumbers self.old self.new }
    {
        match label {
            Label::Tau => self.put_part_targets(number, label, most, into),
            Label::Event(_) => self.put_new_targets(number, label, most, into),
        }
    }

    /// What the process becomes by a step with this label, which isn't remembered.
    fn put_new_targets(
        &mut self,
        number: u32,
        label: Label,
        most: usize,
        into: &mut Vec<u32, A>,
    ) -> Result<(), AllocError>
        requires number { number < length self.old.table.processes }
        requires hides { HidesEvents self.old number }
        requires empty { into.old.items ≡ [] }
        ensures targets { OnOk result (AreCutTargets self.new number label most into.new.items) }
        ensures kept { KeepsNumbers self.old self.new }
    {
        if !self.may_step(number, label) {
            return Ok(());
        }
        self.find(number, label, most, into)
    }

    /// The same of a part. What was asked before is remembered, but for what a node without parts becomes.
    #[cycle(put_part_targets)]
    fn put_part_targets(
        &mut self,
        number: u32,
        label: Label,
        most: usize,
        into: &mut Vec<u32, A>,
    ) -> Result<(), AllocError>
        requires number { number < length self.old.table.processes }
        requires hides { HidesEvents self.old number }
        requires empty { into.old.items ≡ [] }
        ensures targets { OnOk result (AreCutTargets self.new number label most into.new.items) }
        ensures kept { KeepsNumbers self.old self.new }
    {
        if !self.may_step(number, label) {
            return Ok(());
        }
        if !has_parts(self.node(number)) {
            return self.find(number, label, most, into);
        }
        if let Some(found) = self.found(number, label, most) {
            return into.extend_from_slice(found);
        }
        self.find(number, label, most, into)?;
        self.remember(number, label, most, into);
        Ok(())
    }

    /// Whether the process may have a step with this label.
    fn may_step(&self, number: u32, label: Label) -> bool
        requires { number < length self.now.table.processes }
        ensures { result ≡ false → (Q : Proc) → Step (bodies_of self.now.bodies) (at self.now.table.processes number) label Q → ⊥ }
    {
        let facts = self.facts(number);
        match label {
            Label::Tau => !facts.rests,
            Label::Event(Event::Of(event)) => facts.offers.contains(Event::Of(event)),
            Label::Event(Event::Tick) => facts.ticks,
        }
    }

    /// The same without what is remembered of this step.
    #[cycle(put_part_targets)]
    fn find(
        &mut self,
        number: u32,
        label: Label,
        most: usize,
        into: &mut Vec<u32, A>,
    ) -> Result<(), AllocError>
        requires number { number < length self.old.table.processes }
        requires hides { HidesEvents self.old number }
        requires empty { into.old.items ≡ [] }
        ensures targets { OnOk result (AreCutTargets self.new number label most into.new.items) }
        ensures kept { KeepsNumbers self.old self.new }
    {
        match label {
            Label::Tau => self.find_hidden(number, most, into),
            Label::Event(Event::Of(event)) => self.find_acts(number, event, most, into),
            Label::Event(Event::Tick) => self.find_end(number, into),
        }
    }

    /// What the process becomes by its termination.
    fn find_end(&mut self, number: u32, into: &mut Vec<u32, A>) -> Result<(), AllocError>
        requires number { number < length self.old.table.processes }
        requires empty { into.old.items ≡ [] }
        ensures targets { OnOk result ((most : ℕ) → AreCutTargets self.new number (label.Event tick) most into.new.items) }
        ensures kept { KeepsNumbers self.old self.new }
    {
        if !self.facts(number).ticks {
            return Ok(());
        }
        let stop = self.put(Node::Stop)?;
        into.push(stop)?;
        Ok(())
    }

    /// What the process becomes by the event.
    #[cycle(put_part_targets)]
    fn find_acts(
        &mut self,
        number: u32,
        event: u8,
        most: usize,
        into: &mut Vec<u32, A>,
    ) -> Result<(), AllocError>
        requires number { number < length self.old.table.processes }
        requires hides { HidesEvents self.old number }
        requires empty { into.old.items ≡ [] }
        ensures targets { OnOk result (AreCutTargets self.new number (label.Event (ev event)) most into.new.items) }
        ensures kept { KeepsNumbers self.old self.new }
    {
        let node = self.node(number);
        let mut lefts = self.list();
        let mut rights = self.list();
        self.act_parts(number, node, event, most, &mut lefts, &mut rights)?;
        self.put_acts(node, event, &lefts, &rights, most, into)
    }

    /// What the node's parts become by the event; under a renaming what the part becomes by the events that are taken to
    /// this one. The parts have numbers below `number`.
    #[cycle(put_part_targets)]
    fn act_parts(
        &mut self,
        number: u32,
        node: Node,
        event: u8,
        most: usize,
        lefts: &mut Vec<u32, A>,
        rights: &mut Vec<u32, A>,
    ) -> Result<(), AllocError>
        requires number { number < length self.old.table.processes }
        requires within { IsWithin self.old.table.parameters number node }
        requires hides { SetsBelow 256 (shape self.old.table.parameters self.old.table.processes node) }
        requires lefts { lefts.old.items ≡ [] }
        requires rights { rights.old.items ≡ [] }
        ensures parts { OnOk result (AreActsOfParts self.new.table node event most lefts.new.items rights.new.items) }
        ensures kept { KeepsNumbers self.old self.new }
    {
        let label = Label::Event(Event::Of(event));
        match node {
            Node::Ext(p, q) | Node::Par(_, p, q) | Node::Intr(p, q) => {
                self.put_both(p, q, label, most, lefts, rights)
            }
            Node::Seq(p, _) | Node::Hide(_, p) => self.put_part_targets(p, label, most, lefts),
            Node::Ren(relation, p) => self.put_renamed(relation, p, event, most, lefts),
            Node::Stop | Node::Skip | Node::Prefix(_, _) | Node::Int(_, _) | Node::Name(_) => Ok(
                (),
            ),
        }
    }

    /// What both processes become by a step with this label.
    #[cycle(put_part_targets)]
    fn put_both(
        &mut self,
        p: u32,
        q: u32,
        label: Label,
        most: usize,
        lefts: &mut Vec<u32, A>,
        rights: &mut Vec<u32, A>,
    ) -> Result<(), AllocError>
        requires left { p < length self.old.table.processes }
        requires right { q < length self.old.table.processes }
        requires left_hides { HidesEvents self.old p }
        requires right_hides { HidesEvents self.old q }
        requires lefts { lefts.old.items ≡ [] }
        requires rights { rights.old.items ≡ [] }
        ensures lefts { OnOk result (AreCutTargets self.new p label most lefts.new.items) }
        ensures rights { OnOk result (AreCutTargets self.new q label most rights.new.items) }
        ensures kept { KeepsNumbers self.old self.new }
    {
        self.put_part_targets(p, label, most, lefts)?;
        self.put_part_targets(q, label, most, rights)
    }

    /// What the process becomes by the events that the renaming takes to this one.
    #[cycle(put_part_targets)]
    fn put_renamed(
        &mut self,
        relation: u32,
        p: u32,
        event: u8,
        most: usize,
        into: &mut Vec<u32, A>,
    ) -> Result<(), AllocError>
        requires relation { relation < length self.old.table.parameters.relations }
        requires part { p < length self.old.table.processes }
        requires hides { HidesEvents self.old p }
        requires empty { into.old.items ≡ [] }
        ensures cut { OnOk result (IsCutIn self.new.table (ActsBy (sources (relation_at self.new.table.parameters relation) event) (at self.new.table.processes p)) most into.new.items) }
        ensures kept { KeepsNumbers self.old self.new }
    {
        let events = self.sources(relation, event)?;
        self.put_each(p, &events, most, into)
    }

    /// What the process becomes by one of these events.
    #[cycle(put_part_targets)]
    fn put_each(
        &mut self,
        p: u32,
        events: &[u8],
        most: usize,
        into: &mut Vec<u32, A>,
    ) -> Result<(), AllocError>
        requires part { p < length self.old.table.processes }
        requires hides { HidesEvents self.old p }
        requires empty { into.old.items ≡ [] }
        ensures cut { OnOk result (IsCutIn self.new.table (ActsBy events.now (at self.new.table.processes p)) most into.new.items) }
        ensures kept { KeepsNumbers self.old self.new }
    {
        for event in events {
            self.join_acts(p, *event, most, into)?;
        }
        Ok(())
    }

    /// Joins what the process becomes by the event to what it becomes by others.
    #[cycle(put_part_targets)]
    fn join_acts(
        &mut self,
        p: u32,
        event: u8,
        most: usize,
        into: &mut Vec<u32, A>,
    ) -> Result<(), AllocError>
        requires part { p < length self.old.table.processes }
        requires hides { HidesEvents self.old p }
        requires here { AllBelow (length self.old.table.processes) into.old.items }
        ensures cut { OnOk result ((es : List ℕ) → IsCutIn self.old.table (ActsBy es (at self.old.table.processes p)) most into.old.items → IsCutIn self.new.table (ActsBy (es ++ event ∷ []) (at self.new.table.processes p)) most into.new.items) }
        ensures kept { KeepsNumbers self.old self.new }
    {
        let mut found = self.list();
        self.put_part_targets(p, Label::Event(Event::Of(event)), most, &mut found)?;
        self.join(&found, most, into)
    }

    /// What the process becomes by a hidden step.
    #[cycle(put_part_targets)]
    fn find_hidden(
        &mut self,
        number: u32,
        most: usize,
        into: &mut Vec<u32, A>,
    ) -> Result<(), AllocError>
        requires number { number < length self.old.table.processes }
        requires hides { HidesEvents self.old number }
        requires empty { into.old.items ≡ [] }
        ensures targets { OnOk result (AreCutTargets self.new number label.Tau most into.new.items) }
        ensures kept { KeepsNumbers self.old self.new }
    {
        let node = self.node(number);
        let mut lefts = self.list();
        let mut rights = self.list();
        self.hid_parts(number, node, most, &mut lefts, &mut rights)?;
        self.put_hids(node, &lefts, &rights, most, into)
    }

    /// What the node's parts become by a hidden step: for a parallel with `SKIP` for each side that can end, for a hiding
    /// with what the part becomes by the hidden events, and for a name its body. The parts have numbers below `number`.
    #[cycle(put_part_targets)]
    fn hid_parts(
        &mut self,
        number: u32,
        node: Node,
        most: usize,
        lefts: &mut Vec<u32, A>,
        rights: &mut Vec<u32, A>,
    ) -> Result<(), AllocError>
        requires number { number < length self.old.table.processes }
        requires within { IsWithin self.old.table.parameters number node }
        requires hides { SetsBelow 256 (shape self.old.table.parameters self.old.table.processes node) }
        requires lefts { lefts.old.items ≡ [] }
        requires rights { rights.old.items ≡ [] }
        ensures lefts { OnOk result (AllBelow (length self.new.table.processes) lefts.new.items) }
        ensures rights { OnOk result (AllBelow (length self.new.table.processes) rights.new.items) }
        ensures parts { OnOk result (AreHidsOfParts self.new.table (bodies_of self.new.bodies) node most lefts.new.items rights.new.items) }
        ensures kept { KeepsNumbers self.old self.new }
    {
        match node {
            Node::Ext(p, q) | Node::Intr(p, q) => {
                self.put_both(p, q, Label::Tau, most, lefts, rights)
            }
            Node::Par(_, p, q) => self.put_sides(p, q, most, lefts, rights),
            Node::Seq(p, _) | Node::Ren(_, p) => self.put_part_targets(p, Label::Tau, most, lefts),
            Node::Hide(set, p) => self.put_hidden(set, p, most, lefts),
            Node::Name(body) => self.put_body(body, lefts),
            Node::Stop | Node::Skip | Node::Prefix(_, _) | Node::Int(_, _) => Ok(()),
        }
    }

    /// What both sides of a parallel become by a hidden step, with `SKIP` for each that can end.
    #[cycle(put_part_targets)]
    fn put_sides(
        &mut self,
        p: u32,
        q: u32,
        most: usize,
        lefts: &mut Vec<u32, A>,
        rights: &mut Vec<u32, A>,
    ) -> Result<(), AllocError>
        requires left { p < length self.old.table.processes }
        requires right { q < length self.old.table.processes }
        requires left_hides { HidesEvents self.old p }
        requires right_hides { HidesEvents self.old q }
        requires lefts { lefts.old.items ≡ [] }
        requires rights { rights.old.items ≡ [] }
        ensures lefts { OnOk result (IsCutIn self.new.table (OrEnd (Hid (bodies_of self.new.bodies) (at self.new.table.processes p)) (at self.new.table.processes p)) most lefts.new.items) }
        ensures rights { OnOk result (IsCutIn self.new.table (OrEnd (Hid (bodies_of self.new.bodies) (at self.new.table.processes q)) (at self.new.table.processes q)) most rights.new.items) }
        ensures kept { KeepsNumbers self.old self.new }
    {
        self.put_side(p, most, lefts)?;
        self.put_side(q, most, rights)
    }

    /// What a side of a parallel becomes by a hidden step, with `SKIP` where it can end.
    #[cycle(put_part_targets)]
    fn put_side(&mut self, p: u32, most: usize, into: &mut Vec<u32, A>) -> Result<(), AllocError>
        requires side { p < length self.old.table.processes }
        requires hides { HidesEvents self.old p }
        requires empty { into.old.items ≡ [] }
        ensures cut { OnOk result (IsCutIn self.new.table (OrEnd (Hid (bodies_of self.new.bodies) (at self.new.table.processes p)) (at self.new.table.processes p)) most into.new.items) }
        ensures kept { KeepsNumbers self.old self.new }
    {
        self.put_part_targets(p, Label::Tau, most, into)?;
        self.put_end(p, most, into)
    }

    /// What the part of a hiding becomes by a hidden step or by one of the hidden events.
    #[cycle(put_part_targets)]
    fn put_hidden(
        &mut self,
        set: u32,
        p: u32,
        most: usize,
        into: &mut Vec<u32, A>,
    ) -> Result<(), AllocError>
        requires set { set < length self.old.table.parameters.sets }
        requires small { (a : ℕ) → has (set_at self.old.table.parameters set) a ≡ true → a < 256 }
        requires part { p < length self.old.table.processes }
        requires hides { HidesEvents self.old p }
        requires empty { into.old.items ≡ [] }
        ensures cut { OnOk result (IsCutIn self.new.table (λ Q. Hid (bodies_of self.new.bodies) (at self.new.table.processes p) Q ⊎ ActsIn (set_at self.new.table.parameters set) (at self.new.table.processes p) Q) most into.new.items) }
        ensures kept { KeepsNumbers self.old self.new }
    {
        let mut found = self.list();
        self.put_hidden_acts(set, p, most, &mut found)?;
        self.put_part_targets(p, Label::Tau, most, into)?;
        self.join(&found, most, into)
    }

    /// What the process becomes by one of the hidden events.
    #[cycle(put_part_targets)]
    fn put_hidden_acts(
        &mut self,
        set: u32,
        p: u32,
        most: usize,
        into: &mut Vec<u32, A>,
    ) -> Result<(), AllocError>
        requires set { set < length self.old.table.parameters.sets }
        requires small { (a : ℕ) → has (set_at self.old.table.parameters set) a ≡ true → a < 256 }
        requires part { p < length self.old.table.processes }
        requires hides { HidesEvents self.old p }
        requires empty { into.old.items ≡ [] }
        ensures cut { OnOk result (IsCutIn self.new.table (ActsIn (set_at self.new.table.parameters set) (at self.new.table.processes p)) most into.new.items) }
        ensures kept { KeepsNumbers self.old self.new }
    {
        let events = self.hidden_events(set, p)?;
        self.put_each(p, &events, most, into)
    }

    /// The events of the set that the process offers.
    fn hidden_events(&self, set: u32, p: u32) -> Result<Vec<u8, A>, AllocError>
        requires set { set < length self.now.table.parameters.sets }
        requires small { (a : ℕ) → has (set_at self.now.table.parameters set) a ≡ true → a < 256 }
        requires part { p < length self.now.table.processes }
        ensures { IfOk result (λ events. (Q : Proc) → ActsBy events.items (at self.now.table.processes p) Q ↔ ActsIn (set_at self.now.table.parameters set) (at self.now.table.processes p) Q) }
    {
        let hidden = self.set(set);
        let offered = self.facts(p).offers;
        events_in(hidden.minus(hidden.minus(offered)), self.allocator())
    }

    /// The body with this number, which is `STOP` where there is none.
    fn put_body(&mut self, body: usize, into: &mut Vec<u32, A>) -> Result<(), AllocError>
        requires empty { into.old.items ≡ [] }
        ensures cut { OnOk result ((most : ℕ) → IsCutIn self.new.table (λ R. R ≡ bodies_of self.new.bodies body) most into.new.items) }
        ensures kept { KeepsNumbers self.old self.new }
    {
        if let Some(number) = self.body(body) {
            into.push(number)?;
            return Ok(());
        }
        let stop = self.put(Node::Stop)?;
        into.push(stop)?;
        Ok(())
    }
}

/// Whether what the node becomes by steps is found from what its parts become.
fn has_parts(node: Node) -> bool {
    !matches!(
        node,
        Node::Stop | Node::Skip | Node::Prefix(_, _) | Node::Int(_, _) | Node::Name(_)
    )
}
