//! Steps of deep processes that have too many targets, which is found before these are made: where a part has so many, the
//! whole has.

ghost use Rattle.std.specs.Prelude.{◌≡◌, ◌⊎◌, ◌<◌, IfOk, length, true};
ghost use Rattle.alphabet.specs.declared.events.Event.TheVariants.{Of as ev};
ghost use Rattle.term.specs.Limits.{HasMany};
ghost use Rattle.term.specs.Proc.{bodies_of};
ghost use Rattle.targets.specs.declared.labels.Label.TheVariants as label;
ghost use Rattle.nodes.specs.Shapes.{at};
ghost use Rattle.transitions.specs.Numbered.{HidesEvents};
ghost use Rattle.keeping.specs.Kept.{StaysKept};
ghost use Rattle.tau_closures.specs.Kept.{IsBroad};

use crate::numbers::Numbers;
use alphabet::Event;
use keeping::States;
use nodes::Node;
use std::alloc::{AllocError, Allocator};
use targets::Label;
use transitions::MOST_STATES;

/// The depth up to which the targets are made at once. So many levels of too many targets take 40 MB.
const SHALLOW: u32 = 100;

/// Whether the process is found to have more targets of steps with this label than a set of states may have members, by
/// those of its parts. It may have so many where the answer is `false`.
pub(crate) fn is_broad<A: Allocator + Copy>(
    states: &mut States<A>,
    number: u32,
    label: Label,
    alloc: A,
) -> Result<bool, AllocError>
    requires number { number < length states.old.all.table.processes }
    requires hides { HidesEvents states.old.all number }
    ensures broad { IfOk result (λ broad. broad ≡ true → IsBroad states.old number label) }
    ensures kept { StaysKept states.old states.new }
{
    let mut asked = Numbers::new(alloc);
    let mut found = Vec::new(alloc);
    has_broad_part(states, number, label, &mut asked, &mut found)
}

/// The same of a deep process. `asked` has the parts that were asked before, and `found` lends its memory.
#[cycle(is_part_broad)]
fn has_broad_part<A: Allocator + Copy>(
    states: &mut States<A>,
    number: u32,
    label: Label,
    asked: &mut Numbers<A>,
    found: &mut Vec<u32, A>,
) -> Result<bool, AllocError>
    requires number { number < length states.old.all.table.processes }
    requires hides { HidesEvents states.old.all number }
    ensures broad { IfOk result (λ broad. broad ≡ true → IsBroad states.old number label) }
    ensures kept { StaysKept states.old states.new }
{
    if states.all().facts(number).depth <= SHALLOW {
        return Ok(false);
    }
    match label {
        Label::Tau => has_broad_hid(states, number, asked, found),
        Label::Event(Event::Of(event)) => has_broad_act(states, number, event, asked, found),
        Label::Event(Event::Tick) => Ok(false),
    }
}

/// Whether a part that wasn't asked before has too many targets.
#[cycle(is_part_broad)]
fn is_part_broad<A: Allocator + Copy>(
    states: &mut States<A>,
    number: u32,
    label: Label,
    asked: &mut Numbers<A>,
    found: &mut Vec<u32, A>,
) -> Result<bool, AllocError>
    requires number { number < length states.old.all.table.processes }
    requires hides { HidesEvents states.old.all number }
    ensures broad { IfOk result (λ broad. broad ≡ true → IsBroad states.old number label) }
    ensures kept { StaysKept states.old states.new }
{
    let before = asked.len();
    asked.put(number)?;
    if asked.len() == before {
        return Ok(false);
    }
    if has_broad_part(states, number, label, asked, found)? {
        return Ok(true);
    }
    found.clear();
    states.put_targets(number, label, found)?;
    Ok(found.len() > MOST_STATES)
}

/// The same of one of two parts.
#[cycle(is_part_broad)]
fn is_either_broad<A: Allocator + Copy>(
    states: &mut States<A>,
    p: u32,
    q: u32,
    label: Label,
    asked: &mut Numbers<A>,
    found: &mut Vec<u32, A>,
) -> Result<bool, AllocError>
    requires left { p < length states.old.all.table.processes }
    requires right { q < length states.old.all.table.processes }
    requires left_hides { HidesEvents states.old.all p }
    requires right_hides { HidesEvents states.old.all q }
    ensures broad { IfOk result (λ broad. broad ≡ true → IsBroad states.old p label ⊎ IsBroad states.old q label) }
    ensures kept { StaysKept states.old states.new }
{
    if is_part_broad(states, p, label, asked, found)? {
        return Ok(true);
    }
    is_part_broad(states, q, label, asked, found)
}

/// Whether a part of the node has too many targets of the event, which the whole offers.
#[cycle(is_part_broad)]
fn has_broad_act<A: Allocator + Copy>(
    states: &mut States<A>,
    number: u32,
    event: u8,
    asked: &mut Numbers<A>,
    found: &mut Vec<u32, A>,
) -> Result<bool, AllocError>
    requires number { number < length states.old.all.table.processes }
    requires hides { HidesEvents states.old.all number }
    ensures broad { IfOk result (λ broad. broad ≡ true → IsBroad states.old number (label.Event (ev event))) }
    ensures kept { StaysKept states.old states.new }
{
    if !states.all().facts(number).offers.contains(Event::Of(event)) {
        return Ok(false);
    }
    let label = Label::Event(Event::Of(event));
    match states.all().node(number) {
        Node::Ext(p, q) => is_either_broad(states, p, q, label, asked, found),
        Node::Par(_, p, q) => is_either_broad(states, p, q, label, asked, found),
        Node::Intr(p, q) => is_either_broad(states, p, q, label, asked, found),
        Node::Seq(p, _) => is_part_broad(states, p, label, asked, found),
        Node::Hide(_, p) => is_part_broad(states, p, label, asked, found),
        _ => Ok(false),
    }
}

/// Whether a part of the node has too many targets of hidden steps.
#[cycle(is_part_broad)]
fn has_broad_hid<A: Allocator + Copy>(
    states: &mut States<A>,
    number: u32,
    asked: &mut Numbers<A>,
    found: &mut Vec<u32, A>,
) -> Result<bool, AllocError>
    requires number { number < length states.old.all.table.processes }
    requires hides { HidesEvents states.old.all number }
    ensures broad { IfOk result (λ broad. broad ≡ true → IsBroad states.old number label.Tau) }
    ensures kept { StaysKept states.old states.new }
{
    if states.all().facts(number).rests {
        return Ok(false);
    }
    match states.all().node(number) {
        Node::Ext(p, q) => is_either_broad(states, p, q, Label::Tau, asked, found),
        Node::Par(_, p, q) => is_either_broad(states, p, q, Label::Tau, asked, found),
        Node::Intr(p, q) => is_either_broad(states, p, q, Label::Tau, asked, found),
        Node::Seq(p, _) => is_part_broad(states, p, Label::Tau, asked, found),
        Node::Hide(_, p) => is_part_broad(states, p, Label::Tau, asked, found),
        Node::Ren(_, p) => is_part_broad(states, p, Label::Tau, asked, found),
        _ => Ok(false),
    }
}
