//! Bodies made of others.
ghost use Rattle.std.specs.Prelude.{◌≡◌, ◌<◌, ◌≤◌, IfOk, map};
ghost use Rattle.alphabet.specs.Channels.{event_count};
ghost use Rattle.alphabet.specs.Events.{is_numbered_below};
ghost use Rattle.alphabet.specs.EventSets.{member};
ghost use Rattle.alphabet.specs.declared.events.Event.{Event as EventOf};
ghost use Rattle.syntax.specs.Parsing.{syntaxes};
ghost use Rattle.syntax.specs.View.{shapes};
ghost use Rattle.values.specs.Tables.{input};
ghost use Rattle.event_phrases.specs.Events.{in_order, pairs_of as pairs_of_all};
ghost use Rattle.event_phrases.specs.Scopes.{Scope as ScopeOf, within};
ghost use Rattle.values.specs.View.{Gives};
ghost use Rattle.denotation.specs.Bodies.{hide, prefix, ren};
ghost use Rattle.denotation.specs.Phrases.{alphabetised_by, joint_of, composed as composed_by, operation_of as operation_by, renamed as renamed_of};
ghost use Rattle.denotation.specs.Rooms.{operation_nodes, renaming_nodes, renamed_within, spare};
ghost use Rattle.denotation.specs.Shapes.{plain_between};
ghost use Rattle.denotation.specs.View.{body};

use crate::draft::{Draft, Joint, Operation};
use crate::forms::Between;
use crate::room::spend_nodes;
use alphabet::EventSet;
use event_phrases::{GlobalScope, Scope, ordered, pairs_of, two_sets, wanted_events};
use std::alloc::{AllocError, Allocator};
use syntax::Tree;
use tokens::{Position, ReadError};

/// Two bodies joined so.
pub(crate) fn joined<A: Allocator + Copy>(
    alloc: A,
    joint: Joint,
    first: Draft<A>,
    second: Draft<A>,
) -> Result<Draft<A>, AllocError>
    ensures { IfOk result (λ b. body b ≡ joint_of joint (body first) (body second)) }
{
    let first = Box::new(alloc, first)?;
    let second = Box::new(alloc, second)?;
    Ok(Draft::Both(joint, first, second))
}

/// Two bodies joined so, where there is room for the node above them.
fn joined_within<A: Allocator + Copy>(
    alloc: A,
    joint: Joint,
    first: Draft<A>,
    second: Draft<A>,
    room: &mut usize,
    line: Position,
) -> Result<Draft<A>, ReadError>
    ensures { Gives (λ b. (body b, room.new)) result (spare 1 (joint_of joint (body first) (body second)) room.old) }
{
    let joined = joined(alloc, joint, first, second)?;
    spend_nodes(room, 1, line)?;
    Ok(joined)
}

/// The body after the event with this number, where there is room for the node above it.
pub(crate) fn behind_event<A: Allocator + Copy>(
    alloc: A,
    number: usize,
    then: Draft<A>,
    room: &mut usize,
    line: Position,
) -> Result<Draft<A>, ReadError>
    requires { number < 256 }
    ensures { Gives (λ b. (body b, room.new)) result (spare 1 (prefix number (body then)) room.old) }
{
    spend_nodes(room, 1, line)?;
    let then = Box::new(alloc, then)?;
    Ok(Draft::Prefix(number as u8, then))
}

/// The body with the events of the set hidden, where there is room for the node above it.
pub(crate) fn hidden<A: Allocator + Copy>(
    alloc: A,
    set: EventSet,
    draft: Draft<A>,
    room: &mut usize,
    line: Position,
) -> Result<Draft<A>, ReadError>
    ensures { Gives (λ b. (body b, room.new)) result (spare 1 (hide set (body draft)) room.old) }
{
    spend_nodes(room, 1, line)?;
    Ok(Draft::Hide(set, Box::new(alloc, draft)?))
}

/// The body renamed by these pairs of so many events.
fn renaming<A: Allocator + Copy>(
    alloc: A,
    events: usize,
    pairs: &[(u8, u8)],
    draft: Draft<A>,
) -> Result<Draft<A>, AllocError>
    requires { events ≤ 256 }
    ensures { IfOk result (λ b. body b ≡ ren (in_order events pairs.now) (body draft)) }
{
    let draft = Box::new(alloc, draft)?;
    let pairs = ordered(&alloc, events, pairs)?;
    Ok(Draft::Ren(pairs, draft))
}

/// The body renamed by these pairs of so many events, if there are any pairs.
#[tactic(auto, using(crate::proofs::Rooms::no_room), unfolding(crate::specs::Phrases::renamed, crate::specs::Rooms::renaming_nodes))]
pub(crate) fn renamed<A: Allocator + Copy>(
    alloc: A,
    events: usize,
    pairs: &[(u8, u8)],
    draft: Draft<A>,
    room: &mut usize,
    line: Position,
) -> Result<Draft<A>, ReadError>
    requires { events ≤ 256 }
    ensures { Gives (λ b. (body b, room.new)) result (spare (renaming_nodes pairs.now) (renamed_of events pairs.now (body draft)) room.old) }
{
    match pairs {
        [] => Ok(draft),
        [_, ..] => {
            spend_nodes(room, 1, line)?;
            Ok(renaming(alloc, events, pairs, draft)?)
        }
    }
}

/// The body renamed by the pairs that these phrases give.
pub(crate) fn renamed_by<A: Allocator + Copy, G: GlobalScope<A>>(
    alloc: A,
    scope: &Scope<'_, A, G>,
    pairs: &[Tree<A>],
    draft: Draft<A>,
    room: &mut usize,
) -> Result<Draft<A>, ReadError>
    ensures { Gives (λ b. (body b, room.new)) result (renamed_within (event_count (G.scope scope.now.global.now).channels) (pairs_of_all (G.scope scope.now.global.now).channels (within (G.scope scope.now.global.now) (map input scope.now.inputs.items)).known (syntaxes (shapes pairs.now))) (body draft) room.old) }
{
    let pairs = pairs_of(alloc, scope, pairs)?;
    let events = scope.global.events().len();
    renamed(alloc, events, &pairs, draft, room, scope.line)
}

/// `P [ A || B ] Q` of the bodies of P and Q, where Sigma is this.
#[tactic(auto)]
fn alphabetised<A: Allocator + Copy>(
    alloc: A,
    sigma: EventSet,
    sets: (EventSet, EventSet),
    first: Draft<A>,
    second: Draft<A>,
) -> Result<Draft<A>, AllocError>
    ensures { (s : ScopeOf) → ((x : EventOf) → member sigma x ≡ is_numbered_below (event_count s.channels) x) → IfOk result (λ b. body b ≡ alphabetised_by s sets (body first) (body second)) }
{
    let left_out = sigma.minus(sets.0);
    let right_out = sigma.minus(sets.1);
    let within_left = sigma.minus(left_out);
    let shared = within_left.minus(right_out);
    let first = joined(alloc, Joint::Sharing(left_out), first, Draft::Skip)?;
    let second = joined(alloc, Joint::Sharing(right_out), second, Draft::Skip)?;
    joined(alloc, Joint::Sharing(shared), first, second)
}

/// `P [ A || B ] Q`, where there is room for its nodes.
fn alphabetised_within<A: Allocator + Copy, G: GlobalScope<A>>(
    alloc: A,
    scope: &Scope<'_, A, G>,
    sets: (EventSet, EventSet),
    first: Draft<A>,
    second: Draft<A>,
    room: &mut usize,
) -> Result<Draft<A>, ReadError>
    ensures { Gives (λ b. (body b, room.new)) result (spare 5 (alphabetised_by (G.scope scope.now.global.now) sets (body first) (body second)) room.old) }
{
    let joined = alphabetised(alloc, scope.global.sigma(), sets, first, second)?;
    spend_nodes(room, 5, scope.line)?;
    Ok(joined)
}

/// What stands between two processes, with the events of its sets.
pub(crate) fn operation_of<A: Allocator + Copy, G: GlobalScope<A>>(
    alloc: A,
    scope: &Scope<'_, A, G>,
    between: Between<'_, A>,
) -> Result<Operation, ReadError>
    ensures { Gives (λ o. o) result (operation_by (within (G.scope scope.now.global.now) (map input scope.now.inputs.items)) (plain_between between.entry)) }
{
    match between {
        Between::Join(join) => Ok(Operation::Joint(Joint::Join(join))),
        Between::Sharing(set) => {
            let set = wanted_events(alloc, scope, set)?;
            Ok(Operation::Joint(Joint::Sharing(set)))
        }
        Between::Alphabetised(left, right) => {
            let (left, right) = two_sets(alloc, scope, left, right)?;
            Ok(Operation::Alphabetised(left, right))
        }
    }
}

/// Two bodies with this between them, where there is room for its nodes.
pub(crate) fn composed<A: Allocator + Copy, G: GlobalScope<A>>(
    alloc: A,
    scope: &Scope<'_, A, G>,
    operation: Operation,
    first: Draft<A>,
    second: Draft<A>,
    room: &mut usize,
) -> Result<Draft<A>, ReadError>
    ensures { Gives (λ b. (body b, room.new)) result (spare (operation_nodes operation) (composed_by (G.scope scope.now.global.now) operation (body first) (body second)) room.old) }
{
    match operation {
        Operation::Joint(joint) => joined_within(alloc, joint, first, second, room, scope.line),
        Operation::Alphabetised(left, right) => {
            alphabetised_within(alloc, scope, (left, right), first, second, room)
        }
    }
}
