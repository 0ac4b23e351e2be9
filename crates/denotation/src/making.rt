//! Bodies made of phrases for processes.
ghost use Rattle.std.specs.Prelude.{◌<◌, ◌≤◌, suc, drop, Some, IfOk, IfSome, map};
ghost use Rattle.std.specs.Option.{option_map};
ghost use Rattle.alphabet.specs.Channels.{events as events_of};
ghost use Rattle.syntax.specs.Parsing.{syntaxes};
ghost use Rattle.syntax.specs.View.{shape, shapes};
ghost use Rattle.values.specs.Tables.{input};
ghost use Rattle.values.specs.View.{Gives};
ghost use Rattle.event_phrases.specs.Forms.{field_of};
ghost use Rattle.event_phrases.specs.Leading.{led_fits};
ghost use Rattle.event_phrases.specs.Scopes.{within};
ghost use Rattle.event_phrases.specs.View.{listed};
ghost use Rattle.denotation.specs.Branches.{first_branch};
ghost use Rattle.denotation.specs.Phrases.{branches as branches_of, conditional, denoted, hiding, joined, phrase_of, prefixed_by, renaming, replicated};
ghost use Rattle.denotation.specs.Places.{from_scope};
ghost use Rattle.denotation.specs.Rooms.{all_fit, fits, with_one};
ghost use Rattle.denotation.specs.Shapes.{or_stops, plain, plain_between};
ghost use Rattle.denotation.specs.View.{body};
ghost use Rattle.denotation.specs.Walks.{on_visits};

use crate::calls::called_with;
use crate::choice::chosen;
use crate::draft::Draft;
use crate::forms::{Between, Join, Phrase, process_phrase};
use crate::joining::{behind_event, composed, hidden, operation_of, renamed_by};
use crate::replicated::all_joined;
use crate::simple::{called, skip, stop};
use crate::walk::{Place, first_place, next_place};
use event_phrases::forms::event_parts;
use event_phrases::{
    GlobalScope, Prefix, Scope, next_fitting, prefix_of, wanted_events, wanted_truth,
};
use std::alloc::Allocator;
use syntax::Tree;
use tokens::{Position, ReadError, ScriptErrorKind, fault};

/// The first branch of a prefix from the event with this number on, with its event's number.
#[cycle(making)]
fn next_branch<'a, A: Allocator + Copy, G: GlobalScope<A>>(
    alloc: A,
    scope: &Scope<'a, A, G>,
    prefix: &Prefix<'a, A>,
    from: usize,
    room: &mut usize,
) -> Result<Option<(usize, Draft<A>)>, ReadError>
    ensures branch { Gives (λ o. (option_map (λ p. (p.0, body p.1, drop (suc p.0) (events_of (G.scope scope.now.global.now).channels))) o, room.new)) result (first_branch (led_fits prefix.now.channel.now (listed prefix.now.leading.items) (map field_of (shapes prefix.now.fields.now)) (map (λ v. listed v.items) prefix.now.sets.now) (within (G.scope scope.now.global.now) (map input scope.now.inputs.items))) (denoted (phrase_of (shape prefix.now.then.now))) from (drop from (events_of (G.scope scope.now.global.now).channels)) room.old) }
    ensures number { IfOk result (λ o. IfSome o (λ p. (from ≤ p.0) × (p.0 < 256))) }
{
    let found = next_fitting(alloc, scope, prefix, from)?;
    match found {
        None => Ok(None),
        Some((number, inputs)) => {
            let inner = Scope {
                global: scope.global,
                inputs,
                line: scope.line,
            };
            let then = process(alloc, &inner, prefix.then, room)?;
            let branch = behind_event(alloc, number, then, room, scope.line)?;
            Ok(Some((number, branch)))
        }
    }
}

/// The branches of a prefix, one for each event that fits.
#[cycle(making)]
fn branches<'a, A: Allocator + Copy, G: GlobalScope<A>>(
    alloc: A,
    scope: &Scope<'a, A, G>,
    prefix: &Prefix<'a, A>,
    room: &mut usize,
) -> Result<Vec<Draft<A>, A>, ReadError>
    ensures { Gives (λ v. (map body v.items, room.new)) result (all_fit room.old (branches_of (led_fits prefix.now.channel.now (listed prefix.now.leading.items) (map field_of (shapes prefix.now.fields.now)) (map (λ v. listed v.items) prefix.now.sets.now) (within (G.scope scope.now.global.now) (map input scope.now.inputs.items))) (denoted (phrase_of (shape prefix.now.then.now))) 0 (events_of (G.scope scope.now.global.now).channels))) }
{
    let mut drafts = Vec::new(alloc);
    let mut from = 0;
    loop {
        let found = next_branch(alloc, scope, prefix, from, room)?;
        match found {
            None => return Ok(drafts),
            Some((number, branch)) => {
                drafts.push(branch)?;
                from = number + 1;
            }
        }
    }
}

/// The process that an event phrase and what stands after its arrow are a phrase for: the choice over the events that fit.
#[cycle(making)]
fn prefixed<'a, A: Allocator + Copy, G: GlobalScope<A>>(
    alloc: A,
    scope: &Scope<'a, A, G>,
    event: &'a Tree<A>,
    then: &'a Tree<A>,
    room: &mut usize,
) -> Result<Draft<A>, ReadError>
    ensures { Gives (λ b. (body b, room.new)) result (fits room.old (prefixed_by (within (G.scope scope.now.global.now) (map input scope.now.inputs.items)) (shape event.now) (denoted (phrase_of (shape then.now))))) }
{
    let prefix = prefix_of(alloc, scope, event, then)?;
    let drafts = branches(alloc, scope, &prefix, room)?;
    chosen(alloc, drafts, room, scope.line)
}

/// Two processes with this between them.
#[cycle(making)]
fn joined_phrases<'a, A: Allocator + Copy, G: GlobalScope<A>>(
    alloc: A,
    scope: &Scope<'a, A, G>,
    between: Between<'a, A>,
    first: &'a Tree<A>,
    second: &'a Tree<A>,
    room: &mut usize,
) -> Result<Draft<A>, ReadError>
    ensures { Gives (λ b. (body b, room.new)) result (fits room.old (denoted (joined (plain_between between.entry) (phrase_of (shape first.now)) (phrase_of (shape second.now))) (within (G.scope scope.now.global.now) (map input scope.now.inputs.items)))) }
{
    let first = process(alloc, scope, first, room)?;
    let operation = operation_of(alloc, scope, between)?;
    let second = process(alloc, scope, second, room)?;
    composed(alloc, scope, operation, first, second, room)
}

/// `P \ A`
#[cycle(making)]
fn hiding_phrase<'a, A: Allocator + Copy, G: GlobalScope<A>>(
    alloc: A,
    scope: &Scope<'a, A, G>,
    tree: &'a Tree<A>,
    set: &'a Tree<A>,
    room: &mut usize,
) -> Result<Draft<A>, ReadError>
    ensures { Gives (λ b. (body b, room.new)) result (fits room.old (denoted (hiding (phrase_of (shape tree.now)) (shape set.now)) (within (G.scope scope.now.global.now) (map input scope.now.inputs.items)))) }
{
    let draft = process(alloc, scope, tree, room)?;
    let set = wanted_events(alloc, scope, set)?;
    hidden(alloc, set, draft, room, scope.line)
}

/// `P[[a <- b]]`, with its pairs.
#[cycle(making)]
fn renaming_phrase<'a, A: Allocator + Copy, G: GlobalScope<A>>(
    alloc: A,
    scope: &Scope<'a, A, G>,
    tree: &'a Tree<A>,
    pairs: &'a [Tree<A>],
    room: &mut usize,
) -> Result<Draft<A>, ReadError>
    ensures { Gives (λ b. (body b, room.new)) result (fits room.old (denoted (renaming (phrase_of (shape tree.now)) (syntaxes (shapes pairs.now))) (within (G.scope scope.now.global.now) (map input scope.now.inputs.items)))) }
{
    let draft = process(alloc, scope, tree, room)?;
    renamed_by(alloc, scope, pairs, draft, room)
}

/// `if b then P else Q`, where the trees are those of P and Q, or `b & P`, where there is none of Q and P, or else `STOP`, is
/// chosen: what isn't chosen isn't looked at.
#[cycle(making)]
fn conditional_phrase<'a, A: Allocator + Copy, G: GlobalScope<A>>(
    alloc: A,
    scope: &Scope<'a, A, G>,
    condition: &'a Tree<A>,
    trees: (&'a Tree<A>, Option<&'a Tree<A>>),
    room: &mut usize,
) -> Result<Draft<A>, ReadError>
    ensures { Gives (λ b. (body b, room.new)) result (fits room.old (denoted (conditional (shape condition.now) (phrase_of (shape trees.entry.0.now)) (or_stops trees.entry.1)) (within (G.scope scope.now.global.now) (map input scope.now.inputs.items)))) }
{
    let holds = wanted_truth(alloc, scope, condition)?;
    if holds {
        return process(alloc, scope, trees.0, room);
    }
    match trees.1 {
        Some(other) => process(alloc, scope, other, room),
        None => stop(room, scope.line),
    }
}

/// Appends the body that is made of this phrase.
#[cycle(making)]
fn put_process<'a, A: Allocator + Copy, G: GlobalScope<A>>(
    alloc: A,
    scope: &Scope<'a, A, G>,
    tree: &'a Tree<A>,
    drafts: &mut Vec<Draft<A>, A>,
    room: &mut usize,
) -> Result<(), ReadError>
    ensures { Gives (λ _. (map body drafts.new.items, room.new)) result (with_one (map body drafts.old.items) (fits room.old (denoted (phrase_of (shape tree.now)) (within (G.scope scope.now.global.now) (map input scope.now.inputs.items))))) }
{
    let draft = process(alloc, scope, tree, room)?;
    drafts.push(draft)?;
    Ok(())
}

/// The bodies made of this phrase in the first place and in those after it.
#[cycle(making)]
fn over<'a, A: Allocator + Copy, G: GlobalScope<A>>(
    alloc: A,
    scope: &Scope<'a, A, G>,
    first: Option<Place<'a, A>>,
    then: &'a Tree<A>,
    room: &mut usize,
) -> Result<Vec<Draft<A>, A>, ReadError>
    ensures { Gives (λ v. (map body v.items, room.new)) result (all_fit room.old (on_visits (denoted (phrase_of (shape then.now))) (from_scope (G.scope scope.now.global.now) first.entry))) }
{
    let mut at = first;
    let mut drafts = Vec::new(alloc);
    while let Some(Place { inputs, outer, .. }) = at {
        let inner = Scope {
            global: scope.global,
            inputs,
            line: scope.line,
        };
        put_process(alloc, &inner, then, &mut drafts, room)?;
        let Scope { inputs, .. } = inner;
        let next = next_place(alloc, scope, inputs, outer)?;
        at = next;
    }
    Ok(drafts)
}

/// `[] x:A, y:B @ P` and the like on this line, where the form is its generators and P.
#[cycle(making)]
fn replicated_phrase<'a, A: Allocator + Copy, G: GlobalScope<A>>(
    alloc: A,
    scope: &Scope<'a, A, G>,
    join: Join,
    form: (&'a [Tree<A>], &'a Tree<A>),
    line: Position,
    room: &mut usize,
) -> Result<Draft<A>, ReadError>
    ensures { Gives (λ b. (body b, room.new)) result (fits room.old (denoted (replicated join (shapes form.entry.0.now) (phrase_of (shape form.entry.1.now))) (within (G.scope scope.now.global.now) (map input scope.now.inputs.items)))) }
{
    let first = first_place(alloc, scope, form.0)?;
    let drafts = over(alloc, scope, first, form.1, room)?;
    all_joined(alloc, join, drafts, room, scope.line, line)
}

/// The body made of a phrase by its form, on this line.
#[cycle(making)]
fn made<'a, A: Allocator + Copy, G: GlobalScope<A>>(
    alloc: A,
    scope: &Scope<'a, A, G>,
    phrase: Phrase<'a, A>,
    line: Position,
    room: &mut usize,
) -> Result<Draft<A>, ReadError>
    ensures { Gives (λ b. (body b, room.new)) result (fits room.old (denoted (plain phrase.entry) (within (G.scope scope.now.global.now) (map input scope.now.inputs.items)))) }
{
    match phrase {
        Phrase::Stop => stop(room, scope.line),
        Phrase::Inside(inner) => process(alloc, scope, inner, room),
        Phrase::Prefix(event, then) => prefixed(alloc, scope, event, then, room),
        Phrase::Joined(between, first, second) => {
            joined_phrases(alloc, scope, between, first, second, room)
        }
        Phrase::Skip => skip(room, scope.line),
        Phrase::Called(name) => called(alloc, scope, name, line, room),
        Phrase::Hiding(process_tree, set) => {
            hiding_phrase(alloc, scope, process_tree, set, room)
        }
        Phrase::Renaming(process_tree, pairs) => {
            renaming_phrase(alloc, scope, process_tree, pairs, room)
        }
        Phrase::Conditional(condition, first, second) => {
            conditional_phrase(alloc, scope, condition, (first, second), room)
        }
        Phrase::Calling(name, arguments) => called_with(alloc, scope, name, arguments, line, room),
        Phrase::Replicated(join, generators, then) => {
            replicated_phrase(alloc, scope, join, (generators, then), line, room)
        }
    }
}

/// The body made of a phrase for a process. A fault has the line of the phrase that is at fault; too many nodes have the
/// line of the definition's name.
#[cycle(making)]
pub(crate) fn process<'a, A: Allocator + Copy, G: GlobalScope<A>>(
    alloc: A,
    scope: &Scope<'a, A, G>,
    tree: &'a Tree<A>,
    room: &mut usize,
) -> Result<Draft<A>, ReadError>
    ensures { Gives (λ b. (body b, room.new)) result (fits room.old (denoted (phrase_of (shape tree.now)) (within (G.scope scope.now.global.now) (map input scope.now.inputs.items)))) }
{
    match process_phrase(tree) {
        Some(phrase) => made(alloc, scope, phrase, tree.line(), room),
        None => match event_parts(tree) {
            Some(_) => Err(scope.no_channel(tree)),
            None => Err(fault(tree.line(), ScriptErrorKind::Expected)),
        },
    }
}
