//! The pairs that renamings give.
ghost use Rattle.std.specs.Prelude.{◌≡◌, ◌++◌, ◌≤◌, IfOk, List, Some, drop, length, map};
ghost use Rattle.alphabet.specs.Channels.{Channel, events as events_of};
ghost use Rattle.syntax.specs.Parsing.{syntaxes};
ghost use Rattle.syntax.specs.View.{shape, shapes};
ghost use Rattle.values.specs.Tables.{input};
ghost use Rattle.values.specs.View.{Gives};
ghost use Rattle.event_phrases.specs.Scopes.{within};
ghost use Rattle.event_phrases.specs.Events.{pair_of, pairs_from as pairs_from_events, pairs_of as pairs_of_all};
ghost use Rattle.event_phrases.specs.Uses.{behind_pairs};
ghost use Rattle.event_phrases.specs.View.{beginning as beginning_of, listed, row};

use crate::beginning::wanted_beginning;
use crate::events::number_of;
use crate::forms::sides;
use crate::global_scope::GlobalScope;
use crate::row::{Row, begins_so, extended};
use crate::scope::Scope;
use std::alloc::{AllocError, Allocator};
use syntax::Tree;
use tokens::{Position, ReadError, ScriptErrorKind, fault};
use values::Value;

/// The values after so many.
fn behind<A: Allocator>(values: &[Value<A>], count: usize) -> &[Value<A>]
    ensures { result.now ≡ drop count values.now }
{
    if count < values.len() {
        &values[count..]
    } else {
        &[]
    }
}

/// The right side of a pair, followed by the event's values after so many.
#[tactic(auto, using(crate::proofs::Rows::drop_view))]
fn image<A: Allocator + Copy>(
    alloc: A,
    right: &Row<A>,
    event: &Row<A>,
    count: usize,
) -> Result<Row<A>, AllocError>
    ensures { IfOk result (λ r. beginning_of r ≡ (right.now.channel.items, listed right.now.values.items ++ drop count (listed event.now.values.items))) }
{
    let values = extended(Vec::new(alloc), &right.values)?;
    let values = extended(values, behind(&event.values, count))?;
    Ok(Row {
        channel: Vec::from_slice(alloc, &right.channel)?,
        values,
    })
}

/// The pairs before, and after them those of the events that begin with the left side; `OutOfRange` where one is taken
/// to no event.
fn pairs_from<A: Allocator + Copy>(
    alloc: A,
    events: &[Row<A>],
    left: &Row<A>,
    right: &Row<A>,
    before: Vec<(u8, u8), A>,
    line: Position,
) -> Result<Vec<(u8, u8), A>, ReadError>
    requires { length events.now ≤ 256 }
    ensures { (channels : List Channel) → map row events.now ≡ events_of channels → Gives (λ v. v.items) result (behind_pairs before.items (pairs_from_events channels (beginning_of left.now) (beginning_of right.now) 0 (events_of channels))) }
{
    let mut pairs = before;
    for (number, event) in events.iter().enumerate() {
        if begins_so(left, event) {
            let wanted = image(alloc, right, event, left.values.len())?;
            match number_of(events, &wanted) {
                Some(target) => pairs.push((number as u8, target as u8))?,
                None => return Err(fault(line, ScriptErrorKind::OutOfRange)),
            }
        }
    }
    Ok(pairs)
}

/// The pairs before, and after them those of one `left <- right`.
fn pairs_with<A: Allocator + Copy, G: GlobalScope<A>>(
    alloc: A,
    scope: &Scope<'_, A, G>,
    tree: &Tree<A>,
    before: Vec<(u8, u8), A>,
) -> Result<Vec<(u8, u8), A>, ReadError>
    ensures { Gives (λ v. v.items) result (behind_pairs before.items (pair_of (G.scope scope.now.global.now).channels (within (G.scope scope.now.global.now) (map input scope.now.inputs.items)).known (shape tree.now))) }
{
    match sides(tree) {
        None => Err(fault(tree.line(), ScriptErrorKind::Expected)),
        Some((left, right)) => {
            let left = wanted_beginning(alloc, scope, left)?;
            let right = wanted_beginning(alloc, scope, right)?;
            pairs_from(
                alloc,
                scope.global.events(),
                &left,
                &right,
                before,
                tree.line(),
            )
        }
    }
}

/// The pairs of a renaming, as they are written from left to right. A fault has the line of the phrase that is at fault; a
/// pair that takes an event to none is `OutOfRange` at its left side.
pub fn pairs_of<A: Allocator + Copy, G: GlobalScope<A>>(
    alloc: A,
    scope: &Scope<'_, A, G>,
    trees: &[Tree<A>],
) -> Result<Vec<(u8, u8), A>, ReadError>
    ensures { Gives (λ v. v.items) result (pairs_of_all (G.scope scope.now.global.now).channels (within (G.scope scope.now.global.now) (map input scope.now.inputs.items)).known (syntaxes (shapes trees.now))) }
{
    let mut pairs = Vec::new(alloc);
    for tree in trees {
        pairs = pairs_with(alloc, scope, tree, pairs)?;
    }
    Ok(pairs)
}
