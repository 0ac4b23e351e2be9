//! Bodies of phrases with no process in them.
ghost use Rattle.std.specs.Prelude.{map};
ghost use Rattle.values.specs.Tables.{input};
ghost use Rattle.values.specs.View.{Gives};
ghost use Rattle.event_phrases.specs.Scopes.{within};
ghost use Rattle.denotation.specs.Bodies.{skip as skip_of, stop as stop_of};
ghost use Rattle.denotation.specs.Phrases.{called as called_by, denoted};
ghost use Rattle.denotation.specs.Rooms.{fits, spare};
ghost use Rattle.denotation.specs.View.{body};

use crate::call::Call;
use crate::calls::refer;
use crate::draft::Draft;
use crate::room::spend_nodes;
use event_phrases::{GlobalScope, Scope};
use std::alloc::Allocator;
use tokens::{Position, ReadError, ScriptErrorKind, fault};

/// `STOP`, where there is room for it.
#[tactic(auto, unfolding(crate::specs::Phrases::denoted, crate::specs::Bodies::size, crate::specs::Rooms::fit))]
pub(crate) fn stop<A: Allocator>(room: &mut usize, line: Position) -> Result<Draft<A>, ReadError>
    ensures { Gives (λ b. (body b, room.new)) result (spare 1 stop_of room.old) }
{
    spend_nodes(room, 1, line)?;
    Ok(Draft::Stop)
}

/// `SKIP`, where there is room for it.
pub(crate) fn skip<A: Allocator>(room: &mut usize, line: Position) -> Result<Draft<A>, ReadError>
    ensures { Gives (λ b. (body b, room.new)) result (spare 1 skip_of room.old) }
{
    spend_nodes(room, 1, line)?;
    Ok(Draft::Skip)
}

/// The definition with this name, on this line.
#[tactic(auto, unfolding(crate::specs::Phrases::denoted, crate::specs::Rooms::fit, crate::specs::Bodies::size), using(event_phrases::proofs::Scopes::hidden, event_phrases::proofs::Scopes::seen))]
pub(crate) fn called<A: Allocator + Copy, G: GlobalScope<A>>(
    alloc: A,
    scope: &Scope<'_, A, G>,
    name: &[u8],
    line: Position,
    room: &mut usize,
) -> Result<Draft<A>, ReadError>
    ensures { Gives (λ b. (body b, room.new)) result (fits room.old (denoted (called_by name.now) (within (G.scope scope.now.global.now) (map input scope.now.inputs.items)))) }
{
    if scope.is_value(name) {
        return Err(fault(line, ScriptErrorKind::Expected));
    }
    if !scope.global.is_process(name) {
        return Err(scope.global.fault(name, line));
    }
    let call = Call {
        name: Vec::from_slice(alloc, name)?,
        arguments: Vec::new(alloc),
    };
    refer(call, room, scope.line)
}
