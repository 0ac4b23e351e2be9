//! Bodies of calls.
ghost use Rattle.std.specs.Prelude.{map};
ghost use Rattle.syntax.specs.View.{shapes};
ghost use Rattle.values.specs.Tables.{input};
ghost use Rattle.values.specs.View.{Gives};
ghost use Rattle.event_phrases.specs.Scopes.{within};
ghost use Rattle.event_phrases.specs.View.{listed};
ghost use Rattle.denotation.specs.Bodies.{name as name_of};
ghost use Rattle.denotation.specs.Phrases.{arguments as arguments_of, called_with as call};
ghost use Rattle.denotation.specs.Rooms.{fits, spare};
ghost use Rattle.denotation.specs.View.{body, key};

use crate::call::Call;
use crate::draft::Draft;
use crate::room::spend_nodes;
use event_phrases::{GlobalScope, Scope, wanted_value};
use std::alloc::Allocator;
use syntax::Tree;
use tokens::{Position, ReadError, ScriptErrorKind, fault};
use values::Value;

/// The values that these phrases mean, from the left; the fault of the first that means none.
fn argument_values<A: Allocator + Copy, G: GlobalScope<A>>(
    alloc: A,
    scope: &Scope<'_, A, G>,
    phrases: &[Tree<A>],
) -> Result<Vec<Value<A>, A>, ReadError>
    ensures { Gives (λ v. listed v.items) result (arguments_of (within (G.scope scope.now.global.now) (map input scope.now.inputs.items)).known (shapes phrases.now)) }
{
    let mut found = Vec::with_capacity(alloc, phrases.len())?;
    for phrase in phrases {
        found.push(wanted_value(alloc, scope, phrase)?)?;
    }
    Ok(found)
}

/// The name of a definition with these values, where there is room for it.
pub(crate) fn refer<A: Allocator>(
    call: Call<A>,
    room: &mut usize,
    line: Position,
) -> Result<Draft<A>, ReadError>
    ensures { Gives (λ b. (body b, room.new)) result (spare 1 (name_of (key call)) room.old) }
{
    spend_nodes(room, 1, line)?;
    Ok(Draft::Name(call))
}

/// A call of the definition with this name, on this line.
pub(crate) fn called_with<A: Allocator + Copy, G: GlobalScope<A>>(
    alloc: A,
    scope: &Scope<'_, A, G>,
    name: &[u8],
    arguments: &[Tree<A>],
    line: Position,
    room: &mut usize,
) -> Result<Draft<A>, ReadError>
    ensures { Gives (λ b. (body b, room.new)) result (fits room.old (call name.now (shapes arguments.now) (within (G.scope scope.now.global.now) (map input scope.now.inputs.items)))) }
{
    if scope.is_value(name) {
        return Err(fault(line, ScriptErrorKind::Expected));
    }
    match scope.global.with_parameters(name) {
        None => Err(scope.global.call_fault(name, line)),
        Some((parameters, _)) => {
            if parameters.len() != arguments.len() {
                return Err(scope.global.call_fault(name, line));
            }
            let call = Call {
                arguments: argument_values(alloc, scope, arguments)?,
                name: Vec::from_slice(alloc, name)?,
            };
            refer(call, room, scope.line)
        }
    }
}
