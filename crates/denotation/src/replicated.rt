//! The parts of replicated forms that make no process.
ghost use Rattle.std.specs.Prelude.{map};
ghost use Rattle.syntax.specs.View.{shape};
ghost use Rattle.values.specs.Tables.{input};
ghost use Rattle.values.specs.View.{Gives, values};
ghost use Rattle.event_phrases.specs.Scopes.{within};
ghost use Rattle.denotation.specs.Phrases.{all_joined as joined_all, generator_values};
ghost use Rattle.denotation.specs.Rooms.{spare_joined};
ghost use Rattle.denotation.specs.View.{body};

use crate::choice::halved_within;
use crate::draft::Draft;
use crate::forms::Join;
use event_phrases::{GlobalScope, Scope, wanted_values};
use std::alloc::Allocator;
use syntax::Tree;
use tokens::{Position, ReadError, ScriptErrorKind, fault};
use values::Values;

/// The values of a generator with this name and this set, on this line.
#[tactic(auto)]
pub(crate) fn values_of<A: Allocator + Copy, G: GlobalScope<A>>(
    alloc: A,
    scope: &Scope<'_, A, G>,
    name: &[u8],
    set: &Tree<A>,
    line: Position,
) -> Result<Values<A>, ReadError>
    ensures { Gives values result (generator_values (within (G.scope scope.now.global.now) (map input scope.now.inputs.items)) name.now (shape set.now)) }
{
    if scope.global.is_constant(name) {
        return Err(fault(line, ScriptErrorKind::Unsupported));
    }
    wanted_values(alloc, scope, set)
}

/// The bodies of a replicated form on this line, joined so.
pub(crate) fn all_joined<A: Allocator + Copy>(
    alloc: A,
    join: Join,
    drafts: Vec<Draft<A>, A>,
    room: &mut usize,
    definition: Position,
    line: Position,
) -> Result<Draft<A>, ReadError>
    ensures { Gives (λ b. (body b, room.new)) result (spare_joined join (map body drafts.items) room.old) }
{
    match join {
        Join::Sequence | Join::Interrupt => Err(fault(line, ScriptErrorKind::Expected)),
        Join::Internal => {
            let length = drafts.len();
            if length < 1 {
                return Err(fault(line, ScriptErrorKind::OutOfRange));
            }
            halved_within(alloc, join, drafts, room, definition)
        }
        Join::External | Join::Interleaving => halved_within(alloc, join, drafts, room, definition),
    }
}
