//! Room for nodes.
ghost use Rattle.values.specs.View.{Gives};
ghost use Rattle.denotation.specs.Rooms.{room_left};

use tokens::{Position, ReadError, ScriptErrorKind, fault};

/// Takes so many nodes of those that may still be made; `TooLarge` where there is no room for them.
#[tactic(auto, unfolding(crate::specs::Rooms::room_left))]
pub(crate) fn spend_nodes(room: &mut usize, nodes: usize, line: Position) -> Result<(), ReadError>
    ensures { Gives (λ _. room.new) result (room_left nodes room.old) }
{
    if *room < nodes {
        return Err(fault(line, ScriptErrorKind::TooLarge));
    }
    *room -= nodes;
    Ok(())
}
