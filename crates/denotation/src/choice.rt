//! Lists of bodies joined two and two.
ghost use Rattle.std.specs.Prelude.{◌≡◌, IfOk, map};
ghost use Rattle.values.specs.View.{Gives};
ghost use Rattle.denotation.specs.Bodies.{choice_of, halved as halved_over};
ghost use Rattle.denotation.specs.Phrases.{join_of, none_of};
ghost use Rattle.denotation.specs.Rooms.{halved_nodes, spare};
ghost use Rattle.denotation.specs.View.{body};

use crate::draft::{Draft, Joint};
use crate::forms::Join;
use crate::joining::joined;
use crate::room::spend_nodes;
use std::alloc::{AllocError, Allocator};
use tokens::{Position, ReadError};

/// What a list without bodies is, joined so.
#[tactic(auto, unfolding(crate::specs::Phrases::none_of))]
fn none<A: Allocator>(join: Join) -> Draft<A>
    ensures { body result ≡ none_of join }
{
    match join {
        Join::Interleaving => Draft::Skip,
        Join::Sequence | Join::Interrupt | Join::External | Join::Internal => Draft::Stop,
    }
}

/// `STOP` or `SKIP` for none, the one for one, else the first half so joined, joined with the rest so joined.
#[tactic(auto, using(crate::proofs::Choices::halved_none, crate::proofs::Choices::halved_one, crate::proofs::Choices::halved_halves), unfolding(crate::specs::Phrases::joint_of))]
fn halved<A: Allocator + Copy>(
    alloc: A,
    join: Join,
    drafts: Vec<Draft<A>, A>,
) -> Result<Draft<A>, AllocError>
    ensures { IfOk result (λ b. body b ≡ halved_over (join_of join) (none_of join) (map body drafts.items)) }
{
    let mut drafts = drafts;
    let length = drafts.len();
    if length < 2 {
        return match drafts.pop() {
            Some(only) => Ok(only),
            None => Ok(none(join)),
        };
    }
    let rest = drafts.split_off(length - length / 2)?;
    let first = halved(alloc, join, drafts)?;
    let second = halved(alloc, join, rest)?;
    joined(alloc, Joint::Join(join), first, second)
}

/// How many nodes joining the bodies takes itself.
#[tactic(auto, unfolding(crate::specs::Rooms::halved_nodes))]
fn nodes_of_halved<A: Allocator>(drafts: &[Draft<A>]) -> usize
    ensures { result ≡ halved_nodes (map body drafts.now) }
{
    match drafts {
        [] => 1,
        [_, rest @ ..] => rest.len(),
    }
}

/// The bodies joined two and two, where there is room for the nodes of this.
pub(crate) fn halved_within<A: Allocator + Copy>(
    alloc: A,
    join: Join,
    drafts: Vec<Draft<A>, A>,
    room: &mut usize,
    line: Position,
) -> Result<Draft<A>, ReadError>
    ensures { Gives (λ b. (body b, room.new)) result (spare (halved_nodes (map body drafts.items)) (halved_over (join_of join) (none_of join) (map body drafts.items)) room.old) }
{
    let nodes = nodes_of_halved(&drafts);
    spend_nodes(room, nodes, line)?;
    let joined = halved(alloc, join, drafts)?;
    Ok(joined)
}

/// The choice over the bodies, where there is room for its nodes.
#[tactic(auto, unfolding(crate::specs::Phrases::join_of, crate::specs::Phrases::none_of))]
pub(crate) fn chosen<A: Allocator + Copy>(
    alloc: A,
    drafts: Vec<Draft<A>, A>,
    room: &mut usize,
    line: Position,
) -> Result<Draft<A>, ReadError>
    ensures { Gives (λ b. (body b, room.new)) result (spare (halved_nodes (map body drafts.items)) (choice_of (map body drafts.items)) room.old) }
{
    halved_within(alloc, Join::External, drafts, room, line)
}
