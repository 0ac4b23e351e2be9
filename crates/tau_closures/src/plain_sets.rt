//! Sets of states where names stay names: from the opening on, one event after the other.

ghost use Rattle.std.specs.Prelude.{◌≡◌, ◌++◌, ◌∷◌, [], List, IfErr, IfNone, IfOk, IfSome, OnOk, length};
ghost use Rattle.alphabet.specs.declared.events.Event.{Event};
ghost use Rattle.term.specs.Limits.{Advance, NoLimit, Opening};
ghost use Rattle.term.specs.Meaning.{Trace};
ghost use Rattle.term.specs.Proc.{bodies_of, root};
ghost use Rattle.term.specs.Specs.{IsClosed};
ghost use Rattle.nodes.specs.Looks.{look, AllBelow};
ghost use Rattle.keeping.specs.Kept.{StaysKept};
ghost use Rattle.tau_closures.specs.Belonging.{Belongs, MeetsLimit};
ghost use Rattle.tau_closures.specs.Closing.{AllShallow};

use crate::closing::{close, first_level};
use crate::fault::AfterFault;
use crate::numbers::root_alone;
use alphabet::Event;
use keeping::States;
use std::alloc::Allocator;
use term::Spec;

/// The set of the empty trace, or why there is none: the limit that the levels of the opening meet.
pub(crate) fn plain_start<A: Allocator + Copy>(
    spec: &Spec<A>,
    states: &mut States<A>,
    alloc: A,
) -> Result<Vec<u32, A>, AfterFault>
    requires closed { IsClosed spec.now }
    requires bodies { states.old.all.bodies ≡ spec.now.bodies }
    requires deep { states.old.deep ≡ 0 }
    ensures here { IfOk result (λ set. AllBelow (length states.new.all.table.processes) set.items) }
    ensures shallow { IfOk result (λ set. AllShallow (look states.new.all.table.processes set.items)) }
    ensures belongs { IfOk result (λ set. Belongs spec.now (look states.new.all.table.processes set.items) []) }
    ensures within { OnOk result (NoLimit (bodies_of spec.now.bodies) Opening) }
    ensures limit { IfErr result (MeetsLimit (bodies_of spec.now.bodies) Opening) }
    ensures kept { StaysKept states.old states.new }
{
    let first = root_alone(states, alloc)?;
    close(spec, states, alloc, first)
}

/// What comes of the set by this event: none where no trace goes on so. It is refused where the levels of the event meet a limit,
/// which the fault says.
pub(crate) fn plain_advance<A: Allocator + Copy>(
    spec: &Spec<A>,
    states: &mut States<A>,
    alloc: A,
    set: &[u32],
    event: Event,
) -> Result<Option<Vec<u32, A>>, AfterFault>
    requires closed { IsClosed spec.now }
    requires bodies { states.old.all.bodies ≡ spec.now.bodies }
    requires here { AllBelow (length states.old.all.table.processes) set.now }
    requires shallow { AllShallow (look states.old.all.table.processes set.now) }
    requires set { (u : List Event) × Belongs spec.now (look states.old.all.table.processes set.now) u }
    ensures here { IfOk result (λ next. IfSome next (λ found. AllBelow (length states.new.all.table.processes) found.items)) }
    ensures shallow { IfOk result (λ next. IfSome next (λ found. AllShallow (look states.new.all.table.processes found.items))) }

    // For each trace to which the set belongs.
    ensures none { (u : List Event) → Belongs spec.now (look states.old.all.table.processes set.now) u → IfOk result (λ next. IfNone next (Trace (bodies_of spec.now.bodies) root (u ++ event ∷ []) → ⊥)) }
    ensures some { (u : List Event) → Belongs spec.now (look states.old.all.table.processes set.now) u → IfOk result (λ next. IfSome next (λ found. Trace (bodies_of spec.now.bodies) root (u ++ event ∷ []) × Belongs spec.now (look states.new.all.table.processes found.items) (u ++ event ∷ []))) }
    ensures within { (u : List Event) → Belongs spec.now (look states.old.all.table.processes set.now) u → OnOk result (NoLimit (bodies_of spec.now.bodies) (Advance (bodies_of spec.now.bodies) u event)) }
    ensures limit { (u : List Event) → Belongs spec.now (look states.old.all.table.processes set.now) u → IfErr result (MeetsLimit (bodies_of spec.now.bodies) (Advance (bodies_of spec.now.bodies) u event)) }
    ensures kept { StaysKept states.old states.new }
{
    let first = match first_level(spec, states, alloc, set, event) {
        Ok(first) => first,
        Err(fault) => return Err(fault),
    };
    if first.is_empty() {
        return Ok(None);
    }
    match close(spec, states, alloc, first) {
        Ok(next) => Ok(Some(next)),
        Err(fault) => Err(fault),
    }
}
