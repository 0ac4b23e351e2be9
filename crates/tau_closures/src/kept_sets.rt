//! Sets of states where names are kept as their bodies: from the opening on, one event after the other.

ghost use Rattle.std.specs.Prelude.{◌≡◌, ◌++◌, ◌∷◌, [], List, IfErr, IfNone, IfOk, IfSome, OnOk, length};
ghost use Rattle.alphabet.specs.declared.events.Event.{Event};
ghost use Rattle.term.specs.Meaning.{Trace};
ghost use Rattle.term.specs.Proc.{bodies_of, root};
ghost use Rattle.term.specs.Specs.{IsClosed};
ghost use Rattle.nodes.specs.Looks.{look, AllBelow};
ghost use Rattle.unfolding.specs.Kept.{HasBroadBy, KeptAdvance, KeptAfter, KeptOpening, NoKeptLimit};
ghost use Rattle.tau_closures.specs.Closing.{AllShallow};
ghost use Rattle.keeping.specs.Kept.{StaysKept};
ghost use Rattle.tau_closures.specs.Limits.{MeetsKeptLimit};
ghost use Rattle.tau_closures.specs.KeptBelonging.{KeptBelongs};

use crate::fault::AfterFault;
use crate::kept::{any_deep, close_kept, first_kept};
use crate::numbers::root_alone;
use alphabet::Event;
use keeping::States;
use std::alloc::Allocator;
use term::Spec;

/// The set of the empty trace, or why there is none: the limit that the levels of the opening meet.
pub(crate) fn kept_start<A: Allocator + Copy>(
    spec: &Spec<A>,
    states: &mut States<A>,
    alloc: A,
) -> Result<Vec<u32, A>, AfterFault>
    requires closed { IsClosed spec.now }
    requires bodies { states.old.all.bodies ≡ spec.now.bodies }
    ensures here { IfOk result (λ set. AllBelow (length states.new.all.table.processes) set.items) }
    ensures shallow { IfOk result (λ set. AllShallow (look states.new.all.table.processes set.items)) }
    ensures belongs { IfOk result (λ set. KeptBelongs spec.now states.old.deep (look states.new.all.table.processes set.items) []) }
    ensures within { OnOk result (NoKeptLimit (bodies_of spec.now.bodies) states.old.deep (KeptOpening (bodies_of spec.now.bodies) states.old.deep) ⊥) }
    ensures limit { IfErr result (MeetsKeptLimit (bodies_of spec.now.bodies) states.old.deep (KeptOpening (bodies_of spec.now.bodies) states.old.deep) ⊥) }
    ensures kept { StaysKept states.old states.new }
{
    let first = root_alone(states, alloc)?;
    if any_deep(states, first.as_slice()) {
        return Err(AfterFault::Depth);
    }
    close_kept(spec, states, alloc, first)
}

/// What comes of the set by this event: none where no trace goes on so. It is refused where the levels of the event meet a limit,
/// which the fault says.
pub(crate) fn kept_advance<A: Allocator + Copy>(
    spec: &Spec<A>,
    states: &mut States<A>,
    alloc: A,
    set: &[u32],
    event: Event,
) -> Result<Option<Vec<u32, A>>, AfterFault>
    requires closed { IsClosed spec.now }
    requires bodies { states.old.all.bodies ≡ spec.now.bodies }
    requires here { AllBelow (length states.old.all.table.processes) set.now }
    requires set { (u : List Event) × KeptBelongs spec.now states.old.deep (look states.old.all.table.processes set.now) u }
    ensures here { IfOk result (λ next. IfSome next (λ found. AllBelow (length states.new.all.table.processes) found.items)) }
    ensures shallow { IfOk result (λ next. IfSome next (λ found. AllShallow (look states.new.all.table.processes found.items))) }

    // For each trace to which the set belongs.
    ensures none { (u : List Event) → KeptBelongs spec.now states.old.deep (look states.old.all.table.processes set.now) u → IfOk result (λ next. IfNone next (Trace (bodies_of spec.now.bodies) root (u ++ event ∷ []) → ⊥)) }
    ensures some { (u : List Event) → KeptBelongs spec.now states.old.deep (look states.old.all.table.processes set.now) u → IfOk result (λ next. IfSome next (λ found. Trace (bodies_of spec.now.bodies) root (u ++ event ∷ []) × KeptBelongs spec.now states.old.deep (look states.new.all.table.processes found.items) (u ++ event ∷ []))) }
    ensures within { (u : List Event) → KeptBelongs spec.now states.old.deep (look states.old.all.table.processes set.now) u → OnOk result (NoKeptLimit (bodies_of spec.now.bodies) states.old.deep (KeptAdvance (bodies_of spec.now.bodies) states.old.deep u event) (HasBroadBy (KeptAfter (bodies_of spec.now.bodies) states.old.deep root u) event)) }
    ensures limit { (u : List Event) → KeptBelongs spec.now states.old.deep (look states.old.all.table.processes set.now) u → IfErr result (MeetsKeptLimit (bodies_of spec.now.bodies) states.old.deep (KeptAdvance (bodies_of spec.now.bodies) states.old.deep u event) (HasBroadBy (KeptAfter (bodies_of spec.now.bodies) states.old.deep root u) event)) }
    ensures kept { StaysKept states.old states.new }
{
    let first = match first_kept(spec, states, alloc, set, event) {
        Ok(first) => first,
        Err(fault) => return Err(fault),
    };
    if first.is_empty() {
        return Ok(None);
    }
    match close_kept(spec, states, alloc, first) {
        Ok(next) => Ok(Some(next)),
        Err(fault) => Err(fault),
    }
}
