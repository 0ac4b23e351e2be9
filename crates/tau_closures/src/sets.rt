//! Sets of states, names kept as the specification says: from the opening on, one event after the other.

ghost use Rattle.std.specs.Prelude.{◌≡◌, ◌++◌, ◌∷◌, [], List, IfErr, IfNone, IfOk, IfSome, OnOk, length};
ghost use Rattle.alphabet.specs.declared.events.Event.{Event};
ghost use Rattle.term.specs.Meaning.{Trace};
ghost use Rattle.term.specs.Proc.{bodies_of, root};
ghost use Rattle.term.specs.Specs.{IsClosed};
ghost use Rattle.nodes.specs.Looks.{look, AllBelow};
ghost use Rattle.unfolding.specs.Kept.{unfolding_depth};
ghost use Rattle.keeping.specs.Kept.{StaysKept};
ghost use Rattle.tau_closures.specs.Closing.{AllShallow};
ghost use Rattle.tau_closures.specs.KeptBelonging.{KeptBelongs};
ghost use Rattle.tau_closures.specs.Limits.{EventMeets, EventMeetsNone, OpeningMeets, OpeningMeetsNone};

use crate::fault::AfterFault;
use crate::kept_sets::{kept_advance, kept_start};
use crate::plain_sets::{plain_advance, plain_start};
use alphabet::Event;
use keeping::States;
use std::alloc::Allocator;
use term::{Names, Spec};

/// The set of the empty trace, or why there is none: the limit that the opening meets.
pub fn start<A: Allocator + Copy>(
    spec: &Spec<A>,
    states: &mut States<A>,
    alloc: A,
) -> Result<Vec<u32, A>, AfterFault>
    requires closed { IsClosed spec.now }
    requires bodies { states.old.all.bodies ≡ spec.now.bodies }
    requires deep { states.old.deep ≡ unfolding_depth spec.now }
    ensures here { IfOk result (λ set. AllBelow (length states.new.all.table.processes) set.items) }
    ensures shallow { IfOk result (λ set. AllShallow (look states.new.all.table.processes set.items)) }
    ensures belongs { IfOk result (λ set. KeptBelongs spec.now (unfolding_depth spec.now) (look states.new.all.table.processes set.items) []) }
    ensures within { OnOk result (OpeningMeetsNone spec.now) }
    ensures limit { IfErr result (OpeningMeets spec.now) }
    ensures kept { StaysKept states.old states.new }
{
    match spec.names() {
        Names::Steps => plain_start(spec, states, alloc),
        Names::Bodies => kept_start(spec, states, alloc),
    }
}

/// What comes of the set by this event: none where no trace goes on so. It is refused where the event meets a limit, which the
/// fault says.
pub fn advance<A: Allocator + Copy>(
    spec: &Spec<A>,
    states: &mut States<A>,
    alloc: A,
    set: &[u32],
    event: Event,
) -> Result<Option<Vec<u32, A>>, AfterFault>
    requires closed { IsClosed spec.now }
    requires bodies { states.old.all.bodies ≡ spec.now.bodies }
    requires deep { states.old.deep ≡ unfolding_depth spec.now }
    requires here { AllBelow (length states.old.all.table.processes) set.now }
    requires shallow { AllShallow (look states.old.all.table.processes set.now) }
    requires set { (u : List Event) × KeptBelongs spec.now (unfolding_depth spec.now) (look states.old.all.table.processes set.now) u }
    ensures here { IfOk result (λ next. IfSome next (λ found. AllBelow (length states.new.all.table.processes) found.items)) }
    ensures shallow { IfOk result (λ next. IfSome next (λ found. AllShallow (look states.new.all.table.processes found.items))) }

    // For each trace to which the set belongs.
    ensures none { (u : List Event) → KeptBelongs spec.now (unfolding_depth spec.now) (look states.old.all.table.processes set.now) u → IfOk result (λ next. IfNone next (Trace (bodies_of spec.now.bodies) root (u ++ event ∷ []) → ⊥)) }
    ensures some { (u : List Event) → KeptBelongs spec.now (unfolding_depth spec.now) (look states.old.all.table.processes set.now) u → IfOk result (λ next. IfSome next (λ found. Trace (bodies_of spec.now.bodies) root (u ++ event ∷ []) × KeptBelongs spec.now (unfolding_depth spec.now) (look states.new.all.table.processes found.items) (u ++ event ∷ []))) }
    ensures within { (u : List Event) → KeptBelongs spec.now (unfolding_depth spec.now) (look states.old.all.table.processes set.now) u → OnOk result (EventMeetsNone spec.now u event) }
    ensures limit { (u : List Event) → KeptBelongs spec.now (unfolding_depth spec.now) (look states.old.all.table.processes set.now) u → IfErr result (EventMeets spec.now u event) }
    ensures kept { StaysKept states.old states.new }
{
    match spec.names() {
        Names::Steps => plain_advance(spec, states, alloc, set, event),
        Names::Bodies => kept_advance(spec, states, alloc, set, event),
    }
}
