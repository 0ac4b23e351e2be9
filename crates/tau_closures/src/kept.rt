//! Levels of processes with exposed names replaced, each with what one hidden step more reaches.

ghost use Rattle.std.specs.Prelude.{◌≡◌, ◌↔◌, ◌≤◌, ◌<◌, IfOk, IfErr, OnOk, IsTrue, drop, length};
ghost use Rattle.alphabet.specs.Channels.{event_count};
ghost use Rattle.term.specs.Limits.{Distinct, HasDeep, HasMany, most_states};
ghost use Rattle.term.specs.Proc.{bodies_of};
ghost use Rattle.term.specs.Specs.{IsClosed};
ghost use Rattle.targets.specs.declared.labels.Label.TheVariants as label;
ghost use Rattle.targets.specs.Labels.{Step};
ghost use Rattle.nodes.specs.Shapes.{at};
ghost use Rattle.nodes.specs.Looks.{look, AllBelow};
ghost use Rattle.transitions.specs.Numbered.{HidesEvents};
ghost use Rattle.keeping.specs.Kept.{StaysKept};
ghost use Rattle.tau_closures.specs.Closing.{AllLie, AllShallow, Among, Opens};
ghost use Rattle.tau_closures.specs.Kept.{AreBroadBy, AreKeptTargets, HasPutAll, IsBroadFault, IsKeptClosure, IsKeptStuck, KeptGrows, KeptStep, KeptTargetOf};
ghost use Rattle.tau_closures.specs.Limits.{MeetsKeptLimit};

use crate::breadth::is_broad;
use crate::fault::AfterFault;
use crate::numbers::{Numbers, put_all};
use alphabet::Event;
use keeping::States;
use std::alloc::Allocator;
use targets::Label;
use term::Spec;
use transitions::MOST_STATES;

/// All that hidden steps reach from these processes, themselves among them, exposed names replaced after each step. Goes level
/// by level.
pub(crate) fn close_kept<A: Allocator + Copy>(
    spec: &Spec<A>,
    states: &mut States<A>,
    alloc: A,
    first: Numbers<A>,
) -> Result<Vec<u32, A>, AfterFault>
    requires closed { IsClosed spec.now }
    requires bodies { states.old.all.bodies ≡ spec.now.bodies }
    requires here { AllBelow (length states.old.all.table.processes) first }
    requires first { Opens spec.now (look states.old.all.table.processes first) }
    ensures here { IfOk result (λ set. AllBelow (length states.new.all.table.processes) set.items) }
    ensures ok { IfOk result (λ set. IsKeptClosure (bodies_of spec.now.bodies) states.old.deep (Among (look states.old.all.table.processes first)) ⊥ (look states.new.all.table.processes set.items)) }
    ensures err { IfErr result (MeetsKeptLimit (bodies_of spec.now.bodies) states.old.deep (Among (look states.old.all.table.processes first)) ⊥) }
    ensures kept { StaysKept states.old states.new }
{
    match closed_kept(spec, states, alloc, first) {
        Ok(seen) => Ok(seen.into_vec(alloc)?),
        Err(fault) => Err(fault),
    }
}

// The numbers of all that hidden steps reach from these processes, exposed names replaced after each step.
fn closed_kept<A: Allocator + Copy>(
    spec: &Spec<A>,
    states: &mut States<A>,
    alloc: A,
    first: Numbers<A>,
) -> Result<Numbers<A>, AfterFault>
    requires closed { IsClosed spec.now }
    requires bodies { states.old.all.bodies ≡ spec.now.bodies }
    requires here { AllBelow (length states.old.all.table.processes) first }
    requires first { Opens spec.now (look states.old.all.table.processes first) }
    ensures here { IfOk result (λ set. AllBelow (length states.new.all.table.processes) set) }
    ensures ok { IfOk result (λ set. IsKeptClosure (bodies_of spec.now.bodies) states.old.deep (Among (look states.old.all.table.processes first)) ⊥ (look states.new.all.table.processes set)) }
    ensures err { IfErr result (MeetsKeptLimit (bodies_of spec.now.bodies) states.old.deep (Among (look states.old.all.table.processes first)) ⊥) }
    ensures kept { StaysKept states.old states.new }
{
    let events = spec.alphabet().len();
    prove!(events <= 256);
    let mut seen = first;
    let mut from = 0;
    while from < seen.len() {
        let level = seen.len();
        match add_kept_level(spec, states, alloc, &mut seen, from) {
            Ok(()) => from = level,
            Err(fault) => return Err(fault),
        }
    }
    Ok(seen)
}

/// Adds what the next level has over this one. The processes before `from` are expanded already.
fn add_kept_level<A: Allocator + Copy>(
    spec: &Spec<A>,
    states: &mut States<A>,
    alloc: A,
    seen: &mut Numbers<A>,
    from: usize,
) -> Result<(), AfterFault>
    requires events { event_count spec.now.alphabet ≤ 256 }
    requires bodies { states.old.all.bodies ≡ spec.now.bodies }
    requires here { AllBelow (length states.old.all.table.processes) seen.old }
    requires once { Distinct (look states.old.all.table.processes seen.old) }
    requires few { length seen.old ≤ most_states }
    requires from { from ≤ length seen.old }
    requires lies { AllLie spec.now (look states.old.all.table.processes seen.old) }
    requires shallow { AllShallow (look states.old.all.table.processes seen.old) }
    ensures here { OnOk result (AllBelow (length states.new.all.table.processes) seen.new) }
    ensures ok { OnOk result (KeptGrows (bodies_of spec.now.bodies) states.old.deep (drop from (look states.old.all.table.processes seen.old)) (look states.old.all.table.processes seen.old) (look states.new.all.table.processes seen.new)) }
    ensures err { IfErr result (IsKeptStuck (bodies_of spec.now.bodies) states.old.deep (drop from (look states.old.all.table.processes seen.old)) (look states.old.all.table.processes seen.old)) }
    ensures kept { StaysKept states.old states.new }
{
    let level = seen.len();
    let mut found = Vec::new(alloc);
    let mut kept = Vec::new(alloc);
    for place in from..level {
        let number = seen.number(place);
        match put_kept(
            states,
            alloc,
            number,
            Label::Tau,
            &mut found,
            &mut kept,
            seen,
        ) {
            Ok(()) => {}
            Err(fault) => return Err(fault),
        }
        if seen.len() > MOST_STATES {
            return Err(AfterFault::States);
        }
    }
    if any_deep(states, seen.tail(level)) {
        return Err(AfterFault::Depth);
    }
    Ok(())
}

/// Whether one of the processes is deeper than a state may be.
pub(crate) fn any_deep<A: Allocator + Copy>(states: &States<A>, numbers: &[u32]) -> bool
    requires here { AllBelow (length states.now.all.table.processes) numbers.now }
    ensures { IsTrue result ↔ HasDeep (Among (look states.now.all.table.processes numbers.now)) }
{
    for number in numbers {
        if states.is_deep(*number) {
            return true;
        }
    }
    false
}

/// Appends what the process becomes by the steps with this label, with exposed names replaced, unless it is in the list.
/// `found` and `kept` lend their memory.
fn put_kept<A: Allocator + Copy>(
    states: &mut States<A>,
    alloc: A,
    number: u32,
    label: Label,
    found: &mut Vec<u32, A>,
    kept: &mut Vec<u32, A>,
    into: &mut Numbers<A>,
) -> Result<(), AfterFault>
    requires number { number < length states.old.all.table.processes }
    requires hides { HidesEvents states.old.all number }
    requires here { AllBelow (length states.old.all.table.processes) into.old }
    ensures here { OnOk result (AllBelow (length states.new.all.table.processes) into.new) }
    ensures put { OnOk result (HasPutAll (KeptStep (bodies_of states.old.all.bodies) states.old.deep label (at states.old.all.table.processes number)) (look states.old.all.table.processes into.old) (look states.new.all.table.processes into.new)) }
    ensures narrow { OnOk result (HasMany (Step (bodies_of states.old.all.bodies) (at states.old.all.table.processes number) label) → ⊥) }
    ensures err { IfErr result (IsBroadFault (Step (bodies_of states.old.all.bodies) (at states.old.all.table.processes number) label)) }
    ensures kept { StaysKept states.old states.new }
{
    if is_broad(states, number, label, alloc)? {
        return Err(AfterFault::States);
    }
    found.clear();
    states.put_targets(number, label, found)?;
    if found.len() > MOST_STATES {
        return Err(AfterFault::States);
    }
    kept.clear();
    states.keep_all(found, kept)?;
    put_all(states.all(), kept, into)?;
    Ok(())
}

/// The targets of the event from the processes, with exposed names replaced. Where there are too many, or one is too deep, the
/// fault says so.
pub(crate) fn first_kept<A: Allocator + Copy>(
    spec: &Spec<A>,
    states: &mut States<A>,
    alloc: A,
    numbers: &[u32],
    event: Event,
) -> Result<Numbers<A>, AfterFault>
    requires bodies { states.old.all.bodies ≡ spec.now.bodies }
    requires here { AllBelow (length states.old.all.table.processes) numbers.now }
    requires lies { AllLie spec.now (look states.old.all.table.processes numbers.now) }
    ensures here { IfOk result (λ first. AllBelow (length states.new.all.table.processes) first) }
    ensures all { IfOk result (λ first. AreKeptTargets (bodies_of spec.now.bodies) states.old.deep (look states.old.all.table.processes numbers.now) (label.Event event) (look states.new.all.table.processes first)) }
    ensures err { IfErr result (MeetsKeptLimit (bodies_of spec.now.bodies) states.old.deep (KeptTargetOf (bodies_of spec.now.bodies) states.old.deep (look states.old.all.table.processes numbers.now) (label.Event event)) (AreBroadBy (bodies_of spec.now.bodies) (look states.old.all.table.processes numbers.now) (label.Event event))) }
    ensures kept { StaysKept states.old states.new }
{
    let events = spec.alphabet().len();
    prove!(events <= 256);
    let mut first = Numbers::with_room(alloc, numbers.len());
    let mut found = Vec::new(alloc);
    let mut kept = Vec::new(alloc);
    for number in numbers {
        match put_kept(
            states,
            alloc,
            *number,
            Label::Event(event),
            &mut found,
            &mut kept,
            &mut first,
        ) {
            Ok(()) => {}
            Err(fault) => return Err(fault),
        }
        if first.len() > MOST_STATES {
            return Err(AfterFault::States);
        }
    }
    if any_deep(states, first.as_slice()) {
        return Err(AfterFault::Depth);
    }
    Ok(first)
}
