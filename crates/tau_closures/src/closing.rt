//! Levels of processes, each with what one hidden step more reaches.

ghost use Rattle.std.specs.Prelude.{◌≡◌, ◌↔◌, ◌≤◌, IfOk, IfErr, OnOk, IsTrue, drop, length};
ghost use Rattle.alphabet.specs.Channels.{event_count};
ghost use Rattle.term.specs.Limits.{Distinct, HasDeep, most_states};
ghost use Rattle.term.specs.Proc.{bodies_of};
ghost use Rattle.term.specs.Specs.{IsClosed};
ghost use Rattle.targets.specs.declared.labels.Label.TheVariants as label;
ghost use Rattle.targets.specs.Cuts.{CutOf};
ghost use Rattle.nodes.specs.Looks.{look, AllBelow};
ghost use Rattle.keeping.specs.Kept.{StaysKept};
ghost use Rattle.tau_closures.specs.Belonging.{MeetsLimit};
ghost use Rattle.tau_closures.specs.Closing.{AllLie, AllShallow, Among, Grows, IsClosure, IsStuck, Opens, TargetOf};

use crate::fault::AfterFault;
use crate::numbers::{Numbers, put_targets};
use alphabet::Event;
use keeping::States;
use std::alloc::{AllocError, Allocator};
use targets::Label;
use term::Spec;
use transitions::MOST_STATES;

/// All that hidden steps reach from these processes, themselves among them. Goes level by level; each one's steps are
/// listed once.
pub(crate) fn close<A: Allocator + Copy>(
    spec: &Spec<A>,
    states: &mut States<A>,
    alloc: A,
    first: Numbers<A>,
) -> Result<Vec<u32, A>, AfterFault>
    requires closed { IsClosed spec.now }
    requires bodies { states.old.all.bodies ≡ spec.now.bodies }
    requires here { AllBelow (length states.old.all.table.processes) first }
    requires first { Opens spec.now (look states.old.all.table.processes first) }
    ensures here { IfOk result (λ set. AllBelow (length states.new.all.table.processes) set.items) }
    ensures ok { IfOk result (λ set. IsClosure (bodies_of spec.now.bodies) (Among (look states.old.all.table.processes first)) (look states.new.all.table.processes set.items)) }
    ensures err { IfErr result (MeetsLimit (bodies_of spec.now.bodies) (Among (look states.old.all.table.processes first))) }
    ensures kept { StaysKept states.old states.new }
{
    match closed(spec, states, alloc, first) {
        Ok(seen) => Ok(seen.into_vec(alloc)?),
        Err(fault) => Err(fault),
    }
}

// The numbers of all that hidden steps reach from these processes.
fn closed<A: Allocator + Copy>(
    spec: &Spec<A>,
    states: &mut States<A>,
    alloc: A,
    first: Numbers<A>,
) -> Result<Numbers<A>, AfterFault>
    requires closed { IsClosed spec.now }
    requires bodies { states.old.all.bodies ≡ spec.now.bodies }
    requires here { AllBelow (length states.old.all.table.processes) first }
    requires first { Opens spec.now (look states.old.all.table.processes first) }
    ensures here { IfOk result (λ set. AllBelow (length states.new.all.table.processes) set) }
    ensures ok { IfOk result (λ set. IsClosure (bodies_of spec.now.bodies) (Among (look states.old.all.table.processes first)) (look states.new.all.table.processes set)) }
    ensures err { IfErr result (MeetsLimit (bodies_of spec.now.bodies) (Among (look states.old.all.table.processes first))) }
    ensures kept { StaysKept states.old states.new }
{
    let events = spec.alphabet().len();
    prove!(events <= 256);
    let mut seen = first;
    let mut from = 0;
    while from < seen.len() {
        let level = seen.len();
        match add_level(spec, states, alloc, &mut seen, from) {
            Ok(()) => from = level,
            Err(fault) => return Err(fault),
        }
    }
    Ok(seen)
}

/// Adds what the next level has over this one. The processes before `from` are expanded already.
fn add_level<A: Allocator + Copy>(
    spec: &Spec<A>,
    states: &mut States<A>,
    alloc: A,
    seen: &mut Numbers<A>,
    from: usize,
) -> Result<(), AfterFault>
    requires events { event_count spec.now.alphabet ≤ 256 }
    requires bodies { states.old.all.bodies ≡ spec.now.bodies }
    requires here { AllBelow (length states.old.all.table.processes) seen.old }
    requires once { Distinct (look states.old.all.table.processes seen.old) }
    requires few { length seen.old ≤ most_states }
    requires from { from ≤ length seen.old }
    requires lies { AllLie spec.now (look states.old.all.table.processes seen.old) }
    requires shallow { AllShallow (look states.old.all.table.processes seen.old) }
    ensures here { OnOk result (AllBelow (length states.new.all.table.processes) seen.new) }
    ensures ok { OnOk result (Grows (bodies_of spec.now.bodies) (drop from (look states.old.all.table.processes seen.old)) (look states.old.all.table.processes seen.old) (look states.new.all.table.processes seen.new)) }
    ensures err { IfErr result (IsStuck (bodies_of spec.now.bodies) (drop from (look states.old.all.table.processes seen.old)) (look states.old.all.table.processes seen.old)) }
    ensures kept { StaysKept states.old states.new }
{
    if any_deep_target(states, seen.tail(from))? {
        return Err(AfterFault::Depth);
    }
    let level = seen.len();
    let mut found = Vec::new(alloc);
    for place in from..level {
        let number = seen.number(place);
        put_targets(states, number, Label::Tau, &mut found, seen)?;
        if seen.len() > MOST_STATES {
            return Err(AfterFault::States);
        }
    }
    Ok(())
}

/// Whether a hidden step of one of the processes leads too deep. None of them is too deep.
fn any_deep_target<A: Allocator>(
    states: &mut States<A>,
    numbers: &[u32],
) -> Result<bool, AllocError>
    requires here { AllBelow (length states.old.all.table.processes) numbers.now }
    requires shallow { AllShallow (look states.old.all.table.processes numbers.now) }
    ensures deep { IfOk result (λ deep. IsTrue deep ↔ HasDeep (TargetOf (bodies_of states.old.all.bodies) (look states.old.all.table.processes numbers.now) label.Tau)) }
    ensures same { states.new ≡ states.old }
{
    for number in numbers {
        if states.has_deep_target(*number)? {
            return Ok(true);
        }
    }
    Ok(false)
}

/// The targets of the event from the processes. Where there are too many, the fault says so.
pub(crate) fn first_level<A: Allocator + Copy>(
    spec: &Spec<A>,
    states: &mut States<A>,
    alloc: A,
    numbers: &[u32],
    event: Event,
) -> Result<Numbers<A>, AfterFault>
    requires bodies { states.old.all.bodies ≡ spec.now.bodies }
    requires here { AllBelow (length states.old.all.table.processes) numbers.now }
    requires lies { AllLie spec.now (look states.old.all.table.processes numbers.now) }
    requires shallow { AllShallow (look states.old.all.table.processes numbers.now) }
    ensures here { IfOk result (λ first. AllBelow (length states.new.all.table.processes) first) }
    ensures all { IfOk result (λ first. CutOf (TargetOf (bodies_of spec.now.bodies) (look states.old.all.table.processes numbers.now) (label.Event event)) most_states (look states.new.all.table.processes first)) }
    ensures few { IfOk result (λ first. length first ≤ most_states) }
    ensures err { IfErr result (MeetsLimit (bodies_of spec.now.bodies) (TargetOf (bodies_of spec.now.bodies) (look states.old.all.table.processes numbers.now) (label.Event event))) }
    ensures kept { StaysKept states.old states.new }
{
    let events = spec.alphabet().len();
    prove!(events <= 256);
    let mut first = Numbers::with_room(alloc, numbers.len());
    let mut found = Vec::new(alloc);
    for number in numbers {
        put_targets(states, *number, Label::Event(event), &mut found, &mut first)?;
        if first.len() > MOST_STATES {
            return Err(AfterFault::States);
        }
    }
    Ok(first)
}
