//! The targets of a term's steps, found by number.

ghost use Rattle.std.specs.Prelude.{IfOk, OnOk, OnErr, Err, ◌≡◌, [], length, map, nat_lt};
ghost use Rattle.term.specs.Limits.{deepest_state};
ghost use Rattle.term.specs.Proc.{Proc, bodies_of, proc};
ghost use Rattle.term.specs.Sizes.{depth};
ghost use Rattle.term.specs.Specs.{IsProcessOf};
ghost use Rattle.targets.specs.HiddenSets.{SetsBelow};
ghost use Rattle.nodes.specs.Known.{IsKnown};
ghost use Rattle.nodes.specs.Looks.{look, AllBelow};
ghost use Rattle.step.specs.Labels.{AppendsTargets, AreAllTargets, HasDeepTarget, some_deep};

use crate::fault::StepFault;
use nodes::Facts;
use std::alloc::{AllocError, Allocator};
use targets::{DEEPEST_STATE, Label};
use term::{Spec, Term};
use transitions::Transitions;

/// A bound that no list of targets exceeds.
const ALL: usize = usize::MAX;

/// Appends the targets of the term's steps with this label, in any order; one may be appended twice. The term lies in
/// the specification. Where it fails, the list is as before. The term and the specification's bodies are put into a table
/// of their own, as the program has one, so a call costs their size and what is looked for. Want of memory also comes where
/// the table has given all its 4,294,967,295 numbers.
pub fn steps<A: Allocator + Clone>(
    spec: &Spec<A>,
    term: &Term<A>,
    label: Label,
    alloc: &A,
    into: &mut Vec<Term<A>, A>,
) -> Result<(), StepFault>
    requires { IsProcessOf spec.now (proc term.now) }
    ensures targets { OnOk result (AppendsTargets (bodies_of spec.now.bodies) (proc term.now) label (map proc into.old.items) (map proc into.new.items)) }

    // The fault of depth comes just where a target is too deep, unless memory is wanting.
    ensures within { OnOk result (HasDeepTarget (bodies_of spec.now.bodies) (proc term.now) label → ⊥) }
    ensures depth { result ≡ Err StepFault.Depth → HasDeepTarget (bodies_of spec.now.bodies) (proc term.now) label }
    ensures err { OnErr result (into.new.items ≡ into.old.items) }
{
    let mut found = shallow_targets(spec, term, label, alloc)?;
    into.append(&mut found)?;
    Ok(())
}

/// The targets, where none is deeper than a state may be.
fn shallow_targets<A: Allocator + Clone>(
    spec: &Spec<A>,
    term: &Term<A>,
    label: Label,
    alloc: &A,
) -> Result<Vec<Term<A>, A>, StepFault>
    requires { IsProcessOf spec.now (proc term.now) }
    ensures targets { IfOk result (λ found. AreAllTargets (bodies_of spec.now.bodies) (proc term.now) label (map proc found.items)) }
    ensures within { OnOk result (HasDeepTarget (bodies_of spec.now.bodies) (proc term.now) label → ⊥) }
    ensures depth { result ≡ Err StepFault.Depth → HasDeepTarget (bodies_of spec.now.bodies) (proc term.now) label }
{
    let _events = spec.alphabet().len();
    let mut all = Transitions::new(alloc, spec)?;
    shallow_among(&mut all, term, label, alloc)
}

/// The same, where the term is put into this table of the specification's bodies.
fn shallow_among<'a, A: Allocator + Clone>(
    all: &mut Transitions<&'a A>,
    term: &Term<A>,
    label: Label,
    alloc: &'a A,
) -> Result<Vec<Term<A>, A>, StepFault>
    requires { SetsBelow 256 (proc term.now) }
    ensures targets { IfOk result (λ found. AreAllTargets (bodies_of all.old.bodies) (proc term.now) label (map proc found.items)) }
    ensures within { OnOk result (HasDeepTarget (bodies_of all.old.bodies) (proc term.now) label → ⊥) }
    ensures depth { result ≡ Err StepFault.Depth → HasDeepTarget (bodies_of all.old.bodies) (proc term.now) label }
{
    let mut numbers = Vec::new(alloc);
    put_all(all, term, label, &mut numbers)?;
    if any_deep(all, &numbers) {
        return Err(StepFault::Depth);
    }
    let found = terms_of(all, &numbers, alloc)?;
    Ok(found)
}

/// Appends to the empty list the numbers of all targets, however deep.
fn put_all<A: Allocator + Copy, B: Allocator>(
    all: &mut Transitions<A>,
    term: &Term<B>,
    label: Label,
    numbers: &mut Vec<u32, A>,
) -> Result<(), AllocError>
    requires hides { SetsBelow 256 (proc term.now) }
    requires empty { numbers.old.items ≡ [] }
    ensures here { OnOk result (AllBelow (length all.new.table.processes) numbers.new.items) }
    ensures targets { OnOk result (AreAllTargets (bodies_of all.old.bodies) (proc term.now) label (look all.new.table.processes numbers.new.items)) }
{
    let number = all.number_of_term(term)?;
    all.put_targets_within(number, label, ALL, numbers)?;
    let _count = numbers.len();
    Ok(())
}

/// Whether one of the processes with these numbers is deeper than a state may be.
fn any_deep<A: Allocator>(all: &Transitions<A>, numbers: &[u32]) -> bool
    requires { AllBelow (length all.now.table.processes) numbers.now }
    ensures { result ≡ some_deep (look all.now.table.processes numbers.now) }
{
    for number in numbers {
        if is_deep(all.facts(*number)) {
            return true;
        }
    }
    false
}

/// Whether a process of which this is known is deeper than a state may be.
fn is_deep(facts: Facts) -> bool
    ensures { (P : Proc) → IsKnown facts P → result ≡ nat_lt deepest_state (depth P) }
{
    u64::from(facts.depth) > DEEPEST_STATE
}

/// The terms of the processes with these numbers.
fn terms_of<A: Allocator, B: Allocator + Clone>(
    all: &Transitions<A>,
    numbers: &[u32],
    alloc: &B,
) -> Result<Vec<Term<B>, B>, AllocError>
    requires { AllBelow (length all.now.table.processes) numbers.now }
    ensures { IfOk result (λ found. map proc found.items ≡ look all.now.table.processes numbers.now) }
{
    let mut found = Vec::new(alloc.clone()?);
    for number in numbers {
        let term = all.term(*number, alloc)?;
        found.push(term)?;
    }
    Ok(found)
}
