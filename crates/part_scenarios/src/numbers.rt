//! The steps of processes by number: how many targets they have, and whether one is too deep.

ghost use Rattle.std.specs.Prelude.{◌<◌, ◌≤◌, length};
ghost use Rattle.targets.specs.HiddenSets.{SetsBelow};
ghost use Rattle.term.specs.Limits.{deepest_state};
ghost use Rattle.term.specs.Proc.{proc};
ghost use Rattle.term.specs.Sizes.{depth};
ghost use Rattle.term.specs.Specs.{IsProcessOf};
ghost use Rattle.transitions.specs.Numbered.{HidesEvents, KeepsNumbers};

use rows::Output;
use std::alloc::{AllocError, Global};
use step::{DEEPEST_STATE, Label};
use term::{Spec, Term};
use transitions::Transitions;

/// Appends how many targets the steps of the number's process have, as far as one more than a set of states may have.
fn put_found(
    alloc: Global,
    all: &mut Transitions<Global>,
    number: u32,
    label: Label,
    out: &mut Output,
)
    requires number { number < length all.old.table.processes }
    requires hides { HidesEvents all.old number }
    ensures { KeepsNumbers all.old all.new }
{
    let mut found = Vec::new(alloc);
    match all.put_targets(number, label, &mut found) {
        Ok(()) => out.put_word(&found.len()),
        Err(_) => out.is_cut = true,
    }
}

/// Appends how many targets the steps of the process have: found, and remembered.
fn put_both(
    alloc: Global,
    all: &mut Transitions<Global>,
    term: &Term<Global>,
    label: Label,
    out: &mut Output,
)
    requires { SetsBelow 256 (proc term.now) }
{
    match all.number_of_term(term) {
        Ok(number) => {
            put_found(alloc, all, number, label, out);
            put_found(alloc, all, number, label, out);
        }
        Err(_) => out.is_cut = true,
    }
}

/// Whether a hidden step of the process, which isn't too deep, leads to one that is.
fn leads_too_deep(all: &mut Transitions<Global>, term: &Term<Global>) -> Result<bool, AllocError>
    requires { depth (proc term.now) ≤ deepest_state }
{
    let number = all.number_of_term(term)?;
    all.has_deep_target(number)
}

/// Appends whether a hidden step leads to a process that is too deep.
fn put_depth(all: &mut Transitions<Global>, term: &Term<Global>, out: &mut Output) {
    if term.depth() > DEEPEST_STATE {
        return out.put(" too deep");
    }
    match leads_too_deep(all, term) {
        Ok(leads) => out.put_answer(leads),
        Err(_) => out.is_cut = true,
    }
}

/// Appends how many targets the steps of the process have, asked twice, and whether a hidden one is too deep.
pub(crate) fn put_numbered(
    alloc: Global,
    spec: &Spec<Global>,
    term: &Term<Global>,
    label: Label,
    out: &mut Output,
)
    requires { IsProcessOf spec.now (proc term.now) }
{
    let _events = spec.alphabet().len();
    match Transitions::new(alloc, spec) {
        Ok(mut all) => {
            put_both(alloc, &mut all, term, label, out);
            put_depth(&mut all, term, out);
        }
        Err(_) => out.is_cut = true,
    }
}
