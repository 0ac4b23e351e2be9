//! The names that a phrase needs, each after those that its own definition needs: they are met in the order in which what
//! the phrase stands for is found. What isn't looked at there is left out.

use crate::sight::truth_behind;
use declared_names::{Entries, Meaning, is_process_form};
use std::alloc::{AllocError, Allocator};
use std::mem::replace;
use syntax::{Form, Operator, Tree};
use values::{Input, Known};

/// What the names of a phrase are declared as, and what they mean.
#[derive(Drop)]
pub(crate) struct Names<'s, 'a, A: Allocator> {
    pub(crate) alloc: A,
    pub(crate) entries: &'s Entries<'a, A>,
    pub(crate) known: &'s Known<A>,
    /// The inputs before the phrase.
    pub(crate) inputs: &'s [Input<A>],
}

/// The same without inputs, as for the definitions of names.
fn without_inputs<'s, 'a, A: Allocator + Copy>(names: &Names<'s, 'a, A>) -> Names<'s, 'a, A> {
    Names {
        alloc: names.alloc,
        entries: names.entries,
        known: names.known,
        inputs: &[],
    }
}

/// What is still to be done, by the places of names.
#[derive(Clone, Copy)]
enum Turn {
    /// The name is met, for the first time or again.
    Meet(usize),
    /// The names that it needs have been ordered.
    Leave(usize),
}

/// Which parts of a phrase aren't looked at where what it stands for is found.
#[derive(Clone, Copy)]
enum Idle {
    Nothing,
    /// The part at this place.
    At(usize),
    /// Those from this place on.
    From(usize),
}

/// Whether the part at this place isn't looked at.
fn is_idle(idle: Idle, place: usize) -> bool {
    match idle {
        Idle::Nothing => false,
        Idle::At(only) => place == only,
        Idle::From(first) => place >= first,
    }
}

/// Puts the name on the stack, to be met, if it is declared and no input hides it.
fn push_name<'a, A: Allocator + Copy>(
    names: &Names<'_, 'a, A>,
    name: &[u8],
    stack: &mut Vec<Turn, A>,
) -> Result<(), AllocError> {
    if !names
        .inputs
        .iter()
        .any(|input| input.name.as_slice() == name)
    {
        if let Some(place) = names.entries.place(name) {
            stack.push(Turn::Meet(place))?;
        }
    }
    Ok(())
}

/// The branches of this condition that aren't looked at.
fn idle_branches<'a, A: Allocator + Copy>(
    names: &Names<'_, 'a, A>,
    condition: &Tree<A>,
) -> Result<Idle, AllocError> {
    match truth_behind(&names.alloc, names.known, names.inputs, condition)? {
        Some(true) => Ok(Idle::At(2)),
        Some(false) => Ok(Idle::At(1)),
        None => Ok(Idle::From(1)),
    }
}

/// The sides of `and` or `or` that aren't looked at: the second one, unless the first one is the truth that decides nothing.
fn idle_sides<'a, A: Allocator + Copy>(
    names: &Names<'_, 'a, A>,
    first: &Tree<A>,
    decisive: bool,
) -> Result<Idle, AllocError> {
    match truth_behind(&names.alloc, names.known, names.inputs, first)? {
        Some(truth) if truth != decisive => Ok(Idle::Nothing),
        _ => Ok(Idle::At(1)),
    }
}

/// The parts of a phrase of this form that aren't looked at: all of those of a process, which needs no names.
fn idle_parts<'a, A: Allocator + Copy>(
    names: &Names<'_, 'a, A>,
    form: Form,
    parts: &[Tree<A>],
) -> Result<Idle, AllocError> {
    match (form, parts) {
        (Form::If, [condition, _, _]) => idle_branches(names, condition),
        (Form::Operation(Operator::And), [first, _]) => idle_sides(names, first, false),
        (Form::Operation(Operator::Or), [first, _]) => idle_sides(names, first, true),
        _ if is_process_form(form) => Ok(Idle::From(0)),
        _ => Ok(Idle::Nothing),
    }
}

/// Puts the names that the phrase after these inputs needs on the stack, to be met, the first one on top. A process needs none.
fn push_needs<'a, A: Allocator + Copy>(
    names: &Names<'_, 'a, A>,
    phrase: &Tree<A>,
    stack: &mut Vec<Turn, A>,
) -> Result<(), AllocError> {
    match phrase {
        Tree::Name { text, .. } => push_name(names, text, stack),
        Tree::Number { .. } => Ok(()),
        Tree::Node { form, parts, .. } => {
            let idle = idle_parts(names, *form, parts)?;
            for place in (0..parts.len()).rev() {
                if !is_idle(idle, place) {
                    push_needs(names, &parts[place], stack)?;
                }
            }
            Ok(())
        }
    }
}

/// Puts the names that the definition of the name at this place needs on the stack, to be met, the first one on top.
fn push_needs_at<'a, A: Allocator + Copy>(
    names: &Names<'_, 'a, A>,
    place: usize,
    stack: &mut Vec<Turn, A>,
) -> Result<(), AllocError> {
    match names.entries.at(place) {
        Some(entry) => match &entry.meaning {
            Meaning::Definition(body) => push_needs(names, body, stack),
            _ => Ok(()),
        },
        None => Ok(()),
    }
}

/// Whether the place is met for the first time; it has been met from then on.
fn is_first(met: &mut [bool], place: usize) -> bool {
    match met.get_mut(place) {
        Some(met) => !replace(met, true),
        None => false,
    }
}

/// Meets the name at this place: for the first time, it is to be left after the names that it needs, which are met before.
fn meet<'a, A: Allocator + Copy>(
    names: &Names<'_, 'a, A>,
    place: usize,
    stack: &mut Vec<Turn, A>,
    met: &mut [bool],
) -> Result<(), AllocError> {
    if is_first(met, place) {
        stack.push(Turn::Leave(place))?;
        push_needs_at(names, place, stack)?;
    }
    Ok(())
}

/// Puts the places of the names on the stack, and of those that they need, in this order. Costs a turn for each name and for
/// each use of one.
fn put_in_order<'a, A: Allocator + Copy>(
    names: &Names<'_, 'a, A>,
    stack: &mut Vec<Turn, A>,
    met: &mut [bool],
    order: &mut Vec<usize, A>,
) -> Result<(), AllocError> {
    // A script has far fewer names and uses of names than this.
    for _ in 0..u32::MAX {
        match stack.pop() {
            Some(Turn::Meet(place)) => meet(names, place, stack, met)?,
            Some(Turn::Leave(place)) => order.push(place)?,
            None => break,
        }
    }
    Ok(())
}

/// The places of the names on the stack, and of those that they need, in their order.
fn in_order<'a, A: Allocator + Copy>(
    names: &Names<'_, 'a, A>,
    stack: &mut Vec<Turn, A>,
) -> Result<Vec<usize, A>, AllocError> {
    let mut met = vec![in names.alloc; false; names.entries.len()]?;
    let mut order = Vec::new(names.alloc);
    put_in_order(names, stack, &mut met, &mut order)?;
    Ok(order)
}

/// The places of the names that the phrase after these inputs needs, in their order.
pub(crate) fn needs_of_phrase<'a, A: Allocator + Copy>(
    names: &Names<'_, 'a, A>,
    phrase: &Tree<A>,
) -> Result<Vec<usize, A>, AllocError> {
    let mut stack = Vec::new(names.alloc);
    push_needs(names, phrase, &mut stack)?;
    in_order(&without_inputs(names), &mut stack)
}

/// The places of the name and of those that it needs, in their order.
pub(crate) fn needs_of_name<'a, A: Allocator + Copy>(
    names: &Names<'_, 'a, A>,
    name: &[u8],
) -> Result<Vec<usize, A>, AllocError> {
    let mut stack = Vec::new(names.alloc);
    push_name(names, name, &mut stack)?;
    in_order(names, &mut stack)
}
