//! An order of names, each after those that its definition uses, as far as there is one. What names stand for doesn't
//! depend on it; it saves looking at definitions again.

use crate::entries::{Entries, Meaning};
use std::alloc::{AllocError, Allocator};
use syntax::Tree;

/// What is still to be done, by the places of names.
#[derive(Clone, Copy)]
enum Turn {
    /// The name is met, for the first time or again.
    Meet(usize),
    /// The names that it uses have been ordered.
    Leave(usize),
}

/// Whether the place is met for the first time; it has been met from then on.
fn is_first(met: &mut [bool], place: usize) -> bool {
    if place < met.len() && !met[place] {
        met[place] = true;
        return true;
    }
    false
}

/// Puts the names that the phrase uses on the stack, to be met, the first one on top.
fn push_names<'a, A: Allocator>(
    entries: &Entries<'a, A>,
    phrase: &Tree<A>,
    stack: &mut Vec<Turn, A>,
) -> Result<(), AllocError> {
    match phrase {
        Tree::Name { text, .. } => {
            if let Some(place) = entries.place(text) {
                stack.push(Turn::Meet(place))?;
            }
        }
        Tree::Number { .. } => {}
        Tree::Node { parts, .. } => {
            for place in (0..parts.len()).rev() {
                push_names(entries, &parts[place], stack)?;
            }
        }
    }
    Ok(())
}

/// Puts the names that the name at this place uses on the stack, to be met, the first one on top.
fn push_uses<'a, A: Allocator>(
    entries: &Entries<'a, A>,
    place: usize,
    stack: &mut Vec<Turn, A>,
) -> Result<(), AllocError> {
    match entries.at(place) {
        Some(entry) => match &entry.meaning {
            Meaning::Definition(body) => push_names(entries, body, stack),
            _ => Ok(()),
        },
        None => Ok(()),
    }
}

/// Puts the places of the names on the stack, and of those that lead on from there, in this order. Costs a turn for each name
/// and for each use of one.
fn put_in_order<'a, A: Allocator>(
    entries: &Entries<'a, A>,
    stack: &mut Vec<Turn, A>,
    met: &mut [bool],
    order: &mut Vec<usize, A>,
) -> Result<(), AllocError> {
    // A script has far fewer names and uses of names than this.
    for _ in 0..u32::MAX {
        match stack.pop() {
            Some(Turn::Meet(place)) => {
                if is_first(met, place) {
                    stack.push(Turn::Leave(place))?;
                    push_uses(entries, place, stack)?;
                }
            }
            Some(Turn::Leave(place)) => order.push(place)?,
            None => break,
        }
    }
    Ok(())
}

/// All names, to be met, the first one on top of the stack.
fn all_places<A: Allocator + Copy>(alloc: A, count: usize) -> Result<Vec<Turn, A>, AllocError> {
    let mut stack = Vec::new(alloc);
    for place in (0..count).rev() {
        stack.push(Turn::Meet(place))?;
    }
    Ok(stack)
}

/// The places of the names, each after those of the names that its definition uses, as far as there is such an order. No
/// contract says so: a caller that needs the order looks for itself whether it suits. Costs a turn for each name and for each
/// use of one.
pub fn places_by_use<'a, A: Allocator + Copy>(
    alloc: A,
    entries: &Entries<'a, A>,
) -> Result<Vec<usize, A>, AllocError> {
    let mut stack = all_places(alloc, entries.len())?;
    let mut met = vec![in alloc; false; entries.len()]?;
    let mut order = Vec::new(alloc);
    put_in_order(entries, &mut stack, &mut met, &mut order)?;
    Ok(order)
}
