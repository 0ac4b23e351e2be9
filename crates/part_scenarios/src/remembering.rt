//! What a space of sets of states remembers.

ghost use Rattle.spaces.specs.Spaces.{IsSetOf};

use rows::Output;
use spaces::{Space, StateSet};
use std::alloc::Global;
use term::Spec;

/// The set after the event with this name; the same set where there is none.
fn after(space: &mut Space<Global>, set: StateSet, name: &str) -> StateSet
    requires { IsSetOf space.old set }
    ensures { IsSetOf space.new result }
{
    let Some(event) = space.spec().alphabet().event(name.as_bytes()) else {
        return set;
    };
    match set.advance(space, event) {
        Ok(Some(next)) => next,
        _ => set,
    }
}

/// The set after these events, each from the set before it.
fn after_all(space: &mut Space<Global>, set: StateSet, names: &str) -> StateSet
    requires { IsSetOf space.old set }
    ensures { IsSetOf space.new result }
{
    let mut set = set;
    for name in names.split(' ') {
        set = after(space, set, name);
    }
    set
}

/// Appends how many answers the space remembers after these events, and after the same events once more.
fn put_counts(space: &mut Space<Global>, names: &str, out: &mut Output) {
    match StateSet::start(space) {
        Ok(start) => {
            let set = after_all(space, start, names);
            out.put_word(&space.remembered());
            let _ = after_all(space, set, names);
            out.put_word(&space.remembered());
        }
        Err(_) => out.put(" no set"),
    }
}

/// Appends how many answers a space of this specification remembers after these events from the root on, and after the same events once
/// more.
pub(crate) fn put_remembered(alloc: Global, spec: Spec<Global>, names: &str, out: &mut Output) {
    let mut space = Space::new(alloc, spec);
    put_counts(&mut space, names, out);
    drop(space);
}
