//! The calls of an alphabet, a specification, a set of states and a monitor that take no memory, where every request is refused.

ghost use Rattle.monitor.specs.Monitors.{IsOf};
ghost use Rattle.spaces.specs.Spaces.{IsSetOf};

use crate::alphabets::{put_channels, put_places};
use crate::sets::put_set;
use crate::steps::{put_looks, root};
use alphabet::{Alphabet, Event, EventSet, Report};
use monitor::{Judged, Monitor};
use rows::{Output, Refusing, first_word};
use script::read;
use spaces::{Space, StateSet};
use std::alloc::{Allocator, Global};
use term::{Spec, Term};

/// How many events an alphabet has before a channel is declared.
fn empty_len(refusing: &Refusing<Global>) -> usize {
    Alphabet::new(refusing).len()
}

/// Appends what the specification tells.
fn put_spec(
    refusing: &Refusing<Global>,
    spec: &Spec<&Refusing<Global>>,
    names: &str,
    out: &mut Output,
) {
    let body = root(spec);
    refusing.refuse();
    out.put_word(&empty_len(refusing));
    put_places(spec.alphabet(), names, true, out);
    put_channels(spec.alphabet(), out);
    out.put(";");
    out.put_word(&spec.bodies());
    out.put_word(&body.depth());
    out.put_word(&body.size());
    out.put_answer(body.equal(body));
    put_looks(spec, out);
    out.put(";");
}

/// Appends what the set of states tells.
fn put_set_of<A: Allocator>(space: &Space<A>, set: StateSet, names: &str, out: &mut Output)
    requires { IsSetOf space.now set }
{
    put_set(&set.next(space), out);
    for name in names.split(' ') {
        match space.spec().alphabet().event(name.as_bytes()) {
            Some(event) => out.put_answer(set.refuses(space, &EventSet::empty().with(event))),
            None => out.put(" no event"),
        }
    }
    out.put_word(&space.remembered());
    out.put(";");
}

/// Appends what the set of states of the opening tells.
fn put_start(
    refusing: &Refusing<Global>,
    space: &mut Space<&Refusing<Global>>,
    names: &str,
    out: &mut Output,
) {
    match StateSet::start(space) {
        Ok(set) => {
            refusing.refuse();
            put_set_of(space, set, names, out);
        }
        Err(fault) => out.put_word(&fault),
    }
}

/// Takes the report over, and appends what the monitor tells.
fn put_committed<'a>(
    refusing: &'a Refusing<Global>,
    monitor: &mut Monitor<&'a Refusing<Global>>,
    judged: Judged,
    out: &mut Output,
)
    requires { IsOf monitor.old judged }
{
    refusing.refuse();
    out.put_answer(judged.verdict());
    monitor.commit(judged);
    out.put_word(&monitor.trace_len());
    out.put_word(&monitor.spec().bodies());
    put_set(&monitor.next(), out);
}

/// Appends what the monitor tells of the event, and then.
fn put_watched<'a>(
    refusing: &'a Refusing<Global>,
    monitor: &mut Monitor<&'a Refusing<Global>>,
    name: &str,
    out: &mut Output,
) {
    let event = monitor.spec().alphabet().event(name.as_bytes());
    match monitor.judge(&Report::Event(event.unwrap_or(Event::TICK))) {
        Ok(judged) => put_committed(refusing, monitor, judged, out),
        Err(fault) => out.put_word(&fault),
    }
}

/// Appends what a monitor of the specification tells.
fn put_monitor<'a>(
    refusing: &'a Refusing<Global>,
    spec: Spec<&'a Refusing<Global>>,
    names: &str,
    out: &mut Output,
) {
    let (name, _) = first_word(names);
    match Monitor::new(refusing, spec) {
        Ok(mut monitor) => {
            put_watched(refusing, &mut monitor, name, out);
            drop(monitor);
        }
        Err(fault) => out.put_word(&fault),
    }
}

/// Appends what the space of the specification tells.
fn put_space<'a>(
    refusing: &'a Refusing<Global>,
    spec: Spec<&'a Refusing<Global>>,
    names: &str,
    out: &mut Output,
) {
    refusing.refuse();
    let mut space = Space::new(refusing, spec);
    if refusing.has_refused() {
        out.put(" a request for a space");
    }
    refusing.release();
    put_start(refusing, &mut space, names, out);
    drop(space);
}

/// Appends how many bodies a specification of `STOP` alone has, which is made where every request is refused.
fn put_made(refusing: &Refusing<Global>, out: &mut Output) {
    let mut bodies = Vec::new(refusing);
    match bodies.push(Term::Stop) {
        Ok(()) => {
            refusing.refuse();
            let spec = Spec::new(Alphabet::new(refusing), bodies);
            out.put("; ");
            out.put_shown(&spec.bodies());
            drop(spec);
        }
        Err(_) => {
            drop(bodies);
            out.is_cut = true;
        }
    }
}

/// Appends what this part of the specification tells.
fn put_told<'a>(
    refusing: &'a Refusing<Global>,
    part: &str,
    spec: Spec<&'a Refusing<Global>>,
    names: &str,
    out: &mut Output,
) {
    match part {
        "space" => put_space(refusing, spec, names, out),
        "monitor" => put_monitor(refusing, spec, names, out),
        _ => {
            put_spec(refusing, &spec, names, out);
            drop(spec);
        }
    }
}

/// Appends what this part tells of the script, where every request is refused. Whether there was one is answered.
fn put_part(alloc: Global, part: &str, names: &str, text: &[u8], out: &mut Output) -> bool {
    let refusing = Refusing::new(alloc, 0);
    match read(&refusing, text, b"P") {
        Ok(spec) => put_told(&refusing, part, spec, names, out),
        Err(error) => out.put_word(&error),
    }
    refusing.has_refused()
}

/// Appends what a specification that is made tells. Whether there was a request is answered.
fn put_last(alloc: Global, out: &mut Output) -> bool {
    let refusing = Refusing::new(alloc, 0);
    put_made(&refusing, out);
    refusing.has_refused()
}

/// Appends what the script's specification, its space and a monitor of it tell, and what a specification that is made; each where every
/// request is refused; and whether there was one.
pub(crate) fn put_quiet(alloc: Global, names: &str, text: &[u8], out: &mut Output) {
    let mut asked = false;
    for part in ["spec", "space", "monitor"] {
        asked = put_part(alloc, part, names, text, out) || asked;
    }
    asked = put_last(alloc, out) || asked;
    out.put(if asked { ", a request" } else { ", no request" });
}
