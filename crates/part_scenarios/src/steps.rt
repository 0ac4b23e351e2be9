//! The steps of a script's processes, and how large these are.

ghost use Rattle.std.specs.Prelude.{IfOk, ◌<◌, length};
ghost use Rattle.term.specs.Proc.{proc};
ghost use Rattle.term.specs.Specs.{IsProcessOf};

use crate::numbers::put_numbered;
use crate::sets::put_set;
use alphabet::{Alphabet, EventSet};
use rows::{Output, first_word, number_of};
use std::alloc::{AllocError, Allocator, Global};
use std::hash::{DefaultHasher, Hash, Hasher};
use step::{Label, can_tick, is_stable, offers, steps};
use term::{Spec, Term};

/// The body of the root.
pub(crate) fn root<A: Allocator>(spec: &Spec<A>) -> &Term<A>
    ensures { IsProcessOf spec.now (proc result.now) }
{
    let _bodies = spec.bodies();
    spec.body(0)
}

/// What a step shows by this word: nothing for `tau`, or the event with this name.
fn label(alphabet: &Alphabet<Global>, word: &str) -> Option<Label> {
    if word == "tau" {
        return Some(Label::Tau);
    }
    alphabet.event(word.as_bytes()).map(Label::Event)
}

/// Appends whether the root's body can terminate and whether it is stable, and what it offers.
pub(crate) fn put_looks<A: Allocator>(spec: &Spec<A>, out: &mut Output) {
    let body = root(spec);
    out.put_answer(can_tick(body));
    out.put_answer(is_stable(body));
    put_set(&offers(body), out);
}

/// Whether each of these is the process that is wanted.
fn are_all(found: &[Term<Global>], wanted: &Term<Global>) -> bool {
    for target in found {
        if !target.equal(wanted) {
            return false;
        }
    }
    true
}

/// Appends whether the first process has steps with this label, and whether each leads to the second.
fn put_led_to(alloc: Global, spec: &Spec<Global>, label: Label, out: &mut Output)
    requires { 2 < length spec.now.bodies }
{
    let mut found = Vec::new(alloc);
    match steps(spec, spec.body(1), label, &alloc, &mut found) {
        Ok(()) => {
            out.put_answer(!found.is_empty());
            out.put_answer(are_all(&found, spec.body(2)));
        }
        Err(fault) => out.put_word(&fault),
    }
}

/// Appends whether the body with number 1 has steps with a label, and whether each leads to the body with number 2.
fn put_steps(alloc: Global, spec: &Spec<Global>, word: &str, out: &mut Output) {
    match label(spec.alphabet(), word) {
        Some(label) if spec.bodies() > 2 => put_led_to(alloc, spec, label, out),
        _ => out.put(" no such event or process"),
    }
}

/// The process in so many hidings of no event.
fn hidden(
    alloc: Global,
    spec: &Spec<Global>,
    inner: &Term<Global>,
    times: u64,
) -> Result<Term<Global>, AllocError>
    requires { IsProcessOf spec.now (proc inner.now) }
    ensures { IfOk result (λ term. IsProcessOf spec.now (proc term)) }
{
    let _events = spec.alphabet().len();
    let none = EventSet::empty();
    let mut term = inner.try_clone(&alloc)?;
    for _ in 0..times {
        term = Term::Hide(none, Box::new(alloc, term)?);
    }
    Ok(term)
}

/// Appends what is told by number of the steps of the root's body in hidings of no event.
fn put_by_number(alloc: Global, spec: &Spec<Global>, words: &str, out: &mut Output) {
    let (times, word) = first_word(words);
    let Some(label) = label(spec.alphabet(), word) else {
        return out.put(" no such event");
    };
    match hidden(alloc, spec, root(spec), number_of(times)) {
        Ok(term) => put_numbered(alloc, spec, &term, label, out),
        Err(_) => out.is_cut = true,
    }
}

/// Appends a fault of the process's hidden steps, and the depths of their targets after `SKIP`, which was in the list
/// before.
fn put_hidden_targets(alloc: Global, spec: &Spec<Global>, term: &Term<Global>, out: &mut Output)
    requires { IsProcessOf spec.now (proc term.now) }
{
    let mut found = Vec::new(alloc);
    if found.push(Term::Skip).is_err() {
        out.is_cut = true;
    }
    if let Err(fault) = steps(spec, term, Label::Tau, &alloc, &mut found) {
        out.put_word(&fault);
    }
    for target in &found {
        out.put_word(&target.depth());
    }
}

/// Appends how deep and how large the root's body is in so many hidings of no event, and what `put_hidden_targets` tells.
fn put_hidden(alloc: Global, spec: &Spec<Global>, times: &str, out: &mut Output) {
    match hidden(alloc, spec, root(spec), number_of(times)) {
        Ok(term) => {
            put_form(alloc, &term, out);
            put_hidden_targets(alloc, spec, &term, out);
        }
        Err(_) => out.is_cut = true,
    }
}

/// Appends whether the bodies with the numbers 0 and 1 are the same in so many hidings of no event.
fn put_same(alloc: Global, spec: &Spec<Global>, times: &str, out: &mut Output) {
    if spec.bodies() < 2 {
        return out.put(" one body");
    }
    let times = number_of(times);
    let first = hidden(alloc, spec, root(spec), times);
    let second = hidden(alloc, spec, spec.body(1), times);
    match (&first, &second) {
        (Ok(first), Ok(second)) => out.put_answer(second.equal(first)),
        _ => out.is_cut = true,
    }
}

fn hash_of<T: Hash>(value: &T) -> u64 {
    let mut state = DefaultHasher::new();
    value.hash(&mut state);
    state.finish()
}

/// Appends how deep and how large the process is, and `?` where its copy isn't the same.
fn put_form(alloc: Global, term: &Term<Global>, out: &mut Output) {
    out.put_word(&term.depth());
    out.put_word(&term.size());
    match term.try_clone(&alloc) {
        Ok(copy) => {
            let is_copied = copy.equal(term) && hash_of(&copy) == hash_of(term);
            out.put(if is_copied { "" } else { "?" });
        }
        Err(_) => out.is_cut = true,
    }
}

/// How many of the bodies this process equals.
fn equals(spec: &Spec<Global>, term: &Term<Global>) -> usize {
    let mut count: usize = 0;
    for number in 0..spec.bodies() {
        if spec.body(number).equal(term) {
            count = count.saturating_add(1);
        }
    }
    count
}

/// Appends how deep and how large each body is, and how many of them it equals.
fn put_bodies(alloc: Global, spec: &Spec<Global>, out: &mut Output) {
    for number in 0..spec.bodies() {
        let body = spec.body(number);
        put_form(alloc, body, out);
        out.put_word(&equals(spec, body));
        out.put(";");
    }
}

/// Appends what comes of the script's processes. Whether the row is of one of these kinds is answered.
pub(crate) fn put(
    alloc: Global,
    kind: &str,
    words: &str,
    spec: &Spec<Global>,
    out: &mut Output,
) -> bool {
    match kind {
        "looks" => put_looks(spec, out),
        "steps" => put_steps(alloc, spec, words, out),
        "numbered" => put_by_number(alloc, spec, words, out),
        "hidden" => put_hidden(alloc, spec, words, out),
        "same" => put_same(alloc, spec, words, out),
        "bodies" => put_bodies(alloc, spec, out),
        _ => return false,
    }
    true
}
