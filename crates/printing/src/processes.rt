//! The printed bodies.
ghost use Rattle.std.specs.Prelude.{◌≡◌, ◌<◌, ◌++◌, OnOk, length, map, codes};
ghost use Rattle.std.specs.List.{flat_map};
ghost use Rattle.alphabet.specs.EventSets.{members};
ghost use Rattle.alphabet.specs.Channels.{event_count, name_of};
ghost use Rattle.term.specs.Proc.{proc, bodies_of};
ghost use Rattle.term.specs.Specs.{SetInSigma, PairsInSigma, IsProcessOf};
ghost use Rattle.printing.specs.Inside.{has_brackets as has_brackets_of, inside};
ghost use Rattle.printing.specs.Printed.{joined, set_text, shared_text, pair_text, mark as mark_of, process_text, body_line, body_lines};

use crate::names::put_body_name;
use alphabet::{Alphabet, Event, EventSet};
use std::alloc::{AllocError, Allocator};
use term::{Spec, Term};

/// Appends the names of the events with commas between them.
fn put_events<A: Allocator, B: Allocator>(
    text: &mut Vec<u8, B>,
    alphabet: &Alphabet<A>,
    set: EventSet,
) -> Result<(), AllocError>
    requires { SetInSigma (event_count alphabet.now) set }
    ensures { OnOk result (text.new.items ≡ text.old.items ++ joined (codes ", ") (map (name_of alphabet.now) (members set))) }
{
    let mut events = set.iter();
    let Some(first) = events.next() else {
        return Ok(());
    };
    alphabet.name_into(first, text)?;
    for event in events {
        text.extend_from_slice(b", ")?;
        alphabet.name_into(event, text)?;
    }
    Ok(())
}

/// Appends a set of events.
#[tactic(auto, unfolding(crate::specs::Printed::set_text))]
fn put_set<A: Allocator, B: Allocator>(
    text: &mut Vec<u8, B>,
    alphabet: &Alphabet<A>,
    set: EventSet,
) -> Result<(), AllocError>
    requires { SetInSigma (event_count alphabet.now) set }
    ensures { OnOk result (text.new.items ≡ text.old.items ++ set_text alphabet.now set) }
{
    text.extend_from_slice(b"{")?;
    put_events(text, alphabet, set)?;
    text.extend_from_slice(b"}")
}

/// Appends what stands between the two parts of a parallel.
#[tactic(auto, unfolding(crate::specs::Printed::shared_text))]
fn put_shared<A: Allocator, B: Allocator>(
    text: &mut Vec<u8, B>,
    alphabet: &Alphabet<A>,
    set: EventSet,
) -> Result<(), AllocError>
    requires { SetInSigma (event_count alphabet.now) set }
    ensures { OnOk result (text.new.items ≡ text.old.items ++ shared_text alphabet.now set) }
{
    text.extend_from_slice(b" [| ")?;
    put_set(text, alphabet, set)?;
    text.extend_from_slice(b" |] ")
}

/// Appends a pair of a renaming.
fn put_pair<A: Allocator, B: Allocator>(
    text: &mut Vec<u8, B>,
    alphabet: &Alphabet<A>,
    pair: (u8, u8),
) -> Result<(), AllocError>
    requires left { pair.0 < event_count alphabet.now }
    requires right { pair.1 < event_count alphabet.now }
    ensures { OnOk result (text.new.items ≡ text.old.items ++ pair_text alphabet.now pair) }
{
    alphabet.name_into(Event::Of(pair.0), text)?;
    text.extend_from_slice(b" <- ")?;
    alphabet.name_into(Event::Of(pair.1), text)
}

/// Appends the pairs, each after a comma.
fn put_other_pairs<A: Allocator, B: Allocator>(
    text: &mut Vec<u8, B>,
    alphabet: &Alphabet<A>,
    pairs: &[(u8, u8)],
) -> Result<(), AllocError>
    requires { PairsInSigma (event_count alphabet.now) pairs.now }
    ensures { OnOk result (text.new.items ≡ text.old.items ++ flat_map (λ p. codes ", " ++ pair_text alphabet.now p) pairs.now) }
{
    for pair in pairs {
        text.extend_from_slice(b", ")?;
        put_pair(text, alphabet, *pair)?;
    }
    Ok(())
}

/// Appends the pairs of a renaming with commas between them.
fn put_pairs<A: Allocator, B: Allocator>(
    text: &mut Vec<u8, B>,
    alphabet: &Alphabet<A>,
    pairs: &[(u8, u8)],
) -> Result<(), AllocError>
    requires { PairsInSigma (event_count alphabet.now) pairs.now }
    ensures { OnOk result (text.new.items ≡ text.old.items ++ joined (codes ", ") (map (pair_text alphabet.now) pairs.now)) }
{
    match pairs {
        [] => Ok(()),
        [first, others @ ..] => {
            put_pair(text, alphabet, *first)?;
            put_other_pairs(text, alphabet, others)
        }
    }
}

/// What stands between the two parts of a choice, a sequence or an interrupt.
fn mark<A: Allocator>(term: &Term<A>) -> &'static [u8]
    ensures { result.now ≡ mark_of (proc term.now) }
{
    match term {
        Term::Ext(_, _) => b" [] ",
        Term::Int(_, _) => b" |~| ",
        Term::Seq(_, _) => b" ; ",
        Term::Intr(_, _) => b" /\\ ",
        _ => b"",
    }
}

/// Appends the events that are hidden, after a process.
fn put_hidden<A: Allocator, B: Allocator>(
    text: &mut Vec<u8, B>,
    alphabet: &Alphabet<A>,
    set: EventSet,
) -> Result<(), AllocError>
    requires { SetInSigma (event_count alphabet.now) set }
    ensures { OnOk result (text.new.items ≡ text.old.items ++ codes " \\ " ++ set_text alphabet.now set) }
{
    text.extend_from_slice(b" \\ ")?;
    put_set(text, alphabet, set)
}

/// Appends the pairs of a renaming, after a process.
fn put_renaming<A: Allocator, B: Allocator>(
    text: &mut Vec<u8, B>,
    alphabet: &Alphabet<A>,
    pairs: &[(u8, u8)],
) -> Result<(), AllocError>
    requires { PairsInSigma (event_count alphabet.now) pairs.now }
    ensures { OnOk result (text.new.items ≡ text.old.items ++ codes " [[" ++ joined (codes ", ") (map (pair_text alphabet.now) pairs.now) ++ codes "]]") }
{
    text.extend_from_slice(b" [[")?;
    put_pairs(text, alphabet, pairs)?;
    text.extend_from_slice(b"]]")
}

/// Whether the printed process has brackets of its own.
#[tactic(auto, unfolding(crate::specs::Inside::has_brackets))]
fn has_brackets<A: Allocator>(term: &Term<A>) -> bool
    ensures { result ≡ has_brackets_of (proc term.now) }
{
    match term {
        Term::Stop | Term::Skip | Term::Name(_) | Term::Prefix(Event::Tick, _) => false,
        _ => true,
    }
}

/// Appends a process of the specification without the brackets round it.
#[cycle(processes)]
#[tactic(auto, unfolding(crate::specs::Inside::inside))]
fn put_inside<A: Allocator, B: Allocator>(
    text: &mut Vec<u8, B>,
    spec: &Spec<A>,
    primes: usize,
    term: &Term<A>,
) -> Result<(), AllocError>
    requires { IsProcessOf spec.now (proc term.now) }
    ensures { OnOk result (text.new.items ≡ text.old.items ++ inside spec.now.alphabet primes (proc term.now)) }
{
    match term {
        Term::Stop | Term::Prefix(Event::Tick, _) => text.extend_from_slice(b"STOP"),
        Term::Skip => text.extend_from_slice(b"SKIP"),
        Term::Name(number) => put_body_name(text, *number, primes),
        Term::Prefix(event, p) => {
            spec.alphabet().name_into(*event, text)?;
            text.extend_from_slice(b" -> ")?;
            put_process(text, spec, primes, p)
        }
        Term::Ext(p, q) | Term::Int(p, q) | Term::Seq(p, q) | Term::Intr(p, q) => {
            put_process(text, spec, primes, p)?;
            text.extend_from_slice(mark(term))?;
            put_process(text, spec, primes, q)
        }
        Term::Par(set, p, q) => {
            put_process(text, spec, primes, p)?;
            put_shared(text, spec.alphabet(), *set)?;
            put_process(text, spec, primes, q)
        }
        Term::Hide(set, p) => {
            put_process(text, spec, primes, p)?;
            put_hidden(text, spec.alphabet(), *set)
        }
        Term::Ren(pairs, p) => {
            put_process(text, spec, primes, p)?;
            put_renaming(text, spec.alphabet(), pairs)
        }
    }
}

/// Appends a process of the specification. Costs its text, and needs room on the stack for its depth.
#[cycle(processes)]
fn put_process<A: Allocator, B: Allocator>(
    text: &mut Vec<u8, B>,
    spec: &Spec<A>,
    primes: usize,
    term: &Term<A>,
) -> Result<(), AllocError>
    requires { IsProcessOf spec.now (proc term.now) }
    ensures { OnOk result (text.new.items ≡ text.old.items ++ process_text spec.now.alphabet primes (proc term.now)) }
{
    if !has_brackets(term) {
        return put_inside(text, spec, primes, term);
    }
    text.extend_from_slice(b"(")?;
    put_inside(text, spec, primes, term)?;
    text.extend_from_slice(b")")
}

/// Appends the definition of a body.
fn put_body<A: Allocator, B: Allocator>(
    text: &mut Vec<u8, B>,
    spec: &Spec<A>,
    primes: usize,
    number: usize,
) -> Result<(), AllocError>
    requires { number < length spec.now.bodies }
    ensures { OnOk result (text.new.items ≡ text.old.items ++ body_line spec.now.alphabet primes number (bodies_of spec.now.bodies number)) }
{
    put_body_name(text, number, primes)?;
    text.extend_from_slice(b" = ")?;
    put_process(text, spec, primes, spec.body(number))?;
    text.extend_from_slice(b"\n")
}

/// Appends the definitions of all bodies.
pub(crate) fn put_bodies<A: Allocator, B: Allocator>(
    text: &mut Vec<u8, B>,
    spec: &Spec<A>,
    primes: usize,
) -> Result<(), AllocError>
    ensures { OnOk result (text.new.items ≡ text.old.items ++ body_lines spec.now.alphabet primes spec.now.bodies) }
{
    for number in 0..spec.bodies() {
        put_body(text, spec, primes, number)?;
    }
    Ok(())
}
