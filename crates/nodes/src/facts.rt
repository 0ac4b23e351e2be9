//! What is known of a process, from what is known of its parts.

ghost use Rattle.std.specs.Prelude.{ℕ};
ghost use Rattle.term.specs.Proc.{Proc, proc, stop, skip, prefix, ext, int, seq, par, hide, ren, intr, name};
ghost use Rattle.nodes.specs.Known.{IsKnown};

use crate::offers::{are_apart, joined, renamed};
use alphabet::{Event, EventSet};
use std::alloc::Allocator;
use term::Term;

/// What is known of a process.
#[derive(Clone, Copy)]
pub struct Facts {
    /// Its depth, or the greatest `u32` where that is more.
    pub depth: u32,
    /// The events of Sigma with which it has a step.
    pub offers: EventSet,
    /// Whether it has no hidden step.
    pub rests: bool,
    /// Whether it can terminate.
    pub ticks: bool,
    /// Whether it is `SKIP` itself.
    pub skip: bool,
}

/// What is known of the term's process, which needs no table. Takes no memory. A table finds the same of a process when it is
/// put there, from what it knows of the parts (`Table::facts`). Goes over each node, and each pair of a renaming, once, in
/// calls nested as deep as the term is.
pub fn facts_of_term<A: Allocator>(term: &Term<A>) -> Facts
    ensures { IsKnown result (proc term.now) }
{
    match term {
        Term::Stop | Term::Prefix(Event::Tick, _) => of_stop(),
        Term::Skip => of_skip(),
        Term::Prefix(Event::Of(event), p) => of_prefix(*event, facts_of_term(p)),
        Term::Ext(p, q) => of_ext(facts_of_term(p), facts_of_term(q)),
        Term::Int(p, q) => of_int(facts_of_term(p), facts_of_term(q)),
        Term::Seq(p, q) => of_seq(facts_of_term(p), facts_of_term(q)),
        Term::Par(set, p, q) => of_par(*set, facts_of_term(p), facts_of_term(q)),
        Term::Hide(set, p) => of_hide(*set, facts_of_term(p)),
        Term::Ren(pairs, p) => of_ren(pairs, facts_of_term(p)),
        Term::Intr(p, q) => of_intr(facts_of_term(p), facts_of_term(q)),
        Term::Name(_) => of_name(),
    }
}

/// Of `STOP`.
pub(crate) fn of_stop() -> Facts
    ensures { IsKnown result stop }
{
    Facts {
        depth: 1,
        offers: EventSet::empty(),
        rests: true,
        ticks: false,
        skip: false,
    }
}

/// Of `SKIP`.
pub(crate) fn of_skip() -> Facts
    ensures { IsKnown result skip }
{
    Facts {
        depth: 1,
        offers: EventSet::empty(),
        rests: true,
        ticks: true,
        skip: true,
    }
}

/// Of a name.
pub(crate) fn of_name() -> Facts
    ensures { (k : ℕ) → IsKnown result (name k) }
{
    Facts {
        depth: 1,
        offers: EventSet::empty(),
        rests: false,
        ticks: false,
        skip: false,
    }
}

/// Of a prefix.
pub(crate) fn of_prefix(event: u8, then: Facts) -> Facts
    ensures { (P : Proc) → IsKnown then P → IsKnown result (prefix event P) }
{
    Facts {
        depth: then.depth.saturating_add(1),
        offers: EventSet::empty().with(Event::Of(event)),
        rests: true,
        ticks: false,
        skip: false,
    }
}

/// Of an external choice.
pub(crate) fn of_ext(left: Facts, right: Facts) -> Facts
    ensures { (P Q : Proc) → IsKnown left P → IsKnown right Q → IsKnown result (ext P Q) }
{
    Facts {
        depth: left.depth.max(right.depth).saturating_add(1),
        offers: left.offers.union(right.offers),
        rests: left.rests & right.rests,
        ticks: left.ticks | right.ticks,
        skip: false,
    }
}

/// Of an internal choice.
pub(crate) fn of_int(left: Facts, right: Facts) -> Facts
    ensures { (P Q : Proc) → IsKnown left P → IsKnown right Q → IsKnown result (int P Q) }
{
    Facts {
        depth: left.depth.max(right.depth).saturating_add(1),
        offers: EventSet::empty(),
        rests: false,
        ticks: false,
        skip: false,
    }
}

/// Of a sequence.
pub(crate) fn of_seq(first: Facts, second: Facts) -> Facts
    ensures { (P Q : Proc) → IsKnown first P → IsKnown second Q → IsKnown result (seq P Q) }
{
    Facts {
        depth: first.depth.max(second.depth).saturating_add(1),
        offers: first.offers,
        rests: first.rests & !first.ticks,
        ticks: false,
        skip: false,
    }
}

/// Of a parallel.
pub(crate) fn of_par(set: EventSet, left: Facts, right: Facts) -> Facts
    ensures { (P Q : Proc) → IsKnown left P → IsKnown right Q → IsKnown result (par set P Q) }
{
    Facts {
        depth: left.depth.max(right.depth).saturating_add(1),
        offers: joined(set, left.offers, right.offers),
        rests: (left.rests & (left.skip | !left.ticks))
            & (right.rests & (right.skip | !right.ticks)),
        ticks: left.skip & right.skip,
        skip: false,
    }
}

/// Of a hiding.
pub(crate) fn of_hide(set: EventSet, part: Facts) -> Facts
    ensures { (P : Proc) → IsKnown part P → IsKnown result (hide set P) }
{
    Facts {
        depth: part.depth.saturating_add(1),
        offers: part.offers.minus(set),
        rests: part.rests & are_apart(set, part.offers),
        ticks: part.ticks,
        skip: false,
    }
}

/// Of a renaming.
pub(crate) fn of_ren(pairs: &[(u8, u8)], part: Facts) -> Facts
    ensures { (P : Proc) → IsKnown part P → IsKnown result (ren pairs.now P) }
{
    Facts {
        depth: part.depth.saturating_add(1),
        offers: renamed(pairs, part.offers),
        rests: part.rests,
        ticks: part.ticks,
        skip: false,
    }
}

/// Of an interrupt by the second.
pub(crate) fn of_intr(left: Facts, by: Facts) -> Facts
    ensures { (P Q : Proc) → IsKnown left P → IsKnown by Q → IsKnown result (intr P Q) }
{
    Facts {
        depth: left.depth.max(by.depth).saturating_add(1),
        offers: left.offers.union(by.offers),
        rests: left.rests & by.rests,
        ticks: left.ticks | by.ticks,
        skip: false,
    }
}
