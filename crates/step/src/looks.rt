//! What a term can do, found without memory.

ghost use Rattle.std.specs.Prelude.{◌≡◌, ◌↔◌, ℕ, IsTrue, false};
ghost use Rattle.alphabet.specs.EventSets.{has, member};
ghost use Rattle.alphabet.specs.declared.events.Event.TheVariants.{Tick as tick};
ghost use Rattle.term.specs.Proc.{Proc, proc};
ghost use Rattle.term.specs.Steps.{Stable, Ticks};
ghost use Rattle.targets.specs.Offers.{Offers};

use alphabet::EventSet;
use nodes::facts_of_term;
use std::alloc::Allocator;
use term::Term;

/// Whether the term has a step of termination. Takes no memory. The step shows tick and leads to `STOP`. `SKIP` has
/// one; a parallel has one where both sides are `SKIP`; a sequence has none, since its first part ends by a hidden
/// step. What can terminate refuses every set without tick. The steps are those of Roscoe, The Theory and Practice of
/// Concurrency, with this project's reading of termination (`docs/SEMANTICS.md`). Goes over each node, and each pair of
/// a renaming, once, in calls nested as deep as the term is.
pub fn can_tick<A: Allocator>(term: &Term<A>) -> bool
    ensures { IsTrue result ↔ Ticks (proc term.now) }
{
    facts_of_term(term).ticks
}

/// Whether the term has no hidden step. Takes no memory. `STOP`, `SKIP` and a prefix have none; a name and an internal
/// choice always have one, so no bodies are asked for. What has none and can't terminate (`can_tick`) refuses just the
/// sets in which it offers nothing (`offers`), as in the stable failures of Roscoe, The Theory and Practice of
/// Concurrency. Costs what `can_tick` does.
pub fn is_stable<A: Allocator>(term: &Term<A>) -> bool
    ensures { (bodies : ℕ → Proc) → IsTrue result ↔ Stable bodies (proc term.now) }
{
    facts_of_term(term).rests
}

/// The events of Sigma with which the term has a step; tick isn't among them. Takes no memory. A name and an internal
/// choice have hidden steps alone, so they offer nothing yet. A stable term (`is_stable`) does nothing else than take
/// one of these events, or terminate. The steps are those of Roscoe, The Theory and Practice of Concurrency; an
/// interrupt by an event of its right part is this project's reading (`docs/SEMANTICS.md`). Costs what `can_tick` does.
pub fn offers<A: Allocator>(term: &Term<A>) -> EventSet
    ensures events { (a : ℕ) → IsTrue (has result a) ↔ Offers (proc term.now) a }
    ensures tick { member result tick ≡ false }
{
    facts_of_term(term).offers
}
