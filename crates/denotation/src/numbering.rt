//! Numbers for the definitions that bodies name: the second pass.
ghost use Rattle.std.specs.Prelude.{◌≡◌, ℕ, ◌++◌, IfOk, map};
ghost use Rattle.term.specs.Proc.{proc};
ghost use Rattle.denotation.specs.Bodies.{Body, Key, names, numbered as numbered_by};
ghost use Rattle.denotation.specs.Denotes.{place, with_key, with_keys};
ghost use Rattle.denotation.specs.Phrases.{joint_of};
ghost use Rattle.denotation.specs.View.{body, key};

use crate::call::Call;
use crate::draft::{Draft, Joint};
use crate::forms::Join;
use alphabet::{Event, EventSet};
use indexmap::IndexSet;
use std::alloc::{AllocError, Allocator};
use std::hash::{BuildHasherDefault, FoldHasher};
use term::Term;

type Hashing = BuildHasherDefault<FoldHasher>;

/// The definitions that were met, with the values of their parameters, each at its number.
pub(crate) type Met<A> = IndexSet<Call<A>, Hashing, A>;

/// The number of a definition with these values, which is the next one where it wasn't met before. Costs one look-up by its hash.
fn placed<A: Allocator>(met: &mut Met<A>, call: Call<A>) -> Result<usize, AllocError>
    ensures keys { IfOk result (λ n. with_key (map key met.old.keys) (key call) ≡ map key met.new.keys) }
    ensures number { IfOk result (λ n. place (with_key (map key met.old.keys) (key call)) (key call) ≡ n) }
{
    let (number, _) = met.insert_full(call)?;
    Ok(number)
}

/// Two terms joined so.
#[tactic(auto, unfolding(crate::specs::Bodies::numbered, crate::specs::Phrases::joint_of, crate::specs::Phrases::join_of))]
fn joined_so<A: Allocator>(joint: Joint, p: Box<Term<A>, A>, q: Box<Term<A>, A>) -> Term<A>
    ensures { (f : Key → ℕ) → (b c : Body) → proc p.value ≡ numbered_by f b → proc q.value ≡ numbered_by f c → proc result ≡ numbered_by f (joint_of joint b c) }
{
    match joint {
        Joint::Join(join) => match join {
            Join::Sequence => Term::Seq(p, q),
            Join::Interrupt => Term::Intr(p, q),
            Join::External => Term::Ext(p, q),
            Join::Internal => Term::Int(p, q),
            Join::Interleaving => Term::Par(EventSet::empty(), p, q),
        },
        Joint::Sharing(set) => Term::Par(set, p, q),
    }
}

/// The term of a body, with a number for each definition that it names: that of its first place.
#[cycle(numbering)]
#[tactic(auto, unfolding(crate::specs::Bodies::names, crate::specs::Bodies::size, crate::specs::Bodies::numbered, crate::specs::Denotes::with_keys))]
pub(crate) fn numbered<A: Allocator + Copy>(
    alloc: A,
    draft: Draft<A>,
    met: &mut Met<A>,
) -> Result<Term<A>, AllocError>
    ensures keys { IfOk result (λ t. with_keys (map key met.old.keys) (names (body draft)) ≡ map key met.new.keys) }
    ensures term { IfOk result (λ t. proc t ≡ numbered_by (place (map key met.new.keys)) (body draft)) }
{
    match draft {
        Draft::Stop => Ok(Term::Stop),
        Draft::Skip => Ok(Term::Skip),
        Draft::Prefix(event, p) => Ok(Term::Prefix(Event::Of(event), one(alloc, p, met)?)),
        Draft::Both(joint, p, q) => {
            let (p, q) = both(alloc, p, q, met)?;
            Ok(joined_so(joint, p, q))
        }
        Draft::Hide(set, p) => Ok(Term::Hide(set, one(alloc, p, met)?)),
        Draft::Ren(pairs, p) => {
            let p = one(alloc, p, met)?;
            Ok(Term::Ren(pairs, p))
        }
        Draft::Name(call) => Ok(Term::Name(placed(met, call)?)),
    }
}

/// The term of a body, in a place of its own in memory.
#[cycle(numbering)]
fn one<A: Allocator + Copy>(
    alloc: A,
    draft: Box<Draft<A>, A>,
    met: &mut Met<A>,
) -> Result<Box<Term<A>, A>, AllocError>
    ensures keys { IfOk result (λ t. with_keys (map key met.old.keys) (names (body draft.value)) ≡ map key met.new.keys) }
    ensures term { IfOk result (λ t. proc t.value ≡ numbered_by (place (map key met.new.keys)) (body draft.value)) }
{
    let term = numbered(alloc, Box::into_inner(draft), met)?;
    Ok(Box::new(alloc, term)?)
}

/// The terms of two bodies, the first one numbered first.
#[cycle(numbering)]
#[tactic(auto, using(crate::proofs::Numbered::then_more, crate::proofs::Keys::keys_append))]
fn both<A: Allocator + Copy>(
    alloc: A,
    first: Box<Draft<A>, A>,
    second: Box<Draft<A>, A>,
    met: &mut Met<A>,
) -> Result<(Box<Term<A>, A>, Box<Term<A>, A>), AllocError>
    ensures keys { IfOk result (λ t. with_keys (map key met.old.keys) (names (body first.value) ++ names (body second.value)) ≡ map key met.new.keys) }
    ensures first { IfOk result (λ t. proc t.0.value ≡ numbered_by (place (map key met.new.keys)) (body first.value)) }
    ensures second { IfOk result (λ t. proc t.1.value ≡ numbered_by (place (map key met.new.keys)) (body second.value)) }
{
    let first = one(alloc, first, met)?;
    let second = one(alloc, second, met)?;
    Ok((first, second))
}
