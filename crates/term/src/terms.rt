//! Terms of the calculus.

ghost use Rattle.std.specs.List.{fold};
ghost use Rattle.std.specs.Prelude.{IfOk, IsTrue, ◌≡◌, ◌↔◌, ◌-◌, ◌^◌, min};
ghost use Rattle.term.specs.Proc.{proc};
ghost use Rattle.term.specs.Same.{hash_writes, same, same_pairs};
ghost use Rattle.term.specs.SameLaws.{same-laws, same-partial, same-writes};
ghost use Rattle.term.specs.Sizes.{depth, size};

use alphabet::{Event, EventSet};
use std::alloc::{AllocError, Allocator};
use std::hash::{Hash, Hasher};

/// A process: what it can do and refuse is its meaning (`docs/SEMANTICS.md`).
#[derive(Drop)]
pub enum Term<A: Allocator> {
    /// `STOP`, which does nothing.
    Stop,
    /// `SKIP`, which terminates.
    Skip,
    /// `a -> P`. A prefix by tick is no process of CSP and reads as `STOP`.
    Prefix(Event, Box<Term<A>, A>),
    /// `P [] Q`, external choice.
    Ext(Box<Term<A>, A>, Box<Term<A>, A>),
    /// `P |~| Q`, internal choice.
    Int(Box<Term<A>, A>, Box<Term<A>, A>),
    /// `P ; Q`, sequence.
    Seq(Box<Term<A>, A>, Box<Term<A>, A>),
    /// `P [| A |] Q`, parallel with the events of A taken by both.
    Par(EventSet, Box<Term<A>, A>, Box<Term<A>, A>),
    /// `P \ A`, hiding.
    Hide(EventSet, Box<Term<A>, A>),
    /// `P[[R]]`, renaming: pairs of event numbers in order, none twice.
    Ren(Vec<(u8, u8), A>, Box<Term<A>, A>),
    /// `P /\ Q`, interrupt.
    Intr(Box<Term<A>, A>, Box<Term<A>, A>),
    /// The body with this number.
    Name(usize),
}

impl<A: Allocator + Clone> Term<A> {
    /// A copy in memory of `alloc`.
    #[cycle(copy)]
    pub fn try_clone(&self, alloc: &A) -> Result<Term<A>, AllocError>
        ensures { IfOk result (λ copy. proc copy ≡ proc self.now) }
    {
        match self {
            Term::Stop => Ok(Term::Stop),
            Term::Skip => Ok(Term::Skip),
            Term::Prefix(event, p) => Ok(Term::Prefix(*event, boxed_clone(p, alloc)?)),
            Term::Ext(p, q) => Ok(Term::Ext(boxed_clone(p, alloc)?, boxed_clone(q, alloc)?)),
            Term::Int(p, q) => Ok(Term::Int(boxed_clone(p, alloc)?, boxed_clone(q, alloc)?)),
            Term::Seq(p, q) => Ok(Term::Seq(boxed_clone(p, alloc)?, boxed_clone(q, alloc)?)),
            Term::Par(set, p, q) => Ok(Term::Par(
                *set,
                boxed_clone(p, alloc)?,
                boxed_clone(q, alloc)?,
            )),
            Term::Hide(set, p) => Ok(Term::Hide(*set, boxed_clone(p, alloc)?)),
            Term::Ren(pairs, p) => {
                Ok(Term::Ren(pairs.to_vec(alloc.clone()?)?, boxed_clone(p, alloc)?))
            }
            Term::Intr(p, q) => Ok(Term::Intr(boxed_clone(p, alloc)?, boxed_clone(q, alloc)?)),
            Term::Name(k) => Ok(Term::Name(*k)),
        }
    }
}

impl<A: Allocator> Term<A> {
    /// Whether both are the same process. Takes no memory.
    pub fn equal(&self, other: &Term<A>) -> bool
        ensures { IsTrue result ↔ proc self.now ≡ proc other.now }
    {
        self == other
    }

    /// The depth: 1 for `STOP`, `SKIP` and a name, else 1 more than that of the deepest part. A depth past the
    /// greatest `u64` is reported as that number.
    pub fn depth(&self) -> u64
        ensures { result ≡ min (depth (proc self.now)) (2 ^ 64 - 1) }
    {
        match self {
            Term::Stop | Term::Skip | Term::Name(_) | Term::Prefix(Event::Tick, _) => 1,
            Term::Prefix(Event::Of(_), p) | Term::Hide(_, p) | Term::Ren(_, p) => {
                p.depth().saturating_add(1)
            }
            Term::Ext(p, q)
            | Term::Int(p, q)
            | Term::Seq(p, q)
            | Term::Par(_, p, q)
            | Term::Intr(p, q) => p.depth().max(q.depth()).saturating_add(1),
        }
    }

    /// The number of nodes. A size past the greatest `u64` is reported as that number.
    pub fn size(&self) -> u64
        ensures { result ≡ min (size (proc self.now)) (2 ^ 64 - 1) }
    {
        match self {
            Term::Stop | Term::Skip | Term::Name(_) | Term::Prefix(Event::Tick, _) => 1,
            Term::Prefix(Event::Of(_), p) | Term::Hide(_, p) | Term::Ren(_, p) => {
                p.size().saturating_add(1)
            }
            Term::Ext(p, q)
            | Term::Int(p, q)
            | Term::Seq(p, q)
            | Term::Par(_, p, q)
            | Term::Intr(p, q) => p.size().saturating_add(q.size()).saturating_add(1),
        }
    }
}

impl<A: Allocator> PartialEq for Term<A> {
    ghost eq = { λ a b. same (proc a) (proc b) };

    ghost laws = { same-partial proc };

    fn eq(&self, other: &Term<A>) -> bool {
        is_same(self, other)
    }
}

impl<A: Allocator> Eq for Term<A> {
    ghost laws = { same-laws proc };
}

impl<A: Allocator> Hash for Term<A> {
    ghost hash_input = { λ t. hash_writes (proc t) };

    ghost respects_eq = { same-writes proc };

    fn hash<H: Hasher>(&self, state: &mut H) {
        feed(self, state);
    }
}

/// Feeds a term to a hasher. Sets and pairs are left out: terms that differ in them alone hash alike.
fn feed<A: Allocator, H: Hasher>(term: &Term<A>, state: &mut H)
    ensures { state.new ≡ fold H.write state.old (hash_writes (proc term.now)) }
{
    match term {
        Term::Stop | Term::Prefix(Event::Tick, _) => state.write_u8(0),
        Term::Skip => state.write_u8(1),
        Term::Prefix(Event::Of(event), p) => {
            state.write_u8(2);
            state.write_u8(*event);
            feed(p, state);
        }
        Term::Ext(p, q) => {
            state.write_u8(3);
            feed(p, state);
            feed(q, state);
        }
        Term::Int(p, q) => {
            state.write_u8(4);
            feed(p, state);
            feed(q, state);
        }
        Term::Seq(p, q) => {
            state.write_u8(5);
            feed(p, state);
            feed(q, state);
        }
        Term::Par(_, p, q) => {
            state.write_u8(6);
            feed(p, state);
            feed(q, state);
        }
        Term::Hide(_, p) => {
            state.write_u8(7);
            feed(p, state);
        }
        Term::Ren(_, p) => {
            state.write_u8(8);
            feed(p, state);
        }
        Term::Intr(p, q) => {
            state.write_u8(9);
            feed(p, state);
            feed(q, state);
        }
        Term::Name(k) => {
            state.write_u8(10);
            state.write_usize(*k);
        }
    }
}

/// Whether two renamings have the same pairs in the same order.
fn equal_pairs(a: &[(u8, u8)], b: &[(u8, u8)]) -> bool
    ensures { result ≡ same_pairs a.now b.now }
{
    if a.len() != b.len() {
        return false;
    }
    for (x, y) in a.iter().zip(b) {
        if x.0 != y.0 || x.1 != y.1 {
            return false;
        }
    }
    true
}

/// Whether two terms are the same, part by part.
fn is_same<A: Allocator>(a: &Term<A>, b: &Term<A>) -> bool
    ensures { result ≡ same (proc a.now) (proc b.now) }
{
    match a {
        Term::Stop | Term::Prefix(Event::Tick, _) => {
            matches!(b, Term::Stop | Term::Prefix(Event::Tick, _))
        }
        Term::Skip => matches!(b, Term::Skip),
        Term::Prefix(Event::Of(e), p) => match b {
            Term::Prefix(Event::Of(f), r) => *e == *f && is_same(p, r),
            _ => false,
        },
        Term::Ext(p, q) => match b {
            Term::Ext(r, s) => is_same(p, r) && is_same(q, s),
            _ => false,
        },
        Term::Int(p, q) => match b {
            Term::Int(r, s) => is_same(p, r) && is_same(q, s),
            _ => false,
        },
        Term::Seq(p, q) => match b {
            Term::Seq(r, s) => is_same(p, r) && is_same(q, s),
            _ => false,
        },
        Term::Par(set, p, q) => match b {
            Term::Par(other, r, s) => *set == *other && (is_same(p, r) && is_same(q, s)),
            _ => false,
        },
        Term::Hide(set, p) => match b {
            Term::Hide(other, r) => *set == *other && is_same(p, r),
            _ => false,
        },
        Term::Ren(pairs, p) => match b {
            Term::Ren(others, r) => equal_pairs(pairs, others) && is_same(p, r),
            _ => false,
        },
        Term::Intr(p, q) => match b {
            Term::Intr(r, s) => is_same(p, r) && is_same(q, s),
            _ => false,
        },
        Term::Name(k) => match b {
            Term::Name(l) => *k == *l,
            _ => false,
        },
    }
}

/// A copy, in a box of its own.
#[cycle(copy)]
fn boxed_clone<A: Allocator + Clone>(
    term: &Term<A>,
    alloc: &A,
) -> Result<Box<Term<A>, A>, AllocError>
    ensures { IfOk result (λ copy. proc copy.value ≡ proc term.now) }
{
    Ok(Box::new(alloc.clone()?, term.try_clone(alloc)?)?)
}
