//! The terms of processes by number.

ghost use Rattle.std.specs.Prelude.{◌≡◌, ◌<◌, IfOk, length};
ghost use Rattle.term.specs.Proc.{hide, par, prefix, proc, ren};
ghost use Rattle.nodes.specs.Shapes.{at, over, set_at, shape, IsWithin};

use crate::node::Node;
use crate::table::Table;
use crate::terms::Operator;
use alphabet::{Event, EventSet};
use std::alloc::{AllocError, Allocator};
use term::Term;

impl<A: Allocator> Table<A> {
    /// The term of the process with this number, in memory of `alloc`. A part that the process has in several places is
    /// copied for each of them, so it costs the term's size, in calls nested as deep as the term is. The number is below
    /// `len`. The error is that memory was refused.
    #[cycle(term)]
    pub fn term<B: Allocator + Clone>(&self, number: u32, alloc: &B) -> Result<Term<B>, AllocError>
        requires { number < length self.now.processes }
        ensures { IfOk result (λ term. proc term ≡ at self.now.processes number) }
    {
        self.term_of(number, self.node(number), alloc)
    }

    /// The term of this node's process, whose parts have numbers below this one.
    #[cycle(term)]
    fn term_of<B: Allocator + Clone>(
        &self,
        number: u32,
        node: Node,
        alloc: &B,
    ) -> Result<Term<B>, AllocError>
        requires number { number < length self.now.processes }
        requires within { IsWithin self.now.parameters number node }
        ensures { IfOk result (λ term. proc term ≡ shape self.now.parameters self.now.processes node) }
    {
        match node {
            Node::Stop => Ok(Term::Stop),
            Node::Skip => Ok(Term::Skip),
            Node::Name(body) => Ok(Term::Name(body)),
            Node::Prefix(event, p) => self.prefix_term(event, p, alloc),
            Node::Ext(p, q) => self.term_over(Operator::Ext, p, q, alloc),
            Node::Int(p, q) => self.term_over(Operator::Int, p, q, alloc),
            Node::Seq(p, q) => self.term_over(Operator::Seq, p, q, alloc),
            Node::Par(set, p, q) => self.par_term(self.set(set), p, q, alloc),
            Node::Hide(set, p) => self.hide_term(self.set(set), p, alloc),
            Node::Ren(relation, p) => self.ren_term(self.pairs(relation), p, alloc),
            Node::Intr(p, q) => self.term_over(Operator::Intr, p, q, alloc),
        }
    }

    /// The term of the prefix of the process with this number.
    #[cycle(term)]
    fn prefix_term<B: Allocator + Clone>(
        &self,
        event: u8,
        p: u32,
        alloc: &B,
    ) -> Result<Term<B>, AllocError>
        requires { p < length self.now.processes }
        ensures { IfOk result (λ term. proc term ≡ prefix event (at self.now.processes p)) }
    {
        let then = self.boxed_term(p, alloc)?;
        Ok(Term::Prefix(Event::Of(event), then))
    }

    /// The term of the operator's process over those with these numbers.
    #[cycle(term)]
    fn term_over<B: Allocator + Clone>(
        &self,
        operator: Operator,
        p: u32,
        q: u32,
        alloc: &B,
    ) -> Result<Term<B>, AllocError>
        requires left { p < length self.now.processes }
        requires right { q < length self.now.processes }
        ensures { IfOk result (λ term. proc term ≡ over operator (at self.now.processes p) (at self.now.processes q)) }
    {
        let left = self.boxed_term(p, alloc)?;
        let right = self.boxed_term(q, alloc)?;
        Ok(operator.term(left, right))
    }

    /// The term of the parallel of the processes with these numbers.
    #[cycle(term)]
    fn par_term<B: Allocator + Clone>(
        &self,
        set: EventSet,
        p: u32,
        q: u32,
        alloc: &B,
    ) -> Result<Term<B>, AllocError>
        requires left { p < length self.now.processes }
        requires right { q < length self.now.processes }
        ensures { IfOk result (λ term. proc term ≡ par set (at self.now.processes p) (at self.now.processes q)) }
    {
        let left = self.boxed_term(p, alloc)?;
        let right = self.boxed_term(q, alloc)?;
        Ok(Term::Par(set, left, right))
    }

    /// The term of the process with this number with the set hidden.
    #[cycle(term)]
    fn hide_term<B: Allocator + Clone>(
        &self,
        set: EventSet,
        p: u32,
        alloc: &B,
    ) -> Result<Term<B>, AllocError>
        requires { p < length self.now.processes }
        ensures { IfOk result (λ term. proc term ≡ hide set (at self.now.processes p)) }
    {
        let part = self.boxed_term(p, alloc)?;
        Ok(Term::Hide(set, part))
    }

    /// The term of the process with this number, renamed by these pairs.
    #[cycle(term)]
    fn ren_term<B: Allocator + Clone>(
        &self,
        pairs: &[(u8, u8)],
        p: u32,
        alloc: &B,
    ) -> Result<Term<B>, AllocError>
        requires { p < length self.now.processes }
        ensures { IfOk result (λ term. proc term ≡ ren pairs.now (at self.now.processes p)) }
    {
        let part = self.boxed_term(p, alloc)?;
        let pairs = Vec::from_slice(alloc.clone()?, pairs)?;
        Ok(Term::Ren(pairs, part))
    }

    /// The term of the process with this number, in a box of its own.
    #[cycle(term)]
    fn boxed_term<B: Allocator + Clone>(
        &self,
        p: u32,
        alloc: &B,
    ) -> Result<Box<Term<B>, B>, AllocError>
        requires { p < length self.now.processes }
        ensures { IfOk result (λ boxed. proc boxed.value ≡ at self.now.processes p) }
    {
        let term = self.term(p, alloc)?;
        in_box(term, alloc)
    }
}

/// The term, in a box of its own.
fn in_box<B: Allocator + Clone>(term: Term<B>, alloc: &B) -> Result<Box<Term<B>, B>, AllocError>
    ensures { IfOk result (λ boxed. boxed.value ≡ term) }
{
    Ok(Box::new(alloc.clone()?, term)?)
}
