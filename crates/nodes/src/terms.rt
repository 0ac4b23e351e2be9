//! Terms by number.

ghost use Rattle.std.specs.Prelude.{◌≡◌, ◌<◌, ℕ, List, IfOk};
ghost use Rattle.term.specs.Proc.{Proc, prefix, par, hide, ren, proc};
ghost use Rattle.nodes.specs.Shapes.{Parameters, at, over, parts, shape, IsWithin};
ghost use Rattle.nodes.specs.Tables.{HasGrown, IsNumber};

use crate::node::Node;
use crate::table::Table;
use alphabet::{Event, EventSet};
use std::alloc::{AllocError, Allocator};
use term::Term;

/// An operator over two processes alone.
#[derive(Clone, Copy)]
pub(crate) enum Operator {
    Ext,
    Int,
    Seq,
    Intr,
}

impl Operator {
    /// The operator's node over the parts with these numbers.
    fn node(self, left: u32, right: u32) -> Node
        ensures shape { (S : Parameters) (ps : List Proc) → shape S ps result ≡ over self (at ps left) (at ps right) }
        ensures within { (S : Parameters) (n : ℕ) → left < n → right < n → IsWithin S n result }
    {
        match self {
            Operator::Ext => Node::Ext(left, right),
            Operator::Int => Node::Int(left, right),
            Operator::Seq => Node::Seq(left, right),
            Operator::Intr => Node::Intr(left, right),
        }
    }

    /// The operator's term over these.
    pub(crate) fn term<B: Allocator>(self, left: Box<Term<B>, B>, right: Box<Term<B>, B>) -> Term<B>
        ensures { proc result ≡ over self (proc left.value) (proc right.value) }
    {
        match self {
            Operator::Ext => Term::Ext(left, right),
            Operator::Int => Term::Int(left, right),
            Operator::Seq => Term::Seq(left, right),
            Operator::Intr => Term::Intr(left, right),
        }
    }
}

impl<A: Allocator + Copy> Table<A> {
    /// The number of this term's process. Numbers keep what they are of, also where memory is refused. The parts are
    /// put first, each different one once, so the table grows by at most the term's size; a prefix by tick is put as
    /// `STOP`. The term stays, and may be in other memory. Costs a look-up by hash for each node, and a search among
    /// the sets or relations here for each set or relation, in calls nested as deep as the term is. The errors are
    /// those of `put`; parts that were put before an error stay.
    #[cycle(number_of_term)]
    pub fn number_of_term<B: Allocator>(&mut self, term: &Term<B>) -> Result<u32, AllocError>
        ensures number { IfOk result (λ n. IsNumber self.new n (proc term.now)) }
        ensures grown { HasGrown self.old self.new }
    {
        match term {
            Term::Stop | Term::Prefix(Event::Tick, _) => self.put(Node::Stop),
            Term::Skip => self.put(Node::Skip),
            Term::Name(k) => self.put(Node::Name(*k)),
            Term::Prefix(Event::Of(_), _) | Term::Hide(_, _) | Term::Ren(_, _) => {
                self.number_of_one(term)
            }
            _ => self.number_of_two(term),
        }
    }

    /// The number of this term's process, which has one part.
    #[cycle(number_of_term)]
    fn number_of_one<B: Allocator>(&mut self, term: &Term<B>) -> Result<u32, AllocError>
        requires { parts (proc term.now) ≡ 1 }
        ensures number { IfOk result (λ n. IsNumber self.new n (proc term.now)) }
        ensures grown { HasGrown self.old self.new }
    {
        match term {
            Term::Prefix(Event::Of(event), p) => self.number_of_prefix(*event, p),
            Term::Hide(set, p) => self.number_of_hide(*set, p),
            Term::Ren(pairs, p) => self.number_of_ren(pairs, p),
            _ => self.put(Node::Stop),
        }
    }

    /// The number of this term's process, which has two parts.
    #[cycle(number_of_term)]
    fn number_of_two<B: Allocator>(&mut self, term: &Term<B>) -> Result<u32, AllocError>
        requires { parts (proc term.now) ≡ 2 }
        ensures number { IfOk result (λ n. IsNumber self.new n (proc term.now)) }
        ensures grown { HasGrown self.old self.new }
    {
        let (operator, p, q) = match term {
            Term::Par(set, p, q) => return self.number_of_par(*set, p, q),
            Term::Ext(p, q) => (Operator::Ext, p, q),
            Term::Int(p, q) => (Operator::Int, p, q),
            Term::Seq(p, q) => (Operator::Seq, p, q),
            Term::Intr(p, q) => (Operator::Intr, p, q),
            _ => return self.put(Node::Stop),
        };
        self.number_over(operator, p, q)
    }

    /// The number of the prefix of this term's process.
    #[cycle(number_of_term)]
    fn number_of_prefix<B: Allocator>(
        &mut self,
        event: u8,
        then: &Term<B>,
    ) -> Result<u32, AllocError>
        ensures number { IfOk result (λ n. IsNumber self.new n (prefix event (proc then.now))) }
        ensures grown { HasGrown self.old self.new }
    {
        let then = self.number_of_term(then)?;
        self.put(Node::Prefix(event, then))
    }

    /// The number of the operator's process over those of both terms.
    #[cycle(number_of_term)]
    fn number_over<B: Allocator>(
        &mut self,
        operator: Operator,
        left: &Term<B>,
        right: &Term<B>,
    ) -> Result<u32, AllocError>
        ensures number { IfOk result (λ n. IsNumber self.new n (over operator (proc left.now) (proc right.now))) }
        ensures grown { HasGrown self.old self.new }
    {
        let (left, right) = self.numbers_of(left, right)?;
        self.put(operator.node(left, right))
    }

    /// The number of the parallel of both terms' processes.
    #[cycle(number_of_term)]
    fn number_of_par<B: Allocator>(
        &mut self,
        set: EventSet,
        left: &Term<B>,
        right: &Term<B>,
    ) -> Result<u32, AllocError>
        ensures number { IfOk result (λ n. IsNumber self.new n (par set (proc left.now) (proc right.now))) }
        ensures grown { HasGrown self.old self.new }
    {
        let (left, right) = self.numbers_of(left, right)?;
        let set = self.put_set(set)?;
        self.put(Node::Par(set, left, right))
    }

    /// The number of this term's process with the set hidden.
    #[cycle(number_of_term)]
    fn number_of_hide<B: Allocator>(
        &mut self,
        set: EventSet,
        part: &Term<B>,
    ) -> Result<u32, AllocError>
        ensures number { IfOk result (λ n. IsNumber self.new n (hide set (proc part.now))) }
        ensures grown { HasGrown self.old self.new }
    {
        let part = self.number_of_term(part)?;
        let set = self.put_set(set)?;
        self.put(Node::Hide(set, part))
    }

    /// The number of this term's process, renamed.
    #[cycle(number_of_term)]
    fn number_of_ren<B: Allocator>(
        &mut self,
        pairs: &[(u8, u8)],
        part: &Term<B>,
    ) -> Result<u32, AllocError>
        ensures number { IfOk result (λ n. IsNumber self.new n (ren pairs.now (proc part.now))) }
        ensures grown { HasGrown self.old self.new }
    {
        let part = self.number_of_term(part)?;
        let relation = self.put_pairs(pairs)?;
        self.put(Node::Ren(relation, part))
    }

    /// The numbers of both terms' processes.
    #[cycle(number_of_term)]
    fn numbers_of<B: Allocator>(
        &mut self,
        left: &Term<B>,
        right: &Term<B>,
    ) -> Result<(u32, u32), AllocError>
        ensures left { IfOk result (λ n. IsNumber self.new n.0 (proc left.now)) }
        ensures right { IfOk result (λ n. IsNumber self.new n.1 (proc right.now)) }
        ensures grown { HasGrown self.old self.new }
    {
        let left = self.number_of_term(left)?;
        let right = self.number_of_term(right)?;
        Ok((left, right))
    }
}
