//! Which names are guarded, and what stands for those.
//!
//! A name is guarded once all are that its body exposes. Each name is tried; where its body exposes one that isn't guarded yet, it
//! waits on that one, and is tried again when that one is guarded.

ghost use Rattle.std.specs.Prelude.{◌≡◌, ◌<◌, ℕ, Bool, IfOk, IfSome, None, List, OnOk, false, get_or, length, true};
ghost use Rattle.term.specs.Proc.{bodies_of};
ghost use Rattle.nodes.specs.Shapes.{at, shape, IsWithin};
ghost use Rattle.nodes.specs.Tables.{IsNumber};
ghost use Rattle.transitions.specs.Numbered.{KeepsNumbers};
ghost use Rattle.unfolding.specs.Unfolded.{exposes_only, unfolded};
ghost use Rattle.keeping.specs.Kept.{AreStanding};
ghost use Rattle.keeping.specs.Guarding.{AreNames, GoesOn, IsSettled, StaysFound, says, stands_so_far};

use nodes::Node;
use std::alloc::{AllocError, Allocator};
use std::marker::Model;
use term::Spec;
use transitions::Transitions;

/// What is found of names so far: which are guarded, and the numbers of what stands for them.
#[derive(Drop)]
pub(crate) struct Guarding<A: Allocator> {
    pub(crate) all: Transitions<A>,
    pub(crate) stands: Vec<u32, A>,
    pub(crate) guards: Vec<bool, A>,
    // For each name those that wait on it. No clause speaks of them.
    pub(crate) waiting: Vec<Vec<usize, A>, A>,
}

impl<A: Allocator> Model for Guarding<A> {
    ghost use Rattle.keeping.specs.Kept.{AreStanding};
    ghost use Rattle.keeping.specs.Guarding.{AreFound, Guarding, guarding_code};

    ghost Value = { Guarding };

    ghost coded = { guarding_code };

    ghost view = { λ s. record { all = s.all; guards = s.guards.items } };

    ghost invariant = { λ s. AreFound (record { all = s.all; guards = s.guards.items }) s.stands.items };
}

impl<A: Allocator + Copy> Guarding<A> {
    /// The processes of this specification. Each name stands for itself so far.
    pub(crate) fn new<B: Allocator>(alloc: A, spec: &Spec<B>) -> Result<Guarding<A>, AllocError>
        ensures bodies { IfOk result (λ names. names.all.bodies ≡ spec.now.bodies) }
        ensures count { IfOk result (λ names. length names.guards ≡ length spec.now.bodies) }
    {
        let bodies = spec.bodies();
        let guards = none_guarded(bodies, alloc)?;
        let waiting = none_waiting(bodies, alloc)?;
        let mut all = Transitions::new(alloc, spec)?;
        match put_names(&mut all, bodies, alloc) {
            Ok(stands) => Ok(Guarding {
                all,
                stands,
                guards,
                waiting,
            }),
            Err(AllocError) => {
                drop(all);
                Err(AllocError)
            }
        }
    }

    /// The processes, and the numbers of what stands for the names.
    pub(crate) fn into_parts<B: Allocator>(self, spec: &Spec<B>) -> (Transitions<A>, Vec<u32, A>)
        requires bodies { self.all.bodies ≡ spec.now.bodies }
        requires count { length self.guards ≡ length spec.now.bodies }
        requires settled { IsSettled self }
        ensures bodies { result.0.bodies ≡ spec.now.bodies }
        ensures standing { AreStanding (record { all = result.0; deep = length spec.now.bodies }) result.1.items }
    {
        // A specification is closed: a clause of its own says so.
        let _bodies = spec.bodies();
        let Guarding {
            all,
            stands,
            guards,
            waiting,
        } = self;
        drop(waiting);
        drop(guards);
        (all, stands)
    }

    /// Guards the names that can be, those of the last bodies first.
    pub(crate) fn guard_all(&mut self, alloc: A) -> Result<(), AllocError>
        ensures { OnOk result (GoesOn self.old self.new) }
    {
        let names = self.guards.len();
        for name in 0..names {
            self.settle(names - 1 - name, alloc)?;
        }
        Ok(())
    }

    /// Guards the name and those that waited on it, or lets it wait.
    fn settle(&mut self, name: usize, alloc: A) -> Result<(), AllocError>
        ensures { OnOk result (GoesOn self.old self.new) }
    {
        let mut tried = Vec::new(alloc);
        tried.push(name)?;
        for _ in 0..u64::MAX {
            let Some(name) = tried.pop() else {
                return Ok(());
            };
            match self.guard(name)? {
                Some(other) => self.wait(name, other)?,
                None => self.wake(name, &mut tried)?,
            }
        }
        Ok(())
    }

    /// Guards the name, or gives a name that its body exposes and that isn't guarded.
    fn guard(&mut self, name: usize) -> Result<Option<usize>, AllocError>
        ensures { GoesOn self.old self.new }
    {
        if name >= self.guards.len() || self.guards[name] {
            return Ok(None);
        }
        let Some(body) = self.all.body(name) else {
            return Ok(None);
        };
        if let Some(other) = self.unguarded(body) {
            return Ok(Some(other));
        }
        let number = self.replaced(body)?;
        self.guards[name] = true;
        self.stands[name] = number;
        Ok(None)
    }
}

impl<A: Allocator> Guarding<A> {
    /// The name waits on this other one.
    fn wait(&mut self, name: usize, other: usize) -> Result<(), AllocError>
        ensures { self.new ≡ self.old }
    {
        if other < self.waiting.len() {
            self.waiting[other].push(name)?;
        }
        Ok(())
    }

    /// Those that wait on the name are tried again.
    fn wake(&mut self, name: usize, tried: &mut Vec<usize, A>) -> Result<(), AllocError>
        ensures { self.new ≡ self.old }
    {
        if name < self.waiting.len() {
            tried.extend_from_slice(&self.waiting[name])?;
            self.waiting[name].clear();
        }
        Ok(())
    }

    /// An exposed name of the process that isn't guarded.
    fn unguarded(&self, number: u32) -> Option<usize>
        requires { number < length self.now.all.table.processes }
        ensures none { result ≡ None → exposes_only (says self.now.guards) (at self.now.all.table.processes number) ≡ true }
        ensures some { IfSome result (λ _. exposes_only (says self.now.guards) (at self.now.all.table.processes number) ≡ false) }
    {
        match self.all.node(number) {
            Node::Name(name) => {
                if self.is_guarded(name) {
                    return None;
                }
                Some(name)
            }
            Node::Stop | Node::Skip | Node::Prefix(_, _) | Node::Int(_, _) => None,
            Node::Seq(p, _) | Node::Hide(_, p) | Node::Ren(_, p) => self.unguarded(p),
            Node::Ext(p, q) | Node::Par(_, p, q) | Node::Intr(p, q) => match self.unguarded(p) {
                Some(name) => Some(name),
                None => self.unguarded(q),
            },
        }
    }

    /// Whether the name is known to be guarded.
    fn is_guarded(&self, name: usize) -> bool
        ensures { result ≡ says self.now.guards name }
    {
        name < self.guards.len() && self.guards[name]
    }

    /// Whether each name that isn't known to be guarded has a body that exposes such a name.
    pub(crate) fn are_settled(&self) -> bool
        ensures { result ≡ true → IsSettled self.now }
    {
        for name in 0..self.guards.len() {
            if !self.is_settled(name) {
                return false;
            }
        }
        true
    }

    /// The same of one name.
    fn is_settled(&self, name: usize) -> bool
        ensures { result ≡ true → says self.now.guards name ≡ false → exposes_only (says self.now.guards) (bodies_of self.now.all.bodies name) ≡ false }
    {
        match self.all.body(name) {
            Some(body) => self.is_guarded(name) || self.unguarded(body).is_some(),
            None => false,
        }
    }

    /// The number of this process with its exposed names replaced by what stands for them so far.
    #[cycle(replace)]
    fn replaced(&mut self, number: u32) -> Result<u32, AllocError>
        requires { number < length self.old.all.table.processes }
        ensures number { IfOk result (λ n. IsNumber self.new.all.table n (unfolded (stands_so_far self.old) (at self.old.all.table.processes number))) }
        ensures kept { StaysFound self.old self.new }
    {
        match self.all.node(number) {
            Node::Stop | Node::Skip | Node::Prefix(_, _) | Node::Int(_, _) => Ok(number),
            Node::Name(name) => self.standing(name),
            Node::Seq(p, q) => {
                let p = self.replaced(p)?;
                self.put(Node::Seq(p, q))
            }
            Node::Hide(set, p) => {
                let p = self.replaced(p)?;
                self.put(Node::Hide(set, p))
            }
            Node::Ren(relation, p) => {
                let p = self.replaced(p)?;
                self.put(Node::Ren(relation, p))
            }
            Node::Ext(p, q) => {
                let (p, q) = self.replaced_both(p, q)?;
                self.put(Node::Ext(p, q))
            }
            Node::Par(set, p, q) => {
                let (p, q) = self.replaced_both(p, q)?;
                self.put(Node::Par(set, p, q))
            }
            Node::Intr(p, q) => {
                let (p, q) = self.replaced_both(p, q)?;
                self.put(Node::Intr(p, q))
            }
        }
    }

    /// The numbers of both processes with their exposed names replaced.
    #[cycle(replace)]
    fn replaced_both(&mut self, p: u32, q: u32) -> Result<(u32, u32), AllocError>
        requires left { p < length self.old.all.table.processes }
        requires right { q < length self.old.all.table.processes }
        ensures left { IfOk result (λ n. IsNumber self.new.all.table n.0 (unfolded (stands_so_far self.old) (at self.old.all.table.processes p))) }
        ensures right { IfOk result (λ n. IsNumber self.new.all.table n.1 (unfolded (stands_so_far self.old) (at self.old.all.table.processes q))) }
        ensures kept { StaysFound self.old self.new }
    {
        let left = self.replaced(p)?;
        let right = self.replaced(q)?;
        Ok((left, right))
    }

    /// The number of what stands for the name so far.
    fn standing(&mut self, name: usize) -> Result<u32, AllocError>
        ensures number { IfOk result (λ n. IsNumber self.new.all.table n (stands_so_far self.old name)) }
        ensures kept { StaysFound self.old self.new }
    {
        if name < self.stands.len() {
            return Ok(self.stands[name]);
        }
        self.put(Node::Name(name))
    }

    /// The number of this node's process.
    fn put(&mut self, node: Node) -> Result<u32, AllocError>
        requires { IsWithin self.old.all.table.parameters (length self.old.all.table.processes) node }
        ensures number { IfOk result (λ n. IsNumber self.new.all.table n (shape self.old.all.table.parameters self.old.all.table.processes node)) }
        ensures kept { StaysFound self.old self.new }
    {
        self.all.put(node)
    }
}

/// The numbers of the names of so many bodies.
fn put_names<A: Allocator + Copy>(
    all: &mut Transitions<A>,
    count: usize,
    alloc: A,
) -> Result<Vec<u32, A>, AllocError>
    ensures names { IfOk result (λ ns. AreNames all.new.table ns.items) }
    ensures count { IfOk result (λ ns. length ns.items ≡ count) }
    ensures kept { KeepsNumbers all.old all.new }
{
    let mut numbers = Vec::new(alloc);
    for name in 0..count {
        let number = all.put(Node::Name(name))?;
        numbers.push(number)?;
    }
    Ok(numbers)
}

/// For so many names, that none is known to be guarded.
fn none_guarded<A: Allocator + Copy>(count: usize, alloc: A) -> Result<Vec<bool, A>, AllocError>
    ensures count { IfOk result (λ guards. length guards.items ≡ count) }
    ensures none { IfOk result (λ guards. (k : ℕ) (d : Bool) → k < length guards.items → get_or guards.items k d ≡ false) }
{
    let mut guards = Vec::new(alloc);
    for _ in 0..count {
        guards.push(false)?;
    }
    Ok(guards)
}

/// For so many names, that none waits on it.
fn none_waiting<A: Allocator + Copy>(
    count: usize,
    alloc: A,
) -> Result<Vec<Vec<usize, A>, A>, AllocError> {
    let mut waiting = Vec::new(alloc);
    for _ in 0..count {
        waiting.push(Vec::new(alloc))?;
    }
    Ok(waiting)
}
