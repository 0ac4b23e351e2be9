//! Specifications.

ghost use Rattle.std.specs.Prelude.{◌≡◌, ◌<◌, IfOk, length, map};
ghost use Rattle.std.specs.Arc.{arc_value};
ghost use Rattle.term.specs.Alphabets.{alphabet_of};
ghost use Rattle.term.specs.Proc.{bodies_of, proc};
ghost use Rattle.term.specs.Specs.{IsClosed, IsProcessOf};
ghost use Rattle.term.specs.declared.names.Names.TheVariants.{Steps};

use crate::names::Names;
use crate::terms::Term;
use alphabet::{Alphabet, copy_of};
use std::alloc::{AllocError, Allocator};
use std::marker::Model;
use std::sync::Arc;

/// Where an alphabet is.
#[derive(Drop)]
enum Held<A: Allocator> {
    /// In the specification.
    Own(Alphabet<A>),
    /// Where others read it, too.
    Shared(Arc<Alphabet<A>, A>),
}

/// A specification: an alphabet, bodies by number, and how sets of states keep names. The root is the name of body 0. Every name
/// in a body has a body, and every event, set and pair lies in Sigma.
#[derive(Drop)]
pub struct Spec<A: Allocator> {
    alphabet: Held<A>,
    bodies: Vec<Term<A>, A>,
    names: Names,
}

impl<A: Allocator> Model for Spec<A> {
    ghost use Rattle.term.specs.Specs.{Specified, specified_code};

    ghost Value = { Specified };

    ghost coded = { specified_code };

    ghost use Rattle.std.specs.Prelude.{length, map};
    ghost use Rattle.term.specs.Proc.{proc};
    ghost use Rattle.term.specs.Alphabets.{alphabet_of};
    ghost use Rattle.term.specs.Specs.{IsClosed};

    ghost view = { λ s. record { alphabet = alphabet_of s.alphabet; bodies = map proc s.bodies.items; names = s.names } };

    ghost invariant = { λ s. IsClosed (record { alphabet = alphabet_of s.alphabet; bodies = map proc s.bodies.items; names = s.names }) };
}

// An alphabet, where others read it, too.
fn share<A: Allocator>(alloc: A, held: Held<A>) -> Result<Arc<Alphabet<A>, A>, AllocError>
    ensures { IfOk result (λ shared. arc_value shared ≡ alphabet_of held) }
{
    match held {
        Held::Own(alphabet) => match Arc::new(alloc, alphabet) {
            Ok(shared) => Ok(shared),
            Err(refused) => {
                drop(refused);
                Err(AllocError)
            }
        },
        Held::Shared(shared) => Ok(shared),
    }
}

impl<A: Allocator> Spec<A> {
    /// The specification of these bodies over this alphabet. There is a body at least, every name in a body has
    /// a body, and every event, set and pair lies in Sigma. Names stay names.
    pub fn new(alphabet: Alphabet<A>, bodies: Vec<Term<A>, A>) -> Spec<A>
        requires { IsClosed (record { alphabet = alphabet; bodies = map proc bodies.items; names = Steps }) }
        ensures alphabet { result.alphabet ≡ alphabet }
        ensures bodies { result.bodies ≡ map proc bodies.items }
        ensures names { result.names ≡ Steps }
    {
        Spec {
            alphabet: Held::Own(alphabet),
            bodies,
            names: Names::Steps,
        }
    }

    /// The same specification, whose names are kept so.
    pub fn with_names(self, names: Names) -> Spec<A>
        ensures alphabet { result.alphabet ≡ self.alphabet }
        ensures bodies { result.bodies ≡ self.bodies }
        ensures names { result.names ≡ names }
    {
        Spec {
            alphabet: self.alphabet,
            bodies: self.bodies,
            names,
        }
    }

    /// How sets of states keep names.
    pub fn names(&self) -> Names
        ensures { result ≡ self.now.names }
    {
        self.names
    }

    /// The alphabet.
    pub fn alphabet(&self) -> &Alphabet<A>
        ensures { result.now ≡ self.now.alphabet }
    {
        match &self.alphabet {
            Held::Own(alphabet) => alphabet,
            Held::Shared(alphabet) => alphabet,
        }
    }

    /// The same specification, whose alphabet others may read, too: `shared_alphabet` copies it no more. The error is that there is no
    /// memory for that.
    pub fn with_shared_alphabet(self, alloc: A) -> Result<Spec<A>, AllocError>
        ensures same { IfOk result (λ s. s ≡ self) }
    {
        let Spec {
            alphabet,
            bodies,
            names,
        } = self;
        match share(alloc, alphabet) {
            Ok(alphabet) => Ok(Spec {
                alphabet: Held::Shared(alphabet),
                bodies,
                names,
            }),
            Err(AllocError) => {
                drop(bodies);
                Err(AllocError)
            }
        }
    }

    /// The number of bodies. It is at least 1, since the root is the name of body 0; the bodies have the numbers below
    /// it. The contract also says that the specification is closed (every name has a body, every event is in Sigma), so
    /// a caller whose proof needs that calls this, too. Constant cost; takes no memory.
    ///
    /// ```text
    /// for number in 0..spec.bodies() {
    ///     let body = spec.body(number);
    /// }
    /// ```
    pub fn bodies(&self) -> usize
        ensures count { result ≡ length self.now.bodies }
        ensures closed { IsClosed self.now }
    {
        self.bodies.len()
    }

    /// The body with this number, which is below `bodies`.
    pub fn body(&self, number: usize) -> &Term<A>
        requires { number < length self.now.bodies }
        ensures body { proc result.now ≡ bodies_of self.now.bodies number }
        ensures lies { IsProcessOf self.now (proc result.now) }
    {
        &self.bodies[number]
    }
}

impl<A: Allocator + Copy> Spec<A> {
    /// The alphabet, for a reader who may be in another thread and may outlive the specification: the alphabet itself after
    /// `with_shared_alphabet`, else a copy. The error is that there is no memory for a copy, or that there are 2^63 readers.
    pub fn shared_alphabet(&self, alloc: A) -> Result<Arc<Alphabet<A>, A>, AllocError>
        ensures { IfOk result (λ shared. arc_value shared ≡ self.now.alphabet) }
    {
        match &self.alphabet {
            Held::Own(alphabet) => share(alloc, Held::Own(copy_of(alloc, alphabet)?)),
            Held::Shared(shared) => Arc::try_clone(shared),
        }
    }
}
