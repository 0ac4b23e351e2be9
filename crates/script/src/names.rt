//! What is known of a script's names.
ghost use Rattle.std.specs.Prelude.{◌≡◌, IfOk};

use crate::sigma::{Sigma, sigma_of};
use alphabet::Alphabet;
use declarations::Declared;
use declared_names::{Entries, Meaning};
use std::alloc::{AllocError, Allocator};
use syntax::Tree;
use values::Known;

/// The names that a script declares, what those of numbers, constants and sets of values mean, and Sigma.
#[derive(Drop)]
pub(crate) struct Names<'a, A: Allocator> {
    pub(crate) entries: Entries<'a, A>,
    pub(crate) known: Known<A>,
    pub(crate) sigma: Sigma<A>,
}

/// What is known of the names of a script that declares this.
pub(crate) fn names_of<'a, A: Allocator + Copy>(
    alloc: A,
    declared: Declared<'a, A>,
) -> Result<Names<'a, A>, AllocError>
    ensures entries { IfOk result (λ n. n.entries ≡ declared.entry.entries) }
    ensures known { IfOk result (λ n. n.known ≡ declared.entry.known) }
    ensures alphabet { IfOk result (λ n. n.sigma.alphabet ≡ declared.entry.alphabet) }
{
    let Declared {
        entries,
        known,
        alphabet,
    } = declared;
    let sigma = sigma_of(alloc, alphabet)?;
    Ok(Names {
        entries,
        known,
        sigma,
    })
}

impl<'a, A: Allocator + Copy> Names<'a, A> {
    ghost use Rattle.std.specs.Prelude.{MatchOption, List, Some, map};
    ghost use Rattle.values.specs.Values.{Name};
    ghost use Rattle.syntax.specs.Grammar.{Syntax};
    ghost use Rattle.syntax.specs.View.{shape};
    ghost use Rattle.values.specs.Names.{definition as defined_by, parametric as parametric_by, is_constant as is_constant_meaning, meaning};
    ghost use Rattle.declared_names.specs.View.{entries as entries_of};

    /// The body of the definition with this name.
    pub(crate) fn body(&self, name: &[u8]) -> Option<&'a Tree<A>>
        ensures { MatchOption result ((t : Syntax) → meaning (entries_of self.now.entries) name.now ≡ Some (defined_by t) → ⊥) (λ t. meaning (entries_of self.now.entries) name.now ≡ Some (defined_by (shape t.now))) }
    {
        match self.entries.get(name) {
            Some(entry) => match &entry.meaning {
                Meaning::Definition(body) => Some(*body),
                _ => None,
            },
            None => None,
        }
    }

    /// The parameters and the body of the definition with parameters that has this name.
    pub(crate) fn with_parameters(&self, name: &[u8]) -> Option<(&[Vec<u8, A>], &'a Tree<A>)>
        ensures { MatchOption result ((xs : List Name) (t : Syntax) → meaning (entries_of self.now.entries) name.now ≡ Some (parametric_by xs t) → ⊥) (λ p. meaning (entries_of self.now.entries) name.now ≡ Some (parametric_by (map (λ x. x.items) p.0.now) (shape p.1.now))) }
    {
        match self.entries.get(name) {
            Some(entry) => match &entry.meaning {
                Meaning::WithParameters { names, body, .. } => Some((names.as_slice(), *body)),
                _ => None,
            },
            None => None,
        }
    }

    /// Whether the name is a constant's.
    #[tactic(auto, unfolding(values::specs::Names::is_constant))]
    pub(crate) fn is_constant(&self, name: &[u8]) -> bool
        ensures { result ≡ is_constant_meaning (meaning (entries_of self.now.entries) name.now) }
    {
        match self.entries.get(name) {
            Some(entry) => match &entry.meaning {
                Meaning::Constant => true,
                _ => false,
            },
            None => false,
        }
    }
}

impl<'a, A: Allocator> Names<'a, A> {
    /// The alphabet alone.
    pub(crate) fn into_alphabet(self) -> Alphabet<A>
        ensures { result ≡ self.entry.sigma.alphabet }
    {
        let Names { sigma, .. } = self;
        sigma.into_alphabet()
    }
}
