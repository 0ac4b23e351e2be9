//! Which names may be those of processes. A condition may choose a value too, and passes whatever it chooses.
ghost use Rattle.std.specs.Prelude.{◌≡◌, ℕ, suc, Bool};
ghost use Rattle.syntax.specs.declared.form.Form.TheVariants.{Event};
ghost use Rattle.syntax.specs.Grammar.{Node};
ghost use Rattle.syntax.specs.Parsing.{syntaxes};
ghost use Rattle.syntax.specs.View.{shape, shapes};
ghost use Rattle.values.specs.Names.{is_process_by, is_process_form as is_process_form_of, is_process_in, is_process_operator as is_process_operator_of, is_process as is_process_of};
ghost use Rattle.values.specs.Values.{Name};
ghost use Rattle.declared_names.specs.Processes.{says};
ghost use Rattle.declared_names.specs.View.{entries as entries_of};

use crate::entries::{Entries, Meaning};
use crate::part::{Part, part_of};
use std::alloc::Allocator;
use syntax::{Form, Operator, Tree};

/// What is seen at once of whether a phrase may be a process.
#[derive(Clone, Copy)]
pub enum Answer<'a> {
    /// It may be one, or it isn't.
    Known(bool),
    /// It may be one where this name may be one of a process.
    SameAs(&'a [u8]),
}

/// Whether the operator makes processes.
#[tactic(auto, unfolding(values::specs::Names::is_process_operator))]
fn is_process_operator(operator: Operator) -> bool
    ensures { result ≡ is_process_operator_of operator }
{
    match operator {
        Operator::Prefix
        | Operator::Sequence
        | Operator::Interrupt
        | Operator::ExternalChoice
        | Operator::InternalChoice
        | Operator::Sharing
        | Operator::Alphabetised
        | Operator::Interleaving
        | Operator::Hiding
        | Operator::Renaming
        | Operator::Guard => true,
        _ => false,
    }
}

/// Whether phrases of this form may be processes; a condition may choose a value too.
#[tactic(auto, unfolding(values::specs::Names::is_process_form))]
pub fn is_process_form(form: Form) -> bool
    ensures { result ≡ is_process_form_of form }
{
    match form {
        Form::Stop
        | Form::Skip
        | Form::Call
        | Form::If
        | Form::ReplicatedExternal
        | Form::ReplicatedInternal
        | Form::ReplicatedInterleaving => true,
        Form::Operation(operator) => is_process_operator(operator),
        _ => false,
    }
}

/// Whether an event phrase with these parts may be a process: it may, where it is the bare name of one.
fn answer_of_event<A: Allocator>(parts: &[Tree<A>]) -> Answer<'_>
    ensures { (name : Name → Bool) → is_process_by name (Node Event (syntaxes (shapes parts.now))) ≡ says name result }
{
    match parts {
        [part] => match part_of(part) {
            Part::Name(name) => Answer::SameAs(name),
            Part::Number(_) => Answer::Known(false),
            Part::Node(_, _) => Answer::Known(false),
        },
        _ => Answer::Known(false),
    }
}

/// Whether the phrase may be a process, as far as it says so itself: looks through brackets, and at no definition.
#[tactic(auto, unfolding(values::specs::Names::is_process_by))]
pub fn answer_of<A: Allocator>(phrase: &Tree<A>) -> Answer<'_>
    ensures { (name : Name → Bool) → is_process_by name (shape phrase.now) ≡ says name result }
{
    match phrase {
        Tree::Node { form, parts, .. } => match form {
            Form::Brackets => match parts.as_slice() {
                [inner] => answer_of(inner),
                _ => Answer::Known(false),
            },
            Form::Event => answer_of_event(parts),
            _ => Answer::Known(is_process_form(*form)),
        },
        Tree::Name { .. } | Tree::Number { .. } => Answer::Known(false),
    }
}

impl<'a, A: Allocator> Entries<'a, A> {
    /// Whether the name may be one of a process, as far as its own definition says.
    #[tactic(auto, unfolding(values::specs::Names::is_process_in, values::specs::Names::is_process_meaning))]
    pub(crate) fn answer(&self, name: &[u8]) -> Answer<'_>
        ensures { (k : ℕ) → is_process_in (entries_of self.now) (suc k) name.now ≡ says (is_process_in (entries_of self.now) k) result }
    {
        match self.get(name) {
            Some(entry) => match &entry.meaning {
                Meaning::Definition(body) => answer_of(body),
                _ => Answer::Known(false),
            },
            None => Answer::Known(false),
        }
    }

    /// Whether the name may be one of a process. Follows the names that it leads to.
    fn is_process_at_last(&self, name: &[u8]) -> bool
        ensures { result ≡ is_process_of (entries_of self.now) name.now }
    {
        let mut followed = name;
        for _ in 0..self.len() {
            match self.answer(followed) {
                Answer::Known(answer) => return answer,
                Answer::SameAs(next) => followed = next,
            }
        }
        match self.answer(followed) {
            Answer::Known(answer) => answer,
            Answer::SameAs(_) => true,
        }
    }

    /// Whether the name may be one of a process: of a definition without parameters whose body has a form that may be one, or
    /// is the name of one. Names that lead to each other in a circle are those of processes.
    /// Costs a look-up by its hash.
    pub fn is_process(&self, name: &[u8]) -> bool
        ensures { result ≡ is_process_of (entries_of self.now) name.now }
    {
        match self.place(name) {
            Some(place) => match self.answers.get(place) {
                Some(answer) => answer.unwrap_or(true),
                None => self.is_process_at_last(name),
            },
            None => false,
        }
    }
}
