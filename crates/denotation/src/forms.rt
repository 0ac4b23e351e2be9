//! Phrases for processes by their forms.
ghost use Rattle.std.specs.Prelude.{◌≡◌, map};
ghost use Rattle.std.specs.Option.{option_map};
ghost use Rattle.syntax.specs.View.{shape, shapes};
ghost use Rattle.event_phrases.specs.Forms.{some_or};
ghost use Rattle.denotation.specs.Phrases.{form_phrase, generator_of, generators_of, joined_phrase, operation_phrase, other, part, phrase_of, replicated_phrase};
ghost use Rattle.denotation.specs.Shapes.{plain};

use event_phrases::forms::{first, four, name, node, one, three, two};
use std::alloc::Allocator;
use syntax::{Form, Operator, Tree};

/// An operator between two processes that joins them without a set of events.
#[derive(Clone, Copy, Debug, PartialEq, Eq)]
pub enum Join {
    /// `P ; Q`
    Sequence,
    /// `P /\ Q`
    Interrupt,
    /// `P [] Q`
    External,
    /// `P |~| Q`
    Internal,
    /// `P ||| Q`
    Interleaving,
}

/// What stands between two processes.
#[derive(Clone, Copy)]
pub(crate) enum Between<'a, A: Allocator> {
    Join(Join),
    /// `[| A |]`
    Sharing(&'a Tree<A>),
    /// `[ A || B ]`
    Alphabetised(&'a Tree<A>, &'a Tree<A>),
}

/// A phrase for a process, by what it is made of.
#[derive(Drop)]
pub(crate) enum Phrase<'a, A: Allocator> {
    Stop,
    Skip,
    /// A name.
    Called(&'a [u8]),
    /// A phrase in brackets.
    Inside(&'a Tree<A>),
    /// `event -> P`
    Prefix(&'a Tree<A>, &'a Tree<A>),
    Joined(Between<'a, A>, &'a Tree<A>, &'a Tree<A>),
    /// `P \ A`
    Hiding(&'a Tree<A>, &'a Tree<A>),
    /// `P[[a <- b]]`, with its pairs.
    Renaming(&'a Tree<A>, &'a [Tree<A>]),
    /// `if b then P else Q`, or `b & P`
    Conditional(&'a Tree<A>, &'a Tree<A>, Option<&'a Tree<A>>),
    /// `P(x, y)`, with its arguments.
    Calling(&'a [u8], &'a [Tree<A>]),
    /// `[] x:A, y:B @ P`, with its generators.
    Replicated(Join, &'a [Tree<A>], &'a Tree<A>),
}

/// Two processes that are joined so.
#[tactic(auto, using(event_phrases::proofs::Views::two_parts), unfolding(crate::specs::Phrases::joined_phrase))]
fn joined<A: Allocator>(join: Join, parts: &[Tree<A>]) -> Option<Phrase<'_, A>>
    ensures { option_map plain result ≡ joined_phrase join (map part (shapes parts.now)) }
{
    let (first, second) = two(parts)?;
    Some(Phrase::Joined(Between::Join(join), first, second))
}

/// The generators of a list of them.
#[tactic(auto, unfolding(crate::specs::Phrases::generators_of, crate::specs::Phrases::generators_form))]
fn generators<A: Allocator>(tree: &Tree<A>) -> Option<&[Tree<A>]>
    ensures { option_map (λ gs. shapes gs.now) result ≡ generators_of (shape tree.now) }
{
    let (form, parts) = node(tree)?;
    match form {
        Form::Generators => Some(parts),
        _ => None,
    }
}

/// The name and the set of a generator.
#[tactic(auto, unfolding(crate::specs::Phrases::generator_of, crate::specs::Phrases::generator_form))]
pub(crate) fn generator<A: Allocator>(tree: &Tree<A>) -> Option<(&[u8], &Tree<A>)>
    ensures { option_map (λ g. (g.0.now, shape g.1.now)) result ≡ generator_of (shape tree.now) }
{
    let (form, parts) = node(tree)?;
    match form {
        Form::Generator => {
            let (input, set) = two(parts)?;
            Some((name(input)?, set))
        }
        _ => None,
    }
}

/// A process for all values of generators, joined so.
#[tactic(auto, using(event_phrases::proofs::Views::two_parts), unfolding(crate::specs::Phrases::replicated_phrase))]
fn replicated<A: Allocator>(join: Join, parts: &[Tree<A>]) -> Option<Phrase<'_, A>>
    ensures { option_map plain result ≡ replicated_phrase join (map part (shapes parts.now)) }
{
    let (list, process) = two(parts)?;
    Some(Phrase::Replicated(join, generators(list)?, process))
}

/// The process that this operator with these parts is a phrase for.
#[tactic(auto, using(event_phrases::proofs::Views::two_parts, event_phrases::proofs::Views::three_parts, event_phrases::proofs::Views::four_parts, crate::proofs::Views::renaming_parts), unfolding(crate::specs::Phrases::operation_phrase))]
fn operation<A: Allocator>(operator: Operator, parts: &[Tree<A>]) -> Option<Phrase<'_, A>>
    ensures { option_map plain result ≡ operation_phrase operator (map part (shapes parts.now)) }
{
    match operator {
        Operator::Prefix => {
            let (event, then) = two(parts)?;
            Some(Phrase::Prefix(event, then))
        }
        Operator::Sequence => joined(Join::Sequence, parts),
        Operator::Interrupt => joined(Join::Interrupt, parts),
        Operator::ExternalChoice => joined(Join::External, parts),
        Operator::InternalChoice => joined(Join::Internal, parts),
        Operator::Interleaving => joined(Join::Interleaving, parts),
        Operator::Sharing => {
            let (first, set, second) = three(parts)?;
            Some(Phrase::Joined(Between::Sharing(set), first, second))
        }
        Operator::Alphabetised => {
            let (first, left, right, second) = four(parts)?;
            Some(Phrase::Joined(Between::Alphabetised(left, right), first, second))
        }
        Operator::Hiding => {
            let (process, set) = two(parts)?;
            Some(Phrase::Hiding(process, set))
        }
        Operator::Renaming => {
            let (process, pairs) = first(parts)?;
            Some(Phrase::Renaming(process, pairs))
        }
        Operator::Guard => {
            let (condition, process) = two(parts)?;
            Some(Phrase::Conditional(condition, process, None))
        }
        _ => None,
    }
}

/// The process that this form with these parts is a phrase for.
#[tactic(auto, using(event_phrases::proofs::Views::one_part, event_phrases::proofs::Views::three_parts, crate::proofs::Views::call_parts), unfolding(crate::specs::Phrases::form_phrase, event_phrases::specs::Forms::if_none))]
fn process_form<A: Allocator>(form: Form, parts: &[Tree<A>]) -> Option<Phrase<'_, A>>
    ensures { option_map plain result ≡ form_phrase form (map part (shapes parts.now)) }
{
    match form {
        Form::Stop => match parts {
            [] => Some(Phrase::Stop),
            [_, ..] => None,
        },
        Form::Skip => match parts {
            [] => Some(Phrase::Skip),
            [_, ..] => None,
        },
        Form::Event => Some(Phrase::Called(name(one(parts)?)?)),
        Form::If => {
            let (condition, first, second) = three(parts)?;
            Some(Phrase::Conditional(condition, first, Some(second)))
        }
        Form::Brackets => Some(Phrase::Inside(one(parts)?)),
        Form::Operation(operator) => operation(operator, parts),
        Form::Call => {
            let (definition, arguments) = first(parts)?;
            Some(Phrase::Calling(name(definition)?, arguments))
        }
        Form::ReplicatedExternal => replicated(Join::External, parts),
        Form::ReplicatedInternal => replicated(Join::Internal, parts),
        Form::ReplicatedInterleaving => replicated(Join::Interleaving, parts),
        _ => None,
    }
}

/// The process that this is a phrase for, by its form.
#[tactic(auto, using(event_phrases::proofs::Views::read_is))]
pub(crate) fn process_phrase<A: Allocator>(tree: &Tree<A>) -> Option<Phrase<'_, A>>
    ensures { some_or other (option_map plain result) ≡ phrase_of (shape tree.now) }
{
    let (form, parts) = node(tree)?;
    process_form(form, parts)
}
