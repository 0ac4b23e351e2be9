//! Phrases for events, sets of events and fields by their forms.
ghost use Rattle.std.specs.Prelude.{◌≡◌, map};
ghost use Rattle.std.specs.Option.{option_map};
ghost use Rattle.syntax.specs.View.{shape, shapes};
ghost use Rattle.event_phrases.specs.Forms.{node_of, name_of, first_of, one_of, two_of, three_of, four_of, some_or, no_field, field_form, field_of as field_phrase_of, no_event, event_form as event_form_of, event_of, event_part, event_parts as event_parts_of, no_set, combined_phrase, set_form as set_form_of, set_part, set_phrase_of, pair_form, sides_of};
ghost use Rattle.event_phrases.specs.Shapes.{plain_event, plain_field, plain_set};

use std::alloc::Allocator;
use syntax::{Form, Tree};

/// Which events the phrases of a set mean.
#[derive(Clone, Copy, Debug, PartialEq, Eq)]
pub enum Extent {
    /// All events that begin so: `{|c, d.0|}`
    Beginnings,
    /// One event each: `{c, d.0}`
    Events,
}

/// What is made of two sets.
#[derive(Clone, Copy, Debug, PartialEq, Eq)]
pub enum Combination {
    /// `union(A, B)`
    Union,
    /// `inter(A, B)`
    Intersection,
    /// `diff(A, B)`
    Difference,
}

/// A phrase for a set of events.
pub(crate) enum SetPhrase<'a, A: Allocator> {
    /// A phrase in brackets.
    Inside(&'a Tree<A>),
    /// A name.
    Called(&'a [u8]),
    /// `{}` or `{||}`
    Nothing,
    /// `Events`
    Everything,
    /// `{|c, d.0|}` or `{c, d.0}`
    Several(Extent, &'a [Tree<A>]),
    /// `if b then A else B`
    Chosen(&'a Tree<A>, &'a Tree<A>, &'a Tree<A>),
    Combined(Combination, &'a Tree<A>, &'a Tree<A>),
}

/// A phrase for events.
pub(crate) enum EventPhrase<'a, A: Allocator> {
    /// `c.1!v?x`, the channel and the fields after it.
    Event(&'a [u8], &'a [Tree<A>]),
    /// A phrase in brackets.
    Inside(&'a Tree<A>),
    /// `if b then e else f`
    Chosen(&'a Tree<A>, &'a Tree<A>, &'a Tree<A>),
}

/// A field of an event phrase.
pub(crate) enum FieldPhrase<'a, A: Allocator> {
    /// `.v` or `!v`
    Given(&'a Tree<A>),
    /// `?x`
    Input(&'a [u8]),
    /// `?x:S`
    InputFrom(&'a [u8], &'a Tree<A>),
}

/// The form and the parts of a node. A name and a number have none.
#[tactic(auto, unfolding(crate::specs::Forms::node_of))]
pub fn node<A: Allocator>(tree: &Tree<A>) -> Option<(Form, &[Tree<A>])>
    ensures { option_map (λ n. (n.0, shapes n.1.now)) result ≡ node_of (shape tree.now) }
{
    match tree {
        Tree::Name { .. } => None,
        Tree::Number { .. } => None,
        Tree::Node { form, parts, .. } => Some((*form, parts)),
    }
}

/// The name, where the phrase is one.
#[tactic(auto, unfolding(crate::specs::Forms::name_of))]
pub fn name<A: Allocator>(tree: &Tree<A>) -> Option<&[u8]>
    ensures { option_map (λ n. n.now) result ≡ name_of (shape tree.now) }
{
    match tree {
        Tree::Name { text, .. } => Some(text),
        Tree::Number { .. } => None,
        Tree::Node { .. } => None,
    }
}

/// The first part and those after it.
pub fn first<A: Allocator>(parts: &[Tree<A>]) -> Option<(&Tree<A>, &[Tree<A>])>
    ensures { option_map (λ p. (shape p.0.now, shapes p.1.now)) result ≡ first_of (shapes parts.now) }
{
    match parts {
        [] => None,
        [first, rest @ ..] => Some((first, rest)),
    }
}

/// The only part, where there is one and no more.
pub fn one<A: Allocator>(parts: &[Tree<A>]) -> Option<&Tree<A>>
    ensures { option_map (λ t. shape t.now) result ≡ one_of (shapes parts.now) }
{
    match parts {
        [only] => Some(only),
        _ => None,
    }
}

/// The two parts, where there are as many.
#[tactic(auto, unfolding(crate::specs::Forms::two_of))]
pub fn two<A: Allocator>(parts: &[Tree<A>]) -> Option<(&Tree<A>, &Tree<A>)>
    ensures { option_map (λ p. (shape p.0.now, shape p.1.now)) result ≡ two_of (shapes parts.now) }
{
    let (head, rest) = first(parts)?;
    Some((head, one(rest)?))
}

/// The three parts, where there are as many.
#[tactic(auto, unfolding(crate::specs::Forms::three_of))]
pub fn three<A: Allocator>(parts: &[Tree<A>]) -> Option<(&Tree<A>, &Tree<A>, &Tree<A>)>
    ensures { option_map (λ p. (shape p.0.now, shape p.1.now, shape p.2.now)) result ≡ three_of (shapes parts.now) }
{
    let (head, rest) = first(parts)?;
    let (second, third) = two(rest)?;
    Some((head, second, third))
}

/// The four parts, where there are as many.
#[tactic(auto, unfolding(crate::specs::Forms::four_of))]
pub fn four<A: Allocator>(parts: &[Tree<A>]) -> Option<(&Tree<A>, &Tree<A>, &Tree<A>, &Tree<A>)>
    ensures { option_map (λ p. (shape p.0.now, shape p.1.now, shape p.2.now, shape p.3.now)) result ≡ four_of (shapes parts.now) }
{
    let (head, rest) = first(parts)?;
    let (second, third, fourth) = three(rest)?;
    Some((head, second, third, fourth))
}

/// Two sets that are combined so.
#[tactic(auto, using(crate::proofs::Views::two_parts), unfolding(crate::specs::Forms::combined_phrase))]
fn combined<A: Allocator>(combination: Combination, parts: &[Tree<A>]) -> Option<SetPhrase<'_, A>>
    ensures { option_map plain_set result ≡ combined_phrase combination (map set_part (shapes parts.now)) }
{
    let (first, second) = two(parts)?;
    Some(SetPhrase::Combined(combination, first, second))
}

/// The set of events that this form with these parts is a phrase for.
#[tactic(auto, using(crate::proofs::Views::one_part, crate::proofs::Views::three_parts, crate::proofs::Views::their_events), unfolding(crate::specs::Forms::set_form, crate::specs::Forms::if_none))]
fn set_form<A: Allocator>(form: Form, parts: &[Tree<A>]) -> Option<SetPhrase<'_, A>>
    ensures { option_map plain_set result ≡ set_form_of form (map set_part (shapes parts.now)) }
{
    match form {
        Form::Brackets => Some(SetPhrase::Inside(one(parts)?)),
        Form::Event => Some(SetPhrase::Called(name(one(parts)?)?)),
        Form::EmptySet | Form::NoProductions => match parts {
            [] => Some(SetPhrase::Nothing),
            [_, ..] => None,
        },
        Form::Events => match parts {
            [] => Some(SetPhrase::Everything),
            [_, ..] => None,
        },
        Form::Productions => Some(SetPhrase::Several(Extent::Beginnings, parts)),
        Form::Set => Some(SetPhrase::Several(Extent::Events, parts)),
        Form::Union => combined(Combination::Union, parts),
        Form::Intersection => combined(Combination::Intersection, parts),
        Form::Difference => combined(Combination::Difference, parts),
        Form::If => {
            let (condition, first, second) = three(parts)?;
            Some(SetPhrase::Chosen(condition, first, second))
        }
        _ => None,
    }
}

/// The set of events that this is a phrase for, by its form.
#[tactic(auto, using(crate::proofs::Views::read_is))]
pub(crate) fn set_phrase<A: Allocator>(tree: &Tree<A>) -> Option<SetPhrase<'_, A>>
    ensures { some_or no_set (option_map plain_set result) ≡ set_phrase_of (shape tree.now) }
{
    let (form, parts) = node(tree)?;
    set_form(form, parts)
}

/// The events that this form with these parts is a phrase for.
#[tactic(auto, using(crate::proofs::Views::one_part, crate::proofs::Views::three_parts, crate::proofs::Views::event_parts_are), unfolding(crate::specs::Forms::event_form))]
fn event_form<A: Allocator>(form: Form, parts: &[Tree<A>]) -> Option<EventPhrase<'_, A>>
    ensures { option_map plain_event result ≡ event_form_of form (map event_part (shapes parts.now)) }
{
    match form {
        Form::Event => {
            let (channel, fields) = first(parts)?;
            Some(EventPhrase::Event(name(channel)?, fields))
        }
        Form::Brackets => Some(EventPhrase::Inside(one(parts)?)),
        Form::If => {
            let (condition, first, second) = three(parts)?;
            Some(EventPhrase::Chosen(condition, first, second))
        }
        _ => None,
    }
}

/// The events that this is a phrase for, by its form.
#[tactic(auto, using(crate::proofs::Views::read_is))]
pub(crate) fn event_phrase<A: Allocator>(tree: &Tree<A>) -> Option<EventPhrase<'_, A>>
    ensures { some_or no_event (option_map plain_event result) ≡ event_of (shape tree.now) }
{
    let (form, parts) = node(tree)?;
    event_form(form, parts)
}

/// The channel's name and the fields of an event phrase, where the phrase is one.
pub fn event_parts<A: Allocator>(tree: &Tree<A>) -> Option<(&[u8], &[Tree<A>])>
    ensures { option_map (λ p. (p.0.now, map field_phrase_of (shapes p.1.now))) result ≡ event_parts_of (event_of (shape tree.now)) }
{
    match event_phrase(tree)? {
        EventPhrase::Event(channel, fields) => Some((channel, fields)),
        EventPhrase::Inside(_) => None,
        EventPhrase::Chosen(_, _, _) => None,
    }
}

/// The two sides of a pair of a renaming.
#[tactic(auto, unfolding(crate::specs::Forms::sides_of, crate::specs::Forms::pair_form))]
pub(crate) fn sides<A: Allocator>(tree: &Tree<A>) -> Option<(&Tree<A>, &Tree<A>)>
    ensures { option_map (λ p. (event_of (shape p.0.now), event_of (shape p.1.now))) result ≡ sides_of (shape tree.now) }
{
    let (form, parts) = node(tree)?;
    match form {
        Form::Pair => two(parts),
        _ => None,
    }
}

/// The field that this form with these parts is.
#[tactic(auto, unfolding(crate::specs::Forms::field_form))]
fn field_by<A: Allocator>(form: Form, parts: &[Tree<A>]) -> Option<FieldPhrase<'_, A>>
    ensures { option_map plain_field result ≡ field_form form (shapes parts.now) }
{
    match form {
        Form::Dotted | Form::Output => Some(FieldPhrase::Given(one(parts)?)),
        Form::Input => Some(FieldPhrase::Input(name(one(parts)?)?)),
        Form::RestrictedInput => {
            let (input, set) = two(parts)?;
            Some(FieldPhrase::InputFrom(name(input)?, set))
        }
        _ => None,
    }
}

/// A field of an event phrase, by its form.
#[tactic(auto, unfolding(crate::specs::Forms::field_of))]
pub(crate) fn field<A: Allocator>(tree: &Tree<A>) -> Option<FieldPhrase<'_, A>>
    ensures { some_or no_field (option_map plain_field result) ≡ field_phrase_of (shape tree.now) }
{
    let (form, parts) = node(tree)?;
    field_by(form, parts)
}
