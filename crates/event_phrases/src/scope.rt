//! Scopes: where phrases stand.
ghost use Rattle.std.specs.Prelude.{◌≡◌, ◌++◌, ◌∷◌, [], IfOk, OnOk, map};
ghost use Rattle.std.specs.Option.{option_map};
ghost use Rattle.syntax.specs.View.{shape};
ghost use Rattle.tokens.specs.declared.read_error.ReadError.TheVariants.{Memory};
ghost use Rattle.values.specs.Tables.{behind, input, names_value, table};
ghost use Rattle.values.specs.View.{Gives, value as value_of, values, worth as worth_of};
ghost use Rattle.values.specs.Worths.{condition, worth as worth_in};
ghost use Rattle.event_phrases.specs.Scopes.{value_by, values_by, with_input as with_input_of, within};
ghost use Rattle.event_phrases.specs.Events.{channel_fields};
ghost use Rattle.event_phrases.specs.View.{listed};

use crate::global_scope::{GlobalScope, Set, Wanted};
use std::alloc::{AllocError, Allocator};
use syntax::Tree;
use tokens::{Position, ReadError};
use values::{
    Input, Known, Value, Values, Worth, is_value, stands_for, the_set, the_truth, the_value,
};

/// The scope of a phrase: what is known of the script, and the inputs before the phrase.
#[derive(Drop)]
pub struct Scope<'a, A: Allocator, G: GlobalScope<A>> {
    /// What is known of the script's names.
    pub global: &'a G,
    /// The inputs before the phrase, the last one last.
    pub inputs: Vec<Input<A>, A>,
    /// The line of the name of the definition that the phrase stands in.
    pub line: Position,
}

/// A copy of the inputs.
pub fn copies<A: Allocator + Copy>(
    alloc: A,
    inputs: &[Input<A>],
) -> Result<Vec<Input<A>, A>, AllocError>
    ensures { IfOk result (λ v. map input v.items ≡ map input inputs.now) }
{
    let mut copies = Vec::new(alloc);
    for input in inputs {
        copies.push(Input {
            name: Vec::from_slice(alloc, &input.name)?,
            value: input.value.clone()?,
        })?;
    }
    Ok(copies)
}

/// The fault that is reported of a phrase after these inputs which isn't what is wanted for this error; out of memory stays as it is.
pub(crate) fn reported_fault<A: Allocator, G: GlobalScope<A>>(
    global: &G,
    inputs: &[Input<A>],
    tree: &Tree<A>,
    wanted: Wanted,
    error: ReadError,
) -> ReadError
    ensures { error ≡ Memory → result ≡ Memory }
{
    match error {
        ReadError::Memory => error,
        ReadError::Fault(_) => global.phrase_fault(inputs, tree, wanted),
    }
}

/// What a phrase means after these inputs, where this is wanted of it; the fault where it means nothing.
#[tactic(auto, using(syntax::proofs::Failing::fails_too))]
pub(crate) fn wanted_worth<A: Allocator + Copy, G: GlobalScope<A>>(
    alloc: A,
    global: &G,
    inputs: &[Input<A>],
    tree: &Tree<A>,
    wanted: Wanted,
) -> Result<Worth<A>, ReadError>
    ensures { Gives worth_of result (worth_in (within (G.scope global.now) (map input inputs.now)).known (shape tree.now)) }
{
    match stands_for(&alloc, global.known(), inputs, tree) {
        Ok(worth) => Ok(worth),
        Err(error) => Err(reported_fault(global, inputs, tree, wanted, error)),
    }
}

/// The truth that a condition means after these inputs. Its fault isn't the one that is reported.
#[tactic(auto, unfolding(values::specs::Worths::condition))]
pub(crate) fn truth<A: Allocator + Copy>(
    alloc: A,
    known: &Known<A>,
    inputs: &[Input<A>],
    tree: &Tree<A>,
) -> Result<bool, ReadError>
    ensures { Gives (λ b. b) result (condition (behind (table known.now) (map input inputs.now)) (shape tree.now)) }
{
    let worth = stands_for(&alloc, known, inputs, tree)?;
    the_truth(worth, tree.line())
}

/// The truth that a condition means, and the fault where it means none.
#[tactic(auto, using(syntax::proofs::Failing::fails_too))]
pub fn wanted_truth<A: Allocator + Copy, G: GlobalScope<A>>(
    alloc: A,
    scope: &Scope<'_, A, G>,
    tree: &Tree<A>,
) -> Result<bool, ReadError>
    ensures { Gives (λ b. b) result (condition (within (G.scope scope.now.global.now) (map input scope.now.inputs.items)).known (shape tree.now)) }
{
    match truth(alloc, scope.global.known(), &scope.inputs, tree) {
        Ok(truth) => Ok(truth),
        Err(error) => Err(reported_fault(scope.global, &scope.inputs, tree, Wanted::Truth, error)),
    }
}

/// The number or constant that a phrase means, and the fault where it means none.
pub fn wanted_value<A: Allocator + Copy, G: GlobalScope<A>>(
    alloc: A,
    scope: &Scope<'_, A, G>,
    tree: &Tree<A>,
) -> Result<Value<A>, ReadError>
    ensures { Gives value_of result (value_by (within (G.scope scope.now.global.now) (map input scope.now.inputs.items)) (shape tree.now)) }
{
    let worth = wanted_worth(alloc, scope.global, &scope.inputs, tree, Wanted::Value)?;
    the_value(worth, tree.line())
}

/// The set of values that a phrase means, and the fault where it means none.
pub fn wanted_values<A: Allocator + Copy, G: GlobalScope<A>>(
    alloc: A,
    scope: &Scope<'_, A, G>,
    tree: &Tree<A>,
) -> Result<Values<A>, ReadError>
    ensures { Gives values result (values_by (within (G.scope scope.now.global.now) (map input scope.now.inputs.items)) (shape tree.now)) }
{
    let worth = wanted_worth(alloc, scope.global, &scope.inputs, tree, Wanted::Values)?;
    the_set(worth, tree.line())
}

/// Appends an input with this name and a copy of this value.
pub(crate) fn push_input<A: Allocator + Copy>(
    alloc: A,
    inputs: &mut Vec<Input<A>, A>,
    name: &[u8],
    value: &Value<A>,
) -> Result<(), AllocError>
    ensures { OnOk result (map input inputs.new.items ≡ map input inputs.old.items ++ (name.now, value_of value.now) ∷ []) }
{
    inputs.push(Input {
        name: Vec::from_slice(alloc, name)?,
        value: value.clone()?,
    })?;
    Ok(())
}

/// The scope after an input with this name and this value.
pub fn behind_input<'a, A: Allocator + Copy, G: GlobalScope<A>>(
    alloc: A,
    scope: &Scope<'a, A, G>,
    name: &[u8],
    value: &Value<A>,
) -> Result<Scope<'a, A, G>, AllocError>
    ensures { IfOk result (λ inner. within (G.scope inner.global.now) (map input inner.inputs.items) ≡ with_input_of (within (G.scope scope.now.global.now) (map input scope.now.inputs.items)) name.now (value_of value.now)) }
{
    let mut inputs = copies(alloc, &scope.inputs)?;
    push_input(alloc, &mut inputs, name, value)?;
    Ok(Scope {
        global: scope.global,
        inputs,
        line: scope.line,
    })
}

impl<'a, A: Allocator + Copy, G: GlobalScope<A>> Scope<'a, A, G> {
    /// Whether the name is that of one value, which hides its other uses.
    pub fn is_value(&self, name: &[u8]) -> bool
        ensures { result ≡ names_value ((within (G.scope self.now.global.now) (map input self.now.inputs.items)).known name.now) }
    {
        is_value(self.global.known(), &self.inputs, name)
    }

    /// The values of the fields of a channel whose name isn't hidden.
    #[tactic(auto, using(crate::proofs::Scopes::hidden, crate::proofs::Scopes::seen))]
    pub fn fields(&self, channel: &[u8]) -> Option<&'a [Set<A>]>
        ensures { option_map (λ f. map (λ v. listed v.items) f.now) result ≡ channel_fields (G.scope self.now.global.now).channels (within (G.scope self.now.global.now) (map input self.now.inputs.items)).known channel.now }
    {
        if self.is_value(channel) {
            return None;
        }
        self.global.fields(channel)
    }

    /// The fault of an event phrase whose name is no channel's.
    pub fn no_channel(&self, event: &Tree<A>) -> ReadError {
        self.global
            .phrase_fault(&self.inputs, event, Wanted::Channel)
    }
}
