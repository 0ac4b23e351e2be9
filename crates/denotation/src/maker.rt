//! The bodies of a script's definitions.
ghost use Rattle.std.specs.Prelude.{◌≡◌, ◌&&◌, ℕ, [], IfOk, length, map, nat_eq};
ghost use Rattle.std.specs.Option.{option_map};
ghost use Rattle.syntax.specs.View.{shape};
ghost use Rattle.values.specs.Names.{meaning};
ghost use Rattle.values.specs.Tables.{input};
ghost use Rattle.values.specs.View.{Gives};
ghost use Rattle.event_phrases.specs.Scopes.{within};
ghost use Rattle.event_phrases.specs.View.{listed};
ghost use Rattle.denotation.specs.Denotes.{body_of, body_under as body_below, called_by, paired};
ghost use Rattle.denotation.specs.Rooms.{shallow, within_limits};
ghost use Rattle.denotation.specs.Phrases.{denoted, phrase_of};
ghost use Rattle.denotation.specs.View.{body as body_of_draft, key, root as root_view};

use crate::call::Call;
use crate::draft::Draft;
use crate::making::process;
use crate::root::Root;
use event_phrases::{GlobalScope, Scope};
use std::alloc::{AllocError, Allocator};
use syntax::Tree;
use tokens::{Position, ReadError, ScriptErrorKind, fault};
use values::{Input, Value};

/// The greatest depth of a body.
const DEEPEST: u64 = 200;

/// The same, unless it is too deep.
fn unless_deep<A: Allocator>(draft: Draft<A>, line: Position) -> Result<Draft<A>, ReadError>
    ensures { (room : ℕ) → Gives (λ b. (body_of_draft b, room)) result (shallow (body_of_draft draft, room)) }
{
    if draft.depth() > DEEPEST {
        return Err(fault(line, ScriptErrorKind::TooDeep));
    }
    Ok(draft)
}

/// The draft made of a definition's body in this scope: `TooDeep` with the line of the definition's name where it is deeper
/// than 200.
fn body_within<'a, A: Allocator + Copy, G: GlobalScope<A>>(
    alloc: A,
    scope: &Scope<'a, A, G>,
    tree: &'a Tree<A>,
    room: &mut usize,
) -> Result<Draft<A>, ReadError>
    ensures { Gives (λ b. (body_of_draft b, room.new)) result (within_limits room.old (denoted (phrase_of (shape tree.now)) (within (G.scope scope.now.global.now) (map input scope.now.inputs.items)))) }
{
    let draft = process(alloc, scope, tree, room)?;
    unless_deep(draft, scope.line)
}

/// The draft made of the body of the definition without parameters that has this name: `NoSuchProcess` where there is no such
/// process.
fn plain_body<A: Allocator + Copy, G: GlobalScope<A>>(
    alloc: A,
    global: &G,
    name: &[u8],
    room: &mut usize,
) -> Result<Draft<A>, ReadError>
    ensures { Gives (λ b. (body_of_draft b, room.new)) result (within_limits room.old (body_of (G.scope global.now) (name.now, []))) }
{
    if !global.is_process(name) {
        return Err(fault(Position::Line(1), ScriptErrorKind::NoSuchProcess));
    }
    match global.definition(name) {
        None => Err(fault(Position::Line(1), ScriptErrorKind::NoSuchProcess)),
        Some(tree) => {
            let scope = Scope {
                global,
                inputs: Vec::new(alloc),
                line: global.line(name),
            };
            body_within(alloc, &scope, tree, room)
        }
    }
}

/// Parameters as inputs with copies of these values, if there are as many.
fn parameter_inputs<A: Allocator + Copy>(
    alloc: A,
    parameters: &[Vec<u8, A>],
    arguments: &[Value<A>],
) -> Result<Option<Vec<Input<A>, A>>, AllocError>
    ensures { IfOk result (λ o. option_map (λ v. map input v.items) o ≡ paired (map (λ x. x.items) parameters.now) (listed arguments.now)) }
{
    if parameters.len() != arguments.len() {
        return Ok(None);
    }
    let mut inputs = Vec::new(alloc);
    for (number, name) in parameters.iter().enumerate() {
        inputs.push(Input {
            name: Vec::from_slice(alloc, name)?,
            value: arguments[number].clone()?,
        })?;
    }
    Ok(Some(inputs))
}

/// The draft made of the body of the definition with parameters that has this name, for these values of them: `NoSuchProcess`
/// where there is none with as many. The body sees no other inputs.
fn called_body<A: Allocator + Copy, G: GlobalScope<A>>(
    alloc: A,
    global: &G,
    name: &[u8],
    arguments: &[Value<A>],
    room: &mut usize,
) -> Result<Draft<A>, ReadError>
    ensures { Gives (λ b. (body_of_draft b, room.new)) result (within_limits room.old (called_by (G.scope global.now) (meaning (G.scope global.now).entries name.now) (listed arguments.now))) }
{
    match global.with_parameters(name) {
        None => Err(fault(Position::Line(1), ScriptErrorKind::NoSuchProcess)),
        Some((parameters, tree)) => match parameter_inputs(alloc, parameters, arguments)? {
            None => Err(fault(Position::Line(1), ScriptErrorKind::NoSuchProcess)),
            Some(inputs) => {
                let scope = Scope {
                    global,
                    inputs,
                    line: global.line(name),
                };
                body_within(alloc, &scope, tree, room)
            }
        },
    }
}

/// The draft made of the body of the definition with this name, for these values of its parameters: `NoSuchProcess` where
/// there is no such process, `TooDeep` with the line of the definition's name where it is deeper than 200.
pub(crate) fn body<A: Allocator + Copy, G: GlobalScope<A>>(
    alloc: A,
    global: &G,
    call: &Call<A>,
    room: &mut usize,
) -> Result<Draft<A>, ReadError>
    ensures { Gives (λ b. (body_of_draft b, room.new)) result (within_limits room.old (body_of (G.scope global.now) (key call.now))) }
{
    if call.arguments.is_empty() {
        plain_body(alloc, global, &call.name, room)
    } else {
        called_body(alloc, global, &call.name, &call.arguments, room)
    }
}

/// The draft made of a phrase for a process that stands beside the script.
fn phrase_body<A: Allocator + Copy, G: GlobalScope<A>>(
    alloc: A,
    global: &G,
    phrase: &Tree<A>,
    room: &mut usize,
) -> Result<Draft<A>, ReadError>
    ensures { Gives (λ b. (body_of_draft b, room.new)) result (within_limits room.old (denoted (phrase_of (shape phrase.now)) (G.scope global.now))) }
{
    let scope = Scope {
        global,
        inputs: Vec::new(alloc),
        line: phrase.line(),
    };
    body_within(alloc, &scope, phrase, room)
}

/// Whether what is called has no name, and no values.
fn is_nameless<A: Allocator>(call: &Call<A>) -> bool
    ensures { result ≡ (nat_eq (length call.now.name.items) 0 && nat_eq (length call.now.arguments.items) 0) }
{
    call.name.is_empty() && call.arguments.is_empty()
}

/// The draft made of the body of the definition that is called, where the one without a name is the root's phrase.
pub(crate) fn body_under<A: Allocator + Copy, G: GlobalScope<A>>(
    alloc: A,
    global: &G,
    root: &Root<'_, A>,
    call: &Call<A>,
    room: &mut usize,
) -> Result<Draft<A>, ReadError>
    ensures { Gives (λ b. (body_of_draft b, room.new)) result (within_limits room.old (body_below (root_view root.now) (G.scope global.now) (key call.now))) }
{
    match root {
        Root::Named(_) => body(alloc, global, call, room),
        Root::Phrase(phrase) => {
            if is_nameless(call) {
                phrase_body(alloc, global, phrase, room)
            } else {
                body(alloc, global, call, room)
            }
        }
    }
}
