//! What a text is read as.
ghost use Rattle.std.specs.Prelude.{◌≡◌, IfOk, IsTrue, List, MatchResult, Some, map};
ghost use Rattle.denotation.specs.Denotes.{Denotes, named, root_of};
ghost use Rattle.denotation.specs.View.{root as root_view};
ghost use Rattle.syntax.specs.Grammar.{Syntax};
ghost use Rattle.syntax.specs.Script.{HasPhrase};
ghost use Rattle.syntax.specs.View.{shape};
ghost use Rattle.term.specs.Proc.{Proc, proc};
ghost use Rattle.term.specs.Specs.{Specified};
ghost use Rattle.term.specs.declared.names.Names.TheVariants.{Steps};
ghost use Rattle.tokens.specs.declared.error.ScriptErrorKind.TheVariants.{Memory};
ghost use Rattle.tokens.specs.Unreads.{reported};
ghost use Rattle.tokens.specs.declared.read_error.ReadError.TheVariants as read_error;
ghost use Rattle.values.specs.Tables.{table};
ghost use Rattle.values.specs.View.{Gives};
ghost use Rattle.declared_names.specs.LanguageNames.{has_names};
ghost use Rattle.declared_names.specs.View.{entries as entries_of};
ghost use Rattle.script.specs.Reading.{AreBodies, IsRead};

use crate::names::{Names, names_of};
use crate::root::{no_process, root_fault};
use crate::script::Script;
use crate::standing::named_sets;
use declarations::declare;
use declared_names::trees_have_names;
use denotation::{Root, gathered};
use std::alloc::{AllocError, Allocator};
use syntax::{Tree, parse, parse_phrase};
use term::{Spec, Term};
use tokens::{ReadError, ScriptError};

/// The bodies of what is reached from the root, whatever it is.
fn bodies_from<'a, A: Allocator + Copy>(
    alloc: A,
    names: &Names<'a, A>,
    root: &Root<'_, A>,
) -> Result<Vec<Term<A>, A>, ReadError>
    ensures found { IfOk result (λ v. AreBodies names.now.sigma.alphabet (table names.now.known) (entries_of names.now.entries) (root_view root.now) (map proc v.items)) }
    ensures only { (ps : List Proc) → AreBodies names.now.sigma.alphabet (table names.now.known) (entries_of names.now.entries) (root_view root.now) ps → Gives (λ v. map proc v.items) result (Some ps) }
{
    let sets = named_sets(alloc, names)?;
    let script = Script {
        names: &*names,
        sets: &sets,
        alloc,
    };
    gathered(alloc, &script, root)
}

/// The bodies of what is reached from the process with this name.
fn bodies_of_process<'a, A: Allocator + Copy>(
    alloc: A,
    names: &Names<'a, A>,
    name: &[u8],
    root: &Root<'_, A>,
) -> Result<Vec<Term<A>, A>, ReadError>
    requires { root_view root.now ≡ named name.now }
    ensures found { IfOk result (λ v. AreBodies names.now.sigma.alphabet (table names.now.known) (entries_of names.now.entries) (root_view root.now) (map proc v.items)) }
    ensures only { (ps : List Proc) → AreBodies names.now.sigma.alphabet (table names.now.known) (entries_of names.now.entries) (root_view root.now) ps → Gives (λ v. map proc v.items) result (Some ps) }
{
    if !names.entries.is_process(name) {
        return Err(root_fault(alloc, names, name, no_process()));
    }
    match bodies_from(alloc, names, root) {
        Ok(bodies) => Ok(bodies),
        Err(ReadError::Fault(error)) => Err(root_fault(
            alloc,
            names,
            name,
            ReadError::Fault(error),
        )),
        Err(ReadError::Memory) => Err(ReadError::Memory),
    }
}

/// The bodies of what is reached from the root.
fn bodies_of<'a, A: Allocator + Copy>(
    alloc: A,
    names: &Names<'a, A>,
    root: &Root<'_, A>,
) -> Result<Vec<Term<A>, A>, ReadError>
    ensures found { IfOk result (λ v. AreBodies names.now.sigma.alphabet (table names.now.known) (entries_of names.now.entries) (root_view root.now) (map proc v.items)) }
    ensures only { (ps : List Proc) → AreBodies names.now.sigma.alphabet (table names.now.known) (entries_of names.now.entries) (root_view root.now) ps → Gives (λ v. map proc v.items) result (Some ps) }
{
    match root {
        Root::Named(name) => bodies_of_process(alloc, names, name, root),
        Root::Phrase(_) => bodies_from(alloc, names, root),
    }
}

/// The specification of what is reached from the root, where a script has these names.
fn specified<A: Allocator + Copy>(
    alloc: A,
    names: Names<'_, A>,
    root: &Root<'_, A>,
) -> Result<Spec<A>, ReadError>
    ensures found { IfOk result (λ spec. (spec.alphabet ≡ names.entry.sigma.alphabet) × (spec.names ≡ Steps) × AreBodies names.entry.sigma.alphabet (table names.entry.known) (entries_of names.entry.entries) (root_view root.now) spec.bodies) }
    ensures only { (spec : Specified) → spec.alphabet ≡ names.entry.sigma.alphabet → spec.names ≡ Steps → AreBodies names.entry.sigma.alphabet (table names.entry.known) (entries_of names.entry.entries) (root_view root.now) spec.bodies
        → MatchResult result (λ s. s ≡ spec) (λ e. e ≡ read_error.Memory) }
{
    match bodies_of(alloc, &names, root) {
        Ok(bodies) => {
            let spec = Spec::new(names.into_alphabet(), bodies);
            match spec.with_shared_alphabet(alloc) {
                Ok(spec) => Ok(spec),
                Err(AllocError) => Err(ReadError::Memory),
            }
        }
        Err(error) => Err(error),
    }
}

/// The specification of what is reached from the root that this text is, where a script has these names.
fn specified_for<A: Allocator + Copy>(
    alloc: A,
    names: Names<'_, A>,
    root: &[u8],
) -> Result<Spec<A>, ReadError>
    ensures found { IfOk result (λ spec. (spec.alphabet ≡ names.entry.sigma.alphabet) × (spec.names ≡ Steps) × ((u : Syntax) × HasPhrase root.now u × AreBodies names.entry.sigma.alphabet (table names.entry.known) (entries_of names.entry.entries) (root_of u) spec.bodies)) }
    ensures only { (spec : Specified) (u : Syntax) → HasPhrase root.now u → spec.alphabet ≡ names.entry.sigma.alphabet → spec.names ≡ Steps → AreBodies names.entry.sigma.alphabet (table names.entry.known) (entries_of names.entry.entries) (root_of u) spec.bodies
        → MatchResult result (λ s. s ≡ spec) (λ e. (reported e).kind ≡ Memory) }
{
    let phrase = parse_phrase(alloc, root)?;
    specified(alloc, names, &Root::of(&phrase))
}

/// The specification that the script with this tree denotes for the root.
fn denoted<A: Allocator + Copy>(alloc: A, tree: &Tree<A>, root: &[u8]) -> Result<Spec<A>, ReadError>
    requires { IsTrue (has_names (shape tree.now)) }
    ensures found { IfOk result (λ spec. (u : Syntax) × HasPhrase root.now u × Denotes (shape tree.now) (root_of u) spec) }
    ensures names { IfOk result (λ spec. spec.names ≡ Steps) }
    ensures only { (spec : Specified) (u : Syntax) → HasPhrase root.now u → Denotes (shape tree.now) (root_of u) spec → spec.names ≡ Steps → MatchResult result (λ s. s ≡ spec) (λ e. (reported e).kind ≡ Memory) }
{
    let declared = declare(alloc, tree)?;
    let names = names_of(alloc, declared)?;
    specified_for(alloc, names, root)
}

/// The specification that the text of a script denotes for the root, which is the name of one of its processes, or another phrase for a
/// process, in one line; or the first fault.
///
/// The size is looked at first, then the tokens, then the grammar, as `syntax::parse` reports their faults; then the
/// declarations, as `declarations::declare` reports theirs; then the root, as `syntax::parse_phrase` reports its faults, with columns; then
/// whether a name is a process (`NoSuchProcess` on line 1); then the bodies of what is reached from it, as `denotation::gathered` reports
/// theirs. What isn't reached has to fit the grammar, and no more. `Memory` is
/// reported on line 1. `docs/LANGUAGE.md` says which texts are scripts, and `docs/SEMANTICS.md` what they mean.
///
/// Costs the text's length, a turn for each name and each use of one, a copy of each event's values, and a turn for each node
/// of the bodies and each event that a prefix is held against.
pub fn read<A: Allocator + Copy>(alloc: A, text: &[u8], root: &[u8]) -> Result<Spec<A>, ScriptError>
    // What is read is what the text denotes.
    ensures found { IfOk result (λ spec. IsRead text.now root.now spec) }
    // Names stay names.
    ensures names { IfOk result (λ spec. spec.names ≡ Steps) }
    // What the text denotes is read, and nothing else, unless memory runs out.
    ensures only { (spec : Specified) → IsRead text.now root.now spec → spec.names ≡ Steps → MatchResult result (λ s. s ≡ spec) (λ e. e.kind ≡ Memory) }
{
    let tree = parse(alloc, text)?;
    trees_have_names();
    Ok(denoted(alloc, &tree, root)?)
}
