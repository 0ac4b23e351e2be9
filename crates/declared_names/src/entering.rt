//! The names of declarations, entered in text order.
ghost use Rattle.std.specs.Prelude.{◌≡◌, [], map};
ghost use Rattle.syntax.specs.Grammar.{MoreSyntax, NoSyntax};
ghost use Rattle.syntax.specs.View.{shape, shapes};
ghost use Rattle.syntax.specs.Parsing.{syntaxes};
ghost use Rattle.values.specs.Names.{field_sets};
ghost use Rattle.values.specs.View.{Gives};
ghost use Rattle.declared_names.specs.Stored.{listed};
ghost use Rattle.declared_names.specs.View.{entries as entries_of, meaning_of, role};
ghost use Rattle.declared_names.specs.Steps.{steps};
ghost use Rattle.declared_names.specs.Entering.{put, add_name, list_parts, put_name, put_channels, put_fielded, put_datatype, put_typed, put_defined, put_parametric, put_form, put_declaration, script_parts, distinct_entries as distinct_entries_of};

use crate::entries::{Entries, Entry, Meaning, Table};
use crate::part::{Part, no_parts, part_of};
use indexmap::IndexMap;
use std::alloc::Allocator;
use syntax::{Form, Tree};
use tokens::{Position, ReadError, ScriptErrorKind, fault};

/// Enters the name after the others; `Redeclared` where it is among them.
pub(crate) fn enter<'a, A: Allocator + Copy>(
    table: &mut Table<'a, A>,
    name: &[u8],
    line: Position,
    meaning: Meaning<'a, A>,
) -> Result<(), ReadError>
    ensures { Gives (λ _. listed table.new.entries) result (put (listed table.old.entries) (name.now, meaning_of meaning.entry)) }
{
    if table.contains_key(name) {
        return Err(fault(line, ScriptErrorKind::Redeclared));
    }
    let name = Vec::from_slice(*table.allocator(), name)?;
    let _old = table.insert(name, Entry { line, meaning })?;
    Ok(())
}

/// The parts of a list of names, as of channels, of a datatype's constants or of parameters; `Expected` where it is none.
#[tactic(auto, unfolding(crate::specs::Entering::list_parts))]
pub fn name_list<A: Allocator>(tree: &Tree<A>) -> Result<&[Tree<A>], ReadError>
    ensures { Gives (λ ts. syntaxes (shapes ts.now)) result (list_parts (shape tree.now)) }
{
    match part_of(tree) {
        Part::Node(form, parts) => match form {
            Form::Names | Form::Constants => Ok(parts),
            _ => Err(fault(tree.line(), ScriptErrorKind::Expected)),
        },
        _ => Err(fault(tree.line(), ScriptErrorKind::Expected)),
    }
}

/// The sets of a channel's fields, as they are written; `Expected` where the tree is no list of them.
#[tactic(auto, unfolding(values::specs::Names::field_sets))]
pub fn set_list<A: Allocator>(tree: &Tree<A>) -> Result<&[Tree<A>], ReadError>
    ensures { Gives (λ ts. syntaxes (shapes ts.now)) result (field_sets (shape tree.now)) }
{
    match part_of(tree) {
        Part::Node(form, parts) => match form {
            Form::FieldSets => Ok(parts),
            _ => Err(fault(tree.line(), ScriptErrorKind::Expected)),
        },
        _ => Err(fault(tree.line(), ScriptErrorKind::Expected)),
    }
}

/// What names are declared as: channels with these sets of fields, where there are any, else constants.
fn meaning_with<'a, A: Allocator>(sets: Option<&'a [Tree<A>]>) -> Meaning<'a, A>
    ensures { meaning_of result ≡ role sets.entry }
{
    match sets {
        Some(sets) => Meaning::Channel(sets),
        None => Meaning::Constant,
    }
}

/// Enters this name: of a channel with these sets of fields, where there are any, else of a constant.
#[tactic(auto, unfolding(crate::specs::Entering::put_name))]
fn enter_name<'a, A: Allocator + Copy>(
    table: &mut Table<'a, A>,
    name: &'a Tree<A>,
    sets: Option<&'a [Tree<A>]>,
) -> Result<(), ReadError>
    ensures { Gives (λ _. listed table.new.entries) result (put_name (role sets.entry) (listed table.old.entries) (shape name.now)) }
{
    match part_of(name) {
        Part::Name(text) => enter(table, text, name.line(), meaning_with(sets)),
        _ => Err(fault(name.line(), ScriptErrorKind::Expected)),
    }
}

/// Enters these names, of channels with these sets of fields or else of constants.
fn enter_names<'a, A: Allocator + Copy>(
    table: &mut Table<'a, A>,
    names: &'a [Tree<A>],
    sets: Option<&'a [Tree<A>]>,
) -> Result<(), ReadError>
    ensures { Gives (λ _. listed table.new.entries) result (steps (put_name (role sets.entry)) (listed table.old.entries) (syntaxes (shapes names.now))) }
{
    for name in names {
        enter_name(table, name, sets)?;
    }
    Ok(())
}

/// Appends this name.
#[tactic(auto, unfolding(crate::specs::Entering::add_name), using(crate::proofs::Tables::pushed))]
fn push_name<A: Allocator + Copy>(
    alloc: A,
    names: &mut Vec<Vec<u8, A>, A>,
    part: &Tree<A>,
) -> Result<(), ReadError>
    ensures { Gives (λ _. map (λ n. n.items) names.new.items) result (add_name (map (λ n. n.items) names.old.items) (shape part.now)) }
{
    let Part::Name(text) = part_of(part) else {
        return Err(fault(part.line(), ScriptErrorKind::Expected));
    };
    names.push(Vec::from_slice(alloc, text)?)?;
    Ok(())
}

/// The names in a list of names.
fn names_in<A: Allocator + Copy>(
    alloc: A,
    parts: &[Tree<A>],
) -> Result<Vec<Vec<u8, A>, A>, ReadError>
    ensures { Gives (λ v. map (λ n. n.items) v.items) result (steps add_name [] (syntaxes (shapes parts.now))) }
{
    let mut names = Vec::new(alloc);
    for part in parts {
        push_name(alloc, &mut names, part)?;
    }
    Ok(names)
}

/// Enters the names of channels with these sets of fields.
#[tactic(auto, unfolding(crate::specs::Entering::put_channels))]
fn enter_channels<'a, A: Allocator + Copy>(
    table: &mut Table<'a, A>,
    names: &'a Tree<A>,
    sets: &'a [Tree<A>],
) -> Result<(), ReadError>
    ensures { Gives (λ _. listed table.new.entries) result (put_channels (listed table.old.entries) (shape names.now) (syntaxes (shapes sets.now))) }
{
    let names = name_list(names)?;
    enter_names(table, names, Some(sets))
}

/// Enters the names of channels whose sets of fields stand in this part.
#[tactic(auto, unfolding(crate::specs::Entering::put_fielded))]
fn enter_fielded<'a, A: Allocator + Copy>(
    table: &mut Table<'a, A>,
    names: &'a Tree<A>,
    sets: &'a Tree<A>,
) -> Result<(), ReadError>
    ensures { Gives (λ _. listed table.new.entries) result (put_fielded (listed table.old.entries) (shape names.now) (shape sets.now)) }
{
    let sets = set_list(sets)?;
    enter_channels(table, names, sets)
}

/// Enters the names of a datatype and its constants.
#[tactic(auto, unfolding(crate::specs::Entering::put_datatype))]
fn enter_datatype<'a, A: Allocator + Copy>(
    alloc: A,
    table: &mut Table<'a, A>,
    name: &[u8],
    line: Position,
    constants: &'a [Tree<A>],
) -> Result<(), ReadError>
    ensures { Gives (λ _. listed table.new.entries) result (put_datatype (listed table.old.entries) name.now (syntaxes (shapes constants.now))) }
{
    let names = names_in(alloc, constants)?;
    enter(table, name, line, Meaning::Datatype(names))?;
    enter_names(table, constants, None)
}

/// The same, of the parts of its declaration.
#[tactic(auto, unfolding(crate::specs::Entering::put_typed))]
fn enter_typed<'a, A: Allocator + Copy>(
    alloc: A,
    table: &mut Table<'a, A>,
    name: &'a Tree<A>,
    constants: &'a Tree<A>,
) -> Result<(), ReadError>
    ensures { Gives (λ _. listed table.new.entries) result (put_typed (listed table.old.entries) (shape name.now) (shape constants.now)) }
{
    let Part::Name(text) = part_of(name) else {
        return Err(fault(name.line(), ScriptErrorKind::Expected));
    };
    let constants = name_list(constants)?;
    enter_datatype(alloc, table, text, name.line(), constants)
}

/// Enters the name of a definition with this body.
#[tactic(auto, unfolding(crate::specs::Entering::put_defined))]
fn enter_defined<'a, A: Allocator + Copy>(
    table: &mut Table<'a, A>,
    name: &'a Tree<A>,
    body: &'a Tree<A>,
) -> Result<(), ReadError>
    ensures { Gives (λ _. listed table.new.entries) result (put_defined (listed table.old.entries) (shape name.now) (shape body.now)) }
{
    match part_of(name) {
        Part::Name(text) => enter(table, text, name.line(), Meaning::Definition(body)),
        _ => Err(fault(name.line(), ScriptErrorKind::Expected)),
    }
}

/// Enters the name of a definition with these parameters and this body.
#[tactic(auto, unfolding(crate::specs::Entering::put_parametric))]
fn enter_parametric<'a, A: Allocator + Copy>(
    alloc: A,
    table: &mut Table<'a, A>,
    name: &'a Tree<A>,
    parameters: &'a Tree<A>,
    body: &'a Tree<A>,
) -> Result<(), ReadError>
    ensures { Gives (λ _. listed table.new.entries) result (put_parametric (listed table.old.entries) (shape name.now) (shape parameters.now) (shape body.now)) }
{
    let Part::Name(text) = part_of(name) else {
        return Err(fault(name.line(), ScriptErrorKind::Expected));
    };
    let written = name_list(parameters)?;
    let names = names_in(alloc, written)?;
    let meaning = Meaning::WithParameters {
        written,
        names,
        body,
    };
    enter(table, text, name.line(), meaning)
}

/// Enters the names of a declaration of this form with these two parts; the line is the declaration's.
fn enter_two<'a, A: Allocator + Copy>(
    alloc: A,
    table: &mut Table<'a, A>,
    form: Form,
    line: Position,
    first: &'a Tree<A>,
    second: &'a Tree<A>,
) -> Result<(), ReadError>
    ensures { Gives (λ _. listed table.new.entries) result (put_form (listed table.old.entries) form (MoreSyntax (shape first.now) (MoreSyntax (shape second.now) NoSyntax))) }
{
    match form {
        Form::ChannelsWithFields => enter_fielded(table, first, second),
        Form::Datatype => enter_typed(alloc, table, first, second),
        Form::Definition => enter_defined(table, first, second),
        _ => Err(fault(line, ScriptErrorKind::Expected)),
    }
}

/// Enters the names of a declaration of this form.
fn enter_form<'a, A: Allocator + Copy>(
    alloc: A,
    table: &mut Table<'a, A>,
    form: Form,
    parts: &'a [Tree<A>],
    line: Position,
) -> Result<(), ReadError>
    ensures { Gives (λ _. listed table.new.entries) result (put_form (listed table.old.entries) form (syntaxes (shapes parts.now))) }
{
    match parts {
        [names] => match form {
            Form::Channels => enter_channels(table, names, no_parts(parts)),
            _ => Err(fault(line, ScriptErrorKind::Expected)),
        },
        [first, second] => enter_two(alloc, table, form, line, first, second),
        [name, parameters, body] => match form {
            Form::DefinitionWithParameters => {
                enter_parametric(alloc, table, name, parameters, body)
            }
            _ => Err(fault(line, ScriptErrorKind::Expected)),
        },
        _ => Err(fault(line, ScriptErrorKind::Expected)),
    }
}

/// Enters the names of a declaration.
#[tactic(auto, unfolding(crate::specs::Entering::put_declaration))]
fn enter_declaration<'a, A: Allocator + Copy>(
    alloc: A,
    table: &mut Table<'a, A>,
    declaration: &'a Tree<A>,
) -> Result<(), ReadError>
    ensures { Gives (λ _. listed table.new.entries) result (put_declaration (listed table.old.entries) (shape declaration.now)) }
{
    match part_of(declaration) {
        Part::Node(form, parts) => enter_form(alloc, table, form, parts, declaration.line()),
        _ => Err(fault(declaration.line(), ScriptErrorKind::Expected)),
    }
}

/// Enters the names of declarations.
fn enter_declarations<'a, A: Allocator + Copy>(
    alloc: A,
    table: &mut Table<'a, A>,
    declarations: &'a [Tree<A>],
) -> Result<(), ReadError>
    ensures { Gives (λ _. listed table.new.entries) result (steps put_declaration (listed table.old.entries) (syntaxes (shapes declarations.now))) }
{
    for declaration in declarations {
        enter_declaration(alloc, table, declaration)?;
    }
    Ok(())
}

/// The declarations of a script; `Expected` where the tree is none of a script.
#[tactic(auto, unfolding(crate::specs::Entering::script_parts))]
pub fn declarations_of<A: Allocator>(tree: &Tree<A>) -> Result<&[Tree<A>], ReadError>
    ensures { Gives (λ ts. syntaxes (shapes ts.now)) result (script_parts (shape tree.now)) }
{
    match part_of(tree) {
        Part::Node(form, parts) => match form {
            Form::Script => Ok(parts),
            _ => Err(fault(tree.line(), ScriptErrorKind::Expected)),
        },
        _ => Err(fault(tree.line(), ScriptErrorKind::Expected)),
    }
}

/// The names that a script declares, in text order, none twice: `Redeclared` where a name is declared for the second time. Looks
/// at no parameters.
pub fn distinct_entries<'a, A: Allocator + Copy>(
    alloc: A,
    tree: &'a Tree<A>,
) -> Result<Entries<'a, A>, ReadError>
    ensures { Gives entries_of result (distinct_entries_of (shape tree.now)) }
{
    let declarations = declarations_of(tree)?;
    let mut table = IndexMap::new(alloc);
    enter_declarations(alloc, &mut table, declarations)?;
    Entries::complete(alloc, table)
}
