//! The events of a script: its channels with the values of their fields.
ghost use Rattle.std.specs.Prelude.{◌≡◌, true, IsTrue, IfOk, [], ◌∷◌, ◌++◌, map};
ghost use Rattle.std.specs.List.{list_all};
ghost use Rattle.alphabet.specs.Channels.{is_rising, is_field};
ghost use Rattle.alphabet.specs.Names.{is_name};
ghost use Rattle.alphabet.specs.Stored.{value_of as field_value_of, field_of, channel_of};
ghost use Rattle.syntax.specs.Grammar.{NoSyntax, MoreSyntax};
ghost use Rattle.syntax.specs.Parsing.{syntaxes};
ghost use Rattle.syntax.specs.View.{shape, shapes};
ghost use Rattle.values.specs.Tables.{table};
ghost use Rattle.values.specs.View.{Gives, value as value_of, values as values_of};
ghost use Rattle.alphabet.specs.Channels.{are_apart};
ghost use Rattle.syntax.specs.declared.form.Form.TheVariants.{ChannelsWithFields};
ghost use Rattle.values.specs.Channels.{fields_of as fields_in};
ghost use Rattle.values.specs.Names.{names_of, listed_names, entries_of, declared_by, declared_by_all};
ghost use Rattle.declarations.specs.Sigma.{add_field, enter, with_names, entered, channels_named, CanBeNamed, Follows};

use alphabet::{Alphabet, AlphabetError, Field, Value as FieldValue};
use declared_names::{
    Part, name_list, no_parts, only_part, part_of, set_list, two_parts, worth_alone,
};
use std::alloc::{AllocError, Allocator};
use syntax::{Form, Tree};
use tokens::{Position, ReadError, ScriptErrorKind, fault};
use values::{Known, Value, Values, the_set};

/// The value as one of a field.
fn field_value<A: Allocator>(value: Value<A>) -> FieldValue<A>
    ensures { field_value_of result ≡ value_of value }
{
    match value {
        Value::Number(number) => FieldValue::Number(number),
        Value::Constant(name) => FieldValue::Name(name),
    }
}

/// The values of a set, in their order.
fn in_order<A: Allocator + Copy>(alloc: A, set: Values<A>) -> Result<Field<A>, AllocError>
    ensures same { IfOk result (λ f. field_of f ≡ values_of set) }
    ensures rising { is_rising (values_of set) ≡ true }
{
    let mut left = set;
    let mut field = Vec::with_capacity(alloc, left.len())?;
    while let Some(value) = left.pop_first() {
        field.push(field_value(value))?;
    }
    Ok(field)
}

/// Appends the values of one more field.
fn push_field<A: Allocator + Copy>(
    alloc: A,
    known: &Known<A>,
    fields: &mut Vec<Field<A>, A>,
    set: &Tree<A>,
) -> Result<(), ReadError>
    requires { list_all is_rising (map field_of fields.old.items) ≡ true }
    ensures fields { Gives (λ _. map field_of fields.new.items) result (add_field (table known.now) (map field_of fields.old.items) (shape set.now)) }
    ensures rising { IfOk result (λ _. list_all is_rising (map field_of fields.new.items) ≡ true) }
{
    let worth = worth_alone(alloc, known, set)?;
    let values = the_set(worth, set.line())?;
    fields.push(in_order(alloc, values)?)?;
    Ok(())
}

/// The values of the fields with these sets.
#[tactic(auto, using(crate::proofs::Fields::all_start))]
fn fields_of<A: Allocator + Copy>(
    alloc: A,
    known: &Known<A>,
    sets: &[Tree<A>],
) -> Result<Vec<Field<A>, A>, ReadError>
    ensures fields { Gives (λ v. map field_of v.items) result (fields_in (table known.now) (syntaxes (shapes sets.now))) }
    ensures rising { IfOk result (λ v. list_all is_rising (map field_of v.items) ≡ true) }
{
    let mut fields = Vec::new(alloc);
    for set in sets {
        push_field(alloc, known, &mut fields, set)?;
    }
    Ok(fields)
}

/// Adds a channel of this name.
fn add_channel<A: Allocator + Copy>(
    alphabet: &mut Alphabet<A>,
    name: &[u8],
    line: Position,
    fields: &[Field<A>],
) -> Result<(), ReadError>
    requires named { IsTrue (is_name name.now) }
    requires in_order { IsTrue (list_all is_field (map field_of fields.now)) }
    requires apart { IsTrue (are_apart (alphabet.old ++ channel_of name.now fields.now ∷ [])) }
    ensures { Gives (λ _. alphabet.new) result (enter alphabet.old (channel_of name.now fields.now)) }
{
    match alphabet.declare(name, fields) {
        Ok(()) => Ok(()),
        Err(AlphabetError::Redeclared) => Err(fault(line, ScriptErrorKind::Redeclared)),
        Err(AlphabetError::TooManyEvents) => Err(fault(line, ScriptErrorKind::TooManyEvents)),
        Err(AlphabetError::Memory) => Err(ReadError::Memory),
    }
}

/// The same of a name in a list.
#[tactic(auto, unfolding(crate::specs::Sigma::with_names, values::specs::Names::names_of))]
fn add_channel_of<A: Allocator + Copy>(
    alphabet: &mut Alphabet<A>,
    name: &Tree<A>,
    fields: &[Field<A>],
) -> Result<(), ReadError>
    requires { CanBeNamed alphabet.old (MoreSyntax (shape name.now) NoSyntax) (map field_of fields.now) }
    ensures { Gives (λ _. alphabet.new) result (with_names (map field_of fields.now) alphabet.old (MoreSyntax (shape name.now) NoSyntax)) }
{
    match part_of(name) {
        Part::Name(text) => add_channel(alphabet, text, name.line(), fields),
        _ => Err(fault(name.line(), ScriptErrorKind::Expected)),
    }
}

/// Adds channels of these names with these fields.
fn add_channels<A: Allocator + Copy>(
    alphabet: &mut Alphabet<A>,
    names: &[Tree<A>],
    fields: &[Field<A>],
) -> Result<(), ReadError>
    requires { CanBeNamed alphabet.old (syntaxes (shapes names.now)) (map field_of fields.now) }
    ensures { Gives (λ _. alphabet.new) result (with_names (map field_of fields.now) alphabet.old (syntaxes (shapes names.now))) }
{
    for name in names {
        add_channel_of(alphabet, name, fields)?;
    }
    Ok(())
}

/// Adds channels of these names with fields of these sets, which are found once.
fn add_names<A: Allocator + Copy>(
    alloc: A,
    known: &Known<A>,
    alphabet: &mut Alphabet<A>,
    names: &[Tree<A>],
    sets: &[Tree<A>],
) -> Result<(), ReadError>
    requires { Follows (table known.now) alphabet.old (channels_named (names_of (syntaxes (shapes names.now))) (syntaxes (shapes sets.now))) }
    ensures { Gives (λ _. alphabet.new) result (entered (table known.now) alphabet.old (channels_named (names_of (syntaxes (shapes names.now))) (syntaxes (shapes sets.now)))) }
{
    if names.is_empty() {
        return Ok(());
    }
    let fields = fields_of(alloc, known, sets)?;
    add_channels(alphabet, names, &fields)
}

/// The same of a list of names.
fn add_list<A: Allocator + Copy>(
    alloc: A,
    known: &Known<A>,
    alphabet: &mut Alphabet<A>,
    names: &Tree<A>,
    sets: &[Tree<A>],
) -> Result<(), ReadError>
    requires { Follows (table known.now) alphabet.old (channels_named (listed_names (shape names.now)) (syntaxes (shapes sets.now))) }
    ensures { Gives (λ _. alphabet.new) result (entered (table known.now) alphabet.old (channels_named (listed_names (shape names.now)) (syntaxes (shapes sets.now)))) }
{
    let names = name_list(names)?;
    add_names(alloc, known, alphabet, names, sets)
}

/// The same where the sets stand in this part.
#[tactic(auto, unfolding(values::specs::Names::entries_of))]
fn add_fielded<A: Allocator + Copy>(
    alloc: A,
    known: &Known<A>,
    alphabet: &mut Alphabet<A>,
    names: &Tree<A>,
    sets: &Tree<A>,
) -> Result<(), ReadError>
    requires { Follows (table known.now) alphabet.old (entries_of ChannelsWithFields (MoreSyntax (shape names.now) (MoreSyntax (shape sets.now) NoSyntax))) }
    ensures { Gives (λ _. alphabet.new) result (entered (table known.now) alphabet.old (entries_of ChannelsWithFields (MoreSyntax (shape names.now) (MoreSyntax (shape sets.now) NoSyntax)))) }
{
    let sets = set_list(sets)?;
    add_list(alloc, known, alphabet, names, sets)
}

/// Adds the channels of a declaration of this form.
fn add_form<A: Allocator + Copy>(
    alloc: A,
    known: &Known<A>,
    alphabet: &mut Alphabet<A>,
    form: Form,
    parts: &[Tree<A>],
    line: Position,
) -> Result<(), ReadError>
    requires { Follows (table known.now) alphabet.old (entries_of form (syntaxes (shapes parts.now))) }
    ensures { Gives (λ _. alphabet.new) result (entered (table known.now) alphabet.old (entries_of form (syntaxes (shapes parts.now)))) }
{
    match form {
        Form::Channels => {
            let names = only_part(parts, line)?;
            add_list(alloc, known, alphabet, names, no_parts(parts))
        }
        Form::ChannelsWithFields => {
            let (names, sets) = two_parts(parts, line)?;
            add_fielded(alloc, known, alphabet, names, sets)
        }
        _ => Ok(()),
    }
}

/// Adds the channels of a declaration.
#[tactic(auto, unfolding(values::specs::Names::declared_by))]
fn add_declaration<A: Allocator + Copy>(
    alloc: A,
    known: &Known<A>,
    alphabet: &mut Alphabet<A>,
    declaration: &Tree<A>,
) -> Result<(), ReadError>
    requires { Follows (table known.now) alphabet.old (declared_by (shape declaration.now)) }
    ensures { Gives (λ _. alphabet.new) result (entered (table known.now) alphabet.old (declared_by (shape declaration.now))) }
{
    match part_of(declaration) {
        Part::Node(form, parts) => {
            add_form(alloc, known, alphabet, form, parts, declaration.line())
        }
        _ => Ok(()),
    }
}

/// Adds the channels of these declarations. The sets of a declaration's fields are found once for all its names.
fn add_declarations<A: Allocator + Copy>(
    alloc: A,
    known: &Known<A>,
    alphabet: &mut Alphabet<A>,
    declarations: &[Tree<A>],
) -> Result<(), ReadError>
    requires { Follows (table known.now) alphabet.old (declared_by_all (syntaxes (shapes declarations.now))) }
    ensures { Gives (λ _. alphabet.new) result (entered (table known.now) alphabet.old (declared_by_all (syntaxes (shapes declarations.now)))) }
{
    for declaration in declarations {
        add_declaration(alloc, known, alphabet, declaration)?;
    }
    Ok(())
}

/// The alphabet of these declarations.
pub(crate) fn alphabet_of<A: Allocator + Copy>(
    alloc: A,
    known: &Known<A>,
    declarations: &[Tree<A>],
) -> Result<Alphabet<A>, ReadError>
    requires { Follows (table known.now) [] (declared_by_all (syntaxes (shapes declarations.now))) }
    ensures { Gives (λ a. a) result (entered (table known.now) [] (declared_by_all (syntaxes (shapes declarations.now)))) }
{
    let mut alphabet = Alphabet::new(alloc);
    match add_declarations(alloc, known, &mut alphabet, declarations) {
        Ok(()) => Ok(alphabet),
        Err(error) => {
            drop(alphabet);
            Err(error)
        }
    }
}
