//! What the next tokens say.
ghost use Rattle.std.specs.Prelude.{◌≡◌, ◌∷◌, [], List, Option, is_some};
ghost use Rattle.std.specs.Option.{option_map};
ghost use Rattle.tokens.specs.Lexeme.{Kept as kept, Sign as signed, lexeme_of_word, lexemes};
ghost use Rattle.syntax.specs.declared.form.Form.TheVariants.{Channels as channels_form, Set as set_form};
ghost use Rattle.syntax.specs.declared.piece.Sign.TheVariants.{Symbol as sign_of};
ghost use Rattle.syntax.specs.Parsing.{after as after_sign, begins_field as begins_field_of, brace_form, declaration_form as declaration_form_of, defined_form, events_form, field_form as field_form_of, form_at as form_at_of, input_form, is_sign as is_sign_of, keyword_form, named_form, operator_at as operator_at_of, operator_of as operator_of_lexeme, phrase_form as phrase_form_of, symbol_form, tight as tight_of, turned as turned_of, value_form as value_form_of, fields_of as fields_of_kind, is_alone as is_alone_of, may_be_number as may_be_number_of};
ghost use Rattle.syntax.specs.Answers.{Gives};

use crate::fault::expected;
use crate::form::{Form, looseness};
use crate::operator::{Operator, of_keyword, of_symbol};
use crate::piece::{Fields, Kind, Sign};
use std::alloc::Allocator;
use tokens::{Keyword, ReadError, Symbol, Token, Word};

/// Whether a token says this sign.
#[tactic(auto, unfolding(crate::specs::Parsing::is_sign))]
fn is_sign<A: Allocator>(word: &Word<A>, sign: Sign) -> bool
    ensures { result ≡ is_sign_of sign (lexeme_of_word word.now) }
{
    match (word, sign) {
        (Word::Symbol(symbol), Sign::Symbol(wanted)) => *symbol == wanted,
        (Word::Keyword(keyword), Sign::Keyword(wanted)) => *keyword == wanted,
        _ => false,
    }
}

/// The tokens after a sign, if it stands first.
#[tactic(auto, unfolding(crate::specs::Parsing::after))]
pub(crate) fn past<A: Allocator>(tokens: &[Token<A>], sign: Sign) -> Option<&[Token<A>]>
    ensures { option_map (λ x. lexemes x.now) result ≡ after_sign sign (lexemes tokens.now) }
{
    match tokens {
        [first, rest @ ..] => {
            if is_sign(&first.word, sign) {
                Some(rest)
            } else {
                None
            }
        }
        [] => None,
    }
}

/// Whether this symbol stands first.
fn begins_with<A: Allocator>(tokens: &[Token<A>], symbol: Symbol) -> bool
    ensures { result ≡ is_some (after_sign (sign_of symbol) (lexemes tokens.now)) }
{
    match past(tokens, Sign::Symbol(symbol)) {
        Some(_) => true,
        None => false,
    }
}

/// The tokens after a sign that must stand first.
pub(crate) fn after<A: Allocator>(tokens: &[Token<A>], sign: Sign) -> Result<&[Token<A>], ReadError>
    ensures { Gives (λ x. lexemes x.now) result (after_sign sign (lexemes tokens.now)) }
{
    match past(tokens, sign) {
        Some(rest) => Ok(rest),
        None => Err(expected(tokens)),
    }
}

/// The operator that begins with this token.
#[tactic(auto, unfolding(crate::specs::Parsing::operator_of))]
fn operator_of<A: Allocator>(word: &Word<A>) -> Option<Operator>
    ensures { result ≡ operator_of_lexeme (lexeme_of_word word.now) }
{
    match word {
        Word::Symbol(symbol) => of_symbol(*symbol),
        Word::Keyword(keyword) => of_keyword(*keyword),
        Word::Name(_) | Word::Number(_) => None,
    }
}

/// The operator that stands first.
#[tactic(auto, unfolding(crate::specs::Parsing::operator_at))]
pub(crate) fn operator_at<A: Allocator>(tokens: &[Token<A>]) -> Option<(Operator, &[Token<A>])>
    ensures { option_map (λ x. (x.0, lexemes x.1.now)) result ≡ operator_at_of (lexemes tokens.now) }
{
    match tokens {
        [first, rest @ ..] => match operator_of(&first.word) {
            Some(operator) => Some((operator, rest)),
            None => None,
        },
        [] => None,
    }
}

/// Whether a field of a name begins with this symbol.
#[tactic(auto, unfolding(crate::specs::Parsing::begins_field))]
fn is_field_sign(fields: Fields, symbol: Symbol) -> bool
    ensures { result ≡ begins_field_of fields (signed symbol ∷ []) }
{
    match (fields, symbol) {
        (Fields::Any, Symbol::Dot) => true,
        (Fields::Any, Symbol::Exclamation) => true,
        (Fields::Any, Symbol::Question) => true,
        (Fields::Undotted, Symbol::Exclamation) => true,
        (Fields::Undotted, Symbol::Question) => true,
        _ => false,
    }
}

/// Whether a field of a name begins there.
pub(crate) fn begins_field<A: Allocator>(fields: Fields, tokens: &[Token<A>]) -> bool
    ensures { result ≡ begins_field_of fields (lexemes tokens.now) }
{
    match tokens {
        [first, ..] => match &first.word {
            Word::Symbol(symbol) => is_field_sign(fields, *symbol),
            _ => false,
        },
        [] => false,
    }
}

#[tactic(auto, unfolding(crate::specs::Parsing::keyword_form))]
fn of_word(keyword: Keyword) -> Option<Form>
    ensures { result ≡ keyword_form keyword }
{
    match keyword {
        Keyword::Stop => Some(Form::Stop),
        Keyword::Skip => Some(Form::Skip),
        Keyword::Events => Some(Form::Events),
        Keyword::True => Some(Form::True),
        Keyword::False => Some(Form::False),
        Keyword::Union => Some(Form::Union),
        Keyword::Inter => Some(Form::Intersection),
        Keyword::Diff => Some(Form::Difference),
        Keyword::If => Some(Form::If),
        Keyword::Not => Some(Form::Not),
        _ => None,
    }
}

/// The form that begins with a name, by what stands after the name.
fn of_name<A: Allocator>(tokens: &[Token<A>]) -> Form
    ensures { result ≡ named_form (lexemes tokens.now) }
{
    if begins_with(tokens, Symbol::OpenParenthesis) {
        Form::Call
    } else {
        Form::Event
    }
}

/// The set that begins with a brace, by what stands after the brace.
fn of_brace<A: Allocator>(tokens: &[Token<A>]) -> Form
    ensures { result ≡ brace_form (lexemes tokens.now) }
{
    if begins_with(tokens, Symbol::CloseBrace) {
        Form::EmptySet
    } else {
        Form::Set
    }
}

/// The set of events that begins with `{|`, by what stands after it.
fn of_events<A: Allocator>(tokens: &[Token<A>]) -> Form
    ensures { result ≡ events_form (lexemes tokens.now) }
{
    if begins_with(tokens, Symbol::CloseEvents) {
        Form::NoProductions
    } else {
        Form::Productions
    }
}

#[tactic(auto, unfolding(crate::specs::Parsing::symbol_form))]
fn of_sign<A: Allocator>(symbol: Symbol, tokens: &[Token<A>]) -> Option<Form>
    ensures { result ≡ symbol_form symbol (lexemes tokens.now) }
{
    match symbol {
        Symbol::OpenParenthesis => Some(Form::Brackets),
        Symbol::OpenBrace => Some(of_brace(tokens)),
        Symbol::OpenEvents => Some(of_events(tokens)),
        Symbol::Minus => Some(Form::Negation),
        Symbol::ExternalChoice => Some(Form::ReplicatedExternal),
        Symbol::InternalChoice => Some(Form::ReplicatedInternal),
        Symbol::Interleaving => Some(Form::ReplicatedInterleaving),
        _ => None,
    }
}

#[tactic(auto, unfolding(crate::specs::Parsing::phrase_form))]
fn phrase_form<A: Allocator>(tokens: &[Token<A>]) -> Option<Form>
    ensures { result ≡ phrase_form_of (lexemes tokens.now) }
{
    match tokens {
        [first, rest @ ..] => match &first.word {
            Word::Name(_) => Some(of_name(rest)),
            Word::Keyword(keyword) => of_word(*keyword),
            Word::Symbol(symbol) => of_sign(*symbol, rest),
            Word::Number(_) => None,
        },
        [] => None,
    }
}

/// The form that begins with this symbol where a field gives a value.
#[tactic(auto, unfolding(crate::specs::Parsing::value_form))]
fn value_of_sign(symbol: Symbol) -> Option<Form>
    ensures { result ≡ value_form_of (signed symbol ∷ []) }
{
    match symbol {
        Symbol::Minus => Some(Form::NegativeNumber),
        Symbol::OpenParenthesis => Some(Form::Brackets),
        _ => None,
    }
}

fn value_form<A: Allocator>(tokens: &[Token<A>]) -> Option<Form>
    ensures { result ≡ value_form_of (lexemes tokens.now) }
{
    match tokens {
        [first, ..] => match &first.word {
            Word::Name(_) => Some(Form::Event),
            Word::Symbol(symbol) => value_of_sign(*symbol),
            _ => None,
        },
        [] => None,
    }
}

/// Whether the values of an input are restricted, by what stands after its sign.
fn of_input<A: Allocator>(tokens: &[Token<A>]) -> Form
    ensures { result ≡ input_form (lexemes tokens.now) }
{
    match tokens {
        [first, rest @ ..] => match &first.word {
            Word::Name(_) => {
                if begins_with(rest, Symbol::Colon) {
                    Form::RestrictedInput
                } else {
                    Form::Input
                }
            }
            _ => Form::Input,
        },
        [] => Form::Input,
    }
}

/// The field that begins with this symbol, by what stands after it.
#[tactic(auto, unfolding(crate::specs::Parsing::field_form))]
fn field_of_sign<A: Allocator>(symbol: Symbol, tokens: &[Token<A>]) -> Option<Form>
    ensures { result ≡ field_form_of (signed symbol ∷ lexemes tokens.now) }
{
    match symbol {
        Symbol::Dot => Some(Form::Dotted),
        Symbol::Exclamation => Some(Form::Output),
        Symbol::Question => Some(of_input(tokens)),
        _ => None,
    }
}

#[tactic(auto, unfolding(crate::specs::Parsing::field_form))]
fn field_form<A: Allocator>(tokens: &[Token<A>]) -> Option<Form>
    ensures { result ≡ field_form_of (lexemes tokens.now) }
{
    match tokens {
        [first, rest @ ..] => match &first.word {
            Word::Symbol(symbol) => field_of_sign(*symbol, rest),
            _ => None,
        },
        [] => None,
    }
}

/// The definition that begins with a name, by what stands after the name.
fn of_defined<A: Allocator>(tokens: &[Token<A>]) -> Form
    ensures { result ≡ defined_form (lexemes tokens.now) }
{
    if begins_with(tokens, Symbol::OpenParenthesis) {
        Form::DefinitionWithParameters
    } else {
        Form::Definition
    }
}

/// The declaration that begins with this keyword.
#[tactic(auto, unfolding(crate::specs::Parsing::declaration_form))]
fn declaration_of_word(keyword: Keyword) -> Option<Form>
    ensures { result ≡ declaration_form_of (kept keyword ∷ []) }
{
    match keyword {
        Keyword::Channel => Some(Form::Channels),
        Keyword::Datatype => Some(Form::Datatype),
        _ => None,
    }
}

fn declaration_form<A: Allocator>(tokens: &[Token<A>]) -> Option<Form>
    ensures { result ≡ declaration_form_of (lexemes tokens.now) }
{
    match tokens {
        [first, rest @ ..] => match &first.word {
            Word::Keyword(keyword) => declaration_of_word(*keyword),
            Word::Name(_) => Some(of_defined(rest)),
            _ => None,
        },
        [] => None,
    }
}

#[tactic(auto, unfolding(crate::specs::Parsing::tight))]
fn tight(limit: u32, form: Form) -> Option<Form>
    ensures { result ≡ tight_of limit form }
{
    if looseness(form) <= limit {
        Some(form)
    } else {
        None
    }
}

/// The form that stands first where a part of this kind is wanted; of a set with members the first one.
#[tactic(auto, unfolding(crate::specs::Parsing::form_at))]
pub(crate) fn form_at<A: Allocator>(kind: Kind, tokens: &[Token<A>]) -> Option<Form>
    ensures { result ≡ form_at_of kind (lexemes tokens.now) }
{
    match kind {
        Kind::Phrase(limit) => match phrase_form(tokens) {
            Some(form) => tight(limit, form),
            None => None,
        },
        Kind::Atom(_) => match phrase_form(tokens) {
            Some(form) => tight(0, form),
            None => None,
        },
        Kind::Event => Some(Form::Event),
        Kind::Value => value_form(tokens),
        Kind::Field => field_form(tokens),
        Kind::Generator => Some(Form::Generator),
        Kind::Generators => Some(Form::Generators),
        Kind::Pair => Some(Form::Pair),
        Kind::Names => Some(Form::Names),
        Kind::Constants => Some(Form::Constants),
        Kind::FieldSets => Some(Form::FieldSets),
        Kind::Declaration => declaration_form(tokens),
        Kind::Script => Some(Form::Script),
        Kind::Number | Kind::Left(_) | Kind::Called => None,
    }
}

/// Whether a number may be a part of this kind.
#[tactic(auto, unfolding(crate::specs::Parsing::may_be_number))]
pub(crate) fn may_be_number(kind: Kind) -> bool
    ensures { result ≡ may_be_number_of kind }
{
    matches!(
        kind,
        Kind::Phrase(_) | Kind::Atom(_) | Kind::Value | Kind::Number
    )
}

fn is_name<A: Allocator>(tokens: &[Token<A>]) -> bool {
    match tokens {
        [first, ..] => matches!(&first.word, Word::Name(_)),
        [] => false,
    }
}

fn is_number<A: Allocator>(tokens: &[Token<A>]) -> bool {
    match tokens {
        [first, ..] => matches!(&first.word, Word::Number(_)),
        [] => false,
    }
}

/// Whether a part of this kind may begin with the first token.
pub(crate) fn may_begin_with<A: Allocator>(kind: Kind, tokens: &[Token<A>]) -> bool {
    match kind {
        Kind::Event | Kind::Generator | Kind::Generators | Kind::Pair => is_name(tokens),
        _ => (may_be_number(kind) && is_number(tokens)) || form_at(kind, tokens).is_some(),
    }
}

/// The fields that a name takes which is a part of this kind.
#[tactic(auto, unfolding(crate::specs::Parsing::fields_of))]
pub(crate) fn fields_of(kind: Kind) -> Fields
    ensures { result ≡ fields_of_kind kind }
{
    match kind {
        Kind::Atom(fields) => fields,
        Kind::Value => Fields::None,
        _ => Fields::Any,
    }
}

/// Whether a name alone is a part of this kind.
#[tactic(auto, unfolding(crate::specs::Parsing::is_alone))]
pub(crate) fn is_alone(kind: Kind) -> bool
    ensures { result ≡ is_alone_of kind }
{
    matches!(kind, Kind::Called)
}

/// Which set with members it is, by what follows its first member.
fn of_members<A: Allocator>(tokens: &[Token<A>]) -> Form
    ensures { result ≡ turned_of set_form (lexemes tokens.now) }
{
    if begins_with(tokens, Symbol::Range) {
        Form::Range
    } else {
        Form::Set
    }
}

/// Which declaration of channels it is, by what follows their names.
fn of_channels<A: Allocator>(tokens: &[Token<A>]) -> Form
    ensures { result ≡ turned_of channels_form (lexemes tokens.now) }
{
    if begins_with(tokens, Symbol::Colon) {
        Form::ChannelsWithFields
    } else {
        Form::Channels
    }
}

/// Which set it is, by what follows its first member, and which declaration of channels.
#[tactic(auto, unfolding(crate::specs::Parsing::turned))]
pub(crate) fn turned<A: Allocator>(form: Form, tokens: &[Token<A>]) -> Form
    ensures { result ≡ turned_of form (lexemes tokens.now) }
{
    match form {
        Form::Set => of_members(tokens),
        Form::Channels => of_channels(tokens),
        _ => form,
    }
}
