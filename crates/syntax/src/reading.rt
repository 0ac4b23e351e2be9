//! From tokens to trees.
//!
//! One function reads a part of any kind: its form is known from the next tokens, and the form's rule says how it
//! goes on. A phrase then climbs: while the next token is an operator that may follow, it takes what the operator's
//! row of the table puts after it.
ghost use Rattle.std.specs.Prelude.{◌≡◌, ◌≤◌, ◌<◌, ◌+◌, ◌-◌, ◌++◌, ◌∷◌, ℕ, List, [], Bool, Option, Some, None, IfOk, IfSome, length, max, nat_lt, not, if◌then◌else◌};
ghost use Rattle.std.specs.Option.{option_map};
ghost use Rattle.tokens.specs.Lexeme.{lexemes};
ghost use Rattle.syntax.specs.Rules.{is_heavy};
ghost use Rattle.syntax.specs.Grammar.{Syntax, left_fits as left_fits_of, level_in};
ghost use Rattle.syntax.specs.Parsing.{◌>>=◌ as onward, Found, keep, put, after as after_sign, another as another_of, climb as climb_of, grown as grown_of, may_begin as may_begin_of, may_open as may_open_of, name_at as name_at_of, next_operator, node as node_of_form, number_at, numeral_at as numeral_at_of, operand as operand_of, others as others_of, reader, reads, row as row_of, step as step_of, whole as whole_of};
ghost use Rattle.syntax.specs.Answers.{Gives};
ghost use Rattle.syntax.specs.View.{shape, shapes};

use crate::ahead::{
    after, begins_field, fields_of, form_at, is_alone, may_be_number, may_begin_with, operator_at,
    past, turned,
};
use crate::fault::{expected, line_of, too_deep};
use crate::form::{Form, back, front, heavy, looseness};
use crate::limits::{LAYERS, Limits, MAX_BRACKETS, MAX_HEIGHT, may_open};
use crate::operator::{Operator, behind, left_limit, level, opens};
use crate::parts::{Parsed, Parts};
use crate::piece::{Fields, Kind, Piece, Place, Sign, Start};
use crate::tree::Tree;
use std::alloc::Allocator;
use tokens::{Position, ReadError, Symbol, Token, Word};

/// A name that must stand first.
#[tactic(auto, unfolding(crate::specs::Parsing::name_at, crate::specs::Grammar::is_open))]
fn name_at<'t, A: Allocator + Clone + Drop>(
    alloc: &A,
    tokens: &'t [Token<A>],
) -> Result<(Parsed<A>, &'t [Token<A>]), ReadError>
    ensures read { Gives (λ x. (shape x.0.tree, lexemes x.1.now)) result (name_at_of (lexemes tokens.now)) }
    ensures low { (room : ℕ) → IfOk result (λ x. x.0.height ≤ room) }
{
    match tokens {
        [first, rest @ ..] => match &first.word {
            Word::Name(name) => {
                let text = Vec::from_slice(alloc.clone()?, name)?;
                let tree = Tree::Name {
                    line: first.line,
                    text,
                };
                Ok((
                    Parsed {
                        tree,
                        height: 0,
                        greedy: false,
                    },
                    rest,
                ))
            }
            _ => Err(expected(tokens)),
        },
        [] => Err(expected(tokens)),
    }
}

/// The number that stands first.
#[tactic(auto, unfolding(crate::specs::Parsing::number_at, crate::specs::Grammar::is_open))]
fn number_first<A: Allocator>(tokens: &[Token<A>]) -> Option<(Parsed<A>, &[Token<A>])>
    ensures read { option_map (λ x. (shape x.0.tree, lexemes x.1.now)) result ≡ number_at (lexemes tokens.now) }
    ensures low { IfSome result (λ x. x.0.height ≡ 1) }
{
    match tokens {
        [first, rest @ ..] => match &first.word {
            Word::Number(value) => {
                let tree = Tree::Number {
                    line: first.line,
                    value: *value,
                };
                Some((
                    Parsed {
                        tree,
                        height: 1,
                        greedy: false,
                    },
                    rest,
                ))
            }
            _ => None,
        },
        [] => None,
    }
}

/// The number that stands first where a part of this kind is wanted.
#[tactic(auto, unfolding(crate::specs::Parsing::numeral_at))]
fn numeral_at<A: Allocator>(kind: Kind, tokens: &[Token<A>]) -> Option<(Parsed<A>, &[Token<A>])>
    ensures read { option_map (λ x. (shape x.0.tree, lexemes x.1.now)) result ≡ numeral_at_of kind (lexemes tokens.now) }
    ensures low { IfSome result (λ x. x.0.height ≡ 1) }
{
    if may_be_number(kind) {
        number_first(tokens)
    } else {
        None
    }
}

/// Where one more part begins, if there is one.
#[tactic(auto, unfolding(crate::specs::Parsing::another))]
fn another<A: Allocator>(start: Start, greedy: bool, tokens: &[Token<A>]) -> Option<&[Token<A>]>
    ensures { option_map (λ x. lexemes x.now) result ≡ another_of start greedy (lexemes tokens.now) }
{
    match start {
        Start::Behind(symbol) => past(tokens, Sign::Symbol(symbol)),
        Start::Dot => {
            if greedy {
                None
            } else {
                past(tokens, Sign::Symbol(Symbol::Dot))
            }
        }
        Start::Any => match tokens {
            [] => None,
            [_, ..] => Some(tokens),
        },
        Start::Field(fields) => {
            if !greedy && begins_field(fields, tokens) {
                Some(tokens)
            } else {
                None
            }
        }
    }
}

/// Whether an operator may take this on its left.
#[tactic(auto, unfolding(crate::specs::Grammar::left_fits, crate::specs::Grammar::wants, crate::specs::Grammar::is_event, crate::specs::Grammar::level_in))]
fn fits_on_left<A: Allocator>(operator: Operator, left: &Parsed<A>) -> bool
    ensures { result ≡ left_fits_of operator (shape left.now.tree) }
{
    let (loose, event) = match &left.tree {
        Tree::Name { .. } => (99, false),
        Tree::Number { .. } => (0, false),
        Tree::Node { form, .. } => (looseness(*form), matches!(form, Form::Event)),
    };
    let wanted = match operator {
        Operator::Prefix => event,
        _ => true,
    };
    loose <= left_limit(operator) && wanted && !left.greedy
}

/// The operator that stands first, if it may go on from this part at this level.
#[tactic(auto, unfolding(crate::specs::Parsing::next_operator))]
fn operator_behind<'t, A: Allocator>(
    tokens: &'t [Token<A>],
    limit: u32,
    left: &Parsed<A>,
) -> Option<(Operator, &'t [Token<A>])>
    ensures { option_map (λ x. (x.0, lexemes x.1.now)) result ≡ next_operator limit (shape left.now.tree) (lexemes tokens.now) }
{
    match operator_at(tokens) {
        Some((operator, rest)) => {
            if level(operator) <= limit && fits_on_left(operator, left) {
                Some((operator, rest))
            } else {
                None
            }
        }
        None => None,
    }
}

/// Whether an operator may stand where so many brackets may be opened.
#[tactic(auto, unfolding(crate::specs::Parsing::may_begin))]
fn may_begin(operator: Operator, brackets: u32) -> bool
    ensures { result ≡ may_begin_of (may_open_of brackets) operator }
{
    may_open(brackets) || !opens(operator)
}

/// The parts, and the tokens after a sign that must stand first, if it may stand there.
fn kept<'t, A: Allocator + Clone + Drop>(
    parts: Parts<A>,
    tokens: &'t [Token<A>],
    sign: Sign,
    may: bool,
) -> Result<(Parts<A>, &'t [Token<A>]), ReadError>
    ensures read { Gives (λ x. (shapes x.0.trees.items, lexemes x.1.now)) result (if may then onward (after_sign sign (lexemes tokens.now)) (keep (shapes parts.trees.items)) else None) }
    ensures high { (room : ℕ) → parts.height ≤ room → IfOk result (λ x. x.0.height ≤ room) }
{
    let rest = after(tokens, sign)?;
    if may {
        Ok((parts, rest))
    } else {
        Err(too_deep(tokens))
    }
}

/// The parts with this one, if it was read, and the tokens after it.
fn added<'t, A: Allocator + Clone + Drop>(
    parts: Parts<A>,
    found: Result<(Parsed<A>, &'t [Token<A>]), ReadError>,
) -> Result<(Parts<A>, &'t [Token<A>]), ReadError>
    ensures read { (wanted : Option Found) → Gives (λ x. (shape x.0.tree, lexemes x.1.now)) found.entry wanted → Gives (λ x. (shapes x.0.trees.items, lexemes x.1.now)) result (onward wanted (put (shapes parts.trees.items))) }
    ensures high { (room : ℕ) → parts.height ≤ room → IfOk found.entry (λ x. x.0.height ≤ room) → IfOk result (λ x. x.0.height ≤ room) }
{
    match found {
        Ok((one, rest)) => Ok((parts.with(one)?, rest)),
        Err(read_error) => Err(read_error),
    }
}

/// A part in its place.
#[cycle(reading)]
#[tactic(auto, using(crate::proofs::Steps::inside_step, crate::proofs::Steps::inside_none))]
fn part<'t, A: Allocator + Clone + Drop>(
    alloc: &A,
    place: Place,
    kind: Kind,
    tokens: &'t [Token<A>],
    limits: Limits,
) -> Result<(Parsed<A>, &'t [Token<A>]), ReadError>
    requires { limits.room ≤ 250 }
    ensures read { Gives (λ x. (shape x.0.tree, lexemes x.1.now)) result (reader limits.brackets limits.room limits.layers place kind (lexemes tokens.now)) }
    ensures high { IfOk result (λ x. x.0.height ≤ limits.room) }
{
    match place {
        Place::Outside => read(alloc, kind, tokens, limits),
        Place::Inside => {
            if limits.brackets == 0 {
                return Err(too_deep(tokens));
            }
            let limits = Limits {
                brackets: limits.brackets - 1,
                room: limits.room,
                layers: LAYERS,
            };
            read(alloc, kind, tokens, limits)
        }
    }
}

/// Further parts.
#[cycle(reading)]
fn others<'t, A: Allocator + Clone + Drop>(
    alloc: &A,
    place: Place,
    kind: Kind,
    start: Start,
    front: Parts<A>,
    tokens: &'t [Token<A>],
    limits: Limits,
) -> Result<(Parts<A>, &'t [Token<A>]), ReadError>
    requires room { limits.room ≤ 250 }
    requires low { front.height ≤ limits.room }
    ensures read { Gives (λ x. (shapes x.0.trees.items, lexemes x.1.now)) result (others_of (reader limits.brackets limits.room limits.layers place kind) start (length (lexemes tokens.now)) (shapes front.trees.items) (lexemes tokens.now)) }
    ensures high { IfOk result (λ x. x.0.height ≤ limits.room) }
{
    let mut parts = front;
    let mut rest = tokens;
    for _ in 0..tokens.len() {
        match another(start, parts.greedy, rest) {
            None => return Ok((parts, rest)),
            Some(begin) => {
                let (more, behind) = added(parts, part(alloc, place, kind, begin, limits))?;
                parts = more;
                rest = behind;
            }
        }
    }
    Ok((parts, rest))
}

/// A piece of a rule.
#[cycle(reading)]
#[tactic(auto, unfolding(crate::specs::Parsing::step))]
fn step<'t, A: Allocator + Clone + Drop>(
    alloc: &A,
    piece: Piece,
    parts: Parts<A>,
    tokens: &'t [Token<A>],
    limits: Limits,
) -> Result<(Parts<A>, &'t [Token<A>]), ReadError>
    requires room { limits.room ≤ 250 }
    requires low { parts.height ≤ limits.room }
    ensures read { Gives (λ x. (shapes x.0.trees.items, lexemes x.1.now)) result (step_of (reader limits.brackets limits.room limits.layers) (may_open_of limits.brackets) piece (shapes parts.trees.items) (lexemes tokens.now)) }
    ensures high { IfOk result (λ x. x.0.height ≤ limits.room) }
{
    match piece {
        Piece::Sign(sign) => kept(parts, tokens, sign, true),
        Piece::Open(symbol) => {
            let may = may_open(limits.brackets);
            kept(parts, tokens, Sign::Symbol(symbol), may)
        }
        Piece::Name => added(parts, name_at(alloc, tokens)),
        Piece::Part(place, kind) => added(parts, part(alloc, place, kind, tokens, limits)),
        Piece::Others(place, kind, start) => {
            others(alloc, place, kind, start, parts, tokens, limits)
        }
    }
}

/// The pieces of a rule in turn.
#[cycle(reading)]
#[tactic(auto, unfolding(crate::specs::Parsing::row))]
fn row<'t, A: Allocator + Clone + Drop>(
    alloc: &A,
    pieces: &[Piece],
    parts: Parts<A>,
    tokens: &'t [Token<A>],
    limits: Limits,
) -> Result<(Parts<A>, &'t [Token<A>]), ReadError>
    requires short { length pieces.now ≤ 9 }
    requires room { limits.room ≤ 250 }
    requires low { parts.height ≤ limits.room }
    ensures read { Gives (λ x. (shapes x.0.trees.items, lexemes x.1.now)) result (row_of (reader limits.brackets limits.room limits.layers) (may_open_of limits.brackets) pieces.now (shapes parts.trees.items) (lexemes tokens.now)) }
    ensures high { IfOk result (λ x. x.0.height ≤ limits.room) }
{
    match pieces {
        [] => Ok((parts, tokens)),
        [piece, others @ ..] => {
            let (parts, rest) = step(alloc, *piece, parts, tokens, limits)?;
            row(alloc, others, parts, rest, limits)
        }
    }
}

/// A form with its parts, whose limits these are.
#[cycle(reading)]
#[tactic(auto, unfolding(crate::specs::Parsing::node), using(crate::proofs::Steps::heavy_turned))]
fn node<'t, A: Allocator + Clone + Drop>(
    alloc: &A,
    form: Form,
    fields: Fields,
    tokens: &'t [Token<A>],
    limits: Limits,
) -> Result<(Parsed<A>, &'t [Token<A>]), ReadError>
    requires { (if is_heavy form then 1 else 0) + limits.room ≤ 250 }
    ensures read { Gives (λ x. (shape x.0.tree, lexemes x.1.now)) result (node_of_form (reader limits.brackets limits.room limits.layers) (may_open_of limits.brackets) fields form (lexemes tokens.now)) }
    ensures high { IfOk result (λ x. x.0.height ≤ (if is_heavy form then 1 else 0) + limits.room) }
{
    let line = line_of(tokens);
    let none = Parts::new(alloc)?;
    let (parts, rest) = row(alloc, front(form), none, tokens, limits)?;
    let form = turned(form, rest);
    let (parts, rest) = row(alloc, back(form, fields), parts, rest, limits)?;
    Ok((parts.node(form, line), rest))
}

/// The first operand of a phrase, or a part of another kind.
#[cycle(reading)]
#[tactic(auto, unfolding(crate::specs::Parsing::operand))]
fn operand<'t, A: Allocator + Clone + Drop>(
    alloc: &A,
    kind: Kind,
    tokens: &'t [Token<A>],
    limits: Limits,
) -> Result<(Parsed<A>, &'t [Token<A>]), ReadError>
    requires room { (0 < limits.room) × (limits.room ≤ 250) }
    requires layers { 0 < limits.layers }
    ensures read { Gives (λ x. (shape x.0.tree, lexemes x.1.now)) result (operand_of (reader limits.brackets (limits.room - 1) 4) (reader limits.brackets limits.room (limits.layers - 1)) (may_open_of limits.brackets) kind (lexemes tokens.now)) }
    ensures high { IfOk result (λ x. x.0.height ≤ limits.room) }
{
    if is_alone(kind) {
        return name_at(alloc, tokens);
    }
    if let Some((number, rest)) = numeral_at(kind, tokens) {
        return Ok((number, rest));
    }
    let Some(form) = form_at(kind, tokens) else {
        return Err(expected(tokens));
    };
    if heavy(form) {
        let limits = Limits {
            brackets: limits.brackets,
            room: limits.room - 1,
            layers: LAYERS,
        };
        node(alloc, form, fields_of(kind), tokens, limits)
    } else {
        let limits = Limits {
            brackets: limits.brackets,
            room: limits.room,
            layers: limits.layers - 1,
        };
        node(alloc, form, fields_of(kind), tokens, limits)
    }
}

/// The line of a tree's first token. No clause: where trees lie in the text is no part of the proofs here.
fn first_line<A: Allocator>(tree: &Tree<A>) -> Position {
    tree.line()
}

/// What an operator makes of its left side and of what stands after it.
#[cycle(reading)]
#[tactic(auto, unfolding(crate::specs::Parsing::grown))]
fn grown<'t, A: Allocator + Clone + Drop>(
    alloc: &A,
    operator: Operator,
    left: Parsed<A>,
    tokens: &'t [Token<A>],
    limits: Limits,
) -> Result<(Parsed<A>, &'t [Token<A>]), ReadError>
    requires { (left.height < limits.room) × (limits.room ≤ 250) }
    ensures read { Gives (λ x. (shape x.0.tree, lexemes x.1.now)) result (grown_of (reader limits.brackets (limits.room - 1) 4) (may_open_of limits.brackets) operator (shape left.tree) (lexemes tokens.now)) }
    ensures high { IfOk result (λ x. x.0.height ≤ limits.room) }
{
    let line = first_line(&left.tree);
    let parts = Parts::alone(alloc, left)?;
    let limits = Limits {
        brackets: limits.brackets,
        room: limits.room - 1,
        layers: LAYERS,
    };
    let (parts, rest) = row(alloc, behind(operator), parts, tokens, limits)?;
    Ok((parts.node(Form::Operation(operator), line), rest))
}

/// A phrase that begins with this one.
#[cycle(reading)]
#[tactic(auto, unfolding(crate::specs::Parsing::climb))]
fn climb<'t, A: Allocator + Clone + Drop>(
    alloc: &A,
    left: Parsed<A>,
    tokens: &'t [Token<A>],
    limits: Limits,
    limit: u32,
    turns: u32,
) -> Result<(Parsed<A>, &'t [Token<A>]), ReadError>
    requires room { (0 < limits.room) × (limits.room ≤ 250) }
    requires turns { turns ≤ 250 }
    requires left { left.height ≤ limits.room }
    ensures read { Gives (λ x. (shape x.0.tree, lexemes x.1.now)) result (climb_of (reader limits.brackets (limits.room - 1) 4) (may_open_of limits.brackets) limits.room limit turns (shape left.tree) (lexemes tokens.now)) }
    ensures high { IfOk result (λ x. x.0.height ≤ limits.room) }
{
    match operator_behind(tokens, limit, &left) {
        None => Ok((left, tokens)),
        Some((operator, rest)) => {
            let may = may_begin(operator, limits.brackets);
            if turns == 0 || left.height >= limits.room || !may {
                return Err(too_deep(tokens));
            }
            let (grown, rest) = grown(alloc, operator, left, rest, limits)?;
            climb(alloc, grown, rest, limits, limit, turns - 1)
        }
    }
}

/// A part of this kind.
#[cycle(reading)]
#[tactic(auto, unfolding(crate::specs::Parsing::read_in, crate::specs::Parsing::go_on), using(crate::proofs::Steps::reads_step, crate::proofs::Steps::reads_no_room, crate::proofs::Steps::reads_no_layer))]
pub(crate) fn read<'t, A: Allocator + Clone + Drop>(
    alloc: &A,
    kind: Kind,
    tokens: &'t [Token<A>],
    limits: Limits,
) -> Result<(Parsed<A>, &'t [Token<A>]), ReadError>
    requires { limits.room ≤ 250 }
    ensures read { Gives (λ x. (shape x.0.tree, lexemes x.1.now)) result (reads limits.brackets limits.room limits.layers kind (lexemes tokens.now)) }
    ensures high { IfOk result (λ x. x.0.height ≤ limits.room) }
{
    if limits.room == 0 {
        if !may_begin_with(kind, tokens) {
            return Err(expected(tokens));
        }
        return Err(too_deep(tokens));
    }
    if limits.layers == 0 {
        return Err(too_deep(tokens));
    }
    let (first, rest) = operand(alloc, kind, tokens, limits)?;
    match kind {
        Kind::Phrase(limit) => climb(alloc, first, rest, limits, limit, limits.room),
        _ => Ok((first, rest)),
    }
}

/// The part of this kind that is all of the tokens.
pub(crate) fn whole<A: Allocator + Clone + Drop>(
    alloc: &A,
    kind: Kind,
    tokens: &[Token<A>],
) -> Result<Tree<A>, ReadError>
    ensures { Gives shape result (whole_of kind (lexemes tokens.now)) }
{
    let limits = Limits {
        brackets: MAX_BRACKETS,
        room: MAX_HEIGHT,
        layers: LAYERS,
    };
    let (part, rest) = read(alloc, kind, tokens, limits)?;
    match rest {
        [] => Ok(part.tree),
        [_, ..] => Err(expected(rest)),
    }
}
