//! Kinds of phrases, as faults speak of them.

use syntax::{Form, Operator};

/// What a phrase is.
#[derive(Clone, Copy, PartialEq, Eq)]
pub(crate) enum Kind {
    Number,
    Constant,
    /// A set of values.
    Values,
    /// A set of events.
    Events,
    /// The set without members, which is one of both sorts.
    Nothing,
    Event,
    Truth,
    Process,
}

/// What is wanted of a phrase.
#[derive(Clone, Copy)]
pub enum Wanted {
    Anything,
    /// A number.
    Number,
    /// A number or a constant.
    Value,
    /// A set of values.
    Values,
    /// A set of events.
    Events,
    /// A set of values or of events.
    Set,
    /// A value or an event, in a set.
    Member,
    /// A truth, as of a condition.
    Truth,
    /// What can be compared with one of its kind: a number, a constant or a truth.
    Comparable,
}

/// Whether a phrase of this kind is wanted.
pub(crate) fn takes(wanted: Wanted, kind: Kind) -> bool {
    match wanted {
        Wanted::Anything => true,
        Wanted::Number => matches!(kind, Kind::Number),
        Wanted::Value => matches!(kind, Kind::Number | Kind::Constant),
        Wanted::Values => matches!(kind, Kind::Values | Kind::Nothing),
        Wanted::Events => matches!(kind, Kind::Events | Kind::Nothing),
        Wanted::Set => matches!(kind, Kind::Values | Kind::Events | Kind::Nothing),
        Wanted::Member => matches!(kind, Kind::Number | Kind::Constant | Kind::Event),
        Wanted::Truth => matches!(kind, Kind::Truth),
        Wanted::Comparable => matches!(kind, Kind::Number | Kind::Constant | Kind::Truth),
    }
}

/// Whether phrases of this form are numbers.
pub(crate) fn is_number_form(form: Form) -> bool {
    matches!(
        form,
        Form::Negation
            | Form::NegativeNumber
            | Form::Operation(
                Operator::Plus | Operator::Minus | Operator::Times | Operator::Remainder
            )
    )
}

/// Whether phrases of this form are truths.
pub(crate) fn is_truth_form(form: Form) -> bool {
    matches!(
        form,
        Form::True
            | Form::False
            | Form::Not
            | Form::Operation(
                Operator::And
                    | Operator::Or
                    | Operator::Equal
                    | Operator::NotEqual
                    | Operator::Less
                    | Operator::LessOrEqual
                    | Operator::Greater
                    | Operator::GreaterOrEqual
            )
    )
}

/// Whether phrases of this form are sets.
fn is_set_form(form: Form) -> bool {
    matches!(
        form,
        Form::EmptySet
            | Form::Set
            | Form::Range
            | Form::Events
            | Form::NoProductions
            | Form::Productions
            | Form::Union
            | Form::Intersection
            | Form::Difference
    )
}

/// How phrases of a form are looked into.
#[derive(Clone, Copy)]
pub(crate) enum Look {
    Members,
    Sets,
    Productions,
    /// The sides of `and` or `or`, of which the first one decides where it is this truth.
    Connected(bool),
    /// Each of the parts is to be what is wanted.
    Each(Wanted),
    /// The form says what it is, or the names in it.
    Alone,
}

/// How phrases with this operator are looked into.
fn look_of_operator(operator: Operator) -> Look {
    match operator {
        Operator::And => Look::Connected(false),
        Operator::Or => Look::Connected(true),
        Operator::Equal | Operator::NotEqual => Look::Each(Wanted::Comparable),
        _ => Look::Each(Wanted::Number),
    }
}

/// How phrases of this form are looked into.
pub(crate) fn look_of(form: Form) -> Look {
    match form {
        Form::Set => Look::Members,
        Form::Union | Form::Intersection | Form::Difference => Look::Sets,
        Form::Productions => Look::Productions,
        Form::Range | Form::Negation | Form::NegativeNumber => Look::Each(Wanted::Number),
        Form::True | Form::False | Form::Not => Look::Each(Wanted::Truth),
        Form::Operation(operator) if is_number_form(form) || is_truth_form(form) => {
            look_of_operator(operator)
        }
        _ => Look::Alone,
    }
}

/// Whether a phrase of this form can be what is wanted. Names and calls say it by more than their form.
pub(crate) fn takes_form(wanted: Wanted, form: Form) -> bool {
    if matches!(form, Form::Event | Form::Call) {
        return true;
    }
    match wanted {
        Wanted::Anything => true,
        Wanted::Number | Wanted::Value | Wanted::Member => is_number_form(form),
        Wanted::Values | Wanted::Events | Wanted::Set => is_set_form(form),
        Wanted::Truth => is_truth_form(form),
        Wanted::Comparable => is_number_form(form) || is_truth_form(form),
    }
}
