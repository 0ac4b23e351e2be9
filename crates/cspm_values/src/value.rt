//! Values in memory.
ghost use Rattle.std.specs.Prelude.{◌≡◌, IfOk};
ghost use Rattle.cspm_values.specs.Values.{row_of};
ghost use Rattle.cspm_values.specs.View.{head as plain_head, value as plain_value, values as plain_values};

use crate::stop::Sort;
use std::alloc::{AllocError, Allocator};

/// What a value is, apart from its parts.
#[derive(Drop)]
pub enum Head<A: Allocator> {
    Number(i64),
    Truth(bool),
    /// A constructor or a channel, and how many arguments it takes.
    Constructor(Vec<u8, A>, u32),
    Tuple,
    Sequence,
    /// A set, whose parts rise.
    Set,
}

/// A value: what it is, and its parts, which are arguments so far, or members.
#[derive(Drop)]
pub enum Value<A: Allocator> {
    /// Without parts.
    Plain(Head<A>),
    Of(Head<A>, Vec<Value<A>, A>),
}

/// What the value is, and its parts.
pub fn split<A: Allocator>(value: &Value<A>) -> (&Head<A>, &[Value<A>])
    ensures { plain_value value.now ≡ Rattle.cspm_values.specs.Values.value (plain_head result.0.now) (row_of (plain_values result.1.now)) }
{
    match value {
        Value::Plain(head) => (head, &[]),
        Value::Of(head, parts) => (head, parts),
    }
}

/// The value with this head and these parts.
pub fn with_parts<A: Allocator>(head: Head<A>, parts: Vec<Value<A>, A>) -> Value<A>
    ensures { plain_value result ≡ Rattle.cspm_values.specs.Values.value (plain_head head) (row_of (plain_values parts.items)) }
{
    Value::Of(head, parts)
}

/// A copy of its own memory.
pub fn copied_head<A: Allocator + Clone>(head: &Head<A>) -> Result<Head<A>, AllocError>
    ensures { IfOk result (λ copy. plain_head copy ≡ plain_head head.now) }
{
    match head {
        Head::Number(number) => Ok(Head::Number(*number)),
        Head::Truth(truth) => Ok(Head::Truth(*truth)),
        Head::Constructor(name, arity) => Ok(Head::Constructor(name.clone()?, *arity)),
        Head::Tuple => Ok(Head::Tuple),
        Head::Sequence => Ok(Head::Sequence),
        Head::Set => Ok(Head::Set),
    }
}

/// A copy of its own memory.
#[cycle(copies)]
pub fn copied<A: Allocator + Clone>(alloc: &A, value: &Value<A>) -> Result<Value<A>, AllocError>
    ensures { IfOk result (λ copy. plain_value copy ≡ plain_value value.now) }
{
    match value {
        Value::Plain(head) => Ok(Value::Plain(copied_head(head)?)),
        Value::Of(head, parts) => {
            let head = copied_head(head)?;
            let copies = all_copied(alloc, parts)?;
            Ok(Value::Of(head, copies))
        }
    }
}

/// Copies of their own memory.
#[cycle(copies)]
pub fn all_copied<A: Allocator + Clone>(
    alloc: &A,
    all: &[Value<A>],
) -> Result<Vec<Value<A>, A>, AllocError>
    ensures { IfOk result (λ copies. plain_values copies.items ≡ plain_values all.now) }
{
    let mut copies = Vec::new(alloc.clone()?);
    for value in all {
        copies.push(copied(alloc, value)?)?;
    }
    Ok(copies)
}

/// What kind of value it is.
pub fn sort_of<A: Allocator>(head: &Head<A>) -> Sort {
    match head {
        Head::Number(_) => Sort::Number,
        Head::Truth(_) => Sort::Truth,
        Head::Constructor(_, _) => Sort::Constructor,
        Head::Tuple => Sort::Tuple,
        Head::Sequence => Sort::Sequence,
        Head::Set => Sort::Set,
    }
}
