//! What the declared names stand for.
ghost use Rattle.std.specs.Prelude.{IfOk, is_some};
ghost use Rattle.values.specs.Names.{worth_of as worth_of_meaning, next_known, IsReached, Stands};
ghost use Rattle.values.specs.Tables.{table};
ghost use Rattle.values.specs.View.{Gives, worth as worth_of};
ghost use Rattle.declared_names.specs.View.{entries as entries_of, meaning_of};
ghost use Rattle.declared_names.specs.Standing.{IsSettled};

use crate::entries::{Entries, Entry, Meaning};
use crate::part::worth_alone;
use crate::search::{Learner, learn_names};
use std::alloc::{AllocError, Allocator};
use tokens::{Position, ReadError, ScriptErrorKind, fault};
use values::{Known, Value, Worth, constant_set};

/// What a declared name means, where names mean what the table says.
#[tactic(auto, unfolding(values::specs::Names::worth_of))]
fn worth_of_entry<'a, A: Allocator + Copy>(
    alloc: A,
    known: &Known<A>,
    name: &[u8],
    entry: &Entry<'a, A>,
) -> Result<Worth<A>, ReadError>
    ensures { Gives worth_of result (worth_of_meaning (table known.now) name.now (meaning_of entry.now.meaning)) }
{
    match &entry.meaning {
        Meaning::Channel(_) => Err(fault(entry.line, ScriptErrorKind::Expected)),
        Meaning::Datatype(constants) => Ok(Worth::Many(constant_set(&alloc, constants)?)),
        Meaning::Constant => {
            let constant = Vec::from_slice(alloc, name)?;
            Ok(Worth::One(Value::Constant(constant)))
        }
        Meaning::Definition(body) => worth_alone(alloc, known, body),
        Meaning::WithParameters { .. } => Err(fault(entry.line, ScriptErrorKind::Expected)),
    }
}

/// What the definition of the name says, where names mean what the table says.
#[tactic(auto, unfolding(values::specs::Names::next_known))]
fn next_worth<'a, A: Allocator + Copy>(
    alloc: A,
    entries: &Entries<'a, A>,
    known: &Known<A>,
    name: &[u8],
) -> Result<Worth<A>, ReadError>
    ensures { Gives worth_of result (next_known (entries_of entries.now) (table known.now) name.now) }
{
    match entries.get(name) {
        Some(entry) => worth_of_entry(alloc, known, name, entry),
        None => Err(fault(Position::Line(1), ScriptErrorKind::UnknownName)),
    }
}

/// The definitions of the declared names, by which it is learned what these mean.
#[derive(Drop)]
struct Definitions<'a, A: Allocator> {
    alloc: A,
    entries: &'a Entries<'a, A>,
}

impl<'a, A: Allocator + Copy> Learner<Known<A>> for Definitions<'a, A> {
    ghost knows = { λ known name. is_some (table known name) };

    ghost reached = { λ definitions known. IsReached (entries_of definitions.entries.now) (table known) };

    ghost settled = { λ definitions known name. IsSettled (entries_of definitions.entries.now) (table known) name };

    fn learn(&self, known: &mut Known<A>, name: &[u8]) -> Result<bool, AllocError> {
        if known.has(name) {
            return Ok(false);
        }
        match next_worth(self.alloc, self.entries, known, name) {
            Ok(worth) => {
                known.insert(Vec::from_slice(self.alloc, name)?, worth)?;
                Ok(true)
            }
            Err(ReadError::Fault(_)) => Ok(false),
            Err(ReadError::Memory) => Err(AllocError),
        }
    }
}

/// What the declared names mean.
pub fn table_of_names<'a, A: Allocator + Copy>(
    alloc: A,
    entries: &Entries<'a, A>,
) -> Result<Known<A>, AllocError>
    ensures { IfOk result (λ k. Stands (entries_of entries.now) (table k)) }
{
    let mut known = Known::new(alloc);
    let definitions = Definitions {
        alloc,
        entries: &*entries,
    };
    learn_names(alloc, entries, &definitions, &mut known)?;
    Ok(known)
}
