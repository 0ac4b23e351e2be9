//! Which sets of events names mean.
ghost use Rattle.std.specs.Prelude.{IfOk, is_some};
ghost use Rattle.event_phrases.specs.Events.{EventsStand, event_set, masked};
ghost use Rattle.event_phrases.specs.Forms.{set_phrase_of};
ghost use Rattle.syntax.specs.View.{shape};
ghost use Rattle.values.specs.Tables.{table};
ghost use Rattle.values.specs.View.{Gives};
ghost use Rattle.declared_names.specs.View.{entries as entries_of};
ghost use Rattle.script.specs.Standing.{events_by, next_events};
ghost use Rattle.script.specs.Tables.{said};
ghost use Rattle.script.specs.View.{AreReachedBy, IsSettledBy};

use crate::names::Names;
use crate::script::Script;
use crate::table::Table;
use alphabet::EventSet;
use declared_names::{Learner, learn_names};
use event_phrases::set_of_events;
use std::alloc::{AllocError, Allocator};
use syntax::Tree;
use tokens::{Position, ReadError, ScriptErrorKind, fault};

/// What the body of a definition says, where names mean the sets in the table.
fn set_of_body<'a, A: Allocator + Copy>(
    alloc: A,
    names: &Names<'a, A>,
    sets: &Table<EventSet, A>,
    body: &'a Tree<A>,
) -> Result<EventSet, ReadError>
    requires { AreReachedBy names.now (said sets.now) }
    ensures { Gives (λ s. s) result (masked names.now.sigma.alphabet (event_set names.now.sigma.alphabet (table names.now.known) (events_by (said sets.now)) (set_phrase_of (shape body.now)))) }
{
    let script = Script { names, sets, alloc };
    set_of_events(alloc, &script, body)
}

/// What the definition of the name says, where names mean the sets in the table.
#[tactic(auto, unfolding(crate::specs::Standing::next_events))]
fn next_set<'a, A: Allocator + Copy>(
    alloc: A,
    names: &Names<'a, A>,
    sets: &Table<EventSet, A>,
    name: &[u8],
) -> Result<EventSet, ReadError>
    requires { AreReachedBy names.now (said sets.now) }
    ensures { Gives (λ s. s) result (masked names.now.sigma.alphabet (next_events names.now.sigma.alphabet (table names.now.known) (entries_of names.now.entries) (events_by (said sets.now)) name.now)) }
{
    match names.body(name) {
        Some(body) => set_of_body(alloc, names, sets, body),
        None => Err(fault(Position::Line(1), ScriptErrorKind::Expected)),
    }
}

/// The definitions of a script's names, by which it is learned which sets of events these mean.
#[derive(Drop)]
struct Definitions<'a, A: Allocator> {
    alloc: A,
    names: &'a Names<'a, A>,
}

impl<'a, A: Allocator + Copy> Learner<Table<EventSet, A>> for Definitions<'a, A> {
    ghost knows = { λ sets name. is_some (said sets name) };

    ghost reached = { λ definitions sets. AreReachedBy definitions.names.now (said sets) };

    ghost settled = { λ definitions sets name. IsSettledBy definitions.names.now (said sets) name };

    fn learn(&self, sets: &mut Table<EventSet, A>, name: &[u8]) -> Result<bool, AllocError> {
        if sets.has(name) {
            return Ok(false);
        }
        match next_set(self.alloc, self.names, sets, name) {
            Ok(set) => {
                sets.insert(name, set)?;
                Ok(true)
            }
            Err(ReadError::Fault(_)) => Ok(false),
            Err(ReadError::Memory) => Err(AllocError),
        }
    }
}

/// The sets of events that the names mean.
pub(crate) fn named_sets<'a, A: Allocator + Copy>(
    alloc: A,
    names: &Names<'a, A>,
) -> Result<Table<EventSet, A>, AllocError>
    ensures stand { IfOk result (λ t. EventsStand names.now.sigma.alphabet (table names.now.known) (entries_of names.now.entries) (events_by (said t))) }
    ensures reached { IfOk result (λ t. AreReachedBy names.now (said t)) }
{
    let mut sets = Table::new(alloc);
    let definitions = Definitions {
        alloc,
        names: &*names,
    };
    learn_names(alloc, &names.entries, &definitions, &mut sets)?;
    Ok(sets)
}
