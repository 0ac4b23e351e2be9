//! Sigma as phrases look at it.
ghost use Rattle.std.specs.Prelude.{◌≡◌, ◌≤◌, ℕ, List, IfOk, length, map};
ghost use Rattle.std.specs.Option.{option_map};
ghost use Rattle.alphabet.specs.Channels.{events as events_of};
ghost use Rattle.event_phrases.specs.Events.{fields_named};
ghost use Rattle.event_phrases.specs.View.{row};
ghost use Rattle.script.specs.Coding.{parts_prop, fields_prop};
ghost use Rattle.script.specs.Fields.{field_lists};
ghost use Rattle.script.specs.Tables.{said};

use crate::fields::fields_by_name;
use crate::rows::rows_of;
use crate::table::Table;
use alphabet::Alphabet;
use event_phrases::{Row, Set};
use std::alloc::{AllocError, Allocator};

/// The channels of a script, with their events and the values of their fields.
#[derive(Drop)]
pub(crate) struct Sigma<A: Allocator> {
    pub(crate) alphabet: Alphabet<A>,
    /// The events, each at its number.
    pub(crate) rows: Vec<Row<A>, A>,
    /// The values of the fields of each channel, by its name.
    pub(crate) fields: Table<Vec<Set<A>, A>, A>,
    ghost numbered: { map row rows.items ≡ events_of alphabet } by { parts_prop (map row rows.items) (events_of alphabet) },
    ghost few: { length rows.items ≤ 256 },
    ghost fielded: { (name : List ℕ) → option_map field_lists (said fields name) ≡ fields_named alphabet name } by { fields_prop (λ n. option_map field_lists (said fields n)) (fields_named alphabet) },
}

/// Sigma of this alphabet. Costs a copy of each event's values and of the channels' fields.
pub(crate) fn sigma_of<A: Allocator + Copy>(
    alloc: A,
    alphabet: Alphabet<A>,
) -> Result<Sigma<A>, AllocError>
    ensures { IfOk result (λ s. s.alphabet ≡ alphabet) }
{
    let rows = rows_of(alloc, &alphabet)?;
    let fields = fields_by_name(alloc, &alphabet)?;
    Ok(Sigma {
        alphabet,
        rows,
        fields,
    })
}

impl<A: Allocator> Sigma<A> {
    /// The alphabet alone.
    pub(crate) fn into_alphabet(self) -> Alphabet<A>
        ensures { result ≡ self.alphabet }
    {
        let Sigma { alphabet, .. } = self;
        alphabet
    }
}
