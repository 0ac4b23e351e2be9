//! Whether the parameters of definitions are as they have to be.
ghost use Rattle.std.specs.Prelude.{◌≡◌, [], map, IfOk};
ghost use Rattle.std.specs.List.{list_all};
ghost use Rattle.values.specs.Names.{meaning as meaning_in, is_constant as is_constant_of, are_parameters as are_parameters_of, have_parameters as have_parameters_of};
ghost use Rattle.declared_names.specs.View.{entries as entries_of, meaning_of};

use crate::entries::{Entries, Hashing, Meaning};
use indexmap::IndexSet;
use std::alloc::{AllocError, Allocator};

/// Whether the name is a constant's. Costs a look-up by its hash.
#[tactic(auto, unfolding(values::specs::Names::is_constant))]
fn is_constant<'a, A: Allocator>(entries: &Entries<'a, A>, name: &[u8]) -> bool
    ensures { result ≡ is_constant_of (meaning_in (entries_of entries.now) name.now) }
{
    match entries.get(name) {
        Some(entry) => match &entry.meaning {
            Meaning::Constant => true,
            _ => false,
        },
        None => false,
    }
}

/// Puts these names into the set, which is empty, up to the first one that can't be a parameter, since it stands there or is a
/// constant's; whether there is no such name.
fn put_parameters<'a, 'n, A: Allocator + Copy>(
    entries: &Entries<'a, A>,
    earlier: &mut IndexSet<&'n [u8], Hashing, A>,
    names: &'n [Vec<u8, A>],
) -> Result<bool, AllocError>
    requires { earlier.old.keys ≡ [] }
    ensures { IfOk result (λ b. b ≡ are_parameters_of (entries_of entries.now) (map (λ n. n.items) names.now)) }
{
    for name in names {
        let text = name.as_slice();
        if is_constant(entries, text) {
            return Ok(false);
        }
        let new = earlier.insert(text)?;
        if !new {
            return Ok(false);
        }
    }
    Ok(true)
}

/// Whether these names can be parameters: none stands twice, and none is a constant's.
fn are_parameters<'a, A: Allocator + Copy>(
    entries: &Entries<'a, A>,
    names: &[Vec<u8, A>],
) -> Result<bool, AllocError>
    ensures { IfOk result (λ b. b ≡ are_parameters_of (entries_of entries.now) (map (λ n. n.items) names.now)) }
{
    let mut earlier = IndexSet::new(*entries.table.allocator());
    put_parameters(entries, &mut earlier, names)
}

/// Whether the parameters of what a name is declared as are as they have to be, if it has any.
#[tactic(auto, unfolding(values::specs::Names::have_parameters))]
fn have_parameters<'a, A: Allocator + Copy>(
    entries: &Entries<'a, A>,
    meaning: &Meaning<'a, A>,
) -> Result<bool, AllocError>
    ensures { IfOk result (λ b. b ≡ have_parameters_of (entries_of entries.now) (meaning_of meaning.now)) }
{
    match meaning {
        Meaning::WithParameters { names, .. } => are_parameters(entries, names),
        _ => Ok(true),
    }
}

/// Whether the parameters of each definition are as they have to be: none twice, and none with the name of a constant. Costs
/// a few look-ups by its hash for each of them.
pub fn parameters_fit<'a, A: Allocator + Copy>(entries: &Entries<'a, A>) -> Result<bool, AllocError>
    ensures { IfOk result (λ b. b ≡ list_all (λ e. have_parameters_of (entries_of entries.now) e.1) (entries_of entries.now)) }
{
    for place in 0..entries.len() {
        if let Some(entry) = entries.at(place) {
            let fit = have_parameters(entries, &entry.meaning)?;
            if !fit {
                return Ok(false);
            }
        }
    }
    Ok(true)
}
