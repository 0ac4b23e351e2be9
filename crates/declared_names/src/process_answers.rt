//! Which names may be those of processes, found for all names at once.
ghost use Rattle.std.specs.Prelude.{◌≡◌, ℕ, suc, true, ◌<◌, length, IfOk, MatchOption};
ghost use Rattle.declared_names.specs.ProcessAnswers.{AreAnswers, AreFound, IsAnswer, LeadsOn, MayLeadOn, count_found, found_in};
ghost use Rattle.declared_names.specs.View.{entries as entries_of};

use crate::entries::Entries;
use crate::order::places_by_use;
use crate::processes::Answer;
use std::alloc::{AllocError, Allocator};

/// What was found of the name at this place.
fn found_at(found: &[Option<bool>], place: usize) -> Option<bool>
    ensures { result ≡ found_in found.now place }
{
    match found.get(place) {
        Some(answer) => *answer,
        None => None,
    }
}

/// Whether the name may be one of a process, if its own definition says so or is a name of which it was found.
fn answer_by<'a, A: Allocator>(
    entries: &Entries<'a, A>,
    found: &[Option<bool>],
    name: &[u8],
) -> Option<bool>
    requires { AreFound (entries_of entries.now) found.now }
    ensures { MatchOption result (LeadsOn (entries_of entries.now) found.now name.now) (λ b. IsAnswer (entries_of entries.now) (suc (count_found found.now)) name.now b) }
{
    match entries.answer(name) {
        Answer::Known(answer) => Some(answer),
        Answer::SameAs(next) => match entries.place(next) {
            Some(place) => found_at(found, place),
            None => Some(false),
        },
    }
}

/// What was found, and the answer for the name at this place if there is one.
fn find_at<'a, A: Allocator>(
    entries: &Entries<'a, A>,
    found: Vec<Option<bool>, A>,
    place: usize,
) -> Vec<Option<bool>, A>
    requires { AreFound (entries_of entries.now) found.items }
    ensures { AreFound (entries_of entries.now) result.items }
{
    let mut found = found;
    let Some(name) = entries.name_at(place) else {
        return found;
    };
    if found_at(&found, place).is_some() {
        return found;
    }
    if let Some(answer) = answer_by(entries, &found, name) {
        found[place] = Some(answer);
    }
    found
}

/// What was found, and the answers for the names at these places, one after the other.
fn find_in_order<'a, A: Allocator>(
    entries: &Entries<'a, A>,
    found: Vec<Option<bool>, A>,
    places: &[usize],
) -> Vec<Option<bool>, A>
    requires { AreFound (entries_of entries.now) found.items }
    ensures { AreFound (entries_of entries.now) result.items }
{
    let mut found = found;
    for place in places {
        found = find_at(entries, found, *place);
    }
    found
}

/// Whether the name at this place was found or leads to one that wasn't found.
fn may_lead_on<'a, A: Allocator>(
    entries: &Entries<'a, A>,
    found: &[Option<bool>],
    place: usize,
) -> bool
    requires { AreFound (entries_of entries.now) found.now }
    ensures { result ≡ true → MayLeadOn (entries_of entries.now) found.now place }
{
    let Some(name) = entries.name_at(place) else {
        return false;
    };
    found_at(found, place).is_some() || answer_by(entries, found, name).is_none()
}

/// Whether each name was found or leads to one that wasn't found.
fn all_lead_on<'a, A: Allocator>(entries: &Entries<'a, A>, found: &[Option<bool>]) -> bool
    requires { AreFound (entries_of entries.now) found.now }
    ensures { result ≡ true → (i : ℕ) → i < length (entries_of entries.now) → MayLeadOn (entries_of entries.now) found.now i }
{
    for place in 0..entries.len() {
        if !may_lead_on(entries, found, place) {
            return false;
        }
    }
    true
}

/// Whether the name at each place may be one of a process: `None` where it leads on for ever. Empty where not all was found,
/// which doesn't happen when each name comes after the one that it leads to.
pub(crate) fn answers<'a, A: Allocator + Copy>(
    alloc: A,
    entries: &Entries<'a, A>,
) -> Result<Vec<Option<bool>, A>, AllocError>
    ensures { IfOk result (λ v. AreAnswers (entries_of entries.now) v.items) }
{
    let places = places_by_use(alloc, entries)?;
    let none = vec![in alloc; None; entries.len()]?;
    let found = find_in_order(entries, none, &places);
    if all_lead_on(entries, &found) {
        Ok(found)
    } else {
        Ok(Vec::new(alloc))
    }
}
