//! The names in a printed specification.
ghost use Rattle.std.specs.Prelude.{◌≡◌, ◌<◌, ◌++◌, ◌∷◌, [], OnOk, IfOk, Some, map, length, slice_get};
ghost use Rattle.std.specs.List.{range_with_len};
ghost use Rattle.alphabet.specs.Stored.{value_of, field_of, channel_of};
ghost use Rattle.std.specs.BTreeSet.{insert_key};
ghost use Rattle.printing.specs.Names.{byte_order, with_names, constant_in, constants_in, constants as constants_of, taken as taken_by, is_among, primed, differ, longest as longest_of, least_primes, datatype_name, body_name};
ghost use Rattle.printing.specs.View.{bytes};
ghost use Rattle.std.specs.List.{flat_map};

use alphabet::{Alphabet, Field, Value};
use itoa::Buffer;
use std::alloc::{AllocError, Allocator};
use std::collections::BTreeSet;

/// Names by their bytes, none twice.
pub(crate) type Names<B> = BTreeSet<Vec<u8, B>, B>;

/// The name and the fields of the channel with this number.
pub(crate) fn channel_at<A: Allocator>(
    alphabet: &Alphabet<A>,
    number: usize,
) -> (&[u8], &[Field<A>])
    requires { number < length alphabet.now }
    ensures { slice_get alphabet.now number ≡ Some (channel_of result.0.now result.1.now) }
{
    match alphabet.channel(number) {
        Some(channel) => channel,
        None => unreachable!(),
    }
}

/// Puts a name among the others.
fn put<B: Allocator + Clone>(names: &mut Names<B>, alloc: &B, name: &[u8]) -> Result<(), AllocError>
    ensures { OnOk result (bytes names.new.keys ≡ insert_key byte_order (bytes names.old.keys) name.now) }
{
    names.insert(Vec::from_slice(alloc.clone()?, name)?)?;
    Ok(())
}

/// Puts the name of a constant among the others.
#[tactic(auto, unfolding(crate::specs::Names::with_names))]
fn put_value<A: Allocator, B: Allocator + Clone>(
    names: &mut Names<B>,
    alloc: &B,
    value: &Value<A>,
) -> Result<(), AllocError>
    ensures { OnOk result (bytes names.new.keys ≡ with_names (bytes names.old.keys) (constant_in (value_of value.now))) }
{
    match value {
        Value::Number(_) => Ok(()),
        Value::Name(name) => put(names, alloc, name),
    }
}

/// Puts the constants of a field among the names.
fn put_field<A: Allocator, B: Allocator + Clone>(
    names: &mut Names<B>,
    alloc: &B,
    field: &[Value<A>],
) -> Result<(), AllocError>
    ensures { OnOk result (bytes names.new.keys ≡ with_names (bytes names.old.keys) (flat_map constant_in (map value_of field.now))) }
{
    for value in field {
        put_value(names, alloc, value)?;
    }
    Ok(())
}

/// Puts the constants of a channel's fields among the names.
fn put_fields<A: Allocator, B: Allocator + Clone>(
    names: &mut Names<B>,
    alloc: &B,
    fields: &[Field<A>],
) -> Result<(), AllocError>
    ensures { OnOk result (bytes names.new.keys ≡ with_names (bytes names.old.keys) (flat_map (flat_map constant_in) (map field_of fields.now))) }
{
    for field in fields {
        put_field(names, alloc, field)?;
    }
    Ok(())
}

/// The constants of all fields.
pub(crate) fn constants<A: Allocator, B: Allocator + Clone>(
    alloc: &B,
    alphabet: &Alphabet<A>,
) -> Result<Names<B>, AllocError>
    ensures { IfOk result (λ names. bytes names.keys ≡ constants_of alphabet.now) }
{
    let mut names = BTreeSet::new(alloc.clone()?);
    for number in 0..alphabet.channels() {
        let channel = channel_at(alphabet, number);
        put_fields(&mut names, alloc, channel.1)?;
    }
    Ok(names)
}

/// The names of the constants and of the channels.
pub(crate) fn taken<A: Allocator, B: Allocator + Clone>(
    alloc: &B,
    alphabet: &Alphabet<A>,
) -> Result<Names<B>, AllocError>
    ensures { IfOk result (λ names. bytes names.keys ≡ taken_by alphabet.now) }
{
    let mut names = constants(alloc, alphabet)?;
    for number in 0..alphabet.channels() {
        let channel = channel_at(alphabet, number);
        put(&mut names, alloc, channel.0)?;
    }
    Ok(names)
}

/// The length of the longest name.
fn longest<B: Allocator>(names: &Names<B>) -> usize
    ensures { result ≡ longest_of (bytes names.now.keys) }
{
    names.iter().fold(0, |most, name| most.max(name.len()))
}

/// Appends so many primes.
fn put_primes<B: Allocator>(text: &mut Vec<u8, B>, primes: usize) -> Result<(), AllocError>
    ensures { OnOk result (text.new.items ≡ primed text.old.items primes) }
{
    for _ in 0..primes {
        text.push(b'\'')?;
    }
    Ok(())
}

/// Appends the name of the datatype.
pub(crate) fn put_datatype_name<B: Allocator>(
    text: &mut Vec<u8, B>,
    primes: usize,
) -> Result<(), AllocError>
    ensures { OnOk result (text.new.items ≡ text.old.items ++ primed datatype_name primes) }
{
    text.extend_from_slice(b"T")?;
    put_primes(text, primes)
}

/// Appends the name of the body with this number.
pub(crate) fn put_body_name<B: Allocator>(
    text: &mut Vec<u8, B>,
    number: usize,
    primes: usize,
) -> Result<(), AllocError>
    ensures { OnOk result (text.new.items ≡ text.old.items ++ primed (body_name number) primes) }
{
    let mut buffer = Buffer::new();
    text.extend_from_slice(b"P")?;
    text.extend_from_slice(buffer.format(number).as_bytes())?;
    put_primes(text, primes)
}

/// Whether the name is one of these.
fn is_taken<B: Allocator>(taken: &Names<B>, name: &[u8]) -> bool
    ensures { result ≡ is_among (bytes taken.now.keys) name.now }
{
    taken.contains(name)
}

/// Whether the datatype's name differs from those taken when it has so many primes.
fn datatype_differs<B: Allocator>(
    taken: &Names<B>,
    primes: usize,
    name: &mut Vec<u8, B>,
) -> Result<bool, AllocError>
    ensures { IfOk result (λ b. b ≡ differ (bytes taken.now.keys) (datatype_name ∷ []) primes) }
{
    name.clear();
    put_datatype_name(name, primes)?;
    let is_taken = is_taken(taken, name);
    Ok(!is_taken)
}

/// The least number of primes that makes the datatype's name differ from those taken.
pub(crate) fn datatype_primes<B: Allocator + Clone>(
    alloc: &B,
    taken: &Names<B>,
) -> Result<usize, AllocError>
    ensures { IfOk result (λ n. n ≡ least_primes (bytes taken.now.keys) (datatype_name ∷ [])) }
{
    let most = longest(taken);
    let mut name = Vec::new(alloc.clone()?);
    for primes in 0..most {
        let differ = datatype_differs(taken, primes, &mut name)?;
        if differ {
            return Ok(primes);
        }
    }
    Ok(most)
}

/// Whether the names of so many bodies differ from those taken when they have so many primes.
fn bodies_differ<B: Allocator>(
    taken: &Names<B>,
    bodies: usize,
    primes: usize,
    name: &mut Vec<u8, B>,
) -> Result<bool, AllocError>
    ensures { IfOk result (λ b. b ≡ differ (bytes taken.now.keys) (map body_name (range_with_len 0 bodies)) primes) }
{
    for number in 0..bodies {
        name.clear();
        put_body_name(name, number, primes)?;
        let is_taken = is_taken(taken, name);
        if is_taken {
            return Ok(false);
        }
    }
    Ok(true)
}

/// The least number of primes that makes the names of so many bodies differ from those taken. Costs a look-up for each body
/// and each number that is tried.
pub(crate) fn body_primes<B: Allocator + Clone>(
    alloc: &B,
    taken: &Names<B>,
    bodies: usize,
) -> Result<usize, AllocError>
    ensures { IfOk result (λ n. n ≡ least_primes (bytes taken.now.keys) (map body_name (range_with_len 0 bodies))) }
{
    let most = longest(taken);
    let mut name = Vec::new(alloc.clone()?);
    for primes in 0..most {
        let differ = bodies_differ(taken, bodies, primes, &mut name)?;
        if differ {
            return Ok(primes);
        }
    }
    Ok(most)
}
