//! The whole text.
ghost use Rattle.std.specs.Prelude.{◌≡◌, ◌++◌, IfOk, OnOk, OnErr};
ghost use Rattle.printing.specs.Names.{constants as constants_of, datatype_primes as primes_of_datatype, body_primes as primes_of_bodies};
ghost use Rattle.printing.specs.Printed.{datatype_line, printed};

use crate::declarations::{put_channels, put_datatype};
use crate::names::{body_primes, constants, datatype_primes, taken};
use crate::processes::put_bodies;
use alphabet::Alphabet;
use std::alloc::{AllocError, Allocator};
use term::Spec;

/// How many primes the name of the datatype has, and how many those of so many bodies.
fn primes_of<A: Allocator, B: Allocator + Clone>(
    alloc: &B,
    alphabet: &Alphabet<A>,
    bodies: usize,
) -> Result<(usize, usize), AllocError>
    ensures { IfOk result (λ p. (p.0 ≡ primes_of_datatype alphabet.now) × (p.1 ≡ primes_of_bodies alphabet.now bodies)) }
{
    let taken = taken(alloc, alphabet)?;
    let for_datatype = datatype_primes(alloc, &taken)?;
    let for_bodies = body_primes(alloc, &taken, bodies)?;
    Ok((for_datatype, for_bodies))
}

/// Appends the declaration of the datatype with all constants of the fields, if there are any.
fn put_constants<A: Allocator, B: Allocator + Clone>(
    alloc: &B,
    text: &mut Vec<u8, B>,
    alphabet: &Alphabet<A>,
    primes: usize,
) -> Result<(), AllocError>
    ensures { OnOk result (text.new.items ≡ text.old.items ++ datatype_line primes (constants_of alphabet.now)) }
{
    let constants = constants(alloc, alphabet)?;
    put_datatype(text, &constants, primes)
}

/// The text of a specification.
fn text_of<A: Allocator, B: Allocator + Clone>(
    alloc: &B,
    spec: &Spec<A>,
) -> Result<Vec<u8, B>, AllocError>
    ensures { IfOk result (λ text. text.items ≡ printed spec.now) }
{
    let alphabet = spec.alphabet();
    let bodies = spec.bodies();
    let (for_datatype, for_bodies) = primes_of(alloc, alphabet, bodies)?;
    let mut text = Vec::new(alloc.clone()?);
    put_constants(alloc, &mut text, alphabet, for_datatype)?;
    put_channels(&mut text, alphabet)?;
    put_bodies(&mut text, spec, for_bodies)?;
    Ok(text)
}

/// Appends the printed form of a specification: a script of the language that denotes it, with the root as `P0`.
///
/// First a datatype `T` with all constants of the fields by their bytes, where there are any; then a line for each channel
/// as declared, and a line for each body by its number, `P0`, `P1` and so on, each operator in brackets of its own. `T`, and
/// the names of the bodies together, have the least number of primes that makes them differ from all channels and constants.
///
/// Where memory is refused `into` is as before. Costs the text twice for a while, a table of the constants and the channels'
/// names, and room on the stack for the depth of the bodies.
pub fn print<A: Allocator, B: Allocator + Clone>(
    spec: &Spec<A>,
    into: &mut Vec<u8, B>,
) -> Result<(), AllocError>
    ensures appended { OnOk result (into.new.items ≡ into.old.items ++ printed spec.now) }
    ensures unchanged { OnErr result (into.new.items ≡ into.old.items) }
{
    let text = text_of(into.allocator(), spec)?;
    into.extend_from_slice(&text)
}
