//! A second alphabet with the same events.
ghost use Rattle.std.specs.Prelude.{◌≡◌, IfOk};

use crate::table::Alphabet;
use std::alloc::{AllocError, Allocator};

/// A copy of the alphabet in memory of `alloc`. Costs what declaring its channels costs.
pub fn copy_of<A: Allocator + Copy>(
    alloc: A,
    alphabet: &Alphabet<A>,
) -> Result<Alphabet<A>, AllocError>
    ensures { IfOk result (λ copy. copy ≡ alphabet.now) }
{
    let mut copy = Alphabet::new(alloc);
    for index in 0..alphabet.channels() {
        let Some((name, fields)) = alphabet.channel(index) else {
            unreachable!()
        };
        if copy.declare(name, fields).is_err() {
            return Err(AllocError);
        }
    }
    Ok(copy)
}
