//! The printed form.
ghost use Rattle.std.specs.Prelude.{◌≡◌, ◌≤◌, ◌++◌, ℕ, List, OnErr, OnOk, length};
ghost use Rattle.printing.specs.Names.{body_primes};
ghost use Rattle.printing.specs.Printed.{printed, reference};
ghost use Rattle.script.specs.Reading.{IsRead};

use read_back::printed_scripts_read_back;
use std::alloc::{AllocError, Allocator};
use term::Spec;

/// Appends the printed form of a specification: a script of the language that denotes it for the root `P0`.
///
/// First a datatype `T` with all constants of the fields by their bytes, where there are any; then a line for each channel
/// as declared, and a line for each body by its number, `P0`, `P1` and so on, each operator in brackets of its own. `T`, and
/// the names of the bodies together, have the least number of primes that makes them differ from all channels and constants.
///
/// Where memory is refused `into` is as before. Costs the text twice for a while, a table of the constants and the channels'
/// names, and room on the stack for the depth of the bodies.
pub fn print<A: Allocator, B: Allocator + Clone>(
    spec: &Spec<A>,
    into: &mut Vec<u8, B>,
) -> Result<(), AllocError>
    ensures appended { OnOk result (into.new.items ≡ into.old.items ++ printed spec.now) }
    ensures unchanged { OnErr result (into.new.items ≡ into.old.items) }
    // Where some text is read as the specification, its printed form is read as it too, if it is no larger than a script may be.
    ensures reads_back { (text root : List ℕ) → IsRead text root spec.now → length (printed spec.now) ≤ 65536
        → IsRead (printed spec.now) (reference (body_primes spec.now.alphabet (length spec.now.bodies)) 0) spec.now }
{
    printed_scripts_read_back();
    printing::print(spec, into)
}
