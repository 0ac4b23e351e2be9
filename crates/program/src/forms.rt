//! What a script denotes, as a text.

ghost use Rattle.std.specs.Prelude.{◌≡◌, ◌≤◌, ℕ, List, length, IfOk, IfErr, MatchResult};
ghost use Rattle.printing.specs.Names.{body_primes};
ghost use Rattle.printing.specs.Printed.{printed, reference};
ghost use Rattle.values.specs.Values.{Name};
ghost use Rattle.term.specs.Specs.{Specified};
ghost use Rattle.script.specs.Reading.{IsRead};
ghost use Rattle.program.specs.Prints.{IsPrinted, IsUnprinted};

use script::read;
use std::alloc::Allocator;
use term::Spec;
use tokens::ScriptError;

/// Why a script isn't printed.
#[derive(Clone, Copy, Debug, PartialEq, Eq)]
pub enum PrintError {
    /// The script denotes nothing for the process, or there was no memory to read it.
    Script(ScriptError),
    /// There was no memory for the text.
    Memory,
}

// The text of a specification.
fn text_of<A: Allocator + Copy>(alloc: A, spec: &Spec<A>) -> Result<Vec<u8, A>, PrintError>
    ensures text { IfOk result (λ text. text.items ≡ printed spec.now) }
    ensures reads_back { (text : List ℕ) (root : Name) → IsRead text root spec.now → length (printed spec.now) ≤ 65536
        → IsRead (printed spec.now) (reference (body_primes spec.now.alphabet (length spec.now.bodies)) 0) spec.now }
    ensures memory { IfErr result (λ error. error ≡ PrintError.Memory) }
{
    let mut text = Vec::new(alloc);
    match script::print(spec, &mut text) {
        Ok(()) => Ok(text),
        Err(_) => Err(PrintError::Memory),
    }
}

/// The printed form of what the script denotes for the process.
pub fn print<A: Allocator + Copy>(
    alloc: A,
    script: &[u8],
    process: &[u8],
) -> Result<Vec<u8, A>, PrintError>
    ensures printed { IfOk result (λ text. IsPrinted script.now process.now text.items) }

    // Where the script denotes a specification, that is printed, unless memory runs out; and where it denotes none, nothing is.
    ensures only { (spec : Specified) → IsRead script.now process.now spec
        → MatchResult result (λ text. text.items ≡ printed spec) IsUnprinted }
{
    let spec = match read(alloc, script, process) {
        Ok(spec) => spec,
        Err(fault) => return Err(PrintError::Script(fault)),
    };
    text_of(alloc, &spec)
}
