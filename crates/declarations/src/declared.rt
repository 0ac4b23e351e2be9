//! What a script declares.
ghost use Rattle.std.specs.Prelude.{◌≡◌, List, Some, IfOk, IsTrue};
ghost use Rattle.alphabet.specs.Channels.{Channel};
ghost use Rattle.syntax.specs.View.{shape};
ghost use Rattle.values.specs.Channels.{Declares};
ghost use Rattle.values.specs.Names.{Entry, Stands};
ghost use Rattle.values.specs.Tables.{table};
ghost use Rattle.values.specs.View.{Gives};
ghost use Rattle.values.specs.Worths.{Known as Knowledge};
ghost use Rattle.declared_names.specs.LanguageNames.{has_names};
ghost use Rattle.declared_names.specs.View.{entries as entries_of};
ghost use Rattle.declarations.specs.Fitting.{fitting as fitting_of, fitting_entries as fitting_entries_of};

use crate::diagnosis::declared_alphabet;
use alphabet::Alphabet;
use declared_names::{
    Entries, declarations_of, distinct_entries, fault_of_names, parameters_fit, table_of_names,
};
use std::alloc::Allocator;
use syntax::Tree;
use tokens::ReadError;
use values::Known;

/// What a script declares.
#[derive(Drop)]
pub struct Declared<'a, A: Allocator> {
    /// The declared names in text order, none twice.
    pub entries: Entries<'a, A>,
    /// What the names of numbers, constants and sets of values mean.
    pub known: Known<A>,
    /// The channels with the values of their fields.
    pub alphabet: Alphabet<A>,
}

/// Whether the parameters of these names are in order; else the fault in the names of the tree.
fn fitting<'a, A: Allocator + Copy>(
    entries: &Entries<'a, A>,
    tree: &Tree<A>,
) -> Result<(), ReadError>
    ensures { Gives (λ _. entries_of entries.now) result (fitting_of (entries_of entries.now)) }
{
    let fit = parameters_fit(entries)?;
    if fit {
        Ok(())
    } else {
        Err(fault_of_names(tree))
    }
}

/// The names that the script declares, none twice, and with parameters that are in order.
fn fitting_entries<'a, A: Allocator + Copy>(
    alloc: A,
    tree: &'a Tree<A>,
) -> Result<Entries<'a, A>, ReadError>
    ensures { Gives entries_of result (fitting_entries_of (shape tree.now)) }
{
    match distinct_entries(alloc, tree) {
        Ok(entries) => {
            fitting(&entries, tree)?;
            Ok(entries)
        }
        Err(ReadError::Fault(_)) => Err(fault_of_names(tree)),
        Err(ReadError::Memory) => Err(ReadError::Memory),
    }
}

/// The channels of the script with this tree, whose names are these entries and mean this.
fn alphabet_of_script<'a, A: Allocator + Copy>(
    alloc: A,
    entries: &Entries<'a, A>,
    known: &Known<A>,
    tree: &Tree<A>,
) -> Result<Alphabet<A>, ReadError>
    requires named { IsTrue (has_names (shape tree.now)) }
    requires entered { fitting_entries_of (shape tree.now) ≡ Some (entries_of entries.now) }
    requires stands { Stands (entries_of entries.now) (table known.now) }
    ensures found { IfOk result (λ cs. Declares (shape tree.now) (entries_of entries.now) (table known.now) cs) }
    ensures only { (es : List Entry) (meant : Knowledge) (cs : List Channel) → Declares (shape tree.now) es meant cs
        → Gives {Y = List Entry × Knowledge × List Channel} (λ ds. (entries_of entries.now, table known.now, ds)) result (Some (es, meant, cs)) }
{
    let declarations = declarations_of(tree)?;
    declared_alphabet(alloc, entries, known, declarations)
}

/// What the names of the script with this tree mean, which are these entries, and its channels.
fn known_with_alphabet<'a, A: Allocator + Copy>(
    alloc: A,
    entries: &Entries<'a, A>,
    tree: &Tree<A>,
) -> Result<(Known<A>, Alphabet<A>), ReadError>
    requires named { IsTrue (has_names (shape tree.now)) }
    requires entered { fitting_entries_of (shape tree.now) ≡ Some (entries_of entries.now) }
    ensures found { IfOk result (λ p. Declares (shape tree.now) (entries_of entries.now) (table p.0) p.1) }
    ensures only { (es : List Entry) (meant : Knowledge) (cs : List Channel) → Declares (shape tree.now) es meant cs
        → Gives {Y = List Entry × Knowledge × List Channel} (λ p. (entries_of entries.now, table p.0, p.1)) result (Some (es, meant, cs)) }
{
    let known = table_of_names(alloc, entries)?;
    match alphabet_of_script(alloc, entries, &known, tree) {
        Ok(alphabet) => Ok((known, alphabet)),
        Err(error) => {
            drop(known);
            Err(error)
        }
    }
}

/// What the script with this tree declares. Each name in the tree is a name of the language.
///
/// Tells the first fault in its names, in text order: `Redeclared` where a name is declared for the second time, or a parameter
/// for the second time in its list, and `Unsupported` at a parameter with the name of a constant; else, for the first channel
/// that is at fault, the first fault in the sets of its fields and in the definitions that they need, or `TooManyEvents` at
/// its name where there would be more than 256 events. `Memory` is reported where it runs out.
///
/// Costs a turn for each name and each use of one, and what it takes to find what each named number and set means,
/// once: also of those that nothing uses.
pub fn declare<'a, A: Allocator + Copy>(
    alloc: A,
    tree: &'a Tree<A>,
) -> Result<Declared<'a, A>, ReadError>
    requires { IsTrue (has_names (shape tree.now)) }
    // What is found is what the script declares.
    ensures found { IfOk result (λ d. Declares (shape tree.now) (entries_of d.entries) (table d.known) d.alphabet) }
    // What a script declares is found, and nothing else, unless memory runs out.
    ensures only { (es : List Entry) (known : Knowledge) (cs : List Channel) → Declares (shape tree.now) es known cs
        → Gives {Y = List Entry × Knowledge × List Channel} (λ d. (entries_of d.entries, table d.known, d.alphabet)) result (Some (es, known, cs)) }
{
    let entries = fitting_entries(alloc, tree)?;
    match known_with_alphabet(alloc, &entries, tree) {
        Ok((known, alphabet)) => Ok(Declared {
            entries,
            known,
            alphabet,
        }),
        Err(error) => Err(error),
    }
}
