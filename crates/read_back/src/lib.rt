//! What printed specifications mean when they are read again: a law. The function does nothing: its contract is the law.
#![tactic(auto)]

ghost use Rattle.std.specs.Prelude.{◌≤◌, ℕ, List, length};
ghost use Rattle.term.specs.Specs.{Specified};
ghost use Rattle.syntax.specs.Grammar.{Syntax};
ghost use Rattle.syntax.specs.Script.{HasPhrase, HasTree};
ghost use Rattle.denotation.specs.Denotes.{Denotes, Root, root_of};
ghost use Rattle.printing.specs.Names.{body_primes};
ghost use Rattle.printing.specs.Printed.{printed, reference};

/// Where some text denotes a specification for a root, the printed form of the specification is a script that denotes it too, for
/// the printed name of its first body, which is a phrase, if that form has no more than the 65,536 bytes that a text may have.
pub fn printed_scripts_read_back()
    ensures { (text : List ℕ) (root : Root) (t : Syntax) (spec : Specified) → HasTree text t → Denotes t root spec → length (printed spec) ≤ 65536 → (u : Syntax) × HasTree (printed spec) u × (v : Syntax) × HasPhrase (reference (body_primes spec.alphabet (length spec.bodies)) 0) v × Denotes u (root_of v) spec }
{}
