//! Laws of reading. Each function does nothing: its contract is the law.
ghost use Rattle.std.specs.Prelude.{◌≡◌, ◌≢◌, ◌≤◌, ℕ, List, [], ◌∷◌, true, length};
ghost use Rattle.std.specs.List.{All};
ghost use Rattle.term.specs.Specs.{Specified};
ghost use Rattle.tokens.specs.Lexeme.{Name};
ghost use Rattle.tokens.specs.Text.{HasTokens};
ghost use Rattle.syntax.specs.Grammar.{Syntax};
ghost use Rattle.syntax.specs.Script.{HasTree, is_one_line};
ghost use Rattle.denotation.specs.Denotes.{Denotes, named};
ghost use Rattle.script.specs.Reading.{IsRead};

use denotation::one_specification;
use syntax::{one_phrase, one_tree};

/// A text is read as one alphabet and one list of bodies at most for a root.
pub fn one_reading()
    ensures { (text root : List ℕ) (first second : Specified) → IsRead text root first → IsRead text root second → first.names ≡ second.names → first ≡ second }
{
    one_tree();
    one_phrase();
    one_specification();
}

/// A root that is a name alone is the process with that name: the text is read for it as what its tree denotes for that process, and
/// as nothing else.
pub fn names_are_processes()
    ensures found { (text root name : List ℕ) (script : Syntax) (spec : Specified) → HasTree text script → HasTokens root (Name name ∷ []) → IsRead text root spec → Denotes script (named name) spec }
    ensures only { (text root name : List ℕ) (script : Syntax) (spec : Specified) → HasTree text script → is_one_line root ≡ true → HasTokens root (Name name ∷ []) → Denotes script (named name) spec → IsRead text root spec }
{
    one_tree();
    one_phrase();
}

/// A text is read for a root that is one line: one byte or more, and no line feed; and is no larger than a script may be.
pub fn roots_are_lines()
    ensures some { (text root : List ℕ) (spec : Specified) → IsRead text root spec → root ≢ [] }
    ensures line { (text root : List ℕ) (spec : Specified) → IsRead text root spec → All (λ b. b ≢ 10) root }
    ensures small { (text root : List ℕ) (spec : Specified) → IsRead text root spec → length text ≤ 65536 }
{}
