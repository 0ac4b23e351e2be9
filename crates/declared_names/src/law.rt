//! A law of scripts. Its function does nothing: the contract is the law.
ghost use Rattle.std.specs.Prelude.{◌≡◌, ℕ, List, true};
ghost use Rattle.syntax.specs.Grammar.{Syntax};
ghost use Rattle.syntax.specs.Script.{HasTree};
ghost use Rattle.declared_names.specs.LanguageNames.{has_names};

/// The names in the tree of a text are names of the language.
pub fn trees_have_names()
    ensures { (text : List ℕ) (t : Syntax) → HasTree text t → has_names t ≡ true }
{}
