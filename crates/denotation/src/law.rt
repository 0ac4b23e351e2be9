//! A law of scripts. The function does nothing: its contract is the law.
ghost use Rattle.std.specs.Prelude.{◌≡◌};
ghost use Rattle.syntax.specs.Grammar.{Syntax};
ghost use Rattle.term.specs.Specs.{Specified};
ghost use Rattle.denotation.specs.Denotes.{Denotes, Root};

/// A script denotes one alphabet and one list of bodies at most for a root.
pub fn one_specification()
    ensures { (script : Syntax) (root : Root) (first second : Specified) → Denotes script root first → Denotes script root second → first.names ≡ second.names → first ≡ second }
{}
