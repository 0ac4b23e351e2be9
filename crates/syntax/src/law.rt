//! Laws of scripts and phrases. Each function does nothing: its contract is the law.
ghost use Rattle.std.specs.Prelude.{◌≡◌, ℕ, List};
ghost use Rattle.tokens.specs.Lexeme.{Lexeme};
ghost use Rattle.syntax.specs.Grammar.{Syntax};
ghost use Rattle.syntax.specs.Script.{HasPhrase, HasTree, IsScript};

use tokens::one_token_list;

/// Tokens are those of one script's tree at most, and a text has one tree at most.
#[tactic(auto, using(crate::proofs::Complete::one_tree))]
pub fn one_tree()
    ensures tokens { (tokens : List Lexeme) (t u : Syntax) → IsScript tokens t → IsScript tokens u → t ≡ u }
    ensures text { (text : List ℕ) (t u : Syntax) → HasTree text t → HasTree text u → t ≡ u }
{
    one_token_list()
}

/// A text is one phrase at most.
pub fn one_phrase()
    ensures { (text : List ℕ) (t u : Syntax) → HasPhrase text t → HasPhrase text u → t ≡ u }
{
    one_token_list()
}
