//! A law of tokens. Its function does nothing: the contract is the law.
ghost use Rattle.std.specs.Prelude.{◌≡◌, ℕ, List};
ghost use Rattle.tokens.specs.Lexeme.{Lexeme};
ghost use Rattle.tokens.specs.Text.{HasTokens};

/// A text has one list of tokens at most.
pub fn one_token_list()
    ensures { (text : List ℕ) (ws vs : List Lexeme) → HasTokens text ws → HasTokens text vs → ws ≡ vs }
{}
