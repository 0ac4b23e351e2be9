//! Tokens that aren't words: operators, brackets and separators.
ghost use Rattle.std.specs.Prelude.{◌≡◌};
ghost use Rattle.tokens.specs.Spelling.{symbol_text, refused_symbol_text};

/// An operator, a bracket or a separator.
#[derive(Clone, Copy, PartialEq, Eq)]
pub enum Symbol {
    /// `->`
    Arrow,
    /// `<-`
    LeftArrow,
    /// `[]`
    ExternalChoice,
    /// `|~|`
    InternalChoice,
    /// `|||`
    Interleaving,
    /// `;`
    Semicolon,
    /// `/\`
    Interrupt,
    /// `\`
    Hiding,
    /// `[|`
    OpenSharing,
    /// `|]`
    CloseSharing,
    /// `[`
    OpenBracket,
    /// `||`
    DoubleBar,
    /// `]`
    CloseBracket,
    /// `[[`
    OpenRenaming,
    /// `]]`
    CloseRenaming,
    /// `{`
    OpenBrace,
    /// `}`
    CloseBrace,
    /// `{|`
    OpenEvents,
    /// `|}`
    CloseEvents,
    /// `(`
    OpenParenthesis,
    /// `)`
    CloseParenthesis,
    /// `..`
    Range,
    /// `.`
    Dot,
    /// `?`
    Question,
    /// `!`
    Exclamation,
    /// `,`
    Comma,
    /// `:`
    Colon,
    /// `=`
    Definition,
    /// `|`
    Bar,
    /// `@`
    At,
    /// `&`
    Ampersand,
    /// `+`
    Plus,
    /// `-`
    Minus,
    /// `*`
    Times,
    /// `%`
    Percent,
    /// `==`
    Equal,
    /// `!=`
    NotEqual,
    /// `<`
    Less,
    /// `<=`
    LessOrEqual,
    /// `>`
    Greater,
    /// `>=`
    GreaterOrEqual,
}

/// A token of CSPM that this profile leaves out. It stands in no list of tokens, but takes part in the longest match.
#[derive(Clone, Copy)]
pub(crate) enum RefusedSymbol {
    /// `[>`
    Timeout,
    /// `|>`
    Exception,
    /// `<->`
    LinkedParallel,
    /// `/`
    Slash,
    /// `_`
    Underscore,
}

impl Symbol {
    /// How it is written.
    #[tactic(auto, unfolding(crate::specs::Spelling::symbol_text))]
    pub fn text(self) -> &'static [u8]
        ensures { result.now ≡ symbol_text self }
    {
        match self {
            Symbol::Arrow => b"->",
            Symbol::LeftArrow => b"<-",
            Symbol::ExternalChoice => b"[]",
            Symbol::InternalChoice => b"|~|",
            Symbol::Interleaving => b"|||",
            Symbol::Semicolon => b";",
            Symbol::Interrupt => b"/\\",
            Symbol::Hiding => b"\\",
            Symbol::OpenSharing => b"[|",
            Symbol::CloseSharing => b"|]",
            Symbol::OpenBracket => b"[",
            Symbol::DoubleBar => b"||",
            Symbol::CloseBracket => b"]",
            Symbol::OpenRenaming => b"[[",
            Symbol::CloseRenaming => b"]]",
            Symbol::OpenBrace => b"{",
            Symbol::CloseBrace => b"}",
            Symbol::OpenEvents => b"{|",
            Symbol::CloseEvents => b"|}",
            Symbol::OpenParenthesis => b"(",
            Symbol::CloseParenthesis => b")",
            Symbol::Range => b"..",
            Symbol::Dot => b".",
            Symbol::Question => b"?",
            Symbol::Exclamation => b"!",
            Symbol::Comma => b",",
            Symbol::Colon => b":",
            Symbol::Definition => b"=",
            Symbol::Bar => b"|",
            Symbol::At => b"@",
            Symbol::Ampersand => b"&",
            Symbol::Plus => b"+",
            Symbol::Minus => b"-",
            Symbol::Times => b"*",
            Symbol::Percent => b"%",
            Symbol::Equal => b"==",
            Symbol::NotEqual => b"!=",
            Symbol::Less => b"<",
            Symbol::LessOrEqual => b"<=",
            Symbol::Greater => b">",
            Symbol::GreaterOrEqual => b">=",
        }
    }
}

impl RefusedSymbol {
    /// How it is written.
    #[tactic(auto, unfolding(crate::specs::Spelling::refused_symbol_text))]
    pub(crate) fn text(self) -> &'static [u8]
        ensures { result.now ≡ refused_symbol_text self }
    {
        match self {
            RefusedSymbol::Timeout => b"[>",
            RefusedSymbol::Exception => b"|>",
            RefusedSymbol::LinkedParallel => b"<->",
            RefusedSymbol::Slash => b"/",
            RefusedSymbol::Underscore => b"_",
        }
    }
}
