//! What a grammar is, and what a syntax error is.

ghost use Rattle.std.specs.Prelude.{◌≡◌, List, ℕ, Bool};
ghost use Rattle.std.specs.Option.{option_map};
ghost use Rattle.token_grammar.specs.Deciding.{Decides};
ghost use Rattle.token_grammar.specs.Texts.{Table};

/// The first syntax error in tokens that are to be a text: at the token that stands at a place, counted from 0, or
/// at their end,
/// where more tokens would have to follow.
#[derive(Clone, Copy, Debug, PartialEq, Eq)]
pub enum SyntaxError {
    Token(usize),
    End,
}

/// A grammar, given by its table.
pub trait Grammar {
    /// What the right sides of the table are made of, tokens with them.
    type Symbol: Copy + 'static;
    /// The kinds of token.
    type Kind: Copy;

    /// The table.
    ghost table: { Table Self.Symbol Self.Kind };

    /// The tokens that may stand after a symbol that is nothing.
    ghost follow: { Self.Symbol → Self.Kind → Bool };

    /// What stands after a token that a symbol begins with.
    fn next(symbol: Self::Symbol, kind: Self::Kind) -> Option<&'static [Self::Symbol]>
        ensures { option_map (λ after. after.now) result ≡ table.next symbol kind };

    /// A symbol may be nothing.
    fn is_nullable(symbol: Self::Symbol) -> bool
        ensures { result ≡ table.nullable symbol };

    /// The next token decides.
    ghost decides: { Decides table follow };
}
