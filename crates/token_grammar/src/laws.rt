//! What is true of the texts of every grammar in which the next token decides.

ghost use Rattle.std.specs.Prelude.{◌≡◌, List, Option};
ghost use Rattle.token_grammar.specs.declared.grammar.SyntaxError.{SyntaxError};
ghost use Rattle.token_grammar.specs.Machine.{error_of};
ghost use Rattle.token_grammar.specs.Texts.{ErrorIs};

use crate::grammar::Grammar;

/// The stack machine finds the first syntax error of each text.
pub fn machine_finds_the_error<G: Grammar>()
    ensures { (start : G.Symbol) (kinds : List G.Kind) → ErrorIs G.table start kinds (error_of G.table start kinds) }
{}

/// A text has one first syntax error, or none.
pub fn error_is_one<G: Grammar>()
    ensures { (start : G.Symbol) (kinds : List G.Kind) (one other : Option SyntaxError)
        → ErrorIs G.table start kinds one → ErrorIs G.table start kinds other → one ≡ other }
{}
