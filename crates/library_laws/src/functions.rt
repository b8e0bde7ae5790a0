//! That the text of a cell's function is read as its grammar spells it.

ghost use Rattle.std.specs.Prelude.{List, ℕ};
ghost use Rattle.function_model.specs.FunctionGrammar.{IsReadAsSpelled, SpellsOne};
ghost use Rattle.pin_types.specs.declared.functions.Expr.{Expr};

/// The expression that is read of a text, byte by byte, is one that the grammar spells so; and each expression that the
/// grammar spells so is read of it. So a text is refused exactly where the grammar has no expression for it.
pub fn functions_are_read_as_spelled()
    ensures { (names : List (List ℕ)) (text : List ℕ) (e : Expr) → IsReadAsSpelled names text e }
{}

/// A text spells one expression.
pub fn functions_spell_one_expression()
    ensures { (names : List (List ℕ)) (text : List ℕ) → SpellsOne names text }
{}
