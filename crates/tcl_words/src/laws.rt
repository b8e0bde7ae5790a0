//! That the grammar has one outcome, so that what the reader answers is the only right answer.

ghost use Rattle.std.specs.Prelude.{List, ℕ};
ghost use Rattle.tcl_words.specs.Laws.{HasOneFirst, HasOneSplit};

/// At a place and a line of a text stands one first command with one end, or none, or one fault, and never
/// two of these. So a fault stands exactly where the grammar has nothing else.
pub fn first_is_one()
    ensures { (text : List ℕ) (from line : ℕ) → HasOneFirst text from line }
{}

/// A text has one list of commands or one first fault, and never both.
pub fn split_is_one()
    ensures { (text : List ℕ) → HasOneSplit text }
{}
