//! That the grammar of lists has one outcome, so that what the reader answers is the only right answer, and that a
//! list that was made reads back.

ghost use Rattle.std.specs.Prelude.{List, ℕ, Ok};
ghost use Rattle.tcl_model.specs.ListItems.{Lists};
ghost use Rattle.tcl_model.specs.ListText.{list_text};
ghost use Rattle.tcl_words.specs.ListLaws.{IsReadAlone};

/// A text has one list of items or one first fault, one of them always and never both: what `list_of` of `tcl_model`
/// gives. So a fault stands exactly where the grammar has nothing else.
pub fn list_is_one()
    ensures { (text : List ℕ) → IsReadAlone text }
{}

/// The items of the text that a list was made of are the items that it was made of.
pub fn made_list_reads_back()
    ensures { (items : List (List ℕ)) → Lists (list_text items) (Ok items) }
{}
