//! Laws of functions and libraries: what is a blank, what is read is spelled so, a text has one meaning, and a library
//! that is read can be used.
//!
//! To the layers above it gives laws and no code: each function is a law, whose clause holds of the definitions, whoever
//! computes them. Lemma files whose names end in `Examples` are small cases worked out by hand.
#![tactic(auto)]

mod characters;
mod functions;
mod libraries;

pub use characters::comments_and_continued_lines_are_blanks;
pub use functions::{functions_are_read_as_spelled, functions_spell_one_expression};
pub use libraries::{libraries_have_one_meaning, read_libraries_can_be_used};
