//! Laws of Tcl texts: what brackets, braces and quotes pass over, and what parts words; and worked examples of scripts:
//! words, lists, built-in commands, calls of a host and whole runs.
//!
//! To the layers above it gives laws and no code: each function is a law, whose clause holds of the definitions, whoever
//! computes them. Lemma files whose names end in `Examples` are small cases worked out by hand.
#![tactic(auto)]

mod parted_texts;

pub use parted_texts::{
    blanks_and_continued_lines_part_words, braces_and_quotes_end_at_their_own,
    brackets_pass_over_words_whole, comments_end_at_the_first_free_newline,
    pairs_end_at_the_matching_one,
};
