//! Laws of netlists: what parts tokens, that a text has one meaning, and that a netlist that is read can be flattened.
//!
//! To the layers above it gives laws and no code: each function is a law, whose clause holds of the definitions, whoever
//! computes them. Lemma files whose names end in `Examples` are small cases worked out by hand.
#![tactic(auto)]

mod gaps;
mod netlists;

pub use gaps::blanks_comments_attributes_and_directives_part_tokens;
pub use netlists::{netlists_have_one_meaning, read_netlists_can_be_flattened};
