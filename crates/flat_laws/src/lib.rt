//! Laws and worked examples of flat designs.
//!
//! To the layers above it gives laws and no code: each function is a law, whose clause holds of the definitions, whoever
//! computes them. Lemma files whose names end in `Examples` are small cases worked out by hand.
#![tactic(auto)]

mod flat_designs;

pub use flat_designs::netlists_have_one_flat_design;
