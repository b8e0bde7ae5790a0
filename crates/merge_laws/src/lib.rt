//! Laws of the merge, and worked examples: clock identity, requirements and key lines.
//!
//! To the layers above it gives laws and no code: each function is a law, whose clause holds of the definitions, whoever
//! computes them. Lemma files whose names end in `Examples` are small cases worked out by hand.
#![tactic(auto)]

mod requirements;

pub use requirements::same_modes_have_same_requirements;
