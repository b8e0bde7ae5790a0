//! Laws of timing, and worked examples: graphs, arrivals, paths, winners, limits and classes.
//!
//! To the layers above it gives laws and no code: each function is a law, whose clause holds of the definitions, whoever
//! computes them. Lemma files whose names end in `Examples` are small cases worked out by hand.
#![tactic(auto)]

mod classes;
mod timings;

pub use classes::prefixes_lose_no_met_list;
pub use timings::{
    candidates_are_paths, clocks_arrive_at_their_sources, facts_match_as_their_path,
    false_paths_alone_take_limits, graphs_of_designs_are_well_formed,
    launching_and_checked_pins_end_paths, one_exception_wins, paths_have_one_limit,
    winners_are_best_matches,
};
