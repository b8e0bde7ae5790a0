//! How clock edges relate in time.
//!
//! It gives the layer above `relation`, the setup and hold relation of two clock edges (`Relation`).
#![tactic(auto)]

mod common_divisor;
mod edge_laws;
mod edge_relation;

pub use edge_laws::{relation_is_unique, relation_of_edges_at_one_time, relation_of_equal_edges};
pub use edge_relation::relation;
pub use timing_types::Relation;
