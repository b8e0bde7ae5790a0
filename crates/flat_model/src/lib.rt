//! How modules and a library become one flat design.
//!
//! It gives instances, nets and their sources, the flat design and the faults of flattening. It has no behaviour.
#![tactic(auto)]
