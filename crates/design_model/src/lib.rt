//! Flat designs: pins, cells and their library arcs, and which designs are well-formed.
//!
//! It gives what all that is above a netlist speaks of. It has no behaviour.
#![tactic(auto)]
