//! The flat design: modules of a netlist over a library become one list of pins, cells and nets.
//!
//! It gives the layer above `flatten`, which makes the design of a netlist over a library, or names its first fault
//! with its line, and the design without a pin (`empty`). It leaves reading to the crates of the two languages, and
//! arcs to the timing graph.
#![tactic(auto)]

mod assemble;
mod drivers;
mod elaborate;
mod empty_design;
mod flattening;
mod items;
mod names;
mod ranges;

pub use empty_design::empty;
pub use flattening::flatten;
