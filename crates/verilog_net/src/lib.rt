//! Structural Verilog (IEEE 1364-2005) read as modules.
//!
//! It gives the layer above the modules of a netlist, or the first fault of its text with its line. It leaves to others
//! what the modules are over a library.
#![tactic(auto)]

mod checking;
mod lexing;
mod meaning;
mod parsing;
mod read;
mod syntax;

pub use read::read_verilog;
pub use source_types::{Assign, Bit, Instance, Link, Links, Module, Port, Range, Wire};
