//! Boolean functions of library cells.
//!
//! It gives the layer above `parse`, which reads a function's text, `parse_prepared`, which reads one of many among the
//! same names, and `Table`, the truth table of a function of at most 10 inputs, with what known inputs make of it. It
//! leaves to others which pins a cell has and which of them are known.
#![tactic(auto)]

mod known;
mod names;
mod numbers;
mod operands;
mod parsing;
mod pending;
mod reading;
mod table;

pub use known::Known;
pub use names::Names;
pub use numbers::{Numbers, places_of};
pub use parsing::{parse, parse_prepared};
pub use table::Table;
